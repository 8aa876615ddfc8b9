//! Rows, holds and heads of one heap.
ghost use Rattle.std.specs.Prelude.{◌≡◌, ◌<◌, ◌≤◌, [], ◌∷◌, IfOk, OnErr, IsOk};
ghost use Rattle.node_heap.specs.Forms.{leaf, tree_cell, tree_node, trees_of, IsTree};
ghost use Rattle.node_heap.specs.Heap.{form_at, hold_count, half_holds};
ghost use Rattle.node_heap.specs.Calls.{Answered, Unchanged};

use elem_core::{NoMemory, Num};
use node_heap::{Head, Heap, Kind, Link, Sums};
use std::process::Abort;
use std::test::Fail;

// A leaf of two cells, which stands for a while in a pair with a third.
fn leaf_again<T: Drop>(heap: &mut Heap<T>, first: T, second: T, third: T) -> Result<Link, NoMemory>
    requires { hold_count heap.old < half_holds }
    ensures answered { IfOk result (λ link. Answered heap.old heap.new [] link 3 2) }
    ensures tree { IfOk result (λ link. IsTree (form_at heap.new) link (tree_node leaf (trees_of (tree_cell first ∷ tree_cell second ∷ [])))) }
    ensures refused { OnErr result (Unchanged heap.old heap.new) }
    ensures ample { 3 ≤ heap.old.spare_cells → 2 ≤ heap.old.spare_nodes → IsOk result }
{
    heap.reserve(3, 2)?;
    let first = heap.cell(first);
    let second = heap.cell(second);
    let both = heap.node(Head::Leaf, &[first, second]);
    let third = heap.cell(third);
    heap.hold(both);
    let pair = heap.node(Head::Pair, &[both, third]);
    heap.release(pair);
    heap.hold(both);
    heap.release(both);
    Ok(both)
}

// Two cells, and a leaf in which the first stands twice.
fn check_releases_a_leaf_with_its_cells(rt: &impl Abort, heap: &mut Heap<Num>) -> Result<(), Fail>
    requires { hold_count heap.old ≡ 0 }
{
    heap.reserve(2, 1)?;
    let first = heap.cell(Num(7));
    let second = heap.cell(Num(8));
    heap.hold(first);
    let leaf = heap.node(Head::Leaf, &[first, first, second]);
    assert!(rt; heap.owners(first) == 2);
    assert!(rt; heap.live() == 3);
    assert!(rt; heap.made() == 3);
    assert!(rt; heap.value(first) == Some(&Num(7)));
    assert!(rt; heap.links(leaf) == [first, first, second].as_slice());
    heap.release(leaf);
    assert!(rt; heap.live() == 0);
    assert!(rt; heap.made() == 3);
    let again = heap.cell(Num(9));
    let pair = heap.node(Head::Pair, &[again]);
    assert!(rt; heap.owners(pair) == 1);
    assert!(rt; heap.made() == 5);
    Ok(())
}

#[test]
fn releases_a_leaf_with_its_cells(rt: HostRuntime) -> Result<(), Fail> {
    let mut heap: Heap<Num> = Heap::new(rt.alloc());
    check_releases_a_leaf_with_its_cells(&rt, &mut heap)
}

fn check_reads_heads(rt: &impl Abort, heap: &mut Heap<u32>) -> Result<(), Fail>
    requires { hold_count heap.old ≡ 0 }
{
    heap.reserve(1, 1)?;
    let cell = heap.cell(7);
    let sums = Sums::from_slice(&[16, 17]);
    let inner = heap.node(Head::Inner { height: 1, sums }, &[]);
    assert!(rt; heap.head(cell).is_none());
    assert!(rt; heap.value(inner).is_none());
    match heap.head(inner) {
        Some(Head::Inner { height, sums }) => {
            assert_eq!(rt; *height, 1);
            assert_eq!(rt; sums.as_slice(), [16, 17].as_slice());
        }
        _ => assert!(rt; false),
    }
    Ok(())
}

#[test]
fn reads_heads(rt: HostRuntime) -> Result<(), Fail> {
    let mut heap: Heap<u32> = Heap::new(rt.alloc());
    check_reads_heads(&rt, &mut heap)
}

fn check_keeps_a_leaf(rt: &impl Abort, heap: &mut Heap<u32>) -> Result<(), Fail>
    requires { hold_count heap.old ≡ 0 }
{
    let leaf = leaf_again(heap, 1, 2, 3)?;
    assert!(rt; heap.live() == 3);
    assert!(rt; heap.made() == 5);
    assert!(rt; heap.owners(leaf) == 1);
    Ok(())
}

#[test]
fn keeps_a_leaf(rt: HostRuntime) -> Result<(), Fail> {
    let mut heap: Heap<u32> = Heap::new(rt.alloc());
    check_keeps_a_leaf(&rt, &mut heap)
}

// A row of a trie that outgrows its slot, and is given other heads.
fn check_outgrows_a_twig(rt: &impl Abort, heap: &mut Heap<Num>) -> Result<(), Fail>
    requires { hold_count heap.old ≡ 0 }
{
    heap.reserve(2, 1)?;
    let first = heap.cell(Num(7));
    let second = heap.cell(Num(8));
    heap.hold_all(&[first, first, first, first]);
    let head = Head::Trie {
        depth: 4,
        entries: 1,
        nodes: 2,
    };
    let row = heap.node(head, &[first, first, first, first, first]);
    heap.insert_link(row, 5, second);
    assert_eq!(rt; heap.trie(row).entries, 1);
    assert_eq!(rt;
        heap.links(row),
        [first, first, first, first, first, second].as_slice()
    );
    let sums = Sums::from_slice(&[4, 9]);
    heap.set_head(row, Head::Inner { height: 2, sums });
    assert!(rt; heap.sums(row) == [4, 9].as_slice());
    assert!(rt; heap.kind(row) == Some(Kind::Inner { height: 2 }));
    let head = Head::Trie {
        depth: 4,
        entries: 5,
        nodes: 6,
    };
    heap.set_head(row, head);
    assert_eq!(rt; heap.trie(row).nodes, 6);
    heap.release(row);
    assert!(rt; heap.live() == 0);
    Ok(())
}

#[test]
fn outgrows_a_twig(rt: HostRuntime) -> Result<(), Fail> {
    let mut heap: Heap<Num> = Heap::new(rt.alloc());
    check_outgrows_a_twig(&rt, &mut heap)
}

// A pair that is given the head of a row of a trie, and a third link.
fn check_outgrows_a_pair(rt: &impl Abort, heap: &mut Heap<Num>) -> Result<(), Fail>
    requires { hold_count heap.old ≡ 0 }
{
    heap.reserve(2, 1)?;
    let first = heap.cell(Num(7));
    let second = heap.cell(Num(8));
    heap.hold(first);
    let pair = heap.node(Head::Pair, &[first, first]);
    heap.insert_link(pair, 1, second);
    assert!(rt; heap.kind(pair) == Some(Kind::Pair));
    let head = Head::Trie {
        depth: 1,
        entries: 3,
        nodes: 4,
    };
    heap.set_head(pair, head);
    assert_eq!(rt; heap.trie(pair).nodes, 4);
    assert!(rt; heap.links(pair) == [first, second, first].as_slice());
    heap.set_head(pair, Head::Chain);
    assert!(rt; heap.kind(pair) == Some(Kind::Chain));
    heap.release(pair);
    assert!(rt; heap.live() == 0);
    Ok(())
}

#[test]
fn outgrows_a_pair(rt: HostRuntime) -> Result<(), Fail> {
    let mut heap: Heap<Num> = Heap::new(rt.alloc());
    check_outgrows_a_pair(&rt, &mut heap)
}
