//! Writes in place and counted reads.
ghost use Rattle.std.specs.Prelude.{◌≡◌, ℕ, IsSome, ◌+◌, ◌<◌, ◌≤◌, Some, length, option_copied};
ghost use Rattle.node_heap.specs.Forms.{value_of, IsTree, Tree};
ghost use Rattle.node_heap.specs.Heap.{row_at, form_at, links_at, holds_at, hold_count, one_at, HasSpares, most_holds};
ghost use Rattle.node_heap.specs.Calls.{KeepsHeld};
ghost use Rattle.node_heap.specs.InPlace.{child_at};
ghost use Rattle.node_heap.specs.Glass.{lent};

use elem_core::Num;
use node_heap::{
    Glass, Head, Heap, Link, Steps, alone_rows_stay, changes_add_up, changes_keep_the_rest,
    edits_by_an_owner, gains_add_up, owned_rows_keep_off, rows_are_owned, rows_come_and_go,
    unfolds_to_one_tree,
};
use std::marker::Brand;
use std::process::Abort;
use std::sync::ledger::{Blank, Ledger};
use std::test::Fail;

// Makes three rows its own, from a root down by first children, and puts a cell in place of the last one's first link.
// The root has another hold, whose version stays. Answers the new root, and the old first link with a hold.
fn write_third<T>(heap: &mut Heap<T>, root: Link, value: T) -> (Link, Link)
    requires version { 1 < holds_at heap.old root }
    requires top { 0 < length (links_at heap.old root) }
    requires middle { 0 < length (links_at heap.old (child_at heap.old root 0)) }
    requires last { 0 < length (links_at heap.old (child_at heap.old (child_at heap.old root 0) 0)) }
    requires spares { HasSpares heap.old 1 3 }
    requires few { hold_count heap.old < most_holds }
    ensures keeps { KeepsHeld (one_at root) heap.old heap.new }
    ensures stays { (t : Tree T) → IsTree (form_at heap.old) root t → IsTree (form_at heap.new) root t }
    ensures written { value_of (row_at heap.new (child_at heap.new (child_at heap.new (child_at heap.new result.0 0) 0) 0)) ≡ Some value }
    ensures old { result.1 ≡ child_at heap.old (child_at heap.old (child_at heap.old root 0) 0) 0 }
    ensures holds { (k : ℕ) → holds_at heap.new k + one_at root k ≡ holds_at heap.old k + (one_at result.0 k + one_at result.1 k) }
    ensures few_cells { heap.old.spare_cells ≤ heap.new.spare_cells + 1 }
    ensures few_nodes { heap.old.spare_nodes ≤ heap.new.spare_nodes + 3 }
{
    heap.rows_form_a_graph();
    let top = heap.own(root);
    let middle = heap.own_child(top, 0);
    let last = heap.own_child(middle, 0);
    let cell = heap.cell(value);
    let old = heap.replace(last, 0, cell);
    (top, old)
}

// The value of the row so many links down, by the first link of each row.
fn value_below<T>(heap: &Heap<T>, link: Link, levels: u32) -> Option<&T>
    requires { IsSome (row_at heap.now link) }
{
    if levels == 0 {
        return heap.value(link);
    }
    let first = heap.links(link).first()?;
    value_below(heap, *first, levels - 1)
}

fn check_writes_below_a_kept_version(rt: &impl Abort, heap: &mut Heap<Num>) -> Result<(), Fail>
    requires { hold_count heap.old ≡ 0 }
{
    heap.reserve(2, 6)?;
    let seven = heap.cell(Num(7));
    let leaf = heap.node(Head::Leaf, &[seven]);
    let pair = heap.node(Head::Pair, &[leaf]);
    let root = heap.node(Head::State, &[pair]);
    heap.hold(root);
    let (top, old) = write_third(heap, root, Num(8));
    assert!(rt; top != root);
    assert!(rt; old == seven);
    assert!(rt; heap.live() == 8);
    assert_eq!(rt; value_below(heap, root, 3), Some(&Num(7)));
    assert_eq!(rt; value_below(heap, top, 3), Some(&Num(8)));
    assert!(rt; heap.made() == 8);
    Ok(())
}

#[test]
fn writes_below_a_kept_version(rt: HostRuntime) -> Result<(), Fail> {
    let mut heap: Heap<Num> = Heap::new(rt.alloc());
    check_writes_below_a_kept_version(&rt, &mut heap)
}

#[test]
fn inserts_and_removes_links(rt: HostRuntime) -> Result<(), Fail> {
    let mut heap: Heap<Num> = Heap::new(rt.alloc());
    heap.reserve(2, 1)?;
    let first = heap.cell(Num(7));
    let second = heap.cell(Num(8));
    let row = heap.node(Head::Leaf, &[first]);
    heap.insert_link(row, 0, second);
    assert_eq!(rt; heap.links(row), [second, first].as_slice());
    assert!(rt; heap.remove_link(row, 1) == first);
    assert_eq!(rt; heap.links(row), [second].as_slice());
    unfolds_to_one_tree(&heap, row);
    rows_are_owned(&heap);
    assert_eq!(rt; heap.made(), 3);
    Ok(())
}

fn check_puts_a_head_in_place_of_another(rt: &impl Abort, heap: &mut Heap<Num>) -> Result<(), Fail>
    requires { hold_count heap.old ≡ 0 }
{
    heap.reserve(1, 1)?;
    let cell = heap.cell(Num(7));
    let row = heap.node(Head::Leaf, &[cell]);
    heap.set_head(row, Head::Chain);
    assert!(rt; matches!(heap.head(row), Some(Head::Chain)));
    assert!(rt; heap.links(row) == [cell].as_slice());
    assert!(rt; heap.made() == 2);
    Ok(())
}

#[test]
fn puts_a_head_in_place_of_another(rt: HostRuntime) -> Result<(), Fail> {
    let mut heap: Heap<Num> = Heap::new(rt.alloc());
    check_puts_a_head_in_place_of_another(&rt, &mut heap)
}

// The value of a row's first link, in two counted reads.
fn first_value<'h, T, L: Ledger>(
    glass: &Glass<'h, T>,
    link: Link,
    steps: &mut Steps<L>,
) -> Option<&'h T>
    requires { 0 < length (links_at (lent glass.now) link) }
    ensures value { option_copied result ≡ value_of (row_at (lent glass.now) (child_at (lent glass.now) link 0)) }
    ensures two { steps.new ≡ steps.old + 2 }
{
    let first = glass.links(link, steps)[0];
    glass.value(first, steps)
}

fn is_seven<L: Ledger>(heap: &Heap<Num>, link: Link, blank: Blank) -> bool
    requires name { blank.name ≡ L.name }
    requires parts { blank.parts ≡ L.parts }
    requires some { 0 < L.parts }
    requires linked { 0 < length (links_at heap.now link) }
{
    let mut steps = Steps::<L>::new(blank);
    first_value(&Glass::new(heap), link, &mut steps) == Some(&Num(7))
}

// That two steps are counted is a clause of the function that reads.
fn check_reads_through_a_glass(rt: &impl Abort, heap: &mut Heap<Num>) -> Result<(), Fail>
    requires { hold_count heap.old ≡ 0 }
{
    heap.reserve(1, 1)?;
    let seven = heap.cell(Num(7));
    let leaf = heap.node(Head::Leaf, &[seven]);
    assert!(rt; is_seven::<Brand>(heap, leaf, Blank::new(1)));
    Ok(())
}

#[test]
fn reads_through_a_glass(rt: HostRuntime) -> Result<(), Fail> {
    let mut heap: Heap<Num> = Heap::new(rt.alloc());
    check_reads_through_a_glass(&rt, &mut heap)
}

// The laws hold of all heaps: what is called here does nothing.
#[test]
fn laws_of_edits_in_place(_rt: HostRuntime) {
    owned_rows_keep_off::<Num>();
    changes_add_up::<Num>();
    changes_keep_the_rest::<Num>();
    edits_by_an_owner::<Num>();
    alone_rows_stay::<Num>();
    gains_add_up::<Num>();
    rows_come_and_go::<Num>();
}
