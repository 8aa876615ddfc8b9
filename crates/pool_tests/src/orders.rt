//! First-seen order of rows that are shared.
ghost use Rattle.std.specs.Prelude.{◌≡◌, ◌+◌, ◌^◌, ◌<◌, IsSome};
ghost use Rattle.std.specs.List.{All};
ghost use Rattle.node_heap.specs.Heap.{row_at, hold_count, program_holds};
ghost use Rattle.pool_tests.specs.Rows.{AreThere, KeepsRows};

use elem_core::Num;
use node_heap::{Head, Heap, Link};
use pool_order::{Order, order};
use std::alloc::Global;
use std::marker::Model;
use std::process::Abort;

// Rows in one heap, each named by the turn in which it came, from 0 on. Each is held once beside what its parents own of it, so
// that all stay.
#[derive(Drop)]
struct Rows {
    heap: Heap<Num>,
    links: Vec<Link>,
}

impl Model for Rows {
    ghost use Rattle.std.specs.Prelude.{ℕ, vec_len};
    ghost use Rattle.pool_tests.specs.Rows.{AreThere};

    ghost Value = { ℕ };

    ghost view = { λ r. vec_len r.links };

    ghost invariant = { λ r. AreThere r.heap r.links.items };
}

// A new cell.
fn new_cell(rt: &impl Abort, heap: &mut Heap<Num>, number: u32) -> Link
    requires few { hold_count heap.old < program_holds }
    ensures there { IsSome (row_at heap.new result) }
    ensures others { KeepsRows heap.old heap.new }
    ensures count { hold_count heap.new ≡ hold_count heap.old + 1 }
{
    heap.reserve(1, 0).expect(rt, "memory");
    heap.cell(Num(number))
}

// A new node over two rows, which are held once more for it.
fn new_node(rt: &impl Abort, heap: &mut Heap<Num>, head: Head, left: Link, right: Link) -> Link
    requires left { IsSome (row_at heap.old left) }
    requires right { IsSome (row_at heap.old right) }
    requires few { hold_count heap.old < program_holds }
    ensures there { IsSome (row_at heap.new result) }
    ensures others { KeepsRows heap.old heap.new }
    ensures count { hold_count heap.new ≡ hold_count heap.old + 1 }
{
    heap.reserve(0, 1).expect(rt, "memory");
    heap.hold(left);
    heap.hold(right);
    heap.node(head, &[left, right])
}

// The link of this turn. No test makes nearly so many rows.
fn link_at(rt: &impl Abort, heap: &Heap<Num>, links: &Vec<Link>, turn: usize) -> Link
    requires { AreThere heap.now links.now.items }
    ensures there { IsSome (row_at heap.now result) }
    ensures few { hold_count heap.now < 2 ^ 40 }
{
    assert!(rt; links.len() < 1 << 40);
    assert!(rt; turn < links.len());
    links[turn]
}

// The links of these turns.
fn links_at(
    rt: &impl Abort,
    alloc: Global,
    heap: &Heap<Num>,
    links: &Vec<Link>,
    turns: &[usize],
) -> Vec<Link>
    requires { AreThere heap.now links.now.items }
    ensures { All (λ l. IsSome (row_at heap.now l)) result.items }
{
    let mut found = Vec::new(alloc);
    for turn in turns {
        let link = link_at(rt, heap, links, *turn);
        found.push(link).expect(rt, "memory");
    }
    found
}

impl Rows {
    // No row yet.
    fn start(alloc: Global) -> Rows {
        Rows {
            heap: Heap::new(alloc),
            links: Vec::new(alloc),
        }
    }

    // A cell more.
    fn cell(&mut self, rt: &impl Abort, number: u32) -> usize {
        assert!(rt; self.links.len() < 1 << 40);
        let link = new_cell(rt, &mut self.heap, number);
        self.links.push(link).expect(rt, "memory");
        self.links.len() - 1
    }

    // A node more, over the rows of these turns.
    fn node(&mut self, rt: &impl Abort, head: Head, left: usize, right: usize) -> usize {
        let left = link_at(rt, &self.heap, &self.links, left);
        let right = link_at(rt, &self.heap, &self.links, right);
        let link = new_node(rt, &mut self.heap, head, left, right);
        self.links.push(link).expect(rt, "memory");
        self.links.len() - 1
    }

    // The order from these roots.
    fn order(&self, rt: &impl Abort, alloc: Global, roots: &[usize]) -> Order {
        let roots = links_at(rt, alloc, &self.heap, &self.links, roots);
        order(alloc, &self.heap, &roots).expect(rt, "memory")
    }

    // Whether the order is of these rows, with no link behind its end.
    fn are(&self, rt: &impl Abort, listed: &Order, turns: &[usize]) -> bool {
        for (place, turn) in turns.iter().enumerate() {
            let link = link_at(rt, &self.heap, &self.links, *turn);
            if listed.at(place) != Some(link) || listed.place(link) != Some(place) {
                return false;
            }
        }
        listed.len() == turns.len() && listed.at(turns.len()).is_none()
    }

    // The place of the row of this turn in the order.
    fn place(&self, rt: &impl Abort, listed: &Order, turn: usize) -> Option<usize> {
        listed.place(link_at(rt, &self.heap, &self.links, turn))
    }
}

// A leaf with one cell twice, in both places of a pair, which stands in a second pair with the leaf.
#[test]
fn lists_a_shared_row_once(rt: HostRuntime) {
    let mut rows = Rows::start(rt.alloc());
    let cell = rows.cell(&rt, 7);
    let leaf = rows.node(&rt, Head::Leaf, cell, cell);
    let pair = rows.node(&rt, Head::Pair, leaf, leaf);
    let top = rows.node(&rt, Head::Pair, pair, leaf);
    let whole = rows.order(&rt, rt.alloc(), &[top]);
    assert!(rt; rows.are(&rt, &whole, &[cell, leaf, pair, top]));
    let none = rows.order(&rt, rt.alloc(), &[]);
    assert!(rt; rows.are(&rt, &none, &[]));
    assert!(rt; rows.place(&rt, &none, top).is_none());
}

// Two leaves of the same two cells, a pair of these each way, and a pair of the pairs, which is a root twice: each row is come to
// from several of the five roots, and is listed where the first of them comes to it.
#[test]
fn lists_what_five_roots_share_once(rt: HostRuntime) {
    let mut rows = Rows::start(rt.alloc());
    let one = rows.cell(&rt, 1);
    let two = rows.cell(&rt, 2);
    let up = rows.node(&rt, Head::Leaf, one, two);
    let down = rows.node(&rt, Head::Leaf, two, one);
    let left = rows.node(&rt, Head::Pair, up, down);
    let right = rows.node(&rt, Head::Pair, down, up);
    let top = rows.node(&rt, Head::Pair, left, right);
    let whole = rows.order(&rt, rt.alloc(), &[right, up, top, left, top]);
    assert!(rt; rows.are(&rt, &whole, &[two, one, down, up, right, left, top]));
    // From the other end the rows come in another order, and what no root leads to doesn't come.
    let some = rows.order(&rt, rt.alloc(), &[up, left, down, two, left]);
    assert!(rt; rows.are(&rt, &some, &[one, two, up, down, left]));
    assert!(rt; rows.place(&rt, &some, right).is_none());
}

// Sixty rows, each with two links to the next, have 2^60 ways down. A walk that went through a row at each link to it would
// never end.
#[test]
fn enters_shared_rows_once(rt: HostRuntime) {
    let mut rows = Rows::start(rt.alloc());
    let mut turns = Vec::new(rt.alloc());
    let mut top = rows.cell(&rt, 7);
    turns.push(top).expect(&rt, "memory");
    for _row in 0..60 {
        top = rows.node(&rt, Head::Pair, top, top);
        turns.push(top).expect(&rt, "memory");
    }
    let listed = rows.order(&rt, rt.alloc(), &[top]);
    assert!(rt; rows.are(&rt, &listed, &turns));
}
