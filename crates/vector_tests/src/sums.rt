//! An inner row keeps sums exactly where a child that isn't its last isn't full.
ghost use Rattle.std.specs.Prelude.{IsSome};
ghost use Rattle.node_heap.specs.Heap.{row_at};
ghost use Rattle.rrb_core.specs.Vector.{IsGoodVector};

use crate::versions::Versions;
use elem_core::Num;
use node_heap::{Head, Heap, Link};
use std::process::Abort;

/// Whether this row keeps sums.
pub fn has_sums(heap: &Heap<Num>, link: Link) -> bool
    requires { IsSome (row_at heap.now link) }
{
    match heap.head(link) {
        Some(Head::Inner { sums, .. }) => !sums.as_slice().is_empty(),
        _ => false,
    }
}

/// Whether the root of this vector does.
pub fn vector_has_sums(heap: &Heap<Num>, root: Link) -> bool
    requires { IsGoodVector heap.now root }
{
    has_sums(heap, root)
}

/// Whether two rows are of one kind, with the same sums and the same links.
pub fn are_alike(heap: &Heap<Num>, first: Link, second: Link) -> bool
    requires first { IsSome (row_at heap.now first) }
    requires second { IsSome (row_at heap.now second) }
{
    heap.kind(first) == heap.kind(second)
        && heap.sums(first) == heap.sums(second)
        && heap.links(first) == heap.links(second)
}

/// Whether the roots of two vectors are two such rows.
pub fn roots_are_alike(heap: &Heap<Num>, first: Link, second: Link) -> bool
    requires first { IsGoodVector heap.now first }
    requires second { IsGoodVector heap.now second }
{
    first != second && are_alike(heap, first, second)
}

/// Whether this row, or one at most so many links below it, keeps sums.
pub fn has_sums_within(heap: &Heap<Num>, link: Link, levels: u32) -> bool
    requires { IsSome (row_at heap.now link) }
{
    if has_sums(heap, link) {
        return true;
    }
    if levels == 0 {
        return false;
    }
    let below = heap.links(link);
    for place in 0..below.len() {
        if has_sums_within(heap, below[place], levels - 1) {
            return true;
        }
    }
    false
}

// 2,000 elements stand in a root, two inner rows below it and leaves, and all children but the last are full.
#[test]
fn pushes_keep_no_sums(rt: HostRuntime) {
    let mut versions = Versions::start(&rt, rt.alloc());
    let all = versions.push_all(&rt, 0, 0, 2_000);
    assert_eq!(rt; versions.height(&rt, all), 2);
    assert!(rt; !versions.has_sums_within(&rt, all, 3));
}

// The leaf of the first 20 elements is neither full nor the last.
fn check_a_join_keeps_sums(rt: &impl Abort, versions: &mut Versions) {
    let few = versions.push_all(rt, 0, 0, 20);
    let many = versions.push_all(rt, 0, 20, 1_044);
    let all = versions.join(rt, few, many);
    assert!(rt; versions.has_sums(rt, all));
    assert!(rt; versions.counts_to(rt, all, 1_044));
}

#[test]
fn a_join_keeps_sums(rt: HostRuntime) {
    let mut versions = Versions::start(&rt, rt.alloc());
    check_a_join_keeps_sums(&rt, &mut versions);
}
