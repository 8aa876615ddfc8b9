//! Vectors of numbers in one heap.
ghost use Rattle.std.specs.Prelude.{◌≡◌, ◌<◌, IfOk};
ghost use Rattle.node_heap.specs.Heap.{hold_count, program_holds};
ghost use Rattle.rrb_core.specs.Vector.{IsGoodVector};

use crate::samples::{number_at, pushed_all};
use crate::versions::Versions;
use elem_core::Num;
use node_heap::{Heap, Link};
use rrb_core::{Flex, FlexRef, SetFault, take, vectors_stay};
use std::alloc::Global;
use std::process::Abort;
use std::test::Fail;

// A vector of 32,769 numbers, beside an early one.
fn pushed_to_height_three(rt: &impl Abort, versions: &mut Versions) -> usize {
    let early = versions.push_all(rt, 0, 0, 1024);
    let all = versions.push_all(rt, early, 1024, 32_769);
    assert!(rt; versions.height(rt, all) == 3);
    assert!(rt; versions.counts_to(rt, all, 32_769));
    assert!(rt; versions.counts_to(rt, early, 1024));
    all
}

#[test]
fn pushes_to_height_three(rt: HostRuntime) {
    let mut versions = Versions::start(&rt, rt.alloc());
    let all = pushed_to_height_three(&rt, &mut versions);
    // No row is freed, so none is made in vain.
    assert_eq!(rt;
        versions.set_fault(&rt, all, 32_769),
        (Some(SetFault::Range), 0)
    );
}

// A vector of 600 numbers, beside one with another number among them.
fn changed_within(rt: &impl Abort, versions: &mut Versions) -> usize {
    let all = versions.push_all(rt, 0, 0, 600);
    let changed = versions.set(rt, all, 544, 7);
    assert!(rt; versions.len(rt, changed) == 600);
    for index in 0..600 {
        let want = if index == 544 { 7 } else { index };
        assert!(rt; versions.number(rt, changed, index) == Some(want));
    }
    assert!(rt; versions.counts_to(rt, all, 600));
    all
}

#[test]
fn sets_within_the_length_alone(rt: HostRuntime) {
    let mut versions = Versions::start(&rt, rt.alloc());
    let all = changed_within(&rt, &mut versions);
    // No row is freed, so none is made in vain.
    assert_eq!(rt;
        versions.set_fault(&rt, all, 600),
        (Some(SetFault::Range), 0)
    );
}

// The first program of `docs/CONTAINERS.md`: a cell and a leaf come with each push, and the vectors before it stay.
fn check_keeps_the_vector_before_each_push(rt: &impl Abort, versions: &mut Versions) {
    let one = versions.push(rt, 0, 7);
    let two = versions.push(rt, one, 8);
    for (turn, len) in [(two, 2), (one, 1), (0, 0)] {
        assert!(rt; versions.len(rt, turn) == len);
    }
    for (turn, index, number) in [(two, 0, 7), (two, 1, 8), (one, 0, 7)] {
        assert!(rt; versions.number(rt, turn, index) == Some(number));
    }
    assert!(rt; versions.live() == 5);
}

#[test]
fn keeps_the_vector_before_each_push(rt: HostRuntime) {
    let mut versions = Versions::start(&rt, rt.alloc());
    check_keeps_the_vector_before_each_push(&rt, &mut versions);
}

// Each push makes a cell and a leaf, and from the 33rd element on a root besides. A `set` makes as much.
fn check_makes_the_rows_on_the_way_alone(rt: &impl Abort, versions: &mut Versions) {
    let full = versions.push_all(rt, 0, 0, 32);
    assert!(rt; versions.height(rt, full) == 0 && versions.made() == 65);
    let more = versions.push(rt, full, 32);
    assert!(rt; versions.height(rt, more) == 1 && versions.made() == 68);
    let all = versions.push_all(rt, more, 33, 64);
    assert!(rt; versions.made() == 161);
    let _changed = versions.set(rt, all, 40, 7);
    assert!(rt; versions.made() == 164);
}

#[test]
fn makes_the_rows_on_the_way_alone(rt: HostRuntime) {
    let mut versions = Versions::start(&rt, rt.alloc());
    check_makes_the_rows_on_the_way_alone(&rt, &mut versions);
}

// So many first elements, and the length and the height of the vector of these, which counts from 0.
const FRONTS: [(u32, u32, u8); 6] = [
    (0, 0, 0),
    (32, 32, 0),
    (33, 33, 1),
    (1024, 1024, 1),
    (1025, 1025, 2),
    (5000, 1100, 2),
];

fn check_takes_fronts(rt: &impl Abort, versions: &mut Versions) {
    let all = versions.push_all(rt, 0, 0, 1100);
    for (count, len, height) in FRONTS {
        let front = versions.take(rt, all, count);
        assert!(rt; versions.counts_to(rt, front, len));
        assert!(rt; versions.height(rt, front) == height, "of {count}");
        assert!(rt; versions.walked(rt, front) == len as usize, "of {count}");
    }
    // No row was freed, so none was made in vain.
    assert!(rt; versions.made() == versions.live() as u64);
}

#[test]
fn takes_fronts(rt: HostRuntime) {
    let mut versions = Versions::start(&rt, rt.alloc());
    check_takes_fronts(&rt, &mut versions);
}

// So many elements, and the height of the vector that is made of them at once, and how many rows it has: each is full but the
// last of a height.
const FILLED: [(u32, u8, u64); 7] = [
    (0, 0, 1),
    (1, 0, 1),
    (32, 0, 1),
    (33, 1, 3),
    (1024, 1, 33),
    (1025, 2, 36),
    (2000, 2, 66),
];

fn check_fills_rows(rt: &impl Abort, alloc: Global, versions: &mut Versions) {
    let all = versions.push_all(rt, 0, 0, 2000);
    for (count, height, rows) in FILLED {
        let front = versions.take(rt, all, count);
        let before = versions.made();
        let filled = versions.fill(rt, alloc, front);
        assert!(rt; versions.made().wrapping_sub(before) == rows, "of {count}");
        assert!(rt; versions.height(rt, filled) == height, "of {count}");
        assert!(rt; versions.counts_to(rt, filled, count));
    }
}

#[test]
fn fills_rows(rt: HostRuntime) {
    let mut versions = Versions::start(&rt, rt.alloc());
    check_fills_rows(&rt, rt.alloc(), &mut versions);
}

// The root of the vector of the first 60 numbers, of whose two holds one is given up.
fn shared_and_released(heap: &mut Heap<Num>, all: Link) -> Result<Link, Fail>
    requires good { IsGoodVector heap.old all }
    requires few { hold_count heap.old < program_holds }
    ensures good { IfOk result (λ l. IsGoodVector heap.new l) }
{
    let front = take(heap, FlexRef::at(all), 60)?;
    let more = front.share(heap);
    front.release(heap);
    vectors_stay(heap);
    Ok(more.into_root())
}

// That it has those numbers, and that its iterator begins where it is told.
fn reads_from_forty(rt: &impl Abort, heap: &Heap<Num>, kept: Link)
    requires { IsGoodVector heap.now kept }
{
    assert!(rt; FlexRef::at(kept).len(heap) == 60);
    let mut lines = FlexRef::at(kept).lines(heap, 40, 60);
    for index in 40..60 {
        assert!(rt; lines.next() == FlexRef::at(kept).get(heap, index));
        assert!(rt; number_at(heap, kept, index) == Some(index));
    }
    assert!(rt; lines.next() == None);
}

// One of two holds is given up: the vector stays.
fn check_shares_and_releases_once(rt: &impl Abort, heap: &mut Heap<Num>) -> Result<(), Fail>
    requires few { hold_count heap.old ≡ 0 }
{
    let empty = Flex::empty(heap)?.into_root();
    let all = pushed_all(heap, empty, 0, 100)?;
    let kept = shared_and_released(heap, all)?;
    reads_from_forty(rt, heap, kept);
    Ok(())
}

#[test]
fn shares_and_releases_once(rt: HostRuntime) -> Result<(), Fail> {
    let mut heap: Heap<Num> = Heap::new(rt.alloc());
    check_shares_and_releases_once(&rt, &mut heap)
}
