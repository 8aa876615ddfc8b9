//! Joins and cuts of vectors of numbers, beside those of lists.
ghost use Rattle.std.specs.Prelude.{◌≡◌, ◌+◌, ◌^◌, ◌<◌, ◌≤◌, length, vec_len, IfOk, OnOk};
ghost use Rattle.node_heap.specs.Heap.{holds_at, hold_count, quarter_holds};
ghost use Rattle.rrb_core.specs.Vector.{IsGoodVector};
ghost use Rattle.vector_tests.specs.Stands.{GivesBack};

use crate::samples::{number_in, pushed, pushed_all};
use crate::versions::Versions;
use elem_core::Num;
use node_heap::{Heap, Link};
use rrb_core::{Flex, FlexRef};
use rrb_join::{JoinFault, SliceFault, concat, drop_front, erase, insert, slice};
use std::alloc::Global;
use std::process::Abort;
use std::test::Fail;

// The turn of a vector of 2^31 elements, by doubling from one of this number.
fn half_of_too_many(rt: &impl Abort, versions: &mut Versions, number: u32) -> usize {
    let one = versions.push(rt, 0, number);
    let half = versions.double(rt, one, 31);
    assert!(rt; versions.len(rt, half) == 1 << 31);
    half
}

// Two vectors, each from one element by doubling, are together longer by one than a vector may be.
#[test]
fn refuses_a_join_past_the_greatest_length(rt: HostRuntime) {
    let mut versions = Versions::start(&rt, rt.alloc());
    let left = half_of_too_many(&rt, &mut versions, 3);
    let right = half_of_too_many(&rt, &mut versions, 4);
    assert_eq!(rt;
        versions.join_fault(&rt, left, right),
        Some(JoinFault::Long)
    );
}

// Joins a vector of height 1 to itself, and answers the turn of the vector of both. One row is made.
fn joined_at_the_root(rt: &impl Abort, versions: &mut Versions, turn: usize) -> usize {
    assert!(rt; versions.height(rt, turn) == 1);
    let made = versions.made();
    let joined = versions.join(rt, turn, turn);
    assert!(rt; versions.made().wrapping_sub(made) == 1);
    joined
}

// Two vectors of 128 elements have the height 1, and the leaves at their seam are full and stand side by side: the root
// alone is made. The roots of two vectors of 1,024 elements are full too, and the row over both alone is made.
fn check_joins_along_the_seam_alone(rt: &impl Abort, versions: &mut Versions) {
    let one = versions.push(rt, 0, 1);
    let root = versions.double(rt, one, 7);
    let joined = joined_at_the_root(rt, versions, root);
    let full = versions.double(rt, joined, 2);
    let higher = joined_at_the_root(rt, versions, full);
    assert!(rt; versions.height(rt, higher) == 2);
}

#[test]
fn joins_along_the_seam_alone(rt: HostRuntime) {
    let mut versions = Versions::start(&rt, rt.alloc());
    check_joins_along_the_seam_alone(&rt, &mut versions);
}

// A vector of this cell twice, by an insert and a join.
fn twice(heap: &mut Heap<Num>, cell: Link) -> Result<Link, Fail>
    requires held { 0 < holds_at heap.old cell }
    requires few { hold_count heap.old < quarter_holds }
    ensures good { IfOk result (λ l. IsGoodVector heap.new l) }
    ensures count { IfOk result (λ _. hold_count heap.new ≡ hold_count heap.old + 2) }
{
    let empty = Flex::empty(heap)?.into_root();
    let one = insert(heap, FlexRef::at(empty), 0, cell)?.into_root();
    let two = concat(heap, FlexRef::at(one), FlexRef::at(one))?.into_root();
    Ok(two)
}

// Its last element alone, by two cuts.
fn cut_to_one(heap: &mut Heap<Num>, two: Link) -> Result<Link, Fail>
    requires good { IsGoodVector heap.old two }
    requires few { hold_count heap.old < quarter_holds }
    ensures good { IfOk result (λ l. IsGoodVector heap.new l) }
    ensures count { IfOk result (λ _. hold_count heap.new ≡ hold_count heap.old + 2) }
{
    let rest = drop_front(heap, FlexRef::at(two), 1)?.into_root();
    let tail = slice(heap, FlexRef::at(rest), 0, 1)?.into_root();
    Ok(tail)
}

// How many elements the vector has without its first.
fn left_without_first(heap: &mut Heap<Num>, root: Link) -> Result<u32, Fail>
    requires good { IsGoodVector heap.old root }
    requires few { hold_count heap.old < quarter_holds }
{
    let left = erase(heap, FlexRef::at(root), 0, 1)?.into_root();
    Ok(FlexRef::at(left).len(heap))
}

// Whether the vector is of this element alone.
fn is_one(heap: &Heap<Num>, root: Link, element: Link) -> bool
    requires good { IsGoodVector heap.now root }
{
    let vector = FlexRef::at(root);
    vector.get(heap, 0) == Some(element) && vector.get(heap, 1) == None
}

// Each call once, on a few elements.
fn check_inserts_joins_and_cuts(rt: &impl Abort, heap: &mut Heap<Num>) -> Result<(), Fail>
    requires few { hold_count heap.old ≡ 0 }
{
    heap.reserve(1, 0)?;
    let cell = heap.cell(Num(1));
    let two = twice(heap, cell)?;
    let tail = cut_to_one(heap, two)?;
    assert!(rt; is_one(heap, tail, cell));
    assert!(rt; left_without_first(heap, tail)? == 0);
    Ok(())
}

#[test]
fn inserts_joins_and_cuts(rt: HostRuntime) -> Result<(), Fail> {
    let mut heap: Heap<Num> = Heap::new(rt.alloc());
    check_inserts_joins_and_cuts(&rt, &mut heap)
}

// Whether the part of a vector of four elements is refused.
fn refuses_a_part(heap: &mut Heap<Num>, from: u32, to: u32) -> Result<bool, Fail>
    requires few { hold_count heap.old ≡ 0 }
{
    let empty = Flex::empty(heap)?.into_root();
    let four = pushed_all(heap, empty, 0, 4)?;
    match slice(heap, FlexRef::at(four), from, to) {
        Ok(part) => {
            let _root = part.into_root();
            Ok(false)
        }
        Err(fault) => Ok(fault == SliceFault::Range),
    }
}

#[test]
fn refuses_a_part_that_ends_before_it_begins(rt: HostRuntime) -> Result<(), Fail> {
    let mut heap: Heap<Num> = Heap::new(rt.alloc());
    assert!(rt; refuses_a_part(&mut heap, 3, 2)?);
    Ok(())
}

// That the vector holds these numbers, in order and no more.
fn reads(heap: &Heap<Num>, root: Link, numbers: &[u32]) -> Result<(), Fail>
    requires { IsGoodVector heap.now root }
{
    let vector = FlexRef::at(root);
    let len = vector.len(heap);
    if len as usize != numbers.len() {
        return Err(Fail::new("the lengths differ"));
    }
    let mut lines = vector.lines(heap, 0, len);
    for number in numbers {
        match lines.next() {
            Some(element) => {
                if number_in(heap, element) != Some(*number) {
                    return Err(Fail::new("the numbers differ"));
                }
            }
            None => return Err(Fail::new("a number is missing")),
        }
    }
    Ok(())
}

// A new number at the index, in a vector beside this one, and in the list.
fn inserts_as_the_list(
    alloc: Global,
    heap: &mut Heap<Num>,
    root: Link,
    numbers: &[u32],
    index: u32,
) -> Result<(), Fail>
    requires good { IsGoodVector heap.old root }
    requires few { hold_count heap.old < quarter_holds }
    requires inside { index ≤ length numbers.now }
    ensures { OnOk result (GivesBack heap.old heap.new) }
{
    let mut list = Vec::from_slice(alloc, numbers)?;
    list.insert(index as usize, 7)?;
    heap.reserve(1, 0)?;
    let cell = heap.cell(Num(7));
    let new = insert(heap, FlexRef::at(root), index, cell)?.into_root();
    reads(heap, new, &list)?;
    Flex::from_root(new).release(heap);
    Ok(())
}

// The middle third erased, in a vector beside this one, and in the list.
fn erases_as_the_list(
    alloc: Global,
    heap: &mut Heap<Num>,
    root: Link,
    numbers: &[u32],
) -> Result<(), Fail>
    requires good { IsGoodVector heap.old root }
    requires few { hold_count heap.old < quarter_holds }
    requires short { length numbers.now < 2 ^ 31 }
    ensures { OnOk result (GivesBack heap.old heap.new) }
{
    let from = numbers.len() / 3;
    let to = 2 * numbers.len() / 3;
    let mut list = Vec::from_slice(alloc, &numbers[..from])?;
    list.extend_from_slice(&numbers[to..])?;
    let new = erase(heap, FlexRef::at(root), from as u32, to as u32)?.into_root();
    reads(heap, new, &list)?;
    Flex::from_root(new).release(heap);
    Ok(())
}

// Two vectors joined, and the join with a number more at each end and without its middle third.
fn joins_as_the_lists(
    alloc: Global,
    heap: &mut Heap<Num>,
    left: Link,
    left_numbers: &[u32],
    right: Link,
    right_numbers: &[u32],
) -> Result<(), Fail>
    requires left { IsGoodVector heap.old left }
    requires right { IsGoodVector heap.old right }
    requires few { hold_count heap.old + 1 < quarter_holds }
    requires short { length left_numbers.now + length right_numbers.now < 2 ^ 31 }
    ensures { OnOk result (GivesBack heap.old heap.new) }
{
    let mut list = Vec::from_slice(alloc, left_numbers)?;
    list.extend_from_slice(right_numbers)?;
    let new = concat(heap, FlexRef::at(left), FlexRef::at(right))?.into_root();
    reads(heap, new, &list)?;
    inserts_as_the_list(alloc, heap, new, &list, 0)?;
    inserts_as_the_list(alloc, heap, new, &list, list.len() as u32)?;
    erases_as_the_list(alloc, heap, new, &list)?;
    Flex::from_root(new).release(heap);
    Ok(())
}

// A part of the vector, and that part joined to the vector on either side.
fn cuts_as_the_list(
    alloc: Global,
    heap: &mut Heap<Num>,
    root: Link,
    numbers: &[u32],
    from: u32,
    to: u32,
) -> Result<(), Fail>
    requires good { IsGoodVector heap.old root }
    requires held { 0 < holds_at heap.old root }
    requires few { hold_count heap.old + 2 < quarter_holds }
    requires short { length numbers.now < 2 ^ 30 }
    requires order { from ≤ to }
    requires inside { to ≤ length numbers.now }
    ensures { OnOk result (GivesBack heap.old heap.new) }
{
    let list = &numbers[from as usize..to as usize];
    let part = slice(heap, FlexRef::at(root), from, to)?.into_root();
    reads(heap, part, list)?;
    joins_as_the_lists(alloc, heap, root, numbers, part, list)?;
    joins_as_the_lists(alloc, heap, part, list, root, numbers)?;
    Flex::from_root(part).release(heap);
    Ok(())
}

// The numbers from 0 to below this one.
fn numbers_to(alloc: Global, to: u32) -> Result<Vec<u32>, Fail>
    ensures { IfOk result (λ v. vec_len v ≡ to) }
{
    let mut numbers = Vec::new(alloc);
    for number in 0..to {
        numbers.push(number)?;
    }
    Ok(numbers)
}

// The vector of 2,000 such numbers.
fn numbers_in_a_vector(heap: &mut Heap<Num>) -> Result<Link, Fail>
    requires few { hold_count heap.old ≡ 0 }
    ensures good { IfOk result (λ l. IsGoodVector heap.new l) }
    ensures held { IfOk result (λ l. 0 < holds_at heap.new l) }
    ensures count { IfOk result (λ _. hold_count heap.new ≡ 2001) }
{
    let empty = Flex::empty(heap)?.into_root();
    let most = pushed_all(heap, empty, 0, 1_999)?;
    // The contract of this call tells that its root is held.
    let root = pushed(heap, most, 1_999)?;
    Ok(root)
}

// Parts of a vector of 2,000 numbers, each joined to it on either side, with a number more at each end and without the middle
// third. All hold what the same of a list holds, and leave no row behind once they are given up.
fn check_cuts_and_joins_as_lists_do(
    rt: &impl Abort,
    alloc: Global,
    heap: &mut Heap<Num>,
) -> Result<(), Fail>
    requires few { hold_count heap.old ≡ 0 }
{
    let numbers = numbers_to(alloc, 2_000)?;
    let root = numbers_in_a_vector(heap)?;
    let live = heap.live();
    for step in 0..28u32 {
        let from = 37 * step;
        cuts_as_the_list(alloc, heap, root, &numbers, from, 2_000 - from)?;
        assert!(rt; heap.live() == live, "at {step}");
    }
    Ok(())
}

#[test]
fn cuts_and_joins_as_lists_do(rt: HostRuntime) -> Result<(), Fail> {
    let mut heap: Heap<Num> = Heap::new(rt.alloc());
    check_cuts_and_joins_as_lists_do(&rt, rt.alloc(), &mut heap)
}
