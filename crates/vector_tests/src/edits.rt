//! Vectors of numbers that are edited in place.
ghost use Rattle.std.specs.Prelude.{◌<◌};

use crate::editing::{Editing, Placed};
use edit_vec::{edits_keep_elements, paths_of_small_vectors};
use elem_core::Num;
use rrb_core::same_row_is_as_good;
use std::alloc::Global;
use std::process::Abort;

// So many numbers, counted from 0, in order.
fn counted(rt: &impl Abort, alloc: Global, count: u32) -> Editing {
    let mut editing = Editing::start(rt, alloc);
    for number in 0..count {
        editing.add_cell(rt, number);
        editing.push(rt);
    }
    editing
}

// Whether the number at each index is the index by this many, and one more than the length is none.
fn repeats(editing: &Editing, period: u32, len: u32) -> bool
    requires { 0 < period }
{
    for index in 0..len {
        if editing.number(index) != Some(index % period) {
            return false;
        }
    }
    editing.len() == len && editing.number(len).is_none()
}

// 1,100 numbers, and the cells of others for as many sets and two more.
fn cells_to_set(rt: &impl Abort, alloc: Global) -> Editing {
    let mut editing = counted(rt, alloc, 1100);
    assert!(rt; editing.height() == 2);
    for index in 0..1102 {
        editing.add_cell(rt, 2201 - index);
    }
    editing
}

// Without a second owner 1,100 sets to other numbers make no row.
fn sets_alone(rt: &impl Abort, editing: &mut Editing, made: u64) {
    for index in 0..1100 {
        assert!(rt; editing.set(rt, index) == Some(index));
    }
    assert!(rt; editing.made() == made);
    assert!(rt; editing.counts_from(1100, 1100));
}

// Sets the element, which holds this number, and tells how many rows were made.
fn made_by_set(rt: &impl Abort, editing: &mut Editing, index: u32, number: u32) -> u64 {
    let made = editing.made();
    assert!(rt; editing.set(rt, index) == Some(number));
    editing.made().wrapping_sub(made)
}

// Beside a kept vector the root is copied where it is opened, and the two rows below it where the first element is set; the
// second stands in the same leaf.
fn sets_beside(rt: &impl Abort, editing: &mut Editing, made: u64) {
    assert!(rt; editing.made().wrapping_sub(made) == 1);
    assert!(rt; made_by_set(rt, editing, 0, 1100) == 2);
    assert!(rt; made_by_set(rt, editing, 1, 1101) == 0);
    assert!(rt; editing.number(0) == Some(2200) && editing.number(1) == Some(2201));
    assert!(rt; editing.kept_counts_from(1100, 1100));
}

#[test]
fn sets_in_place(rt: HostRuntime) {
    let editing = cells_to_set(&rt, rt.alloc());
    let made = editing.made();
    let mut editing = editing.reopened(&rt);
    sets_alone(&rt, &mut editing, made);
    editing.keep(&rt);
    let mut editing = editing.reopened(&rt);
    sets_beside(&rt, &mut editing, made);
    assert!(rt; editing.close() == 0);
}

// Takes all elements out, from the last down.
fn pop_all(rt: &impl Abort, editing: &mut Editing, len: u32) {
    for turn in 0..len {
        assert!(rt; editing.pop(rt) == Some(len - 1 - turn));
        assert!(rt; editing.len() == len - 1 - turn);
    }
    assert!(rt; editing.pop(rt) == None);
    assert!(rt; editing.height() == 0);
}

// How many rows are made while 1,100 elements are taken out.
fn made_by_pops(rt: &impl Abort, editing: &mut Editing) -> u64 {
    let made = editing.made();
    pop_all(rt, editing, 1100);
    editing.made().wrapping_sub(made)
}

#[test]
fn pops_in_place(rt: HostRuntime) {
    let mut editing = counted(&rt, rt.alloc(), 1100);
    assert!(rt; made_by_pops(&rt, &mut editing) == 0);
    assert!(rt; editing.close() == 0);
}

// The kept vector has a root, two rows below it and 35 leaves: a pop copies each where it is first written.
#[test]
fn pops_beside_a_kept_vector(rt: HostRuntime) {
    let mut editing = counted(&rt, rt.alloc(), 1100);
    editing.keep(&rt);
    assert!(rt; made_by_pops(&rt, &mut editing) == 38);
    assert!(rt; editing.kept_counts_from(0, 1100));
    assert!(rt; editing.close() == 0);
}

// Leaves of 17 elements, so that each row above keeps sums.
fn seventeens(rt: &impl Abort, alloc: Global) -> Editing {
    let mut editing = counted(rt, alloc, 17);
    for _time in 0..6 {
        editing = editing.doubled(rt);
    }
    editing
}

// A root that keeps sums and has a second owner is copied where it is opened, with its sums and its links.
#[test]
fn opens_a_copy_of_a_row_that_keeps_sums(rt: HostRuntime) {
    let mut editing = seventeens(&rt, rt.alloc());
    editing.keep(&rt);
    let editing = editing.reopened(&rt);
    assert!(rt; editing.has_sums() && editing.has_copied_root());
    assert!(rt; editing.close() == 0);
}

// Puts 202 numbers behind 1,088.
fn pushes_behind_sums(rt: &impl Abort, editing: &mut Editing) {
    assert!(rt; editing.has_sums());
    assert!(rt; repeats(editing, 17, 1088));
    for number in 1088..1290 {
        editing.add_cell(rt, number % 17);
        editing.push(rt);
    }
    assert!(rt; repeats(editing, 17, 1290));
}

// Sets the element in the middle to another number and back, and takes the last one out, which is that of the index.
fn sets_and_pops(rt: &impl Abort, editing: &mut Editing, index: u32) {
    editing.add_cell(rt, index);
    assert!(rt; editing.set(rt, index / 2) == Some(index / 2 % 17));
    editing.add_cell(rt, index / 2 % 17);
    assert!(rt; editing.set(rt, index / 2) == Some(index));
    assert!(rt; editing.pop(rt) == Some(index % 17));
    assert!(rt; editing.len() == index);
}

#[test]
fn edits_rows_that_keep_sums(rt: HostRuntime) {
    let mut editing = seventeens(&rt, rt.alloc());
    pushes_behind_sums(&rt, &mut editing);
    for turn in 0..1290 {
        sets_and_pops(&rt, &mut editing, 1289 - turn);
    }
    assert!(rt; editing.close() == 0);
}

// Puts 1,100 numbers in the vector of a pair, and another in place of one.
fn fills_a_place(rt: &impl Abort, placed: &mut Placed) {
    for number in 0..1100 {
        placed.push(rt, number);
    }
    assert!(rt; placed.set(rt, 700, 5) == Some(700));
}

// That they stand there.
fn reads_a_place(rt: &impl Abort, placed: &Placed) {
    for index in 0..1100 {
        let number = if index == 700 { 5 } else { index };
        assert!(rt; placed.number(index) == Some(number));
    }
    assert!(rt; placed.len() == 1100 && placed.first() == Some(99));
}

// The vector is the second link of a pair.
#[test]
fn edits_at_a_place(rt: HostRuntime) {
    let mut placed = Placed::start(&rt, rt.alloc());
    fills_a_place(&rt, &mut placed);
    reads_a_place(&rt, &placed);
    assert!(rt; placed.close() == 0);
}

// The laws hold of all heaps: what is called here does nothing.
#[test]
fn laws_of_edits(_rt: HostRuntime) {
    paths_of_small_vectors();
    edits_keep_elements::<Num>();
    same_row_is_as_good::<Num>();
}
