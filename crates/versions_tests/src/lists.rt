//! Lists of numbers by their versions, and a list with its history.
use elem_core::Num;
use std::process::Abort;
use std::test::Fail;
use versions::{Fault, History, Lists, Refused, Version};

// A call that makes a version of another.
#[derive(Clone, Copy, Drop)]
enum Making {
    Push(u32),
    Set(u32, u32),
    Insert(u32, u32),
    Remove(u32),
    Pop,
    Slice(u32, u32),
    Copy,
}

// A call that edits a version itself.
#[derive(Clone, Copy, Drop)]
enum Edit {
    Push(u32),
    Set(u32, u32),
    Pop,
}

// Whether the version is held and has these numbers, in order and no more.
fn reads(lists: &Lists<Num>, version: Version, numbers: &[u32]) -> bool {
    if !lists.holds(version) || lists.len(version) as usize != numbers.len() {
        return false;
    }
    for index in 0..numbers.len() {
        if lists.get(version, index as u32) != Some(&Num(numbers[index])) {
            return false;
        }
    }
    lists.get(version, lists.len(version)).is_none()
}

// What the call says, without the element that it hands back.
fn told<R>(answer: Result<R, Refused<Num>>) -> Result<R, Fault> {
    match answer {
        Ok(made) => Ok(made),
        Err(refused) => Err(refused.fault),
    }
}

// The version that the call makes.
fn made(
    rt: &impl Abort,
    lists: &mut Lists<Num>,
    version: Version,
    making: Making,
) -> Result<Version, Fault> {
    assert!(rt; lists.holds(version));
    match making {
        Making::Push(number) => told(lists.push(version, Num(number))),
        Making::Set(index, number) => told(lists.set(version, index, Num(number))),
        Making::Insert(index, number) => told(lists.insert(version, index, Num(number))),
        Making::Remove(index) => lists.remove(version, index),
        Making::Pop => lists.pop(version),
        Making::Slice(from, to) => lists.slice(version, from, to),
        Making::Copy => Ok(lists.copy(version)?),
    }
}

// Edits the version itself.
fn edit_here(
    rt: &impl Abort,
    lists: &mut Lists<Num>,
    version: Version,
    edit: Edit,
) -> Result<(), Fault> {
    assert!(rt; lists.holds(version));
    match edit {
        Edit::Push(number) => told(lists.push_here(version, Num(number))),
        Edit::Set(index, number) => told(lists.set_here(version, index, Num(number))),
        Edit::Pop => lists.pop_here(version),
    }
}

// The numbers of one version and then those of another.
fn joined(
    rt: &impl Abort,
    lists: &mut Lists<Num>,
    left: Version,
    right: Version,
) -> Result<Version, Fault> {
    assert!(rt; lists.holds(left) && lists.holds(right));
    lists.concat(left, right)
}

// The first numbers of the version and the others.
fn parted(
    rt: &impl Abort,
    lists: &mut Lists<Num>,
    version: Version,
    index: u32,
) -> Result<(Version, Version), Fault> {
    assert!(rt; lists.holds(version));
    lists.split_at(version, index)
}

// Forgets the version.
fn forget(rt: &impl Abort, lists: &mut Lists<Num>, version: Version) {
    assert!(rt; lists.holds(version));
    lists.forget(version);
}

// Whether two versions are held and have equal numbers.
fn alike(lists: &Lists<Num>, left: Version, right: Version) -> bool {
    lists.holds(left) && lists.holds(right) && lists.same(left, right)
}

// The sum of the numbers of the version, up to 2^32 - 1.
fn total(rt: &impl Abort, lists: &Lists<Num>, version: Version) -> u32 {
    assert!(rt; lists.holds(version));
    let mut sum: u32 = 0;
    for number in lists.iter(version) {
        sum = sum.saturating_add(number.0);
    }
    sum
}

// The version of so many numbers, from 1 on.
fn counted(rt: &impl Abort, lists: &mut Lists<Num>, count: u32) -> Result<Version, Fault> {
    let list = lists.empty()?;
    for number in 0..count {
        edit_here(rt, lists, list, Edit::Push(number.wrapping_add(1)))?;
    }
    Ok(list)
}

// Whether the call makes a version of these numbers of 1, 2 and 3, which stay.
fn makes(rt: &impl Abort, lists: &mut Lists<Num>, making: Making, numbers: &[u32]) -> bool {
    let Ok(list) = counted(rt, lists, 3) else {
        return false;
    };
    let Ok(version) = made(rt, lists, list, making) else {
        return false;
    };
    reads(lists, version, numbers) && reads(lists, list, &[1, 2, 3])
}

fn check_makes_versions(rt: &impl Abort, lists: &mut Lists<Num>) {
    let cases: [(Making, &[u32]); 8] = [
        (Making::Push(4), &[1, 2, 3, 4]),
        (Making::Set(0, 7), &[7, 2, 3]),
        (Making::Insert(1, 5), &[1, 5, 2, 3]),
        (Making::Insert(3, 5), &[1, 2, 3, 5]),
        (Making::Remove(1), &[1, 3]),
        (Making::Pop, &[1, 2]),
        (Making::Slice(1, 2), &[2]),
        (Making::Copy, &[1, 2, 3]),
    ];
    for (making, numbers) in cases {
        assert!(rt; makes(rt, lists, making, numbers));
    }
}

#[test]
fn makes_versions(rt: HostRuntime) {
    let mut lists = Lists::new(rt.alloc());
    check_makes_versions(&rt, &mut lists);
}

// Whether the call is refused an index past the end of 1, 2 and 3, which stay.
fn refuses(rt: &impl Abort, lists: &mut Lists<Num>, making: Making) -> bool {
    let Ok(list) = counted(rt, lists, 3) else {
        return false;
    };
    made(rt, lists, list, making) == Err(Fault::Range) && reads(lists, list, &[1, 2, 3])
}

fn check_refuses_an_index_past_the_end(rt: &impl Abort, lists: &mut Lists<Num>) {
    let cases = [
        Making::Set(3, 9),
        Making::Insert(4, 9),
        Making::Remove(3),
        Making::Slice(2, 1),
        Making::Slice(0, 4),
    ];
    for making in cases {
        assert!(rt; refuses(rt, lists, making));
    }
}

#[test]
fn refuses_an_index_past_the_end(rt: HostRuntime) {
    let mut lists = Lists::new(rt.alloc());
    check_refuses_an_index_past_the_end(&rt, &mut lists);
}

fn check_cuts_and_joins(rt: &impl Abort, lists: &mut Lists<Num>) -> Result<(), Fail> {
    let list = counted(rt, lists, 3)?;
    let (front, back) = parted(rt, lists, list, 2)?;
    let both = joined(rt, lists, back, front)?;
    assert!(rt; reads(lists, front, &[1, 2]));
    assert!(rt; reads(lists, back, &[3]));
    assert!(rt; reads(lists, both, &[3, 1, 2]));
    assert!(rt; parted(rt, lists, list, 4) == Err(Fault::Range));
    Ok(())
}

#[test]
fn cuts_and_joins(rt: HostRuntime) -> Result<(), Fail> {
    let mut lists = Lists::new(rt.alloc());
    check_cuts_and_joins(&rt, &mut lists)
}

// The empty version, of which nothing can be taken.
fn check_refuses_to_pop_the_empty_list(
    rt: &impl Abort,
    lists: &mut Lists<Num>,
) -> Result<(), Fail> {
    let none = lists.empty()?;
    assert!(rt; made(rt, lists, none, Making::Pop) == Err(Fault::Range));
    assert!(rt; edit_here(rt, lists, none, Edit::Pop) == Err(Fault::Range));
    assert!(rt; reads(lists, none, &[]));
    Ok(())
}

#[test]
fn refuses_to_pop_the_empty_list(rt: HostRuntime) -> Result<(), Fail> {
    let mut lists = Lists::new(rt.alloc());
    check_refuses_to_pop_the_empty_list(&rt, &mut lists)
}

fn check_copies_and_forgets(rt: &impl Abort, lists: &mut Lists<Num>) -> Result<(), Fail> {
    let list = counted(rt, lists, 3)?;
    let copy = made(rt, lists, list, Making::Copy)?;
    assert!(rt; copy != list && alike(lists, copy, list));
    forget(rt, lists, list);
    assert!(rt; !lists.holds(list) && reads(lists, copy, &[1, 2, 3]));
    assert_eq!(rt; total(rt, lists, copy), 6);
    Ok(())
}

#[test]
fn copies_and_forgets(rt: HostRuntime) -> Result<(), Fail> {
    let mut lists = Lists::new(rt.alloc());
    check_copies_and_forgets(&rt, &mut lists)
}

// Whether the edit leaves the version with these numbers.
fn edits(
    rt: &impl Abort,
    lists: &mut Lists<Num>,
    version: Version,
    change: Edit,
    numbers: &[u32],
) -> bool {
    edit_here(rt, lists, version, change).is_ok() && reads(lists, version, numbers)
}

fn check_edits_a_version_in_place(rt: &impl Abort, lists: &mut Lists<Num>) -> Result<(), Fail> {
    let list = counted(rt, lists, 3)?;
    let kept = made(rt, lists, list, Making::Copy)?;
    let cases: [(Edit, &[u32]); 3] = [
        (Edit::Push(4), &[1, 2, 3, 4]),
        (Edit::Set(0, 9), &[9, 2, 3, 4]),
        (Edit::Pop, &[9, 2, 3]),
    ];
    for (change, numbers) in cases {
        assert!(rt; edits(rt, lists, list, change, numbers));
    }
    assert!(rt; !alike(lists, list, kept) && reads(lists, kept, &[1, 2, 3]));
    assert!(rt; edit_here(rt, lists, list, Edit::Set(3, 0)) == Err(Fault::Range));
    Ok(())
}

#[test]
fn edits_a_version_in_place(rt: HostRuntime) -> Result<(), Fail> {
    let mut lists = Lists::new(rt.alloc());
    check_edits_a_version_in_place(&rt, &mut lists)
}

// How many rows there are after the edit.
fn rows_after(rt: &impl Abort, lists: &mut Lists<Num>, version: Version, change: Edit) -> usize {
    let done = edit_here(rt, lists, version, change);
    assert!(rt; done.is_ok());
    lists.rows()
}

fn check_counts_rows(rt: &impl Abort, lists: &mut Lists<Num>) -> Result<(), Fail> {
    let list = counted(rt, lists, 3)?;
    // The root and the cells of three numbers.
    assert_eq!(rt; rows_after(rt, lists, list, Edit::Set(0, 9)), 4);
    let kept = made(rt, lists, list, Making::Copy)?;
    assert_eq!(rt; lists.rows(), 4);
    assert_eq!(rt; rows_after(rt, lists, list, Edit::Push(4)), 6);
    forget(rt, lists, list);
    assert_eq!(rt; lists.rows(), 4);
    forget(rt, lists, kept);
    assert_eq!(rt; lists.rows(), 0);
    Ok(())
}

#[test]
fn counts_rows(rt: HostRuntime) -> Result<(), Fail> {
    let mut lists = Lists::new(rt.alloc());
    check_counts_rows(&rt, &mut lists)
}

// How many rows were made so far.
fn made_rows(lists: &Lists<Num>) -> u64 {
    lists.parts().0.made()
}

// How many rows the edit makes.
fn rows_of(rt: &impl Abort, lists: &mut Lists<Num>, version: Version, change: Edit) -> u64 {
    let before = made_rows(lists);
    let done = edit_here(rt, lists, version, change);
    assert!(rt; done.is_ok());
    made_rows(lists).wrapping_sub(before)
}

// The edits of a list whose cells lie in two leaves under a root, which a copy shares.
fn check_makes_a_way_only_where_it_is_shared(
    rt: &impl Abort,
    lists: &mut Lists<Num>,
) -> Result<(), Fail> {
    let list = counted(rt, lists, 40)?;
    // The cell alone, as the root and both leaves are the version's own.
    assert_eq!(rt; rows_of(rt, lists, list, Edit::Set(0, 9)), 1);
    assert_eq!(rt; rows_of(rt, lists, list, Edit::Push(9)), 1);
    let before = made_rows(lists);
    made(rt, lists, list, Making::Copy)?;
    assert_eq!(rt; made_rows(lists), before);
    let cases = [
        // With a leaf and the root, with the other leaf, and alone again.
        (Edit::Set(0, 8), 3),
        (Edit::Push(8), 2),
        (Edit::Set(1, 8), 1),
    ];
    for (change, rows) in cases {
        assert_eq!(rt; rows_of(rt, lists, list, change), rows);
    }
    Ok(())
}

#[test]
fn makes_a_way_only_where_it_is_shared(rt: HostRuntime) -> Result<(), Fail> {
    let mut lists = Lists::new(rt.alloc());
    check_makes_a_way_only_where_it_is_shared(&rt, &mut lists)
}

// The same of pops, which take a number off the second leaf.
fn check_pops_a_way_only_where_it_is_shared(
    rt: &impl Abort,
    lists: &mut Lists<Num>,
) -> Result<(), Fail> {
    let list = counted(rt, lists, 40)?;
    assert_eq!(rt; rows_of(rt, lists, list, Edit::Pop), 0);
    let kept = made(rt, lists, list, Making::Copy)?;
    // The leaf and the root, and nothing again.
    assert_eq!(rt; rows_of(rt, lists, list, Edit::Pop), 2);
    assert_eq!(rt; rows_of(rt, lists, list, Edit::Pop), 0);
    assert_eq!(rt; total(rt, lists, list), 703);
    assert_eq!(rt; total(rt, lists, kept), 780);
    Ok(())
}

#[test]
fn pops_a_way_only_where_it_is_shared(rt: HostRuntime) -> Result<(), Fail> {
    let mut lists = Lists::new(rt.alloc());
    check_pops_a_way_only_where_it_is_shared(&rt, &mut lists)
}

// The numbers of the version, doubled so many times.
fn doubled(
    rt: &impl Abort,
    lists: &mut Lists<Num>,
    list: Version,
    times: u32,
) -> Result<Version, Fault> {
    let mut version = list;
    for _time in 0..times {
        version = joined(rt, lists, version, version)?;
    }
    Ok(version)
}

// Lists of 2^30 numbers that share all rows but those on one way. To look at each number would take long.
fn check_compares_lists_that_share_rows(
    rt: &impl Abort,
    lists: &mut Lists<Num>,
) -> Result<(), Fail> {
    let one = counted(rt, lists, 1)?;
    let list = doubled(rt, lists, one, 30)?;
    let equal = made(rt, lists, list, Making::Set(9, 1))?;
    let other = made(rt, lists, list, Making::Set(9, 2))?;
    assert!(rt; alike(lists, list, equal));
    assert!(rt; !alike(lists, list, other));
    Ok(())
}

#[test]
fn compares_lists_that_share_rows(rt: HostRuntime) -> Result<(), Fail> {
    let mut lists = Lists::new(rt.alloc());
    check_compares_lists_that_share_rows(&rt, &mut lists)
}

// Whether just these two versions are held.
fn holds_two(lists: &Lists<Num>, one: Version, two: Version) -> bool {
    let mut held = lists.versions();
    held.next() == Some(one) && held.next() == Some(two) && held.next().is_none()
}

fn check_tells_the_versions_that_are_held(
    rt: &impl Abort,
    lists: &mut Lists<Num>,
) -> Result<(), Fail> {
    let one = lists.empty()?;
    let two = made(rt, lists, one, Making::Push(1))?;
    assert!(rt; holds_two(lists, one, two));
    assert!(rt; is_empty(lists, one) && !is_empty(lists, two));
    Ok(())
}

#[test]
fn tells_the_versions_that_are_held(rt: HostRuntime) -> Result<(), Fail> {
    let mut lists = Lists::new(rt.alloc());
    check_tells_the_versions_that_are_held(&rt, &mut lists)
}

// Whether the version is held and has no number.
fn is_empty(lists: &Lists<Num>, version: Version) -> bool {
    lists.holds(version) && lists.is_empty(version)
}

// Whether the list of the history is this number alone.
fn is_one(history: &History<Num>, number: u32) -> bool {
    history.len() == 1 && !history.is_empty() && history.get(0) == Some(&Num(number))
}

// The history of an empty list, then of 1, then of 2.
fn one_and_two(history: &mut History<Num>) -> Result<(), Fault> {
    told(history.push(Num(1)))?;
    told(history.set(0, Num(2)))
}

fn check_goes_back_in_a_history(rt: &impl Abort, history: &mut History<Num>) -> Result<(), Fail> {
    one_and_two(history)?;
    assert!(rt; told(history.set(1, Num(3))) == Err(Fault::Range));
    assert!(rt; is_one(history, 2));
    assert!(rt; history.undo() && is_one(history, 1));
    assert!(rt; history.undo() && history.is_empty());
    assert!(rt; !history.undo() && history.iter().next().is_none());
    Ok(())
}

#[test]
fn goes_back_in_a_history(rt: HostRuntime) -> Result<(), Fail> {
    let mut history = History::new(rt.alloc())?;
    check_goes_back_in_a_history(&rt, &mut history)
}
