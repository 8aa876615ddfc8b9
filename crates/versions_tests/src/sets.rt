//! Sets of numbers and of texts by their versions.
use crate::samples::{name, text};
use elem_core::{Num, Text};
use std::alloc::Global;
use std::process::Abort;
use std::test::Fail;
use versions::{Sets, Version};

// A call that makes a version of another.
#[derive(Clone, Copy, Drop)]
enum Making {
    Insert(u32),
    Remove(u32),
    Copy,
}

// A call that makes a version of two others.
#[derive(Clone, Copy, Drop)]
enum Merge {
    Union,
    Both,
    Less,
}

// The version that the call makes.
fn made(rt: &impl Abort, sets: &mut Sets<Num>, version: Version, making: Making) -> Version {
    assert!(rt; sets.holds(version));
    match making {
        Making::Insert(number) => match sets.insert(version, Num(number)) {
            Ok(more) => more,
            Err(_) => panic!(rt; "memory"),
        },
        Making::Remove(number) => sets.remove(version, &Num(number)).expect(rt, "memory"),
        Making::Copy => sets.copy(version).expect(rt, "memory"),
    }
}

// The version that the call makes of both.
fn merged(
    rt: &impl Abort,
    sets: &mut Sets<Num>,
    first: Version,
    second: Version,
    merge: Merge,
) -> Version {
    assert!(rt; sets.holds(first) && sets.holds(second));
    let made = match merge {
        Merge::Union => sets.union(first, second),
        Merge::Both => sets.both(first, second),
        Merge::Less => sets.less(first, second),
    };
    made.expect(rt, "memory")
}

// Edits the version itself.
fn edit(rt: &impl Abort, sets: &mut Sets<Num>, version: Version, making: Making) {
    assert!(rt; sets.holds(version));
    match making {
        Making::Insert(number) => assert!(rt; sets.insert_here(version, Num(number)).is_ok()),
        Making::Remove(number) => sets.remove_here(version, &Num(number)).expect(rt, "memory"),
        Making::Copy => {}
    }
}

// How many numbers the version has, and their sum up to 2^32 - 1; none where it isn't held.
fn sums(sets: &Sets<Num>, version: Version) -> Option<(usize, u32)> {
    if !sets.holds(version) {
        return None;
    }
    let mut sum: u32 = 0;
    for number in sets.iter(version) {
        sum = sum.saturating_add(number.0);
    }
    Some((sets.len(version), sum))
}

// The version with the numbers 4 and this one.
fn four_and(rt: &impl Abort, sets: &mut Sets<Num>, other: u32) -> Version {
    let none = sets.empty().expect(rt, "memory");
    let four = made(rt, sets, none, Making::Insert(4));
    made(rt, sets, four, Making::Insert(other))
}

fn check_makes_sets(rt: &impl Abort, sets: &mut Sets<Num>) {
    let first = four_and(rt, sets, 7);
    let cases = [
        (Making::Insert(9), (3, 20)),
        (Making::Insert(7), (2, 11)),
        (Making::Remove(7), (1, 4)),
        (Making::Remove(9), (2, 11)),
        (Making::Copy, (2, 11)),
    ];
    for (making, told) in cases {
        let version = made(rt, sets, first, making);
        assert!(rt; sums(sets, version) == Some(told));
        assert!(rt; sums(sets, first) == Some((2, 11)));
    }
}

#[test]
fn makes_sets(rt: HostRuntime) {
    let mut sets = Sets::new(rt.alloc());
    check_makes_sets(&rt, &mut sets);
}

fn check_edits_sets(rt: &impl Abort, sets: &mut Sets<Num>) {
    let first = four_and(rt, sets, 7);
    let kept = made(rt, sets, first, Making::Copy);
    let cases = [
        (Making::Insert(9), (3, 20)),
        (Making::Insert(7), (3, 20)),
        (Making::Remove(4), (2, 16)),
        (Making::Remove(5), (2, 16)),
    ];
    for (making, told) in cases {
        edit(rt, sets, first, making);
        assert!(rt; sums(sets, first) == Some(told));
    }
    assert!(rt; sums(sets, kept) == Some((2, 11)));
}

#[test]
fn edits_sets(rt: HostRuntime) {
    let mut sets = Sets::new(rt.alloc());
    check_edits_sets(&rt, &mut sets);
}

fn check_merges_sets(rt: &impl Abort, sets: &mut Sets<Num>) {
    let first = four_and(rt, sets, 7);
    let second = four_and(rt, sets, 9);
    let cases = [
        (Merge::Union, (3, 20)),
        (Merge::Both, (1, 4)),
        (Merge::Less, (1, 7)),
    ];
    for (merge, told) in cases {
        let version = merged(rt, sets, first, second, merge);
        assert!(rt; sums(sets, version) == Some(told));
        assert!(rt; sums(sets, second) == Some((2, 13)));
    }
}

#[test]
fn merges_sets(rt: HostRuntime) {
    let mut sets = Sets::new(rt.alloc());
    check_merges_sets(&rt, &mut sets);
}

// Forgets the version, and tells whether another has these numbers still.
fn forgets(
    rt: &impl Abort,
    sets: &mut Sets<Num>,
    version: Version,
    other: Version,
    told: (usize, u32),
) -> bool {
    assert!(rt; sets.holds(version));
    sets.forget(version);
    !sets.holds(version) && sums(sets, other) == Some(told)
}

fn check_copies_and_forgets_sets(rt: &impl Abort, sets: &mut Sets<Num>) {
    let first = four_and(rt, sets, 7);
    let rows = sets.rows();
    let copy = made(rt, sets, first, Making::Copy);
    assert_eq!(rt; sets.rows(), rows);
    assert!(rt; forgets(rt, sets, first, copy, (2, 11)));
    sets.keys_rise();
}

#[test]
fn copies_and_forgets_sets(rt: HostRuntime) {
    let mut sets = Sets::new(rt.alloc());
    check_copies_and_forgets_sets(&rt, &mut sets);
}

// How many rows were made so far.
fn made_rows(sets: &Sets<Num>) -> u64 {
    sets.parts().0.made()
}

// How many rows the edit makes.
fn rows_of(rt: &impl Abort, sets: &mut Sets<Num>, version: Version, making: Making) -> u64 {
    let before = made_rows(sets);
    edit(rt, sets, version, making);
    made_rows(sets).wrapping_sub(before)
}

// The numbers have one first digit, so their cells lie in a row under the root.
fn check_makes_a_way_of_sets_only_where_it_is_shared(rt: &impl Abort, sets: &mut Sets<Num>) {
    let set = four_and(rt, sets, 36);
    // The cell alone, as both rows are the version's own.
    assert_eq!(rt; rows_of(rt, sets, set, Making::Insert(68)), 1);
    let before = made_rows(sets);
    made(rt, sets, set, Making::Copy);
    assert_eq!(rt; made_rows(sets), before);
    // With both rows, and alone again.
    assert_eq!(rt; rows_of(rt, sets, set, Making::Insert(100)), 3);
    assert_eq!(rt; rows_of(rt, sets, set, Making::Insert(132)), 1);
}

#[test]
fn makes_a_way_of_sets_only_where_it_is_shared(rt: HostRuntime) {
    let mut sets = Sets::new(rt.alloc());
    check_makes_a_way_of_sets_only_where_it_is_shared(&rt, &mut sets);
}

// The same of removals, which leave two numbers or more in that row.
fn check_cuts_a_way_of_sets_only_where_it_is_shared(rt: &impl Abort, sets: &mut Sets<Num>) {
    let set = four_and(rt, sets, 36);
    for number in [68, 100, 132] {
        edit(rt, sets, set, Making::Insert(number));
    }
    assert_eq!(rt; rows_of(rt, sets, set, Making::Remove(68)), 0);
    let kept = made(rt, sets, set, Making::Copy);
    // Both rows, and nothing again.
    assert_eq!(rt; rows_of(rt, sets, set, Making::Remove(100)), 2);
    assert_eq!(rt; rows_of(rt, sets, set, Making::Remove(132)), 0);
    assert!(rt; sums(sets, set) == Some((2, 40)));
    assert!(rt; sums(sets, kept) == Some((4, 272)));
}

#[test]
fn cuts_a_way_of_sets_only_where_it_is_shared(rt: HostRuntime) {
    let mut sets = Sets::new(rt.alloc());
    check_cuts_a_way_of_sets_only_where_it_is_shared(&rt, &mut sets);
}

// Whether both versions are held and have equal keys.
fn are_same(sets: &Sets<Num>, left: Version, right: Version) -> bool {
    sets.holds(left) && sets.holds(right) && sets.same(left, right)
}

fn check_compares_sets(rt: &impl Abort, sets: &mut Sets<Num>) {
    let first = four_and(rt, sets, 7);
    let again = four_and(rt, sets, 7);
    let second = four_and(rt, sets, 9);
    assert!(rt; are_same(sets, first, again));
    assert!(rt; are_same(sets, first, first));
    assert!(rt; !are_same(sets, first, second));
}

#[test]
fn compares_sets(rt: HostRuntime) {
    let mut sets = Sets::new(rt.alloc());
    check_compares_sets(&rt, &mut sets);
}

// How many versions are held.
fn held(sets: &Sets<Num>) -> u32 {
    let mut count: u32 = 0;
    for _version in sets.versions() {
        count = count.saturating_add(1);
    }
    count
}

fn check_tells_the_versions_of_sets(rt: &impl Abort, sets: &mut Sets<Num>) -> Result<(), Fail> {
    assert_eq!(rt; sets.rows(), 0);
    let none = sets.empty()?;
    let one = made(rt, sets, none, Making::Insert(7));
    assert_eq!(rt; held(sets), 2);
    assert!(rt; forgets(rt, sets, none, one, (1, 7)));
    assert_eq!(rt; held(sets), 1);
    Ok(())
}

#[test]
fn tells_the_versions_of_sets(rt: HostRuntime) -> Result<(), Fail> {
    let mut sets = Sets::new(rt.alloc());
    check_tells_the_versions_of_sets(&rt, &mut sets)
}

// The version of these two texts.
fn texts(
    rt: &impl Abort,
    alloc: Global,
    sets: &mut Sets<Text>,
    lines: [&str; 2],
) -> Result<Version, Fail> {
    let mut version = sets.empty()?;
    for line in lines {
        assert!(rt; sets.holds(version));
        version = match sets.insert(version, text(rt, alloc, line)) {
            Ok(more) => more,
            Err(_) => panic!(rt; "memory"),
        };
    }
    Ok(version)
}

// The version without the text of this name.
fn without(rt: &impl Abort, sets: &mut Sets<Text>, version: Version, letters: &str) -> Version {
    assert!(rt; sets.holds(version));
    sets.remove(version, &name(rt, letters))
        .expect(rt, "memory")
}

// Whether the version is held and has the text of this name.
fn has(rt: &impl Abort, sets: &Sets<Text>, version: Version, letters: &str) -> bool {
    sets.holds(version) && sets.contains(version, &name(rt, letters))
}

// Whether the version is held and has no text.
fn is_empty(sets: &Sets<Text>, version: Version) -> bool {
    sets.holds(version) && sets.is_empty(version)
}

fn check_keeps_sets_of_texts(
    rt: &impl Abort,
    alloc: Global,
    sets: &mut Sets<Text>,
) -> Result<(), Fail> {
    let two = texts(rt, alloc, sets, ["rice", "tea"])?;
    let left = without(rt, sets, two, "rice");
    let none = without(rt, sets, left, "tea");
    assert!(rt; has(rt, sets, two, "rice") && has(rt, sets, left, "tea"));
    assert!(rt; !has(rt, sets, left, "rice"));
    assert!(rt; is_empty(sets, none) && !is_empty(sets, left));
    Ok(())
}

#[test]
fn keeps_sets_of_texts(rt: HostRuntime) -> Result<(), Fail> {
    let mut sets = Sets::new(rt.alloc());
    check_keeps_sets_of_texts(&rt, rt.alloc(), &mut sets)
}
