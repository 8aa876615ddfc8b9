//! Maps from numbers and from texts by their versions.
use crate::samples::{name, text};
use elem_core::{Num, Text};
use std::alloc::Global;
use std::process::Abort;
use std::test::Fail;
use versions::{Maps, Version};

// A call that makes a version of another, or edits it.
#[derive(Clone, Copy, Drop)]
enum Change {
    Insert(u32, u32),
    Remove(u32),
    Copy,
}

// The version that the call makes.
fn made(rt: &impl Abort, maps: &mut Maps<Num, u32>, version: Version, change: Change) -> Version {
    assert!(rt; maps.holds(version));
    match change {
        Change::Insert(key, value) => match maps.insert(version, Num(key), value) {
            Ok(more) => more,
            Err(_) => panic!(rt; "memory"),
        },
        Change::Remove(key) => maps.remove(version, &Num(key)).expect(rt, "memory"),
        Change::Copy => maps.copy(version).expect(rt, "memory"),
    }
}

// Edits the version itself.
fn edit(rt: &impl Abort, maps: &mut Maps<Num, u32>, version: Version, change: Change) {
    assert!(rt; maps.holds(version));
    match change {
        Change::Insert(key, value) => {
            assert!(rt; maps.insert_here(version, Num(key), value).is_ok());
        }
        Change::Remove(key) => maps.remove_here(version, &Num(key)).expect(rt, "memory"),
        Change::Copy => {}
    }
}

// How many keys the version has, and the sum of its values up to 2^32 - 1; none where it isn't held.
fn sums(maps: &Maps<Num, u32>, version: Version) -> Option<(usize, u32)> {
    if !maps.holds(version) {
        return None;
    }
    let mut sum: u32 = 0;
    for (_key, value) in maps.iter(version) {
        sum = sum.saturating_add(*value);
    }
    Some((maps.len(version), sum))
}

// The value at the key, and none where the version isn't held or the key is absent.
fn value(maps: &Maps<Num, u32>, version: Version, key: u32) -> Option<u32> {
    if !maps.holds(version) || !maps.contains_key(version, &Num(key)) {
        return None;
    }
    maps.get(version, &Num(key)).copied()
}

// The version with 40 at 4, and with this value at this key.
fn four_and(rt: &impl Abort, maps: &mut Maps<Num, u32>, key: u32, value: u32) -> Version {
    let none = maps.empty().expect(rt, "memory");
    let four = made(rt, maps, none, Change::Insert(4, 40));
    made(rt, maps, four, Change::Insert(key, value))
}

fn check_makes_maps(rt: &impl Abort, maps: &mut Maps<Num, u32>) {
    let first = four_and(rt, maps, 7, 70);
    let cases = [
        (Change::Insert(9, 90), (3, 200)),
        (Change::Insert(7, 71), (2, 111)),
        (Change::Remove(7), (1, 40)),
        (Change::Remove(9), (2, 110)),
        (Change::Copy, (2, 110)),
    ];
    for (change, told) in cases {
        let version = made(rt, maps, first, change);
        assert!(rt; sums(maps, version) == Some(told));
        assert!(rt; sums(maps, first) == Some((2, 110)));
    }
}

#[test]
fn makes_maps(rt: HostRuntime) {
    let mut maps = Maps::new(rt.alloc());
    check_makes_maps(&rt, &mut maps);
}

fn check_edits_maps_in_place(rt: &impl Abort, maps: &mut Maps<Num, u32>) {
    let first = four_and(rt, maps, 7, 70);
    let kept = made(rt, maps, first, Change::Copy);
    let cases = [
        (Change::Insert(9, 90), (3, 200)),
        (Change::Insert(7, 71), (3, 201)),
        (Change::Remove(4), (2, 161)),
        (Change::Remove(5), (2, 161)),
    ];
    for (change, told) in cases {
        edit(rt, maps, first, change);
        assert!(rt; sums(maps, first) == Some(told));
    }
    assert!(rt; sums(maps, kept) == Some((2, 110)));
}

#[test]
fn edits_maps_in_place(rt: HostRuntime) {
    let mut maps = Maps::new(rt.alloc());
    check_edits_maps_in_place(&rt, &mut maps);
}

fn check_edits_rows_of_its_own(rt: &impl Abort, maps: &mut Maps<Num, u32>) {
    let map = four_and(rt, maps, 7, 70);
    edit(rt, maps, map, Change::Insert(7, 72));
    let rows = maps.rows();
    edit(rt, maps, map, Change::Insert(7, 71));
    assert_eq!(rt; maps.rows(), rows);
    assert!(rt; value(maps, map, 7) == Some(71) && value(maps, map, 9).is_none());
}

#[test]
fn edits_rows_of_its_own(rt: HostRuntime) {
    let mut maps = Maps::new(rt.alloc());
    check_edits_rows_of_its_own(&rt, &mut maps);
}

// How many rows were made so far.
fn made_rows(maps: &Maps<Num, u32>) -> u64 {
    maps.parts().0.made()
}

// How many rows the edit makes.
fn rows_of(rt: &impl Abort, maps: &mut Maps<Num, u32>, version: Version, change: Change) -> u64 {
    let before = made_rows(maps);
    edit(rt, maps, version, change);
    made_rows(maps).wrapping_sub(before)
}

// The keys have one first digit, so their entries lie in a row under the root.
fn check_makes_a_way_of_maps_only_where_it_is_shared(rt: &impl Abort, maps: &mut Maps<Num, u32>) {
    let map = four_and(rt, maps, 36, 1);
    // The key, the value and their pair alone, as both rows are the version's own.
    assert_eq!(rt; rows_of(rt, maps, map, Change::Insert(68, 1)), 3);
    let before = made_rows(maps);
    made(rt, maps, map, Change::Copy);
    assert_eq!(rt; made_rows(maps), before);
    // With both rows, and alone again.
    assert_eq!(rt; rows_of(rt, maps, map, Change::Insert(100, 1)), 5);
    assert_eq!(rt; rows_of(rt, maps, map, Change::Insert(132, 1)), 3);
}

#[test]
fn makes_a_way_of_maps_only_where_it_is_shared(rt: HostRuntime) {
    let mut maps = Maps::new(rt.alloc());
    check_makes_a_way_of_maps_only_where_it_is_shared(&rt, &mut maps);
}

// The same of removals, which leave two entries or more in that row.
fn check_cuts_a_way_of_maps_only_where_it_is_shared(rt: &impl Abort, maps: &mut Maps<Num, u32>) {
    let map = four_and(rt, maps, 36, 1);
    for key in [68, 100, 132] {
        edit(rt, maps, map, Change::Insert(key, 1));
    }
    assert_eq!(rt; rows_of(rt, maps, map, Change::Remove(68)), 0);
    let kept = made(rt, maps, map, Change::Copy);
    // Both rows, and nothing again.
    assert_eq!(rt; rows_of(rt, maps, map, Change::Remove(100)), 2);
    assert_eq!(rt; rows_of(rt, maps, map, Change::Remove(132)), 0);
    assert!(rt; sums(maps, map) == Some((2, 41)));
    assert!(rt; sums(maps, kept) == Some((4, 43)));
}

#[test]
fn cuts_a_way_of_maps_only_where_it_is_shared(rt: HostRuntime) {
    let mut maps = Maps::new(rt.alloc());
    check_cuts_a_way_of_maps_only_where_it_is_shared(&rt, &mut maps);
}

// A call that makes a version of two others.
#[derive(Clone, Copy, Drop)]
enum Merge {
    Union,
    Both,
    Less,
}

// The version that the call makes of both.
fn merged(
    rt: &impl Abort,
    maps: &mut Maps<Num, u32>,
    first: Version,
    second: Version,
    merge: Merge,
) -> Version {
    assert!(rt; maps.holds(first) && maps.holds(second));
    let made = match merge {
        Merge::Union => maps.union(first, second),
        Merge::Both => maps.both(first, second),
        Merge::Less => maps.less(first, second),
    };
    made.expect(rt, "memory")
}

fn check_merges_maps(rt: &impl Abort, maps: &mut Maps<Num, u32>) {
    let first = four_and(rt, maps, 7, 70);
    let second = four_and(rt, maps, 9, 90);
    let other = made(rt, maps, second, Change::Insert(4, 41));
    let cases = [
        (first, other, Merge::Union, (3, 200), Some(40)),
        (first, other, Merge::Both, (1, 40), Some(40)),
        (other, first, Merge::Both, (1, 41), Some(41)),
        (first, other, Merge::Less, (1, 70), None),
        (other, first, Merge::Less, (1, 90), None),
    ];
    for (left, right, merge, told, four) in cases {
        let version = merged(rt, maps, left, right, merge);
        assert!(rt; sums(maps, version) == Some(told));
        assert!(rt; value(maps, version, 4) == four);
        assert!(rt; sums(maps, first) == Some((2, 110)));
        assert!(rt; sums(maps, other) == Some((2, 131)));
    }
}

#[test]
fn merges_maps(rt: HostRuntime) {
    let mut maps = Maps::new(rt.alloc());
    check_merges_maps(&rt, &mut maps);
}

// Whether both versions are held and have equal keys with equal values.
fn are_same(maps: &Maps<Num, u32>, left: Version, right: Version) -> bool {
    maps.holds(left) && maps.holds(right) && maps.same(left, right)
}

fn check_compares_maps(rt: &impl Abort, maps: &mut Maps<Num, u32>) {
    let first = four_and(rt, maps, 7, 70);
    let again = four_and(rt, maps, 7, 70);
    let other = four_and(rt, maps, 7, 71);
    let less = made(rt, maps, first, Change::Remove(7));
    assert!(rt; are_same(maps, first, again));
    assert!(rt; !are_same(maps, first, other));
    assert!(rt; !are_same(maps, first, less));
}

#[test]
fn compares_maps(rt: HostRuntime) {
    let mut maps = Maps::new(rt.alloc());
    check_compares_maps(&rt, &mut maps);
}

// How many versions are held.
fn held(maps: &Maps<Num, u32>) -> u32 {
    let mut count: u32 = 0;
    for _version in maps.versions() {
        count = count.saturating_add(1);
    }
    count
}

// Forgets the version, and tells whether another has these sums still.
fn forgets(
    rt: &impl Abort,
    maps: &mut Maps<Num, u32>,
    version: Version,
    other: Version,
    told: (usize, u32),
) -> bool {
    assert!(rt; maps.holds(version));
    maps.forget(version);
    !maps.holds(version) && sums(maps, other) == Some(told)
}

fn check_tells_the_versions_of_maps(
    rt: &impl Abort,
    maps: &mut Maps<Num, u32>,
) -> Result<(), Fail> {
    assert_eq!(rt; maps.rows(), 0);
    let none = maps.empty()?;
    let one = made(rt, maps, none, Change::Insert(7, 70));
    assert_eq!(rt; held(maps), 2);
    // The empty root, and the root, the pair, the key and the value.
    assert_eq!(rt; maps.rows(), 5);
    assert!(rt; forgets(rt, maps, none, one, (1, 70)));
    assert_eq!(rt; held(maps), 1);
    assert_eq!(rt; maps.rows(), 4);
    maps.keys_rise();
    Ok(())
}

#[test]
fn tells_the_versions_of_maps(rt: HostRuntime) -> Result<(), Fail> {
    let mut maps = Maps::new(rt.alloc());
    check_tells_the_versions_of_maps(&rt, &mut maps)
}

// The version with the number at the text.
fn bound(
    rt: &impl Abort,
    maps: &mut Maps<Text, u32>,
    version: Version,
    tea: Text,
    number: u32,
) -> Version {
    assert!(rt; maps.holds(version));
    match maps.insert(version, tea, number) {
        Ok(more) => more,
        Err(_) => panic!(rt; "memory"),
    }
}

// The number at the text of this name, and 0 where it is absent.
fn number(rt: &impl Abort, maps: &Maps<Text, u32>, version: Version, letters: &str) -> u32 {
    assert!(rt; maps.holds(version));
    *maps.get_or(version, &name(rt, letters), &0)
}

// Whether the version is empty without the text of this name.
fn empties(rt: &impl Abort, maps: &mut Maps<Text, u32>, version: Version, letters: &str) -> bool {
    assert!(rt; maps.holds(version));
    let left = maps
        .remove(version, &name(rt, letters))
        .expect(rt, "memory");
    maps.holds(left) && maps.is_empty(left)
}

fn check_keeps_maps_from_texts(
    rt: &impl Abort,
    alloc: Global,
    maps: &mut Maps<Text, u32>,
) -> Result<(), Fail> {
    let none = maps.empty()?;
    let old = bound(rt, maps, none, text(rt, alloc, "tea"), 2);
    let new = bound(rt, maps, old, text(rt, alloc, "tea"), 3);
    assert_eq!(rt; number(rt, maps, old, "tea"), 2);
    assert_eq!(rt; number(rt, maps, new, "tea"), 3);
    assert_eq!(rt; number(rt, maps, new, "rice"), 0);
    assert!(rt; empties(rt, maps, new, "tea"));
    Ok(())
}

#[test]
fn keeps_maps_from_texts(rt: HostRuntime) -> Result<(), Fail> {
    let mut maps = Maps::new(rt.alloc());
    check_keeps_maps_from_texts(&rt, rt.alloc(), &mut maps)
}
