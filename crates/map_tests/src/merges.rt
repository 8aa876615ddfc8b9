//! Union, intersection and difference of sets of numbers and of maps.
use crate::map_versions::MapVersions;
use crate::set_versions::SetVersions;
use elem_core::{CODE_BITS, Num};
use std::process::Abort;

// Which merge of two sets or maps: the keys of both, those in both, or those in the first alone.
#[derive(Clone, Copy)]
enum Merge {
    Union,
    Both,
    Less,
}

// How many rows it may make, and its turn.
fn merged(
    rt: &impl Abort,
    sets: &mut SetVersions<Num>,
    left: usize,
    right: usize,
    kind: Merge,
) -> (usize, usize) {
    match kind {
        Merge::Union => {
            let need = sets.unite_need(rt, left, right);
            (need, sets.unite(rt, left, right))
        }
        Merge::Both => {
            let need = sets.meet_need(rt, left, right);
            (need, sets.meet(rt, left, right))
        }
        Merge::Less => {
            let need = sets.lose_need(rt, left, right);
            (need, sets.lose(rt, left, right))
        }
    }
}

// The set with these numbers besides.
fn with_all(rt: &impl Abort, sets: &mut SetVersions<Num>, start: usize, numbers: &[u32]) -> usize {
    let mut turn = start;
    for number in numbers {
        turn = sets.insert(rt, turn, Num(*number));
    }
    turn
}

// That a merge of two small sets has just these of the numbers below 200, and makes no more rows than its need.
fn merges_to(
    rt: &impl Abort,
    sets: &mut SetVersions<Num>,
    left: usize,
    right: usize,
    kind: Merge,
    numbers: &[u32],
) {
    let rows = sets.rows();
    let (need, turn) = merged(rt, sets, left, right, kind);
    assert!(rt; sets.rows().wrapping_sub(rows) <= need);
    assert!(rt; sets.len(rt, turn) == numbers.len());
    assert!(rt; sets.walked(rt, turn) == numbers.len());
    for number in 0..200 {
        assert!(rt; sets.has(rt, turn, &Num(number)) == numbers.contains(&number));
    }
    // The same numbers put in one by one make an equal set.
    let plain = with_all(rt, sets, 0, numbers);
    assert!(rt; sets.are_equal(rt, turn, plain));
}

// Unions, intersections and differences of two small sets, beside the plain answers. By seven bits 1 and 129 make a chain, and 33
// and 161.
fn merge_small(rt: &impl Abort, sets: &mut SetVersions<Num>) {
    let left = with_all(rt, sets, 0, &[1, 2, 33, 65, 7, 40, 161]);
    let right = with_all(rt, sets, left, &[3, 34, 129]);
    let right = sets.remove(rt, right, &Num(2));
    let right = sets.remove(rt, right, &Num(40));
    let other = with_all(rt, sets, 0, &[65, 97, 8, 129, 161]);
    let merges: [(usize, usize, Merge, &[u32]); 10] = [
        (
            left,
            right,
            Merge::Union,
            &[1, 2, 3, 7, 33, 34, 40, 65, 129, 161],
        ),
        (left, right, Merge::Both, &[1, 7, 33, 65, 161]),
        (left, right, Merge::Less, &[2, 40]),
        (right, left, Merge::Less, &[3, 34, 129]),
        (
            left,
            other,
            Merge::Union,
            &[1, 2, 7, 8, 33, 40, 65, 97, 129, 161],
        ),
        (left, other, Merge::Both, &[65, 161]),
        (left, other, Merge::Less, &[1, 2, 7, 33, 40]),
        (left, 0, Merge::Union, &[1, 2, 7, 33, 40, 65, 161]),
        (0, left, Merge::Both, &[]),
        (left, left, Merge::Less, &[]),
    ];
    for (first, second, kind, numbers) in merges {
        merges_to(rt, sets, first, second, kind, numbers);
    }
}

#[test]
fn merges_chains(rt: HostRuntime) {
    let mut sets: SetVersions<Num> = SetVersions::start(&rt, rt.alloc(), 0);
    merge_small(&rt, &mut sets);
}

#[test]
fn merges_by_seven_bits(rt: HostRuntime) {
    let mut sets: SetVersions<Num> = SetVersions::start(&rt, rt.alloc(), 7);
    merge_small(&rt, &mut sets);
}

#[test]
fn merges_by_all_bits(rt: HostRuntime) {
    let mut sets: SetVersions<Num> = SetVersions::start(&rt, rt.alloc(), CODE_BITS);
    merge_small(&rt, &mut sets);
}

// That a merge of two sets is one of them, at its root, and makes no row.
fn takes_over(
    rt: &impl Abort,
    sets: &mut SetVersions<Num>,
    left: usize,
    right: usize,
    kind: Merge,
    whole: usize,
) {
    let rows = sets.rows();
    let (_need, turn) = merged(rt, sets, left, right, kind);
    assert!(rt; sets.are_one(rt, turn, whole));
    assert!(rt; sets.rows() == rows);
}

// What is left of a set without itself is one row.
fn leaves_nothing(rt: &impl Abort, sets: &mut SetVersions<Num>, turn: usize) {
    let rows = sets.rows();
    let none = sets.lose(rt, turn, turn);
    assert!(rt; sets.len(rt, none) == 0);
    assert!(rt; sets.rows().wrapping_sub(rows) <= 1);
}

// Numbers taken out of sets that share all else.
fn check_merges_what_is_shared(rt: &impl Abort, sets: &mut SetVersions<Num>) {
    let mut all = 0;
    for number in 0..1000 {
        all = sets.insert(rt, all, Num(number));
    }
    let less = sets.remove(rt, all, &Num(500));
    let other = sets.remove(rt, all, &Num(7));
    // Of the two rows that each of them has for itself one comes from the other, and the root is made.
    let rows = sets.rows();
    let back = sets.unite(rt, less, other);
    assert!(rt; sets.rows().wrapping_sub(rows) == 1);
    assert!(rt; sets.are_equal(rt, back, all));
    // Rows are taken over whole where the result is one of the two, and one root is that root.
    let merges = [
        (less, all, Merge::Union, all),
        (all, less, Merge::Union, all),
        (all, less, Merge::Both, less),
        (all, all, Merge::Union, all),
        (all, all, Merge::Both, all),
    ];
    for (first, second, kind, whole) in merges {
        takes_over(rt, sets, first, second, kind, whole);
    }
    leaves_nothing(rt, sets, all);
}

#[test]
fn merges_what_is_shared(rt: HostRuntime) {
    let mut sets: SetVersions<Num> = SetVersions::start(&rt, rt.alloc(), CODE_BITS);
    check_merges_what_is_shared(&rt, &mut sets);
}

// The same merge by the call that takes spares.
fn spared(
    rt: &impl Abort,
    sets: &mut SetVersions<Num>,
    left: usize,
    right: usize,
    kind: Merge,
) -> usize {
    match kind {
        Merge::Union => sets.unite_there(rt, left, right),
        Merge::Both => sets.meet_there(rt, left, right),
        Merge::Less => sets.lose_there(rt, left, right),
    }
}

// The same sets come of spares that are made before.
fn check_merges_of_spares(rt: &impl Abort, sets: &mut SetVersions<Num>) {
    let left = with_all(rt, sets, 0, &[1, 2, 33, 65, 1057]);
    let right = with_all(rt, sets, 0, &[2, 65, 97, 1057]);
    for kind in [Merge::Union, Merge::Both, Merge::Less] {
        let (_need, plain) = merged(rt, sets, left, right, kind);
        let spared = spared(rt, sets, left, right, kind);
        assert!(rt; sets.are_equal(rt, plain, spared));
    }
}

#[test]
fn merges_of_spares(rt: HostRuntime) {
    let mut sets: SetVersions<Num> = SetVersions::start(&rt, rt.alloc(), CODE_BITS);
    check_merges_of_spares(&rt, &mut sets);
}

// An equal set made apart: each of its keys is the first one's, so the first one's rows are taken over.
fn check_merges_equal_sets_made_apart(rt: &impl Abort, sets: &mut SetVersions<Num>) {
    let mut first = 0;
    let mut apart = 0;
    for number in 0..100 {
        first = sets.insert(rt, first, Num(number));
        apart = sets.insert(rt, apart, Num(99 - number));
    }
    takes_over(rt, sets, first, apart, Merge::Union, first);
    takes_over(rt, sets, apart, first, Merge::Both, apart);
}

#[test]
fn merges_equal_sets_made_apart(rt: HostRuntime) {
    let mut sets: SetVersions<Num> = SetVersions::start(&rt, rt.alloc(), CODE_BITS);
    check_merges_equal_sets_made_apart(&rt, &mut sets);
}

// How many rows a merge of two maps may make, and its turn.
fn merged_map(
    rt: &impl Abort,
    maps: &mut MapVersions<Num>,
    left: usize,
    right: usize,
    kind: Merge,
) -> (usize, usize) {
    match kind {
        Merge::Union => {
            let need = maps.unite_need(rt, left, right);
            (need, maps.unite(rt, left, right))
        }
        Merge::Both => {
            let need = maps.meet_need(rt, left, right);
            (need, maps.meet(rt, left, right))
        }
        Merge::Less => {
            let need = maps.lose_need(rt, left, right);
            (need, maps.lose(rt, left, right))
        }
    }
}

// The map without keys, with these values at these keys.
fn map_of(rt: &impl Abort, maps: &mut MapVersions<Num>, entries: &[(u32, u32)]) -> usize {
    let mut turn = 0;
    for entry in entries {
        let (key, value) = *entry;
        turn = maps.insert(rt, turn, Num(key), Num(value));
    }
    turn
}

// That a merge of two small maps has just these entries, and makes no more rows than its need.
fn merges_maps_to(
    rt: &impl Abort,
    maps: &mut MapVersions<Num>,
    left: usize,
    right: usize,
    kind: Merge,
    entries: &[(u32, u32)],
) {
    let rows = maps.live();
    let (need, turn) = merged_map(rt, maps, left, right, kind);
    assert!(rt; maps.live().wrapping_sub(rows) <= need);
    assert!(rt; maps.len(rt, turn) == entries.len());
    // The same entries put in one by one make an equal map.
    let plain = map_of(rt, maps, entries);
    assert!(rt; maps.are_equal(rt, turn, plain));
}

// Where both maps have a key, the first one's value counts. By seven bits 1 and 129 make a chain, and 33 and 161.
fn merge_small_maps(rt: &impl Abort, maps: &mut MapVersions<Num>) {
    let left = map_of(rt, maps, &[(1, 10), (33, 11), (129, 12), (2, 13)]);
    let right = map_of(rt, maps, &[(33, 21), (2, 22), (3, 23), (161, 24)]);
    let merges: [(usize, usize, Merge, &[(u32, u32)]); 7] = [
        (
            left,
            right,
            Merge::Union,
            &[(1, 10), (33, 11), (129, 12), (2, 13), (3, 23), (161, 24)],
        ),
        (left, right, Merge::Both, &[(33, 11), (2, 13)]),
        (right, left, Merge::Both, &[(33, 21), (2, 22)]),
        (left, right, Merge::Less, &[(1, 10), (129, 12)]),
        (right, left, Merge::Less, &[(3, 23), (161, 24)]),
        (left, 0, Merge::Both, &[]),
        (left, left, Merge::Less, &[]),
    ];
    for (first, second, kind, entries) in merges {
        merges_maps_to(rt, maps, first, second, kind, entries);
    }
    let same = maps.unite(rt, left, left);
    assert!(rt; maps.are_one(rt, same, left));
    let same = maps.meet(rt, left, left);
    assert!(rt; maps.are_one(rt, same, left));
}

#[test]
fn merges_maps_of_chains(rt: HostRuntime) {
    let mut maps: MapVersions<Num> = MapVersions::start(&rt, rt.alloc(), 0);
    merge_small_maps(&rt, &mut maps);
}

#[test]
fn merges_maps_by_seven_bits(rt: HostRuntime) {
    let mut maps: MapVersions<Num> = MapVersions::start(&rt, rt.alloc(), 7);
    merge_small_maps(&rt, &mut maps);
}

#[test]
fn merges_maps_by_all_bits(rt: HostRuntime) {
    let mut maps: MapVersions<Num> = MapVersions::start(&rt, rt.alloc(), CODE_BITS);
    merge_small_maps(&rt, &mut maps);
}

// The same merge of maps by the call that takes spares.
fn spared_map(
    rt: &impl Abort,
    maps: &mut MapVersions<Num>,
    left: usize,
    right: usize,
    kind: Merge,
) -> usize {
    match kind {
        Merge::Union => maps.unite_there(rt, left, right),
        Merge::Both => maps.meet_there(rt, left, right),
        Merge::Less => maps.lose_there(rt, left, right),
    }
}

// The same maps come of spares that are made before.
fn check_merges_maps_of_spares(rt: &impl Abort, maps: &mut MapVersions<Num>) {
    let left = map_of(rt, maps, &[(1, 10), (33, 11)]);
    let right = map_of(rt, maps, &[(33, 12), (2, 13)]);
    for kind in [Merge::Union, Merge::Both, Merge::Less] {
        let (_need, plain) = merged_map(rt, maps, left, right, kind);
        let spared = spared_map(rt, maps, left, right, kind);
        assert!(rt; maps.are_equal(rt, plain, spared));
    }
}

#[test]
fn merges_maps_of_spares(rt: HostRuntime) {
    let mut maps: MapVersions<Num> = MapVersions::start(&rt, rt.alloc(), CODE_BITS);
    check_merges_maps_of_spares(&rt, &mut maps);
}
