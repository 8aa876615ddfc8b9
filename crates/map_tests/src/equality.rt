//! Equality of maps and of sets that share their rows, and of such that were built apart.
use crate::map_versions::MapVersions;
use crate::maps::insert_numbers;
use crate::set_versions::SetVersions;
use elem_core::{CODE_BITS, Num};
use std::process::Abort;

// A new cell of the same value leaves a map the same, and one of another value doesn't.
fn check_maps_follow_their_values(rt: &impl Abort, maps: &mut MapVersions<Num>) {
    let all = insert_numbers(rt, maps, 0, 0, 1000);
    let again = maps.insert(rt, all, Num(999), Num(999));
    let other = maps.insert(rt, all, Num(999), Num(1000));
    let more = maps.insert(rt, all, Num(1000), Num(1000));
    assert!(rt; maps.are_equal(rt, all, again));
    assert!(rt; !maps.are_equal(rt, all, other));
    assert!(rt; !maps.are_equal(rt, more, all));
}

#[test]
fn maps_follow_their_values(rt: HostRuntime) {
    let mut maps: MapVersions<Num> = MapVersions::start(&rt, rt.alloc(), CODE_BITS);
    check_maps_follow_their_values(&rt, &mut maps);
}

// Chains are compared to their ends, and the order of insertion doesn't matter.
fn check_sets_follow_their_keys(rt: &impl Abort, sets: &mut SetVersions<Num>) {
    let one = sets.insert(rt, 0, Num(1));
    let first = sets.insert(rt, one, Num(33));
    let second = sets.insert(rt, one, Num(65));
    let late = sets.insert(rt, 0, Num(33));
    let third = sets.insert(rt, late, Num(1));
    assert!(rt; !sets.are_equal(rt, first, second));
    assert!(rt; sets.are_equal(rt, first, third));
}

#[test]
fn sets_follow_their_keys(rt: HostRuntime) {
    let mut sets: SetVersions<Num> = SetVersions::start(&rt, rt.alloc(), 5);
    check_sets_follow_their_keys(&rt, &mut sets);
}
