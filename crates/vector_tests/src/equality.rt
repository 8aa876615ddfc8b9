//! Equality of vectors that share their rows, and of such that were built apart or are cut otherwise.
use crate::versions::Versions;
use std::process::Abort;

// Vectors of the same elements are equal, however their rows are cut.
fn check_vectors_follow_their_elements(rt: &impl Abort, versions: &mut Versions) {
    let all = versions.push_all(rt, 0, 0, 100);
    let again = versions.push_all(rt, 0, 0, 100);
    let front = versions.push_all(rt, 0, 0, 40);
    let back = versions.push_all(rt, 0, 40, 100);
    let cut = versions.join(rt, front, back);
    let other = versions.push_all(rt, 0, 1, 101);
    for (vector, equal) in [(again, true), (cut, true), (other, false), (front, false)] {
        assert!(rt; versions.are_equal(rt, all, vector) == equal);
    }
}

#[test]
fn vectors_follow_their_elements(rt: HostRuntime) {
    let mut versions = Versions::start(&rt, rt.alloc());
    check_vectors_follow_their_elements(&rt, &mut versions);
}

// Two vectors of 2^31 elements that share all rows but their roots are compared at once.
fn check_shared_rows_end_the_walk(rt: &impl Abort, versions: &mut Versions) {
    let one = versions.push(rt, 0, 7);
    let half = versions.double(rt, one, 30);
    let first = versions.join(rt, half, half);
    let second = versions.join(rt, half, half);
    assert!(rt; !versions.are_one(rt, first, second));
    assert!(rt; versions.len(rt, first) == 1 << 31);
    assert!(rt; versions.are_equal(rt, first, first));
    assert!(rt; versions.are_equal(rt, first, second));
}

#[test]
fn shared_rows_end_the_walk(rt: HostRuntime) {
    let mut versions = Versions::start(&rt, rt.alloc());
    check_shared_rows_end_the_walk(&rt, &mut versions);
}

// A vector of 2^31 elements that is cut and joined again has its rows at the same places but at the seam, and those are passed
// over whole. An equal number in the middle leaves it equal, and another one doesn't.
fn check_rows_are_passed_over_behind_a_seam(rt: &impl Abort, versions: &mut Versions) {
    let some = versions.push_all(rt, 0, 0, 32);
    let all = versions.double(rt, some, 26);
    let front = versions.take(rt, all, 1000);
    let back = versions.drop_front(rt, all, 1000);
    let again = versions.join(rt, front, back);
    assert!(rt; versions.len(rt, again) == 1 << 31);
    let equal = versions.set(rt, again, 1 << 30, 0);
    let other = versions.set(rt, again, (1 << 30) + 7, 0);
    let pairs = [
        (all, again, true),
        (again, all, true),
        (all, equal, true),
        (all, other, false),
        (other, equal, false),
    ];
    for (left, right, same) in pairs {
        assert!(rt; versions.are_equal(rt, left, right) == same);
    }
}

#[test]
fn rows_are_passed_over_behind_a_seam(rt: HostRuntime) {
    let mut versions = Versions::start(&rt, rt.alloc());
    check_rows_are_passed_over_behind_a_seam(&rt, &mut versions);
}
