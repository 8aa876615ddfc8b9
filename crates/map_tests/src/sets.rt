//! Sets of numbers and of texts.
use crate::samples::{name, text};
use crate::set_versions::SetVersions;
use champ_kinds::{Set, SetRef, sets_follow_contents};
use elem_core::{CODE_BITS, Element, Num, Text};
use node_heap::Heap;
use std::alloc::Global;
use std::process::Abort;
use std::test::Fail;

// Two numbers with one masked code are two keys of a set.
fn check_keeps_numbers(rt: &impl Abort, sets: &mut SetVersions<Num>) {
    let one = sets.insert(rt, 0, Num(1));
    let two = sets.insert(rt, one, Num(33));
    assert!(rt; sets.len(rt, two) == 2);
    assert!(rt; sets.has(rt, two, &Num(33)));
    assert!(rt; !sets.has(rt, two, &Num(65)));
    assert!(rt; sets.alike(rt, two, &Num(65)) == 2);
    assert!(rt; sets.walked(rt, two) == 2);
}

#[test]
fn keeps_numbers(rt: HostRuntime) {
    let mut sets: SetVersions<Num> = SetVersions::start(&rt, rt.alloc(), 5);
    check_keeps_numbers(&rt, &mut sets);
}

fn check_loses_a_number(rt: &impl Abort, sets: &mut SetVersions<Num>) {
    let one = sets.insert(rt, 0, Num(1));
    let two = sets.insert(rt, one, Num(33));
    let less = sets.remove(rt, two, &Num(1));
    assert!(rt; !sets.has(rt, less, &Num(1)));
    assert!(rt; sets.has(rt, less, &Num(33)));
    assert!(rt; sets.len(rt, less) == 1);
}

#[test]
fn loses_a_number(rt: HostRuntime) {
    let mut sets: SetVersions<Num> = SetVersions::start(&rt, rt.alloc(), 5);
    check_loses_a_number(&rt, &mut sets);
}

fn check_keeps_names(rt: &impl Abort, alloc: Global, sets: &mut SetVersions<Text>) {
    let first = name(rt, "z");
    let second = name(rt, "b");
    let one = sets.insert(rt, 0, text(rt, alloc, "z"));
    let two = sets.insert(rt, one, text(rt, alloc, "b"));
    let same = sets.insert(rt, two, text(rt, alloc, "z"));
    assert!(rt; sets.are_one(rt, same, two));
    assert!(rt; sets.len(rt, same) == 2);
    assert!(rt; sets.has(rt, same, &first));
    assert!(rt; sets.has(rt, same, &second));
    assert!(rt; sets.alike(rt, same, &first) == 1);
    assert!(rt; sets.walked(rt, same) == 2);
}

#[test]
fn keeps_names(rt: HostRuntime) {
    let mut sets: SetVersions<Text> = SetVersions::start(&rt, rt.alloc(), CODE_BITS);
    check_keeps_names(&rt, rt.alloc(), &mut sets);
}

fn check_loses_a_name(rt: &impl Abort, alloc: Global, sets: &mut SetVersions<Text>) {
    let first = name(rt, "z");
    let one = sets.insert(rt, 0, text(rt, alloc, "z"));
    let two = sets.insert(rt, one, text(rt, alloc, "b"));
    let less = sets.remove(rt, two, &first);
    assert!(rt; !sets.has(rt, less, &first));
    assert!(rt; sets.walked(rt, less) == 1);
    assert!(rt; sets.walked(rt, two) == 2);
}

#[test]
fn loses_a_name(rt: HostRuntime) {
    let mut sets: SetVersions<Text> = SetVersions::start(&rt, rt.alloc(), CODE_BITS);
    check_loses_a_name(&rt, rt.alloc(), &mut sets);
}

// The law of sets, at a heap without rows.
fn call_law<T: Element>(alloc: Global) {
    let heap: Heap<T> = Heap::new(alloc);
    sets_follow_contents(&heap);
}

// A set is shared and given up.
fn share_and_release<T: Element>(rt: &impl Abort, alloc: Global) -> Result<(), Fail> {
    let mut heap: Heap<T> = Heap::new(alloc);
    let set = Set::empty(&mut heap, 5)?;
    let again = set.share(&mut heap);
    set.release(&mut heap);
    assert!(rt; heap.live() == 1);
    assert!(rt; SetRef::at(again.view().root(), 5).bits() == 5);
    let root = again.into_root();
    Set::from_root(root, 5).release(&mut heap);
    assert!(rt; heap.live() == 0);
    Ok(())
}

#[test]
fn shares_and_releases(rt: HostRuntime) -> Result<(), Fail> {
    call_law::<Num>(rt.alloc());
    call_law::<Text>(rt.alloc());
    share_and_release::<Num>(&rt, rt.alloc())?;
    share_and_release::<Text>(&rt, rt.alloc())
}
