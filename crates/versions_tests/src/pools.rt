//! Lists, sets and maps of texts, saved and loaded.
use crate::samples::text;
use elem_core::{Stored, Text};
use pool_text::Damage;
use std::alloc::Global;
use std::process::Abort;
use std::test::Fail;
use versions::{Lists, Maps, Sets, Version};
use versions_pool::{
    lists_after_save, load_lists, load_maps, load_sets, maps_after_save, save_lists, save_maps,
    save_sets, sets_after_save,
};

// The lists `a` and `a`, `b`, which share a cell, as the versions 0 and 2.
const TWO_LISTS: &[u8] =
    b"{\"format\":\"naipselu-lists\",\"names\":[0,2],\"roots\":[1,3],\"rows\":[[\"c\",\"a\"],[\"l\",[0]],[\"c\",\"b\"],[\"l\",[0,2]]],\"version\":1}";

// The text at the index of a version that is held.
fn text_at(lists: &Lists<Text>, number: usize, index: u32) -> Option<&str> {
    let version = Version::from_number(number);
    if !lists.holds(version) {
        return None;
    }
    Some(lists.get(version, index)?.text())
}

#[test]
fn saves_what_it_loads(rt: HostRuntime) -> Result<(), Fail> {
    let lists = load_lists(rt.alloc(), TWO_LISTS)?;
    assert_eq!(rt; lists.rows(), 4);
    assert_eq!(rt; text_at(&lists, 0, 0), Some("a"));
    assert_eq!(rt; text_at(&lists, 1, 0), None);
    assert_eq!(rt; text_at(&lists, 2, 1), Some("b"));
    let again = lists_after_save(rt.alloc(), &lists)?;
    assert_eq!(rt; again.rows(), 4);
    assert_eq!(rt; save_lists(rt.alloc(), &again)?.as_slice(), TWO_LISTS);
    Ok(())
}

// Documents, and the first test that each fails: no names, one name twice, a name without a root, a later version, a root that is a
// set, and a row that no version has.
const DAMAGES: [(&[u8], Damage); 6] = [
    (
        b"{\"format\":\"naipselu-lists\",\"roots\":[],\"rows\":[],\"version\":1}",
        Damage::Form,
    ),
    (
        b"{\"format\":\"naipselu-lists\",\"names\":[1,1],\"roots\":[0,0],\"rows\":[[\"l\",[]]],\"version\":1}",
        Damage::Form,
    ),
    (
        b"{\"format\":\"naipselu-lists\",\"names\":[1],\"roots\":[],\"rows\":[],\"version\":1}",
        Damage::Form,
    ),
    (
        b"{\"format\":\"naipselu-lists\",\"names\":[],\"roots\":[],\"rows\":[],\"version\":2}",
        Damage::Version,
    ),
    (
        b"{\"format\":\"naipselu-lists\",\"names\":[0],\"roots\":[0],\"rows\":[[\"m\",0,0,0,[]]],\"version\":1}",
        Damage::Kind,
    ),
    (
        b"{\"format\":\"naipselu-lists\",\"names\":[0],\"roots\":[0],\"rows\":[[\"l\",[]],[\"l\",[]]],\"version\":1}",
        Damage::Order,
    ),
];

#[test]
fn tells_the_damage_of_lists(rt: HostRuntime) -> Result<(), Fail> {
    for (bytes, damage) in DAMAGES {
        assert_eq!(rt; load_lists::<Text>(rt.alloc(), bytes).err(), Some(damage));
    }
    Ok(())
}

// The sets of `a` and of `a`, `b`, which share a cell, as the versions 0 and 2.
const TWO_SETS: &[u8] =
    b"{\"format\":\"naipselu-sets\",\"names\":[0,2],\"roots\":[1,3],\"rows\":[[\"c\",\"a\"],[\"m\",0,4096,0,[0]],[\"c\",\"b\"],[\"m\",0,4128,0,[2,0]]],\"version\":1}";

// How many keys the version has, if it is held.
fn key_count(sets: &Sets<Text>, number: usize) -> Option<usize> {
    let version = Version::from_number(number);
    if !sets.holds(version) {
        return None;
    }
    Some(sets.len(version))
}

#[test]
fn saves_sets_that_it_loads(rt: HostRuntime) -> Result<(), Fail> {
    let sets = load_sets(rt.alloc(), TWO_SETS)?;
    assert_eq!(rt; sets.rows(), 4);
    assert_eq!(rt; key_count(&sets, 0), Some(1));
    assert_eq!(rt; key_count(&sets, 1), None);
    assert_eq!(rt; key_count(&sets, 2), Some(2));
    let again = sets_after_save(rt.alloc(), &sets)?;
    assert_eq!(rt; again.rows(), 4);
    assert_eq!(rt; save_sets(rt.alloc(), &again)?.as_slice(), TWO_SETS);
    Ok(())
}

// Documents, and the first test that each fails: one of lists, a key where its digit isn't, and a root that is a vector.
const SET_DAMAGES: [(&[u8], Damage); 3] = [
    (TWO_LISTS, Damage::Form),
    (
        b"{\"format\":\"naipselu-sets\",\"names\":[0],\"roots\":[1],\"rows\":[[\"c\",\"a\"],[\"m\",0,8192,0,[0]]],\"version\":1}",
        Damage::Trie,
    ),
    (
        b"{\"format\":\"naipselu-sets\",\"names\":[0],\"roots\":[0],\"rows\":[[\"l\",[]]],\"version\":1}",
        Damage::Kind,
    ),
];

#[test]
fn tells_the_damage_of_sets(rt: HostRuntime) -> Result<(), Fail> {
    for (bytes, damage) in SET_DAMAGES {
        assert_eq!(rt; load_sets::<Text>(rt.alloc(), bytes).err(), Some(damage));
    }
    Ok(())
}

// The maps that bind `a` to `b`, and besides `b` to `a`, which share a pair, as the versions 0 and 2.
const TWO_MAPS: &[u8] =
    b"{\"format\":\"naipselu-maps\",\"names\":[0,2],\"roots\":[3,7],\"rows\":[[\"c\",\"a\"],[\"c\",\"b\"],[\"p\",[0,1]],[\"m\",0,4096,0,[2]],[\"c\",\"b\"],[\"c\",\"a\"],[\"p\",[4,5]],[\"m\",0,4128,0,[6,2]]],\"version\":1}";

// The text at the key of a version, if it is held and has it.
fn bound_text<'m>(maps: &'m Maps<Text, Text>, number: usize, key: &Text) -> Option<&'m str> {
    let version = Version::from_number(number);
    if !maps.holds(version) {
        return None;
    }
    Some(maps.get(version, key)?.text())
}

fn check_reads_maps(rt: &impl Abort, maps: &Maps<Text, Text>, first: &Text, second: &Text) {
    assert_eq!(rt; maps.rows(), 8);
    assert_eq!(rt; bound_text(maps, 0, first), Some("b"));
    assert_eq!(rt; bound_text(maps, 0, second), None);
    assert_eq!(rt; bound_text(maps, 1, first), None);
    assert_eq!(rt; bound_text(maps, 2, first), Some("b"));
    assert_eq!(rt; bound_text(maps, 2, second), Some("a"));
}

fn check_saves_maps(rt: &impl Abort, alloc: Global, maps: &Maps<Text, Text>) -> Result<(), Fail> {
    let again = maps_after_save(alloc, maps)?;
    assert_eq!(rt; again.rows(), 8);
    assert_eq!(rt; save_maps(alloc, &again)?.as_slice(), TWO_MAPS);
    Ok(())
}

#[test]
fn saves_maps_that_it_loads(rt: HostRuntime) -> Result<(), Fail> {
    let maps = load_maps(rt.alloc(), TWO_MAPS)?;
    let first = text(&rt, rt.alloc(), "a");
    let second = text(&rt, rt.alloc(), "b");
    check_reads_maps(&rt, &maps, &first, &second);
    check_saves_maps(&rt, rt.alloc(), &maps)
}

// Documents, and the first test that each fails: one of sets, a set, a key where its digit isn't, and a cell that is a key and a value.
const MAP_DAMAGES: [(&[u8], Damage); 4] = [
    (TWO_SETS, Damage::Form),
    (
        b"{\"format\":\"naipselu-maps\",\"names\":[0],\"roots\":[1],\"rows\":[[\"c\",\"a\"],[\"m\",0,4096,0,[0]]],\"version\":1}",
        Damage::Kind,
    ),
    (
        b"{\"format\":\"naipselu-maps\",\"names\":[0],\"roots\":[2],\"rows\":[[\"c\",\"a\"],[\"p\",[0,0]],[\"m\",0,8192,0,[1]]],\"version\":1}",
        Damage::Trie,
    ),
    (
        b"{\"format\":\"naipselu-maps\",\"names\":[0],\"roots\":[2],\"rows\":[[\"c\",\"a\"],[\"p\",[0,0]],[\"m\",0,4096,0,[1]]],\"version\":1}",
        Damage::Kind,
    ),
];

#[test]
fn tells_the_damage_of_maps(rt: HostRuntime) -> Result<(), Fail> {
    for (bytes, damage) in MAP_DAMAGES {
        assert_eq!(rt;
            load_maps::<Text, Text>(rt.alloc(), bytes).err(),
            Some(damage)
        );
    }
    Ok(())
}
