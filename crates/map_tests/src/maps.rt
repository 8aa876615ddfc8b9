//! Maps of numbers and of texts.

use crate::map_versions::MapVersions;
use crate::samples::{name, text};
use crate::shapes::RowShape;
use champ_kinds::{Map, containers_stay, maps_follow_contents};
use elem_core::{CODE_BITS, Element, Num, Probe, Text};
use node_heap::Heap;
use std::alloc::Global;
use std::process::Abort;
use std::test::Fail;

/// The map of numbers of this turn with those from `from` to below `to` in turn, each bound to itself.
pub fn insert_numbers(
    rt: &impl Abort,
    maps: &mut MapVersions<Num>,
    turn: usize,
    from: u32,
    to: u32,
) -> usize {
    let mut turn = turn;
    for number in from..to {
        turn = maps.insert(rt, turn, Num(number), Num(number));
    }
    turn
}

// The same map, by the numbers from the last on.
fn insert_backwards(
    rt: &impl Abort,
    maps: &mut MapVersions<Num>,
    turn: usize,
    count: u32,
) -> usize {
    let mut turn = turn;
    for step in 0..count {
        let number = count - 1 - step;
        turn = maps.insert(rt, turn, Num(number), Num(number));
    }
    turn
}

// Whether so many keys stand in a chain below thirteen trie rows, and share the masked code of this key, whose digits are 0 below
// depth 0.
fn is_chain_of<T: Element, P: Probe<T>>(
    rt: &impl Abort,
    maps: &MapVersions<T>,
    turn: usize,
    key: &P,
    number: usize,
) -> bool {
    let lowest = RowShape::Trie {
        depth: 12,
        entries: 0,
        nodes: 1,
    };
    maps.len(rt, turn) == number
        && maps.alike(rt, turn, key) == number
        && maps.shape_below(rt, turn, 12) == Some(lowest)
        && maps.shape_below(rt, turn, 13) == Some(RowShape::Chain)
}

// Keys with one masked code stand in a chain, and when one is left its tree is that of the map with this key alone.
fn check_comes_back_to_one_entry(rt: &impl Abort, maps: &mut MapVersions<Num>) {
    let one = maps.insert(rt, 0, Num(1), Num(1));
    let two = maps.insert(rt, one, Num(33), Num(33));
    let three = maps.insert(rt, two, Num(65), Num(65));
    assert!(rt; is_chain_of(rt, maps, three, &Num(97), 3));
    assert!(rt; !maps.are_alike(rt, one, three));
    let less = maps.remove(rt, three, &Num(33));
    assert!(rt; is_chain_of(rt, maps, less, &Num(97), 2));
    let last = maps.remove(rt, less, &Num(65));
    assert!(rt; maps.len(rt, last) == 1);
    assert!(rt; maps.are_alike(rt, one, last));
    assert!(rt; is_chain_of(rt, maps, three, &Num(97), 3));
}

#[test]
fn comes_back_to_one_entry(rt: HostRuntime) {
    let mut maps: MapVersions<Num> = MapVersions::start(&rt, rt.alloc(), 5);
    check_comes_back_to_one_entry(&rt, &mut maps);
}

// A map of one key has one trie row, its root.
#[test]
fn keeps_one_entry_in_the_root(rt: HostRuntime) {
    let mut maps: MapVersions<Num> = MapVersions::start(&rt, rt.alloc(), 5);
    let one = maps.insert(&rt, 0, Num(1), Num(1));
    let alone = RowShape::Trie {
        depth: 0,
        entries: 1 << 1,
        nodes: 0,
    };
    assert!(rt; maps.shape(&rt, one) == alone);
}

fn check_two_orders_give_one_tree(rt: &impl Abort, maps: &mut MapVersions<Num>) {
    let up = insert_numbers(rt, maps, 0, 0, 1000);
    let down = insert_backwards(rt, maps, 0, 1000);
    assert!(rt; maps.len(rt, up) == 1000);
    assert!(rt; maps.walked(rt, up) == 1000);
    assert!(rt; !maps.are_one(rt, up, down));
    assert!(rt; maps.are_alike(rt, up, down));
    // No row was freed, so none was made in vain.
    assert!(rt; maps.made() == maps.live() as u64);
}

#[test]
fn two_orders_give_one_tree(rt: HostRuntime) {
    let mut maps: MapVersions<Num> = MapVersions::start(&rt, rt.alloc(), CODE_BITS);
    check_two_orders_give_one_tree(&rt, &mut maps);
}

fn check_keeps_values_by_name(rt: &impl Abort, alloc: Global, maps: &mut MapVersions<Text>) {
    let key = name(rt, "k");
    let old = maps.insert(rt, 0, text(rt, alloc, "k"), text(rt, alloc, "one"));
    let new = maps.insert(rt, old, text(rt, alloc, "k"), text(rt, alloc, "two"));
    assert!(rt; maps.is_bound(rt, old, &key, &text(rt, alloc, "one")));
    assert!(rt; maps.is_bound(rt, new, &key, &text(rt, alloc, "two")));
    assert!(rt; maps.alike(rt, new, &key) == 1);
}

#[test]
fn keeps_values_by_name(rt: HostRuntime) {
    let mut maps: MapVersions<Text> = MapVersions::start(&rt, rt.alloc(), CODE_BITS);
    check_keeps_values_by_name(&rt, rt.alloc(), &mut maps);
}

fn check_keeps_the_cell_of_a_key(rt: &impl Abort, maps: &mut MapVersions<Num>) {
    let old = maps.insert(rt, 0, Num(7), Num(1));
    let new = maps.insert(rt, old, Num(7), Num(2));
    let cell = maps.first_key(rt, old);
    assert!(rt; cell.is_some() && maps.first_key(rt, new) == cell);
    assert!(rt; maps.walked(rt, new) == 1);
    assert!(rt; maps.bits(rt, new) == CODE_BITS);
}

#[test]
fn keeps_the_cell_of_a_key(rt: HostRuntime) {
    let mut maps: MapVersions<Num> = MapVersions::start(&rt, rt.alloc(), CODE_BITS);
    check_keeps_the_cell_of_a_key(&rt, &mut maps);
}

fn check_loses_a_value_by_name(rt: &impl Abort, alloc: Global, maps: &mut MapVersions<Text>) {
    let key = name(rt, "k");
    let one = maps.insert(rt, 0, text(rt, alloc, "k"), text(rt, alloc, "one"));
    let less = maps.remove(rt, one, &key);
    assert!(rt; maps.len(rt, less) == 0);
    assert!(rt; !maps.has(rt, less, &key));
}

#[test]
fn loses_a_value_by_name(rt: HostRuntime) {
    let mut maps: MapVersions<Text> = MapVersions::start(&rt, rt.alloc(), CODE_BITS);
    check_loses_a_value_by_name(&rt, rt.alloc(), &mut maps);
}

fn check_keeps_values_by_number(rt: &impl Abort, maps: &mut MapVersions<Num>) {
    let one = maps.insert(rt, 0, Num(1), Num(10));
    let two = maps.insert(rt, one, Num(33), Num(20));
    assert!(rt; maps.is_bound(rt, two, &Num(1), &Num(10)));
    assert!(rt; maps.is_bound(rt, two, &Num(33), &Num(20)));
    assert!(rt; !maps.has(rt, two, &Num(65)));
}

#[test]
fn keeps_values_by_number(rt: HostRuntime) {
    let mut maps: MapVersions<Num> = MapVersions::start(&rt, rt.alloc(), 5);
    check_keeps_values_by_number(&rt, &mut maps);
}

// The map with the text `a`, and that with `A` too.
fn insert_both(rt: &impl Abort, alloc: Global, maps: &mut MapVersions<Text>) -> (usize, usize) {
    let small = maps.insert(rt, 0, text(rt, alloc, "a"), text(rt, alloc, "1"));
    let both = maps.insert(rt, small, text(rt, alloc, "A"), text(rt, alloc, "2"));
    (small, both)
}

// The codes of `a` and `A`, 0xAF63DC4C8601EC8C and 0xAF63FC4C860222EC, have the same low 5 bits. So by 5 bits they stand in a
// chain below thirteen trie rows.
fn check_keeps_texts_in_a_chain(rt: &impl Abort, alloc: Global, maps: &mut MapVersions<Text>) {
    let lower = name(rt, "a");
    let upper = name(rt, "A");
    let (_small, both) = insert_both(rt, alloc, maps);
    let highest = RowShape::Trie {
        depth: 0,
        entries: 0,
        nodes: 1 << 12,
    };
    assert!(rt; maps.shape(rt, both) == highest);
    assert!(rt; is_chain_of(rt, maps, both, &lower, 2));
    assert!(rt; maps.is_bound(rt, both, &lower, &text(rt, alloc, "1")));
    assert!(rt; maps.is_bound(rt, both, &upper, &text(rt, alloc, "2")));
}

#[test]
fn keeps_texts_in_a_chain(rt: HostRuntime) {
    let mut maps: MapVersions<Text> = MapVersions::start(&rt, rt.alloc(), 5);
    check_keeps_texts_in_a_chain(&rt, rt.alloc(), &mut maps);
}

// By all bits they part at depth 1, where their digits are 4 and 23.
fn check_keeps_texts_in_a_row_below(rt: &impl Abort, alloc: Global, maps: &mut MapVersions<Text>) {
    let lower = name(rt, "a");
    let (_small, both) = insert_both(rt, alloc, maps);
    let below = RowShape::Trie {
        depth: 1,
        entries: 1 << 4 | 1 << 23,
        nodes: 0,
    };
    assert!(rt; maps.shape_below(rt, both, 1) == Some(below));
    assert!(rt; maps.alike(rt, both, &lower) == 1);
}

#[test]
fn keeps_texts_in_a_row_below(rt: HostRuntime) {
    let mut maps: MapVersions<Text> = MapVersions::start(&rt, rt.alloc(), CODE_BITS);
    check_keeps_texts_in_a_row_below(&rt, rt.alloc(), &mut maps);
}

// Two names that have one code of 64 bits, and so stand in a chain by all of them.
fn check_keeps_names_of_one_code(rt: &impl Abort, alloc: Global, maps: &mut MapVersions<Text>) {
    let first = name(rt, "7mohtcOFVz");
    let second = name(rt, "c1E51sSEyx");
    let one = maps.insert(rt, 0, text(rt, alloc, "c1E51sSEyx"), text(rt, alloc, "2"));
    let both = maps.insert(rt, one, text(rt, alloc, "7mohtcOFVz"), text(rt, alloc, "1"));
    assert!(rt; maps.alike(rt, both, &first) == 2);
    assert!(rt; maps.shape_below(rt, both, 13) == Some(RowShape::Chain));
    assert!(rt; maps.is_bound(rt, both, &first, &text(rt, alloc, "1")));
    assert!(rt; maps.is_bound(rt, both, &second, &text(rt, alloc, "2")));
}

#[test]
fn keeps_names_of_one_code(rt: HostRuntime) {
    let mut maps: MapVersions<Text> = MapVersions::start(&rt, rt.alloc(), CODE_BITS);
    check_keeps_names_of_one_code(&rt, rt.alloc(), &mut maps);
}

// `A` comes first in the chain, and the entry of `a` stays the one that it was, there and when it is alone again.
fn check_keeps_the_entry_of_a_text_in_a_chain(
    rt: &impl Abort,
    alloc: Global,
    maps: &mut MapVersions<Text>,
) {
    let upper = name(rt, "A");
    let (small, both) = insert_both(rt, alloc, maps);
    let there = maps.first(rt, small);
    assert!(rt; there.is_some() && maps.last(rt, both) == there);
    let less = maps.remove(rt, both, &upper);
    assert!(rt; maps.shape(rt, less) == maps.shape(rt, small));
    assert!(rt; maps.first(rt, less) == there);
}

#[test]
fn keeps_the_entry_of_a_text_in_a_chain(rt: HostRuntime) {
    let mut maps: MapVersions<Text> = MapVersions::start(&rt, rt.alloc(), 5);
    check_keeps_the_entry_of_a_text_in_a_chain(&rt, rt.alloc(), &mut maps);
}

// The laws of maps, and that of maps and sets, at a heap without rows.
fn call_laws<T: Element>(alloc: Global) {
    let heap: Heap<T> = Heap::new(alloc);
    containers_stay(&heap);
    maps_follow_contents(&heap);
}

// A map is shared and given up.
fn share_and_release<T: Element>(rt: &impl Abort, alloc: Global) -> Result<(), Fail> {
    let mut heap: Heap<T> = Heap::new(alloc);
    let map = Map::empty(&mut heap, 5)?;
    let again = map.share(&mut heap);
    map.release(&mut heap);
    assert!(rt; heap.live() == 1);
    let root = again.into_root();
    Map::from_root(root, 5).release(&mut heap);
    assert!(rt; heap.live() == 0);
    Ok(())
}

#[test]
fn shares_and_releases(rt: HostRuntime) -> Result<(), Fail> {
    call_laws::<Num>(rt.alloc());
    call_laws::<Text>(rt.alloc());
    share_and_release::<Num>(&rt, rt.alloc())?;
    share_and_release::<Text>(&rt, rt.alloc())
}
