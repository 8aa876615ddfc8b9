//! Tries of numbers and of texts.
ghost use Rattle.std.specs.Prelude.{◌<◌, IsSome};
ghost use Rattle.node_heap.specs.Heap.{row_at, holds_at, hold_count, most_holds};

use crate::samples::{name, text};
use crate::trie_versions::TrieVersions;
use champ_chain::chains_are_read_one_way;
use champ_trie::{DraftRow, Place, depends_on_entries, rows_are_told_by_places, tries_stay};
use elem_core::{CODE_BITS, NoMemory, Num, Text};
use node_heap::{Head, Heap, Link};
use std::alloc::Global;
use std::process::Abort;

// The trie with three numbers that have one code by five bits.
fn three_alike(rt: &impl Abort, tries: &mut TrieVersions<Num>) -> usize {
    let one = tries.insert(rt, 0, Num(1));
    let two = tries.insert(rt, one, Num(33));
    tries.insert(rt, two, Num(65))
}

// Of the three two are taken out: the entry that is left is the cell that it was.
fn check_leaves_the_last_entry_its_own_cell(rt: &impl Abort, tries: &mut TrieVersions<Num>) {
    let three = three_alike(rt, tries);
    let first = tries.find(rt, three, &Num(1));
    assert!(rt; tries.count(rt, three) == 3);
    assert!(rt; tries.alike(rt, three, &Num(97)) == 3);
    let less = tries.remove(rt, three, &Num(33));
    assert!(rt; tries.find(rt, less, &Num(33)).is_none());
    assert!(rt; tries.alike(rt, less, &Num(97)) == 2);
    let last = tries.remove(rt, less, &Num(65));
    assert!(rt; tries.count(rt, last) == 1);
    assert!(rt; first.is_some() && tries.find(rt, last, &Num(1)) == first);
}

#[test]
fn leaves_the_last_entry_its_own_cell(rt: HostRuntime) {
    let mut tries: TrieVersions<Num> = TrieVersions::start(&rt, rt.alloc(), 5);
    check_leaves_the_last_entry_its_own_cell(&rt, &mut tries);
}

// Whether a look-up gives what `find` and `alike` give.
fn agrees(rt: &impl Abort, tries: &TrieVersions<Num>, turn: usize, key: u32) -> bool {
    let (entry, alike) = tries.look_up(rt, turn, &Num(key));
    entry == tries.find(rt, turn, &Num(key)) && alike == tries.alike(rt, turn, &Num(key))
}

fn check_looks_up_as_find_and_alike(rt: &impl Abort, tries: &mut TrieVersions<Num>) {
    let three = three_alike(rt, tries);
    assert!(rt; agrees(rt, tries, 0, 1));
    assert!(rt; agrees(rt, tries, three, 33));
    assert!(rt; agrees(rt, tries, three, 97));
    assert!(rt; agrees(rt, tries, three, 2));
    let (entry, alike) = tries.look_up(rt, three, &Num(33));
    assert!(rt; entry.is_some() && alike == 3);
}

#[test]
fn looks_up_as_find_and_alike(rt: HostRuntime) {
    let mut tries: TrieVersions<Num> = TrieVersions::start(&rt, rt.alloc(), 5);
    check_looks_up_as_find_and_alike(&rt, &mut tries);
}

// 1 and 33 stand in a row below the root, and 2 in the root. Each edit makes a cell and the rows on its key's way alone.
fn check_shares_what_stands_beside(rt: &impl Abort, tries: &mut TrieVersions<Num>) {
    let one = tries.insert(rt, 0, Num(1));
    assert!(rt; tries.made() == 3);
    let two = tries.insert(rt, one, Num(33));
    assert!(rt; tries.made() == 6);
    let _three = tries.insert(rt, two, Num(2));
    assert!(rt; tries.made() == 8);
}

#[test]
fn shares_what_stands_beside(rt: HostRuntime) {
    let mut tries: TrieVersions<Num> = TrieVersions::start(&rt, rt.alloc(), CODE_BITS);
    check_shares_what_stands_beside(&rt, &mut tries);
}

// A number of each turn of its own.
fn scattered(turn: u32) -> Num {
    Num(turn.wrapping_mul(2_654_435_761))
}

// The trie with 300 such numbers more.
fn insert_scattered(rt: &impl Abort, tries: &mut TrieVersions<Num>, turn: usize) -> usize {
    let mut turn = turn;
    for step in 0..300u32 {
        turn = tries.insert(rt, turn, scattered(step));
    }
    turn
}

// The trie without the same numbers.
fn remove_scattered(rt: &impl Abort, tries: &mut TrieVersions<Num>, turn: usize) -> usize {
    let mut turn = turn;
    for step in 0..300u32 {
        turn = tries.remove(rt, turn, &scattered(step));
    }
    turn
}

// Whether all of them are found.
fn has_scattered(rt: &impl Abort, tries: &TrieVersions<Num>, turn: usize) -> bool {
    for step in 0..300u32 {
        if tries.find(rt, turn, &scattered(step)).is_none() {
            return false;
        }
    }
    true
}

#[test]
fn finds_what_is_there(rt: HostRuntime) {
    for bits in [0, 3, 5, 7, 32, CODE_BITS] {
        let mut tries: TrieVersions<Num> = TrieVersions::start(&rt, rt.alloc(), bits);
        let all = insert_scattered(&rt, &mut tries, 0);
        assert!(rt; tries.count(&rt, all) == 300, "by {bits}");
        assert!(rt; has_scattered(&rt, &tries, all), "by {bits}");
        assert!(rt; tries.find(&rt, all, &Num(7)).is_none(), "by {bits}");
        let left = remove_scattered(&rt, &mut tries, all);
        assert!(rt; tries.count(&rt, left) == 0, "by {bits}");
    }
}

fn check_finds_texts_by_names(rt: &impl Abort, alloc: Global, tries: &mut TrieVersions<Text>) {
    let key = name(rt, "b");
    let one = tries.insert(rt, 0, text(rt, alloc, "a"));
    let two = tries.insert(rt, one, text(rt, alloc, "b"));
    assert!(rt; tries.find(rt, two, &key).is_some());
    assert!(rt; tries.alike(rt, two, &key) == 1);
    let left = tries.remove(rt, two, &key);
    assert!(rt; tries.find(rt, left, &key).is_none());
    assert!(rt; tries.count(rt, left) == 1);
}

#[test]
fn finds_texts_by_names(rt: HostRuntime) {
    let mut tries: TrieVersions<Text> = TrieVersions::start(&rt, rt.alloc(), CODE_BITS);
    check_finds_texts_by_names(&rt, rt.alloc(), &mut tries);
}

// The laws of tries, at heaps without rows.
#[test]
fn calls_the_laws(rt: HostRuntime) {
    let numbers: Heap<Num> = Heap::new(rt.alloc());
    depends_on_entries(&numbers);
    tries_stay(&numbers);
    rows_are_told_by_places(&numbers);
    chains_are_read_one_way(&numbers);
    let texts: Heap<Text> = Heap::new(rt.alloc());
    depends_on_entries(&texts);
    tries_stay(&texts);
    rows_are_told_by_places(&texts);
    chains_are_read_one_way(&texts);
}

// The row of depth 0 with this entry at position 3, and nothing else.
fn row_at_three(heap: &mut Heap<Num>, entry: Link) -> Link
    requires spare { 0 < heap.old.spare_nodes }
    requires held { 0 < holds_at heap.old entry }
    requires few { hold_count heap.old < most_holds }
    ensures { IsSome (row_at heap.new result) }
{
    let mut row = DraftRow::empty();
    row.put(3, Place::Entry(entry));
    row.make(heap, 0)
}

#[test]
fn makes_a_row_of_given_places(rt: HostRuntime) -> Result<(), NoMemory> {
    let mut heap: Heap<Num> = Heap::new(rt.alloc());
    heap.reserve(1, 1)?;
    let three = heap.cell(Num(3));
    let row = row_at_three(&mut heap, three);
    assert!(rt;
        matches!(
            heap.head(row),
            Some(Head::Trie {
                depth: 0,
                entries: 8,
                nodes: 0
            })
        )
    );
    assert_eq!(rt; heap.links(row), [three].as_slice());
    assert_eq!(rt; heap.made(), 2);
    Ok(())
}

// Digits of five bits, from the low end on: 33 is 1 and 1, 1025 is 1, 0 and 1.
fn check_walks_each_row_before_those_below_it(rt: &impl Abort, tries: &mut TrieVersions<Num>) {
    assert!(rt; tries.walks_as(rt, 0, &[]));
    let one = tries.insert(rt, 0, Num(33));
    let two = tries.insert(rt, one, Num(1));
    let three = tries.insert(rt, two, Num(1025));
    let four = tries.insert(rt, three, Num(2));
    assert!(rt; tries.walks_as(rt, four, &[Num(2), Num(33), Num(1), Num(1025)]));
}

#[test]
fn walks_each_row_before_those_below_it(rt: HostRuntime) {
    let mut tries: TrieVersions<Num> = TrieVersions::start(&rt, rt.alloc(), CODE_BITS);
    check_walks_each_row_before_those_below_it(&rt, &mut tries);
}

// Four numbers, of which three have one code by five bits.
fn check_walks_a_chain_by_its_keys(rt: &impl Abort, tries: &mut TrieVersions<Num>) {
    let one = tries.insert(rt, 0, Num(65));
    let two = tries.insert(rt, one, Num(33));
    let three = tries.insert(rt, two, Num(2));
    let four = tries.insert(rt, three, Num(1));
    assert!(rt; tries.walks_as(rt, four, &[Num(2), Num(1), Num(33), Num(65)]));
}

#[test]
fn walks_a_chain_by_its_keys(rt: HostRuntime) {
    let mut tries: TrieVersions<Num> = TrieVersions::start(&rt, rt.alloc(), 5);
    check_walks_a_chain_by_its_keys(&rt, &mut tries);
}

// Two numbers that differ in their seventh digit alone, which has the top bits of numbers.
#[test]
fn walks_a_row_far_below(rt: HostRuntime) {
    let mut tries: TrieVersions<Num> = TrieVersions::start(&rt, rt.alloc(), CODE_BITS);
    let one = tries.insert(&rt, 0, Num(1 << 30));
    let two = tries.insert(&rt, one, Num(0));
    assert!(rt; tries.walks_as(&rt, two, &[Num(0), Num(1 << 30)]));
}
