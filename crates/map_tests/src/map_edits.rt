//! Maps of numbers that are edited in place, beside the same edits by pure calls.
ghost use Rattle.std.specs.Prelude.{◌<◌};

use crate::map_editing::MapEditing;
use crate::map_placed::PlacedMap;
use edit_trie::{edits_keep_values, paths_of_small_tries};
use elem_core::{CODE_BITS, Num};
use node_heap::Heap;
use std::alloc::Global;
use std::process::Abort;

// What the linear congruential generator of Knuth's MMIX gives after x.
fn stepped(x: u64) -> u64 {
    x.wrapping_mul(6_364_136_223_846_793_005)
        .wrapping_add(1_442_695_040_888_963_407)
}

// Edits a map in place and by pure calls, and keeps a shared copy every tenth time.
struct Trial {
    editing: MapEditing<Num>,
    // The turn of the map by pure calls.
    pure: usize,
    // The value of each key.
    values: [Option<Num>; 64],
    // The turns of the copies, each with that of the same map by pure calls.
    copies: Vec<(usize, usize)>,
}

impl Trial {
    // One edit of a key, by both ways.
    fn edit(&mut self, rt: &impl Abort, key: usize, inserts: bool, value: Num) {
        assert!(rt; key < 64);
        let number = Num(key as u32);
        let old = self.values[key];
        if inserts {
            assert!(rt; self.editing.insert(rt, number, value, old));
            self.pure = self.editing.pure_insert(rt, self.pure, number, value);
            self.values[key] = Some(value);
        } else {
            assert!(rt; self.editing.remove(rt, &number, old));
            if old.is_some() {
                self.pure = self.editing.pure_remove(rt, self.pure, &number);
            }
            self.values[key] = None;
        }
        assert!(rt; self.editing.is_same(rt, self.pure));
    }

    // Keeps a shared copy, and the map by pure calls that is the same.
    fn keep(&mut self, rt: &impl Abort) {
        let copy = self.editing.keep(rt);
        self.copies.push((copy, self.pure)).expect(rt, "memory");
    }

    // So many edits by the numbers of the generator.
    fn edit_all(&mut self, rt: &impl Abort, count: u32) {
        let mut x = 1;
        for step in 0..count {
            x = stepped(x);
            let key = ((x >> 32) & 4_194_303) % 64;
            self.edit(rt, key as usize, x >> 60 < 10, Num(step));
            if step % 10 == 0 {
                self.keep(rt);
            }
        }
    }

    // Each copy is still the map by pure calls of its time.
    fn copies_stay(&self, rt: &impl Abort) {
        for (copy, pure) in self.copies.as_slice() {
            assert!(rt; self.editing.are_same(rt, *copy, *pure));
        }
    }
}

// So many edits by the numbers of the generator, in a map by so many bits.
fn edits_as_pure_calls(rt: &impl Abort, alloc: Global, bits: u32, count: u32) {
    let mut trial = Trial {
        editing: MapEditing::start(rt, alloc, bits),
        pure: 0,
        values: [None; 64],
        copies: Vec::new(alloc),
    };
    trial.edit_all(rt, count);
    trial.copies_stay(rt);
    let Trial {
        editing,
        pure: _,
        values: _,
        copies: _copies,
    } = trial;
    assert!(rt; editing.close() == 0);
}

#[test]
fn edits_by_five_bits(rt: HostRuntime) {
    edits_as_pure_calls(&rt, rt.alloc(), 5, 2000);
}

// Each key stands in one chain.
#[test]
fn edits_by_no_bits(rt: HostRuntime) {
    edits_as_pure_calls(&rt, rt.alloc(), 0, 600);
}

#[test]
fn edits_by_seven_bits(rt: HostRuntime) {
    edits_as_pure_calls(&rt, rt.alloc(), 7, 1000);
}

#[test]
fn edits_by_all_bits(rt: HostRuntime) {
    edits_as_pure_calls(&rt, rt.alloc(), CODE_BITS, 1000);
}

// Puts each of these numbers in at itself, none of which is there.
fn insert_numbers(rt: &impl Abort, editing: &mut MapEditing<Num>, from: u32, to: u32) {
    for number in from..to {
        assert!(rt; editing.insert(rt, Num(number), Num(number), None));
    }
}

// A map that nothing else holds makes no row for a present key but the cell of the new value.
fn makes_cells_alone(rt: &impl Abort, editing: &mut MapEditing<Num>) {
    let made = editing.made();
    assert!(rt; editing.insert(rt, Num(1), Num(11), Some(Num(10))));
    assert_eq!(rt; editing.made().wrapping_sub(made), 1);
    assert!(rt; editing.own_value(rt, &Num(1), Some(Num(11))));
    assert!(rt; editing.insert(rt, Num(2), Num(22), Some(Num(20))));
    assert_eq!(rt; editing.made().wrapping_sub(made), 2);
}

// Beside a kept copy, which makes no row itself, the root and the pair are copied, and then they are alone.
fn copies_once(rt: &impl Abort, editing: &mut MapEditing<Num>, made: u64) {
    assert!(rt; editing.own_value(rt, &Num(1), Some(Num(11))));
    assert_eq!(rt; editing.made().wrapping_sub(made), 2);
    assert!(rt; editing.own_value(rt, &Num(1), Some(Num(11))));
    assert!(rt; editing.own_value(rt, &Num(3), None));
    assert!(rt; editing.remove(rt, &Num(3), None));
    assert_eq!(rt; editing.made().wrapping_sub(made), 2);
}

// The root is alone, so a removal in it makes nothing. The copy stays.
fn removes_alone(rt: &impl Abort, editing: &mut MapEditing<Num>, copy: usize) {
    let made = editing.made();
    assert!(rt; editing.is_same(rt, copy));
    assert!(rt; editing.remove(rt, &Num(2), Some(Num(22))));
    assert_eq!(rt; editing.made(), made);
    assert!(rt; !editing.is_same(rt, copy));
    assert_eq!(rt; editing.len(), 1);
}

// A key and each row on the way to it are made once.
#[test]
fn makes_what_is_shared_alone(rt: HostRuntime) {
    let mut editing: MapEditing<Num> = MapEditing::start(&rt, rt.alloc(), 5);
    assert!(rt; editing.insert(&rt, Num(1), Num(10), None));
    assert!(rt; editing.insert(&rt, Num(2), Num(20), None));
    makes_cells_alone(&rt, &mut editing);
    let made = editing.made();
    let copy = editing.keep(&rt);
    copies_once(&rt, &mut editing, made);
    removes_alone(&rt, &mut editing, copy);
    assert_eq!(rt; editing.close(), 0);
}

// Edits three keys of a map at its place: one row is made, the cell of the new value.
fn edits_three_keys(rt: &impl Abort, placed: &mut PlacedMap<Num>) {
    let made = placed.made();
    assert!(rt; placed.insert(rt, Num(33), Num(40), Some(Num(20))));
    assert!(rt; placed.own_value(rt, &Num(33), Some(Num(40))));
    assert!(rt; placed.own_value(rt, &Num(1), Some(Num(10))));
    assert!(rt; placed.own_value(rt, &Num(65), None));
    assert_eq!(rt; placed.made().wrapping_sub(made), 1);
    assert_eq!(rt; placed.len(), 3);
}

// Puts three keys in a map at its place, and edits them.
fn edits_at_a_place(rt: &impl Abort, placed: PlacedMap<Num>) {
    let mut placed = placed;
    assert!(rt; placed.insert(rt, Num(1), Num(10), None));
    assert!(rt; placed.insert(rt, Num(33), Num(20), None));
    assert!(rt; placed.insert(rt, Num(2), Num(30), None));
    edits_three_keys(rt, &mut placed);
    assert_eq!(rt; placed.close(), 0);
}

#[test]
fn edits_below_rows(rt: HostRuntime) {
    edits_at_a_place(&rt, PlacedMap::in_state(&rt, rt.alloc(), 5));
    edits_at_a_place(&rt, PlacedMap::in_pair(&rt, rt.alloc(), 5, Num(7)));
}

// The numbers below 40 by pure calls.
fn pure_numbers(rt: &impl Abort, editing: &mut MapEditing<Num>) -> usize {
    let mut pure = 0;
    for number in 0..40 {
        pure = editing.pure_insert(rt, pure, Num(number), Num(number));
    }
    pure
}

// The numbers from 19 to 39 by pure calls, the greatest first and with another value.
fn upper_numbers(rt: &impl Abort, editing: &mut MapEditing<Num>) -> usize {
    let mut upper = editing.pure_insert(rt, 0, Num(39), Num(0));
    for number in 0..20 {
        upper = editing.pure_insert(rt, upper, Num(38 - number), Num(38 - number));
    }
    upper
}

// The numbers below 19, put in with ten others that are taken out again.
fn insert_lower_numbers(rt: &impl Abort, editing: &mut MapEditing<Num>) {
    insert_numbers(rt, editing, 40, 50);
    insert_numbers(rt, editing, 0, 19);
    for number in 40..50 {
        assert!(rt; editing.remove(rt, &Num(number), Some(Num(number))));
    }
}

// The maps of these turns are equal to each other and to the edited map, and to none of the others.
fn are_equal(rt: &impl Abort, editing: &MapEditing<Num>, turns: [usize; 4], others: [usize; 3]) {
    for left in turns {
        assert!(rt; editing.is_same(rt, left));
        for right in turns {
            assert!(rt; editing.are_same(rt, left, right));
        }
        for other in others {
            assert!(rt; !editing.are_same(rt, left, other));
        }
    }
}

// The edited map with another value at one key, without that key, and with another key for it, is no longer that of this turn.
fn differs_by_little(rt: &impl Abort, editing: &mut MapEditing<Num>, turn: usize) {
    assert!(rt; editing.insert(rt, Num(7), Num(8), Some(Num(7))));
    assert!(rt; !editing.is_same(rt, turn));
    assert!(rt; editing.remove(rt, &Num(7), Some(Num(8))));
    assert!(rt; !editing.is_same(rt, turn));
    assert!(rt; editing.insert(rt, Num(71), Num(7), None));
    assert!(rt; !editing.is_same(rt, turn));
}

// The numbers below 40 by pure calls, and by edits in place, and the upper ones of them.
fn numbers_and_upper(rt: &impl Abort, editing: &mut MapEditing<Num>) -> ([usize; 2], usize) {
    let pure = pure_numbers(rt, editing);
    insert_numbers(rt, editing, 0, 40);
    let edited = editing.keep(rt);
    ([pure, edited], upper_numbers(rt, editing))
}

// The same numbers by edits in place after the pure calls for the upper ones, and then by pure calls after those edits.
fn go_on(rt: &impl Abort, editing: &mut MapEditing<Num>, built: [usize; 2], upper: usize) {
    let [pure, edited] = built;
    insert_lower_numbers(rt, editing);
    assert!(rt; !editing.is_same(rt, pure));
    assert!(rt; editing.insert(rt, Num(39), Num(39), Some(Num(0))));
    let mixed = editing.keep(rt);
    let more = editing.pure_insert(rt, mixed, Num(100), Num(100));
    let less = editing.pure_remove(rt, more, &Num(100));
    are_equal(rt, editing, [pure, edited, mixed, less], [more, upper, 0]);
    differs_by_little(rt, editing, pure);
}

// The numbers below 40, each at itself, in maps by so many bits that are built in four ways.
fn equal_however_built(rt: &impl Abort, alloc: Global, bits: u32) {
    let mut editing: MapEditing<Num> = MapEditing::start(rt, alloc, bits);
    let (built, upper) = numbers_and_upper(rt, &mut editing);
    let mut editing = editing.reopened(rt, upper);
    go_on(rt, &mut editing, built, upper);
    assert!(rt; editing.close() == 0);
}

#[test]
fn are_equal_however_built(rt: HostRuntime) {
    for bits in [0, 5, 7, 32, CODE_BITS] {
        equal_however_built(&rt, rt.alloc(), bits);
    }
}

// The laws hold of all heaps: what is called here does nothing.
#[test]
fn laws_of_edits(rt: HostRuntime) {
    paths_of_small_tries();
    let numbers: Heap<Num> = Heap::new(rt.alloc());
    edits_keep_values(&numbers);
    assert!(rt; numbers.live() == 0);
}
