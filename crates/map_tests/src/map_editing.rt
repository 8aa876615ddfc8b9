//! Maps that are edited in place beside maps that are kept, for tests that look at values alone: their calls ask for nothing and
//! promise nothing, so a test of them has nothing to prove.
ghost use Rattle.std.specs.Prelude.{◌≡◌, ℕ, ◌+◌, ◌^◌, ◌<◌, ◌∷◌, IsSome, IfSome, MatchOption};
ghost use Rattle.node_heap.specs.Heap.{row_at, holds_at, hold_count, one_at, IsGraph, program_holds};
ghost use Rattle.champ_kinds.specs.Root.{Root};
ghost use Rattle.map_tests.specs.Stands.{IsCellMap, AreHeld, EditsMap, GivesUp};

use crate::map_versions::{bound, held, no_cells, unbound};
use crate::samples::kept;
use champ_kinds::{Map, MapRef};
use edit_trie::{MapOpenFault, TrieEdit, edits_keep_values};
use elem_core::{CODE_BITS, Element, Probe};
use node_heap::{Heap, Link};
use same_value::{Values, equal_map};
use std::alloc::Global;
use std::marker::Model;
use std::process::Abort;

/// A map of cells that is edited in place, and maps in the same heap that stay, each named by the turn in which it came. The first
/// of these has no keys.
pub struct MapEditing<T: Element> {
    heap: Heap<T>,
    edit: TrieEdit,
    maps: Vec<MapRef>,
}

impl<T: Element> Model for MapEditing<T> {
    ghost use Rattle.std.specs.Prelude.{ℕ, ◌∷◌, vec_len};
    ghost use Rattle.map_tests.specs.Stands.{AreHeld};

    ghost Value = { ℕ };

    ghost view = { λ e. vec_len e.maps };

    ghost invariant = { λ e. AreHeld T.cmp T.code_of e.heap (e.edit ∷ e.maps.items) };
}

// A map that is held, and stays, opened for edits.
fn opened<T: Element>(rt: &impl Abort, heap: &mut Heap<T>, map: MapRef) -> TrieEdit
    requires cells { IsCellMap T.cmp T.code_of heap.old map }
    requires held { 0 < holds_at heap.old map.root }
    requires few { hold_count heap.old < program_holds }
    ensures cells { IsCellMap T.cmp T.code_of heap.new result }
    ensures others { (r : Root) → 0 < holds_at heap.old r.root → IsCellMap T.cmp T.code_of heap.old r → IsCellMap T.cmp T.code_of heap.new r }
    ensures holds { (k : ℕ) → holds_at heap.new k ≡ holds_at heap.old k + one_at result.root k }
    ensures count { hold_count heap.new ≡ hold_count heap.old + 1 }
{
    heap.hold(map.root());
    match TrieEdit::open(Map::from_root(map.root(), map.bits()), heap) {
        Ok(edit) => edit,
        Err(MapOpenFault { map }) => {
            // A map can't be dropped, but its link can.
            let _ = map.into_root();
            panic!(rt; "memory")
        }
    }
}

// How many more rows were ever made than there are.
fn gone<T>(heap: &Heap<T>) -> u64
    ensures { IsGraph heap.now }
{
    heap.made().wrapping_sub(heap.live() as u64)
}

/// Whether what came back is a cell of this value, or nothing where there is none. Its hold is given up.
pub fn came_back<T: Element>(heap: &mut Heap<T>, given: Option<Link>, value: Option<T>) -> bool
    requires held { IfSome given (λ l. 0 < holds_at heap.old l) }
    ensures { MatchOption given (heap.new ≡ heap.old) (λ l. GivesUp heap.old heap.new l) }
{
    match given {
        None => value.is_none(),
        Some(link) => {
            heap.rows_form_a_graph();
            let same = value.is_some() && heap.value(link) == value.as_ref();
            heap.release(link);
            same
        }
    }
}

// Puts a new cell of the value at the key, and tells whether the old value was this one. As many rows are made as come.
fn put<T: Element>(
    rt: &impl Abort,
    heap: &mut Heap<T>,
    edit: &mut TrieEdit,
    key: T,
    value: T,
    old: Option<T>,
) -> bool
    requires cells { IsCellMap T.cmp T.code_of heap.old edit.old }
    requires held { 0 < holds_at heap.old edit.old.root }
    requires few { hold_count heap.old < program_holds }
    ensures { EditsMap T.cmp T.code_of heap.old heap.new edit.old edit.new }
{
    heap.reserve(1, 0).expect(rt, "memory");
    let value = heap.cell(value);
    edits_keep_values(heap);
    let before = gone(heap);
    let Ok(given) = edit.insert(heap, key, value) else {
        panic!(rt; "memory")
    };
    assert_eq!(rt; gone(heap), before);
    came_back(heap, given, old)
}

// Takes the key out, and tells whether its value was this one.
fn cut<T: Element, P: Probe<T>>(
    rt: &impl Abort,
    heap: &mut Heap<T>,
    edit: &mut TrieEdit,
    key: &P,
    old: Option<T>,
) -> bool
    requires cells { IsCellMap T.cmp T.code_of heap.old edit.old }
    requires held { 0 < holds_at heap.old edit.old.root }
    requires few { hold_count heap.old < program_holds }
    ensures { EditsMap T.cmp T.code_of heap.old heap.new edit.old edit.new }
{
    edits_keep_values(heap);
    let live = heap.live();
    let given = edit.remove(heap, key).expect(rt, "memory");
    // An absent key leaves all as it is.
    assert!(rt; given.is_some() || heap.live() == live);
    came_back(heap, given, old)
}

/// Whether the second link of this row is a cell of this value.
pub fn is_second<T: Element>(heap: &Heap<T>, row: Link, value: Option<T>) -> bool
    requires live { IsSome (row_at heap.now row) }
{
    match heap.links(row).get(1) {
        Some(link) => value.is_some() && heap.value(*link) == value.as_ref(),
        None => false,
    }
}

// Makes the key's pair the map's own, and tells whether its value is this one. As many rows are made as come.
fn own<T: Element, P: Probe<T>>(
    rt: &impl Abort,
    heap: &mut Heap<T>,
    edit: &mut TrieEdit,
    key: &P,
    value: Option<T>,
) -> bool
    requires cells { IsCellMap T.cmp T.code_of heap.old edit.old }
    requires held { 0 < holds_at heap.old edit.old.root }
    requires few { hold_count heap.old < program_holds }
    ensures { EditsMap T.cmp T.code_of heap.old heap.new edit.old edit.new }
{
    edits_keep_values(heap);
    let before = gone(heap);
    let Some(pair) = edit.own_value(heap, key).expect(rt, "memory") else {
        return value.is_none();
    };
    assert_eq!(rt; gone(heap), before);
    assert_eq!(rt; heap.owners(pair), 1);
    is_second(heap, pair, value)
}

// Whether two maps of cells by as many bits are equal.
fn is_same<T: Element>(heap: &Heap<T>, first: MapRef, second: MapRef) -> bool
    requires first { IsCellMap T.cmp T.code_of heap.now first }
    requires second { IsCellMap T.cmp T.code_of heap.now second }
    requires bits { first.bits ≡ second.bits }
{
    equal_map(heap, first, second, Values::Cells)
}

// The map of this turn. No test makes nearly so many.
fn kept_at<T: Element>(rt: &impl Abort, heap: &Heap<T>, maps: &Vec<MapRef>, turn: usize) -> MapRef
    requires { (edited : Root) × AreHeld T.cmp T.code_of heap.now (edited ∷ maps.now.items) }
    ensures cells { IsCellMap T.cmp T.code_of heap.now result }
    ensures held { 0 < holds_at heap.now result.root }
    ensures few { hold_count heap.now < 2 ^ 41 }
{
    assert!(rt; maps.len() < 1 << 40);
    assert!(rt; turn < maps.len());
    maps[turn]
}

impl<T: Element> MapEditing<T> {
    /// Two maps without keys by so many bits: one that stays, and one that is edited.
    pub fn start(rt: &impl Abort, alloc: Global, bits: u32) -> MapEditing<T> {
        assert!(rt; bits <= CODE_BITS);
        let mut heap: Heap<T> = Heap::new(alloc);
        let mut maps = Vec::new(alloc);
        let map = no_cells(&mut heap, bits).expect(rt, "memory");
        maps.push(map).expect(rt, "memory");
        let edit = opened(rt, &mut heap, map);
        MapEditing { heap, edit, maps }
    }

    /// Puts a new cell of the value at the key, and tells whether the old value was this one.
    pub fn insert(&mut self, rt: &impl Abort, key: T, value: T, old: Option<T>) -> bool {
        assert!(rt; self.maps.len() < 1 << 40);
        put(rt, &mut self.heap, &mut self.edit, key, value, old)
    }

    /// Takes the key out, and tells whether its value was this one.
    pub fn remove<P: Probe<T>>(&mut self, rt: &impl Abort, key: &P, old: Option<T>) -> bool {
        assert!(rt; self.maps.len() < 1 << 40);
        cut(rt, &mut self.heap, &mut self.edit, key, old)
    }

    /// Makes the key's pair the map's own, and tells whether its value is this one.
    pub fn own_value<P: Probe<T>>(&mut self, rt: &impl Abort, key: &P, value: Option<T>) -> bool {
        assert!(rt; self.maps.len() < 1 << 40);
        own(rt, &mut self.heap, &mut self.edit, key, value)
    }

    /// Keeps a shared copy of the map as it is now, and answers its turn.
    pub fn keep(&mut self, rt: &impl Abort) -> usize {
        assert!(rt; self.maps.len() < 1 << 40);
        let map = self.edit.view();
        self.heap.hold(map.root());
        self.maps.push(map).expect(rt, "memory");
        self.maps.len() - 1
    }

    /// The same with the map of this turn opened for edits. What was edited before stays, and is named by the last turn.
    pub fn reopened(self, rt: &impl Abort, turn: usize) -> MapEditing<T> {
        let MapEditing {
            mut heap,
            edit,
            mut maps,
        } = self;
        let map = kept_at(rt, &heap, &maps, turn);
        maps.push(held(edit.freeze())).expect(rt, "memory");
        let edit = opened(rt, &mut heap, map);
        MapEditing { heap, edit, maps }
    }

    /// The map of this turn with a new cell of the value at the key, by the pure call.
    pub fn pure_insert(&mut self, rt: &impl Abort, turn: usize, key: T, value: T) -> usize {
        let map = kept_at(rt, &self.heap, &self.maps, turn);
        let made = bound(&mut self.heap, map, key, value);
        kept(rt, &mut self.maps, made)
    }

    /// The map of this turn without the key, which must be there, by the pure call.
    pub fn pure_remove<P: Probe<T>>(&mut self, rt: &impl Abort, turn: usize, key: &P) -> usize {
        let map = kept_at(rt, &self.heap, &self.maps, turn);
        let made = unbound(&mut self.heap, map, key);
        kept(rt, &mut self.maps, made)
    }

    /// Whether the edited map is equal to that of this turn.
    pub fn is_same(&self, rt: &impl Abort, turn: usize) -> bool {
        let map = kept_at(rt, &self.heap, &self.maps, turn);
        let edited = self.edit.view();
        assert!(rt; edited.bits() == map.bits());
        is_same(&self.heap, edited, map)
    }

    /// Whether the maps of these turns are equal.
    pub fn are_same(&self, rt: &impl Abort, left: usize, right: usize) -> bool {
        let left = kept_at(rt, &self.heap, &self.maps, left);
        let right = kept_at(rt, &self.heap, &self.maps, right);
        assert!(rt; left.bits() == right.bits());
        is_same(&self.heap, left, right)
    }

    /// Gives up all maps, and tells how many rows are left.
    pub fn close(self) -> usize {
        let MapEditing {
            mut heap,
            edit,
            mut maps,
        } = self;
        edit.freeze().release(&mut heap);
        while let Some(map) = maps.pop() {
            heap.release(map.root());
        }
        heap.live()
    }

    /// How many keys the edited map has.
    pub fn len(&self) -> usize {
        self.edit.view().len(&self.heap)
    }

    /// How many rows were ever made.
    pub fn made(&self) -> u64 {
        self.heap.made()
    }
}
