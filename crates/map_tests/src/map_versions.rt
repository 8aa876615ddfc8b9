//! Maps of cells, of which a test keeps each version. Its tests name them by the turn in which they came, so that they need no
//! contract.
ghost use Rattle.std.specs.Prelude.{◌≡◌, ℕ, ◌+◌, ◌^◌, ◌<◌, ◌≤◌, IfOk, IsSome};
ghost use Rattle.node_heap.specs.Heap.{row_at, holds_at, hold_count, one_at, half_holds, program_holds};
ghost use Rattle.champ_kinds.specs.Stands.{IsSomeMap};
ghost use Rattle.map_tests.specs.Stands.{IsCellMap, Keeps, Holds};

use crate::samples::kept;
use crate::shapes::{RowShape, same_tree, shape_below, shape_of};
use champ_kinds::{Map, MapRef, map_insert, map_remove};
use elem_core::{CODE_BITS, Element, NoMemory, Probe};
use node_heap::{Glass, Heap, Link, Steps};
use same_value::{Values, equal_cells, equal_map};
use set_merge::{
    map_both, map_both_need, map_both_there, map_less, map_less_need, map_less_there, map_union,
    map_union_need, map_union_there,
};
use std::alloc::Global;
use std::marker::{Brand, Model};
use std::process::Abort;
use std::sync::ledger::{Blank, Ledger};

/// Maps of cells in one heap, each named by the turn in which it came, from 0 on. All of them stay.
#[derive(Drop)]
pub struct MapVersions<T: Element> {
    heap: Heap<T>,
    maps: Vec<MapRef>,
}

impl<T: Element> Model for MapVersions<T> {
    ghost use Rattle.std.specs.Prelude.{ℕ, vec_len};
    ghost use Rattle.map_tests.specs.Stands.{IsCellMap, Holds};

    ghost Value = { ℕ };

    ghost view = { λ v. vec_len v.maps };

    ghost invariant = { λ v. Holds (IsCellMap T.cmp T.code_of) v.heap v.maps.items };
}

/// The map, whose root stays held.
pub fn held(map: Map) -> MapRef
    ensures { result ≡ map }
{
    let view = map.view();
    let _root = map.into_root();
    view
}

/// The map without keys.
pub fn no_cells<T: Element>(heap: &mut Heap<T>, bits: u32) -> Result<MapRef, NoMemory>
    requires bits { bits ≤ CODE_BITS }
    requires few { hold_count heap.old < program_holds }
    ensures good { IfOk result (IsCellMap T.cmp T.code_of heap.new) }
    ensures count { IfOk result (λ _. hold_count heap.new ≡ hold_count heap.old + 1) }
    ensures holds { IfOk result (λ made. (k : ℕ) → holds_at heap.new k ≡ holds_at heap.old k + one_at made.root k) }
{
    Ok(held(Map::empty(heap, bits)?))
}

/// The map with a new cell of the value at the key.
pub fn bound<T: Element>(
    heap: &mut Heap<T>,
    map: MapRef,
    key: T,
    value: T,
) -> Result<MapRef, NoMemory>
    requires good { IsCellMap T.cmp T.code_of heap.old map }
    requires few { hold_count heap.old < program_holds }
    ensures good { IfOk result (IsCellMap T.cmp T.code_of heap.new) }
    ensures others { IfOk result (λ _. Keeps (IsCellMap T.cmp T.code_of) heap.old heap.new) }
    ensures count { IfOk result (λ _. hold_count heap.new ≡ hold_count heap.old + 1) }
    ensures holds { IfOk result (λ made. (k : ℕ) → holds_at heap.new k ≡ holds_at heap.old k + one_at made.root k) }
{
    heap.reserve(1, 0)?;
    let value = heap.cell(value);
    let made = map_insert(heap, map, key, value)?;
    Ok(held(made))
}

/// The map without the key, which must be there.
pub fn unbound<T: Element, P: Probe<T>>(
    heap: &mut Heap<T>,
    map: MapRef,
    key: &P,
) -> Result<MapRef, ()>
    requires good { IsCellMap T.cmp T.code_of heap.old map }
    requires few { hold_count heap.old < program_holds }
    ensures good { IfOk result (IsCellMap T.cmp T.code_of heap.new) }
    ensures others { IfOk result (λ _. Keeps (IsCellMap T.cmp T.code_of) heap.old heap.new) }
    ensures count { IfOk result (λ _. hold_count heap.new ≡ hold_count heap.old + 1) }
    ensures holds { IfOk result (λ made. (k : ℕ) → holds_at heap.new k ≡ holds_at heap.old k + one_at made.root k) }
{
    match map_remove(heap, map, key) {
        Ok(Some(left)) => Ok(held(left)),
        _ => Err(()),
    }
}

// The union of two maps by as many bits.
fn united<T: Element>(heap: &mut Heap<T>, a: MapRef, b: MapRef) -> Result<MapRef, NoMemory>
    requires first { IsCellMap T.cmp T.code_of heap.old a }
    requires second { IsCellMap T.cmp T.code_of heap.old b }
    requires bits { a.bits ≡ b.bits }
    requires few { hold_count heap.old < half_holds }
    ensures good { IfOk result (IsCellMap T.cmp T.code_of heap.new) }
    ensures others { IfOk result (λ _. Keeps (IsCellMap T.cmp T.code_of) heap.old heap.new) }
    ensures count { IfOk result (λ _. hold_count heap.new ≡ hold_count heap.old + 1) }
{
    let made = map_union(heap, a, b)?;
    Ok(held(made))
}

// The entries of the first of two maps by as many bits whose keys are in the second.
fn common<T: Element>(heap: &mut Heap<T>, a: MapRef, b: MapRef) -> Result<MapRef, NoMemory>
    requires first { IsCellMap T.cmp T.code_of heap.old a }
    requires second { IsCellMap T.cmp T.code_of heap.old b }
    requires bits { a.bits ≡ b.bits }
    requires few { hold_count heap.old < half_holds }
    ensures good { IfOk result (IsCellMap T.cmp T.code_of heap.new) }
    ensures others { IfOk result (λ _. Keeps (IsCellMap T.cmp T.code_of) heap.old heap.new) }
    ensures count { IfOk result (λ _. hold_count heap.new ≡ hold_count heap.old + 1) }
{
    let made = map_both(heap, a, b)?;
    Ok(held(made))
}

// The entries of the first of two maps by as many bits whose keys aren't in the second.
fn rest<T: Element>(heap: &mut Heap<T>, a: MapRef, b: MapRef) -> Result<MapRef, NoMemory>
    requires first { IsCellMap T.cmp T.code_of heap.old a }
    requires second { IsCellMap T.cmp T.code_of heap.old b }
    requires bits { a.bits ≡ b.bits }
    requires few { hold_count heap.old < half_holds }
    ensures good { IfOk result (IsCellMap T.cmp T.code_of heap.new) }
    ensures others { IfOk result (λ _. Keeps (IsCellMap T.cmp T.code_of) heap.old heap.new) }
    ensures count { IfOk result (λ _. hold_count heap.new ≡ hold_count heap.old + 1) }
{
    let made = map_less(heap, a, b)?;
    Ok(held(made))
}

// The union, of spares that are made before.
fn united_there<T: Element>(heap: &mut Heap<T>, a: MapRef, b: MapRef) -> Result<MapRef, NoMemory>
    requires first { IsCellMap T.cmp T.code_of heap.old a }
    requires second { IsCellMap T.cmp T.code_of heap.old b }
    requires bits { a.bits ≡ b.bits }
    requires few { hold_count heap.old < half_holds }
    ensures good { IfOk result (IsCellMap T.cmp T.code_of heap.new) }
    ensures others { IfOk result (λ _. Keeps (IsCellMap T.cmp T.code_of) heap.old heap.new) }
    ensures count { IfOk result (λ _. hold_count heap.new ≡ hold_count heap.old + 1) }
{
    let need = map_union_need(heap, a, b);
    heap.reserve(0, need)?;
    let made = map_union_there(heap, a, b);
    Ok(held(made))
}

// The intersection, likewise.
fn common_there<T: Element>(heap: &mut Heap<T>, a: MapRef, b: MapRef) -> Result<MapRef, NoMemory>
    requires first { IsCellMap T.cmp T.code_of heap.old a }
    requires second { IsCellMap T.cmp T.code_of heap.old b }
    requires bits { a.bits ≡ b.bits }
    requires few { hold_count heap.old < half_holds }
    ensures good { IfOk result (IsCellMap T.cmp T.code_of heap.new) }
    ensures others { IfOk result (λ _. Keeps (IsCellMap T.cmp T.code_of) heap.old heap.new) }
    ensures count { IfOk result (λ _. hold_count heap.new ≡ hold_count heap.old + 1) }
{
    let need = map_both_need(heap, a, b);
    heap.reserve(0, need)?;
    let made = map_both_there(heap, a, b);
    Ok(held(made))
}

// The entries of the first alone, likewise.
fn rest_there<T: Element>(heap: &mut Heap<T>, a: MapRef, b: MapRef) -> Result<MapRef, NoMemory>
    requires first { IsCellMap T.cmp T.code_of heap.old a }
    requires second { IsCellMap T.cmp T.code_of heap.old b }
    requires bits { a.bits ≡ b.bits }
    requires few { hold_count heap.old < half_holds }
    ensures good { IfOk result (IsCellMap T.cmp T.code_of heap.new) }
    ensures others { IfOk result (λ _. Keeps (IsCellMap T.cmp T.code_of) heap.old heap.new) }
    ensures count { IfOk result (λ _. hold_count heap.new ≡ hold_count heap.old + 1) }
{
    let need = map_less_need(heap, a, b);
    heap.reserve(0, need)?;
    let made = map_less_there(heap, a, b);
    Ok(held(made))
}

// The map of this turn. No test makes nearly so many.
fn map_at<T: Element>(rt: &impl Abort, heap: &Heap<T>, maps: &Vec<MapRef>, turn: usize) -> MapRef
    requires { Holds (IsCellMap T.cmp T.code_of) heap.now maps.now.items }
    ensures cells { IsCellMap T.cmp T.code_of heap.now result }
    ensures map { IsSomeMap T.cmp T.code_of heap.now result }
    ensures few { hold_count heap.now < 2 ^ 40 }
{
    assert!(rt; maps.len() < 1 << 40);
    assert!(rt; turn < maps.len());
    maps[turn]
}

// Its root.
fn root_at<T: Element>(rt: &impl Abort, heap: &Heap<T>, maps: &Vec<MapRef>, turn: usize) -> Link
    requires { Holds (IsCellMap T.cmp T.code_of) heap.now maps.now.items }
    ensures { IsSome (row_at heap.now result) }
{
    map_at(rt, heap, maps, turn).root()
}

// The key cell of the first entry.
fn first_key<T: Element>(heap: &Heap<T>, map: MapRef) -> Option<Link>
    requires { IsSomeMap T.cmp T.code_of heap.now map }
{
    let entry = map.entries(heap).next()?;
    heap.links(entry).first().copied()
}

// Whether two maps of cells are equal, with steps on a ledger of its own. Both calls that compare such maps must say so.
fn are_same<T: Element, L: Ledger>(
    rt: &impl Abort,
    heap: &Heap<T>,
    first: MapRef,
    second: MapRef,
    blank: Blank,
) -> bool
    requires first { IsCellMap T.cmp T.code_of heap.now first }
    requires second { IsCellMap T.cmp T.code_of heap.now second }
    requires bits { first.bits ≡ second.bits }
    requires name { blank.name ≡ L.name }
    requires parts { blank.parts ≡ L.parts }
    requires some { 0 < L.parts }
{
    let mut steps = Steps::<L>::new(blank);
    let same = equal_cells(Glass::new(heap), first, second, &mut steps);
    assert!(rt; equal_map(heap, first, second, Values::Cells) == same);
    same
}

impl<T: Element> MapVersions<T> {
    /// The map without keys alone, by so many bits.
    pub fn start(rt: &impl Abort, alloc: Global, bits: u32) -> MapVersions<T>
        requires { bits ≤ CODE_BITS }
    {
        let mut heap: Heap<T> = Heap::new(alloc);
        let mut maps = Vec::new(alloc);
        let made = no_cells(&mut heap, bits);
        kept(rt, &mut maps, made);
        MapVersions { heap, maps }
    }

    /// The one of this turn with a new cell of the value at the key.
    pub fn insert(&mut self, rt: &impl Abort, turn: usize, key: T, value: T) -> usize {
        let map = map_at(rt, &self.heap, &self.maps, turn);
        let made = bound(&mut self.heap, map, key, value);
        kept(rt, &mut self.maps, made)
    }

    /// The one of this turn without the key, which must be there.
    pub fn remove<P: Probe<T>>(&mut self, rt: &impl Abort, turn: usize, key: &P) -> usize {
        let map = map_at(rt, &self.heap, &self.maps, turn);
        let made = unbound(&mut self.heap, map, key);
        kept(rt, &mut self.maps, made)
    }

    /// The union of two by as many bits.
    pub fn unite(&mut self, rt: &impl Abort, left: usize, right: usize) -> usize {
        let left = map_at(rt, &self.heap, &self.maps, left);
        let right = map_at(rt, &self.heap, &self.maps, right);
        assert!(rt; left.bits() == right.bits());
        let made = united(&mut self.heap, left, right);
        kept(rt, &mut self.maps, made)
    }

    /// The entries of the first of two by as many bits whose keys are in the second.
    pub fn meet(&mut self, rt: &impl Abort, left: usize, right: usize) -> usize {
        let left = map_at(rt, &self.heap, &self.maps, left);
        let right = map_at(rt, &self.heap, &self.maps, right);
        assert!(rt; left.bits() == right.bits());
        let made = common(&mut self.heap, left, right);
        kept(rt, &mut self.maps, made)
    }

    /// The entries of the first of two by as many bits whose keys aren't in the second.
    pub fn lose(&mut self, rt: &impl Abort, left: usize, right: usize) -> usize {
        let left = map_at(rt, &self.heap, &self.maps, left);
        let right = map_at(rt, &self.heap, &self.maps, right);
        assert!(rt; left.bits() == right.bits());
        let made = rest(&mut self.heap, left, right);
        kept(rt, &mut self.maps, made)
    }

    /// That of `unite`, of spares that are made before.
    pub fn unite_there(&mut self, rt: &impl Abort, left: usize, right: usize) -> usize {
        let left = map_at(rt, &self.heap, &self.maps, left);
        let right = map_at(rt, &self.heap, &self.maps, right);
        assert!(rt; left.bits() == right.bits());
        let made = united_there(&mut self.heap, left, right);
        kept(rt, &mut self.maps, made)
    }

    /// That of `meet`, likewise.
    pub fn meet_there(&mut self, rt: &impl Abort, left: usize, right: usize) -> usize {
        let left = map_at(rt, &self.heap, &self.maps, left);
        let right = map_at(rt, &self.heap, &self.maps, right);
        assert!(rt; left.bits() == right.bits());
        let made = common_there(&mut self.heap, left, right);
        kept(rt, &mut self.maps, made)
    }

    /// That of `lose`, likewise.
    pub fn lose_there(&mut self, rt: &impl Abort, left: usize, right: usize) -> usize {
        let left = map_at(rt, &self.heap, &self.maps, left);
        let right = map_at(rt, &self.heap, &self.maps, right);
        assert!(rt; left.bits() == right.bits());
        let made = rest_there(&mut self.heap, left, right);
        kept(rt, &mut self.maps, made)
    }

    /// How many rows that of `unite` may make.
    pub fn unite_need(&self, rt: &impl Abort, left: usize, right: usize) -> usize {
        let left = map_at(rt, &self.heap, &self.maps, left);
        let right = map_at(rt, &self.heap, &self.maps, right);
        assert!(rt; left.bits() == right.bits());
        map_union_need(&self.heap, left, right)
    }

    /// How many rows that of `meet` may make.
    pub fn meet_need(&self, rt: &impl Abort, left: usize, right: usize) -> usize {
        let left = map_at(rt, &self.heap, &self.maps, left);
        let right = map_at(rt, &self.heap, &self.maps, right);
        assert!(rt; left.bits() == right.bits());
        map_both_need(&self.heap, left, right)
    }

    /// How many rows that of `lose` may make.
    pub fn lose_need(&self, rt: &impl Abort, left: usize, right: usize) -> usize {
        let left = map_at(rt, &self.heap, &self.maps, left);
        let right = map_at(rt, &self.heap, &self.maps, right);
        assert!(rt; left.bits() == right.bits());
        map_less_need(&self.heap, left, right)
    }

    /// By how many bits the one of this turn is.
    pub fn bits(&self, rt: &impl Abort, turn: usize) -> u32 {
        map_at(rt, &self.heap, &self.maps, turn).bits()
    }

    /// How many keys the one of this turn has.
    pub fn len(&self, rt: &impl Abort, turn: usize) -> usize {
        map_at(rt, &self.heap, &self.maps, turn).len(&self.heap)
    }

    /// How many of its keys have the masked code of this one.
    pub fn alike<P: Probe<T>>(&self, rt: &impl Abort, turn: usize, key: &P) -> usize {
        map_at(rt, &self.heap, &self.maps, turn).alike(&self.heap, key)
    }

    /// Whether it has the key.
    pub fn has<P: Probe<T>>(&self, rt: &impl Abort, turn: usize, key: &P) -> bool {
        let map = map_at(rt, &self.heap, &self.maps, turn);
        map.get(&self.heap, key).is_some()
    }

    /// Whether the value at the key is a cell of this value.
    pub fn is_bound<P: Probe<T>>(&self, rt: &impl Abort, turn: usize, key: &P, value: &T) -> bool {
        let map = map_at(rt, &self.heap, &self.maps, turn);
        match map.get(&self.heap, key) {
            Some(link) => self.heap.value(link) == Some(value),
            None => false,
        }
    }

    /// How many entries its iterator gives.
    pub fn walked(&self, rt: &impl Abort, turn: usize) -> usize {
        let map = map_at(rt, &self.heap, &self.maps, turn);
        map.entries(&self.heap).count()
    }

    /// Its first entry.
    pub fn first(&self, rt: &impl Abort, turn: usize) -> Option<Link> {
        let map = map_at(rt, &self.heap, &self.maps, turn);
        map.entries(&self.heap).next()
    }

    /// Its last entry.
    pub fn last(&self, rt: &impl Abort, turn: usize) -> Option<Link> {
        let map = map_at(rt, &self.heap, &self.maps, turn);
        map.entries(&self.heap).last()
    }

    /// The key cell of its first entry.
    pub fn first_key(&self, rt: &impl Abort, turn: usize) -> Option<Link> {
        first_key(&self.heap, map_at(rt, &self.heap, &self.maps, turn))
    }

    /// What its root is.
    pub fn shape(&self, rt: &impl Abort, turn: usize) -> RowShape {
        shape_of(&self.heap, root_at(rt, &self.heap, &self.maps, turn))
    }

    /// What stands so many links below its root, by the last link of each row.
    pub fn shape_below(&self, rt: &impl Abort, turn: usize, levels: u32) -> Option<RowShape> {
        let root = root_at(rt, &self.heap, &self.maps, turn);
        shape_below(&self.heap, root, levels)
    }

    /// Whether two have one root.
    pub fn are_one(&self, rt: &impl Abort, left: usize, right: usize) -> bool {
        let left = root_at(rt, &self.heap, &self.maps, left);
        left == root_at(rt, &self.heap, &self.maps, right)
    }

    /// Whether the roots of two have equal trees, of twenty levels at most.
    pub fn are_alike(&self, rt: &impl Abort, left: usize, right: usize) -> bool {
        let left = root_at(rt, &self.heap, &self.maps, left);
        let right = root_at(rt, &self.heap, &self.maps, right);
        same_tree(&self.heap, left, right, 20)
    }

    /// Whether two by as many bits are equal, by both calls that compare maps of cells.
    pub fn are_equal(&self, rt: &impl Abort, left: usize, right: usize) -> bool {
        let left = map_at(rt, &self.heap, &self.maps, left);
        let right = map_at(rt, &self.heap, &self.maps, right);
        assert!(rt; left.bits() == right.bits());
        are_same::<T, Brand>(rt, &self.heap, left, right, Blank::new(1))
    }

    /// How many rows were ever made.
    pub fn made(&self) -> u64 {
        self.heap.made()
    }

    /// How many rows there are.
    pub fn live(&self) -> usize {
        self.heap.live()
    }
}
