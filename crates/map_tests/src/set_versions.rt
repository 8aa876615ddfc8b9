//! Sets, of which a test keeps each version. Its tests name them by the turn in which they came, so that they need no contract.
ghost use Rattle.std.specs.Prelude.{◌≡◌, ◌+◌, ◌^◌, ◌<◌, ◌≤◌, IfOk};
ghost use Rattle.node_heap.specs.Heap.{hold_count, half_holds, program_holds};
ghost use Rattle.champ_kinds.specs.Stands.{IsSomeSet, KeepsSets};
ghost use Rattle.map_tests.specs.Stands.{Holds};

use crate::samples::kept;
use champ_kinds::{Set, SetRef, set_insert, set_remove};
use elem_core::{CODE_BITS, Element, NoMemory, Probe};
use node_heap::{Glass, Heap, Steps};
use same_value::equal_set;
use set_merge::{
    set_both, set_both_need, set_both_there, set_less, set_less_need, set_less_there, set_union,
    set_union_need, set_union_there,
};
use std::alloc::Global;
use std::marker::{Brand, Model};
use std::process::Abort;
use std::sync::ledger::{Blank, Ledger};

/// Sets in one heap, each named by the turn in which it came, from 0 on. All of them stay.
#[derive(Drop)]
pub struct SetVersions<T: Element> {
    heap: Heap<T>,
    sets: Vec<SetRef>,
}

impl<T: Element> Model for SetVersions<T> {
    ghost use Rattle.std.specs.Prelude.{ℕ, vec_len};
    ghost use Rattle.champ_kinds.specs.Stands.{IsSomeSet};
    ghost use Rattle.map_tests.specs.Stands.{Holds};

    ghost Value = { ℕ };

    ghost view = { λ v. vec_len v.sets };

    ghost invariant = { λ v. Holds (IsSomeSet T.cmp T.code_of) v.heap v.sets.items };
}

// The set, whose root stays held.
fn held(set: Set) -> SetRef
    ensures { result ≡ set }
{
    let view = set.view();
    let _root = set.into_root();
    view
}

// The set without keys.
fn no_keys<T: Element>(heap: &mut Heap<T>, bits: u32) -> Result<SetRef, NoMemory>
    requires bits { bits ≤ CODE_BITS }
    requires few { hold_count heap.old < program_holds }
    ensures good { IfOk result (IsSomeSet T.cmp T.code_of heap.new) }
    ensures count { IfOk result (λ _. hold_count heap.new ≡ hold_count heap.old + 1) }
{
    Ok(held(Set::empty(heap, bits)?))
}

// The set with the key.
fn gained<T: Element>(heap: &mut Heap<T>, set: SetRef, key: T) -> Result<SetRef, NoMemory>
    requires good { IsSomeSet T.cmp T.code_of heap.old set }
    requires few { hold_count heap.old < program_holds }
    ensures good { IfOk result (IsSomeSet T.cmp T.code_of heap.new) }
    ensures others { IfOk result (λ _. KeepsSets T.cmp T.code_of heap.old heap.new) }
    ensures count { IfOk result (λ _. hold_count heap.new ≡ hold_count heap.old + 1) }
{
    let made = set_insert(heap, set, key)?;
    Ok(held(made))
}

// The set without the key, which must be there.
fn lost<T: Element, P: Probe<T>>(heap: &mut Heap<T>, set: SetRef, key: &P) -> Result<SetRef, ()>
    requires good { IsSomeSet T.cmp T.code_of heap.old set }
    requires few { hold_count heap.old < program_holds }
    ensures good { IfOk result (IsSomeSet T.cmp T.code_of heap.new) }
    ensures others { IfOk result (λ _. KeepsSets T.cmp T.code_of heap.old heap.new) }
    ensures count { IfOk result (λ _. hold_count heap.new ≡ hold_count heap.old + 1) }
{
    match set_remove(heap, set, key) {
        Ok(Some(left)) => Ok(held(left)),
        _ => Err(()),
    }
}

// The union of two sets by as many bits.
fn united<T: Element>(heap: &mut Heap<T>, a: SetRef, b: SetRef) -> Result<SetRef, NoMemory>
    requires first { IsSomeSet T.cmp T.code_of heap.old a }
    requires second { IsSomeSet T.cmp T.code_of heap.old b }
    requires bits { a.bits ≡ b.bits }
    requires few { hold_count heap.old < half_holds }
    ensures good { IfOk result (IsSomeSet T.cmp T.code_of heap.new) }
    ensures others { IfOk result (λ _. KeepsSets T.cmp T.code_of heap.old heap.new) }
    ensures count { IfOk result (λ _. hold_count heap.new ≡ hold_count heap.old + 1) }
{
    let made = set_union(heap, a, b)?;
    Ok(held(made))
}

// The intersection of two sets by as many bits.
fn common<T: Element>(heap: &mut Heap<T>, a: SetRef, b: SetRef) -> Result<SetRef, NoMemory>
    requires first { IsSomeSet T.cmp T.code_of heap.old a }
    requires second { IsSomeSet T.cmp T.code_of heap.old b }
    requires bits { a.bits ≡ b.bits }
    requires few { hold_count heap.old < half_holds }
    ensures good { IfOk result (IsSomeSet T.cmp T.code_of heap.new) }
    ensures others { IfOk result (λ _. KeepsSets T.cmp T.code_of heap.old heap.new) }
    ensures count { IfOk result (λ _. hold_count heap.new ≡ hold_count heap.old + 1) }
{
    let made = set_both(heap, a, b)?;
    Ok(held(made))
}

// The keys of the first of two sets by as many bits that aren't in the second.
fn rest<T: Element>(heap: &mut Heap<T>, a: SetRef, b: SetRef) -> Result<SetRef, NoMemory>
    requires first { IsSomeSet T.cmp T.code_of heap.old a }
    requires second { IsSomeSet T.cmp T.code_of heap.old b }
    requires bits { a.bits ≡ b.bits }
    requires few { hold_count heap.old < half_holds }
    ensures good { IfOk result (IsSomeSet T.cmp T.code_of heap.new) }
    ensures others { IfOk result (λ _. KeepsSets T.cmp T.code_of heap.old heap.new) }
    ensures count { IfOk result (λ _. hold_count heap.new ≡ hold_count heap.old + 1) }
{
    let made = set_less(heap, a, b)?;
    Ok(held(made))
}

// The union, of spares that are made before.
fn united_there<T: Element>(heap: &mut Heap<T>, a: SetRef, b: SetRef) -> Result<SetRef, NoMemory>
    requires first { IsSomeSet T.cmp T.code_of heap.old a }
    requires second { IsSomeSet T.cmp T.code_of heap.old b }
    requires bits { a.bits ≡ b.bits }
    requires few { hold_count heap.old < half_holds }
    ensures good { IfOk result (IsSomeSet T.cmp T.code_of heap.new) }
    ensures others { IfOk result (λ _. KeepsSets T.cmp T.code_of heap.old heap.new) }
    ensures count { IfOk result (λ _. hold_count heap.new ≡ hold_count heap.old + 1) }
{
    let need = set_union_need(heap, a, b);
    heap.reserve(0, need)?;
    let made = set_union_there(heap, a, b);
    Ok(held(made))
}

// The intersection, likewise.
fn common_there<T: Element>(heap: &mut Heap<T>, a: SetRef, b: SetRef) -> Result<SetRef, NoMemory>
    requires first { IsSomeSet T.cmp T.code_of heap.old a }
    requires second { IsSomeSet T.cmp T.code_of heap.old b }
    requires bits { a.bits ≡ b.bits }
    requires few { hold_count heap.old < half_holds }
    ensures good { IfOk result (IsSomeSet T.cmp T.code_of heap.new) }
    ensures others { IfOk result (λ _. KeepsSets T.cmp T.code_of heap.old heap.new) }
    ensures count { IfOk result (λ _. hold_count heap.new ≡ hold_count heap.old + 1) }
{
    let need = set_both_need(heap, a, b);
    heap.reserve(0, need)?;
    let made = set_both_there(heap, a, b);
    Ok(held(made))
}

// The keys of the first alone, likewise.
fn rest_there<T: Element>(heap: &mut Heap<T>, a: SetRef, b: SetRef) -> Result<SetRef, NoMemory>
    requires first { IsSomeSet T.cmp T.code_of heap.old a }
    requires second { IsSomeSet T.cmp T.code_of heap.old b }
    requires bits { a.bits ≡ b.bits }
    requires few { hold_count heap.old < half_holds }
    ensures good { IfOk result (IsSomeSet T.cmp T.code_of heap.new) }
    ensures others { IfOk result (λ _. KeepsSets T.cmp T.code_of heap.old heap.new) }
    ensures count { IfOk result (λ _. hold_count heap.new ≡ hold_count heap.old + 1) }
{
    let need = set_less_need(heap, a, b);
    heap.reserve(0, need)?;
    let made = set_less_there(heap, a, b);
    Ok(held(made))
}

// The set of this turn. No test makes nearly so many.
fn set_at<T: Element>(rt: &impl Abort, heap: &Heap<T>, sets: &Vec<SetRef>, turn: usize) -> SetRef
    requires { Holds (IsSomeSet T.cmp T.code_of) heap.now sets.now.items }
    ensures good { IsSomeSet T.cmp T.code_of heap.now result }
    ensures few { hold_count heap.now < 2 ^ 40 }
{
    assert!(rt; sets.len() < 1 << 40);
    assert!(rt; turn < sets.len());
    sets[turn]
}

// Whether two sets are equal, with steps on a ledger of its own.
fn are_same<T: Element, L: Ledger>(
    heap: &Heap<T>,
    first: SetRef,
    second: SetRef,
    blank: Blank,
) -> bool
    requires first { IsSomeSet T.cmp T.code_of heap.now first }
    requires second { IsSomeSet T.cmp T.code_of heap.now second }
    requires bits { first.bits ≡ second.bits }
    requires name { blank.name ≡ L.name }
    requires parts { blank.parts ≡ L.parts }
    requires some { 0 < L.parts }
{
    let mut steps = Steps::<L>::new(blank);
    equal_set(Glass::new(heap), first, second, &mut steps)
}

impl<T: Element> SetVersions<T> {
    /// The set without keys alone, by so many bits.
    pub fn start(rt: &impl Abort, alloc: Global, bits: u32) -> SetVersions<T>
        requires { bits ≤ CODE_BITS }
    {
        let mut heap: Heap<T> = Heap::new(alloc);
        let mut sets = Vec::new(alloc);
        let made = no_keys(&mut heap, bits);
        kept(rt, &mut sets, made);
        SetVersions { heap, sets }
    }

    /// The one of this turn with the key.
    pub fn insert(&mut self, rt: &impl Abort, turn: usize, key: T) -> usize {
        let set = set_at(rt, &self.heap, &self.sets, turn);
        let made = gained(&mut self.heap, set, key);
        kept(rt, &mut self.sets, made)
    }

    /// The one of this turn without the key, which must be there.
    pub fn remove<P: Probe<T>>(&mut self, rt: &impl Abort, turn: usize, key: &P) -> usize {
        let set = set_at(rt, &self.heap, &self.sets, turn);
        let made = lost(&mut self.heap, set, key);
        kept(rt, &mut self.sets, made)
    }

    /// The union of two by as many bits.
    pub fn unite(&mut self, rt: &impl Abort, left: usize, right: usize) -> usize {
        let left = set_at(rt, &self.heap, &self.sets, left);
        let right = set_at(rt, &self.heap, &self.sets, right);
        assert!(rt; left.bits() == right.bits());
        let made = united(&mut self.heap, left, right);
        kept(rt, &mut self.sets, made)
    }

    /// The intersection of two by as many bits.
    pub fn meet(&mut self, rt: &impl Abort, left: usize, right: usize) -> usize {
        let left = set_at(rt, &self.heap, &self.sets, left);
        let right = set_at(rt, &self.heap, &self.sets, right);
        assert!(rt; left.bits() == right.bits());
        let made = common(&mut self.heap, left, right);
        kept(rt, &mut self.sets, made)
    }

    /// The keys of the first of two by as many bits that aren't in the second.
    pub fn lose(&mut self, rt: &impl Abort, left: usize, right: usize) -> usize {
        let left = set_at(rt, &self.heap, &self.sets, left);
        let right = set_at(rt, &self.heap, &self.sets, right);
        assert!(rt; left.bits() == right.bits());
        let made = rest(&mut self.heap, left, right);
        kept(rt, &mut self.sets, made)
    }

    /// That of `unite`, of spares that are made before.
    pub fn unite_there(&mut self, rt: &impl Abort, left: usize, right: usize) -> usize {
        let left = set_at(rt, &self.heap, &self.sets, left);
        let right = set_at(rt, &self.heap, &self.sets, right);
        assert!(rt; left.bits() == right.bits());
        let made = united_there(&mut self.heap, left, right);
        kept(rt, &mut self.sets, made)
    }

    /// That of `meet`, likewise.
    pub fn meet_there(&mut self, rt: &impl Abort, left: usize, right: usize) -> usize {
        let left = set_at(rt, &self.heap, &self.sets, left);
        let right = set_at(rt, &self.heap, &self.sets, right);
        assert!(rt; left.bits() == right.bits());
        let made = common_there(&mut self.heap, left, right);
        kept(rt, &mut self.sets, made)
    }

    /// That of `lose`, likewise.
    pub fn lose_there(&mut self, rt: &impl Abort, left: usize, right: usize) -> usize {
        let left = set_at(rt, &self.heap, &self.sets, left);
        let right = set_at(rt, &self.heap, &self.sets, right);
        assert!(rt; left.bits() == right.bits());
        let made = rest_there(&mut self.heap, left, right);
        kept(rt, &mut self.sets, made)
    }

    /// How many rows that of `unite` may make.
    pub fn unite_need(&self, rt: &impl Abort, left: usize, right: usize) -> usize {
        let left = set_at(rt, &self.heap, &self.sets, left);
        let right = set_at(rt, &self.heap, &self.sets, right);
        assert!(rt; left.bits() == right.bits());
        set_union_need(&self.heap, left, right)
    }

    /// How many rows that of `meet` may make.
    pub fn meet_need(&self, rt: &impl Abort, left: usize, right: usize) -> usize {
        let left = set_at(rt, &self.heap, &self.sets, left);
        let right = set_at(rt, &self.heap, &self.sets, right);
        assert!(rt; left.bits() == right.bits());
        set_both_need(&self.heap, left, right)
    }

    /// How many rows that of `lose` may make.
    pub fn lose_need(&self, rt: &impl Abort, left: usize, right: usize) -> usize {
        let left = set_at(rt, &self.heap, &self.sets, left);
        let right = set_at(rt, &self.heap, &self.sets, right);
        assert!(rt; left.bits() == right.bits());
        set_less_need(&self.heap, left, right)
    }

    /// How many rows there are, those of all versions together.
    pub fn rows(&self) -> usize {
        self.heap.live()
    }

    /// How many keys the one of this turn has.
    pub fn len(&self, rt: &impl Abort, turn: usize) -> usize {
        set_at(rt, &self.heap, &self.sets, turn).len(&self.heap)
    }

    /// How many of its keys have the masked code of this one.
    pub fn alike<P: Probe<T>>(&self, rt: &impl Abort, turn: usize, key: &P) -> usize {
        set_at(rt, &self.heap, &self.sets, turn).alike(&self.heap, key)
    }

    /// Whether it has the key.
    pub fn has<P: Probe<T>>(&self, rt: &impl Abort, turn: usize, key: &P) -> bool {
        set_at(rt, &self.heap, &self.sets, turn).has(&self.heap, key)
    }

    /// How many members its iterator gives.
    pub fn walked(&self, rt: &impl Abort, turn: usize) -> usize {
        let set = set_at(rt, &self.heap, &self.sets, turn);
        set.members(&self.heap).count()
    }

    /// Whether two have one root.
    pub fn are_one(&self, rt: &impl Abort, left: usize, right: usize) -> bool {
        let left = set_at(rt, &self.heap, &self.sets, left);
        left.root() == set_at(rt, &self.heap, &self.sets, right).root()
    }

    /// Whether two by as many bits are equal.
    pub fn are_equal(&self, rt: &impl Abort, left: usize, right: usize) -> bool {
        let left = set_at(rt, &self.heap, &self.sets, left);
        let right = set_at(rt, &self.heap, &self.sets, right);
        assert!(rt; left.bits() == right.bits());
        are_same::<T, Brand>(&self.heap, left, right, Blank::new(1))
    }
}
