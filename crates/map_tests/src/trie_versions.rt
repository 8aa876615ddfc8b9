//! Tries, of which a test keeps each version. Its tests name them by the turn in which they came, so that they need no contract.
ghost use Rattle.std.specs.Prelude.{◌≡◌, ◌+◌, ◌^◌, ◌<◌, ◌≤◌, IfOk};
ghost use Rattle.node_heap.specs.Heap.{hold_count, program_holds};
ghost use Rattle.map_tests.specs.Stands.{IsSomeTrie, Keeps, Holds};

use crate::samples::kept;
use champ_trie::{alike, count, empty, entries, find, look_up, with, without};
use elem_core::{CODE_BITS, Element, NoMemory, Probe};
use node_heap::{Heap, Link};
use std::alloc::Global;
use std::marker::Model;
use std::process::Abort;

/// Tries by one number of bits in one heap, each named by the turn in which it came, from 0 on. All of them stay.
#[derive(Drop)]
pub struct TrieVersions<T: Element> {
    heap: Heap<T>,
    bits: u32,
    roots: Vec<Link>,
}

impl<T: Element> Model for TrieVersions<T> {
    ghost use Rattle.std.specs.Prelude.{◌≤◌, ℕ, vec_len};
    ghost use Rattle.elem_core.specs.declared.codes.TheConstants.{CODE_BITS};
    ghost use Rattle.map_tests.specs.Stands.{IsSomeTrie, Holds};

    ghost Value = { ℕ };

    ghost view = { λ v. vec_len v.roots };

    ghost invariant = { λ v. (v.bits ≤ CODE_BITS) × Holds (IsSomeTrie T.cmp T.code_of v.bits) v.heap v.roots.items };
}

// The trie without entries.
fn no_entries<T: Element>(heap: &mut Heap<T>, bits: u32) -> Result<Link, NoMemory>
    requires few { hold_count heap.old < program_holds }
    ensures good { IfOk result (IsSomeTrie T.cmp T.code_of bits heap.new) }
    ensures count { IfOk result (λ _. hold_count heap.new ≡ hold_count heap.old + 1) }
{
    empty(heap)
}

// The trie with a cell of the value as an entry besides.
fn gained<T: Element>(heap: &mut Heap<T>, root: Link, value: T, bits: u32) -> Result<Link, NoMemory>
    requires bits { bits ≤ CODE_BITS }
    requires good { IsSomeTrie T.cmp T.code_of bits heap.old root }
    requires few { hold_count heap.old < program_holds }
    ensures good { IfOk result (IsSomeTrie T.cmp T.code_of bits heap.new) }
    ensures others { IfOk result (λ _. Keeps (IsSomeTrie T.cmp T.code_of bits) heap.old heap.new) }
    ensures count { IfOk result (λ _. hold_count heap.new ≡ hold_count heap.old + 1) }
{
    heap.reserve(1, 0)?;
    let entry = heap.cell(value);
    with(heap, root, entry, bits)
}

// The trie without the key, which must be there.
fn lost<T: Element, P: Probe<T>>(
    heap: &mut Heap<T>,
    root: Link,
    key: &P,
    bits: u32,
) -> Result<Link, ()>
    requires bits { bits ≤ CODE_BITS }
    requires good { IsSomeTrie T.cmp T.code_of bits heap.old root }
    requires few { hold_count heap.old < program_holds }
    ensures good { IfOk result (IsSomeTrie T.cmp T.code_of bits heap.new) }
    ensures others { IfOk result (λ _. Keeps (IsSomeTrie T.cmp T.code_of bits) heap.old heap.new) }
    ensures count { IfOk result (λ _. hold_count heap.new ≡ hold_count heap.old + 1) }
{
    match without(heap, root, key, bits) {
        Ok(Some(left)) => Ok(left),
        _ => Err(()),
    }
}

// The root of this turn. No test makes nearly so many.
fn root_at<T: Element>(
    rt: &impl Abort,
    heap: &Heap<T>,
    roots: &Vec<Link>,
    turn: usize,
    bits: u32,
) -> Link
    requires { Holds (IsSomeTrie T.cmp T.code_of bits) heap.now roots.now.items }
    ensures good { IsSomeTrie T.cmp T.code_of bits heap.now result }
    ensures few { hold_count heap.now < 2 ^ 40 }
{
    assert!(rt; roots.len() < 1 << 40);
    assert!(rt; turn < roots.len());
    roots[turn]
}

impl<T: Element> TrieVersions<T> {
    /// The trie without entries alone, by so many bits.
    pub fn start(rt: &impl Abort, alloc: Global, bits: u32) -> TrieVersions<T> {
        assert!(rt; bits <= CODE_BITS);
        let mut heap: Heap<T> = Heap::new(alloc);
        let mut roots = Vec::new(alloc);
        let made = no_entries(&mut heap, bits);
        kept(rt, &mut roots, made);
        TrieVersions { heap, bits, roots }
    }

    /// The one of this turn with a cell of the value as an entry besides.
    pub fn insert(&mut self, rt: &impl Abort, turn: usize, value: T) -> usize {
        let root = root_at(rt, &self.heap, &self.roots, turn, self.bits);
        let made = gained(&mut self.heap, root, value, self.bits);
        kept(rt, &mut self.roots, made)
    }

    /// The one of this turn without the key, which must be there.
    pub fn remove<P: Probe<T>>(&mut self, rt: &impl Abort, turn: usize, key: &P) -> usize {
        let root = root_at(rt, &self.heap, &self.roots, turn, self.bits);
        let made = lost(&mut self.heap, root, key, self.bits);
        kept(rt, &mut self.roots, made)
    }

    /// How many entries the one of this turn has.
    pub fn count(&self, rt: &impl Abort, turn: usize) -> usize {
        count(
            &self.heap,
            root_at(rt, &self.heap, &self.roots, turn, self.bits),
        )
    }

    /// Its entry of the key.
    pub fn find<P: Probe<T>>(&self, rt: &impl Abort, turn: usize, key: &P) -> Option<Link> {
        let root = root_at(rt, &self.heap, &self.roots, turn, self.bits);
        find(&self.heap, root, key, self.bits)
    }

    /// How many of its keys have the masked code of this one.
    pub fn alike<P: Probe<T>>(&self, rt: &impl Abort, turn: usize, key: &P) -> usize {
        let root = root_at(rt, &self.heap, &self.roots, turn, self.bits);
        alike(&self.heap, root, key, self.bits)
    }

    /// Both at once, by the call that looks once.
    pub fn look_up<P: Probe<T>>(
        &self,
        rt: &impl Abort,
        turn: usize,
        key: &P,
    ) -> (Option<Link>, usize) {
        let root = root_at(rt, &self.heap, &self.roots, turn, self.bits);
        let found = look_up(&self.heap, root, key, self.bits);
        (found.entry, found.alike)
    }

    /// Whether its walk gives the entries of these keys in turn, and no others.
    pub fn walks_as(&self, rt: &impl Abort, turn: usize, keys: &[T]) -> bool {
        let root = root_at(rt, &self.heap, &self.roots, turn, self.bits);
        let mut walk = entries(&self.heap, root);
        for key in keys {
            let next = walk.next();
            if next.is_none() || next != find(&self.heap, root, key, self.bits) {
                return false;
            }
        }
        walk.next().is_none()
    }

    /// How many rows were ever made.
    pub fn made(&self) -> u64 {
        self.heap.made()
    }
}
