//! The roots of maps and of sets: one of them owned, and one named.
ghost use Rattle.std.specs.Prelude.{◌≡◌, ℕ, ◌+◌, ◌<◌, ◌≤◌, [], ◌∷◌, IsSome, IfOk, IsOk, OnOk, OnErr};
ghost use Rattle.node_heap.specs.Heap.{row_at, holds_at, hold_count, node_count, one_at, HasSpares, IsGraph, half_holds};
ghost use Rattle.node_heap.specs.Calls.{Answered, Builds, KeepsHeld, KeepsToNeed, MakesJust, Releases, SameRows};
ghost use Rattle.champ_kinds.specs.Root.{Root};
ghost use Rattle.champ_kinds.specs.Kinds.{IsMapOf, IsSetOf};
ghost use Rattle.champ_kinds.specs.Laws.{KeepsContainer, KeepsContainers};

use champ_trie::empty;
use elem_core::{CODE_BITS, Element, NoMemory};
use node_heap::{Heap, Link};
use std::marker::{Model, PhantomData};

/// A map or a set, by its kind: it owns one hold of its root. It is given up by `release`, and cannot be dropped or copied.
pub struct Rooted<K> {
    pub(crate) root: Link,
    pub(crate) bits: u32,
    kind: PhantomData<K>,
}

impl<K> Model for Rooted<K> {
    ghost use Rattle.champ_kinds.specs.Root.{Root};

    ghost Value = { Root };

    ghost view = { λ m. record { root = m.root; bits = m.bits } };
}

/// Names a map or a set, by its kind, without a hold.
#[derive(Clone, Copy)]
pub struct RootRef<K> {
    pub(crate) root: Link,
    pub(crate) bits: u32,
    kind: PhantomData<K>,
}

impl<K> Model for RootRef<K> {
    ghost use Rattle.champ_kinds.specs.Root.{Root};

    ghost Value = { Root };

    ghost view = { λ m. record { root = m.root; bits = m.bits } };

    ghost inverse = { λ r. record { root = r.root; bits = r.bits; kind = record {} } };
}

impl<K> Rooted<K> {
    /// The empty map or set by so many bits of the codes. It makes one node. Err where memory runs out: it leaves the
    /// heap as it was.
    pub fn empty<T: Element>(heap: &mut Heap<T>, bits: u32) -> Result<Rooted<K>, NoMemory>
        requires bits { bits ≤ CODE_BITS }
        requires few { hold_count heap.old < half_holds }
        ensures answered { IfOk result (λ made. Answered heap.old heap.new [] made.root 0 1) }
        ensures one { OnOk result (node_count heap.new ≡ node_count heap.old + 1) }
        ensures made { OnOk result (MakesJust heap.old heap.new) }
        ensures bits { IfOk result (λ made. made.bits ≡ bits) }
        ensures map { IfOk result (λ made. IsMapOf T.cmp T.code_of heap.new made []) }
        ensures set { IfOk result (λ made. IsSetOf T.cmp T.code_of heap.new made []) }
        ensures containers { KeepsContainers heap.old heap.new }
        ensures refused { OnErr result (heap.new ≡ heap.old) }
        ensures spares { OnOk result (KeepsToNeed heap.old heap.new 0 1) }
        ensures ample { HasSpares heap.old 0 1 → IsOk result }
    {
        let root = empty(heap)?;
        Ok(Rooted::from_root(root, bits))
    }

    /// The same once more: one more hold of the root.
    pub fn share<T>(&self, heap: &mut Heap<T>) -> Rooted<K>
        requires live { IsSome (row_at heap.old self.now.root) }
        requires few { hold_count heap.old < half_holds }
        ensures same { result ≡ self.now }
        ensures rows { SameRows heap.old heap.new }
        ensures builds { Builds heap.old heap.new [] (result.root ∷ []) 0 0 }
        ensures containers { KeepsContainers heap.old heap.new }
    {
        self.view().share(heap)
    }

    /// Gives it up: rows that nothing else keeps are freed.
    pub fn release<T: Drop>(self, heap: &mut Heap<T>)
        requires { 0 < holds_at heap.old self.root }
        ensures releases { Releases heap.old heap.new self.root }
        ensures graph { IsGraph heap.new }
        ensures keeps { KeepsHeld (one_at self.root) heap.old heap.new }
        ensures containers { (r : Root) → one_at self.root r.root < holds_at heap.old r.root → KeepsContainer heap.old heap.new r }
    {
        let root = self.into_root();
        heap.release(root);
    }

    /// The same without a hold.
    pub fn view(&self) -> RootRef<K>
        ensures { result ≡ self.now }
    {
        RootRef::at(self.root, self.bits)
    }

    /// The map or the set of a held root.
    pub fn from_root(root: Link, bits: u32) -> Rooted<K>
        ensures { result ≡ record { root = root; bits = bits } }
    {
        Rooted {
            root,
            bits,
            kind: PhantomData,
        }
    }

    /// The root, with its hold.
    pub fn into_root(self) -> Link
        ensures { result ≡ self.root }
    {
        let Rooted {
            root,
            bits: _,
            kind: _,
        } = self;
        root
    }
}

impl<K> RootRef<K> {
    /// The map or the set of a root.
    pub fn at(root: Link, bits: u32) -> RootRef<K>
        ensures { result ≡ record { root = root; bits = bits } }
    {
        RootRef {
            root,
            bits,
            kind: PhantomData,
        }
    }

    /// The root.
    pub fn root(&self) -> Link
        ensures { result ≡ self.now.root }
    {
        self.root
    }

    /// How many bits of the codes it goes by.
    pub fn bits(&self) -> u32
        ensures { result ≡ self.now.bits }
    {
        self.bits
    }

    /// The same with a hold of its own: one more hold of the root.
    pub fn share<T>(&self, heap: &mut Heap<T>) -> Rooted<K>
        requires live { IsSome (row_at heap.old self.now.root) }
        requires few { hold_count heap.old < half_holds }
        ensures same { result ≡ self.now }
        ensures rows { SameRows heap.old heap.new }
        ensures builds { Builds heap.old heap.new [] (result.root ∷ []) 0 0 }
        ensures containers { KeepsContainers heap.old heap.new }
    {
        heap.hold(self.root);
        Rooted::from_root(self.root, self.bits)
    }
}
