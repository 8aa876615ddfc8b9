//! A set that is edited in place.
ghost use Rattle.std.specs.Prelude.{◌≡◌, ◌≢◌, ◌↔◌, ◌+◌, ◌<◌, ◌≤◌, List, IfErr, IsOk, OnOk, OnErr, Ok, None, true, false};
ghost use Rattle.node_heap.specs.Heap.{holds_at, hold_count, HasSpares, half_holds};
ghost use Rattle.node_heap.specs.Calls.{KeepsToNeed};
ghost use Rattle.node_heap.specs.declared.owner.Owner.TheVariants.{Hold as by_hold};
ghost use Rattle.champ_chain.specs.Entry.{Entry, link_with};
ghost use Rattle.champ_trie.specs.Reach.{alike_to};
ghost use Rattle.champ_kinds.specs.Kinds.{IsSetOf};
ghost use Rattle.edit_trie.specs.Edit.{AddsKey, CutsEntry};

use crate::cut::cut_below;
use crate::owner::reserved_root;
use crate::put::put_below;
use crate::way::{found_below, start, way_of};
use champ_kinds::{MapFault, Set, SetRef};
use champ_trie::{ADD_NODES, look_up};
use elem_core::{Element, LEVELS, NoMemory, Probe, masked};
use node_heap::{Heap, Link, Owner};
use std::marker::Model;

/// A set that is edited in place. It owns one hold of its root, and cannot be dropped or copied.
pub struct SetEdit {
    root: Link,
    bits: u32,
}

impl Model for SetEdit {
    ghost use Rattle.champ_kinds.specs.Root.{Root};

    ghost Value = { Root };

    ghost view = { λ s. record { root = s.root; bits = s.bits } };
}

impl SetEdit {
    /// The set, to be edited in place, with its hold. It takes no memory: a root that isn't the set's own is copied by the first
    /// edit that changes the set.
    pub fn open(set: Set) -> SetEdit
        ensures { result ≡ set }
    {
        let bits = set.view().bits();
        SetEdit {
            root: set.into_root(),
            bits,
        }
    }

    /// The set as edited, with its hold. It takes no memory.
    pub fn freeze(self) -> Set
        ensures { result ≡ self }
    {
        let SetEdit { root, bits } = self;
        Set::from_root(root, bits)
    }

    /// The set as edited, without a hold.
    pub fn view(&self) -> SetRef
        ensures { result ≡ self.now }
    {
        SetRef::at(self.root, self.bits)
    }

    /// Puts the key into the set, and says whether it was absent; a key that is there stays, with its cell, and then nothing has
    /// changed. It makes at most a cell and `ADD_NODES` nodes, and one node more for each key with the same masked code. Err
    /// gives the key back where memory runs out, and leaves the set and the heap as they were.
    pub fn insert<T: Element>(&mut self, heap: &mut Heap<T>, key: T) -> Result<bool, MapFault<T>>
        requires held { 1 ≤ holds_at heap.old self.old.root }
        requires few { hold_count heap.old + 1 < half_holds }
        requires contents { (E : List (Entry T)) × IsSetOf T.cmp T.code_of heap.old self.old E }
        ensures adds { (E : List (Entry T)) → IsSetOf T.cmp T.code_of heap.old self.old E → result ≡ Ok true →
            AddsKey T.cmp T.code_of (by_hold self.old.root) self.old.bits heap.old heap.new self.new.root E key }
        ensures there { (E : List (Entry T)) → IsSetOf T.cmp T.code_of heap.old self.old E → (result ≡ Ok false) ↔ (link_with T.cmp key E ≢ None) }
        ensures nothing { result ≡ Ok false → (heap.new ≡ heap.old) × (self.new ≡ self.old) }
        ensures bits { self.new.bits ≡ self.old.bits }
        ensures spares { (E : List (Entry T)) → IsSetOf T.cmp T.code_of heap.old self.old E →
            OnOk result (KeepsToNeed heap.old heap.new 1 (ADD_NODES + alike_to T.code_of self.old.bits key E)) }
        ensures refused { IfErr result (λ fault. (fault.key ≡ key) × (heap.new ≡ heap.old) × (self.new ≡ self.old)) }
        ensures ample { (E : List (Entry T)) → IsSetOf T.cmp T.code_of heap.old self.old E →
            HasSpares heap.old 1 (ADD_NODES + alike_to T.code_of self.old.bits key E) → IsOk result }
    {
        let code = masked(Element::code(&key), self.bits);
        let way = way_of(heap, self.root, code);
        let found = found_below(heap, &way, &key, code, self.bits);
        if found.entry.is_some() {
            return Ok(false);
        }
        let nodes = found.alike + ADD_NODES;
        match reserved_root(heap, &Owner::Hold(self.root), 1, nodes) {
            Ok(root) => {
                let from = start(&way, root);
                let cell = heap.cell(key);
                put_below(heap, from.row, from.depth, cell, code, self.bits);
                self.root = root;
                Ok(true)
            }
            Err(_) => Err(MapFault { key }),
        }
    }

    /// Takes the key out of the set, with its cell, and says whether it was there; where it is absent, nothing has changed. It
    /// makes at most `LEVELS` nodes, and one more for each key with the same masked code. Refused only where memory runs out. A
    /// refusal leaves the set and the heap as they were.
    pub fn remove<T: Element, P: Probe<T>>(
        &mut self,
        heap: &mut Heap<T>,
        key: &P,
    ) -> Result<bool, NoMemory>
        requires held { 1 ≤ holds_at heap.old self.old.root }
        requires few { hold_count heap.old < half_holds }
        requires contents { (E : List (Entry T)) × IsSetOf T.cmp T.code_of heap.old self.old E }
        ensures cuts { (E : List (Entry T)) → IsSetOf T.cmp T.code_of heap.old self.old E → result ≡ Ok true →
            CutsEntry T.cmp T.code_of (by_hold self.old.root) self.old.bits heap.old heap.new self.new.root E (P.stands_for key.now) }
        ensures absent { (E : List (Entry T)) → IsSetOf T.cmp T.code_of heap.old self.old E → (result ≡ Ok false) ↔ (link_with T.cmp (P.stands_for key.now) E ≡ None) }
        ensures nothing { result ≡ Ok false → (heap.new ≡ heap.old) × (self.new ≡ self.old) }
        ensures bits { self.new.bits ≡ self.old.bits }
        ensures spares { (E : List (Entry T)) → IsSetOf T.cmp T.code_of heap.old self.old E →
            OnOk result (KeepsToNeed heap.old heap.new 0 (LEVELS + alike_to T.code_of self.old.bits (P.stands_for key.now) E)) }
        ensures refused { OnErr result ((heap.new ≡ heap.old) × (self.new ≡ self.old)) }
        ensures ample { (E : List (Entry T)) → IsSetOf T.cmp T.code_of heap.old self.old E →
            HasSpares heap.old 0 (LEVELS + alike_to T.code_of self.old.bits (P.stands_for key.now) E) → IsOk result }
    {
        let found = look_up(heap, self.root, key, self.bits);
        if found.entry.is_none() {
            return Ok(false);
        }
        let nodes = found.alike + usize::from(LEVELS);
        self.root = reserved_root(heap, &Owner::Hold(self.root), 0, nodes)?;
        let code = masked(key.code(), self.bits);
        let cut = cut_below(heap, self.root, 0, key, code, self.bits);
        heap.release(cut);
        Ok(true)
    }
}
