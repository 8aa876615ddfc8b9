//! A map that is opened for edits in place.
ghost use Rattle.std.specs.Prelude.{◌≡◌, ◌↔◌, ℕ, ◌+◌, ◌^◌, ◌<◌, ◌≤◌, List, [], ◌∷◌, IfOk, IfSome, IfErr, IsOk, OnOk, OnErr, Ok, None};
ghost use Rattle.node_heap.specs.Heap.{row_at, holds_at, owners_at, hold_count, HasSpares, half_holds};
ghost use Rattle.node_heap.specs.Calls.{Extends, KeepsBelow, KeepsToNeed, HasHolds, MakesWhatCame};
ghost use Rattle.node_heap.specs.declared.owner.Owner.TheVariants.{Hold as by_hold};
ghost use Rattle.node_heap.specs.Owner.{EditsBy};
ghost use Rattle.champ_chain.specs.Entry.{Entry, others};
ghost use Rattle.champ_kinds.specs.Binding.{Binding, alike_keys, value_with};
ghost use Rattle.champ_kinds.specs.Kinds.{HasEntries, IsMapOf};
ghost use Rattle.champ_kinds.specs.Edit.{PutsPair};
ghost use Rattle.edit_trie.specs.Edit.{PutsValue, CutsKey, OwnsEntry, OwnsPair};

use crate::cut::cut_below;
use crate::own_pair::OWN_NODES;
use crate::owned_map::{insert_by, own_by};
use crate::owner::reserved_root;
use champ_kinds::{INSERT_NODES, Map, MapFault, MapRef};
use champ_trie::look_up;
use elem_core::{Element, LEVELS, NoMemory, Probe, masked};
use node_heap::{Heap, Link, Owner};
use std::marker::Model;

/// A map that is edited in place. It owns one hold of its root, and cannot be dropped or copied.
pub struct TrieEdit {
    root: Link,
    bits: u32,
}

impl Model for TrieEdit {
    ghost use Rattle.champ_kinds.specs.Root.{Root};

    ghost Value = { Root };

    ghost view = { λ m. record { root = m.root; bits = m.bits } };
}

/// Want of memory, with the map that was to be opened.
pub struct MapOpenFault {
    /// The map, as it was.
    pub map: Map,
}

impl TrieEdit {
    /// The map, to be edited in place: its root is the very row where that has one owner, and else a copy of it, of one node. Refused only
    /// where memory runs out. A refusal leaves the heap as it was.
    pub fn open<T: Element>(map: Map, heap: &mut Heap<T>) -> Result<TrieEdit, MapOpenFault>
        requires held { 1 ≤ holds_at heap.old map.root }
        requires few { hold_count heap.old < half_holds }
        requires contents { (M : List (Binding T)) × IsMapOf T.cmp T.code_of heap.old map M }
        ensures contents { (M : List (Binding T)) → IsMapOf T.cmp T.code_of heap.old map M → IfOk result (λ m. IsMapOf T.cmp T.code_of heap.new m M) }
        ensures entries { (E : List (Entry T)) → HasEntries T.cmp T.code_of heap.old map E → IfOk result (λ m. HasEntries T.cmp T.code_of heap.new m E) }
        ensures bits { IfOk result (λ m. m.bits ≡ map.bits) }
        ensures same { IfOk result (λ m. (m.root ≡ map.root) ↔ (owners_at heap.old map.root ≡ 1)) }
        ensures row { IfOk result (λ m. row_at heap.new m.root ≡ row_at heap.old map.root) }
        ensures sole { IfOk result (λ m. owners_at heap.new m.root ≡ 1) }
        ensures extends { IfOk result (λ _. Extends heap.old heap.new) }
        ensures edits { IfOk result (λ m. EditsBy (by_hold map.root) heap.old heap.new m.root [] [] 0 1) }
        ensures makes { IfOk result (λ _. MakesWhatCame heap.old heap.new) }
        ensures spares { IfOk result (λ _. KeepsToNeed heap.old heap.new 0 1) }
        ensures back { IfErr result (λ fault. fault.map ≡ map) }
        ensures refused { OnErr result (heap.new ≡ heap.old) }
        ensures ample { HasSpares heap.old 0 1 → IsOk result }
    {
        let Ok(()) = heap.reserve(0, 1) else {
            return Err(MapOpenFault { map });
        };
        let bits = map.view().bits();
        let root = heap.own(map.into_root());
        Ok(TrieEdit { root, bits })
    }

    /// The map as edited, with its hold. It takes no memory.
    pub fn freeze(self) -> Map
        ensures { result ≡ self }
    {
        let TrieEdit { root, bits } = self;
        Map::from_root(root, bits)
    }

    /// The map as edited, without a hold.
    pub fn view(&self) -> MapRef
        ensures { result ≡ self.now }
    {
        MapRef::at(self.root, self.bits)
    }

    /// Puts the value at the key and gives the old one, with a hold; None where the key was absent. A key that is there stays,
    /// with its cell. It spends the value's hold on Ok alone. It makes at most a cell and `INSERT_NODES` nodes, and one node
    /// more for each key with the same masked code. Err gives the key back where memory runs out, and leaves the map and the
    /// heap as they were. The value stays as it was, with all below it.
    pub fn insert<T: Element>(
        &mut self,
        heap: &mut Heap<T>,
        key: T,
        value: Link,
    ) -> Result<Option<Link>, MapFault<T>>
        requires held { HasHolds heap.old (self.old.root ∷ value ∷ []) }
        requires few { hold_count heap.old < half_holds }
        requires contents { (M : List (Binding T)) × IsMapOf T.cmp T.code_of heap.old self.old M }
        ensures puts { (M : List (Binding T)) → IsMapOf T.cmp T.code_of heap.old self.old M →
            IfOk result (λ given. PutsValue T.cmp T.code_of (by_hold self.old.root) self.old.bits heap.old heap.new self.new.root M key value given) }
        ensures entries { (E : List (Entry T)) → HasEntries T.cmp T.code_of heap.old self.old E → OnOk result (PutsPair T.cmp T.code_of heap.old heap.new self.new E key value) }
        ensures value { OnOk result (KeepsBelow heap.old heap.new value) }
        ensures bits { self.new.bits ≡ self.old.bits }
        ensures spares { (M : List (Binding T)) → IsMapOf T.cmp T.code_of heap.old self.old M →
            OnOk result (KeepsToNeed heap.old heap.new 1 (INSERT_NODES + alike_keys T.code_of self.old.bits key M)) }
        ensures refused { IfErr result (λ fault. (fault.key ≡ key) × (heap.new ≡ heap.old) × (self.new ≡ self.old)) }
        ensures ample { (M : List (Binding T)) → IsMapOf T.cmp T.code_of heap.old self.old M →
            HasSpares heap.old 1 (INSERT_NODES + alike_keys T.code_of self.old.bits key M) → IsOk result }
    {
        match insert_by(heap, &Owner::Hold(self.root), self.bits, key, value) {
            Ok(did) => {
                self.root = did.0;
                Ok(did.1)
            }
            Err(fault) => Err(fault),
        }
    }

    /// Takes the key out and gives its value, with a hold; None where the key is absent, and then nothing has changed. It makes
    /// at most `LEVELS` nodes, and one more for each key with the same masked code. Refused only where memory runs out. A
    /// refusal leaves the map and the heap as they were.
    pub fn remove<T: Element, P: Probe<T>>(
        &mut self,
        heap: &mut Heap<T>,
        key: &P,
    ) -> Result<Option<Link>, NoMemory>
        requires held { 1 ≤ holds_at heap.old self.old.root }
        requires few { hold_count heap.old < half_holds }
        requires contents { (M : List (Binding T)) × IsMapOf T.cmp T.code_of heap.old self.old M }
        ensures cuts { (M : List (Binding T)) → IsMapOf T.cmp T.code_of heap.old self.old M →
            IfOk result (λ last. IfSome last (λ given. CutsKey T.cmp T.code_of (by_hold self.old.root) self.old.bits heap.old heap.new self.new.root M (P.stands_for key.now) given)) }
        ensures entries { (E : List (Entry T)) → HasEntries T.cmp T.code_of heap.old self.old E →
            IfOk result (λ last. IfSome last (λ _. HasEntries T.cmp T.code_of heap.new self.new (others T.cmp (P.stands_for key.now) E))) }
        ensures none { (M : List (Binding T)) → IsMapOf T.cmp T.code_of heap.old self.old M → (result ≡ Ok None) ↔ (value_with T.cmp (P.stands_for key.now) M ≡ None) }
        ensures nothing { result ≡ Ok None → (heap.new ≡ heap.old) × (self.new ≡ self.old) }
        ensures bits { self.new.bits ≡ self.old.bits }
        ensures spares { (M : List (Binding T)) → IsMapOf T.cmp T.code_of heap.old self.old M →
            OnOk result (KeepsToNeed heap.old heap.new 0 (LEVELS + alike_keys T.code_of self.old.bits (P.stands_for key.now) M)) }
        ensures refused { OnErr result ((heap.new ≡ heap.old) × (self.new ≡ self.old)) }
        ensures ample { (M : List (Binding T)) → IsMapOf T.cmp T.code_of heap.old self.old M →
            HasSpares heap.old 0 (LEVELS + alike_keys T.code_of self.old.bits (P.stands_for key.now) M) → IsOk result }
    {
        let found = look_up(heap, self.root, key, self.bits);
        let Some(pair) = found.entry else {
            return Ok(None);
        };
        let value = heap.links(pair)[1];
        let nodes = found.alike + usize::from(LEVELS);
        self.root = reserved_root(heap, &Owner::Hold(self.root), 0, nodes)?;
        let code = masked(key.code(), self.bits);
        let cut = cut_below(heap, self.root, 0, key, code, self.bits);
        heap.hold(value);
        heap.release(cut);
        Ok(Some(value))
    }

    /// The pair of the key, whose child 1 is the value, with one owner, as has each row on the way to it; None where the key
    /// is absent, and then nothing has changed. It makes at most `OWN_NODES` nodes, and one more for each key with the same
    /// masked code. Refused only where memory runs out. A refusal leaves the map and the heap as they were.
    pub fn own_value<T: Element, P: Probe<T>>(
        &mut self,
        heap: &mut Heap<T>,
        key: &P,
    ) -> Result<Option<Link>, NoMemory>
        requires held { 1 ≤ holds_at heap.old self.old.root }
        requires few { hold_count heap.old < half_holds }
        requires contents { (M : List (Binding T)) × IsMapOf T.cmp T.code_of heap.old self.old M }
        ensures owns { (M : List (Binding T)) → IsMapOf T.cmp T.code_of heap.old self.old M →
            IfOk result (λ pair. IfSome pair (λ link. OwnsPair T.cmp T.code_of (by_hold self.old.root) self.old.bits heap.old heap.new self.new.root M (P.stands_for key.now) link)) }
        ensures entries { (E : List (Entry T)) → HasEntries T.cmp T.code_of heap.old self.old E →
            IfOk result (λ pair. IfSome pair (λ link. OwnsEntry T.cmp T.code_of heap.old heap.new self.new E (P.stands_for key.now) link)) }
        ensures none { (M : List (Binding T)) → IsMapOf T.cmp T.code_of heap.old self.old M → (result ≡ Ok None) ↔ (value_with T.cmp (P.stands_for key.now) M ≡ None) }
        ensures nothing { result ≡ Ok None → (heap.new ≡ heap.old) × (self.new ≡ self.old) }
        ensures bits { self.new.bits ≡ self.old.bits }
        ensures spares { (M : List (Binding T)) → IsMapOf T.cmp T.code_of heap.old self.old M →
            OnOk result (KeepsToNeed heap.old heap.new 0 (OWN_NODES + alike_keys T.code_of self.old.bits (P.stands_for key.now) M)) }
        ensures refused { OnErr result ((heap.new ≡ heap.old) × (self.new ≡ self.old)) }
        ensures ample { (M : List (Binding T)) → IsMapOf T.cmp T.code_of heap.old self.old M →
            HasSpares heap.old 0 (OWN_NODES + alike_keys T.code_of self.old.bits (P.stands_for key.now) M) → IsOk result }
    {
        let Some(did) = own_by(heap, &Owner::Hold(self.root), self.bits, key)? else {
            return Ok(None);
        };
        self.root = did.0;
        Ok(Some(did.1))
    }
}
