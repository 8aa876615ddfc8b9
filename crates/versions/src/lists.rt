//! A store of lists by their versions.
ghost use Rattle.std.specs.Prelude.{◌≡◌, ◌≢◌, ◌↔◌, ◌+◌, ◌-◌, ◌^◌, ◌<◌, ◌≤◌, [], ◌∷◌, ◌++◌, length, take, drop, insert, remove, slice_set, Err, None, IfOk, IfErr, IsErrAnd, OnErr, IsTrue, option_copied, slice_get};
ghost use Rattle.std.specs.List.{AllZip};
ghost use Rattle.std.specs.declared.cmp.Ordering.TheVariants.{Equal};
ghost use Rattle.std.specs.FinMap as map;
ghost use Rattle.versions.specs.Store.{Holds, list_of};

use crate::faults::{Fault, Refused};
use crate::in_place::{SET_HERE_NODES, changed_here, popped_here, pushed_here};
use crate::items::Items;
use crate::limits::{is_long, is_part};
use crate::making::{
    EMPTY_NODES, ERASE_NODES, SLICE_NODES, changed, cut_out, emptied, inserted, joined, pushed,
    shared, sliced,
};
use crate::roots::{Handles, Version, forget, is_kept, keep, put, reserve, root_of, versions_of};
use edit_vec::POP_NODES;
use elem_core::{Element, NoMemory};
use node_heap::{Heap, Link};
use rrb_core::{FlexRef, PUSH_NODES, SET_NODES};
use rrb_join::SEAM_NODES;
use same_value::equal_vec;
use slab::Slab;
use std::alloc::Global;
use std::marker::Model;

/// Lists by their versions. Each version stays until it is forgotten, and versions share what they have in common. A store that
/// is dropped gives all of them back.
#[derive(Drop)]
pub struct Lists<T: Element> {
    pub(crate) heap: Heap<T>,
    pub(crate) roots: Slab<Link>,
}

impl<T: Element> Model for Lists<T> {
    ghost use Rattle.std.specs.Ordering.{nat_cmp};
    ghost use Rattle.std.specs.Prelude.{List};
    ghost use Rattle.std.specs.Coded.{coded_ℕ, coded_list};
    ghost use Rattle.std.specs.FinMap as map;
    ghost use Rattle.versions.specs.Roots.{values_in, HasRoots};
    ghost use Rattle.versions.specs.Rooted.{list_at, IsListOf};

    ghost Value = { map.FinMap nat_cmp (List T) };

    ghost coded = { map.code coded_ℕ (coded_list T.code) };

    ghost view = { λ s. values_in list_at s.heap s.roots.slots };

    ghost invariant = { λ s. HasRoots IsListOf list_at s.heap s.roots.slots };
}

impl<T: Element> Lists<T> {
    /// A store without versions.
    pub fn new(alloc: Global) -> Lists<T>
        ensures { result ≡ map.empty }
    {
        Lists {
            heap: Heap::new(alloc),
            roots: Slab::new(alloc),
        }
    }

    /// The version without elements.
    pub fn empty(&mut self) -> Result<Version, NoMemory>
        ensures fresh { IfOk result (λ v. map.get self.old v ≡ None) }
        ensures made { IfOk result (λ v. self.new ≡ map.insert self.old v []) }
        ensures refused { OnErr result (self.new ≡ self.old) }
    {
        reserve(&mut self.heap, &mut self.roots, 0, EMPTY_NODES)?;
        let root = emptied(&mut self.heap);
        Ok(keep(&mut self.roots, root))
    }

    /// The same list as another version.
    pub fn copy(&mut self, version: Version) -> Result<Version, NoMemory>
        requires { Holds self.old version }
        ensures fresh { IfOk result (λ v. map.get self.old v ≡ None) }
        ensures made { IfOk result (λ v. self.new ≡ map.insert self.old v (list_of self.old version)) }
        ensures refused { OnErr result (self.new ≡ self.old) }
    {
        let root = root_of(&self.roots, version);
        reserve(&mut self.heap, &mut self.roots, 0, 0)?;
        let root = shared(&mut self.heap, root);
        Ok(keep(&mut self.roots, root))
    }

    /// The version with the element after its last. The version itself stays. Refused where it has 2^32 - 1 elements, or memory
    /// runs out.
    pub fn push(&mut self, version: Version, element: T) -> Result<Version, Refused<T>>
        requires { Holds self.old version }
        ensures fresh { IfOk result (λ v. map.get self.old v ≡ None) }
        ensures made { IfOk result (λ v. self.new ≡ map.insert self.old v (list_of self.old version ++ element ∷ [])) }
        ensures refused { OnErr result (self.new ≡ self.old) }
        ensures given_back { IfErr result (λ r. r.element ≡ element) }
        ensures long { (IsErrAnd result (λ r. r.fault ≡ Fault.Long)) ↔ (length (list_of self.old version) ≡ 2 ^ 32 - 1) }
        ensures no_range { IfErr result (λ r. r.fault ≢ Fault.Range) }
    {
        let root = root_of(&self.roots, version);
        if FlexRef::at(root).is_longest(&self.heap) {
            let fault = Fault::Long;
            return Err(Refused { element, fault });
        }
        if reserve(&mut self.heap, &mut self.roots, 1, PUSH_NODES).is_err() {
            let fault = Fault::Memory;
            return Err(Refused { element, fault });
        }
        let root = pushed(&mut self.heap, root, element);
        Ok(keep(&mut self.roots, root))
    }

    /// The version with the element at the index in place of the one that stood there. The version itself stays. Refused where
    /// the index is past the end, or memory runs out.
    pub fn set(&mut self, version: Version, index: u32, element: T) -> Result<Version, Refused<T>>
        requires { Holds self.old version }
        ensures fresh { IfOk result (λ v. map.get self.old v ≡ None) }
        ensures made { IfOk result (λ v. self.new ≡ map.insert self.old v (slice_set (list_of self.old version) index element)) }
        ensures refused { OnErr result (self.new ≡ self.old) }
        ensures given_back { IfErr result (λ r. r.element ≡ element) }
        ensures range { (IsErrAnd result (λ r. r.fault ≡ Fault.Range)) ↔ (length (list_of self.old version) ≤ index) }
        ensures no_long { IfErr result (λ r. r.fault ≢ Fault.Long) }
    {
        let root = root_of(&self.roots, version);
        if FlexRef::at(root).is_past(&self.heap, index) {
            let fault = Fault::Range;
            return Err(Refused { element, fault });
        }
        if reserve(&mut self.heap, &mut self.roots, 1, SET_NODES).is_err() {
            let fault = Fault::Memory;
            return Err(Refused { element, fault });
        }
        let root = changed(&mut self.heap, root, index, element);
        Ok(keep(&mut self.roots, root))
    }

    /// The version with the element before the one at the index, or after the last where the index is the length. The version
    /// itself stays. Refused where the index is past the length, where the version has 2^32 - 1 elements, or memory runs out.
    pub fn insert(
        &mut self,
        version: Version,
        index: u32,
        element: T,
    ) -> Result<Version, Refused<T>>
        requires { Holds self.old version }
        ensures fresh { IfOk result (λ v. map.get self.old v ≡ None) }
        ensures made { IfOk result (λ v. self.new ≡ map.insert self.old v (insert (list_of self.old version) index element)) }
        ensures refused { OnErr result (self.new ≡ self.old) }
        ensures given_back { IfErr result (λ r. r.element ≡ element) }
        ensures range { (IsErrAnd result (λ r. r.fault ≡ Fault.Range)) ↔ (length (list_of self.old version) < index) }
        ensures long { (IsErrAnd result (λ r. r.fault ≡ Fault.Long)) ↔ ((index ≤ length (list_of self.old version)) × (length (list_of self.old version) ≡ 2 ^ 32 - 1)) }
    {
        let root = root_of(&self.roots, version);
        let vector = FlexRef::at(root);
        if index > vector.len(&self.heap) {
            let fault = Fault::Range;
            return Err(Refused { element, fault });
        }
        if vector.is_longest(&self.heap) {
            let fault = Fault::Long;
            return Err(Refused { element, fault });
        }
        if reserve(&mut self.heap, &mut self.roots, 1, SEAM_NODES).is_err() {
            let fault = Fault::Memory;
            return Err(Refused { element, fault });
        }
        let root = inserted(&mut self.heap, root, index, element);
        Ok(keep(&mut self.roots, root))
    }

    /// The version without the element at the index. The version itself stays. Refused where the index is past the end, or
    /// memory runs out.
    pub fn remove(&mut self, version: Version, index: u32) -> Result<Version, Fault>
        requires { Holds self.old version }
        ensures fresh { IfOk result (λ v. map.get self.old v ≡ None) }
        ensures made { IfOk result (λ v. self.new ≡ map.insert self.old v (remove (list_of self.old version) index)) }
        ensures refused { OnErr result (self.new ≡ self.old) }
        ensures range { (result ≡ Err Fault.Range) ↔ (length (list_of self.old version) ≤ index) }
        ensures no_long { result ≢ Err Fault.Long }
    {
        let root = root_of(&self.roots, version);
        if FlexRef::at(root).is_past(&self.heap, index) {
            return Err(Fault::Range);
        }
        reserve(&mut self.heap, &mut self.roots, 0, ERASE_NODES)?;
        let root = cut_out(&mut self.heap, root, index);
        Ok(keep(&mut self.roots, root))
    }

    /// The elements of one version and then those of another. Both stay. Refused where they have 2^32 elements together or more,
    /// or memory runs out.
    pub fn concat(&mut self, left: Version, right: Version) -> Result<Version, Fault>
        requires left { Holds self.old left }
        requires right { Holds self.old right }
        ensures fresh { IfOk result (λ v. map.get self.old v ≡ None) }
        ensures made { IfOk result (λ v. self.new ≡ map.insert self.old v (list_of self.old left ++ list_of self.old right)) }
        ensures refused { OnErr result (self.new ≡ self.old) }
        ensures long { (result ≡ Err Fault.Long) ↔ (2 ^ 32 ≤ length (list_of self.old left) + length (list_of self.old right)) }
        ensures no_range { result ≢ Err Fault.Range }
    {
        let left = root_of(&self.roots, left);
        let right = root_of(&self.roots, right);
        if is_long(&self.heap, left, right) {
            return Err(Fault::Long);
        }
        reserve(&mut self.heap, &mut self.roots, 0, SEAM_NODES)?;
        let root = joined(&mut self.heap, left, right);
        Ok(keep(&mut self.roots, root))
    }

    /// The elements of the version from the one index to before the other. The version itself stays. Refused where the indices
    /// bound no part of it, or memory runs out.
    pub fn slice(&mut self, version: Version, from: u32, to: u32) -> Result<Version, Fault>
        requires { Holds self.old version }
        ensures fresh { IfOk result (λ v. map.get self.old v ≡ None) }
        ensures made { IfOk result (λ v. self.new ≡ map.insert self.old v (drop from (take to (list_of self.old version)))) }
        ensures refused { OnErr result (self.new ≡ self.old) }
        ensures range { (result ≡ Err Fault.Range) ↔ ¬ ((from ≤ to) × (to ≤ length (list_of self.old version))) }
        ensures no_long { result ≢ Err Fault.Long }
    {
        let root = root_of(&self.roots, version);
        if !is_part(&self.heap, root, from, to) {
            return Err(Fault::Range);
        }
        reserve(&mut self.heap, &mut self.roots, 0, SLICE_NODES)?;
        let root = sliced(&mut self.heap, root, from, to);
        Ok(keep(&mut self.roots, root))
    }

    /// The version without its last element. The version itself stays. Refused where it has none, or memory runs out.
    pub fn pop(&mut self, version: Version) -> Result<Version, Fault>
        requires { Holds self.old version }
        ensures fresh { IfOk result (λ v. map.get self.old v ≡ None) }
        ensures made { IfOk result (λ v. self.new ≡ map.insert self.old v (take (length (list_of self.old version) - 1) (list_of self.old version))) }
        ensures refused { OnErr result (self.new ≡ self.old) }
        ensures range { (result ≡ Err Fault.Range) ↔ (list_of self.old version ≡ []) }
        ensures no_long { result ≢ Err Fault.Long }
    {
        let len = self.len(version);
        if len == 0 {
            return Err(Fault::Range);
        }
        self.slice(version, 0, len - 1)
    }

    /// The first elements of the version and the others, as two versions. The version itself stays. Refused where the index is
    /// past the length, or memory runs out.
    pub fn split_at(&mut self, version: Version, index: u32) -> Result<(Version, Version), Fault>
        requires { Holds self.old version }
        ensures fresh { IfOk result (λ parts. map.get self.old parts.0 ≡ None) }
        ensures apart { IfOk result (λ parts. map.get (map.insert self.old parts.0 (take index (list_of self.old version))) parts.1 ≡ None) }
        ensures made { IfOk result (λ parts. self.new ≡ map.insert (map.insert self.old parts.0 (take index (list_of self.old version))) parts.1 (drop index (list_of self.old version))) }
        ensures refused { OnErr result (self.new ≡ self.old) }
        ensures range { (result ≡ Err Fault.Range) ↔ (length (list_of self.old version) < index) }
        ensures no_long { result ≢ Err Fault.Long }
    {
        let len = self.len(version);
        let front = self.slice(version, 0, index)?;
        match self.slice(version, index, len) {
            Ok(back) => Ok((front, back)),
            Err(fault) => {
                self.forget(front);
                Err(fault)
            }
        }
    }

    /// Puts the element after the last of this version itself. Every other version stays. Refused where it has 2^32 - 1 elements,
    /// or memory runs out.
    pub fn push_here(&mut self, version: Version, element: T) -> Result<(), Refused<T>>
        requires { Holds self.old version }
        ensures made { IfOk result (λ _. self.new ≡ map.insert self.old version (list_of self.old version ++ element ∷ [])) }
        ensures refused { OnErr result (self.new ≡ self.old) }
        ensures given_back { IfErr result (λ r. r.element ≡ element) }
        ensures long { (IsErrAnd result (λ r. r.fault ≡ Fault.Long)) ↔ (length (list_of self.old version) ≡ 2 ^ 32 - 1) }
        ensures no_range { IfErr result (λ r. r.fault ≢ Fault.Range) }
    {
        let root = root_of(&self.roots, version);
        if FlexRef::at(root).is_longest(&self.heap) {
            let fault = Fault::Long;
            return Err(Refused { element, fault });
        }
        if self.heap.reserve(1, PUSH_NODES).is_err() {
            let fault = Fault::Memory;
            return Err(Refused { element, fault });
        }
        let root = pushed_here(&mut self.heap, root, element);
        put(&mut self.roots, version, root);
        Ok(())
    }

    /// Puts the element in place of the one at the index of this version itself. Every other version stays. Refused where the
    /// index is past the end, or memory runs out.
    pub fn set_here(&mut self, version: Version, index: u32, element: T) -> Result<(), Refused<T>>
        requires { Holds self.old version }
        ensures made { IfOk result (λ _. self.new ≡ map.insert self.old version (slice_set (list_of self.old version) index element)) }
        ensures refused { OnErr result (self.new ≡ self.old) }
        ensures given_back { IfErr result (λ r. r.element ≡ element) }
        ensures range { (IsErrAnd result (λ r. r.fault ≡ Fault.Range)) ↔ (length (list_of self.old version) ≤ index) }
        ensures no_long { IfErr result (λ r. r.fault ≢ Fault.Long) }
    {
        let root = root_of(&self.roots, version);
        if FlexRef::at(root).is_past(&self.heap, index) {
            let fault = Fault::Range;
            return Err(Refused { element, fault });
        }
        if self.heap.reserve(1, SET_HERE_NODES).is_err() {
            let fault = Fault::Memory;
            return Err(Refused { element, fault });
        }
        let root = changed_here(&mut self.heap, root, index, element);
        put(&mut self.roots, version, root);
        Ok(())
    }

    /// Takes the last element off this version itself. Every other version stays. Refused where it has none, or memory runs out.
    pub fn pop_here(&mut self, version: Version) -> Result<(), Fault>
        requires { Holds self.old version }
        ensures made { IfOk result (λ _. self.new ≡ map.insert self.old version (take (length (list_of self.old version) - 1) (list_of self.old version))) }
        ensures refused { OnErr result (self.new ≡ self.old) }
        ensures range { (result ≡ Err Fault.Range) ↔ (list_of self.old version ≡ []) }
        ensures no_long { result ≢ Err Fault.Long }
    {
        let root = root_of(&self.roots, version);
        if FlexRef::at(root).is_empty(&self.heap) {
            return Err(Fault::Range);
        }
        self.heap.reserve(0, POP_NODES)?;
        let root = popped_here(&mut self.heap, root);
        put(&mut self.roots, version, root);
        Ok(())
    }

    /// Forgets the version. Every other version stays.
    pub fn forget(&mut self, version: Version)
        requires { Holds self.old version }
        ensures { self.new ≡ map.remove self.old version }
    {
        forget(&mut self.heap, &mut self.roots, version);
    }

    /// Whether the version is held.
    pub fn holds(&self, version: Version) -> bool
        ensures { IsTrue result ↔ Holds self.now version }
    {
        is_kept(&self.roots, version)
    }

    /// The versions that are held, by rising number. It takes no memory.
    pub fn versions(&self) -> Handles<'_>
        ensures { result ≡ map.keys self.now }
    {
        versions_of(&self.roots)
    }

    /// How many rows all versions have together: a row that several share counts once.
    pub fn rows(&self) -> usize
        ensures { self.now ≡ map.empty → result ≡ 0 }
    {
        self.heap.live()
    }

    /// How many elements the version has.
    pub fn len(&self, version: Version) -> u32
        requires { Holds self.now version }
        ensures { result ≡ length (list_of self.now version) }
    {
        FlexRef::at(root_of(&self.roots, version)).len(&self.heap)
    }

    /// Whether the version has no element.
    pub fn is_empty(&self, version: Version) -> bool
        requires { Holds self.now version }
        ensures { IsTrue result ↔ (list_of self.now version ≡ []) }
    {
        FlexRef::at(root_of(&self.roots, version)).is_empty(&self.heap)
    }

    /// The element at the index, and none at the length or past it.
    pub fn get(&self, version: Version, index: u32) -> Option<&T>
        requires { Holds self.now version }
        ensures { option_copied result ≡ slice_get (list_of self.now version) index }
    {
        let root = root_of(&self.roots, version);
        let cell = FlexRef::at(root).get(&self.heap, index)?;
        self.heap.value(cell)
    }

    /// The elements of the version, in order. It takes no memory.
    pub fn iter(&self, version: Version) -> Items<'_, T>
        requires { Holds self.now version }
        ensures { result ≡ list_of self.now version }
    {
        let vector = FlexRef::at(root_of(&self.roots, version));
        Items::new(&self.heap, vector)
    }

    /// Whether two versions have as many elements, and equal ones at each place.
    pub fn same(&self, left: Version, right: Version) -> bool
        requires left { Holds self.now left }
        requires right { Holds self.now right }
        ensures { IsTrue result ↔ AllZip (λ x y. T.cmp x y ≡ Equal) (list_of self.now left) (list_of self.now right) }
    {
        let left = root_of(&self.roots, left);
        let right = root_of(&self.roots, right);
        equal_vec(&self.heap, FlexRef::at(left), FlexRef::at(right))
    }
}
