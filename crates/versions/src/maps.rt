//! A store of maps by their versions.
ghost use Rattle.std.specs.Prelude.{◌≡◌, ◌↔◌, ℕ, T, [], None, IfOk, IfErr, OnErr, IsTrue, length, is_some, option_copied, unwrap_or};
ghost use Rattle.std.specs.FinMap as map;
ghost use Rattle.std.specs.FinMap.{find, is_sorted, put};
ghost use Rattle.std.specs.List.{AllZip};
ghost use Rattle.champ_chain.specs.Entry.{SameSet};
ghost use Rattle.versions.specs.Store.{Holds};
ghost use Rattle.versions.specs.declared.faults.Fault.TheVariants.{Memory};
ghost use Rattle.versions.specs.Sorted.{IsEqualEntry, entries_of, map_both, map_less, map_union, remove_entry};

use crate::bound::{
    entry_count, has_no_entry, no_entries, same_entries, value_with, with_entry, without_entry,
};
use crate::bound_here::{bound_here, unbound_here};
use crate::entries::Entries;
use crate::equal::same_maps;
use crate::faults::Refused;
use crate::merging::{entries_of_both, entries_of_either, entries_of_first};
use crate::piece::Piece;
use crate::roots::{
    Handles, Version, forget, is_kept, keep, put as put_root, reserve, root_of, versions_of,
};
use elem_core::{Element, NoMemory, Probe};
use node_heap::{Heap, Link};
use slab::Slab;
use std::alloc::Global;
use std::marker::Model;

/// Maps by their versions. Contracts see a map as its entries by rising keys. Each version stays until it is forgotten, and
/// versions share what they have in common. A store that is dropped gives all of them back.
#[derive(Drop)]
pub struct Maps<K: Element, V: Ord + Drop> {
    pub(crate) heap: Heap<Piece<K, V>>,
    pub(crate) roots: Slab<Link>,
}

impl<K: Element, V: Ord + Drop> Model for Maps<K, V> {
    ghost use Rattle.std.specs.Ordering.{nat_cmp};
    ghost use Rattle.std.specs.Prelude.{List};
    ghost use Rattle.std.specs.Coded.{coded_ℕ, coded_list, coded×};
    ghost use Rattle.std.specs.FinMap as map;
    ghost use Rattle.versions.specs.Roots.{values_in, HasRoots};
    ghost use Rattle.versions.specs.Bound.{map_at, IsKeyMap};

    ghost Value = { map.FinMap nat_cmp (List (K × V)) };

    ghost coded = { map.code coded_ℕ (coded_list (coded× K.code V.code)) };

    ghost view = { λ s. values_in (map_at K.cmp) s.heap s.roots.slots };

    ghost invariant = { λ s. HasRoots (IsKeyMap K.cmp V.cmp K.code_of) (map_at K.cmp) s.heap s.roots.slots };
}

impl<K: Element, V: Ord + Drop> Maps<K, V> {
    /// A store without versions.
    pub fn new(alloc: Global) -> Maps<K, V>
        ensures { result ≡ map.empty }
    {
        Maps {
            heap: Heap::new(alloc),
            roots: Slab::new(alloc),
        }
    }

    /// The version without keys.
    pub fn empty(&mut self) -> Result<Version, NoMemory>
        ensures fresh { IfOk result (λ v. map.get self.old v ≡ None) }
        ensures made { IfOk result (λ v. self.new ≡ map.insert self.old v []) }
        ensures refused { OnErr result (self.new ≡ self.old) }
    {
        reserve(&mut self.heap, &mut self.roots, 0, 1)?;
        let root = no_entries(&mut self.heap);
        Ok(keep(&mut self.roots, root))
    }

    /// The same map as another version.
    pub fn copy(&mut self, version: Version) -> Result<Version, NoMemory>
        requires { Holds self.old version }
        ensures fresh { IfOk result (λ v. map.get self.old v ≡ None) }
        ensures made { IfOk result (λ v. self.new ≡ map.insert self.old v (entries_of self.old version)) }
        ensures refused { OnErr result (self.new ≡ self.old) }
    {
        let root = root_of(&self.roots, version);
        reserve(&mut self.heap, &mut self.roots, 0, 0)?;
        let root = same_entries(&mut self.heap, root);
        Ok(keep(&mut self.roots, root))
    }

    /// The version with the value at the key; an equal key that is there stays. The version itself stays. Refused only where
    /// memory runs out.
    pub fn insert(&mut self, version: Version, key: K, value: V) -> Result<Version, Refused<(K, V)>>
        requires { Holds self.old version }
        ensures fresh { IfOk result (λ v. map.get self.old v ≡ None) }
        ensures made { IfOk result (λ v. self.new ≡ map.insert self.old v (put K.cmp key value (entries_of self.old version))) }
        ensures refused { OnErr result (self.new ≡ self.old) }
        ensures given_back { IfErr result (λ r. r.element ≡ (key, value)) }
        ensures memory { IfErr result (λ r. r.fault ≡ Memory) }
    {
        let root = root_of(&self.roots, version);
        if reserve(&mut self.heap, &mut self.roots, 0, 0).is_err() {
            return Err(Refused::no_memory((key, value)));
        }
        match with_entry(&mut self.heap, root, key, value) {
            Ok(root) => Ok(keep(&mut self.roots, root)),
            Err(entry) => Err(Refused::no_memory(entry)),
        }
    }

    /// The version without the key. The version itself stays.
    pub fn remove<P: Probe<K>>(&mut self, version: Version, key: &P) -> Result<Version, NoMemory>
        requires { Holds self.old version }
        ensures fresh { IfOk result (λ v. map.get self.old v ≡ None) }
        ensures made { IfOk result (λ v. self.new ≡ map.insert self.old v (remove_entry K.cmp (entries_of self.old version) (P.stands_for key.now))) }
        ensures refused { OnErr result (self.new ≡ self.old) }
    {
        let root = root_of(&self.roots, version);
        reserve(&mut self.heap, &mut self.roots, 0, 0)?;
        let root = without_entry(&mut self.heap, root, key)?;
        Ok(keep(&mut self.roots, root))
    }

    /// The entries of either version, of two with equal keys the first's. Both versions stay.
    pub fn union(&mut self, first: Version, second: Version) -> Result<Version, NoMemory>
        requires first { Holds self.old first }
        requires second { Holds self.old second }
        ensures fresh { IfOk result (λ v. map.get self.old v ≡ None) }
        ensures made { IfOk result (λ v. self.new ≡ map.insert self.old v (map_union K.cmp (entries_of self.old first) (entries_of self.old second))) }
        ensures refused { OnErr result (self.new ≡ self.old) }
    {
        let first = root_of(&self.roots, first);
        let second = root_of(&self.roots, second);
        reserve(&mut self.heap, &mut self.roots, 0, 0)?;
        let root = entries_of_either(&mut self.heap, first, second)?;
        Ok(keep(&mut self.roots, root))
    }

    /// The entries of the first version whose keys the second has too. Both versions stay.
    pub fn both(&mut self, first: Version, second: Version) -> Result<Version, NoMemory>
        requires first { Holds self.old first }
        requires second { Holds self.old second }
        ensures fresh { IfOk result (λ v. map.get self.old v ≡ None) }
        ensures made { IfOk result (λ v. self.new ≡ map.insert self.old v (map_both K.cmp (entries_of self.old first) (entries_of self.old second))) }
        ensures refused { OnErr result (self.new ≡ self.old) }
    {
        let first = root_of(&self.roots, first);
        let second = root_of(&self.roots, second);
        reserve(&mut self.heap, &mut self.roots, 0, 0)?;
        let root = entries_of_both(&mut self.heap, first, second)?;
        Ok(keep(&mut self.roots, root))
    }

    /// The entries of the first version whose keys the second lacks. Both versions stay.
    pub fn less(&mut self, first: Version, second: Version) -> Result<Version, NoMemory>
        requires first { Holds self.old first }
        requires second { Holds self.old second }
        ensures fresh { IfOk result (λ v. map.get self.old v ≡ None) }
        ensures made { IfOk result (λ v. self.new ≡ map.insert self.old v (map_less K.cmp (entries_of self.old first) (entries_of self.old second))) }
        ensures refused { OnErr result (self.new ≡ self.old) }
    {
        let first = root_of(&self.roots, first);
        let second = root_of(&self.roots, second);
        reserve(&mut self.heap, &mut self.roots, 0, 0)?;
        let root = entries_of_first(&mut self.heap, first, second)?;
        Ok(keep(&mut self.roots, root))
    }

    /// Puts the value at the key of this version itself, in place where its rows are its own; an equal key that is there stays.
    /// Every other version stays. Refused only where memory runs out.
    pub fn insert_here(&mut self, version: Version, key: K, value: V) -> Result<(), Refused<(K, V)>>
        requires { Holds self.old version }
        ensures made { IfOk result (λ _. self.new ≡ map.insert self.old version (put K.cmp key value (entries_of self.old version))) }
        ensures refused { OnErr result (self.new ≡ self.old) }
        ensures given_back { IfErr result (λ r. r.element ≡ (key, value)) }
        ensures memory { IfErr result (λ r. r.fault ≡ Memory) }
    {
        let root = root_of(&self.roots, version);
        match bound_here(&mut self.heap, root, key, value) {
            Ok(root) => {
                put_root(&mut self.roots, version, root);
                Ok(())
            }
            Err(entry) => Err(Refused::no_memory(entry)),
        }
    }

    /// Takes the key out of this version itself, in place where its rows are its own. Every other version stays.
    pub fn remove_here<P: Probe<K>>(&mut self, version: Version, key: &P) -> Result<(), NoMemory>
        requires { Holds self.old version }
        ensures made { IfOk result (λ _. self.new ≡ map.insert self.old version (remove_entry K.cmp (entries_of self.old version) (P.stands_for key.now))) }
        ensures refused { OnErr result (self.new ≡ self.old) }
    {
        let root = root_of(&self.roots, version);
        let root = unbound_here(&mut self.heap, root, key)?;
        put_root(&mut self.roots, version, root);
        Ok(())
    }

    /// Forgets the version. Every other stays.
    pub fn forget(&mut self, version: Version)
        requires { Holds self.old version }
        ensures { self.new ≡ map.remove self.old version }
    {
        forget(&mut self.heap, &mut self.roots, version);
    }

    /// Whether the version is held.
    pub fn holds(&self, version: Version) -> bool
        ensures { IsTrue result ↔ Holds self.now version }
    {
        is_kept(&self.roots, version)
    }

    /// The versions that are held, by rising number. It takes no memory.
    pub fn versions(&self) -> Handles<'_>
        ensures { result ≡ map.keys self.now }
    {
        versions_of(&self.roots)
    }

    /// How many rows all versions have together: a row that several share counts once.
    pub fn rows(&self) -> usize
        ensures { self.now ≡ map.empty → result ≡ 0 }
    {
        self.heap.live()
    }

    /// The value at the key, and none where the key is absent.
    pub fn get<P: Probe<K>>(&self, version: Version, key: &P) -> Option<&V>
        requires { Holds self.now version }
        ensures { option_copied result ≡ find K.cmp (P.stands_for key.now) (entries_of self.now version) }
    {
        value_with(&self.heap, root_of(&self.roots, version), key)
    }

    /// The value at the key, and this one where the key is absent.
    pub fn get_or<'s, P: Probe<K>>(&'s self, version: Version, key: &P, absent: &'s V) -> &'s V
        requires { Holds self.now version }
        ensures { result.now ≡ unwrap_or (find K.cmp (P.stands_for key.now) (entries_of self.now version)) absent.now }
    {
        match self.get(version, key) {
            Some(value) => value,
            None => absent,
        }
    }

    /// Whether the version has the key.
    pub fn contains_key<P: Probe<K>>(&self, version: Version, key: &P) -> bool
        requires { Holds self.now version }
        ensures { result ≡ is_some (find K.cmp (P.stands_for key.now) (entries_of self.now version)) }
    {
        self.get(version, key).is_some()
    }

    /// Whether the version has no key.
    pub fn is_empty(&self, version: Version) -> bool
        requires { Holds self.now version }
        ensures { IsTrue result ↔ (entries_of self.now version ≡ []) }
    {
        has_no_entry(&self.heap, root_of(&self.roots, version))
    }

    /// How many keys the version has. It walks them all.
    pub fn len(&self, version: Version) -> usize
        requires { Holds self.now version }
        ensures { result ≡ length (entries_of self.now version) }
    {
        entry_count(&self.heap, root_of(&self.roots, version))
    }
    /// The keys of the version with their values, in the order of the trie's walk. It takes no memory.
    pub fn iter(&self, version: Version) -> Entries<'_, K, V>
        requires { Holds self.now version }
        ensures { SameSet result (entries_of self.now version) }
    {
        Entries::new(&self.heap, root_of(&self.roots, version))
    }

    /// Whether two versions have equal keys with equal values.
    pub fn same(&self, left: Version, right: Version) -> bool
        requires left { Holds self.now left }
        requires right { Holds self.now right }
        ensures { IsTrue result ↔ AllZip (IsEqualEntry K.cmp V.cmp) (entries_of self.now left) (entries_of self.now right) }
    {
        let left = root_of(&self.roots, left);
        let right = root_of(&self.roots, right);
        same_maps(&self.heap, left, right)
    }
    /// The keys of each version rise strictly, so that none stands twice: a law, for a proof that needs it. The call does
    /// nothing.
    pub fn keys_rise(&self)
        ensures { (v : ℕ) → T (is_sorted K.cmp (entries_of self.now v)) }
    {
        // A field that is read tells the proof what is true of all of them.
        let _ = &self.heap;
    }
}
