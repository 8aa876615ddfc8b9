//! A store of sets by their versions.
ghost use Rattle.std.specs.Prelude.{◌≡◌, ◌↔◌, ℕ, [], None, IfOk, IfErr, OnErr, IsTrue, length};
ghost use Rattle.std.specs.FinMap as map;
ghost use Rattle.std.specs.List.{AllZip};
ghost use Rattle.std.specs.List.Sorted.{IsStrictlySortedBy};
ghost use Rattle.std.specs.declared.cmp.Ordering.TheVariants.{Equal};
ghost use Rattle.std.specs.BTreeSet.{insert_key};
ghost use Rattle.champ_chain.specs.Entry.{SameSet};
ghost use Rattle.versions.specs.Store.{Holds};
ghost use Rattle.versions.specs.declared.faults.Fault.TheVariants.{Memory};
ghost use Rattle.versions.specs.Sorted.{both, has, keys_of, less, remove_key, union};

use crate::equal::same_sets;
use crate::faults::Refused;
use crate::keyed::{has_key, has_no_key, key_count, no_keys, same_keys, with_key, without_key};
use crate::keyed_here::{with_key_here, without_key_here};
use crate::keys::Keys;
use crate::merging::{keys_of_both, keys_of_either, keys_of_first};
use crate::roots::{
    Handles, Version, forget, is_kept, keep, put as put_root, reserve, root_of, versions_of,
};
use elem_core::{Element, NoMemory, Probe};
use node_heap::{Heap, Link};
use slab::Slab;
use std::alloc::Global;
use std::marker::Model;

/// Sets by their versions. Contracts see a set as its keys in rising order. Each version stays until it is forgotten, and
/// versions share what they have in common. A store that is dropped gives all of them back.
#[derive(Drop)]
pub struct Sets<K: Element> {
    pub(crate) heap: Heap<K>,
    pub(crate) roots: Slab<Link>,
}

impl<K: Element> Model for Sets<K> {
    ghost use Rattle.std.specs.Ordering.{nat_cmp};
    ghost use Rattle.std.specs.Prelude.{List};
    ghost use Rattle.std.specs.Coded.{coded_ℕ, coded_list};
    ghost use Rattle.std.specs.FinMap as map;
    ghost use Rattle.versions.specs.Roots.{values_in, HasRoots};
    ghost use Rattle.versions.specs.Keyed.{keys_at, IsKeySet};

    ghost Value = { map.FinMap nat_cmp (List K) };

    ghost coded = { map.code coded_ℕ (coded_list K.code) };

    ghost view = { λ s. values_in (keys_at K.cmp) s.heap s.roots.slots };

    ghost invariant = { λ s. HasRoots (IsKeySet K.cmp K.code_of) (keys_at K.cmp) s.heap s.roots.slots };
}

impl<K: Element> Sets<K> {
    /// A store without versions.
    pub fn new(alloc: Global) -> Sets<K>
        ensures { result ≡ map.empty }
    {
        Sets {
            heap: Heap::new(alloc),
            roots: Slab::new(alloc),
        }
    }

    /// The version without keys.
    pub fn empty(&mut self) -> Result<Version, NoMemory>
        ensures fresh { IfOk result (λ v. map.get self.old v ≡ None) }
        ensures made { IfOk result (λ v. self.new ≡ map.insert self.old v []) }
        ensures refused { OnErr result (self.new ≡ self.old) }
    {
        reserve(&mut self.heap, &mut self.roots, 0, 1)?;
        let root = no_keys(&mut self.heap);
        Ok(keep(&mut self.roots, root))
    }

    /// The same set as another version.
    pub fn copy(&mut self, version: Version) -> Result<Version, NoMemory>
        requires { Holds self.old version }
        ensures fresh { IfOk result (λ v. map.get self.old v ≡ None) }
        ensures made { IfOk result (λ v. self.new ≡ map.insert self.old v (keys_of self.old version)) }
        ensures refused { OnErr result (self.new ≡ self.old) }
    {
        let root = root_of(&self.roots, version);
        reserve(&mut self.heap, &mut self.roots, 0, 0)?;
        let root = same_keys(&mut self.heap, root);
        Ok(keep(&mut self.roots, root))
    }

    /// The version with the key; an equal key that is there stays. The version itself stays. Refused only where memory runs out.
    pub fn insert(&mut self, version: Version, key: K) -> Result<Version, Refused<K>>
        requires { Holds self.old version }
        ensures fresh { IfOk result (λ v. map.get self.old v ≡ None) }
        ensures made { IfOk result (λ v. self.new ≡ map.insert self.old v (insert_key K.cmp (keys_of self.old version) key)) }
        ensures refused { OnErr result (self.new ≡ self.old) }
        ensures given_back { IfErr result (λ r. r.element ≡ key) }
        ensures memory { IfErr result (λ r. r.fault ≡ Memory) }
    {
        let root = root_of(&self.roots, version);
        if reserve(&mut self.heap, &mut self.roots, 0, 0).is_err() {
            return Err(Refused::no_memory(key));
        }
        match with_key(&mut self.heap, root, key) {
            Ok(root) => Ok(keep(&mut self.roots, root)),
            Err(key) => Err(Refused::no_memory(key)),
        }
    }

    /// The version without the key. The version itself stays.
    pub fn remove<P: Probe<K>>(&mut self, version: Version, key: &P) -> Result<Version, NoMemory>
        requires { Holds self.old version }
        ensures fresh { IfOk result (λ v. map.get self.old v ≡ None) }
        ensures made { IfOk result (λ v. self.new ≡ map.insert self.old v (remove_key K.cmp (keys_of self.old version) (P.stands_for key.now))) }
        ensures refused { OnErr result (self.new ≡ self.old) }
    {
        let root = root_of(&self.roots, version);
        reserve(&mut self.heap, &mut self.roots, 0, 0)?;
        let root = without_key(&mut self.heap, root, key)?;
        Ok(keep(&mut self.roots, root))
    }

    /// The keys of either version, of two equal ones the first's. Both versions stay.
    pub fn union(&mut self, first: Version, second: Version) -> Result<Version, NoMemory>
        requires first { Holds self.old first }
        requires second { Holds self.old second }
        ensures fresh { IfOk result (λ v. map.get self.old v ≡ None) }
        ensures made { IfOk result (λ v. self.new ≡ map.insert self.old v (union K.cmp (keys_of self.old first) (keys_of self.old second))) }
        ensures refused { OnErr result (self.new ≡ self.old) }
    {
        let first = root_of(&self.roots, first);
        let second = root_of(&self.roots, second);
        reserve(&mut self.heap, &mut self.roots, 0, 0)?;
        let root = keys_of_either(&mut self.heap, first, second)?;
        Ok(keep(&mut self.roots, root))
    }

    /// The first version's keys that the second has too. Both versions stay.
    pub fn both(&mut self, first: Version, second: Version) -> Result<Version, NoMemory>
        requires first { Holds self.old first }
        requires second { Holds self.old second }
        ensures fresh { IfOk result (λ v. map.get self.old v ≡ None) }
        ensures made { IfOk result (λ v. self.new ≡ map.insert self.old v (both K.cmp (keys_of self.old first) (keys_of self.old second))) }
        ensures refused { OnErr result (self.new ≡ self.old) }
    {
        let first = root_of(&self.roots, first);
        let second = root_of(&self.roots, second);
        reserve(&mut self.heap, &mut self.roots, 0, 0)?;
        let root = keys_of_both(&mut self.heap, first, second)?;
        Ok(keep(&mut self.roots, root))
    }

    /// The first version's keys that the second lacks. Both versions stay.
    pub fn less(&mut self, first: Version, second: Version) -> Result<Version, NoMemory>
        requires first { Holds self.old first }
        requires second { Holds self.old second }
        ensures fresh { IfOk result (λ v. map.get self.old v ≡ None) }
        ensures made { IfOk result (λ v. self.new ≡ map.insert self.old v (less K.cmp (keys_of self.old first) (keys_of self.old second))) }
        ensures refused { OnErr result (self.new ≡ self.old) }
    {
        let first = root_of(&self.roots, first);
        let second = root_of(&self.roots, second);
        reserve(&mut self.heap, &mut self.roots, 0, 0)?;
        let root = keys_of_first(&mut self.heap, first, second)?;
        Ok(keep(&mut self.roots, root))
    }

    /// Puts the key into this version itself, in place where its rows are its own; an equal key that is there stays. Every other
    /// version stays. Refused only where memory runs out.
    pub fn insert_here(&mut self, version: Version, key: K) -> Result<(), Refused<K>>
        requires { Holds self.old version }
        ensures made { IfOk result (λ _. self.new ≡ map.insert self.old version (insert_key K.cmp (keys_of self.old version) key)) }
        ensures refused { OnErr result (self.new ≡ self.old) }
        ensures given_back { IfErr result (λ r. r.element ≡ key) }
        ensures memory { IfErr result (λ r. r.fault ≡ Memory) }
    {
        let root = root_of(&self.roots, version);
        match with_key_here(&mut self.heap, root, key) {
            Ok(root) => {
                put_root(&mut self.roots, version, root);
                Ok(())
            }
            Err(key) => Err(Refused::no_memory(key)),
        }
    }

    /// Takes the key out of this version itself, in place where its rows are its own. Every other version stays.
    pub fn remove_here<P: Probe<K>>(&mut self, version: Version, key: &P) -> Result<(), NoMemory>
        requires { Holds self.old version }
        ensures made { IfOk result (λ _. self.new ≡ map.insert self.old version (remove_key K.cmp (keys_of self.old version) (P.stands_for key.now))) }
        ensures refused { OnErr result (self.new ≡ self.old) }
    {
        let root = root_of(&self.roots, version);
        let root = without_key_here(&mut self.heap, root, key)?;
        put_root(&mut self.roots, version, root);
        Ok(())
    }

    /// Forgets the version. Every other stays.
    pub fn forget(&mut self, version: Version)
        requires { Holds self.old version }
        ensures { self.new ≡ map.remove self.old version }
    {
        forget(&mut self.heap, &mut self.roots, version);
    }

    /// Whether the version is held.
    pub fn holds(&self, version: Version) -> bool
        ensures { IsTrue result ↔ Holds self.now version }
    {
        is_kept(&self.roots, version)
    }

    /// The versions that are held, by rising number. It takes no memory.
    pub fn versions(&self) -> Handles<'_>
        ensures { result ≡ map.keys self.now }
    {
        versions_of(&self.roots)
    }

    /// How many rows all versions have together: a row that several share counts once.
    pub fn rows(&self) -> usize
        ensures { self.now ≡ map.empty → result ≡ 0 }
    {
        self.heap.live()
    }

    /// Whether the version has the key.
    pub fn contains<P: Probe<K>>(&self, version: Version, key: &P) -> bool
        requires { Holds self.now version }
        ensures { result ≡ has K.cmp (P.stands_for key.now) (keys_of self.now version) }
    {
        has_key(&self.heap, root_of(&self.roots, version), key)
    }

    /// Whether the version has no key.
    pub fn is_empty(&self, version: Version) -> bool
        requires { Holds self.now version }
        ensures { IsTrue result ↔ (keys_of self.now version ≡ []) }
    {
        has_no_key(&self.heap, root_of(&self.roots, version))
    }

    /// How many keys the version has. It walks them all.
    pub fn len(&self, version: Version) -> usize
        requires { Holds self.now version }
        ensures { result ≡ length (keys_of self.now version) }
    {
        key_count(&self.heap, root_of(&self.roots, version))
    }

    /// The keys of the version, in the order of the trie's walk. It takes no memory.
    pub fn iter(&self, version: Version) -> Keys<'_, K>
        requires { Holds self.now version }
        ensures { SameSet result (keys_of self.now version) }
    {
        Keys::new(&self.heap, root_of(&self.roots, version))
    }
    /// Whether two versions have equal keys, one to one.
    pub fn same(&self, left: Version, right: Version) -> bool
        requires left { Holds self.now left }
        requires right { Holds self.now right }
        ensures { IsTrue result ↔ AllZip (λ x y. K.cmp x y ≡ Equal) (keys_of self.now left) (keys_of self.now right) }
    {
        let left = root_of(&self.roots, left);
        let right = root_of(&self.roots, right);
        same_sets(&self.heap, left, right)
    }
    /// The keys of each version rise strictly, so that none stands twice: a law, for a proof that needs it. The call does
    /// nothing.
    pub fn keys_rise(&self)
        ensures { (v : ℕ) → IsStrictlySortedBy K.cmp (keys_of self.now v) }
    {
        // A field that is read tells the proof what is true of all of them.
        let _ = &self.heap;
    }
}
