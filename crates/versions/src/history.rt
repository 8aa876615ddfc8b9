//! A list that remembers the lists that it was.
ghost use Rattle.std.specs.Prelude.{◌≡◌, ◌≢◌, ◌↔◌, ◌-◌, ◌^◌, ◌<◌, ◌≤◌, [], ◌∷◌, ◌++◌, length, drop, slice_get, slice_set, option_copied, IfOk, IfErr, IsErrAnd, OnErr, IsTrue, if◌then◌else◌};
ghost use Rattle.versions.specs.History.{present};

use crate::faults::{Fault, Refused};
use crate::items::Items;
use crate::lists::Lists;
use crate::roots::Version;
use elem_core::{Element, NoMemory};
use std::alloc::Global;
use std::collections::VecDeque;
use std::marker::Model;

/// A list and all the lists that it was, each a version of one store. Contracts see all of them, the newest first; there is
/// always one.
#[derive(Drop)]
pub struct History<T: Element> {
    lists: Lists<T>,
    newest: Version,
    earlier: VecDeque<Version>,
}

impl<T: Element> Model for History<T> {
    ghost use Rattle.std.specs.Prelude.{List, ◌∷◌};
    ghost use Rattle.versions.specs.History.{AreHeld, lists_of};

    ghost Value = { List (List T) };

    ghost view = { λ h. lists_of h.lists (h.newest ∷ h.earlier.items) };

    ghost invariant = { λ h. AreHeld h.lists (h.newest ∷ h.earlier.items) };
}

impl<T: Element> History<T> {
    /// The list without elements, and nothing before.
    pub fn new(alloc: Global) -> Result<History<T>, NoMemory>
        ensures { IfOk result (λ h. h ≡ [] ∷ []) }
    {
        let mut lists = Lists::new(alloc);
        let newest = lists.empty()?;
        let earlier = VecDeque::new(alloc);
        Ok(History {
            lists,
            newest,
            earlier,
        })
    }

    /// Puts the element after the last. Refused where the list has 2^32 - 1 elements, or memory runs out.
    pub fn push(&mut self, element: T) -> Result<(), Refused<T>>
        ensures made { IfOk result (λ _. self.new ≡ (present self.old ++ element ∷ []) ∷ self.old) }
        ensures refused { OnErr result (self.new ≡ self.old) }
        ensures given_back { IfErr result (λ r. r.element ≡ element) }
        ensures long { (IsErrAnd result (λ r. r.fault ≡ Fault.Long)) ↔ (length (present self.old) ≡ 2 ^ 32 - 1) }
        ensures no_range { IfErr result (λ r. r.fault ≢ Fault.Range) }
        ensures some { 0 < length self.old }
    {
        if self.lists.len(self.newest) == u32::MAX {
            let fault = Fault::Long;
            return Err(Refused { element, fault });
        }
        if self.earlier.push_front(self.newest).is_err() {
            let fault = Fault::Memory;
            return Err(Refused { element, fault });
        }
        match self.lists.push(self.newest, element) {
            Ok(version) => {
                self.newest = version;
                Ok(())
            }
            Err(refused) => {
                self.earlier.pop_front();
                Err(refused)
            }
        }
    }

    /// Puts the element in place of the one at the index. Refused where the index is past the end, or memory runs out.
    pub fn set(&mut self, index: u32, element: T) -> Result<(), Refused<T>>
        ensures made { IfOk result (λ _. self.new ≡ slice_set (present self.old) index element ∷ self.old) }
        ensures refused { OnErr result (self.new ≡ self.old) }
        ensures given_back { IfErr result (λ r. r.element ≡ element) }
        ensures range { (IsErrAnd result (λ r. r.fault ≡ Fault.Range)) ↔ (length (present self.old) ≤ index) }
        ensures no_long { IfErr result (λ r. r.fault ≢ Fault.Long) }
        ensures some { 0 < length self.old }
    {
        if index >= self.lists.len(self.newest) {
            let fault = Fault::Range;
            return Err(Refused { element, fault });
        }
        if self.earlier.push_front(self.newest).is_err() {
            let fault = Fault::Memory;
            return Err(Refused { element, fault });
        }
        match self.lists.set(self.newest, index, element) {
            Ok(version) => {
                self.newest = version;
                Ok(())
            }
            Err(refused) => {
                self.earlier.pop_front();
                Err(refused)
            }
        }
    }

    /// Goes back to the list before the last change. False where there is none.
    pub fn undo(&mut self) -> bool
        ensures back { self.new ≡ (if result then drop 1 self.old else self.old) }
        ensures whether { IsTrue result ↔ (1 < length self.old) }
        ensures some { 0 < length self.new }
    {
        let Some(version) = self.earlier.pop_front() else {
            return false;
        };
        self.lists.forget(self.newest);
        self.newest = version;
        true
    }

    /// How many elements the list has.
    pub fn len(&self) -> u32
        ensures { result ≡ length (present self.now) }
    {
        self.lists.len(self.newest)
    }

    /// Whether the list has no elements.
    pub fn is_empty(&self) -> bool
        ensures { IsTrue result ↔ (present self.now ≡ []) }
    {
        self.lists.is_empty(self.newest)
    }

    /// The element at the index, and none past the end.
    pub fn get(&self, index: u32) -> Option<&T>
        ensures { option_copied result ≡ slice_get (present self.now) index }
    {
        self.lists.get(self.newest, index)
    }

    /// The elements as they stand, in order. It takes no memory.
    pub fn iter(&self) -> Items<'_, T>
        ensures { result ≡ present self.now }
    {
        self.lists.iter(self.newest)
    }
}
