//! A store behind a raw pointer, which is made and followed here alone.
ghost use Rattle.std.specs.Prelude.{◌≡◌, None, Some, Option, MatchOption};
ghost use Rattle.std.specs.Coded.{coded_option};
ghost use Rattle.versions_c.specs.contracts.store.Store.{the_row as stored_row};
ghost use Rattle.versions_c.specs.declared.store.Store.{Store as Stored};
ghost use Rattle.versions_c.specs.Owned.{owned};

use crate::loose::Loose;
use crate::store::Store;
use std::alloc::Global;
use std::marker::Model;
use std::mem;
use std::ptr::null_mut;

/// A store, or none. A new handle is a null pointer and `false`, and a program changes neither, nor copies it.
#[repr(C)]
pub struct Handle {
    // Of bytes, since the caller knows no `Store`.
    at: *mut u8,
    held: bool,
    pub(crate) ghost value: { Option Stored } by { coded_option stored_row.coded },
}

impl Model for Handle {
    ghost also_owns = { λ h. owned h.at h.held h.value };
}

impl Handle {
    // Without a store.
    fn empty() -> Handle
        ensures { result.value ≡ None }
    {
        Handle {
            at: null_mut(),
            held: false,
        }
    }

    // With this store.
    fn of(store: Loose<Store, Global>) -> Handle
        ensures { result.value ≡ Some store.value }
    {
        let Loose { at, alloc: _ } = store;
        Handle {
            at: at as *mut u8,
            held: true,
        }
    }

    // The store, if there is one.
    fn into_loose(self, alloc: Global) -> Option<Loose<Store, Global>>
        ensures { MatchOption result (self.value ≡ None) (λ l. self.value ≡ Some l.value) }
    {
        let Handle { at, held } = self;
        if held {
            Some(Loose {
                at: at as *mut Store,
                alloc,
            })
        } else {
            None
        }
    }

    // The store, if there is one, in a box.
    fn into_store(self, alloc: Global) -> Option<Box<Store>>
        ensures { MatchOption result (self.value ≡ None) (λ b. self.value ≡ Some b.value) }
    {
        match self.into_loose(alloc) {
            Some(store) => Some(store.into_box()),
            None => None,
        }
    }

    // Takes the store out, if there is one.
    pub(crate) fn take(&mut self, alloc: Global) -> Option<Box<Store>>
        ensures taken { MatchOption result (self.old.value ≡ None) (λ b. self.old.value ≡ Some b.value) }
        ensures left { self.new.value ≡ None }
    {
        mem::replace(self, Handle::empty()).into_store(alloc)
    }

    // Puts the store in. One that was there is not freed: so a call that puts back the one it took tests for none.
    pub(crate) fn put(&mut self, alloc: Global, store: Box<Store>)
        ensures { self.new.value ≡ Some store.value }
    {
        if let Some(old) = mem::replace(self, Handle::of(Loose::of(store))).into_store(alloc) {
            mem::forget(old);
        }
    }
}
