//! What lies behind a handle.
ghost use Rattle.std.specs.Prelude.{◌≡◌, IfOk};
ghost use Rattle.versions_c.specs.Stores.{no_versions};

use crate::value::Value;
use elem_core::NoMemory;
use std::alloc::Global;
use versions::{Lists, Maps, Sets};

/// Lists, sets and maps by their versions, each kind with its own.
#[derive(Drop)]
pub struct Store {
    /// The lists.
    pub lists: Lists<Value>,
    /// The sets.
    pub sets: Sets<Value>,
    /// The maps.
    pub maps: Maps<Value, Value>,
}

impl Store {
    // A store without versions. Err where memory runs out.
    pub(crate) fn new(alloc: Global) -> Result<Box<Store>, NoMemory>
        ensures { IfOk result (λ made. made.value ≡ no_versions) }
    {
        let store = Store {
            lists: Lists::new(alloc),
            sets: Sets::new(alloc),
            maps: Maps::new(alloc),
        };
        Ok(Box::new(alloc, store)?)
    }
}
