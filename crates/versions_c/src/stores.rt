//! The exports of whole stores.
ghost use Rattle.std.specs.Prelude.{◌≡◌, None};
ghost use Rattle.versions_c.specs.Stores.{News};

use crate::handle::Handle;
use crate::store::Store;
use std::alloc::Global;
use total_versions::Refusal;

/// Puts a store without versions into the handle. One that it had is freed.
#[unsafe(no_mangle)]
pub extern "C" fn naipselu_new(alloc: Global, handle: &mut Handle) -> u32
    ensures { News handle.old.value handle.new.value result }
{
    match Store::new(alloc) {
        Ok(store) => {
            // Frees the one that it had.
            handle.take(alloc);
            handle.put(alloc, store);
            0
        }
        Err(_) => Refusal::Memory.code(),
    }
}

/// Frees the store, if there is one. The handle is then as a new one.
#[unsafe(no_mangle)]
pub extern "C" fn naipselu_free(alloc: Global, handle: &mut Handle)
    ensures { handle.new.value ≡ None }
{
    handle.take(alloc);
}
