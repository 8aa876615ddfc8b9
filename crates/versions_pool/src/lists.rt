//! Stores of lists, saved and loaded.
ghost use Rattle.std.specs.Prelude.{◌≡◌, ◌≢◌, None, Some, IfOk, IfErr};
ghost use Rattle.pool_check.specs.declared.root.RootKind.TheVariants.{Lines};
ghost use Rattle.versions.specs.Roots.{HasRoots, values_in};
ghost use Rattle.versions.specs.Rooted.{IsListOf, list_at};
ghost use Rattle.versions_pool.specs.Seen.{saved_seen};
ghost use Rattle.versions_pool.specs.Stores.{Says};
ghost use Rattle.versions_pool.specs.Lists.{list_in, lists_damage, lists_in, IsListsDocument};

use crate::document::{SavedStore, saved_bytes};
use crate::loading::{checked_document, loaded_roots};
use crate::saving::saved_roots;
use elem_core::{NoMemory, Stored};
use node_heap::{Heap, Link};
use pool_check::{RootKind, pools_pass_as_made};
use pool_load::{OwnValues, loaded_roots_are_of_kinds, loaded_rows_are_listed};
use pool_text::{Damage, OwnTexts, pools_are_renamed};
use slab::Slab;
use std::alloc::Global;
use versions::Lists;

/// The document that stands for the store, as its compact text: each row that some version has once, whatever versions share it, and
/// no other. It takes time and memory for these rows, their links and their texts, however often they are shared.
pub fn save_lists<T: Stored>(alloc: Global, lists: &Lists<T>) -> Result<Vec<u8>, NoMemory>
    ensures saved { IfOk result (λ bytes. lists_in T.of_bytes bytes.items ≡ Some lists.now) }
    ensures text { IfOk result (λ bytes. IsListsDocument T.of_bytes lists.now bytes.items) }
{
    let (heap, slots) = lists.parts();
    let saved = saved_lists(alloc, heap, slots)?;
    saved_bytes(alloc, &saved, "naipselu-lists")
}

/// The store of lists that the bytes stand for, whose versions have the very numbers. Refused with the first test that the bytes
/// fail, and with `Memory` where memory runs out. It takes time and memory for the bytes, and for all numbers up to the last.
pub fn load_lists<T: Stored>(alloc: Global, bytes: &[u8]) -> Result<Lists<T>, Damage>
    ensures lists { IfOk result (λ lists. lists_in T.of_bytes bytes.now ≡ Some lists) }
    ensures whole { IfOk result (λ _. lists_damage bytes.now ≡ None) }
    ensures damage { IfErr result (λ d. d ≢ Damage.Memory → lists_damage bytes.now ≡ Some d) }
    ensures none { IfErr result (λ d. d ≢ Damage.Memory → lists_in T.of_bytes bytes.now ≡ None) }
{
    let (names, checked) = checked_document::<T>(alloc, bytes, "naipselu-lists", RootKind::Lines)?;
    let (heap, slots) = loaded_roots(alloc, names, checked, &OwnValues)?;
    loaded_roots_are_of_kinds::<T>();
    loaded_rows_are_listed::<T>();
    Ok(Lists::of_parts(heap, slots))
}

/// The store, saved and loaded again: it is the very store. Refused only where memory runs out.
pub fn lists_after_save<T: Stored>(alloc: Global, lists: &Lists<T>) -> Result<Lists<T>, Damage>
    ensures loaded { IfOk result (λ loaded. loaded ≡ lists.now) }
    ensures memory { IfErr result (λ d. d ≡ Damage.Memory) }
{
    let bytes = save_lists(alloc, lists)?;
    load_lists(alloc, bytes.as_slice())
}

// What the document of a store says.
fn saved_lists<T: Stored>(
    alloc: Global,
    heap: &Heap<T>,
    slots: &Slab<Link>,
) -> Result<SavedStore, NoMemory>
    requires { HasRoots IsListOf list_at heap.now slots.now.slots }
    ensures { IfOk result (λ saved. Says (list_in T.of_bytes) Lines (values_in list_at heap.now slots.now.slots) (saved_seen saved)) }
{
    heap.rows_form_a_graph();
    pools_are_renamed();
    pools_pass_as_made();
    saved_roots::<T, OwnTexts>(alloc, heap, slots)
}
