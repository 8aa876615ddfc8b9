//! Stores of sets, saved and loaded.
ghost use Rattle.std.specs.Prelude.{◌≡◌, ◌≢◌, None, Some, IfOk, IfErr};
ghost use Rattle.pool_check.specs.declared.root.RootKind.TheVariants.{Cells};
ghost use Rattle.versions.specs.Roots.{HasRoots, values_in};
ghost use Rattle.versions.specs.Keyed.{IsKeySet, keys_at};
ghost use Rattle.versions_pool.specs.Seen.{saved_seen};
ghost use Rattle.versions_pool.specs.Stores.{Says};
ghost use Rattle.versions_pool.specs.Sets.{set_in, sets_damage, sets_in, IsSetsDocument};

use crate::document::{SavedStore, saved_bytes};
use crate::loading::{checked_document, loaded_roots};
use crate::saving::saved_roots;
use elem_core::{NoMemory, Stored};
use node_heap::{Heap, Link};
use pool_check::{RootKind, pools_pass_as_made};
use pool_load::{OwnValues, loaded_roots_are_of_kinds, loaded_rows_are_listed};
use pool_text::{Damage, OwnTexts, pools_are_renamed};
use slab::Slab;
use std::alloc::Global;
use versions::Sets;

/// The document that stands for the store, as its compact text: each row that some version has once, whatever versions share it, and
/// no other. It takes time and memory for these rows, their links and their texts, however often they are shared.
pub fn save_sets<K: Stored>(alloc: Global, sets: &Sets<K>) -> Result<Vec<u8>, NoMemory>
    ensures saved { IfOk result (λ bytes. sets_in K.cmp K.of_bytes bytes.items ≡ Some sets.now) }
    ensures text { IfOk result (λ bytes. IsSetsDocument K.cmp K.of_bytes sets.now bytes.items) }
{
    let (heap, slots) = sets.parts();
    let saved = saved_sets(alloc, heap, slots)?;
    saved_bytes(alloc, &saved, "naipselu-sets")
}

/// The store of sets that the bytes stand for, whose versions have the very numbers. Refused with the first test that the bytes
/// fail, and with `Memory` where memory runs out. It takes time and memory for the bytes, and for all numbers up to the last.
pub fn load_sets<K: Stored>(alloc: Global, bytes: &[u8]) -> Result<Sets<K>, Damage>
    ensures sets { IfOk result (λ sets. sets_in K.cmp K.of_bytes bytes.now ≡ Some sets) }
    ensures whole { IfOk result (λ _. sets_damage bytes.now ≡ None) }
    ensures damage { IfErr result (λ d. d ≢ Damage.Memory → sets_damage bytes.now ≡ Some d) }
    ensures none { IfErr result (λ d. d ≢ Damage.Memory → sets_in K.cmp K.of_bytes bytes.now ≡ None) }
{
    let (names, checked) = checked_document::<K>(alloc, bytes, "naipselu-sets", RootKind::Cells)?;
    let (heap, slots) = loaded_roots(alloc, names, checked, &OwnValues)?;
    loaded_roots_are_of_kinds::<K>();
    loaded_rows_are_listed::<K>();
    Ok(Sets::of_parts(heap, slots))
}

/// The store, saved and loaded again: it is the very store. Refused only where memory runs out.
pub fn sets_after_save<K: Stored>(alloc: Global, sets: &Sets<K>) -> Result<Sets<K>, Damage>
    ensures loaded { IfOk result (λ loaded. loaded ≡ sets.now) }
    ensures memory { IfErr result (λ d. d ≡ Damage.Memory) }
{
    let bytes = save_sets(alloc, sets)?;
    load_sets(alloc, bytes.as_slice())
}

// What the document of a store says.
fn saved_sets<K: Stored>(
    alloc: Global,
    heap: &Heap<K>,
    slots: &Slab<Link>,
) -> Result<SavedStore, NoMemory>
    requires { HasRoots (IsKeySet K.cmp K.code_of) (keys_at K.cmp) heap.now slots.now.slots }
    ensures { IfOk result (λ saved. Says (set_in K.cmp K.of_bytes) Cells (values_in (keys_at K.cmp) heap.now slots.now.slots) (saved_seen saved)) }
{
    heap.rows_form_a_graph();
    pools_are_renamed();
    pools_pass_as_made();
    saved_roots::<K, OwnTexts>(alloc, heap, slots)
}
