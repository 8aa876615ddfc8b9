//! Stores of maps, saved and loaded.
ghost use Rattle.std.specs.Prelude.{◌≡◌, ◌≢◌, true, None, Some, IfOk, IfErr};
ghost use Rattle.pool_check.specs.declared.root.RootKind.TheVariants.{CellMap};
ghost use Rattle.versions.specs.Roots.{HasRoots, values_in};
ghost use Rattle.versions.specs.Bound.{IsKeyMap, map_at};
ghost use Rattle.versions_pool.specs.Seen.{saved_seen};
ghost use Rattle.versions_pool.specs.Stores.{Says};
ghost use Rattle.versions_pool.specs.Apart.{are_apart};
ghost use Rattle.versions_pool.specs.Maps.{map_in, maps_damage, maps_in, IsMapsDocument};

use crate::apart::{PieceTexts, value_places};
use crate::document::{SavedStore, saved_bytes};
use crate::loading::{checked_document, loaded_roots};
use crate::saving::saved_roots;
use elem_core::{NoMemory, Stored};
use node_heap::{Heap, Link};
use pool_check::{RootKind, pools_pass_as_made};
use pool_text::{Damage, pools_are_renamed};
use slab::Slab;
use std::alloc::Global;
use versions::{Maps, Piece};

/// The document that stands for the store, as its compact text: each row that some version has once, whatever versions share it, and
/// no other. It takes time and memory for these rows, their links and their texts, however often they are shared.
pub fn save_maps<K: Stored, V: Stored>(
    alloc: Global,
    maps: &Maps<K, V>,
) -> Result<Vec<u8>, NoMemory>
    ensures saved { IfOk result (λ bytes. maps_in K.cmp K.of_bytes V.of_bytes bytes.items ≡ Some maps.now) }
    ensures text { IfOk result (λ bytes. IsMapsDocument K.cmp K.of_bytes V.of_bytes maps.now bytes.items) }
{
    let (heap, slots) = maps.parts();
    let saved = saved_maps(alloc, heap, slots)?;
    saved_bytes(alloc, &saved, "naipselu-maps")
}

/// The store of maps that the bytes stand for, whose versions have the very numbers. Refused with the first test that the bytes
/// fail, and with `Memory` where memory runs out. It takes time and memory for the bytes, and for all numbers up to the last.
pub fn load_maps<K: Stored, V: Stored>(alloc: Global, bytes: &[u8]) -> Result<Maps<K, V>, Damage>
    ensures maps { IfOk result (λ maps. maps_in K.cmp K.of_bytes V.of_bytes bytes.now ≡ Some maps) }
    ensures whole { IfOk result (λ _. maps_damage bytes.now ≡ None) }
    ensures damage { IfErr result (λ d. d ≢ Damage.Memory → maps_damage bytes.now ≡ Some d) }
    ensures none { IfErr result (λ d. d ≢ Damage.Memory → maps_in K.cmp K.of_bytes V.of_bytes bytes.now ≡ None) }
{
    let (names, checked) = checked_document::<K>(alloc, bytes, "naipselu-maps", RootKind::CellMap)?;
    let values = value_places(alloc, &checked)?;
    let (heap, slots) = loaded_roots(alloc, names, checked, &values)?;
    Ok(Maps::of_parts(heap, slots))
}

/// The store, saved and loaded again: it is the very store. Refused only where memory runs out.
pub fn maps_after_save<K: Stored, V: Stored>(
    alloc: Global,
    maps: &Maps<K, V>,
) -> Result<Maps<K, V>, Damage>
    ensures loaded { IfOk result (λ loaded. loaded ≡ maps.now) }
    ensures memory { IfErr result (λ d. d ≡ Damage.Memory) }
{
    let bytes = save_maps(alloc, maps)?;
    load_maps(alloc, bytes.as_slice())
}

// What the document of a store says.
fn saved_maps<K: Stored, V: Stored>(
    alloc: Global,
    heap: &Heap<Piece<K, V>>,
    slots: &Slab<Link>,
) -> Result<SavedStore, NoMemory>
    requires { HasRoots (IsKeyMap K.cmp V.cmp K.code_of) (map_at K.cmp) heap.now slots.now.slots }
    ensures says { IfOk result (λ saved. Says (map_in K.cmp K.of_bytes V.of_bytes) CellMap (values_in (map_at K.cmp) heap.now slots.now.slots) (saved_seen saved)) }
    ensures apart { IfOk result (λ saved. are_apart saved.rows ≡ true) }
{
    heap.rows_form_a_graph();
    pools_are_renamed();
    pools_pass_as_made();
    saved_roots::<Piece<K, V>, PieceTexts>(alloc, heap, slots)
}
