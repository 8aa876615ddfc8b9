//! The exports of maps.
ghost use Rattle.std.specs.Prelude.{◌≡◌, Some, length};
ghost use Rattle.versions.specs.Sorted.{IsEqualEntry, entries_of};
ghost use Rattle.versions_c.specs.declared.store.Store.{Store as Stored};
ghost use Rattle.versions_c.specs.Shown.{FillsEntries, EntriesShown};
ghost use Rattle.total_versions.specs.Calls.{Compares, Copies, Counts, Finds, Forgets, IntersectsMaps, MakesEmpty, Puts, PutsHere, RemovesEntry, RemovesEntryHere, SubtractsMaps, UnitesMaps};
ghost use Rattle.versions_c.specs.Stores.{Calls, Of, OnMaps, Seeks, Shows, Takes};

use crate::answers::written;
use crate::fill;
use crate::form::{Form, Given, shown, taken_pair};
use crate::handle::Handle;
use crate::value::Value;
use std::alloc::Global;
use total_versions::{Refusal, maps};
use versions::Version;

/// The version without keys.
#[unsafe(no_mangle)]
pub extern "C" fn naipselu_maps_empty(alloc: Global, handle: &mut Handle, made: &mut usize) -> u32
    ensures { Calls (OnMaps MakesEmpty) handle.old.value handle.new.value result made.old made.new }
{
    let Some(mut store) = handle.take(alloc) else {
        return Refusal::NoStore.code();
    };
    let answer = maps::empty(&mut store.maps);
    handle.put(alloc, store);
    written(answer, made)
}

/// The same map as another version.
#[unsafe(no_mangle)]
pub extern "C" fn naipselu_maps_copy(
    alloc: Global,
    handle: &mut Handle,
    version: usize,
    made: &mut usize,
) -> u32
    ensures { Calls (OnMaps (Copies version)) handle.old.value handle.new.value result made.old made.new }
{
    let Some(mut store) = handle.take(alloc) else {
        return Refusal::NoStore.code();
    };
    let answer = maps::copy(&mut store.maps, Version::from_number(version));
    handle.put(alloc, store);
    written(answer, made)
}

/// The version with the value at the key; an equal key that is there stays.
#[unsafe(no_mangle)]
pub extern "C" fn naipselu_maps_insert(
    alloc: Global,
    handle: &mut Handle,
    version: usize,
    form: Form,
    text: &[u8],
    value_form: Form,
    value_text: &[u8],
    made: &mut usize,
) -> u32
    ensures { Calls (OnMaps (Takes form text.now (λ key. Takes value_form value_text.now (Puts ⟦<Value as Ord>⟧.cmp version key)))) handle.old.value handle.new.value result made.old made.new }
{
    let Some(mut store) = handle.take(alloc) else {
        return Refusal::NoStore.code();
    };
    let answer = match taken_pair(alloc, form, text, value_form, value_text) {
        Ok((key, value)) => maps::insert(
            &mut store.maps,
            Version::from_number(version),
            key,
            value,
        ),
        Err(refusal) => Err(refusal),
    };
    handle.put(alloc, store);
    written(answer, made)
}

/// The version without the key.
#[unsafe(no_mangle)]
pub extern "C" fn naipselu_maps_remove(
    alloc: Global,
    handle: &mut Handle,
    version: usize,
    form: Form,
    text: &[u8],
    made: &mut usize,
) -> u32
    ensures { Calls (OnMaps (Seeks form text.now (RemovesEntry ⟦<Value as Ord>⟧.cmp version))) handle.old.value handle.new.value result made.old made.new }
{
    let Some(mut store) = handle.take(alloc) else {
        return Refusal::NoStore.code();
    };
    let answer = match Given::of(form, text) {
        Ok(key) => maps::remove(&mut store.maps, Version::from_number(version), &key),
        Err(refusal) => Err(refusal),
    };
    handle.put(alloc, store);
    written(answer, made)
}

/// The entries of either version, of two with equal keys the first's.
#[unsafe(no_mangle)]
pub extern "C" fn naipselu_maps_union(
    alloc: Global,
    handle: &mut Handle,
    first: usize,
    second: usize,
    made: &mut usize,
) -> u32
    ensures { Calls (OnMaps (UnitesMaps ⟦<Value as Ord>⟧.cmp first second)) handle.old.value handle.new.value result made.old made.new }
{
    let Some(mut store) = handle.take(alloc) else {
        return Refusal::NoStore.code();
    };
    let answer = maps::union(
        &mut store.maps,
        Version::from_number(first),
        Version::from_number(second),
    );
    handle.put(alloc, store);
    written(answer, made)
}

/// The entries of the first version whose keys the second has too.
#[unsafe(no_mangle)]
pub extern "C" fn naipselu_maps_both(
    alloc: Global,
    handle: &mut Handle,
    first: usize,
    second: usize,
    made: &mut usize,
) -> u32
    ensures { Calls (OnMaps (IntersectsMaps ⟦<Value as Ord>⟧.cmp first second)) handle.old.value handle.new.value result made.old made.new }
{
    let Some(mut store) = handle.take(alloc) else {
        return Refusal::NoStore.code();
    };
    let answer = maps::both(
        &mut store.maps,
        Version::from_number(first),
        Version::from_number(second),
    );
    handle.put(alloc, store);
    written(answer, made)
}

/// The entries of the first version whose keys the second lacks.
#[unsafe(no_mangle)]
pub extern "C" fn naipselu_maps_less(
    alloc: Global,
    handle: &mut Handle,
    first: usize,
    second: usize,
    made: &mut usize,
) -> u32
    ensures { Calls (OnMaps (SubtractsMaps ⟦<Value as Ord>⟧.cmp first second)) handle.old.value handle.new.value result made.old made.new }
{
    let Some(mut store) = handle.take(alloc) else {
        return Refusal::NoStore.code();
    };
    let answer = maps::less(
        &mut store.maps,
        Version::from_number(first),
        Version::from_number(second),
    );
    handle.put(alloc, store);
    written(answer, made)
}

/// Puts the value at the key of this version itself; an equal key that is there stays.
#[unsafe(no_mangle)]
pub extern "C" fn naipselu_maps_insert_here(
    alloc: Global,
    handle: &mut Handle,
    version: usize,
    form: Form,
    text: &[u8],
    value_form: Form,
    value_text: &[u8],
    edited: &mut usize,
) -> u32
    ensures { Calls (OnMaps (Takes form text.now (λ key. Takes value_form value_text.now (PutsHere ⟦<Value as Ord>⟧.cmp version key)))) handle.old.value handle.new.value result edited.old edited.new }
{
    let Some(mut store) = handle.take(alloc) else {
        return Refusal::NoStore.code();
    };
    let answer = match taken_pair(alloc, form, text, value_form, value_text) {
        Ok((key, value)) => maps::insert_here(
            &mut store.maps,
            Version::from_number(version),
            key,
            value,
        ),
        Err(refusal) => Err(refusal),
    };
    handle.put(alloc, store);
    written(answer, edited)
}

/// Takes the key out of this version itself.
#[unsafe(no_mangle)]
pub extern "C" fn naipselu_maps_remove_here(
    alloc: Global,
    handle: &mut Handle,
    version: usize,
    form: Form,
    text: &[u8],
    edited: &mut usize,
) -> u32
    ensures { Calls (OnMaps (Seeks form text.now (RemovesEntryHere ⟦<Value as Ord>⟧.cmp version))) handle.old.value handle.new.value result edited.old edited.new }
{
    let Some(mut store) = handle.take(alloc) else {
        return Refusal::NoStore.code();
    };
    let answer = match Given::of(form, text) {
        Ok(key) => maps::remove_here(&mut store.maps, Version::from_number(version), &key),
        Err(refusal) => Err(refusal),
    };
    handle.put(alloc, store);
    written(answer, edited)
}

/// Forgets the version. What no other version shares is freed.
#[unsafe(no_mangle)]
pub extern "C" fn naipselu_maps_forget(
    alloc: Global,
    handle: &mut Handle,
    version: usize,
    forgotten: &mut usize,
) -> u32
    ensures { Calls (OnMaps (Forgets version)) handle.old.value handle.new.value result forgotten.old forgotten.new }
{
    let Some(mut store) = handle.take(alloc) else {
        return Refusal::NoStore.code();
    };
    let answer = maps::forget(&mut store.maps, Version::from_number(version));
    handle.put(alloc, store);
    written(answer, forgotten)
}

/// How many keys the version has.
#[unsafe(no_mangle)]
pub extern "C" fn naipselu_maps_len(
    alloc: Global,
    handle: &mut Handle,
    version: usize,
    len: &mut usize,
) -> u32
    ensures { Calls (OnMaps (Of (Counts version))) handle.old.value handle.new.value result len.old len.new }
{
    let Some(store) = handle.take(alloc) else {
        return Refusal::NoStore.code();
    };
    let answer = maps::len(&store.maps, Version::from_number(version));
    handle.put(alloc, store);
    written(answer, len)
}

/// The value at the key.
#[unsafe(no_mangle)]
pub extern "C" fn naipselu_maps_get(
    alloc: Global,
    handle: &mut Handle,
    version: usize,
    form: Form,
    text: &[u8],
    shown_form: &mut Form,
    room: &mut [u8],
) -> u32
    ensures { Shows (OnMaps (Seeks form text.now (λ key. Of (Finds ⟦<Value as Ord>⟧.cmp version key)))) handle.old.value handle.new.value result (shown_form.old, room.old) (shown_form.new, room.new) }
{
    let Some(store) = handle.take(alloc) else {
        return Refusal::NoStore.code();
    };
    let answer = match Given::of(form, text) {
        Ok(key) => maps::get(&store.maps, Version::from_number(version), &key),
        Err(refusal) => Err(refusal),
    };
    let code = shown(answer, shown_form, room);
    handle.put(alloc, store);
    code
}

/// Whether two versions have equal keys with equal values.
#[unsafe(no_mangle)]
pub extern "C" fn naipselu_maps_same(
    alloc: Global,
    handle: &mut Handle,
    left: usize,
    right: usize,
    same: &mut bool,
) -> u32
    ensures { Calls (OnMaps (Of (Compares (IsEqualEntry ⟦<Value as Ord>⟧.cmp ⟦<Value as Ord>⟧.cmp) left right))) handle.old.value handle.new.value result same.old same.new }
{
    let Some(store) = handle.take(alloc) else {
        return Refusal::NoStore.code();
    };
    let answer = maps::same(
        &store.maps,
        Version::from_number(left),
        Version::from_number(right),
    );
    handle.put(alloc, store);
    written(answer, same)
}

/// All entries of the version, in some order, each as its key and then its value: how many forms that is. `forms` then begins
/// with these, and `room` with the bytes of the texts, one after another. Refused as out of range where either is too short.
#[unsafe(no_mangle)]
pub extern "C" fn naipselu_maps_entries(
    alloc: Global,
    handle: &mut Handle,
    version: usize,
    forms: &mut [Form],
    room: &mut [u8],
    count: &mut usize,
) -> u32
    ensures call { Calls (OnMaps (Of (FillsEntries version (length forms.old) (length room.old)))) handle.old.value handle.new.value result count.old count.new }
    ensures shown { result ≡ 0 → (s : Stored) × (handle.old.value ≡ Some s) × EntriesShown (entries_of s.maps version) forms.new room.new }
{
    let Some(store) = handle.take(alloc) else {
        return Refusal::NoStore.code();
    };
    let answer = fill::entries(&store.maps, Version::from_number(version), forms, room);
    handle.put(alloc, store);
    written(answer, count)
}
