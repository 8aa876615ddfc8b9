//! The exports of sets.
ghost use Rattle.std.specs.Prelude.{◌≡◌, Some, length};
ghost use Rattle.std.specs.declared.cmp.Ordering.TheVariants.{Equal};
ghost use Rattle.versions.specs.Sorted.{keys_of};
ghost use Rattle.versions_c.specs.declared.store.Store.{Store as Stored};
ghost use Rattle.versions_c.specs.Shown.{FillsKeys, KeysShown};
ghost use Rattle.total_versions.specs.Calls.{Compares, Copies, Counts, Forgets, HasKey, InsertsKey, InsertsKeyHere, Intersects, MakesEmpty, RemovesKey, RemovesKeyHere, Subtracts, Unites};
ghost use Rattle.versions_c.specs.Stores.{Calls, Of, OnSets, Seeks, Takes};

use crate::answers::written;
use crate::fill;
use crate::form::{Form, Given, taken};
use crate::handle::Handle;
use crate::value::Value;
use std::alloc::Global;
use total_versions::{Refusal, sets};
use versions::Version;

/// The version without keys.
#[unsafe(no_mangle)]
pub extern "C" fn naipselu_sets_empty(alloc: Global, handle: &mut Handle, made: &mut usize) -> u32
    ensures { Calls (OnSets MakesEmpty) handle.old.value handle.new.value result made.old made.new }
{
    let Some(mut store) = handle.take(alloc) else {
        return Refusal::NoStore.code();
    };
    let answer = sets::empty(&mut store.sets);
    handle.put(alloc, store);
    written(answer, made)
}

/// The same set as another version.
#[unsafe(no_mangle)]
pub extern "C" fn naipselu_sets_copy(
    alloc: Global,
    handle: &mut Handle,
    version: usize,
    made: &mut usize,
) -> u32
    ensures { Calls (OnSets (Copies version)) handle.old.value handle.new.value result made.old made.new }
{
    let Some(mut store) = handle.take(alloc) else {
        return Refusal::NoStore.code();
    };
    let answer = sets::copy(&mut store.sets, Version::from_number(version));
    handle.put(alloc, store);
    written(answer, made)
}

/// The version with the key; an equal key that is there stays.
#[unsafe(no_mangle)]
pub extern "C" fn naipselu_sets_insert(
    alloc: Global,
    handle: &mut Handle,
    version: usize,
    form: Form,
    text: &[u8],
    made: &mut usize,
) -> u32
    ensures { Calls (OnSets (Takes form text.now (InsertsKey ⟦<Value as Ord>⟧.cmp version))) handle.old.value handle.new.value result made.old made.new }
{
    let Some(mut store) = handle.take(alloc) else {
        return Refusal::NoStore.code();
    };
    let answer = match taken(alloc, form, text) {
        Ok(key) => sets::insert(&mut store.sets, Version::from_number(version), key),
        Err(refusal) => Err(refusal),
    };
    handle.put(alloc, store);
    written(answer, made)
}

/// The version without the key.
#[unsafe(no_mangle)]
pub extern "C" fn naipselu_sets_remove(
    alloc: Global,
    handle: &mut Handle,
    version: usize,
    form: Form,
    text: &[u8],
    made: &mut usize,
) -> u32
    ensures { Calls (OnSets (Seeks form text.now (RemovesKey ⟦<Value as Ord>⟧.cmp version))) handle.old.value handle.new.value result made.old made.new }
{
    let Some(mut store) = handle.take(alloc) else {
        return Refusal::NoStore.code();
    };
    let answer = match Given::of(form, text) {
        Ok(key) => sets::remove(&mut store.sets, Version::from_number(version), &key),
        Err(refusal) => Err(refusal),
    };
    handle.put(alloc, store);
    written(answer, made)
}

/// Puts the key into this version itself; an equal key that is there stays.
#[unsafe(no_mangle)]
pub extern "C" fn naipselu_sets_insert_here(
    alloc: Global,
    handle: &mut Handle,
    version: usize,
    form: Form,
    text: &[u8],
    edited: &mut usize,
) -> u32
    ensures { Calls (OnSets (Takes form text.now (InsertsKeyHere ⟦<Value as Ord>⟧.cmp version))) handle.old.value handle.new.value result edited.old edited.new }
{
    let Some(mut store) = handle.take(alloc) else {
        return Refusal::NoStore.code();
    };
    let answer = match taken(alloc, form, text) {
        Ok(key) => sets::insert_here(&mut store.sets, Version::from_number(version), key),
        Err(refusal) => Err(refusal),
    };
    handle.put(alloc, store);
    written(answer, edited)
}

/// Takes the key out of this version itself.
#[unsafe(no_mangle)]
pub extern "C" fn naipselu_sets_remove_here(
    alloc: Global,
    handle: &mut Handle,
    version: usize,
    form: Form,
    text: &[u8],
    edited: &mut usize,
) -> u32
    ensures { Calls (OnSets (Seeks form text.now (RemovesKeyHere ⟦<Value as Ord>⟧.cmp version))) handle.old.value handle.new.value result edited.old edited.new }
{
    let Some(mut store) = handle.take(alloc) else {
        return Refusal::NoStore.code();
    };
    let answer = match Given::of(form, text) {
        Ok(key) => sets::remove_here(&mut store.sets, Version::from_number(version), &key),
        Err(refusal) => Err(refusal),
    };
    handle.put(alloc, store);
    written(answer, edited)
}

/// The keys of either version.
#[unsafe(no_mangle)]
pub extern "C" fn naipselu_sets_union(
    alloc: Global,
    handle: &mut Handle,
    first: usize,
    second: usize,
    made: &mut usize,
) -> u32
    ensures { Calls (OnSets (Unites ⟦<Value as Ord>⟧.cmp first second)) handle.old.value handle.new.value result made.old made.new }
{
    let Some(mut store) = handle.take(alloc) else {
        return Refusal::NoStore.code();
    };
    let answer = sets::union(
        &mut store.sets,
        Version::from_number(first),
        Version::from_number(second),
    );
    handle.put(alloc, store);
    written(answer, made)
}

/// The keys of the first version that the second has too.
#[unsafe(no_mangle)]
pub extern "C" fn naipselu_sets_both(
    alloc: Global,
    handle: &mut Handle,
    first: usize,
    second: usize,
    made: &mut usize,
) -> u32
    ensures { Calls (OnSets (Intersects ⟦<Value as Ord>⟧.cmp first second)) handle.old.value handle.new.value result made.old made.new }
{
    let Some(mut store) = handle.take(alloc) else {
        return Refusal::NoStore.code();
    };
    let answer = sets::both(
        &mut store.sets,
        Version::from_number(first),
        Version::from_number(second),
    );
    handle.put(alloc, store);
    written(answer, made)
}

/// The keys of the first version that the second lacks.
#[unsafe(no_mangle)]
pub extern "C" fn naipselu_sets_less(
    alloc: Global,
    handle: &mut Handle,
    first: usize,
    second: usize,
    made: &mut usize,
) -> u32
    ensures { Calls (OnSets (Subtracts ⟦<Value as Ord>⟧.cmp first second)) handle.old.value handle.new.value result made.old made.new }
{
    let Some(mut store) = handle.take(alloc) else {
        return Refusal::NoStore.code();
    };
    let answer = sets::less(
        &mut store.sets,
        Version::from_number(first),
        Version::from_number(second),
    );
    handle.put(alloc, store);
    written(answer, made)
}

/// Forgets the version. What no other version shares is freed.
#[unsafe(no_mangle)]
pub extern "C" fn naipselu_sets_forget(
    alloc: Global,
    handle: &mut Handle,
    version: usize,
    forgotten: &mut usize,
) -> u32
    ensures { Calls (OnSets (Forgets version)) handle.old.value handle.new.value result forgotten.old forgotten.new }
{
    let Some(mut store) = handle.take(alloc) else {
        return Refusal::NoStore.code();
    };
    let answer = sets::forget(&mut store.sets, Version::from_number(version));
    handle.put(alloc, store);
    written(answer, forgotten)
}

/// How many keys the version has.
#[unsafe(no_mangle)]
pub extern "C" fn naipselu_sets_len(
    alloc: Global,
    handle: &mut Handle,
    version: usize,
    len: &mut usize,
) -> u32
    ensures { Calls (OnSets (Of (Counts version))) handle.old.value handle.new.value result len.old len.new }
{
    let Some(store) = handle.take(alloc) else {
        return Refusal::NoStore.code();
    };
    let answer = sets::len(&store.sets, Version::from_number(version));
    handle.put(alloc, store);
    written(answer, len)
}

/// Whether the version has the key.
#[unsafe(no_mangle)]
pub extern "C" fn naipselu_sets_contains(
    alloc: Global,
    handle: &mut Handle,
    version: usize,
    form: Form,
    text: &[u8],
    has: &mut bool,
) -> u32
    ensures { Calls (OnSets (Seeks form text.now (λ key. Of (HasKey ⟦<Value as Ord>⟧.cmp version key)))) handle.old.value handle.new.value result has.old has.new }
{
    let Some(store) = handle.take(alloc) else {
        return Refusal::NoStore.code();
    };
    let answer = match Given::of(form, text) {
        Ok(key) => sets::contains(&store.sets, Version::from_number(version), &key),
        Err(refusal) => Err(refusal),
    };
    handle.put(alloc, store);
    written(answer, has)
}

/// Whether two versions have equal keys.
#[unsafe(no_mangle)]
pub extern "C" fn naipselu_sets_same(
    alloc: Global,
    handle: &mut Handle,
    left: usize,
    right: usize,
    same: &mut bool,
) -> u32
    ensures { Calls (OnSets (Of (Compares (λ x y. ⟦<Value as Ord>⟧.cmp x y ≡ Equal) left right))) handle.old.value handle.new.value result same.old same.new }
{
    let Some(store) = handle.take(alloc) else {
        return Refusal::NoStore.code();
    };
    let answer = sets::same(
        &store.sets,
        Version::from_number(left),
        Version::from_number(right),
    );
    handle.put(alloc, store);
    written(answer, same)
}

/// All keys of the version, in some order: how many there are. `forms` then begins with their forms, and `room` with the bytes of
/// those that are texts, one after another. Refused as out of range where either is too short.
#[unsafe(no_mangle)]
pub extern "C" fn naipselu_sets_keys(
    alloc: Global,
    handle: &mut Handle,
    version: usize,
    forms: &mut [Form],
    room: &mut [u8],
    count: &mut usize,
) -> u32
    ensures call { Calls (OnSets (Of (FillsKeys version (length forms.old) (length room.old)))) handle.old.value handle.new.value result count.old count.new }
    ensures shown { result ≡ 0 → (s : Stored) × (handle.old.value ≡ Some s) × KeysShown (keys_of s.sets version) forms.new room.new }
{
    let Some(store) = handle.take(alloc) else {
        return Refusal::NoStore.code();
    };
    let answer = fill::keys(&store.sets, Version::from_number(version), forms, room);
    handle.put(alloc, store);
    written(answer, count)
}
