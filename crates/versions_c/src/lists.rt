//! The exports of lists.
ghost use Rattle.std.specs.Prelude.{◌≡◌};
ghost use Rattle.std.specs.declared.cmp.Ordering.TheVariants.{Equal};
ghost use Rattle.total_versions.specs.Calls.{Compares, Concats, Copies, Counts, Forgets, Inserts, MakesEmpty, Pops, PopsHere, Pushes, PushesHere, Reads, Removes, Replaces, ReplacesHere, Slices};
ghost use Rattle.versions_c.specs.Stores.{Calls, Of, OnLists, Shows, Takes};

use crate::answers::written;
use crate::form::{Form, shown, taken};
use crate::handle::Handle;
use crate::value::Value;
use std::alloc::Global;
use total_versions::{Refusal, lists};
use versions::Version;

/// The version without elements.
#[unsafe(no_mangle)]
pub extern "C" fn naipselu_lists_empty(alloc: Global, handle: &mut Handle, made: &mut usize) -> u32
    ensures { Calls (OnLists MakesEmpty) handle.old.value handle.new.value result made.old made.new }
{
    let Some(mut store) = handle.take(alloc) else {
        return Refusal::NoStore.code();
    };
    let answer = lists::empty(&mut store.lists);
    handle.put(alloc, store);
    written(answer, made)
}

/// The same list as another version.
#[unsafe(no_mangle)]
pub extern "C" fn naipselu_lists_copy(
    alloc: Global,
    handle: &mut Handle,
    version: usize,
    made: &mut usize,
) -> u32
    ensures { Calls (OnLists (Copies version)) handle.old.value handle.new.value result made.old made.new }
{
    let Some(mut store) = handle.take(alloc) else {
        return Refusal::NoStore.code();
    };
    let answer = lists::copy(&mut store.lists, Version::from_number(version));
    handle.put(alloc, store);
    written(answer, made)
}

/// The version with the value after its last.
#[unsafe(no_mangle)]
pub extern "C" fn naipselu_lists_push(
    alloc: Global,
    handle: &mut Handle,
    version: usize,
    form: Form,
    text: &[u8],
    made: &mut usize,
) -> u32
    ensures { Calls (OnLists (Takes form text.now (Pushes version))) handle.old.value handle.new.value result made.old made.new }
{
    let Some(mut store) = handle.take(alloc) else {
        return Refusal::NoStore.code();
    };
    let answer = match taken(alloc, form, text) {
        Ok(value) => lists::push(&mut store.lists, Version::from_number(version), value),
        Err(refusal) => Err(refusal),
    };
    handle.put(alloc, store);
    written(answer, made)
}

/// The version with the value at the index.
#[unsafe(no_mangle)]
pub extern "C" fn naipselu_lists_set(
    alloc: Global,
    handle: &mut Handle,
    version: usize,
    index: u32,
    form: Form,
    text: &[u8],
    made: &mut usize,
) -> u32
    ensures { Calls (OnLists (Takes form text.now (Replaces version index))) handle.old.value handle.new.value result made.old made.new }
{
    let Some(mut store) = handle.take(alloc) else {
        return Refusal::NoStore.code();
    };
    let answer = match taken(alloc, form, text) {
        Ok(value) => lists::set(
            &mut store.lists,
            Version::from_number(version),
            index,
            value,
        ),
        Err(refusal) => Err(refusal),
    };
    handle.put(alloc, store);
    written(answer, made)
}

/// The version with the value before the one at the index, or after the last where the index is the length.
#[unsafe(no_mangle)]
pub extern "C" fn naipselu_lists_insert(
    alloc: Global,
    handle: &mut Handle,
    version: usize,
    index: u32,
    form: Form,
    text: &[u8],
    made: &mut usize,
) -> u32
    ensures { Calls (OnLists (Takes form text.now (Inserts version index))) handle.old.value handle.new.value result made.old made.new }
{
    let Some(mut store) = handle.take(alloc) else {
        return Refusal::NoStore.code();
    };
    let answer = match taken(alloc, form, text) {
        Ok(value) => lists::insert(
            &mut store.lists,
            Version::from_number(version),
            index,
            value,
        ),
        Err(refusal) => Err(refusal),
    };
    handle.put(alloc, store);
    written(answer, made)
}

/// The version without the value at the index.
#[unsafe(no_mangle)]
pub extern "C" fn naipselu_lists_remove(
    alloc: Global,
    handle: &mut Handle,
    version: usize,
    index: u32,
    made: &mut usize,
) -> u32
    ensures { Calls (OnLists (Removes version index)) handle.old.value handle.new.value result made.old made.new }
{
    let Some(mut store) = handle.take(alloc) else {
        return Refusal::NoStore.code();
    };
    let answer = lists::remove(&mut store.lists, Version::from_number(version), index);
    handle.put(alloc, store);
    written(answer, made)
}

/// The version without its last value.
#[unsafe(no_mangle)]
pub extern "C" fn naipselu_lists_pop(
    alloc: Global,
    handle: &mut Handle,
    version: usize,
    made: &mut usize,
) -> u32
    ensures { Calls (OnLists (Pops version)) handle.old.value handle.new.value result made.old made.new }
{
    let Some(mut store) = handle.take(alloc) else {
        return Refusal::NoStore.code();
    };
    let answer = lists::pop(&mut store.lists, Version::from_number(version));
    handle.put(alloc, store);
    written(answer, made)
}

/// The values of one version and then those of another.
#[unsafe(no_mangle)]
pub extern "C" fn naipselu_lists_concat(
    alloc: Global,
    handle: &mut Handle,
    left: usize,
    right: usize,
    made: &mut usize,
) -> u32
    ensures { Calls (OnLists (Concats left right)) handle.old.value handle.new.value result made.old made.new }
{
    let Some(mut store) = handle.take(alloc) else {
        return Refusal::NoStore.code();
    };
    let answer = lists::concat(
        &mut store.lists,
        Version::from_number(left),
        Version::from_number(right),
    );
    handle.put(alloc, store);
    written(answer, made)
}

/// The values from the one index to before the other.
#[unsafe(no_mangle)]
pub extern "C" fn naipselu_lists_slice(
    alloc: Global,
    handle: &mut Handle,
    version: usize,
    from: u32,
    to: u32,
    made: &mut usize,
) -> u32
    ensures { Calls (OnLists (Slices version from to)) handle.old.value handle.new.value result made.old made.new }
{
    let Some(mut store) = handle.take(alloc) else {
        return Refusal::NoStore.code();
    };
    let answer = lists::slice(&mut store.lists, Version::from_number(version), from, to);
    handle.put(alloc, store);
    written(answer, made)
}

/// Puts the value after the last of this version itself.
#[unsafe(no_mangle)]
pub extern "C" fn naipselu_lists_push_here(
    alloc: Global,
    handle: &mut Handle,
    version: usize,
    form: Form,
    text: &[u8],
    edited: &mut usize,
) -> u32
    ensures { Calls (OnLists (Takes form text.now (PushesHere version))) handle.old.value handle.new.value result edited.old edited.new }
{
    let Some(mut store) = handle.take(alloc) else {
        return Refusal::NoStore.code();
    };
    let answer = match taken(alloc, form, text) {
        Ok(value) => lists::push_here(&mut store.lists, Version::from_number(version), value),
        Err(refusal) => Err(refusal),
    };
    handle.put(alloc, store);
    written(answer, edited)
}

/// Puts the value at the index of this version itself.
#[unsafe(no_mangle)]
pub extern "C" fn naipselu_lists_set_here(
    alloc: Global,
    handle: &mut Handle,
    version: usize,
    index: u32,
    form: Form,
    text: &[u8],
    edited: &mut usize,
) -> u32
    ensures { Calls (OnLists (Takes form text.now (ReplacesHere version index))) handle.old.value handle.new.value result edited.old edited.new }
{
    let Some(mut store) = handle.take(alloc) else {
        return Refusal::NoStore.code();
    };
    let answer = match taken(alloc, form, text) {
        Ok(value) => lists::set_here(
            &mut store.lists,
            Version::from_number(version),
            index,
            value,
        ),
        Err(refusal) => Err(refusal),
    };
    handle.put(alloc, store);
    written(answer, edited)
}

/// Takes the last value off this version itself.
#[unsafe(no_mangle)]
pub extern "C" fn naipselu_lists_pop_here(
    alloc: Global,
    handle: &mut Handle,
    version: usize,
    edited: &mut usize,
) -> u32
    ensures { Calls (OnLists (PopsHere version)) handle.old.value handle.new.value result edited.old edited.new }
{
    let Some(mut store) = handle.take(alloc) else {
        return Refusal::NoStore.code();
    };
    let answer = lists::pop_here(&mut store.lists, Version::from_number(version));
    handle.put(alloc, store);
    written(answer, edited)
}

/// Forgets the version. What no other version shares is freed.
#[unsafe(no_mangle)]
pub extern "C" fn naipselu_lists_forget(
    alloc: Global,
    handle: &mut Handle,
    version: usize,
    forgotten: &mut usize,
) -> u32
    ensures { Calls (OnLists (Forgets version)) handle.old.value handle.new.value result forgotten.old forgotten.new }
{
    let Some(mut store) = handle.take(alloc) else {
        return Refusal::NoStore.code();
    };
    let answer = lists::forget(&mut store.lists, Version::from_number(version));
    handle.put(alloc, store);
    written(answer, forgotten)
}

/// How many values the version has.
#[unsafe(no_mangle)]
pub extern "C" fn naipselu_lists_len(
    alloc: Global,
    handle: &mut Handle,
    version: usize,
    len: &mut usize,
) -> u32
    ensures { Calls (OnLists (Of (Counts version))) handle.old.value handle.new.value result len.old len.new }
{
    let Some(store) = handle.take(alloc) else {
        return Refusal::NoStore.code();
    };
    let answer = lists::len(&store.lists, Version::from_number(version));
    handle.put(alloc, store);
    written(answer, len)
}

/// The value at the index.
#[unsafe(no_mangle)]
pub extern "C" fn naipselu_lists_get(
    alloc: Global,
    handle: &mut Handle,
    version: usize,
    index: u32,
    shown_form: &mut Form,
    room: &mut [u8],
) -> u32
    ensures { Shows (OnLists (Of (Reads version index))) handle.old.value handle.new.value result (shown_form.old, room.old) (shown_form.new, room.new) }
{
    let Some(store) = handle.take(alloc) else {
        return Refusal::NoStore.code();
    };
    let answer = lists::get(&store.lists, Version::from_number(version), index);
    let code = shown(answer, shown_form, room);
    handle.put(alloc, store);
    code
}

/// Whether two versions have equal values at each place, and as many.
#[unsafe(no_mangle)]
pub extern "C" fn naipselu_lists_same(
    alloc: Global,
    handle: &mut Handle,
    left: usize,
    right: usize,
    same: &mut bool,
) -> u32
    ensures { Calls (OnLists (Of (Compares (λ x y. ⟦<Value as Ord>⟧.cmp x y ≡ Equal) left right))) handle.old.value handle.new.value result same.old same.new }
{
    let Some(store) = handle.take(alloc) else {
        return Refusal::NoStore.code();
    };
    let answer = lists::same(
        &store.lists,
        Version::from_number(left),
        Version::from_number(right),
    );
    handle.put(alloc, store);
    written(answer, same)
}
