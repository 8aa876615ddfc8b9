//! The calls of maps.
ghost use Rattle.versions.specs.Sorted.{IsEqualEntry};
ghost use Rattle.total_versions.specs.Answers.{lent};
ghost use Rattle.total_versions.specs.Calls.{Compares, Copies, Counts, Finds, Forgets, IntersectsMaps, MakesEmpty, Puts, PutsHere, RemovesEntry, RemovesEntryHere, SubtractsMaps, UnitesMaps};

use crate::answers::{Refusal, told_memory, told_memory_here};
use elem_core::{Element, Probe};
use versions::{Maps, Version};

/// The version without keys.
pub fn empty<K: Element, V: Ord + Drop>(maps: &mut Maps<K, V>) -> Result<usize, Refusal>
    ensures { MakesEmpty maps.old maps.new result }
{
    told_memory(maps.empty())
}

/// The same map as another version.
pub fn copy<K: Element, V: Ord + Drop>(
    maps: &mut Maps<K, V>,
    version: Version,
) -> Result<usize, Refusal>
    ensures { Copies version maps.old maps.new result }
{
    if !maps.holds(version) {
        return Err(Refusal::NoVersion);
    }
    told_memory(maps.copy(version))
}

/// The version with the value at the key; an equal key that is there stays.
pub fn insert<K: Element, V: Ord + Drop>(
    maps: &mut Maps<K, V>,
    version: Version,
    key: K,
    value: V,
) -> Result<usize, Refusal>
    ensures { Puts K.cmp version key value maps.old maps.new result }
{
    if !maps.holds(version) {
        return Err(Refusal::NoVersion);
    }
    told_memory(maps.insert(version, key, value))
}

/// The version without the key.
pub fn remove<K: Element, V: Ord + Drop, P: Probe<K>>(
    maps: &mut Maps<K, V>,
    version: Version,
    key: &P,
) -> Result<usize, Refusal>
    ensures { RemovesEntry K.cmp version (P.stands_for key.now) maps.old maps.new result }
{
    if !maps.holds(version) {
        return Err(Refusal::NoVersion);
    }
    told_memory(maps.remove(version, key))
}

/// The entries of either version, of two with equal keys the first's.
pub fn union<K: Element, V: Ord + Drop>(
    maps: &mut Maps<K, V>,
    first: Version,
    second: Version,
) -> Result<usize, Refusal>
    ensures { UnitesMaps K.cmp first second maps.old maps.new result }
{
    if !maps.holds(first) {
        return Err(Refusal::NoVersion);
    }
    if !maps.holds(second) {
        return Err(Refusal::NoVersion);
    }
    told_memory(maps.union(first, second))
}

/// The first version's entries whose keys the second has too.
pub fn both<K: Element, V: Ord + Drop>(
    maps: &mut Maps<K, V>,
    first: Version,
    second: Version,
) -> Result<usize, Refusal>
    ensures { IntersectsMaps K.cmp first second maps.old maps.new result }
{
    if !maps.holds(first) {
        return Err(Refusal::NoVersion);
    }
    if !maps.holds(second) {
        return Err(Refusal::NoVersion);
    }
    told_memory(maps.both(first, second))
}

/// The first version's entries whose keys the second lacks.
pub fn less<K: Element, V: Ord + Drop>(
    maps: &mut Maps<K, V>,
    first: Version,
    second: Version,
) -> Result<usize, Refusal>
    ensures { SubtractsMaps K.cmp first second maps.old maps.new result }
{
    if !maps.holds(first) {
        return Err(Refusal::NoVersion);
    }
    if !maps.holds(second) {
        return Err(Refusal::NoVersion);
    }
    told_memory(maps.less(first, second))
}

/// Puts the value at the key of this version itself; an equal key that is there stays.
pub fn insert_here<K: Element, V: Ord + Drop>(
    maps: &mut Maps<K, V>,
    version: Version,
    key: K,
    value: V,
) -> Result<usize, Refusal>
    ensures { PutsHere K.cmp version key value maps.old maps.new result }
{
    if !maps.holds(version) {
        return Err(Refusal::NoVersion);
    }
    told_memory_here(version, maps.insert_here(version, key, value))
}

/// Takes the key out of this version itself.
pub fn remove_here<K: Element, V: Ord + Drop, P: Probe<K>>(
    maps: &mut Maps<K, V>,
    version: Version,
    key: &P,
) -> Result<usize, Refusal>
    ensures { RemovesEntryHere K.cmp version (P.stands_for key.now) maps.old maps.new result }
{
    if !maps.holds(version) {
        return Err(Refusal::NoVersion);
    }
    told_memory_here(version, maps.remove_here(version, key))
}

/// Forgets the version. What no other version shares is freed.
pub fn forget<K: Element, V: Ord + Drop>(
    maps: &mut Maps<K, V>,
    version: Version,
) -> Result<usize, Refusal>
    ensures { Forgets version maps.old maps.new result }
{
    if !maps.holds(version) {
        return Err(Refusal::NoVersion);
    }
    maps.forget(version);
    Ok(version.number())
}

/// How many keys the version has.
pub fn len<K: Element, V: Ord + Drop>(maps: &Maps<K, V>, version: Version) -> Result<usize, Refusal>
    ensures { Counts version maps.now result }
{
    if !maps.holds(version) {
        return Err(Refusal::NoVersion);
    }
    Ok(maps.len(version))
}

/// The value at the key.
pub fn get<'s, K: Element, V: Ord + Drop, P: Probe<K>>(
    maps: &'s Maps<K, V>,
    version: Version,
    key: &P,
) -> Result<&'s V, Refusal>
    ensures { Finds K.cmp version (P.stands_for key.now) maps.now (lent result) }
{
    if !maps.holds(version) {
        return Err(Refusal::NoVersion);
    }
    match maps.get(version, key) {
        Some(value) => Ok(value),
        None => Err(Refusal::Range),
    }
}

/// Whether two versions have equal keys with equal values.
pub fn same<K: Element, V: Ord + Drop>(
    maps: &Maps<K, V>,
    left: Version,
    right: Version,
) -> Result<bool, Refusal>
    ensures { Compares (IsEqualEntry K.cmp V.cmp) left right maps.now result }
{
    if !maps.holds(left) {
        return Err(Refusal::NoVersion);
    }
    if !maps.holds(right) {
        return Err(Refusal::NoVersion);
    }
    Ok(maps.same(left, right))
}
