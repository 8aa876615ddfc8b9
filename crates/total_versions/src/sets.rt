//! The calls of sets.
ghost use Rattle.std.specs.Prelude.{◌≡◌};
ghost use Rattle.std.specs.declared.cmp.Ordering.TheVariants.{Equal};
ghost use Rattle.total_versions.specs.Calls.{Compares, Copies, Counts, Forgets, HasKey, InsertsKey, InsertsKeyHere, Intersects, MakesEmpty, RemovesKey, RemovesKeyHere, Subtracts, Unites};

use crate::answers::{Refusal, told_memory, told_memory_here};
use elem_core::{Element, Probe};
use versions::{Sets, Version};

/// The version without keys.
pub fn empty<K: Element>(sets: &mut Sets<K>) -> Result<usize, Refusal>
    ensures { MakesEmpty sets.old sets.new result }
{
    told_memory(sets.empty())
}

/// The same set as another version.
pub fn copy<K: Element>(sets: &mut Sets<K>, version: Version) -> Result<usize, Refusal>
    ensures { Copies version sets.old sets.new result }
{
    if !sets.holds(version) {
        return Err(Refusal::NoVersion);
    }
    told_memory(sets.copy(version))
}

/// The version with the key; an equal key that is there stays.
pub fn insert<K: Element>(sets: &mut Sets<K>, version: Version, key: K) -> Result<usize, Refusal>
    ensures { InsertsKey K.cmp version key sets.old sets.new result }
{
    if !sets.holds(version) {
        return Err(Refusal::NoVersion);
    }
    told_memory(sets.insert(version, key))
}

/// The version without the key.
pub fn remove<K: Element, P: Probe<K>>(
    sets: &mut Sets<K>,
    version: Version,
    key: &P,
) -> Result<usize, Refusal>
    ensures { RemovesKey K.cmp version (P.stands_for key.now) sets.old sets.new result }
{
    if !sets.holds(version) {
        return Err(Refusal::NoVersion);
    }
    told_memory(sets.remove(version, key))
}

/// The keys of either version, of two equal ones the first's.
pub fn union<K: Element>(
    sets: &mut Sets<K>,
    first: Version,
    second: Version,
) -> Result<usize, Refusal>
    ensures { Unites K.cmp first second sets.old sets.new result }
{
    if !sets.holds(first) {
        return Err(Refusal::NoVersion);
    }
    if !sets.holds(second) {
        return Err(Refusal::NoVersion);
    }
    told_memory(sets.union(first, second))
}

/// The first version's keys that the second has too.
pub fn both<K: Element>(
    sets: &mut Sets<K>,
    first: Version,
    second: Version,
) -> Result<usize, Refusal>
    ensures { Intersects K.cmp first second sets.old sets.new result }
{
    if !sets.holds(first) {
        return Err(Refusal::NoVersion);
    }
    if !sets.holds(second) {
        return Err(Refusal::NoVersion);
    }
    told_memory(sets.both(first, second))
}

/// The first version's keys that the second lacks.
pub fn less<K: Element>(
    sets: &mut Sets<K>,
    first: Version,
    second: Version,
) -> Result<usize, Refusal>
    ensures { Subtracts K.cmp first second sets.old sets.new result }
{
    if !sets.holds(first) {
        return Err(Refusal::NoVersion);
    }
    if !sets.holds(second) {
        return Err(Refusal::NoVersion);
    }
    told_memory(sets.less(first, second))
}

/// Puts the key into this version itself; an equal key that is there stays.
pub fn insert_here<K: Element>(
    sets: &mut Sets<K>,
    version: Version,
    key: K,
) -> Result<usize, Refusal>
    ensures { InsertsKeyHere K.cmp version key sets.old sets.new result }
{
    if !sets.holds(version) {
        return Err(Refusal::NoVersion);
    }
    told_memory_here(version, sets.insert_here(version, key))
}

/// Takes the key out of this version itself.
pub fn remove_here<K: Element, P: Probe<K>>(
    sets: &mut Sets<K>,
    version: Version,
    key: &P,
) -> Result<usize, Refusal>
    ensures { RemovesKeyHere K.cmp version (P.stands_for key.now) sets.old sets.new result }
{
    if !sets.holds(version) {
        return Err(Refusal::NoVersion);
    }
    told_memory_here(version, sets.remove_here(version, key))
}

/// Forgets the version. What no other version shares is freed.
pub fn forget<K: Element>(sets: &mut Sets<K>, version: Version) -> Result<usize, Refusal>
    ensures { Forgets version sets.old sets.new result }
{
    if !sets.holds(version) {
        return Err(Refusal::NoVersion);
    }
    sets.forget(version);
    Ok(version.number())
}

/// How many keys the version has.
pub fn len<K: Element>(sets: &Sets<K>, version: Version) -> Result<usize, Refusal>
    ensures { Counts version sets.now result }
{
    if !sets.holds(version) {
        return Err(Refusal::NoVersion);
    }
    Ok(sets.len(version))
}

/// Whether the version has the key.
pub fn contains<K: Element, P: Probe<K>>(
    sets: &Sets<K>,
    version: Version,
    key: &P,
) -> Result<bool, Refusal>
    ensures { HasKey K.cmp version (P.stands_for key.now) sets.now result }
{
    if !sets.holds(version) {
        return Err(Refusal::NoVersion);
    }
    Ok(sets.contains(version, key))
}

/// Whether two versions have equal keys.
pub fn same<K: Element>(sets: &Sets<K>, left: Version, right: Version) -> Result<bool, Refusal>
    ensures { Compares (λ x y. K.cmp x y ≡ Equal) left right sets.now result }
{
    if !sets.holds(left) {
        return Err(Refusal::NoVersion);
    }
    if !sets.holds(right) {
        return Err(Refusal::NoVersion);
    }
    Ok(sets.same(left, right))
}
