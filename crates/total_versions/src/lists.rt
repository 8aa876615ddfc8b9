//! The calls of lists.
ghost use Rattle.std.specs.Prelude.{◌≡◌};
ghost use Rattle.std.specs.declared.cmp.Ordering.TheVariants.{Equal};
ghost use Rattle.total_versions.specs.Answers.{lent};
ghost use Rattle.total_versions.specs.Calls.{Compares, Concats, Copies, Counts, Forgets, Inserts, MakesEmpty, Pops, PopsHere, Pushes, PushesHere, Reads, Removes, Replaces, ReplacesHere, Slices};

use crate::answers::{Refusal, told, told_back, told_back_here, told_here, told_memory};
use elem_core::Element;
use versions::{Lists, Version};

/// The version without elements.
pub fn empty<T: Element>(lists: &mut Lists<T>) -> Result<usize, Refusal>
    ensures { MakesEmpty lists.old lists.new result }
{
    told_memory(lists.empty())
}

/// The same list as another version.
pub fn copy<T: Element>(lists: &mut Lists<T>, version: Version) -> Result<usize, Refusal>
    ensures { Copies version lists.old lists.new result }
{
    if !lists.holds(version) {
        return Err(Refusal::NoVersion);
    }
    told_memory(lists.copy(version))
}

/// The version with the element after its last.
pub fn push<T: Element>(
    lists: &mut Lists<T>,
    version: Version,
    element: T,
) -> Result<usize, Refusal>
    ensures { Pushes version element lists.old lists.new result }
{
    if !lists.holds(version) {
        return Err(Refusal::NoVersion);
    }
    told_back(lists.push(version, element))
}

/// The version with the element at the index.
pub fn set<T: Element>(
    lists: &mut Lists<T>,
    version: Version,
    index: u32,
    element: T,
) -> Result<usize, Refusal>
    ensures { Replaces version index element lists.old lists.new result }
{
    if !lists.holds(version) {
        return Err(Refusal::NoVersion);
    }
    told_back(lists.set(version, index, element))
}

/// The version with the element before the one at the index, or after the last where the index is the length.
pub fn insert<T: Element>(
    lists: &mut Lists<T>,
    version: Version,
    index: u32,
    element: T,
) -> Result<usize, Refusal>
    ensures { Inserts version index element lists.old lists.new result }
{
    if !lists.holds(version) {
        return Err(Refusal::NoVersion);
    }
    told_back(lists.insert(version, index, element))
}

/// The version without the element at the index.
pub fn remove<T: Element>(
    lists: &mut Lists<T>,
    version: Version,
    index: u32,
) -> Result<usize, Refusal>
    ensures { Removes version index lists.old lists.new result }
{
    if !lists.holds(version) {
        return Err(Refusal::NoVersion);
    }
    told(lists.remove(version, index))
}

/// The version without its last element.
pub fn pop<T: Element>(lists: &mut Lists<T>, version: Version) -> Result<usize, Refusal>
    ensures { Pops version lists.old lists.new result }
{
    if !lists.holds(version) {
        return Err(Refusal::NoVersion);
    }
    told(lists.pop(version))
}

/// The elements from the one index to before the other.
pub fn slice<T: Element>(
    lists: &mut Lists<T>,
    version: Version,
    from: u32,
    to: u32,
) -> Result<usize, Refusal>
    ensures { Slices version from to lists.old lists.new result }
{
    if !lists.holds(version) {
        return Err(Refusal::NoVersion);
    }
    told(lists.slice(version, from, to))
}

/// The elements of one version and then those of another.
pub fn concat<T: Element>(
    lists: &mut Lists<T>,
    left: Version,
    right: Version,
) -> Result<usize, Refusal>
    ensures { Concats left right lists.old lists.new result }
{
    if !lists.holds(left) {
        return Err(Refusal::NoVersion);
    }
    if !lists.holds(right) {
        return Err(Refusal::NoVersion);
    }
    told(lists.concat(left, right))
}

/// Puts the element after the last of this version itself.
pub fn push_here<T: Element>(
    lists: &mut Lists<T>,
    version: Version,
    element: T,
) -> Result<usize, Refusal>
    ensures { PushesHere version element lists.old lists.new result }
{
    if !lists.holds(version) {
        return Err(Refusal::NoVersion);
    }
    told_back_here(version, lists.push_here(version, element))
}

/// Puts the element at the index of this version itself.
pub fn set_here<T: Element>(
    lists: &mut Lists<T>,
    version: Version,
    index: u32,
    element: T,
) -> Result<usize, Refusal>
    ensures { ReplacesHere version index element lists.old lists.new result }
{
    if !lists.holds(version) {
        return Err(Refusal::NoVersion);
    }
    told_back_here(version, lists.set_here(version, index, element))
}

/// Takes the last element off this version itself.
pub fn pop_here<T: Element>(lists: &mut Lists<T>, version: Version) -> Result<usize, Refusal>
    ensures { PopsHere version lists.old lists.new result }
{
    if !lists.holds(version) {
        return Err(Refusal::NoVersion);
    }
    told_here(version, lists.pop_here(version))
}

/// Forgets the version. What no other version shares is freed.
pub fn forget<T: Element>(lists: &mut Lists<T>, version: Version) -> Result<usize, Refusal>
    ensures { Forgets version lists.old lists.new result }
{
    if !lists.holds(version) {
        return Err(Refusal::NoVersion);
    }
    lists.forget(version);
    Ok(version.number())
}

/// How many elements the version has.
pub fn len<T: Element>(lists: &Lists<T>, version: Version) -> Result<usize, Refusal>
    ensures { Counts version lists.now result }
{
    if !lists.holds(version) {
        return Err(Refusal::NoVersion);
    }
    Ok(lists.len(version) as usize)
}

/// The element at the index.
pub fn get<'s, T: Element>(
    lists: &'s Lists<T>,
    version: Version,
    index: u32,
) -> Result<&'s T, Refusal>
    ensures { Reads version index lists.now (lent result) }
{
    if !lists.holds(version) {
        return Err(Refusal::NoVersion);
    }
    match lists.get(version, index) {
        Some(element) => Ok(element),
        None => Err(Refusal::Range),
    }
}

/// Whether two versions have as many elements, and equal ones at each place.
pub fn same<T: Element>(lists: &Lists<T>, left: Version, right: Version) -> Result<bool, Refusal>
    ensures { Compares (λ x y. T.cmp x y ≡ Equal) left right lists.now result }
{
    if !lists.holds(left) {
        return Err(Refusal::NoVersion);
    }
    if !lists.holds(right) {
        return Err(Refusal::NoVersion);
    }
    Ok(lists.same(left, right))
}
