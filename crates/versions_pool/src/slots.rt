//! The numbers of versions and their roots, as a store keeps them and as a document does.
ghost use Rattle.std.specs.Prelude.{◌≡◌, ℕ, ◌+◌, ◌≤◌, ◌<◌, true, length, map, IfOk, IsSome};
ghost use Rattle.std.specs.List.{All, zip};
ghost use Rattle.std.specs.FinMap.{find};
ghost use Rattle.std.specs.Ordering.{nat_cmp};
ghost use Rattle.slab.specs.Slab.{entries, get, Updates};
ghost use Rattle.versions_pool.specs.Saved.{rise};
ghost use Rattle.versions_pool.specs.Slots.{AreNamed, AreFull, IsAt};

use elem_core::NoMemory;
use node_heap::Link;
use slab::Slab;
use std::alloc::Global;

// The numbers of the versions, rising.
pub(crate) fn names_of(alloc: Global, slots: &Slab<Link>) -> Result<Vec<u64>, NoMemory>
    ensures { IfOk result (λ ns. ns.items ≡ map (λ (e : ℕ × ℕ). e.0) (entries slots.now)) }
{
    let mut names = Vec::with_capacity(alloc, slots.len())?;
    for (name, _) in slots.iter() {
        names.push(name as u64)?;
    }
    Ok(names)
}

// Their roots, in the same order.
pub(crate) fn roots_of(alloc: Global, slots: &Slab<Link>) -> Result<Vec<Link>, NoMemory>
    ensures { IfOk result (λ ls. ls.items ≡ map (λ (e : ℕ × ℕ). e.1) (entries slots.now)) }
{
    let mut roots = Vec::with_capacity(alloc, slots.len())?;
    for (_, root) in slots.iter() {
        roots.push(*root)?;
    }
    Ok(roots)
}

// Slots with these roots at these numbers, and nothing at any other. It takes memory for all numbers up to the last.
pub(crate) fn slots_of(alloc: Global, names: &[u64], roots: &[Link]) -> Result<Slab<Link>, NoMemory>
    requires rise { rise names.now ≡ true }
    requires many { length names.now ≡ length roots.now }
    ensures { IfOk result (λ slots. AreNamed names.now roots.now slots.slots) }
{
    let (Some(last), Some(root)) = (names.last(), roots.last()) else {
        return Ok(Slab::new(alloc));
    };
    let count = (*last as usize).checked_add(1).ok_or(NoMemory)?;
    let mut slots = full_slots(alloc, count, *root)?;
    place_roots(&mut slots, names, roots);
    Ok(slots)
}

// So many slots or more, all of them with this root: a slab gives a number that it is told only where that was given back last.
fn full_slots(alloc: Global, count: usize, root: Link) -> Result<Slab<Link>, NoMemory>
    ensures full { IfOk result (λ slots. AreFull slots.capacity slots.slots) }
    ensures many { IfOk result (λ slots. count ≤ slots.capacity) }
{
    let mut slots = Slab::with_capacity(alloc, count)?;
    let all = slots.capacity();
    for _number in 0..all {
        slots.insert_reserved(root);
    }
    Ok(slots)
}

// Leaves in slots that are full these roots at these numbers, and nothing at any other.
fn place_roots(slots: &mut Slab<Link>, names: &[u64], roots: &[Link])
    requires full { AreFull slots.old.capacity slots.old.slots }
    requires rise { rise names.now ≡ true }
    requires many { length names.now ≡ length roots.now }
    requires inside { All (λ n. n < slots.old.capacity) names.now }
    ensures { AreNamed names.now roots.now slots.new.slots }
{
    let mut next = 0;
    for number in 0..slots.capacity() {
        let root = root_at(names, roots, &mut next, number);
        place_root(slots, number, root);
    }
}

// The root that is to stand at the number. Of the names the first `next` are less, and then those that are no greater.
fn root_at(names: &[u64], roots: &[Link], next: &mut usize, number: usize) -> Option<Link>
    requires many { length names.now ≡ length roots.now }
    requires at { IsAt names.now roots.now number next.old }
    ensures root { result ≡ find nat_cmp number (zip names.now roots.now) }
    ensures at { IsAt names.now roots.now (number + 1) next.new }
{
    if *names.get(*next)? != number as u64 {
        return None;
    }
    let root = roots[*next];
    *next += 1;
    Some(root)
}

// Puts a root, or nothing, in place of the root at the number.
fn place_root(slots: &mut Slab<Link>, number: usize, root: Option<Link>)
    requires { IsSome (get slots.old number) }
    ensures updates { Updates slots.old slots.new number root }
    ensures capacity { slots.new.capacity ≡ slots.old.capacity }
{
    slots.remove(number);
    if let Some(root) = root {
        slots.insert_reserved(root);
    }
}
