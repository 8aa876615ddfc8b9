//! The roots of the versions of a store, by their numbers.
ghost use Rattle.std.specs.Prelude.{◌≡◌, ◌↔◌, ◌<◌, ◌≤◌, ◌^◌, ℕ, Some, IsSome, OnOk, IsTrue, map};
ghost use Rattle.std.specs.Iterator.{YieldsFirst, item_count};
ghost use Rattle.node_heap.specs.Heap.{hold_count, quarter_holds};
ghost use Rattle.slab.specs.Slab.{get, entries, slab_len, HasRoomFor};
ghost use Rattle.versions.specs.Roots.{HoldsRoots, HasRoom, KeepsRoots, AddsRoot, PutsRoot, ForgetsRoot};

use elem_core::NoMemory;
use node_heap::{Heap, Link};
use slab::{Iter, Slab};
use std::marker::Model;

/// Names a version in the store that made it, and means nothing in another store. The number of a version that was forgotten
/// may be given again.
#[derive(Clone, Copy, Debug, PartialEq, Eq)]
pub struct Version {
    number: usize,
}

impl Model for Version {
    ghost use Rattle.std.specs.Prelude.{ℕ};

    ghost Value = { ℕ };

    ghost view = { λ v. v.number };

    ghost inverse = { λ n. record { number = n } };
}

impl Version {
    /// The version with this number, as a program keeps one elsewhere. Whether a store holds it is for the store to say.
    pub fn from_number(number: usize) -> Version
        ensures { result ≡ number }
    {
        Version { number }
    }

    /// The number of the version.
    pub fn number(self) -> usize
        ensures { result ≡ self }
    {
        self.number
    }
}

/// Goes over the versions of a store, by rising number. It takes no memory.
#[derive(Drop)]
pub struct Handles<'s> {
    slots: Iter<'s, Link>,
}

impl<'s> Model for Handles<'s> {
    ghost use Rattle.std.specs.Prelude.{ℕ, List, map};

    ghost Value = { List ℕ };

    ghost view = { λ h. map (λ e. e.0) h.slots };
}

impl<'s> Iterator for Handles<'s> {
    type Item = Version;

    ghost next_gives = { YieldsFirst (λ rest. rest) };

    ghost remaining = { item_count (λ rest. rest) };

    fn next(&mut self) -> Option<Version> {
        let (number, _) = self.slots.next()?;
        Some(Version { number })
    }
}

/// The most versions of a store. More roots take more bytes than any machine has.
pub const MOST_VERSIONS: usize = 1 << 50;

// The root of a version that is held.
pub(crate) fn root_of(roots: &Slab<Link>, version: Version) -> Link
    requires { IsSome (get roots.now version) }
    ensures { get roots.now version ≡ Some result }
{
    match roots.get(version.number) {
        Some(root) => *root,
        None => unreachable!(),
    }
}

// Makes room for one root, and for so many cells and nodes.
pub(crate) fn reserve<T>(
    heap: &mut Heap<T>,
    roots: &mut Slab<Link>,
    cells: usize,
    nodes: usize,
) -> Result<(), NoMemory>
    requires { HoldsRoots heap.old roots.old.slots }
    ensures room { OnOk result (HasRoom heap.new roots.new cells nodes) }
    ensures keeps { KeepsRoots heap.old heap.new roots.old.slots roots.new.slots }
    ensures few { OnOk result (hold_count heap.new < quarter_holds) }
{
    if roots.len() >= MOST_VERSIONS {
        return Err(NoMemory);
    }
    roots.reserve(1)?;
    heap.reserve(cells, nodes)
}

// Gives a root that was made the next number.
pub(crate) fn keep(roots: &mut Slab<Link>, root: Link) -> Version
    requires room { HasRoomFor roots.old 1 }
    requires few { slab_len roots.old < 2 ^ 50 }
    ensures { AddsRoot roots.old.slots roots.new.slots result root }
{
    let number = roots.insert_reserved(root);
    Version { number }
}

// Puts another root in place of the version's.
pub(crate) fn put(roots: &mut Slab<Link>, version: Version, root: Link)
    requires held { IsSome (get roots.old version) }
    requires few { slab_len roots.old ≤ 2 ^ 50 }
    ensures { PutsRoot roots.old.slots roots.new.slots version root }
{
    roots.remove(version.number);
    // The number that was given back last is the next.
    roots.insert_reserved(root);
}

// Takes a version's root out and gives up its hold.
pub(crate) fn forget<T: Drop>(heap: &mut Heap<T>, roots: &mut Slab<Link>, version: Version)
    requires holds { HoldsRoots heap.old roots.old.slots }
    requires held { IsSome (get roots.old version) }
    ensures { ForgetsRoot heap.old heap.new roots.old.slots roots.new.slots version }
{
    let root = roots.remove(version.number);
    heap.release(root);
}

// Whether the version has a root.
pub(crate) fn is_kept(roots: &Slab<Link>, version: Version) -> bool
    ensures { IsTrue result ↔ IsSome (get roots.now version) }
{
    roots.contains(version.number)
}

// The versions that have a root.
pub(crate) fn versions_of(roots: &Slab<Link>) -> Handles<'_>
    ensures { result ≡ map (λ (e : ℕ × ℕ). e.0) (entries roots.now) }
{
    Handles {
        slots: roots.iter(),
    }
}
