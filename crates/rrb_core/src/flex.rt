//! Vectors by their roots, and their look-ups.
ghost use Rattle.std.specs.Prelude.{◌≡◌, ◌↔◌, ℕ, ◌+◌, ◌-◌, ◌^◌, ◌<◌, ◌≤◌, [], ◌∷◌, length, IfOk, IsOk, OnErr, IfSome, IsSome, IsTrue};
ghost use Rattle.std.specs.List.{All, slice_get};
ghost use Rattle.node_heap.specs.Heap.{row_at, holds_at, hold_count, node_count, one_at, IsGraph, HasSpares, half_holds};
ghost use Rattle.node_heap.specs.Calls.{Answered, Makes, Builds, KeepsHeld, MakesJust, Releases, KeepsToNeed};
ghost use Rattle.rrb_core.specs.Vector.{elements, height_at, IsGoodVector, IsSameVector, IsVectorOf};
ghost use Rattle.rrb_core.specs.Build.{Shares};

use crate::rows::{height_of, leaf_over, size, size_before_last};
use crate::search::element_at;
use elem_core::NoMemory;
use node_heap::{Heap, Link, MOST_HEIGHT};
use std::marker::Model;

/// A vector that owns one hold of its root. It is given up by `release`, and cannot be dropped or copied.
pub struct Flex {
    root: Link,
}

impl Model for Flex {
    ghost use Rattle.std.specs.Prelude.{ℕ};

    ghost Value = { ℕ };

    ghost view = { λ v. v.root };
}

/// Names a vector by its root, without a hold.
#[derive(Clone, Copy)]
pub struct FlexRef {
    root: Link,
}

impl Model for FlexRef {
    ghost use Rattle.std.specs.Prelude.{ℕ};

    ghost Value = { ℕ };

    ghost view = { λ v. v.root };

    ghost inverse = { λ n. record { root = n } };
}

impl Flex {
    /// The empty vector. It makes one node. Refused only where memory runs out. A refusal leaves the heap as it was.
    pub fn empty<T>(heap: &mut Heap<T>) -> Result<Flex, NoMemory>
        requires { hold_count heap.old < half_holds }
        ensures items { IfOk result (λ v. elements heap.new v ≡ []) }
        ensures good { IfOk result (λ v. IsGoodVector heap.new v) }
        ensures answered { IfOk result (λ v. Answered heap.old heap.new [] v 0 1) }
        ensures one { IfOk result (λ _. node_count heap.new ≡ node_count heap.old + 1) }
        ensures made { IfOk result (λ _. MakesJust heap.old heap.new) }
        ensures spares { IfOk result (λ _. KeepsToNeed heap.old heap.new 0 1) }
        ensures vectors { (l : ℕ) → IsSameVector heap.old heap.new l }
        ensures refused { OnErr result (heap.new ≡ heap.old) }
        ensures ample { HasSpares heap.old 0 1 → IsOk result }
    {
        heap.reserve(0, 1)?;
        let root = empty_root(heap);
        Ok(Flex { root })
    }

    /// The same vector once more: one more hold of its root.
    pub fn share<T>(&self, heap: &mut Heap<T>) -> Flex
        requires good { IsGoodVector heap.old self.now }
        requires few { hold_count heap.old < half_holds }
        ensures same { result ≡ self.now }
        ensures shares { Shares heap.old heap.new result }
        ensures good { IsGoodVector heap.new result }
        ensures items { elements heap.new result ≡ elements heap.old self.now }
        ensures vectors { (l : ℕ) → IsSameVector heap.old heap.new l }
    {
        self.view().share(heap)
    }

    /// Gives the vector up: rows that nothing else keeps are freed.
    pub fn release<T: Drop>(self, heap: &mut Heap<T>)
        requires { 0 < holds_at heap.old self }
        ensures releases { Releases heap.old heap.new self }
        ensures graph { IsGraph heap.new }
        ensures keeps { KeepsHeld (one_at self) heap.old heap.new }
        ensures vectors { (l : ℕ) → one_at self l < holds_at heap.old l → IsSameVector heap.old heap.new l }
    {
        let Flex { root } = self;
        heap.release(root);
    }

    /// The vector without a hold.
    pub fn view(&self) -> FlexRef
        ensures { result ≡ self.now }
    {
        FlexRef { root: self.root }
    }

    /// The vector with this root, a held root of a good vector. It takes over one hold.
    pub fn from_root(root: Link) -> Flex
        ensures { result ≡ root }
    {
        Flex { root }
    }

    /// The root of the vector, with its hold.
    pub fn into_root(self) -> Link
        ensures { result ≡ self }
    {
        let Flex { root } = self;
        root
    }
}

impl FlexRef {
    /// The vector with this root, the root of a good vector.
    pub fn at(root: Link) -> FlexRef
        ensures { result ≡ root }
    {
        FlexRef { root }
    }

    /// The root of the vector.
    pub fn root(&self) -> Link
        ensures { result ≡ self.now }
    {
        self.root
    }

    /// The same vector with a hold of its own: one more hold of its root.
    pub fn share<T>(&self, heap: &mut Heap<T>) -> Flex
        requires good { IsGoodVector heap.old self.now }
        requires few { hold_count heap.old < half_holds }
        ensures same { result ≡ self.now }
        ensures shares { Shares heap.old heap.new result }
        ensures vectors { (l : ℕ) → IsSameVector heap.old heap.new l }
    {
        heap.hold(self.root);
        Flex { root: self.root }
    }

    /// The number of elements, which are all live.
    pub fn len<T>(&self, heap: &Heap<T>) -> u32
        requires { IsGoodVector heap.now self.now }
        ensures value { result ≡ length (elements heap.now self.now) }
        ensures live { All (λ element. IsSome (row_at heap.now element)) (elements heap.now self.now) }
        ensures graph { IsGraph heap.now }
    {
        size(heap, self.root, height_of(heap, self.root))
    }

    /// Whether it has no element.
    pub fn is_empty<T>(&self, heap: &Heap<T>) -> bool
        requires { IsGoodVector heap.now self.now }
        ensures { IsTrue result ↔ (elements heap.now self.now ≡ []) }
    {
        // A root above the leaves has elements below it.
        if self.height(heap) > 0 {
            return false;
        }
        self.len(heap) == 0
    }

    /// Whether `index` is the length or past it. Mostly the root tells, without a look at the rows below it.
    pub fn is_past<T>(&self, heap: &Heap<T>, index: u32) -> bool
        requires { IsGoodVector heap.now self.now }
        ensures { IsTrue result ↔ (length (elements heap.now self.now) ≤ index) }
    {
        if u64::from(index) < size_before_last(heap, self.root, self.height(heap)) {
            return false;
        }
        index >= self.len(heap)
    }

    /// Whether it has 2^32 - 1 elements, which is the most.
    pub fn is_longest<T>(&self, heap: &Heap<T>) -> bool
        requires { IsGoodVector heap.now self.now }
        ensures { IsTrue result ↔ (length (elements heap.now self.now) ≡ 2 ^ 32 - 1) }
    {
        // Up to a height of 5 a vector has at most 32^6 elements.
        if self.height(heap) < 6 {
            return false;
        }
        self.len(heap) == u32::MAX
    }

    /// The height of the root, 0 to `MOST_HEIGHT`. A vector of a height of 1 or more has more than 16^height elements.
    pub fn height<T>(&self, heap: &Heap<T>) -> u8
        requires { IsGoodVector heap.now self.now }
        ensures value { result ≡ height_at heap.now self.now }
        ensures low { result ≤ MOST_HEIGHT }
        ensures more { 1 ≤ result → 16 ^ result < length (elements heap.now self.now) }
        ensures most { length (elements heap.now self.now) ≤ 32 ^ (result + 1) }
    {
        height_of(heap, self.root)
    }

    /// The element at `index`, which is live, and none at the end or past it.
    pub fn get<T>(&self, heap: &Heap<T>, index: u32) -> Option<Link>
        requires { IsGoodVector heap.now self.now }
        ensures value { result ≡ slice_get (elements heap.now self.now) index }
        ensures live { IfSome result (λ element. IsSome (row_at heap.now element)) }
    {
        element_at(heap, self.root, index)
    }
}

// The root of the empty vector.
pub(crate) fn empty_root<T>(heap: &mut Heap<T>) -> Link
    requires graph { IsGraph heap.old }
    requires spare { 1 ≤ heap.old.spare_nodes }
    requires holds { hold_count heap.old < half_holds }
    ensures vector { IsVectorOf heap.new result [] }
    ensures flat { height_at heap.new result ≡ 0 }
    ensures builds { Builds heap.old heap.new [] (result ∷ []) 0 1 }
    ensures makes { Makes heap.old heap.new 0 1 }
{
    leaf_over(heap, &[])
}
