//! The first elements of a vector.
ghost use Rattle.std.specs.Prelude.{◌≡◌, ℕ, suc, ◌+◌, ◌-◌, ◌^◌, ◌<◌, ◌≤◌, [], ◌∷◌, length, take, slice_index, IfOk, OnErr, IsOk, IsOkAnd};
ghost use Rattle.node_heap.specs.Heap.{form_at, links_at, hold_count, IsGraph, HasSpares, half_holds};
ghost use Rattle.node_heap.specs.Calls.{Answered, Builds, MakesJust, KeepsToNeed};
ghost use Rattle.rrb_core.specs.Seq.{seq_at, IsWell};
ghost use Rattle.rrb_core.specs.Vector.{HasSums, elements, height_at, IsGoodVector, IsSameVector, IsVectorOf};
ghost use Rattle.rrb_core.specs.Levels.{TakesFirstRows};
ghost use Rattle.rrb_core.specs.Build.{Shares};
ghost use Rattle.rrb_core.specs.Edit.{CanEdit, CanEditRoot, Takes, IsAtFront};

use crate::flex::{Flex, FlexRef, empty_root};
use crate::rows::{gathered, height_of, inner_with, leaf_over, size};
use crate::search::spot_of;
use elem_core::NoMemory;
use node_heap::{Heap, Link, MOST_HEIGHT};

/// The most nodes that a `take` makes: one for each height.
pub const TAKE_NODES: usize = MOST_HEIGHT as usize + 1;

/// The vector of the first `count` elements, or all where there are no more. It makes rows along the cut alone, at most one
/// more than its own height, so 8, and shares the others: at each height up to its own it has first all rows of the vector that
/// end within the count, and then at most one more. With all elements it is the vector itself, held once more, and wants no
/// memory. Else refused only where memory runs out. A refusal leaves the heap as it was.
pub fn take<T>(heap: &mut Heap<T>, vector: FlexRef, count: u32) -> Result<Flex, NoMemory>
    requires good { IsGoodVector heap.old vector }
    requires few { hold_count heap.old < half_holds }
    ensures items { IfOk result (λ v. elements heap.new v ≡ take count (elements heap.old vector)) }
    ensures good { IfOk result (λ v. IsGoodVector heap.new v) }
    ensures low { IfOk result (λ v. height_at heap.new v ≤ height_at heap.old vector) }
    ensures rows { IfOk result (λ v. TakesFirstRows heap.old heap.new vector count v) }
    ensures answered { IfOk result (λ v. Answered heap.old heap.new [] v 0 (height_at heap.new v + 1)) }
    ensures made { IfOk result (λ _. MakesJust heap.old heap.new) }
    ensures spares { IfOk result (λ _. KeepsToNeed heap.old heap.new 0 8) }
    ensures all { length (elements heap.old vector) ≤ count → IsOkAnd result (λ v. (v ≡ vector) × Shares heap.old heap.new v) }
    ensures vectors { (l : ℕ) → IsSameVector heap.old heap.new l }
    ensures refused { OnErr result (heap.new ≡ heap.old) }
    ensures ample { HasSpares heap.old 0 8 → IsOk result }
{
    if count >= vector.len(heap) {
        return Ok(vector.share(heap));
    }
    heap.reserve(0, TAKE_NODES)?;
    let root = front_root(heap, vector.root(), count);
    Ok(Flex::from_root(root))
}

// The root of the vector of the first `count` elements: the lowest row along the left edge that has them, cut where it has
// more.
fn front_root<T>(heap: &mut Heap<T>, root: Link, count: u32) -> Link
    requires root { CanEditRoot heap.old root TAKE_NODES }
    requires inside { count < length (elements heap.old root) }
    ensures vector { IsVectorOf heap.new result (take count (elements heap.old root)) }
    ensures low { height_at heap.new result ≤ height_at heap.old root }
    ensures rows { TakesFirstRows heap.old heap.new root count result }
    ensures builds { Builds heap.old heap.new [] (result ∷ []) 0 (height_at heap.new result + 1) }
{
    if count == 0 {
        return empty_root(heap);
    }
    let lowest = lowest_with(heap, root, count);
    take_below(heap, lowest.link, lowest.height, count)
}

// A row and its height.
#[derive(Clone, Copy)]
struct Placed {
    link: Link,
    height: u8,
}

// The lowest row along the left edge that has the first `count` elements.
fn lowest_with<T>(heap: &Heap<T>, root: Link, count: u32) -> Placed
    requires good { IsGoodVector heap.now root }
    requires inside { count ≤ length (elements heap.now root) }
    ensures well { IsWell (form_at heap.now) result.height result.link }
    ensures sums { HasSums heap.now result.height result.link }
    ensures low { result.height ≤ height_at heap.now root }
    ensures inside { count ≤ length (seq_at (form_at heap.now) result.height result.link) }
    ensures short { length (seq_at (form_at heap.now) result.height result.link) < 2 ^ 32 }
    ensures same { take count (seq_at (form_at heap.now) result.height result.link) ≡ take count (elements heap.now root) }
    ensures edge { IsAtFront heap.now root result.height result.link }
    ensures past { 1 ≤ result.height → length (seq_at (form_at heap.now) (result.height - 1) (slice_index (links_at heap.now result.link) 0)) < count }
{
    let mut link = root;
    let mut height = height_of(heap, root);
    while height > 0 {
        let first = heap.links(link)[0];
        if count > size(heap, first, height - 1) {
            return Placed { link, height };
        }
        link = first;
        height -= 1;
    }
    Placed { link, height }
}

// The row with its first `count` elements; where it has no more, the row itself, held once more.
#[cycle(take)]
fn take_below<T>(heap: &mut Heap<T>, link: Link, height: u8, count: u32) -> Link
    requires row { CanEdit heap.old height link }
    requires some { 1 ≤ count }
    requires inside { count ≤ length (seq_at (form_at heap.old) height link) }
    ensures cut { Takes heap.old heap.new height link count result }
    ensures all { count ≡ length (seq_at (form_at heap.old) height link) → result ≡ link }
{
    if count == size(heap, link, height) {
        heap.hold(link);
        return link;
    }
    if height == 0 {
        return take_leaf(heap, link, count as usize);
    }
    take_inner(heap, link, height - 1, count)
}

// The same for an inner row, whose children have the height `below`.
#[cycle(take)]
fn take_inner<T>(heap: &mut Heap<T>, link: Link, below: u8, count: u32) -> Link
    requires row { CanEdit heap.old (suc below) link }
    requires some { 1 ≤ count }
    requires inside { count ≤ length (seq_at (form_at heap.old) (suc below) link) }
    ensures { Takes heap.old heap.new (suc below) link count result }
{
    let end = heap.links(link).len();
    let found = spot_of(heap, link, below, count - 1);
    let old = heap.links(link)[found.place];
    let child = take_below(heap, old, below, found.within + 1);
    inner_with(heap, link, below, found.place, child, end)
}

// The leaf with its first `count` elements.
fn take_leaf<T>(heap: &mut Heap<T>, link: Link, count: usize) -> Link
    requires row { CanEdit heap.old 0 link }
    requires inside { count ≤ length (seq_at (form_at heap.old) 0 link) }
    ensures { Takes heap.old heap.new 0 link count result }
{
    let end = heap.links(link).len();
    let elements = gathered(heap, link, count, &[], link, end);
    leaf_over(heap, elements.as_slice())
}
