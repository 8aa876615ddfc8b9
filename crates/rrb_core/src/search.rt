//! The search for an element in inner rows, by their running sums or, in rows without sums, by the index alone.
ghost use Rattle.std.specs.Prelude.{◌≡◌, ℕ, suc, ◌+◌, ◌-◌, ◌<◌, ◌≤◌, [], ◌∷◌, length, take, drop, slice_index, IfSome, IfNone, IsSome};
ghost use Rattle.std.specs.List.{flat_map, slice_get};
ghost use Rattle.node_heap.specs.Heap.{row_at, form_at, links_at};
ghost use Rattle.rrb_core.specs.Seq.{seq_at, IsWell};
ghost use Rattle.rrb_core.specs.Vector.{elements, HasSums, IsGoodVector, sums_at};

use crate::rows::{full_size, height_of, sums_of};
use node_heap::{Heap, Link, MOST_HEIGHT};

/// A child of an inner row by its place, and an element's index in that child.
#[derive(Clone, Copy)]
pub struct IndexSpot {
    /// The place of the child in the row.
    pub place: usize,
    /// The index of the element among those below the child.
    pub within: u32,
}

// The first place from `from` on whose running sum passes `index`.
fn place_of(sums: &[u32], index: u32, from: usize) -> usize
    requires before { (k : ℕ) → k < from → slice_index sums.now k ≤ index }
    requires passes { (k : ℕ) × (k < length sums.now) × (index < slice_index sums.now k) }
    ensures within { result < length sums.now }
    ensures before { (k : ℕ) → k < result → slice_index sums.now k ≤ index }
    ensures found { index < slice_index sums.now result }
{
    for place in from..sums.len() {
        if index < sums[place] {
            return place;
        }
    }
    unreachable!()
}

// How many elements stand before the child at `place`.
#[inline]
pub(crate) fn sum_before(sums: &[u32], place: usize) -> u32
    requires { place ≤ length sums.now }
    ensures first { place ≡ 0 → result ≡ 0 }
    ensures later { 0 < place → result ≡ slice_index sums.now (place - 1) }
{
    if place == 0 { 0 } else { sums[place - 1] }
}

/// The child of an inner row that holds the element at `index`; the children have the height `below`. Where the row keeps
/// no sums it is the one where `index` is if all children are full, and else the search starts there, since that is never
/// past the right child.
#[inline]
pub fn spot_of<T>(heap: &Heap<T>, link: Link, below: u8, index: u32) -> IndexSpot
    requires well { IsWell (form_at heap.now) (suc below) link }
    requires sums { HasSums heap.now (suc below) link }
    requires low { below < MOST_HEIGHT }
    requires inside { index < length (seq_at (form_at heap.now) (suc below) link) }
    ensures place { result.place < length (links_at heap.now link) }
    ensures inside { result.within < length (seq_at (form_at heap.now) below (slice_index (links_at heap.now link) result.place)) }
    ensures before { length (flat_map (seq_at (form_at heap.now) below) (take result.place (links_at heap.now link))) + result.within ≡ index }
{
    let sums = sums_of(heap, link);
    let from = (u64::from(index) >> (5 * (u32::from(below) + 1))) as usize;
    if sums.is_empty() {
        let within = index - full_size(from, below + 1) as u32;
        return IndexSpot {
            place: from,
            within,
        };
    }
    let place = place_of(sums, index, from);
    let within = index - sum_before(sums, place);
    IndexSpot { place, within }
}

// A child of an inner row by its link, and an element's index in that child.
#[derive(Clone, Copy)]
struct ChildSpot {
    child: Link,
    within: u32,
}

// The child of an inner row below which the element at `index` is, if the row has one; the children have the height `below`.
// Where the row keeps no sums, an index past its elements may give its last child, and an index past the elements of that one.
// It is the body of the loop of each look-up, which keeps what it answers in registers.
#[inline(always)]
fn child_spot_of<T>(heap: &Heap<T>, link: Link, below: u8, index: u32) -> Option<ChildSpot>
    requires well { IsWell (form_at heap.now) (suc below) link }
    requires sums { HasSums heap.now (suc below) link }
    requires low { below < MOST_HEIGHT }
    ensures well { IfSome result (λ spot. IsWell (form_at heap.now) below spot.child) }
    ensures sums { IfSome result (λ spot. HasSums heap.now below spot.child) }
    ensures same { IfSome result (λ spot. slice_get (seq_at (form_at heap.now) (suc below) link) index ≡ slice_get (seq_at (form_at heap.now) below spot.child) spot.within) }
    ensures past { IfNone result (length (seq_at (form_at heap.now) (suc below) link) ≤ index) }
{
    let sums = sums_of(heap, link);
    if !sums.is_empty() {
        return child_spot_by(heap, link, sums, below, index);
    }
    let links = heap.links(link);
    let place = (u64::from(index) >> (5 * (u32::from(below) + 1))) as usize;
    if place >= links.len() {
        return None;
    }
    let within = index - full_size(place, below + 1) as u32;
    Some(ChildSpot {
        child: links[place],
        within,
    })
}

// The same for a row that keeps these sums, which most rows don't.
#[inline(never)]
fn child_spot_by<T>(
    heap: &Heap<T>,
    link: Link,
    sums: &[u32],
    below: u8,
    index: u32,
) -> Option<ChildSpot>
    requires well { IsWell (form_at heap.now) (suc below) link }
    requires sums { HasSums heap.now (suc below) link }
    requires low { below < MOST_HEIGHT }
    requires kept { sums.now ≡ sums_at heap.now link }
    requires some { 1 ≤ length sums.now }
    ensures well { IfSome result (λ spot. IsWell (form_at heap.now) below spot.child) }
    ensures sums { IfSome result (λ spot. HasSums heap.now below spot.child) }
    ensures same { IfSome result (λ spot. slice_get (seq_at (form_at heap.now) (suc below) link) index ≡ slice_get (seq_at (form_at heap.now) below spot.child) spot.within) }
    ensures past { IfNone result (length (seq_at (form_at heap.now) (suc below) link) ≤ index) }
{
    if index >= sums[sums.len() - 1] {
        return None;
    }
    let spot = spot_of(heap, link, below, index);
    Some(ChildSpot {
        child: heap.links(link)[spot.place],
        within: spot.within,
    })
}

// The element at `index`, and none at the end or past it: one walk, which asks no row for its length.
pub(crate) fn element_at<T>(heap: &Heap<T>, root: Link, index: u32) -> Option<Link>
    requires { IsGoodVector heap.now root }
    ensures value { result ≡ slice_get (elements heap.now root) index }
    ensures live { IfSome result (λ element. IsSome (row_at heap.now element)) }
{
    let mut link = root;
    let mut within = index;
    let mut height = height_of(heap, link);
    while height > 0 {
        height -= 1;
        let Some(spot) = child_spot_of(heap, link, height, within) else {
            return None;
        };
        link = spot.child;
        within = spot.within;
    }
    heap.links(link).get(within as usize).copied()
}

/// The one element below a row of this height that has no other.
pub fn only_element<T>(heap: &Heap<T>, link: Link, height: u8) -> Link
    requires well { IsWell (form_at heap.now) height link }
    requires one { length (seq_at (form_at heap.now) height link) ≡ 1 }
    ensures { seq_at (form_at heap.now) height link ≡ result ∷ [] }
{
    let first = heap.links(link)[0];
    if height == 0 {
        return first;
    }
    only_element(heap, first, height - 1)
}

// The elements from `index` on, as far as they stand in one leaf. It is apart from the step to the next element, which mostly
// looks no leaf up.
#[inline(never)]
pub(crate) fn leaf_from<T>(heap: &Heap<T>, root: Link, index: u32) -> &[Link]
    requires good { IsGoodVector heap.now root }
    requires inside { index < length (elements heap.now root) }
    ensures some { 1 ≤ length result.now }
    ensures front { result.now ≡ take (length result.now) (drop index (elements heap.now root)) }
{
    let mut link = root;
    let mut within = index;
    let mut height = height_of(heap, link);
    while height > 0 {
        height -= 1;
        let found = spot_of(heap, link, height, within);
        link = heap.links(link)[found.place];
        within = found.within;
    }
    &heap.links(link)[within as usize..]
}
