//! Vectors of cells.
ghost use Rattle.std.specs.Prelude.{ℕ, ◌↔◌, ◌^◌, ◌<◌, ◌≤◌, length, drop, IsTrue, IfSome, IfNone};
ghost use Rattle.std.specs.List.{All};
ghost use Rattle.node_heap.specs.Heap.{form_at};
ghost use Rattle.rrb_core.specs.Vector.{elements};
ghost use Rattle.same_value.specs.Cells.{IsCellLink, IsSameCell, IsLines, IsSameLines};
ghost use Rattle.same_value.specs.Lines.{BeginAlike, DifferSomewhere};

use crate::cells::same_values;
use crate::places::{lower, place_from};
use elem_core::Element;
use node_heap::{Heap, Link};
use rrb_core::{FlexRef, size};

// How many cells are equal, place by place: as many as the shorter list has. None where two at the same place differ.
fn alike_leaves<T: Element>(heap: &Heap<T>, links: &[Link], others: &[Link]) -> Option<u32>
    requires some { 1 ≤ length links.now }
    requires some_others { 1 ≤ length others.now }
    requires short { length links.now < 2 ^ 32 }
    requires left { All (IsCellLink (form_at heap.now)) links.now }
    requires right { All (IsCellLink (form_at heap.now)) others.now }
    ensures alike { IfSome result (λ count. BeginAlike (IsSameCell T.cmp (form_at heap.now)) count links.now others.now) }
    ensures different { IfNone result (DifferSomewhere (IsSameCell T.cmp (form_at heap.now)) links.now others.now) }
{
    let count = links.len().min(others.len());
    for place in 0..count {
        if !same_values(heap, links[place], others[place]) {
            return None;
        }
    }
    Some(count as u32)
}

// How many elements from `index` on are equal, as far as it is told by a row that begins there in both vectors or, where there
// is none, by the two leaves. None where two at the same place differ.
fn alike_from<T: Element>(heap: &Heap<T>, a: FlexRef, b: FlexRef, index: u32) -> Option<u32>
    requires first { IsLines heap.now a }
    requires second { IsLines heap.now b }
    requires left { index < length (elements heap.now a) }
    requires right { index < length (elements heap.now b) }
    ensures alike { IfSome result (λ count. BeginAlike (IsSameCell T.cmp (form_at heap.now)) count (drop index (elements heap.now a)) (drop index (elements heap.now b))) }
    ensures different { IfNone result (DifferSomewhere (IsSameCell T.cmp (form_at heap.now)) (drop index (elements heap.now a)) (drop index (elements heap.now b))) }
{
    let mut left = place_from(heap, a, index);
    let mut right = place_from(heap, b, index);
    while left.height + right.height > 0 {
        if left.link == right.link {
            return Some(size(heap, left.link, left.height));
        }
        if left.height < right.height {
            right = lower(heap, right);
        } else {
            left = lower(heap, left);
        }
    }
    let links = &heap.links(left.link)[left.within as usize..];
    let others = &heap.links(right.link)[right.within as usize..];
    alike_leaves(heap, links, others)
}

/// Whether two vectors of cells have as many elements, and equal ones at each place. A row that begins at the same place in
/// both is passed over whole, however the rows above it are cut.
pub fn equal_vec<T: Element>(heap: &Heap<T>, a: FlexRef, b: FlexRef) -> bool
    requires first { IsLines heap.now a }
    requires second { IsLines heap.now b }
    ensures equal { IsTrue result ↔ IsSameLines T.cmp heap.now a b }
{
    let count = a.len(heap);
    if b.len(heap) != count {
        return false;
    }
    let mut index = 0;
    while index < count {
        match alike_from(heap, a, b, index) {
            Some(more) => index += more,
            None => return false,
        }
    }
    true
}
