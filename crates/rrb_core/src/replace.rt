//! A vector with another element in one place.
ghost use Rattle.std.specs.Prelude.{◌≡◌, ℕ, suc, ◌+◌, ◌<◌, ◌≤◌, ◌↔◌, ◌≢◌, [], ◌∷◌, length, slice_set, IfOk, OnErr, Err};
ghost use Rattle.node_heap.specs.Heap.{form_at, holds_at, hold_count, IsGraph, HasSpares, half_holds};
ghost use Rattle.node_heap.specs.Calls.{Answered, Builds, MakesJust, KeepsToNeed};
ghost use Rattle.rrb_core.specs.Seq.{seq_at};
ghost use Rattle.rrb_core.specs.Vector.{elements, height_at, IsGoodVector, IsSameVector, IsVectorOf};
ghost use Rattle.rrb_core.specs.Edit.{CanEdit, CanEditRoot, SetsAt};

use crate::flex::{Flex, FlexRef};
use crate::rows::{height_of, inner_with, leaf_with};
use crate::search::spot_of;
use elem_core::NoMemory;
use node_heap::{Heap, Link, MOST_HEIGHT};
use thiserror::Error;

/// Why a set gave no vector.
#[derive(Clone, Copy, Debug, PartialEq, Eq, Error)]
pub enum SetFault {
    /// The index is the length or past it.
    #[error("the index is out of range")]
    Range,
    /// Memory ran out.
    #[error("out of memory")]
    Memory,
}

impl From<NoMemory> for SetFault {
    ghost use Rattle.rrb_core.specs.declared.replace.SetFault.TheVariants.{Memory};

    ghost from_gives = { λ _ fault. fault ≡ Memory };

    fn from(_none: NoMemory) -> SetFault {
        SetFault::Memory
    }
}

/// The most nodes that a set makes: one for each height.
pub const SET_NODES: usize = MOST_HEIGHT as usize + 1;

/// The vector with `element` at `index`. It copies the rows from the root to that place, at most as many as the height and
/// 1, so 8, and shares all others. It spends the element's hold on Ok alone. Refused with `Range` where the index is the
/// length or past it, and with `Memory` where memory runs out. A refusal leaves the heap as it was.
pub fn set<T>(
    heap: &mut Heap<T>,
    vector: FlexRef,
    index: u32,
    element: Link,
) -> Result<Flex, SetFault>
    requires good { IsGoodVector heap.old vector }
    requires held { 1 ≤ holds_at heap.old element }
    requires few { hold_count heap.old < half_holds }
    ensures items { IfOk result (λ v. elements heap.new v ≡ slice_set (elements heap.old vector) index element) }
    ensures good { IfOk result (λ v. IsGoodVector heap.new v) }
    ensures answered { IfOk result (λ v. Answered heap.old heap.new (element ∷ []) v 0 (height_at heap.old vector + 1)) }
    ensures made { IfOk result (λ _. MakesJust heap.old heap.new) }
    ensures spares { IfOk result (λ _. KeepsToNeed heap.old heap.new 0 8) }
    ensures vectors { (l : ℕ) → IsSameVector heap.old heap.new l }
    ensures refused { OnErr result (heap.new ≡ heap.old) }
    ensures range { (result ≡ Err SetFault.Range) ↔ (length (elements heap.old vector) ≤ index) }
    ensures ample { HasSpares heap.old 0 8 → result ≢ Err SetFault.Memory }
{
    if vector.is_past(heap, index) {
        return Err(SetFault::Range);
    }
    heap.reserve(0, SET_NODES)?;
    let root = set_root(heap, vector.root(), index, element);
    Ok(Flex::from_root(root))
}

// The root of the vector with `element` at `index`.
fn set_root<T>(heap: &mut Heap<T>, root: Link, index: u32, element: Link) -> Link
    requires root { CanEditRoot heap.old root SET_NODES }
    requires inside { index < length (elements heap.old root) }
    requires held { 1 ≤ holds_at heap.old element }
    ensures vector { IsVectorOf heap.new result (slice_set (elements heap.old root) index element) }
    ensures builds { Builds heap.old heap.new (element ∷ []) (result ∷ []) 0 (height_at heap.old root + 1) }
{
    let height = height_of(heap, root);
    set_below(heap, root, height, index, element)
}

// The row with `element` at `index`.
#[cycle(set)]
fn set_below<T>(heap: &mut Heap<T>, link: Link, height: u8, index: u32, element: Link) -> Link
    requires row { CanEdit heap.old height link }
    requires inside { index < length (seq_at (form_at heap.old) height link) }
    requires held { 1 ≤ holds_at heap.old element }
    ensures { SetsAt heap.old heap.new height link index element result }
{
    if height == 0 {
        return set_leaf(heap, link, index as usize, element);
    }
    set_inner(heap, link, height - 1, index, element)
}

// The same for an inner row, whose children have the height `below`.
#[cycle(set)]
#[inline(always)]
fn set_inner<T>(heap: &mut Heap<T>, link: Link, below: u8, index: u32, element: Link) -> Link
    requires row { CanEdit heap.old (suc below) link }
    requires inside { index < length (seq_at (form_at heap.old) (suc below) link) }
    requires held { 1 ≤ holds_at heap.old element }
    ensures { SetsAt heap.old heap.new (suc below) link index element result }
{
    let found = spot_of(heap, link, below, index);
    let old = heap.links(link)[found.place];
    let child = set_below(heap, old, below, found.within, element);
    inner_with(heap, link, below, found.place, child, found.place + 1)
}

// The leaf with `element` at the place.
#[inline(always)]
fn set_leaf<T>(heap: &mut Heap<T>, link: Link, place: usize, element: Link) -> Link
    requires row { CanEdit heap.old 0 link }
    requires inside { place < length (seq_at (form_at heap.old) 0 link) }
    requires held { 1 ≤ holds_at heap.old element }
    ensures { SetsAt heap.old heap.new 0 link place element result }
{
    leaf_with(heap, link, place, element, place + 1)
}
