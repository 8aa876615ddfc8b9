//! A vector with one more element.
ghost use Rattle.std.specs.Prelude.{◌≡◌, ℕ, suc, ◌+◌, ◌-◌, ◌^◌, ◌<◌, ◌≤◌, ◌↔◌, ◌≢◌, [], ◌∷◌, ◌++◌, length, slice_index, IfOk, OnErr, None, IfSome, IfNone, Err};
ghost use Rattle.node_heap.specs.Heap.{row_at, form_at, links_at, holds_at, hold_count, IsGraph, HasSpares, half_holds, most_holds};
ghost use Rattle.node_heap.specs.Calls.{Answered, Builds, MakesJust, KeepsToNeed, KeepsOldOwners};
ghost use Rattle.rrb_core.specs.Seq.{seq_at, IsWell};
ghost use Rattle.rrb_core.specs.Push.{last_in, IsPacked, IsPushedRoot};
ghost use Rattle.rrb_core.specs.Vector.{HasSums, elements, height_at, IsGoodVector, IsSameVector, IsVectorOf};
ghost use Rattle.rrb_core.specs.Edit.{CanEdit, CanEditRoot, MakesRow, Pushes};

use crate::flex::{Flex, FlexRef};
use crate::rows::{ROW_LINKS, height_of, inner_over, inner_with, leaf_over, leaf_with};
use elem_core::NoMemory;
use node_heap::{Heap, Link, MOST_HEIGHT};
use thiserror::Error;

/// Why a push gave no vector.
#[derive(Clone, Copy, Debug, PartialEq, Eq, Error)]
pub enum PushFault {
    /// The vector has 2^32 - 1 elements already.
    #[error("the vector has no room")]
    Long,
    /// Memory ran out.
    #[error("out of memory")]
    Memory,
}

impl From<NoMemory> for PushFault {
    ghost use Rattle.rrb_core.specs.declared.grow.PushFault.TheVariants.{Memory};

    ghost from_gives = { λ _ fault. fault ≡ Memory };

    fn from(_none: NoMemory) -> PushFault {
        PushFault::Memory
    }
}

/// The most nodes that a push makes: one for each height, and a root.
pub const PUSH_NODES: usize = MOST_HEIGHT as usize + 2;

/// The vector with `element` after its last element. The element goes into the lowest row of the right spine that has
/// fewer than 32 links; only where each of them has 32 comes a new root. It spends the element's hold on Ok alone, and
/// makes at most as many nodes as the height and 2, so 9. Refused with `Long` where the vector has 2^32 - 1 elements, and
/// with `Memory` where memory runs out. A refusal leaves the heap as it was.
pub fn push<T>(heap: &mut Heap<T>, vector: FlexRef, element: Link) -> Result<Flex, PushFault>
    requires good { IsGoodVector heap.old vector }
    requires held { 1 ≤ holds_at heap.old element }
    requires few { hold_count heap.old < half_holds }
    ensures items { IfOk result (λ v. elements heap.new v ≡ elements heap.old vector ++ element ∷ []) }
    ensures good { IfOk result (λ v. IsGoodVector heap.new v) }
    ensures rule { IfOk result (λ v. IsPushedRoot (form_at heap.old) (form_at heap.new) element vector v) }
    ensures taller { IfOk result (λ v. (height_at heap.new v ≡ suc (height_at heap.old vector)) ↔ IsPacked (form_at heap.old) (height_at heap.old vector) vector) }
    ensures answered { IfOk result (λ v. Answered heap.old heap.new (element ∷ []) v 0 (height_at heap.old vector + 2)) }
    ensures made { IfOk result (λ _. MakesJust heap.old heap.new) }
    ensures spares { IfOk result (λ _. KeepsToNeed heap.old heap.new 0 9) }
    ensures vectors { (l : ℕ) → IsSameVector heap.old heap.new l }
    ensures refused { OnErr result (heap.new ≡ heap.old) }
    ensures long { (result ≡ Err PushFault.Long) ↔ (length (elements heap.old vector) ≡ 2 ^ 32 - 1) }
    ensures ample { HasSpares heap.old 0 9 → result ≢ Err PushFault.Memory }
{
    if vector.is_longest(heap) {
        return Err(PushFault::Long);
    }
    heap.reserve(0, PUSH_NODES)?;
    let root = push_root(heap, vector.root(), element);
    Ok(Flex::from_root(root))
}

// The root of the vector with `element` after its last.
fn push_root<T>(heap: &mut Heap<T>, root: Link, element: Link) -> Link
    requires root { CanEditRoot heap.old root PUSH_NODES }
    requires short { length (elements heap.old root) + 1 < 2 ^ 32 }
    requires held { 1 ≤ holds_at heap.old element }
    ensures vector { IsVectorOf heap.new result (elements heap.old root ++ element ∷ []) }
    ensures rule { IsPushedRoot (form_at heap.old) (form_at heap.new) element root result }
    ensures builds { Builds heap.old heap.new (element ∷ []) (result ∷ []) 0 (height_at heap.old root + 2) }
{
    let height = height_of(heap, root);
    match push_below(heap, root, height, element) {
        Some(row) => row,
        None => root_beside(heap, root, height, element),
    }
}

// The root over a packed root and one element beside it.
#[inline(never)]
fn root_beside<T>(heap: &mut Heap<T>, root: Link, height: u8, element: Link) -> Link
    requires root { CanEditRoot heap.old root PUSH_NODES }
    requires height { height ≡ height_at heap.old root }
    requires packed { IsPacked (form_at heap.old) height root }
    requires short { length (elements heap.old root) + 1 < 2 ^ 32 }
    requires held { 1 ≤ holds_at heap.old element }
    ensures vector { IsVectorOf heap.new result (elements heap.old root ++ element ∷ []) }
    ensures rule { IsPushedRoot (form_at heap.old) (form_at heap.new) element root result }
    ensures builds { Builds heap.old heap.new (element ∷ []) (result ∷ []) 0 (height + 2) }
{
    let child = spine(heap, height, element);
    heap.hold(root);
    inner_over(heap, &[root, child], height)
}

// The row with `element` after its last element, or None where it is packed.
#[cycle(push)]
fn push_below<T>(heap: &mut Heap<T>, link: Link, height: u8, element: Link) -> Option<Link>
    requires row { CanEdit heap.old height link }
    requires short { length (seq_at (form_at heap.old) height link) + 1 < 2 ^ 32 }
    requires held { 1 ≤ holds_at heap.old element }
    ensures packed { IfNone result (IsPacked (form_at heap.old) height link × (heap.new ≡ heap.old)) }
    ensures pushes { IfSome result (λ m. Pushes heap.old heap.new height link element m) }
{
    if height == 0 {
        return push_leaf(heap, link, element);
    }
    push_inner(heap, link, height - 1, element)
}

// The same for an inner row, whose children have the height `below`.
#[cycle(push)]
#[inline(always)]
fn push_inner<T>(heap: &mut Heap<T>, link: Link, below: u8, element: Link) -> Option<Link>
    requires row { CanEdit heap.old (suc below) link }
    requires short { length (seq_at (form_at heap.old) (suc below) link) + 1 < 2 ^ 32 }
    requires held { 1 ≤ holds_at heap.old element }
    ensures packed { IfNone result (IsPacked (form_at heap.old) (suc below) link × (heap.new ≡ heap.old)) }
    ensures pushes { IfSome result (λ m. Pushes heap.old heap.new (suc below) link element m) }
{
    let count = heap.links(link).len();
    let last = last_child(heap, link, below);
    match push_below(heap, last, below, element) {
        Some(child) => Some(inner_with(heap, link, below, count - 1, child, count)),
        None => push_beside(heap, link, below, element),
    }
}

// The last child of an inner row, whose children have the height `below`.
#[inline(always)]
fn last_child<T>(heap: &Heap<T>, link: Link, below: u8) -> Link
    requires well { IsWell (form_at heap.now) (suc below) link }
    requires sums { HasSums heap.now (suc below) link }
    ensures { result ≡ last_in (form_at heap.now) link }
{
    let links = heap.links(link);
    links[links.len() - 1]
}

// The inner row whose last child is packed with one child more, over `element` alone, or None where it has 32 children.
#[inline(never)]
fn push_beside<T>(heap: &mut Heap<T>, link: Link, below: u8, element: Link) -> Option<Link>
    requires row { CanEdit heap.old (suc below) link }
    requires packed { IsPacked (form_at heap.old) below (last_in (form_at heap.old) link) }
    requires short { length (seq_at (form_at heap.old) (suc below) link) + 1 < 2 ^ 32 }
    requires held { 1 ≤ holds_at heap.old element }
    ensures packed { IfNone result (IsPacked (form_at heap.old) (suc below) link × (heap.new ≡ heap.old)) }
    ensures pushes { IfSome result (λ m. Pushes heap.old heap.new (suc below) link element m) }
{
    let count = heap.links(link).len();
    if count == ROW_LINKS {
        return None;
    }
    let child = spine(heap, below, element);
    let row = inner_with(heap, link, below, count, child, count);
    Some(row)
}

// The leaf with one element more, or None where it has 32.
#[inline(always)]
fn push_leaf<T>(heap: &mut Heap<T>, link: Link, element: Link) -> Option<Link>
    requires row { CanEdit heap.old 0 link }
    requires held { 1 ≤ holds_at heap.old element }
    ensures packed { IfNone result (IsPacked (form_at heap.old) 0 link × (heap.new ≡ heap.old)) }
    ensures pushes { IfSome result (λ m. Pushes heap.old heap.new 0 link element m) }
{
    let count = heap.links(link).len();
    if count == ROW_LINKS {
        return None;
    }
    let row = leaf_with(heap, link, count, element, count);
    Some(row)
}

/// A row of this height over one element, by rows of one link, all of them new. It spends the element's hold, and makes one
/// node for each height from 0 on.
pub fn spine<T>(heap: &mut Heap<T>, height: u8, element: Link) -> Link
    requires graph { IsGraph heap.old }
    requires held { 1 ≤ holds_at heap.old element }
    requires low { height ≤ MOST_HEIGHT }
    requires spare { height + 1 ≤ heap.old.spare_nodes }
    requires holds { hold_count heap.old < most_holds }
    ensures made { MakesRow heap.old heap.new (element ∷ []) height result (element ∷ []) }
    ensures fresh { row_at heap.old result ≡ None }
    ensures owners { KeepsOldOwners heap.old heap.new }
{
    if height == 0 {
        return leaf_over(heap, &[element]);
    }
    let child = spine(heap, height - 1, element);
    inner_over(heap, &[child], height - 1)
}
