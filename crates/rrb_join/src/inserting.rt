//! A vector with one more element.
ghost use Rattle.std.specs.Prelude.{◌≡◌, ◌≢◌, ◌↔◌, ℕ, suc, ◌-◌, ◌+◌, ◌*◌, ◌<◌, ◌≤◌, ◌^◌, [], ◌∷◌, ◌++◌, length, take, drop, slice_index, IfOk, OnErr, Err};
ghost use Rattle.std.specs.List.{flat_map};
ghost use Rattle.node_heap.specs.Heap.{form_at, links_at, holds_at, hold_count, IsGraph, HasSpares, half_holds, most_holds};
ghost use Rattle.node_heap.specs.Calls.{Answered, Builds, MakesJust, KeepsToNeed};
ghost use Rattle.rrb_core.specs.Seq.{seq_at, IsThick, IsWell};
ghost use Rattle.rrb_core.specs.Vector.{HasSums, elements, height_at, IsGoodVector, IsSameVector};
ghost use Rattle.rrb_join.specs.Unmade.{AreUnmade, AreThick};
ghost use Rattle.rrb_join.specs.Answers.{RisesAtNeed};
ghost use Rattle.rrb_join.specs.Seam.{PutsInRow, PutsBelow};
ghost use Rattle.rrb_join.specs.declared.joining.TheConstants.{SEAM_NODES};

use crate::joining::SEAM_NODES;
use crate::over::{root_over, rows_over};
use elem_core::NoMemory;
use node_heap::{Heap, Link, MOST_HEIGHT};
use rrb_core::{Flex, FlexRef, Gathered, IndexSpot, gathered, height_of, spot_of};
use thiserror::Error;

/// Why an element was not inserted.
#[derive(Clone, Copy, Debug, PartialEq, Eq, Error)]
pub enum InsertFault {
    /// The index is past the length.
    #[error("the index is out of range")]
    Range,
    /// The vector has 2^32 - 1 elements already.
    #[error("the vector has no room")]
    Long,
    /// Memory ran out.
    #[error("out of memory")]
    Memory,
}

impl From<NoMemory> for InsertFault {
    ghost use Rattle.rrb_join.specs.declared.inserting.InsertFault.TheVariants.{Memory};

    ghost from_gives = { λ _ fault. fault ≡ Memory };

    fn from(_none: NoMemory) -> InsertFault {
        InsertFault::Memory
    }
}

/// The vector with `element` before the element at `index`, or after the last. It spends the element's hold on Ok
/// alone, and makes at most twice the height of the vector and three more nodes, so at most 17. The vector grows one
/// row higher at most, and only where its root needs two rows, which have more than 32 links together; one whose root
/// has fewer than 32 links keeps its height. Its rows of each height are those of the old vector, with at most two in
/// the place of one, and two only where they have more than 32 links together. Refused with `Range` where the index is
/// past the length, else with `Long` where the vector has 2^32 - 1 elements, and with `Memory` where memory runs out. A
/// refusal leaves the heap as it was.
pub fn insert<T>(
    heap: &mut Heap<T>,
    vector: FlexRef,
    index: u32,
    element: Link,
) -> Result<Flex, InsertFault>
    requires good { IsGoodVector heap.old vector }
    requires held { 1 ≤ holds_at heap.old element }
    requires few { hold_count heap.old < half_holds }
    ensures items { IfOk result (λ v. elements heap.new v ≡ take index (elements heap.old vector) ++ element ∷ drop index (elements heap.old vector)) }
    ensures good { IfOk result (λ v. IsGoodVector heap.new v) }
    ensures flat { length (links_at heap.old vector) < 32 → IfOk result (λ v. height_at heap.new v ≡ height_at heap.old vector) }
    ensures low { IfOk result (λ v. RisesAtNeed heap.new (height_at heap.old vector) v) }
    ensures seam { IfOk result (λ v. PutsInRow heap.old heap.new vector v) }
    ensures answered { IfOk result (λ v. Answered heap.old heap.new (element ∷ []) v 0 (2 * height_at heap.old vector + 3)) }
    ensures made { IfOk result (λ v. MakesJust heap.old heap.new) }
    ensures spares { IfOk result (λ _. KeepsToNeed heap.old heap.new 0 17) }
    ensures vectors { (l : ℕ) → IsSameVector heap.old heap.new l }
    ensures refused { OnErr result (heap.new ≡ heap.old) }
    ensures range { (result ≡ Err InsertFault.Range) ↔ (length (elements heap.old vector) < index) }
    ensures long { (result ≡ Err InsertFault.Long) ↔ ((index ≤ length (elements heap.old vector)) × (length (elements heap.old vector) ≡ 2 ^ 32 - 1)) }
    ensures ample { HasSpares heap.old 0 17 → result ≢ Err InsertFault.Memory }
{
    let len = vector.len(heap);
    if index > len {
        return Err(InsertFault::Range);
    }
    if len == u32::MAX {
        return Err(InsertFault::Long);
    }
    heap.reserve(0, SEAM_NODES)?;
    Ok(Flex::from_root(inserted_root(heap, vector.root(), index, element)))
}

// The root of the vector with `element` at `index`.
fn inserted_root<T>(heap: &mut Heap<T>, root: Link, index: u32, element: Link) -> Link
    requires graph { IsGraph heap.old }
    requires good { IsGoodVector heap.old root }
    requires inside { index ≤ length (elements heap.old root) }
    requires short { length (elements heap.old root) + 1 < 2 ^ 32 }
    requires held { 1 ≤ holds_at heap.old element }
    requires spare { SEAM_NODES ≤ heap.old.spare_nodes }
    requires holds { hold_count heap.old + 128 ≤ most_holds }
    ensures items { elements heap.new result ≡ take index (elements heap.old root) ++ element ∷ drop index (elements heap.old root) }
    ensures good { IsGoodVector heap.new result }
    ensures flat { length (links_at heap.old root) < 32 → height_at heap.new result ≡ height_at heap.old root }
    ensures low { RisesAtNeed heap.new (height_at heap.old root) result }
    ensures seam { PutsInRow heap.old heap.new root result }
    ensures builds { Builds heap.old heap.new (element ∷ []) (result ∷ []) 0 (2 * height_at heap.old root + 3) }
{
    let height = height_of(heap, root);
    let links = insert_links(heap, root, height, index, element);
    root_over(heap, links.as_slice(), height)
}

// The child of an inner row into which a new element at `index` goes, and its index there.
fn spot_before<T>(heap: &Heap<T>, link: Link, below: u8, index: u32) -> IndexSpot
    requires well { IsWell (form_at heap.now) (suc below) link }
    requires sums { HasSums heap.now (suc below) link }
    requires low { below < MOST_HEIGHT }
    requires inside { index ≤ length (seq_at (form_at heap.now) (suc below) link) }
    ensures place { result.place < length (links_at heap.now link) }
    ensures inside { result.within ≤ length (seq_at (form_at heap.now) below (slice_index (links_at heap.now link) result.place)) }
    ensures before { length (flat_map (seq_at (form_at heap.now) below) (take result.place (links_at heap.now link))) + result.within ≡ index }
{
    if index == 0 {
        return IndexSpot {
            place: 0,
            within: 0,
        };
    }
    let spot = spot_of(heap, link, below, index - 1);
    IndexSpot {
        place: spot.place,
        within: spot.within + 1,
    }
}

// The links of one row of this height or of two, with the elements of the row and `element` at `index`. Above leaves the
// element is put into a child, and the other children stand beside the rows of that one.
fn insert_links<T>(
    heap: &mut Heap<T>,
    link: Link,
    height: u8,
    index: u32,
    element: Link,
) -> Gathered
    requires graph { IsGraph heap.old }
    requires well { IsWell (form_at heap.old) height link }
    requires sums { HasSums heap.old height link }
    requires low { height ≤ MOST_HEIGHT }
    requires inside { index ≤ length (seq_at (form_at heap.old) height link) }
    requires short { length (seq_at (form_at heap.old) height link) + 1 < 2 ^ 32 }
    requires held { 1 ≤ holds_at heap.old element }
    requires spare { 2 * height ≤ heap.old.spare_nodes }
    requires holds { hold_count heap.old + 128 ≤ most_holds }
    ensures links { AreUnmade heap.new height result.items (take index (seq_at (form_at heap.old) height link) ++ element ∷ drop index (seq_at (form_at heap.old) height link)) }
    ensures thick { IsThick (form_at heap.old) height link → (16 ≤ length result.items) × AreThick heap.new height result.items }
    ensures wide { length (links_at heap.old link) ≤ length result.items }
    ensures few { length result.items ≤ length (links_at heap.old link) + 1 }
    ensures seam { PutsBelow heap.old heap.new link height result.items }
    ensures builds { Builds heap.old heap.new (element ∷ []) result.items 0 (2 * height) }
{
    if height == 0 {
        let place = index as usize;
        return gathered(heap, link, place, &[element], link, place);
    }
    let below = height - 1;
    let spot = spot_before(heap, link, below, index);
    let child = heap.links(link)[spot.place];
    let seam = insert_links(heap, child, below, spot.within, element);
    let rows = rows_over(heap, seam.as_slice(), below);
    let after = spot.place + 1;
    gathered(heap, link, spot.place, rows.as_slice(), link, after)
}
