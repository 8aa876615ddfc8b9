//! An element put in the place of another.
ghost use Rattle.std.specs.Prelude.{◌≡◌, ◌≢◌, ◌↔◌, ℕ, suc, ◌+◌, ◌<◌, ◌≤◌, [], ◌∷◌, ◌++◌, length, IfOk, OnErr, Err};
ghost use Rattle.node_heap.specs.Links.{Reaches};
ghost use Rattle.node_heap.specs.Heap.{form_at, links_at, holds_at, owners_at, hold_count, HasSpares, half_holds};
ghost use Rattle.node_heap.specs.Calls.{Gains, KeepsToNeed, HasHolds};
ghost use Rattle.node_heap.specs.InPlace.{child_at, Changes};
ghost use Rattle.node_heap.specs.declared.owner.Owner.TheVariants.{Hold as by_hold, Child as by_place};
ghost use Rattle.node_heap.specs.Owner.{owned, held_by};
ghost use Rattle.node_heap.specs.Root.{CanOwn, IsApart, ChangesUp};
ghost use Rattle.rrb_core.specs.Seq.{seq_at};
ghost use Rattle.rrb_core.specs.Vector.{elements, height_at, IsGoodVector};
ghost use Rattle.edit_vec.specs.Edit.{SetsElement};
ghost use Rattle.edit_vec.specs.Steps.{CanWrite, SetsIn};

use crate::edit::FlexEdit;
use node_heap::{Heap, Link, Owner, own_root, root_of};
use rrb_core::{FlexRef, SET_NODES, SetFault, height_of, spot_of};

impl FlexEdit {
    /// Puts `element` at `index` and gives the element that stood there, with a hold. It spends the element's hold on Ok alone.
    /// Of the rows from the root to that place each that is alone is written, and each other is copied: at most as many as the
    /// height and 1, so 8. Refused with `Range` where the index is the length or past it, and with `Memory` where memory runs
    /// out. A refusal leaves the vector and the heap as they were.
    pub fn set<T>(
        &mut self,
        heap: &mut Heap<T>,
        index: u32,
        element: Link,
    ) -> Result<Link, SetFault>
        requires good { IsGoodVector heap.old self.old }
        requires held { HasHolds heap.old (self.old ∷ element ∷ []) }
        requires few { hold_count heap.old < half_holds }
        ensures sets { IfOk result (λ given. SetsElement (by_hold self.old) heap.old heap.new self.new index element given) }
        ensures spares { IfOk result (λ _. KeepsToNeed heap.old heap.new 0 SET_NODES) }
        ensures refused { OnErr result ((heap.new ≡ heap.old) × (self.new ≡ self.old)) }
        ensures range { (result ≡ Err SetFault.Range) ↔ (length (elements heap.old self.old) ≤ index) }
        ensures ample { HasSpares heap.old 0 SET_NODES → result ≢ Err SetFault.Memory }
    {
        match set_by(heap, &Owner::Hold(self.root), index, element) {
            Ok(did) => {
                self.root = did.0;
                Ok(did.1)
            }
            Err(fault) => Err(fault),
        }
    }
}

/// The same for a vector that is the child at an index of a row with one owner, which stays but for that child. The element
/// isn't that row and doesn't reach it.
pub fn set_at<T>(
    heap: &mut Heap<T>,
    parent: Link,
    child: usize,
    index: u32,
    element: Link,
) -> Result<Link, SetFault>
    requires sole { owners_at heap.old parent ≡ 1 }
    requires child { child < length (links_at heap.old parent) }
    requires good { IsGoodVector heap.old (child_at heap.old parent child) }
    requires held { 1 ≤ holds_at heap.old element }
    requires apart { ¬ Reaches (links_at heap.old) element parent }
    requires few { hold_count heap.old < half_holds }
    ensures sets { IfOk result (λ given. SetsElement (by_place parent child) heap.old heap.new (child_at heap.new parent child) index element given) }
    ensures changes { IfOk result (λ given. Changes parent heap.old heap.new (element ∷ []) (given ∷ []) 0 (height_at heap.old (child_at heap.old parent child) + 1)) }
    ensures spares { IfOk result (λ _. KeepsToNeed heap.old heap.new 0 SET_NODES) }
    ensures refused { OnErr result (heap.new ≡ heap.old) }
    ensures range { (result ≡ Err SetFault.Range) ↔ (length (elements heap.old (child_at heap.old parent child)) ≤ index) }
    ensures ample { HasSpares heap.old 0 SET_NODES → result ≢ Err SetFault.Memory }
{
    match set_by(heap, &Owner::Child(parent, child), index, element) {
        Ok(did) => Ok(did.1),
        Err(fault) => Err(fault),
    }
}

// The same for a vector whose root is owned so, and gives its root then, and the element that stood there.
fn set_by<T>(
    heap: &mut Heap<T>,
    owner: &Owner,
    index: u32,
    element: Link,
) -> Result<(Link, Link), SetFault>
    requires owner { CanOwn heap.old owner.now }
    requires good { IsGoodVector heap.old (owned heap.old owner.now) }
    requires held { HasHolds heap.old (held_by owner.now (owned heap.old owner.now) ++ element ∷ []) }
    requires apart { IsApart heap.old owner.now element }
    ensures sets { IfOk result (λ did. SetsElement owner.now heap.old heap.new did.0 index element did.1) }
    ensures up { IfOk result (λ did. ChangesUp owner.now heap.old heap.new did.0 (element ∷ []) (did.1 ∷ []) 0 (height_at heap.old (owned heap.old owner.now) + 1)) }
    ensures spares { IfOk result (λ _. KeepsToNeed heap.old heap.new 0 SET_NODES) }
    ensures refused { OnErr result (heap.new ≡ heap.old) }
    ensures range { (result ≡ Err SetFault.Range) ↔ (length (elements heap.old (owned heap.old owner.now)) ≤ index) }
    ensures ample { HasSpares heap.old 0 SET_NODES → result ≢ Err SetFault.Memory }
{
    if FlexRef::at(root_of(heap, owner)).is_past(heap, index) {
        return Err(SetFault::Range);
    }
    heap.reserve(0, SET_NODES)?;
    Ok(set_root(heap, owner, index, element))
}

/// `set_at` where the index is below the length and there are `SET_NODES` spare nodes: it tests and reserves nothing, and refuses
/// nothing.
pub fn set_there<T>(
    heap: &mut Heap<T>,
    parent: Link,
    child: usize,
    index: u32,
    element: Link,
) -> Link
    requires sole { owners_at heap.old parent ≡ 1 }
    requires child { child < length (links_at heap.old parent) }
    requires good { IsGoodVector heap.old (child_at heap.old parent child) }
    requires held { 1 ≤ holds_at heap.old element }
    requires apart { ¬ Reaches (links_at heap.old) element parent }
    requires few { hold_count heap.old < half_holds }
    requires inside { index < length (elements heap.old (child_at heap.old parent child)) }
    requires spare { HasSpares heap.old 0 SET_NODES }
    ensures sets { SetsElement (by_place parent child) heap.old heap.new (child_at heap.new parent child) index element result }
    ensures changes { Changes parent heap.old heap.new (element ∷ []) (result ∷ []) 0 (height_at heap.old (child_at heap.old parent child) + 1) }
    ensures spares { KeepsToNeed heap.old heap.new 0 0 }
{
    let did = set_root(heap, &Owner::Child(parent, child), index, element);
    did.1
}

// The same where the index is below the length and there are spares.
fn set_root<T>(heap: &mut Heap<T>, owner: &Owner, index: u32, element: Link) -> (Link, Link)
    requires owner { CanOwn heap.old owner.now }
    requires good { IsGoodVector heap.old (owned heap.old owner.now) }
    requires held { HasHolds heap.old (held_by owner.now (owned heap.old owner.now) ++ element ∷ []) }
    requires apart { IsApart heap.old owner.now element }
    requires inside { index < length (elements heap.old (owned heap.old owner.now)) }
    requires spare { HasSpares heap.old 0 SET_NODES }
    ensures sets { SetsElement owner.now heap.old heap.new result.0 index element result.1 }
    ensures up { ChangesUp owner.now heap.old heap.new result.0 (element ∷ []) (result.1 ∷ []) 0 (height_at heap.old (owned heap.old owner.now) + 1) }
    ensures gains { Gains heap.old heap.new }
{
    let root = root_of(heap, owner);
    let height = height_of(heap, root);
    let own = own_root(heap, owner);
    let given = set_in(heap, own, height, index, element);
    (own, given)
}

// Puts the element at the index of a row with one owner, and gives the one that stood there.
#[cycle(set)]
fn set_in<T>(heap: &mut Heap<T>, row: Link, height: u8, index: u32, element: Link) -> Link
    requires row { CanWrite heap.old height row element }
    requires inside { index < length (seq_at (form_at heap.old) height row) }
    ensures { SetsIn heap.old heap.new height row index element result }
{
    if height == 0 {
        return set_leaf(heap, row, index as usize, element);
    }
    set_inner(heap, row, height - 1, index, element)
}

// The same for an inner row, whose children have the height `below`.
#[cycle(set)]
fn set_inner<T>(heap: &mut Heap<T>, row: Link, below: u8, index: u32, element: Link) -> Link
    requires row { CanWrite heap.old (suc below) row element }
    requires inside { index < length (seq_at (form_at heap.old) (suc below) row) }
    ensures { SetsIn heap.old heap.new (suc below) row index element result }
{
    let found = spot_of(heap, row, below, index);
    let child = heap.own_child(row, found.place);
    set_in(heap, child, below, found.within, element)
}

// The same for a leaf.
fn set_leaf<T>(heap: &mut Heap<T>, row: Link, place: usize, element: Link) -> Link
    requires row { CanWrite heap.old 0 row element }
    requires inside { place < length (seq_at (form_at heap.old) 0 row) }
    ensures { SetsIn heap.old heap.new 0 row place element result }
{
    heap.replace(row, place, element)
}
