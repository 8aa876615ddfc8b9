//! An element put after the last.
ghost use Rattle.std.specs.Prelude.{◌≡◌, ℕ, suc, ◌+◌, ◌-◌, ◌^◌, ◌<◌, ◌≤◌, ◌≢◌, ◌↔◌, [], ◌∷◌, ◌++◌, length, None, IfOk, IfSome, IfNone, OnErr, Err};
ghost use Rattle.node_heap.specs.Links.{Reaches};
ghost use Rattle.node_heap.specs.Heap.{row_at, form_at, links_at, holds_at, owners_at, hold_count, HasSpares, half_holds, most_holds};
ghost use Rattle.node_heap.specs.Calls.{KeepsToNeed, KeepsOldOwners, Builds, HasHolds};
ghost use Rattle.node_heap.specs.InPlace.{child_at, Changes};
ghost use Rattle.node_heap.specs.declared.owner.Owner.TheVariants.{Hold as by_hold, Child as by_place};
ghost use Rattle.node_heap.specs.Owner.{owned, held_by};
ghost use Rattle.node_heap.specs.Root.{CanOwn, IsApart, ChangesUp};
ghost use Rattle.rrb_core.specs.Seq.{seq_at, IsWell};
ghost use Rattle.rrb_core.specs.Vector.{elements, height_at, IsGoodVector, IsVectorOf};
ghost use Rattle.rrb_core.specs.Push.{last_in, IsPacked};
ghost use Rattle.edit_vec.specs.Edit.{PushesElement};
ghost use Rattle.edit_vec.specs.Steps.{CanPushRoot, CanWrite, HasRoomAt, IsRootOver, PushesRoot, PushesIn};

use crate::edit::FlexEdit;
use crate::sums::{grow_sums, put_sums, sums_beside};
use node_heap::{Heap, Link, Owner, own_root, root_of};
use rrb_core::{Flex, FlexRef, PUSH_NODES, PushFault, ROW_LINKS, height_of, inner_over, spine};

impl FlexEdit {
    /// Puts `element` after the last. It spends the element's hold on Ok alone. The element goes into the lowest row of the right
    /// spine that has fewer than 32 links; of the rows from the root to that one each that is alone is written, and each other
    /// is copied. Only where each has 32 comes a new root over the old one. It makes at most as many nodes as the height
    /// and 2, so 9. Refused with `Long` where the vector has 2^32 - 1 elements, and with `Memory` where memory runs out. A
    /// refusal leaves the vector and the heap as they were.
    pub fn push<T>(&mut self, heap: &mut Heap<T>, element: Link) -> Result<(), PushFault>
        requires good { IsGoodVector heap.old self.old }
        requires held { HasHolds heap.old (self.old ∷ element ∷ []) }
        requires few { hold_count heap.old < half_holds }
        ensures pushes { IfOk result (λ _. PushesElement (by_hold self.old) heap.old heap.new self.new element) }
        ensures spares { IfOk result (λ _. KeepsToNeed heap.old heap.new 0 PUSH_NODES) }
        ensures refused { OnErr result ((heap.new ≡ heap.old) × (self.new ≡ self.old)) }
        ensures long { (result ≡ Err PushFault.Long) ↔ (length (elements heap.old self.old) ≡ 2 ^ 32 - 1) }
        ensures ample { HasSpares heap.old 0 PUSH_NODES → result ≢ Err PushFault.Memory }
    {
        match push_by(heap, &Owner::Hold(self.root), element) {
            Ok(root) => {
                self.root = root;
                Ok(())
            }
            Err(fault) => Err(fault),
        }
    }
}

/// The same for a vector that is the child at an index of a row with one owner, which stays but for that child. The element
/// isn't that row and doesn't reach it.
pub fn push_at<T>(
    heap: &mut Heap<T>,
    parent: Link,
    child: usize,
    element: Link,
) -> Result<(), PushFault>
    requires sole { owners_at heap.old parent ≡ 1 }
    requires child { child < length (links_at heap.old parent) }
    requires good { IsGoodVector heap.old (child_at heap.old parent child) }
    requires held { 1 ≤ holds_at heap.old element }
    requires apart { ¬ Reaches (links_at heap.old) element parent }
    requires few { hold_count heap.old < half_holds }
    ensures pushes { IfOk result (λ _. PushesElement (by_place parent child) heap.old heap.new (child_at heap.new parent child) element) }
    ensures changes { IfOk result (λ _. Changes parent heap.old heap.new (element ∷ []) [] 0 (height_at heap.old (child_at heap.old parent child) + 2)) }
    ensures spares { IfOk result (λ _. KeepsToNeed heap.old heap.new 0 PUSH_NODES) }
    ensures refused { OnErr result (heap.new ≡ heap.old) }
    ensures long { (result ≡ Err PushFault.Long) ↔ (length (elements heap.old (child_at heap.old parent child)) ≡ 2 ^ 32 - 1) }
    ensures ample { HasSpares heap.old 0 PUSH_NODES → result ≢ Err PushFault.Memory }
{
    match push_by(heap, &Owner::Child(parent, child), element) {
        Ok(_) => Ok(()),
        Err(fault) => Err(fault),
    }
}

// The same for a vector whose root is owned so, and gives its root then.
fn push_by<T>(heap: &mut Heap<T>, owner: &Owner, element: Link) -> Result<Link, PushFault>
    requires owner { CanOwn heap.old owner.now }
    requires good { IsGoodVector heap.old (owned heap.old owner.now) }
    requires held { HasHolds heap.old (held_by owner.now (owned heap.old owner.now) ++ element ∷ []) }
    requires apart { IsApart heap.old owner.now element }
    requires few { hold_count heap.old < half_holds }
    ensures pushes { IfOk result (λ root. PushesElement owner.now heap.old heap.new root element) }
    ensures up { IfOk result (λ root. ChangesUp owner.now heap.old heap.new root (element ∷ []) [] 0 (height_at heap.old (owned heap.old owner.now) + 2)) }
    ensures spares { IfOk result (λ _. KeepsToNeed heap.old heap.new 0 PUSH_NODES) }
    ensures refused { OnErr result (heap.new ≡ heap.old) }
    ensures long { (result ≡ Err PushFault.Long) ↔ (length (elements heap.old (owned heap.old owner.now)) ≡ 2 ^ 32 - 1) }
    ensures ample { HasSpares heap.old 0 PUSH_NODES → result ≢ Err PushFault.Memory }
{
    if FlexRef::at(root_of(heap, owner)).is_longest(heap) {
        return Err(PushFault::Long);
    }
    heap.reserve(0, PUSH_NODES)?;
    Ok(push_root(heap, owner, element))
}

/// The vector with the element after its last, where it has fewer than 2^32 - 1 and there are `PUSH_NODES` spare nodes: it tests
/// and reserves nothing, and refuses nothing. It spends the holds of both. Of the rows of the path each that is alone is written,
/// as by `FlexEdit::push`, with no `open` before.
pub fn push_held<T>(heap: &mut Heap<T>, vector: Flex, element: Link) -> Flex
    requires good { IsGoodVector heap.old vector }
    requires held { HasHolds heap.old (vector ∷ element ∷ []) }
    requires few { hold_count heap.old < half_holds }
    requires short { length (elements heap.old vector) + 1 < 2 ^ 32 }
    requires spare { HasSpares heap.old 0 PUSH_NODES }
    ensures pushes { PushesElement (by_hold vector) heap.old heap.new result element }
    ensures spares { KeepsToNeed heap.old heap.new 0 0 }
{
    heap.rows_form_a_graph();
    let root = push_root(heap, &Owner::Hold(vector.into_root()), element);
    Flex::from_root(root)
}

/// `push_at` where the vector has fewer than 2^32 - 1 elements and there are `PUSH_NODES` spare nodes: it tests and reserves
/// nothing, and refuses nothing.
pub fn push_there<T>(heap: &mut Heap<T>, parent: Link, child: usize, element: Link)
    requires sole { owners_at heap.old parent ≡ 1 }
    requires child { child < length (links_at heap.old parent) }
    requires good { IsGoodVector heap.old (child_at heap.old parent child) }
    requires held { 1 ≤ holds_at heap.old element }
    requires apart { ¬ Reaches (links_at heap.old) element parent }
    requires few { hold_count heap.old < half_holds }
    requires short { length (elements heap.old (child_at heap.old parent child)) + 1 < 2 ^ 32 }
    requires spare { HasSpares heap.old 0 PUSH_NODES }
    ensures pushes { PushesElement (by_place parent child) heap.old heap.new (child_at heap.new parent child) element }
    ensures changes { Changes parent heap.old heap.new (element ∷ []) [] 0 (height_at heap.old (child_at heap.old parent child) + 2) }
    ensures spares { KeepsToNeed heap.old heap.new 0 0 }
{
    heap.rows_form_a_graph();
    let _ = push_root(heap, &Owner::Child(parent, child), element);
}

// The same where the vector has room for an element and there are spares.
fn push_root<T>(heap: &mut Heap<T>, owner: &Owner, element: Link) -> Link
    requires owner { CanOwn heap.old owner.now }
    requires root { CanPushRoot heap.old (owned heap.old owner.now) element }
    requires held { HasHolds heap.old (held_by owner.now (owned heap.old owner.now) ++ element ∷ []) }
    requires apart { IsApart heap.old owner.now element }
    requires few { hold_count heap.old < half_holds }
    ensures { PushesRoot owner.now heap.old heap.new result element }
{
    let root = root_of(heap, owner);
    let height = height_of(heap, root);
    match lowest_with_room(heap, root, height) {
        Some(lowest) => push_own(heap, owner, height, lowest, element),
        None => push_over(heap, owner, height, element),
    }
}

// The same where the right spine has room at the height `lowest`.
fn push_own<T>(heap: &mut Heap<T>, owner: &Owner, height: u8, lowest: u8, element: Link) -> Link
    requires owner { CanOwn heap.old owner.now }
    requires root { CanPushRoot heap.old (owned heap.old owner.now) element }
    requires held { HasHolds heap.old (held_by owner.now (owned heap.old owner.now) ++ element ∷ []) }
    requires apart { IsApart heap.old owner.now element }
    requires height { height ≡ height_at heap.old (owned heap.old owner.now) }
    requires room { HasRoomAt (form_at heap.old) height lowest (owned heap.old owner.now) }
    ensures { PushesRoot owner.now heap.old heap.new result element }
{
    let own = own_root(heap, owner);
    push_in(heap, own, height, lowest, element);
    own
}

// The same where the root is packed: a root over it takes its place.
fn push_over<T>(heap: &mut Heap<T>, owner: &Owner, height: u8, element: Link) -> Link
    requires owner { CanOwn heap.old owner.now }
    requires root { CanPushRoot heap.old (owned heap.old owner.now) element }
    requires held { HasHolds heap.old (held_by owner.now (owned heap.old owner.now) ++ element ∷ []) }
    requires apart { IsApart heap.old owner.now element }
    requires few { hold_count heap.old < half_holds }
    requires height { height ≡ height_at heap.old (owned heap.old owner.now) }
    requires packed { IsPacked (form_at heap.old) height (owned heap.old owner.now) }
    ensures { PushesRoot owner.now heap.old heap.new result element }
{
    match *owner {
        Owner::Hold(root) => root_beside(heap, root, height, element),
        Owner::Child(parent, child) => push_over_child(heap, parent, child, height, element),
    }
}

// The same where the root is a row's child.
fn push_over_child<T>(
    heap: &mut Heap<T>,
    parent: Link,
    child: usize,
    height: u8,
    element: Link,
) -> Link
    requires few { hold_count heap.old < half_holds }
    requires sole { owners_at heap.old parent ≡ 1 }
    requires child { child < length (links_at heap.old parent) }
    requires root { CanPushRoot heap.old (child_at heap.old parent child) element }
    requires apart { ¬ Reaches (links_at heap.old) element parent }
    requires height { height ≡ height_at heap.old (child_at heap.old parent child) }
    requires packed { IsPacked (form_at heap.old) height (child_at heap.old parent child) }
    ensures { PushesRoot (by_place parent child) heap.old heap.new result element }
{
    // The root's place becomes a hold, which the new root spends.
    let root = heap.remove_link(parent, child);
    let over = root_beside(heap, root, height, element);
    heap.insert_link(parent, child, over);
    over
}

// The height of the lowest row of the right spine with room, or None where the row is packed: one pass down.
fn lowest_with_room<T>(heap: &Heap<T>, row: Link, height: u8) -> Option<u8>
    requires well { IsWell (form_at heap.now) height row }
    ensures room { IfSome result (λ lowest. HasRoomAt (form_at heap.now) height lowest row) }
    ensures packed { IfNone result (IsPacked (form_at heap.now) height row) }
{
    let mut link = row;
    let mut level = height;
    let mut lowest = None;
    while level > 0 {
        let links = heap.links(link);
        let count = links.len();
        if count < ROW_LINKS {
            lowest = Some(level);
        }
        link = links[count - 1];
        level -= 1;
    }
    if heap.links(link).len() < ROW_LINKS {
        return Some(0);
    }
    lowest
}

// A root over a packed one, whose hold is spent, and a row over the element alone.
fn root_beside<T>(heap: &mut Heap<T>, root: Link, height: u8, element: Link) -> Link
    requires root { CanPushRoot heap.old root element }
    requires held { HasHolds heap.old (root ∷ element ∷ []) }
    requires height { height ≡ height_at heap.old root }
    requires packed { IsPacked (form_at heap.old) height root }
    ensures vector { IsVectorOf heap.new result (elements heap.old root ++ element ∷ []) }
    ensures tall { height_at heap.new result ≡ suc height }
    ensures over { IsRootOver heap.new height root result element }
    ensures fresh { row_at heap.old result ≡ None }
    ensures owners { KeepsOldOwners heap.old heap.new }
    ensures builds { Builds heap.old heap.new (root ∷ element ∷ []) (result ∷ []) 0 (height + 2) }
{
    let child = spine(heap, height, element);
    inner_over(heap, &[root, child], height)
}

// Puts the element after the last of a row with one owner: at the height `lowest` of its spine. The sums of the rows above grow
// on the way down, since they only count one more.
fn push_in<T>(heap: &mut Heap<T>, row: Link, height: u8, lowest: u8, element: Link)
    requires row { CanWrite heap.old height row element }
    requires short { length (seq_at (form_at heap.old) height row) + 1 < 2 ^ 32 }
    requires few { hold_count heap.old < most_holds }
    requires room { HasRoomAt (form_at heap.old) height lowest row }
    ensures { PushesIn heap.old heap.new height lowest row element }
{
    let mut link = row;
    let mut level = height;
    while level > lowest {
        let last = heap.links(link).len() - 1;
        let child = heap.own_child(link, last);
        grow_sums(heap, link, level);
        link = child;
        level -= 1;
    }
    push_here(heap, link, level, element);
}

// The same for a row of that height.
fn push_here<T>(heap: &mut Heap<T>, row: Link, height: u8, element: Link)
    requires row { CanWrite heap.old height row element }
    requires short { length (seq_at (form_at heap.old) height row) + 1 < 2 ^ 32 }
    requires few { hold_count heap.old < most_holds }
    requires room { HasRoomAt (form_at heap.old) height height row }
    ensures { PushesIn heap.old heap.new height height row element }
{
    if height == 0 {
        push_leaf(heap, row, element);
        return;
    }
    push_beside(heap, row, height - 1, element);
}

// The same for a leaf.
fn push_leaf<T>(heap: &mut Heap<T>, row: Link, element: Link)
    requires row { CanWrite heap.old 0 row element }
    requires room { length (links_at heap.old row) < 32 }
    ensures { PushesIn heap.old heap.new 0 0 row element }
{
    let count = heap.links(row).len();
    heap.insert_link(row, count, element);
}

// The same for an inner row, whose children have the height `below`: the element comes below a new last child.
fn push_beside<T>(heap: &mut Heap<T>, row: Link, below: u8, element: Link)
    requires row { CanWrite heap.old (suc below) row element }
    requires short { length (seq_at (form_at heap.old) (suc below) row) + 1 < 2 ^ 32 }
    requires few { hold_count heap.old < most_holds }
    requires room { length (links_at heap.old row) < 32 }
    requires packed { IsPacked (form_at heap.old) below (last_in (form_at heap.old) row) }
    ensures { PushesIn heap.old heap.new (suc below) (suc below) row element }
{
    let count = heap.links(row).len();
    let child = spine(heap, below, element);
    heap.insert_link(row, count, child);
    let sums = sums_beside(heap, row, below);
    put_sums(heap, row, below + 1, sums);
}
