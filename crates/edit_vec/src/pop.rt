//! The last element taken out.
ghost use Rattle.std.specs.Prelude.{◌≡◌, ◌↔◌, ℕ, suc, ◌^◌, ◌<◌, ◌≤◌, [], length, IfOk, IsOk, OnErr, IfSome, IsTrue, Ok, None};
ghost use Rattle.node_heap.specs.Heap.{form_at, links_at, holds_at, hold_count, HasSpares, IsGraph, half_holds};
ghost use Rattle.node_heap.specs.Calls.{KeepsToNeed};
ghost use Rattle.node_heap.specs.declared.owner.Owner.TheVariants.{Hold as by_hold};
ghost use Rattle.rrb_core.specs.Seq.{seq_at, IsWell};
ghost use Rattle.rrb_core.specs.Vector.{elements, height_at, HasSums, IsGoodVector};
ghost use Rattle.rrb_core.specs.Push.{last_in};
ghost use Rattle.edit_vec.specs.Edit.{PopsElement};
ghost use Rattle.edit_vec.specs.Steps.{CanPop, LeavesChild, LeavesFirst, PopsIn};

use crate::edit::FlexEdit;
use crate::sums::{put_sums, shrink_sums, sums_without_last};
use elem_core::NoMemory;
use node_heap::{Heap, Link, MOST_HEIGHT};
use rrb_core::{Flex, SET_NODES, height_of, only_element, size};

/// The most nodes that a pop makes: one for each height.
pub const POP_NODES: usize = SET_NODES;

impl FlexEdit {
    /// Takes the last element out and gives it with a hold, and None where the vector is empty. Of the rows of the right spine
    /// from the root to the lowest with two links or more each that is alone is written, and each other is copied, at most 8;
    /// a root that would be left with one child goes, and its child is the root then. Refused only where memory runs out. A
    /// refusal leaves the vector and the heap as they were.
    pub fn pop<T: Drop>(&mut self, heap: &mut Heap<T>) -> Result<Option<Link>, NoMemory>
        requires good { IsGoodVector heap.old self.old }
        requires held { 1 ≤ holds_at heap.old self.old }
        requires few { hold_count heap.old < half_holds }
        ensures pops { IfOk result (λ last. IfSome last (λ given. PopsElement (by_hold self.old) heap.old heap.new self.new given)) }
        ensures none { (result ≡ Ok None) ↔ (elements heap.old self.old ≡ []) }
        ensures nothing { result ≡ Ok None → (heap.new ≡ heap.old) × (self.new ≡ self.old) }
        ensures spares { IfOk result (λ _. KeepsToNeed heap.old heap.new 0 POP_NODES) }
        ensures refused { OnErr result ((heap.new ≡ heap.old) × (self.new ≡ self.old)) }
        ensures ample { HasSpares heap.old 0 POP_NODES → IsOk result }
    {
        if self.view().is_empty(heap) {
            return Ok(None);
        }
        heap.reserve(0, POP_NODES)?;
        let (left, given) = pop_held(heap, Flex::from_root(self.root));
        self.root = left.into_root();
        Ok(Some(given))
    }
}

/// The last element of a vector that isn't empty taken out, with a hold, behind the vector without it, where there are
/// `POP_NODES` spare nodes: it tests and reserves nothing, and refuses nothing. It spends the vector's hold. Of the rows of the
/// path each that is alone is written, as by `FlexEdit::pop`, with no `open` before.
pub fn pop_held<T: Drop>(heap: &mut Heap<T>, vector: Flex) -> (Flex, Link)
    requires good { IsGoodVector heap.old vector }
    requires held { 1 ≤ holds_at heap.old vector }
    requires few { hold_count heap.old < half_holds }
    requires some { 1 ≤ length (elements heap.old vector) }
    requires spare { HasSpares heap.old 0 POP_NODES }
    ensures pops { PopsElement (by_hold vector) heap.old heap.new result.0 result.1 }
    ensures spares { KeepsToNeed heap.old heap.new 0 0 }
{
    heap.rows_form_a_graph();
    let root = vector.into_root();
    let height = height_of(heap, root);
    if leaves_child(heap, root, height) {
        let first = heap.links(root)[0];
        let given = leave_first(heap, root, height);
        return (Flex::from_root(first), given);
    }
    let own = heap.own(root);
    let given = pop_in(heap, own, height);
    (Flex::from_root(own), given)
}

// Whether the root is an inner row over two children, of which the last has one element.
fn leaves_child<T>(heap: &Heap<T>, root: Link, height: u8) -> bool
    requires good { IsGoodVector heap.now root }
    requires height { height ≡ height_at heap.now root }
    ensures { IsTrue result ↔ LeavesChild (form_at heap.now) height root }
{
    if height == 0 {
        return false;
    }
    let links = heap.links(root);
    links.len() == 2 && is_single(heap, links[1], height - 1)
}

// Whether there is one element below a row.
fn is_single<T>(heap: &Heap<T>, link: Link, height: u8) -> bool
    requires well { IsWell (form_at heap.now) height link }
    requires sums { HasSums heap.now height link }
    requires low { height ≤ MOST_HEIGHT }
    requires short { length (seq_at (form_at heap.now) height link) < 2 ^ 32 }
    ensures { IsTrue result ↔ (length (seq_at (form_at heap.now) height link) ≡ 1) }
{
    heap.links(link).len() == 1 && size(heap, link, height) == 1
}

// Gives up the hold of a root over two children, of which the last has one element, and gives that with a hold; the first child
// is held in the root's place.
fn leave_first<T: Drop>(heap: &mut Heap<T>, root: Link, height: u8) -> Link
    requires graph { IsGraph heap.old }
    requires good { IsGoodVector heap.old root }
    requires height { height ≡ height_at heap.old root }
    requires goes { LeavesChild (form_at heap.old) height root }
    requires held { 1 ≤ holds_at heap.old root }
    requires few { hold_count heap.old < half_holds }
    ensures { LeavesFirst heap.old heap.new root result }
{
    let links = heap.links(root);
    let first = links[0];
    let given = only_element(heap, links[1], height - 1);
    heap.hold(first);
    heap.hold(given);
    heap.release(root);
    given
}

// Takes the last element out of a row with one owner, and gives it with a hold. An inner row has two or more.
#[cycle(pop)]
fn pop_in<T: Drop>(heap: &mut Heap<T>, row: Link, height: u8) -> Link
    requires row { CanPop heap.old height row }
    requires some { 1 ≤ length (seq_at (form_at heap.old) height row) }
    requires more { 1 ≤ height → 2 ≤ length (seq_at (form_at heap.old) height row) }
    requires spare { height ≤ heap.old.spare_nodes }
    ensures { PopsIn heap.old heap.new height row result }
{
    if height == 0 {
        return pop_leaf(heap, row);
    }
    pop_inner(heap, row, height - 1)
}

// The same for an inner row, whose children have the height `below`.
#[cycle(pop)]
fn pop_inner<T: Drop>(heap: &mut Heap<T>, row: Link, below: u8) -> Link
    requires row { CanPop heap.old (suc below) row }
    requires more { 2 ≤ length (seq_at (form_at heap.old) (suc below) row) }
    requires spare { suc below ≤ heap.old.spare_nodes }
    ensures { PopsIn heap.old heap.new (suc below) row result }
{
    let last = heap.links(row).len() - 1;
    if is_single(heap, heap.links(row)[last], below) {
        return drop_last(heap, row, below);
    }
    let child = heap.own_child(row, last);
    let given = pop_in(heap, child, below);
    shrink_sums(heap, row, below + 1);
    given
}

// The same for a leaf.
fn pop_leaf<T>(heap: &mut Heap<T>, row: Link) -> Link
    requires row { CanPop heap.old 0 row }
    requires some { 1 ≤ length (seq_at (form_at heap.old) 0 row) }
    ensures { PopsIn heap.old heap.new 0 row result }
{
    let last = heap.links(row).len() - 1;
    heap.remove_link(row, last)
}

// Takes the last child out, which has one element, and gives that with a hold. The children have the height `below`.
fn drop_last<T: Drop>(heap: &mut Heap<T>, row: Link, below: u8) -> Link
    requires row { CanPop heap.old (suc below) row }
    requires two { 2 ≤ length (links_at heap.old row) }
    requires one { length (seq_at (form_at heap.old) below (last_in (form_at heap.old) row)) ≡ 1 }
    ensures { PopsIn heap.old heap.new (suc below) row result }
{
    let last = heap.links(row).len() - 1;
    let sums = sums_without_last(heap, row, below);
    let child = heap.remove_link(row, last);
    put_sums(heap, row, below + 1, sums);
    let given = only_element(heap, child, below);
    heap.hold(given);
    heap.release(child);
    given
}
