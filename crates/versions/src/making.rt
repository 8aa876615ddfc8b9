//! The roots of new lists, each made of room that is there.
ghost use Rattle.std.specs.Prelude.{◌≡◌, ◌≢◌, ◌+◌, ◌-◌, ◌^◌, ◌<◌, ◌≤◌, List, [], ◌∷◌, ◌++◌, length, take, drop, insert, remove, slice_set};
ghost use Rattle.node_heap.specs.Heap.{node_count, hold_count, quarter_holds, HasSpares};
ghost use Rattle.rrb_core.specs.declared.grow.TheConstants.{PUSH_NODES};
ghost use Rattle.rrb_core.specs.declared.replace.TheConstants.{SET_NODES};
ghost use Rattle.rrb_core.specs.Vector.{elements, IsGoodVector};
ghost use Rattle.rrb_join.specs.declared.joining.TheConstants.{SEAM_NODES};
ghost use Rattle.versions.specs.declared.making.TheConstants.{SLICE_NODES, ERASE_NODES};
ghost use Rattle.versions.specs.Roots.{Makes};
ghost use Rattle.versions.specs.Rooted.{IsListOf};

use elem_core::Element;
use node_heap::{Heap, Link};
use rrb_core::{Flex, FlexRef, TAKE_NODES, push, set};
use rrb_join::{SEAM_NODES, concat, erase, insert, slice};

// The nodes of the list without elements.
pub(crate) const EMPTY_NODES: usize = 1;

// The most nodes that a slice makes, for its end and for its begin.
pub(crate) const SLICE_NODES: usize = TAKE_NODES + SEAM_NODES;

// The most nodes that a removal makes: for the part before it, for the part behind, and to join them.
pub(crate) const ERASE_NODES: usize = TAKE_NODES + 2 * SEAM_NODES;

// The list without elements.
pub(crate) fn emptied<T: Element>(heap: &mut Heap<T>) -> Link
    requires spares { HasSpares heap.old 0 1 }
    requires few { hold_count heap.old < quarter_holds }
    ensures { Makes IsListOf heap.old heap.new result [] }
{
    match Flex::empty(heap) {
        Ok(vector) => vector.into_root(),
        Err(_) => unreachable!(),
    }
}

// The same list once more.
pub(crate) fn shared<T: Element>(heap: &mut Heap<T>, root: Link) -> Link
    requires good { IsGoodVector heap.old root }
    requires few { hold_count heap.old < quarter_holds }
    ensures { (xs : List T) → IsListOf heap.old root xs → Makes IsListOf heap.old heap.new result xs }
{
    FlexRef::at(root).share(heap).into_root()
}

// The list with the element after its last.
pub(crate) fn pushed<T: Element>(heap: &mut Heap<T>, root: Link, element: T) -> Link
    requires spares { HasSpares heap.old 1 9 }
    requires few { hold_count heap.old < quarter_holds }
    requires good { IsGoodVector heap.old root }
    requires short { length (elements heap.old root) ≢ 2 ^ 32 - 1 }
    ensures makes { (xs : List T) → IsListOf heap.old root xs → Makes IsListOf heap.old heap.new result (xs ++ element ∷ []) }
    ensures nodes { node_count heap.new ≤ node_count heap.old + PUSH_NODES }
{
    let cell = heap.cell(element);
    match push(heap, FlexRef::at(root), cell) {
        Ok(vector) => vector.into_root(),
        Err(_) => unreachable!(),
    }
}

// The list with the element at the index.
pub(crate) fn changed<T: Element>(heap: &mut Heap<T>, root: Link, index: u32, element: T) -> Link
    requires spares { HasSpares heap.old 1 8 }
    requires few { hold_count heap.old < quarter_holds }
    requires good { IsGoodVector heap.old root }
    requires inside { index < length (elements heap.old root) }
    ensures makes { (xs : List T) → IsListOf heap.old root xs → Makes IsListOf heap.old heap.new result (slice_set xs index element) }
    ensures nodes { node_count heap.new ≤ node_count heap.old + SET_NODES }
{
    let cell = heap.cell(element);
    match set(heap, FlexRef::at(root), index, cell) {
        Ok(vector) => vector.into_root(),
        Err(_) => unreachable!(),
    }
}

// The list with the element before the one at the index.
pub(crate) fn inserted<T: Element>(heap: &mut Heap<T>, root: Link, index: u32, element: T) -> Link
    requires spares { HasSpares heap.old 1 17 }
    requires few { hold_count heap.old < quarter_holds }
    requires good { IsGoodVector heap.old root }
    requires inside { index ≤ length (elements heap.old root) }
    requires short { length (elements heap.old root) ≢ 2 ^ 32 - 1 }
    ensures makes { (xs : List T) → IsListOf heap.old root xs → Makes IsListOf heap.old heap.new result (insert xs index element) }
    ensures nodes { node_count heap.new ≤ node_count heap.old + SEAM_NODES }
{
    let cell = heap.cell(element);
    match insert(heap, FlexRef::at(root), index, cell) {
        Ok(vector) => vector.into_root(),
        Err(_) => unreachable!(),
    }
}

// The elements of one list and then those of another.
pub(crate) fn joined<T: Element>(heap: &mut Heap<T>, left: Link, right: Link) -> Link
    requires spares { HasSpares heap.old 0 17 }
    requires few { hold_count heap.old < quarter_holds }
    requires left { IsGoodVector heap.old left }
    requires right { IsGoodVector heap.old right }
    requires short { length (elements heap.old left) + length (elements heap.old right) < 2 ^ 32 }
    ensures makes { (xs ys : List T) → IsListOf heap.old left xs → IsListOf heap.old right ys → Makes IsListOf heap.old heap.new result (xs ++ ys) }
    ensures nodes { node_count heap.new ≤ node_count heap.old + SEAM_NODES }
{
    match concat(heap, FlexRef::at(left), FlexRef::at(right)) {
        Ok(vector) => vector.into_root(),
        Err(_) => unreachable!(),
    }
}

// The elements from the one index to before the other.
pub(crate) fn sliced<T: Element>(heap: &mut Heap<T>, root: Link, from: u32, to: u32) -> Link
    requires spares { HasSpares heap.old 0 25 }
    requires few { hold_count heap.old < quarter_holds }
    requires good { IsGoodVector heap.old root }
    requires order { from ≤ to }
    requires inside { to ≤ length (elements heap.old root) }
    ensures makes { (xs : List T) → IsListOf heap.old root xs → Makes IsListOf heap.old heap.new result (drop from (take to xs)) }
    ensures nodes { node_count heap.new ≤ node_count heap.old + SLICE_NODES }
{
    match slice(heap, FlexRef::at(root), from, to) {
        Ok(vector) => vector.into_root(),
        Err(_) => unreachable!(),
    }
}

// The list without the element at the index.
pub(crate) fn cut_out<T: Element>(heap: &mut Heap<T>, root: Link, index: u32) -> Link
    requires spares { HasSpares heap.old 0 42 }
    requires few { hold_count heap.old < quarter_holds }
    requires good { IsGoodVector heap.old root }
    requires inside { index < length (elements heap.old root) }
    ensures makes { (xs : List T) → IsListOf heap.old root xs → Makes IsListOf heap.old heap.new result (remove xs index) }
    ensures nodes { node_count heap.new ≤ node_count heap.old + ERASE_NODES }
{
    match erase(heap, FlexRef::at(root), index, index + 1) {
        Ok(vector) => vector.into_root(),
        Err(_) => unreachable!(),
    }
}
