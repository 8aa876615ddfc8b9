//! The roots of lists that are edited in place, each of room that is there: of the rows from the root to the place of the edit,
//! each that is alone is written, and each other is copied.
ghost use Rattle.std.specs.Prelude.{◌≡◌, ◌≢◌, ◌+◌, ◌-◌, ◌^◌, ◌<◌, ◌≤◌, List, [], ◌∷◌, ◌++◌, length, take, slice_set};
ghost use Rattle.node_heap.specs.Heap.{holds_at, hold_count, half_holds, quarter_holds, HasSpares};
ghost use Rattle.node_heap.specs.Calls.{Extends};
ghost use Rattle.node_heap.specs.declared.owner.Owner.TheVariants.{Hold as by_hold};
ghost use Rattle.node_heap.specs.Owner.{EditsBy};
ghost use Rattle.rrb_core.specs.declared.grow.TheConstants.{PUSH_NODES};
ghost use Rattle.rrb_core.specs.Vector.{elements, IsGoodVector, IsVectorOf};
ghost use Rattle.edit_vec.specs.declared.pop.TheConstants.{POP_NODES};
ghost use Rattle.versions.specs.declared.in_place.TheConstants.{SET_HERE_NODES};
ghost use Rattle.versions.specs.Roots.{Edits};
ghost use Rattle.versions.specs.Rooted.{IsListOf};

use edit_vec::{FlexEdit, OpenFault, pop_held, push_held};
use elem_core::Element;
use node_heap::{Heap, Link};
use rrb_core::{Flex, SET_NODES};

// The most nodes that a set makes, with that for a root of one's own.
pub(crate) const SET_HERE_NODES: usize = SET_NODES + 1;

// The vector, opened for edits in place.
fn opened<T: Element>(heap: &mut Heap<T>, root: Link) -> FlexEdit
    requires spares { HasSpares heap.old 0 1 }
    requires few { hold_count heap.old < half_holds }
    requires good { IsGoodVector heap.old root }
    requires held { 0 < holds_at heap.old root }
    ensures vector { IsVectorOf heap.new result (elements heap.old root) }
    ensures extends { Extends heap.old heap.new }
    ensures edits { EditsBy (by_hold root) heap.old heap.new result [] [] 0 1 }
{
    match FlexEdit::open(Flex::from_root(root), heap) {
        Ok(edit) => edit,
        Err(OpenFault { vector }) => {
            vector.into_root();
            unreachable!()
        }
    }
}

// The list with the element after its last, in place of the old one, of which a hold is spent.
pub(crate) fn pushed_here<T: Element>(heap: &mut Heap<T>, root: Link, element: T) -> Link
    requires spares { HasSpares heap.old 1 9 }
    requires few { hold_count heap.old < quarter_holds }
    requires good { IsGoodVector heap.old root }
    requires held { 0 < holds_at heap.old root }
    requires short { length (elements heap.old root) ≢ 2 ^ 32 - 1 }
    ensures edits { (xs : List T) → IsListOf heap.old root xs → Edits IsListOf heap.old heap.new root result (xs ++ element ∷ []) }
    ensures made { heap.new.made ≤ heap.old.made + (1 + PUSH_NODES) }
{
    let cell = heap.cell(element);
    push_held(heap, Flex::from_root(root), cell).into_root()
}

// The list with the element at the index, in place of the old one, of which a hold is spent.
pub(crate) fn changed_here<T: Element>(
    heap: &mut Heap<T>,
    root: Link,
    index: u32,
    element: T,
) -> Link
    requires spares { HasSpares heap.old 1 9 }
    requires few { hold_count heap.old < quarter_holds }
    requires good { IsGoodVector heap.old root }
    requires held { 0 < holds_at heap.old root }
    requires inside { index < length (elements heap.old root) }
    ensures edits { (xs : List T) → IsListOf heap.old root xs → Edits IsListOf heap.old heap.new root result (slice_set xs index element) }
    ensures made { heap.new.made ≤ heap.old.made + (1 + SET_HERE_NODES) }
{
    let cell = heap.cell(element);
    let mut edit = opened(heap, root);
    match edit.set(heap, index, cell) {
        Ok(given) => {
            heap.release(given);
            edit.freeze().into_root()
        }
        Err(_) => unreachable!(),
    }
}

// The list without its last element, in place of the old one, of which a hold is spent.
pub(crate) fn popped_here<T: Element>(heap: &mut Heap<T>, root: Link) -> Link
    requires spares { HasSpares heap.old 0 8 }
    requires few { hold_count heap.old < quarter_holds }
    requires good { IsGoodVector heap.old root }
    requires held { 0 < holds_at heap.old root }
    requires some { 0 < length (elements heap.old root) }
    ensures edits { (xs : List T) → IsListOf heap.old root xs → Edits IsListOf heap.old heap.new root result (take (length xs - 1) xs) }
    ensures made { heap.new.made ≤ heap.old.made + POP_NODES }
{
    heap.rows_form_a_graph();
    let (left, given) = pop_held(heap, Flex::from_root(root));
    heap.release(given);
    left.into_root()
}
