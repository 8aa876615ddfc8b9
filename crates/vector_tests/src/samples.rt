//! Vectors of numbers, as most tests of vectors have them.
ghost use Rattle.std.specs.Prelude.{◌≤◌, ◌-◌, ◌≡◌, ◌+◌, ◌<◌, IsSome, IfOk};
ghost use Rattle.node_heap.specs.Heap.{row_at, holds_at, hold_count, quarter_holds};
ghost use Rattle.rrb_core.specs.Vector.{IsGoodVector};
ghost use Rattle.vector_tests.specs.Stands.{KeepsVectors};

use elem_core::Num;
use node_heap::{Heap, Link};
use rrb_core::{FlexRef, push};
use std::test::Fail;

/// The root of the vector with a new cell of this number after its last.
pub fn pushed(heap: &mut Heap<Num>, root: Link, number: u32) -> Result<Link, Fail>
    requires good { IsGoodVector heap.old root }
    requires few { hold_count heap.old < quarter_holds }
    ensures good { IfOk result (λ l. IsGoodVector heap.new l) }
    ensures held { IfOk result (λ l. 0 < holds_at heap.new l) }
    ensures others { IfOk result (λ _. KeepsVectors heap.old heap.new) }
    ensures count { IfOk result (λ _. hold_count heap.new ≡ hold_count heap.old + 1) }
{
    heap.reserve(1, 0)?;
    let cell = heap.cell(Num(number));
    Ok(push(heap, FlexRef::at(root), cell)?.into_root())
}

/// The root of the vector with the numbers from `from` to below `to` after its last.
pub fn pushed_all(heap: &mut Heap<Num>, root: Link, from: u32, to: u32) -> Result<Link, Fail>
    requires good { IsGoodVector heap.old root }
    requires order { from ≤ to }
    requires few { hold_count heap.old + (to - from) < quarter_holds }
    ensures good { IfOk result (λ l. IsGoodVector heap.new l) }
    ensures others { IfOk result (λ _. KeepsVectors heap.old heap.new) }
    ensures count { IfOk result (λ _. hold_count heap.new ≡ hold_count heap.old + (to - from)) }
{
    let mut root = root;
    for number in from..to {
        root = pushed(heap, root, number)?;
    }
    Ok(root)
}

/// The number in the cell of an element.
pub fn number_in(heap: &Heap<Num>, element: Link) -> Option<u32>
    requires { IsSome (row_at heap.now element) }
{
    heap.value(element).map(|number| number.0)
}

/// The number in the cell of the element at the index.
pub fn number_at(heap: &Heap<Num>, root: Link, index: u32) -> Option<u32>
    requires { IsGoodVector heap.now root }
{
    let element = FlexRef::at(root).get(heap, index)?;
    number_in(heap, element)
}

/// Whether the vector has the numbers from 0 to below this one, in order and no more.
pub fn counts_to(heap: &Heap<Num>, root: Link, to: u32) -> bool
    requires { IsGoodVector heap.now root }
{
    counts_from(heap, root, 0, to)
}

/// Whether it has so many numbers from this one on, in order and no more.
pub fn counts_from(heap: &Heap<Num>, root: Link, from: u32, len: u32) -> bool
    requires { IsGoodVector heap.now root }
{
    for index in 0..len {
        if number_at(heap, root, index) != Some(index.wrapping_add(from)) {
            return false;
        }
    }
    FlexRef::at(root).len(heap) == len && number_at(heap, root, len).is_none()
}
