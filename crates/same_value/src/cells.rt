//! Cells.
ghost use Rattle.std.specs.Prelude.{◌↔◌, ◌+◌, ◌≤◌, IsTrue};
ghost use Rattle.node_heap.specs.Heap.{form_at};
ghost use Rattle.node_heap.specs.Glass.{lent};
ghost use Rattle.same_value.specs.Cells.{IsCellLink, IsSameCell};

use elem_core::Element;
use node_heap::{Glass, Heap, Link, Steps};
use std::sync::ledger::Ledger;

// Whether two cells have equal values, in two steps at most.
pub(crate) fn same_cells<T: Element, L: Ledger>(
    glass: &Glass<'_, T>,
    left: Link,
    right: Link,
    steps: &mut Steps<L>,
) -> bool
    requires left { IsCellLink (form_at (lent glass.now)) left }
    requires right { IsCellLink (form_at (lent glass.now)) right }
    ensures same { IsTrue result ↔ IsSameCell T.cmp (form_at (lent glass.now)) left right }
    ensures few { steps.new ≤ steps.old + 2 }
{
    if left == right {
        return true;
    }
    match (glass.value(left, steps), glass.value(right, steps)) {
        (Some(first), Some(second)) => first == second,
        _ => unreachable!(),
    }
}

// The same without counting.
pub(crate) fn same_values<T: Element>(heap: &Heap<T>, left: Link, right: Link) -> bool
    requires left { IsCellLink (form_at heap.now) left }
    requires right { IsCellLink (form_at heap.now) right }
    ensures same { IsTrue result ↔ IsSameCell T.cmp (form_at heap.now) left right }
{
    if left == right {
        return true;
    }
    match (heap.value(left), heap.value(right)) {
        (Some(value), Some(other)) => value == other,
        _ => unreachable!(),
    }
}
