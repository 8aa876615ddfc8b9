//! States, and what maps of states need.
ghost use Rattle.std.specs.Prelude.{◌≡◌, ℕ, ◌↔◌, ◌<◌, IsTrue};
ghost use Rattle.node_heap.specs.Heap.{form_at};
ghost use Rattle.same_value.specs.Congruent.{Congruent, IsFrom};
ghost use Rattle.same_value.specs.Contents.{IsStateLink, IsSameState};

use crate::compare::{Both, Compares, ComparesEntries};
use crate::entries::{EqualCells, EqualLines, EqualPairs};
use crate::tries::same_tries;
use elem_core::Element;
use node_heap::{Glass, Heap, Link, Steps};
use std::marker::Brand;
use std::sync::ledger::{Blank, Ledger};

// The same as `same_tries` from two roots on, with steps that are counted on a ledger of its own.
fn with_steps<T: Element, C: ComparesEntries<T>, L: Ledger>(
    heap: &Heap<T>,
    left: Link,
    right: Link,
    how: &C,
    blank: Blank,
) -> bool
    requires reads { C.reads how.now heap.now }
    requires tries { (code : T → ℕ) × IsFrom T.cmp (form_at heap.now) (C.good how.now heap.now) code 0 left
        × IsFrom T.cmp (form_at heap.now) (C.good how.now heap.now) code 0 right }
    requires name { blank.name ≡ L.name }
    requires parts { blank.parts ≡ L.parts }
    requires some { 0 < L.parts }
    ensures congruent { IsTrue result ↔ Congruent (form_at heap.now) (C.same how.now heap.now) left right }
{
    let mut steps = Steps::<L>::new(blank);
    same_tries(&Glass::new(heap), left, right, 0, how, &mut steps)
}

// Whether two tries have the same entries. Nobody asks for the steps.
pub(crate) fn same_roots<T: Element, C: ComparesEntries<T>>(
    heap: &Heap<T>,
    left: Link,
    right: Link,
    how: &C,
) -> bool
    requires reads { C.reads how.now heap.now }
    requires tries { (code : T → ℕ) × IsFrom T.cmp (form_at heap.now) (C.good how.now heap.now) code 0 left
        × IsFrom T.cmp (form_at heap.now) (C.good how.now heap.now) code 0 right }
    ensures congruent { IsTrue result ↔ Congruent (form_at heap.now) (C.same how.now heap.now) left right }
{
    with_steps::<T, C, Brand>(heap, left, right, how, Blank::new(1))
}

/// Whether two states have equal maps and equal sets, by so many bits of the codes.
pub fn equal_state<T: Element>(heap: &Heap<T>, bits: u32, a: Link, b: Link) -> bool
    requires first { IsStateLink T.cmp T.code_of heap.now bits a }
    requires second { IsStateLink T.cmp T.code_of heap.now bits b }
    ensures equal { IsTrue result ↔ IsSameState T.cmp T.code_of heap.now bits a b }
{
    // The bits are there for the clauses alone: tries are compared row by row.
    let _ = bits;
    if a == b {
        return true;
    }
    let first = heap.links(a);
    let second = heap.links(b);
    let values = EqualLines { heap };
    same_roots(heap, first[0], second[0], &EqualPairs { values })
        && same_roots(heap, first[1], second[1], &EqualCells)
}

// Compares states in this heap, by so many bits of the codes.
#[derive(Drop)]
pub(crate) struct EqualStates<'h, T> {
    pub(crate) heap: &'h Heap<T>,
    pub(crate) bits: u32,
}

impl<T: Element> Compares<T> for EqualStates<'_, T> {
    ghost use Rattle.std.specs.Prelude.{◌≡◌};
    ghost use Rattle.same_value.specs.CompareLaws.{state-itself};

    ghost reads = { λ s h. s.heap.now ≡ h };

    ghost good = { λ s h l. IsStateLink T.cmp T.code_of h s.bits l };

    ghost same = { λ s h l m. IsSameState T.cmp T.code_of h s.bits l m };

    ghost counted = { ⊥ };

    ghost quick = { ⊥ };

    fn are_same<L: Ledger>(&self, _: &Glass<'_, T>, both: Both, _: &mut Steps<L>) -> bool {
        equal_state(self.heap, self.bits, both.left, both.right)
    }

    ghost itself = { λ s h l. state-itself T.cmp T.total T.code_of h s.bits l };
}
