//! The entries of sets and of maps, and values that are cells or vectors of cells.
ghost use Rattle.std.specs.Prelude.{◌≡◌, ℕ, ◌↔◌, ◌+◌, ◌≤◌, ⊤, MatchOption, IsTrue};
ghost use Rattle.node_heap.specs.Heap.{form_at};
ghost use Rattle.node_heap.specs.Glass.{lent};
ghost use Rattle.same_value.specs.Cells.{IsCellLink, IsSameCell, IsLines, IsSameLines};
ghost use Rattle.same_value.specs.Entries.{IsPairOf, IsSamePair, HaveSameKey};

use crate::cells::same_cells;
use crate::compare::{Both, Compares, ComparesEntries};
use crate::vectors::equal_vec;
use elem_core::Element;
use node_heap::{Glass, Heap, Link, Steps};
use rrb_core::FlexRef;
use std::sync::ledger::Ledger;

// The values of two pairs with equal keys, None where the keys differ. It takes four steps at most.
fn values_of<T: Element, L: Ledger>(
    glass: &Glass<'_, T>,
    both: Both,
    steps: &mut Steps<L>,
) -> Option<Both>
    requires left { IsPairOf (form_at (lent glass.now)) (λ _. ⊤) both.left }
    requires right { IsPairOf (form_at (lent glass.now)) (λ _. ⊤) both.right }
    ensures values { MatchOption result (¬ ((v : ℕ) × (w : ℕ) × HaveSameKey (form_at (lent glass.now)) T.cmp both.left both.right v w))
        (λ values. HaveSameKey (form_at (lent glass.now)) T.cmp both.left both.right values.left values.right) }
    ensures few { steps.new ≤ steps.old + 4 }
{
    let first = glass.links(both.left, steps);
    let second = glass.links(both.right, steps);
    if !same_cells(glass, first[0], second[0], steps) {
        return None;
    }
    Some(Both {
        left: first[1],
        right: second[1],
    })
}

// Compares cells: the entries of sets, and the values of some maps.
#[derive(Drop)]
pub(crate) struct EqualCells;

impl<T: Element> Compares<T> for EqualCells {
    ghost use Rattle.same_value.specs.CompareLaws.{cell-itself};

    ghost reads = { λ s h. ⊤ };

    ghost good = { λ s h l. IsCellLink (form_at h) l };

    ghost same = { λ s h l m. IsSameCell T.cmp (form_at h) l m };

    ghost counted = { ⊤ };

    ghost quick = { ⊤ };

    fn are_same<L: Ledger>(&self, glass: &Glass<'_, T>, both: Both, steps: &mut Steps<L>) -> bool {
        same_cells(glass, both.left, both.right, steps)
    }

    ghost itself = { λ s h l. cell-itself T.cmp T.total (form_at h) l };
}

impl<T: Element> ComparesEntries<T> for EqualCells {
    ghost use Rattle.same_value.specs.CompareLaws.{cell-keyed, cell-keys, cell-outermost};

    ghost keyed = { λ s h l m. cell-keyed T.cmp (form_at h) l m };

    ghost equal_keys = { λ s h l m j k. cell-keys T.cmp (form_at h) l m j k };

    ghost outermost = { λ s h l k m kind ks. cell-outermost T.cmp (form_at h) l k m kind ks };
}

// Compares the entries of maps: first their keys, and then their values in this way.
#[derive(Drop)]
pub(crate) struct EqualPairs<V> {
    pub(crate) values: V,
}

impl<T: Element, V: Compares<T>> Compares<T> for EqualPairs<V> {
    ghost use Rattle.same_value.specs.CompareLaws.{pair-itself};

    ghost reads = { λ s h. V.reads s.values h };

    ghost good = { λ s h l. IsPairOf (form_at h) (V.good s.values h) l };

    ghost same = { λ s h l m. IsSamePair (form_at h) T.cmp (V.same s.values h) l m };

    ghost counted = { V.quick };

    ghost quick = { ⊥ };

    fn are_same<L: Ledger>(&self, glass: &Glass<'_, T>, both: Both, steps: &mut Steps<L>) -> bool {
        if both.left == both.right {
            return true;
        }
        match values_of(glass, both, steps) {
            None => false,
            Some(values) => self.values.are_same(glass, values, steps),
        }
    }

    ghost itself = { λ s h l. pair-itself T.cmp T.total (form_at h) (V.good s.values h) (V.same s.values h) (V.itself s.values h) l };
}

impl<T: Element, V: Compares<T>> ComparesEntries<T> for EqualPairs<V> {
    ghost use Rattle.same_value.specs.CompareLaws.{pair-keyed, pair-keys, pair-outermost};

    ghost keyed = { λ s h l m. pair-keyed T.cmp (form_at h) (V.same s.values h) l m };

    ghost equal_keys = { λ s h l m j k. pair-keys T.cmp (form_at h) (V.same s.values h) l m j k };

    ghost outermost = { λ s h l k m kind ks. pair-outermost T.cmp (form_at h) (V.good s.values h) (V.same s.values h) l k m kind ks };
}

// Compares vectors of cells in this heap.
#[derive(Drop)]
pub(crate) struct EqualLines<'h, T> {
    pub(crate) heap: &'h Heap<T>,
}

impl<T: Element> Compares<T> for EqualLines<'_, T> {
    ghost use Rattle.std.specs.Prelude.{◌≡◌};
    ghost use Rattle.same_value.specs.CompareLaws.{lines-itself};

    ghost reads = { λ s h. s.heap.now ≡ h };

    ghost good = { λ s h l. IsLines h l };

    ghost same = { λ s h l m. IsSameLines T.cmp h l m };

    ghost counted = { ⊥ };

    ghost quick = { ⊥ };

    fn are_same<L: Ledger>(&self, _: &Glass<'_, T>, both: Both, _: &mut Steps<L>) -> bool {
        equal_vec(self.heap, FlexRef::at(both.left), FlexRef::at(both.right))
    }

    ghost itself = { λ s h l. lines-itself T.cmp T.total h l };
}
