//! Chains.
ghost use Rattle.std.specs.Prelude.{◌≡◌, ℕ, ◌↔◌, ◌+◌, ◌∷◌, Option, Some, option_to_list, IsTrue, if◌then◌else◌};
ghost use Rattle.node_heap.specs.Forms.{node, chain};
ghost use Rattle.node_heap.specs.Heap.{form_at, IsGraph};
ghost use Rattle.node_heap.specs.Glass.{lent};
ghost use Rattle.same_value.specs.Congruent.{Congruent, IsChainFrom};
ghost use Rattle.same_value.specs.Apart.{Spends};

use crate::compare::{Both, ComparesEntries};
use elem_core::Element;
use node_heap::{Glass, Link, Steps};
use std::sync::ledger::Ledger;

// What a chain row has: its entry, and the row after it.
#[derive(Clone, Copy)]
struct EntryAndNext {
    entry: Link,
    next: Option<Link>,
}

// What the chain row at a link has, in one step.
fn row_of<T, L: Ledger>(glass: &Glass<'_, T>, row: Link, steps: &mut Steps<L>) -> EntryAndNext
    requires { (entry : ℕ) × (next : Option ℕ) × (form_at (lent glass.now) row ≡ Some (node chain (entry ∷ option_to_list next))) }
    ensures row { form_at (lent glass.now) row ≡ Some (node chain (result.entry ∷ option_to_list result.next)) }
    ensures graph { IsGraph (lent glass.now) }
    ensures step { steps.new ≡ steps.old + 1 }
{
    let links = glass.links(row, steps);
    EntryAndNext {
        entry: links[0],
        next: links.get(1).copied(),
    }
}

// Whether two chains have the same entries, in turn. A row of the first chain that the second hasn't costs eight steps at
// most, and so does the first place where the entries differ.
pub(crate) fn same_chains<T: Element, C: ComparesEntries<T>, L: Ledger>(
    glass: &Glass<'_, T>,
    left: Link,
    right: Link,
    how: &C,
    steps: &mut Steps<L>,
) -> bool
    requires reads { C.reads how.now (lent glass.now) }
    requires left { IsChainFrom T.cmp (form_at (lent glass.now)) (C.good how.now (lent glass.now)) left }
    requires right { IsChainFrom T.cmp (form_at (lent glass.now)) (C.good how.now (lent glass.now)) right }
    ensures congruent { IsTrue result ↔ Congruent (form_at (lent glass.now)) (C.same how.now (lent glass.now)) left right }
    ensures few { C.counted → Spends (form_at (lent glass.now)) left right steps.old steps.new (if result then 0 else 8) }
{
    let mut left_row = left;
    let mut right_row = right;
    loop {
        if left_row == right_row {
            return true;
        }
        let first = row_of(glass, left_row, steps);
        let second = row_of(glass, right_row, steps);
        let both = Both {
            left: first.entry,
            right: second.entry,
        };
        if !how.are_same(glass, both, steps) {
            return false;
        }
        match (first.next, second.next) {
            (Some(next), Some(other)) => {
                left_row = next;
                right_row = other;
            }
            (None, None) => return true,
            _ => return false,
        }
    }
}
