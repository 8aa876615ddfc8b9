//! Maps and sets.
ghost use Rattle.std.specs.Prelude.{◌≡◌, ℕ, ◌↔◌, ◌+◌, ◌*◌, ◌≤◌, List, length, IsTrue};
ghost use Rattle.node_heap.specs.Heap.{form_at};
ghost use Rattle.node_heap.specs.Glass.{lent};
ghost use Rattle.champ_chain.specs.Entry.{Entry};
ghost use Rattle.champ_kinds.specs.Binding.{Binding};
ghost use Rattle.champ_kinds.specs.Kinds.{IsSetOf};
ghost use Rattle.same_value.specs.Apart.{HasApart};
ghost use Rattle.same_value.specs.Cells.{IsCellLink, IsSameCell};
ghost use Rattle.same_value.specs.Contents.{AreSameMaps, AreSameSets, IsMapWith, IsValueOf, IsSameValue};

use crate::entries::{EqualCells, EqualLines, EqualPairs};
use crate::states::{EqualStates, same_roots};
use crate::tries::same_tries;
use crate::values::Values;
use champ_kinds::{MapRef, SetRef};
use elem_core::Element;
use node_heap::{Glass, Heap, Steps};
use std::sync::ledger::Ledger;

/// Whether two sets by as many bits have equal keys. It takes at most 204 steps for each trie and chain row that the first
/// has and the second doesn't share.
pub fn equal_set<T: Element, L: Ledger>(
    glass: Glass<'_, T>,
    a: SetRef,
    b: SetRef,
    steps: &mut Steps<L>,
) -> bool
    requires bits { a.bits ≡ b.bits }
    requires first { (E : List (Entry T)) × IsSetOf T.cmp T.code_of (lent {T = T} glass) a E }
    requires second { (E : List (Entry T)) × IsSetOf T.cmp T.code_of (lent {T = T} glass) b E }
    ensures equal { (E D : List (Entry T)) → IsSetOf T.cmp T.code_of (lent {T = T} glass.entry) a E → IsSetOf T.cmp T.code_of (lent {T = T} glass.entry) b D →
        (IsTrue result ↔ AreSameSets T.cmp E D) }
    ensures few { (rows : List ℕ) → HasApart (form_at (lent {T = T} glass.entry)) a.root b.root rows → steps.new ≤ steps.old + 204 * length rows }
{
    same_tries(&glass, a.root(), b.root(), 0, &EqualCells, steps)
}

/// Whether two maps by as many bits, whose values are cells, have equal keys with equal values. It takes at most 204 steps
/// for each trie and chain row that the first has and the second doesn't share.
pub fn equal_cells<T: Element, L: Ledger>(
    glass: Glass<'_, T>,
    a: MapRef,
    b: MapRef,
    steps: &mut Steps<L>,
) -> bool
    requires bits { a.bits ≡ b.bits }
    requires first { (M : List (Binding T)) × IsMapWith T.cmp T.code_of (lent {T = T} glass) (IsCellLink (form_at (lent {T = T} glass))) a M }
    requires second { (M : List (Binding T)) × IsMapWith T.cmp T.code_of (lent {T = T} glass) (IsCellLink (form_at (lent {T = T} glass))) b M }
    ensures equal { (M N : List (Binding T)) → IsMapWith T.cmp T.code_of (lent {T = T} glass.entry) (IsCellLink (form_at (lent {T = T} glass.entry))) a M →
        IsMapWith T.cmp T.code_of (lent {T = T} glass.entry) (IsCellLink (form_at (lent {T = T} glass.entry))) b N →
        (IsTrue result ↔ AreSameMaps T.cmp (IsSameCell T.cmp (form_at (lent {T = T} glass.entry))) M N) }
    ensures few { (rows : List ℕ) → HasApart (form_at (lent {T = T} glass.entry)) a.root b.root rows → steps.new ≤ steps.old + 204 * length rows }
{
    let how = EqualPairs { values: EqualCells };
    same_tries(&glass, a.root(), b.root(), 0, &how, steps)
}

/// Whether two maps by as many bits, whose values are of this sort, have equal keys with the same values.
pub fn equal_map<T: Element>(heap: &Heap<T>, a: MapRef, b: MapRef, values: Values) -> bool
    requires bits { a.bits ≡ b.bits }
    requires first { (M : List (Binding T)) × IsMapWith T.cmp T.code_of heap.now (IsValueOf T.cmp T.code_of heap.now values a.bits) a M }
    requires second { (M : List (Binding T)) × IsMapWith T.cmp T.code_of heap.now (IsValueOf T.cmp T.code_of heap.now values a.bits) b M }
    ensures equal { (M N : List (Binding T)) → IsMapWith T.cmp T.code_of heap.now (IsValueOf T.cmp T.code_of heap.now values a.bits) a M →
        IsMapWith T.cmp T.code_of heap.now (IsValueOf T.cmp T.code_of heap.now values a.bits) b N →
        (IsTrue result ↔ AreSameMaps T.cmp (IsSameValue T.cmp T.code_of heap.now values a.bits) M N) }
{
    let left = a.root();
    let right = b.root();
    match values {
        Values::Cells => same_roots(heap, left, right, &EqualPairs { values: EqualCells }),
        Values::Lines => {
            let values = EqualLines { heap };
            same_roots(heap, left, right, &EqualPairs { values })
        }
        Values::States => {
            let bits = a.bits();
            let values = EqualStates { heap, bits };
            same_roots(heap, left, right, &EqualPairs { values })
        }
    }
}
