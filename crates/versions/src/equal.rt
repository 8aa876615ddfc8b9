//! Whether sets and maps are equal, by their roots.
ghost use Rattle.std.specs.Prelude.{◌≡◌, ◌↔◌, ℕ, ◌+◌, ◌*◌, ◌<◌, ◌≤◌, List, length, IsTrue};
ghost use Rattle.std.specs.List.{AllZip};
ghost use Rattle.std.specs.declared.cmp.Ordering.TheVariants.{Equal};
ghost use Rattle.node_heap.specs.Heap.{form_at};
ghost use Rattle.same_value.specs.Apart.{HasApart};
ghost use Rattle.versions.specs.Sorted.{IsEqualEntry};
ghost use Rattle.versions.specs.Keyed.{IsKeySet};
ghost use Rattle.versions.specs.Bound.{IsKeyMap};

use crate::piece::Piece;
use champ_kinds::{MapRef, SetRef};
use elem_core::{CODE_BITS, Element};
use node_heap::{Glass, Heap, Link, Steps};
use same_value::{Values, equal_map, equal_set};
use std::marker::Brand;
use std::sync::ledger::{Blank, Ledger};

// Whether two sets have equal keys. It takes at most 204 steps for each row that the first has and the second doesn't share.
fn in_few_steps<K: Element, L: Ledger>(
    heap: &Heap<K>,
    left: Link,
    right: Link,
    steps: &mut Steps<L>,
) -> bool
    requires left { (ks : List K) × IsKeySet K.cmp K.code_of heap.now left ks }
    requires right { (js : List K) × IsKeySet K.cmp K.code_of heap.now right js }
    ensures equal { (ks js : List K) → IsKeySet K.cmp K.code_of heap.now left ks → IsKeySet K.cmp K.code_of heap.now right js →
        (IsTrue result ↔ AllZip (λ x y. K.cmp x y ≡ Equal) ks js) }
    ensures few { (rows : List ℕ) → HasApart (form_at heap.now) left right rows → steps.new ≤ steps.old + 204 * length rows }
{
    let left = SetRef::at(left, CODE_BITS);
    let right = SetRef::at(right, CODE_BITS);
    equal_set(Glass::new(heap), left, right, steps)
}

// The same, with steps that are counted on a ledger of its own.
fn with_steps<K: Element, L: Ledger>(heap: &Heap<K>, left: Link, right: Link, blank: Blank) -> bool
    requires left { (ks : List K) × IsKeySet K.cmp K.code_of heap.now left ks }
    requires right { (js : List K) × IsKeySet K.cmp K.code_of heap.now right js }
    requires name { blank.name ≡ L.name }
    requires parts { blank.parts ≡ L.parts }
    requires some { 0 < L.parts }
    ensures { (ks js : List K) → IsKeySet K.cmp K.code_of heap.now left ks → IsKeySet K.cmp K.code_of heap.now right js →
        (IsTrue result ↔ AllZip (λ x y. K.cmp x y ≡ Equal) ks js) }
{
    let mut steps = Steps::<L>::new(blank);
    in_few_steps(heap, left, right, &mut steps)
}

// Whether two sets have equal keys. Nobody asks for the steps.
pub(crate) fn same_sets<K: Element>(heap: &Heap<K>, left: Link, right: Link) -> bool
    requires left { (ks : List K) × IsKeySet K.cmp K.code_of heap.now left ks }
    requires right { (js : List K) × IsKeySet K.cmp K.code_of heap.now right js }
    ensures { (ks js : List K) → IsKeySet K.cmp K.code_of heap.now left ks → IsKeySet K.cmp K.code_of heap.now right js →
        (IsTrue result ↔ AllZip (λ x y. K.cmp x y ≡ Equal) ks js) }
{
    with_steps::<K, Brand>(heap, left, right, Blank::new(1))
}

// Whether two maps have equal keys with equal values.
pub(crate) fn same_maps<K: Element, V: Ord + Drop>(
    heap: &Heap<Piece<K, V>>,
    left: Link,
    right: Link,
) -> bool
    requires left { (es : List (K × V)) × IsKeyMap K.cmp V.cmp K.code_of heap.now left es }
    requires right { (ds : List (K × V)) × IsKeyMap K.cmp V.cmp K.code_of heap.now right ds }
    ensures { (es ds : List (K × V)) → IsKeyMap K.cmp V.cmp K.code_of heap.now left es → IsKeyMap K.cmp V.cmp K.code_of heap.now right ds →
        (IsTrue result ↔ AllZip (IsEqualEntry K.cmp V.cmp) es ds) }
{
    let left = MapRef::at(left, CODE_BITS);
    let right = MapRef::at(right, CODE_BITS);
    equal_map(heap, left, right, Values::Cells)
}
