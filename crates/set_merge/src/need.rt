//! How many rows a merge needs: the walk without the rows.
ghost use Rattle.std.specs.Prelude.{◌≡◌, ℕ, suc, ◌+◌, ◌<◌, ◌≤◌, ◌^◌, List, length};
ghost use Rattle.node_heap.specs.Heap.{form_at, IsGraph, row_limit};
ghost use Rattle.champ_chain.specs.Entry.{Entry};
ghost use Rattle.champ_trie.specs.Trie.{code_by};
ghost use Rattle.set_merge.specs.Need.{rows_need};
ghost use Rattle.set_merge.specs.Walk.{AreSides, ArePlaces, place_need};

use crate::keeps::Keeps;
use crate::runs::meeting_of;
use crate::side::{Side, first_from, settled};
use champ_trie::Place;
use elem_core::{CODE_BITS, DEEPEST, Element, LEVELS};
use node_heap::Heap;

// The rows that a merge of two places needs from a depth down: one for the two, and one for each position below at which one
// has to look further; below the deepest row, the chain rows of each that the other hasn't.
#[cycle(need)]
pub(crate) fn rows_needed<T: Element>(
    heap: &Heap<T>,
    a: &Place,
    b: &Place,
    depth: u8,
    bits: u32,
    keeps: Keeps,
) -> usize
    requires bits { bits ≤ CODE_BITS }
    requires sides { (left : ℕ) × (E : List (Entry T)) × (D : List (Entry T)) × AreSides T.cmp (code_by T.code_of bits) (form_at heap.now) left depth a.now b.now E D
        × (length E < row_limit) × (length D < row_limit) }
    ensures rows { (left : ℕ) → depth + left ≡ LEVELS → result ≡ rows_need T.cmp (code_by T.code_of bits) row_limit (form_at heap.now) keeps left depth a.now b.now }
    ensures graph { IsGraph heap.now }
{
    heap.rows_form_a_graph();
    if depth > DEEPEST {
        let parts = meeting_of(heap, a, b);
        return parts.first + parts.second;
    }
    let first = Side::of(heap, a, depth, bits);
    let second = Side::of(heap, b, depth, bits);
    let mut rows = 1;
    let both = first.positions() & second.positions();
    let mut position = first_from(both, 0);
    while position < 32 {
        let x = first.at(heap, position);
        let y = second.at(heap, position);
        rows += needed_at(heap, &x, &y, depth, bits, keeps);
        position = first_from(both, position + 1);
    }
    rows
}

// The rows that a merge of what two rows of the depth have at one position needs.
#[cycle(need)]
fn needed_at<T: Element>(
    heap: &Heap<T>,
    x: &Place,
    y: &Place,
    depth: u8,
    bits: u32,
    keeps: Keeps,
) -> usize
    requires bits { bits ≤ CODE_BITS }
    requires deep { depth ≤ DEEPEST }
    requires places { (left : ℕ) × (E : List (Entry T)) × (D : List (Entry T)) × ArePlaces T.cmp (code_by T.code_of bits) (form_at heap.now) left depth x.now y.now E D
        × (length E < row_limit) × (length D < row_limit) }
    ensures { (left : ℕ) → depth + suc left ≡ LEVELS → result ≡ place_need T.cmp (code_by T.code_of bits) row_limit (form_at heap.now) keeps left depth x.now y.now }
{
    match settled(heap, x, y, keeps) {
        Some(_) => 0,
        None => rows_needed(heap, x, y, depth + 1, bits, keeps),
    }
}
