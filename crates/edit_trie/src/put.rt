//! An entry put in.
ghost use Rattle.std.specs.Prelude.{◌≡◌, ◌≢◌, ℕ, ◌+◌, ◌<◌, ◌≤◌, ◌^◌, List, [], ◌∷◌, Some, None, true};
ghost use Rattle.elem_core.specs.Codes.{digit_at};
ghost use Rattle.node_heap.specs.Links.{Reaches};
ghost use Rattle.node_heap.specs.Heap.{form_at, links_at, holds_at, hold_count, half_holds};
ghost use Rattle.champ_chain.specs.Entry.{Entry, key_at, link_with};
ghost use Rattle.champ_trie.specs.Bits.{has};
ghost use Rattle.champ_trie.specs.Trie.{IsRow, code_by};
ghost use Rattle.champ_trie.specs.Reach.{alike_in};
ghost use Rattle.edit_trie.specs.Walk.{CanEditBelow, PutsEntryIn};

use crate::chain::{RowPlace, put_in_chain};
use crate::row::{Spot, put_entry, put_node, spot_at, take_entry};
use champ_chain::key_of;
use champ_trie::node_of_two;
use elem_core::{CODE_BITS, Code, DEEPEST, Element, digit, masked};
use node_heap::{Heap, Link};

// Puts an entry, whose key is absent, below a row with one owner, and spends its hold.
pub(crate) fn put_below<T: Element>(
    heap: &mut Heap<T>,
    row: Link,
    depth: u8,
    entry: Link,
    code: Code,
    bits: u32,
)
    requires bits { bits ≤ CODE_BITS }
    requires depth { depth ≤ DEEPEST }
    requires few { hold_count heap.old < half_holds }
    requires held { 0 < holds_at heap.old entry }
    requires apart { ¬ Reaches (links_at heap.old) entry row }
    requires row { (E : List (Entry T)) × (left : ℕ) × (k : T) × CanEditBelow T.cmp (code_by T.code_of bits) heap.old left depth row code E
        × (key_at (form_at heap.old) entry ≡ Some k) × (code ≡ code_by T.code_of bits k) × (link_with T.cmp k E ≡ None)
        × (left + 1 + alike_in (code_by T.code_of bits) code E ≤ heap.old.spare_nodes) }
    ensures { (E : List (Entry T)) (left : ℕ) (k : T) → CanEditBelow T.cmp (code_by T.code_of bits) heap.old left depth row code E →
        key_at (form_at heap.old) entry ≡ Some k → code ≡ code_by T.code_of bits k → link_with T.cmp k E ≡ None →
        PutsEntryIn T.cmp (code_by T.code_of bits) heap.old heap.new left depth row code E k entry }
{
    match spot_at(heap, row, digit(code, depth)) {
        Spot::Empty => put_entry(heap, row, depth, digit(code, depth), entry),
        Spot::Entry(_) => split(heap, row, depth, entry, code, bits),
        Spot::Node(index) => {
            if depth == DEEPEST {
                put_in_chain(heap, RowPlace { row, index }, entry);
                return;
            }
            let child = heap.own_child(row, index);
            put_below(heap, child, depth + 1, entry, code, bits);
        }
    }
}

// The same where another entry stands at the position: a node of both comes in its place.
fn split<T: Element>(heap: &mut Heap<T>, row: Link, depth: u8, entry: Link, code: Code, bits: u32)
    requires bits { bits ≤ CODE_BITS }
    requires depth { depth ≤ DEEPEST }
    requires few { hold_count heap.old < half_holds }
    requires held { 0 < holds_at heap.old entry }
    requires apart { ¬ Reaches (links_at heap.old) entry row }
    requires spot { (d e n : ℕ) (ls : List ℕ) → IsRow (form_at heap.old) row d e n ls → has e (digit_at code depth) ≡ true }
    requires row { (E : List (Entry T)) × (left : ℕ) × (k : T) × CanEditBelow T.cmp (code_by T.code_of bits) heap.old left depth row code E
        × (key_at (form_at heap.old) entry ≡ Some k) × (code ≡ code_by T.code_of bits k) × (link_with T.cmp k E ≡ None)
        × (left + 1 + alike_in (code_by T.code_of bits) code E ≤ heap.old.spare_nodes) }
    ensures { (E : List (Entry T)) (left : ℕ) (k : T) → CanEditBelow T.cmp (code_by T.code_of bits) heap.old left depth row code E →
        key_at (form_at heap.old) entry ≡ Some k → code ≡ code_by T.code_of bits k → link_with T.cmp k E ≡ None →
        PutsEntryIn T.cmp (code_by T.code_of bits) heap.old heap.new left depth row code E k entry }
{
    let position = digit(code, depth);
    let old = take_entry(heap, row, depth, position);
    let old_code = masked(key_of(heap, old).code(), bits);
    let node = node_of_two(heap, depth + 1, entry, code, old, old_code);
    put_node(heap, row, depth, position, node);
}
