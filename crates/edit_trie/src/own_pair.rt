//! The way to a pair made the caller's own.
ghost use Rattle.std.specs.Prelude.{◌≡◌, ℕ, ◌+◌, ◌≤◌, List, suc};
ghost use Rattle.node_heap.specs.Heap.{form_at};
ghost use Rattle.champ_chain.specs.Entry.{Entry};
ghost use Rattle.champ_trie.specs.Trie.{code_by};
ghost use Rattle.champ_trie.specs.Reach.{alike_in};
ghost use Rattle.edit_trie.specs.Walk.{CanEditBelow, HasPair, OwnsIn};

use crate::chain::{RowPlace, own_in_chain};
use crate::row::{Spot, spot_at};
use champ_trie::ADD_NODES;
use elem_core::{CODE_BITS, Code, DEEPEST, Element, Probe, digit};
use node_heap::{Heap, Link};

/// The most nodes that are made so that the way to a key's pair is one's own, besides one for each key with the same masked
/// code: a row of each depth, and the pair.
pub const OWN_NODES: usize = ADD_NODES;

// The pair of the key, which is there, below a row with one owner: each row on the way and the pair have one owner then.
pub(crate) fn own_entry<T: Element, P: Probe<T>>(
    heap: &mut Heap<T>,
    row: Link,
    depth: u8,
    key: &P,
    code: Code,
    bits: u32,
) -> Link
    requires bits { bits ≤ CODE_BITS }
    requires depth { depth ≤ DEEPEST }
    requires code { code ≡ code_by T.code_of bits (P.stands_for key.now) }
    requires row { (E : List (Entry T)) × (left : ℕ) × (e : Entry T) × CanEditBelow T.cmp (code_by T.code_of bits) heap.old left depth row code E
        × HasPair T.cmp heap.old E (P.stands_for key.now) e × (left + 1 + alike_in (code_by T.code_of bits) code E ≤ heap.old.spare_nodes) }
    ensures { (E : List (Entry T)) (left : ℕ) (e : Entry T) → CanEditBelow T.cmp (code_by T.code_of bits) heap.old left depth row code E →
        HasPair T.cmp heap.old E (P.stands_for key.now) e → OwnsIn T.cmp (code_by T.code_of bits) heap.old heap.new left depth row code E (P.stands_for key.now) e result }
{
    match spot_at(heap, row, digit(code, depth)) {
        Spot::Empty => unreachable!(),
        Spot::Entry(index) => heap.own_child(row, index),
        Spot::Node(index) => {
            if depth == DEEPEST {
                return own_in_chain(heap, RowPlace { row, index }, key);
            }
            let child = heap.own_child(row, index);
            own_entry(heap, child, depth + 1, key, code, bits)
        }
    }
}
