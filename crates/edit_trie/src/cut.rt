//! An entry taken out.
//!
//! A row below the root that would keep one entry alone doesn't stay: the entry moves up to the lowest row that does. So the
//! way is made the caller's own down to that row only, what hangs there is cut off, and the caller gives it up once, at the
//! end.
ghost use Rattle.std.specs.Prelude.{◌≡◌, ◌≢◌, ℕ, ◌+◌, ◌<◌, ◌≤◌, ◌^◌, List, [], ◌∷◌, length, None, true, false, IsSome};
ghost use Rattle.elem_core.specs.Codes.{digit_at};
ghost use Rattle.node_heap.specs.Links.{Reaches};
ghost use Rattle.node_heap.specs.Heap.{row_at, form_at, links_at, owners_at, hold_count, IsGraph, half_holds};
ghost use Rattle.node_heap.specs.Calls.{Gains};
ghost use Rattle.node_heap.specs.InPlace.{Changes};
ghost use Rattle.champ_trie.specs.declared.place.Place.TheVariants.{Entry as At};
ghost use Rattle.edit_trie.specs.Spot.{PutsAt};
ghost use Rattle.champ_chain.specs.Entry.{Entry, entry as entry_of, link_with, others, IsEntry};
ghost use Rattle.champ_trie.specs.Bits.{has};
ghost use Rattle.champ_trie.specs.Trie.{IsRow, part, code_by};
ghost use Rattle.champ_trie.specs.Reach.{alike_in};
ghost use Rattle.edit_trie.specs.Walk.{CanEditBelow, CutsIn};

use crate::chain::{RowPlace, cut_from_chain};
use crate::lone::lone_below;
use crate::row::{Spot, put_entry, spot_at, take_entry, take_node};
use elem_core::{CODE_BITS, Code, DEEPEST, Element, Probe, digit};
use node_heap::{Heap, Link};

// Takes the key, which is there, out of the rows below one with one owner: the root, or one below which more than one entry is
// left. It gives a link, with a hold, to what was cut off.
pub(crate) fn cut_below<T: Element, P: Probe<T>>(
    heap: &mut Heap<T>,
    row: Link,
    depth: u8,
    key: &P,
    code: Code,
    bits: u32,
) -> Link
    requires bits { bits ≤ CODE_BITS }
    requires depth { depth ≤ DEEPEST }
    requires few { hold_count heap.old < half_holds }
    requires code { code ≡ code_by T.code_of bits (P.stands_for key.now) }
    requires row { (E : List (Entry T)) × (left : ℕ) × CanEditBelow T.cmp (code_by T.code_of bits) heap.old left depth row code E
        × (link_with T.cmp (P.stands_for key.now) E ≢ None) × (0 < depth → 2 ≤ length (others T.cmp (P.stands_for key.now) E)) × (left + alike_in (code_by T.code_of bits) code E ≤ heap.old.spare_nodes) }
    ensures { (E : List (Entry T)) (left : ℕ) → CanEditBelow T.cmp (code_by T.code_of bits) heap.old left depth row code E →
        link_with T.cmp (P.stands_for key.now) E ≢ None → (0 < depth → 2 ≤ length (others T.cmp (P.stands_for key.now) E)) → CutsIn T.cmp (code_by T.code_of bits) heap.old heap.new left depth row code E (P.stands_for key.now) result }
{
    let position = digit(code, depth);
    match spot_at(heap, row, position) {
        Spot::Empty => unreachable!(),
        Spot::Entry(_) => take_entry(heap, row, depth, position),
        Spot::Node(index) => {
            if let Some(lone) = lone_below(heap, row, index, depth, key, code, bits) {
                return lift(heap, row, depth, lone, position);
            }
            if depth == DEEPEST {
                return cut_from_chain(heap, RowPlace { row, index }, key);
            }
            let child = heap.own_child(row, index);
            cut_below(heap, child, depth + 1, key, code, bits)
        }
    }
}

// Puts an entry below the node at a position of a row with one owner in the place of that node, which it gives with a hold.
fn lift<T>(heap: &mut Heap<T>, row: Link, depth: u8, lone: Link, position: u32) -> Link
    requires row { (entries nodes : ℕ) × (links : List ℕ) × IsRow (form_at heap.old) row depth entries nodes links × (has entries position ≡ false) × (has nodes position ≡ true) }
    requires graph { IsGraph heap.old }
    requires position { position < 32 }
    requires sole { owners_at heap.old row ≡ 1 }
    requires few { hold_count heap.old < half_holds }
    requires live { IsSome (row_at heap.old lone) }
    requires apart { ¬ Reaches (links_at heap.old) lone row }
    ensures puts { (entries nodes : ℕ) (links : List ℕ) → IsRow (form_at heap.old) row depth entries nodes links →
        PutsAt (form_at heap.new) row depth entries nodes links position (At lone) }
    ensures others { (k : ℕ) → k ≢ row → row_at heap.new k ≡ row_at heap.old k }
    ensures changes { Changes row heap.old heap.new [] (result ∷ []) 0 0 }
    ensures gains { Gains heap.old heap.new }
{
    heap.hold(lone);
    let cut = take_node(heap, row, depth, position);
    put_entry(heap, row, depth, position, lone);
    cut
}
