//! The walk of a merge.
ghost use Rattle.std.specs.Prelude.{◌≡◌, ℕ, suc, ◌+◌, ◌*◌, ◌<◌, ◌≤◌, List, None};
ghost use Rattle.node_heap.specs.Heap.{form_at, hold_count, IsGraph, half_holds, row_limit};
ghost use Rattle.node_heap.specs.Forms.{Forms};
ghost use Rattle.champ_chain.specs.Entry.{Entry};
ghost use Rattle.champ_trie.specs.Trie.{code_by};
ghost use Rattle.set_merge.specs.Merge.{merged};
ghost use Rattle.set_merge.specs.Need.{rows_need};
ghost use Rattle.set_merge.specs.Side.{settled as settled_place};
ghost use Rattle.set_merge.specs.Spread.{IsBlank};
ghost use Rattle.set_merge.specs.Walk.{AreKept, AreSides, ArePlaces, place_need, IsCome, IsSpread};

use crate::chains::chains_merged;
use crate::keeps::Keeps;
use crate::merged::Merged;
use crate::side::{Side, first_from, settled};
use crate::spread::Spread;
use champ_trie::Place;
use elem_core::{CODE_BITS, DEEPEST, Element};
use node_heap::Heap;

// Notes what stands at the positions of the merge of two places as rows of a depth. The spares suffice. It is noted where the caller
// has room for it, since to hand it back would copy it.
#[cycle(walk)]
pub(crate) fn rows_merged<T: Element>(
    heap: &mut Heap<T>,
    a: &Place,
    b: &Place,
    depth: u8,
    bits: u32,
    keeps: Keeps,
    spread: &mut Spread,
)
    requires blank { IsBlank spread.old }
    requires bits { bits ≤ CODE_BITS }
    requires deep { depth ≤ DEEPEST }
    requires few { hold_count heap.old ≤ half_holds + 32 * depth }
    requires graph { IsGraph heap.old }
    requires sides { (F : Forms T) × (left : ℕ) × (E : List (Entry T)) × (D : List (Entry T)) × AreKept F (form_at heap.old)
        × AreSides T.cmp (code_by T.code_of bits) F (suc left) depth a.now b.now E D
        × (rows_need T.cmp (code_by T.code_of bits) row_limit F keeps (suc left) depth a.now b.now ≤ heap.old.spare_nodes + 1) }
    ensures spread { (F : Forms T) (left : ℕ) (E D : List (Entry T)) → AreKept F (form_at heap.old) → AreSides T.cmp (code_by T.code_of bits) F (suc left) depth a.now b.now E D →
        IsSpread T.cmp (code_by T.code_of bits) row_limit keeps F heap.old heap.new left depth a.now b.now (merged T.cmp keeps E D) spread.new 32 }
{
    let first = Side::of(heap, a, depth, bits);
    let second = Side::of(heap, b, depth, bits);
    let some = first.positions() | second.positions();
    let mut position = first_from(some, 0);
    while position < 32 {
        let x = first.at(heap, position);
        let y = second.at(heap, position);
        let merged = merged_at(heap, &x, &y, depth, bits, keeps);
        spread.put(position, &merged, &x, &y);
        position = first_from(some, position + 1);
    }
}

// What stands for the merge of what two rows of the depth have at one position. The spares suffice.
#[cycle(walk)]
fn merged_at<T: Element>(
    heap: &mut Heap<T>,
    x: &Place,
    y: &Place,
    depth: u8,
    bits: u32,
    keeps: Keeps,
) -> Merged
    requires bits { bits ≤ CODE_BITS }
    requires deep { depth ≤ DEEPEST }
    requires few { hold_count heap.old ≤ half_holds + (32 * depth + 32) }
    requires graph { IsGraph heap.old }
    requires places { (F : Forms T) × (left : ℕ) × (E : List (Entry T)) × (D : List (Entry T)) × AreKept F (form_at heap.old)
        × ArePlaces T.cmp (code_by T.code_of bits) F left depth x.now y.now E D
        × (place_need T.cmp (code_by T.code_of bits) row_limit F keeps left depth x.now y.now ≤ heap.old.spare_nodes) }
    ensures come { (F : Forms T) (left : ℕ) (E D : List (Entry T)) → AreKept F (form_at heap.old) → ArePlaces T.cmp (code_by T.code_of bits) F left depth x.now y.now E D →
        IsCome T.cmp (code_by T.code_of bits) row_limit keeps F heap.old heap.new left depth x.now y.now (merged T.cmp keeps E D) result }
{
    if let Some(place) = settled(heap, x, y, keeps) {
        return Merged::Old(place);
    }
    if depth == DEEPEST {
        return chains_merged(heap, x, y, keeps);
    }
    merged_below(heap, x, y, depth, bits, keeps)
}

// The same where one has to look below the places, and above the chains. What stands there takes room, which most positions don't
// want.
#[inline(never)]
#[cycle(walk)]
fn merged_below<T: Element>(
    heap: &mut Heap<T>,
    x: &Place,
    y: &Place,
    depth: u8,
    bits: u32,
    keeps: Keeps,
) -> Merged
    requires bits { bits ≤ CODE_BITS }
    requires deep { depth < DEEPEST }
    requires few { hold_count heap.old ≤ half_holds + (32 * depth + 32) }
    requires graph { IsGraph heap.old }
    requires look { settled_place T.cmp (form_at heap.old) keeps x.now y.now ≡ None }
    requires places { (F : Forms T) × (left : ℕ) × (E : List (Entry T)) × (D : List (Entry T)) × AreKept F (form_at heap.old)
        × ArePlaces T.cmp (code_by T.code_of bits) F left depth x.now y.now E D
        × (place_need T.cmp (code_by T.code_of bits) row_limit F keeps left depth x.now y.now ≤ heap.old.spare_nodes) }
    ensures come { (F : Forms T) (left : ℕ) (E D : List (Entry T)) → AreKept F (form_at heap.old) → ArePlaces T.cmp (code_by T.code_of bits) F left depth x.now y.now E D →
        IsCome T.cmp (code_by T.code_of bits) row_limit keeps F heap.old heap.new left depth x.now y.now (merged T.cmp keeps E D) result }
{
    let mut below = Spread::empty();
    rows_merged(heap, x, y, depth + 1, bits, keeps, &mut below);
    below.close(heap, depth + 1, x, y)
}
