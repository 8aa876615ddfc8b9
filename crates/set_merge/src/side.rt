//! What stands below a place, and when two places need no walk.
ghost use Rattle.std.specs.Prelude.{◌≡◌, ℕ, ◌<◌, ◌≤◌, false, List, IsSome, if◌then◌else◌};
ghost use Rattle.node_heap.specs.Heap.{form_at, IsGraph};
ghost use Rattle.champ_chain.specs.Entry.{key_at};
ghost use Rattle.champ_trie.specs.Bits.{has};
ghost use Rattle.champ_trie.specs.Trie.{IsRow, place_of, code_by};
ghost use Rattle.champ_trie.specs.declared.place.Place.{Place};
ghost use Rattle.champ_trie.specs.declared.place.Place.TheVariants.{Empty, Entry as At};
ghost use Rattle.set_merge.specs.Side.{place_below, settled, has_place, IsKept, IsLow, HasRow, IsSide};

use crate::keeps::Keeps;
use champ_chain::key_of;
use champ_trie::{Place, place_among, with_position};
use elem_core::{CODE_BITS, DEEPEST, Element, digit, masked};
use node_heap::{Heap, Link};
use std::cmp::Ordering;

// A place as a row of some depth: an entry is like a row with it alone.
#[derive(Clone, Copy)]
pub(crate) enum Side {
    // Nothing.
    Empty,
    // An entry at its position.
    Lone(Link, u32),
    // A trie row, with the positions of its entries and those of its nodes.
    Row(Link, u32, u32),
}

impl Side {
    // The place as a row of the depth.
    #[inline(always)]
    pub(crate) fn of<T: Element>(heap: &Heap<T>, place: &Place, depth: u8, bits: u32) -> Side
        requires bits { bits ≤ CODE_BITS }
        requires deep { depth ≤ DEEPEST }
        requires place { IsKept (form_at heap.now) place.now }
        requires row { HasRow (form_at heap.now) depth place.now }
        ensures { IsSide (code_by T.code_of bits) (form_at heap.now) depth place.now result }
    {
        match *place {
            Place::Empty => Side::Empty,
            Place::Entry(entry) => {
                let code = masked(key_of(heap, entry).code(), bits);
                Side::Lone(entry, digit(code, depth))
            }
            Place::Node(row) => {
                let sets = heap.trie(row);
                Side::Row(row, sets.entries, sets.nodes)
            }
        }
    }

    // The positions at which something stands.
    #[inline(always)]
    pub(crate) fn positions(&self) -> u32
        requires { IsLow self.now }
        ensures { (p : ℕ) → p < 32 → has result p ≡ has_place self.now p }
    {
        match *self {
            Side::Empty => 0,
            Side::Lone(_, at) => with_position(0, at),
            Side::Row(_, entries, nodes) => entries | nodes,
        }
    }

    // What stands at a position of it.
    #[inline(always)]
    pub(crate) fn at<T: Element>(&self, heap: &Heap<T>, position: u32) -> Place
        requires position { position < 32 }
        requires side { (code : T → ℕ) × (depth : ℕ) × (place : Place) × IsSide code (form_at heap.now) depth place self.now }
        ensures graph { IsGraph heap.now }
        ensures place { (code : T → ℕ) (depth : ℕ) (place : Place) → IsSide code (form_at heap.now) depth place self.now →
            result ≡ place_below code (form_at heap.now) depth place position }
    {
        heap.rows_form_a_graph();
        match *self {
            Side::Empty => Place::Empty,
            Side::Lone(entry, at) => {
                if at == position {
                    Place::Entry(entry)
                } else {
                    Place::Empty
                }
            }
            Side::Row(row, entries, nodes) => place_at(heap, row, entries, nodes, position),
        }
    }
}

// What stands at the position of the trie row at a link, which has these sets.
#[inline(always)]
fn place_at<T>(heap: &Heap<T>, row: Link, entries: u32, nodes: u32, position: u32) -> Place
    requires row { (depth : ℕ) × (links : List ℕ) × IsRow (form_at heap.now) row depth entries nodes links }
    requires position { position < 32 }
    ensures { (depth : ℕ) (links : List ℕ) → IsRow (form_at heap.now) row depth entries nodes links →
        result ≡ place_of entries nodes links position }
{
    place_among(entries, nodes, heap.links(row), position)
}

// The first position of the set from this one on, 32 where there is none.
#[inline(always)]
pub(crate) fn first_from(set: u32, from: u32) -> u32
    requires { from ≤ 32 }
    ensures from { (from ≤ result) × (result ≤ 32) }
    ensures none { (p : ℕ) → from ≤ p → p < result → has set p ≡ false }
{
    if from == 32 {
        return 32;
    }
    let rest = set >> from;
    if rest == 0 {
        return 32;
    }
    from + rest.trailing_zeros()
}

// What a merge of two places gives at once, None where it has to look below them.
#[inline(always)]
pub(crate) fn settled<T: Element>(
    heap: &Heap<T>,
    a: &Place,
    b: &Place,
    keeps: Keeps,
) -> Option<Place>
    requires first { IsKept (form_at heap.now) a.now }
    requires second { IsKept (form_at heap.now) b.now }
    ensures { result ≡ settled T.cmp (form_at heap.now) keeps a.now b.now }
{
    match *a {
        Place::Empty => Some(kept_if(keeps.second, b)),
        Place::Entry(x) => match *b {
            Place::Empty => Some(kept_if(keeps.first, a)),
            Place::Entry(y) => settled_entries(heap, x, y, keeps),
            Place::Node(_) => None,
        },
        Place::Node(l) => match *b {
            Place::Empty => Some(kept_if(keeps.first, a)),
            Place::Entry(_) => None,
            Place::Node(m) => {
                if l == m {
                    Some(kept_if(keeps.both, a))
                } else {
                    None
                }
            }
        },
    }
}

// The place, or nothing.
#[inline(always)]
pub(crate) fn kept_if(kept: bool, place: &Place) -> Place
    ensures { result ≡ (if kept then place.now else Empty) }
{
    if kept { *place } else { Place::Empty }
}

// What a merge of two entries gives at once.
#[inline(always)]
fn settled_entries<T: Element>(heap: &Heap<T>, x: Link, y: Link, keeps: Keeps) -> Option<Place>
    requires first { IsSome (key_at (form_at heap.now) x) }
    requires second { IsSome (key_at (form_at heap.now) y) }
    ensures { result ≡ settled T.cmp (form_at heap.now) keeps (At x) (At y) }
{
    // Where both have one cell or pair, no key is read.
    if x == y {
        return Some(kept_if(keeps.both, &Place::Entry(x)));
    }
    if key_of(heap, x).cmp(key_of(heap, y)) == Ordering::Equal {
        return Some(kept_if(keeps.both, &Place::Entry(x)));
    }
    if !keeps.first {
        return Some(kept_if(keeps.second, &Place::Entry(y)));
    }
    if keeps.second {
        None
    } else {
        Some(Place::Entry(x))
    }
}
