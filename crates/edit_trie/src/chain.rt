//! Chains that are edited in place: the rows of smaller keys are made the caller's own, and then one row is written.
ghost use Rattle.std.specs.Prelude.{◌≡◌, ◌≢◌, ℕ, ◌+◌, ◌<◌, ◌≤◌, ◌^◌, List, [], ◌∷◌, length, take, remove, slice_set, option_to_list, Some, None, IsSome};
ghost use Rattle.node_heap.specs.Forms.{head_of};
ghost use Rattle.node_heap.specs.Links.{Reaches};
ghost use Rattle.node_heap.specs.Heap.{row_at, form_at, links_at, holds_at, hold_count, owners_at, IsGraph, half_holds, most_holds};
ghost use Rattle.node_heap.specs.Calls.{KeepsOwners, Makes, Gains};
ghost use Rattle.node_heap.specs.InPlace.{child_at, Writes, Changes};
ghost use Rattle.champ_chain.specs.Entry.{Entry, key_at, link_with};
ghost use Rattle.champ_chain.specs.Chain.{AreChainRows, IsChain};
ghost use Rattle.edit_trie.specs.Walk.{HasPair};
ghost use Rattle.edit_trie.specs.Chains.{link_in, OwnsRows, OwnsInChain, PutsInChain, CutsFromChain};

use champ_chain::{key_of, key_spot_of, row_of, row_over};
use elem_core::{Element, Probe};
use node_heap::{Heap, Link};

// A place of a chain's row: a child of the row above it, which has one owner. It may be one past that row's last link.
#[derive(Clone, Copy)]
pub(crate) struct RowPlace {
    pub(crate) row: Link,
    pub(crate) index: usize,
}

// Makes the first rows of a chain the caller's own, so many of them, and gives the place after them. The row above is no
// entry.
fn own_rows<T>(heap: &mut Heap<T>, first: RowPlace, number: usize) -> RowPlace
    requires graph { IsGraph heap.old }
    requires keyless { key_at (form_at heap.old) first.row ≡ None }
    requires sole { owners_at heap.old first.row ≡ 1 }
    requires index { first.index < length (links_at heap.old first.row) }
    requires rows { (es : List (Entry T)) × AreChainRows (form_at heap.old) (Some (child_at heap.old first.row first.index)) es × (number ≤ length es) }
    requires spare { number ≤ heap.old.spare_nodes }
    ensures { (es : List (Entry T)) → AreChainRows (form_at heap.old) (Some (child_at heap.old first.row first.index)) es → number ≤ length es →
        OwnsRows heap.old heap.new first.row first.index (take number es) result.row result.index }
{
    let mut slot = first;
    for _passed in 0..number {
        let row = heap.own_child(slot.row, slot.index);
        slot = RowPlace { row, index: 1 };
    }
    slot
}

// Makes the way to the pair of a key, which is in the chain at a place, the caller's own, and gives the pair.
pub(crate) fn own_in_chain<T: Element, P: Probe<T>>(
    heap: &mut Heap<T>,
    first: RowPlace,
    key: &P,
) -> Link
    requires graph { IsGraph heap.old }
    requires keyless { key_at (form_at heap.old) first.row ≡ None }
    requires sole { owners_at heap.old first.row ≡ 1 }
    requires index { first.index < length (links_at heap.old first.row) }
    requires chain { (E : List (Entry T)) × (e : Entry T) × IsChain T.cmp (form_at heap.old) (child_at heap.old first.row first.index) E
        × HasPair T.cmp heap.old E (P.stands_for key.now) e × (length E + 1 ≤ heap.old.spare_nodes) }
    ensures { (E : List (Entry T)) (e : Entry T) → IsChain T.cmp (form_at heap.old) (child_at heap.old first.row first.index) E →
        HasPair T.cmp heap.old E (P.stands_for key.now) e → OwnsInChain T.cmp heap.old heap.new first.row first.index E (P.stands_for key.now) e result }
{
    let chain = heap.links(first.row)[first.index];
    let before = key_spot_of(heap, chain, key).before;
    let own = own_rows(heap, first, before + 1);
    heap.own_child(own.row, 0)
}

// Puts an entry, whose key is absent, into the chain at a place.
pub(crate) fn put_in_chain<T: Element>(heap: &mut Heap<T>, first: RowPlace, entry: Link)
    requires graph { IsGraph heap.old }
    requires keyless { key_at (form_at heap.old) first.row ≡ None }
    requires sole { owners_at heap.old first.row ≡ 1 }
    requires index { first.index < length (links_at heap.old first.row) }
    requires held { 0 < holds_at heap.old entry }
    requires apart { ¬ Reaches (links_at heap.old) entry first.row }
    requires few { hold_count heap.old < half_holds }
    requires chain { (E : List (Entry T)) × (k : T) × IsChain T.cmp (form_at heap.old) (child_at heap.old first.row first.index) E
        × (key_at (form_at heap.old) entry ≡ Some k) × (link_with T.cmp k E ≡ None) × (length E + 1 ≤ heap.old.spare_nodes) }
    ensures { (E : List (Entry T)) (k : T) → IsChain T.cmp (form_at heap.old) (child_at heap.old first.row first.index) E →
        key_at (form_at heap.old) entry ≡ Some k → link_with T.cmp k E ≡ None → PutsInChain T.cmp heap.old heap.new first.row first.index E k entry }
{
    let chain = heap.links(first.row)[first.index];
    let spot = key_spot_of(heap, chain, key_of(heap, entry));
    let slot = own_rows(heap, first, spot.before);
    let next = take_next(heap, slot.row, slot.index);
    let row = row_over(heap, entry, next);
    heap.insert_link(slot.row, slot.index, row);
}

// Takes the link at an index out of a row with one owner, with a hold; nothing where the index is past the last link.
fn take_next<T>(heap: &mut Heap<T>, row: Link, index: usize) -> Option<Link>
    requires graph { IsGraph heap.old }
    requires sole { owners_at heap.old row ≡ 1 }
    requires few { hold_count heap.old < most_holds }
    ensures link { result ≡ link_in heap.old row index }
    ensures writes { Writes heap.old heap.new row (head_of (row_at heap.old row)) (remove (links_at heap.old row) index) }
    ensures owners { KeepsOwners heap.old heap.new }
    ensures changes { Changes row heap.old heap.new [] (option_to_list result) 0 0 }
    ensures makes { Makes heap.old heap.new 0 0 }
{
    if index >= heap.links(row).len() {
        return None;
    }
    let next = heap.remove_link(row, index);
    Some(next)
}

// Takes the row of the key, which is there, out of the chain at a place, with a hold. Two entries or more are left.
pub(crate) fn cut_from_chain<T: Element, P: Probe<T>>(
    heap: &mut Heap<T>,
    first: RowPlace,
    key: &P,
) -> Link
    requires graph { IsGraph heap.old }
    requires keyless { key_at (form_at heap.old) first.row ≡ None }
    requires sole { owners_at heap.old first.row ≡ 1 }
    requires index { first.index < length (links_at heap.old first.row) }
    requires few { hold_count heap.old < half_holds }
    requires chain { (E : List (Entry T)) × IsChain T.cmp (form_at heap.old) (child_at heap.old first.row first.index) E
        × (link_with T.cmp (P.stands_for key.now) E ≢ None) × (3 ≤ length E) × (length E ≤ heap.old.spare_nodes) }
    ensures { (E : List (Entry T)) → IsChain T.cmp (form_at heap.old) (child_at heap.old first.row first.index) E →
        link_with T.cmp (P.stands_for key.now) E ≢ None → 3 ≤ length E → CutsFromChain T.cmp heap.old heap.new first.row first.index E (P.stands_for key.now) result }
{
    let chain = heap.links(first.row)[first.index];
    let before = key_spot_of(heap, chain, key).before;
    let slot = own_rows(heap, first, before);
    let row = heap.links(slot.row)[slot.index];
    match row_of(heap, row).next {
        None => heap.remove_link(slot.row, slot.index),
        Some(next) => skip_row(heap, slot.row, slot.index, next),
    }
}

// Puts a link in the place of the one at an index of a row with one owner, and gives that one, with a hold. The link is held
// elsewhere, and doesn't reach the row.
fn skip_row<T>(heap: &mut Heap<T>, row: Link, index: usize, next: Link) -> Link
    requires graph { IsGraph heap.old }
    requires sole { owners_at heap.old row ≡ 1 }
    requires index { index < length (links_at heap.old row) }
    requires live { IsSome (row_at heap.old next) }
    requires apart { ¬ Reaches (links_at heap.old) next row }
    requires few { hold_count heap.old < most_holds }
    ensures old { result ≡ child_at heap.old row index }
    ensures writes { Writes heap.old heap.new row (head_of (row_at heap.old row)) (slice_set (links_at heap.old row) index next) }
    ensures changes { Changes row heap.old heap.new [] (result ∷ []) 0 0 }
    ensures gains { Gains heap.old heap.new }
{
    heap.hold(next);
    heap.replace(row, index, next)
}
