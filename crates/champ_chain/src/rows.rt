//! The rows of a chain: how they are read and made.
ghost use Rattle.std.specs.Prelude.{◌≡◌, ℕ, ◌+◌, ◌<◌, ◌≤◌, List, [], ◌∷◌, ◌++◌, length, take, drop, Option, Some, None, IsSome, option_to_list};
ghost use Rattle.node_heap.specs.Links.{count};
ghost use Rattle.node_heap.specs.Forms.{node, chain as chain_kind};
ghost use Rattle.node_heap.specs.Heap.{row_at, form_at, holds_at, hold_count, IsGraph, half_holds, most_holds, row_limit};
ghost use Rattle.node_heap.specs.Calls.{AddsOwner, SameRows, Builds, KeepsOldOwners};
ghost use Rattle.node_heap.specs.declared.row.Head.TheVariants.{Chain};
ghost use Rattle.champ_chain.specs.Entry.{Entry, entry as entry_of, key_at};
ghost use Rattle.champ_chain.specs.Chain.{AreChainRows, IsEntryOrRows};
ghost use Rattle.champ_chain.specs.Old.{ReachesOldBy};

use node_heap::{Head, Heap, Link};

/// What a chain row has: its entry, and the row after it.
#[derive(Clone, Copy)]
pub struct ChainRow {
    /// The entry.
    pub entry: Link,
    /// The next row, None in the last.
    pub next: Option<Link>,
}

/// The key of an entry: a cell's value, or that of a pair's first link.
#[inline]
pub fn key_of<T>(heap: &Heap<T>, entry: Link) -> &T
    requires { IsSome (key_at (form_at heap.now) entry) }
    ensures { key_at (form_at heap.now) entry ≡ Some result.now }
{
    match heap.value(entry) {
        Some(value) => value,
        None => {
            let cell = heap.links(entry)[0];
            match heap.value(cell) {
                Some(value) => value,
                None => unreachable!(),
            }
        }
    }
}

/// What the chain row at a link has.
#[inline]
pub fn row_of<T>(heap: &Heap<T>, row: Link) -> ChainRow
    requires { (entry : ℕ) × (next : Option ℕ) × (form_at heap.now row ≡ Some (node chain_kind (entry ∷ option_to_list next))) }
    ensures { form_at heap.now row ≡ Some (node chain_kind (result.entry ∷ option_to_list result.next)) }
{
    let links = heap.links(row);
    ChainRow {
        entry: links[0],
        next: links.get(1).copied(),
    }
}

// How many chain rows there are from a row on.
pub(crate) fn rows_from<T>(heap: &Heap<T>, first: Option<Link>) -> usize
    requires { (es : List (Entry T)) × AreChainRows (form_at heap.now) first es }
    ensures number { (es : List (Entry T)) → AreChainRows (form_at heap.now) first es → result ≡ length es }
    ensures few { result < row_limit }
    ensures graph { IsGraph heap.now }
{
    let mut row = first;
    // They are no more than the rows of the heap.
    let most = heap.live();
    for passed in 0..most {
        match row {
            None => return passed,
            Some(link) => row = row_of(heap, link).next,
        }
    }
    most
}

// One hold more of a tail.
pub(crate) fn hold_tail<T>(heap: &mut Heap<T>, tail: Option<Link>)
    requires live { (l : ℕ) → tail ≡ Some l → IsSome (row_at heap.old l) }
    requires graph { IsGraph heap.old }
    requires few { hold_count heap.old < most_holds }
    ensures rows { SameRows heap.old heap.new }
    ensures builds { Builds heap.old heap.new [] (option_to_list tail) 0 0 }
{
    if let Some(row) = tail {
        heap.hold(row);
    }
}

/// A new chain row of the entry over the tail, made of a spare. It spends a hold of each. All holds together are below 2^60
/// before.
pub fn row_over<T>(heap: &mut Heap<T>, entry: Link, tail: Option<Link>) -> Link
    requires spare { 0 < heap.old.spare_nodes }
    requires held { (l : ℕ) → count l (entry ∷ option_to_list tail) ≤ holds_at heap.old l }
    requires few { hold_count heap.old < most_holds }
    ensures row { row_at heap.new result ≡ Some (node Chain (entry ∷ option_to_list tail)) }
    ensures fresh { row_at heap.old result ≡ None }
    ensures owners { AddsOwner heap.old heap.new result }
    ensures builds { Builds heap.old heap.new (entry ∷ option_to_list tail) (result ∷ []) 0 1 }
{
    match tail {
        None => heap.node(Head::Chain, &[entry]),
        Some(next) => heap.node(Head::Chain, &[entry, next]),
    }
}

// The chain rows of two entries. A hold of each is spent.
pub(crate) fn in_order<T>(heap: &mut Heap<T>, first: Link, second: Link) -> Link
    requires spare { 2 ≤ heap.old.spare_nodes }
    requires held { (l : ℕ) → count l (first ∷ second ∷ []) ≤ holds_at heap.old l }
    requires few { hold_count heap.old < most_holds }
    ensures builds { Builds heap.old heap.new (first ∷ second ∷ []) (result ∷ []) 0 2 }
    ensures rows { (j k : T) → key_at (form_at heap.old) first ≡ Some j → key_at (form_at heap.old) second ≡ Some k →
        AreChainRows (form_at heap.new) (Some result) (entry_of j first ∷ entry_of k second ∷ []) }
    ensures owners { KeepsOldOwners heap.old heap.new }
    ensures below { (j k : T) → key_at (form_at heap.old) first ≡ Some j → key_at (form_at heap.old) second ≡ Some k →
        ReachesOldBy heap.old heap.new first second result }
{
    let last = row_over(heap, second, None);
    row_over(heap, first, Some(last))
}

// The row so many rows after this one.
fn row_after<T>(heap: &Heap<T>, from: Link, number: usize) -> Link
    requires { (es : List (Entry T)) × AreChainRows (form_at heap.now) (Some from) es × (number < length es) }
    ensures { (es : List (Entry T)) → AreChainRows (form_at heap.now) (Some from) es → number < length es → AreChainRows (form_at heap.now) (Some result) (drop number es) }
{
    let mut row = from;
    for _passed in 0..number {
        match row_of(heap, row).next {
            Some(next) => row = next,
            None => unreachable!(),
        }
    }
    row
}

// New rows of the first entries from a row on, so many, over the tail, of which a hold is spent. It halves the rows,
// so that it can make the last first without memory.
fn copied<T>(heap: &mut Heap<T>, from: Link, number: usize, tail: Option<Link>) -> Link
    requires some { 0 < number }
    requires spare { number ≤ heap.old.spare_nodes }
    requires held { (l : ℕ) → count l (option_to_list tail) ≤ holds_at heap.old l }
    requires few { hold_count heap.old < half_holds + length (option_to_list tail) }
    requires rows { (es : List (Entry T)) × AreChainRows (form_at heap.old) (Some from) es × (number ≤ length es) }
    ensures builds { Builds heap.old heap.new (option_to_list tail) (result ∷ []) 0 number }
    ensures rows { (es ts : List (Entry T)) → AreChainRows (form_at heap.old) (Some from) es → number ≤ length es → AreChainRows (form_at heap.old) tail ts →
        AreChainRows (form_at heap.new) (Some result) (take number es ++ ts) }
{
    if number == 1 {
        let entry = row_of(heap, from).entry;
        heap.hold(entry);
        return row_over(heap, entry, tail);
    }
    let half = number / 2;
    let middle = row_after(heap, from, half);
    let last = copied(heap, middle, number - half, tail);
    copied(heap, from, half, Some(last))
}

// The same, where there may be no entry to copy.
pub(crate) fn copied_over<T>(heap: &mut Heap<T>, from: Link, number: usize, tail: Link) -> Link
    requires spare { number ≤ heap.old.spare_nodes }
    requires graph { IsGraph heap.old }
    requires held { 0 < holds_at heap.old tail }
    requires few { hold_count heap.old < half_holds + 1 }
    requires rows { (es : List (Entry T)) × AreChainRows (form_at heap.old) (Some from) es × (number ≤ length es) }
    ensures builds { Builds heap.old heap.new (tail ∷ []) (result ∷ []) 0 number }
    ensures rows { (es ts : List (Entry T)) → AreChainRows (form_at heap.old) (Some from) es → number ≤ length es → AreChainRows (form_at heap.old) (Some tail) ts →
        AreChainRows (form_at heap.new) (Some result) (take number es ++ ts) }
{
    if number == 0 {
        tail
    } else {
        copied(heap, from, number, Some(tail))
    }
}

// A chain of the first entries from a row on, so many; the entry itself if it is one.
fn front_of<T>(heap: &mut Heap<T>, from: Link, number: usize) -> Link
    requires some { 0 < number }
    requires spare { number ≤ heap.old.spare_nodes }
    requires few { hold_count heap.old < half_holds }
    requires rows { (es : List (Entry T)) × AreChainRows (form_at heap.old) (Some from) es × (number ≤ length es) }
    ensures builds { Builds heap.old heap.new [] (result ∷ []) 0 number }
    ensures rows { (es : List (Entry T)) → AreChainRows (form_at heap.old) (Some from) es → number ≤ length es →
        IsEntryOrRows (form_at heap.new) result (take number es) }
{
    if number == 1 {
        let entry = row_of(heap, from).entry;
        heap.hold(entry);
        entry
    } else {
        copied(heap, from, number, None)
    }
}

// The chain from a row on once more; the entry itself if it is one.
fn shared_tail<T>(heap: &mut Heap<T>, tail: Link) -> Link
    requires few { hold_count heap.old < half_holds }
    requires tail { (ts : List (Entry T)) × AreChainRows (form_at heap.old) (Some tail) ts }
    ensures builds { Builds heap.old heap.new [] (result ∷ []) 0 0 }
    ensures rows { (ts : List (Entry T)) → AreChainRows (form_at heap.old) (Some tail) ts → IsEntryOrRows (form_at heap.new) result ts }
{
    let row = row_of(heap, tail);
    match row.next {
        None => {
            heap.hold(row.entry);
            row.entry
        }
        Some(_) => {
            heap.hold(tail);
            tail
        }
    }
}

// A chain of the first entries from a row on, so many, and those of the tail; the entry itself if it is one.
fn over_tail<T>(heap: &mut Heap<T>, from: Link, number: usize, tail: Link) -> Link
    requires spare { number ≤ heap.old.spare_nodes }
    requires few { hold_count heap.old < half_holds }
    requires rows { (es : List (Entry T)) × AreChainRows (form_at heap.old) (Some from) es × (number ≤ length es) }
    requires tail { (ts : List (Entry T)) × AreChainRows (form_at heap.old) (Some tail) ts }
    ensures builds { Builds heap.old heap.new [] (result ∷ []) 0 number }
    ensures rows { (es ts : List (Entry T)) → AreChainRows (form_at heap.old) (Some from) es → number ≤ length es → AreChainRows (form_at heap.old) (Some tail) ts →
        IsEntryOrRows (form_at heap.new) result (take number es ++ ts) }
{
    if number == 0 {
        return shared_tail(heap, tail);
    }
    heap.hold(tail);
    copied(heap, from, number, Some(tail))
}

// The chain of the first entries from a row on, so many, and those of the tail; the entry itself if it is one.
pub(crate) fn closed<T>(heap: &mut Heap<T>, from: Link, number: usize, tail: Option<Link>) -> Link
    requires spare { number ≤ heap.old.spare_nodes }
    requires few { hold_count heap.old < half_holds }
    requires rows { (es : List (Entry T)) × AreChainRows (form_at heap.old) (Some from) es × (number ≤ length es) }
    requires tail { (ts : List (Entry T)) × AreChainRows (form_at heap.old) tail ts × (0 < number + length ts) }
    ensures builds { Builds heap.old heap.new [] (result ∷ []) 0 number }
    ensures rows { (es ts : List (Entry T)) → AreChainRows (form_at heap.old) (Some from) es → number ≤ length es → AreChainRows (form_at heap.old) tail ts →
        IsEntryOrRows (form_at heap.new) result (take number es ++ ts) }
{
    match tail {
        None => front_of(heap, from, number),
        Some(row) => over_tail(heap, from, number, row),
    }
}
