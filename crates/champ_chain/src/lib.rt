//! Chains: entries whose keys share a code, a row for each, in rising order of the keys.
//!
//! An entry is a cell, which is its own key, or a pair of a key cell and a value. A chain has two entries or more.
//! Chains are never changed: a call that edits one makes new rows up to the place of the edit and, by its code, takes over
//! those behind it.
//! `join`, `with` and `without` reserve the rows that they make; `joined`, `added` and `removed` are the same where the
//! caller has reserved them.
#![tactic(auto)]

ghost use Rattle.std.specs.Prelude.{◌≡◌, ◌↔◌, ℕ, ◌+◌, ◌<◌, ◌≤◌, ◌≢◌, List, [], ◌∷◌, length, Some, None, IsSome, IfOk, OnErr, OnOk, IsOk, IfSome, IfNone};
ghost use Rattle.std.specs.declared.cmp.Ordering.TheVariants.{Equal};
ghost use Rattle.node_heap.specs.Links.{count};
ghost use Rattle.node_heap.specs.Heap.{form_at, holds_at, hold_count, HasSpares, IsGraph, half_holds, most_holds, row_limit};
ghost use Rattle.node_heap.specs.Calls.{Answered, Builds, KeepsToNeed, MakesJust, KeepsOldOwners};
ghost use Rattle.champ_chain.specs.Entry.{Entry, entry as entry_of, key_at, link_with, others, put};
ghost use Rattle.champ_chain.specs.Chain.{IsChain, IsEntryOrChain, KeepsChains};
ghost use Rattle.champ_chain.specs.Old.{ReachesOldBy};

mod laws;
mod rows;
mod spot;

use elem_core::{Element, NoMemory, Probe};
pub use laws::chains_are_read_one_way;
use node_heap::{Heap, Link};
pub use rows::{ChainRow, key_of, row_of, row_over};
use rows::{closed, copied_over, hold_tail, in_order, rows_from};
pub use spot::{KeySpot, key_spot_of};
use std::cmp::Ordering;

/// What a look-up finds at a key's place.
#[derive(Clone, Copy)]
pub struct Found {
    /// The key's entry, None exactly where the key is absent.
    pub entry: Option<Link>,
    /// The number of entries whose keys have the key's masked code.
    pub alike: usize,
}

/// The entry with this key in a chain, None exactly where the key is absent.
pub fn find<T: Element, P: Probe<T>>(heap: &Heap<T>, chain: Link, key: &P) -> Option<Link>
    requires { (E : List (Entry T)) × IsChain T.cmp (form_at heap.now) chain E }
    ensures entry { (E : List (Entry T)) → IsChain T.cmp (form_at heap.now) chain E →
        result ≡ link_with T.cmp (P.stands_for key.now) E }
    ensures graph { IsGraph heap.now }
{
    key_spot_of(heap, chain, key).found
}

/// The number of entries of a chain, below 2^56.
pub fn length<T: Element>(heap: &Heap<T>, chain: Link) -> usize
    requires { (E : List (Entry T)) × IsChain T.cmp (form_at heap.now) chain E }
    ensures number { (E : List (Entry T)) → IsChain T.cmp (form_at heap.now) chain E → result ≡ length E }
    ensures few { result < row_limit }
    ensures graph { IsGraph heap.now }
{
    rows_from(heap, Some(chain))
}

/// The entry with this key in a chain, and the number of all its entries, in one walk.
pub fn look_up<T: Element, P: Probe<T>>(heap: &Heap<T>, chain: Link, key: &P) -> Found
    requires { (E : List (Entry T)) × IsChain T.cmp (form_at heap.now) chain E }
    ensures entry { (E : List (Entry T)) → IsChain T.cmp (form_at heap.now) chain E →
        result.entry ≡ link_with T.cmp (P.stands_for key.now) E }
    ensures alike { (E : List (Entry T)) → IsChain T.cmp (form_at heap.now) chain E → result.alike ≡ length E }
    ensures few { result.alike < row_limit }
    ensures graph { IsGraph heap.now }
{
    let spot = key_spot_of(heap, chain, key);
    Found {
        entry: spot.found,
        alike: spot.before + usize::from(spot.found.is_some()) + rows_from(heap, spot.rest),
    }
}

/// A chain of two entries with different keys. A hold of each is spent on Ok. It makes at most two nodes. Err where
/// memory runs out: it leaves the heap as it was.
pub fn join<T: Element>(heap: &mut Heap<T>, first: Link, second: Link) -> Result<Link, NoMemory>
    requires few { hold_count heap.old < most_holds }
    requires held { (l : ℕ) → count l (first ∷ second ∷ []) ≤ holds_at heap.old l }
    requires apart { (j : T) × (k : T) × (key_at (form_at heap.old) first ≡ Some j) × (key_at (form_at heap.old) second ≡ Some k) × (T.cmp j k ≢ Equal) }
    ensures answered { IfOk result (λ l. Answered heap.old heap.new (first ∷ second ∷ []) l 0 2) }
    ensures joined { (j k : T) → key_at (form_at heap.old) first ≡ Some j → key_at (form_at heap.old) second ≡ Some k →
        IfOk result (λ l. IsChain T.cmp (form_at heap.new) l (entry_of j first ∷ entry_of k second ∷ [])) }
    ensures made { OnOk result (MakesJust heap.old heap.new) }
    ensures chains { KeepsChains heap.old heap.new }
    ensures refused { OnErr result (heap.new ≡ heap.old) }
    ensures spares { OnOk result (KeepsToNeed heap.old heap.new 0 2) }
    ensures ample { HasSpares heap.old 0 2 → IsOk result }
{
    heap.reserve(0, 2)?;
    Ok(joined(heap, first, second))
}

/// A chain of two entries with different keys, where there are spares for its two nodes. A hold of each is spent.
pub fn joined<T: Element>(heap: &mut Heap<T>, first: Link, second: Link) -> Link
    requires few { hold_count heap.old < most_holds }
    requires held { (l : ℕ) → count l (first ∷ second ∷ []) ≤ holds_at heap.old l }
    requires apart { (j : T) × (k : T) × (key_at (form_at heap.old) first ≡ Some j) × (key_at (form_at heap.old) second ≡ Some k) × (T.cmp j k ≢ Equal) }
    requires spare { 2 ≤ heap.old.spare_nodes }
    ensures builds { Builds heap.old heap.new (first ∷ second ∷ []) (result ∷ []) 0 2 }
    ensures joined { (j k : T) → key_at (form_at heap.old) first ≡ Some j → key_at (form_at heap.old) second ≡ Some k →
        IsChain T.cmp (form_at heap.new) result (entry_of j first ∷ entry_of k second ∷ []) }
    ensures owners { KeepsOldOwners heap.old heap.new }
    ensures below { ReachesOldBy heap.old heap.new first second result }
    ensures chains { KeepsChains heap.old heap.new }
{
    match key_of(heap, first).cmp(key_of(heap, second)) {
        Ordering::Less => in_order(heap, first, second),
        Ordering::Equal => unreachable!(),
        Ordering::Greater => in_order(heap, second, first),
    }
}

/// The chain with the entry added, or in the place of the one with its key. The entry's hold is spent on Ok, and the
/// given chain stays. It makes at most one node more than the chain has entries. Err where memory runs out: it leaves the
/// heap as it was.
pub fn with<T: Element>(heap: &mut Heap<T>, chain: Link, entry: Link) -> Result<Link, NoMemory>
    requires few { hold_count heap.old ≤ half_holds }
    requires held { 0 < holds_at heap.old entry }
    requires keyed { IsSome (key_at (form_at heap.old) entry) }
    requires chain { (E : List (Entry T)) × IsChain T.cmp (form_at heap.old) chain E }
    ensures answered { (E : List (Entry T)) → IsChain T.cmp (form_at heap.old) chain E →
        IfOk result (λ l. Answered heap.old heap.new (entry ∷ []) l 0 (length E + 1)) }
    ensures chained { (E : List (Entry T)) (k : T) → IsChain T.cmp (form_at heap.old) chain E → key_at (form_at heap.old) entry ≡ Some k →
        IfOk result (λ l. IsChain T.cmp (form_at heap.new) l (put T.cmp E (entry_of k entry))) }
    ensures made { OnOk result (MakesJust heap.old heap.new) }
    ensures chains { KeepsChains heap.old heap.new }
    ensures refused { OnErr result (heap.new ≡ heap.old) }
    ensures spares { (E : List (Entry T)) → IsChain T.cmp (form_at heap.old) chain E → OnOk result (KeepsToNeed heap.old heap.new 0 (length E + 1)) }
    ensures ample { (E : List (Entry T)) → IsChain T.cmp (form_at heap.old) chain E → HasSpares heap.old 0 (length E + 1) → IsOk result }
{
    let number = length(heap, chain);
    heap.reserve(0, number + 1)?;
    Ok(added(heap, chain, entry))
}

/// The chain with the entry added, or in the place of the one with its key, where there are spares for one node more than
/// the chain has entries. The entry's hold is spent, and the given chain stays.
pub fn added<T: Element>(heap: &mut Heap<T>, chain: Link, entry: Link) -> Link
    requires few { hold_count heap.old ≤ half_holds }
    requires held { 0 < holds_at heap.old entry }
    requires keyed { IsSome (key_at (form_at heap.old) entry) }
    requires chain { (E : List (Entry T)) × IsChain T.cmp (form_at heap.old) chain E × (length E < heap.old.spare_nodes) }
    ensures builds { (E : List (Entry T)) → IsChain T.cmp (form_at heap.old) chain E →
        Builds heap.old heap.new (entry ∷ []) (result ∷ []) 0 (length E + 1) }
    ensures chained { (E : List (Entry T)) (k : T) → IsChain T.cmp (form_at heap.old) chain E → key_at (form_at heap.old) entry ≡ Some k →
        IsChain T.cmp (form_at heap.new) result (put T.cmp E (entry_of k entry)) }
    ensures chains { KeepsChains heap.old heap.new }
{
    let spot = key_spot_of(heap, chain, key_of(heap, entry));
    hold_tail(heap, spot.rest);
    let made = row_over(heap, entry, spot.rest);
    copied_over(heap, chain, spot.before, made)
}

/// The chain without the entry with this key: None exactly where the key is absent, and then nothing has changed. Where
/// one entry is left it is that entry itself. The given chain stays. It makes at most as many nodes as the chain has
/// entries. Err where memory runs out: it leaves the heap as it was.
pub fn without<T: Element, P: Probe<T>>(
    heap: &mut Heap<T>,
    chain: Link,
    key: &P,
) -> Result<Option<Link>, NoMemory>
    requires few { hold_count heap.old < half_holds }
    requires chain { (E : List (Entry T)) × IsChain T.cmp (form_at heap.old) chain E }
    ensures absent { (E : List (Entry T)) → IsChain T.cmp (form_at heap.old) chain E →
        (result ≡ Ok None) ↔ (link_with T.cmp (P.stands_for key.now) E ≡ None) }
    ensures nothing { IfOk result (λ left. IfNone left (heap.new ≡ heap.old)) }
    ensures answered { (E : List (Entry T)) → IsChain T.cmp (form_at heap.old) chain E →
        IfOk result (λ left. IfSome left (λ l. Answered heap.old heap.new [] l 0 (length E))) }
    ensures removed { (E : List (Entry T)) → IsChain T.cmp (form_at heap.old) chain E →
        IfOk result (λ left. IfSome left (λ l. IsEntryOrChain T.cmp (form_at heap.new) l (others T.cmp (P.stands_for key.now) E))) }
    ensures made { OnOk result (MakesJust heap.old heap.new) }
    ensures chains { KeepsChains heap.old heap.new }
    ensures refused { OnErr result (heap.new ≡ heap.old) }
    ensures spares { (E : List (Entry T)) → IsChain T.cmp (form_at heap.old) chain E → OnOk result (KeepsToNeed heap.old heap.new 0 (length E)) }
    ensures ample { (E : List (Entry T)) → IsChain T.cmp (form_at heap.old) chain E → HasSpares heap.old 0 (length E) → IsOk result }
{
    let found = look_up(heap, chain, key);
    if found.entry.is_none() {
        return Ok(None);
    }
    heap.reserve(0, found.alike)?;
    Ok(Some(removed(heap, chain, key)))
}

/// The chain without the entry with this key, which is there, where there are as many spare nodes as the chain has entries.
/// Where one entry is left it is that entry itself. The given chain stays.
pub fn removed<T: Element, P: Probe<T>>(heap: &mut Heap<T>, chain: Link, key: &P) -> Link
    requires few { hold_count heap.old < half_holds }
    requires chain { (E : List (Entry T)) × IsChain T.cmp (form_at heap.old) chain E × (link_with T.cmp (P.stands_for key.now) E ≢ None)
        × (length E ≤ heap.old.spare_nodes) }
    ensures builds { (E : List (Entry T)) → IsChain T.cmp (form_at heap.old) chain E → Builds heap.old heap.new [] (result ∷ []) 0 (length E) }
    ensures removed { (E : List (Entry T)) → IsChain T.cmp (form_at heap.old) chain E →
        IsEntryOrChain T.cmp (form_at heap.new) result (others T.cmp (P.stands_for key.now) E) }
    ensures chains { KeepsChains heap.old heap.new }
{
    let spot = key_spot_of(heap, chain, key);
    closed(heap, chain, spot.before, spot.rest)
}
