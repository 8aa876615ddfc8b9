//! Edits of a trie, from the row at a depth down.
ghost use Rattle.std.specs.Prelude.{◌≡◌, ℕ, ◌+◌, ◌*◌, ◌%◌, ◌<◌, ◌≤◌, ◌≢◌, ◌^◌, List, [], ◌∷◌, length, suc, Some, None};
ghost use Rattle.std.specs.declared.cmp.Ordering.TheVariants.{Equal};
ghost use Rattle.elem_core.specs.Codes.{digit_at};
ghost use Rattle.node_heap.specs.Links.{count};
ghost use Rattle.node_heap.specs.Heap.{form_at, holds_at, hold_count, IsGraph, half_holds, most_holds};
ghost use Rattle.node_heap.specs.Calls.{Builds, KeepsOldOwners};
ghost use Rattle.champ_chain.specs.Entry.{Entry, entry as entry_of, key_at, link_with, others, put};
ghost use Rattle.champ_chain.specs.Chain.{IsChain};
ghost use Rattle.champ_chain.specs.Old.{ReachesOldBy};
ghost use Rattle.champ_trie.specs.Trie.{AreSets, IsRow, IsTrie, IsPlace, place_of, links_at_place, part, code_by};
ghost use Rattle.champ_trie.specs.declared.place.Place.TheVariants.{Empty, Node};
ghost use Rattle.champ_trie.specs.Reach.{alike_in};
ghost use Rattle.champ_trie.specs.Edit.{IsBelow, chain_nodes, SharesBeside};

use crate::place::Place;
use crate::row::{DraftRow, place_at};
use crate::turn::{closed, edited};
use champ_chain::{added, joined, key_of, removed};
use elem_core::{CODE_BITS, Code, DEEPEST, Element, LEVELS, Probe, digit, masked};
use node_heap::{Heap, Kind, Link};
use std::cmp::Ordering;

// The trie at a link with the entry added, or in the place of the one with its key. The spares suffice, and the entry's
// hold is spent.
pub(crate) fn with_at<T: Element>(
    heap: &mut Heap<T>,
    link: Link,
    depth: u8,
    entry: Link,
    code: Code,
    bits: u32,
) -> Link
    requires bits { bits ≤ CODE_BITS }
    requires few { hold_count heap.old ≤ half_holds }
    requires graph { IsGraph heap.old }
    requires held { 0 < holds_at heap.old entry }
    requires key { (k : T) × (key_at (form_at heap.old) entry ≡ Some k) × (code ≡ code_by T.code_of bits k) }
    requires trie { (E : List (Entry T)) × (left : ℕ) × IsBelow T.cmp (code_by T.code_of bits) (form_at heap.old) depth link E left code
        × (left + 1 + alike_in (code_by T.code_of bits) code E ≤ heap.old.spare_nodes) }
    ensures builds { (E : List (Entry T)) (left : ℕ) → IsBelow T.cmp (code_by T.code_of bits) (form_at heap.old) depth link E left code →
        Builds heap.old heap.new (entry ∷ []) (result ∷ []) 0 (left + 1 + alike_in (code_by T.code_of bits) code E) }
    ensures trie { (E : List (Entry T)) (left : ℕ) (k : T) → IsBelow T.cmp (code_by T.code_of bits) (form_at heap.old) depth link E left code →
        key_at (form_at heap.old) entry ≡ Some k → IsTrie T.cmp (code_by T.code_of bits) (form_at heap.new) left depth result (put T.cmp E (entry_of k entry)) }
    ensures shares { (E : List (Entry T)) (left : ℕ) → IsBelow T.cmp (code_by T.code_of bits) (form_at heap.old) depth link E left code →
        SharesBeside (form_at heap.old) (form_at heap.new) code left depth link result }
{
    if depth > DEEPEST {
        return added(heap, link, entry);
    }
    let position = digit(code, depth);
    let place = match place_at(heap, link, position) {
        Place::Empty => Place::Entry(entry),
        Place::Entry(old) => beside(heap, old, depth, entry, code, bits),
        Place::Node(child) => Place::Node(with_at(heap, child, depth + 1, entry, code, bits)),
    };
    edited(heap, link, depth, position, place)
}

// What stands for the entry and an older one at a position: the new one where the keys are the same, else a node of both.
fn beside<T: Element>(
    heap: &mut Heap<T>,
    old: Link,
    depth: u8,
    entry: Link,
    code: Code,
    bits: u32,
) -> Place
    requires bits { bits ≤ CODE_BITS }
    requires depth { depth ≤ DEEPEST }
    requires few { hold_count heap.old ≤ half_holds }
    requires graph { IsGraph heap.old }
    requires held { 0 < holds_at heap.old entry }
    requires key { (k : T) × (key_at (form_at heap.old) entry ≡ Some k) × (code ≡ code_by T.code_of bits k) }
    requires old { (j : T) × (key_at (form_at heap.old) old ≡ Some j) × (code_by T.code_of bits j % 2 ^ (5 * (depth + 1)) ≡ code % 2 ^ (5 * (depth + 1)))
        × (DEEPEST + chain_nodes code (code_by T.code_of bits j) ≤ heap.old.spare_nodes + depth) }
    ensures builds { (j : T) → key_at (form_at heap.old) old ≡ Some j →
        (n : ℕ) × (n + depth ≤ DEEPEST + chain_nodes code (code_by T.code_of bits j)) × Builds heap.old heap.new (entry ∷ []) (links_at_place result) 0 n }
    ensures place { (j k : T) → key_at (form_at heap.old) old ≡ Some j → key_at (form_at heap.old) entry ≡ Some k → (left : ℕ) → depth + left ≡ DEEPEST →
        IsPlace (form_at heap.new) (λ l P. IsTrie T.cmp (code_by T.code_of bits) (form_at heap.new) left (depth + 1) l P) result
        (put T.cmp (entry_of j old ∷ []) (entry_of k entry)) }
{
    if key_of(heap, entry).cmp(key_of(heap, old)) == Ordering::Equal {
        return Place::Entry(entry);
    }
    let old_code = masked(key_of(heap, old).code(), bits);
    heap.hold(old);
    Place::Node(node_of_two(heap, depth + 1, entry, code, old, old_code))
}

/// The node of two entries with different keys, whose codes have the same digits above a depth, from that depth on: trie rows,
/// and below the deepest one a chain. A hold of each is spent. The spares suffice for a row of each depth left, and two for
/// the chain where the codes are the same. All holds together are below 2^60 before.
pub fn node_of_two<T: Element>(
    heap: &mut Heap<T>,
    depth: u8,
    first: Link,
    first_code: Code,
    second: Link,
    second_code: Code,
) -> Link
    requires depth { depth ≤ LEVELS }
    requires few { hold_count heap.old < most_holds }
    requires held { (l : ℕ) → count l (first ∷ second ∷ []) ≤ holds_at heap.old l }
    requires keys { (j k : T) × (key_at (form_at heap.old) first ≡ Some j) × (key_at (form_at heap.old) second ≡ Some k) × (T.cmp j k ≢ Equal) }
    requires codes { first_code % 2 ^ (5 * depth) ≡ second_code % 2 ^ (5 * depth) }
    requires spare { LEVELS + chain_nodes first_code second_code ≤ heap.old.spare_nodes + depth }
    ensures builds { (n : ℕ) × (n + depth ≤ LEVELS + chain_nodes first_code second_code) × Builds heap.old heap.new (first ∷ second ∷ []) (result ∷ []) 0 n }
    ensures trie { (code : T → ℕ) (j k : T) → key_at (form_at heap.old) first ≡ Some j → key_at (form_at heap.old) second ≡ Some k →
        first_code ≡ code j → second_code ≡ code k → (left : ℕ) → depth + left ≡ LEVELS →
        IsTrie T.cmp code (form_at heap.new) left depth result (entry_of j first ∷ entry_of k second ∷ []) }
    ensures owners { KeepsOldOwners heap.old heap.new }
    ensures below { ReachesOldBy heap.old heap.new first second result }
{
    if depth > DEEPEST {
        return joined(heap, first, second);
    }
    let position = digit(first_code, depth);
    let other = digit(second_code, depth);
    if position == other {
        let node = node_of_two(heap, depth + 1, first, first_code, second, second_code);
        lone_row(position, Place::Node(node)).make(heap, depth)
    } else {
        let mut row = lone_row(position, Place::Entry(first));
        row.put(other, Place::Entry(second));
        row.make(heap, depth)
    }
}

// A row with something at one position.
fn lone_row(position: u32, place: Place) -> DraftRow
    requires { position < 32 }
    ensures sets { AreSets result.entries result.nodes result.links }
    ensures here { place_of result.entries result.nodes result.links position ≡ place }
    ensures others { (p : ℕ) → p < 32 → p ≢ position → place_of result.entries result.nodes result.links p ≡ Empty }
    ensures links { (k : ℕ) → count k result.links ≡ count k (links_at_place place) }
    ensures number { length result.links ≡ length (links_at_place place) }
{
    let mut row = DraftRow::empty();
    row.put(position, place);
    row
}

// What stands at the key's position in the row at a link once the key is gone. The key is there, and the spares suffice.
pub(crate) fn place_without<T: Element, P: Probe<T>>(
    heap: &mut Heap<T>,
    link: Link,
    depth: u8,
    key: &P,
    code: Code,
    bits: u32,
) -> Place
    requires bits { bits ≤ CODE_BITS }
    requires depth { depth ≤ DEEPEST }
    requires few { hold_count heap.old < half_holds }
    requires graph { IsGraph heap.old }
    requires code { code ≡ code_by T.code_of bits (P.stands_for key.now) }
    requires trie { (E : List (Entry T)) × (left : ℕ) × IsBelow T.cmp (code_by T.code_of bits) (form_at heap.old) depth link E (suc left) code
        × (link_with T.cmp (P.stands_for key.now) E ≢ None) × (left + alike_in (code_by T.code_of bits) code E ≤ heap.old.spare_nodes) }
    ensures builds { (E : List (Entry T)) (left : ℕ) → IsBelow T.cmp (code_by T.code_of bits) (form_at heap.old) depth link E (suc left) code →
        Builds heap.old heap.new [] (links_at_place result) 0 (left + alike_in (code_by T.code_of bits) code E) }
    ensures place { (E : List (Entry T)) (left : ℕ) → IsBelow T.cmp (code_by T.code_of bits) (form_at heap.old) depth link E (suc left) code →
        IsPlace (form_at heap.new) (λ l P. IsTrie T.cmp (code_by T.code_of bits) (form_at heap.new) left (depth + 1) l P) result
        (part T.cmp (code_by T.code_of bits) depth (digit_at code depth) (others T.cmp (P.stands_for key.now) E)) }
    ensures shares { (E : List (Entry T)) (left e n : ℕ) (ls : List ℕ) (j k : ℕ) → IsBelow T.cmp (code_by T.code_of bits) (form_at heap.old) depth link E (suc left) code →
        IsRow (form_at heap.old) link depth e n ls → place_of e n ls (digit_at code depth) ≡ Node j → result ≡ Node k →
        SharesBeside (form_at heap.old) (form_at heap.new) code left (depth + 1) j k }
{
    match place_at(heap, link, digit(code, depth)) {
        Place::Empty => Place::Empty,
        // The key's entry, which is the only one here.
        Place::Entry(_) => Place::Empty,
        Place::Node(child) => {
            if depth == DEEPEST {
                return chain_place_without(heap, child, key);
            }
            let next = depth + 1;
            let left = place_without(heap, child, next, key, code, bits);
            closed(heap, child, next, digit(code, next), left)
        }
    }
}

// What stands for a chain once the key is gone.
fn chain_place_without<T: Element, P: Probe<T>>(heap: &mut Heap<T>, chain: Link, key: &P) -> Place
    requires few { hold_count heap.old < half_holds }
    requires chain { (E : List (Entry T)) × IsChain T.cmp (form_at heap.old) chain E × (link_with T.cmp (P.stands_for key.now) E ≢ None)
        × (length E ≤ heap.old.spare_nodes) }
    ensures builds { (E : List (Entry T)) → IsChain T.cmp (form_at heap.old) chain E → Builds heap.old heap.new [] (links_at_place result) 0 (length E) }
    ensures place { (E : List (Entry T)) → IsChain T.cmp (form_at heap.old) chain E →
        IsPlace (form_at heap.new) (λ l P. IsChain T.cmp (form_at heap.new) l P) result (others T.cmp (P.stands_for key.now) E) }
{
    let left = removed(heap, chain, key);
    match heap.kind(left) {
        Some(kind) => match kind {
            Kind::Chain => Place::Node(left),
            _ => Place::Entry(left),
        },
        None => Place::Entry(left),
    }
}
