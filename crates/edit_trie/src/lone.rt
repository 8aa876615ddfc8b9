//! Whether one entry alone would be left below a node.
ghost use Rattle.std.specs.Prelude.{◌≡◌, ◌≢◌, ℕ, ◌+◌, ◌<◌, ◌≤◌, List, [], ◌∷◌, length, None, IsSome, MatchOption};
ghost use Rattle.node_heap.specs.Heap.{row_at, form_at, links_at, IsGraph};
ghost use Rattle.node_heap.specs.InPlace.{child_at};
ghost use Rattle.champ_chain.specs.Entry.{Entry, entry as entry_of, link_with, others, IsEntry};
ghost use Rattle.champ_chain.specs.Chain.{IsChain};
ghost use Rattle.champ_trie.specs.Trie.{code_by};
ghost use Rattle.champ_trie.specs.Edit.{IsBelow};

use crate::row::{Spot, spot_in};
use champ_chain::{key_of, row_of};
use elem_core::{CODE_BITS, Code, DEEPEST, Element, LEVELS, Probe, digit};
use node_heap::{Heap, Link, TrieRef};
use std::cmp::Ordering;

// The other one of exactly two entries below a node, of which one has the key; None where there are more.
pub(crate) fn lone_beside<T: Element, P: Probe<T>>(
    heap: &Heap<T>,
    node: Link,
    depth: u8,
    key: &P,
    code: Code,
    bits: u32,
) -> Option<Link>
    requires bits { bits ≤ CODE_BITS }
    requires depth { depth ≤ LEVELS }
    requires code { code ≡ code_by T.code_of bits (P.stands_for key.now) }
    requires node { (E : List (Entry T)) × (left : ℕ) × IsBelow T.cmp (code_by T.code_of bits) (form_at heap.now) depth node E left code
        × (link_with T.cmp (P.stands_for key.now) E ≢ None) × (2 ≤ length E) }
    ensures graph { IsGraph heap.now }
    ensures lone { (E : List (Entry T)) (left : ℕ) → IsBelow T.cmp (code_by T.code_of bits) (form_at heap.now) depth node E left code →
        link_with T.cmp (P.stands_for key.now) E ≢ None → 2 ≤ length E → MatchOption result (2 ≤ length (others T.cmp (P.stands_for key.now) E))
        (λ lone. (k : T) × (others T.cmp (P.stands_for key.now) E ≡ entry_of k lone ∷ []) × IsEntry (form_at heap.now) (entry_of k lone)) }
{
    heap.rows_form_a_graph();
    if depth > DEEPEST {
        return lone_in_chain(heap, node, key);
    }
    let TrieRef {
        entries,
        nodes,
        links,
    } = heap.trie(node);
    match spot_in(entries, nodes, digit(code, depth)) {
        Spot::Empty => None,
        Spot::Entry(index) => {
            if nodes == 0 && links.len() == 2 {
                Some(links[1 - index])
            } else {
                None
            }
        }
        Spot::Node(index) => {
            if links.len() == 1 {
                lone_beside(heap, links[index], depth + 1, key, code, bits)
            } else {
                None
            }
        }
    }
}

// The same of the node at an index of a trie row, which is the root or has more than one entry left below it.
pub(crate) fn lone_below<T: Element, P: Probe<T>>(
    heap: &Heap<T>,
    row: Link,
    index: usize,
    depth: u8,
    key: &P,
    code: Code,
    bits: u32,
) -> Option<Link>
    requires bits { bits ≤ CODE_BITS }
    requires depth { depth ≤ DEEPEST }
    requires code { code ≡ code_by T.code_of bits (P.stands_for key.now) }
    requires live { IsSome (row_at heap.now row) }
    requires index { index < length (links_at heap.now row) }
    requires node { (E : List (Entry T)) × (left : ℕ) × IsBelow T.cmp (code_by T.code_of bits) (form_at heap.now) (depth + 1) (child_at heap.now row index) E left code
        × (link_with T.cmp (P.stands_for key.now) E ≢ None) × (2 ≤ length E) }
    ensures lone { (E : List (Entry T)) (left : ℕ) → IsBelow T.cmp (code_by T.code_of bits) (form_at heap.now) (depth + 1) (child_at heap.now row index) E left code →
        link_with T.cmp (P.stands_for key.now) E ≢ None → 2 ≤ length E → (0 < depth → length (links_at heap.now row) ≡ 1 → 2 ≤ length (others T.cmp (P.stands_for key.now) E)) →
        MatchOption result (2 ≤ length (others T.cmp (P.stands_for key.now) E))
        (λ lone. (k : T) × (others T.cmp (P.stands_for key.now) E ≡ entry_of k lone ∷ []) × IsEntry (form_at heap.now) (entry_of k lone)) }
{
    let links = heap.links(row);
    // What is below its only link is all that is below the row.
    if depth > 0 && links.len() == 1 {
        return None;
    }
    lone_beside(heap, links[index], depth + 1, key, code, bits)
}

// The same of a chain.
fn lone_in_chain<T: Element, P: Probe<T>>(heap: &Heap<T>, chain: Link, key: &P) -> Option<Link>
    requires chain { (E : List (Entry T)) × IsChain T.cmp (form_at heap.now) chain E × (link_with T.cmp (P.stands_for key.now) E ≢ None) }
    ensures graph { IsGraph heap.now }
    ensures lone { (E : List (Entry T)) → IsChain T.cmp (form_at heap.now) chain E → link_with T.cmp (P.stands_for key.now) E ≢ None →
        MatchOption result (2 ≤ length (others T.cmp (P.stands_for key.now) E))
        (λ lone. (k : T) × (others T.cmp (P.stands_for key.now) E ≡ entry_of k lone ∷ []) × IsEntry (form_at heap.now) (entry_of k lone)) }
{
    heap.rows_form_a_graph();
    let first = row_of(heap, chain);
    let second = row_of(heap, first.next?);
    if second.next.is_some() {
        return None;
    }
    match key.order(key_of(heap, first.entry)) {
        Ordering::Equal => Some(second.entry),
        _ => Some(first.entry),
    }
}
