//! The way of a code down a trie.
ghost use Rattle.std.specs.Prelude.{◌≡◌, ◌↔◌, ℕ, ◌<◌, ◌≤◌, List, IsSome, IsTrue, true, false};
ghost use Rattle.node_heap.specs.Links.{HasLink};
ghost use Rattle.node_heap.specs.Heap.{row_at, form_at, links_at, owners_at, IsGraph, row_limit};
ghost use Rattle.champ_chain.specs.Entry.{Entry, link_with};
ghost use Rattle.champ_trie.specs.Trie.{IsTrieOf, code_by};
ghost use Rattle.champ_trie.specs.Reach.{alike_in};
ghost use Rattle.edit_trie.specs.Way.{IsSoleWay, LeadsDown};

use crate::row::{Spot, spot_in};
use champ_chain::look_up as look_up_in_chain;
use champ_trie::{Found, found_alone};
use elem_core::{CODE_BITS, Code, DEEPEST, Element, Probe, digit};
use node_heap::{Heap, Link, TrieRef};

// A row on the way of a code, its depth, and whether it and each row above it have one owner.
#[derive(Clone, Copy)]
pub(crate) struct Reached {
    pub row: Link,
    pub depth: u8,
    pub sole: bool,
}

// Whether the parent and all above it have one owner each, and the child has one too.
#[inline]
fn is_alone_below<T>(heap: &Heap<T>, above: bool, parent: Link, child: Link) -> bool
    requires live { IsSome (row_at heap.now child) }
    requires linked { HasLink (links_at heap.now) parent child }
    ensures { IsTrue result ↔ (IsTrue above × (owners_at heap.now child ≡ 1)) }
{
    if !above {
        return false;
    }
    heap.child_has_one_owner(parent, child)
}

// The lowest row to which the digits of a code lead from a root.
#[inline]
pub(crate) fn way_of<T: Element>(heap: &Heap<T>, root: Link, code: Code) -> Reached
    requires trie { (bits : ℕ) × (E : List (Entry T)) × IsTrieOf T.cmp T.code_of bits heap.now root E }
    ensures graph { IsGraph heap.now }
    ensures deep { result.depth ≤ DEEPEST }
    ensures sole { result.sole ≡ true → (owners_at heap.now root ≡ 1) × IsSoleWay heap.now root code result.depth result.row }
    ensures leads { (bits : ℕ) (E : List (Entry T)) → IsTrieOf T.cmp T.code_of bits heap.now root E →
        LeadsDown T.cmp (code_by T.code_of bits) (form_at heap.now) E code result.depth result.row }
{
    heap.rows_form_a_graph();
    let mut row = root;
    let mut sole = heap.has_one_owner(root);
    for depth in 0..DEEPEST {
        let TrieRef {
            entries,
            nodes,
            links,
        } = heap.trie(row);
        match spot_in(entries, nodes, digit(code, depth)) {
            Spot::Node(index) => {
                let child = links[index];
                sole = is_alone_below(heap, sole, row, child);
                row = child;
            }
            _ => return Reached { row, depth, sole },
        }
    }
    Reached {
        row,
        depth: DEEPEST,
        sole,
    }
}

// What a look-up of the whole trie finds, by the lowest row to which the code of its key leads.
#[inline]
pub(crate) fn found_below<T: Element, P: Probe<T>>(
    heap: &Heap<T>,
    way: &Reached,
    key: &P,
    code: Code,
    bits: u32,
) -> Found
    requires bits { bits ≤ CODE_BITS }
    requires code { code ≡ code_by T.code_of bits (P.stands_for key.now) }
    requires leads { (E : List (Entry T)) × LeadsDown T.cmp (code_by T.code_of bits) (form_at heap.now) E code way.now.depth way.now.row }
    ensures entry { (E : List (Entry T)) → LeadsDown T.cmp (code_by T.code_of bits) (form_at heap.now) E code way.now.depth way.now.row →
        result.entry ≡ link_with T.cmp (P.stands_for key.now) E }
    ensures alike { (E : List (Entry T)) → LeadsDown T.cmp (code_by T.code_of bits) (form_at heap.now) E code way.now.depth way.now.row →
        result.alike ≡ alike_in (code_by T.code_of bits) code E }
    ensures few { result.alike < row_limit }
{
    let TrieRef {
        entries,
        nodes,
        links,
    } = heap.trie(way.row);
    match spot_in(entries, nodes, digit(code, way.depth)) {
        Spot::Empty => Found {
            entry: None,
            alike: 0,
        },
        Spot::Entry(index) => found_alone(heap, links[index], key, code, bits),
        Spot::Node(index) => look_up_in_chain(heap, links[index], key),
    }
}

// Where an edit may begin once the root is its owner's own: at the way's row, where neither that nor one above it is shared.
pub(crate) fn start(way: &Reached, root: Link) -> Reached
    ensures sole { way.now.sole ≡ true → result ≡ way.now }
    ensures top { way.now.sole ≡ false → (result.row ≡ root) × (result.depth ≡ 0) }
{
    if way.sole {
        *way
    } else {
        Reached {
            row: root,
            depth: 0,
            sole: true,
        }
    }
}
