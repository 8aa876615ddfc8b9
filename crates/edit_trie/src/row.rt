//! Trie rows that are written in place.
ghost use Rattle.std.specs.Prelude.{◌≡◌, ◌≢◌, ℕ, ◌+◌, ◌<◌, ◌^◌, List, [], ◌∷◌, true, false, slice_index};
ghost use Rattle.node_heap.specs.Links.{Reaches};
ghost use Rattle.node_heap.specs.Heap.{row_at, form_at, links_at, holds_at, hold_count, owners_at, IsGraph, most_holds};
ghost use Rattle.node_heap.specs.Calls.{KeepsOwners, Gains};
ghost use Rattle.node_heap.specs.InPlace.{Changes};
ghost use Rattle.champ_trie.specs.Bits.{has, rank};
ghost use Rattle.champ_trie.specs.Trie.{IsRow, place_of};
ghost use Rattle.champ_trie.specs.declared.place.Place.TheVariants.{Entry as At, Node as NodeAt, Empty};
ghost use Rattle.edit_trie.specs.Spot.{IsSpot, PutsAt};

use champ_trie::{cleared, contains, node_index, rank_of, sets_of, with_position};
use node_heap::{Head, Heap, Link, TrieRef};

// What stands at a position of a trie row, by its index among the row's links.
#[derive(Clone, Copy)]
pub(crate) enum Spot {
    // Nothing.
    Empty,
    // The only entry with the position's digit.
    Entry(usize),
    // The row of the next depth, or the chain, of two entries or more.
    Node(usize),
}

// What stands at the position of a trie row with these sets.
pub(crate) fn spot_in(entries: u32, nodes: u32, position: u32) -> Spot
    requires { position < 32 }
    ensures { IsSpot entries nodes position result }
{
    if contains(entries, position) {
        return Spot::Entry(rank_of(entries, position) as usize);
    }
    if contains(nodes, position) {
        return Spot::Node(node_index(entries, nodes, position));
    }
    Spot::Empty
}

// What stands at the position of the trie row at a link.
pub(crate) fn spot_at<T>(heap: &Heap<T>, row: Link, position: u32) -> Spot
    requires row { (depth entries nodes : ℕ) × (links : List ℕ) × IsRow (form_at heap.now) row depth entries nodes links }
    requires position { position < 32 }
    ensures graph { IsGraph heap.now }
    ensures spot { (depth entries nodes : ℕ) (links : List ℕ) → IsRow (form_at heap.now) row depth entries nodes links → IsSpot entries nodes position result }
{
    heap.rows_form_a_graph();
    let TrieRef { entries, nodes, .. } = heap.trie(row);
    spot_in(entries, nodes, position)
}

// Puts an entry at a position of a row with one owner where nothing stands.
pub(crate) fn put_entry<T>(heap: &mut Heap<T>, row: Link, depth: u8, position: u32, entry: Link)
    requires row { (entries nodes : ℕ) × (links : List ℕ) × IsRow (form_at heap.old) row depth entries nodes links
        × (place_of entries nodes links position ≡ Empty) }
    requires position { position < 32 }
    requires sole { owners_at heap.old row ≡ 1 }
    requires held { 0 < holds_at heap.old entry }
    requires apart { ¬ Reaches (links_at heap.old) entry row }
    ensures puts { (entries nodes : ℕ) (links : List ℕ) → IsRow (form_at heap.old) row depth entries nodes links →
        PutsAt (form_at heap.new) row depth entries nodes links position (At entry) }
    ensures others { (k : ℕ) → k ≢ row → row_at heap.new k ≡ row_at heap.old k }
    ensures owners { KeepsOwners heap.old heap.new }
    ensures changes { Changes row heap.old heap.new (entry ∷ []) [] 0 0 }
    ensures gains { Gains heap.old heap.new }
{
    let (entries, nodes) = sets_of(heap, row);
    heap.insert_link(row, rank_of(entries, position) as usize, entry);
    let entries = with_position(entries, position);
    heap.set_head(
        row,
        Head::Trie {
            depth,
            entries,
            nodes,
        },
    );
}

// The same for a node.
pub(crate) fn put_node<T>(heap: &mut Heap<T>, row: Link, depth: u8, position: u32, node: Link)
    requires row { (entries nodes : ℕ) × (links : List ℕ) × IsRow (form_at heap.old) row depth entries nodes links
        × (place_of entries nodes links position ≡ Empty) }
    requires position { position < 32 }
    requires sole { owners_at heap.old row ≡ 1 }
    requires held { 0 < holds_at heap.old node }
    requires apart { ¬ Reaches (links_at heap.old) node row }
    ensures puts { (entries nodes : ℕ) (links : List ℕ) → IsRow (form_at heap.old) row depth entries nodes links →
        PutsAt (form_at heap.new) row depth entries nodes links position (NodeAt node) }
    ensures others { (k : ℕ) → k ≢ row → row_at heap.new k ≡ row_at heap.old k }
    ensures owners { KeepsOwners heap.old heap.new }
    ensures changes { Changes row heap.old heap.new (node ∷ []) [] 0 0 }
    ensures gains { Gains heap.old heap.new }
{
    let (entries, nodes) = sets_of(heap, row);
    heap.insert_link(row, node_index(entries, nodes, position), node);
    let nodes = with_position(nodes, position);
    heap.set_head(
        row,
        Head::Trie {
            depth,
            entries,
            nodes,
        },
    );
}

// Takes the entry at a position out of a row with one owner, with a hold.
pub(crate) fn take_entry<T>(heap: &mut Heap<T>, row: Link, depth: u8, position: u32) -> Link
    requires row { (entries nodes : ℕ) × (links : List ℕ) × IsRow (form_at heap.old) row depth entries nodes links × (has entries position ≡ true) }
    requires position { position < 32 }
    requires sole { owners_at heap.old row ≡ 1 }
    requires few { hold_count heap.old < most_holds }
    ensures taken { (entries nodes : ℕ) (links : List ℕ) → IsRow (form_at heap.old) row depth entries nodes links → result ≡ slice_index links (rank entries position) }
    ensures puts { (entries nodes : ℕ) (links : List ℕ) → IsRow (form_at heap.old) row depth entries nodes links →
        PutsAt (form_at heap.new) row depth entries nodes links position Empty }
    ensures others { (k : ℕ) → k ≢ row → row_at heap.new k ≡ row_at heap.old k }
    ensures owners { KeepsOwners heap.old heap.new }
    ensures changes { Changes row heap.old heap.new [] (result ∷ []) 0 0 }
    ensures gains { Gains heap.old heap.new }
{
    let (entries, nodes) = sets_of(heap, row);
    let entry = heap.remove_link(row, rank_of(entries, position) as usize);
    let entries = cleared(entries, position);
    heap.set_head(
        row,
        Head::Trie {
            depth,
            entries,
            nodes,
        },
    );
    entry
}

// The same for the node at a position.
pub(crate) fn take_node<T>(heap: &mut Heap<T>, row: Link, depth: u8, position: u32) -> Link
    requires row { (entries nodes : ℕ) × (links : List ℕ) × IsRow (form_at heap.old) row depth entries nodes links
        × (has entries position ≡ false) × (has nodes position ≡ true) }
    requires position { position < 32 }
    requires sole { owners_at heap.old row ≡ 1 }
    requires few { hold_count heap.old < most_holds }
    ensures taken { (entries nodes : ℕ) (links : List ℕ) → IsRow (form_at heap.old) row depth entries nodes links → result ≡ slice_index links (rank entries 32 + rank nodes position) }
    ensures puts { (entries nodes : ℕ) (links : List ℕ) → IsRow (form_at heap.old) row depth entries nodes links →
        PutsAt (form_at heap.new) row depth entries nodes links position Empty }
    ensures others { (k : ℕ) → k ≢ row → row_at heap.new k ≡ row_at heap.old k }
    ensures owners { KeepsOwners heap.old heap.new }
    ensures changes { Changes row heap.old heap.new [] (result ∷ []) 0 0 }
    ensures gains { Gains heap.old heap.new }
{
    let (entries, nodes) = sets_of(heap, row);
    let node = heap.remove_link(row, node_index(entries, nodes, position));
    let nodes = cleared(nodes, position);
    heap.set_head(
        row,
        Head::Trie {
            depth,
            entries,
            nodes,
        },
    );
    node
}
