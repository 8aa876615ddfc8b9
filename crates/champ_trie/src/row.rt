//! Trie rows apart from the heap, and how they are made.
ghost use Rattle.std.specs.Prelude.{◌≡◌, ◌≢◌, ℕ, ◌+◌, ◌<◌, ◌≤◌, List, [], ◌∷◌, length, Some, None};
ghost use Rattle.node_heap.specs.Links.{count};
ghost use Rattle.node_heap.specs.Forms.{node, trie};
ghost use Rattle.node_heap.specs.Heap.{row_at, form_at, holds_at, hold_count, most_holds};
ghost use Rattle.node_heap.specs.Calls.{AddsOwner, Makes, Builds};
ghost use Rattle.node_heap.specs.declared.row.Head.TheVariants.{Trie};
ghost use Rattle.champ_trie.specs.Trie.{AreSets, IsRow, place_of, links_at_place};
ghost use Rattle.champ_trie.specs.declared.place.Place.TheVariants.{Empty};

use crate::place::{Place, node_index, place_among, rank_of, with_position};
use node_heap::{Head, Heap, Link, RowLinks};

/// The sets and links of a trie row, apart from the heap.
#[derive(Drop)]
pub struct DraftRow {
    /// The positions of its entries, as the bits of a number.
    pub entries: u32,
    /// The positions of its nodes.
    pub nodes: u32,
    /// The links of its entries and then those of its nodes, each by rising position.
    pub links: RowLinks,
}

impl DraftRow {
    /// A row with nothing at any position.
    pub fn empty() -> DraftRow
        ensures sets { AreSets result.entries result.nodes result.links }
        ensures none { result.links ≡ [] }
        ensures places { (p : ℕ) → place_of result.entries result.nodes result.links p ≡ Empty }
    {
        DraftRow {
            entries: 0,
            nodes: 0,
            links: RowLinks::new(),
        }
    }

    /// Puts something at a position, below 32, where nothing stands.
    #[inline]
    pub fn put(&mut self, position: u32, place: Place)
        requires sets { AreSets self.old.entries self.old.nodes self.old.links }
        requires position { position < 32 }
        requires free { place_of self.old.entries self.old.nodes self.old.links position ≡ Empty }
        ensures sets { AreSets self.new.entries self.new.nodes self.new.links }
        ensures here { place_of self.new.entries self.new.nodes self.new.links position ≡ place }
        ensures others { (p : ℕ) → p < 32 → p ≢ position →
            place_of self.new.entries self.new.nodes self.new.links p ≡ place_of self.old.entries self.old.nodes self.old.links p }
        ensures links { (k : ℕ) → count k self.new.links ≡ count k self.old.links + count k (links_at_place place) }
        ensures number { length self.new.links ≡ length self.old.links + length (links_at_place place) }
    {
        match place {
            Place::Empty => {}
            Place::Entry(entry) => {
                self.links
                    .insert(rank_of(self.entries, position) as usize, entry);
                self.entries = with_position(self.entries, position);
            }
            Place::Node(node) => {
                let index = node_index(self.entries, self.nodes, position);
                self.links.insert(index, node);
                self.nodes = with_position(self.nodes, position);
            }
        }
    }

    /// A row of the heap like this one, at a depth, made of a spare. It spends a hold of each link. All holds together are below
    /// 2^60 before.
    pub fn make<T>(&self, heap: &mut Heap<T>, depth: u8) -> Link
        requires sets { AreSets self.now.entries self.now.nodes self.now.links }
        requires spare { 0 < heap.old.spare_nodes }
        requires held { (k : ℕ) → count k self.now.links ≤ holds_at heap.old k }
        requires few { hold_count heap.old < most_holds }
        ensures row { IsRow (form_at heap.new) result depth self.now.entries self.now.nodes self.now.links }
        ensures fresh { row_at heap.old result ≡ None }
        ensures owners { AddsOwner heap.old heap.new result }
        ensures builds { Builds heap.old heap.new self.now.links (result ∷ []) 0 1 }
        ensures makes { Makes heap.old heap.new 0 1 }
    {
        let head = Head::Trie {
            depth,
            entries: self.entries,
            nodes: self.nodes,
        };
        heap.node(head, self.links.as_slice())
    }
}

/// The sets of the trie row at a link: the positions of its entries, and those of its nodes.
#[inline(always)]
pub fn sets_of<T>(heap: &Heap<T>, link: Link) -> (u32, u32)
    requires { (depth entries nodes : ℕ) × (links : List ℕ) × (form_at heap.now link ≡ Some (node (trie depth entries nodes) links)) }
    ensures { (depth entries nodes : ℕ) (links : List ℕ) → form_at heap.now link ≡ Some (node (trie depth entries nodes) links) →
        (result.0 ≡ entries) × (result.1 ≡ nodes) }
{
    let row = heap.trie(link);
    (row.entries, row.nodes)
}

// What stands at the position of the trie row at a link.
#[inline(always)]
pub(crate) fn place_at<T>(heap: &Heap<T>, link: Link, position: u32) -> Place
    requires row { (depth entries nodes : ℕ) × (links : List ℕ) × IsRow (form_at heap.now) link depth entries nodes links }
    requires position { position < 32 }
    ensures place { (depth entries nodes : ℕ) (links : List ℕ) → IsRow (form_at heap.now) link depth entries nodes links →
        result ≡ place_of entries nodes links position }
{
    let row = heap.trie(link);
    place_among(row.entries, row.nodes, row.links, position)
}
