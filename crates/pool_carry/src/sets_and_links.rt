//! The sets and links of a trie row, apart from its pool.
ghost use Rattle.std.specs.Prelude.{◌≡◌, ◌≢◌, ℕ, ◌+◌, ◌<◌, not, ◌&&◌, OnOk};
ghost use Rattle.node_heap.specs.Links.{count};
ghost use Rattle.champ_trie.specs.Bits.{has};
ghost use Rattle.champ_trie.specs.Trie.{AreSets, place_of, links_at_place};
ghost use Rattle.champ_trie.specs.declared.place.Place.TheVariants.{Empty, Entry as At, Node};

use champ_trie::{contains, node_index, rank_of, with_position};
use elem_core::NoMemory;
use std::alloc::Global;

// The sets and links of a trie row, whose positions are filled one by one.
#[derive(Drop)]
pub(crate) struct SetsAndLinks {
    pub(crate) entries: u32,
    pub(crate) nodes: u32,
    pub(crate) links: Vec<u64>,
}

impl SetsAndLinks {
    // Nothing at any position.
    pub(crate) fn empty(alloc: Global) -> SetsAndLinks
        ensures sets { AreSets result.entries result.nodes result.links.items }
        ensures none { (k : ℕ) → count k result.links.items ≡ 0 }
        ensures places { (p : ℕ) → place_of result.entries result.nodes result.links.items p ≡ Empty }
    {
        SetsAndLinks {
            entries: 0,
            nodes: 0,
            links: Vec::new(alloc),
        }
    }

    // Whether nothing stands at a position.
    pub(crate) fn is_free(&self, position: u32) -> bool
        requires { position < 32 }
        ensures { result ≡ not (has self.now.entries position) && not (has self.now.nodes position) }
    {
        !contains(self.entries, position) && !contains(self.nodes, position)
    }

    // Puts an entry at a position where nothing stands.
    pub(crate) fn put_entry(&mut self, position: u32, entry: u64) -> Result<(), NoMemory>
        requires sets { AreSets self.old.entries self.old.nodes self.old.links.items }
        requires position { position < 32 }
        requires free { place_of self.old.entries self.old.nodes self.old.links.items position ≡ Empty }
        ensures sets { OnOk result (AreSets self.new.entries self.new.nodes self.new.links.items) }
        ensures here { OnOk result (place_of self.new.entries self.new.nodes self.new.links.items position ≡ At entry) }
        ensures others { (p : ℕ) → p < 32 → p ≢ position → OnOk result (
            place_of self.new.entries self.new.nodes self.new.links.items p ≡ place_of self.old.entries self.old.nodes self.old.links.items p) }
        ensures links { (k : ℕ) → OnOk result (count k self.new.links.items ≡ count k self.old.links.items + count k (links_at_place (At entry))) }
    {
        self.links
            .insert(rank_of(self.entries, position) as usize, entry)?;
        self.entries = with_position(self.entries, position);
        Ok(())
    }

    // Puts a row of the next depth, or a chain, at a position where nothing stands.
    pub(crate) fn put_node(&mut self, position: u32, node: u64) -> Result<(), NoMemory>
        requires sets { AreSets self.old.entries self.old.nodes self.old.links.items }
        requires position { position < 32 }
        requires free { place_of self.old.entries self.old.nodes self.old.links.items position ≡ Empty }
        ensures sets { OnOk result (AreSets self.new.entries self.new.nodes self.new.links.items) }
        ensures here { OnOk result (place_of self.new.entries self.new.nodes self.new.links.items position ≡ Node node) }
        ensures others { (p : ℕ) → p < 32 → p ≢ position → OnOk result (
            place_of self.new.entries self.new.nodes self.new.links.items p ≡ place_of self.old.entries self.old.nodes self.old.links.items p) }
        ensures links { (k : ℕ) → OnOk result (count k self.new.links.items ≡ count k self.old.links.items + count k (links_at_place (Node node))) }
    {
        let index = node_index(self.entries, self.nodes, position);
        self.links.insert(index, node)?;
        self.nodes = with_position(self.nodes, position);
        Ok(())
    }
}
