//! What stands at the positions of a row that is being merged.
ghost use Rattle.std.specs.Prelude.{◌≡◌, ◌≢◌, ℕ, ◌+◌, ◌<◌, ◌≤◌, true, false, ◌||◌, ◌⊎◌, List, [], ◌∷◌, ◌++◌, length, None, IsSome, IfSome};
ghost use Rattle.node_heap.specs.Links.{count};
ghost use Rattle.node_heap.specs.Heap.{form_at, row_at, holds_at, hold_count, IsGraph, half_holds};
ghost use Rattle.node_heap.specs.Calls.{Builds};
ghost use Rattle.champ_trie.specs.Trie.{AreSets, IsRow, links_at_place};
ghost use Rattle.champ_trie.specs.declared.place.Place.TheVariants.{Empty};
ghost use Rattle.set_merge.specs.Spread.{place_merged, old_links, is_new, standing, lone_of, IsBlank, IsUnchanged, Closed};

use crate::merged::{Merged, is_same};
use champ_trie::{DraftRow, Place};
use node_heap::{Heap, Link, RowLinks};

// What stands at each position of a row that is being merged.
#[derive(Drop)]
pub(crate) struct Spread {
    // What stands at its positions so far.
    row: DraftRow,
    // The links of what stood before, of which no hold is taken yet.
    stood: RowLinks,
    // Whether a node was made.
    made: bool,
    // Whether at each position stands what the first place has there, and the second.
    as_first: bool,
    as_second: bool,
}

impl Spread {
    // Nothing at any position yet.
    pub(crate) fn empty() -> Spread
        ensures blank { IsBlank result }
    {
        Spread {
            row: DraftRow::empty(),
            stood: RowLinks::new(),
            made: false,
            as_first: true,
            as_second: true,
        }
    }

    // Puts what was merged at the position, where nothing stands and the two places have these.
    pub(crate) fn put(&mut self, position: u32, merged: &Merged, a: &Place, b: &Place)
        requires position { position < 32 }
        requires sets { AreSets self.old.row.entries self.old.row.nodes self.old.row.links }
        requires free { standing self.old position ≡ Empty }
        requires room { length self.old.stood < 32 }
        ensures sets { AreSets self.new.row.entries self.new.row.nodes self.new.row.links }
        ensures here { standing self.new position ≡ place_merged merged.now }
        ensures others { (p : ℕ) → p < 32 → p ≢ position → standing self.new p ≡ standing self.old p }
        ensures links { (l : ℕ) → count l self.new.row.links ≡ count l self.old.row.links + count l (links_at_place (place_merged merged.now)) }
        ensures stood { self.new.stood ≡ self.old.stood ++ old_links merged.now }
        ensures made { self.new.made ≡ (self.old.made || is_new merged.now) }
        ensures as_first { (self.new.as_first ≡ true) → (self.old.as_first ≡ true) × (place_merged merged.now ≡ a.now) }
        ensures as_second { (self.new.as_second ≡ true) → (self.old.as_second ≡ true) × (place_merged merged.now ≡ b.now) }
        ensures stays_first { (self.old.as_first ≡ true) → (place_merged merged.now ≡ a.now) → self.new.as_first ≡ true }
        ensures stays_second { (self.old.as_second ≡ true) → (place_merged merged.now ≡ b.now) → self.new.as_second ≡ true }
    {
        let place = merged.place();
        self.as_first = self.as_first && is_same(&place, a);
        self.as_second = self.as_second && is_same(&place, b);
        self.row.put(position, place);
        match *merged {
            Merged::Old(old) => keep(&mut self.stood, old),
            Merged::New(_) => self.made = true,
        }
    }

    // What stands for the row in the one above: where no node was made, the first place or the second if all is as there, nothing
    // for no entry, and the entry for one; else a new row, which spends the holds of the new nodes.
    pub(crate) fn close<T>(&self, heap: &mut Heap<T>, depth: u8, a: &Place, b: &Place) -> Merged
        requires sets { AreSets self.now.row.entries self.now.row.nodes self.now.row.links }
        requires graph { IsGraph heap.old }
        requires live { (l : ℕ) → 0 < count l self.now.stood → IsSome (row_at heap.old l) }
        requires held { (l : ℕ) → count l self.now.row.links ≤ holds_at heap.old l + count l self.now.stood }
        requires few { hold_count heap.old ≤ half_holds + 512 }
        requires spare { 0 < heap.old.spare_nodes }
        ensures closed { Closed heap.old heap.new self.now depth a.now b.now result }
    {
        if !self.made {
            if let Some(place) = self.unchanged(a, b) {
                return Merged::Old(place);
            }
        }
        Merged::New(self.make(heap, depth))
    }

    // What the row is where no node was made, None if a new one.
    fn unchanged(&self, a: &Place, b: &Place) -> Option<Place>
        ensures unchanged { IfSome result (λ place. IsUnchanged self.now a.now b.now place) }
        ensures none { result ≡ None → (self.now.as_first ≡ false) × (self.now.as_second ≡ false) × (lone_of self.now ≡ None) }
    {
        if self.as_first {
            return Some(*a);
        }
        if self.as_second {
            return Some(*b);
        }
        self.lone()
    }

    // Nothing where nothing stands at the positions, the entry where it is all that stands there, and else None.
    fn lone(&self) -> Option<Place>
        ensures { result ≡ lone_of self.now }
    {
        let links = self.row.links.as_slice();
        match links.len() {
            0 => Some(Place::Empty),
            1 if self.row.nodes == 0 => Some(Place::Entry(links[0])),
            _ => None,
        }
    }

    // The root that has just these positions, None where a new row is wanted.
    pub(crate) fn root(&self, a: Link, b: Link) -> Option<Link>
        ensures none { result ≡ None → (self.now.made ≡ true) ⊎ (self.now.as_first ≡ false) × (self.now.as_second ≡ false) }
        ensures some { IfSome result (λ l. (self.now.made ≡ false) × (((self.now.as_first ≡ true) × (l ≡ a)) ⊎ ((self.now.as_second ≡ true) × (l ≡ b)))) }
    {
        if self.made {
            return None;
        }
        match (self.as_first, self.as_second) {
            (true, _) => Some(a),
            (false, true) => Some(b),
            (false, false) => None,
        }
    }

    // A new row of the depth. It spends the holds of the new nodes.
    pub(crate) fn make<T>(&self, heap: &mut Heap<T>, depth: u8) -> Link
        requires sets { AreSets self.now.row.entries self.now.row.nodes self.now.row.links }
        requires graph { IsGraph heap.old }
        requires live { (l : ℕ) → 0 < count l self.now.stood → IsSome (row_at heap.old l) }
        requires held { (l : ℕ) → count l self.now.row.links ≤ holds_at heap.old l + count l self.now.stood }
        requires few { hold_count heap.old ≤ half_holds + 512 }
        requires spare { 0 < heap.old.spare_nodes }
        ensures row { IsRow (form_at heap.new) result depth self.now.row.entries self.now.row.nodes self.now.row.links }
        ensures builds { (news : List ℕ) → ((l : ℕ) → count l self.now.stood + count l news ≡ count l self.now.row.links) →
            Builds heap.old heap.new news (result ∷ []) 0 1 }
    {
        heap.hold_all(self.stood.as_slice());
        self.row.make(heap, depth)
    }
}

// Notes the link of what stood before.
fn keep(stood: &mut RowLinks, place: Place)
    requires room { length stood.old < 32 }
    ensures { stood.new ≡ stood.old ++ links_at_place place }
{
    let end = stood.as_slice().len();
    match place {
        Place::Empty => {}
        Place::Entry(entry) => stood.insert(end, entry),
        Place::Node(node) => stood.insert(end, node),
    }
}
