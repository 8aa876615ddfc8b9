//! Trie rows that are made of one other by what stands at one position.
ghost use Rattle.std.specs.Prelude.{◌≡◌, ℕ, ◌+◌, ◌<◌, ◌≤◌, false, List, [], ◌∷◌, length, Some, None, IfSome, slice_index};
ghost use Rattle.node_heap.specs.Links.{count, without, with_link, came, changed_links};
ghost use Rattle.node_heap.specs.Forms.{node, is_node};
ghost use Rattle.node_heap.specs.Heap.{row_at, form_at, links_at, holds_at, hold_count, IsGraph, half_holds};
ghost use Rattle.node_heap.specs.Calls.{Builds};
ghost use Rattle.node_heap.specs.declared.row.Head.{Head};
ghost use Rattle.node_heap.specs.declared.row.Head.TheVariants.{Trie};
ghost use Rattle.champ_trie.specs.Bits.{has};
ghost use Rattle.champ_trie.specs.Trie.{AreSets, IsRow, links_at_place};
ghost use Rattle.champ_trie.specs.Edit.{ChangesAt, IsEdited, IsClosed};
ghost use Rattle.champ_trie.specs.declared.place.Place.TheVariants.{Empty};

use crate::place::{Place, cleared, contains, node_index, rank_of, with_position};
use node_heap::{Head, Heap, Link, RowLinks};

// What becomes of a row where another thing stands at a position.
#[derive(Clone, Copy)]
struct Turn {
    // The sets that it has then.
    entries: u32,
    nodes: u32,
    // Where the link stands that goes, if any.
    out: Option<usize>,
    // The link that comes, if any, after its index among those that stay.
    into: Option<(usize, Link)>,
}

// Takes out what stands at the position of a row with these sets.
fn cleared_at(entries: u32, nodes: u32, position: u32) -> Turn
    requires sets { (links : List ℕ) × AreSets entries nodes links }
    requires position { position < 32 }
    ensures free { (has result.entries position ≡ false) × (has result.nodes position ≡ false) }
    ensures none { result.into ≡ None }
    ensures out { (links : List ℕ) → AreSets entries nodes links → IfSome result.out (λ i. i < length links) }
    ensures changes { (links : List ℕ) → AreSets entries nodes links →
        ChangesAt entries nodes links result.entries result.nodes (without result.out links) position Empty }
{
    if contains(entries, position) {
        return Turn {
            entries: cleared(entries, position),
            nodes,
            out: Some(rank_of(entries, position) as usize),
            into: None,
        };
    }
    if contains(nodes, position) {
        return Turn {
            entries,
            nodes: cleared(nodes, position),
            out: Some(node_index(entries, nodes, position)),
            into: None,
        };
    }
    Turn {
        entries,
        nodes,
        out: None,
        into: None,
    }
}

// Where the only link that stays stands, beside the one that goes, if any.
fn left_index(out: Option<usize>) -> usize
    ensures { (links : List ℕ) → IfSome out (λ i. i < length links) → length (without out links) ≡ 1 →
        (result < length links) × (slice_index links result ≡ slice_index (without out links) 0) }
{
    match out {
        Some(out) => usize::from(out == 0),
        None => 0,
    }
}

impl Turn {
    // Puts something at the position, where nothing stands then.
    fn with_place(self, position: u32, place: Place) -> Turn
        requires position { position < 32 }
        requires free { (has self.entries position ≡ false) × (has self.nodes position ≡ false) }
        requires none { self.into ≡ None }
        ensures out { result.out ≡ self.out }
        ensures came { came result.into ≡ links_at_place place }
        ensures fits { (links : List ℕ) → AreSets self.entries self.nodes links → IfSome result.into (λ i. (i.0 ≤ length links) × (length links < 32)) }
        ensures changes { (links : List ℕ) → AreSets self.entries self.nodes links →
            ChangesAt self.entries self.nodes links result.entries result.nodes (with_link result.into links) position place }
    {
        match place {
            Place::Empty => self,
            Place::Entry(entry) => Turn {
                entries: with_position(self.entries, position),
                nodes: self.nodes,
                out: self.out,
                into: Some((rank_of(self.entries, position) as usize, entry)),
            },
            Place::Node(node) => Turn {
                entries: self.entries,
                nodes: with_position(self.nodes, position),
                out: self.out,
                into: Some((node_index(self.entries, self.nodes, position), node)),
            },
        }
    }

    // The row that becomes of the one at a link, at a depth. It spends the hold of the link that comes.
    fn make<T>(self, heap: &mut Heap<T>, link: Link, depth: u8) -> Link
        requires graph { IsGraph heap.old }
        requires node { is_node (row_at heap.old link) ≡ 1 }
        requires out { IfSome self.out (λ i. i < length (links_at heap.old link)) }
        requires fits { IfSome self.into (λ i. (i.0 ≤ length (without self.out (links_at heap.old link))) × (length (without self.out (links_at heap.old link)) < 32)) }
        requires held { (k : ℕ) → count k (came self.into) ≤ holds_at heap.old k }
        requires spare { 0 < heap.old.spare_nodes }
        requires few { hold_count heap.old < half_holds + 2 }
        ensures row { row_at heap.new result ≡ Some (node (Trie depth self.entries self.nodes) (changed_links self.out self.into (links_at heap.old link))) }
        ensures builds { Builds heap.old heap.new (came self.into) (result ∷ []) 0 1 }
    {
        let head = Head::Trie {
            depth,
            entries: self.entries,
            nodes: self.nodes,
        };
        match self.into {
            Some((index, new)) => match self.out {
                Some(out) => heap.with_turned(link, head, out, index, new),
                None => heap.with_inserted(link, head, index, new),
            },
            None => match self.out {
                Some(out) => heap.with_removed(link, head, out),
                None => like(heap, link, head),
            },
        }
    }

    // The only link of what becomes of the row at a link. It is held once more, or the hold of the link that comes is passed on.
    fn last<T>(self, heap: &mut Heap<T>, link: Link) -> Link
        requires graph { IsGraph heap.old }
        requires node { is_node (row_at heap.old link) ≡ 1 }
        requires out { IfSome self.out (λ i. i < length (links_at heap.old link)) }
        requires fits { IfSome self.into (λ i. (i.0 ≤ length (without self.out (links_at heap.old link))) × (length (without self.out (links_at heap.old link)) < 32)) }
        requires one { length (changed_links self.out self.into (links_at heap.old link)) ≡ 1 }
        requires few { hold_count heap.old < half_holds + 2 }
        ensures same { result ≡ slice_index (changed_links self.out self.into (links_at heap.old link)) 0 }
        ensures builds { Builds heap.old heap.new (came self.into) (result ∷ []) 0 0 }
    {
        match self.into {
            Some((_, new)) => new,
            None => {
                let left = heap.links(link)[left_index(self.out)];
                heap.hold(left);
                left
            }
        }
    }
}

// A row with this head and the links of the one at a link.
fn like<T>(heap: &mut Heap<T>, link: Link, head: Head) -> Link
    requires graph { IsGraph heap.old }
    requires node { is_node (row_at heap.old link) ≡ 1 }
    requires spare { 0 < heap.old.spare_nodes }
    requires few { hold_count heap.old < half_holds + 2 }
    ensures row { row_at heap.new result ≡ Some (node head (links_at heap.old link)) }
    ensures builds { Builds heap.old heap.new [] (result ∷ []) 0 1 }
{
    let mut links = RowLinks::new();
    links.rewrite(heap.links(link));
    let kept = links.as_slice();
    heap.hold_all(kept);
    heap.node(head, kept)
}

// What becomes of the row at a link with another place at the position.
fn turned<T>(heap: &Heap<T>, link: Link, position: u32, place: Place) -> Turn
    requires row { (depth entries nodes : ℕ) × (links : List ℕ) × IsRow (form_at heap.now) link depth entries nodes links }
    requires position { position < 32 }
    ensures came { came result.into ≡ links_at_place place }
    ensures out { IfSome result.out (λ i. i < length (links_at heap.now link)) }
    ensures fits { IfSome result.into (λ i. (i.0 ≤ length (without result.out (links_at heap.now link))) × (length (without result.out (links_at heap.now link)) < 32)) }
    ensures changes { (depth entries nodes : ℕ) (links : List ℕ) → IsRow (form_at heap.now) link depth entries nodes links →
        ChangesAt entries nodes links result.entries result.nodes (changed_links result.out result.into (links_at heap.now link)) position place }
{
    let row = heap.trie(link);
    cleared_at(row.entries, row.nodes, position).with_place(position, place)
}

// The row at a link with another place at the position, for which a hold of the place's link is spent.
pub(crate) fn edited<T>(
    heap: &mut Heap<T>,
    link: Link,
    depth: u8,
    position: u32,
    place: Place,
) -> Link
    requires row { (depth entries nodes : ℕ) × (links : List ℕ) × IsRow (form_at heap.old) link depth entries nodes links }
    requires graph { IsGraph heap.old }
    requires position { position < 32 }
    requires held { (k : ℕ) → count k (links_at_place place) ≤ holds_at heap.old k }
    requires spare { 0 < heap.old.spare_nodes }
    requires few { hold_count heap.old < half_holds + 2 }
    ensures row { IsEdited (form_at heap.old) (form_at heap.new) link depth position place result }
    ensures builds { Builds heap.old heap.new (links_at_place place) (result ∷ []) 0 1 }
{
    turned(heap, link, position, place).make(heap, link, depth)
}

// The same where what stands for the row in the one above is wanted: the only entry that it has, or else the row.
pub(crate) fn closed<T>(
    heap: &mut Heap<T>,
    link: Link,
    depth: u8,
    position: u32,
    place: Place,
) -> Place
    requires row { (depth entries nodes : ℕ) × (links : List ℕ) × IsRow (form_at heap.old) link depth entries nodes links }
    requires graph { IsGraph heap.old }
    requires position { position < 32 }
    requires held { (k : ℕ) → count k (links_at_place place) ≤ holds_at heap.old k }
    requires spare { 0 < heap.old.spare_nodes }
    requires few { hold_count heap.old < half_holds + 2 }
    ensures place { IsClosed heap.old heap.new link depth position place result }
    ensures builds { Builds heap.old heap.new (links_at_place place) (links_at_place result) 0 1 }
{
    let turn = turned(heap, link, position, place);
    if turn.nodes == 0 && turn.entries.count_ones() == 1 {
        return Place::Entry(turn.last(heap, link));
    }
    Place::Node(turn.make(heap, link, depth))
}
