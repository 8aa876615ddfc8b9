//! The heap and its calls.
ghost use Rattle.std.specs.Prelude.{◌≡◌, ◌≢◌, ℕ, ◌+◌, ◌*◌, ◌∷◌, None, ◌-◌, ◌^◌, ◌<◌, ◌≤◌, ◌↔◌, [], length, Some, IsSome, OnOk, OnErr, IsOk, IsTrue, option_copied, option_map, List, slice_index, slice_set, insert, remove, IfSome};
ghost use Rattle.node_heap.specs.Links.{count, HasLink, Reaches, without, changed_links, came};
ghost use Rattle.node_heap.specs.Forms.{cell, node, links_of, value_of, head_of, is_cell, is_node};
ghost use Rattle.node_heap.specs.Reads.{kind_said, sums_in, IsTrieForm};
ghost use Rattle.node_heap.specs.Heap.{row_at, form_at, links_at, holds_at, owners_at, live_count, hold_count, one_at, HasSpares, IsGraph, most_holds};
ghost use Rattle.node_heap.specs.Calls.{KeepsBelow, SameRows, Adds, AddsOwner, KeepsOwners, Makes, Releases, Extends, KeepsHeld, KeepsTrees, Unchanged, HasGreater, Builds, AddsLike};
ghost use Rattle.node_heap.specs.InPlace.{child_at, other_at, Writes, Changes};
ghost use Rattle.node_heap.specs.Layout.{graph_of, slot_at, owners_in, filled_count, Copies, IsCounted, IsDying, IsLow, Thins, cells_in, nodes_in};

use crate::entry::RowLinks;
use crate::lists::ROWS;
use crate::pairs::Shared;
use crate::row::{Head, Kind, Link, TrieRef};
use elem_core::NoMemory;
use std::alloc::Global;
use std::marker::Model;

/// Rows with their owners counted, and spares of which more rows are made.
#[derive(Drop)]
pub struct Heap<T> {
    table: Shared<T>,
    made: u64,
}

impl<T> Model for Heap<T> {
    ghost use Rattle.node_heap.specs.Heap.{Heap as Seen};

    ghost Value = { Seen T };

    ghost use Rattle.node_heap.specs.Layout.{seen, IsHeap};

    ghost view = { λ h. seen h.table.slots h.table.spare_cells h.table.spare_nodes h.made };

    ghost invariant = { λ h. IsHeap h.table.slots h.table.spare_cells h.table.spare_nodes h.made };
}

impl<T> Heap<T> {
    /// An empty heap with no spares.
    pub fn new(alloc: Global) -> Heap<T>
        ensures rows { result.rows ≡ [] }
        ensures holds { result.holds ≡ [] }
        ensures spare_cells { result.spare_cells ≡ 0 }
        ensures spare_nodes { result.spare_nodes ≡ 0 }
        ensures made { result.made ≡ 0 }
        ensures graph { IsGraph result }
    {
        Heap {
            table: Shared::new(alloc),
            made: 0,
        }
    }

    /// The number of live rows.
    pub fn live(&self) -> usize
        ensures value { result ≡ live_count self.now }
        ensures graph { IsGraph self.now }
    {
        self.table.len()
    }

    /// In every heap links and holds lead to rows, each row is reached from a hold, and each link leads down: a law, for a proof
    /// that needs it before any other call tells it. The call does nothing.
    pub fn rows_form_a_graph(&self)
        ensures { IsGraph self.now }
    {
        // A field that is read tells the proof what is true of all of them.
        let _ = &self.table;
    }

    /// The number of rows ever made. It stays at 2^64 - 1 once it is there.
    pub fn made(&self) -> u64
        ensures { result ≡ self.now.made }
    {
        self.made
    }

    /// The holds of a live link and its places in rows.
    pub fn owners(&self, link: Link) -> usize
        requires { IsSome (row_at self.now link) }
        ensures { result ≡ owners_at self.now link }
    {
        self.table.owners(link.place)
    }

    /// Whether a live link has one owner.
    pub fn has_one_owner(&self, link: Link) -> bool
        requires { IsSome (row_at self.now link) }
        ensures { IsTrue result ↔ (owners_at self.now link ≡ 1) }
    {
        self.table.has_one_owner(link.place)
    }

    /// Whether a child of a row has one owner, which is its place there: what is asked of each row of a way.
    #[inline]
    pub fn child_has_one_owner(&self, parent: Link, child: Link) -> bool
        requires live { IsSome (row_at self.now child) }
        requires linked { HasLink (links_at self.now) parent child }
        ensures { IsTrue result ↔ (owners_at self.now child ≡ 1) }
    {
        self.table.child_has_one_owner(parent.place, child.place)
    }

    /// Makes room, so that so many cells and so many nodes can be made without memory: the spares of each kind are then what
    /// was there or what was asked, whichever is more. Refused where there is no memory, and where the rows and the spares
    /// together would reach 2^56, but never where the spares suffice already. The rows, the holds and the number made stay
    /// either way, and a refused call leaves the heap as it was.
    pub fn reserve(&mut self, cells: usize, nodes: usize) -> Result<(), NoMemory>
        ensures spares { OnOk result (HasSpares self.new cells nodes) }
        ensures greater { OnOk result (HasGreater self.old self.new cells nodes) }
        ensures refused { OnErr result (self.new ≡ self.old) }
        ensures rest { Unchanged self.old self.new }
        ensures keeps { KeepsHeld (λ _. 0) self.old self.new }
        ensures extends { Extends self.old self.new }
        ensures trees { KeepsTrees self.old self.new }
        ensures owners { KeepsOwners self.old self.new }
        ensures ample { cells ≤ self.old.spare_cells → nodes ≤ self.old.spare_nodes → IsOk result }
    {
        let old_cells = self.table.spare_cells();
        let old_nodes = self.table.spare_nodes();
        // Often there are enough.
        if cells <= old_cells && nodes <= old_nodes {
            return Ok(());
        }
        let spare_cells = old_cells.max(cells);
        let spare_nodes = old_nodes.max(nodes);
        // So many rows take more bytes than any machine has.
        if spare_cells >= ROWS || spare_nodes >= ROWS {
            return Err(NoMemory);
        }
        if self.table.len() + (spare_cells + spare_nodes) >= ROWS {
            return Err(NoMemory);
        }
        self.table.reserve(spare_cells, spare_nodes)?;
        Ok(())
    }

    /// A cell with this value, made of a spare, which the caller holds once. All holds together are below 2^60 before.
    pub fn cell(&mut self, value: T) -> Link
        requires spare { 0 < self.old.spare_cells }
        requires few { hold_count self.old < most_holds }
        ensures adds { Adds self.old self.new result (cell value) }
        ensures owners { AddsOwner self.old self.new result }
        ensures sole { owners_at self.new result ≡ 1 }
        ensures makes { Makes self.old self.new 1 0 }
        ensures count { hold_count self.new ≡ hold_count self.old + 1 }
        ensures graph { IsGraph self.new }
        ensures extends { Extends self.old self.new }
        ensures keeps { KeepsHeld (λ _. 0) self.old self.new }
        ensures trees { KeepsTrees self.old self.new }
    {
        self.made = self.made.saturating_add(1);
        let place = self.table.put_cell(value);
        Link { place }
    }

    /// A node with this head and these links, at most 32, made of a spare, which the caller holds once. It spends a hold
    /// of the caller for each place that a link takes. All holds together are below 2^60 before.
    pub fn node(&mut self, head: Head, links: &[Link]) -> Link
        requires spare { 0 < self.old.spare_nodes }
        requires short { length links.now ≤ 32 }
        requires held { (l : ℕ) → count l links.now ≤ holds_at self.old l }
        requires few { hold_count self.old < most_holds }
        ensures adds { Adds self.old self.new result (node head links.now) }
        ensures owners { AddsOwner self.old self.new result }
        ensures sole { owners_at self.new result ≡ 1 }
        ensures makes { Makes self.old self.new 0 1 }
        ensures count { hold_count self.new + length links.now ≡ hold_count self.old + 1 }
        ensures graph { IsGraph self.new }
        ensures extends { Extends self.old self.new }
        ensures keeps { KeepsHeld (λ l. count l links.now) self.old self.new }
        ensures trees { KeepsTrees self.old self.new }
    {
        self.made = self.made.saturating_add(1);
        let place = self.table.put_node(head, links);
        Link { place }
    }

    /// One hold more of a live link. All holds together are below 2^60 before.
    #[inline]
    pub fn hold(&mut self, link: Link)
        requires live { IsSome (row_at self.old link) }
        requires few { hold_count self.old < most_holds }
        ensures rows { SameRows self.old self.new }
        ensures holds { (k : ℕ) → holds_at self.new k ≡ holds_at self.old k + one_at link k }
        ensures owners { AddsOwner self.old self.new link }
        ensures makes { Makes self.old self.new 0 0 }
        ensures count { hold_count self.new ≡ hold_count self.old + 1 }
        ensures graph { IsGraph self.new }
        ensures extends { Extends self.old self.new }
        ensures keeps { KeepsHeld (λ _. 0) self.old self.new }
        ensures trees { KeepsTrees self.old self.new }
    {
        self.hold_all(&[link]);
    }

    /// One hold more of each of these live links for each place that it takes there. All holds together are at most 2^60 then.
    pub fn hold_all(&mut self, links: &[Link])
        requires live { (l : ℕ) → 0 < count l links.now → IsSome (row_at self.old l) }
        requires few { hold_count self.old + length links.now ≤ most_holds }
        ensures rows { SameRows self.old self.new }
        ensures holds { (k : ℕ) → holds_at self.new k ≡ holds_at self.old k + count k links.now }
        ensures owners { (k : ℕ) → owners_at self.new k ≡ owners_at self.old k + count k links.now }
        ensures makes { Makes self.old self.new 0 0 }
        ensures count { hold_count self.new ≡ hold_count self.old + length links.now }
        ensures graph { IsGraph self.new }
        ensures extends { Extends self.old self.new }
        ensures keeps { KeepsHeld (λ _. 0) self.old self.new }
        ensures trees { KeepsTrees self.old self.new }
    {
        self.table.add_owners(links);
    }

    /// The value of a live link's cell, and none for a node.
    pub fn value(&self, link: Link) -> Option<&T>
        requires { IsSome (row_at self.now link) }
        ensures { option_copied result ≡ value_of (row_at self.now link) }
    {
        self.table.value(link.place)
    }

    /// The head of a live link's node, and none for a cell.
    pub fn head(&self, link: Link) -> Option<&Head>
        requires { IsSome (row_at self.now link) }
        ensures { option_copied result ≡ head_of (row_at self.now link) }
    {
        self.table.head(link.place)
    }

    /// What a live link's node is, without its sums, and none for a cell.
    #[inline(always)]
    pub fn kind(&self, link: Link) -> Option<Kind>
        requires { IsSome (row_at self.now link) }
        ensures { option_map kind_said result ≡ head_of (form_at self.now link) }
    {
        self.table.kind(link.place)
    }

    /// The sums of a live link's row, and none where it keeps none.
    #[inline(always)]
    pub fn sums(&self, link: Link) -> &[u32]
        requires { IsSome (row_at self.now link) }
        ensures { result.now ≡ sums_in (row_at self.now link) }
    {
        self.table.sums(link.place)
    }

    /// The sets and the links of a row of a trie.
    #[inline(always)]
    pub fn trie(&self, link: Link) -> TrieRef<'_>
        requires { (entries nodes : ℕ) × (links : List ℕ) × IsTrieForm (form_at self.now link) entries nodes links }
        ensures { IsTrieForm (form_at self.now link) result.entries result.nodes result.links.now }
    {
        self.table.trie(link.place)
    }

    /// The links of a live link's row, at most 32. A cell has none.
    #[inline]
    pub fn links(&self, link: Link) -> &[Link]
        requires { IsSome (row_at self.now link) }
        ensures links { result.now ≡ links_of (row_at self.now link) }
        ensures graph { IsGraph self.now }
    {
        self.table.links(link.place)
    }

    /// A node of the caller's own to write in: a held one with the head and the links of this one and no other owner, for
    /// which the given hold is spent. It is the node itself where that hold was its one owner, and else a copy, made of a
    /// spare.
    pub fn own(&mut self, link: Link) -> Link
        requires held { 0 < holds_at self.old link }
        requires node { is_node (row_at self.old link) ≡ 1 }
        requires spare { 0 < self.old.spare_nodes }
        ensures same { (result ≡ link) ↔ (owners_at self.old link ≡ 1) }
        ensures row { row_at self.new result ≡ row_at self.old link }
        ensures sole { owners_at self.new result ≡ 1 }
        ensures fresh { result ≢ link → row_at self.old result ≡ None }
        ensures owners { (k : ℕ) → owners_at self.new k + one_at link k ≡ owners_at self.old k + (one_at result k + other_at link result * count k (links_at self.old link)) }
        ensures builds { Builds self.old self.new (link ∷ []) (result ∷ []) 0 1 }
        ensures makes { Makes self.old self.new 0 (other_at link result) }
    {
        if self.table.held_has_one_owner(link.place) {
            return link;
        }
        let place = copied(&mut self.table, link.place);
        self.made = self.made.saturating_add(1);
        self.table.drop_owner(link.place);
        Link { place }
    }

    /// The same for the child at an index of a node with one owner: the child, or the copy, stands there then.
    pub fn own_child(&mut self, parent: Link, index: usize) -> Link
        requires sole { owners_at self.old parent ≡ 1 }
        requires index { index < length (links_at self.old parent) }
        requires node { is_node (row_at self.old (child_at self.old parent index)) ≡ 1 }
        requires spare { 0 < self.old.spare_nodes }
        ensures same { (result ≡ child_at self.old parent index) ↔ (owners_at self.old (child_at self.old parent index) ≡ 1) }
        ensures row { row_at self.new result ≡ row_at self.old (child_at self.old parent index) }
        ensures sole { owners_at self.new result ≡ 1 }
        ensures fresh { result ≢ child_at self.old parent index → row_at self.old result ≡ None }
        ensures parent_head { head_of (row_at self.new parent) ≡ head_of (row_at self.old parent) }
        ensures parent_links { links_at self.new parent ≡ slice_set (links_at self.old parent) index result }
        ensures stays { (k : ℕ) → k ≢ parent → IsSome (row_at self.old k) → row_at self.new k ≡ row_at self.old k }
        ensures others { (k : ℕ) → k ≢ parent → k ≢ result → row_at self.new k ≡ row_at self.old k }
        ensures owners { (k : ℕ) → owners_at self.new k + one_at (child_at self.old parent index) k
            ≡ owners_at self.old k + (one_at result k + other_at (child_at self.old parent index) result * count k (links_at self.old (child_at self.old parent index))) }
        ensures changes { Changes parent self.old self.new [] [] 0 1 }
        ensures makes { Makes self.old self.new 0 (other_at (child_at self.old parent index) result) }
    {
        let child = self.table.links(parent.place)[index];
        if self.table.child_has_one_owner(parent.place, child.place) {
            return child;
        }
        let place = copied(&mut self.table, child.place);
        self.made = self.made.saturating_add(1);
        let copy = Link { place };
        // The answer is the child, which has a place less then.
        let _ = self.table.replace_link(parent.place, index, copy);
        self.table.drop_owner(child.place);
        copy
    }

    /// Puts the new link in place of the one at an index of a node with one owner. It spends the new link's hold, and the
    /// caller has a hold of the old one. The new link doesn't reach the node.
    pub fn replace(&mut self, parent: Link, index: usize, new: Link) -> Link
        requires sole { owners_at self.old parent ≡ 1 }
        requires index { index < length (links_at self.old parent) }
        requires held { 0 < holds_at self.old new }
        requires apart { ¬ Reaches (links_at self.old) new parent }
        ensures old { result ≡ child_at self.old parent index }
        ensures writes { Writes self.old self.new parent (head_of (row_at self.old parent)) (slice_set (links_at self.old parent) index new) }
        ensures owners { KeepsOwners self.old self.new }
        ensures changes { Changes parent self.old self.new (new ∷ []) (result ∷ []) 0 0 }
        ensures makes { Makes self.old self.new 0 0 }
    {
        self.table.replace_link(parent.place, index, new)
    }

    /// Puts the new link at an index of a node with one owner and fewer than 32 links, before those that stand there and
    /// after. It spends the new link's hold. The new link doesn't reach the node.
    pub fn insert_link(&mut self, parent: Link, index: usize, new: Link)
        requires sole { owners_at self.old parent ≡ 1 }
        requires node { is_node (row_at self.old parent) ≡ 1 }
        requires index { index ≤ length (links_at self.old parent) }
        requires room { length (links_at self.old parent) < 32 }
        requires held { 0 < holds_at self.old new }
        requires apart { ¬ Reaches (links_at self.old) new parent }
        ensures writes { Writes self.old self.new parent (head_of (row_at self.old parent)) (insert (links_at self.old parent) index new) }
        ensures owners { KeepsOwners self.old self.new }
        ensures changes { Changes parent self.old self.new (new ∷ []) [] 0 0 }
        ensures makes { Makes self.old self.new 0 0 }
    {
        self.table.insert_link(parent.place, index, new);
    }

    /// Takes the link at an index out of a node with one owner. The caller has a hold of it then. All holds together are
    /// below 2^60 before.
    pub fn remove_link(&mut self, parent: Link, index: usize) -> Link
        requires sole { owners_at self.old parent ≡ 1 }
        requires index { index < length (links_at self.old parent) }
        requires few { hold_count self.old < most_holds }
        ensures old { result ≡ child_at self.old parent index }
        ensures writes { Writes self.old self.new parent (head_of (row_at self.old parent)) (remove (links_at self.old parent) index) }
        ensures owners { KeepsOwners self.old self.new }
        ensures changes { Changes parent self.old self.new [] (result ∷ []) 0 0 }
        ensures makes { Makes self.old self.new 0 0 }
    {
        self.table.remove_link(parent.place, index)
    }

    /// Puts the head in place of that of a node with one owner.
    pub fn set_head(&mut self, parent: Link, head: Head)
        requires sole { owners_at self.old parent ≡ 1 }
        requires node { is_node (row_at self.old parent) ≡ 1 }
        ensures writes { Writes self.old self.new parent (Some head) (links_at self.old parent) }
        ensures owners { KeepsOwners self.old self.new }
        ensures changes { Changes parent self.old self.new [] [] 0 0 }
        ensures makes { Makes self.old self.new 0 0 }
    {
        self.table.set_head(parent.place, head);
    }

    /// A node like this one but for its head and the link at an index, made of a spare, which the caller holds once. It spends the new
    /// link's hold. The other links have an owner more, as if they were held for it.
    #[inline(always)]
    pub fn with_replaced(&mut self, row: Link, head: Head, index: usize, new: Link) -> Link
        requires index { index < length (links_at self.old row) }
        requires held { 0 < holds_at self.old new }
        requires spare { 0 < self.old.spare_nodes }
        ensures adds { AddsLike self.old self.new result (node head (slice_set (links_at self.old row) index new)) (remove (links_at self.old row) index) (new ∷ []) }
    {
        self.changed(row, head, Some(index), Some((index, new)))
    }

    /// The same with the new link at an index, before those that stand there and after. The node has fewer than 32 links.
    #[inline(never)]
    pub fn with_inserted(&mut self, row: Link, head: Head, index: usize, new: Link) -> Link
        requires node { is_node (row_at self.old row) ≡ 1 }
        requires index { index ≤ length (links_at self.old row) }
        requires room { length (links_at self.old row) < 32 }
        requires held { 0 < holds_at self.old new }
        requires spare { 0 < self.old.spare_nodes }
        ensures adds { AddsLike self.old self.new result (node head (insert (links_at self.old row) index new)) (links_at self.old row) (new ∷ []) }
    {
        self.changed(row, head, None, Some((index, new)))
    }

    /// The same without the link at an index. All holds together are below 2^60 before.
    #[inline]
    pub fn with_removed(&mut self, row: Link, head: Head, index: usize) -> Link
        requires index { index < length (links_at self.old row) }
        requires spare { 0 < self.old.spare_nodes }
        requires few { hold_count self.old < most_holds }
        ensures adds { AddsLike self.old self.new result (node head (remove (links_at self.old row) index)) (remove (links_at self.old row) index) [] }
    {
        self.changed(row, head, Some(index), None)
    }

    /// The same without the link at one index, and with the new link at an index of those that are left.
    #[inline]
    pub fn with_turned(
        &mut self,
        row: Link,
        head: Head,
        out: usize,
        index: usize,
        new: Link,
    ) -> Link
        requires out { out < length (links_at self.old row) }
        requires index { index < length (links_at self.old row) }
        requires held { 0 < holds_at self.old new }
        requires spare { 0 < self.old.spare_nodes }
        ensures adds { AddsLike self.old self.new result (node head (insert (remove (links_at self.old row) out) index new)) (remove (links_at self.old row) out) (new ∷ []) }
    {
        self.changed(row, head, Some(out), Some((index, new)))
    }

    // A node that is made of this one by one change: one link out, if any, and one in, if any.
    #[inline(always)]
    fn changed(
        &mut self,
        row: Link,
        head: Head,
        out: Option<usize>,
        into: Option<(usize, Link)>,
    ) -> Link
        requires node { is_node (row_at self.old row) ≡ 1 }
        requires out { IfSome out (λ i. i < length (links_at self.old row)) }
        requires into { IfSome into (λ i. i.0 ≤ length (without out (links_at self.old row))) }
        requires room { out ≡ None → IfSome into (λ _. length (links_at self.old row) < 32) }
        requires held { IfSome into (λ i. 0 < holds_at self.old i.1) }
        requires spare { 0 < self.old.spare_nodes }
        requires few { into ≡ None → hold_count self.old < most_holds }
        ensures adds { AddsLike self.old self.new result (node head (changed_links out into (links_at self.old row))) (without out (links_at self.old row)) (came into) }
    {
        let place = self.table.put_changed(row.place, head, out, &into);
        self.made = self.made.saturating_add(1);
        Link { place }
    }
}

impl<T: Drop> Heap<T> {
    /// Gives up a hold of the caller's own. Each row that has no owner then is freed and is a spare of its kind.
    pub fn release(&mut self, link: Link)
        requires { 0 < holds_at self.old link }
        ensures releases { Releases self.old self.new link }
        ensures owners { (l : ℕ) → IsSome (row_at self.old l) → (IsSome (row_at self.new l) ↔ (0 < owners_at self.new l)) }
        ensures below { (l : ℕ) → IsSome (row_at self.new l) → KeepsBelow self.old self.new l }
        ensures graph { IsGraph self.new }
        ensures keeps { KeepsHeld (one_at link) self.old self.new }
        ensures trees { KeepsTrees self.old self.new }
    {
        let first = self.table.drop_places(&[link], END);
        free_waiting(&mut self.table, first);
    }
}

// What the last row that waits names.
const END: usize = usize::MAX;

// Frees the rows that wait from `first` on, and those that have no owner then.
fn free_waiting<T: Drop>(table: &mut Shared<T>, first: usize)
    requires dying { (H : ℕ → ℕ) × IsDying H table.old.slots first [] }
    requires low { IsLow table.old.slots }
    ensures freed { (H : ℕ → ℕ) → IsDying H table.old.slots first [] → IsDying H table.new.slots (2 ^ 64 - 1) [] }
    ensures rows { Thins table.old.slots table.new.slots }
    ensures cells { table.new.spare_cells + cells_in table.new.slots ≡ table.old.spare_cells + cells_in table.old.slots }
    ensures nodes { table.new.spare_nodes + nodes_in table.new.slots ≡ table.old.spare_nodes + nodes_in table.old.slots }
    ensures more_cells { table.old.spare_cells ≤ table.new.spare_cells }
    ensures more_nodes { table.old.spare_nodes ≤ table.new.spare_nodes }
    ensures len { filled_count table.new.slots + (table.new.spare_cells + table.new.spare_nodes) ≡ filled_count table.old.slots + (table.old.spare_cells + table.old.spare_nodes) }
    ensures low { IsLow table.new.slots }
{
    // Most calls free no row, and need no list.
    if first == END {
        return;
    }
    let mut links = RowLinks::new();
    let mut next = first;
    while next != END {
        let owners = table.take(next, &mut links);
        next = table.drop_places(links.as_slice(), owners);
    }
}

// A copy of the node at the place, with one owner, and one owner more for each place of its links.
#[inline(never)]
fn copied<T>(table: &mut Shared<T>, place: usize) -> usize
    requires counted { IsCounted table.old.slots }
    requires node { is_node (graph_of table.old.slots place) ≡ 1 }
    requires room { (l : ℕ) → owners_in (slot_at table.old.slots l) + 32 < 2 ^ 64 }
    requires spare { 0 < table.old.spare_nodes }
    ensures copies { Copies table.old.slots table.new.slots place result }
    ensures counted { IsCounted table.new.slots }
    ensures cells { cells_in table.new.slots ≡ cells_in table.old.slots }
    ensures nodes { nodes_in table.new.slots ≡ nodes_in table.old.slots + 1 }
    ensures len { filled_count table.new.slots ≡ filled_count table.old.slots + 1 }
    ensures spare_cells { table.new.spare_cells ≡ table.old.spare_cells }
    ensures spare_nodes { table.new.spare_nodes + 1 ≡ table.old.spare_nodes }
{
    let mut copies = RowLinks::new();
    let head = table.copy_node(place, &mut copies);
    let links = copies.as_slice();
    table.add_owners(links);
    table.put_node(head, links)
}
