//! Where the rows of a heap lie: cells in a list of slots, and nodes apart. Place 2i is slot i of the cells, and place
//! 2i + 1 index i of the nodes.
ghost use Rattle.std.specs.Prelude.{vec_len, vec_capacity, ◌≡◌, ◌≢◌, ℕ, ◌+◌, ◌-◌, ◌<◌, ◌≤◌, [], length, Some, None, IsSome, OnOk, OnErr, IsOk, option_copied, option_map, slice_index, slice_index_or, slice_set, insert, remove};
ghost use Rattle.node_heap.specs.Heap.{row_limit};
ghost use Rattle.std.specs.Borrow.{sem};
ghost use Rattle.node_heap.specs.Forms.{cell, node, links_of, value_of, head_of, kind_of, is_node};
ghost use Rattle.node_heap.specs.Reads.{kind_said, sums_in};
ghost use Rattle.node_heap.specs.declared.row.Head.TheVariants.{Trie};
ghost use Rattle.node_heap.specs.Layout.{graph_of, slot_at, owners_in, filled_count, Rewrites, PutsIn, TakesOut, KeepsRoom};

use crate::entry::RowLinks;
use crate::lists::{empty_cell, put_cell, reserve_cells};
use crate::nodes::Nodes;
use crate::row::{Head, Kind, Link, TrieRef};
use crate::slot_kinds::CellSlot;
use std::alloc::{AllocError, Global};
use std::marker::Model;

/// A slot for each row, and room for spares of each kind.
#[derive(Drop)]
pub(crate) struct Table<T> {
    cells: Vec<CellSlot<T>>,
    // The slots of the cells that no row is in, each once.
    free_cells: Vec<usize>,
    spare_cells: usize,
    // There is room for so many cells.
    cell_room: usize,
    nodes: Nodes,
}

impl<T> Model for Table<T> {
    ghost use Rattle.node_heap.specs.Layout.{Table as Seen};

    ghost Value = { Seen T };

    ghost use Rattle.std.specs.Vec.{vec_capacity};
    ghost use Rattle.node_heap.specs.Inside.{table_of, IsTable};

    ghost view = { λ t. table_of t.cells.items t.nodes t.spare_cells };

    ghost invariant = { λ t. IsTable t.cells.items t.free_cells.items (vec_capacity t.cells) (vec_capacity t.free_cells) t.spare_cells t.cell_room t.nodes };
}

impl<T> Table<T> {
    ghost use Rattle.node_heap.specs.Lending.{LendsOwners};

    // A table with no rows and no spares.
    pub(crate) fn new(alloc: Global) -> Table<T>
        ensures slots { result.slots ≡ [] }
        ensures spare_cells { result.spare_cells ≡ 0 }
        ensures spare_nodes { result.spare_nodes ≡ 0 }
    {
        Table {
            cells: Vec::new(alloc),
            free_cells: Vec::new(alloc),
            spare_cells: 0,
            cell_room: 0,
            nodes: Nodes::new(alloc),
        }
    }

    // The number of rows.
    pub(crate) fn len(&self) -> usize
        ensures { result ≡ filled_count self.now.slots }
    {
        (self.cells.len() - self.free_cells.len()) + self.nodes.len()
    }

    pub(crate) fn spare_cells(&self) -> usize
        ensures { result ≡ self.now.spare_cells }
    {
        self.spare_cells
    }

    pub(crate) fn spare_nodes(&self) -> usize
        ensures { result ≡ self.now.spare_nodes }
    {
        self.nodes.spares()
    }

    // Makes just so many spares of each kind, no fewer than there are. Refused, it leaves the table as it was.
    pub(crate) fn reserve(&mut self, cells: usize, nodes: usize) -> Result<(), AllocError>
        requires more_cells { self.old.spare_cells ≤ cells }
        requires more_nodes { self.old.spare_nodes ≤ nodes }
        requires few { filled_count self.old.slots + (cells + nodes) < row_limit }
        ensures slots { self.new.slots ≡ self.old.slots }
        ensures cells { OnOk result (self.new.spare_cells ≡ cells) }
        ensures nodes { OnOk result (self.new.spare_nodes ≡ nodes) }
        ensures refused { OnErr result (self.new ≡ self.old) }
        ensures ample { self.old.spare_cells ≡ cells → self.old.spare_nodes ≡ nodes → IsOk result }
    {
        let total = self.cells.len() - self.free_cells.len() + cells;
        reserve_cells(
            &mut self.cells,
            &mut self.free_cells,
            &mut self.cell_room,
            total,
        )?;
        self.nodes.reserve(nodes)?;
        self.spare_cells = cells;
        Ok(())
    }

    // Makes a cell of a spare, with one owner. Answers its place.
    pub(crate) fn put_cell(&mut self, value: T) -> usize
        requires { 0 < self.old.spare_cells }
        ensures puts { PutsIn self.old.slots self.new.slots result (cell value) }
        ensures spare_cells { self.new.spare_cells + 1 ≡ self.old.spare_cells }
        ensures spare_nodes { self.new.spare_nodes ≡ self.old.spare_nodes }
    {
        self.spare_cells -= 1;
        2 * put_cell(&mut self.cells, &mut self.free_cells, value)
    }

    // Makes a node of a spare, with one owner and these links, at most 32. Answers its place.
    #[inline(always)]
    pub(crate) fn put_node(&mut self, head: Head, links: &[Link]) -> usize
        requires spare { 0 < self.old.spare_nodes }
        requires short { length links.now ≤ 32 }
        ensures puts { PutsIn self.old.slots self.new.slots result (node head links.now) }
        ensures spare_cells { self.new.spare_cells ≡ self.old.spare_cells }
        ensures spare_nodes { self.new.spare_nodes + 1 ≡ self.old.spare_nodes }
    {
        2 * self.nodes.put(head, links) + 1
    }

    // Makes a node of a spare, with one owner and the links of the one at the place, but for the link at the index. Answers its place.
    #[inline(always)]
    pub(crate) fn put_beside(&mut self, place: usize, head: Head, index: usize, link: Link) -> usize
        requires spare { 0 < self.old.spare_nodes }
        requires index { index < length (links_of (graph_of self.old.slots place)) }
        ensures puts { PutsIn self.old.slots self.new.slots result (node head (slice_set (links_of (graph_of self.old.slots place)) index link)) }
        ensures spare_cells { self.new.spare_cells ≡ self.old.spare_cells }
        ensures spare_nodes { self.new.spare_nodes + 1 ≡ self.old.spare_nodes }
    {
        // Rows of vectors lie in large slots.
        if place % 8 == 5 {
            return 2 * self.nodes.put_beside(head, place / 2, index, link) + 1;
        }
        self.put_copied(place, head, index, link)
    }

    // The same by a list of the links.
    #[inline(never)]
    fn put_copied(&mut self, place: usize, head: Head, index: usize, link: Link) -> usize
        requires spare { 0 < self.old.spare_nodes }
        requires index { index < length (links_of (graph_of self.old.slots place)) }
        ensures puts { PutsIn self.old.slots self.new.slots result (node head (slice_set (links_of (graph_of self.old.slots place)) index link)) }
        ensures spare_cells { self.new.spare_cells ≡ self.old.spare_cells }
        ensures spare_nodes { self.new.spare_nodes + 1 ≡ self.old.spare_nodes }
    {
        let mut links = self.row_links(place);
        links.replace(index, link);
        self.put_node(head, links.as_slice())
    }

    // The owners of the row at the place.
    #[inline(always)]
    pub(crate) fn owners(&self, place: usize) -> usize
        requires { IsSome (slot_at self.now.slots place) }
        ensures { result ≡ owners_in (slot_at self.now.slots place) }
    {
        if place % 2 == 0 {
            self.cells[place / 2].owners()
        } else {
            self.nodes.owners(place / 2)
        }
    }

    // The owners of the row at the place, for writing.
    #[inline(always)]
    pub(crate) fn owners_mut(&mut self, place: usize) -> &mut usize
        requires { IsSome (slot_at self.old.slots place) }
        ensures* writes_back { sem 𝓛 (LendsOwners T.row self.entry place result) }
        ensures value { result.now ≡ owners_in (slot_at self.old.slots place) }
    {
        if place % 2 == 0 {
            self.cells[place / 2].owners_mut()
        } else {
            self.nodes.owners_mut(place / 2)
        }
    }

    // The value of the cell at the place, and none for a node.
    pub(crate) fn value(&self, place: usize) -> Option<&T>
        requires { IsSome (slot_at self.now.slots place) }
        ensures { option_copied result ≡ value_of (graph_of self.now.slots place) }
    {
        let cells = &self.cells;
        if place % 2 != 0 {
            return None;
        }
        Some(cells[place / 2].value())
    }

    // The head of the node at the place, and none for a cell.
    pub(crate) fn head(&self, place: usize) -> Option<&Head>
        requires { IsSome (slot_at self.now.slots place) }
        ensures { option_copied result ≡ head_of (graph_of self.now.slots place) }
    {
        let nodes = &self.nodes;
        if place % 2 == 0 {
            return None;
        }
        Some(nodes.head(place / 2))
    }

    // What the node at the place is, and none for a cell.
    #[inline(always)]
    pub(crate) fn kind(&self, place: usize) -> Option<Kind>
        requires { IsSome (slot_at self.now.slots place) }
        ensures { option_map kind_said result ≡ option_map kind_of (head_of (graph_of self.now.slots place)) }
    {
        let nodes = &self.nodes;
        if place % 2 == 0 {
            return None;
        }
        Some(nodes.kind(place / 2))
    }

    // The sums of the node at the place, if any.
    #[inline(always)]
    pub(crate) fn sums(&self, place: usize) -> &[u32]
        requires { IsSome (slot_at self.now.slots place) }
        ensures { result.now ≡ sums_in (graph_of self.now.slots place) }
    {
        let nodes = &self.nodes;
        if place % 2 == 0 {
            return &[];
        }
        nodes.sums(place / 2)
    }

    // The sets and the links of a row of a trie.
    #[inline(always)]
    pub(crate) fn trie(&self, place: usize) -> TrieRef<'_>
        requires { (depth entries nodes : ℕ) × (head_of (graph_of self.now.slots place) ≡ Some (Trie depth entries nodes)) }
        ensures sets { (depth : ℕ) × (head_of (graph_of self.now.slots place) ≡ Some (Trie depth result.entries result.nodes)) }
        ensures links { result.links.now ≡ links_of (graph_of self.now.slots place) }
    {
        self.nodes.trie(place / 2)
    }

    // The links of the row at the place. A cell has none.
    #[inline(always)]
    pub(crate) fn links(&self, place: usize) -> &[Link]
        requires { IsSome (slot_at self.now.slots place) }
        ensures { result.now ≡ links_of (graph_of self.now.slots place) }
    {
        let nodes = &self.nodes;
        if place % 2 == 0 {
            return &[];
        }
        nodes.links(place / 2)
    }

    // The links of the row at the place, as a list of their own.
    #[inline(always)]
    pub(crate) fn row_links(&self, place: usize) -> RowLinks
        requires { IsSome (slot_at self.now.slots place) }
        ensures { result ≡ links_of (graph_of self.now.slots place) }
    {
        let nodes = &self.nodes;
        if place % 2 == 0 {
            return RowLinks::new();
        }
        nodes.row_links(place / 2)
    }

    // Puts the links of the row at the place in the list.
    #[inline(always)]
    pub(crate) fn copy_links(&self, place: usize, links: &mut RowLinks)
        requires { IsSome (slot_at self.now.slots place) }
        ensures { links.new ≡ links_of (graph_of self.now.slots place) }
    {
        let nodes = &self.nodes;
        if place % 2 == 0 {
            links.clear();
            return;
        }
        links.rewrite(nodes.links(place / 2));
    }

    // The head of the node at the place, whose links it puts in the list.
    pub(crate) fn copy_node(&self, place: usize, links: &mut RowLinks) -> Head
        requires { is_node (graph_of self.now.slots place) ≡ 1 }
        ensures { graph_of self.now.slots place ≡ Some (node result links.new) }
    {
        self.nodes.copy(place / 2, links)
    }

    // Puts the link in place of the one at the index, which it answers.
    pub(crate) fn replace_link(&mut self, place: usize, index: usize, link: Link) -> Link
        requires { index < length (links_of (graph_of self.old.slots place)) }
        ensures old { result ≡ slice_index (links_of (graph_of self.old.slots place)) index }
        ensures rewrites { Rewrites self.old.slots self.new.slots place (head_of (graph_of self.old.slots place)) (slice_set (links_of (graph_of self.old.slots place)) index link) }
        ensures room { KeepsRoom self.old self.new }
    {
        self.nodes.replace_link(place / 2, index, link)
    }

    // Puts the link at the index, before those that stand there and after.
    pub(crate) fn insert_link(&mut self, place: usize, index: usize, link: Link)
        requires node { is_node (graph_of self.old.slots place) ≡ 1 }
        requires index { index ≤ length (links_of (graph_of self.old.slots place)) }
        requires room { length (links_of (graph_of self.old.slots place)) < 32 }
        ensures rewrites { Rewrites self.old.slots self.new.slots place (head_of (graph_of self.old.slots place)) (insert (links_of (graph_of self.old.slots place)) index link) }
        ensures room { KeepsRoom self.old self.new }
    {
        self.nodes.insert_link(place / 2, index, link);
    }

    // Takes the link at the index out.
    pub(crate) fn remove_link(&mut self, place: usize, index: usize) -> Link
        requires { index < length (links_of (graph_of self.old.slots place)) }
        ensures old { result ≡ slice_index (links_of (graph_of self.old.slots place)) index }
        ensures rewrites { Rewrites self.old.slots self.new.slots place (head_of (graph_of self.old.slots place)) (remove (links_of (graph_of self.old.slots place)) index) }
        ensures room { KeepsRoom self.old self.new }
    {
        self.nodes.remove_link(place / 2, index)
    }

    // Puts the head in place of the node's.
    pub(crate) fn set_head(&mut self, place: usize, head: Head)
        requires { is_node (graph_of self.old.slots place) ≡ 1 }
        ensures rewrites { Rewrites self.old.slots self.new.slots place (Some head) (links_of (graph_of self.old.slots place)) }
        ensures room { KeepsRoom self.old self.new }
    {
        self.nodes.set_head(place / 2, head);
    }
}

impl<T: Drop> Table<T> {
    // Takes the row at the place out, which is a spare of its kind then. Answers its owners.
    #[inline(always)]
    pub(crate) fn take(&mut self, place: usize) -> usize
        requires { IsSome (slot_at self.old.slots place) }
        ensures owners { result ≡ owners_in (slot_at self.old.slots place) }
        ensures takes { TakesOut self.old self.new place }
    {
        if place % 2 == 0 {
            let owners = self.cells[place / 2].owners();
            empty_cell(&mut self.cells, &mut self.free_cells, place / 2);
            self.spare_cells += 1;
            return owners;
        }
        let owners = self.nodes.owners(place / 2);
        self.nodes.free(place / 2);
        owners
    }
}
