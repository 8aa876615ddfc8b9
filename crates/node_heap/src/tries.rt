//! The nodes that are made as rows of tries: sets and links lie together, and whole heads in lists beside them, since a head is lent.
ghost use Rattle.std.specs.Prelude.{vec_len, vec_capacity, ◌≡◌, ◌≢◌, ℕ, ◌+◌, ◌*◌, ◌<◌, ◌≤◌, [], length, Some, None, IsSome, OnOk, option_map, count_by, is_some, slice_index, slice_index_or, slice_set, insert, remove};
ghost use Rattle.node_heap.specs.Heap.{row_limit};
ghost use Rattle.std.specs.Borrow.{sem};
ghost use Rattle.node_heap.specs.Nodes.{SameBut, node_at, node_owners, node_head, node_links, Becomes};
ghost use Rattle.node_heap.specs.Tries.{sets_in};
ghost use Rattle.node_heap.specs.Forms.{kind_of, sums_of};
ghost use Rattle.node_heap.specs.Reads.{kind_said};
ghost use Rattle.node_heap.specs.declared.row.Head.TheVariants.{Leaf};
ghost use Rattle.node_heap.specs.declared.sets.Sets.{Sets as SetsOf};

use crate::entry::RowLinks;
use crate::rooms::Rooms;
use crate::row::{Head, Kind, Link};
use crate::sets::{Sets, TWIG_LINKS, sets_of, twig_sets};
use std::alloc::{AllocError, Global};
use std::marker::Model;

/// A slot for each node, and room for so many in all.
#[derive(Drop)]
pub(crate) struct Tries {
    rooms: Rooms<Sets, Sets, TWIG_LINKS>,
    // The head of the node in each small slot.
    twig_heads: Vec<Head>,
    // That of the node in each large one.
    fork_heads: Vec<Head>,
}

impl Model for Tries {
    ghost use Rattle.node_heap.specs.Nodes.{RoomsOf};
    ghost use Rattle.node_heap.specs.declared.row.Head.{Head as Said};

    ghost Value = { RoomsOf Said };

    ghost use Rattle.std.specs.Vec.{vec_capacity};
    ghost use Rattle.node_heap.specs.Tries.{told, AreTries};

    ghost view = { λ t. told t.rooms t.twig_heads.items t.fork_heads.items };

    ghost invariant = { λ t. AreTries t.rooms t.twig_heads.items (vec_capacity t.twig_heads) t.fork_heads.items (vec_capacity t.fork_heads) };
}

impl Tries {
    ghost use Rattle.node_heap.specs.LendsNode.{LendsTrieOwners};

    // No nodes, and no room.
    pub(crate) fn new(alloc: Global) -> Tries
        ensures slots { result.slots ≡ [] }
        ensures room { result.room ≡ 0 }
    {
        Tries {
            rooms: Rooms::new(alloc),
            twig_heads: Vec::new(alloc),
            fork_heads: Vec::new(alloc),
        }
    }

    // Makes room for so many nodes in all, where there is less.
    pub(crate) fn reserve(&mut self, total: usize) -> Result<(), AllocError>
        requires few { total < row_limit }
        requires old { self.old.room < row_limit }
        ensures slots { self.new.slots ≡ self.old.slots }
        ensures keeps { self.old.room ≤ self.new.room }
        ensures few { self.new.room < row_limit }
        ensures room { OnOk result (total ≤ self.new.room) }
    {
        if total <= self.rooms.room() {
            return Ok(());
        }
        let twigs = self.twig_heads.len();
        let forks = self.fork_heads.len();
        self.twig_heads.reserve(total - twigs)?;
        self.fork_heads.reserve(total - forks)?;
        self.rooms.reserve(total)?;
        Ok(())
    }

    // Makes a node with one owner and these links, at most 32. Answers its index.
    pub(crate) fn put(&mut self, head: Head, links: &[Link]) -> usize
        requires room { count_by is_some self.old.slots < self.old.room }
        requires short { length links.now ≤ 32 }
        ensures was { node_at self.old.slots result ≡ None }
        ensures now { node_at self.new.slots result ≡ Some (record { owners = 1; head = head; links = links.now }) }
        ensures others { SameBut self.old.slots self.new.slots result }
        ensures len { count_by is_some self.new.slots ≡ count_by is_some self.old.slots + 1 }
        ensures room { self.new.room ≡ self.old.room }
        ensures low { result < 2 * self.old.room }
    {
        let sets = sets_of(&head);
        let index = self.rooms.put(sets, twig_sets(&sets, links), links);
        if index % 2 != 0 {
            write_head(&mut self.fork_heads, index / 2, head);
            return index;
        }
        write_head(&mut self.twig_heads, index / 2, head);
        index
    }

    // The owners of the node at the index.
    #[inline]
    pub(crate) fn owners(&self, index: usize) -> usize
        requires { IsSome (node_at self.now.slots index) }
        ensures { result ≡ node_owners (node_at self.now.slots index) }
    {
        self.rooms.owners(index)
    }

    // The owners of the node at the index, for writing.
    #[inline]
    pub(crate) fn owners_mut(&mut self, index: usize) -> &mut usize
        requires { IsSome (node_at self.old.slots index) }
        ensures* writes_back { sem 𝓛 (LendsTrieOwners self.entry index result) }
        ensures value { result.now ≡ node_owners (node_at self.old.slots index) }
    {
        self.rooms.owners_mut(index)
    }

    // The head of the node at the index.
    #[inline]
    pub(crate) fn head(&self, index: usize) -> &Head
        requires { IsSome (node_at self.now.slots index) }
        ensures { node_head (node_at self.now.slots index) ≡ Some result.now }
    {
        if index % 2 != 0 {
            return &self.fork_heads[index / 2];
        }
        &self.twig_heads[index / 2]
    }

    // What lies of the head of the node at the index with its links.
    #[inline(always)]
    pub(crate) fn sets_of(&self, index: usize) -> Sets
        requires { IsSome (node_at self.now.slots index) }
        ensures { sets_in (node_at self.now.slots index) ≡ Some result }
    {
        self.rooms.head(index)
    }

    // What the node at the index is.
    #[inline(always)]
    pub(crate) fn kind(&self, index: usize) -> Kind
        requires { IsSome (node_at self.now.slots index) }
        ensures { option_map kind_of (node_head (node_at self.now.slots index)) ≡ Some (kind_said result) }
    {
        match self.rooms.head(index) {
            Sets::Trie {
                depth,
                entries,
                nodes,
            } => Kind::Trie {
                depth,
                entries,
                nodes,
            },
            Sets::Odd => self.head(index).kind(),
        }
    }

    // The sums of the node at the index, if any.
    #[inline(always)]
    pub(crate) fn sums(&self, index: usize) -> &[u32]
        requires { IsSome (node_at self.now.slots index) }
        ensures { option_map sums_of (node_head (node_at self.now.slots index)) ≡ Some result.now }
    {
        match self.rooms.head(index) {
            Sets::Trie { .. } => &[],
            Sets::Odd => self.head(index).sums(),
        }
    }

    // The links of the node at the index.
    #[inline(always)]
    pub(crate) fn links(&self, index: usize) -> &[Link]
        requires { IsSome (node_at self.now.slots index) }
        ensures value { result.now ≡ node_links (node_at self.now.slots index) }
        ensures short { length result.now ≤ 32 }
    {
        self.rooms.links(index)
    }

    // The links of the node at the index, as a list of their own.
    #[inline(always)]
    pub(crate) fn row_links(&self, index: usize) -> RowLinks
        requires { IsSome (node_at self.now.slots index) }
        ensures { result ≡ node_links (node_at self.now.slots index) }
    {
        self.rooms.row_links(index)
    }

    // Puts the link in place of the one at the position, which it answers.
    pub(crate) fn replace_link(&mut self, index: usize, position: usize, link: Link) -> Link
        requires { position < length (node_links (node_at self.old.slots index)) }
        ensures old { result ≡ slice_index (node_links (node_at self.old.slots index)) position }
        ensures becomes { Becomes self.old.slots self.new.slots index (λ n. record { owners = n.owners; head = n.head; links = slice_set n.links position link }) }
        ensures room { self.new.room ≡ self.old.room }
    {
        self.rooms.replace_link(index, position, link)
    }

    // Puts the link at the position, before those that stand there and after.
    pub(crate) fn insert_link(&mut self, index: usize, position: usize, link: Link)
        requires live { IsSome (node_at self.old.slots index) }
        requires position { position ≤ length (node_links (node_at self.old.slots index)) }
        requires room { length (node_links (node_at self.old.slots index)) < 32 }
        ensures becomes { Becomes self.old.slots self.new.slots index (λ n. record { owners = n.owners; head = n.head; links = insert n.links position link }) }
        ensures room { self.new.room ≡ self.old.room }
    {
        self.rooms.insert_link(index, position, link);
    }

    // Takes the link at the position out.
    pub(crate) fn remove_link(&mut self, index: usize, position: usize) -> Link
        requires { position < length (node_links (node_at self.old.slots index)) }
        ensures old { result ≡ slice_index (node_links (node_at self.old.slots index)) position }
        ensures becomes { Becomes self.old.slots self.new.slots index (λ n. record { owners = n.owners; head = n.head; links = remove n.links position }) }
        ensures room { self.new.room ≡ self.old.room }
    {
        self.rooms.remove_link(index, position)
    }

    // Puts the head in place of the node's.
    pub(crate) fn set_head(&mut self, index: usize, head: Head)
        requires { IsSome (node_at self.old.slots index) }
        ensures becomes { Becomes self.old.slots self.new.slots index (λ n. record { owners = n.owners; head = head; links = n.links }) }
        ensures room { self.new.room ≡ self.old.room }
    {
        let sets = sets_of(&head);
        self.rooms.set_head(index, sets, Some(sets));
        if index % 2 != 0 {
            self.fork_heads[index / 2] = head;
            return;
        }
        self.twig_heads[index / 2] = head;
    }

    // Gives up the node at the index.
    pub(crate) fn free(&mut self, index: usize)
        requires { IsSome (node_at self.old.slots index) }
        ensures gone { node_at self.new.slots index ≡ None }
        ensures others { SameBut self.old.slots self.new.slots index }
        ensures len { count_by is_some self.new.slots + 1 ≡ count_by is_some self.old.slots }
        ensures room { self.new.room ≡ self.old.room }
    {
        self.rooms.free(index);
    }
}

// Writes the head at the place, behind those that are there where it is further on.
fn write_head(heads: &mut Vec<Head>, place: usize, head: Head)
    requires { place < vec_capacity heads.old }
    ensures here { slice_index_or heads.new.items place Leaf ≡ head }
    ensures others { (k : ℕ) → k ≢ place → slice_index_or heads.new.items k Leaf ≡ slice_index_or heads.old.items k Leaf }
    ensures inside { place < vec_len heads.new }
    ensures grows { vec_len heads.old ≤ vec_len heads.new }
    ensures short { (n : ℕ) → vec_len heads.old ≤ n → place < n → vec_len heads.new ≤ n }
    ensures capacity { vec_capacity heads.new ≡ vec_capacity heads.old }
{
    if place < heads.len() {
        heads[place] = head;
        return;
    }
    'pad: while heads.len() < place {
        heads.push_reserved(Head::Leaf);
    }
    heads.push_reserved(head);
}
