//! The nodes of a heap: index 2i is index i of those that are made as no row of a trie, and index 2i + 1 index i of the rows of tries.
ghost use Rattle.std.specs.Prelude.{◌≡◌, ℕ, ◌+◌, ◌*◌, ◌%◌, ◌<◌, ◌≤◌, [], length, Some, None, IsSome, OnOk, OnErr, IsOk, option_map, count_by, is_some, slice_index, slice_set, insert, remove};
ghost use Rattle.node_heap.specs.Heap.{row_limit};
ghost use Rattle.std.specs.Borrow.{sem};
ghost use Rattle.node_heap.specs.Forms.{kind_of, sums_of};
ghost use Rattle.node_heap.specs.Reads.{kind_said};
ghost use Rattle.node_heap.specs.declared.row.Head.TheVariants.{Trie};
ghost use Rattle.node_heap.specs.Nodes.{SameBut, node_at, node_owners, node_head, node_links, Becomes};

use crate::entry::RowLinks;
use crate::lists::roomier;
use crate::row::{Head, Kind, Link, TrieRef};
use crate::rows::Rows;
use crate::sets::Sets;
use crate::tries::Tries;
use std::alloc::{AllocError, Global};
use std::marker::Model;

/// The nodes, and spares of which either kind is made.
#[derive(Drop)]
pub(crate) struct Nodes {
    rows: Rows,
    tries: Tries,
    len: usize,
    spares: usize,
    // Of each kind there is room for so many.
    room: usize,
}

impl Model for Nodes {
    ghost use Rattle.node_heap.specs.Nodes.{Nodes as Seen};
    ghost use Rattle.node_heap.specs.Inside.{nodes_of, AreNodes};

    ghost Value = { Seen };

    ghost view = { λ n. nodes_of n.rows n.tries n.spares };

    ghost invariant = { λ n. AreNodes n.rows n.tries n.len n.spares n.room };
}

impl Nodes {
    ghost use Rattle.node_heap.specs.LendsNode.{LendsNodeOwners};

    // No nodes and no spares.
    pub(crate) fn new(alloc: Global) -> Nodes
        ensures slots { result.slots ≡ [] }
        ensures spares { result.spares ≡ 0 }
    {
        Nodes {
            rows: Rows::new(alloc),
            tries: Tries::new(alloc),
            len: 0,
            spares: 0,
            room: 0,
        }
    }

    // The number of nodes.
    pub(crate) fn len(&self) -> usize
        ensures { result ≡ count_by is_some self.now.slots }
    {
        self.len
    }

    pub(crate) fn spares(&self) -> usize
        ensures { result ≡ self.now.spares }
    {
        self.spares
    }

    // Makes just so many spares, no fewer than there are. Refused, it leaves the nodes as they were.
    pub(crate) fn reserve(&mut self, spares: usize) -> Result<(), AllocError>
        requires more { self.old.spares ≤ spares }
        requires few { count_by is_some self.old.slots + spares < row_limit }
        ensures slots { self.new.slots ≡ self.old.slots }
        ensures spares { OnOk result (self.new.spares ≡ spares) }
        ensures refused { OnErr result (self.new ≡ self.old) }
        ensures ample { self.old.spares ≡ spares → IsOk result }
    {
        let total = self.len + spares;
        if total <= self.room {
            self.spares = spares;
            return Ok(());
        }
        // A spare may become a node of either kind.
        let room = roomier(total, self.room);
        self.rows.reserve(room)?;
        self.tries.reserve(room)?;
        self.room = room;
        self.spares = spares;
        Ok(())
    }

    // Makes a node of a spare, with one owner and these links, at most 32. Answers its index.
    #[inline(always)]
    pub(crate) fn put(&mut self, head: Head, links: &[Link]) -> usize
        requires spare { 0 < self.old.spares }
        requires short { length links.now ≤ 32 }
        ensures was { node_at self.old.slots result ≡ None }
        ensures now { node_at self.new.slots result ≡ Some (record { owners = 1; head = head; links = links.now }) }
        ensures others { SameBut self.old.slots self.new.slots result }
        ensures len { count_by is_some self.new.slots ≡ count_by is_some self.old.slots + 1 }
        ensures spares { self.new.spares + 1 ≡ self.old.spares }
        ensures low { result < 8 * row_limit }
    {
        self.spares -= 1;
        self.len += 1;
        match &head {
            Head::Trie { .. } => 2 * self.tries.put(head, links) + 1,
            _ => 2 * self.rows.put(head, links),
        }
    }

    // Makes a node of a spare, with one owner and the links of the one at the index `from`, but for the link at the position. Both lie in
    // large slots, and neither was made as a row of a trie. Answers its index.
    #[inline(always)]
    pub(crate) fn put_beside(
        &mut self,
        head: Head,
        from: usize,
        position: usize,
        link: Link,
    ) -> usize
        requires spare { 0 < self.old.spares }
        requires large { from % 4 ≡ 2 }
        requires position { position < length (node_links (node_at self.old.slots from)) }
        ensures was { node_at self.old.slots result ≡ None }
        ensures now { node_at self.new.slots result ≡ Some (record { owners = 1; head = head; links = slice_set (node_links (node_at self.old.slots from)) position link }) }
        ensures others { SameBut self.old.slots self.new.slots result }
        ensures len { count_by is_some self.new.slots ≡ count_by is_some self.old.slots + 1 }
        ensures spares { self.new.spares + 1 ≡ self.old.spares }
        ensures low { result < 8 * row_limit }
    {
        self.spares -= 1;
        self.len += 1;
        2 * self.rows.put_beside(head, from / 2, position, link)
    }

    // The owners of the node at the index.
    #[inline]
    pub(crate) fn owners(&self, index: usize) -> usize
        requires { IsSome (node_at self.now.slots index) }
        ensures { result ≡ node_owners (node_at self.now.slots index) }
    {
        if index % 2 == 0 {
            self.rows.owners(index / 2)
        } else {
            self.tries.owners(index / 2)
        }
    }

    // The owners of the node at the index, for writing.
    #[inline]
    pub(crate) fn owners_mut(&mut self, index: usize) -> &mut usize
        requires { IsSome (node_at self.old.slots index) }
        ensures* writes_back { sem 𝓛 (LendsNodeOwners self.entry index result) }
        ensures value { result.now ≡ node_owners (node_at self.old.slots index) }
    {
        if index % 2 == 0 {
            self.rows.owners_mut(index / 2)
        } else {
            self.tries.owners_mut(index / 2)
        }
    }

    // The head of the node at the index.
    #[inline]
    pub(crate) fn head(&self, index: usize) -> &Head
        requires { IsSome (node_at self.now.slots index) }
        ensures { node_head (node_at self.now.slots index) ≡ Some result.now }
    {
        if index % 2 == 0 {
            self.rows.head(index / 2)
        } else {
            self.tries.head(index / 2)
        }
    }

    // What the node at the index is.
    #[inline(always)]
    pub(crate) fn kind(&self, index: usize) -> Kind
        requires { IsSome (node_at self.now.slots index) }
        ensures { option_map kind_of (node_head (node_at self.now.slots index)) ≡ Some (kind_said result) }
    {
        if index % 2 == 0 {
            self.rows.kind(index / 2)
        } else {
            self.tries.kind(index / 2)
        }
    }

    // The sums of the node at the index, if any.
    #[inline(always)]
    pub(crate) fn sums(&self, index: usize) -> &[u32]
        requires { IsSome (node_at self.now.slots index) }
        ensures { option_map sums_of (node_head (node_at self.now.slots index)) ≡ Some result.now }
    {
        if index % 2 == 0 {
            self.rows.sums(index / 2)
        } else {
            self.tries.sums(index / 2)
        }
    }

    // The sets and the links of a row of a trie.
    #[inline(always)]
    pub(crate) fn trie(&self, index: usize) -> TrieRef<'_>
        requires { (depth entries nodes : ℕ) × (node_head (node_at self.now.slots index) ≡ Some (Trie depth entries nodes)) }
        ensures sets { (depth : ℕ) × (node_head (node_at self.now.slots index) ≡ Some (Trie depth result.entries result.nodes)) }
        ensures links { result.links.now ≡ node_links (node_at self.now.slots index) }
    {
        let half = index / 2;
        if index % 2 != 0 {
            return match self.tries.sets_of(half) {
                Sets::Trie { entries, nodes, .. } => TrieRef {
                    entries,
                    nodes,
                    links: self.tries.links(half),
                },
                Sets::Odd => unreachable!(),
            };
        }
        // A node that was made as another one and has the head of a trie's row.
        match self.rows.head(half) {
            Head::Trie { entries, nodes, .. } => TrieRef {
                entries: *entries,
                nodes: *nodes,
                links: self.rows.links(half),
            },
            _ => unreachable!(),
        }
    }

    // The links of the node at the index.
    #[inline]
    pub(crate) fn links(&self, index: usize) -> &[Link]
        requires { IsSome (node_at self.now.slots index) }
        ensures value { result.now ≡ node_links (node_at self.now.slots index) }
        ensures short { length result.now ≤ 32 }
    {
        if index % 2 == 0 {
            self.rows.links(index / 2)
        } else {
            self.tries.links(index / 2)
        }
    }

    // The head of the node at the index, whose links it puts in the list.
    pub(crate) fn copy(&self, index: usize, links: &mut RowLinks) -> Head
        requires { IsSome (node_at self.now.slots index) }
        ensures head { node_head (node_at self.now.slots index) ≡ Some result }
        ensures links { links.new ≡ node_links (node_at self.now.slots index) }
    {
        links.rewrite(self.links(index));
        self.head(index).copy()
    }

    // The links of the node at the index, as a list of their own.
    #[inline(always)]
    pub(crate) fn row_links(&self, index: usize) -> RowLinks
        requires { IsSome (node_at self.now.slots index) }
        ensures { result ≡ node_links (node_at self.now.slots index) }
    {
        if index % 2 == 0 {
            self.rows.row_links(index / 2)
        } else {
            self.tries.row_links(index / 2)
        }
    }

    // Puts the link in place of the one at the position, which it answers.
    pub(crate) fn replace_link(&mut self, index: usize, position: usize, link: Link) -> Link
        requires { position < length (node_links (node_at self.old.slots index)) }
        ensures old { result ≡ slice_index (node_links (node_at self.old.slots index)) position }
        ensures becomes { Becomes self.old.slots self.new.slots index (λ n. record { owners = n.owners; head = n.head; links = slice_set n.links position link }) }
        ensures spares { self.new.spares ≡ self.old.spares }
    {
        if index % 2 == 0 {
            self.rows.replace_link(index / 2, position, link)
        } else {
            self.tries.replace_link(index / 2, position, link)
        }
    }

    // Puts the link at the position, before those that stand there and after.
    pub(crate) fn insert_link(&mut self, index: usize, position: usize, link: Link)
        requires live { IsSome (node_at self.old.slots index) }
        requires position { position ≤ length (node_links (node_at self.old.slots index)) }
        requires room { length (node_links (node_at self.old.slots index)) < 32 }
        ensures becomes { Becomes self.old.slots self.new.slots index (λ n. record { owners = n.owners; head = n.head; links = insert n.links position link }) }
        ensures spares { self.new.spares ≡ self.old.spares }
    {
        if index % 2 == 0 {
            self.rows.insert_link(index / 2, position, link);
        } else {
            self.tries.insert_link(index / 2, position, link);
        }
    }

    // Takes the link at the position out.
    pub(crate) fn remove_link(&mut self, index: usize, position: usize) -> Link
        requires { position < length (node_links (node_at self.old.slots index)) }
        ensures old { result ≡ slice_index (node_links (node_at self.old.slots index)) position }
        ensures becomes { Becomes self.old.slots self.new.slots index (λ n. record { owners = n.owners; head = n.head; links = remove n.links position }) }
        ensures spares { self.new.spares ≡ self.old.spares }
    {
        if index % 2 == 0 {
            self.rows.remove_link(index / 2, position)
        } else {
            self.tries.remove_link(index / 2, position)
        }
    }

    // Puts the head in place of the node's.
    pub(crate) fn set_head(&mut self, index: usize, head: Head)
        requires { IsSome (node_at self.old.slots index) }
        ensures becomes { Becomes self.old.slots self.new.slots index (λ n. record { owners = n.owners; head = head; links = n.links }) }
        ensures spares { self.new.spares ≡ self.old.spares }
    {
        if index % 2 == 0 {
            self.rows.set_head(index / 2, head);
        } else {
            self.tries.set_head(index / 2, head);
        }
    }

    // Gives up the node at the index, which is a spare then.
    #[inline(always)]
    pub(crate) fn free(&mut self, index: usize)
        requires { IsSome (node_at self.old.slots index) }
        ensures gone { node_at self.new.slots index ≡ None }
        ensures others { SameBut self.old.slots self.new.slots index }
        ensures len { count_by is_some self.new.slots + 1 ≡ count_by is_some self.old.slots }
        ensures spares { self.new.spares ≡ self.old.spares + 1 }
    {
        self.len -= 1;
        self.spares += 1;
        if index % 2 == 0 {
            self.rows.free(index / 2);
        } else {
            self.tries.free(index / 2);
        }
    }
}
