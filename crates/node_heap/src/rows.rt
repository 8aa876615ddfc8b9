//! The nodes that are made as no row of a trie: their rooms, and apart from these the heads that say more than a tag does.
ghost use Rattle.std.specs.Prelude.{◌≡◌, ℕ, ◌+◌, ◌*◌, ◌%◌, ◌<◌, ◌≤◌, [], length, Some, None, IsSome, OnOk, option_map, count_by, is_some, slice_index, slice_set, insert, remove};
ghost use Rattle.node_heap.specs.Heap.{row_limit};
ghost use Rattle.std.specs.Borrow.{sem};
ghost use Rattle.node_heap.specs.Tags.{few_tag};
ghost use Rattle.node_heap.specs.Forms.{kind_of, sums_of};
ghost use Rattle.node_heap.specs.Reads.{kind_said};
ghost use Rattle.node_heap.specs.Nodes.{SameBut, node_at, node_owners, node_head, node_links, Becomes};

use crate::entry::RowLinks;
use crate::lists::{cover, put, set_slot, slot, vacate};
use crate::rooms::Rooms;
use crate::row::{Head, Kind, Link};
use crate::tags::{FEW_LINKS, FewHead, Heads, Tag, few_head, tag_of};
use std::alloc::{AllocError, Global};
use std::marker::Model;

/// A room for each node, and room for so many in all.
#[derive(Drop)]
pub(crate) struct Rows {
    rooms: Rooms<FewHead, Tag, FEW_LINKS>,
    // The heads apart, which tags name.
    heads: Vec<Option<Head>>,
    free_heads: Vec<usize>,
    lent: Heads,
}

impl Model for Rows {
    ghost use Rattle.node_heap.specs.Nodes.{RoomsOf};
    ghost use Rattle.node_heap.specs.declared.row.Head.{Head as Said};

    ghost Value = { RoomsOf Said };

    ghost use Rattle.std.specs.Vec.{vec_capacity};
    ghost use Rattle.node_heap.specs.Tags.{headed, IsHeaded};

    ghost view = { λ n. headed n.rooms n.heads.items };

    ghost invariant = { λ n. IsHeaded n.rooms n.heads.items n.free_heads.items (vec_capacity n.heads) (vec_capacity n.free_heads) };
}

impl Rows {
    ghost use Rattle.node_heap.specs.LendsNode.{LendsRowOwners};

    // No nodes, and no room.
    pub(crate) fn new(alloc: Global) -> Rows
        ensures slots { result.slots ≡ [] }
        ensures room { result.room ≡ 0 }
    {
        Rows {
            rooms: Rooms::new(alloc),
            heads: Vec::new(alloc),
            free_heads: Vec::new(alloc),
            lent: Heads::new(),
        }
    }

    // Makes room for so many nodes in all, where there is less.
    pub(crate) fn reserve(&mut self, total: usize) -> Result<(), AllocError>
        requires few { total < row_limit }
        requires old { self.old.room < row_limit }
        ensures slots { self.new.slots ≡ self.old.slots }
        ensures keeps { self.old.room ≤ self.new.room }
        ensures few { self.new.room < row_limit }
        ensures room { OnOk result (total ≤ self.new.room) }
    {
        if total <= self.rooms.room() {
            return Ok(());
        }
        // Any node may have a head apart.
        cover(&mut self.heads, &mut self.free_heads, total)?;
        self.rooms.reserve(total)?;
        Ok(())
    }

    // Makes a node with one owner and these links, at most 32. Answers its index.
    #[inline(always)]
    pub(crate) fn put(&mut self, head: Head, links: &[Link]) -> usize
        requires room { count_by is_some self.old.slots < self.old.room }
        requires short { length links.now ≤ 32 }
        ensures was { node_at self.old.slots result ≡ None }
        ensures now { node_at self.new.slots result ≡ Some (record { owners = 1; head = head; links = links.now }) }
        ensures others { SameBut self.old.slots self.new.slots result }
        ensures len { count_by is_some self.new.slots ≡ count_by is_some self.old.slots + 1 }
        ensures room { self.new.room ≡ self.old.room }
        ensures low { result < 2 * self.old.room }
    {
        match tag_of(&head) {
            Some(tag) => self.rooms.put(tag, fit(&tag, links), links),
            None => {
                let place = put(&mut self.heads, &mut self.free_heads, head);
                self.rooms.put(Tag::Apart { place }, None, links)
            }
        }
    }

    // Makes a node with one owner and the links of the one at the index `from`, but for the link at the position. Both lie in large slots.
    // Answers its index.
    #[inline(always)]
    pub(crate) fn put_beside(
        &mut self,
        head: Head,
        from: usize,
        position: usize,
        link: Link,
    ) -> usize
        requires room { count_by is_some self.old.slots < self.old.room }
        requires large { from % 2 ≡ 1 }
        requires position { position < length (node_links (node_at self.old.slots from)) }
        ensures was { node_at self.old.slots result ≡ None }
        ensures now { node_at self.new.slots result ≡ Some (record { owners = 1; head = head; links = slice_set (node_links (node_at self.old.slots from)) position link }) }
        ensures others { SameBut self.old.slots self.new.slots result }
        ensures len { count_by is_some self.new.slots ≡ count_by is_some self.old.slots + 1 }
        ensures room { self.new.room ≡ self.old.room }
        ensures low { result < 2 * self.old.room }
    {
        match tag_of(&head) {
            Some(tag) => self.rooms.put_beside(tag, from, position, link),
            None => self.put_beside_apart(head, from, position, link),
        }
    }

    // The same with the head apart.
    #[inline(never)]
    fn put_beside_apart(&mut self, head: Head, from: usize, position: usize, link: Link) -> usize
        requires room { count_by is_some self.old.slots < self.old.room }
        requires large { from % 2 ≡ 1 }
        requires position { position < length (node_links (node_at self.old.slots from)) }
        ensures was { node_at self.old.slots result ≡ None }
        ensures now { node_at self.new.slots result ≡ Some (record { owners = 1; head = head; links = slice_set (node_links (node_at self.old.slots from)) position link }) }
        ensures others { SameBut self.old.slots self.new.slots result }
        ensures len { count_by is_some self.new.slots ≡ count_by is_some self.old.slots + 1 }
        ensures room { self.new.room ≡ self.old.room }
        ensures low { result < 2 * self.old.room }
    {
        let place = put(&mut self.heads, &mut self.free_heads, head);
        self.rooms
            .put_beside(Tag::Apart { place }, from, position, link)
    }

    // The owners of the node at the index.
    #[inline(always)]
    pub(crate) fn owners(&self, index: usize) -> usize
        requires { IsSome (node_at self.now.slots index) }
        ensures { result ≡ node_owners (node_at self.now.slots index) }
    {
        self.rooms.owners(index)
    }

    // The owners of the node at the index, for writing.
    #[inline(always)]
    pub(crate) fn owners_mut(&mut self, index: usize) -> &mut usize
        requires { IsSome (node_at self.old.slots index) }
        ensures* writes_back { sem 𝓛 (LendsRowOwners self.entry index result) }
        ensures value { result.now ≡ node_owners (node_at self.old.slots index) }
    {
        self.rooms.owners_mut(index)
    }

    // The head of the node at the index.
    pub(crate) fn head(&self, index: usize) -> &Head
        requires { IsSome (node_at self.now.slots index) }
        ensures { node_head (node_at self.now.slots index) ≡ Some result.now }
    {
        let tag = self.rooms.head(index);
        match tag.place() {
            Some(place) => slot(&self.heads, place),
            None => self.lent.lend(&tag),
        }
    }

    // What the node at the index is.
    #[inline(always)]
    pub(crate) fn kind(&self, index: usize) -> Kind
        requires { IsSome (node_at self.now.slots index) }
        ensures { option_map kind_of (node_head (node_at self.now.slots index)) ≡ Some (kind_said result) }
    {
        match self.rooms.head(index) {
            Tag::Leaf => Kind::Leaf,
            Tag::Inner { height } => Kind::Inner {
                height: height.rows(),
            },
            Tag::Chain => Kind::Chain,
            Tag::Pair => Kind::Pair,
            Tag::State => Kind::State,
            Tag::Apart { place } => slot(&self.heads, place).kind(),
        }
    }

    // The sums of the node at the index, if any.
    #[inline(always)]
    pub(crate) fn sums(&self, index: usize) -> &[u32]
        requires { IsSome (node_at self.now.slots index) }
        ensures { option_map sums_of (node_head (node_at self.now.slots index)) ≡ Some result.now }
    {
        match self.rooms.head(index) {
            Tag::Apart { place } => slot(&self.heads, place).sums(),
            _ => &[],
        }
    }

    // The links of the node at the index.
    #[inline(always)]
    pub(crate) fn links(&self, index: usize) -> &[Link]
        requires { IsSome (node_at self.now.slots index) }
        ensures value { result.now ≡ node_links (node_at self.now.slots index) }
        ensures short { length result.now ≤ 32 }
    {
        self.rooms.links(index)
    }

    // The links of the node at the index, as a list of their own.
    #[inline(always)]
    pub(crate) fn row_links(&self, index: usize) -> RowLinks
        requires { IsSome (node_at self.now.slots index) }
        ensures { result ≡ node_links (node_at self.now.slots index) }
    {
        self.rooms.row_links(index)
    }

    // Puts the link in place of the one at the position, which it answers.
    pub(crate) fn replace_link(&mut self, index: usize, position: usize, link: Link) -> Link
        requires { position < length (node_links (node_at self.old.slots index)) }
        ensures old { result ≡ slice_index (node_links (node_at self.old.slots index)) position }
        ensures becomes { Becomes self.old.slots self.new.slots index (λ n. record { owners = n.owners; head = n.head; links = slice_set n.links position link }) }
        ensures room { self.new.room ≡ self.old.room }
    {
        self.rooms.replace_link(index, position, link)
    }

    // Puts the link at the position, before those that stand there and after.
    pub(crate) fn insert_link(&mut self, index: usize, position: usize, link: Link)
        requires live { IsSome (node_at self.old.slots index) }
        requires position { position ≤ length (node_links (node_at self.old.slots index)) }
        requires room { length (node_links (node_at self.old.slots index)) < 32 }
        ensures becomes { Becomes self.old.slots self.new.slots index (λ n. record { owners = n.owners; head = n.head; links = insert n.links position link }) }
        ensures room { self.new.room ≡ self.old.room }
    {
        self.rooms.insert_link(index, position, link);
    }

    // Takes the link at the position out.
    pub(crate) fn remove_link(&mut self, index: usize, position: usize) -> Link
        requires { position < length (node_links (node_at self.old.slots index)) }
        ensures old { result ≡ slice_index (node_links (node_at self.old.slots index)) position }
        ensures becomes { Becomes self.old.slots self.new.slots index (λ n. record { owners = n.owners; head = n.head; links = remove n.links position }) }
        ensures room { self.new.room ≡ self.old.room }
    {
        self.rooms.remove_link(index, position)
    }

    // Puts the head in place of the node's.
    pub(crate) fn set_head(&mut self, index: usize, head: Head)
        requires { IsSome (node_at self.old.slots index) }
        ensures becomes { Becomes self.old.slots self.new.slots index (λ n. record { owners = n.owners; head = head; links = n.links }) }
        ensures room { self.new.room ≡ self.old.room }
    {
        let tag = self.rooms.head(index);
        match tag.place() {
            Some(place) => set_slot(&mut self.heads, place, head),
            None => match tag_of(&head) {
                Some(tag) => self.rooms.set_head(index, tag, few_head(&tag)),
                None => {
                    let place = put(&mut self.heads, &mut self.free_heads, head);
                    self.rooms.set_head(index, Tag::Apart { place }, None);
                }
            },
        }
    }

    // Gives up the node at the index.
    #[inline(always)]
    pub(crate) fn free(&mut self, index: usize)
        requires { IsSome (node_at self.old.slots index) }
        ensures gone { node_at self.new.slots index ≡ None }
        ensures others { SameBut self.old.slots self.new.slots index }
        ensures len { count_by is_some self.new.slots + 1 ≡ count_by is_some self.old.slots }
        ensures room { self.new.room ≡ self.old.room }
    {
        let tag = self.rooms.head(index);
        self.rooms.free(index);
        match tag.place() {
            Some(place) => vacate(&mut self.heads, &mut self.free_heads, place),
            None => {}
        }
    }
}

// The tag in a small slot, where the links fit there too.
#[inline(always)]
fn fit(tag: &Tag, links: &[Link]) -> Option<FewHead>
    ensures head { (f : FewHead) → result ≡ Some f → few_tag f ≡ tag.now }
    ensures links { (f : FewHead) → result ≡ Some f → length links.now ≤ 2 }
{
    if links.len() > FEW_LINKS {
        return None;
    }
    few_head(tag)
}
