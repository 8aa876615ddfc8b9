//! Where nodes lie with their links: index 2i is small slot i, and index 2i + 1 large slot i. What a node in a small slot is later
//! given and doesn't fit there lies in a room apart, which the small slot names, so that the node keeps its index.
ghost use Rattle.std.specs.Prelude.{◌≡◌, ◌≢◌, ℕ, ◌+◌, ◌*◌, ◌%◌, ◌<◌, ◌≤◌, [], length, Some, None, IsSome, OnOk, OnErr, count_by, is_some, slice_index, slice_set, insert, remove};
ghost use Rattle.node_heap.specs.Heap.{row_limit};
ghost use Rattle.std.specs.Borrow.{sem};
ghost use Rattle.node_heap.specs.Nodes.{SameBut, node_at, node_owners, node_head, node_links, Becomes};

use crate::entry::RowLinks;
use crate::lists::{cover, empty_large, empty_small, put_beside, put_large, put_small};
use crate::row::Link;
use crate::slot_kinds::{LargeSlot, SmallSlot};
use std::alloc::{AllocError, Global};
use std::marker::Model;

// What lies of a head in a small slot, which may be less than what lies in a large one.
pub(crate) trait SmallHead<L>: Copy {
    ghost stands_for: { Self → L };
    // What is read of a room that isn't there.
    ghost unread: { L };

    // What a large slot has in its place.
    fn widen(&self) -> L
        ensures { result ≡ stands_for self.now };
}

/// A slot for each node, and room for so many in all.
#[derive(Drop)]
pub(crate) struct Rooms<S: SmallHead<L>, L: Copy, const N: usize> {
    small: Vec<SmallSlot<S, N>>,
    // The small slots that no node is in, each once.
    free_small: Vec<usize>,
    large: Vec<LargeSlot<L>>,
    free_large: Vec<usize>,
    // What small slots name.
    moved: Vec<LargeSlot<L>>,
    free_moved: Vec<usize>,
    room: usize,
}

impl<S: SmallHead<L>, L: Copy, const N: usize> Model for Rooms<S, L, N> {
    ghost use Rattle.node_heap.specs.Nodes.{RoomsOf};

    ghost Value = { RoomsOf L };

    ghost use Rattle.std.specs.Vec.{vec_capacity};
    ghost use Rattle.node_heap.specs.Rooms.{nodes_in, AreRooms};

    ghost view = { λ n. record { slots = nodes_in S.stands_for S.unread n.small.items n.large.items n.moved.items; room = n.room } };

    ghost invariant = { λ n. AreRooms n.small.items n.free_small.items (vec_capacity n.small) (vec_capacity n.free_small) n.large.items n.free_large.items (vec_capacity n.large) (vec_capacity n.free_large) n.moved.items n.free_moved.items (vec_capacity n.moved) (vec_capacity n.free_moved) n.room };
}

impl<S: SmallHead<L>, L: Copy, const N: usize> Rooms<S, L, N> {
    ghost use Rattle.node_heap.specs.LendsRoom.{LendsRoomOwners};
    ghost use Rattle.node_heap.specs.LendsSlot.{SmallSlotFits};

    // No nodes, and no room.
    pub(crate) fn new(alloc: Global) -> Rooms<S, L, N>
        ensures slots { result.slots ≡ [] }
        ensures room { result.room ≡ 0 }
    {
        Rooms {
            small: Vec::new(alloc),
            free_small: Vec::new(alloc),
            large: Vec::new(alloc),
            free_large: Vec::new(alloc),
            moved: Vec::new(alloc),
            free_moved: Vec::new(alloc),
            room: 0,
        }
    }

    // For how many nodes in all there is room.
    pub(crate) fn room(&self) -> usize
        ensures { result ≡ self.now.room }
    {
        self.room
    }

    // Makes room for so many nodes in all. Refused, it leaves the nodes as they were.
    pub(crate) fn reserve(&mut self, total: usize) -> Result<(), AllocError>
        requires more { self.old.room ≤ total }
        requires few { total < row_limit }
        ensures slots { self.new.slots ≡ self.old.slots }
        ensures room { OnOk result (self.new.room ≡ total) }
        ensures refused { OnErr result (self.new ≡ self.old) }
    {
        // Any node may be large, and any small one may outgrow its slot, so each list has room for all.
        cover(&mut self.small, &mut self.free_small, total)?;
        cover(&mut self.large, &mut self.free_large, total)?;
        cover(&mut self.moved, &mut self.free_moved, total)?;
        self.room = total;
        Ok(())
    }

    // Makes a node with one owner and these links, at most 32, in a small slot where it fits. Answers its index.
    #[inline(always)]
    pub(crate) fn put(&mut self, head: L, fit: Option<S>, links: &[Link]) -> usize
        requires memory { SmallSlotFits S.row N.row }
        requires room { count_by is_some self.old.slots < self.old.room }
        requires short { length links.now ≤ 32 }
        requires few { (s : S) → fit ≡ Some s → length links.now ≤ N }
        requires fits { (s : S) → fit ≡ Some s → S.stands_for s ≡ head }
        requires width { N ≤ 32 }
        ensures was { node_at self.old.slots result ≡ None }
        ensures now { node_at self.new.slots result ≡ Some (record { owners = 1; head = head; links = links.now }) }
        ensures others { SameBut self.old.slots self.new.slots result }
        ensures len { count_by is_some self.new.slots ≡ count_by is_some self.old.slots + 1 }
        ensures room { self.new.room ≡ self.old.room }
        ensures low { result < 2 * self.old.room }
    {
        match fit {
            Some(head) => 2 * put_small(&mut self.small, &mut self.free_small, head, links),
            None => 2 * put_large(&mut self.large, &mut self.free_large, head, links) + 1,
        }
    }

    // Makes a node with one owner and the links of the one at the index `from`, but for the link at the position. Both lie in large slots.
    // Answers its index.
    #[inline(always)]
    pub(crate) fn put_beside(&mut self, head: L, from: usize, position: usize, link: Link) -> usize
        requires room { count_by is_some self.old.slots < self.old.room }
        requires large { from % 2 ≡ 1 }
        requires position { position < length (node_links (node_at self.old.slots from)) }
        ensures was { node_at self.old.slots result ≡ None }
        ensures now { node_at self.new.slots result ≡ Some (record { owners = 1; head = head; links = slice_set (node_links (node_at self.old.slots from)) position link }) }
        ensures others { SameBut self.old.slots self.new.slots result }
        ensures len { count_by is_some self.new.slots ≡ count_by is_some self.old.slots + 1 }
        ensures room { self.new.room ≡ self.old.room }
        ensures low { result < 2 * self.old.room }
    {
        2 * put_beside(
            &mut self.large,
            &mut self.free_large,
            head,
            from / 2,
            position,
            link,
        ) + 1
    }

    // The owners of the node at the index.
    #[inline]
    pub(crate) fn owners(&self, index: usize) -> usize
        requires memory { SmallSlotFits S.row N.row }
        requires live { IsSome (node_at self.now.slots index) }
        ensures { result ≡ node_owners (node_at self.now.slots index) }
    {
        if index % 2 == 0 {
            self.small[index / 2].owners()
        } else {
            self.large[index / 2].owners()
        }
    }

    // The owners of the node at the index, for writing.
    #[inline]
    pub(crate) fn owners_mut(&mut self, index: usize) -> &mut usize
        requires memory { SmallSlotFits S.row N.row }
        requires live { IsSome (node_at self.old.slots index) }
        ensures* writes_back { sem 𝓛 (LendsRoomOwners S.row L.row N.row S.SmallHead self.entry index result) }
        ensures value { result.now ≡ node_owners (node_at self.old.slots index) }
    {
        if index % 2 == 0 {
            self.small[index / 2].owners_mut()
        } else {
            self.large[index / 2].owners_mut()
        }
    }

    // The head of the node at the index.
    #[inline(always)]
    pub(crate) fn head(&self, index: usize) -> L
        requires memory { SmallSlotFits S.row N.row }
        requires live { IsSome (node_at self.now.slots index) }
        ensures { node_head (node_at self.now.slots index) ≡ Some result }
    {
        if index % 2 != 0 {
            return self.large[index / 2].head();
        }
        let small = &self.small[index / 2];
        match small.room() {
            Some(room) => self.moved[room].head(),
            None => small.head().widen(),
        }
    }

    // The links of the node at the index.
    #[inline(always)]
    pub(crate) fn links(&self, index: usize) -> &[Link]
        requires memory { SmallSlotFits S.row N.row }
        requires width { N ≤ 32 }
        requires live { IsSome (node_at self.now.slots index) }
        ensures value { result.now ≡ node_links (node_at self.now.slots index) }
        ensures short { length result.now ≤ 32 }
    {
        if index % 2 != 0 {
            return self.large[index / 2].links();
        }
        let small = &self.small[index / 2];
        match small.room() {
            Some(room) => self.moved[room].links(),
            None => small.links(),
        }
    }

    // The links of the node at the index, as a list of their own.
    #[inline(always)]
    pub(crate) fn row_links(&self, index: usize) -> RowLinks
        requires memory { SmallSlotFits S.row N.row }
        requires width { N ≤ 32 }
        requires live { IsSome (node_at self.now.slots index) }
        ensures { result ≡ node_links (node_at self.now.slots index) }
    {
        // A large slot has as much room as the list.
        if index % 2 != 0 {
            return self.large[index / 2].row_links();
        }
        RowLinks::from_slice(self.links(index))
    }

    // Puts the link in place of the one at the position, which it answers.
    pub(crate) fn replace_link(&mut self, index: usize, position: usize, link: Link) -> Link
        requires memory { SmallSlotFits S.row N.row }
        requires position { position < length (node_links (node_at self.old.slots index)) }
        ensures old { result ≡ slice_index (node_links (node_at self.old.slots index)) position }
        ensures becomes { Becomes self.old.slots self.new.slots index (λ n. record { owners = n.owners; head = n.head; links = slice_set n.links position link }) }
        ensures room { self.new.room ≡ self.old.room }
    {
        let place = index / 2;
        if index % 2 != 0 {
            return self.large[place].replace(position, link);
        }
        match self.small[place].room() {
            Some(room) => self.moved[room].replace(position, link),
            None => self.small[place].replace(position, link),
        }
    }

    // Puts the link at the position, before those that stand there and after.
    pub(crate) fn insert_link(&mut self, index: usize, position: usize, link: Link)
        requires memory { SmallSlotFits S.row N.row }
        requires live { IsSome (node_at self.old.slots index) }
        requires position { position ≤ length (node_links (node_at self.old.slots index)) }
        requires room { length (node_links (node_at self.old.slots index)) < 32 }
        requires width { N ≤ 32 }
        ensures becomes { Becomes self.old.slots self.new.slots index (λ n. record { owners = n.owners; head = n.head; links = insert n.links position link }) }
        ensures room { self.new.room ≡ self.old.room }
    {
        let place = index / 2;
        if index % 2 != 0 {
            self.large[place].insert(position, link);
            return;
        }
        match self.small[place].room() {
            Some(room) => self.moved[room].insert(position, link),
            None => {
                if self.small[place].is_full() {
                    self.outgrow(index, position, link);
                } else {
                    self.small[place].insert(position, link);
                }
            }
        }
    }

    // The same for a node whose small slot is full.
    #[inline(never)]
    fn outgrow(&mut self, index: usize, position: usize, link: Link)
        requires memory { SmallSlotFits S.row N.row }
        requires width { N ≤ 32 }
        requires small { index % 2 ≡ 0 }
        requires live { IsSome (node_at self.old.slots index) }
        requires position { position ≤ length (node_links (node_at self.old.slots index)) }
        requires room { length (node_links (node_at self.old.slots index)) < 32 }
        ensures becomes { Becomes self.old.slots self.new.slots index (λ n. record { owners = n.owners; head = n.head; links = insert n.links position link }) }
        ensures room { self.new.room ≡ self.old.room }
    {
        let head = self.head(index);
        let mut links = RowLinks::from_slice(self.links(index));
        links.insert(position, link);
        self.rewrite_apart(index, head, links.as_slice());
    }

    // Gives the node in a small slot this head and these links, at most 32, in a room apart.
    fn rewrite_apart(&mut self, index: usize, head: L, links: &[Link])
        requires memory { SmallSlotFits S.row N.row }
        requires small { index % 2 ≡ 0 }
        requires live { IsSome (node_at self.old.slots index) }
        requires short { length links.now ≤ 32 }
        ensures becomes { Becomes self.old.slots self.new.slots index (λ n. record { owners = n.owners; head = head; links = links.now }) }
        ensures room { self.new.room ≡ self.old.room }
    {
        let place = index / 2;
        match self.small[place].room() {
            Some(room) => self.moved[room].fill(head, links),
            None => {
                let room = put_large(&mut self.moved, &mut self.free_moved, head, links);
                self.small[place].set_room(room);
            }
        }
    }

    // Takes the link at the position out.
    pub(crate) fn remove_link(&mut self, index: usize, position: usize) -> Link
        requires memory { SmallSlotFits S.row N.row }
        requires position { position < length (node_links (node_at self.old.slots index)) }
        ensures old { result ≡ slice_index (node_links (node_at self.old.slots index)) position }
        ensures becomes { Becomes self.old.slots self.new.slots index (λ n. record { owners = n.owners; head = n.head; links = remove n.links position }) }
        ensures room { self.new.room ≡ self.old.room }
    {
        let place = index / 2;
        if index % 2 != 0 {
            return self.large[place].remove(position);
        }
        match self.small[place].room() {
            Some(room) => self.moved[room].remove(position),
            None => self.small[place].remove(position),
        }
    }

    // Puts the head in place of the node's, which lies in a small slot yet where it fits.
    pub(crate) fn set_head(&mut self, index: usize, head: L, fit: Option<S>)
        requires memory { SmallSlotFits S.row N.row }
        requires width { N ≤ 32 }
        requires live { IsSome (node_at self.old.slots index) }
        requires fits { (s : S) → fit ≡ Some s → S.stands_for s ≡ head }
        ensures becomes { Becomes self.old.slots self.new.slots index (λ n. record { owners = n.owners; head = head; links = n.links }) }
        ensures room { self.new.room ≡ self.old.room }
    {
        let place = index / 2;
        if index % 2 != 0 {
            self.large[place].set_head(head);
            return;
        }
        match self.small[place].room() {
            Some(room) => self.moved[room].set_head(head),
            None => match fit {
                Some(small) => self.small[place].set_head(small),
                None => {
                    let links = RowLinks::from_slice(self.links(index));
                    self.rewrite_apart(index, head, links.as_slice());
                }
            },
        }
    }

    // Gives up the node at the index.
    #[inline(always)]
    pub(crate) fn free(&mut self, index: usize)
        requires memory { SmallSlotFits S.row N.row }
        requires live { IsSome (node_at self.old.slots index) }
        ensures gone { node_at self.new.slots index ≡ None }
        ensures others { SameBut self.old.slots self.new.slots index }
        ensures len { count_by is_some self.new.slots + 1 ≡ count_by is_some self.old.slots }
        ensures room { self.new.room ≡ self.old.room }
    {
        let place = index / 2;
        if index % 2 != 0 {
            empty_large(&mut self.large, &mut self.free_large, place);
            return;
        }
        let room = self.small[place].room();
        empty_small(&mut self.small, &mut self.free_small, place);
        match room {
            Some(room) => empty_large(&mut self.moved, &mut self.free_moved, room),
            None => {}
        }
    }
}
