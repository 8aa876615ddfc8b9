//! What the slots of the table hold.
ghost use Rattle.std.specs.Prelude.{ℕ, ◌+◌, ◌<◌, ◌≤◌, ◌↔◌, [], length, IsTrue, ◌≡◌, slice_set, slice_index, insert, remove, Some, None, IsSome};
ghost use Rattle.std.specs.Borrow.{sem};
ghost use Rattle.node_heap.specs.Nodes.{node_owners, node_head, node_links, with_links};
ghost use Rattle.node_heap.specs.Small.{cell_owners, cell_value, here, moved, room_in};

use crate::entry::{RowLinks, insert_in, remove_in, replace_in};
use crate::row::Link;
use elem_core::Num;
use std::marker::Model;
use std::mem;
use std::mem::size_of;

// A cell and its owners, which are its holds and its places, or nothing. While a row waits to be freed they name the next that
// waits.
#[derive(Drop)]
pub(crate) struct CellSlot<T> {
    owners: usize,
    value: Option<T>,
}

// It has no room for links.
const _: () = prove!(size_of::<CellSlot<Num>>() <= 16);

impl<T> Model for CellSlot<T> {
    ghost use Rattle.std.specs.Prelude.{Option};
    ghost use Rattle.node_heap.specs.Small.{CellOf, cell_seen};

    ghost Value = { Option (CellOf T) };

    ghost view = { λ s. cell_seen s.owners s.value };
}

impl<T> CellSlot<T> {
    ghost use Rattle.node_heap.specs.LendsSlot.{LendsCellOwners};

    // A cell with one owner.
    pub(crate) fn of(value: T) -> CellSlot<T>
        ensures { result ≡ Some (record { owners = 1; value = value }) }
    {
        CellSlot {
            owners: 1,
            value: Some(value),
        }
    }

    // Puts a cell with one owner where nothing is.
    #[inline(always)]
    pub(crate) fn fill(&mut self, value: T)
        requires { self.old ≡ None }
        ensures { self.new ≡ Some (record { owners = 1; value = value }) }
    {
        self.owners = 1;
        match mem::replace(&mut self.value, Some(value)) {
            None => {}
            Some(_) => unreachable!(),
        }
    }

    pub(crate) fn owners(&self) -> usize
        requires { IsSome self.now }
        ensures { result ≡ cell_owners self.now }
    {
        self.owners
    }

    pub(crate) fn owners_mut(&mut self) -> &mut usize
        requires { IsSome self.old }
        ensures* writes_back { sem 𝓛 (LendsCellOwners T.row self.entry result) }
        ensures value { result.now ≡ cell_owners self.old }
    {
        &mut self.owners
    }

    pub(crate) fn value(&self) -> &T
        requires { IsSome self.now }
        ensures { cell_value self.now ≡ Some result.now }
    {
        match &self.value {
            Some(value) => value,
            None => unreachable!(),
        }
    }
}

impl<T: Drop> CellSlot<T> {
    // There is no cell in it then.
    pub(crate) fn empty(&mut self)
        ensures { self.new ≡ None }
    {
        self.value = None;
    }
}

// Nothing, a node, or where one lies.
#[derive(Drop)]
pub(crate) enum Held<S, const N: usize> {
    Free,
    Here {
        // How many of the links count.
        len: u8,
        head: S,
        links: [Link; N],
    },
    // Head and links lie in this room apart.
    Moved {
        room: usize,
    },
}

impl<S: Copy, const N: usize> Held<S, N> {
    ghost use Rattle.node_heap.specs.Held.{held_node, held_len, held_room, held_links, is_here};

    // A node with these links.
    fn of(head: S, links: &[Link]) -> Held<S, N>
        requires few { length links.now ≤ N }
        requires fits { N < 256 }
        ensures node { (n : ℕ) → held_node n result ≡ Some (record { owners = n; head = here head; links = links.now }) }
        ensures len { held_len result ≤ N }
        ensures room { held_room result ≡ N }
    {
        let mut kept = [Link::default(); N];
        kept[..links.len()].copy_from_slice(links);
        Held::Here {
            len: links.len() as u8,
            head,
            links: kept,
        }
    }

    fn len(&self) -> usize
        ensures { result ≡ held_len self.now }
    {
        match self {
            Held::Here { len, .. } => *len as usize,
            _ => 0,
        }
    }

    // Puts the link in place of the one at the index, which it answers.
    fn replace(&mut self, index: usize, link: Link) -> Link
        requires index { index < held_len self.old }
        requires len { held_len self.old ≤ held_room self.old }
        ensures old { result ≡ slice_index (held_links self.old) index }
        ensures links { (n : ℕ) → held_node n self.new ≡ with_links (slice_set (held_links self.old) index link) (held_node n self.old) }
        ensures len { held_len self.new ≡ held_len self.old }
        ensures room { held_room self.new ≡ held_room self.old }
    {
        let len = self.len();
        match self {
            Held::Here { links, .. } => replace_in(&mut links[..], len, index, link),
            _ => unreachable!(),
        }
    }

    // Puts the link at the index, before those that stand there and after.
    fn insert(&mut self, index: usize, link: Link)
        requires here { is_here self.old ≡ 1 }
        requires index { index ≤ held_len self.old }
        requires len { held_len self.old < held_room self.old }
        requires fits { held_len self.old < 255 }
        ensures links { (n : ℕ) → held_node n self.new ≡ with_links (insert (held_links self.old) index link) (held_node n self.old) }
        ensures len { held_len self.new ≡ held_len self.old + 1 }
        ensures room { held_room self.new ≡ held_room self.old }
    {
        let len = self.len();
        match self {
            Held::Here { links, .. } => insert_in(&mut links[..], len, index, link),
            _ => unreachable!(),
        }
        match self {
            Held::Here { len, .. } => *len += 1,
            _ => unreachable!(),
        }
    }

    // Takes the link at the index out.
    fn remove(&mut self, index: usize) -> Link
        requires index { index < held_len self.old }
        requires len { held_len self.old ≤ held_room self.old }
        ensures old { result ≡ slice_index (held_links self.old) index }
        ensures links { (n : ℕ) → held_node n self.new ≡ with_links (remove (held_links self.old) index) (held_node n self.old) }
        ensures len { held_len self.new + 1 ≡ held_len self.old }
        ensures room { held_room self.new ≡ held_room self.old }
    {
        let len = self.len();
        let old = match self {
            Held::Here { links, .. } => remove_in(&mut links[..], len, index),
            _ => unreachable!(),
        };
        match self {
            Held::Here { len, .. } => *len -= 1,
            _ => unreachable!(),
        }
        old
    }
}

// A node's owners, and the node itself where it has few links, or nothing.
#[derive(Drop)]
pub(crate) struct SmallSlot<S, const N: usize> {
    owners: usize,
    held: Held<S, N>,
}

impl<S, const N: usize> Model for SmallSlot<S, N> {
    ghost use Rattle.std.specs.Prelude.{Option, ◌≤◌, ◌≡◌};
    ghost use Rattle.node_heap.specs.Nodes.{NodeOf};
    ghost use Rattle.node_heap.specs.Small.{Lies};
    ghost use Rattle.node_heap.specs.Held.{held_node, held_len, held_room};

    ghost Value = { Option (NodeOf (Lies S)) };

    ghost view = { λ s. held_node s.owners s.held };

    ghost invariant = { λ s. (held_len s.held ≤ N) × (held_room s.held ≡ N) };
}

impl<S: Copy, const N: usize> SmallSlot<S, N> {
    ghost use Rattle.node_heap.specs.LendsSlot.{LendsSmallOwners};

    // A node with these links.
    pub(crate) fn of(owners: usize, head: S, links: &[Link]) -> SmallSlot<S, N>
        requires few { length links.now ≤ N }
        requires fits { N < 256 }
        ensures { result ≡ Some (record { owners = owners; head = here head; links = links.now }) }
    {
        SmallSlot {
            owners,
            held: Held::of(head, links),
        }
    }

    // Writes this node over what lay here.
    #[inline(always)]
    pub(crate) fn fill(&mut self, owners: usize, head: S, links: &[Link])
        requires few { length links.now ≤ N }
        requires fits { N < 256 }
        ensures { self.new ≡ Some (record { owners = owners; head = here head; links = links.now }) }
    {
        self.owners = owners;
        self.held = Held::of(head, links);
    }

    // Names the room apart where the node lies.
    pub(crate) fn set_room(&mut self, room: usize)
        requires { IsSome self.old }
        ensures { self.new ≡ Some (record { owners = node_owners self.old; head = moved room; links = [] }) }
    {
        self.held = Held::Moved { room };
    }

    // There is no node in it then.
    pub(crate) fn empty(&mut self)
        ensures { self.new ≡ None }
    {
        self.held = Held::Free;
    }

    pub(crate) fn owners(&self) -> usize
        requires { IsSome self.now }
        ensures { result ≡ node_owners self.now }
    {
        self.owners
    }

    pub(crate) fn owners_mut(&mut self) -> &mut usize
        requires { IsSome self.old }
        ensures* writes_back { sem 𝓛 (LendsSmallOwners S.row N.row self.entry result) }
        ensures value { result.now ≡ node_owners self.old }
    {
        &mut self.owners
    }

    // The room apart, if any.
    pub(crate) fn room(&self) -> Option<usize>
        ensures { result ≡ room_in self.now }
    {
        match &self.held {
            Held::Moved { room } => Some(*room),
            _ => None,
        }
    }

    // The head, where it lies here.
    pub(crate) fn head(&self) -> S
        requires live { IsSome self.now }
        requires lies { room_in self.now ≡ None }
        ensures { node_head self.now ≡ Some (here result) }
    {
        match &self.held {
            Held::Here { head, .. } => *head,
            _ => unreachable!(),
        }
    }

    // The links that lie here.
    pub(crate) fn links(&self) -> &[Link]
        requires live { IsSome self.now }
        requires lies { room_in self.now ≡ None }
        ensures value { result.now ≡ node_links self.now }
        ensures few { length result.now ≤ N }
    {
        match &self.held {
            Held::Here { len, links, .. } => &links[..*len as usize],
            _ => unreachable!(),
        }
    }

    // Whether all places for links here are taken.
    pub(crate) fn is_full(&self) -> bool
        requires live { IsSome self.now }
        requires lies { room_in self.now ≡ None }
        ensures { IsTrue result ↔ N ≤ length (node_links self.now) }
    {
        self.held.len() >= N
    }

    // Puts the head in place of the one that lies here.
    pub(crate) fn set_head(&mut self, new: S)
        requires live { IsSome self.old }
        requires lies { room_in self.old ≡ None }
        ensures { self.new ≡ Some (record { owners = node_owners self.old; head = here new; links = node_links self.old }) }
    {
        match &mut self.held {
            Held::Here { head, .. } => *head = new,
            _ => unreachable!(),
        }
    }

    // Puts the link in place of the one at the index here, which it answers.
    pub(crate) fn replace(&mut self, index: usize, link: Link) -> Link
        requires lies { room_in self.old ≡ None }
        requires index { index < length (node_links self.old) }
        ensures old { result ≡ slice_index (node_links self.old) index }
        ensures links { self.new ≡ with_links (slice_set (node_links self.old) index link) self.old }
    {
        self.held.replace(index, link)
    }

    // Puts the link at the index here, before those that stand there and after.
    pub(crate) fn insert(&mut self, index: usize, link: Link)
        requires live { IsSome self.old }
        requires lies { room_in self.old ≡ None }
        requires index { index ≤ length (node_links self.old) }
        requires room { length (node_links self.old) < N }
        requires fits { N < 256 }
        ensures { self.new ≡ with_links (insert (node_links self.old) index link) self.old }
    {
        self.held.insert(index, link);
    }

    // Takes the link at the index out, which lies here.
    pub(crate) fn remove(&mut self, index: usize) -> Link
        requires lies { room_in self.old ≡ None }
        requires index { index < length (node_links self.old) }
        ensures old { result ≡ slice_index (node_links self.old) index }
        ensures links { self.new ≡ with_links (remove (node_links self.old) index) self.old }
    {
        self.held.remove(index)
    }
}

// Room for one node: the node in it, or what is left of one that is gone, over which the next is written.
#[derive(Drop)]
pub(crate) struct LargeSlot<L> {
    owners: usize,
    is_filled: bool,
    // How many of the links count. The others are those that were given up, which nothing reads.
    len: u8,
    head: L,
    links: [Link; 32],
}

impl<L> Model for LargeSlot<L> {
    ghost use Rattle.std.specs.Prelude.{Option, Some, None, if◌then◌else◌, ◌≤◌, take};
    ghost use Rattle.node_heap.specs.Nodes.{NodeOf};

    ghost Value = { Option (NodeOf L) };

    ghost view = { λ s. if s.is_filled then Some (record { owners = s.owners; head = s.head; links = take s.len s.links }) else None };

    ghost invariant = { λ s. s.len ≤ 32 };
}

impl<L: Copy> LargeSlot<L> {
    ghost use Rattle.node_heap.specs.LendsSlot.{LendsLargeOwners};

    // Room with no node in it, and something for a head.
    pub(crate) fn blank(head: L) -> LargeSlot<L>
        ensures { result ≡ None }
    {
        LargeSlot {
            owners: 0,
            is_filled: false,
            len: 0,
            head,
            links: [Link::default(); 32],
        }
    }

    // Writes this node, which has one owner, over what lay here.
    #[inline(always)]
    pub(crate) fn fill(&mut self, head: L, links: &[Link])
        requires { length links.now ≤ 32 }
        ensures { self.new ≡ Some (record { owners = 1; head = head; links = links.now }) }
    {
        self.owners = 1;
        self.is_filled = true;
        self.len = links.len() as u8;
        self.head = head;
        self.links[..links.len()].copy_from_slice(links);
    }

    // The same with these links but for the one at the index.
    #[inline(always)]
    pub(crate) fn fill_but(&mut self, head: L, links: &RowLinks, index: usize, link: Link)
        requires { index < length links.now }
        ensures { self.new ≡ Some (record { owners = 1; head = head; links = slice_set links.now index link }) }
    {
        // The links are written first: they are copied once then, out of the place where they lay.
        let (len, lying) = links.parts();
        self.links = lying;
        self.len = len;
        self.head = head;
        self.owners = 1;
        self.is_filled = true;
        let _ = self.replace(index, link);
    }

    // There is no node in it then.
    pub(crate) fn empty(&mut self)
        ensures { self.new ≡ None }
    {
        self.is_filled = false;
    }

    pub(crate) fn owners(&self) -> usize
        requires { IsSome self.now }
        ensures { result ≡ node_owners self.now }
    {
        self.owners
    }

    pub(crate) fn owners_mut(&mut self) -> &mut usize
        requires { IsSome self.old }
        ensures* writes_back { sem 𝓛 (LendsLargeOwners L.row self.entry result) }
        ensures value { result.now ≡ node_owners self.old }
    {
        &mut self.owners
    }

    pub(crate) fn head(&self) -> L
        requires { IsSome self.now }
        ensures { node_head self.now ≡ Some result }
    {
        self.head
    }

    pub(crate) fn links(&self) -> &[Link]
        requires { IsSome self.now }
        ensures value { result.now ≡ node_links self.now }
        ensures short { length result.now ≤ 32 }
    {
        &self.links[..self.len as usize]
    }

    // The links as a list of their own, with what lies behind them.
    #[inline(always)]
    pub(crate) fn row_links(&self) -> RowLinks
        requires { IsSome self.now }
        ensures { result ≡ node_links self.now }
    {
        RowLinks::first(self.links, self.len)
    }

    // Puts the head in place of the node's.
    pub(crate) fn set_head(&mut self, head: L)
        requires { IsSome self.old }
        ensures { self.new ≡ Some (record { owners = node_owners self.old; head = head; links = node_links self.old }) }
    {
        self.head = head;
    }

    // Puts the link in place of the one at the index, which it answers.
    pub(crate) fn replace(&mut self, index: usize, link: Link) -> Link
        requires { index < length (node_links self.old) }
        ensures old { result ≡ slice_index (node_links self.old) index }
        ensures links { self.new ≡ with_links (slice_set (node_links self.old) index link) self.old }
    {
        replace_in(&mut self.links[..], self.len as usize, index, link)
    }

    // Puts the link at the index, before those that stand there and after.
    pub(crate) fn insert(&mut self, index: usize, link: Link)
        requires live { IsSome self.old }
        requires index { index ≤ length (node_links self.old) }
        requires room { length (node_links self.old) < 32 }
        ensures { self.new ≡ with_links (insert (node_links self.old) index link) self.old }
    {
        insert_in(&mut self.links[..], self.len as usize, index, link);
        self.len += 1;
    }

    // Takes the link at the index out.
    pub(crate) fn remove(&mut self, index: usize) -> Link
        requires { index < length (node_links self.old) }
        ensures old { result ≡ slice_index (node_links self.old) index }
        ensures links { self.new ≡ with_links (remove (node_links self.old) index) self.old }
    {
        let old = remove_in(&mut self.links[..], self.len as usize, index);
        self.len -= 1;
        old
    }
}
