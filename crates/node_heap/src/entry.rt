//! The links of a row.
ghost use Rattle.std.specs.Prelude.{◌<◌, [], length, take, ◌≡◌, ◌+◌, ◌-◌, ◌≤◌, slice_set, slice_index, insert, remove, IfSome};
ghost use Rattle.node_heap.specs.Links.{without, with_link};
ghost use Rattle.node_heap.specs.Pairs.{only};

use crate::row::Link;
use std::marker::Model;

// Of the items so many count, and those behind them are given up, where nothing reads them.

// Puts the link in place of the one at the index, which it answers.
#[inline]
pub(crate) fn replace_in(items: &mut [Link], len: usize, index: usize, link: Link) -> Link
    requires index { index < len }
    requires inside { len ≤ length items.old }
    ensures links { take len items.new ≡ slice_set (take len items.old) index link }
    ensures size { length items.new ≡ length items.old }
    ensures old { result ≡ slice_index (take len items.old) index }
{
    let old = items[index];
    items[index] = link;
    old
}

// Puts the link at the index, before those that stand there and after.
#[inline]
pub(crate) fn insert_in(items: &mut [Link], len: usize, index: usize, link: Link)
    requires index { index ≤ len }
    requires room { len < length items.old }
    ensures links { take (len + 1) items.new ≡ insert (take len items.old) index link }
    ensures size { length items.new ≡ length items.old }
{
    items[len] = link;
    items[index..len + 1].rotate_right(1);
}

// Takes the link at the index out.
#[inline]
pub(crate) fn remove_in(items: &mut [Link], len: usize, index: usize) -> Link
    requires index { index < len }
    requires inside { len ≤ length items.old }
    ensures links { take (len - 1) items.new ≡ remove (take len items.old) index }
    ensures size { length items.new ≡ length items.old }
    ensures old { result ≡ slice_index (take len items.old) index }
{
    let old = items[index];
    items[index..len].rotate_left(1);
    old
}

/// The links of a row, at most 32.
#[derive(Drop)]
pub struct RowLinks {
    // How many of the items count.
    len: usize,
    items: [Link; 32],
}

impl Model for RowLinks {
    ghost use Rattle.std.specs.Prelude.{ℕ, List, ◌≤◌, take};

    ghost Value = { List ℕ };

    ghost view = { λ l. take l.len l.items };

    ghost invariant = { λ l. l.len ≤ 32 };
}

impl RowLinks {
    /// No links.
    #[inline(always)]
    pub fn new() -> RowLinks
        ensures { result ≡ [] }
    {
        RowLinks {
            len: 0,
            items: [Link::default(); 32],
        }
    }

    // The first so many of these, at most 32.
    #[inline(always)]
    pub(crate) fn first(items: [Link; 32], len: u8) -> RowLinks
        requires { len ≤ 32 }
        ensures { result ≡ take len items }
    {
        RowLinks {
            len: len as usize,
            items,
        }
    }

    // These links, at most 32.
    pub(crate) fn from_slice(links: &[Link]) -> RowLinks
        requires { length links.now ≤ 32 }
        ensures { result ≡ links.now }
    {
        let mut kept = RowLinks::new();
        kept.rewrite(links);
        kept
    }

    // How many there are, and what they lie in, of which they are the first.
    #[inline(always)]
    pub(crate) fn parts(&self) -> (u8, [Link; 32])
        ensures short { result.0 ≤ 32 }
        ensures first { take result.0 result.1 ≡ self.now }
    {
        (self.len as u8, self.items)
    }

    /// The links in order.
    #[inline(always)]
    pub fn as_slice(&self) -> &[Link]
        ensures value { result.now ≡ self.now }
        ensures short { length result.now ≤ 32 }
    {
        &self.items[..self.len]
    }

    // Gives up all links.
    #[inline(always)]
    pub(crate) fn clear(&mut self)
        ensures { self.new ≡ [] }
    {
        self.len = 0;
    }

    // Puts the one at the index of these links in place of all, if any.
    #[inline(always)]
    pub(crate) fn copy_one(&mut self, links: &[Link], index: Option<usize>)
        requires { IfSome index (λ i. i < length links.now) }
        ensures { self.new ≡ only index links.now }
    {
        match index {
            None => self.len = 0,
            Some(index) => {
                self.items[0] = links[index];
                self.len = 1;
            }
        }
    }

    // Takes the link at the index out, if any.
    #[inline(always)]
    pub(crate) fn take_out(&mut self, index: Option<usize>)
        requires { IfSome index (λ i. i < length self.old) }
        ensures { self.new ≡ without index self.old }
    {
        match index {
            None => {}
            Some(index) => {
                let _ = self.remove(index);
            }
        }
    }

    // Puts the link at its index, if any.
    #[inline(always)]
    pub(crate) fn put_in(&mut self, came: &Option<(usize, Link)>)
        requires index { IfSome came.now (λ c. c.0 ≤ length self.old) }
        requires room { IfSome came.now (λ _. length self.old < 32) }
        ensures { self.new ≡ with_link came.now self.old }
    {
        match came {
            None => {}
            Some(came) => self.insert(came.0, came.1),
        }
    }

    // Puts the link in place of the one at the index.
    #[inline(always)]
    pub(crate) fn replace(&mut self, index: usize, link: Link)
        requires { index < length self.old }
        ensures { self.new ≡ slice_set self.old index link }
    {
        let _ = replace_in(&mut self.items[..], self.len, index, link);
    }

    /// Puts these links, at most 32, in place of all.
    #[inline(always)]
    pub fn rewrite(&mut self, links: &[Link])
        requires { length links.now ≤ 32 }
        ensures { self.new ≡ links.now }
    {
        self.items[..links.len()].copy_from_slice(links);
        self.len = links.len();
    }

    /// Puts the link at the index, before those that stand there and after.
    #[inline]
    pub fn insert(&mut self, index: usize, link: Link)
        requires index { index ≤ length self.old }
        requires room { length self.old < 32 }
        ensures { self.new ≡ insert self.old index link }
    {
        insert_in(&mut self.items[..], self.len, index, link);
        self.len += 1;
    }

    /// Takes the link at the index out.
    #[inline]
    pub fn remove(&mut self, index: usize) -> Link
        requires { index < length self.old }
        ensures old { result ≡ slice_index self.old index }
        ensures links { self.new ≡ remove self.old index }
    {
        let old = remove_in(&mut self.items[..], self.len, index);
        self.len -= 1;
        old
    }
}
