//! Reading that is counted.
ghost use Rattle.std.specs.Prelude.{◌≡◌, ◌+◌, ◌<◌, ⊤, IsSome, option_copied, option_map};
ghost use Rattle.node_heap.specs.Forms.{links_of, value_of, head_of};
ghost use Rattle.node_heap.specs.Heap.{row_at, form_at, IsGraph};
ghost use Rattle.node_heap.specs.Reads.{kind_said};

use crate::heap::Heap;
use crate::row::{Head, Kind, Link};
use std::alloc::AllocError;
use std::marker::{Brand, Model};
use std::mem::size_of;
use std::sync::ledger::{Blank, Book, Ledger, Share};

/// How many steps were taken. It takes no bytes, and a step is never taken back.
#[derive(Drop)]
pub struct Steps<L: Ledger> {
    book: Book<L>,
    share: Share<L>,
}

const _: () = prove!(size_of::<Steps<Brand>>() == 0);

impl<L: Ledger> Model for Steps<L> {
    ghost use Rattle.std.specs.Prelude.{ℕ, ◌<◌};

    ghost Value = { ℕ };

    ghost view = { λ s. s.book.total };

    ghost invariant = { λ s. 0 < s.share.parts };
}

impl<L: Ledger> Steps<L> {
    /// No steps yet, on a new ledger.
    pub fn new(blank: Blank) -> Steps<L>
        requires name { blank.name ≡ L.name }
        requires parts { blank.parts ≡ L.parts }
        requires some { 0 < L.parts }
        ensures { result ≡ 0 }
    {
        let (book, share) = blank.open();
        Steps { book, share }
    }

    /// One step more.
    pub fn tick(&mut self)
        ensures { self.new ≡ self.old + 1 }
    {
        self.book.add(&mut self.share, 1);
    }
}

/// Lends a heap for counted reading and for nothing else.
pub struct Glass<'h, T> {
    heap: &'h Heap<T>,
}

impl<'h, T> Clone for Glass<'h, T> {
    ghost is_clone = { λ x y. y ≡ x };

    ghost is_infallible = { λ _. ⊤ };

    fn clone(&self) -> Result<Glass<'h, T>, AllocError> {
        Ok(*self)
    }
}

impl<'h, T> Copy for Glass<'h, T> {}

impl<'h, T> Glass<'h, T> {
    ghost use Rattle.node_heap.specs.Glass.{lent};

    /// Lends this heap.
    pub fn new(heap: &'h Heap<T>) -> Glass<'h, T>
        ensures { lent result ≡ heap.now }
    {
        Glass { heap }
    }

    /// The value of a live link's cell, and none for a node. It takes one step.
    pub fn value<L: Ledger>(&self, link: Link, steps: &mut Steps<L>) -> Option<&'h T>
        requires { IsSome (row_at (lent self.now) link) }
        ensures value { option_copied result ≡ value_of (row_at (lent self.now) link) }
        ensures step { steps.new ≡ steps.old + 1 }
    {
        steps.tick();
        self.heap.value(link)
    }

    /// The head of a live link's node, and none for a cell. It takes one step.
    pub fn head<L: Ledger>(&self, link: Link, steps: &mut Steps<L>) -> Option<&'h Head>
        requires { IsSome (row_at (lent self.now) link) }
        ensures head { option_copied result ≡ head_of (row_at (lent self.now) link) }
        ensures step { steps.new ≡ steps.old + 1 }
    {
        steps.tick();
        self.heap.head(link)
    }

    /// What a live link's node is, without its sums, and none for a cell. It takes one step.
    pub fn kind<L: Ledger>(&self, link: Link, steps: &mut Steps<L>) -> Option<Kind>
        requires { IsSome (row_at (lent self.now) link) }
        ensures kind { option_map kind_said result ≡ head_of (form_at (lent self.now) link) }
        ensures step { steps.new ≡ steps.old + 1 }
    {
        steps.tick();
        self.heap.kind(link)
    }

    /// The links of a live link's row, at most 32. A cell has none. It takes one step.
    pub fn links<L: Ledger>(&self, link: Link, steps: &mut Steps<L>) -> &'h [Link]
        requires { IsSome (row_at (lent self.now) link) }
        ensures links { result.now ≡ links_of (row_at (lent self.now) link) }
        ensures graph { IsGraph (lent self.now) }
        ensures step { steps.new ≡ steps.old + 1 }
    {
        steps.tick();
        self.heap.links(link)
    }
}
