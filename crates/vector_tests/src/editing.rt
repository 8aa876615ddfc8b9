//! Vectors of numbers that are edited in place, for tests that look at values alone: their calls ask for nothing and promise
//! nothing, so a test of them has nothing to prove.
ghost use Rattle.std.specs.Prelude.{◌≡◌, ℕ, ◌+◌, ◌<◌};
ghost use Rattle.node_heap.specs.Heap.{holds_at, hold_count, one_at, program_holds};
ghost use Rattle.rrb_core.specs.Vector.{IsGoodVector};
ghost use Rattle.vector_tests.specs.Stands.{KeepsVectors};

use crate::samples::{counts_from, number_at, number_in};
use crate::sums::{roots_are_alike, vector_has_sums};
use edit_vec::{FlexEdit, OpenFault, push_at, set_at};
use elem_core::Num;
use node_heap::{Head, Heap, Link};
use rrb_core::{Flex, FlexRef};
use rrb_join::concat;
use std::alloc::Global;
use std::marker::Model;
use std::mem;
use std::process::Abort;

/// A vector that is edited beside one that is kept, and cells that are to come into it.
pub struct Editing {
    heap: Heap<Num>,
    vector: FlexEdit,
    kept: Flex,
    cells: Vec<Link>,
}

impl Model for Editing {
    ghost use Rattle.std.specs.Prelude.{ℕ, vec_len};
    ghost use Rattle.vector_tests.specs.Stands.{IsEditing};

    ghost Value = { ℕ };

    ghost view = { λ e. vec_len e.cells };

    ghost invariant = { λ e. IsEditing e.heap e.vector e.kept e.cells.items };
}

// A vector that is opened for edits.
fn opened(rt: &impl Abort, vector: Flex, heap: &mut Heap<Num>) -> FlexEdit
    requires good { IsGoodVector heap.old vector }
    requires held { 0 < holds_at heap.old vector }
    requires few { hold_count heap.old < program_holds }
    ensures good { IsGoodVector heap.new result }
    ensures others { KeepsVectors heap.old heap.new }
    ensures holds { (k : ℕ) → holds_at heap.new k + one_at vector k ≡ holds_at heap.old k + one_at result k }
    ensures count { hold_count heap.new ≡ hold_count heap.old }
{
    match FlexEdit::open(vector, heap) {
        Ok(vector) => vector,
        Err(OpenFault { vector }) => {
            // A vector can't be dropped, but its link can.
            let _ = vector.into_root();
            panic!(rt; "memory")
        }
    }
}

impl Editing {
    /// Two vectors without elements.
    pub fn start(rt: &impl Abort, alloc: Global) -> Editing {
        let mut heap: Heap<Num> = Heap::new(alloc);
        let vector = Flex::empty(&mut heap).expect(rt, "memory");
        let kept = Flex::empty(&mut heap).expect(rt, "memory");
        let vector = opened(rt, vector, &mut heap);
        let cells = Vec::new(alloc);
        Editing {
            heap,
            vector,
            kept,
            cells,
        }
    }

    /// Makes a cell of this number, for the next call.
    pub fn add_cell(&mut self, rt: &impl Abort, number: u32) {
        assert!(rt; self.cells.len() < 1 << 40);
        self.heap.reserve(1, 0).expect(rt, "memory");
        let cell = self.heap.cell(Num(number));
        self.cells.push(cell).expect(rt, "memory");
    }

    /// Puts the cell that was made last after the last element.
    pub fn push(&mut self, rt: &impl Abort) {
        assert!(rt; self.cells.len() < 1 << 40);
        let cell = self.cells.pop().expect(rt, "a cell");
        self.vector.push(&mut self.heap, cell).expect(rt, "memory");
    }

    /// Puts the cell that was made last at the index, and gives the number that stood there.
    pub fn set(&mut self, rt: &impl Abort, index: u32) -> Option<u32> {
        assert!(rt; self.cells.len() < 1 << 40);
        let cell = self.cells.pop().expect(rt, "a cell");
        let given = self.vector.set(&mut self.heap, index, cell);
        let given = given.expect(rt, "an element at the index");
        let number = number_in(&self.heap, given);
        self.heap.release(given);
        number
    }

    /// Takes the last element out, and gives its number.
    pub fn pop(&mut self, rt: &impl Abort) -> Option<u32> {
        assert!(rt; self.cells.len() < 1 << 40);
        let given = self.vector.pop(&mut self.heap).expect(rt, "memory")?;
        let number = number_in(&self.heap, given);
        self.heap.release(given);
        number
    }

    /// Keeps the vector as it is now, in place of the one that was kept before.
    pub fn keep(&mut self, rt: &impl Abort) {
        assert!(rt; self.cells.len() < 1 << 40);
        let shared = self.vector.view().share(&mut self.heap);
        mem::replace(&mut self.kept, shared).release(&mut self.heap);
    }

    /// The same, with the vector frozen and opened again.
    pub fn reopened(self, rt: &impl Abort) -> Editing {
        let Editing {
            mut heap,
            vector,
            kept,
            cells,
        } = self;
        assert!(rt; cells.len() < 1 << 40);
        let vector = opened(rt, vector.freeze(), &mut heap);
        Editing {
            heap,
            vector,
            kept,
            cells,
        }
    }

    /// The same, with the vector joined to itself and opened again.
    pub fn doubled(self, rt: &impl Abort) -> Editing {
        let Editing {
            mut heap,
            vector,
            kept,
            cells,
        } = self;
        assert!(rt; cells.len() < 1 << 40);
        let once = vector.freeze();
        let twice = concat(&mut heap, once.view(), once.view()).expect(rt, "memory");
        once.release(&mut heap);
        let vector = opened(rt, twice, &mut heap);
        Editing {
            heap,
            vector,
            kept,
            cells,
        }
    }

    /// Gives up both vectors, and tells how many rows are left.
    pub fn close(self) -> usize {
        let Editing {
            mut heap,
            vector,
            kept,
            cells: _cells,
        } = self;
        vector.freeze().release(&mut heap);
        kept.release(&mut heap);
        heap.live()
    }

    /// How many elements there are.
    pub fn len(&self) -> u32 {
        self.vector.view().len(&self.heap)
    }

    /// The height of the vector.
    pub fn height(&self) -> u8 {
        self.vector.view().height(&self.heap)
    }

    /// Whether its root keeps sums.
    pub fn has_sums(&self) -> bool {
        vector_has_sums(&self.heap, self.vector.view().root())
    }

    /// Whether its root is another row than the kept one's, with the same sums and the same links.
    pub fn has_copied_root(&self) -> bool {
        let root = self.vector.view().root();
        roots_are_alike(&self.heap, root, self.kept.view().root())
    }

    /// Its number at the index.
    pub fn number(&self, index: u32) -> Option<u32> {
        number_at(&self.heap, self.vector.view().root(), index)
    }

    /// Whether it has so many numbers from this one on, in order and no more.
    pub fn counts_from(&self, from: u32, len: u32) -> bool {
        counts_from(&self.heap, self.vector.view().root(), from, len)
    }

    /// The same of the kept one.
    pub fn kept_counts_from(&self, from: u32, len: u32) -> bool {
        counts_from(&self.heap, self.kept.view().root(), from, len)
    }

    /// How many rows were ever made.
    pub fn made(&self) -> u64 {
        self.heap.made()
    }
}

/// A vector that is the second link of a pair.
pub struct Placed {
    heap: Heap<Num>,
    pair: Link,
}

impl Model for Placed {
    ghost use Rattle.std.specs.Prelude.{ℕ};
    ghost use Rattle.vector_tests.specs.Stands.{IsPlaced};

    ghost Value = { ℕ };

    ghost view = { λ p. p.pair };

    ghost invariant = { λ p. IsPlaced p.heap p.pair };
}

impl Placed {
    /// A pair of a number and a vector without elements.
    pub fn start(rt: &impl Abort, alloc: Global) -> Placed {
        let mut heap: Heap<Num> = Heap::new(alloc);
        let vector = Flex::empty(&mut heap).expect(rt, "memory").into_root();
        heap.reserve(1, 1).expect(rt, "memory");
        let first = heap.cell(Num(99));
        let pair = heap.node(Head::Pair, &[first, vector]);
        Placed { heap, pair }
    }

    /// Puts the number after the last.
    pub fn push(&mut self, rt: &impl Abort, number: u32) {
        self.heap.reserve(1, 0).expect(rt, "memory");
        let cell = self.heap.cell(Num(number));
        push_at(&mut self.heap, self.pair, 1, cell).expect(rt, "memory");
    }

    /// Puts the number at the index, and gives the one that stood there.
    pub fn set(&mut self, rt: &impl Abort, index: u32, number: u32) -> Option<u32> {
        self.heap.reserve(1, 0).expect(rt, "memory");
        let cell = self.heap.cell(Num(number));
        let given = set_at(&mut self.heap, self.pair, 1, index, cell);
        let given = given.expect(rt, "an element at the index");
        let number = number_in(&self.heap, given);
        self.heap.release(given);
        number
    }

    /// The number beside the vector.
    pub fn first(&self) -> Option<u32> {
        let first = self.heap.links(self.pair).first()?;
        number_in(&self.heap, *first)
    }

    /// How many elements there are.
    pub fn len(&self) -> u32 {
        FlexRef::at(self.heap.links(self.pair)[1]).len(&self.heap)
    }

    /// The number at the index.
    pub fn number(&self, index: u32) -> Option<u32> {
        number_at(&self.heap, self.heap.links(self.pair)[1], index)
    }

    /// Gives up the pair, and tells how many rows are left.
    pub fn close(self) -> usize {
        let Placed { mut heap, pair } = self;
        heap.release(pair);
        heap.live()
    }
}
