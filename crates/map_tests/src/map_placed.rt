//! Maps that are edited at their place in a row with one owner, for tests that look at values alone.
ghost use Rattle.std.specs.Prelude.{◌^◌, ◌<◌, ◌≤◌};

use crate::map_editing::{came_back, is_second};
use champ_kinds::{Map, MapRef};
use edit_trie::{insert_at, own_value_at};
use elem_core::{CODE_BITS, Element, Probe};
use node_heap::{Head, Heap, Link};
use std::alloc::Global;
use std::marker::Model;
use std::process::Abort;

/// A map at an index of a row with one owner.
pub struct PlacedMap<T: Element> {
    heap: Heap<T>,
    parent: Link,
    index: usize,
    bits: u32,
}

impl<T: Element> Model for PlacedMap<T> {
    ghost use Rattle.std.specs.Prelude.{ℕ};
    ghost use Rattle.map_tests.specs.Stands.{IsPlaced};

    ghost Value = { ℕ };

    ghost view = { λ p. p.parent };

    ghost invariant = { λ p. IsPlaced T.cmp T.code_of p.heap p.parent p.index p.bits };
}

impl<T: Element> PlacedMap<T> {
    /// The first link of a state row, beside another without keys.
    pub fn in_state(rt: &impl Abort, alloc: Global, bits: u32) -> PlacedMap<T> {
        assert!(rt; bits <= CODE_BITS);
        let mut heap: Heap<T> = Heap::new(alloc);
        let map = Map::empty(&mut heap, bits).expect(rt, "memory").into_root();
        let other = Map::empty(&mut heap, bits).expect(rt, "memory").into_root();
        heap.reserve(0, 1).expect(rt, "memory");
        let parent = heap.node(Head::State, &[map, other]);
        PlacedMap {
            heap,
            parent,
            index: 0,
            bits,
        }
    }

    /// The second link of a pair, beside a cell.
    pub fn in_pair(rt: &impl Abort, alloc: Global, bits: u32, first: T) -> PlacedMap<T> {
        assert!(rt; bits <= CODE_BITS);
        let mut heap: Heap<T> = Heap::new(alloc);
        let map = Map::empty(&mut heap, bits).expect(rt, "memory").into_root();
        heap.reserve(1, 1).expect(rt, "memory");
        let first = heap.cell(first);
        let parent = heap.node(Head::Pair, &[first, map]);
        PlacedMap {
            heap,
            parent,
            index: 1,
            bits,
        }
    }

    /// Puts a new cell of the value at the key, and tells whether the old value was this one.
    pub fn insert(&mut self, rt: &impl Abort, key: T, value: T, old: Option<T>) -> bool {
        self.heap.reserve(1, 0).expect(rt, "memory");
        let value = self.heap.cell(value);
        let heap = &mut self.heap;
        let Ok(given) = insert_at(heap, self.parent, self.index, self.bits, key, value) else {
            panic!(rt; "memory")
        };
        came_back(&mut self.heap, given, old)
    }

    /// Makes the key's pair the map's own, and tells whether its value is this one.
    pub fn own_value<P: Probe<T>>(&mut self, rt: &impl Abort, key: &P, value: Option<T>) -> bool {
        let heap = &mut self.heap;
        let made = own_value_at(heap, self.parent, self.index, self.bits, key);
        let Some(pair) = made.expect(rt, "memory") else {
            return value.is_none();
        };
        assert_eq!(rt; self.heap.owners(pair), 1);
        is_second(&self.heap, pair, value)
    }

    /// How many keys there are.
    pub fn len(&self) -> usize {
        MapRef::at(self.heap.links(self.parent)[self.index], self.bits).len(&self.heap)
    }

    /// How many rows were ever made.
    pub fn made(&self) -> u64 {
        self.heap.made()
    }

    /// Gives up the row, and tells how many rows are left.
    pub fn close(self) -> usize {
        let PlacedMap {
            mut heap,
            parent,
            index: _,
            bits: _,
        } = self;
        heap.release(parent);
        heap.live()
    }
}
