//! The elements of a part of a vector, one by one.
ghost use Rattle.std.specs.Prelude.{◌≡◌, ◌-◌, ◌<◌, ◌≤◌, length, take, drop};
ghost use Rattle.std.specs.Iterator.{YieldsFirst, item_count};
ghost use Rattle.rrb_core.specs.Vector.{elements, IsGoodVector};

use crate::flex::FlexRef;
use crate::search::leaf_from;
use node_heap::{Heap, Link};
use std::marker::Model;

/// Goes over the links of a part of a vector, in order. It takes no memory. A leaf is looked up from the root only where
/// the one before it is done; every leaf but the last has 16 elements or more, and the height is at most 7, so an element
/// takes constant time on average.
pub struct Lines<'h, T> {
    heap: &'h Heap<T>,
    root: Link,
    // The index of the next element, and of the first after the part.
    next: u32,
    end: u32,
    // The elements from `next` on, as far as they stand in one leaf that was looked up.
    leaf: &'h [Link],
}

impl<'h, T> Model for Lines<'h, T> {
    ghost use Rattle.std.specs.Prelude.{ℕ, List};

    ghost Value = { List ℕ };

    ghost use Rattle.std.specs.Prelude.{◌≡◌, ◌-◌, ◌≤◌, length, take, drop};
    ghost use Rattle.rrb_core.specs.Vector.{elements, IsGoodVector};

    ghost view = { λ l. take (l.end - l.next) (drop l.next (elements l.heap.now l.root)) };

    ghost invariant = { λ l. IsGoodVector l.heap.now l.root
        × (l.next ≤ l.end)
        × (l.end ≤ length (elements l.heap.now l.root))
        × (l.leaf.now ≡ take (length l.leaf.now) (drop l.next (elements l.heap.now l.root))) };
}

impl<T> Drop for Lines<'_, T> {
    fn drop(self) {
        let Lines {
            heap: _,
            root: _,
            next: _,
            end: _,
            leaf: _,
        } = self;
    }
}

impl FlexRef {
    /// The links from the index `from` to the one before `to`, in order. `from` is at most `to`, and `to` at most the
    /// length.
    pub fn lines<'h, T>(&self, heap: &'h Heap<T>, from: u32, to: u32) -> Lines<'h, T>
        requires good { IsGoodVector heap.now self.now }
        requires order { from ≤ to }
        requires within { to ≤ length (elements heap.now self.now) }
        ensures { result ≡ take (to - from) (drop from (elements heap.now self.now)) }
    {
        Lines {
            heap,
            root: self.root(),
            next: from,
            end: to,
            leaf: &[],
        }
    }
}

impl<T> Iterator for Lines<'_, T> {
    type Item = Link;

    ghost next_gives = { YieldsFirst (λ l. l) };

    ghost remaining = { item_count (λ l. l) };

    fn next(&mut self) -> Option<Link> {
        if self.next == self.end {
            return None;
        }
        let leaf = leaf_rest(self.heap, self.root, self.next, self.leaf);
        let first = leaf[0];
        self.leaf = &leaf[1..];
        self.next += 1;
        Some(first)
    }
}

// The elements from `index` on, as far as they stand in one leaf: those given or, where there are none, the next leaf's.
fn leaf_rest<'h, T>(heap: &'h Heap<T>, root: Link, index: u32, leaf: &'h [Link]) -> &'h [Link]
    requires good { IsGoodVector heap.now root }
    requires inside { index < length (elements heap.now root) }
    requires front { leaf.now ≡ take (length leaf.now) (drop index (elements heap.now root)) }
    ensures some { 1 ≤ length result.now }
    ensures front { result.now ≡ take (length result.now) (drop index (elements heap.now root)) }
{
    if leaf.is_empty() {
        return leaf_from(heap, root, index);
    }
    leaf
}
