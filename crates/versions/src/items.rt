//! The elements of a version, one by one.
ghost use Rattle.std.specs.Prelude.{◌≡◌, List};
ghost use Rattle.std.specs.Iterator.{YieldsFirstRef, item_count};
ghost use Rattle.versions.specs.Rooted.{IsListOf};

use node_heap::Heap;
use rrb_core::{FlexRef, Lines};
use std::marker::Model;

/// Goes over the elements of a version, in order. It takes no memory.
#[derive(Drop)]
pub struct Items<'h, T> {
    heap: &'h Heap<T>,
    links: Lines<'h, T>,
}

impl<'h, T> Model for Items<'h, T> {
    ghost use Rattle.std.specs.Prelude.{List, filter_map, IsSome};
    ghost use Rattle.std.specs.List.{All};
    ghost use Rattle.versions.specs.Rooted.{value_at};

    ghost Value = { List T };

    ghost view = { λ i. filter_map (value_at i.heap.now) i.links };

    ghost invariant = { λ i. All (λ l. IsSome (value_at i.heap.now l)) i.links };
}

impl<'h, T> Items<'h, T> {
    // The elements of the list with this root.
    pub(crate) fn new(heap: &'h Heap<T>, vector: FlexRef) -> Items<'h, T>
        requires { (xs : List T) × IsListOf heap.now vector xs }
        ensures { (xs : List T) → IsListOf heap.now vector xs → result ≡ xs }
    {
        Items {
            heap,
            links: vector.lines(heap, 0, vector.len(heap)),
        }
    }
}

impl<'h, T> Iterator for Items<'h, T> {
    type Item = &'h T;

    ghost next_gives = { YieldsFirstRef (λ x. x) };

    ghost remaining = { item_count (λ x. x) };

    fn next(&mut self) -> Option<&'h T> {
        let link = self.links.next()?;
        self.heap.value(link)
    }
}
