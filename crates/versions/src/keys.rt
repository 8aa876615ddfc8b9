//! The keys of a set, one by one.
ghost use Rattle.std.specs.Prelude.{List};
ghost use Rattle.std.specs.Iterator.{YieldsFirstRef, item_count};
ghost use Rattle.champ_chain.specs.Entry.{SameSet};
ghost use Rattle.versions.specs.Keyed.{IsKeySet};

use champ_kinds::{Entries, SetRef};
use elem_core::{CODE_BITS, Element};
use node_heap::{Heap, Link};
use std::marker::Model;

/// Goes over the keys of a version, in the order of the trie's walk. It takes no memory.
#[derive(Drop)]
pub struct Keys<'h, K> {
    heap: &'h Heap<K>,
    links: Entries<'h, K>,
}

impl<'h, K> Model for Keys<'h, K> {
    ghost use Rattle.std.specs.Prelude.{List, filter_map, IsSome};
    ghost use Rattle.std.specs.List.{All};
    ghost use Rattle.versions.specs.Rooted.{value_at};

    ghost Value = { List K };

    ghost view = { λ k. filter_map (value_at k.heap.now) k.links };

    ghost invariant = { λ k. All (λ l. IsSome (value_at k.heap.now l)) k.links };
}

impl<'h, K: Element> Keys<'h, K> {
    // The keys of the set with this root.
    pub(crate) fn new(heap: &'h Heap<K>, root: Link) -> Keys<'h, K>
        requires { (ks : List K) × IsKeySet K.cmp K.code_of heap.now root ks }
        ensures { (ks : List K) → IsKeySet K.cmp K.code_of heap.now root ks → SameSet result ks }
    {
        Keys {
            heap,
            links: SetRef::at(root, CODE_BITS).members(heap),
        }
    }
}

impl<'h, K> Iterator for Keys<'h, K> {
    type Item = &'h K;

    ghost next_gives = { YieldsFirstRef (λ x. x) };

    ghost remaining = { item_count (λ x. x) };

    fn next(&mut self) -> Option<&'h K> {
        let link = self.links.next()?;
        self.heap.value(link)
    }
}
