//! The entries of a map, one by one.
ghost use Rattle.std.specs.Prelude.{◌≡◌, List, Some, IsSome};
ghost use Rattle.std.specs.Iterator.{YieldsFirstBy, item_count};
ghost use Rattle.champ_chain.specs.Entry.{SameSet};
ghost use Rattle.versions.specs.Bound.{IsKeyMap};
ghost use Rattle.versions.specs.Pieces.{entry_at};

use crate::piece::Piece;
use champ_kinds::{Entries as Pairs, MapRef};
use elem_core::{CODE_BITS, Element};
use node_heap::{Heap, Link};
use std::marker::Model;

/// Goes over the keys of a version with their values, in the order of the trie's walk. It takes no memory.
#[derive(Drop)]
pub struct Entries<'h, K, V> {
    heap: &'h Heap<Piece<K, V>>,
    pairs: Pairs<'h, Piece<K, V>>,
}

impl<'h, K, V> Model for Entries<'h, K, V> {
    ghost use Rattle.std.specs.Prelude.{List, filter_map, IsSome};
    ghost use Rattle.std.specs.List.{All};
    ghost use Rattle.versions.specs.Pieces.{entry_at};

    ghost Value = { List (K × V) };

    ghost view = { λ e. filter_map (entry_at e.heap.now) e.pairs };

    ghost invariant = { λ e. All (λ l. IsSome (entry_at e.heap.now l)) e.pairs };
}

impl<'h, K: Element, V: Ord + Drop> Entries<'h, K, V> {
    // The entries of the map with this root.
    pub(crate) fn new(heap: &'h Heap<Piece<K, V>>, root: Link) -> Entries<'h, K, V>
        requires { (es : List (K × V)) × IsKeyMap K.cmp V.cmp K.code_of heap.now root es }
        ensures { (es : List (K × V)) → IsKeyMap K.cmp V.cmp K.code_of heap.now root es → SameSet result es }
    {
        Entries {
            heap,
            pairs: MapRef::at(root, CODE_BITS).entries(heap),
        }
    }
}

impl<'h, K, V> Iterator for Entries<'h, K, V> {
    type Item = (&'h K, &'h V);

    ghost next_gives = { YieldsFirstBy (λ e. (e.0.now, e.1.now)) (λ x. x) };

    ghost remaining = { item_count (λ x. x) };

    fn next(&mut self) -> Option<(&'h K, &'h V)> {
        let pair = self.pairs.next()?;
        Some(entry_of(self.heap, pair))
    }
}

// The key and the value that a pair's cells hold.
fn entry_of<'h, K, V>(heap: &'h Heap<Piece<K, V>>, pair: Link) -> (&'h K, &'h V)
    requires { IsSome (entry_at heap.now pair) }
    ensures { entry_at heap.now pair ≡ Some (result.0.now, result.1.now) }
{
    let links = heap.links(pair);
    match (heap.value(links[0]), heap.value(links[1])) {
        (Some(Piece::Key(key)), Some(Piece::Value(value))) => (key, value),
        _ => unreachable!(),
    }
}
