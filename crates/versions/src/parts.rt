//! What a store is made of, for a crate that writes it down and makes it again.
ghost use Rattle.std.specs.Prelude.{◌≡◌};
ghost use Rattle.versions.specs.Roots.{HasRoots, values_in};
ghost use Rattle.versions.specs.Rooted.{IsListOf, list_at};
ghost use Rattle.versions.specs.Keyed.{IsKeySet, keys_at};
ghost use Rattle.versions.specs.Bound.{IsKeyMap, map_at};

use crate::lists::Lists;
use crate::maps::Maps;
use crate::piece::Piece;
use crate::sets::Sets;
use elem_core::Element;
use node_heap::{Heap, Link};
use slab::Slab;

impl<T: Element> Lists<T> {
    /// The heap of the store, and the roots of its versions by their numbers.
    pub fn parts(&self) -> (&Heap<T>, &Slab<Link>)
        ensures stands { HasRoots IsListOf list_at result.0.now result.1.now.slots }
        ensures same { values_in list_at result.0.now result.1.now.slots ≡ self.now }
    {
        (&self.heap, &self.roots)
    }

    /// The store of this heap, whose versions are the numbers of these roots. The heap has no other holds.
    pub fn of_parts(heap: Heap<T>, roots: Slab<Link>) -> Lists<T>
        requires { HasRoots IsListOf list_at heap roots.slots }
        ensures { result ≡ values_in list_at heap roots.slots }
    {
        Lists { heap, roots }
    }
}

impl<K: Element> Sets<K> {
    /// The heap of the store, and the roots of its versions by their numbers.
    pub fn parts(&self) -> (&Heap<K>, &Slab<Link>)
        ensures stands { HasRoots (IsKeySet K.cmp K.code_of) (keys_at K.cmp) result.0.now result.1.now.slots }
        ensures same { values_in (keys_at K.cmp) result.0.now result.1.now.slots ≡ self.now }
    {
        (&self.heap, &self.roots)
    }

    /// The store of this heap, whose versions are the numbers of these roots. The heap has no other holds.
    pub fn of_parts(heap: Heap<K>, roots: Slab<Link>) -> Sets<K>
        requires { HasRoots (IsKeySet K.cmp K.code_of) (keys_at K.cmp) heap roots.slots }
        ensures { result ≡ values_in (keys_at K.cmp) heap roots.slots }
    {
        Sets { heap, roots }
    }
}

impl<K: Element, V: Ord + Drop> Maps<K, V> {
    /// The heap of the store, and the roots of its versions by their numbers.
    pub fn parts(&self) -> (&Heap<Piece<K, V>>, &Slab<Link>)
        ensures stands { HasRoots (IsKeyMap K.cmp V.cmp K.code_of) (map_at K.cmp) result.0.now result.1.now.slots }
        ensures same { values_in (map_at K.cmp) result.0.now result.1.now.slots ≡ self.now }
    {
        (&self.heap, &self.roots)
    }

    /// The store of this heap, whose versions are the numbers of these roots. The heap has no other holds.
    pub fn of_parts(heap: Heap<Piece<K, V>>, roots: Slab<Link>) -> Maps<K, V>
        requires { HasRoots (IsKeyMap K.cmp V.cmp K.code_of) (map_at K.cmp) heap roots.slots }
        ensures { result ≡ values_in (map_at K.cmp) heap roots.slots }
    {
        Maps { heap, roots }
    }
}
