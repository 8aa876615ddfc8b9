//! Where a key belongs in a chain.
ghost use Rattle.std.specs.Prelude.{◌≡◌, List, Some};
ghost use Rattle.node_heap.specs.Heap.{form_at, IsGraph};
ghost use Rattle.champ_chain.specs.Entry.{Entry};
ghost use Rattle.champ_chain.specs.Chain.{AreChainRows, IsRising};
ghost use Rattle.champ_chain.specs.KeySpot.{IsKeySpot};

use crate::rows::{key_of, row_of};
use elem_core::{Element, Probe};
use node_heap::{Heap, Link};
use std::cmp::Ordering;

/// The place of a key in a chain.
#[derive(Clone, Copy)]
pub struct KeySpot {
    /// How many entries come before it.
    pub before: usize,
    /// The key's own entry, None where the key is absent.
    pub found: Option<Link>,
    /// The first row after it, None where its place is the last.
    pub rest: Option<Link>,
}

/// Where the key belongs in the chain.
pub fn key_spot_of<T: Element, P: Probe<T>>(heap: &Heap<T>, chain: Link, key: &P) -> KeySpot
    requires { (es : List (Entry T)) × AreChainRows (form_at heap.now) (Some chain) es × IsRising T.cmp es }
    ensures graph { IsGraph heap.now }
    ensures spot { (es : List (Entry T)) → AreChainRows (form_at heap.now) (Some chain) es → IsRising T.cmp es →
        IsKeySpot T.cmp (form_at heap.now) es (P.stands_for key.now) result }
{
    let mut link = chain;
    // A chain has no more rows than the heap.
    for before in 0..heap.live() {
        let row = row_of(heap, link);
        match key.order(key_of(heap, row.entry)) {
            Ordering::Less => {
                return KeySpot {
                    before,
                    found: None,
                    rest: Some(link),
                };
            }
            Ordering::Equal => {
                return KeySpot {
                    before,
                    found: Some(row.entry),
                    rest: row.next,
                };
            }
            Ordering::Greater => match row.next {
                Some(next) => link = next,
                None => {
                    return KeySpot {
                        before: before + 1,
                        found: None,
                        rest: None,
                    };
                }
            },
        }
    }
    unreachable!()
}
