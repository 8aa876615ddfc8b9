//! Runs of entries in rising order: none, one alone, or the rows of a chain.
ghost use Rattle.std.specs.Prelude.{◌≡◌, ◌≢◌, ℕ, ◌+◌, ◌-◌, ◌<◌, ◌≤◌, List, [], ◌∷◌, length, take, drop, Some};
ghost use Rattle.std.specs.List.{All};
ghost use Rattle.std.specs.declared.cmp.Ordering.TheVariants.{Less, Greater};
ghost use Rattle.node_heap.specs.Heap.{form_at, IsGraph, row_limit};
ghost use Rattle.champ_chain.specs.Entry.{Entry, key_at};
ghost use Rattle.champ_chain.specs.Chain.{AreBelow};
ghost use Rattle.set_merge.specs.Need.{run_rows, not_among};
ghost use Rattle.set_merge.specs.Chains.{IsRest, waiting};
ghost use Rattle.set_merge.specs.Walk.{IsRun, IsRisingRun};
ghost use Rattle.set_merge.specs.declared.merged.Merged.TheVariants.{Old};

use crate::merged::is_same;
use champ_chain::{key_of, row_of};
use champ_trie::Place;
use elem_core::Element;
use node_heap::{Heap, Link};
use std::cmp::Ordering;

// The first entry of a run, and the run of the others.
#[derive(Clone, Copy)]
pub(crate) struct Front {
    pub(crate) entry: Link,
    pub(crate) rest: Place,
}

// The first of a run of some entries.
pub(crate) fn front_of<T>(heap: &Heap<T>, run: &Place) -> Front
    requires { (e : Entry T) × (es : List (Entry T)) × IsRun (form_at heap.now) run.now (e ∷ es) }
    ensures front { (e : Entry T) (es : List (Entry T)) → IsRun (form_at heap.now) run.now (e ∷ es) → (result.entry ≡ e.link) × IsRun (form_at heap.now) result.rest es }
    ensures next { IsRest (form_at heap.now) run.now result.rest }
{
    match *run {
        Place::Node(link) => {
            let row = row_of(heap, link);
            let rest = match row.next {
                Some(next) => Place::Node(next),
                None => Place::Empty,
            };
            Front {
                entry: row.entry,
                rest,
            }
        }
        Place::Entry(entry) => Front {
            entry,
            rest: Place::Empty,
        },
        Place::Empty => unreachable!(),
    }
}

// How many entries two runs have before the rows that they share, and the run of those.
#[derive(Clone, Copy)]
pub(crate) struct Meeting {
    pub(crate) first: usize,
    pub(crate) second: usize,
    pub(crate) shared: Place,
}

// Where two runs come together: at the first row that both have, or at the end of both.
pub(crate) fn meeting_of<T: Element>(heap: &Heap<T>, a: &Place, b: &Place) -> Meeting
    requires first { (es : List (Entry T)) × IsRisingRun (form_at heap.now) T.cmp a.now es }
    requires second { (ds : List (Entry T)) × IsRisingRun (form_at heap.now) T.cmp b.now ds }
    ensures meeting { (es ds : List (Entry T)) → IsRisingRun (form_at heap.now) T.cmp a.now es → IsRisingRun (form_at heap.now) T.cmp b.now ds →
        (result.first ≤ length es) × (result.second ≤ length ds) × IsRun (form_at heap.now) result.shared (drop result.first es) × (drop result.first es ≡ drop result.second ds) }
    ensures first { result.first ≡ length (not_among (run_rows row_limit (form_at heap.now) a.now) (run_rows row_limit (form_at heap.now) b.now)) }
    ensures second { result.second ≡ length (not_among (run_rows row_limit (form_at heap.now) b.now) (run_rows row_limit (form_at heap.now) a.now)) }
    ensures few { (result.first < row_limit) × (result.second < row_limit) }
    ensures rows { 0 < result.first + result.second → waiting (Old result.shared) ≡ 0 }
{
    heap.rows_form_a_graph();
    let mut left = *a;
    let mut right = *b;
    let mut first = 0;
    let mut second = 0;
    while !is_same(&left, &right) {
        match order_of_fronts(heap, &left, &right) {
            Ordering::Less => {
                left = front_of(heap, &left).rest;
                first += 1;
            }
            Ordering::Equal => {
                left = front_of(heap, &left).rest;
                right = front_of(heap, &right).rest;
                first += 1;
                second += 1;
            }
            Ordering::Greater => {
                right = front_of(heap, &right).rest;
                second += 1;
            }
        }
    }
    Meeting {
        first,
        second,
        shared: left,
    }
}

// How the first keys of two runs stand to one another, where the end comes after all keys. One of them has entries.
fn order_of_fronts<T: Element>(heap: &Heap<T>, a: &Place, b: &Place) -> Ordering
    requires first { (es : List (Entry T)) × IsRun (form_at heap.now) a.now es }
    requires second { (ds : List (Entry T)) × IsRun (form_at heap.now) b.now ds }
    ensures both { (e d : Entry T) (es ds : List (Entry T)) → IsRun (form_at heap.now) a.now (e ∷ es) → IsRun (form_at heap.now) b.now (d ∷ ds) → result ≡ T.cmp e.key d.key }
    ensures first { (e : Entry T) (es : List (Entry T)) → IsRun (form_at heap.now) a.now (e ∷ es) → IsRun (form_at heap.now) b.now [] → result ≡ Less }
    ensures second { (d : Entry T) (ds : List (Entry T)) → IsRun (form_at heap.now) a.now [] → IsRun (form_at heap.now) b.now (d ∷ ds) → result ≡ Greater }
{
    if is_same(a, &Place::Empty) {
        return Ordering::Greater;
    }
    if is_same(b, &Place::Empty) {
        return Ordering::Less;
    }
    let first = front_of(heap, a).entry;
    let second = front_of(heap, b).entry;
    key_of(heap, first).cmp(key_of(heap, second))
}

// The run after so many entries.
pub(crate) fn run_after<T>(heap: &Heap<T>, run: &Place, number: usize) -> Place
    requires { (es : List (Entry T)) × IsRun (form_at heap.now) run.now es × (number ≤ length es) }
    ensures { (es : List (Entry T)) → IsRun (form_at heap.now) run.now es → number ≤ length es → IsRun (form_at heap.now) result (drop number es) }
{
    let mut left = *run;
    for _passed in 0..number {
        left = front_of(heap, &left).rest;
    }
    left
}

// How many of the first entries of a run, so many, have smaller keys than this entry.
pub(crate) fn smaller_in<T: Element>(
    heap: &Heap<T>,
    run: &Place,
    number: usize,
    entry: Link,
) -> usize
    requires run { (es : List (Entry T)) × IsRisingRun (form_at heap.now) T.cmp run.now es × (number ≤ length es) }
    requires key { (k : T) × (key_at (form_at heap.now) entry ≡ Some k) }
    ensures few { result ≤ number }
    ensures smaller { (es : List (Entry T)) (k : T) → IsRisingRun (form_at heap.now) T.cmp run.now es → key_at (form_at heap.now) entry ≡ Some k →
        AreBelow T.cmp k (take result es) × All (λ e. T.cmp e.key k ≢ Less) (take (number - result) (drop result es)) }
{
    let mut left = *run;
    for passed in 0..number {
        let front = front_of(heap, &left);
        if key_of(heap, front.entry).cmp(key_of(heap, entry)) != Ordering::Less {
            return passed;
        }
        left = front.rest;
    }
    number
}
