//! The walk over a trie's entries.
ghost use Rattle.std.specs.Prelude.{◌≡◌, ℕ, ◌+◌, ◌<◌, ◌≤◌, ◌∷◌, [], length, map, MatchOption};
ghost use Rattle.std.specs.Iterator.{YieldsFirst, item_count};
ghost use Rattle.node_heap.specs.Heap.{form_at, IsGraph};
ghost use Rattle.champ_trie.specs.Walk.{entry_count, own_entries, rows_below, walk};
ghost use Rattle.champ_trie.specs.Stack.{IsWalkRow, IsLayer, IsStack, stacked, next_first, rows_on};

use arrayvec::ArrayVec;
use elem_core::LEVELS;
use node_heap::{Heap, Kind, Link};
use std::marker::Model;

// How many lists of rows wait at most: those below a trie row of each depth, and the rest of a chain.
const LAYERS: usize = LEVELS as usize + 1;

/// The links of a trie's entries: those of each row by rising position, and after them those below its nodes in turn. It
/// takes no memory.
pub struct Entries<'h, T> {
    heap: &'h Heap<T>,
    // The entries that are still to come of the row that the walk has come to.
    own: &'h [Link],
    // The rows that are still to be walked, the next ones last.
    rows: ArrayVec<&'h [Link], LAYERS>,
}

impl<'h, T> Model for Entries<'h, T> {
    ghost use Rattle.std.specs.Prelude.{ℕ, List};

    ghost Value = { List ℕ };

    ghost use Rattle.std.specs.Prelude.{map, ◌+◌};
    ghost use Rattle.elem_core.specs.declared.codes.TheConstants.{LEVELS};
    ghost use Rattle.node_heap.specs.Heap.{form_at};
    ghost use Rattle.champ_trie.specs.Stack.{walk_left, IsStack};

    ghost view = { λ e. walk_left e.heap.now e.own.now (map (λ r. r.now) e.rows.items) };

    ghost invariant = { λ e. IsStack (form_at e.heap.now) (LEVELS + 1) (map (λ r. r.now) e.rows.items) };
}

impl<T> Drop for Entries<'_, T> {
    fn drop(self) {
        let Entries {
            heap: _,
            own: _,
            rows: _,
        } = self;
    }
}

impl<'h, T> Entries<'h, T> {
    // The walk from a root on.
    pub(crate) fn over(heap: &'h Heap<T>, root: Link) -> Entries<'h, T>
        requires row { IsWalkRow (form_at heap.now root) }
        requires below { IsLayer (form_at heap.now) LEVELS (rows_below (form_at heap.now root)) }
        ensures graph { IsGraph heap.now }
        ensures walk { result ≡ walk heap.now root }
    {
        let (own, below) = parts_of(heap, root);
        let mut rows = ArrayVec::new();
        push_some(&mut rows, below);
        Entries { heap, own, rows }
    }
}

impl<'h, T> Iterator for Entries<'h, T> {
    type Item = Link;

    ghost next_gives = { YieldsFirst (λ e. e) };

    ghost remaining = { item_count (λ e. e) };

    fn next(&mut self) -> Option<Link> {
        while self.own.is_empty() {
            self.own = next_row(self.heap, &mut self.rows)?;
        }
        let (first, others) = self.own.split_first()?;
        self.own = others;
        Some(*first)
    }
}

// The entries of a trie row or a chain row, and the rows below it.
fn parts_of<'h, T>(heap: &'h Heap<T>, row: Link) -> (&'h [Link], &'h [Link])
    requires { IsWalkRow (form_at heap.now row) }
    ensures graph { IsGraph heap.now }
    ensures own { result.0.now ≡ own_entries (form_at heap.now row) }
    ensures below { result.1.now ≡ rows_below (form_at heap.now row) }
{
    heap.links(row).split_at(entries_in(heap, row))
}

// How many links of a trie row or a chain row are entries.
fn entries_in<T>(heap: &Heap<T>, row: Link) -> usize
    requires { IsWalkRow (form_at heap.now row) }
    ensures { result ≡ entry_count (form_at heap.now row) }
{
    match heap.kind(row) {
        Some(Kind::Trie { entries, .. }) => entries.count_ones() as usize,
        Some(Kind::Chain) => 1,
        _ => unreachable!(),
    }
}

// Puts the rows on the stack, if there are any.
fn push_some<'h>(rows: &mut ArrayVec<&'h [Link], LAYERS>, more: &'h [Link])
    requires { 0 < length more.now → length rows.old.items < LAYERS }
    ensures { map (λ r. r.now) rows.new.items ≡ stacked (map (λ r. r.now) rows.old.items) more.now }
{
    if !more.is_empty() {
        rows.push(more);
    }
}

// Goes to the next row: takes it off the stack, puts those below it on, and answers its own entries.
fn next_row<'h, T>(heap: &'h Heap<T>, rows: &mut ArrayVec<&'h [Link], LAYERS>) -> Option<&'h [Link]>
    requires { IsStack (form_at heap.now) LAYERS (map (λ r. r.now) rows.old.items) }
    ensures stack { IsStack (form_at heap.now) LAYERS (map (λ r. r.now) rows.new.items) }
    ensures row { MatchOption result ((rows.old.items ≡ []) × (rows.new.items ≡ []))
        (λ own. (l : ℕ) × (own.now ≡ own_entries (form_at heap.now l))
        × (rows_on heap.now (next_first (map (λ r. r.now) rows.old.items)) ≡ l ∷ rows_on heap.now (next_first (map (λ r. r.now) rows.new.items)))) }
{
    let (next, others) = rows.pop()?.split_first().unwrap();
    push_some(rows, others);
    let (own, below) = parts_of(heap, *next);
    push_some(rows, below);
    Some(own)
}
