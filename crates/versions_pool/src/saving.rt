//! What is written of the rows that a store's roots reach, whatever the roots are.
ghost use Rattle.std.specs.Prelude.{◌≡◌, ℕ, ◌<◌, Some, IsSome, IfOk};
ghost use Rattle.node_heap.specs.Links.{count};
ghost use Rattle.node_heap.specs.Forms.{cell};
ghost use Rattle.node_heap.specs.Heap.{row_at};
ghost use Rattle.elem_core.specs.Cell.{IsCell};
ghost use Rattle.versions_pool.specs.Seen.{saved_seen};
ghost use Rattle.versions_pool.specs.Loading.{CanBeSaved, IsSavedOf};

use crate::document::SavedStore;
use crate::slots::{names_of, roots_of};
use elem_core::{CODE_BITS, NoMemory};
use node_heap::{Heap, Link};
use pool_order::{Order, order};
use pool_text::{CellTexts, MOST_HISTORY, Places, pool_by_texts};
use slab::Slab;
use std::alloc::Global;

// What a document says of these roots: their numbers, and each row that they reach once.
pub(crate) fn saved_roots<T, C: CellTexts<T>>(
    alloc: Global,
    heap: &Heap<T>,
    slots: &Slab<Link>,
) -> Result<SavedStore, NoMemory>
    requires { CanBeSaved C.bytes_of heap.now slots.now.slots }
    ensures { IfOk result (λ saved. IsSavedOf C.bytes_of heap.now slots.now.slots (saved_seen saved)) }
{
    heap.rows_form_a_graph();
    let names = names_of(alloc, slots)?;
    let roots = roots_of(alloc, slots)?;
    let listed = order(alloc, heap, roots.as_slice())?;
    texts_are_cells::<T, C>(heap, &listed);
    let pool = pool_by_texts::<T, C>(
        alloc,
        heap,
        &listed,
        roots.as_slice(),
        CODE_BITS,
        MOST_HISTORY,
    )?;
    Ok(SavedStore {
        names: Places::from_vec(names),
        roots: pool.roots,
        rows: pool.rows,
    })
}

// Each value that is listed has the text of a cell: it says so where it is asked for its text.
fn texts_are_cells<T, C: CellTexts<T>>(heap: &Heap<T>, listed: &Order)
    requires { (l : ℕ) → 0 < count l listed.now → IsSome (row_at heap.now l) }
    ensures { (l : ℕ) (x : T) → 0 < count l listed.now → row_at heap.now l ≡ Some (cell x) → IsCell (C.bytes_of x) }
{
    for place in 0..listed.len() {
        match listed.at(place) {
            Some(link) => text_is_cell::<T, C>(heap, link),
            None => unreachable!(),
        }
    }
}

// The same of one link.
fn text_is_cell<T, C: CellTexts<T>>(heap: &Heap<T>, link: Link)
    requires { IsSome (row_at heap.now link) }
    ensures { (x : T) → row_at heap.now link ≡ Some (cell x) → IsCell (C.bytes_of x) }
{
    if let Some(value) = heap.value(link) {
        C::text_of(value);
    }
}
