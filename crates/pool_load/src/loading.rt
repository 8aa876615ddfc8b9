//! A checked pool, loaded into a heap.
ghost use Rattle.std.specs.Prelude.{◌≡◌, ℕ, ◌<◌, ◌≤◌, [], length, map, slice_index, IfOk, OnOk, OnErr};
ghost use Rattle.std.specs.Prelude.{vec_capacity};
ghost use Rattle.node_heap.specs.Links.{count};
ghost use Rattle.node_heap.specs.Heap.{holds_at, hold_count, IsGraph, half_holds, quarter_holds};
ghost use Rattle.node_heap.specs.Calls.{KeepsToNeed};
ghost use Rattle.pool_text.specs.Rows.{row_form};
ghost use Rattle.pool_load.specs.Loads.{Loads, AreLoaded, AreRowsLoaded, AreValuedByPlace, cells_of, nodes_of};
ghost use Rattle.pool_load.specs.Making.{ArePlacesBelow, AreReachedWithout, GivesUp};

use crate::lengths::lengths_of;
use crate::rows::{hold_places, make_rows};
use crate::values::{CellValues, OwnValues};
use elem_core::{NoMemory, Stored};
use node_heap::{Heap, Link};
use pool_check::{Checked, CheckedRoots};
use pool_text::{Pool, Row};
use std::alloc::Global;

/// Makes new rows that stand for the pool of a space, as `load_roots` does, and gives the links of its four roots. All holds together
/// are below 2^59 before.
pub fn load<T: Stored>(
    alloc: Global,
    heap: &mut Heap<T>,
    checked: Checked<T>,
) -> Result<Vec<Link>, NoMemory>
    requires few { hold_count heap.old < half_holds }
    ensures loads { IfOk result (λ roots. Loads heap.old heap.new roots.items checked) }
    ensures loaded { IfOk result (λ roots. AreLoaded T.bytes_of heap.new roots.items checked) }
    ensures roots { IfOk result (λ roots. length roots.items ≡ 4) }
    ensures spares { OnOk result (KeepsToNeed heap.old heap.new (cells_of checked.rows) (nodes_of checked.rows)) }
    ensures refused { OnErr result (heap.new ≡ heap.old) }
{
    load_roots(alloc, heap, checked.into_roots())
}

/// Makes new rows that stand for the pool, one for each of its rows, and gives the links of its roots, each held once for each
/// of its places there. All memory is taken before the first row is made, so that a refused call changes nothing, and no more
/// room than the pool needs. All holds together are below 2^59 before, and the roots fewer than 2^58.
pub fn load_roots<T: Stored>(
    alloc: Global,
    heap: &mut Heap<T>,
    checked: CheckedRoots<T>,
) -> Result<Vec<Link>, NoMemory>
    requires few { hold_count heap.old < half_holds }
    requires few_roots { length checked.roots < quarter_holds }
    ensures loads { IfOk result (λ roots. Loads heap.old heap.new roots.items checked) }
    ensures loaded { IfOk result (λ roots. AreRowsLoaded T.bytes_of heap.new roots.items checked) }
    ensures roots { IfOk result (λ roots. length roots.items ≡ length checked.roots) }
    ensures spares { OnOk result (KeepsToNeed heap.old heap.new (cells_of checked.rows) (nodes_of checked.rows)) }
    ensures refused { OnErr result (heap.new ≡ heap.old) }
{
    load_roots_by(alloc, heap, checked, &OwnValues)
}

/// The same of a heap of other values, where a cell's value is made of its place and its text. The texts of the values are those of
/// the pool, which was checked for texts that `S` stores.
pub fn load_roots_by<S: Stored, T: Drop, C: CellValues<T>>(
    alloc: Global,
    heap: &mut Heap<T>,
    checked: CheckedRoots<S>,
    values: &C,
) -> Result<Vec<Link>, NoMemory>
    requires few { hold_count heap.old < half_holds }
    requires few_roots { length checked.roots < quarter_holds }
    ensures loads { IfOk result (λ roots. Loads heap.old heap.new roots.items checked) }
    ensures loaded { IfOk result (λ roots. AreRowsLoaded C.bytes_of heap.new roots.items checked) }
    ensures valued { IfOk result (λ roots. AreValuedByPlace C.bytes_of (C.value_at values.now) heap.new roots.items) }
    ensures roots { IfOk result (λ roots. length roots.items ≡ length checked.roots) }
    ensures spares { OnOk result (KeepsToNeed heap.old heap.new (cells_of checked.rows) (nodes_of checked.rows)) }
    ensures refused { OnErr result (heap.new ≡ heap.old) }
{
    heap.rows_form_a_graph();
    let pool = checked.pool();
    let rows = pool.rows.as_slice();
    let places = pool.roots.as_slice();
    let lengths = lengths_of(alloc, rows)?;
    let mut links = Vec::with_capacity(alloc, rows.len())?;
    let mut roots = Vec::with_capacity(alloc, places.len())?;
    let cells = count_cells(rows);
    heap.reserve(cells, rows.len() - cells)?;
    let Pool {
        rows,
        roots: places,
        ..
    } = checked.into_pool();
    make_rows(
        heap,
        values,
        rows.into_vec(),
        lengths.as_slice(),
        &mut links,
    );
    hold_places(heap, links.as_slice(), places.as_slice());
    put_links(&mut roots, links.as_slice(), places.as_slice());
    release_all(heap, links.as_slice());
    Ok(roots)
}

// How many of the rows are cells.
fn count_cells(rows: &[Row]) -> usize
    ensures { result ≡ cells_of (map row_form rows.now) }
{
    let mut cells = 0;
    for row in rows {
        if let Row::Cell(_) = row {
            cells += 1;
        }
    }
    cells
}

// Appends the links at these places. There is room for them.
fn put_links(chosen: &mut Vec<Link>, links: &[Link], places: &[u64])
    requires empty { chosen.old.items ≡ [] }
    requires room { length places.now ≤ vec_capacity chosen.old }
    requires places { ArePlacesBelow (length links.now) places.now }
    ensures { chosen.new.items ≡ map (slice_index links.now) places.now }
{
    for place in places {
        chosen.push_reserved(links[*place as usize]);
    }
}

// Gives up a hold of each of these links. Each row stays.
fn release_all<T: Drop>(heap: &mut Heap<T>, links: &[Link])
    requires held { (k : ℕ) → count k links.now ≤ holds_at heap.old k }
    requires reached { AreReachedWithout heap.old links.now }
    requires graph { IsGraph heap.old }
    ensures { GivesUp heap.old heap.new links.now }
{
    for link in links {
        heap.release(*link);
    }
}
