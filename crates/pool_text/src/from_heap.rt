//! The pool of a heap's rows.
ghost use Rattle.std.specs.Prelude.{◌≡◌, ℕ, ◌<◌, map, option_map, true, IfOk, Some};
ghost use Rattle.node_heap.specs.Links.{count, Reaches};
ghost use Rattle.node_heap.specs.Forms.{cell, node};
ghost use Rattle.node_heap.specs.Heap.{form_at, links_at};
ghost use Rattle.node_heap.specs.Reads.{kind_said};
ghost use Rattle.pool_order.specs.Order.{order_of};
ghost use Rattle.pool_text.specs.Rows.{Bytes, row_form};
ghost use Rattle.pool_text.specs.Pool.{place_in, relink, settings_by, fits_pool, text_forms, pool_at};

use crate::pool::{Pool, Rows};
use crate::row::{Places, PoolText, Row};
use crate::rules::PRESENT_VERSION;
use crate::texts::{CellTexts, OwnTexts};
use elem_core::{NoMemory, Stored};
use node_heap::{Heap, Kind, Link};
use pool_order::Order;
use std::alloc::Global;

/// The pool of the rows that these roots reach, whose order this is, with this number of code bits and this bound of undo. A pair
/// and a state among them have two links each. It takes time and memory for those rows, their links and their texts.
pub fn pool_of<T: Stored>(
    alloc: Global,
    heap: &Heap<T>,
    order: &Order,
    roots: &[Link],
    bits: u32,
    history: u32,
) -> Result<Pool, NoMemory>
    requires order { order.now ≡ order_of heap.now roots.now }
    requires fits { (r l : ℕ) → 0 < count r roots.now → Reaches (links_at heap.now) r l → fits_pool (form_at heap.now l) ≡ true }
    ensures value { IfOk result (λ p. p ≡ pool_at T.bytes_of heap.now roots.now (settings_by bits history)) }
{
    pool_by_texts::<T, OwnTexts>(alloc, heap, order, roots, bits, history)
}

/// The same of values whose texts these are.
pub fn pool_by_texts<T, C: CellTexts<T>>(
    alloc: Global,
    heap: &Heap<T>,
    order: &Order,
    roots: &[Link],
    bits: u32,
    history: u32,
) -> Result<Pool, NoMemory>
    requires order { order.now ≡ order_of heap.now roots.now }
    requires fits { (r l : ℕ) → 0 < count r roots.now → Reaches (links_at heap.now) r l → fits_pool (form_at heap.now l) ≡ true }
    ensures value { IfOk result (λ p. p ≡ pool_at C.bytes_of heap.now roots.now (settings_by bits history)) }
{
    heap.rows_form_a_graph();
    let mut rows = Vec::with_capacity(alloc, order.len())?;
    for place in 0..order.len() {
        match order.at(place) {
            Some(link) => rows.push(row_of::<T, C>(alloc, heap, order, link)?)?,
            None => unreachable!(),
        }
    }
    Ok(Pool {
        bits,
        version: PRESENT_VERSION,
        history,
        rows: Rows::from_vec(rows),
        roots: places_of(alloc, order, roots)?,
    })
}

// The row of a link, with places for its links.
fn row_of<T, C: CellTexts<T>>(
    alloc: Global,
    heap: &Heap<T>,
    order: &Order,
    link: Link,
) -> Result<Row, NoMemory>
    requires fits { fits_pool (form_at heap.now link) ≡ true }
    requires listed { (k : ℕ) → 0 < count k (links_at heap.now link) → 0 < count k order.now }
    ensures { IfOk result (λ r. option_map (relink (place_in order.now)) (text_forms C.bytes_of heap.now link) ≡ Some (row_form r)) }
{
    match heap.kind(link) {
        Some(kind) => node_row(alloc, order, kind, heap.links(link)),
        None => match heap.value(link) {
            Some(value) => cell_row::<T, C>(alloc, value),
            None => unreachable!(),
        },
    }
}

fn cell_row<T, C: CellTexts<T>>(alloc: Global, value: &T) -> Result<Row, NoMemory>
    ensures { IfOk result (λ r. row_form r ≡ cell (C.bytes_of value.now)) }
{
    let text = String::from_str(alloc, C::text_of(value))?;
    Ok(Row::Cell(PoolText::from_text(text)))
}

// The row of a node of this kind with these links, with places for them.
fn node_row(alloc: Global, order: &Order, kind: Kind, links: &[Link]) -> Result<Row, NoMemory>
    requires fits { fits_pool {K = Bytes} (Some (node (kind_said kind) links.now)) ≡ true }
    requires listed { (k : ℕ) → 0 < count k links.now → 0 < count k order.now }
    ensures { IfOk result (λ r. row_form r ≡ node (kind_said kind) (map (place_in order.now) links.now)) }
{
    Ok(match kind {
        Kind::Leaf => Row::Leaf(places_of(alloc, order, links)?),
        Kind::Inner { height } => Row::Inner(height, places_of(alloc, order, links)?),
        Kind::Trie {
            depth,
            entries,
            nodes,
        } => Row::Trie {
            depth,
            entries,
            nodes,
            links: places_of(alloc, order, links)?,
        },
        Kind::Chain => Row::Chain(places_of(alloc, order, links)?),
        Kind::Pair => Row::Pair(place_of(order, links[0]), place_of(order, links[1])),
        Kind::State => Row::State(place_of(order, links[0]), place_of(order, links[1])),
    })
}

// The places of these links.
fn places_of(alloc: Global, order: &Order, links: &[Link]) -> Result<Places, NoMemory>
    requires listed { (k : ℕ) → 0 < count k links.now → 0 < count k order.now }
    ensures { IfOk result (λ p. p ≡ map (place_in order.now) links.now) }
{
    let mut places = Vec::with_capacity(alloc, links.len())?;
    for link in links {
        places.push(place_of(order, *link))?;
    }
    Ok(Places::from_vec(places))
}

// The place of a listed link.
fn place_of(order: &Order, link: Link) -> u64
    requires listed { 0 < count link order.now }
    ensures { result ≡ place_in order.now link }
{
    match order.place(link) {
        Some(place) => place as u64,
        None => unreachable!(),
    }
}
