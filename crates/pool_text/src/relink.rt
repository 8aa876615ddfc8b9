//! Rows whose links are replaced by a list.
ghost use Rattle.std.specs.Prelude.{◌≡◌, ℕ, ◌<◌, length, map, slice_index, Some, IfOk};
ghost use Rattle.node_heap.specs.Links.{count};
ghost use Rattle.node_heap.specs.Forms.{links_of};
ghost use Rattle.pool_text.specs.Rows.{row_form};
ghost use Rattle.pool_text.specs.Pool.{relink};

use crate::row::{Places, PoolText, Row};
use elem_core::NoMemory;
use std::alloc::Global;

/// The row, with what the list has at a link in place of each link. It takes time and memory for the row's links and its text.
pub fn relinked(alloc: Global, places: &[u64], row: &Row) -> Result<Row, NoMemory>
    requires low { (k : ℕ) → 0 < count k (links_of (Some (row_form row.now))) → k < length places.now }
    ensures { IfOk result (λ r. row_form r ≡ relink (slice_index places.now) (row_form row.now)) }
{
    Ok(match row {
        Row::Cell(text) => {
            Row::Cell(PoolText::from_text(String::from_str(alloc, text.as_str())?))
        }
        Row::Leaf(links) => Row::Leaf(at_places(alloc, places, links.as_slice())?),
        Row::Inner(height, links) => {
            Row::Inner(*height, at_places(alloc, places, links.as_slice())?)
        }
        Row::Trie {
            depth,
            entries,
            nodes,
            links,
        } => Row::Trie {
            depth: *depth,
            entries: *entries,
            nodes: *nodes,
            links: at_places(alloc, places, links.as_slice())?,
        },
        Row::Chain(links) => Row::Chain(at_places(alloc, places, links.as_slice())?),
        Row::Pair(key, value) => Row::Pair(places[*key as usize], places[*value as usize]),
        Row::State(buffers, stars) => Row::State(
            places[*buffers as usize],
            places[*stars as usize],
        ),
    })
}

/// What the list has at these links. It takes time and memory for them.
pub fn at_places(alloc: Global, places: &[u64], links: &[u64]) -> Result<Places, NoMemory>
    requires low { (k : ℕ) → 0 < count k links.now → k < length places.now }
    ensures { IfOk result (λ p. p ≡ map (slice_index places.now) links.now) }
{
    let mut found = Vec::with_capacity(alloc, links.len())?;
    for link in links {
        found.push(places[*link as usize])?;
    }
    Ok(Places::from_vec(found))
}
