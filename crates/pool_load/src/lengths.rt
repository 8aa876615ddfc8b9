//! The lengths of a pool's vector rows, and the sums that its inner rows keep.
ghost use Rattle.std.specs.Prelude.{◌≡◌, ℕ, ◌+◌, ◌*◌, ◌^◌, ◌<◌, ◌≤◌, length, map, take, Some, IfOk, slice_index};
ghost use Rattle.node_heap.specs.Forms.{links_of};
ghost use Rattle.pool_text.specs.Rows.{row_form};
ghost use Rattle.pool_load.specs.Rows.{AreSound, HaveLengths, sum_over, length_over, AreSumsOver};
ghost use Rattle.pool_load.specs.Making.{ArePlacesBelow};

use arrayvec::ArrayVec;
use elem_core::NoMemory;
use node_heap::{MOST_HEIGHT, Sums};
use pool_text::Row;
use rrb_core::full_size;
use std::alloc::Global;

// The lengths of the rows by their places: a leaf has its links, an inner row what its children have, and every other row 0.
pub(crate) fn lengths_of(alloc: Global, rows: &[Row]) -> Result<Vec<u32>, NoMemory>
    requires sound { AreSound (map row_form rows.now) }
    ensures many { IfOk result (λ lengths. length lengths.items ≡ length rows.now) }
    ensures lengths { IfOk result (λ lengths. HaveLengths (map row_form rows.now) lengths.items) }
{
    let mut lengths = Vec::with_capacity(alloc, rows.len())?;
    for row in rows {
        let length = length_of(lengths.as_slice(), row);
        lengths.push(length)?;
    }
    Ok(lengths)
}

// The length of a row over rows of these lengths.
fn length_of(lengths: &[u32], row: &Row) -> u32
    requires places { ArePlacesBelow (length lengths.now) (links_of (Some (row_form row.now))) }
    requires short { length_over lengths.now (row_form row.now) < 2 ^ 32 }
    ensures { result ≡ length_over lengths.now (row_form row.now) }
{
    match row {
        Row::Leaf(links) => links.as_slice().len() as u32,
        Row::Inner(_, links) => sum_of(lengths, links.as_slice()),
        _ => 0,
    }
}

// What the rows at these places have together.
fn sum_of(lengths: &[u32], places: &[u64]) -> u32
    requires places { ArePlacesBelow (length lengths.now) places.now }
    requires short { sum_over lengths.now places.now < 2 ^ 32 }
    ensures { result ≡ sum_over lengths.now places.now }
{
    let mut total = 0u32;
    for place in places {
        total += lengths[*place as usize];
    }
    total
}

// The sums that the inner row over the rows at these places keeps, which have the height `below` and these lengths.
pub(crate) fn inner_sums(lengths: &[u32], places: &[u64], below: u8) -> Sums
    requires some { 1 ≤ length places.now }
    requires few { length places.now ≤ 32 }
    requires low { below < MOST_HEIGHT }
    requires places { ArePlacesBelow (length lengths.now) places.now }
    requires short { sum_over lengths.now places.now < 2 ^ 32 }
    ensures { AreSumsOver lengths.now below places.now result }
{
    let last = places.len() - 1;
    let before = sum_of(lengths, &places[..last]);
    if u64::from(before) == full_size(last, below + 1) {
        return Sums::from_slice(&[]);
    }
    running_sums(lengths, places)
}

// The running sums of the lengths of the rows at these places.
fn running_sums(lengths: &[u32], places: &[u64]) -> Sums
    requires few { length places.now ≤ 32 }
    requires places { ArePlacesBelow (length lengths.now) places.now }
    requires short { sum_over lengths.now places.now < 2 ^ 32 }
    ensures count { length result ≡ length places.now }
    ensures each { (i : ℕ) → i < length places.now → slice_index result i ≡ sum_over lengths.now (take (i + 1) places.now) }
{
    let mut sums: ArrayVec<u32, 32> = ArrayVec::new();
    let mut total = 0u32;
    for place in places {
        total += lengths[*place as usize];
        sums.push(total);
    }
    Sums::from_slice(sums.as_slice())
}
