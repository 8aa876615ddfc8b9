//! The entries of a pool's tries, with the places of their images.
ghost use Rattle.std.specs.Prelude.{◌≡◌, ℕ, ◌<◌, ◌≤◌, ◌++◌, true, length, map, reverse, slice_index, Some, option_map, IsSome, IfOk, OnOk};
ghost use Rattle.std.specs.List.{All, filter_map};
ghost use Rattle.node_heap.specs.Forms.{links_of};
ghost use Rattle.champ_chain.specs.Entry.{key_at};
ghost use Rattle.champ_trie.specs.Trie.{code_by};
ghost use Rattle.champ_trie.specs.Walk.{entry_count, own_entries, rows_below};
ghost use Rattle.pool_text.specs.Rows.{Bytes, row_form};
ghost use Rattle.pool_text.specs.Rules.{Rules as VersionRules, rules_named};
ghost use Rattle.pool_text.specs.Pool.{forms_in, row_count};
ghost use Rattle.pool_check.specs.Tries.{entry_at as entry_in, entries_below as all_below};
ghost use Rattle.pool_check.specs.Keeping.{forms_at};
ghost use Rattle.pool_check.specs.Readings.{moved};
ghost use Rattle.pool_check.specs.Damages.{IsValidBy};
ghost use Rattle.pool_carry.specs.Carried.{is_of_trie};
ghost use Rattle.pool_carry.specs.Making.{seen, AreCoded};

use elem_core::{CODE_BITS, Code, NoMemory, masked};
use pool_text::{Pool, Row, Rules};
use std::alloc::Global;

// An entry of a trie: its key, the place of its row among those that are made, and its key's masked code. Where the keys are
// different the order is that of the keys.
#[derive(Clone, Copy, PartialEq, Eq, PartialOrd, Ord)]
pub(crate) struct Entry<'a> {
    pub(crate) key: &'a str,
    pub(crate) place: u64,
    pub(crate) code: Code,
}

// The entries in and below a row of a trie in the order of the walk, with their images for places, and with codes by these rules.
pub(crate) fn entries_below<'a>(
    alloc: Global,
    pool: &'a Pool,
    images: &[u64],
    root: usize,
    rules: Rules,
    bits: u32,
) -> Result<Vec<Entry<'a>>, NoMemory>
    requires valid { (from : VersionRules) × IsValidBy from pool.now }
    requires bits { bits ≤ CODE_BITS }
    requires there { root < row_count pool.now }
    requires root { is_of_trie (forms_in pool.now root) ≡ true }
    requires images { root ≤ length images.now }
    ensures entries { IfOk result (λ es. map seen es.items ≡ map (moved (slice_index images.now)) (all_below (row_count pool.now) (forms_in pool.now) root)) }
    ensures codes { IfOk result (λ es. AreCoded (code_by (rules_named rules).code_of bits) es.items) }
{
    let rows = pool.rows.as_slice();
    let mut entries = Vec::new(alloc);
    let mut waiting = Vec::new(alloc);
    waiting.push(root as u64)?;
    while let Some(place) = waiting.pop() {
        let (own, below) = split_links(&rows[place as usize]);
        add_entries(rows, images, own, rules, bits, &mut entries)?;
        add_reversed(below, &mut waiting)?;
    }
    Ok(entries)
}

// Adds the entries at these places.
pub(crate) fn add_entries<'a>(
    rows: &'a [Row],
    images: &[u64],
    places: &[u64],
    rules: Rules,
    bits: u32,
    entries: &mut Vec<Entry<'a>>,
) -> Result<(), NoMemory>
    requires keys { All (λ k. IsSome (key_at (forms_at rows.now) k)) places.now }
    requires low { All (λ k. k < length images.now) places.now }
    requires bits { bits ≤ CODE_BITS }
    ensures entries { OnOk result (map seen entries.new.items ≡ map seen entries.old.items ++ map (moved (slice_index images.now)) (filter_map (entry_in (forms_at rows.now)) places.now)) }
    ensures codes { let code : Bytes → ℕ = code_by (rules_named rules).code_of bits in AreCoded code entries.old.items → OnOk result (AreCoded code entries.new.items) }
{
    for place in places {
        entries.push(entry_at(rows, images, *place, rules, bits))?;
    }
    Ok(())
}

// Adds these places, the last first.
fn add_reversed(places: &[u64], waiting: &mut Vec<u64>) -> Result<(), NoMemory>
    ensures { OnOk result (waiting.new.items ≡ waiting.old.items ++ reverse places.now) }
{
    for place in places.iter().rev() {
        waiting.push(*place)?;
    }
    Ok(())
}

// The links of a row of a trie: its entries, and the rows below it.
pub(crate) fn split_links(row: &Row) -> (&[u64], &[u64])
    requires trie { is_of_trie (Some (row_form row.now)) ≡ true }
    requires count { entry_count (Some (row_form row.now)) ≤ length (links_of (Some (row_form row.now))) }
    ensures own { result.0.now ≡ own_entries (Some (row_form row.now)) }
    ensures below { result.1.now ≡ rows_below (Some (row_form row.now)) }
{
    match row {
        Row::Trie { entries, links, .. } => {
            links.as_slice().split_at(entries.count_ones() as usize)
        }
        Row::Chain(links) => links.as_slice().split_at(1),
        _ => unreachable!(),
    }
}

// The entry at a place.
fn entry_at<'a>(rows: &'a [Row], images: &[u64], place: u64, rules: Rules, bits: u32) -> Entry<'a>
    requires key { IsSome (key_at (forms_at rows.now) place) }
    requires low { place < length images.now }
    requires bits { bits ≤ CODE_BITS }
    ensures entry { Some (seen result) ≡ option_map (moved (slice_index images.now)) (entry_in (forms_at rows.now) place) }
    ensures code { result.code ≡ code_by (rules_named rules).code_of bits result.key.now }
{
    let key = key_of(rows, place);
    Entry {
        key,
        place: images[place as usize],
        code: masked(rules.code(key), bits),
    }
}

// The key of an entry: a cell's own text, or that of a pair's first cell.
fn key_of<'a>(rows: &'a [Row], place: u64) -> &'a str
    requires { IsSome (key_at (forms_at rows.now) place) }
    ensures { Some result.now ≡ key_at (forms_at rows.now) place }
{
    let cell = match &rows[place as usize] {
        Row::Pair(key, _) => *key,
        _ => place,
    };
    match &rows[cell as usize] {
        Row::Cell(text) => text.as_str(),
        _ => unreachable!(),
    }
}
