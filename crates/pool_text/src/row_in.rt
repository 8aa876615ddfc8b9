//! The row that a JSON value stands for.
ghost use Rattle.std.specs.Prelude.{◌≡◌, ◌≢◌, ℕ, List, [], ◌∷◌, map, length, option_map, IfNone, IfSome};
ghost use Rattle.node_heap.specs.Forms.{leaf};
ghost use Rattle.serde_json.specs.View.{view};
ghost use Rattle.pool_text.specs.Rows.{is_in_range_to, row_form};
ghost use Rattle.pool_text.specs.Document.{all_of, cell_form, inner_form, trie_form, form_after, kept_if, row_in};
ghost use Rattle.pool_text.specs.Parsing.{Reads, links_between, two_links};

use crate::damage::Damage;
use crate::numbers::{elements_of, number_between, number_of, numbers_of};
use crate::pool::Rows;
use crate::row::{Places, PoolText, Row};
use node_heap::MOST_HEIGHT;
use serde_json::Value;
use std::alloc::Global;

/// The rows of these values, where tries go so deep. Refused with `Row` where one is none or is out of range, and with `Memory` where
/// memory runs out. It takes time and memory for the rows, their links and their texts.
pub fn rows_of(alloc: Global, values: &[Value], deepest: u8) -> Result<Rows, Damage>
    ensures { Reads (λ rows. rows) Damage.Row (all_of (row_in deepest) (map view values.now)) result }
{
    let mut rows = Vec::with_capacity(alloc, values.len())?;
    for value in values {
        rows.push(row_of(alloc, value, deepest)?)?;
    }
    Ok(Rows::from_vec(rows))
}

// The row of a value: its letter, its numbers and its links.
fn row_of(alloc: Global, value: &Value, deepest: u8) -> Result<Row, Damage>
    ensures { Reads row_form Damage.Row (row_in deepest (view value.now)) result }
{
    let Some(items) = elements_of(value) else {
        return Err(Damage::Row);
    };
    let Some((first, rest)) = items.split_first() else {
        return Err(Damage::Row);
    };
    let Some(letter) = first.as_str() else {
        return Err(Damage::Row);
    };
    row_after(alloc, letter, rest, deepest)
}

// The row of this letter with these values behind it.
fn row_after(alloc: Global, letter: &str, rest: &[Value], deepest: u8) -> Result<Row, Damage>
    ensures { Reads row_form Damage.Row (kept_if (is_in_range_to deepest) (form_after letter.now (map view rest.now))) result }
{
    match letter {
        "c" => cell_row(alloc, rest),
        "l" => links_of(alloc, rest, 0, 32).map(Row::Leaf),
        "i" => inner_row(alloc, rest),
        "m" => trie_row(alloc, rest, deepest),
        "k" => links_of(alloc, rest, 1, 2).map(Row::Chain),
        "p" => both_links(rest).map(|(key, value)| Row::Pair(key, value)),
        "s" => both_links(rest).map(|(buffers, stars)| Row::State(buffers, stars)),
        _ => Err(Damage::Row),
    }
}

// A cell: its text.
fn cell_row(alloc: Global, rest: &[Value]) -> Result<Row, Damage>
    ensures { Reads row_form Damage.Row (cell_form (map view rest.now)) result }
{
    let Some(text) = only(rest).and_then(Value::as_str) else {
        return Err(Damage::Row);
    };
    Ok(Row::Cell(PoolText::from_text(String::from_str(alloc, text)?)))
}

// An inner row: its height and its links.
fn inner_row(alloc: Global, rest: &[Value]) -> Result<Row, Damage>
    ensures { (deepest : ℕ) → Reads row_form Damage.Row (kept_if (is_in_range_to deepest) (inner_form (map view rest.now))) result }
{
    let Some((height, links)) = rest.split_first() else {
        return Err(Damage::Row);
    };
    let Some(height) = number_between(height, 1, MOST_HEIGHT as u64) else {
        return Err(Damage::Row);
    };
    Ok(Row::Inner(height as u8, links_of(alloc, links, 1, 32)?))
}

// A trie row: its depth, its two sets of positions and its links.
fn trie_row(alloc: Global, rest: &[Value], deepest: u8) -> Result<Row, Damage>
    ensures { Reads row_form Damage.Row (kept_if (is_in_range_to deepest) (trie_form (map view rest.now))) result }
{
    let Some((depth, rest)) = rest.split_first() else {
        return Err(Damage::Row);
    };
    let Some((entries, rest)) = rest.split_first() else {
        return Err(Damage::Row);
    };
    let Some((nodes, links)) = rest.split_first() else {
        return Err(Damage::Row);
    };
    let Some(depth) = number_between(depth, 0, deepest as u64) else {
        return Err(Damage::Row);
    };
    let Some(entries) = number_between(entries, 0, u32::MAX as u64) else {
        return Err(Damage::Row);
    };
    let Some(nodes) = number_between(nodes, 0, u32::MAX as u64) else {
        return Err(Damage::Row);
    };
    Ok(Row::Trie {
        depth: depth as u8,
        entries: entries as u32,
        nodes: nodes as u32,
        links: links_of(alloc, links, 0, 32)?,
    })
}

// The links, where nothing else is there, of which there are from the least to the most.
fn links_of(alloc: Global, rest: &[Value], least: usize, most: usize) -> Result<Places, Damage>
    ensures { Reads (λ (ns : List ℕ). ns) Damage.Row (links_between least most (map view rest.now)) result }
{
    match only(rest) {
        Some(links) => numbers_of(alloc, links, least, most, Damage::Row),
        None => Err(Damage::Row),
    }
}

// Both links, where nothing else is there.
fn both_links(rest: &[Value]) -> Result<(u64, u64), Damage>
    ensures { Reads two_links Damage.Row (links_between 2 2 (map view rest.now)) result }
{
    let Some(links) = only(rest) else {
        return Err(Damage::Row);
    };
    let Some(items) = elements_of(links) else {
        return Err(Damage::Row);
    };
    let [first, second] = items else {
        return Err(Damage::Row);
    };
    match (number_of(first), number_of(second)) {
        (Some(first), Some(second)) => Ok((first, second)),
        _ => Err(Damage::Row),
    }
}

// The only value of a list of one.
fn only(values: &[Value]) -> Option<&Value>
    ensures some { IfSome result (λ v. map view values.now ≡ view v.now ∷ []) }
    ensures none { IfNone result (length values.now ≢ 1) }
{
    match values {
        [only] => Some(only),
        _ => None,
    }
}
