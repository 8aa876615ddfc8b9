//! The tests of single rows: links and texts.
ghost use Rattle.std.specs.Prelude.{◌≡◌, ◌&&◌, ◌==◌, not, true, Some, nat_lt, nat_le, length, take};
ghost use Rattle.std.specs.List.{list_all, list_any};
ghost use Rattle.node_heap.specs.Forms.{links_of};
ghost use Rattle.pool_text.specs.Rows.{row_form};
ghost use Rattle.pool_check.specs.Rows.{is_line_or_node, rows_lead_back, links_lead_back as all_lead_back, texts_are_lines as all_are_lines};

use elem_core::{MAX_LINE, NEWLINE};
use pool_text::{Pool, Row};

// Whether every link of a row is smaller than the row's place, and every root than the number of rows, where that is known of the
// rows before a place.
pub(crate) fn links_lead_back(pool: &Pool, from: usize) -> bool
    requires { rows_lead_back 0 (take from pool.now.rows) ≡ true }
    ensures { result ≡ all_lead_back pool.now }
{
    let rows = pool.rows.as_slice();
    for place in from..rows.len() {
        if !leads_below(&rows[place], place as u64) {
            return false;
        }
    }
    are_below(pool.roots.as_slice(), rows.len() as u64)
}

// Whether every link of the row is smaller than the bound.
fn leads_below(row: &Row, bound: u64) -> bool
    ensures { result ≡ list_all (λ k. nat_lt k bound) (links_of (Some (row_form row.now))) }
{
    match row {
        Row::Cell(_) => true,
        Row::Leaf(links) | Row::Inner(_, links) | Row::Trie { links, .. } | Row::Chain(links) =>
            are_below(links.as_slice(), bound),
        Row::Pair(key, value) => are_below(&[*key, *value], bound),
        Row::State(buffers, stars) => are_below(&[*buffers, *stars], bound),
    }
}

fn are_below(links: &[u64], bound: u64) -> bool
    ensures { result ≡ list_all (λ k. nat_lt k bound) links.now }
{
    for link in links {
        if *link >= bound {
            return false;
        }
    }
    true
}

// Whether every cell's text is a line, where that is known of the rows before a place.
pub(crate) fn texts_are_lines(pool: &Pool, from: usize) -> bool
    requires { list_all is_line_or_node (take from pool.now.rows) ≡ true }
    ensures { result ≡ all_are_lines pool.now }
{
    let rows = pool.rows.as_slice();
    for place in from..rows.len() {
        if !is_line_or_node_row(&rows[place]) {
            return false;
        }
    }
    true
}

// Whether the row is a cell of a line, or a node.
fn is_line_or_node_row(row: &Row) -> bool
    ensures { result ≡ is_line_or_node (row_form row.now) }
{
    match row {
        Row::Cell(text) => is_line(text.as_str()),
        _ => true,
    }
}

fn is_line(text: &str) -> bool
    ensures { result ≡ (not (list_any (λ b. b == NEWLINE) text.now) && nat_le (length text.now) MAX_LINE) }
{
    text.len() <= MAX_LINE && !text.as_bytes().contains(&NEWLINE)
}
