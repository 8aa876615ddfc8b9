//! How long the text of a document is.
ghost use Rattle.std.specs.Prelude.{◌≡◌, ◌+◌, map, length, sum_by, decimal, nat_lt};
ghost use Rattle.json.specs.Print.{escape_letter, escape_byte};
ghost use Rattle.serde_json.specs.Data.{string};
ghost use Rattle.serde_json.specs.Written.{compact_text};
ghost use Rattle.pool_text.specs.Rows.{row_form};
ghost use Rattle.pool_text.specs.Document.{list, naturals, row_value, text};
ghost use Rattle.pool_text.specs.Length.{capped};

use crate::pool::Pool;
use crate::row::Row;
use itoa::Buffer;

/// How many bytes the compact text of a pool's document has, or 2^64 - 1 where it has more. It takes time for the rows, their
/// links and their texts, and no memory.
pub fn text_length(pool: &Pool) -> u64
    ensures value { result ≡ capped (length (text pool.now)) }
{
    // The keys, the format, the version and what stands between them.
    let frame: u64 = 70;
    frame
        .saturating_add(digits(pool.bits as u64))
        .saturating_add(digits(pool.history as u64))
        .saturating_add(numbers_length(pool.roots.as_slice()))
        .saturating_add(rows_length(pool.rows.as_slice()))
}

// An array of rows.
fn rows_length(rows: &[Row]) -> u64
    ensures { result ≡ capped (length (compact_text (list (map (λ row. row_value (row_form row)) rows.now)))) }
{
    let mut sum: u64 = 0;
    for row in rows {
        sum = sum.saturating_add(row_length(row)).saturating_add(1);
    }
    sum.max(1).saturating_add(1)
}

// A row: its letter, its numbers and its links.
fn row_length(row: &Row) -> u64
    ensures { result ≡ capped (length (compact_text (row_value (row_form row.now)))) }
{
    match row {
        Row::Cell(text) => quoted_length(text.as_str()).saturating_add(6),
        Row::Leaf(links) => node_length(&[], links.as_slice()),
        Row::Inner(height, links) => node_length(&[*height as u32], links.as_slice()),
        Row::Trie {
            depth,
            entries,
            nodes,
            links,
        } => node_length(&[*depth as u32, *entries, *nodes], links.as_slice()),
        Row::Chain(links) => node_length(&[], links.as_slice()),
        Row::Pair(key, value) => node_length(&[], &[*key, *value]),
        Row::State(buffers, stars) => node_length(&[], &[*buffers, *stars]),
    }
}

// A node: its letter, its numbers and its links.
fn node_length(numbers: &[u32], links: &[u64]) -> u64
    ensures { result ≡ capped (6 + (sum_by (λ n. length (decimal n) + 1) numbers.now + length (compact_text (naturals links.now)))) }
{
    let mut sum: u64 = 6;
    for number in numbers {
        sum = sum.saturating_add(digits(*number as u64)).saturating_add(1);
    }
    sum.saturating_add(numbers_length(links))
}

// An array of numbers.
fn numbers_length(numbers: &[u64]) -> u64
    ensures { result ≡ capped (length (compact_text (naturals numbers.now))) }
{
    let mut sum: u64 = 0;
    for number in numbers {
        sum = sum.saturating_add(digits(*number)).saturating_add(1);
    }
    sum.max(1).saturating_add(1)
}

// A number in decimal.
fn digits(number: u64) -> u64
    ensures { result ≡ length (decimal number) }
{
    let mut buffer = Buffer::new();
    buffer.format(number).len() as u64
}

// A text in quotes.
fn quoted_length(text: &str) -> u64
    ensures { result ≡ capped (length (compact_text (string text.now))) }
{
    let mut sum: u64 = 2;
    for byte in text.as_bytes() {
        sum = sum.saturating_add(escaped_length(*byte));
    }
    sum
}

// What stands in a text for a byte: itself, a short escape, or one by its number.
fn escaped_length(byte: u8) -> u64
    ensures { result ≡ length (escape_byte byte) }
{
    if has_letter(byte) {
        2
    } else if byte < 32 {
        6
    } else {
        1
    }
}

// Whether the byte has a short escape.
fn has_letter(byte: u8) -> bool
    ensures { result ≡ nat_lt 0 (escape_letter byte) }
{
    // Nearly all bytes of a text are above the quotation mark: two tests tell for these.
    if byte > b'"' {
        byte == b'\\'
    } else {
        matches!(byte, b'"' | 8 | 9 | 10 | 12 | 13)
    }
}
