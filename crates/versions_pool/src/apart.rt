//! Which cells of a pool of maps are keys and which are values.
ghost use Rattle.std.specs.Prelude.{◌≡◌, ◌≢◌, true, false, map, slice_index_or, IfOk, IfErr};
ghost use Rattle.std.specs.String.{string_bytes};
ghost use Rattle.elem_core.specs.Cell.{IsCell};
ghost use Rattle.pool_text.specs.Rows.{row_form};
ghost use Rattle.versions_pool.specs.Apart.{key_link, value_link, are_apart, AreLinkedInside, AreMarked};

use elem_core::{NoMemory, Stored};
use pool_check::CheckedRoots;
use pool_load::CellValues;
use pool_text::{CellTexts, Damage, Row};
use std::alloc::Global;
use versions::Piece;

// The texts of keys and of values.
pub(crate) struct PieceTexts;

impl<K: Stored, V: Stored> CellTexts<Piece<K, V>> for PieceTexts {
    ghost use Rattle.versions_pool.specs.Apart.{piece_text};

    ghost bytes_of = { piece_text K.bytes_of V.bytes_of };

    fn text_of(value: &Piece<K, V>) -> &str {
        match value {
            Piece::Key(key) => key.text(),
            Piece::Value(value) => value.text(),
        }
    }
}

// Which places of a pool are those of values: a mark for each.
#[derive(Drop)]
pub(crate) struct ValuePlaces {
    marks: Vec<bool>,
}

impl<K: Stored, V: Stored> CellValues<Piece<K, V>> for ValuePlaces {
    ghost use Rattle.std.specs.Prelude.{slice_index_or, false};
    ghost use Rattle.versions_pool.specs.Apart.{piece_text, piece_of};

    ghost bytes_of = { piece_text K.bytes_of V.bytes_of };

    ghost value_at = { λ places p text. piece_of K.of_bytes V.of_bytes (slice_index_or places.marks.items p false) text };

    fn value(&self, place: usize, text: String) -> Piece<K, V> {
        if is_marked(self.marks.as_slice(), place) {
            Piece::Value(read_text(text))
        } else {
            Piece::Key(read_text(text))
        }
    }
}

// The value of a text that is a cell.
fn read_text<T: Stored>(text: String) -> T
    requires { IsCell (string_bytes text) }
    ensures kept { T.bytes_of result ≡ string_bytes text }
    ensures read { result ≡ T.of_bytes (string_bytes text) }
{
    match T::from_text(text) {
        Ok(value) => value,
        Err(_) => unreachable!(),
    }
}

// The places of the values of a pool of maps. Refused with `Kind` exactly where a cell is a key and a value, and with `Memory` where
// memory runs out.
pub(crate) fn value_places<T: Stored>(
    alloc: Global,
    checked: &CheckedRoots<T>,
) -> Result<ValuePlaces, Damage>
    ensures apart { IfOk result (λ _. are_apart checked.now.rows ≡ true) }
    ensures marked { IfOk result (λ places. AreMarked checked.now.rows places.marks.items) }
    ensures kind { IfErr result (λ d. d ≢ Damage.Memory → d ≡ Damage.Kind) }
    ensures both { IfErr result (λ d. d ≢ Damage.Memory → are_apart checked.now.rows ≡ false) }
{
    let pool = checked.pool();
    let rows = pool.rows.as_slice();
    let marks = value_marks(alloc, rows)?;
    if keys_are_unmarked(marks.as_slice(), rows) {
        Ok(ValuePlaces { marks })
    } else {
        Err(Damage::Kind)
    }
}

// A mark for each place that is that of a pair's value.
fn value_marks(alloc: Global, rows: &[Row]) -> Result<Vec<bool>, NoMemory>
    requires { AreLinkedInside (map row_form rows.now) }
    ensures { IfOk result (λ marks. AreMarked (map row_form rows.now) marks.items) }
{
    let mut marks = vec![in alloc; false; rows.len()]?;
    for row in rows {
        if let Some(value) = value_place(row) {
            marks[value as usize] = true;
        }
    }
    Ok(marks)
}

// Whether no pair's key has a mark.
fn keys_are_unmarked(marks: &[bool], rows: &[Row]) -> bool
    requires marked { AreMarked (map row_form rows.now) marks.now }
    requires inside { AreLinkedInside (map row_form rows.now) }
    ensures { result ≡ are_apart (map row_form rows.now) }
{
    for row in rows {
        if let Some(key) = key_place(row) {
            if is_marked(marks, key as usize) {
                return false;
            }
        }
    }
    true
}

// The place of a pair's key, and that of its value.
fn key_place(row: &Row) -> Option<u64>
    ensures { result ≡ key_link (row_form row.now) }
{
    match row {
        Row::Pair(key, _) => Some(*key),
        _ => None,
    }
}

fn value_place(row: &Row) -> Option<u64>
    ensures { result ≡ value_link (row_form row.now) }
{
    match row {
        Row::Pair(_, value) => Some(*value),
        _ => None,
    }
}

// Whether the place has a mark.
fn is_marked(marks: &[bool], place: usize) -> bool
    ensures { result ≡ slice_index_or marks.now place false }
{
    match marks.get(place) {
        Some(mark) => *mark,
        None => false,
    }
}
