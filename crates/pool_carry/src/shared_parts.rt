//! Parts of tries, made once for all tries that share them.
ghost use Rattle.std.specs.Prelude.{◌≡◌, ℕ, ◌<◌, ◌≤◌, ◌++◌, true, List, length, map, slice_get, slice_index, Some, IfSome, IfOk, OnOk};
ghost use Rattle.std.specs.List.{All, flat_map};
ghost use Rattle.elem_core.specs.Codes.{digit_at};
ghost use Rattle.node_heap.specs.Forms.{Form};
ghost use Rattle.champ_chain.specs.Entry.{Entry as Named, IsEntry};
ghost use Rattle.champ_trie.specs.Trie.{AreSets, code_by};
ghost use Rattle.pool_text.specs.Rows.{Bytes};
ghost use Rattle.pool_text.specs.Rules.{Rules as VersionRules, rules_named};
ghost use Rattle.pool_text.specs.Pool.{forms_in, row_count};
ghost use Rattle.pool_check.specs.Kinds.{is_trie_root};
ghost use Rattle.pool_check.specs.Damages.{IsValidBy};
ghost use Rattle.pool_carry.specs.Making.{seen, forms_made, AreMade, IsBegun, AreCodedEntries, AreImagesOfFirst, IsPart, IsRowOver, ArePartsOfFirst, image_entries};

use crate::entries::{Entry, add_entries, entries_below, split_links};
use crate::made::MadeRows;
use crate::sets_and_links::SetsAndLinks;
use crate::tries::trie_of;
use elem_core::{CODE_BITS, NoMemory, digit};
use pool_text::{Pool, Row, Rules};
use std::alloc::Global;

// What the entries below an old row come to where their codes have one digit at depth 0: this digit, and the place of their trie
// from depth 1 on. It stands at that position in each trie that has no other entries there.
#[derive(Clone, Copy)]
pub(crate) struct Part {
    pub(crate) digit: u32,
    pub(crate) place: u64,
}

// The part of a row, made where it is a trie row of depth 1 whose entries' codes have one digit at depth 0.
pub(crate) fn part_of(
    alloc: Global,
    pool: &Pool,
    images: &[u64],
    place: usize,
    rules: Rules,
    bits: u32,
    made: &mut MadeRows,
) -> Result<Option<Part>, NoMemory>
    requires valid { (from : VersionRules) × IsValidBy from pool.now }
    requires bits { bits ≤ CODE_BITS }
    requires there { place < row_count pool.now }
    requires place { place ≤ length images.now }
    requires made { AreMade made.old }
    requires images { AreImagesOfFirst (rules_named rules) bits pool.now (forms_made made.old) images.now }
    ensures made { OnOk result (AreMade made.new) }
    ensures more { OnOk result (IsBegun (forms_made made.old) (forms_made made.new)) }
    ensures part { IfOk result (λ o. IfSome o (IsPart (code_by (rules_named rules).code_of bits) (rules_named rules).deepest (forms_made made.new) (image_entries pool.now images.now place))) }
{
    let rows = pool.rows.as_slice();
    match &rows[place] {
        Row::Trie { depth, .. } => {
            if *depth != 1 {
                return Ok(None);
            }
            let entries = entries_below(alloc, pool, images, place, rules, bits)?;
            match one_digit(entries.as_slice()) {
                Some(digit) => {
                    let place = trie_of(alloc, made, rules.deepest(), 1, entries.as_slice())?;
                    Ok(Some(Part { digit, place }))
                }
                None => Ok(None),
            }
        }
        _ => Ok(None),
    }
}

// The digit at depth 0 of the codes of these entries, where all have the same.
fn one_digit(entries: &[Entry<'_>]) -> Option<u32>
    ensures small { IfSome result (λ d. d < 32) }
    ensures same { IfSome result (λ d. All (λ e. digit_at e.code 0 ≡ d) entries.now) }
{
    let first = match entries {
        [] => return None,
        [entry, ..] => digit(entry.code, 0),
    };
    for entry in entries {
        if digit(entry.code, 0) != first {
            return None;
        }
    }
    Some(first)
}

// The sets and links of the root of the trie of a root's entries, made of its own entries and the parts of the rows below; none
// where one has no part, or two stand at one position.
pub(crate) fn joined(
    alloc: Global,
    pool: &Pool,
    images: &[u64],
    parts: &[Option<Part>],
    root: usize,
    rules: Rules,
    bits: u32,
) -> Result<Option<SetsAndLinks>, NoMemory>
    requires valid { (from : VersionRules) × IsValidBy from pool.now }
    requires bits { bits ≤ CODE_BITS }
    requires there { root < row_count pool.now }
    requires root { is_trie_root (forms_in pool.now root) ≡ true }
    requires images { root ≤ length images.now }
    requires parts { root ≤ length parts.now }
    requires small { (l : ℕ) (part : Part) → slice_get parts.now l ≡ Some (Some part) → part.digit < 32 }
    ensures row { (rows : List (Form Bytes)) → All (λ e. IsEntry (slice_get rows) e) (image_entries pool.now images.now root) → ArePartsOfFirst (rules_named rules) bits pool.now rows images.now parts.now
        → IfOk result (λ o. IfSome o (IsRowOver (code_by (rules_named rules).code_of bits) (rules_named rules).deepest rows (image_entries pool.now images.now root))) }
{
    let rows = pool.rows.as_slice();
    let (own, below) = split_links(&rows[root]);
    let mut entries = Vec::new(alloc);
    add_entries(rows, images, own, rules, bits, &mut entries)?;
    match row_of_entries(alloc, entries.as_slice())? {
        Some(row) => with_parts(row, parts, below),
        None => Ok(None),
    }
}

// These entries, each at its code's digit at depth 0; none where two have the same.
fn row_of_entries(alloc: Global, entries: &[Entry<'_>]) -> Result<Option<SetsAndLinks>, NoMemory>
    ensures sets { IfOk result (λ o. IfSome o (λ row. AreSets row.entries row.nodes row.links.items)) }
    ensures row { (code : Bytes → ℕ) (deepest : ℕ) (rows : List (Form Bytes)) → AreCodedEntries code rows entries.now → IfOk result (λ o. IfSome o (IsRowOver code deepest rows (map seen entries.now))) }
{
    let mut row = SetsAndLinks::empty(alloc);
    for entry in entries {
        let position = digit(entry.code, 0);
        if !row.is_free(position) {
            return Ok(None);
        }
        row.put_entry(position, entry.place)?;
    }
    Ok(Some(row))
}

// The row with the parts of these rows besides; none where one has no part, or something stands at its digit.
fn with_parts(
    row: SetsAndLinks,
    parts: &[Option<Part>],
    below: &[u64],
) -> Result<Option<SetsAndLinks>, NoMemory>
    requires sets { AreSets row.entries row.nodes row.links.items }
    requires low { All (λ k. k < length parts.now) below.now }
    requires small { (l : ℕ) (part : Part) → slice_get parts.now l ≡ Some (Some part) → part.digit < 32 }
    ensures row { (code : Bytes → ℕ) (deepest : ℕ) (rows : List (Form Bytes)) (E : List (Named Bytes)) (entries_at : ℕ → List (Named Bytes)) → IsRowOver code deepest rows E row
        → ((l : ℕ) (part : Part) → slice_get parts.now l ≡ Some (Some part) → IsPart code deepest rows (entries_at l) part)
        → IfOk result (λ o. IfSome o (IsRowOver code deepest rows (E ++ flat_map entries_at below.now))) }
{
    let mut whole = row;
    for place in below {
        match parts[*place as usize] {
            Some(part) => {
                if !whole.is_free(part.digit) {
                    return Ok(None);
                }
                whole.put_node(part.digit, part.place)?;
            }
            None => return Ok(None),
        }
    }
    Ok(Some(whole))
}
