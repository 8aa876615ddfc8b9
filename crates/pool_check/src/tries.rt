//! The test of trie rows and chain rows: each is looked at once, and what the rows above it ask of it is kept.
ghost use Rattle.std.specs.Prelude.{◌≡◌, ℕ, ◌≤◌, ◌<◌, List, [], ◌∷◌, length, map, true, Some, is_some, IfOk, IfSome, nat_lt};
ghost use Rattle.std.specs.List.{list_all};
ghost use Rattle.node_heap.specs.Forms.{value_of, node, chain};
ghost use Rattle.champ_trie.specs.Trie.{code_by};
ghost use Rattle.pool_text.specs.Rows.{Bytes, is_in_range_to, row_form};
ghost use Rattle.pool_text.specs.Rules.{rules_named};
ghost use Rattle.pool_text.specs.Pool.{forms_in, row_count};
ghost use Rattle.pool_check.specs.Rows.{rows_in_range_by, links_lead_back};
ghost use Rattle.pool_check.specs.Tries.{is_before, tries_stand_by};
ghost use Rattle.pool_check.specs.Keeping.{forms_at, kept_entry, canonical_kept, AreKept};

use crate::trie_row::{KeptRow, trie_row};
use elem_core::{CODE_BITS, NoMemory, masked};
use pool_text::{Pool, Row, Rules};

// What is kept of the rows, of which that of the first is given, where every trie row and every chain row is canonical by these rules,
// and None where one isn't.
pub(crate) fn kept_of(
    pool: &Pool,
    rules: Rules,
    mut kept: Vec<KeptRow>,
) -> Result<Option<Vec<KeptRow>>, NoMemory>
    requires first { AreKept (row_count pool.now) (forms_in pool.now) (code_by (rules_named rules).code_of pool.now.bits) (rules_named rules).deepest kept.items }
    requires bits { pool.now.bits ≤ CODE_BITS }
    requires rows { rows_in_range_by (rules_named rules) pool.now ≡ true }
    requires links { links_lead_back pool.now ≡ true }
    ensures stand { IfOk result (λ found. is_some found ≡ tries_stand_by (rules_named rules) pool.now) }
    ensures kept { IfOk result (λ found. IfSome found (λ kept. AreKept (row_count pool.now) (forms_in pool.now) (code_by (rules_named rules).code_of pool.now.bits) (rules_named rules).deepest kept.items)) }
    ensures count { IfOk result (λ found. IfSome found (λ kept. length kept.items ≡ row_count pool.now)) }
{
    let rows = pool.rows.as_slice();
    for place in kept.len()..rows.len() {
        match kept_row(rows, &kept, rules, pool.bits) {
            Some(row) => kept.push(row)?,
            None => return Ok(None),
        }
    }
    Ok(Some(kept))
}

// What is kept of the first row after those of which something was kept, if it is canonical.
fn kept_row(rows: &[Row], kept: &[KeptRow], rules: Rules, bits: u32) -> Option<KeptRow>
    requires bits { bits ≤ CODE_BITS }
    requires place { length kept.now < length rows.now }
    requires rows { list_all (is_in_range_to (rules_named rules).deepest) (map row_form rows.now) ≡ true }
    requires kept { AreKept (length rows.now) (forms_at rows.now) (code_by (rules_named rules).code_of bits) (rules_named rules).deepest kept.now }
    ensures { result ≡ canonical_kept (length rows.now) (forms_at rows.now) (code_by (rules_named rules).code_of bits) (rules_named rules).deepest (length kept.now) }
{
    match &rows[kept.len()] {
        Row::Cell(text) => Some(KeptRow::Entry {
            cell: kept.len() as u64,
            code: masked(rules.code(text.as_str()), bits),
        }),
        Row::Pair(key, _) => Some(kept_pair(rows, kept, *key)),
        Row::Trie {
            depth,
            entries,
            nodes,
            links,
        } => trie_row(
            kept,
            rules.deepest(),
            *depth,
            *entries,
            *nodes,
            links.as_slice(),
        ),
        Row::Chain(links) => chain_row(rows, kept, links.as_slice()),
        Row::Leaf(_) | Row::Inner(..) | Row::State(..) => Some(KeptRow::Other),
    }
}

// What is kept of a pair with this key.
fn kept_pair(rows: &[Row], kept: &[KeptRow], key: u64) -> KeptRow
    requires rows { key < length rows.now }
    requires below { key < length kept.now }
    ensures { (n : ℕ) (code : Bytes → ℕ) (deepest : ℕ) → AreKept n (forms_at rows.now) code deepest kept.now
        → result ≡ kept_entry code key (value_of (forms_at rows.now key)) }
{
    match &rows[key as usize] {
        Row::Cell(_) => kept[key as usize],
        _ => KeptRow::Other,
    }
}

// What is kept of a chain row with these links, if it is canonical.
fn chain_row(rows: &[Row], kept: &[KeptRow], links: &[u64]) -> Option<KeptRow>
    requires kept { (n : ℕ) × (code : Bytes → ℕ) × (deepest : ℕ) × AreKept n (forms_at rows.now) code deepest kept.now }
    requires below { list_all (λ k. nat_lt k (length kept.now)) links.now ≡ true }
    ensures { (n : ℕ) (code : Bytes → ℕ) (deepest l : ℕ) → AreKept n (forms_at rows.now) code deepest kept.now → l < n
        → forms_at rows.now l ≡ Some (node chain links.now) → result ≡ canonical_kept n (forms_at rows.now) code deepest l }
{
    match links {
        [entry] => match kept[*entry as usize] {
            KeptRow::Entry { cell, code } => Some(KeptRow::Chain {
                cell,
                code,
                two: false,
            }),
            _ => None,
        },
        [entry, next] => chained(rows, kept, *entry, *next),
        _ => None,
    }
}

// What is kept of a chain row of this entry and this chain, if it is canonical.
fn chained(rows: &[Row], kept: &[KeptRow], entry: u64, next: u64) -> Option<KeptRow>
    requires kept { (n : ℕ) × (code : Bytes → ℕ) × (deepest : ℕ) × AreKept n (forms_at rows.now) code deepest kept.now }
    requires entry { entry < length kept.now }
    requires next { next < length kept.now }
    ensures { (n : ℕ) (code : Bytes → ℕ) (deepest l : ℕ) → AreKept n (forms_at rows.now) code deepest kept.now → l < n
        → forms_at rows.now l ≡ Some (node chain (entry ∷ next ∷ [])) → result ≡ canonical_kept n (forms_at rows.now) code deepest l }
{
    let KeptRow::Entry { cell, code } = kept[entry as usize] else {
        return None;
    };
    let KeptRow::Chain {
        cell: next_cell,
        code: next_code,
        ..
    } = kept[next as usize]
    else {
        return None;
    };
    if code == next_code && is_text_before(rows, cell, next_cell) {
        Some(KeptRow::Chain {
            cell,
            code,
            two: true,
        })
    } else {
        None
    }
}

// Whether both places have cells, and the first one's text is smaller than the second's, in byte order.
fn is_text_before(rows: &[Row], first: u64, second: u64) -> bool
    requires first { first < length rows.now }
    requires second { second < length rows.now }
    ensures { result ≡ is_before (value_of (forms_at rows.now first)) (value_of (forms_at rows.now second)) }
{
    match (&rows[first as usize], &rows[second as usize]) {
        (Row::Cell(a), Row::Cell(b)) => a.as_str().cmp(b.as_str()).is_lt(),
        _ => false,
    }
}
