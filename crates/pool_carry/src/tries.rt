//! The canonical trie of some entries, in rows that are made.
ghost use Rattle.std.specs.Prelude.{◌≡◌, ℕ, ◌+◌, ◌<◌, ◌≤◌, [], ◌∷◌, length, map, slice_get, slice_index, slice_index_or, IfSome, IfOk, OnOk};
ghost use Rattle.std.specs.Ordering.{nat_cmp};
ghost use Rattle.std.specs.Cmp.Lexicographic.{slice_cmp};
ghost use Rattle.node_heap.specs.Forms.{Forms};
ghost use Rattle.champ_chain.specs.Entry.{AreDistinct, SameSet};
ghost use Rattle.champ_chain.specs.Chain.{IsChain, IsRising};
ghost use Rattle.champ_trie.specs.Trie.{IsTrie};
ghost use Rattle.pool_text.specs.Rows.{Bytes};
ghost use Rattle.pool_carry.specs.Making.{seen, forms_made, AreMade, IsBegun, AreCodedEntries, with_digit};

use crate::entries::Entry;
use crate::made::{MadeRow, MadeRows};
use crate::sets_and_links::SetsAndLinks;
use elem_core::{DEEPEST, NoMemory, digit};
use std::alloc::Global;

// The place of the canonical trie of these entries from a depth on, whose keys are different. Chains stand below the deepest
// depth, and there two entries or more.
pub(crate) fn trie_of(
    alloc: Global,
    made: &mut MadeRows,
    deepest: u8,
    depth: u8,
    entries: &[Entry<'_>],
) -> Result<u64, NoMemory>
    requires deepest { deepest ≤ DEEPEST }
    requires depth { depth ≤ deepest + 1 }
    requires two { deepest < depth → 2 ≤ length entries.now }
    requires distinct { AreDistinct (slice_cmp nat_cmp) (map seen entries.now) }
    requires named { (code : Bytes → ℕ) × AreCodedEntries code (forms_made made.old) entries.now }
    requires made { AreMade made.old }
    ensures made { OnOk result (AreMade made.new) }
    ensures more { OnOk result (IsBegun (forms_made made.old) (forms_made made.new)) }
    ensures low { IfOk result (λ place. place < length (forms_made made.new)) }
    ensures trie { (code : Bytes → ℕ) (left : ℕ) → AreCodedEntries code (forms_made made.old) entries.now → depth + left ≡ deepest + 1
        → IfOk result (λ place. IsTrie (slice_cmp nat_cmp) code (slice_get (forms_made made.new)) left depth place (map seen entries.now)) }
{
    if depth > deepest {
        return chain_of(alloc, made, entries);
    }
    let parts = parts_of(alloc, depth, entries)?;
    let mut row = SetsAndLinks::empty(alloc);
    for position in 0..32u32 {
        match parts[position as usize].as_slice() {
            [] => {}
            [entry] => row.put_entry(position, entry.place)?,
            more => {
                let node = trie_of(alloc, made, deepest, depth + 1, more)?;
                row.put_node(position, node)?;
            }
        }
    }
    made.add_trie_row(
        alloc,
        MadeRow::Trie {
            depth,
            entries: row.entries,
            nodes: row.nodes,
            links: row.links,
        },
    )
}

// The entries by their digits at a depth, in 32 lists.
fn parts_of<'a>(
    alloc: Global,
    depth: u8,
    entries: &[Entry<'a>],
) -> Result<Vec<Vec<Entry<'a>>>, NoMemory>
    requires { depth ≤ DEEPEST }
    ensures many { IfOk result (λ parts. length parts.items ≡ 32) }
    ensures each { IfOk result (λ parts. (p : ℕ) → IfSome (slice_get parts.items p) (λ part. part.items ≡ with_digit depth p entries.now)) }
{
    let mut parts = empty_parts(alloc)?;
    for entry in entries {
        let position = digit(entry.code, depth) as usize;
        parts[position].push(*entry)?;
    }
    Ok(parts)
}

// 32 lists without entries.
fn empty_parts<'a>(alloc: Global) -> Result<Vec<Vec<Entry<'a>>>, NoMemory>
    ensures many { IfOk result (λ parts. length parts.items ≡ 32) }
    ensures none { IfOk result (λ parts. (p : ℕ) → IfSome (slice_get parts.items p) (λ part. part.items ≡ [])) }
{
    let mut parts = Vec::with_capacity(alloc, 32)?;
    for _position in 0..32u32 {
        parts.push(Vec::new(alloc))?;
    }
    Ok(parts)
}

// The place of the chain of these entries, two or more with different keys. The last row is made first.
fn chain_of(alloc: Global, made: &mut MadeRows, entries: &[Entry<'_>]) -> Result<u64, NoMemory>
    requires two { 2 ≤ length entries.now }
    requires distinct { AreDistinct (slice_cmp nat_cmp) (map seen entries.now) }
    requires named { (code : Bytes → ℕ) × AreCodedEntries code (forms_made made.old) entries.now }
    requires made { AreMade made.old }
    ensures made { OnOk result (AreMade made.new) }
    ensures more { OnOk result (IsBegun (forms_made made.old) (forms_made made.new)) }
    ensures low { IfOk result (λ place. place < length (forms_made made.new)) }
    ensures chain { IfOk result (λ place. IsChain (slice_cmp nat_cmp) (slice_get (forms_made made.new)) place (map seen entries.now)) }
{
    let mut left = rising(alloc, entries)?;
    let mut rest = None;
    while let Some(entry) = left.pop() {
        rest = Some(made.add_trie_row(alloc, MadeRow::Chain(entry.place, rest))?);
    }
    match rest {
        Some(place) => Ok(place),
        None => unreachable!(),
    }
}

// The entries, whose keys are different, in rising order of the keys.
fn rising<'a>(alloc: Global, entries: &[Entry<'a>]) -> Result<Vec<Entry<'a>>, NoMemory>
    requires { AreDistinct (slice_cmp nat_cmp) (map seen entries.now) }
    ensures same { IfOk result (λ sorted. SameSet (map seen sorted.items) (map seen entries.now)) }
    ensures rising { IfOk result (λ sorted. IsRising (slice_cmp nat_cmp) (map seen sorted.items)) }
{
    let mut sorted = Vec::from_slice(alloc, entries)?;
    sorted.sort()?;
    Ok(sorted)
}
