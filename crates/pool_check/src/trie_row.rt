//! The test of one trie row over what is kept of the rows before it.
ghost use Rattle.std.specs.Prelude.{◌≡◌, ℕ, ◌<◌, ◌≤◌, ◌%◌, ◌*◌, ◌^◌, ◌+◌, ◌++◌, length, map, true, Some, None, ◌==◌, ◌||◌, nat_lt, nat_le, option_map, IfSome, if◌then◌else◌};
ghost use Rattle.std.specs.List.{list_all};
ghost use Rattle.node_heap.specs.Forms.{Forms, node, trie};
ghost use Rattle.champ_trie.specs.Bits.{has, rank};
ghost use Rattle.pool_text.specs.Rows.{Bytes};
ghost use Rattle.pool_check.specs.Tries.{all_same};
ghost use Rattle.pool_check.specs.Keeping.{code_at, codes_by, codes_in, code_of_entry, code_of_node, digits_are, codes_stand, kept_node as node_kept, canonical_kept, AreKept};

use arrayvec::ArrayVec;
use elem_core::{Code, DEEPEST, digit, masked};

// What is kept of a row for the rows above it.
#[derive(Clone, Copy)]
pub(crate) enum KeptRow {
    // An entry: the place of its key's cell, and the key's code.
    Entry { cell: u64, code: Code },
    // A trie row over an entry or more: its depth, and the code of the first key below it.
    Node { depth: u8, code: Code },
    // A chain row: the place of its first key's cell, the code of its keys, and whether it has two links.
    Chain { cell: u64, code: Code, two: bool },
    // Any other row.
    Other,
}

// The two parts of a trie row's links.
#[derive(Clone, Copy)]
pub(crate) enum Part {
    // The entries, which come first.
    Entries,
    // The sub-nodes.
    Nodes,
}

// What is kept of a trie row of these sets and links, if it is canonical where tries go so deep.
pub(crate) fn trie_row(
    kept: &[KeptRow],
    deepest: u8,
    depth: u8,
    entries: u32,
    nodes: u32,
    links: &[u64],
) -> Option<KeptRow>
    requires depth { depth ≤ DEEPEST }
    requires few { length links.now ≤ 32 }
    requires below { list_all (λ k. nat_lt k (length kept.now)) links.now ≡ true }
    ensures { (n : ℕ) (F : Forms Bytes) (code : Bytes → ℕ) (l : ℕ) → AreKept n F code deepest kept.now → l < n
        → F l ≡ Some (node (trie depth entries nodes) links.now) → result ≡ canonical_kept n F code deepest l }
{
    if entries & nodes != 0 {
        return None;
    }
    let own = entries.count_ones() as usize;
    if links.len() < own {
        return None;
    }
    let codes = codes_of(kept, deepest, depth, own, links)?;
    if !codes_are_of(depth, entries, nodes, codes.as_slice()) {
        return None;
    }
    if !are_enough(depth, own, links.len()) {
        return None;
    }
    Some(kept_node(depth, codes.as_slice()))
}

// Whether a row of so many own entries and so many links can stand at the depth: below the first one, with two entries or
// more. A sub-node has two itself.
fn are_enough(depth: u8, own: usize, links: usize) -> bool
    ensures { result ≡ ((depth == 0) || (nat_lt own links || nat_le 2 own)) }
{
    depth == 0 || own < links || 2 <= own
}

// What is kept of a trie row with these codes of keys below it.
fn kept_node(depth: u8, codes: &[Code]) -> KeptRow
    ensures { result ≡ node_kept depth codes.now }
{
    match codes {
        [first, ..] => KeptRow::Node {
            depth,
            code: *first,
        },
        [] => KeptRow::Other,
    }
}

// For each link the code of the first key there, if the first `own` links name entries, and the others sub-nodes.
fn codes_of(
    kept: &[KeptRow],
    deepest: u8,
    depth: u8,
    own: usize,
    links: &[u64],
) -> Option<ArrayVec<Code, 32>>
    requires depth { depth ≤ DEEPEST }
    requires own { own ≤ length links.now }
    requires few { length links.now ≤ 32 }
    requires below { list_all (λ k. nat_lt k (length kept.now)) links.now ≡ true }
    ensures long { IfSome result (λ codes. length codes.items ≡ length links.now) }
    ensures codes { (n : ℕ) (F : Forms Bytes) (code : Bytes → ℕ) → AreKept n F code deepest kept.now
        → option_map (λ codes. codes.items) result ≡ codes_in n F code deepest depth own links.now }
{
    let mut codes = ArrayVec::new();
    if !add_codes(
        kept,
        Part::Entries,
        deepest,
        depth,
        &links[..own],
        &mut codes,
    ) {
        return None;
    }
    if !add_codes(kept, Part::Nodes, deepest, depth, &links[own..], &mut codes) {
        return None;
    }
    Some(codes)
}

// Adds the code of the first key at each link of this part; false where one isn't of the part.
fn add_codes(
    kept: &[KeptRow],
    part: Part,
    deepest: u8,
    depth: u8,
    links: &[u64],
    codes: &mut ArrayVec<Code, 32>,
) -> bool
    requires depth { depth ≤ DEEPEST }
    requires room { length codes.old.items + length links.now ≤ 32 }
    requires below { list_all (λ k. nat_lt k (length kept.now)) links.now ≡ true }
    ensures long { result ≡ true → length codes.new.items ≡ length codes.old.items + length links.now }
    ensures codes { (n : ℕ) (F : Forms Bytes) (code : Bytes → ℕ) → AreKept n F code deepest kept.now
        → option_map (λ cs. codes.old.items ++ cs) (codes_by (code_at n F code deepest part depth) links.now)
        ≡ (if result then Some codes.new.items else None) }
{
    for link in links {
        match code_of(kept, part, deepest, depth, *link) {
            Some(code) => codes.push(code),
            None => return false,
        }
    }
    true
}

// The code of the first key at the link, if it names an entry, or a sub-node of a trie row of this depth.
fn code_of(kept: &[KeptRow], part: Part, deepest: u8, depth: u8, link: u64) -> Option<Code>
    requires depth { depth ≤ DEEPEST }
    requires below { link < length kept.now }
    ensures { (n : ℕ) (F : Forms Bytes) (code : Bytes → ℕ) → AreKept n F code deepest kept.now
        → result ≡ code_at n F code deepest part depth link }
{
    match part {
        Part::Entries => entry_code(kept[link as usize]),
        Part::Nodes => node_code(kept[link as usize], deepest, depth),
    }
}

// The code that is kept of an entry.
fn entry_code(kept: KeptRow) -> Option<Code>
    ensures { result ≡ code_of_entry kept }
{
    match kept {
        KeptRow::Entry { code, .. } => Some(code),
        _ => None,
    }
}

// The code that is kept of a sub-node of a trie row of this depth.
fn node_code(kept: KeptRow, deepest: u8, depth: u8) -> Option<Code>
    requires { depth ≤ DEEPEST }
    ensures { result ≡ code_of_node deepest depth kept }
{
    match kept {
        KeptRow::Node { depth: own, code } => (own == depth + 1).then_some(code),
        KeptRow::Chain { code, two, .. } => (depth == deepest && two).then_some(code),
        _ => None,
    }
}

// Whether there is a code for each position of the two sets, with the position as its digit, and all agree above the depth.
fn codes_are_of(depth: u8, entries: u32, nodes: u32, codes: &[Code]) -> bool
    requires depth { depth ≤ DEEPEST }
    requires own { rank entries 32 ≤ length codes.now }
    ensures { result ≡ codes_stand depth entries nodes codes.now }
{
    let own = entries.count_ones() as usize;
    have_digits(entries, depth, &codes[..own])
        && have_digits(nodes, depth, &codes[own..])
        && agree_above(depth, codes)
}

// Whether the codes have the positions of the set as their digits at the depth, one by one.
fn have_digits(set: u32, depth: u8, codes: &[Code]) -> bool
    requires { depth ≤ DEEPEST }
    ensures { result ≡ digits_are depth set codes.now }
{
    let mut next = 0;
    for position in 0..32 {
        if contains(set, position) {
            if next == codes.len() || digit(codes[next], depth) != position {
                return false;
            }
            next += 1;
        }
    }
    next == codes.len()
}

// Whether the position is in the set, a number whose bits are its positions.
fn contains(set: u32, position: u32) -> bool
    requires { position < 32 }
    ensures { result ≡ has set position }
{
    (set >> position) & 1 == 1
}

// Whether all codes agree on their digits above the depth.
fn agree_above(depth: u8, codes: &[Code]) -> bool
    requires { depth ≤ DEEPEST }
    ensures { result ≡ all_same (map (λ code. code % 2 ^ (5 * depth)) codes.now) }
{
    let bits = 5 * u32::from(depth);
    for code in codes {
        if masked(*code, bits) != masked(codes[0], bits) {
            return false;
        }
    }
    true
}
