//! Tries.
ghost use Rattle.std.specs.Prelude.{◌≡◌, ℕ, ◌↔◌, ◌+◌, ◌-◌, ◌*◌, ◌≤◌, List, length, MatchOption, IsTrue, if◌then◌else◌};
ghost use Rattle.std.specs.List.{All, AllZip};
ghost use Rattle.elem_core.specs.declared.codes.TheConstants.{DEEPEST};
ghost use Rattle.node_heap.specs.Heap.{form_at};
ghost use Rattle.node_heap.specs.Glass.{lent};
ghost use Rattle.champ_trie.specs.Trie.{IsRow};
ghost use Rattle.champ_trie.specs.Bits.{rank};
ghost use Rattle.same_value.specs.Congruent.{Congruent, IsFrom};
ghost use Rattle.same_value.specs.Apart.{Spends};

use crate::chains::same_chains;
use crate::compare::{Both, ComparesEntries};
use elem_core::{DEEPEST, Element};
use node_heap::{Glass, Kind, Link, Steps};
use std::sync::ledger::Ledger;

// The positions of a trie row: those of its entries, and those of its nodes.
#[derive(Clone, Copy)]
struct Positions {
    entries: u32,
    nodes: u32,
}

// The positions of the trie row at a link, in one step.
fn positions_of<T, L: Ledger>(glass: &Glass<'_, T>, link: Link, steps: &mut Steps<L>) -> Positions
    requires { (depth entries nodes : ℕ) × (links : List ℕ) × IsRow (form_at (lent glass.now)) link depth entries nodes links }
    ensures positions { (depth entries nodes : ℕ) (links : List ℕ) → IsRow (form_at (lent glass.now)) link depth entries nodes links →
        (result.entries ≡ entries) × (result.nodes ≡ nodes) }
    ensures step { steps.new ≡ steps.old + 1 }
{
    match glass.kind(link, steps) {
        Some(Kind::Trie { entries, nodes, .. }) => Positions { entries, nodes },
        _ => unreachable!(),
    }
}

// How many entries each of two trie rows has where they have entries and nodes at the same positions, and else None. It
// takes two steps.
fn entries_of_both<T, L: Ledger>(
    glass: &Glass<'_, T>,
    left: Link,
    right: Link,
    steps: &mut Steps<L>,
) -> Option<usize>
    requires left { (depth e n : ℕ) × (ls : List ℕ) × IsRow (form_at (lent glass.now)) left depth e n ls }
    requires right { (depth e n : ℕ) × (ls : List ℕ) × IsRow (form_at (lent glass.now)) right depth e n ls }
    ensures same { (d e n c m k : ℕ) (ls ks : List ℕ) → IsRow (form_at (lent glass.now)) left d e n ls → IsRow (form_at (lent glass.now)) right c m k ks →
        MatchOption result (¬ ((e ≡ m) × (n ≡ k))) (λ count. (e ≡ m) × (n ≡ k) × (count ≡ rank e 32)) }
    ensures steps { steps.new ≡ steps.old + 2 }
{
    let first = positions_of(glass, left, steps);
    let second = positions_of(glass, right, steps);
    if first.entries == second.entries && first.nodes == second.nodes {
        Some(first.entries.count_ones() as usize)
    } else {
        None
    }
}

// Whether the entries are the same, place by place, of which there are as many on both sides.
fn same_in_turn<T: Element, C: ComparesEntries<T>, L: Ledger>(
    glass: &Glass<'_, T>,
    links: &[Link],
    others: &[Link],
    how: &C,
    steps: &mut Steps<L>,
) -> bool
    requires reads { C.reads how.now (lent glass.now) }
    requires number { length links.now ≡ length others.now }
    requires left { All (C.good how.now (lent glass.now)) links.now }
    requires right { All (C.good how.now (lent glass.now)) others.now }
    ensures same { IsTrue result ↔ AllZip (C.same how.now (lent glass.now)) links.now others.now }
    ensures few { C.counted → steps.new ≤ steps.old + 6 * length links.now }
{
    for place in 0..links.len() {
        let both = Both {
            left: links[place],
            right: others[place],
        };
        if !how.are_same(glass, both, steps) {
            return false;
        }
    }
    true
}

// Whether two tries from a depth down have the same entries. It takes 204 steps at most for each row of the first that the
// second hasn't, and below the deepest row eight more where they differ.
pub(crate) fn same_tries<T: Element, C: ComparesEntries<T>, L: Ledger>(
    glass: &Glass<'_, T>,
    left: Link,
    right: Link,
    depth: u8,
    how: &C,
    steps: &mut Steps<L>,
) -> bool
    requires reads { C.reads how.now (lent glass.now) }
    requires tries { (code : T → ℕ) × IsFrom T.cmp (form_at (lent glass.now)) (C.good how.now (lent glass.now)) code depth left
        × IsFrom T.cmp (form_at (lent glass.now)) (C.good how.now (lent glass.now)) code depth right }
    ensures congruent { IsTrue result ↔ Congruent (form_at (lent glass.now)) (C.same how.now (lent glass.now)) left right }
    ensures few { C.counted → Spends (form_at (lent glass.now)) left right steps.old steps.new (if result then 0 else 8 * (depth - DEEPEST)) }
{
    if left == right {
        return true;
    }
    if depth > DEEPEST {
        return same_chains(glass, left, right, how, steps);
    }
    let entries = match entries_of_both(glass, left, right, steps) {
        Some(entries) => entries,
        None => return false,
    };
    let links = glass.links(left, steps);
    let others = glass.links(right, steps);
    if !same_in_turn(glass, &links[..entries], &others[..entries], how, steps) {
        return false;
    }
    for place in entries..links.len() {
        if !same_tries(glass, links[place], others[place], depth + 1, how, steps) {
            return false;
        }
    }
    true
}
