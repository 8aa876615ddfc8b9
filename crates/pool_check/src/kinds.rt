//! The test of the roots' kinds: each row is looked at once, and what it is and is over is kept for the rows above it.
ghost use Rattle.std.specs.Prelude.{◌≡◌, ℕ, ◌<◌, ◌≤◌, ◌&&◌, true, nat_lt, take, drop, length, IfOk};
ghost use Rattle.std.specs.List.{list_all};
ghost use Rattle.node_heap.specs.Forms.{Forms};
ghost use Rattle.pool_text.specs.Rows.{Bytes};
ghost use Rattle.pool_text.specs.Pool.{row_count};
ghost use Rattle.pool_check.specs.Kinds.{roots_are_of_kind as all_are};
ghost use Rattle.pool_check.specs.Roots.{are_of, roots_are_of as are_of_kinds};
ghost use Rattle.pool_check.specs.Facts.{facts_at, facts_in, no_facts, of_both, AreFacts, common_facts, facts_are, facts_over_entries, HasRowsThatStand};

use crate::root::RootKind;
use elem_core::{NoMemory, is_name};
use pool_text::{Pool, Row};
use std::alloc::Global;

// What is kept of a row: what it is, and what all elements of a vector row or all entries of a trie row or a chain row are.
#[derive(Clone, Copy)]
pub(crate) struct RowFacts {
    pub(crate) cell: bool,
    // A cell that is a name.
    pub(crate) name: bool,
    // A state of a map of buffers and a set of stars.
    pub(crate) state: bool,
    // A pair of a name and a vector of cells.
    pub(crate) named_lines: bool,
    // A pair of a name and a state.
    pub(crate) named_state: bool,
    // A pair of two cells.
    pub(crate) cell_pair: bool,
    // A pair of a cell and a vector of cells.
    pub(crate) lines_pair: bool,
    // A row that can be the root of a vector or of a trie.
    pub(crate) root: bool,
    pub(crate) over_cells: bool,
    pub(crate) over_states: bool,
    pub(crate) over_names: bool,
    pub(crate) over_named_lines: bool,
    pub(crate) over_named_states: bool,
    pub(crate) over_keys: bool,
    pub(crate) over_cell_pairs: bool,
    pub(crate) over_lines_pairs: bool,
}

const NOTHING: RowFacts = RowFacts {
    cell: false,
    name: false,
    state: false,
    named_lines: false,
    named_state: false,
    cell_pair: false,
    lines_pair: false,
    root: false,
    over_cells: false,
    over_states: false,
    over_names: false,
    over_named_lines: false,
    over_named_states: false,
    over_keys: false,
    over_cell_pairs: false,
    over_lines_pairs: false,
};

const EVERYTHING: RowFacts = RowFacts {
    cell: true,
    name: true,
    state: true,
    named_lines: true,
    named_state: true,
    cell_pair: true,
    lines_pair: true,
    root: true,
    over_cells: true,
    over_states: true,
    over_names: true,
    over_named_lines: true,
    over_named_states: true,
    over_keys: true,
    over_cell_pairs: true,
    over_lines_pairs: true,
};

// What the roots of a space are, and those of one in a batch.
pub(crate) const SPACE: [RootKind; 4] = [
    RootKind::State,
    RootKind::Versions,
    RootKind::History,
    RootKind::History,
];

const IN_BATCH: [RootKind; 5] = [
    RootKind::State,
    RootKind::Versions,
    RootKind::History,
    RootKind::History,
    RootKind::State,
];

// Whether the roots are those of a space: a state, a versions map and two histories, and in a batch a further state.
pub(crate) fn roots_are_of_kind(alloc: Global, pool: &Pool) -> Result<bool, NoMemory>
    requires stand { HasRowsThatStand pool.now }
    ensures { IfOk result (λ are. are ≡ all_are pool.now) }
{
    if pool.roots.as_slice().len() == 5 {
        return roots_are_of(alloc, pool, &IN_BATCH);
    }
    roots_are_of(alloc, pool, &SPACE)
}

// Whether the roots are of these kinds.
pub(crate) fn roots_are_of(alloc: Global, pool: &Pool, kinds: &[RootKind]) -> Result<bool, NoMemory>
    requires stand { HasRowsThatStand pool.now }
    ensures { IfOk result (λ are. are ≡ are_of_kinds kinds.now pool.now) }
{
    let none = Vec::with_capacity(alloc, pool.rows.as_slice().len())?;
    let facts = facts_of_rows(pool, none)?;
    Ok(are_roots(facts.as_slice(), kinds, pool.roots.as_slice()))
}

// The facts of the rows, of which those of the first are given.
pub(crate) fn facts_of_rows(
    pool: &Pool,
    mut facts: Vec<RowFacts>,
) -> Result<Vec<RowFacts>, NoMemory>
    requires stand { HasRowsThatStand pool.now }
    requires first { AreFacts (facts_in pool.now) facts.items }
    requires few { length facts.items ≤ row_count pool.now }
    ensures facts { IfOk result (λ facts. AreFacts (facts_in pool.now) facts.items) }
    ensures count { IfOk result (λ facts. length facts.items ≡ row_count pool.now) }
{
    let count = pool.rows.as_slice().len();
    for _place in facts.len()..count {
        facts.push(row_facts(pool, facts.as_slice()))?;
    }
    Ok(facts)
}

// Whether there are as many roots as kinds, each of its own.
pub(crate) fn are_roots(kept: &[RowFacts], kinds: &[RootKind], roots: &[u64]) -> bool
    requires { list_all (λ k. nat_lt k (length kept.now)) roots.now ≡ true }
    ensures { (n : ℕ) (F : Forms Bytes) → AreFacts (facts_at n F) kept.now → result ≡ are_of n F kinds.now roots.now }
{
    if kinds.len() != roots.len() {
        return false;
    }
    for place in 0..roots.len() {
        if !is_root(facts_of(kept, roots[place]), kinds[place]) {
            return false;
        }
    }
    true
}

// Whether the row of these facts is the root of what the kind says.
fn is_root(row: RowFacts, kind: RootKind) -> bool
    ensures { result ≡ facts_are kind row }
{
    match kind {
        RootKind::Lines => row.root && row.over_cells,
        RootKind::Cells => row.root && row.over_keys,
        RootKind::CellMap => row.root && row.over_cell_pairs,
        RootKind::LinesMap => row.root && row.over_lines_pairs,
        RootKind::Names => row.root && row.over_names,
        RootKind::NamedLines => row.root && row.over_named_lines,
        RootKind::State => row.state,
        RootKind::Versions => row.root && row.over_named_states,
        RootKind::History => row.root && row.over_states,
    }
}

// The facts of the first row of which none are kept.
fn row_facts(pool: &Pool, kept: &[RowFacts]) -> RowFacts
    requires stand { HasRowsThatStand pool.now }
    requires more { length kept.now < row_count pool.now }
    requires kept { AreFacts (facts_in pool.now) kept.now }
    ensures { result ≡ facts_in pool.now (length kept.now) }
{
    match &pool.rows.as_slice()[kept.len()] {
        Row::Cell(text) => RowFacts {
            cell: true,
            name: is_name(text.as_str()),
            ..NOTHING
        },
        Row::Leaf(links) => {
            let all = common(kept, links.as_slice());
            vector_facts(true, all.cell, all.state)
        }
        Row::Inner(_, links) => {
            let all = common(kept, links.as_slice());
            vector_facts(2 <= links.as_slice().len(), all.over_cells, all.over_states)
        }
        Row::Trie {
            depth,
            entries,
            links,
            ..
        } => trie_facts(
            kept,
            *depth == 0,
            entries.count_ones() as usize,
            links.as_slice(),
        ),
        Row::Chain(links) => trie_facts(kept, false, 1, links.as_slice()),
        Row::Pair(key, value) => pair_facts(facts_of(kept, *key), facts_of(kept, *value)),
        Row::State(buffers, stars) => RowFacts {
            state: is_state(facts_of(kept, *buffers), facts_of(kept, *stars)),
            ..NOTHING
        },
    }
}

// The facts of a vector row that is a root or not, by whether all its elements are cells, and whether all are states.
fn vector_facts(root: bool, over_cells: bool, over_states: bool) -> RowFacts
    ensures { result ≡ record no_facts { root = root; over_cells = over_cells; over_states = over_states } }
{
    RowFacts {
        root,
        over_cells,
        over_states,
        ..NOTHING
    }
}

// The facts of a trie row or a chain row, so many of whose links are entries.
fn trie_facts(kept: &[RowFacts], root: bool, count: usize, links: &[u64]) -> RowFacts
    requires count { count ≤ length links.now }
    requires low { list_all (λ k. nat_lt k (length kept.now)) links.now ≡ true }
    ensures { (facts : ℕ → RowFacts) → AreFacts facts kept.now
        → result ≡ facts_over_entries root (common_facts facts (take count links.now)) (common_facts facts (drop count links.now)) }
{
    let (entries, rows) = links.split_at(count);
    let own = common(kept, entries);
    let below = common(kept, rows);
    RowFacts {
        root,
        over_names: own.name & below.over_names,
        over_named_lines: own.named_lines & below.over_named_lines,
        over_named_states: own.named_state & below.over_named_states,
        over_keys: own.cell & below.over_keys,
        over_cell_pairs: own.cell_pair & below.over_cell_pairs,
        over_lines_pairs: own.lines_pair & below.over_lines_pairs,
        ..NOTHING
    }
}

// The facts of a pair of rows of these facts.
fn pair_facts(key: RowFacts, value: RowFacts) -> RowFacts
    ensures { result ≡ record no_facts {
      named_lines = key.name && (value.root && value.over_cells);
      named_state = key.name && value.state;
      cell_pair = key.cell && value.cell;
      lines_pair = key.cell && (value.root && value.over_cells);
    } }
{
    RowFacts {
        named_lines: key.name & value.root & value.over_cells,
        named_state: key.name & value.state,
        cell_pair: key.cell & value.cell,
        lines_pair: key.cell & value.root & value.over_cells,
        ..NOTHING
    }
}

// Whether two rows of these facts are the map of buffers and the set of stars of a state.
fn is_state(buffers: RowFacts, stars: RowFacts) -> bool
    ensures { result ≡ ((buffers.root && buffers.over_named_lines) && (stars.root && stars.over_names)) }
{
    buffers.root && buffers.over_named_lines && stars.root && stars.over_names
}

// The facts that hold of all these rows.
fn common(kept: &[RowFacts], links: &[u64]) -> RowFacts
    requires { list_all (λ k. nat_lt k (length kept.now)) links.now ≡ true }
    ensures { (facts : ℕ → RowFacts) → AreFacts facts kept.now → result ≡ common_facts facts links.now }
{
    let mut all = EVERYTHING;
    for link in links {
        all = common_to(all, facts_of(kept, *link));
    }
    all
}

// The facts that hold of both rows.
fn common_to(a: RowFacts, b: RowFacts) -> RowFacts
    ensures { result ≡ of_both a b }
{
    RowFacts {
        cell: a.cell & b.cell,
        name: a.name & b.name,
        state: a.state & b.state,
        named_lines: a.named_lines & b.named_lines,
        named_state: a.named_state & b.named_state,
        cell_pair: a.cell_pair & b.cell_pair,
        lines_pair: a.lines_pair & b.lines_pair,
        root: a.root & b.root,
        over_cells: a.over_cells & b.over_cells,
        over_states: a.over_states & b.over_states,
        over_names: a.over_names & b.over_names,
        over_named_lines: a.over_named_lines & b.over_named_lines,
        over_named_states: a.over_named_states & b.over_named_states,
        over_keys: a.over_keys & b.over_keys,
        over_cell_pairs: a.over_cell_pairs & b.over_cell_pairs,
        over_lines_pairs: a.over_lines_pairs & b.over_lines_pairs,
    }
}

// The facts of the row that the link names.
fn facts_of(kept: &[RowFacts], link: u64) -> RowFacts
    requires { link < length kept.now }
    ensures { (facts : ℕ → RowFacts) → AreFacts facts kept.now → result ≡ facts link }
{
    kept[link as usize]
}
