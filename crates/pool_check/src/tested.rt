//! Pools whose rows were tested, with what was found of each, so that rows behind them are tested alone.
ghost use Rattle.std.specs.Prelude.{◌≡◌, ◌≢◌, ◌≤◌, ◌++◌, length, true, None, Some, IfOk, IfErr};
ghost use Rattle.std.specs.List.{list_all};
ghost use Rattle.pool_text.specs.Rows.{is_in_range};
ghost use Rattle.pool_text.specs.Rules.{present_rules};
ghost use Rattle.pool_check.specs.Damages.{open_damage, row_damage, rows_in_order as all_in_order, RowsPass};
ghost use Rattle.pool_check.specs.Tested.{IsFound, IsNothing, FollowsFound};

use crate::kinds::{RowFacts, SPACE, are_roots, facts_of_rows};
use crate::order::rows_in_order;
use crate::rows::{links_lead_back, texts_are_lines};
use crate::trie_row::KeptRow;
use crate::tries::kept_of;
use crate::vectors::{Shape, shapes_of, undo_length};
use elem_core::{CODE_BITS, NoMemory};
use pool_text::{Damage, Places, Pool, Row, Rows, Rules};
use std::alloc::Global;
use std::marker::Model;

// What was found of each row.
#[derive(Drop)]
pub(crate) struct RowsFound {
    pub(crate) shapes: Vec<Option<Shape>>,
    pub(crate) kept: Vec<KeptRow>,
    pub(crate) facts: Vec<RowFacts>,
}

/// A pool of four roots that passes the tests `Link` to `Kind`, and what was found of each of its rows, so that more rows can be tested
/// behind them. Contracts see the pool.
#[derive(Drop)]
pub struct Tested {
    pool: Pool,
    found: RowsFound,
}

impl Model for Tested {
    ghost use Rattle.pool_text.specs.declared.pool.Pool.{Pool};
    ghost use Rattle.pool_check.specs.Tested.{IsTested};

    ghost Value = { Pool };

    ghost view = { λ tested. tested.pool };

    ghost invariant = { λ tested. IsTested tested.pool tested.found };
}

impl Tested {
    /// The pool. It takes no memory.
    pub fn pool(&self) -> &Pool
        ensures same { result.now ≡ self.now }
        ensures passed { open_damage present_rules result.now ≡ None }
    {
        &self.pool
    }

    /// Whether its rows stand in their order, which is the test `Order`. It takes time and memory for the rows and their links.
    pub fn is_in_order(&self, alloc: Global) -> Result<bool, NoMemory>
        ensures { IfOk result (λ are. are ≡ all_in_order self.now) }
    {
        rows_in_order(alloc, &self.pool)
    }
}

/// Makes the tests `Link` to `Kind` of a pool of four roots whose rows are in range, which ask nothing of the order of its rows.
/// Refused with the first that fails, and with `Memory` where memory runs out. It looks at each row once for each test, takes time for
/// the rows and their links, and keeps some 50 bytes for each row.
pub fn check_open(alloc: Global, pool: Pool) -> Result<Tested, Damage>
    requires bits { pool.bits ≤ CODE_BITS }
    requires roots { length pool.roots ≡ 4 }
    requires rows { list_all is_in_range pool.rows ≡ true }
    ensures same { IfOk result (λ tested. tested ≡ pool) }
    ensures passed { IfOk result (λ _. open_damage present_rules pool ≡ None) }
    ensures damage { IfErr result (λ d. d ≢ Damage.Memory → open_damage present_rules pool ≡ Some d) }
{
    let found = nothing_found(alloc, pool.rows.as_slice().len())?;
    make_tested(pool, found)
}

/// Makes the same tests of the pool with rows in range behind its own, from other roots and with another bound of undo. Refused with
/// the first that fails, and with `Memory` where memory runs out; a refused pool is dropped. It looks at the new rows alone, takes time
/// and memory for them and their links, and now and then copies the lists of all rows, as lists grow.
pub fn check_more(tested: Tested, rows: Rows, roots: Places, history: u32) -> Result<Tested, Damage>
    requires roots { length roots ≡ 4 }
    requires rows { list_all is_in_range rows ≡ true }
    ensures same { IfOk result (λ longer. longer ≡ record tested { history = history; rows = tested.rows ++ rows; roots = roots }) }
    ensures passed { IfOk result (λ _. open_damage present_rules (record tested { history = history; rows = tested.rows ++ rows; roots = roots }) ≡ None) }
    ensures damage { IfErr result (λ d. d ≢ Damage.Memory → open_damage present_rules (record tested { history = history; rows = tested.rows ++ rows; roots = roots }) ≡ Some d) }
{
    let Tested { pool, found } = tested;
    let longer = with_rows(pool, rows, roots, history)?;
    make_tested(longer, found)
}

// The pool with these rows behind its own, from these roots and with this bound of undo.
fn with_rows(pool: Pool, rows: Rows, roots: Places, history: u32) -> Result<Pool, NoMemory>
    ensures { IfOk result (λ P. P ≡ record pool { history = history; rows = pool.rows ++ rows; roots = roots }) }
{
    let all = appended(pool.rows.into_vec(), rows.into_vec())?;
    Ok(Pool {
        bits: pool.bits,
        version: pool.version,
        history,
        rows: Rows::from_vec(all),
        roots,
    })
}

// The first rows, and then the others.
fn appended(mut rows: Vec<Row>, mut more: Vec<Row>) -> Result<Vec<Row>, NoMemory>
    ensures { IfOk result (λ v. v.items ≡ rows.items ++ more.items) }
{
    rows.append(&mut more)?;
    Ok(rows)
}

// Nothing, with room for so many rows.
fn nothing_found(alloc: Global, count: usize) -> Result<RowsFound, NoMemory>
    ensures { IfOk result IsNothing }
{
    Ok(RowsFound {
        shapes: Vec::with_capacity(alloc, count)?,
        kept: Vec::with_capacity(alloc, count)?,
        facts: Vec::with_capacity(alloc, count)?,
    })
}

// Makes the tests of a pool of whose first rows these are found. Refused with the first that fails, and with `Memory` where memory runs
// out.
fn make_tested(pool: Pool, found: RowsFound) -> Result<Tested, Damage>
    requires follows { FollowsFound pool found }
    requires bits { pool.bits ≤ CODE_BITS }
    requires roots { length pool.roots ≡ 4 }
    requires rows { list_all is_in_range pool.rows ≡ true }
    ensures same { IfOk result (λ tested. tested ≡ pool) }
    ensures passed { IfOk result (λ _. open_damage present_rules pool ≡ None) }
    ensures damage { IfErr result (λ d. d ≢ Damage.Memory → open_damage present_rules pool ≡ Some d) }
{
    let all = found_more(&pool, found)?;
    let roots = pool.roots.as_slice();
    if !are_roots(all.facts.as_slice(), &SPACE, roots) {
        return Err(Damage::Kind);
    }
    if pool.history < undo_length(all.shapes.as_slice(), roots) {
        return Err(Damage::Kind);
    }
    Ok(Tested { pool, found: all })
}

// What is found of the rows of a pool of whose first rows these are found, if they pass the tests `Link` to `Trie`. Refused with the
// first that fails, and with `Memory` where memory runs out.
fn found_more(pool: &Pool, found: RowsFound) -> Result<RowsFound, Damage>
    requires follows { FollowsFound pool.now found }
    requires bits { pool.now.bits ≤ CODE_BITS }
    requires rows { list_all is_in_range pool.now.rows ≡ true }
    ensures passed { IfOk result (λ _. RowsPass present_rules pool.now) }
    ensures found { IfOk result (λ found. IsFound pool.now found) }
    ensures damage { IfErr result (λ d. d ≢ Damage.Memory → row_damage present_rules pool.now ≡ Some d) }
{
    let from = found.shapes.len();
    if !links_lead_back(pool, from) {
        return Err(Damage::Link);
    }
    if !texts_are_lines(pool, from) {
        return Err(Damage::Text);
    }
    let Some(shapes) = shapes_of(pool, found.shapes)? else {
        return Err(Damage::Vector);
    };
    let Some(kept) = kept_of(pool, Rules::present(), found.kept)? else {
        return Err(Damage::Trie);
    };
    let facts = facts_of_rows(pool, found.facts)?;
    Ok(RowsFound {
        shapes,
        kept,
        facts,
    })
}
