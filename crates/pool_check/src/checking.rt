//! Pools that were checked.
ghost use Rattle.std.specs.Prelude.{◌≡◌, ◌≢◌, ◌≤◌, length, true, None, Some, IfOk, IfErr};
ghost use Rattle.std.specs.List.{list_all};
ghost use Rattle.pool_text.specs.Rows.{is_in_range};
ghost use Rattle.pool_text.specs.Rules.{first_rules, present_rules, rules_of, rules_named};
ghost use Rattle.pool_text.specs.Document.{HistoryFitsVersion};
ghost use Rattle.pool_text.specs.Pool.{forms_in, row_count};
ghost use Rattle.pool_text.specs.declared.rules.TheConstants.{FIRST_VERSION, FIRST_CODE_BITS};
ghost use Rattle.pool_check.specs.Rows.{rows_in_range_by};
ghost use Rattle.pool_check.specs.Damages.{IsValid, IsValidBy, damage, damage_by, open_damage, row_damage, damage_with_roots, RowsPass};
ghost use Rattle.pool_check.specs.Roots.{roots_are_of as are_of_kinds};
ghost use Rattle.pool_check.specs.Shapes.{AreShapes};

use crate::checked_roots::CheckedRoots;
use crate::kinds::{roots_are_of, roots_are_of_kind};
use crate::order::rows_in_order;
use crate::root::RootKind;
use crate::rows::{links_lead_back, texts_are_lines};
use crate::tries::kept_of;
use crate::vectors::{Shape, shapes_of, undo_length};
use elem_core::{CODE_BITS, Stored};
use pool_text::{Damage, FIRST_CODE_BITS, Pool, Rules};
use std::alloc::Global;
use std::marker::{Model, PhantomData};

/// A pool of a version with today's rules, of four roots, that passes every test, to be loaded as rows over values of `T`.
/// Contracts see the pool.
#[derive(Drop)]
pub struct Checked<T: Stored> {
    pool: Pool,
    of: PhantomData<T>,
}

impl<T: Stored> Model for Checked<T> {
    ghost use Rattle.pool_text.specs.declared.pool.Pool.{Pool};
    ghost use Rattle.pool_check.specs.Checked.{IsChecked};

    ghost Value = { Pool };

    ghost view = { λ checked. checked.pool };

    ghost invariant = { λ checked. IsChecked checked.pool };
}

impl<T: Stored> Checked<T> {
    /// A pool that is known to be valid. It takes no memory.
    pub fn of_valid(pool: Pool) -> Self
        requires valid { IsValid pool }
        requires rules { rules_of pool.version ≡ Some present_rules }
        requires history { HistoryFitsVersion pool }
        requires roots { length pool.roots ≡ 4 }
        requires bits { pool.bits ≤ CODE_BITS }
        ensures same { result ≡ pool }
    {
        Checked {
            pool,
            of: PhantomData,
        }
    }

    /// The pool. It takes no memory.
    pub fn pool(&self) -> &Pool
        ensures same { result.now ≡ self.now }
        ensures valid { IsValid result.now }
        ensures rules { rules_of result.now.version ≡ Some present_rules }
        ensures history { HistoryFitsVersion result.now }
        ensures roots { length result.now.roots ≡ 4 }
        ensures bits { result.now.bits ≤ CODE_BITS }
    {
        &self.pool
    }

    /// The pool, given back. It takes no memory.
    pub fn into_pool(self) -> Pool
        ensures same { result ≡ self }
        ensures valid { IsValid result }
        ensures rules { rules_of result.version ≡ Some present_rules }
        ensures history { HistoryFitsVersion result }
        ensures roots { length result.roots ≡ 4 }
        ensures bits { result.bits ≤ CODE_BITS }
    {
        self.pool
    }
}

/// A pool of the first version, of four roots, that passes every test by its rules. Contracts see the pool.
#[derive(Drop)]
pub struct Old {
    pool: Pool,
}

impl Model for Old {
    ghost use Rattle.pool_text.specs.declared.pool.Pool.{Pool};
    ghost use Rattle.pool_check.specs.Checked.{IsOld};

    ghost Value = { Pool };

    ghost view = { λ old. old.pool };

    ghost invariant = { λ old. IsOld old.pool };
}

impl Old {
    /// The pool. It takes no memory.
    pub fn pool(&self) -> &Pool
        ensures same { result.now ≡ self.now }
        ensures valid { IsValidBy first_rules result.now }
        ensures version { result.now.version ≡ FIRST_VERSION }
        ensures roots { length result.now.roots ≡ 4 }
        ensures bits { result.now.bits ≤ FIRST_CODE_BITS }
    {
        &self.pool
    }

    /// The pool, given back. It takes no memory.
    pub fn into_pool(self) -> Pool
        ensures same { result ≡ self }
        ensures valid { IsValidBy first_rules result }
        ensures version { result.version ≡ FIRST_VERSION }
        ensures roots { length result.roots ≡ 4 }
        ensures bits { result.bits ≤ FIRST_CODE_BITS }
    {
        self.pool
    }
}

/// Makes the tests `Link` to `Order` of a pool of the second or the third version, of four roots, whose rows are in range; one of
/// the second has the greatest history. Refused with the first that fails, and with `Memory` where memory runs out. It looks at
/// each row once for each test, and takes time and memory for the rows and their links, however often a row is shared.
pub fn check<T: Stored>(alloc: Global, pool: Pool) -> Result<Checked<T>, Damage>
    requires rules { rules_of pool.version ≡ Some present_rules }
    requires history { HistoryFitsVersion pool }
    requires bits { pool.bits ≤ CODE_BITS }
    requires roots { length pool.roots ≡ 4 }
    requires rows { list_all is_in_range pool.rows ≡ true }
    ensures same { IfOk result (λ checked. checked ≡ pool) }
    ensures undamaged { IfOk result (λ _. damage pool ≡ None) }
    ensures valid { IfOk result (λ _. IsValid pool) }
    ensures damage { IfErr result (λ d. d ≢ Damage.Memory → damage pool ≡ Some d) }
{
    make_tests(alloc, &pool, Rules::present())?;
    Ok(Checked {
        pool,
        of: PhantomData,
    })
}

/// Makes the same tests of a pool of the first version, by its rules. Refused with the first that fails, and with `Memory` where
/// memory runs out. It takes what `check` takes.
pub fn check_old<T: Stored>(alloc: Global, pool: Pool) -> Result<Old, Damage>
    requires version { pool.version ≡ FIRST_VERSION }
    requires bits { pool.bits ≤ FIRST_CODE_BITS }
    requires roots { length pool.roots ≡ 4 }
    requires rows { rows_in_range_by first_rules pool ≡ true }
    ensures same { IfOk result (λ old. old ≡ pool) }
    ensures undamaged { IfOk result (λ _. damage_by first_rules pool ≡ None) }
    ensures valid { IfOk result (λ _. IsValidBy first_rules pool) }
    ensures damage { IfErr result (λ d. d ≢ Damage.Memory → damage_by first_rules pool ≡ Some d) }
{
    make_tests(alloc, &pool, Rules::First)?;
    Ok(Old { pool })
}

/// Makes the tests `Link` to `Order` of a pool of the second or the third version whose rows are in range and whose roots have to be
/// of these kinds, one for each, which is the test `Kind`. Refused with the first that fails, and with `Memory` where memory runs
/// out. It takes what `check` takes.
pub fn check_roots<T: Stored>(
    alloc: Global,
    pool: Pool,
    kinds: &[RootKind],
) -> Result<CheckedRoots<T>, Damage>
    requires rules { rules_of pool.version ≡ Some present_rules }
    requires bits { pool.bits ≤ CODE_BITS }
    requires rows { list_all is_in_range pool.rows ≡ true }
    ensures same { IfOk result (λ checked. checked ≡ pool) }
    ensures undamaged { IfOk result (λ _. damage_with_roots present_rules kinds.now pool ≡ None) }
    ensures kinds { IfOk result (λ checked. are_of_kinds kinds.now checked ≡ true) }
    ensures many { IfOk result (λ checked. length checked.roots ≡ length kinds.now) }
    ensures damage { IfErr result (λ d. d ≢ Damage.Memory → damage_with_roots present_rules kinds.now pool ≡ Some d) }
{
    make_row_tests(alloc, &pool, Rules::present())?;
    if !roots_are_of(alloc, &pool, kinds)? {
        return Err(Damage::Kind);
    }
    if !rows_in_order(alloc, &pool)? {
        return Err(Damage::Order);
    }
    Ok(CheckedRoots::new(pool))
}

// Makes the tests `Link` to `Order` by these rules. Refused with the first that fails, and with `Memory` where memory runs out.
fn make_tests(alloc: Global, pool: &Pool, rules: Rules) -> Result<(), Damage>
    requires bits { pool.now.bits ≤ CODE_BITS }
    requires rows { rows_in_range_by (rules_named rules) pool.now ≡ true }
    ensures passed { IfOk result (λ _. damage_by (rules_named rules) pool.now ≡ None) }
    ensures damage { IfErr result (λ d. d ≢ Damage.Memory → damage_by (rules_named rules) pool.now ≡ Some d) }
{
    make_open_tests(alloc, pool, rules)?;
    if !rows_in_order(alloc, pool)? {
        return Err(Damage::Order);
    }
    Ok(())
}

// Makes the tests `Link` to `Kind` by these rules. Refused with the first that fails, and with `Memory` where memory runs out.
fn make_open_tests(alloc: Global, pool: &Pool, rules: Rules) -> Result<(), Damage>
    requires bits { pool.now.bits ≤ CODE_BITS }
    requires rows { rows_in_range_by (rules_named rules) pool.now ≡ true }
    ensures passed { IfOk result (λ _. open_damage (rules_named rules) pool.now ≡ None) }
    ensures damage { IfErr result (λ d. d ≢ Damage.Memory → open_damage (rules_named rules) pool.now ≡ Some d) }
{
    let shapes = make_row_tests(alloc, pool, rules)?;
    let undo = undo_length(shapes.as_slice(), pool.roots.as_slice());
    if !roots_are_of_kind(alloc, pool)? {
        return Err(Damage::Kind);
    }
    if undo > pool.history {
        return Err(Damage::Kind);
    }
    Ok(())
}

// Makes the tests `Link` to `Trie` by these rules, and gives the shapes of the rows. Refused with the first that fails, and with
// `Memory` where memory runs out.
fn make_row_tests(alloc: Global, pool: &Pool, rules: Rules) -> Result<Vec<Option<Shape>>, Damage>
    requires bits { pool.now.bits ≤ CODE_BITS }
    requires rows { rows_in_range_by (rules_named rules) pool.now ≡ true }
    ensures passed { IfOk result (λ _. RowsPass (rules_named rules) pool.now) }
    ensures shapes { IfOk result (λ shapes. AreShapes (forms_in pool.now) shapes.items) }
    ensures count { IfOk result (λ shapes. length shapes.items ≡ row_count pool.now) }
    ensures damage { IfErr result (λ d. d ≢ Damage.Memory → row_damage (rules_named rules) pool.now ≡ Some d) }
{
    if !links_lead_back(pool, 0) {
        return Err(Damage::Link);
    }
    if !texts_are_lines(pool, 0) {
        return Err(Damage::Text);
    }
    let count = pool.rows.as_slice().len();
    let none = Vec::with_capacity(alloc, count)?;
    let Some(shapes) = shapes_of(pool, none)? else {
        return Err(Damage::Vector);
    };
    let none_kept = Vec::with_capacity(alloc, count)?;
    if kept_of(pool, rules, none_kept)?.is_none() {
        return Err(Damage::Trie);
    }
    Ok(shapes)
}
