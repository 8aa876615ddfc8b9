//! Pools whose rows were checked, whatever their roots are.
ghost use Rattle.std.specs.Prelude.{◌≡◌, ◌≤◌, Some};
ghost use Rattle.pool_text.specs.Rules.{present_rules, rules_of};
ghost use Rattle.pool_check.specs.Damages.{HasValidRows};
ghost use Rattle.pool_check.specs.Checked.{IsChecked, HasCheckedRows};

use crate::checking::Checked;
use elem_core::{CODE_BITS, Stored};
use pool_text::Pool;
use std::marker::{Model, PhantomData};

/// A pool of a version with today's rules whose rows pass every test, and whose roots are of the kinds that were asked, to be loaded
/// as rows over values of `T`. Contracts see the pool.
#[derive(Drop)]
pub struct CheckedRoots<T: Stored> {
    pool: Pool,
    of: PhantomData<T>,
}

impl<T: Stored> Model for CheckedRoots<T> {
    ghost use Rattle.pool_text.specs.declared.pool.Pool.{Pool};
    ghost use Rattle.pool_check.specs.Checked.{HasCheckedRows};

    ghost Value = { Pool };

    ghost view = { λ checked. checked.pool };

    ghost invariant = { λ checked. HasCheckedRows checked.pool };
}

impl<T: Stored> CheckedRoots<T> {
    // The pool, whose rows were checked.
    pub(crate) fn new(pool: Pool) -> CheckedRoots<T>
        requires { HasCheckedRows pool }
        ensures { result ≡ pool }
    {
        CheckedRoots {
            pool,
            of: PhantomData,
        }
    }

    /// The pool. It takes no memory.
    pub fn pool(&self) -> &Pool
        ensures same { result.now ≡ self.now }
        ensures rows { HasValidRows present_rules result.now }
        ensures rules { rules_of result.now.version ≡ Some present_rules }
        ensures bits { result.now.bits ≤ CODE_BITS }
    {
        &self.pool
    }

    /// The pool, given back. It takes no memory.
    pub fn into_pool(self) -> Pool
        ensures same { result ≡ self }
        ensures rows { HasValidRows present_rules result }
        ensures rules { rules_of result.version ≡ Some present_rules }
        ensures bits { result.bits ≤ CODE_BITS }
    {
        self.pool
    }
}

impl<T: Stored> Checked<T> {
    /// The same pool, of which the tests of a space's roots are forgotten. It takes no memory.
    pub fn into_roots(self) -> CheckedRoots<T>
        ensures same { result ≡ self }
        ensures checked { IsChecked result }
    {
        CheckedRoots::new(self.into_pool())
    }
}
