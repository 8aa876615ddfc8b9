//! Pools of documents of a version, for the tests.
ghost use Rattle.std.specs.Prelude.{◌≡◌, ◌≤◌, length, true, Some, IfOk};
ghost use Rattle.std.specs.List.{list_all};
ghost use Rattle.elem_core.specs.declared.codes.TheConstants.{CODE_BITS};
ghost use Rattle.pool_text.specs.Rows.{is_in_range};
ghost use Rattle.pool_text.specs.Rules.{first_rules, present_rules, rules_of};
ghost use Rattle.pool_text.specs.Document.{HistoryFitsVersion};
ghost use Rattle.pool_text.specs.declared.rules.TheConstants.{FIRST_VERSION, FIRST_CODE_BITS};
ghost use Rattle.pool_check.specs.Rows.{rows_in_range_by};

use elem_core::Text;
use pool_check::{Checked, check};
use pool_text::{Damage, FIRST_VERSION, Pool, pool_from_bytes, to_bytes};
use std::alloc::Global;

/// The pool of the rows of a document of version 2 or 3, in a space of so many bits, or what is wrong with it: `Version` where it is
/// one of version 1.
pub fn present_pool(alloc: Global, bytes: &[u8], bits: u32) -> Result<Pool, Damage>
    requires { bits ≤ CODE_BITS }
    ensures rules { IfOk result (λ p. rules_of p.version ≡ Some present_rules) }
    ensures history { IfOk result HistoryFitsVersion }
    ensures bits { IfOk result (λ p. p.bits ≡ bits) }
    ensures roots { IfOk result (λ p. length p.roots ≡ 4) }
    ensures rows { IfOk result (λ p. list_all is_in_range p.rows ≡ true) }
{
    let pool = pool_from_bytes(alloc, bytes, bits)?;
    if pool.version == FIRST_VERSION {
        Err(Damage::Version)
    } else {
        Ok(pool)
    }
}

/// The document that is written of such a pool that passes the tests, or what is wrong with it.
pub fn checked_again(alloc: Global, bytes: &[u8], bits: u32) -> Result<Vec<u8>, Damage>
    requires { bits ≤ CODE_BITS }
{
    let checked: Checked<Text> = check(alloc, present_pool(alloc, bytes, bits)?)?;
    Ok(to_bytes(alloc, checked.pool())?)
}

/// The same of a document of version 1: `Version` where it is a later one.
pub fn old_pool(alloc: Global, bytes: &[u8], bits: u32) -> Result<Pool, Damage>
    requires { bits ≤ CODE_BITS }
    ensures version { IfOk result (λ p. p.version ≡ FIRST_VERSION) }
    ensures bits { IfOk result (λ p. p.bits ≤ FIRST_CODE_BITS) }
    ensures roots { IfOk result (λ p. length p.roots ≡ 4) }
    ensures rows { IfOk result (λ p. rows_in_range_by first_rules p ≡ true) }
{
    let pool = pool_from_bytes(alloc, bytes, bits)?;
    if pool.version == FIRST_VERSION {
        Ok(pool)
    } else {
        Err(Damage::Version)
    }
}
