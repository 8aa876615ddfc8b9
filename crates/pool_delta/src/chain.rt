//! Chains of documents.
ghost use Rattle.std.specs.Prelude.{◌≡◌, ◌≢◌, ◌≤◌, map, None, Some, IfOk, IfErr};
ghost use Rattle.pool_text.specs.Rows.{row_form};
ghost use Rattle.pool_text.specs.Document.{pool_in_bytes};
ghost use Rattle.pool_text.specs.declared.rules.TheConstants.{PRESENT_VERSION};
ghost use Rattle.pool_check.specs.Damages.{IsValid};
ghost use Rattle.pool_delta.specs.Chains.{IsChain, chain_pool as pool_of_chain, start_damage, more_damage, chain_with};

use crate::part::part_from_bytes;
use elem_core::{CODE_BITS, NoMemory, Stored, Text};
use pool_check::{Checked, Tested, check_more, check_open};
use pool_text::{Damage, Pool, Row, pool_of_rows, present_pool_from_bytes};
use std::alloc::Global;
use std::marker::Model;

/// The rows of a whole document and of partial ones after it, with what was found of each, and the roots, the code bits and the bound of
/// undo of the last of them. Contracts see a pool of these, whose rows needn't stand in their order.
#[derive(Drop)]
pub struct Chain {
    tested: Tested,
}

impl Model for Chain {
    ghost use Rattle.pool_text.specs.declared.pool.Pool.{Pool};
    ghost use Rattle.pool_delta.specs.Chains.{IsChain};

    ghost Value = { Pool };

    ghost view = { λ chain. chain.tested };

    ghost invariant = { λ chain. IsChain chain.tested };
}

impl Chain {
    /// The rows so far.
    pub(crate) fn rows(&self) -> &[Row]
        ensures rows { map row_form result.now ≡ self.now.rows }
        ensures is_chain { IsChain self.now }
    {
        self.tested.pool().rows.as_slice()
    }
}

/// The chain of one document, which is a whole one of the version that is written, in a space of so many code bits. Refused with the
/// first of the eleven tests that the bytes fail, of which the third is that the version is that one, and with `Memory` where memory
/// runs out. It takes time and memory for the bytes.
pub fn chain_start(alloc: Global, bytes: &[u8], bits: u32) -> Result<Chain, Damage>
    requires { bits ≤ CODE_BITS }
    ensures chain { IfOk result (λ C. pool_in_bytes bytes.now ≡ Some C) }
    ensures is_chain { IfOk result IsChain }
    ensures bits { IfOk result (λ C. C.bits ≡ bits) }
    ensures whole { IfOk result (λ _. start_damage bits bytes.now ≡ None) }
    ensures damage { IfErr result (λ d. d ≢ Damage.Memory → start_damage bits bytes.now ≡ Some d) }
{
    let pool = present_pool_from_bytes(alloc, bytes, bits)?;
    let tested = check_open(alloc, pool)?;
    if !tested.is_in_order(alloc)? {
        return Err(Damage::Order);
    }
    Ok(Chain { tested })
}

/// The chain with a partial document behind it. Refused with the first of the tests that the bytes fail after the chain, and with
/// `Memory` where memory runs out; a refused chain is dropped. It takes time and memory for the bytes, and looks at no row before them;
/// now and then it copies the list of all rows, as lists grow.
pub fn chain_more(alloc: Global, chain: Chain, bytes: &[u8]) -> Result<Chain, Damage>
    ensures chain { IfOk result (λ D. chain_with chain bytes.now ≡ Some D) }
    ensures is_chain { IfOk result IsChain }
    ensures bits { IfOk result (λ D. D.bits ≡ chain.bits) }
    ensures whole { IfOk result (λ _. more_damage chain bytes.now ≡ None) }
    ensures damage { IfErr result (λ d. d ≢ Damage.Memory → more_damage chain bytes.now ≡ Some d) }
{
    let tested = chain.tested;
    let pool = tested.pool();
    let part = part_from_bytes(alloc, bytes, pool.bits)?;
    if part.after != pool.rows.as_slice().len() as u64 {
        return Err(Damage::Link);
    }
    let longer = check_more(tested, part.rows, part.roots, part.history)?;
    Ok(Chain { tested: longer })
}

/// The pool that the chain stands for, which needs no further test: the rows that its last document's roots reach, in their order. It
/// takes time and memory for these rows, their links and their texts, and 8 bytes for each row of the chain.
pub fn chain_checked<T: Stored>(alloc: Global, chain: Chain) -> Result<Checked<T>, NoMemory>
    ensures value { IfOk result (λ P. P ≡ pool_of_chain chain) }
    ensures bits { IfOk result (λ P. P.bits ≡ chain.bits) }
{
    let pool = chain.tested.pool();
    let made = pool_of_rows(
        alloc,
        &pool.rows,
        pool.roots.as_slice(),
        pool.bits,
        pool.history,
    )?;
    Ok(Checked::of_valid(made))
}

/// The same pool. It takes what `chain_checked` takes.
pub fn chain_pool(alloc: Global, chain: Chain) -> Result<Pool, NoMemory>
    ensures value { IfOk result (λ P. P ≡ pool_of_chain chain) }
    ensures valid { IfOk result IsValid }
    ensures version { IfOk result (λ P. P.version ≡ PRESENT_VERSION) }
    ensures bits { IfOk result (λ P. P.bits ≡ chain.bits) }
{
    Ok(chain_checked::<Text>(alloc, chain)?.into_pool())
}
