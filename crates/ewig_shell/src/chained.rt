//! What a run takes from the files of a chain, and adds to them.

ghost use Rattle.std.specs.Prelude.{◌≡◌, ℕ, ◌≤◌, List, [], ◌∷◌, ◌++◌, length, Some, Err, IfOk, IfErr};
ghost use Rattle.std.specs.Option.{IfSome};
ghost use Rattle.std.specs.FinMap.{get};
ghost use Rattle.elem_core.specs.Shown.{name_bytes};
ghost use Rattle.pool_delta.specs.Parts.{part_text};
ghost use Rattle.pool_delta.specs.Delta.{delta};
ghost use Rattle.pool_delta.specs.Chains.{IsChain};
ghost use Rattle.shell_io.specs.Fault.{Calls};
ghost use Rattle.shell_terms.specs.Command.{part as part_command, chain as chain_command};
ghost use Rattle.ewig_shell.specs.Step.{IsPartDocumentOf, ObeysOn, chain_names, stored_reply};
ghost use Rattle.ewig_shell.specs.Chaining.{TakesChain, TakesChainIn, IsReadAs, IsNotTaken, IsUntaken};

use crate::save::MOST_STORED;
use crate::store_fault::StoreFault;
use elem_core::{CODE_BITS, Name, NoMemory};
use plain_space::MOST_PARTS;
use pool_delta::{
    Chain, chain_checked, chain_more, chain_start, delta_bytes, delta_stands, deltas_are_undamaged,
};
use pool_text::Damage;
use shell_io::Store;
use shell_words::numbered;
use space_state::Space;
use std::alloc::Global;

/// Makes the space the one that a chain stands for: the document in the file, and the partial documents behind it up to this number.
/// `Batch` exactly in a batch, else `Range` exactly where the number is 0 or more than 64. Else, unless the store fails at this call
/// (`Failed`) or memory runs out (`Memory`), and over a store that tells its files: `Missing` exactly where one of them isn't there,
/// `Large` exactly where those up to some one have more than 67,108,864 bytes together, whichever comes first, and `Damaged`, with
/// the first test that the first damaged one fails, exactly where one does. After a refusal the space is as it was.
pub fn chain<D: Store>(
    alloc: Global,
    space: &mut Space,
    file: Name<'_>,
    number: u32,
    store: &mut D,
) -> Result<(), StoreFault>
    ensures { ObeysOn (chain_command (name_bytes file.entry) number) D.Store space.old store.old (stored_reply result) space.new store.new }
{
    if space.in_batch() {
        return Err(StoreFault::Batch);
    }
    if number == 0 || number > MOST_PARTS {
        return Err(StoreFault::Range);
    }
    let found = chain_of(alloc, file, number + 1, space.bits(), store)?;
    take_chain(alloc, space, found?)
}

/// Stores what the space has more than the chain of so many files as the partial document of this number behind them. Refused as
/// `chain` is; and then, unless memory runs out before, `Large` exactly where the partial document has more than 67,108,864 bytes.
/// Where the store failed what that file holds is open.
pub fn part<D: Store>(
    alloc: Global,
    space: &Space,
    file: Name<'_>,
    number: u32,
    store: &mut D,
) -> Result<(), StoreFault>
    ensures { ObeysOn (part_command (name_bytes file.entry) number) D.Store space.now store.old (stored_reply result) space.now store.new }
{
    if space.in_batch() {
        return Err(StoreFault::Batch);
    }
    if number == 0 || number > MOST_PARTS {
        return Err(StoreFault::Range);
    }
    let found = chain_of(alloc, file, number, space.bits(), store)?;
    let bytes = part_bytes(alloc, space, &found?)?;
    if bytes.len() > MOST_STORED as usize {
        return Err(StoreFault::Large);
    }
    store.keep(&numbered(file, number), &bytes)?;
    Ok(())
}

// The partial document of what the space has more than the chain.
fn part_bytes(alloc: Global, space: &Space, chain: &Chain) -> Result<Vec<u8>, NoMemory>
    requires is_chain { IsChain chain.now }
    requires bits { chain.now.bits ≡ space.now.pool.bits }
    requires roots { length space.now.pool.roots ≡ 4 }
    ensures bytes { IfOk result (λ bytes. bytes.items ≡ part_text (delta chain.now space.now.pool)) }
    ensures document { IfOk result (λ bytes. IsPartDocumentOf chain.now space.now.pool bytes.items) }
{
    delta_stands();
    deltas_are_undamaged();
    let pool = space.pool(alloc)?;
    delta_bytes(alloc, chain, &pool)
}

// The chain of the first so many files, each taken where the bytes of those before left room for it. A damage is told when all were
// taken: a file that is missing comes before it.
fn chain_of<D: Store>(
    alloc: Global,
    file: Name<'_>,
    count: u32,
    bits: u32,
    store: &mut D,
) -> Result<Result<Chain, Damage>, StoreFault>
    requires some { 1 ≤ count }
    requires bits { bits ≤ CODE_BITS }
    ensures taken { IfOk result (TakesChain bits (D.held store.old) (chain_names (name_bytes file.entry) count)) }
    ensures fault { IfErr result (IsUntaken (D.held store.old) (chain_names (name_bytes file.entry) count)) }
    ensures same { D.held store.new ≡ D.held store.old }
    ensures calls { Calls D.faults D.steady D.faultless store.old store.new (result ≡ Err StoreFault.Failed) }
{
    let mut room = MOST_STORED as usize;
    let first = taken_file(alloc, file.as_str(), room, store)?;
    room -= first.len();
    let mut found = chain_start(alloc, &first, bits);
    let mut number = 1;
    while number < count {
        let more = taken_file(alloc, &numbered(file, number), room, store)?;
        room -= more.len();
        found = with_more(alloc, found, &more);
        number += 1;
    }
    Ok(found)
}

// The bytes of a file for which there is so much room.
fn taken_file<D: Store>(
    alloc: Global,
    name: &str,
    room: usize,
    store: &mut D,
) -> Result<Vec<u8>, StoreFault>
    ensures taken { IfOk result (λ bytes. IfSome (D.held store.old) (λ files. get files name.now ≡ Some bytes.items)) }
    ensures few { IfOk result (λ bytes. length bytes.items ≤ room) }
    ensures fault { IfErr result (λ fault. IsNotTaken (D.held store.old) name.now room fault) }
    ensures same { D.held store.new ≡ D.held store.old }
    ensures calls { Calls D.faults D.steady D.faultless store.old store.new (result ≡ Err StoreFault.Failed) }
{
    let mut bytes = Vec::new(alloc);
    store.fetch(name, room, &mut bytes)?;
    Ok(bytes)
}

// The chain with a partial document behind it, if it isn't damaged before.
fn with_more(alloc: Global, found: Result<Chain, Damage>, bytes: &[u8]) -> Result<Chain, Damage>
    ensures { (bits : ℕ) (files : List (List ℕ)) → IsReadAs bits files found → IsReadAs bits (files ++ bytes.now ∷ []) result }
{
    match found {
        Ok(chain) => chain_more(alloc, chain, bytes),
        Err(damage) => Err(damage),
    }
}

// Makes the space the one that the chain stands for.
fn take_chain(alloc: Global, space: &mut Space, chain: Chain) -> Result<(), StoreFault>
    requires is_chain { IsChain chain }
    requires bits { chain.bits ≡ space.old.pool.bits }
    ensures { TakesChainIn chain space.old result space.new }
{
    match space.take_pool(chain_checked(alloc, chain)?) {
        Ok(()) => Ok(()),
        // No batch is open where this is called.
        Err(_) => Err(StoreFault::Memory),
    }
}
