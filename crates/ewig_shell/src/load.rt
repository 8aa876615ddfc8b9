//! What a run takes from files.

ghost use Rattle.std.specs.Prelude.{◌≡◌, ◌≢◌, ◌≤◌, length, None, Some, IfOk, IfErr};
ghost use Rattle.elem_core.specs.Shown.{name_bytes};
ghost use Rattle.pool_text.specs.Rules.{first_rules, present_rules};
ghost use Rattle.pool_text.specs.Pool.{at_present_version};
ghost use Rattle.pool_check.specs.Damages.{document_damage, IsValid, IsValidBy};
ghost use Rattle.pool_carry.specs.Carried.{IsCarried};
ghost use Rattle.shell_terms.specs.Command.{read as read_command, load as load_command};
ghost use Rattle.ewig_shell.specs.Step.{ObeysOn, DocumentStandsFor, stored_reply, most_stored};
ghost use Rattle.ewig_shell.specs.Loading.{TakesIn, FillsIn};

use crate::save::MOST_STORED;
use crate::store_fault::StoreFault;
use elem_core::{CODE_BITS, Name, Text};
use pool_carry::{carried_is_valid, carry};
use pool_check::{Checked, Old, check, check_old};
use pool_text::{Damage, FIRST_VERSION, pool_from_bytes};
use shell_io::{Store, lines_of};
use space_state::Space;
use std::alloc::Global;

/// Makes the space the one that the document in the file stands for; one of the first version stands for what its pool is carried
/// to. `Batch` exactly in a batch. Else, unless the store fails at this call (`Failed`) or memory runs out (`Memory`), and over a
/// store that tells its files: `Missing` exactly where there is no such file, `Large` exactly where it has more than 67,108,864
/// bytes, and `Damaged`, with the first test that the bytes fail, exactly where they fail one. After a refusal the space is as it
/// was.
pub fn load<D: Store>(
    alloc: Global,
    space: &mut Space,
    file: Name<'_>,
    store: &mut D,
) -> Result<(), StoreFault>
    ensures obeys { ObeysOn (load_command (name_bytes file.entry)) D.Store space.old store.old (stored_reply result) space.new store.new }
    ensures damage { result ≢ Err (StoreFault.Damaged Damage.Memory) }
{
    if space.in_batch() {
        return Err(StoreFault::Batch);
    }
    let mut bytes = Vec::new(alloc);
    store.fetch(file.as_str(), MOST_STORED as usize, &mut bytes)?;
    take_in(alloc, space, &bytes)
}

// The pool that the bytes stand for in a space of so many code bits, checked; its version may be an older one. Refused with the first
// of the tests that they fail, and with `Memory` where memory runs out.
fn checked_pool(alloc: Global, bytes: &[u8], bits: u32) -> Result<Checked<Text>, Damage>
    requires { bits ≤ CODE_BITS }
    ensures stands { IfOk result (λ P. DocumentStandsFor bits bytes.now (at_present_version P)) }
    ensures valid { IfOk result IsValid }
    ensures bits { IfOk result (λ P. P.bits ≡ bits) }
    ensures whole { IfOk result (λ _. document_damage bits bytes.now ≡ None) }
    ensures damage { IfErr result (λ d. d ≢ Damage.Memory → document_damage bits bytes.now ≡ Some d) }
{
    let pool = pool_from_bytes(alloc, bytes, bits)?;
    if pool.version == FIRST_VERSION {
        let old = check_old::<Text>(alloc, pool)?;
        carried(alloc, old, bits)
    } else {
        check(alloc, pool)
    }
}

// The pool, carried over to so many code bits, and checked, which passes. Refused only where memory runs out.
fn carried(alloc: Global, old: Old, bits: u32) -> Result<Checked<Text>, Damage>
    requires bits { bits ≤ CODE_BITS }
    requires valid { IsValidBy first_rules old }
    ensures carried { IfOk result (IsCarried present_rules bits old) }
    ensures valid { IfOk result IsValid }
    ensures bits { IfOk result (λ P. P.bits ≡ bits) }
    ensures memory { IfErr result (λ d. d ≡ Damage.Memory) }
{
    let pool = carry(alloc, old, bits)?;
    carried_is_valid();
    check(alloc, pool)
}

// Makes the space the one that the bytes stand for.
fn take_in(alloc: Global, space: &mut Space, bytes: &[u8]) -> Result<(), StoreFault>
    ensures takes { TakesIn bytes.now space.old result space.new }
    ensures damage { result ≢ Err (StoreFault.Damaged Damage.Memory) }
{
    let checked = checked_pool(alloc, bytes, space.bits())?;
    match space.take_pool(checked) {
        Ok(()) => Ok(()),
        // No batch is open where this is called.
        Err(_) => Err(StoreFault::Memory),
    }
}

/// Gives the buffer the lines of the file, made or replaced, as one edit. Unless the store fails at this call (`Failed`) or memory runs
/// out (`Memory`), and over a store that tells its files: `Missing` exactly where there is no such file, `Large` exactly where it has
/// more than 67,108,864 bytes, `Long` exactly where a line of it has more than 65,536 bytes, and else `Utf8` exactly where it isn't
/// UTF-8. After a refusal the space is as it was.
pub fn read<D: Store>(
    alloc: Global,
    space: &mut Space,
    buffer: Name<'_>,
    file: Name<'_>,
    store: &mut D,
) -> Result<(), StoreFault>
    ensures { ObeysOn (read_command (name_bytes buffer.entry) (name_bytes file.entry)) D.Store space.old store.old (stored_reply result) space.new store.new }
{
    space.stands();
    let mut bytes = Vec::new(alloc);
    store.fetch(file.as_str(), MOST_STORED as usize, &mut bytes)?;
    fill(alloc, space, buffer, bytes)
}

// Gives the buffer the lines of the bytes, which are given up before the lines come into the heap.
fn fill(
    alloc: Global,
    space: &mut Space,
    buffer: Name<'_>,
    bytes: Vec<u8>,
) -> Result<(), StoreFault>
    requires { length bytes.items ≤ most_stored }
    ensures { FillsIn (name_bytes buffer.entry) bytes.items space.old result space.new }
{
    let lines = lines_of(alloc, &bytes)?;
    drop(bytes);
    match space.fill(buffer, lines) {
        Ok(()) => Ok(()),
        // Nothing but want of memory refuses it.
        Err(_) => Err(StoreFault::Memory),
    }
}
