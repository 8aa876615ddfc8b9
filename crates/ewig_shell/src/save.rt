//! What a run stores.

ghost use Rattle.std.specs.Prelude.{◌≡◌, ◌<◌, ◌≤◌, length, Some, IfOk, MatchOption};
ghost use Rattle.elem_core.specs.Shown.{name_bytes};
ghost use Rattle.pool_text.specs.Document.{document, text, value_in};
ghost use Rattle.shell_terms.specs.Command.{write as write_command, save as save_command};
ghost use Rattle.ewig_shell.specs.Saving.{Collects, EndsKeeping};
ghost use Rattle.ewig_shell.specs.Step.{ObeysOn, ended_lines, most_stored, stored_reply};

use crate::store_fault::StoreFault;
use elem_core::{NEWLINE, Name};
use pool_text::{Pool, into_bytes, text_length};
use shell_io::Store;
use space_state::{Space, SpaceLines};
use std::alloc::Global;

/// The most bytes that a stored file may have: 64 times 2^20.
pub const MOST_STORED: u64 = 67_108_864;

/// Stores the document of the space's pool in the file. `Batch` exactly in a batch; else, unless memory runs out before
/// (`Memory`), `Large` exactly where the document has more than 67,108,864 bytes, which is known before it is made. `Failed`
/// only where the store failed at this call, and then what the file holds is open.
pub fn save<D: Store>(
    alloc: Global,
    space: &Space,
    file: Name<'_>,
    store: &mut D,
) -> Result<(), StoreFault>
    ensures { ObeysOn (save_command (name_bytes file.entry)) D.Store space.now store.old (stored_reply result) space.now store.new }
{
    if space.in_batch() {
        return Err(StoreFault::Batch);
    }
    let pool = space.pool(alloc)?;
    keep_pool(alloc, pool, file, store)
}

/// Stores the document of a pool in the file. `Memory` where memory runs out before, `Large` exactly where the document has more than
/// 67,108,864 bytes, and else as the store keeps it.
pub(crate) fn keep_pool<D: Store>(
    alloc: Global,
    pool: Pool,
    file: Name<'_>,
    store: &mut D,
) -> Result<(), StoreFault>
    ensures keeps { EndsKeeping (name_bytes file.entry) (text pool) D.Store store.old store.new result }
    ensures reads { IfOk result (λ _. value_in (text pool) ≡ Some (document pool)) }
{
    if text_length(&pool) > MOST_STORED {
        return Err(StoreFault::Large);
    }
    let bytes = into_bytes(alloc, pool)?;
    store.keep(file.as_str(), &bytes)?;
    Ok(())
}

/// Stores the lines of the buffer in the file, each with a newline. `Absent` exactly where there is no such buffer; else, unless
/// memory runs out before (`Memory`), `Large` exactly where they have more than 67,108,864 bytes. `Failed` only where the store
/// failed at this call, and then what the file holds is open. It takes memory for what the file has.
pub fn write<D: Store>(
    alloc: Global,
    space: &Space,
    buffer: Name<'_>,
    file: Name<'_>,
    store: &mut D,
) -> Result<(), StoreFault>
    ensures { ObeysOn (write_command (name_bytes buffer.entry) (name_bytes file.entry)) D.Store space.now store.old (stored_reply result) space.now store.new }
{
    let Ok(count) = space.count(buffer) else {
        return Err(StoreFault::Absent);
    };
    let Ok(counted) = space.lines(buffer, 0, count) else {
        unreachable!()
    };
    let Some(size) = file_size(counted) else {
        return Err(StoreFault::Large);
    };
    let Ok(lines) = space.lines(buffer, 0, count) else {
        unreachable!()
    };
    let bytes = collected(alloc, lines, size)?;
    store.keep(file.as_str(), &bytes)?;
    Ok(())
}

// How many bytes the lines have, each with a newline. None where these are more than a file may have, which is known at the first
// line that passes them.
fn file_size(lines: SpaceLines<'_>) -> Option<usize>
    ensures { MatchOption result (most_stored < length (ended_lines lines.entry)) (λ size. (size ≡ length (ended_lines lines.entry)) × (size ≤ most_stored)) }
{
    let mut size: usize = 0;
    for line in lines {
        let more = line.text().len();
        if more >= MOST_STORED as usize - size {
            return None;
        }
        size += more + 1;
    }
    Some(size)
}

// The bytes of the lines, each with a newline, in memory for just so many.
fn collected(alloc: Global, lines: SpaceLines<'_>, size: usize) -> Result<Vec<u8>, StoreFault>
    requires { size ≡ length (ended_lines lines) }
    ensures { Collects lines.entry result }
{
    let mut bytes = Vec::with_capacity(alloc, size)?;
    for line in lines {
        bytes.extend_from_slice(line.text().as_bytes())?;
        bytes.push(NEWLINE)?;
    }
    Ok(bytes)
}
