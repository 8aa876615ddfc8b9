//! What a run stores with its lines moved.

ghost use Rattle.elem_core.specs.Shown.{name_bytes};
ghost use Rattle.shell_terms.specs.Command.{indent as indent_command, dedent as dedent_command};
ghost use Rattle.ewig_shell.specs.Step.{ObeysOn, stored_reply};

use crate::save::keep_pool;
use crate::store_fault::StoreFault;
use elem_core::Name;
use plain_space::MOST_SPACES;
use pool_map::{dedent_keeps_lines, dedented, indent_needs_room, indented, mapped_is_valid};
use shell_io::Store;
use space_state::Space;
use std::alloc::Global;

/// Stores the document of the space's pool with so many spaces before each line in the file. `Batch` exactly in a batch, else `Range`
/// exactly where these are more than 80; else, unless memory runs out before (`Memory`), `Limit` exactly where some line would be
/// longer than 65,536 bytes, and then `Large` exactly where the document has more than 67,108,864 bytes. `Failed` only where the
/// store failed at this call, and then what the file holds is open.
pub fn indent<D: Store>(
    alloc: Global,
    space: &Space,
    count: u32,
    file: Name<'_>,
    store: &mut D,
) -> Result<(), StoreFault>
    ensures { ObeysOn (indent_command count (name_bytes file.entry)) D.Store space.now store.old (stored_reply result) space.now store.new }
{
    indent_needs_room();
    mapped_is_valid();
    if space.in_batch() {
        return Err(StoreFault::Batch);
    }
    if count > MOST_SPACES {
        return Err(StoreFault::Range);
    }
    let pool = space.pool(alloc)?;
    let moved = indented(alloc, &pool, u64::from(count))?;
    keep_pool(alloc, moved, file, store)
}

/// The same without the spaces that a line begins with, or without the first so many of them. No line gets too long by it.
pub fn dedent<D: Store>(
    alloc: Global,
    space: &Space,
    count: u32,
    file: Name<'_>,
    store: &mut D,
) -> Result<(), StoreFault>
    ensures { ObeysOn (dedent_command count (name_bytes file.entry)) D.Store space.now store.old (stored_reply result) space.now store.new }
{
    dedent_keeps_lines();
    mapped_is_valid();
    if space.in_batch() {
        return Err(StoreFault::Batch);
    }
    if count > MOST_SPACES {
        return Err(StoreFault::Range);
    }
    let pool = space.pool(alloc)?;
    let moved = dedented(alloc, &pool, u64::from(count))?;
    keep_pool(alloc, moved, file, store)
}
