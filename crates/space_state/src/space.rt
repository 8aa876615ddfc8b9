//! The space and its calls.
ghost use Rattle.std.specs.Prelude.{◌≡◌, ◌+◌, ◌<◌, ◌≤◌, [], length, map as each, IfOk, Some, slice_get, slice_range};
ghost use Rattle.std.specs.FinMap as map;
ghost use Rattle.std.specs.List.{sum_by};
ghost use Rattle.elem_core.specs.Shown.{name_bytes};
ghost use Rattle.pool_text.specs.Pool.{row_count};
ghost use Rattle.pool_text.specs.declared.rules.TheConstants.{PRESENT_VERSION};
ghost use Rattle.pool_check.specs.Damages.{IsValid};
ghost use Rattle.shell_terms.specs.Edit.{fill};
ghost use Rattle.shell_terms.specs.Command.{edit, mark, unmark, back, undo, redo, begin, «end», abort, history};
ghost use Rattle.plain_space.specs.Workspace.{Workspace, most, start, sizes, in_batch, lines_of, version_of};
ghost use Rattle.plain_space.specs.Change.{edit_command};
ghost use Rattle.state_rows.specs.Standing.{StandsFor};
ghost use Rattle.space_state.specs.Asked.{OnLines, AreEqual};
ghost use Rattle.space_state.specs.View.{Ends, TakesPool, start_view};

use crate::lines::SpaceLines;
use crate::roots::RootedHeap;
use crate::undo_end::TURN_NODES;
use crate::undo_redo::{HISTORY_NODES, REDO_NODES, UNDO_NODES};
use elem_core::{CODE_BITS, Name, NoMemory, Text, Texts};
use plain_space::{Edit, Refusal};
use pool_check::Checked;
use pool_text::Pool;
use state_rows::{EMPTIED_NODES, PUSHED_NODES};
use std::alloc::Global;
use std::marker::Model;

/// A space: buffers of lines and starred names, versions, undo and redo and, in a batch, the state that it began with, over
/// one heap of shared rows. Contracts see the pool of its rows, the number of rows that its heap has, the number that it ever
/// made, and the heap's room: the rows and the spares of each kind together.
#[derive(Drop)]
pub struct Space {
    rows: RootedHeap,
}

impl Model for Space {
    ghost use Rattle.std.specs.Prelude.{[]};
    ghost use Rattle.plain_space.specs.Workspace.{Workspace};
    ghost use Rattle.space_state.specs.View.{SpaceView, shown};
    ghost use Rattle.space_state.specs.Roots.{Keeps};

    ghost Value = { SpaceView };

    ghost view = { λ space. shown space.rows };

    ghost invariant = { λ space. (W : Workspace) × Keeps space.rows [] W };
}

impl Space {
    /// The space without buffers, stars and versions, by so many bits of the names' codes. It has made six
    /// rows. Err where memory runs out.
    pub fn new(alloc: Global, bits: u32) -> Result<Space, NoMemory>
        requires { bits ≤ CODE_BITS }
        ensures start { IfOk result (λ space. space ≡ start_view bits) }
        ensures stands { IfOk result (λ space. StandsFor space.pool start) }
        ensures valid { IfOk result (λ space. IsValid space.pool) }
    {
        let rows = RootedHeap::start(alloc, bits)?;
        Ok(Space { rows })
    }

    /// Carries out the edit, refused exactly as the row of its command says, want of memory last.
    pub fn edit(&mut self, change: Edit<'_>) -> Result<(), Refusal>
        ensures { Ends (edit_command change.entry) self.old result self.new }
    {
        self.rows.edit(change)
    }

    /// Gives the buffer these lines, made or replaced, at most 4,294,967,295, as one edit. It is refused only where memory runs out.
    pub fn fill(&mut self, buffer: Name<'_>, lines: Texts) -> Result<(), Refusal>
        requires { length lines ≤ most }
        ensures { Ends (edit (fill (name_bytes buffer.entry) lines)) self.old result self.new }
    {
        self.rows.fill(buffer, lines)
    }

    /// Goes back to the state before the last edit. `Batch` in a batch, else `Empty` where there is none, else `Limit` where
    /// redo holds 2^32 - 1 states, and last `Memory` where memory runs out. It makes at most 17 rows.
    pub fn undo(&mut self) -> Result<(), Refusal>
        ensures ends { Ends undo self.old result self.new }
        ensures made { self.new.made ≤ self.old.made + UNDO_NODES }
    {
        self.rows.undo()
    }

    /// Goes forward to the state that the last undo left. `Batch` in a batch, else `Empty` where there is none, and last `Memory`
    /// where memory runs out. It makes at most 34 rows, and at most 17 where undo has fewer states than its bound.
    pub fn redo(&mut self) -> Result<(), Refusal>
        ensures ends { Ends redo self.old result self.new }
        ensures made { self.new.made ≤ self.old.made + REDO_NODES }
        ensures below { (W : Workspace) → StandsFor self.old.pool W → length W.undo < W.history → self.new.made ≤ self.old.made + UNDO_NODES }
    {
        self.rows.redo()
    }

    /// Keeps the current state as a version. `Batch` in a batch, else `Exists` where there is one of this name, and last
    /// `Memory` where memory runs out.
    pub fn mark(&mut self, version: Name<'_>) -> Result<(), Refusal>
        ensures { Ends (mark (name_bytes version.entry)) self.old result self.new }
    {
        self.rows.mark(version)
    }

    /// Lets the version go. `Batch` in a batch, else `Absent` where there is none of this name, and last `Memory` where
    /// memory runs out.
    pub fn unmark(&mut self, version: Name<'_>) -> Result<(), Refusal>
        ensures { Ends (unmark (name_bytes version.entry)) self.old result self.new }
    {
        self.rows.unmark(version)
    }

    /// Makes the version's state the current one, as an edit does. `Batch` in a batch, else `Absent` where there is none of
    /// this name, and last `Memory` where memory runs out. It makes at most 27 rows, and at most 10 where undo has fewer states than
    /// its bound.
    pub fn back(&mut self, version: Name<'_>) -> Result<(), Refusal>
        ensures ends { Ends (back (name_bytes version.entry)) self.old result self.new }
        ensures made { self.new.made ≤ self.old.made + TURN_NODES }
        ensures below { (W : Workspace) → StandsFor self.old.pool W → length W.undo < W.history → self.new.made ≤ self.old.made + (PUSHED_NODES + EMPTIED_NODES) }
    {
        self.rows.back(version)
    }

    /// Opens a batch. `Batch` where one is open. It takes no memory, and leaves the
    /// heap the room that it had.
    pub fn begin(&mut self) -> Result<(), Refusal>
        ensures ends { Ends begin self.old result self.new }
        ensures made { self.new.made ≡ self.old.made }
        ensures room { self.new.room ≡ self.old.room }
    {
        self.rows.begin()
    }

    /// Closes the batch, whose edits undo takes back together. `Batch` where none is open, and last `Memory` where memory runs
    /// out. It makes at most 27 rows, and at most 10 where undo has fewer states than its bound.
    pub fn end(&mut self) -> Result<(), Refusal>
        ensures ends { Ends «end» self.old result self.new }
        ensures made { self.new.made ≤ self.old.made + TURN_NODES }
        ensures below { (W : Workspace) → StandsFor self.old.pool W → length W.undo < W.history → self.new.made ≤ self.old.made + (PUSHED_NODES + EMPTIED_NODES) }
    {
        self.rows.end()
    }

    /// Closes the batch and goes back to the state that it began with. `Batch` where none is open. It takes no
    /// memory, and leaves the heap the room that it had.
    pub fn abort(&mut self) -> Result<(), Refusal>
        ensures ends { Ends abort self.old result self.new }
        ensures made { self.new.made ≡ self.old.made }
        ensures room { self.new.room ≡ self.old.room }
    {
        self.rows.abort()
    }

    /// Sets how many states undo keeps. The last ones stay, now and after each edit. A new space keeps 4,294,967,295. `Batch` in a
    /// batch, else `Memory` where memory runs out. It makes at most 17 rows, and none where undo has no more states than this.
    pub fn history(&mut self, count: u32) -> Result<(), Refusal>
        ensures ends { Ends (history count) self.old result self.new }
        ensures made { self.new.made ≤ self.old.made + HISTORY_NODES }
        ensures within { (W : Workspace) → StandsFor self.old.pool W → length W.undo ≤ count → self.new.made ≡ self.old.made }
    {
        self.rows.set_history(count)
    }

    /// That the space stands for a workspace: a law, which does nothing.
    pub fn stands(&self)
        ensures { (W : Workspace) × StandsFor self.now.pool W }
    {
        // The fact is that of the field.
        let _ = &self.rows;
    }

    /// How many low bits of the names' codes the space goes by.
    pub fn bits(&self) -> u32
        ensures kept { result ≡ self.now.pool.bits }
        ensures small { result ≤ CODE_BITS }
    {
        self.rows.bits
    }

    /// Whether a batch is open.
    pub fn in_batch(&self) -> bool
        ensures { (W : Workspace) × StandsFor self.now.pool W × (result ≡ in_batch W) }
    {
        self.rows.in_batch()
    }

    /// The line of the buffer at the index, counted from 0. Absent exactly where there is no such buffer, else Range exactly
    /// past its end.
    pub fn line(&self, buffer: Name<'_>, index: u32) -> Result<&Text, Refusal>
        ensures { (W : Workspace) × StandsFor self.now.pool W × OnLines W (name_bytes buffer.entry) result
            (λ lines text. slice_get lines index ≡ Some text.now) (λ lines. length lines ≤ index) }
    {
        self.rows.line(buffer, index)
    }

    /// The lines of the buffer from the one index to before the other. Absent exactly where there is no such buffer, else
    /// Range exactly where it has no such part.
    pub fn lines(&self, buffer: Name<'_>, from: u32, to: u32) -> Result<SpaceLines<'_>, Refusal>
        ensures { (W : Workspace) × StandsFor self.now.pool W × OnLines W (name_bytes buffer.entry) result
            (λ lines shown. (from ≤ to) × (to ≤ length lines) × (shown ≡ slice_range lines from to)) (λ lines. ¬ ((from ≤ to) × (to ≤ length lines))) }
    {
        self.rows.lines(buffer, from, to)
    }

    /// The number of the buffer's lines. Absent exactly where there is no such buffer.
    pub fn count(&self, buffer: Name<'_>) -> Result<u32, Refusal>
        ensures { (W : Workspace) × StandsFor self.now.pool W × OnLines W (name_bytes buffer.entry) result
            (λ lines count. count ≡ length lines) (λ lines. ⊥) }
    {
        self.rows.count(buffer)
    }

    /// Whether the buffers have the same lines. Absent exactly where there is no buffer of one of the names.
    pub fn same(&self, buffer: Name<'_>, other: Name<'_>) -> Result<bool, Refusal>
        ensures { (W : Workspace) × StandsFor self.now.pool W
            × AreEqual (lines_of W.current (name_bytes buffer.entry)) (lines_of W.current (name_bytes other.entry)) result }
    {
        self.rows.same(buffer, other)
    }

    /// Whether the versions have the same buffers and stars. Absent exactly where there is no version of one of the names.
    pub fn eqv(&self, version: Name<'_>, other: Name<'_>) -> Result<bool, Refusal>
        ensures { (W : Workspace) × StandsFor self.now.pool W
            × AreEqual (version_of W (name_bytes version.entry)) (version_of W (name_bytes other.entry)) result }
    {
        self.rows.eqv(version, other)
    }

    /// The pool of the space, which is valid: its rows, each once, with places for links. It takes time and memory for the rows,
    /// their links and their texts. Err where memory runs out.
    pub fn pool(&self, alloc: Global) -> Result<Pool, NoMemory>
        ensures value { IfOk result (λ pool. pool ≡ self.now.pool) }
        ensures version { self.now.pool.version ≡ PRESENT_VERSION }
        ensures valid { IsValid self.now.pool }
        ensures history { self.now.pool.history ≤ most }
        ensures bits { self.now.pool.bits ≤ CODE_BITS }
    {
        self.rows.pool(alloc)
    }

    /// Puts the checked pool, whatever its version, in place of the space's; the number made rises by its rows, up to 2^64 - 1. The
    /// pool goes by as many bits as the space. `Batch` in a batch, else `Memory` where memory runs out.
    pub fn take_pool(&mut self, checked: Checked<Text>) -> Result<(), Refusal>
        requires bits { checked.bits ≡ self.old.pool.bits }
        ensures { TakesPool checked self.old result self.new }
    {
        self.rows.take_pool(checked)
    }

    /// The number of rows, all of which the pool has: none leaks.
    pub fn rows(&self) -> usize
        ensures stands { (W : Workspace) × StandsFor self.now.pool W }
        ensures live { result ≡ self.now.live }
        ensures count { self.now.live ≡ row_count self.now.pool }
        ensures valid { IsValid self.now.pool }
    {
        self.rows.heap.live()
    }

    /// The number of rows ever made. It stays at 2^64 - 1 once it is there.
    pub fn made(&self) -> u64
        ensures stands { (W : Workspace) × StandsFor self.now.pool W }
        ensures number { result ≡ self.now.made }
    {
        self.rows.heap.made()
    }

    /// The names of the buffers with the numbers of their lines, in byte order. Err where memory runs out.
    pub fn names(&self, alloc: Global) -> Result<Vec<(&Text, u32)>, NoMemory>
        ensures { (W : Workspace) × StandsFor self.now.pool W × IfOk result (λ listed. each (λ size. (size.0.now, size.1)) listed.items ≡ sizes W.current) }
    {
        state_rows::names(
            alloc,
            &self.rows.heap,
            self.rows.bits,
            self.rows.roots.current,
        )
    }

    /// The number of the buffers, and of the lines of all of them. It takes no memory.
    pub fn totals(&self) -> (usize, u128)
        ensures { (W : Workspace) × StandsFor self.now.pool W × (result.0 ≡ length (sizes W.current)) × (result.1 ≡ sum_by (λ size. size.1) (sizes W.current)) }
    {
        state_rows::totals(&self.rows.heap, self.rows.bits, self.rows.roots.current)
    }

    /// The starred names, in byte order. Err where memory runs out.
    pub fn stars(&self, alloc: Global) -> Result<Vec<&Text>, NoMemory>
        ensures { (W : Workspace) × StandsFor self.now.pool W × IfOk result (λ listed. each (λ name. name.now) listed.items ≡ map.keys W.current.stars) }
    {
        state_rows::stars(
            alloc,
            &self.rows.heap,
            self.rows.bits,
            self.rows.roots.current,
        )
    }

    /// The names of the versions, in byte order. Err where memory runs out.
    pub fn marks(&self, alloc: Global) -> Result<Vec<&Text>, NoMemory>
        ensures { (W : Workspace) × StandsFor self.now.pool W × IfOk result (λ listed. each (λ name. name.now) listed.items ≡ map.keys W.versions) }
    {
        state_rows::marks(alloc, &self.rows.heap, self.rows.versions())
    }
}
