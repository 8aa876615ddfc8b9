//! Batches: edits that undo takes back together.
ghost use Rattle.std.specs.Prelude.{◌≡◌, ◌≢◌, ◌+◌, ◌<◌, ◌≤◌, List, [], length, Err, ℕ};
ghost use Rattle.node_heap.specs.Heap.{HasSpares};
ghost use Rattle.shell_terms.specs.Command.{begin, «end», abort};
ghost use Rattle.plain_space.specs.Workspace.{Workspace, in_batch};
ghost use Rattle.space_state.specs.Roots.{Keeps};
ghost use Rattle.space_state.specs.Needed.{HoardsNone};
ghost use Rattle.space_state.specs.Turns.{EndsOnRows};
ghost use Rattle.space_state.specs.View.{room_of};

use crate::roots::{Batch, RootedHeap};
use crate::undo_end::TURN_NODES;
use plain_space::Refusal;
use state_rows::{EMPTIED_NODES, PUSHED_NODES};

impl RootedHeap {
    /// Whether a batch is open.
    pub(crate) fn in_batch(&self) -> bool
        ensures { (besides : List ℕ) (W : Workspace) → Keeps self.now besides W → result ≡ in_batch W }
    {
        match self.roots.batch {
            Batch::Closed => false,
            Batch::Open(_) => true,
        }
    }

    /// Opens a batch, whose base is the current state.
    pub(crate) fn begin(&mut self) -> Result<(), Refusal>
        requires { (W : Workspace) × Keeps self.old [] W }
        ensures obeys { EndsOnRows begin self.old result self.new }
        ensures spares { HoardsNone begin self.old result self.new }
        ensures made { self.new.heap.made ≡ self.old.heap.made }
        ensures room { room_of self.new.heap ≡ room_of self.old.heap }
    {
        if self.in_batch() {
            return Err(Refusal::Batch);
        }
        self.heap.hold(self.roots.current);
        self.roots.batch = Batch::Open(self.roots.current);
        Ok(())
    }

    /// Closes the batch. Its base goes to the end of undo, which keeps as many states as its bound says, and redo is emptied.
    pub(crate) fn end(&mut self) -> Result<(), Refusal>
        requires { (W : Workspace) × Keeps self.old [] W }
        ensures ends { EndsOnRows «end» self.old result self.new }
        ensures spares { HoardsNone «end» self.old result self.new }
        ensures ample { HasSpares self.old.heap 0 TURN_NODES → result ≢ Err Refusal.Memory }
        ensures made { self.new.heap.made ≤ self.old.heap.made + TURN_NODES }
        ensures below { (W : Workspace) → Keeps self.old [] W → length W.undo < W.history → self.new.heap.made ≤ self.old.heap.made + (PUSHED_NODES + EMPTIED_NODES) }
    {
        let Some(base) = self.roots.batch.base() else {
            return Err(Refusal::Batch);
        };
        self.heap.reserve(0, TURN_NODES)?;
        self.roots.batch = Batch::Closed;
        self.record(base);
        Ok(())
    }

    /// Closes the batch and goes back to its base.
    pub(crate) fn abort(&mut self) -> Result<(), Refusal>
        requires { (W : Workspace) × Keeps self.old [] W }
        ensures obeys { EndsOnRows abort self.old result self.new }
        ensures spares { HoardsNone abort self.old result self.new }
        ensures made { self.new.heap.made ≡ self.old.heap.made }
        ensures room { room_of self.new.heap ≡ room_of self.old.heap }
    {
        let Some(base) = self.roots.batch.base() else {
            return Err(Refusal::Batch);
        };
        let before = self.roots.current;
        self.roots.current = base;
        self.roots.batch = Batch::Closed;
        self.give_up(before);
        Ok(())
    }
}
