//! Steps through undo and redo, and how many states undo keeps.
ghost use Rattle.std.specs.Prelude.{◌≡◌, ◌≢◌, ◌+◌, ◌<◌, ◌≤◌, List, [], ◌∷◌, ◌++◌, length, Err, MatchResult};
ghost use Rattle.node_heap.specs.Heap.{HasSpares};
ghost use Rattle.node_heap.specs.Calls.{KeepsToNeed};
ghost use Rattle.shell_terms.specs.Command.{undo, redo, history};
ghost use Rattle.plain_space.specs.Workspace.{State, Workspace, most};
ghost use Rattle.state_rows.specs.InHeap.{IsStateIn, IsHistoryIn};
ghost use Rattle.space_state.specs.Roots.{Keeps};
ghost use Rattle.space_state.specs.Turns.{EndsOnRows, TurnsTo};
ghost use Rattle.space_state.specs.Needed.{HoardsNone};
ghost use Rattle.space_state.specs.Stepping.{CanStep, HasNoStep};

use crate::roots::RootedHeap;
use crate::undo_end::KEPT_NODES;
use node_heap::Link;
use plain_space::Refusal;
use rrb_core::{Flex, FlexRef};
use state_rows::{POPPED_NODES, PUSHED_NODES, SHORTENED_NODES, popped, pushed};

/// The nodes of an undo: a state less in undo, and one more in redo.
pub(crate) const UNDO_NODES: usize = POPPED_NODES + PUSHED_NODES;

/// The nodes of a redo: a state less in redo, and one that undo keeps.
pub(crate) const REDO_NODES: usize = POPPED_NODES + KEPT_NODES;

/// The nodes of another bound: a cut of undo.
pub(crate) const HISTORY_NODES: usize = SHORTENED_NODES;

impl RootedHeap {
    /// Goes back to the state before the last edit.
    pub(crate) fn undo(&mut self) -> Result<(), Refusal>
        requires { (W : Workspace) × Keeps self.old [] W }
        ensures ends { EndsOnRows undo self.old result self.new }
        ensures spares { HoardsNone undo self.old result self.new }
        ensures ample { HasSpares self.old.heap 0 UNDO_NODES → result ≢ Err Refusal.Memory }
        ensures made { self.new.heap.made ≤ self.old.heap.made + UNDO_NODES }
    {
        self.can_step(FlexRef::at(self.roots.undo))?;
        if FlexRef::at(self.roots.redo).is_longest(&self.heap) {
            return Err(Refusal::Limit);
        }
        self.heap.reserve(0, UNDO_NODES)?;
        let (undo, state) = popped(&mut self.heap, Flex::from_root(self.roots.undo));
        self.roots.undo = undo.into_root();
        let before = self.roots.current;
        self.roots.current = state;
        self.push_redo(before);
        Ok(())
    }

    /// Goes forward to the state that the last undo left. Undo keeps as many states as its bound says.
    pub(crate) fn redo(&mut self) -> Result<(), Refusal>
        requires { (W : Workspace) × Keeps self.old [] W }
        ensures ends { EndsOnRows redo self.old result self.new }
        ensures spares { HoardsNone redo self.old result self.new }
        ensures ample { HasSpares self.old.heap 0 REDO_NODES → result ≢ Err Refusal.Memory }
        ensures made { self.new.heap.made ≤ self.old.heap.made + REDO_NODES }
        ensures below { (W : Workspace) → Keeps self.old [] W → length W.undo < W.history → self.new.heap.made ≤ self.old.heap.made + UNDO_NODES }
    {
        self.can_step(FlexRef::at(self.roots.redo))?;
        self.heap.reserve(0, REDO_NODES)?;
        let (redo, state) = popped(&mut self.heap, Flex::from_root(self.roots.redo));
        self.roots.redo = redo.into_root();
        let before = self.roots.current;
        self.roots.current = state;
        self.push_undo(before);
        Ok(())
    }

    /// Sets how many states undo keeps: the last ones stay. `Batch` in a batch, else `Memory` where memory runs out, but not where
    /// the spares are there already.
    pub(crate) fn set_history(&mut self, count: u32) -> Result<(), Refusal>
        requires { (W : Workspace) × Keeps self.old [] W }
        ensures ends { EndsOnRows (history count) self.old result self.new }
        ensures spares { HoardsNone (history count) self.old result self.new }
        ensures ample { HasSpares self.old.heap 0 HISTORY_NODES → result ≢ Err Refusal.Memory }
        ensures made { self.new.heap.made ≤ self.old.heap.made + HISTORY_NODES }
        ensures within { (W : Workspace) → Keeps self.old [] W → length W.undo ≤ count → self.new.heap.made ≡ self.old.heap.made }
    {
        if self.in_batch() {
            return Err(Refusal::Batch);
        }
        self.heap.reserve(0, HISTORY_NODES)?;
        self.shorten_undo(count);
        self.history = count;
        Ok(())
    }

    // Whether a step can be made from this history: `Batch` in a batch, else `Empty` where it is empty.
    fn can_step(&self, from: FlexRef) -> Result<(), Refusal>
        requires { (W : Workspace) × (xs : List State) × Keeps self.now [] W × IsHistoryIn self.now.heap self.now.bits from xs }
        ensures { (W : Workspace) (xs : List State) → Keeps self.now [] W → IsHistoryIn self.now.heap self.now.bits from xs → MatchResult result (λ _. CanStep xs W) (HasNoStep xs W) }
    {
        if self.in_batch() {
            return Err(Refusal::Batch);
        }
        if from.is_empty(&self.heap) {
            return Err(Refusal::Empty);
        }
        Ok(())
    }

    // Puts the state at the end of redo, which spends a hold of it.
    fn push_redo(&mut self, state: Link)
        requires spares { HasSpares self.old.heap 0 PUSHED_NODES }
        requires kept { (W : Workspace) × (s : State) × Keeps self.old (state ∷ []) W × IsStateIn self.old.heap self.old.bits state s × (length W.redo < most) }
        ensures turns { (W : Workspace) (s : State) → Keeps self.old (state ∷ []) W → IsStateIn self.old.heap self.old.bits state s →
            TurnsTo self.old self.new [] PUSHED_NODES (record W { redo = W.redo ++ s ∷ [] }) }
        ensures made { self.new.heap.made ≤ self.old.heap.made + PUSHED_NODES }
        ensures spares { KeepsToNeed self.old.heap self.new.heap 0 0 }
    {
        let redo = pushed(&mut self.heap, Flex::from_root(self.roots.redo), state);
        self.roots.redo = redo.into_root();
    }
}
