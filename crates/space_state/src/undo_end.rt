//! How a state is put at the end of undo, and another turned to. Undo keeps as many states as its bound says: where one more comes, the
//! oldest goes first, by a cut that shares all rows but those along it. Both histories are edited in place: what nothing else holds of
//! their rows is written, and only what a loaded document shares is copied.
ghost use Rattle.std.specs.Prelude.{◌≡◌, ℕ, ◌+◌, ◌<◌, ◌≤◌, List, [], ◌∷◌, length, true};
ghost use Rattle.node_heap.specs.Heap.{HasSpares};
ghost use Rattle.node_heap.specs.Calls.{KeepsToNeed};
ghost use Rattle.plain_space.specs.Workspace.{State, Workspace, in_batch, last_of, undo_with, with_current};
ghost use Rattle.state_rows.specs.InHeap.{IsStateIn};
ghost use Rattle.space_state.specs.Roots.{Keeps};
ghost use Rattle.space_state.specs.BatchEdits.{current_kept};
ghost use Rattle.space_state.specs.Turns.{TurnsTo, TurnsBeside};
ghost use Rattle.space_state.specs.View.{room_of};

use crate::roots::RootedHeap;
use node_heap::Link;
use rrb_core::{Flex, FlexRef};
use state_rows::{EMPTIED_NODES, PUSHED_NODES, SHORTENED_NODES, emptied, pushed, shortened};

/// The nodes of a state that undo keeps: a cut where undo holds as many as its bound says, and a push.
pub(crate) const KEPT_NODES: usize = SHORTENED_NODES + PUSHED_NODES;

/// The nodes of a turn to another state: a state that undo keeps, and an empty redo.
pub(crate) const TURN_NODES: usize = KEPT_NODES + EMPTIED_NODES;

impl RootedHeap {
    /// Turns to the state, of which the caller's hold is spent. Outside a batch the old state goes to the end of undo, which keeps as
    /// many states as its bound says, and redo is emptied.
    pub(crate) fn turn_to(&mut self, next: Link)
        requires spares { HasSpares self.old.heap 0 TURN_NODES }
        requires kept { (W : Workspace) × (s : State) × Keeps self.old (next ∷ []) W × IsStateIn self.old.heap self.old.bits next s }
        ensures turns { (W : Workspace) (s : State) → Keeps self.old (next ∷ []) W → IsStateIn self.old.heap self.old.bits next s →
            TurnsTo self.old self.new [] TURN_NODES (with_current W s) }
        ensures made { self.new.heap.made ≤ self.old.heap.made + TURN_NODES }
        ensures below { (W : Workspace) (s : State) → Keeps self.old (next ∷ []) W → IsStateIn self.old.heap self.old.bits next s → length W.undo < W.history →
            self.new.heap.made ≤ self.old.heap.made + (PUSHED_NODES + EMPTIED_NODES) }
        ensures spares { KeepsToNeed self.old.heap self.new.heap 0 0 }
    {
        let before = self.roots.current;
        self.roots.current = next;
        if self.in_batch() {
            self.give_up(before);
        } else {
            self.record(before);
        }
    }

    /// Outside a batch puts the current state at the end of undo, which keeps as many states as its bound says, and empties redo. It stays
    /// current.
    pub(crate) fn keep_current(&mut self)
        requires spares { HasSpares self.old.heap 0 TURN_NODES }
        requires kept { (b : List ℕ) × (W : Workspace) × Keeps self.old b W × (length b ≤ 2) }
        ensures turns { (b : List ℕ) (W : Workspace) → Keeps self.old b W → TurnsBeside self.old self.new b 0 TURN_NODES (current_kept W) }
        ensures made { self.new.heap.made ≤ self.old.heap.made + TURN_NODES }
        ensures below { (b : List ℕ) (W : Workspace) → Keeps self.old b W → length W.undo < W.history → self.new.heap.made ≤ self.old.heap.made + (PUSHED_NODES + EMPTIED_NODES) }
        ensures spares { KeepsToNeed self.old.heap self.new.heap 0 0 }
        ensures inside { (W : Workspace) → Keeps self.old [] W → in_batch W ≡ true → self.new ≡ self.old }
    {
        if self.in_batch() {
            return;
        }
        self.heap.hold(self.roots.current);
        self.record(self.roots.current);
    }

    /// Puts the state at the end of undo, which spends a hold of it and keeps as many states as its bound says, and empties redo.
    pub(crate) fn record(&mut self, before: Link)
        requires spares { HasSpares self.old.heap 0 TURN_NODES }
        requires kept { (b : List ℕ) × (W : Workspace) × (s : State) × Keeps self.old (before ∷ b) W × (length b ≤ 2) × IsStateIn self.old.heap self.old.bits before s }
        ensures turns { (b : List ℕ) (W : Workspace) (s : State) → Keeps self.old (before ∷ b) W → IsStateIn self.old.heap self.old.bits before s →
            TurnsBeside self.old self.new b 0 TURN_NODES (record W { undo = undo_with W s; redo = [] }) }
        ensures made { self.new.heap.made ≤ self.old.heap.made + TURN_NODES }
        ensures below { (b : List ℕ) (W : Workspace) (s : State) → Keeps self.old (before ∷ b) W → IsStateIn self.old.heap self.old.bits before s → length W.undo < W.history →
            self.new.heap.made ≤ self.old.heap.made + (PUSHED_NODES + EMPTIED_NODES) }
        ensures spares { KeepsToNeed self.old.heap self.new.heap 0 0 }
    {
        self.push_undo(before);
        let redo = emptied(&mut self.heap, Flex::from_root(self.roots.redo));
        self.roots.redo = redo.into_root();
    }

    /// Puts the state at the end of undo, which spends a hold of it. Of undo the last states stay, as many as its bound says: where
    /// it holds so many, the oldest goes before the new one comes, so that undo is never longer than a vector can be.
    pub(crate) fn push_undo(&mut self, state: Link)
        requires spares { HasSpares self.old.heap 0 KEPT_NODES }
        requires kept { (b : List ℕ) × (W : Workspace) × (s : State) × Keeps self.old (state ∷ b) W × (length b ≤ 2) × IsStateIn self.old.heap self.old.bits state s }
        ensures turns { (b : List ℕ) (W : Workspace) (s : State) → Keeps self.old (state ∷ b) W → IsStateIn self.old.heap self.old.bits state s →
            TurnsBeside self.old self.new b 0 KEPT_NODES (record W { undo = undo_with W s }) }
        ensures made { self.new.heap.made ≤ self.old.heap.made + KEPT_NODES }
        ensures below { (b : List ℕ) (W : Workspace) → Keeps self.old (state ∷ b) W → length W.undo < W.history → self.new.heap.made ≤ self.old.heap.made + PUSHED_NODES }
        ensures spares { KeepsToNeed self.old.heap self.new.heap 0 0 }
    {
        if self.history == 0 {
            self.heap.release(state);
            return;
        }
        self.shorten_undo(self.history - 1);
        let undo = pushed(&mut self.heap, Flex::from_root(self.roots.undo), state);
        self.roots.undo = undo.into_root();
    }

    /// Keeps the last states of undo, at most so many, and gives the others up. Where there are no more, nothing changes.
    pub(crate) fn shorten_undo(&mut self, count: u32)
        requires spares { HasSpares self.old.heap 0 SHORTENED_NODES }
        requires kept { (b : List ℕ) × (W : Workspace) × Keeps self.old b W × (length b ≤ 3) }
        ensures turns { (b : List ℕ) (W : Workspace) → Keeps self.old b W →
            TurnsBeside self.old self.new b 0 SHORTENED_NODES (record W { undo = last_of count W.undo }) }
        ensures short { (b : List ℕ) (W : Workspace) → Keeps self.old b W → length W.undo ≤ count → self.new ≡ self.old }
        ensures history { self.new.history ≡ self.old.history }
        ensures made { self.new.heap.made ≤ self.old.heap.made + SHORTENED_NODES }
        ensures spares { KeepsToNeed self.old.heap self.new.heap 0 0 }
    {
        let states = FlexRef::at(self.roots.undo).len(&self.heap);
        if states <= count {
            return;
        }
        let undo = Flex::from_root(self.roots.undo);
        let undo = shortened(&mut self.heap, undo, states - count);
        self.roots.undo = undo.into_root();
    }

    /// Gives a hold up.
    pub(crate) fn give_up(&mut self, link: Link)
        requires { (W : Workspace) × Keeps self.old (link ∷ []) W }
        ensures turns { (W : Workspace) → Keeps self.old (link ∷ []) W → TurnsTo self.old self.new [] 0 W }
        ensures roots { self.new.roots ≡ self.old.roots }
        ensures made { self.new.heap.made ≡ self.old.heap.made }
        ensures room { room_of self.new.heap ≡ room_of self.old.heap }
        ensures spares { KeepsToNeed self.old.heap self.new.heap 0 0 }
    {
        self.heap.release(link);
    }
}
