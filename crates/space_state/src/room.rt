//! Room for the edits that make new rows beside the old ones.
ghost use Rattle.std.specs.Prelude.{◌≡◌, ◌≢◌, ◌+◌, ◌*◌, ◌<◌, ◌≤◌, [], ◌^◌, IfOk, Err};
ghost use Rattle.elem_core.specs.Shown.{name_bytes, line_bytes};
ghost use Rattle.node_heap.specs.Heap.{HasSpares, row_limit};
ghost use Rattle.node_heap.specs.Calls.{KeepsToNeed};
ghost use Rattle.plain_space.specs.Workspace.{Workspace};
ghost use Rattle.space_state.specs.Roots.{Keeps};
ghost use Rattle.space_state.specs.BatchEdits.{new_key};
ghost use Rattle.space_state.specs.Turns.{MakesRoom};

use crate::roots::RootedHeap;
use crate::undo_end::TURN_NODES;
use champ_kinds::INSERT_NODES;
use elem_core::{Line, Name, NoMemory, Text, text_of};
use plain_space::Refusal;
use rrb_core::{FlexRef, TAKE_NODES};
use rrb_join::SEAM_NODES;

/// The nodes for which room is made before an edit that makes new lines or stars, besides one for each name whose code is alike:
/// those of the edit that makes most, which erases lines of a buffer, gives them to another as a slice, writes both names (and 1 for
/// the first among the names of the second), and keeps the state that there was.
pub(crate) const EDIT_NODES: usize = ERASE_NODES + SLICE_NODES + 2 * WRITTEN_NODES + 1 + TURN_NODES;

/// The nodes that an erase of lines reserves: those of its front, of its back, and of the seam.
const ERASE_NODES: usize = TAKE_NODES + 2 * SEAM_NODES;

/// The nodes that a slice reserves: those of a front, and of its end.
const SLICE_NODES: usize = TAKE_NODES + SEAM_NODES;

/// The nodes of a name that is written, besides one for each name that is alike: those of an insert, and a state.
pub(crate) const WRITTEN_NODES: usize = INSERT_NODES + 1;

impl RootedHeap {
    /// Makes room for an edit: for two cells, for `EDIT_NODES` nodes, and for so many more: one for each name with the masked code of
    /// one that it writes, or those of a merge. Nothing but the heap's spares changes, and where it is refused nothing at all: with
    /// `Memory` alone, and not where the spares are there already.
    pub(crate) fn make_room_with(&mut self, alike: usize) -> Result<(), Refusal>
        requires kept { (W : Workspace) × Keeps self.old [] W }
        requires few { alike ≤ 2 ^ 62 }
        ensures room { MakesRoom (λ _. EDIT_NODES + alike) self.old result self.new }
        ensures spares { IfOk result (λ _. KeepsToNeed self.old.heap self.new.heap 2 (EDIT_NODES + alike)) }
        ensures ample { HasSpares self.old.heap 2 (EDIT_NODES + alike) → result ≢ Err Refusal.Memory }
    {
        self.heap.reserve(2, EDIT_NODES + alike)?;
        Ok(())
    }

    /// Makes room as `make_room_with` does, and gives the line as a text, for which memory may be refused however many spares there
    /// are. The text comes first, so that an edit that wants memory for it leaves the heap the room that it had.
    pub(crate) fn prepare_line(&mut self, line: Line<'_>, alike: usize) -> Result<Text, Refusal>
        requires kept { (W : Workspace) × Keeps self.old [] W }
        requires few { alike < 2 * row_limit }
        ensures room { MakesRoom (λ _. EDIT_NODES + alike) self.old result self.new }
        ensures spares { IfOk result (λ _. KeepsToNeed self.old.heap self.new.heap 2 (EDIT_NODES + alike)) }
        ensures text { IfOk result (λ text. text ≡ line_bytes line.entry) }
    {
        let text = text_of(self.alloc, line)?;
        self.make_room_with(alike)?;
        Ok(text)
    }

    /// The same with the text by which a buffer is made of which these lines were found.
    pub(crate) fn prepare_key(
        &mut self,
        name: Name<'_>,
        found: Option<FlexRef>,
        alike: usize,
    ) -> Result<Option<Text>, Refusal>
        requires kept { (W : Workspace) × Keeps self.old [] W }
        requires few { alike < 2 * row_limit }
        ensures room { MakesRoom (λ _. EDIT_NODES + alike) self.old result self.new }
        ensures spares { IfOk result (λ _. KeepsToNeed self.old.heap self.new.heap 2 (EDIT_NODES + alike)) }
        ensures key { IfOk result (λ key. key ≡ new_key found (name_bytes name.entry)) }
    {
        let key = self.new_key(name, found)?;
        self.make_room_with(alike)?;
        Ok(key)
    }

    /// The text by which a buffer is made of which these lines were found: its name where there is no such buffer, and none where
    /// there is one. Err where memory runs out.
    pub(crate) fn new_key(
        &self,
        name: Name<'_>,
        found: Option<FlexRef>,
    ) -> Result<Option<Text>, NoMemory>
        ensures { IfOk result (λ key. key ≡ new_key found (name_bytes name.entry)) }
    {
        if found.is_some() {
            return Ok(None);
        }
        let key = text_of(self.alloc, name.as_line())?;
        Ok(Some(key))
    }
}
