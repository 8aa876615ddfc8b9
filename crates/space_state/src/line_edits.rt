//! The edits that make a buffer, and those of lines in place. Each first looks for what refuses it and makes room for all that it will
//! make.
ghost use Rattle.std.specs.Prelude.{◌≡◌, ◌+◌, ◌<◌, [], IfOk, MatchResult};
ghost use Rattle.node_heap.specs.Heap.{row_limit};
ghost use Rattle.elem_core.specs.Shown.{name_bytes, line_bytes};
ghost use Rattle.node_heap.specs.Calls.{KeepsToNeed};
ghost use Rattle.shell_terms.specs.Edit.{new, add, set};
ghost use Rattle.shell_terms.specs.Command.{edit};
ghost use Rattle.plain_space.specs.Workspace.{Workspace};
ghost use Rattle.space_state.specs.Roots.{Keeps};
ghost use Rattle.space_state.specs.Needed.{HoardsNone};
ghost use Rattle.space_state.specs.Turns.{RoomIsRefused, IsReadyInPlace, EndsOnRows};

use crate::roots::RootedHeap;
use crate::undo_end::TURN_NODES;
use elem_core::{Line, Name, Text, text_of};
use plain_space::Refusal;
use rrb_core::Flex;
use state_rows::{LINE_ADDED_NODES, buffer_made, line_added, line_set};

/// The nodes of an edit in place, besides one for each name that is alike: those of a line added. To make a buffer or set a line takes
/// no more.
const IN_PLACE_NODES: usize = LINE_ADDED_NODES;

impl RootedHeap {
    // Makes ready for an edit in place: gives its text, makes room for a cell, for `IN_PLACE_NODES` nodes and one more for each of so
    // many names that are alike, and then keeps the current state. Refused as `make_room_with` is, which leaves all as it was.
    fn ready(&mut self, line: Line<'_>, alike: usize) -> Result<Text, Refusal>
        requires kept { (W : Workspace) × Keeps self.old [] W }
        requires few { alike < row_limit }
        ensures ready { (W : Workspace) → Keeps self.old [] W → MatchResult result (λ _. IsReadyInPlace self.old self.new W (IN_PLACE_NODES + alike)) (RoomIsRefused self.old self.new) }
        ensures spares { IfOk result (λ _. KeepsToNeed self.old.heap self.new.heap 1 (IN_PLACE_NODES + TURN_NODES + alike)) }
        ensures text { IfOk result (λ text. text ≡ line_bytes line.entry) }
    {
        let text = text_of(self.alloc, line)?;
        self.heap.reserve(1, IN_PLACE_NODES + TURN_NODES + alike)?;
        self.keep_current();
        Ok(text)
    }

    /// Makes the buffer, without lines.
    pub(crate) fn make(&mut self, name: Name<'_>) -> Result<(), Refusal>
        requires { (W : Workspace) × Keeps self.old [] W }
        ensures ends { EndsOnRows (edit (new (name_bytes name.entry))) self.old result self.new }
        ensures spares { HoardsNone (edit (new (name_bytes name.entry))) self.old result self.new }
    {
        let found = self.find(name);
        if found.lines.is_some() {
            return Err(Refusal::Exists);
        }
        let key = self.ready(name.as_line(), found.alike)?;
        let Ok(lines) = Flex::empty(&mut self.heap) else {
            unreachable!()
        };
        let state = buffer_made(&mut self.heap, self.bits, self.roots.current, key, lines);
        self.roots.current = state;
        Ok(())
    }

    /// Adds the line at the end of the buffer.
    pub(crate) fn add(&mut self, name: Name<'_>, line: Line<'_>) -> Result<(), Refusal>
        requires { (W : Workspace) × Keeps self.old [] W }
        ensures ends { EndsOnRows (edit (add (name_bytes name.entry) (line_bytes line.entry))) self.old result self.new }
        ensures spares { HoardsNone (edit (add (name_bytes name.entry) (line_bytes line.entry))) self.old result self.new }
    {
        let found = self.find(name);
        let Some(lines) = found.lines else {
            return Err(Refusal::Absent);
        };
        if lines.is_longest(&self.heap) {
            return Err(Refusal::Limit);
        }
        let text = self.ready(line, found.alike)?;
        let line = self.heap.cell(text);
        let state = line_added(&mut self.heap, self.bits, self.roots.current, name, line);
        self.roots.current = state;
        Ok(())
    }

    /// Puts the line in place of the one at the index.
    pub(crate) fn set(&mut self, name: Name<'_>, index: u32, line: Line<'_>) -> Result<(), Refusal>
        requires { (W : Workspace) × Keeps self.old [] W }
        ensures ends { EndsOnRows (edit (set (name_bytes name.entry) index (line_bytes line.entry))) self.old result self.new }
        ensures spares { HoardsNone (edit (set (name_bytes name.entry) index (line_bytes line.entry))) self.old result self.new }
    {
        let found = self.find(name);
        let Some(lines) = found.lines else {
            return Err(Refusal::Absent);
        };
        if lines.is_past(&self.heap, index) {
            return Err(Refusal::Range);
        }
        let text = self.ready(line, found.alike)?;
        let line = self.heap.cell(text);
        let state = line_set(
            &mut self.heap,
            self.bits,
            self.roots.current,
            name,
            index,
            line,
        );
        self.roots.current = state;
        Ok(())
    }
}
