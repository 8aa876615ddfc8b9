//! How the current state is edited in place, as the edits of buffers do: a row with one owner is written, and one with more is
//! copied. Outside a batch the current state is put at the end of undo first, where undo keeps one at least, so that it has a second
//! owner and the whole way is copied. In a batch, and where undo keeps none, the way is copied once, where the base, a version or a
//! history has it too, and written from then on.
ghost use Rattle.std.specs.Prelude.{◌≡◌, ℕ, ◌+◌, ◌*◌, ◌<◌, ◌≤◌, List, [], ◌∷◌, length, Option, None};
ghost use Rattle.elem_core.specs.Shown.{name_bytes};
ghost use Rattle.node_heap.specs.Heap.{HasSpares, row_limit};
ghost use Rattle.node_heap.specs.Calls.{KeepsToNeed};
ghost use Rattle.shell_terms.specs.Edit.{Bytes};
ghost use Rattle.plain_space.specs.Workspace.{Workspace, lines_of, with_lines, with_current};
ghost use Rattle.plain_space.specs.Cost.{alike_buffers};
ghost use Rattle.state_rows.specs.Reading.{StandsIfThere};
ghost use Rattle.state_rows.specs.InHeap.{AreLinesIn};
ghost use Rattle.space_state.specs.Roots.{Keeps};
ghost use Rattle.space_state.specs.BatchEdits.{new_key};
ghost use Rattle.space_state.specs.Turns.{TurnsTo, TurnsBeside};

use crate::room::WRITTEN_NODES;
use crate::roots::RootedHeap;
use crate::undo_end::TURN_NODES;
use elem_core::{Name, Text};
use rrb_core::Flex;
use state_rows::{FoundBuffer, buffer_made, find_buffer, lines_put};

impl RootedHeap {
    /// The lines of the buffer, and the number of names that are alike.
    pub(crate) fn find(&self, name: Name<'_>) -> FoundBuffer
        requires { (W : Workspace) × Keeps self.now [] W }
        ensures lines { (W : Workspace) → Keeps self.now [] W → StandsIfThere (AreLinesIn self.now.heap self.now.bits) result.lines (lines_of W.current (name_bytes name.entry)) }
        ensures alike { (W : Workspace) → Keeps self.now [] W → result.alike ≡ alike_buffers self.now.bits W.current (name_bytes name.entry) }
        ensures few { result.alike < row_limit }
    {
        find_buffer(&self.heap, self.bits, self.roots.current, name)
    }

    /// Gives the buffer of the current state these lines, of which the caller's hold is spent: made by the key, or replaced.
    pub(crate) fn place_lines(&mut self, name: Name<'_>, key: Option<Text>, lines: Flex)
        requires { (b : List ℕ) × (W : Workspace) × (xs : List Bytes) × Keeps self.old (lines ∷ b) W × (length b ≤ 1) × AreLinesIn self.old.heap self.old.bits lines xs
            × (key ≡ new_key (lines_of W.current (name_bytes name)) (name_bytes name)) × HasSpares self.old.heap 1 (WRITTEN_NODES + alike_buffers self.old.bits W.current (name_bytes name)) }
        ensures turns { (b : List ℕ) (W : Workspace) (xs : List Bytes) → Keeps self.old (lines ∷ b) W → AreLinesIn self.old.heap self.old.bits lines xs →
            key ≡ new_key (lines_of W.current (name_bytes name.entry)) (name_bytes name.entry) →
            TurnsBeside self.old self.new b 1 (WRITTEN_NODES + alike_buffers self.old.bits W.current (name_bytes name.entry)) (record W { current = with_lines W.current (name_bytes name.entry) xs }) }
        ensures spares { KeepsToNeed self.old.heap self.new.heap 0 0 }
    {
        let Some(key) = key else {
            let state = lines_put(&mut self.heap, self.bits, self.roots.current, name, lines);
            self.roots.current = state;
            return;
        };
        let state = buffer_made(&mut self.heap, self.bits, self.roots.current, key, lines);
        self.roots.current = state;
    }

    /// Keeps the current state, and gives the buffer these lines, of which the caller's hold is spent: made by the key, or replaced.
    pub(crate) fn write_lines(&mut self, name: Name<'_>, key: Option<Text>, lines: Flex)
        requires { (W : Workspace) × (xs : List Bytes) × Keeps self.old (lines ∷ []) W × AreLinesIn self.old.heap self.old.bits lines xs
            × (key ≡ new_key (lines_of W.current (name_bytes name)) (name_bytes name)) × HasSpares self.old.heap 1 (WRITTEN_NODES + TURN_NODES + alike_buffers self.old.bits W.current (name_bytes name)) }
        ensures turns { (W : Workspace) (xs : List Bytes) → Keeps self.old (lines ∷ []) W → AreLinesIn self.old.heap self.old.bits lines xs →
            key ≡ new_key (lines_of W.current (name_bytes name.entry)) (name_bytes name.entry) →
            TurnsTo self.old self.new [] (WRITTEN_NODES + 1 + TURN_NODES + alike_buffers self.old.bits W.current (name_bytes name.entry)) (with_current W (with_lines W.current (name_bytes name.entry) xs)) }
        ensures spares { KeepsToNeed self.old.heap self.new.heap 0 0 }
    {
        self.keep_current();
        self.place_lines(name, key, lines);
    }

    /// Keeps the current state, and gives two buffers these lines, of each of which the caller's hold is spent: the first one is
    /// there, and the second is made by the key, or replaced.
    pub(crate) fn write_both(
        &mut self,
        name: Name<'_>,
        rest: Flex,
        other: Name<'_>,
        key: Option<Text>,
        part: Flex,
    )
        requires { (W : Workspace) × (xs ys : List Bytes) × Keeps self.old (rest ∷ part ∷ []) W × AreLinesIn self.old.heap self.old.bits rest xs × AreLinesIn self.old.heap self.old.bits part ys
            × (None ≡ new_key (lines_of W.current (name_bytes name)) (name_bytes name)) × (key ≡ new_key (lines_of W.current (name_bytes other)) (name_bytes other))
            × HasSpares self.old.heap 2 (2 * WRITTEN_NODES + 1 + TURN_NODES + alike_buffers self.old.bits W.current (name_bytes name) + alike_buffers self.old.bits W.current (name_bytes other)) }
        ensures turns { (W : Workspace) (xs ys : List Bytes) → Keeps self.old (rest ∷ part ∷ []) W → AreLinesIn self.old.heap self.old.bits rest xs → AreLinesIn self.old.heap self.old.bits part ys →
            None ≡ new_key (lines_of W.current (name_bytes name.entry)) (name_bytes name.entry) → key ≡ new_key (lines_of W.current (name_bytes other.entry)) (name_bytes other.entry) →
            TurnsTo self.old self.new [] (2 * WRITTEN_NODES + 3 + TURN_NODES + (alike_buffers self.old.bits W.current (name_bytes name.entry) + alike_buffers self.old.bits W.current (name_bytes other.entry)))
            (with_current W (with_lines (with_lines W.current (name_bytes name.entry) xs) (name_bytes other.entry) ys)) }
        ensures spares { KeepsToNeed self.old.heap self.new.heap 0 0 }
    {
        self.keep_current();
        self.place_lines(name, None, rest);
        self.place_lines(other, key, part);
    }
}
