//! The edits of buffers that make new lines beside the old ones, and put them in place of those; the edits of lines in place are in
//! `line_edits.rt`. Each looks for what refuses it, and makes room for all that it will make.
ghost use Rattle.std.specs.Prelude.{◌≡◌, ◌≢◌, [], Err, IsSomeAnd, None, MatchResult};
ghost use Rattle.elem_core.specs.Shown.{name_bytes, line_bytes};
ghost use Rattle.shell_terms.specs.Edit.{put, del, cat, cut, copy, drop};
ghost use Rattle.shell_terms.specs.Command.{edit};
ghost use Rattle.plain_space.specs.Workspace.{Workspace, lines_of};
ghost use Rattle.state_rows.specs.InHeap.{AreLinesIn};
ghost use Rattle.space_state.specs.Roots.{Keeps};
ghost use Rattle.space_state.specs.Needed.{HoardsNone};
ghost use Rattle.space_state.specs.Turns.{HasEditSpares, EndsOnRows};

use crate::lines::has_part;
use crate::roots::RootedHeap;
use elem_core::{Line, Name};
use plain_space::Refusal;
use rrb_core::FlexRef;
use rrb_join::{concat, erase, insert, slice};
use state_rows::{buffer, without_lines};

/// The most lines of a buffer.
const MOST_ITEMS: u32 = u32::MAX;

impl RootedHeap {
    /// The lines of the buffer.
    pub(crate) fn buffer(&self, name: Name<'_>) -> Result<FlexRef, Refusal>
        requires { (W : Workspace) × Keeps self.now [] W }
        ensures { (W : Workspace) → Keeps self.now [] W → MatchResult result
            (λ lines. IsSomeAnd (lines_of W.current (name_bytes name.entry)) (AreLinesIn self.now.heap self.now.bits lines))
            (λ why. (lines_of W.current (name_bytes name.entry) ≡ None) × (why ≡ Refusal.Absent)) }
    {
        buffer(&self.heap, self.bits, self.roots.current, name).ok_or(Refusal::Absent)
    }

    /// Puts the line before the one at the index, or at the end.
    pub(crate) fn put(&mut self, name: Name<'_>, index: u32, line: Line<'_>) -> Result<(), Refusal>
        requires { (W : Workspace) × Keeps self.old [] W }
        ensures ends { EndsOnRows (edit (put (name_bytes name.entry) index (line_bytes line.entry))) self.old result self.new }
        ensures spares { HoardsNone (edit (put (name_bytes name.entry) index (line_bytes line.entry))) self.old result self.new }
    {
        let found = self.find(name);
        let Some(lines) = found.lines else {
            return Err(Refusal::Absent);
        };
        let count = lines.len(&self.heap);
        if index > count {
            return Err(Refusal::Range);
        }
        if count == MOST_ITEMS {
            return Err(Refusal::Limit);
        }
        let text = self.prepare_line(line, found.alike)?;
        let line = self.heap.cell(text);
        let Ok(longer) = insert(&mut self.heap, lines, index, line) else {
            unreachable!()
        };
        self.write_lines(name, None, longer);
        Ok(())
    }

    /// Takes the lines of the range out of the buffer.
    pub(crate) fn del(&mut self, name: Name<'_>, from: u32, to: u32) -> Result<(), Refusal>
        requires { (W : Workspace) × Keeps self.old [] W }
        ensures ends { EndsOnRows (edit (del (name_bytes name.entry) from to)) self.old result self.new }
        ensures spares { HoardsNone (edit (del (name_bytes name.entry) from to)) self.old result self.new }
        ensures ample { (W : Workspace) → Keeps self.old [] W → HasEditSpares self.old W (edit (del (name_bytes name.entry) from to)) → result ≢ Err Refusal.Memory }
    {
        let found = self.find(name);
        let Some(lines) = found.lines else {
            return Err(Refusal::Absent);
        };
        if !has_part(&self.heap, lines, from, to) {
            return Err(Refusal::Range);
        }
        self.make_room_with(found.alike)?;
        let Ok(shorter) = erase(&mut self.heap, lines, from, to) else {
            unreachable!()
        };
        self.write_lines(name, None, shorter);
        Ok(())
    }

    /// Adds the lines of the second buffer at the end of the first.
    pub(crate) fn cat(&mut self, name: Name<'_>, other: Name<'_>) -> Result<(), Refusal>
        requires { (W : Workspace) × Keeps self.old [] W }
        ensures ends { EndsOnRows (edit (cat (name_bytes name.entry) (name_bytes other.entry))) self.old result self.new }
        ensures spares { HoardsNone (edit (cat (name_bytes name.entry) (name_bytes other.entry))) self.old result self.new }
        ensures ample { (W : Workspace) → Keeps self.old [] W → HasEditSpares self.old W (edit (cat (name_bytes name.entry) (name_bytes other.entry))) → result ≢ Err Refusal.Memory }
    {
        let found = self.find(name);
        let Some(lines) = found.lines else {
            return Err(Refusal::Absent);
        };
        let more = self.buffer(other)?;
        if lines.len(&self.heap) > MOST_ITEMS - more.len(&self.heap) {
            return Err(Refusal::Limit);
        }
        self.make_room_with(found.alike)?;
        let Ok(joined) = concat(&mut self.heap, lines, more) else {
            unreachable!()
        };
        self.write_lines(name, None, joined);
        Ok(())
    }

    /// Takes the lines of the range out of the first buffer; the second is these lines then.
    pub(crate) fn cut(
        &mut self,
        name: Name<'_>,
        from: u32,
        to: u32,
        other: Name<'_>,
    ) -> Result<(), Refusal>
        requires { (W : Workspace) × Keeps self.old [] W }
        ensures ends { EndsOnRows (edit (cut (name_bytes name.entry) from to (name_bytes other.entry))) self.old result self.new }
        ensures spares { HoardsNone (edit (cut (name_bytes name.entry) from to (name_bytes other.entry))) self.old result self.new }
    {
        let found = self.find(name);
        let Some(lines) = found.lines else {
            return Err(Refusal::Absent);
        };
        if !has_part(&self.heap, lines, from, to) {
            return Err(Refusal::Range);
        }
        let target = self.find(other);
        let key = self.prepare_key(other, target.lines, found.alike + target.alike)?;
        let Ok(rest) = erase(&mut self.heap, lines, from, to) else {
            unreachable!()
        };
        let Ok(part) = slice(&mut self.heap, lines, from, to) else {
            unreachable!()
        };
        self.write_both(name, rest, other, key, part);
        Ok(())
    }

    /// Gives the second buffer the lines of the first.
    pub(crate) fn copy(&mut self, name: Name<'_>, other: Name<'_>) -> Result<(), Refusal>
        requires { (W : Workspace) × Keeps self.old [] W }
        ensures ends { EndsOnRows (edit (copy (name_bytes name.entry) (name_bytes other.entry))) self.old result self.new }
        ensures spares { HoardsNone (edit (copy (name_bytes name.entry) (name_bytes other.entry))) self.old result self.new }
    {
        let lines = self.buffer(name)?;
        let target = self.find(other);
        let key = self.prepare_key(other, target.lines, target.alike)?;
        let lines = lines.share(&mut self.heap);
        self.write_lines(other, key, lines);
        Ok(())
    }

    /// Takes the buffer away.
    pub(crate) fn drop_buffer(&mut self, name: Name<'_>) -> Result<(), Refusal>
        requires { (W : Workspace) × Keeps self.old [] W }
        ensures ends { EndsOnRows (edit (drop (name_bytes name.entry))) self.old result self.new }
        ensures spares { HoardsNone (edit (drop (name_bytes name.entry))) self.old result self.new }
        ensures ample { (W : Workspace) → Keeps self.old [] W → HasEditSpares self.old W (edit (drop (name_bytes name.entry))) → result ≢ Err Refusal.Memory }
    {
        let found = self.find(name);
        if found.lines.is_none() {
            return Err(Refusal::Absent);
        }
        self.make_room_with(found.alike)?;
        let next = without_lines(&mut self.heap, self.bits, self.roots.current, name);
        self.turn_to(next);
        Ok(())
    }
}
