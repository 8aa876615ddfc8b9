//! What is asked of buffers and versions by their names. None of it takes memory.
ghost use Rattle.std.specs.Prelude.{◌≡◌, ◌≤◌, [], length, Some, slice_get, slice_range};
ghost use Rattle.elem_core.specs.Shown.{name_bytes};
ghost use Rattle.plain_space.specs.Workspace.{Workspace, lines_of, version_of};
ghost use Rattle.space_state.specs.Roots.{Keeps};
ghost use Rattle.space_state.specs.Asked.{OnLines, AreEqual};

use crate::lines::{SpaceLines, has_part};
use crate::roots::RootedHeap;
use crate::same::{same_lines, same_states};
use elem_core::{Name, Text};
use plain_space::Refusal;

impl RootedHeap {
    /// The line of the buffer at the index.
    pub(crate) fn line(&self, name: Name<'_>, index: u32) -> Result<&Text, Refusal>
        requires { (W : Workspace) × Keeps self.now [] W }
        ensures { (W : Workspace) → Keeps self.now [] W → OnLines W (name_bytes name.entry) result
            (λ lines text. slice_get lines index ≡ Some text.now) (λ lines. length lines ≤ index) }
    {
        let lines = self.buffer(name)?;
        let Some(line) = lines.get(&self.heap, index) else {
            return Err(Refusal::Range);
        };
        let Some(text) = self.heap.value(line) else {
            unreachable!()
        };
        Ok(text)
    }

    /// The lines of the buffer from the one index to before the other.
    pub(crate) fn lines(
        &self,
        name: Name<'_>,
        from: u32,
        to: u32,
    ) -> Result<SpaceLines<'_>, Refusal>
        requires { (W : Workspace) × Keeps self.now [] W }
        ensures { (W : Workspace) → Keeps self.now [] W → OnLines W (name_bytes name.entry) result
            (λ lines shown. (from ≤ to) × (to ≤ length lines) × (shown ≡ slice_range lines from to)) (λ lines. ¬ ((from ≤ to) × (to ≤ length lines))) }
    {
        let lines = self.buffer(name)?;
        if !has_part(&self.heap, lines, from, to) {
            return Err(Refusal::Range);
        }
        Ok(SpaceLines::new(&self.heap, lines, from, to))
    }

    /// The number of the buffer's lines.
    pub(crate) fn count(&self, name: Name<'_>) -> Result<u32, Refusal>
        requires { (W : Workspace) × Keeps self.now [] W }
        ensures { (W : Workspace) → Keeps self.now [] W → OnLines W (name_bytes name.entry) result
            (λ lines count. count ≡ length lines) (λ lines. ⊥) }
    {
        let lines = self.buffer(name)?;
        Ok(lines.len(&self.heap))
    }

    /// Whether the buffers have the same lines.
    pub(crate) fn same(&self, name: Name<'_>, other: Name<'_>) -> Result<bool, Refusal>
        requires { (W : Workspace) × Keeps self.now [] W }
        ensures { (W : Workspace) → Keeps self.now [] W →
            AreEqual (lines_of W.current (name_bytes name.entry)) (lines_of W.current (name_bytes other.entry)) result }
    {
        let one = self.buffer(name)?;
        let two = self.buffer(other)?;
        Ok(same_lines(&self.heap, one, two))
    }

    /// Whether the versions have the same buffers and stars.
    pub(crate) fn eqv(&self, version: Name<'_>, other: Name<'_>) -> Result<bool, Refusal>
        requires { (W : Workspace) × Keeps self.now [] W }
        ensures { (W : Workspace) → Keeps self.now [] W →
            AreEqual (version_of W (name_bytes version.entry)) (version_of W (name_bytes other.entry)) result }
    {
        let (Some(one), Some(two)) = (self.version(version), self.version(other)) else {
            return Err(Refusal::Absent);
        };
        Ok(same_states(&self.heap, self.bits, one, two))
    }
}
