//! The edits by their names.
ghost use Rattle.std.specs.Prelude.{◌≢◌, [], Err};
ghost use Rattle.plain_space.specs.Workspace.{Workspace};
ghost use Rattle.plain_space.specs.Change.{edit_command};
ghost use Rattle.space_state.specs.Roots.{Keeps};
ghost use Rattle.space_state.specs.Needed.{HoardsNone};
ghost use Rattle.space_state.specs.Turns.{HasEditSpares, EndsOnRows};

use crate::roots::RootedHeap;
use plain_space::{Edit, Refusal};
use state_rows::{Merging, Stars};

impl RootedHeap {
    /// Carries out the edit.
    pub(crate) fn edit(&mut self, change: Edit<'_>) -> Result<(), Refusal>
        requires kept { (W : Workspace) × Keeps self.old [] W }
        ensures ends { EndsOnRows (edit_command change.entry) self.old result self.new }
        ensures spares { HoardsNone (edit_command change.entry) self.old result self.new }
        ensures ample { (W : Workspace) → Keeps self.old [] W → HasEditSpares self.old W (edit_command change.entry) → result ≢ Err Refusal.Memory }
    {
        match change {
            Edit::New(name) => self.make(name),
            Edit::Add(name, line) => self.add(name, line),
            Edit::Set(name, index, line) => self.set(name, index, line),
            Edit::Put(name, index, line) => self.put(name, index, line),
            Edit::Del(name, from, to) => self.del(name, from, to),
            Edit::Cat(name, other) => self.cat(name, other),
            Edit::Cut(name, from, to, other) => self.cut(name, from, to, other),
            Edit::Copy(name, other) => self.copy(name, other),
            Edit::Drop(name) => self.drop_buffer(name),
            Edit::Star(name) => self.star(name),
            Edit::Unstar(name) => self.unstar(name),
            Edit::StarMerge(version) => self.merge(Merging::Stars(Stars::Joined), version),
            Edit::StarBoth(version) => self.merge(Merging::Stars(Stars::Common), version),
            Edit::StarLess(version) => self.merge(Merging::Stars(Stars::Other), version),
            Edit::Merge(version) => self.merge(Merging::Buffers, version),
        }
    }
}
