//! The edits that merge the current state with a version's.
ghost use Rattle.std.specs.Prelude.{◌≢◌, [], Err};
ghost use Rattle.elem_core.specs.Shown.{name_bytes};
ghost use Rattle.shell_terms.specs.Command.{merge};
ghost use Rattle.plain_space.specs.Workspace.{Workspace};
ghost use Rattle.state_rows.specs.Merging.{plain_kind};
ghost use Rattle.space_state.specs.Roots.{Keeps};
ghost use Rattle.space_state.specs.Needed.{HoardsNone};
ghost use Rattle.space_state.specs.Turns.{HasEditSpares, EndsOnRows};

use crate::roots::RootedHeap;
use elem_core::Name;
use plain_space::Refusal;
use state_rows::{Merging, merge_need, merged};

impl RootedHeap {
    /// Merges the current state with that of the version. Room is made once, for what any edit takes and for the merge.
    pub(crate) fn merge(&mut self, kind: Merging, version: Name<'_>) -> Result<(), Refusal>
        requires { (W : Workspace) × Keeps self.old [] W }
        ensures ends { EndsOnRows (merge (plain_kind kind) (name_bytes version.entry)) self.old result self.new }
        ensures spares { HoardsNone (merge (plain_kind kind) (name_bytes version.entry)) self.old result self.new }
        ensures ample { (W : Workspace) → Keeps self.old [] W → HasEditSpares self.old W (merge (plain_kind kind) (name_bytes version.entry)) → result ≢ Err Refusal.Memory }
    {
        let Some(other) = self.version(version) else {
            return Err(Refusal::Absent);
        };
        let rows = merge_need(&self.heap, self.bits, kind, self.roots.current, other);
        self.make_room_with(rows)?;
        let next = merged(&mut self.heap, self.bits, kind, self.roots.current, other);
        self.turn_to(next);
        Ok(())
    }
}
