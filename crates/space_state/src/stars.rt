//! The edits of stars.
ghost use Rattle.std.specs.Prelude.{◌≡◌, ◌≢◌, ◌+◌, [], Err, IfOk};
ghost use Rattle.elem_core.specs.Shown.{name_bytes};
ghost use Rattle.node_heap.specs.Heap.{HasSpares};
ghost use Rattle.node_heap.specs.Calls.{KeepsToNeed};
ghost use Rattle.shell_terms.specs.Edit.{star, unstar};
ghost use Rattle.shell_terms.specs.Command.{edit};
ghost use Rattle.plain_space.specs.Workspace.{Workspace, is_starred as starred_in};
ghost use Rattle.plain_space.specs.Cost.{alike_stars};
ghost use Rattle.space_state.specs.Roots.{Keeps};
ghost use Rattle.space_state.specs.Needed.{HoardsNone};
ghost use Rattle.space_state.specs.Turns.{MakesRoom, HasEditSpares, EndsOnRows};

use crate::room::EDIT_NODES;
use crate::roots::RootedHeap;
use elem_core::{Name, text_of};
use plain_space::Refusal;
use state_rows::{is_starred, stars_alike, with_star, without_star};

impl RootedHeap {
    // Whether the name is starred.
    fn is_starred(&self, name: Name<'_>) -> bool
        requires { (W : Workspace) × Keeps self.now [] W }
        ensures { (W : Workspace) → Keeps self.now [] W → result ≡ starred_in W.current (name_bytes name.entry) }
    {
        is_starred(&self.heap, self.bits, self.roots.current, name)
    }

    // Makes room for an edit of the star. Refused as `make_room_with` is.
    fn make_star_room(&mut self, name: Name<'_>) -> Result<(), Refusal>
        requires { (W : Workspace) × Keeps self.old [] W }
        ensures room { MakesRoom (λ W. EDIT_NODES + alike_stars self.old.bits W.current (name_bytes name.entry)) self.old result self.new }
        ensures spares { (W : Workspace) → Keeps self.old [] W →
            IfOk result (λ _. KeepsToNeed self.old.heap self.new.heap 2 (EDIT_NODES + alike_stars self.old.bits W.current (name_bytes name.entry))) }
        ensures ample { (W : Workspace) → Keeps self.old [] W →
            HasSpares self.old.heap 2 (EDIT_NODES + alike_stars self.old.bits W.current (name_bytes name.entry)) → result ≢ Err Refusal.Memory }
    {
        let alike = stars_alike(&self.heap, self.bits, self.roots.current, name);
        self.make_room_with(alike)
    }

    /// Stars the name, which needs no buffer.
    pub(crate) fn star(&mut self, name: Name<'_>) -> Result<(), Refusal>
        requires { (W : Workspace) × Keeps self.old [] W }
        ensures ends { EndsOnRows (edit (star (name_bytes name.entry))) self.old result self.new }
        ensures spares { HoardsNone (edit (star (name_bytes name.entry))) self.old result self.new }
    {
        if self.is_starred(name) {
            return Err(Refusal::Exists);
        }
        let key = text_of(self.alloc, name.as_line())?;
        self.make_star_room(name)?;
        let next = with_star(&mut self.heap, self.bits, self.roots.current, key);
        self.turn_to(next);
        Ok(())
    }

    /// Takes the star of the name away.
    pub(crate) fn unstar(&mut self, name: Name<'_>) -> Result<(), Refusal>
        requires { (W : Workspace) × Keeps self.old [] W }
        ensures ends { EndsOnRows (edit (unstar (name_bytes name.entry))) self.old result self.new }
        ensures spares { HoardsNone (edit (unstar (name_bytes name.entry))) self.old result self.new }
        ensures ample { (W : Workspace) → Keeps self.old [] W → HasEditSpares self.old W (edit (unstar (name_bytes name.entry))) → result ≢ Err Refusal.Memory }
    {
        if !self.is_starred(name) {
            return Err(Refusal::Absent);
        }
        self.make_star_room(name)?;
        let next = without_star(&mut self.heap, self.bits, self.roots.current, name);
        self.turn_to(next);
        Ok(())
    }
}
