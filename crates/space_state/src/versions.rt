//! Versions: states that are kept by their names.
ghost use Rattle.std.specs.Prelude.{◌≡◌, ◌≢◌, ◌+◌, ◌<◌, ◌≤◌, [], ◌∷◌, length, IfOk, OnErr, IsOk, Err};
ghost use Rattle.elem_core.specs.Shown.{name_bytes};
ghost use Rattle.node_heap.specs.Heap.{HasSpares};
ghost use Rattle.node_heap.specs.Calls.{KeepsToNeed};
ghost use Rattle.shell_terms.specs.Command.{mark, unmark, back};
ghost use Rattle.plain_space.specs.Workspace.{Named, State, Workspace, version_of};
ghost use Rattle.plain_space.specs.Cost.{alike_versions};
ghost use Rattle.state_rows.specs.Reading.{StandsIfThere};
ghost use Rattle.state_rows.specs.InHeap.{IsStateIn, AreVersionsIn};
ghost use Rattle.space_state.specs.Roots.{Keeps};
ghost use Rattle.space_state.specs.Needed.{HoardsNone};
ghost use Rattle.space_state.specs.Turns.{IsSame, EndsOnRows, TurnsTo};

use crate::room::EDIT_NODES;
use crate::roots::RootedHeap;
use crate::undo_end::TURN_NODES;
use champ_kinds::{Map, MapRef};
use champ_trie::alike;
use elem_core::{Name, NoMemory, text_of};
use node_heap::Link;
use plain_space::Refusal;
use state_rows::{EMPTIED_NODES, PUSHED_NODES, with_version, without_version};

impl RootedHeap {
    /// The versions by their names.
    pub(crate) fn versions(&self) -> MapRef
        ensures { result ≡ record { root = self.now.roots.versions; bits = self.now.bits } }
    {
        MapRef::at(self.roots.versions, self.bits)
    }

    /// The state of the version, None exactly where there is none of this name.
    pub(crate) fn version(&self, name: Name<'_>) -> Option<Link>
        requires { (W : Workspace) × Keeps self.now [] W }
        ensures { (W : Workspace) → Keeps self.now [] W →
            StandsIfThere (IsStateIn self.now.heap self.now.bits) result (version_of W (name_bytes name.entry)) }
    {
        self.versions().get(&self.heap, &name)
    }

    // Makes room for another map of versions. Nothing but the heap's spares changes. Refused where memory runs out, which leaves
    // all as it was, and not where the spares are there already.
    fn make_version_room(&mut self, name: Name<'_>) -> Result<(), NoMemory>
        requires { (W : Workspace) × Keeps self.old [] W }
        ensures same { IsSame self.old self.new }
        ensures refused { OnErr result (self.new ≡ self.old) }
        ensures room { (W : Workspace) → Keeps self.old [] W →
            IfOk result (λ _. HasSpares self.new.heap 2 (EDIT_NODES + alike_versions self.old.bits W (name_bytes name.entry))) }
        ensures spares { (W : Workspace) → Keeps self.old [] W →
            IfOk result (λ _. KeepsToNeed self.old.heap self.new.heap 2 (EDIT_NODES + alike_versions self.old.bits W (name_bytes name.entry))) }
        ensures ample { (W : Workspace) → Keeps self.old [] W →
            HasSpares self.old.heap 2 (EDIT_NODES + alike_versions self.old.bits W (name_bytes name.entry)) → IsOk result }
    {
        let more = alike(&self.heap, self.roots.versions, &name, self.bits);
        self.heap.reserve(2, EDIT_NODES + more)
    }

    // Puts this map, of which the caller's hold is spent, in place of the versions.
    fn turn_versions(&mut self, map: Map)
        requires { (W : Workspace) × (versions : Named State) × Keeps self.old (map.root ∷ []) W × AreVersionsIn self.old.heap self.old.bits map.root versions }
        ensures turns { (W : Workspace) (versions : Named State) → Keeps self.old (map.root ∷ []) W → AreVersionsIn self.old.heap self.old.bits map.root versions →
            TurnsTo self.old self.new [] 0 (record W { versions = versions }) }
        ensures spares { KeepsToNeed self.old.heap self.new.heap 0 0 }
    {
        let before = self.roots.versions;
        self.roots.versions = map.into_root();
        self.heap.release(before);
    }

    /// Keeps the current state as a version.
    pub(crate) fn mark(&mut self, name: Name<'_>) -> Result<(), Refusal>
        requires { (W : Workspace) × Keeps self.old [] W }
        ensures ends { EndsOnRows (mark (name_bytes name.entry)) self.old result self.new }
        ensures spares { HoardsNone (mark (name_bytes name.entry)) self.old result self.new }
    {
        if self.in_batch() {
            return Err(Refusal::Batch);
        }
        if self.version(name).is_some() {
            return Err(Refusal::Exists);
        }
        let key = text_of(self.alloc, name.as_line())?;
        self.make_version_room(name)?;
        self.heap.hold(self.roots.current);
        let versions = self.versions();
        let map = with_version(&mut self.heap, versions, key, self.roots.current);
        self.turn_versions(map);
        Ok(())
    }

    /// Lets the version go.
    pub(crate) fn unmark(&mut self, name: Name<'_>) -> Result<(), Refusal>
        requires { (W : Workspace) × Keeps self.old [] W }
        ensures ends { EndsOnRows (unmark (name_bytes name.entry)) self.old result self.new }
        ensures spares { HoardsNone (unmark (name_bytes name.entry)) self.old result self.new }
        ensures ample { (W : Workspace) → Keeps self.old [] W →
            HasSpares self.old.heap 2 (EDIT_NODES + alike_versions self.old.bits W (name_bytes name.entry)) → result ≢ Err Refusal.Memory }
    {
        if self.in_batch() {
            return Err(Refusal::Batch);
        }
        if self.version(name).is_none() {
            return Err(Refusal::Absent);
        }
        self.make_version_room(name)?;
        let versions = self.versions();
        let map = without_version(&mut self.heap, versions, name);
        self.turn_versions(map);
        Ok(())
    }

    /// Makes the version's state the current one, as an edit does.
    pub(crate) fn back(&mut self, name: Name<'_>) -> Result<(), Refusal>
        requires { (W : Workspace) × Keeps self.old [] W }
        ensures ends { EndsOnRows (back (name_bytes name.entry)) self.old result self.new }
        ensures spares { HoardsNone (back (name_bytes name.entry)) self.old result self.new }
        ensures ample { HasSpares self.old.heap 0 TURN_NODES → result ≢ Err Refusal.Memory }
        ensures made { self.new.heap.made ≤ self.old.heap.made + TURN_NODES }
        ensures below { (W : Workspace) → Keeps self.old [] W → length W.undo < W.history → self.new.heap.made ≤ self.old.heap.made + (PUSHED_NODES + EMPTIED_NODES) }
    {
        if self.in_batch() {
            return Err(Refusal::Batch);
        }
        let Some(state) = self.version(name) else {
            return Err(Refusal::Absent);
        };
        self.heap.reserve(0, TURN_NODES)?;
        self.heap.hold(state);
        self.turn_to(state);
        Ok(())
    }
}
