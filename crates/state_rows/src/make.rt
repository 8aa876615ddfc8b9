//! States and versions with one thing more or less. Each call takes the rows that it makes from spares, which its caller has
//! reserved, and keeps every row that is there.
ghost use Rattle.std.specs.Prelude.{◌≡◌, ◌+◌, ◌<◌, ◌≤◌, true, [], ◌∷◌, IsSome};
ghost use Rattle.champ_trie.specs.declared.TheConstants.{ADD_NODES};
ghost use Rattle.std.specs.FinMap as map;
ghost use Rattle.elem_core.specs.declared.codes.TheConstants.{CODE_BITS};
ghost use Rattle.elem_core.specs.Naming.{IsName};
ghost use Rattle.elem_core.specs.Shown.{name_bytes};
ghost use Rattle.node_heap.specs.Heap.{holds_at, hold_count, HasSpares, half_holds};
ghost use Rattle.node_heap.specs.Calls.{Answered, KeepsToNeed, MakesJust};
ghost use Rattle.plain_space.specs.Workspace.{Named, State, lines_of, is_starred, without_lines as has_no_lines, with_star as has_star, without_star as has_no_star};
ghost use Rattle.plain_space.specs.Cost.{alike, alike_buffers, alike_stars};
ghost use Rattle.state_rows.specs.InHeap.{IsStateIn, AreVersionsIn};

use crate::look_up::{buffers_of, stars_of};
use crate::row::{over_buffers, over_stars};
use champ_kinds::{INSERT_NODES, Map, MapRef, map_insert, map_remove, set_insert, set_remove};
use elem_core::{LEVELS, Name, Text};
use node_heap::{Heap, Link};

/// The state in which the buffer, which is there, is gone.
pub fn without_lines(heap: &mut Heap<Text>, bits: u32, state: Link, name: Name<'_>) -> Link
    requires few { hold_count heap.old < half_holds }
    requires bits { bits ≤ CODE_BITS }
    requires state { (s : State) × IsStateIn heap.old bits state s × IsSome (lines_of s (name_bytes name))
        × HasSpares heap.old 0 (LEVELS + 1 + alike_buffers bits s (name_bytes name)) }
    ensures answered { (s : State) → IsStateIn heap.old bits state s → Answered heap.old heap.new [] result 0 (LEVELS + 1 + alike_buffers bits s (name_bytes name.entry)) }
    ensures made { MakesJust heap.old heap.new }
    ensures spares { KeepsToNeed heap.old heap.new 0 0 }
    ensures state { (s : State) → IsStateIn heap.old bits state s → IsStateIn heap.new bits result (has_no_lines s (name_bytes name.entry)) }
{
    let buffers = buffers_of(heap, bits, state);
    let stars = stars_of(heap, bits, state).root();
    let Ok(found) = map_remove(heap, buffers, &name) else {
        unreachable!()
    };
    let Some(left) = found else { unreachable!() };
    over_stars(heap, left.into_root(), stars)
}

/// The state in which the name is starred.
pub fn with_star(heap: &mut Heap<Text>, bits: u32, state: Link, key: Text) -> Link
    requires few { hold_count heap.old < half_holds }
    requires bits { bits ≤ CODE_BITS }
    requires name { IsName key }
    requires state { (s : State) × IsStateIn heap.old bits state s × HasSpares heap.old 1 (ADD_NODES + 1 + alike_stars bits s key) }
    ensures answered { (s : State) → IsStateIn heap.old bits state s → Answered heap.old heap.new [] result 1 (ADD_NODES + 1 + alike_stars bits s key) }
    ensures made { MakesJust heap.old heap.new }
    ensures spares { KeepsToNeed heap.old heap.new 0 0 }
    ensures state { (s : State) → IsStateIn heap.old bits state s → IsStateIn heap.new bits result (has_star s key) }
{
    let buffers = buffers_of(heap, bits, state).root();
    let stars = stars_of(heap, bits, state);
    let Ok(written) = set_insert(heap, stars, key) else {
        unreachable!()
    };
    over_buffers(heap, buffers, written.into_root())
}

/// The state in which the name, which is starred, isn't starred.
pub fn without_star(heap: &mut Heap<Text>, bits: u32, state: Link, name: Name<'_>) -> Link
    requires few { hold_count heap.old < half_holds }
    requires bits { bits ≤ CODE_BITS }
    requires state { (s : State) × IsStateIn heap.old bits state s × (is_starred s (name_bytes name) ≡ true)
        × HasSpares heap.old 0 (LEVELS + 1 + alike_stars bits s (name_bytes name)) }
    ensures answered { (s : State) → IsStateIn heap.old bits state s → Answered heap.old heap.new [] result 0 (LEVELS + 1 + alike_stars bits s (name_bytes name.entry)) }
    ensures made { MakesJust heap.old heap.new }
    ensures spares { KeepsToNeed heap.old heap.new 0 0 }
    ensures state { (s : State) → IsStateIn heap.old bits state s → IsStateIn heap.new bits result (has_no_star s (name_bytes name.entry)) }
{
    let buffers = buffers_of(heap, bits, state).root();
    let stars = stars_of(heap, bits, state);
    let Ok(found) = set_remove(heap, stars, &name) else {
        unreachable!()
    };
    let Some(left) = found else { unreachable!() };
    over_buffers(heap, buffers, left.into_root())
}

/// The versions with this state at the name, made or replaced. It spends the state's hold.
pub fn with_version(heap: &mut Heap<Text>, versions: MapRef, key: Text, state: Link) -> Map
    requires few { hold_count heap.old < half_holds }
    requires bits { versions.bits ≤ CODE_BITS }
    requires held { 0 < holds_at heap.old state }
    requires name { IsName key }
    requires versions { (m : Named State) × AreVersionsIn heap.old versions.bits versions.root m × HasSpares heap.old 1 (INSERT_NODES + alike versions.bits (map.keys m) key) }
    ensures answered { (m : Named State) → AreVersionsIn heap.old versions.bits versions.root m →
        Answered heap.old heap.new (state ∷ []) result.root 1 (INSERT_NODES + alike versions.bits (map.keys m) key) }
    ensures made { MakesJust heap.old heap.new }
    ensures spares { KeepsToNeed heap.old heap.new 0 0 }
    ensures bits { result.bits ≡ versions.bits }
    ensures versions { (m : Named State) (s : State) → AreVersionsIn heap.old versions.bits versions.root m → IsStateIn heap.old versions.bits state s →
        AreVersionsIn heap.new versions.bits result.root (map.insert m key s) }
{
    let Ok(written) = map_insert(heap, versions, key, state) else {
        unreachable!()
    };
    written
}

/// The versions without the one of this name, which is there.
pub fn without_version(heap: &mut Heap<Text>, versions: MapRef, name: Name<'_>) -> Map
    requires few { hold_count heap.old < half_holds }
    requires bits { versions.bits ≤ CODE_BITS }
    requires versions { (m : Named State) × AreVersionsIn heap.old versions.bits versions.root m × IsSome (map.get m (name_bytes name))
        × HasSpares heap.old 0 (LEVELS + alike versions.bits (map.keys m) (name_bytes name)) }
    ensures answered { (m : Named State) → AreVersionsIn heap.old versions.bits versions.root m →
        Answered heap.old heap.new [] result.root 0 (LEVELS + alike versions.bits (map.keys m) (name_bytes name.entry)) }
    ensures made { MakesJust heap.old heap.new }
    ensures spares { KeepsToNeed heap.old heap.new 0 0 }
    ensures bits { result.bits ≡ versions.bits }
    ensures versions { (m : Named State) → AreVersionsIn heap.old versions.bits versions.root m →
        AreVersionsIn heap.new versions.bits result.root (map.remove m (name_bytes name.entry)) }
{
    let Ok(found) = map_remove(heap, versions, &name) else {
        unreachable!()
    };
    let Some(left) = found else { unreachable!() };
    left
}
