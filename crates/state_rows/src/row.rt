//! The rows of states.
ghost use Rattle.std.specs.Prelude.{ℕ, ◌+◌, ◌<◌, ◌≤◌, [], ◌∷◌, IsSome};
ghost use Rattle.node_heap.specs.Links.{count};
ghost use Rattle.node_heap.specs.Heap.{row_at, holds_at, hold_count, HasSpares, most_holds};
ghost use Rattle.node_heap.specs.Calls.{Answered, Makes};
ghost use Rattle.plain_space.specs.Workspace.{State};
ghost use Rattle.state_rows.specs.InHeap.{AreBuffersIn, AreNamesIn, IsStateIn};

use elem_core::Text;
use node_heap::{Head, Heap, Link};

// The state of these buffers and these stars. It spends a hold of each of the two.
pub(crate) fn state_row(heap: &mut Heap<Text>, buffers: Link, stars: Link) -> Link
    requires few { hold_count heap.old < most_holds }
    requires held { (k : ℕ) → count k (buffers ∷ stars ∷ []) ≤ holds_at heap.old k }
    requires spares { HasSpares heap.old 0 1 }
    ensures answered { Answered heap.old heap.new (buffers ∷ stars ∷ []) result 0 1 }
    ensures makes { Makes heap.old heap.new 0 1 }
    ensures state { (bits : ℕ) (s : State) → AreBuffersIn heap.old bits buffers s.buffers → AreNamesIn heap.old bits stars s.stars → IsStateIn heap.new bits result s }
{
    heap.node(Head::State, &[buffers, stars])
}

// The state of these buffers, for which their hold is spent, and of stars that are there.
pub(crate) fn over_stars(heap: &mut Heap<Text>, buffers: Link, stars: Link) -> Link
    requires few { hold_count heap.old + 1 < most_holds }
    requires held { 0 < holds_at heap.old buffers }
    requires live { IsSome (row_at heap.old stars) }
    requires spares { HasSpares heap.old 0 1 }
    ensures answered { Answered heap.old heap.new (buffers ∷ []) result 0 1 }
    ensures makes { Makes heap.old heap.new 0 1 }
    ensures state { (bits : ℕ) (s : State) → AreBuffersIn heap.old bits buffers s.buffers → AreNamesIn heap.old bits stars s.stars → IsStateIn heap.new bits result s }
{
    heap.hold(stars);
    state_row(heap, buffers, stars)
}

// The state of buffers that are there, and of these stars, for which their hold is spent.
pub(crate) fn over_buffers(heap: &mut Heap<Text>, buffers: Link, stars: Link) -> Link
    requires few { hold_count heap.old + 1 < most_holds }
    requires live { IsSome (row_at heap.old buffers) }
    requires held { 0 < holds_at heap.old stars }
    requires spares { HasSpares heap.old 0 1 }
    ensures answered { Answered heap.old heap.new (stars ∷ []) result 0 1 }
    ensures makes { Makes heap.old heap.new 0 1 }
    ensures state { (bits : ℕ) (s : State) → AreBuffersIn heap.old bits buffers s.buffers → AreNamesIn heap.old bits stars s.stars → IsStateIn heap.new bits result s }
{
    heap.hold(buffers);
    state_row(heap, buffers, stars)
}
