//! Whether two vectors on the rows have the same lines, and two states the same buffers and stars. None of it takes memory.
ghost use Rattle.std.specs.Prelude.{◌≡◌, ℕ, ◌≤◌, ◌↔◌, List, IsTrue};
ghost use Rattle.elem_core.specs.declared.codes.TheConstants.{CODE_BITS};
ghost use Rattle.shell_terms.specs.Edit.{Bytes};
ghost use Rattle.plain_space.specs.Workspace.{State};
ghost use Rattle.state_rows.specs.InHeap.{AreLinesIn, IsStateIn};

use elem_core::Text;
use node_heap::{Heap, Link};
use rrb_core::FlexRef;
use same_value::{equal_state, equal_vec};

/// Whether the vectors have the same lines. As long as rows are cut in the same places, those that both have aren't looked
/// below.
pub(crate) fn same_lines(heap: &Heap<Text>, one: FlexRef, other: FlexRef) -> bool
    requires one { (bits : ℕ) × (xs : List Bytes) × AreLinesIn heap.now bits one xs }
    requires other { (bits : ℕ) × (ys : List Bytes) × AreLinesIn heap.now bits other ys }
    ensures { (bits : ℕ) (xs ys : List Bytes) → AreLinesIn heap.now bits one xs → AreLinesIn heap.now bits other ys → (IsTrue result ↔ (xs ≡ ys)) }
{
    equal_vec(heap, one, other)
}

/// Whether the states have the same buffers and stars. As long as rows are cut in the same places, those that both have
/// aren't looked below.
pub(crate) fn same_states(heap: &Heap<Text>, bits: u32, one: Link, other: Link) -> bool
    requires bits { bits ≤ CODE_BITS }
    requires one { (s : State) × IsStateIn heap.now bits one s }
    requires other { (t : State) × IsStateIn heap.now bits other t }
    ensures { (s t : State) → IsStateIn heap.now bits one s → IsStateIn heap.now bits other t → (IsTrue result ↔ (s ≡ t)) }
{
    equal_state(heap, bits, one, other)
}
