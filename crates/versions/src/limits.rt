//! Whether what is asked of lists is within their limits.
ghost use Rattle.std.specs.Prelude.{◌≡◌, ◌↔◌, ◌+◌, ◌^◌, ◌≤◌, List, length, IsTrue};
ghost use Rattle.rrb_core.specs.Vector.{IsGoodVector};
ghost use Rattle.versions.specs.Rooted.{IsListOf};

use node_heap::{Heap, Link};
use rrb_core::FlexRef;

// Whether the indices bound a part of the list with this root.
pub(crate) fn is_part<T>(heap: &Heap<T>, root: Link, from: u32, to: u32) -> bool
    requires { IsGoodVector heap.now root }
    ensures { (xs : List T) → IsListOf heap.now root xs → (IsTrue result ↔ ((from ≤ to) × (to ≤ length xs))) }
{
    from <= to && to <= FlexRef::at(root).len(heap)
}

// Whether the lists with these roots have more elements together than one can have.
pub(crate) fn is_long<T>(heap: &Heap<T>, left: Link, right: Link) -> bool
    requires left { IsGoodVector heap.now left }
    requires right { IsGoodVector heap.now right }
    ensures { (xs ys : List T) → IsListOf heap.now left xs → IsListOf heap.now right ys → (IsTrue result ↔ (2 ^ 32 ≤ length xs + length ys)) }
{
    let len = FlexRef::at(left).len(heap);
    FlexRef::at(right).len(heap) > u32::MAX - len
}
