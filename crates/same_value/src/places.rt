//! The way down a vector's rows to an element.
ghost use Rattle.std.specs.Prelude.{◌≡◌, ℕ, ◌+◌, ◌<◌, ◌≤◌, List, length, drop};
ghost use Rattle.rrb_core.specs.Vector.{elements, IsGoodVector};
ghost use Rattle.same_value.specs.Places.{IsOnWay};

use node_heap::{Heap, Link};
use rrb_core::{FlexRef, spot_of};

// A row of a vector with its height, and the index of an element among those below it.
#[derive(Clone, Copy)]
pub(crate) struct RowOnWay {
    pub(crate) link: Link,
    pub(crate) height: u8,
    pub(crate) within: u32,
}

// The highest row that begins with the element at `index` or, where none does, the leaf that the element stands in.
pub(crate) fn place_from<T>(heap: &Heap<T>, vector: FlexRef, index: u32) -> RowOnWay
    requires good { IsGoodVector heap.now vector }
    requires inside { index < length (elements heap.now vector) }
    ensures way { IsOnWay heap.now (drop index (elements heap.now vector)) result }
    ensures begins { 1 ≤ result.height → result.within ≡ 0 }
{
    let mut place = RowOnWay {
        link: vector.root(),
        height: vector.height(heap),
        within: index,
    };
    while place.height > 0 {
        if place.within == 0 {
            return place;
        }
        place = lower(heap, place);
    }
    place
}

// The same element in the child of the row.
pub(crate) fn lower<T>(heap: &Heap<T>, place: RowOnWay) -> RowOnWay
    requires way { (xs : List ℕ) × IsOnWay heap.now xs place }
    requires inner { 1 ≤ place.height }
    ensures way { (xs : List ℕ) → IsOnWay heap.now xs place → IsOnWay heap.now xs result }
    ensures begins { place.within ≡ 0 → result.within ≡ 0 }
    ensures height { result.height + 1 ≡ place.height }
{
    let below = place.height - 1;
    let spot = spot_of(heap, place.link, below, place.within);
    RowOnWay {
        link: heap.links(place.link)[spot.place],
        height: below,
        within: spot.within,
    }
}
