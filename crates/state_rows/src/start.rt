//! What a new space begins with. Each call takes its rows from spares, which its caller has reserved.
ghost use Rattle.std.specs.Prelude.{◌≡◌, ℕ, ◌<◌, []};
ghost use Rattle.std.specs.Ordering.{nat_cmp};
ghost use Rattle.std.specs.Cmp.Lexicographic.{slice_cmp};
ghost use Rattle.std.specs.FinMap as map;
ghost use Rattle.elem_core.specs.Codes.{text_code};
ghost use Rattle.node_heap.specs.Heap.{hold_count, HasSpares, half_holds, most_holds};
ghost use Rattle.node_heap.specs.Calls.{Answered, Makes};
ghost use Rattle.champ_trie.specs.Trie.{IsTrieOf};
ghost use Rattle.plain_space.specs.Workspace.{blank};
ghost use Rattle.state_rows.specs.InHeap.{IsStateIn, AreVersionsIn, IsHistoryIn};

use crate::row::state_row;
use champ_kinds::Map;
use elem_core::Text;
use node_heap::{Head, Heap, Link};
use rrb_core::Flex;

/// The state without buffers and stars: three rows, no more and no fewer.
pub fn empty_state(heap: &mut Heap<Text>, bits: u32) -> Link
    requires few { hold_count heap.old < half_holds }
    requires spares { HasSpares heap.old 0 3 }
    ensures answered { Answered heap.old heap.new [] result 0 3 }
    ensures makes { Makes heap.old heap.new 0 3 }
    ensures state { IsStateIn heap.new bits result blank }
{
    let buffers = empty_trie(heap);
    let stars = empty_trie(heap);
    state_row(heap, buffers, stars)
}

/// No versions, by so many bits of the names' codes: one row.
pub fn empty_versions(heap: &mut Heap<Text>, bits: u32) -> Map
    requires few { hold_count heap.old < half_holds }
    requires spares { HasSpares heap.old 0 1 }
    ensures answered { Answered heap.old heap.new [] result.root 0 1 }
    ensures makes { Makes heap.old heap.new 0 1 }
    ensures bits { result.bits ≡ bits }
    ensures versions { AreVersionsIn heap.new bits result.root map.empty }
{
    Map::from_root(empty_trie(heap), bits)
}

/// The history without states: one row.
pub fn empty_history(heap: &mut Heap<Text>) -> Flex
    requires few { hold_count heap.old < half_holds }
    requires spares { HasSpares heap.old 0 1 }
    ensures answered { Answered heap.old heap.new [] result 0 1 }
    ensures makes { Makes heap.old heap.new 0 1 }
    ensures history { (bits : ℕ) → IsHistoryIn heap.new bits result [] }
{
    Flex::from_root(heap.node(Head::Leaf, &[]))
}

// The trie without entries: a row without links.
fn empty_trie(heap: &mut Heap<Text>) -> Link
    requires few { hold_count heap.old < most_holds }
    requires spares { HasSpares heap.old 0 1 }
    ensures answered { Answered heap.old heap.new [] result 0 1 }
    ensures makes { Makes heap.old heap.new 0 1 }
    ensures trie { (bits : ℕ) → IsTrieOf (slice_cmp nat_cmp) text_code bits heap.new result [] }
{
    heap.node(
        Head::Trie {
            depth: 0,
            entries: 0,
            nodes: 0,
        },
        &[],
    )
}
