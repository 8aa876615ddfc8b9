//! Laws of chains, as clauses of a function that does nothing.
ghost use Rattle.champ_chain.specs.Laws.{RowsHaveOneList, SmallerKeysFollowOrder};

use elem_core::Element;
use node_heap::Heap;

/// The chain rows from a link on have one list of entries, and entries with smaller keys than one key have smaller keys than
/// another that the order calls equal.
pub fn chains_are_read_one_way<T: Element>(heap: &Heap<T>)
    ensures rows { RowsHaveOneList T }
    ensures smaller { SmallerKeysFollowOrder T.cmp }
{
    // The heap is there for its type alone: the laws speak of every heap.
    let _ = heap;
}
