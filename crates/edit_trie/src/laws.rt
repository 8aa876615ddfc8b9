//! Laws of edits in place, and their paths in small tries, each on a call that does nothing.
ghost use Rattle.edit_trie.specs.Laws.{EditsKeepValues, CutsKeepValues, CutsKeepHeld, PairChangesBind, PairChangesKeepValues};
ghost use Rattle.edit_trie.specs.Worked.{EditAtRow, PairAtRow, PairOfOther, EditBelow, PairBelow, EditFirst, EditBetween, EditLast, PairFirst, PairLast};

use elem_core::Element;
use node_heap::Heap;

/// Which rows an edit of a small trie must be able to write.
pub fn paths_of_small_tries()
    ensures edit_at_row { EditAtRow }
    ensures pair_at_row { PairAtRow }
    ensures pair_of_other { PairOfOther }
    ensures edit_below { EditBelow }
    ensures pair_below { PairBelow }
    ensures edit_first { EditFirst }
    ensures edit_between { EditBetween }
    ensures edit_last { EditLast }
    ensures pair_first { PairFirst }
    ensures pair_last { PairLast }
{}

/// An edit that writes the rows of its path that are alone, and no other row, keeps what is held beside its owner and what is
/// below each value. A later change at a key's pair makes the map with the pair's new value at the key, and keeps all below
/// each other value where only the way from the root leads to the pair.
pub fn edits_keep_values<T: Element>(heap: &Heap<T>)
    ensures edits { EditsKeepValues T.cmp T.code_of }
    ensures cuts { CutsKeepValues T.cmp T.code_of }
    ensures cuts_held { CutsKeepHeld T.cmp T.code_of }
    ensures pairs { PairChangesBind T.cmp T.code_of }
    ensures pair_values { PairChangesKeepValues T.cmp T.code_of }
{
    // The heap is there for its type alone: the laws speak of every heap.
    let _ = heap;
}
