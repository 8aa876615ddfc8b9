//! Laws of edits in place, and their paths in small vectors, each on a call that does nothing.
ghost use Rattle.edit_vec.specs.Laws.{SetsKeep, PushesKeep, PopsKeep, PopsKeepHeld};
ghost use Rattle.edit_vec.specs.Worked.{SetFirst, SetSecond, PushLeaf, PushBeside, PushOver, PushOverInner, PopLeaf, PopChild, PopRoot, PopOne, PopNone, PopLoneRow, PopTallRoot, SharedMiddle};

/// Which rows an edit of a small vector must be able to write, and which of them it writes where one is shared.
pub fn paths_of_small_vectors()
    ensures set_first { SetFirst }
    ensures set_second { SetSecond }
    ensures push_leaf { PushLeaf }
    ensures push_beside { PushBeside }
    ensures push_over { PushOver }
    ensures push_over_inner { PushOverInner }
    ensures pop_leaf { PopLeaf }
    ensures pop_child { PopChild }
    ensures pop_root { PopRoot }
    ensures pop_one { PopOne }
    ensures pop_none { PopNone }
    ensures pop_lone_row { PopLoneRow }
    ensures pop_tall_root { PopTallRoot }
    ensures shared_middle { SharedMiddle }
{}

/// An edit that writes a path's rows that are alone, and no other row, keeps what is held beside its owner and what is below
/// each element.
pub fn edits_keep_elements<T>()
    ensures sets { SetsKeep T }
    ensures pushes { PushesKeep T }
    ensures pops { PopsKeep T }
    ensures pops_held { PopsKeepHeld T }
{}
