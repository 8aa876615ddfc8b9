//! Laws of the plain answer: each function does nothing, and its contract is the law.
ghost use Rattle.plain_space.specs.Laws.{UndoTakesBack, UndoStaysBounded, HistoryAloneSetsBound, FullLines, FullRedo, EditsInBatch, MergesByName, MergesWithEqual, AllLinesPass, IndentNeedsRoom, SameIsEqual};

/// Outside a batch, an undo takes an edit back.
pub fn undo_takes_back()
    ensures { UndoTakesBack }
{}

/// Undo stays within its bound, whatever the command that the workspace answers.
pub fn undo_stays_bounded()
    ensures { UndoStaysBounded }
{}

/// Of the commands that a workspace answers, `history` alone changes the bound of undo. A `load`, whose bound is its document's, isn't
/// one of them.
pub fn history_alone_sets_the_bound()
    ensures { HistoryAloneSetsBound }
{}

/// A buffer with the most lines takes no further line.
pub fn full_lines()
    ensures { FullLines }
{}

/// There is no undo where redo is full.
pub fn full_redo()
    ensures { FullRedo }
{}

/// In a batch an edit changes the current state alone, and so does a merge.
pub fn edits_in_batch()
    ensures { EditsInBatch }
{}

/// What has each name after a merge: the state's own lines where the version has a buffer of that name too, and what isn't merged.
pub fn merges_by_name()
    ensures { MergesByName }
{}

/// A merge with a state's equal changes nothing, or takes all stars away.
pub fn merges_with_equal()
    ensures { MergesWithEqual }
{}

/// All lines pass a test just where each line of each state does.
pub fn all_lines_pass()
    ensures { AllLinesPass }
{}

/// Lines aren't moved where one of them, in whatever state, would be too long.
pub fn indent_needs_room()
    ensures { IndentNeedsRoom }
{}

/// Buffers have the same lines, and states are the same, just where they are equal.
pub fn same_is_equal()
    ensures { SameIsEqual }
{}
