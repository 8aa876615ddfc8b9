//! Worked commands with their replies, as facts: each function does nothing, and its contract is the fact.
ghost use Rattle.plain_space.specs.Worked.{WorkedRanges, WorkedMissing, WorkedPut, WorkedCut, WorkedCutItself, WorkedCopy, WorkedFill, WorkedDoubling, WorkedDoubledEqual, WorkedStars, WorkedUndo, WorkedUndoStar, WorkedMarks, WorkedBack, WorkedBatch, WorkedAbort, WorkedInBatch, WorkedLast, WorkedHistory, WorkedRedoCut, WorkedNoHistory, WorkedHistoryStays, WorkedEqualLines, WorkedEqualVersions, WorkedStarMerges, WorkedStarLess, WorkedMerge, WorkedMergeSteps, WorkedElsewhere, WorkedDocuments, WorkedCost, WorkedMemory};

/// Lines that a buffer doesn't have, and a name that is taken.
pub fn ranges()
    ensures { WorkedRanges }
{}

/// The place after the last line, and buffers that aren't there.
pub fn missing()
    ensures { WorkedMissing }
{}

/// Lines put before others, and the place after the last.
pub fn put()
    ensures { WorkedPut }
{}

/// Lines that are cut, joined and deleted.
pub fn cut()
    ensures { WorkedCut }
{}

/// Lines cut from a buffer into itself, and ranges that are none.
pub fn cut_itself()
    ensures { WorkedCutItself }
{}

/// A copy stays when the first is gone, and takes the place of what was there.
pub fn copy()
    ensures { WorkedCopy }
{}

/// A buffer is made of lines, and has its lines replaced, each time in one step of undo.
pub fn fill()
    ensures { WorkedFill }
{}

/// A buffer is doubled until it would pass the most lines.
pub fn doubling()
    ensures { WorkedDoubling }
{}

/// A buffer that was doubled is the same as its copy.
pub fn doubled_equal()
    ensures { WorkedDoubledEqual }
{}

/// Stars, and names in byte order.
pub fn stars()
    ensures { WorkedStars }
{}

/// An edit after an undo empties redo.
pub fn undo()
    ensures { WorkedUndo }
{}

/// An undo takes back a star, and a redo sets it again.
pub fn undo_star()
    ensures { WorkedUndoStar }
{}

/// Versions are named, compared, listed and taken away.
pub fn marks()
    ensures { WorkedMarks }
{}

/// A version that is current again can be undone, and stays a version.
pub fn back()
    ensures { WorkedBack }
{}

/// A batch that ends is one step of undo, and empties redo.
pub fn batch()
    ensures { WorkedBatch }
{}

/// A batch that is given up leaves all as it was, undo and redo too.
pub fn abort()
    ensures { WorkedAbort }
{}

/// What a batch refuses, and what is refused where none is open.
pub fn in_batch()
    ensures { WorkedInBatch }
{}

/// The last so many of a list.
pub fn last()
    ensures { WorkedLast }
{}

/// Undo keeps the last states, as many as the bound says.
pub fn history()
    ensures { WorkedHistory }
{}

/// A redo goes by the bound too.
pub fn redo_cut()
    ensures { WorkedRedoCut }
{}

/// A bound of none keeps no state.
pub fn no_history()
    ensures { WorkedNoHistory }
{}

/// No batch sets a bound, and no undo brings one back.
pub fn history_stays()
    ensures { WorkedHistoryStays }
{}

/// Buffers are the same by their lines alone.
pub fn equal_lines()
    ensures { WorkedEqualLines }
{}

/// Versions are the same by their buffers and their stars.
pub fn equal_versions()
    ensures { WorkedEqualVersions }
{}

/// The stars that a version has too, and those of both.
pub fn star_merges()
    ensures { WorkedStarMerges }
{}

/// The stars that a version hasn't.
pub fn star_less()
    ensures { WorkedStarLess }
{}

/// A version's buffers come to those that are there.
pub fn merge()
    ensures { WorkedMerge }
{}

/// A merge is one step of undo, or goes with its batch.
pub fn merge_steps()
    ensures { WorkedMergeSteps }
{}

/// What the space or the store has to say, and the workspace doesn't refuse.
pub fn elsewhere()
    ensures { WorkedElsewhere }
{}

/// What is refused of chains of documents and of moved lines.
pub fn documents()
    ensures { WorkedDocuments }
{}

/// A cost counts the names of the written map whose codes are alike.
pub fn cost()
    ensures { WorkedCost }
{}

/// Which commands may want memory.
pub fn memory()
    ensures { WorkedMemory }
{}
