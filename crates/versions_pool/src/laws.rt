//! Laws of documents of stores, as the clauses of functions that do nothing.
ghost use Rattle.versions_pool.specs.Laws.{DocumentsReadBack};
ghost use Rattle.versions_pool.specs.Worked.{WorkedLists, WorkedMaps, WorkedSets};

/// A document that says something in range says just that.
pub fn documents_read_back()
    ensures { DocumentsReadBack }
{}

/// What small documents of lists stand for, and the first tests that others fail.
pub fn worked_lists()
    ensures { WorkedLists }
{}

/// What small documents of sets stand for, and the first tests that others fail.
pub fn worked_sets()
    ensures { WorkedSets }
{}

/// What small documents of maps stand for, and the first tests that others fail.
pub fn worked_maps()
    ensures { WorkedMaps }
{}
