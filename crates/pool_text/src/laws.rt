//! Laws of documents, as the clauses of functions that do nothing.
ghost use Rattle.pool_text.specs.Laws.{ReadsBack, DocumentsAreExact, CompactDocumentsAreTexts};
ghost use Rattle.pool_text.specs.Renaming.{RenamedReadsTheSame, RenamingTurnsBack, PoolsAreRenamed, RenamedHaveOnePool, HeapsAreRooted, NothingLeaks, PoolsStay, TextsAreForms};
ghost use Rattle.pool_text.specs.Worked.{WorkedDocuments};

/// The document of a pool whose history, roots and rows are in range stands for that pool.
pub fn reads_back()
    ensures { ReadsBack }
{}

/// A value without damage, of the version that is written, is the document of the pool that it stands for.
pub fn documents_are_exact()
    ensures { DocumentsAreExact }
{}

/// A compact document without damage, of the version that is written, is the text of the pool that it stands for.
pub fn compact_documents_are_texts()
    ensures { CompactDocumentsAreTexts }
{}

/// The pools, documents and texts of small spaces.
pub fn worked_documents()
    ensures { WorkedDocuments }
{}

/// A row under other links reads as itself.
pub fn renamed_reads_the_same<K>()
    ensures { RenamedReadsTheSame K }
{}

/// A renaming that can be turned back is one the other way round.
pub fn renaming_turns_back<K>()
    ensures { RenamingTurnsBack K }
{}

/// A pool has the rows that its roots reach, under their places, and stands in its own order.
pub fn pools_are_renamed()
    ensures { PoolsAreRenamed }
{}

/// Rows under other links have the pool of the old ones.
pub fn renamed_have_one_pool()
    ensures { RenamedHaveOnePool }
{}

/// What the roots of a heap reach is there, no deeper than the heap has places.
pub fn heaps_are_rooted<T>()
    ensures { HeapsAreRooted T }
{}

/// Where the roots are all that is held, the pool has every row of the heap.
pub fn nothing_leaks<T>()
    ensures { NothingLeaks T }
{}

/// A pool stays where all that its roots reach stays.
pub fn pools_stay<T>()
    ensures { PoolsStay T }
{}

/// The pool of a heap of texts is that of its forms.
pub fn texts_are_forms()
    ensures { TextsAreForms }
{}
