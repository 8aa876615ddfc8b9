//! Laws of loaded roots, whatever they are and in whatever heap, as the clauses of functions that do nothing.
ghost use Rattle.pool_load.specs.Laws.{LoadedRootsHaveRows, LoadedRowsAreListed, LoadedVectorsAreGood, LoadedTriesAreGood, LoadedRootsAreOfKinds, LoadedRootsFit};

use elem_core::Stored;

/// The roots that `load` gives are such as `load_roots` gives.
pub fn loaded_roots_have_rows<T: Stored>()
    ensures { LoadedRootsHaveRows T.bytes_of }
{}

/// The pool lists the rows that loaded roots reach, under their places in first-seen order, and the same ones are vector roots
/// or trie roots in it as in the heap.
pub fn loaded_rows_are_listed<T: Stored>()
    ensures { LoadedRowsAreListed T.bytes_of }
{}

/// A vector root that loaded roots reach is that of a good vector, of the elements that the pool has at its place.
pub fn loaded_vectors_are_good<T: Stored>()
    ensures { LoadedVectorsAreGood T.bytes_of }
{}

/// A trie root that loaded roots reach is that of the trie of the entries that the pool has at its place, by the pool's bits: a
/// set where all of them are cells, and a map where all are pairs.
pub fn loaded_tries_are_good<T: Stored>()
    ensures { LoadedTriesAreGood T.bytes_of T.cmp T.code_of }
{}

/// Each loaded root is what its kind says, where the pool's roots are of these kinds: a vector, a set or a map of the heap, or a
/// state, with such elements and values.
pub fn loaded_roots_are_of_kinds<T: Stored>()
    ensures { LoadedRootsAreOfKinds T.bytes_of T.cmp T.code_of }
{}

/// What loaded roots reach fits a pool: it can be saved.
pub fn loaded_roots_fit<T: Stored>()
    ensures { LoadedRootsFit T.bytes_of }
{}
