//! Laws of tries, as clauses of functions that do nothing.
ghost use Rattle.std.specs.Prelude.{ℕ};
ghost use Rattle.champ_trie.specs.Trie.{code_by};
ghost use Rattle.champ_trie.specs.Laws.{TriesStay, TriesReach, TriesStayAround, TriesStandAnywhere, RowOfPlacesIsTrie, RowTakesEntry, RowLosesKey};
ghost use Rattle.champ_trie.specs.Canon.{TrieFollowsEntries, TrieFollowsTrees, EntriesTellTheTree, SimilarEntriesTellSimilarTrees, TrieHasOneSet, TrieTakesAnyOrder, TrieNamesKeys};

use elem_core::Element;
use node_heap::Heap;

/// A trie stays wherever all that its root reaches is the same, and its root reaches each of its entries. It stays too where
/// all that its root reaches around one entry, a pair, is the same, and that pair has the same key. A row like a trie's is
/// that trie, under whatever link.
pub fn tries_stay<T>(heap: &Heap<T>)
    ensures stay { TriesStay T }
    ensures reach { TriesReach T }
    ensures around { TriesStayAround T }
    ensures anywhere { TriesStandAnywhere T }
{
    // The heap is there for its type alone: the laws speak of every heap.
    let _ = heap;
}

/// A trie depends on its entries alone: two tries with the same entries unfold to the same tree, whatever edits led to them
/// and whatever heaps they stand in. Where their entries match one to one, equal but for values that their order calls equal,
/// so are their trees. A trie has one set of entries, in any order, and each names its key.
pub fn depends_on_entries<T: Element>(heap: &Heap<T>)
    ensures entries { (bits : ℕ) → TrieFollowsEntries T.cmp (code_by T.code_of bits) }
    ensures trees { (bits : ℕ) → TrieFollowsTrees T.cmp (code_by T.code_of bits) }
    ensures equal { (bits : ℕ) → EntriesTellTheTree T.cmp (code_by T.code_of bits) }
    ensures similar { (bits : ℕ) → SimilarEntriesTellSimilarTrees T.cmp (code_by T.code_of bits) }
    ensures set { (bits : ℕ) → TrieHasOneSet T.cmp (code_by T.code_of bits) }
    ensures order { (bits : ℕ) → TrieTakesAnyOrder T.cmp (code_by T.code_of bits) }
    ensures keys { (bits : ℕ) → TrieNamesKeys T.cmp (code_by T.code_of bits) }
{
    // The heap is there for its type alone: the laws speak of every heap.
    let _ = heap;
}

/// A row is the trie of some entries where at each position stands what stands for those with that digit. So a row with
/// another thing at one position, and all else as in a trie's, is the trie with an entry more, or without a key.
pub fn rows_are_told_by_places<T: Element>(heap: &Heap<T>)
    ensures places { (bits : ℕ) → RowOfPlacesIsTrie T.cmp (code_by T.code_of bits) }
    ensures takes { (bits : ℕ) → RowTakesEntry T.cmp (code_by T.code_of bits) }
    ensures loses { (bits : ℕ) → RowLosesKey T.cmp (code_by T.code_of bits) }
{
    // The heap is there for its type alone: the laws speak of every heap.
    let _ = heap;
}
