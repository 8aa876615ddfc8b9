//! Laws of valid pools, as the clauses of functions that do nothing.
ghost use Rattle.pool_check.specs.Laws.{VectorRootsAreGood, TrieRootsAreCanonical, UndamagedIsValid, UndamagedDocumentsStand, ValidDocumentsAreUndamaged, DamagesAreTests, ValidIsOfItself, ValidHasValidRows};
ghost use Rattle.pool_check.specs.Passing.{PoolsPassAsMade};
ghost use Rattle.pool_check.specs.Readings.{VectorsReadTheSame, TriesReadTheSame};
ghost use Rattle.pool_check.specs.Worked.{UndamagedPools, DamagedPools, WorkedDamages};

/// A vector root of a pool whose rows pass their tests is the root of a well-shaped vector, whatever the rules and the roots.
pub fn vector_roots_are_good()
    ensures { VectorRootsAreGood }
{}

/// A trie row of depth 0 of such a pool is the canonical trie of the entries below it.
pub fn trie_roots_are_canonical()
    ensures { TrieRootsAreCanonical }
{}

/// A pool has no damage exactly where it is valid.
pub fn undamaged_is_valid()
    ensures { UndamagedIsValid }
{}

/// Bytes without damage have the rows of a pool of four roots that is valid by the rules of its version, by as many bits as such
/// a document keeps.
pub fn undamaged_documents_stand()
    ensures { UndamagedDocumentsStand }
{}

/// Bytes that read as the document of a valid pool of four roots have no damage.
pub fn valid_documents_are_undamaged()
    ensures { ValidDocumentsAreUndamaged }
{}

/// The damage of bytes is a test that they fail, and no want of memory.
pub fn damages_are_tests()
    ensures { DamagesAreTests }
{}

/// Pools that pass every test.
pub fn undamaged_pools()
    ensures { UndamagedPools }
{}

/// Pools that fail a test and pass those before it.
pub fn damaged_pools()
    ensures { DamagedPools }
{}

/// Documents that fail each of the tests, and one that fails none.
pub fn worked_damages()
    ensures { WorkedDamages }
{}

/// A vector reads the same wherever its rows are renamed, as in a pool.
pub fn vectors_read_the_same<K, X>()
    ensures { VectorsReadTheSame K X }
{}

/// A trie reads the same wherever its rows are renamed.
pub fn tries_read_the_same<K, X>()
    ensures { TriesReadTheSame K X }
{}

/// A pool of rooted rows leads back and stands in order by how it is made.
pub fn pools_pass_as_made()
    ensures { PoolsPassAsMade }
{}

/// A pool of valid rows, whatever its roots are, is the pool of its own rows from its roots.
pub fn valid_is_of_itself()
    ensures { ValidIsOfItself }
{}

/// A valid pool has valid rows.
pub fn valid_has_valid_rows()
    ensures { ValidHasValidRows }
{}
