//! Laws of what is stored and then loaded, and of the bytes that are loaded, as the clauses of functions that do nothing: they
//! call at most the laws that theirs stand on.
ghost use Rattle.ewig_shell.specs.RoundTrip.{LoadThenSave, SaveThenLoad, IndentThenLoad, DedentThenLoad, LineLeaves, LinesLeave, SaveBegins, SaveThenPart, PartThenChain, PartThenPart};
ghost use Rattle.ewig_shell.specs.Stands.{DocumentsStand, OldDocumentsAreKept};

use pool_carry::{carried_is_kept, carried_is_one, carried_is_valid, pools_are_carried};
use shell_io::Store;

/// Over a store that tells its files: a compact document of the present version that was loaded is stored byte for byte by a save
/// of the pool that it left, where the store doesn't fail and memory doesn't run out.
pub fn load_then_save()
    ensures { LoadThenSave }
{}

/// Over a store that tells its files: the pool of a space that was stored is that of any space of as many bits once the file is
/// loaded there, where no batch is open, the store doesn't fail and memory doesn't run out.
pub fn save_then_load()
    ensures { SaveThenLoad }
{}

/// The same of the pool with its lines moved, which `indent` and `dedent` stored.
pub fn lines_moved_then_load()
    ensures indented { IndentThenLoad }
    ensures dedented { DedentThenLoad }
{}

/// Lines that write none of some files leave those as they are, and the bits of the space.
pub fn lines_leave<D: Store>()
    ensures line { LineLeaves }
    ensures lines { LinesLeave D.Store }
{}

/// What a save stored fails no test as the first document of a chain. Over a store that tells its files: while that file is left, the
/// first part by as many bits is stored behind it, where no batch is open, its own text isn't too many bytes, the store doesn't fail
/// and memory doesn't run out.
pub fn save_then_part()
    ensures begins { SaveBegins }
    ensures part { SaveThenPart }
{}

/// Over a store that tells its files: the pool of a space from which a part was stored is that of any space of as many bits once the
/// chain up to it is taken there, where no batch is open, its files aren't too many bytes together, the store doesn't fail and memory
/// doesn't run out. The next part is stored behind it, up to the 64th, where its own text isn't too many bytes either.
pub fn part_then_chain()
    ensures chain { PartThenChain }
    ensures part { PartThenPart }
{}

/// Bytes that fail none of the tests stand for one pool, which is valid and goes by the bits of the space.
pub fn documents_stand()
    ensures { DocumentsStand }
{
    pools_are_carried();
    carried_is_one();
    carried_is_valid();
}

/// What those of the first version stand for has the workspace for which the pool of their rows stood, and keeps its identities.
pub fn old_documents_are_kept()
    ensures { OldDocumentsAreKept }
{
    carried_is_kept();
}
