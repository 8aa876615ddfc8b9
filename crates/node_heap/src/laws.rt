//! Laws of what links unfold to and of writes in place, each on a call that has little or nothing to do.
ghost use Rattle.std.specs.Prelude.{◌≡◌, ℕ, ◌+◌, ◌<◌, IsSome};
ghost use Rattle.node_heap.specs.Links.{IsAcyclic};
ghost use Rattle.node_heap.specs.Forms.{HasOneTree, TreesFollowReached};
ghost use Rattle.node_heap.specs.Heap.{row_at, form_at, links_at, owners_at, live_count, cell_count, node_count};
ghost use Rattle.node_heap.specs.InPlace.{PathsKeepOff, OwnRootsKeepOff, ChangesGoUp, ChangesFollow, BuildsAreChanges, HoldsAreChanges, RoomIsAChange, ReleasesAreChanges, ChangesKeepWays, ChangesKeepPaths, ChangesKeepRows, ChangesKeepTrees, ChangesKeepAbove, ChangesKeepSiblings, OwnChangesKeepHeld, NewRowsReachSpent, LeafReleasesKeepOthers, LeafReleasesFreeOne, GainsFollow, BuildsGain, WritesGain, GainsMakeJust};
ghost use Rattle.node_heap.specs.Owner.{OwnThenChanges, OwnChildThenChanges, RoomThenEdits, HoldEditsKeepHeld, PlaceEditsKeepApart, AlonePathsGoUp, OwnedPathsKeepAlone, AloneStays, SharedGoes};

use crate::heap::Heap;
use crate::row::Link;

/// A live link unfolds to one tree, which depends on the rows alone that it reaches.
pub fn unfolds_to_one_tree<T>(heap: &Heap<T>, link: Link)
    requires { IsSome (row_at heap.now link) }
    ensures one { HasOneTree (form_at heap.now) link }
    ensures reached { TreesFollowReached T }
{
    heap.rows_form_a_graph();
    // The link is there for the clauses alone.
    let _ = link;
}

/// In every heap no row reaches itself, each row has an owner, and each is a cell or a node.
pub fn rows_are_owned<T>(heap: &Heap<T>)
    ensures acyclic { IsAcyclic (links_at heap.now) }
    ensures owned { (l : ℕ) → IsSome (row_at heap.now l) → 0 < owners_at heap.now l }
    ensures kinds { live_count heap.now ≡ cell_count heap.now + node_count heap.now }
{
    heap.rows_form_a_graph();
}

/// What a held link doesn't reach: the last row of a path of rows with one owner each, where it doesn't reach the first; and
/// a row whose one owner is another hold.
pub fn owned_rows_keep_off<T>()
    ensures paths { PathsKeepOff T }
    ensures roots { OwnRootsKeepOff T }
{}

/// Changes below rows with one owner add up to one change at the first of them. What is built, a hold, room that is
/// made and a release are changes too.
pub fn changes_add_up<T>()
    ensures up { ChangesGoUp T }
    ensures follow { ChangesFollow T }
    ensures builds { BuildsAreChanges T }
    ensures holds { HoldsAreChanges T }
    ensures room { RoomIsAChange T }
    ensures releases { ReleasesAreChanges T }
{}

/// A change at a row keeps the ways and the paths to rows above it, and what is held apart.
pub fn changes_keep_the_rest<T>()
    ensures ways { ChangesKeepWays T }
    ensures paths { ChangesKeepPaths T }
    ensures rows { ChangesKeepRows T }
    ensures trees { ChangesKeepTrees T }
    ensures above { ChangesKeepAbove T }
    ensures siblings { ChangesKeepSiblings T }
    ensures held { OwnChangesKeepHeld T }
{}

/// A held node that is made one's own, and a child that is made its parent's own, is edited by its owner then, which keeps what
/// is beside that owner.
pub fn edits_by_an_owner<T>()
    ensures hold { OwnThenChanges T }
    ensures place { OwnChildThenChanges T }
    ensures room { RoomThenEdits T }
    ensures held { HoldEditsKeepHeld T }
    ensures apart { PlaceEditsKeepApart T }
{}

/// What keeps the rows of a path that are alone, row by row: its first row is the same if it has one owner, and another if it
/// has more.
pub fn alone_rows_stay<T>()
    ensures up { AlonePathsGoUp T }
    ensures own { OwnedPathsKeepAlone T }
    ensures alone { AloneStays T }
    ensures shared { SharedGoes T }
{}

/// Steps that free no row, and make each of a spare, add up to one such step, and the number made rises by just the rows then.
pub fn gains_add_up<T>()
    ensures follow { GainsFollow T }
    ensures builds { BuildsGain T }
    ensures writes { WritesGain T }
    ensures just { GainsMakeJust T }
{}

/// A new row leads to no old row that isn't below what was spent for it, and a release of a link without links frees no
/// other row.
pub fn rows_come_and_go<T>()
    ensures spent { NewRowsReachSpent T }
    ensures others { LeafReleasesKeepOthers T }
    ensures one { LeafReleasesFreeOne T }
{}
