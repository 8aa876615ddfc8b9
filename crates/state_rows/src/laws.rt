//! Laws of what rows stand for, in a heap and in pools, as the clauses of functions that do nothing.
ghost use Rattle.state_rows.specs.Laws.{OneWorkspace, PoolsStand, RootsStand, ValidPoolsStand};
ghost use Rattle.state_rows.specs.Stay.{StatesStay};
ghost use Rattle.state_rows.specs.Worked.{WorkedSpaces};

/// Lines, states, versions and histories stay wherever all that their link reaches is the same.
pub fn states_stay()
    ensures { StatesStay }
{}

/// Roots of a heap that stand for a workspace, with undo within its bound, have a valid pool, which stands for it too.
pub fn pools_stand()
    ensures { PoolsStand }
{}

/// Roots of a heap stand for a workspace where their pool does, and the inner rows below them keep their sums.
pub fn roots_stand()
    ensures { RootsStand }
{}

/// A pool stands for one workspace.
pub fn one_workspace()
    ensures { OneWorkspace }
{}

/// Every valid pool stands for a workspace.
pub fn valid_pools_stand()
    ensures { ValidPoolsStand }
{}

/// What small pools stand for.
pub fn worked_spaces()
    ensures { WorkedSpaces }
{}
