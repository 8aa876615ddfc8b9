//! Laws of carried pools, as the clauses of functions that do nothing.
ghost use Rattle.pool_carry.specs.Laws.{PoolsAreCarried, CarriedIsOne, CarriedStands, CarriedIsValid, CarriedKeepsIdentities, CarriedIsKept};
ghost use Rattle.pool_carry.specs.Worked.{CarriedPools, CarriedPoolsPass, OldPoolsPass};

/// There is a carried pool of each valid pool, whatever the rules.
pub fn pools_are_carried()
    ensures { PoolsAreCarried }
{}

/// There is no other.
pub fn carried_is_one()
    ensures { CarriedIsOne }
{}

/// It stands for the workspace that the pool stands for, where undo has the greatest bound.
pub fn carried_stands()
    ensures { CarriedStands }
{}

/// It is valid by the new rules.
pub fn carried_is_valid()
    ensures { CarriedIsValid }
{}

/// It keeps all named places apart or one, as they were.
pub fn carried_keeps_identities()
    ensures { CarriedKeepsIdentities }
{}

/// In one: it keeps the workspace and the identities of the pool.
pub fn carried_is_kept()
    ensures { CarriedIsKept }
{}

/// What small pools are carried to by today's rules.
pub fn carried_pools()
    ensures carried { CarriedPools }
    ensures pass { CarriedPoolsPass }
    ensures passed { OldPoolsPass }
{}
