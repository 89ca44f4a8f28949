ghost use Rattle.plan_semantics.specs.OwnedMoves.{OwnedMovesAreLegal};
ghost use Rattle.plan_semantics.specs.Plans.{LeavesTable};
ghost use Rattle.plan_semantics.specs.Unrolling.{SpelledByPrefixes};

/// PlannersExact: a plan of `move` lines over distinct slots, each from the owner of its slots to another node of the
/// cluster, is legal.
pub fn plans_of_owned_moves_are_legal()
    ensures { OwnedMovesAreLegal }
{}

/// The final owners of a plan are always a table.
pub fn plans_leave_tables()
    ensures { LeavesTable }
{}

/// Whether calls are a beginning of what a plan stands for can be said of the whole list, or call by call.
pub fn plans_are_spelt_by_unrolling()
    ensures { SpelledByPrefixes }
{}
