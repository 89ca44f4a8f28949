//! What the plans of the planners amount to.

ghost use Rattle.reshard_planner.specs.Laws.{ReshardsAreLegal, ReshardsMoveAll};
ghost use Rattle.reshard_planner.specs.Laws.{RebalancesAreLegal, RebalancesMoveFewest};
ghost use Rattle.reshard_planner.specs.Laws.{DrainsAreLegal, DrainsEmptySources};

/// PlannersExact: a plan that moves slots of sources to a target is legal, is read back from its text, and moves as
/// many as were asked for.
pub fn planned_reshards_are_legal()
    ensures legal { ReshardsAreLegal }
    ensures moves { ReshardsMoveAll }
{}

/// PlannersExact: a plan that rebalances is legal, is read back from its text, and leaves each node with its quota by
/// the fewest moves.
pub fn planned_rebalances_are_legal()
    ensures legal { RebalancesAreLegal }
    ensures fewest { RebalancesMoveFewest }
{}

/// PlannersExact: a plan that drains nodes is legal, is read back from its text, and leaves these nodes without slots;
/// no slot of another node moves, and the targets are as level as can be.
pub fn planned_drains_are_legal()
    ensures legal { DrainsAreLegal }
    ensures drains { DrainsEmptySources }
{}
