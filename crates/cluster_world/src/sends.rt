ghost use Rattle.cluster_world.specs.Sends.{SendsAreRuns, EventsTellSends};

/// What a client sends through a world as its port is a run of that world, each reply one event of the seat 0; and the
/// events tell what was sent.
pub fn sends_over_worlds_are_runs()
    ensures runs { SendsAreRuns }
    ensures told { EventsTellSends }
{}
