ghost use Rattle.plan_machine.specs.Quiet.{CleanIsUnmarked, RunsQuietly};

/// QuietReshard: a legal plan can be armed over the clean world for whose table it was verified. Run there, where it
/// may take its cost, it is done by exactly its cost and leaves the world clean under the plan's owners with the same
/// store, or it is stopped by out of memory.
pub fn plans_run_over_worlds_take_their_cost()
    ensures arms { CleanIsUnmarked }
    ensures runs { RunsQuietly }
{}
