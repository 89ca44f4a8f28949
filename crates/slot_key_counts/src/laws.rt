//! What follows from how keys are counted.
ghost use Rattle.slot_key_counts.specs.Batches.{AreSmall};

/// No batch has more than 256 requests, and each round reads the replies to its own before the next one begins. So no
/// more are on their way to a server.
pub fn batches_are_small()
    ensures { AreSmall }
{}
