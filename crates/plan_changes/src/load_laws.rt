//! What the definitions of this crate amount to, in other words.
ghost use Rattle.plan_changes.specs.Emptying.{EmptiedLoseLast};

/// In a legal plan from closed slots a node is emptied exactly where some drain takes its last slot: the node holds
/// slots before that command, and none after it.
pub fn emptied_nodes_lose_their_last_slot()
    ensures { EmptiedLoseLast }
{}
