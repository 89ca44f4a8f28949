use crate::plan_command::PlanCommand;
use key_slots::{NodeId, Slot};

/// A line of a plan between its header and its end.
#[derive(Clone, Copy)]
pub enum Line {
    /// A line that stands for one command, such as `setslot 7 importing n0 at n1`.
    Command(PlanCommand),
    /// `move first-last from source to target by batch`: each of the slots, ascending, goes from the source to the
    /// target, at most `batch` keys at a time.
    Move {
        first: Slot,
        last: Slot,
        source: NodeId,
        target: NodeId,
        batch: u16,
    },
}
