use crate::node_id::NodeId;
use crate::slot::Slot;

/// The slots from `first` to `last`, both included, which have one owner.
#[derive(Clone, Copy, Debug, PartialEq, Eq)]
pub struct SlotRange {
    pub first: Slot,
    pub last: Slot,
    pub owner: NodeId,
}
