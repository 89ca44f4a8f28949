//! Slots that stand open.
use key_slots::{NodeId, Slot};

/// A slot whose move was begun and is not done.
#[derive(Clone, Copy, Debug, PartialEq, Eq)]
pub struct OpenSlot {
    pub slot: Slot,
    /// The node from which it goes, in whose band it is drawn.
    pub source: NodeId,
    /// The node to which it goes.
    pub target: NodeId,
}
