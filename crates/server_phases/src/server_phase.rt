use crate::strangeness::Strangeness;
use key_slots::NodeId;

/// The phase in which servers show a slot, by what each tells of its owner and by their marks alone (the page of
/// CLUSTER SETSLOT, "Redis Cluster live resharding explained").
#[derive(Clone, Copy, Debug, PartialEq, Eq)]
pub enum ServerPhase {
    /// All nodes tell this owner, and no mark stands.
    Closed(NodeId),
    /// All nodes tell the source, the target imports the slot from it, and no other mark stands.
    Importing { source: NodeId, target: NodeId },
    /// All nodes tell the source, the target imports the slot from it, and the source migrates it to the target.
    Migrating { source: NodeId, target: NodeId },
    /// The target tells that the slot is its own, each other node tells the source or the target, and somebody is still
    /// to be told: the source has its migrating mark, or it tells the target without one while some node still tells
    /// the source. No other mark stands. A source hears of the new owner before it is told, and its mark stays till
    /// then.
    Told { source: NodeId, target: NodeId },
    /// None of these.
    Strange(Strangeness),
}
