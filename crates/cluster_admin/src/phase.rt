use key_slots::NodeId;

/// The phase in which a slot stands while nobody moves it on, by what the nodes say of its owner and by their marks
/// alone (the page of CLUSTER SETSLOT, "Redis Cluster live resharding explained").
#[derive(Clone, Copy, Debug, PartialEq, Eq)]
pub enum Phase {
    /// All nodes say this owner, and no mark stands.
    Closed(NodeId),
    /// All nodes say the source, and the target imports the slot from it.
    Importing { source: NodeId, target: NodeId },
    /// All nodes say the source, the target imports the slot from it, and the source migrates it to the target.
    Migrating { source: NodeId, target: NodeId },
    /// The target says that the slot is its own, the others say the source, which migrates it.
    TargetTold { source: NodeId, target: NodeId },
    /// The source and the target say the target, no mark stands, and each other node says the one or the other; one
    /// at least still says the source.
    SourceTold { source: NodeId, target: NodeId },
}
