use key_slots::NodeId;

/// What a node does with a command (Redis Cluster specification, "Redirection and resharding").
#[derive(Clone, Copy, Debug, PartialEq, Eq)]
pub enum Verdict {
    /// It executes the command.
    Serve,
    /// It names the slot's owner: the client is to ask there from now on.
    Moved(NodeId),
    /// It names the node to which the slot goes: the client is to ask there once, with ASKING.
    Ask(NodeId),
    /// Some of the keys are here and some are not, while the slot moves.
    TryAgain,
    /// The keys have several slots.
    CrossSlot,
}
