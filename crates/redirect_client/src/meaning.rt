use key_slots::NodeId;

/// Where a redirection sends a command.
#[derive(Clone, Copy)]
pub(crate) enum Redirect {
    /// To this node, which is the slot's owner.
    Moved(NodeId),
    /// To this node for once, with ASKING.
    Ask(NodeId),
    /// To the slot's owner again: some of the command's keys are there and some are not.
    TryAgain,
}

/// What a reply tells of its command.
#[derive(Clone, Copy)]
pub(crate) enum Meaning {
    /// The reply is the command's answer.
    Answer,
    /// The reply sends the command elsewhere.
    Redirected(Redirect),
    /// The reply begins as a redirection does, and is none for the command's slot to a node of the cluster.
    Bad,
}

/// Where a command goes next.
#[derive(Clone, Copy)]
pub(crate) enum Destination {
    /// To the slot's owner that the client believes in.
    Owner,
    /// To the node that the reply before named by ASK, with ASKING.
    Asked(NodeId),
}
