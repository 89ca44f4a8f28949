use resp2_wire::Reply;
use store_commands::Command;

/// What a request wants.
#[derive(Drop)]
pub enum Want {
    /// This reply, for which no node is asked.
    Here(Reply),
    /// The node's ranges of slots.
    Slots,
    /// What the node makes of the command.
    Stored(Command),
}
