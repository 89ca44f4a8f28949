use key_slots::Slot;
use thiserror::Error;

/// A command of the expanded plan, counted from 1, and the slot that it names.
#[derive(Clone, Copy, Debug, PartialEq, Eq)]
pub struct CommandPlace {
    pub slot: Slot,
    pub command: u32,
}

/// Why a plan was not accepted: the first command at fault, or the lowest slot that is left open and its last command,
/// 0 where it has none.
#[derive(Clone, Copy, Debug, PartialEq, Eq, Error)]
pub enum VerifyFault {
    /// The command names a node that the cluster does not have.
    UnknownNode(CommandPlace),
    /// The source does not own the slot.
    NotOwner(CommandPlace),
    /// The source is the target.
    SameNode(CommandPlace),
    /// The slot's move does not go on by such a command.
    OutOfOrder(CommandPlace),
    /// The slot's move continues by such a command with other nodes.
    WrongNode(CommandPlace),
    /// The slot's move is at its end, in a plan of version 1.
    MovedTwice(CommandPlace),
    /// The slot was on its way, or its move was begun, and it does not come to its end.
    LeftOpen(CommandPlace),
    /// Out of memory.
    Memory,
}
