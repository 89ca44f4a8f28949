ghost use Rattle.std.specs.Prelude.{◌≡◌};
ghost use Rattle.plan_runner.specs.Verifying.{fault_at};

use crate::verify_fault::{CommandPlace, VerifyFault};

/// What is wrong with a command, by the state of its slot.
#[derive(Clone, Copy)]
pub(crate) enum CommandFault {
    /// It names a node that the cluster does not have.
    UnknownNode,
    /// It begins a move at a node that is not the slot's owner.
    NotOwner,
    /// It begins a move from a node to itself.
    SameNode,
    /// It is another command's turn.
    OutOfOrder,
    /// It names other nodes than the move that was begun.
    WrongNode,
    /// The slot was moved already.
    MovedTwice,
}

impl CommandFault {
    /// The fault of the command at this place.
    pub(crate) fn at(self, place: CommandPlace) -> VerifyFault
        ensures { result ≡ fault_at self place }
    {
        match self {
            Self::UnknownNode => VerifyFault::UnknownNode(place),
            Self::NotOwner => VerifyFault::NotOwner(place),
            Self::SameNode => VerifyFault::SameNode(place),
            Self::OutOfOrder => VerifyFault::OutOfOrder(place),
            Self::WrongNode => VerifyFault::WrongNode(place),
            Self::MovedTwice => VerifyFault::MovedTwice(place),
        }
    }
}
