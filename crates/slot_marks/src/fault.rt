use std::fmt;
use thiserror::Error;

/// Why a SETSLOT was refused.
#[derive(Clone, Copy, Debug, PartialEq, Eq, Error)]
pub enum SlotFault {
    /// The node does not own the slot that it is to hand over.
    NotOwner = 1,
    /// The node owns the slot that it is to take over.
    AlreadyOwner = 2,
    /// The cluster has no such node.
    UnknownNode = 3,
    /// The node owns the slot, is to give it up, and holds keys of it.
    KeysRemain = 4,
    /// The node itself is named where another one is wanted.
    SameNode = 6,
}

impl fmt::Display for SlotFault {
    ghost use Rattle.std.specs.Prelude.{Some};
    ghost use Rattle.slot_marks.specs.Faults.{text_of};

    ghost output = { λ f. Some (text_of f) };

    fn fmt<W: fmt::Write>(&self, f: &mut fmt::Formatter<W>) -> fmt::Result {
        match self {
            Self::NotOwner => write!(f, "the node does not own the slot"),
            Self::AlreadyOwner => write!(f, "the node already owns the slot"),
            Self::UnknownNode => write!(f, "unknown node"),
            Self::KeysRemain => write!(f, "the node still holds keys of the slot"),
            Self::SameNode => write!(f, "the node itself is named"),
        }
    }
}
