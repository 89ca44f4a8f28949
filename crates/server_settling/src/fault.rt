//! Why a slot is not settled.
use key_slots::NodeId;
use std::fmt;
use thiserror::Error;

/// Why a slot is not settled. What was done until then stays, and does no harm: settling may begin again.
#[derive(Clone, Copy, Debug, PartialEq, Eq, Error)]
pub enum SettleFault {
    /// Out of memory, maybe for a reply.
    Memory,
    /// The connection to the node is gone, or a reply did not come in time.
    NoAnswer(NodeId),
    /// What came from the node is longer than any reply to what it was asked.
    TooLong(NodeId),
    /// What came from the node is no reply.
    NoReply(NodeId),
    /// The node's reply is none to what it was asked.
    Strange(NodeId),
    /// The node answered an error; what it said stands beside.
    Refused(NodeId),
    /// The target still shows connections over which keys may come, after 100 looks or 2 seconds.
    Restless(NodeId),
}

impl fmt::Display for SettleFault {
    ghost use Rattle.std.specs.Prelude.{Some};
    ghost use Rattle.server_settling.specs.Faults.{text_of};

    ghost output = { λ f. Some (text_of f) };

    fn fmt<W: fmt::Write>(&self, f: &mut fmt::Formatter<W>) -> fmt::Result {
        match self {
            Self::Memory => write!(f, "out of memory"),
            Self::NoAnswer(node) => write!(f, "{node} gave no answer"),
            Self::TooLong(node) => write!(f, "{node} gave a longer answer than this command has"),
            Self::NoReply(node) => write!(f, "{node} answered something that is no reply"),
            Self::Strange(node) => write!(f, "{node} answered something strange"),
            Self::Refused(node) => write!(f, "{node} refused"),
            Self::Restless(node) => write!(f, "{node} may still take keys"),
        }
    }
}
