ghost use Rattle.std.specs.Prelude.{◌≡◌};
ghost use Rattle.cluster_inspection.specs.declared.naming_fault.NamingFault.TheVariants.{Memory};

use key_slots::NodeId;
use std::alloc::AllocError;
use std::fmt;
use thiserror::Error;

/// Why the nodes that a plan mentions can't be listed with names.
#[derive(Clone, Copy, Debug, PartialEq, Eq, Error)]
pub enum NamingFault {
    /// Out of memory.
    Memory,
    /// The node's server gives a name that is none: it is not of 40 hexadecimal digits in lower case.
    NoName(NodeId),
    /// The node's server has the name of a lower node's.
    SameName(NodeId),
    /// The cluster has no such node.
    NoServer(NodeId),
}

/// The text after `refused: `.
impl fmt::Display for NamingFault {
    ghost use Rattle.std.specs.Prelude.{Some};
    ghost use Rattle.cluster_inspection.specs.Faults.{naming_fault_text};

    ghost output = { λ f. Some (naming_fault_text f) };

    fn fmt<W: fmt::Write>(&self, f: &mut fmt::Formatter<W>) -> fmt::Result {
        match self {
            Self::Memory => write!(f, "out of memory"),
            Self::NoName(node) => {
                write!(f, "the name of {node} is not one of 40 hexadecimal digits")
            }
            Self::SameName(node) => write!(f, "the name of {node} is that of another node, too"),
            Self::NoServer(node) => write!(f, "{node} is no node of the cluster"),
        }
    }
}

impl From<AllocError> for NamingFault {
    ghost from_gives = { λ _ e. e ≡ Memory };

    fn from(_error: AllocError) -> Self {
        Self::Memory
    }
}
