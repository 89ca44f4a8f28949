ghost use Rattle.std.specs.Prelude.{◌≡◌};
ghost use Rattle.cluster_admin.specs.declared.port_fault.PortFault.TheVariants.{Memory};

use std::alloc::AllocError;
use std::fmt;
use thiserror::Error;

/// Why a port has no reply.
#[derive(Clone, Copy, Debug, PartialEq, Eq, Error)]
pub enum PortFault {
    /// Memory ran out, and nothing was done.
    Memory = 1,
    /// The device between the port and the node failed, or came to its end.
    Io = 2,
    /// What came back is no reply.
    Wire = 3,
}

impl fmt::Display for PortFault {
    ghost use Rattle.std.specs.Prelude.{Some};
    ghost use Rattle.cluster_admin.specs.Faults.{fault_text};

    ghost output = { λ f. Some (fault_text f) };

    fn fmt<W: fmt::Write>(&self, f: &mut fmt::Formatter<W>) -> fmt::Result {
        match self {
            Self::Memory => write!(f, "out of memory"),
            Self::Io => write!(f, "the device failed"),
            Self::Wire => write!(f, "no reply came back"),
        }
    }
}

impl From<AllocError> for PortFault {
    ghost from_gives = { λ _ e. e ≡ Memory };

    fn from(_error: AllocError) -> Self {
        Self::Memory
    }
}
