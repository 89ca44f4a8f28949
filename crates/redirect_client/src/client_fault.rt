ghost use Rattle.std.specs.Prelude.{◌≡◌};
ghost use Rattle.redirect_client.specs.declared.client_fault.ClientFault.TheVariants.{Port};

use cluster_world::PortFault;
use std::fmt;
use thiserror::Error;

/// Why a command has no answer.
#[derive(Clone, Copy, Debug, PartialEq, Eq, Error)]
pub enum ClientFault {
    /// Sixteen sends were answered by redirections.
    TooManySends,
    /// A reply began with `MOVED ` or `ASK ` and was no redirection of the command's slot to a node of the cluster.
    BadRedirect,
    /// The port has no reply. Whether the command was done is known where the port was out of memory: it was not.
    Port(PortFault),
    /// The client itself is out of memory. To follow redirections it takes none, so `Client::execute` never answers it.
    Memory,
}

/// The number and the name.
impl fmt::Display for ClientFault {
    ghost use Rattle.std.specs.Prelude.{Some};
    ghost use Rattle.redirect_client.specs.Faults.{client_fault_text};

    ghost output = { λ f. Some (client_fault_text f) };

    fn fmt<W: fmt::Write>(&self, f: &mut fmt::Formatter<W>) -> fmt::Result {
        match self {
            Self::TooManySends => write!(f, "1 TooManySends"),
            Self::BadRedirect => write!(f, "2 BadRedirect"),
            Self::Port(fault) => write!(f, "3 Port: {fault}"),
            Self::Memory => write!(f, "4 Memory"),
        }
    }
}

impl From<PortFault> for ClientFault {
    ghost from_gives = { λ f e. e ≡ Port f };

    fn from(fault: PortFault) -> Self {
        Self::Port(fault)
    }
}
