ghost use Rattle.std.specs.Prelude.{◌≡◌};

use byte_streams::Failed;
use std::alloc::{AllocError, AllocFailed};
use std::fmt;
use std::io::ErrorKind;
use thiserror::Error;

/// Why a cluster is not served to its end.
#[derive(Clone, Copy, Debug, PartialEq, Eq, Error)]
pub enum Unserved {
    /// Memory ran out.
    Memory,
    /// No listener could be opened at this port of 127.0.0.1, for this reason.
    Unopened(u16, ErrorKind),
    /// The cluster has no seat left.
    NoSeat,
    /// A write to the output failed.
    Unwritten,
}

impl fmt::Display for Unserved {
    ghost use Rattle.loopback_servers.specs.Servings.{unserved_text};

    /// The system's reason for a listener that could not be opened is its own.
    ghost output = { unserved_text };

    fn fmt<W: fmt::Write>(&self, f: &mut fmt::Formatter<W>) -> fmt::Result {
        match self {
            Self::Memory => write!(f, "out of memory"),
            Self::Unopened(port, reason) => write!(f, "no listener at 127.0.0.1:{port}: {reason}"),
            Self::NoSeat => write!(f, "the cluster has no seat left"),
            Self::Unwritten => write!(f, "a write to the output failed"),
        }
    }
}

impl From<AllocError> for Unserved {
    ghost use Rattle.loopback_servers.specs.declared.unserved.Unserved.TheVariants.{Memory};

    ghost from_gives = { λ _ e. e ≡ Memory };

    fn from(_error: AllocError) -> Self {
        Self::Memory
    }
}

impl<T: Drop> From<AllocFailed<T>> for Unserved {
    ghost use Rattle.loopback_servers.specs.declared.unserved.Unserved.TheVariants.{Memory};

    ghost from_gives = { λ _ e. e ≡ Memory };

    fn from(_refused: AllocFailed<T>) -> Self {
        Self::Memory
    }
}

impl From<Failed> for Unserved {
    ghost use Rattle.loopback_servers.specs.declared.unserved.Unserved.TheVariants.{Unwritten};

    ghost from_gives = { λ _ e. e ≡ Unwritten };

    fn from(_failed: Failed) -> Self {
        Self::Unwritten
    }
}
