ghost use Rattle.std.specs.Prelude.{◌≡◌};

use std::alloc::AllocError;
use std::fmt;
use thiserror::Error;

/// Why a request is no command.
///
/// `Display` is written by hand, so that its contract gives the text.
#[derive(Clone, Copy, Debug, PartialEq, Eq, Error)]
pub enum CommandFault {
    /// No command has this name.
    Unknown = 1,
    /// The command takes another number of arguments.
    ArgumentCount = 2,
    /// Out of memory for the copies of the arguments.
    Memory = 3,
}

impl fmt::Display for CommandFault {
    ghost use Rattle.std.specs.Prelude.{Some};
    ghost use Rattle.client_commands.specs.Faults.{text_of};

    ghost output = { λ f. Some (text_of f) };

    fn fmt<W: fmt::Write>(&self, f: &mut fmt::Formatter<W>) -> fmt::Result {
        match self {
            Self::Unknown => write!(f, "unknown command"),
            Self::ArgumentCount => write!(f, "wrong number of arguments"),
            Self::Memory => write!(f, "out of memory"),
        }
    }
}

impl From<AllocError> for CommandFault {
    ghost use Rattle.client_commands.specs.declared.fault.CommandFault.TheVariants.{Memory};

    ghost from_gives = { λ _ e. e ≡ Memory };

    fn from(_error: AllocError) -> Self {
        Self::Memory
    }
}
