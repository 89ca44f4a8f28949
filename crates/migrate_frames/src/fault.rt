ghost use Rattle.std.specs.Prelude.{◌≡◌};
ghost use Rattle.migrate_frames.specs.Faults.{number_of, name_of};
ghost use Rattle.migrate_frames.specs.declared.fault.FrameFault.TheVariants.{Memory};

use std::alloc::{AllocError, AllocFailed};
use std::fmt;
use thiserror::Error;

/// Why bytes are no frame, or that memory ran out.
#[derive(Clone, Copy, Debug, PartialEq, Eq, Error)]
pub enum FrameFault {
    /// The bytes end before the frame does.
    Truncated = 1,
    /// The byte for the kind of a value is none of 0 to 3.
    BadKind,
    /// A length or a count is outside its range.
    BadLength,
    /// A key, a field of a hash or a member of a set stands a second time.
    RepeatedKey,
    /// Bytes stand after the last entry.
    Trailing,
    /// Memory ran out. The bytes may be good.
    Memory,
}

impl FrameFault {
    /// The fault's number, 1 to 6.
    pub fn number(self) -> u8
        ensures { result ≡ number_of self }
    {
        self as u8
    }

    /// The fault's name, as it stands in the source.
    pub fn name(self) -> &'static str
        ensures { result.now ≡ name_of self }
    {
        match self {
            Self::Truncated => "Truncated",
            Self::BadKind => "BadKind",
            Self::BadLength => "BadLength",
            Self::RepeatedKey => "RepeatedKey",
            Self::Trailing => "Trailing",
            Self::Memory => "Memory",
        }
    }
}

/// The number and the name, as `3 BadLength`.
impl fmt::Display for FrameFault {
    ghost use Rattle.std.specs.Prelude.{Some};
    ghost use Rattle.migrate_frames.specs.Faults.{text_of};

    ghost output = { λ f. Some (text_of f) };

    fn fmt<W: fmt::Write>(&self, f: &mut fmt::Formatter<W>) -> fmt::Result {
        let number = self.number();
        let name = self.name();
        write!(f, "{number} {name}")
    }
}

impl From<AllocError> for FrameFault {
    ghost from_gives = { λ _ e. e ≡ Memory };

    fn from(_refused: AllocError) -> Self {
        Self::Memory
    }
}

impl<T: Drop> From<AllocFailed<T>> for FrameFault {
    ghost from_gives = { λ _ e. e ≡ Memory };

    fn from(_refused: AllocFailed<T>) -> Self {
        Self::Memory
    }
}
