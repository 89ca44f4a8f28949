ghost use Rattle.std.specs.Prelude.{◌≡◌};
ghost use Rattle.resp2_wire.specs.Faults.{number_of, name_of};
ghost use Rattle.resp2_wire.specs.declared.fault.WireFault.TheVariants.{Memory};
ghost use Rattle.resp2_wire.specs.declared.fault.Stop.TheVariants.{Fault};

use std::alloc::{AllocError, AllocFailed};
use std::fmt;
use thiserror::Error;

/// What is wrong with a stream of requests or with the bytes of a reply, or that memory ran out.
///
/// `Display` is written by hand, so that its contract gives the text.
#[derive(Clone, Copy, Debug, PartialEq, Eq, Error)]
pub enum WireFault {
    /// A request does not begin with `*`.
    NotArray = 1,
    /// What stands where a count or a number belongs is none, or a reply's number is outside `i64`.
    BadCount,
    /// A request's word does not begin with `$`.
    NotBulk,
    /// What stands where a length belongs is none, or is negative where no null may stand.
    BadLength,
    /// A count, a length, a line or the depth of arrays is above its limit.
    TooLarge,
    /// A line or a bulk string does not end with CR LF.
    MissingCrLf,
    /// Memory ran out. The bytes may be good.
    Memory,
    /// A reply begins with none of the five marks.
    BadMark,
}

impl WireFault {
    /// The fault's number, 1 to 8.
    pub fn number(self) -> u8
        ensures { result ≡ number_of self }
    {
        self as u8
    }

    /// The fault's name, as it stands in the source.
    pub fn name(self) -> &'static str
        ensures { result.now ≡ name_of self }
    {
        match self {
            Self::NotArray => "NotArray",
            Self::BadCount => "BadCount",
            Self::NotBulk => "NotBulk",
            Self::BadLength => "BadLength",
            Self::TooLarge => "TooLarge",
            Self::MissingCrLf => "MissingCrLf",
            Self::Memory => "Memory",
            Self::BadMark => "BadMark",
        }
    }
}

/// The number and the name, as `5 TooLarge`.
impl fmt::Display for WireFault {
    ghost use Rattle.std.specs.Prelude.{Some};
    ghost use Rattle.resp2_wire.specs.Faults.{text_of};

    ghost output = { λ f. Some (text_of f) };

    fn fmt<W: fmt::Write>(&self, f: &mut fmt::Formatter<W>) -> fmt::Result {
        let number = self.number();
        let name = self.name();
        write!(f, "{number} {name}")
    }
}

/// Why nothing whole stands at the beginning of some bytes.
#[derive(Clone, Copy, Debug, PartialEq, Eq)]
pub enum Stop {
    /// The bytes end too early.
    Unfinished,
    /// The leftmost fault.
    Fault(WireFault),
}

impl From<AllocError> for Stop {
    ghost from_gives = { λ _ e. e ≡ Fault Memory };

    fn from(_e: AllocError) -> Self {
        Self::Fault(WireFault::Memory)
    }
}

impl<T: Drop> From<AllocFailed<T>> for Stop {
    ghost from_gives = { λ _ e. e ≡ Fault Memory };

    fn from(_e: AllocFailed<T>) -> Self {
        Self::Fault(WireFault::Memory)
    }
}

impl From<AllocError> for WireFault {
    ghost from_gives = { λ _ e. e ≡ Memory };

    fn from(_e: AllocError) -> Self {
        Self::Memory
    }
}
