ghost use Rattle.std.specs.Prelude.{◌≡◌};

use std::alloc::{AllocError, AllocFailed};
use std::fmt;
use thiserror::Error;

/// Why an operation on a value cannot be done. The value is unchanged after each.
///
/// `Display` is written by hand, so that its contract gives the text.
#[derive(Clone, Copy, Debug, PartialEq, Eq, Error)]
pub enum ValueFault {
    /// The value is of another kind.
    WrongType = 1,
    /// The text spells no number of 64 bits.
    NotInteger = 2,
    /// The sum is no number of 64 bits.
    Overflow = 3,
    /// Out of memory.
    Memory = 4,
    /// A text would be longer than 1,048,576 bytes, or a collection hold more than 1,048,576.
    TooLong = 5,
}

impl fmt::Display for ValueFault {
    ghost use Rattle.std.specs.Prelude.{Some};
    ghost use Rattle.typed_values.specs.Faults.{text_of};

    ghost output = { λ f. Some (text_of f) };

    fn fmt<W: fmt::Write>(&self, f: &mut fmt::Formatter<W>) -> fmt::Result {
        match self {
            Self::WrongType => write!(f, "the value is of another kind"),
            Self::NotInteger => write!(f, "the text is not an integer of 64 bits"),
            Self::Overflow => write!(f, "the sum is not an integer of 64 bits"),
            Self::Memory => write!(f, "out of memory"),
            Self::TooLong => write!(f, "the value would exceed its limit"),
        }
    }
}

impl From<AllocError> for ValueFault {
    ghost use Rattle.typed_values.specs.declared.fault.ValueFault.TheVariants.{Memory};

    ghost from_gives = { λ _ e. e ≡ Memory };

    fn from(_refused: AllocError) -> Self {
        Self::Memory
    }
}

impl<T: Drop> From<AllocFailed<T>> for ValueFault {
    ghost use Rattle.typed_values.specs.declared.fault.ValueFault.TheVariants.{Memory};

    ghost from_gives = { λ _ e. e ≡ Memory };

    fn from(_refused: AllocFailed<T>) -> Self {
        Self::Memory
    }
}
