ghost use Rattle.std.specs.Prelude.{◌≡◌};
ghost use Rattle.survey_texts.specs.declared.expect_fault.ExpectFault.TheVariants.{Memory};

use std::alloc::AllocError;
use std::fmt;
use thiserror::Error;

/// Why a text tells no IDs.
#[derive(Clone, Copy, Debug, PartialEq, Eq, Error)]
pub enum ExpectFault {
    /// The line with this number, from 1, is none that a survey prints, or a node out of its turn.
    Line(usize),
    /// Out of memory.
    Memory,
}

/// For example `line 3 is not a line of a survey`.
impl fmt::Display for ExpectFault {
    ghost use Rattle.std.specs.Prelude.{Some};
    ghost use Rattle.survey_texts.specs.Faults.{fault_text};

    ghost output = { λ f. Some (fault_text f) };

    fn fmt<W: fmt::Write>(&self, f: &mut fmt::Formatter<W>) -> fmt::Result {
        match self {
            Self::Line(line) => write!(f, "line {line} is not a line of a survey"),
            Self::Memory => write!(f, "out of memory"),
        }
    }
}

impl From<AllocError> for ExpectFault {
    ghost from_gives = { λ _ e. e ≡ Memory };

    fn from(_error: AllocError) -> Self {
        Self::Memory
    }
}
