ghost use Rattle.std.specs.Prelude.{◌≡◌};
ghost use Rattle.server_phases.specs.declared.resume_fault.ResumeFault.TheVariants.{Memory};

use std::alloc::AllocError;
use std::fmt;
use thiserror::Error;

/// Why there is no plan that resumes.
#[derive(Clone, Copy, Debug, PartialEq, Eq, Error)]
pub enum ResumeFault {
    /// Some slot is in no phase.
    Strange,
    /// Some line is no move.
    NoMove,
    /// Some line has a node that no plan for the cluster can have.
    Beyond,
    /// The rests and the moves count as more commands than this, which a plan for the cluster has at most.
    TooLong(u32),
    /// Out of memory.
    Memory,
}

/// For example `a slot is in no phase`.
impl fmt::Display for ResumeFault {
    ghost use Rattle.std.specs.Prelude.{Some};
    ghost use Rattle.server_phases.specs.ResumeFaults.{resume_fault_text};

    ghost output = { λ f. Some (resume_fault_text f) };

    fn fmt<W: fmt::Write>(&self, f: &mut fmt::Formatter<W>) -> fmt::Result {
        match self {
            Self::Strange => write!(f, "a slot is in no phase"),
            Self::NoMove => write!(f, "a line is no move"),
            Self::Beyond => write!(f, "a line names a node that the cluster does not have"),
            Self::TooLong(most) => write!(f, "more than {most} commands"),
            Self::Memory => write!(f, "out of memory"),
        }
    }
}

impl From<AllocError> for ResumeFault {
    ghost from_gives = { λ _ e. e ≡ Memory };

    fn from(_error: AllocError) -> Self {
        Self::Memory
    }
}
