ghost use Rattle.std.specs.Prelude.{◌≡◌};

use byte_streams::Failed;
use std::alloc::{AllocError, AllocFailed};
use std::fmt;
use thiserror::Error;

/// What is wrong with a line of a script. It ends the rehearsal.
#[derive(Clone, Copy, Debug, PartialEq, Eq, Error)]
pub enum ScriptFault {
    /// The first line opens no cluster.
    NoCluster = 1,
    /// The line has none of the forms that a line may have.
    Verb = 2,
    /// A word that should name a node of the cluster does not.
    Node = 3,
    /// A number is none, or out of its range.
    Number = 4,
    /// A word has a bad escape or is too long, there are too many of them, or the keys of a `migrate` line are no
    /// batch.
    Word = 5,
    /// The administrator's seat is with a plan, or no plan is armed.
    Seat = 6,
}

/// The number and the name, as `2 Verb`.
impl fmt::Display for ScriptFault {
    ghost use Rattle.std.specs.Prelude.{Some};
    ghost use Rattle.script_lines.specs.Faults.{text_of};

    ghost output = { λ f. Some (text_of f) };

    fn fmt<W: fmt::Write>(&self, f: &mut fmt::Formatter<W>) -> fmt::Result {
        match self {
            Self::NoCluster => write!(f, "1 NoCluster"),
            Self::Verb => write!(f, "2 Verb"),
            Self::Node => write!(f, "3 Node"),
            Self::Number => write!(f, "4 Number"),
            Self::Word => write!(f, "5 Word"),
            Self::Seat => write!(f, "6 Seat"),
        }
    }
}

/// Why a rehearsal ends before its script does.
#[derive(Clone, Copy, Debug, PartialEq, Eq, Error)]
pub enum Halt {
    /// A line is no line of a script.
    Fault(ScriptFault),
    /// Memory ran out.
    Memory,
    /// A read or a write failed.
    Failed,
}

impl fmt::Display for Halt {
    ghost use Rattle.std.specs.Prelude.{Some};
    ghost use Rattle.script_lines.specs.Faults.{text_of_halt};

    ghost output = { λ h. Some (text_of_halt h) };

    fn fmt<W: fmt::Write>(&self, f: &mut fmt::Formatter<W>) -> fmt::Result {
        match self {
            Self::Fault(fault) => write!(f, "{fault}"),
            Self::Memory => write!(f, "out of memory"),
            Self::Failed => write!(f, "a read or a write failed"),
        }
    }
}

impl From<AllocError> for Halt {
    ghost use Rattle.script_lines.specs.declared.fault.Halt.TheVariants.{Memory};

    ghost from_gives = { λ _ e. e ≡ Memory };

    fn from(_error: AllocError) -> Self {
        Self::Memory
    }
}

impl<T: Drop> From<AllocFailed<T>> for Halt {
    ghost use Rattle.script_lines.specs.declared.fault.Halt.TheVariants.{Memory};

    ghost from_gives = { λ _ e. e ≡ Memory };

    fn from(_error: AllocFailed<T>) -> Self {
        Self::Memory
    }
}

impl From<Failed> for Halt {
    ghost use Rattle.script_lines.specs.declared.fault.Halt.TheVariants.{Failed};

    ghost from_gives = { λ _ e. e ≡ Failed };

    fn from(_error: Failed) -> Self {
        Self::Failed
    }
}

impl From<ScriptFault> for Halt {
    ghost use Rattle.script_lines.specs.declared.fault.Halt.TheVariants.{Fault};

    ghost from_gives = { λ f e. e ≡ Fault f };

    fn from(fault: ScriptFault) -> Self {
        Self::Fault(fault)
    }
}
