ghost use Rattle.std.specs.Prelude.{◌≡◌};
ghost use Rattle.survey_files.specs.declared.file_fault.FileFault.TheVariants.{Memory};

use key_slots::{NodeId, Slot};
use node_names::NodeName;
use std::alloc::AllocError;
use std::fmt;
use thiserror::Error;

/// Why a text is no survey of a clean cluster, or not one of the nodes of a plan. The first line at fault decides, then
/// the first name, and then the slots.
#[derive(Clone, Copy, Error)]
pub enum FileFault {
    /// Out of memory.
    Memory,
    /// The line with this number, from 1, is none that a survey prints, or a node out of its turn.
    Line(usize),
    /// The line is a mark's, or says that slots are open.
    Open,
    /// The text ends before the line `clean`.
    NoEnd,
    /// The line is a node's with the ID of one above it.
    SameId(usize),
    /// The line lists more slots than the node above it owns by its own line.
    TooMany(usize),
    /// Fewer slots of the node are listed than it owns by its line.
    Unlisted(NodeId),
    /// No line has the ID that the plan gives to its node.
    MissingNode {
        node: NodeId,
        name: NodeName,
    },
    /// The plan's node has a number that none of so many masters has.
    BeyondMasters {
        node: NodeId,
        masters: u8,
    },
    /// The slot is listed twice.
    Twice {
        slot: Slot,
        first: NodeId,
        again: NodeId,
    },
    /// No node lists the slot. It is the lowest such slot.
    Nobody(Slot),
}

/// For example `line 3 is not a line of a survey`.
impl fmt::Display for FileFault {
    ghost use Rattle.std.specs.Prelude.{Some};
    ghost use Rattle.survey_files.specs.Faults.{fault_text};

    ghost output = { λ f. Some (fault_text f) };

    fn fmt<W: fmt::Write>(&self, f: &mut fmt::Formatter<W>) -> fmt::Result {
        match self {
            Self::Memory => write!(f, "out of memory"),
            Self::Line(line) => write!(f, "line {line} is not a line of a survey"),
            Self::Open => write!(f, "the survey is of an open cluster"),
            Self::NoEnd => write!(f, "the last line of the survey is not clean"),
            Self::SameId(line) => write!(f, "line {line} is a node with the ID of another"),
            Self::TooMany(line) => write!(f, "line {line} lists more slots than its node owns"),
            Self::Unlisted(node) => {
                write!(
                    f,
                    "not all slots of {node} are listed, as survey --full lists them"
                )
            }
            Self::MissingNode { node, name } => {
                write!(
                    f,
                    "{node} of the plan is {name}, which the survey does not have"
                )
            }
            Self::BeyondMasters { node, masters } => {
                write!(
                    f,
                    "{node} of the plan is beyond the {masters} masters of the survey: plan again"
                )
            }
            Self::Twice { slot, first, again } => {
                write!(f, "slot {slot} is listed at {first} and again at {again}")
            }
            Self::Nobody(slot) => write!(f, "slot {slot} is owned by nobody"),
        }
    }
}

/// The displayed text.
impl fmt::Debug for FileFault {
    fn fmt<W: fmt::Write>(&self, f: &mut fmt::Formatter<W>) -> fmt::Result {
        write!(f, "{self}")
    }
}

impl From<AllocError> for FileFault {
    ghost from_gives = { λ _ e. e ≡ Memory };

    fn from(_error: AllocError) -> Self {
        Self::Memory
    }
}
