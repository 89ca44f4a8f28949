ghost use Rattle.std.specs.Prelude.{◌≡◌};
ghost use Rattle.reshard_planner.specs.declared.planner_fault.PlannerFault.TheVariants.{Memory};

use key_slots::Slot;
use std::alloc::AllocError;
use std::fmt;
use thiserror::Error;

/// Why there is no plan. The first that applies is reported, and out of memory last.
#[derive(Clone, Copy, Debug, PartialEq, Eq, Error)]
pub enum PlannerFault {
    /// No source is named.
    NoSource,
    /// The sources together do not hold so many slots.
    TooMany,
    /// The target is one of the sources.
    TargetIsSource,
    /// The weights of the nodes that take part sum to 0.
    NoWeight,
    /// Out of memory.
    Memory,
    /// The marks and owners of the slot are those of no phase: it can't be told how its move continues. It is the
    /// lowest such slot.
    StrangeMarks(Slot),
    /// No target is named, or no node is left that could be one.
    NoTarget,
}

/// The number and the name, as `1 NoSource` or `6 StrangeMarks slot 3300`.
impl fmt::Display for PlannerFault {
    ghost use Rattle.std.specs.Prelude.{Some};
    ghost use Rattle.reshard_planner.specs.Faults.{planner_fault_text};

    ghost output = { λ f. Some (planner_fault_text f) };

    fn fmt<W: fmt::Write>(&self, f: &mut fmt::Formatter<W>) -> fmt::Result {
        match self {
            Self::NoSource => write!(f, "1 NoSource"),
            Self::TooMany => write!(f, "2 TooMany"),
            Self::TargetIsSource => write!(f, "3 TargetIsSource"),
            Self::NoWeight => write!(f, "4 NoWeight"),
            Self::Memory => write!(f, "5 Memory"),
            Self::StrangeMarks(slot) => {
                let slot = slot.get();
                write!(f, "6 StrangeMarks slot {slot}")
            }
            Self::NoTarget => write!(f, "7 NoTarget"),
        }
    }
}

impl From<AllocError> for PlannerFault {
    ghost from_gives = { λ _ e. e ≡ Memory };

    fn from(_error: AllocError) -> Self {
        Self::Memory
    }
}
