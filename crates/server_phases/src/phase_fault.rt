ghost use Rattle.std.specs.Prelude.{◌≡◌};
ghost use Rattle.server_phases.specs.declared.phase_fault.PhaseFault.TheVariants.{Memory};

use crate::strange_slot::StrangeSlot;
use crate::strangeness::Strangeness;
use key_slots::Slot;
use std::alloc::AllocError;
use std::fmt;
use thiserror::Error;

/// Why a survey of servers is none of the model.
#[derive(Clone, Copy, Debug, PartialEq, Eq, Error)]
pub enum PhaseFault {
    /// Out of memory.
    Memory,
    /// The slot is in no phase, by this. It is the lowest such slot.
    Strange(Slot, Strangeness),
}

/// What to do by hand.
impl fmt::Display for PhaseFault {
    ghost use Rattle.std.specs.Prelude.{Some};
    ghost use Rattle.server_phases.specs.Faults.{fault_text};

    ghost output = { λ f. Some (fault_text f) };

    fn fmt<W: fmt::Write>(&self, f: &mut fmt::Formatter<W>) -> fmt::Result {
        match *self {
            Self::Memory => write!(f, "out of memory"),
            Self::Strange(slot, strangeness) => {
                let strange = StrangeSlot { slot, strangeness };
                write!(f, "{strange}")
            }
        }
    }
}

impl From<AllocError> for PhaseFault {
    ghost from_gives = { λ _ e. e ≡ Memory };

    fn from(_error: AllocError) -> Self {
        Self::Memory
    }
}
