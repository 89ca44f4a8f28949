ghost use Rattle.std.specs.Prelude.{◌≡◌};
ghost use Rattle.cluster_node.specs.Admitting.{of_frame};
ghost use Rattle.cluster_node.specs.declared.admitting.AdmitFault.TheVariants.{Memory};

use migrate_frames::FrameFault;
use std::alloc::AllocError;
use std::fmt;
use thiserror::Error;

/// Why a node did not take the keys of a frame over. They are checked in the order 2, 4, 1.
#[derive(Clone, Copy, Debug, PartialEq, Eq, Error)]
pub enum AdmitFault {
    /// The node holds one of the keys.
    Busy = 1,
    /// The node has no importing mark of the slot.
    NotImporting = 2,
    /// Memory ran out.
    Memory = 3,
    /// The bytes are no frame, or a key in it is of another slot.
    BadFrame = 4,
}

impl fmt::Display for AdmitFault {
    ghost use Rattle.std.specs.Prelude.{Some};
    ghost use Rattle.cluster_node.specs.Faults.{admit_text_of};

    ghost output = { λ f. Some (admit_text_of f) };

    fn fmt<W: fmt::Write>(&self, f: &mut fmt::Formatter<W>) -> fmt::Result {
        match self {
            Self::Busy => write!(f, "the node holds one of the keys"),
            Self::NotImporting => write!(f, "the node has no importing mark of the slot"),
            Self::Memory => write!(f, "out of memory"),
            Self::BadFrame => write!(f, "the bytes are no frame of keys of the slot"),
        }
    }
}

impl From<AllocError> for AdmitFault {
    ghost from_gives = { λ _ e. e ≡ Memory };

    fn from(_error: AllocError) -> Self {
        Self::Memory
    }
}

impl From<FrameFault> for AdmitFault {
    ghost from_gives = { λ f e. e ≡ of_frame f };

    fn from(fault: FrameFault) -> Self {
        match fault {
            FrameFault::Memory => Self::Memory,
            _ => Self::BadFrame,
        }
    }
}
