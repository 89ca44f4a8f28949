//! The words in which faults of plans are told.

use crate::armed::ArmFault;
use crate::verify_fault::{CommandPlace, VerifyFault};
use std::fmt;

/// For example `slot 3300 command 1`.
impl fmt::Display for CommandPlace {
    ghost use Rattle.std.specs.Prelude.{Some};
    ghost use Rattle.plan_runner.specs.Faults.{place_text};

    ghost output = { λ p. Some (place_text p) };

    fn fmt<W: fmt::Write>(&self, f: &mut fmt::Formatter<W>) -> fmt::Result {
        let slot = self.slot.get();
        let command = self.command;
        write!(f, "slot {slot} command {command}")
    }
}

/// The number and the name before the place, as `2 NotOwner slot 3300 command 1`.
impl fmt::Display for VerifyFault {
    ghost use Rattle.std.specs.Prelude.{Some};
    ghost use Rattle.plan_runner.specs.Faults.{verify_fault_text};

    ghost output = { λ f. Some (verify_fault_text f) };

    fn fmt<W: fmt::Write>(&self, f: &mut fmt::Formatter<W>) -> fmt::Result {
        match self {
            Self::UnknownNode(place) => write!(f, "1 UnknownNode {place}"),
            Self::NotOwner(place) => write!(f, "2 NotOwner {place}"),
            Self::SameNode(place) => write!(f, "3 SameNode {place}"),
            Self::OutOfOrder(place) => write!(f, "4 OutOfOrder {place}"),
            Self::WrongNode(place) => write!(f, "5 WrongNode {place}"),
            Self::MovedTwice(place) => write!(f, "6 MovedTwice {place}"),
            Self::LeftOpen(place) => write!(f, "7 LeftOpen {place}"),
            Self::Memory => write!(f, "8 Memory"),
        }
    }
}

/// The number and the name.
impl fmt::Display for ArmFault {
    ghost use Rattle.std.specs.Prelude.{Some};
    ghost use Rattle.plan_runner.specs.Faults.{arm_fault_text};

    ghost output = { λ f. Some (arm_fault_text f) };

    fn fmt<W: fmt::Write>(&self, f: &mut fmt::Formatter<W>) -> fmt::Result {
        match self {
            Self::TableChanged => write!(f, "1 TableChanged"),
        }
    }
}
