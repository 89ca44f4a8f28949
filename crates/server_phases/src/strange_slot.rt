ghost use Rattle.std.specs.Prelude.{◌≡◌};

use crate::strangeness::Strangeness;
use key_slots::Slot;
use std::fmt;

/// A slot that is in no phase, and why.
#[derive(Clone, Copy, Debug, PartialEq, Eq)]
pub struct StrangeSlot {
    pub slot: Slot,
    pub strangeness: Strangeness,
}

/// What stands at the slot, and what to do by hand, as `slot 24 migrates from n0 to n1, which does not import it:
/// CLUSTER SETSLOT 24 IMPORTING with n0's ID at n1, and survey again`.
impl fmt::Display for StrangeSlot {
    ghost use Rattle.std.specs.Prelude.{Some};
    ghost use Rattle.server_phases.specs.Faults.{strange_text};

    ghost output = { λ x. Some (strange_text x.slot x.strangeness) };

    fn fmt<W: fmt::Write>(&self, f: &mut fmt::Formatter<W>) -> fmt::Result {
        let standing = self.standing();
        let remedy = self.remedy();
        write!(f, "{standing}: {remedy}")
    }
}

impl StrangeSlot {
    /// What stands there.
    fn standing(&self) -> Standing
        ensures { result ≡ record { slot = self.now.slot; strangeness = self.now.strangeness } }
    {
        let StrangeSlot { slot, strangeness } = *self;
        Standing { slot, strangeness }
    }

    /// What is to be done by hand.
    fn remedy(&self) -> Remedy
        ensures { result ≡ record { slot = self.now.slot; strangeness = self.now.strangeness } }
    {
        let StrangeSlot { slot, strangeness } = *self;
        Remedy { slot, strangeness }
    }
}

/// What stands at a slot.
#[derive(Clone, Copy)]
struct Standing {
    slot: Slot,
    strangeness: Strangeness,
}

/// What is to be done by hand.
#[derive(Clone, Copy)]
struct Remedy {
    slot: Slot,
    strangeness: Strangeness,
}

/// For example `slot 24 migrates from n0 to n1, which does not import it`, or `n3 has no slots and a mark of slot 24`.
impl fmt::Display for Standing {
    ghost use Rattle.std.specs.Prelude.{Some};
    ghost use Rattle.server_phases.specs.Faults.{standing_text};

    ghost output = { λ x. Some (standing_text x.slot x.strangeness) };

    fn fmt<W: fmt::Write>(&self, f: &mut fmt::Formatter<W>) -> fmt::Result {
        let Standing { slot, strangeness } = *self;
        match strangeness.without_slots() {
            Some(at) => write!(f, "{at} has no slots and a mark of slot {slot}"),
            None => write!(f, "slot {slot} {strangeness}"),
        }
    }
}

/// For example `CLUSTER SETSLOT 24 IMPORTING with n0's ID at n1, and survey again`.
impl fmt::Display for Remedy {
    ghost use Rattle.std.specs.Prelude.{Some};
    ghost use Rattle.server_phases.specs.Faults.{remedy_text};

    ghost output = { λ x. Some (remedy_text x.slot x.strangeness) };

    fn fmt<W: fmt::Write>(&self, f: &mut fmt::Formatter<W>) -> fmt::Result {
        let Remedy { slot, strangeness } = *self;
        match strangeness {
            Strangeness::TwoMigrate { .. } => write!(
                f,
                "CLUSTER SETSLOT {slot} STABLE at the one that does not own it, and survey again"
            ),
            Strangeness::TwoImport { .. } => write!(
                f,
                "CLUSTER SETSLOT {slot} STABLE at the one that holds no key of it, and survey again"
            ),
            Strangeness::TwoOwners { .. } => write!(
                f,
                "CLUSTER SETSLOT {slot} NODE with the ID of the node that holds its keys, at that node first"
            ),
            Strangeness::WithoutSlots { owner, at } => write!(
                f,
                "CLUSTER SETSLOT {slot} STABLE at {at}, then CLUSTER REPLICATE with {owner}'s ID \
                 if {owner} has replaced it, and survey again"
            ),
            Strangeness::Crossed { .. } => write!(
                f,
                "CLUSTER SETSLOT {slot} STABLE at each that holds no key of it, and survey again"
            ),
            Strangeness::NotImported { source, target } => write!(
                f,
                "CLUSTER SETSLOT {slot} IMPORTING with {source}'s ID at {target}, and survey again"
            ),
            Strangeness::StrayMigrating { at, .. } => write!(
                f,
                "CLUSTER SETSLOT {slot} STABLE at {at}, and survey again"
            ),
            Strangeness::OtherSource { owner, at, .. } => write!(
                f,
                "CLUSTER SETSLOT {slot} IMPORTING with {owner}'s ID at {at}, \
                 then MIGRATING with {at}'s ID at {owner}, and survey again"
            ),
            Strangeness::OwnerImports { owner } => write!(
                f,
                "CLUSTER SETSLOT {slot} STABLE at {owner}, and survey again"
            ),
        }
    }
}
