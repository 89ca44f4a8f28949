ghost use Rattle.std.specs.Prelude.{◌≡◌, IfOk, OnErr};
ghost use Rattle.cluster_admin.specs.Commands.{IsListing};

use byte_texts::{Memory, TextList};
use key_slots::{NodeId, Slot};
use slot_marks::SlotFault;
use std::alloc::Global;
use std::fmt;
use thiserror::Error;

/// Keys, as a listing gives them and a MIGRATE names them.
pub type KeyList = TextList;

/// A command of the administrator to one node (the pages of CLUSTER SETSLOT, CLUSTER GETKEYSINSLOT and MIGRATE).
#[derive(Drop)]
pub enum AdminCommand {
    /// `SETSLOT slot IMPORTING source`: keys of the slot are to come from there.
    Importing(Slot, NodeId),
    /// `SETSLOT slot MIGRATING target`: keys of the slot are to go there.
    Migrating(Slot, NodeId),
    /// `SETSLOT slot NODE owner`: the slot is the owner's.
    SetNode(Slot, NodeId),
    /// `SETSLOT slot STABLE`: the slot is on its way no more, neither elsewhere nor here.
    Stable(Slot),
    /// `GETKEYSINSLOT slot count`: the first keys of the slot, at most so many.
    KeysIn(Slot, u16),
    /// `MIGRATE keys target`: one to 1,000 distinct keys of one slot are to move there.
    Migrate(KeyList, NodeId),
}

impl AdminCommand {
    /// An equal command of its own.
    pub fn try_copy(&self, alloc: Global) -> Result<Self, Memory>
        ensures { IfOk result (λ c. c ≡ self.now) }
    {
        match self {
            Self::Importing(slot, source) => Ok(Self::Importing(*slot, *source)),
            Self::Migrating(slot, target) => Ok(Self::Migrating(*slot, *target)),
            Self::SetNode(slot, owner) => Ok(Self::SetNode(*slot, *owner)),
            Self::Stable(slot) => Ok(Self::Stable(*slot)),
            Self::KeysIn(slot, count) => Ok(Self::KeysIn(*slot, *count)),
            Self::Migrate(keys, target) => Ok(Self::Migrate(keys.try_copy(alloc)?, *target)),
        }
    }
}

/// What a node answers its administrator.
#[derive(Drop)]
pub enum AdminReply {
    /// The command was done.
    Ok,
    /// The node holds none of the keys that were to move.
    NoKey,
    /// The keys of a listing, ascending by their bytes.
    Keys(KeyList),
    /// Nothing was done.
    Refused(AdminFault),
}

impl AdminReply {
    /// An equal reply of its own. Only that of a listing takes memory.
    pub fn try_copy(&self, alloc: Global) -> Result<Self, Memory>
        ensures same { IfOk result (λ r. r ≡ self.now) }
        ensures memory { OnErr result (IsListing self.now) }
    {
        match self {
            Self::Ok => Ok(Self::Ok),
            Self::NoKey => Ok(Self::NoKey),
            Self::Keys(keys) => Ok(Self::Keys(keys.try_copy(alloc)?)),
            Self::Refused(fault) => Ok(Self::Refused(*fault)),
        }
    }
}

/// Why an administrator's command was refused.
#[derive(Clone, Copy, Debug, PartialEq, Eq, Error)]
pub enum AdminFault {
    /// The node does not own the slot that it is to hand over.
    NotOwner = 1,
    /// The node owns the slot that it is to take over.
    AlreadyOwner = 2,
    /// The cluster has no such node.
    UnknownNode = 3,
    /// The node owns the slot, is to give it up, and holds keys of it.
    KeysRemain = 4,
    /// The node itself is named where another one is wanted.
    SameNode = 6,
    /// The target holds one of the keys that were to move there.
    Busy = 7,
    /// The target has no importing mark of the slot.
    NotImporting = 8,
}

impl fmt::Display for AdminFault {
    ghost use Rattle.std.specs.Prelude.{Some};
    ghost use Rattle.cluster_admin.specs.Faults.{admin_text_of};

    ghost output = { λ f. Some (admin_text_of f) };

    fn fmt<W: fmt::Write>(&self, f: &mut fmt::Formatter<W>) -> fmt::Result {
        match self {
            Self::NotOwner => write!(f, "the node does not own the slot"),
            Self::AlreadyOwner => write!(f, "the node already owns the slot"),
            Self::UnknownNode => write!(f, "unknown node"),
            Self::KeysRemain => write!(f, "the node still holds keys of the slot"),
            Self::SameNode => write!(f, "the node itself is named"),
            Self::Busy => write!(f, "the target holds one of the keys"),
            Self::NotImporting => write!(f, "the target has no importing mark of the slot"),
        }
    }
}

impl From<SlotFault> for AdminFault {
    ghost use Rattle.cluster_admin.specs.Faults.{of_slot};

    ghost from_gives = { λ fault e. e ≡ of_slot fault };

    fn from(fault: SlotFault) -> Self {
        match fault {
            SlotFault::NotOwner => Self::NotOwner,
            SlotFault::AlreadyOwner => Self::AlreadyOwner,
            SlotFault::UnknownNode => Self::UnknownNode,
            SlotFault::KeysRemain => Self::KeysRemain,
            SlotFault::SameNode => Self::SameNode,
        }
    }
}
