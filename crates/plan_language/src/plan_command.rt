use key_slots::{NodeId, Slot};

/// One command of a plan, each slot's in the order of the page of CLUSTER SETSLOT.
#[derive(Clone, Copy)]
pub enum PlanCommand {
    /// `SETSLOT slot IMPORTING source` at the node `at`.
    Importing {
        slot: Slot,
        source: NodeId,
        at: NodeId,
    },
    /// `SETSLOT slot MIGRATING target` at the node `at`.
    Migrating {
        slot: Slot,
        target: NodeId,
        at: NodeId,
    },
    /// GETKEYSINSLOT of at most `batch` keys at the source, and MIGRATE of these to the target, until a listing is
    /// empty.
    Drain {
        slot: Slot,
        source: NodeId,
        target: NodeId,
        batch: u16,
    },
    /// `SETSLOT slot NODE owner` at the node `at`.
    SetNode {
        slot: Slot,
        owner: NodeId,
        at: NodeId,
    },
    /// `SETSLOT slot STABLE` at the node `at`, in a plan of version 3.
    Stable {
        slot: Slot,
        at: NodeId,
    },
}
