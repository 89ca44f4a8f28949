use key_slots::{NodeId, Slot};

/// A slot that goes from its owner to another node.
#[derive(Clone, Copy)]
pub(crate) struct Transfer {
    pub(crate) slot: Slot,
    pub(crate) source: NodeId,
    pub(crate) target: NodeId,
}
