//! Of which slot's owner nodes are told.
ghost use Rattle.std.specs.Prelude.{◌≡◌, ◌≢◌, IfSome};
ghost use Rattle.cluster_admin.specs.declared.admin.AdminCommand.TheVariants.{SetNode};
ghost use Rattle.server_runs.specs.InOneGo.{owner_told_at};

use cluster_admin::AdminCommand;
use key_slots::{NodeId, Slot};
use plan_runner::Order;

/// A slot and its owner, of which other nodes are told.
#[derive(Drop)]
pub struct SlotOwner {
    pub slot: Slot,
    pub owner: NodeId,
}

impl SlotOwner {
    /// Of which slot's owner the command tells its node, if the node is another one.
    pub(crate) fn of(order: &Order) -> Option<Self>
        ensures value { result ≡ owner_told_at order.now.node order.now.command }
        ensures tells { IfSome result
            (λ x. (order.now.command ≡ SetNode x.slot x.owner) × (order.now.node ≢ x.owner)) }
    {
        match &order.command {
            AdminCommand::SetNode(slot, owner) if owner.get() != order.node.get() => Some(Self {
                slot: *slot,
                owner: *owner,
            }),
            _ => None,
        }
    }

    /// The command that tells the node.
    pub(crate) fn order_at(&self, node: NodeId) -> Order
        ensures { result ≡ record { node = node; command = SetNode self.now.slot self.now.owner } }
    {
        Order {
            node,
            command: AdminCommand::SetNode(self.slot, self.owner),
        }
    }

    /// A copy of the slot and its owner, for who keeps them.
    pub(crate) fn same(&self) -> Self
        ensures { result ≡ self.now }
    {
        Self {
            slot: self.slot,
            owner: self.owner,
        }
    }
}
