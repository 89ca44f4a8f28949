use cluster_admin::AdminCommand;
use key_slots::NodeId;

/// A command of the administrator, and the node that it goes to.
#[derive(Drop)]
pub struct Order {
    pub node: NodeId,
    pub command: AdminCommand,
}
