use crate::admin::{AdminCommand, AdminReply};
use key_slots::NodeId;

/// A call of the administrator with its reply, as its seat keeps it.
#[derive(Drop)]
pub struct AdminCall {
    pub node: NodeId,
    pub command: AdminCommand,
    pub reply: AdminReply,
}
