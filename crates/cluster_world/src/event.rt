ghost use Rattle.std.specs.Prelude.{◌≡◌, IfOk};

use byte_texts::Memory;
use cluster_node::{AdminCommand, AdminReply};
use key_slots::NodeId;
use resp2_wire::Reply;
use std::alloc::Global;
use store_commands::Command;

/// A call at one node: a client's, with the number of its seat, or the administrator's.
#[derive(Drop)]
pub enum Action {
    /// A client's command, sent with ASKING or without.
    Client {
        seat: u8,
        node: NodeId,
        asking: bool,
        command: Command,
    },
    /// A client's CLUSTER SLOTS.
    Look {
        seat: u8,
        node: NodeId,
    },
    /// The administrator's command.
    Admin {
        node: NodeId,
        command: AdminCommand,
    },
}

/// A call with its reply.
pub enum Event {
    /// A client's command.
    Client {
        seat: u8,
        node: NodeId,
        asking: bool,
        command: Command,
        reply: Reply,
    },
    /// A client's CLUSTER SLOTS.
    Look {
        seat: u8,
        node: NodeId,
        reply: Reply,
    },
    /// The administrator's command.
    Admin {
        node: NodeId,
        command: AdminCommand,
        reply: AdminReply,
    },
}

/// Written out, so that a proof sees one call where such a value is dropped.
impl Drop for Event {
    fn drop(self) {
        match self {
            Self::Client {
                seat: _,
                node: _,
                asking: _,
                command,
                reply,
            } => {
                drop(command);
                drop(reply);
            }
            Self::Look {
                seat: _,
                node: _,
                reply,
            } => drop(reply),
            Self::Admin {
                node: _,
                command,
                reply,
            } => {
                drop(command);
                drop(reply);
            }
        }
    }
}

impl Event {
    /// An equal event of its own.
    pub fn try_copy(&self, alloc: Global) -> Result<Self, Memory>
        ensures { IfOk result (λ e. e ≡ self.now) }
    {
        match self {
            Self::Client {
                seat,
                node,
                asking,
                command,
                reply,
            } => Ok(Self::Client {
                seat: *seat,
                node: *node,
                asking: *asking,
                command: command.try_copy(alloc)?,
                reply: reply.try_copy(alloc)?,
            }),
            Self::Look { seat, node, reply } => Ok(Self::Look {
                seat: *seat,
                node: *node,
                reply: reply.try_copy(alloc)?,
            }),
            Self::Admin {
                node,
                command,
                reply,
            } => Ok(Self::Admin {
                node: *node,
                command: command.try_copy(alloc)?,
                reply: reply.try_copy(alloc)?,
            }),
        }
    }
}
