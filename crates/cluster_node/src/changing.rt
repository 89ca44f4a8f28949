//! A client's command in two steps: what it asks of the node, and the change itself.
ghost use Rattle.std.specs.Prelude.{◌≡◌, IfOk, OnOk, OnErr};
ghost use Rattle.store_commands.specs.Apply.{answer, apply};
ghost use Rattle.store_commands.specs.Memory.{MayTakeMemory, Writes};
ghost use Rattle.store_commands.specs.NoEmptyCollections.{HasNoEmptyCollection};
ghost use Rattle.client_commands.specs.Commands.{keys};
ghost use Rattle.slot_keyspace.specs.OneSlot.{AreInSlot};
ghost use Rattle.slot_marks.specs.declared.verdict.Verdict.TheVariants.{Serve};
ghost use Rattle.cluster_node.specs.Redirections.{redirection};
ghost use Rattle.cluster_node.specs.Nodes.{client_node, client_reply};
ghost use Rattle.cluster_node.specs.Memory.{HasWorkIn, ClientTakesMemory};
ghost use Rattle.cluster_node.specs.Changing.{CanBeDone, IsDone, IsPrepared, Makes, reply_in};

use crate::node::Node;
use crate::redirecting::redirection_reply;
use key_slots::{Slot, slot_of};
use resp2_wire::Reply;
use slot_marks::Verdict;
use std::alloc::AllocError;
use store_commands::{Change, Command};

/// The reply to a client's command, with what the node is still to do. Nothing is done before it is committed.
#[derive(Drop)]
pub enum NodeChange {
    /// The client is sent elsewhere, and nothing is to be done.
    Redirected(Reply),
    /// The command is served at the keys of its slot.
    Served(Slot, Change),
}

impl NodeChange {
    /// The reply that `commit` will hand out.
    pub fn reply(&self) -> &Reply
        ensures { result.now ≡ reply_in self.now }
    {
        match self {
            Self::Redirected(reply) => reply,
            Self::Served(_, change) => change.reply(),
        }
    }
}

impl Node {
    /// What a client's command, sent with ASKING or without, is answered, and what it asks of the node, which stays as
    /// it is.
    pub fn prepare_client(&self, asking: bool, command: &Command) -> Result<NodeChange, AllocError>
        ensures prepared { IfOk result (λ d. IsPrepared self.now asking command.now d) }
        ensures work { IfOk result (λ d. HasWorkIn d → Writes command.now) }
        ensures memory { OnErr result
            (ClientTakesMemory self.now.base_port self.now.me self.now.node asking command.now) }
    {
        let keys = command.keys();
        let slot = slot_of(keys[0].get());
        match self.verdict(slot, asking, keys)? {
            Verdict::Serve => self.prepare_served(slot, command),
            verdict => self.prepare_redirection(slot, verdict),
        }
    }

    fn prepare_served(&self, slot: Slot, command: &Command) -> Result<NodeChange, AllocError>
        requires { AreInSlot slot (keys command.now) }
        ensures reply { IfOk result (λ d. reply_in d ≡ answer self.now.node.held command.now) }
        ensures node { IfOk result
            (λ d. Makes d self.now.node (record self.now.node { held = apply self.now.node.held command.now })) }
        ensures whole { HasNoEmptyCollection (apply self.now.node.held command.now) }
        ensures work { IfOk result (λ d. HasWorkIn d → Writes command.now) }
        ensures memory { OnErr result (MayTakeMemory self.now.node.held command.now) }
    {
        Ok(NodeChange::Served(slot, self.held.prepare(slot, command)?))
    }

    fn prepare_redirection(&self, slot: Slot, verdict: Verdict) -> Result<NodeChange, AllocError>
        ensures reply { IfOk result (λ d. reply_in d ≡ redirection self.now.base_port slot verdict) }
        ensures node { IfOk result (λ d. Makes d self.now.node self.now.node) }
        ensures whole { HasNoEmptyCollection self.now.node.held }
        ensures work { IfOk result (λ d. HasWorkIn d → ⊥) }
    {
        Ok(NodeChange::Redirected(redirection_reply(self.alloc, self.base_port, slot, verdict)?))
    }

    /// Does what was prepared for this node as it stands, and hands out the reply. Where memory runs out nothing is
    /// changed.
    pub fn commit(&mut self, change: NodeChange) -> Result<Reply, AllocError>
        requires { CanBeDone change self.old.node }
        ensures reply { IfOk result (λ r. r ≡ reply_in change) }
        ensures ok { OnOk result (IsDone change self.old self.new) }
        ensures err { OnErr result (self.new ≡ self.old) }
        ensures memory { OnErr result (HasWorkIn change) }
    {
        match change {
            NodeChange::Redirected(reply) => Ok(reply),
            NodeChange::Served(slot, change) => self.held.commit(slot, change),
        }
    }

    /// NodeExact: a client's command, sent with ASKING or without: it is executed, or the client is sent elsewhere.
    /// Where memory runs out nothing is changed.
    pub fn client(&mut self, asking: bool, command: &Command) -> Result<Reply, AllocError>
        ensures reply { IfOk result
            (λ r. r ≡ client_reply self.old.base_port self.old.me self.old.node asking command.now) }
        ensures ok { OnOk result
            (self.new ≡ record self.old { node = client_node self.old.me self.old.node asking command.now }) }
        ensures err { OnErr result (self.new ≡ self.old) }
        ensures memory { OnErr result
            (ClientTakesMemory self.old.base_port self.old.me self.old.node asking command.now) }
    {
        let change = self.prepare_client(asking, command)?;
        self.commit(change)
    }
}
