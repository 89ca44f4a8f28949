ghost use Rattle.std.specs.Prelude.{◌≡◌, ◌≢◌, ◌<◌, ◌≤◌};
ghost use Rattle.client_commands.specs.Commands.{keys};
ghost use Rattle.cluster_world.specs.Ports.{Send};
ghost use Rattle.redirect_client.specs.Executions.{Executes};
ghost use Rattle.redirect_client.specs.Redirects.{IsKnown};
ghost use Rattle.redirect_client.specs.Turns.{call_to, slot_of_command, owners_after, destination, IsThere};

use crate::ask_pass::AskPass;
use crate::client_fault::ClientFault;
use crate::meaning::{Destination, Meaning, Redirect};
use crate::reading::meaning_of;
use cluster_world::{NodePort, PortFault};
use key_slots::{OwnerTable, Slot, slot_of};
use resp2_wire::Reply;
use std::marker::Model;
use store_commands::Command;

/// How often one command is sent at most.
const MAX_SENDS: u32 = 16;

/// A client that follows redirections: it knows the nodes of a cluster, and believes of each slot that one of them owns
/// it.
#[derive(Drop)]
pub struct Client {
    owners: OwnerTable,
    base_port: u16,
}

impl Model for Client {
    ghost use Rattle.std.specs.Prelude.{◌≤◌};
    ghost use Rattle.redirect_client.specs.ClientView.{ClientView, client_view_code};

    ghost Value = { ClientView };

    ghost coded = { client_view_code };

    ghost view = { λ c. record { owners = c.owners; base_port = c.base_port } };

    ghost invariant = { λ c. c.base_port ≤ 65528 };
}

impl Client {
    /// A client that believes in this table. The first node's port is `base_port`, at most 65,528, and each other's is
    /// higher by its number.
    pub fn new(owners: OwnerTable, base_port: u16) -> Self
        requires { base_port ≤ 65528 }
        ensures owners { result.owners ≡ owners }
        ensures port { result.base_port ≡ base_port }
    {
        Self { owners, base_port }
    }

    /// The owners that the client believes in.
    pub fn owners(&self) -> &OwnerTable
        ensures { result.now ≡ self.now.owners }
    {
        &self.owners
    }

    /// ClientFollows: sends the command to the slot's owner that the client believes in, and then where the replies
    /// say, until one is no redirection: that is the answer. A command of several slots goes by its first key's.
    ///
    /// MOVED corrects what the client believes, also where the command then fails. After a fault of the port nothing is
    /// sent any more. Takes no memory of its own.
    pub fn execute<P: NodePort>(
        &mut self,
        port: &mut P,
        command: &Command,
    ) -> Result<Reply, ClientFault>
        requires { self.old.owners.nodes ≤ P.NodeCount.count port.old }
        ensures executes { Executes (record { sends = P.sends; before = port.old; after = port.new }) self.old
            command.now result self.new }
        ensures nodes { self.new.owners.nodes ≡ self.old.owners.nodes }
        ensures count { P.NodeCount.count port.new ≡ P.NodeCount.count port.old }
    {
        let slot = slot_of_command(command);
        let mut next = Destination::Owner;
        for _ in 0..MAX_SENDS {
            let reply = self.send(port, command, slot, next)?;
            match meaning_of(&reply, self.base_port, self.owners.nodes(), slot) {
                Meaning::Answer => return Ok(reply),
                Meaning::Bad => return Err(ClientFault::BadRedirect),
                Meaning::Redirected(redirect) => next = self.learn(slot, redirect),
            }
        }
        Err(ClientFault::TooManySends)
    }

    /// Sends the command, of this slot, to where it goes next.
    fn send<P: NodePort>(
        &self,
        port: &mut P,
        command: &Command,
        slot: Slot,
        next: Destination,
    ) -> Result<Reply, PortFault>
        requires slot { slot ≡ slot_of_command command.now }
        requires nodes { self.now.owners.nodes ≤ P.NodeCount.count port.old }
        requires there { IsThere self.now.owners.nodes next }
        ensures sends { P.sends port.old
            (record { call = call_to command.now self.now.owners.owners next; answer = result }) port.new }
        ensures count { P.NodeCount.count port.new ≡ P.NodeCount.count port.old }
    {
        match next {
            Destination::Owner => port.send(self.owners.owner(slot), false, command),
            Destination::Asked(target) => AskPass::new(target, command).follow(port),
        }
    }

    /// Learns what the redirection of a command of the slot teaches, and says where the command goes next.
    fn learn(&mut self, slot: Slot, redirect: Redirect) -> Destination
        requires { IsKnown self.old.owners.nodes redirect }
        ensures next { result ≡ destination redirect }
        ensures learned { self.new ≡ record self.old { owners = owners_after self.old.owners slot redirect } }
    {
        match redirect {
            Redirect::Moved(owner) => {
                self.owners.set(slot, owner);
                Destination::Owner
            }
            Redirect::Ask(target) => Destination::Asked(target),
            Redirect::TryAgain => Destination::Owner,
        }
    }
}

/// The slot of the command, which is that of its first key.
fn slot_of_command(command: &Command) -> Slot
    ensures { result ≡ slot_of_command command.now }
{
    slot_of(command.keys()[0].get())
}
