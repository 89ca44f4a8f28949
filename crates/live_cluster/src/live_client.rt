//! A client's port to a running cluster.
ghost use Rattle.std.specs.Prelude.{◌≡◌, ◌<◌, ◌++◌, ◌∷◌, [], IfOk, OnErr, length};
ghost use Rattle.cluster_world.specs.declared.event.Event.TheVariants.{Client};

use crate::cluster::LiveCluster;
use crate::gate::Open;
use byte_texts::Memory;
use cluster_world::{NodeCount, NodePort, PortFault};
use key_slots::NodeId;
use resp2_wire::Reply;
use shared_trail::{ClientSeat, ClusterBrand};
use std::alloc::Global;
use std::sync::Wait;
use store_commands::Command;

/// A running cluster, as the client of one seat calls it. The seat is lent to it, and comes back.
pub struct LiveClient<'a, B: ClusterBrand, R: Wait> {
    cluster: &'a LiveCluster<B>,
    rt: &'a R,
    alloc: Global,
    seat: ClientSeat<B>,
}

/// Written out, so that a proof sees one call where such a value is dropped.
impl<B: ClusterBrand, R: Wait> Drop for LiveClient<'_, B, R> {
    fn drop(self) {
        let Self {
            cluster: _,
            rt: _,
            alloc: _,
            seat,
        } = self;
        drop(seat);
    }
}

impl<'a, B: ClusterBrand, R: Wait> LiveClient<'a, B, R> {
    /// A client that calls through this seat. A command that is lent is copied for the trail in the memory that is
    /// given, and one that is handed over is not copied.
    pub fn new(
        rt: &'a R,
        alloc: Global,
        cluster: &'a LiveCluster<B>,
        seat: ClientSeat<B>,
    ) -> LiveClient<'a, B, R>
        ensures { result.seat ≡ seat }
    {
        LiveClient {
            cluster,
            rt,
            alloc,
            seat,
        }
    }

    /// The seat, with the calls that were made.
    pub fn into_seat(self) -> ClientSeat<B>
        ensures { result ≡ self.entry.seat }
    {
        let LiveClient {
            cluster: _,
            rt: _,
            alloc: _,
            seat,
        } = self;
        seat
    }
}

impl<'a, B: ClusterBrand, R: Wait> NodeCount for LiveClient<'a, B, R> {
    ghost count = { λ _. length B.setup.opening.nodes };

    fn nodes(&self) -> u8 {
        self.cluster.nodes()
    }
}

/// A send that was answered stands at the end of the seat's list, and out of memory, the only fault, leaves the list.
impl<'a, B: ClusterBrand, R: Wait> NodePort for LiveClient<'a, B, R> {
    ghost use Rattle.live_cluster.specs.Sends.{IsListed};

    ghost sends = { λ p s q. IsListed p.seat s q.seat };

    ghost failures = { λ _. 0 };

    fn send(&mut self, node: NodeId, asking: bool, command: &Command) -> Result<Reply, PortFault> {
        let own = command.try_copy(self.alloc)?;
        Ok(self.call(node, asking, own)?)
    }

    fn send_owned(
        &mut self,
        node: NodeId,
        asking: bool,
        mut command: Command,
    ) -> Result<Reply, PortFault> {
        // The trail keeps the command for good, and is not to keep the room of whoever made it.
        command.shrink_to_fit();
        Ok(self.call(node, asking, command)?)
    }

    fn look(&mut self, node: NodeId) -> Result<Reply, PortFault> {
        Ok(self.cluster.look(self.rt, &mut self.seat, node)?)
    }
}

impl<'a, B: ClusterBrand, R: Wait> LiveClient<'a, B, R> {
    fn call(&mut self, node: NodeId, asking: bool, command: Command) -> Result<Reply, Memory>
        requires { node < length B.setup.opening.nodes }
        ensures call { IfOk result
            (λ r. self.new.seat
            ≡ (self.old.seat.0, self.old.seat.1 ++ Client self.old.seat.0 node asking command r ∷ [])) }
        ensures err { OnErr result (self.new.seat ≡ self.old.seat) }
    {
        self.cluster
            .call(self.rt, &mut self.seat, node, asking, command, &Open)
    }
}
