ghost use Rattle.std.specs.Prelude.{◌≡◌, ◌≢◌, ℕ, ◌<◌, Err};
ghost use Rattle.cluster_admin.specs.declared.port_fault.PortFault.TheVariants.{Io};

use cluster_admin::{NodeCount, PortFault};
use key_slots::NodeId;
use resp2_wire::Reply;
use store_commands::Command;

/// What a client calls nodes through.
///
/// A port is seen as a relation of one send: the port before, what was sent with its answer, and the port after. It
/// keeps no history.
pub trait NodePort: NodeCount {
    ghost use Rattle.cluster_world.specs.Ports.{Send, Execute, Look};

    /// From one state the port may answer so, and go on to another.
    ghost sends: { Self → Send → Self → Type 0 };

    /// A number that changes with each call in which the port's device fails or ends.
    ghost failures: { Self → ℕ };

    /// Sends the command to the node, with ASKING or without.
    fn send(&mut self, node: NodeId, asking: bool, command: &Command) -> Result<Reply, PortFault>
        requires { node < Self.NodeCount.count self.old }
        ensures sends { sends self.old (record { call = Execute node asking command.now; answer = result }) self.new }
        ensures failed { result ≡ Err Io → failures self.new ≢ failures self.old }
        ensures count { Self.NodeCount.count self.new ≡ Self.NodeCount.count self.old };

    /// Sends the command to the node, as [`send`](Self::send) does. A port that keeps commands takes it over.
    fn send_owned(
        &mut self,
        node: NodeId,
        asking: bool,
        command: Command,
    ) -> Result<Reply, PortFault>
        requires { node < Self.NodeCount.count self.old }
        ensures sends { sends self.old (record { call = Execute node asking command; answer = result }) self.new }
        ensures failed { result ≡ Err Io → failures self.new ≢ failures self.old }
        ensures count { Self.NodeCount.count self.new ≡ Self.NodeCount.count self.old }
    {
        self.send(node, asking, &command)
    }

    /// Sends CLUSTER SLOTS to the node.
    fn look(&mut self, node: NodeId) -> Result<Reply, PortFault>
        requires { node < Self.NodeCount.count self.old }
        ensures sends { sends self.old (record { call = Look node; answer = result }) self.new }
        ensures failed { result ≡ Err Io → failures self.new ≢ failures self.old }
        ensures count { Self.NodeCount.count self.new ≡ Self.NodeCount.count self.old };
}
