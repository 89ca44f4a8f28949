ghost use Rattle.std.specs.Prelude.{◌≡◌, ◌<◌, true};
ghost use Rattle.cluster_world.specs.Ports.{Execute};

use cluster_world::{NodePort, PortFault};
use key_slots::NodeId;
use resp2_wire::Reply;
use store_commands::Command;

/// The right to send one command to one node with ASKING, once: what an ASK gives.
///
/// It can't be dropped or copied, and only [`AskPass::follow`] spends it.
pub struct AskPass<'a> {
    target: NodeId,
    command: &'a Command,
}

impl<'a> AskPass<'a> {
    /// The right that an ASK to this node gives for the command that it answered.
    pub(crate) fn new(target: NodeId, command: &'a Command) -> Self
        ensures target { result.target ≡ target }
        ensures command { result.command.now ≡ command.now }
    {
        Self { target, command }
    }

    /// Sends the command to the node with ASKING.
    pub fn follow<P: NodePort>(self, port: &mut P) -> Result<Reply, PortFault>
        requires { self.target < P.NodeCount.count port.old }
        ensures sends { P.sends port.old
            (record { call = Execute self.entry.target true self.entry.command.now; answer = result }) port.new }
        ensures count { P.NodeCount.count port.new ≡ P.NodeCount.count port.old }
    {
        let AskPass { target, command } = self;
        port.send(target, true, command)
    }
}
