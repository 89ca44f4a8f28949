ghost use Rattle.std.specs.Prelude.{◌≡◌, ◌<◌, length, IfOk};
ghost use Rattle.cluster_node.specs.Nodes.{look_reply};
ghost use Rattle.cluster_world.specs.Worlds.{node_at};

use crate::world::World;
use byte_texts::Memory;
use key_slots::{NodeId, OwnerTable};
use resp2_wire::Reply;

impl World {
    /// The owners of all slots, as the node sees them.
    pub fn owners(&self, node: NodeId) -> &OwnerTable
        requires { node < length self.now.nodes }
        ensures { result.now ≡ record { nodes = length self.now.nodes; owners = (node_at self.now node).owners } }
    {
        self.nodes[usize::from(node.get())].owners()
    }

    /// CLUSTER SLOTS at the node.
    pub fn look(&self, node: NodeId) -> Result<Reply, Memory>
        requires { node < length self.now.nodes }
        ensures { IfOk result (λ r. r ≡ look_reply self.now.base_port (node_at self.now node)) }
    {
        self.nodes[usize::from(node.get())].look()
    }
}
