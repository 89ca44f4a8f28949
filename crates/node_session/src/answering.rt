ghost use Rattle.std.specs.Prelude.{◌≡◌, ◌<◌, length};
ghost use Rattle.node_session.specs.Talk.{Answers};

use crate::asked::want_of;
use crate::want::Want;
use cluster_world::{NodePort, PortFault};
use key_slots::NodeId;
use resp2_wire::{Reply, Request};
use std::alloc::Global;

/// SessionExact: the reply to one request that is not empty: the session's own, or the node's, to which a command goes
/// with ASKING or without. A request for which memory runs out before it is sent is answered so, and is not sent: the
/// slot of a key and CLUSTER SLOTS take none.
pub fn answer<P: NodePort>(
    alloc: Global,
    port: &mut P,
    node: NodeId,
    asking: bool,
    request: Request,
) -> Result<Reply, PortFault>
    requires there { node < P.NodeCount.count port.old }
    requires some { 0 < length request }
    ensures answers { Answers (record { sends = P.NodePort.sends; node = node; before = port.old; after = port.new })
        asking request result }
    ensures count { P.NodeCount.count port.new ≡ P.NodeCount.count port.old }
{
    match want_of(alloc, request) {
        Ok(Want::Here(reply)) => Ok(reply),
        Ok(Want::Slots) => port.look(node),
        Ok(Want::Stored(command)) => port.send_owned(node, asking, command),
        Err(_) => Err(PortFault::Memory),
    }
}
