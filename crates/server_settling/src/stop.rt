ghost use Rattle.std.specs.Prelude.{◌≡◌};
ghost use Rattle.server_settling.specs.Stops.{Accepts, IsRefused, IsUseless, stop_by};

use crate::fault::SettleFault;
use byte_texts::Text;
use key_slots::NodeId;
use resp2_wire::Reply;
use std::alloc::Global;

/// Why a slot is not settled, and the text of the server's error, if it was one.
#[derive(Drop)]
pub struct SettleStop {
    pub fault: SettleFault,
    pub said: Option<Text>,
}

/// A stop without a server's words.
pub(crate) fn stop_by(fault: SettleFault) -> SettleStop
    ensures { result ≡ stop_by fault }
{
    SettleStop { fault, said: None }
}

/// Why the reply of the node is of no use.
pub(crate) fn useless(alloc: Global, node: NodeId, reply: &Reply) -> SettleStop
    ensures { IsUseless node reply.now result }
{
    match reply {
        Reply::Error(text) => refused(alloc, node, text),
        _ => stop_by(SettleFault::Strange(node)),
    }
}

/// The node refused with this text.
fn refused(alloc: Global, node: NodeId, text: &Text) -> SettleStop
    ensures { IsRefused node text.now result }
{
    match text.try_copy(alloc) {
        Ok(said) => SettleStop {
            fault: SettleFault::Refused(node),
            said: Some(said),
        },
        Err(_) => stop_by(SettleFault::Memory),
    }
}

/// Continues where the reply of the node is a good one.
pub(crate) fn accept(
    alloc: Global,
    node: NodeId,
    reply: &Reply,
    is_good: bool,
) -> Result<(), SettleStop>
    ensures { Accepts is_good node reply.now result }
{
    if is_good {
        Ok(())
    } else {
        Err(useless(alloc, node, reply))
    }
}
