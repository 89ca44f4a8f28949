ghost use Rattle.std.specs.Prelude.{◌≡◌, ◌<◌, length, IfOk};
ghost use Rattle.node_session.specs.Requests.{unknown_command};
ghost use Rattle.rehearsal.specs.Answering.{IsReplied};
ghost use Rattle.cluster_world.specs.RecordedPorts.{IsHeld};

use byte_texts::{Memory, Text};
use cluster_world::RecordedWorld;
use key_slots::NodeId;
use node_session::answer;
use resp2_wire::{Reply, Request};
use script_lines::Halt;
use std::alloc::Global;

/// The reply of a node to a script's request, from seat 0, sent with ASKING or without: that of a session, but a script
/// puts ASKING in the verb of its line, so the request ASKING is unknown. A world's nodes are always reached, so there
/// is a reply but where memory runs out. A call of the node waits to be put on the trail with this reply.
pub fn reply_to(
    alloc: Global,
    recorded: &mut RecordedWorld,
    node: NodeId,
    asking: bool,
    request: Request,
) -> Result<Reply, Halt>
    requires { node < length recorded.old.world.nodes }
    ensures replied { IsReplied
        (record { sends = IsHeld; node = node; before = recorded.old; after = recorded.new }) asking request result }
    ensures count { length recorded.new.world.nodes ≡ length recorded.old.world.nodes }
{
    let Some(word) = request.get().first() else {
        return Ok(unknown_command(alloc)?);
    };
    if word.get().eq_ignore_ascii_case(b"asking") {
        return Ok(unknown_command(alloc)?);
    }
    answer(alloc, recorded, node, asking, request).map_err(|_| Halt::Memory)
}

fn unknown_command(alloc: Global) -> Result<Reply, Memory>
    ensures { IfOk result (λ r. r ≡ unknown_command) }
{
    Ok(Reply::Error(Text::from_slice(alloc, b"ERR unknown command")?))
}
