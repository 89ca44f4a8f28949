//! A server is asked which nodes are in one shard.
ghost use Rattle.std.specs.Prelude.{Ok};
ghost use Rattle.server_shards.specs.Asking.{AsksShards, IsAnswered, IsShared};

use crate::shards::are_in_one;
use byte_streams::{ByteIn, ByteOut};
use cluster_views::SurveyFault;
use key_slots::NodeId;
use resp2_wire::Reply;
use server_links::{Link, ReplyLimit};
use std::alloc::Global;

/// The request of CLUSTER SHARDS.
const SHARDS_REQUEST: &[u8] = b"*2\r\n$7\r\nCLUSTER\r\n$6\r\nSHARDS\r\n";

/// Whether the nodes with these IDs are in one shard, as the server lists it (CLUSTER SHARDS). A server that gives no
/// answer, refuses or answers something else is at fault.
#[tactic(auto, unfolding(crate::specs::Asking::AsksShards))]
pub fn shares_shard<I: ByteIn + Drop, O: ByteOut + Drop>(
    alloc: Global,
    link: &mut Link<I, O>,
    node: NodeId,
    one: &[u8],
    other: &[u8],
) -> Result<bool, SurveyFault>
    ensures { IsShared (AsksShards (record { gave = I.gave; took = O.took })) node one.now other.now link.old result
        link.new }
{
    match link.ask(alloc, SHARDS_REQUEST, ReplyLimit::list()) {
        Ok(reply) => shared_in(&reply, node, one, other),
        Err(_) => Err(SurveyFault::NoAnswer(node)),
    }
}

/// What the reply says of the two.
fn shared_in(reply: &Reply, node: NodeId, one: &[u8], other: &[u8]) -> Result<bool, SurveyFault>
    ensures { IsAnswered node one.now other.now (Ok reply.now) result }
{
    match reply {
        Reply::Array(shards) => Ok(are_in_one(shards.get(), one, other)),
        Reply::Error(text) => Err(SurveyFault::of_error(node, text.get())),
        _ => Err(SurveyFault::Strange(node)),
    }
}
