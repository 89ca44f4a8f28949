//! Whether a failed master may take back the slots of its shard once it returns.
ghost use Rattle.server_shards.specs.Returning.{IsBy, MayTakeBack, asks_of};

use crate::asking::shares_shard;
use byte_streams::{ByteIn, ByteOut};
use cluster_views::SurveyFault;
use key_slots::NodeId;
use server_links::Link;
use server_versions::{ServerVersion, version_of};
use std::alloc::Global;

/// Whether the failed master with the other ID may take back the slots of the node, whose ID is the one, when it
/// returns with its nodes.conf: both are in one shard, and the node does not tell that it is of Redis. At Valkey the
/// failed one takes a slot that it still imports for its own as soon as it reads a packet of the slot's old source,
/// with a new config epoch, and with it all slots that it had.
pub fn may_take_back<I: ByteIn + Drop, O: ByteOut + Drop>(
    alloc: Global,
    link: &mut Link<I, O>,
    node: NodeId,
    one: &[u8],
    other: &[u8],
) -> Result<bool, SurveyFault>
    ensures { MayTakeBack (asks_of (record { gave = I.gave; took = O.took })) node one.now other.now link.old result
        link.new }
{
    match version_of(alloc, link, node) {
        Ok(version) => by_version(alloc, link, node, &version, one, other),
        Err(fault) => Err(fault),
    }
}

/// Whether the node, which is of this version, may take its slots back.
fn by_version<I: ByteIn + Drop, O: ByteOut + Drop>(
    alloc: Global,
    link: &mut Link<I, O>,
    node: NodeId,
    version: &ServerVersion,
    one: &[u8],
    other: &[u8],
) -> Result<bool, SurveyFault>
    ensures { IsBy (asks_of (record { gave = I.gave; took = O.took })) node version.now one.now other.now link.old
        result link.new }
{
    match version {
        ServerVersion::Redis(_) => Ok(false),
        _ => shares_shard(alloc, link, node, one, other),
    }
}
