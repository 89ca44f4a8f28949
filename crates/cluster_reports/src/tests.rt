//! Texts and replies by hand, of a node's own marks in its own line alone.
use crate::{nodes_text, shards_reply, state_text};
use byte_texts::Memory;
use key_slots::{NodeId, OwnerTable, Slot};
use resp2_wire::encode;
use slot_marks::SlotTable;
use std::alloc::Global;
use std::test::Fail;

/// What n1 of two nodes has, with slot 9000 on its way to n0, and slot 7 on its way from there.
fn table(alloc: Global) -> Result<SlotTable, Memory> {
    let owners = OwnerTable::even(alloc, 2, 2)?;
    let mut table = SlotTable::new(alloc, NodeId::of(1), owners)?;
    let _ = table.set_migrating(Slot::of(9_000), NodeId::of(0));
    let _ = table.set_importing(Slot::of(7), NodeId::of(0));
    Ok(table)
}

const TOLD_NODES: &[u8] =
    b"0000000000000000000000000000000000000000 127.0.0.1:7000@17000 master - 0 0 1 connected 0-8191\n\
0000000000000000000000000000000000000001 127.0.0.1:7001@17001 myself,master - 0 0 2 connected 8192-16383 \
[7-<-0000000000000000000000000000000000000000] [9000->-0000000000000000000000000000000000000000]\n";

const TOLD_STATE: &[u8] =
    b"cluster_state:ok\r\ncluster_slots_assigned:16384\r\ncluster_slots_ok:16384\r\n\
cluster_slots_pfail:0\r\ncluster_slots_fail:0\r\ncluster_known_nodes:2\r\ncluster_size:2\r\n\
cluster_current_epoch:2\r\ncluster_my_epoch:2\r\ncluster_stats_messages_sent:0\r\n\
cluster_stats_messages_received:0\r\ntotal_cluster_links_buffer_limit_exceeded:0\r\n";

const TOLD_SHARDS: &[u8] = b"*2\r\n\
*4\r\n$5\r\nslots\r\n*2\r\n:0\r\n:8191\r\n$5\r\nnodes\r\n*1\r\n*14\r\n\
$2\r\nid\r\n$40\r\n0000000000000000000000000000000000000000\r\n\
$4\r\nport\r\n:7000\r\n$2\r\nip\r\n$9\r\n127.0.0.1\r\n\
$8\r\nendpoint\r\n$9\r\n127.0.0.1\r\n$4\r\nrole\r\n$6\r\nmaster\r\n\
$18\r\nreplication-offset\r\n:0\r\n$6\r\nhealth\r\n$6\r\nonline\r\n\
*4\r\n$5\r\nslots\r\n*2\r\n:8192\r\n:16383\r\n$5\r\nnodes\r\n*1\r\n*14\r\n\
$2\r\nid\r\n$40\r\n0000000000000000000000000000000000000001\r\n\
$4\r\nport\r\n:7001\r\n$2\r\nip\r\n$9\r\n127.0.0.1\r\n\
$8\r\nendpoint\r\n$9\r\n127.0.0.1\r\n$4\r\nrole\r\n$6\r\nmaster\r\n\
$18\r\nreplication-offset\r\n:0\r\n$6\r\nhealth\r\n$6\r\nonline\r\n";

#[test]
fn nodes_are_told(rt: HostRuntime) -> Result<(), Fail> {
    let table = table(rt.alloc())?;
    let text = nodes_text(rt.alloc(), 7_000, &table)?;
    assert_eq!(rt; text.get(), TOLD_NODES);
    Ok(())
}

/// The last of as many nodes as a cluster can have, at the highest ports: its id ends in two hexadecimal digits.
const TOLD_LAST: &[u8] =
    b"\n00000000000000000000000000000000000000fe 127.0.0.1:65782@0 myself,master - 0 0 255 connected 16320-16383\n";

fn last_table(alloc: Global) -> Result<SlotTable, Memory> {
    let owners = OwnerTable::even(alloc, 255, 255)?;
    SlotTable::new(alloc, NodeId::of(254), owners)
}

#[test]
fn the_last_node_is_told(rt: HostRuntime) -> Result<(), Fail> {
    let table = last_table(rt.alloc())?;
    let text = nodes_text(rt.alloc(), 65_528, &table)?;
    assert!(rt; text.get().ends_with(TOLD_LAST));
    Ok(())
}

#[test]
fn state_is_told(rt: HostRuntime) -> Result<(), Fail> {
    let table = table(rt.alloc())?;
    let text = state_text(rt.alloc(), &table)?;
    assert_eq!(rt; text.get(), TOLD_STATE);
    Ok(())
}

#[test]
fn shards_are_told(rt: HostRuntime) -> Result<(), Fail> {
    let table = table(rt.alloc())?;
    let reply = shards_reply(rt.alloc(), 7_000, &table)?;
    assert!(rt; reply.is_within_limits());
    let bytes = encode(rt.alloc(), &reply)?;
    assert_eq!(rt; bytes.as_slice(), TOLD_SHARDS);
    Ok(())
}
