//! Lines of JSON, written by hand.
ghost use Rattle.std.specs.Prelude.{◌<◌};

use crate::{json, refusal_json};
use byte_texts::{Memory, Text};
use key_slots::{NodeId, Slot};
use plan_outlines::{
    CommandCounts, KeyLoad, NodeChange, NodeServer, PairChange, PlanOutline, RangeChange, SlotRun,
};
use std::alloc::Global;
use std::test::Fail;

const LINE: &[u8] = b"{\"commands\":4105,\
\"counts\":{\"drain\":685,\"importing\":684,\"migrating\":684,\"node\":2052,\"stable\":0},\
\"keys_moved\":1235,\"least_batch\":10,\"most_batch\":100,\"most_calls\":12345,\"most_open\":1,\
\"moved_again\":[{\"first\":24,\"last\":24},{\"first\":100,\"last\":120},{\"first\":1000,\"last\":1999},\
{\"first\":4000,\"last\":4999},{\"first\":10000,\"last\":10999},{\"first\":12000,\"last\":12999}],\
\"moved_back\":[],\
\"moves\":[{\"first\":0,\"last\":682,\"source\":\"n0\",\"target\":\"n2\"},\
{\"first\":5461,\"last\":5461,\"source\":\"n1\",\"target\":\"n2\"}],\
\"nodes\":[{\"host\":\"127.0.0.1\",\"id\":\"07c37dfeb235213a872192d90877d0cd55635b91\",\"keys\":123456,\
\"loses_its_last_slot\":false,\"maxmemory\":2000000,\"node\":\"n0\",\"port\":7000,\
\"slots_after\":4778,\"slots_before\":5461,\"used_memory\":1234567},\
{\"host\":\"10.0.0.2\",\"id\":\"b9f9f0ee1c3dbd2b0a40bc7a5e6c9bd0c0ad1a54\",\"keys\":null,\
\"loses_its_last_slot\":true,\"maxmemory\":null,\"node\":\"n1\",\"port\":7001,\
\"slots_after\":0,\"slots_before\":1,\"used_memory\":null},\
{\"loses_its_last_slot\":false,\"node\":\"n2\",\"slots_after\":11606,\"slots_before\":10922}],\
\"pairs\":[{\"keys\":1234,\"slots\":683,\"source\":\"n0\",\"target\":\"n2\"},\
{\"keys\":1,\"slots\":1,\"source\":\"n1\",\"target\":\"n2\"}],\
\"resume\":\"reshard resume --cluster 127.0.0.1:7000\",\"verdict\":\"verified\"}\n";

const EMPTY_LINE: &[u8] = b"{\"commands\":0,\
\"counts\":{\"drain\":0,\"importing\":0,\"migrating\":0,\"node\":0,\"stable\":0},\
\"keys_moved\":null,\"least_batch\":0,\"most_batch\":0,\"most_calls\":null,\"most_open\":0,\
\"moved_again\":[],\"moved_back\":[],\"moves\":[],\"nodes\":[],\"pairs\":[],\
\"resume\":\"resume\",\"verdict\":\"verified\"}\n";

const COUNTS: CommandCounts = CommandCounts {
    importing: 684,
    migrating: 684,
    drain: 685,
    node: 2052,
    stable: 0,
};

const NO_COUNTS: CommandCounts = CommandCounts {
    importing: 0,
    migrating: 0,
    drain: 0,
    node: 0,
    stable: 0,
};

fn range(first: u16, last: u16, before: u8, after: u8) -> RangeChange
    requires first { first < 16384 }
    requires last { last < 16384 }
    requires before { before < 8 }
    requires after { after < 8 }
{
    RangeChange {
        first: Slot::of(first),
        last: Slot::of(last),
        before: NodeId::of(before),
        after: NodeId::of(after),
    }
}

fn change(node: u8, before: u32, after: u32) -> NodeChange
    requires { node < 8 }
{
    NodeChange {
        node: NodeId::of(node),
        before,
        after,
    }
}

fn pair(source: u8, target: u8, slots: u32, keys: u64) -> PairChange
    requires source { source < 8 }
    requires target { target < 8 }
{
    PairChange {
        source: NodeId::of(source),
        target: NodeId::of(target),
        slots,
        keys,
    }
}

fn run(first: u16, last: u16) -> SlotRun
    requires first { first < 16384 }
    requires last { last < 16384 }
{
    SlotRun {
        first: Slot::of(first),
        last: Slot::of(last),
    }
}

fn ranges(alloc: Global) -> Result<Vec<RangeChange>, Memory> {
    Ok(vec![in alloc;
        range(0, 682, 0, 2),
        range(683, 5460, 0, 0),
        range(5461, 5461, 1, 2),
        range(5462, 16383, 2, 2),
    ]?)
}

fn nodes(alloc: Global) -> Result<Vec<NodeChange>, Memory> {
    Ok(vec![in alloc;
        change(0, 5461, 4778),
        change(1, 1, 0),
        change(2, 10922, 11606),
    ]?)
}

fn pairs(alloc: Global) -> Result<Vec<PairChange>, Memory> {
    Ok(vec![in alloc; pair(0, 2, 683, 1234), pair(1, 2, 1, 1)]?)
}

fn runs(alloc: Global) -> Result<Vec<SlotRun>, Memory> {
    Ok(vec![in alloc;
        run(24, 24),
        run(100, 120),
        run(1000, 1999),
        run(4000, 4999),
        run(10000, 10999),
        run(12000, 12999),
    ]?)
}

fn outline(alloc: Global) -> Result<PlanOutline, Memory> {
    let ranges = ranges(alloc)?;
    let nodes = nodes(alloc)?;
    let pairs = pairs(alloc)?;
    let moved_again = runs(alloc)?;
    Ok(PlanOutline {
        ranges,
        nodes,
        pairs,
        counts: COUNTS,
        least_batch: 10,
        most_batch: 100,
        moved_again,
        moved_back: Vec::new(alloc),
        most_open: 1,
        load: Some(KeyLoad {
            keys: 1235,
            calls: 12345,
        }),
    })
}

fn empty_outline(alloc: Global) -> PlanOutline {
    PlanOutline {
        ranges: Vec::new(alloc),
        nodes: Vec::new(alloc),
        pairs: Vec::new(alloc),
        counts: NO_COUNTS,
        least_batch: 0,
        most_batch: 0,
        moved_again: Vec::new(alloc),
        moved_back: Vec::new(alloc),
        most_open: 0,
        load: None,
    }
}

fn told(alloc: Global) -> Result<NodeServer, Memory> {
    let host = Text::from_slice(alloc, b"127.0.0.1")?;
    let name = Text::from_slice(alloc, b"07c37dfeb235213a872192d90877d0cd55635b91")?;
    Ok(NodeServer {
        node: NodeId::of(0),
        host,
        port: 7000,
        name,
        keys: Some(123456),
        used_memory: Some(1234567),
        max_memory: Some(2000000),
    })
}

fn untold(alloc: Global) -> Result<NodeServer, Memory> {
    let host = Text::from_slice(alloc, b"10.0.0.2")?;
    let name = Text::from_slice(alloc, b"b9f9f0ee1c3dbd2b0a40bc7a5e6c9bd0c0ad1a54")?;
    Ok(NodeServer {
        node: NodeId::of(1),
        host,
        port: 7001,
        name,
        keys: None,
        used_memory: None,
        max_memory: None,
    })
}

fn servers(alloc: Global) -> Result<Vec<NodeServer>, Memory> {
    let first = untold(alloc)?;
    let second = told(alloc)?;
    Ok(vec![in alloc; first, second]?)
}

const RESUME: &[u8] = b"reshard resume --cluster 127.0.0.1:7000";

fn whole_line(alloc: Global) -> Result<Vec<u8>, Memory> {
    let outline = outline(alloc)?;
    let servers = servers(alloc)?;
    json(alloc, &outline, servers.as_slice(), 4105, RESUME)
}

fn empty_line(alloc: Global) -> Result<Vec<u8>, Memory> {
    let outline = empty_outline(alloc);
    json(alloc, &outline, &[], 0, b"resume")
}

#[test]
fn lines(rt: HostRuntime) -> Result<(), Fail> {
    assert!(rt; whole_line(rt.alloc())?.as_slice() == LINE);
    assert!(rt; empty_line(rt.alloc())?.as_slice() == EMPTY_LINE);
    Ok(())
}

#[test]
fn refusals(rt: HostRuntime) -> Result<(), Fail> {
    let line = refusal_json(rt.alloc(), "line 3: no \"plan\"")?;
    let wanted: &[u8] = b"{\"reason\":\"line 3: no \\\"plan\\\"\",\"verdict\":\"refused\"}\n";
    assert!(rt; line.as_slice() == wanted);
    Ok(())
}
