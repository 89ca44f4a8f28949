//! Pages, written by hand.
ghost use Rattle.std.specs.Prelude.{◌<◌};

use crate::page;
use byte_texts::{Memory, Text};
use key_slots::{NodeId, Slot};
use plan_outlines::{
    CommandCounts, KeyLoad, NodeChange, NodeServer, PairChange, PlanOutline, RangeChange, SlotRun,
};
use std::alloc::Global;
use std::test::Fail;

const PAGE: &[u8] = b"slots by pair of nodes
  n0 -> n2       683 slots,       1234 keys
  n1 -> n2          1 slot,          1 key

nodes                     before               after
  n0              5461   33.33 %      4778   29.16 %
  n1                 1    0.00 %         0    0.00 %
  n2             10922   66.66 %     11606   70.83 %
n1 loses its last slot: its replicas may follow another master, and it may
become a replica.

servers
  n1 10.0.0.2:7001
     id b9f9f0ee1c3dbd2b0a40bc7a5e6c9bd0c0ad1a54
     keys unknown, bytes used unknown, limit unknown
  n0 127.0.0.1:7000
     id 07c37dfeb235213a872192d90877d0cd55635b91
     123456 keys, 1234567 bytes used of at most 2000000
     1205 KB used of at most 1953 KB

what goes where
      0-682        683 slots   n0 -> n2
   5461               1 slot   n1 -> n2

commands
      684 SETSLOT IMPORTING
      684 SETSLOT MIGRATING
      685 drains, in batches of 10 to 100 keys
     2052 SETSLOT NODE
        0 SETSLOT STABLE
    12345 calls at most, if no slot holds more keys than now
          when its move begins

slots that move more than once: 24, 100-120, 1000-1999, 4000-4999, 10000-10999,
  12000-12999
slots that move and come back: none

stopped half way
  1 slot stands open at most, at any time. This goes on:
  reshard resume --cluster 127.0.0.1:7000
";

const EMPTY_PAGE: &[u8] = b"slots by pair of nodes
  none

nodes                     before               after

what goes where
  none

commands
        0 SETSLOT IMPORTING
        0 SETSLOT MIGRATING
        0 drains
        0 SETSLOT NODE
        0 SETSLOT STABLE
        0 calls at most where slots hold no keys;
          each batch of keys takes two more

slots that move more than once: none
slots that move and come back: none

stopped half way
  0 slots stand open at most, at any time. This goes on:
  resume
";

const COUNTS: CommandCounts = CommandCounts {
    importing: 684,
    migrating: 684,
    drain: 685,
    node: 2052,
    stable: 0,
};

const NO_COUNTS: CommandCounts = CommandCounts {
    importing: 0,
    migrating: 0,
    drain: 0,
    node: 0,
    stable: 0,
};

fn range(first: u16, last: u16, before: u8, after: u8) -> RangeChange
    requires first { first < 16384 }
    requires last { last < 16384 }
    requires before { before < 8 }
    requires after { after < 8 }
{
    RangeChange {
        first: Slot::of(first),
        last: Slot::of(last),
        before: NodeId::of(before),
        after: NodeId::of(after),
    }
}

fn change(node: u8, before: u32, after: u32) -> NodeChange
    requires { node < 8 }
{
    NodeChange {
        node: NodeId::of(node),
        before,
        after,
    }
}

fn pair(source: u8, target: u8, slots: u32, keys: u64) -> PairChange
    requires source { source < 8 }
    requires target { target < 8 }
{
    PairChange {
        source: NodeId::of(source),
        target: NodeId::of(target),
        slots,
        keys,
    }
}

fn run(first: u16, last: u16) -> SlotRun
    requires first { first < 16384 }
    requires last { last < 16384 }
{
    SlotRun {
        first: Slot::of(first),
        last: Slot::of(last),
    }
}

fn ranges(alloc: Global) -> Result<Vec<RangeChange>, Memory> {
    Ok(vec![in alloc;
        range(0, 682, 0, 2),
        range(683, 5460, 0, 0),
        range(5461, 5461, 1, 2),
        range(5462, 16383, 2, 2),
    ]?)
}

fn nodes(alloc: Global) -> Result<Vec<NodeChange>, Memory> {
    Ok(vec![in alloc;
        change(0, 5461, 4778),
        change(1, 1, 0),
        change(2, 10922, 11606),
    ]?)
}

fn pairs(alloc: Global) -> Result<Vec<PairChange>, Memory> {
    Ok(vec![in alloc; pair(0, 2, 683, 1234), pair(1, 2, 1, 1)]?)
}

fn runs(alloc: Global) -> Result<Vec<SlotRun>, Memory> {
    Ok(vec![in alloc;
        run(24, 24),
        run(100, 120),
        run(1000, 1999),
        run(4000, 4999),
        run(10000, 10999),
        run(12000, 12999),
    ]?)
}

fn outline(alloc: Global) -> Result<PlanOutline, Memory> {
    let ranges = ranges(alloc)?;
    let nodes = nodes(alloc)?;
    let pairs = pairs(alloc)?;
    let moved_again = runs(alloc)?;
    Ok(PlanOutline {
        ranges,
        nodes,
        pairs,
        counts: COUNTS,
        least_batch: 10,
        most_batch: 100,
        moved_again,
        moved_back: Vec::new(alloc),
        most_open: 1,
        load: Some(KeyLoad {
            keys: 1235,
            calls: 12345,
        }),
    })
}

fn empty_outline(alloc: Global) -> PlanOutline {
    PlanOutline {
        ranges: Vec::new(alloc),
        nodes: Vec::new(alloc),
        pairs: Vec::new(alloc),
        counts: NO_COUNTS,
        least_batch: 0,
        most_batch: 0,
        moved_again: Vec::new(alloc),
        moved_back: Vec::new(alloc),
        most_open: 0,
        load: None,
    }
}

fn told(alloc: Global) -> Result<NodeServer, Memory> {
    let host = Text::from_slice(alloc, b"127.0.0.1")?;
    let name = Text::from_slice(alloc, b"07c37dfeb235213a872192d90877d0cd55635b91")?;
    Ok(NodeServer {
        node: NodeId::of(0),
        host,
        port: 7000,
        name,
        keys: Some(123456),
        used_memory: Some(1234567),
        max_memory: Some(2000000),
    })
}

fn untold(alloc: Global) -> Result<NodeServer, Memory> {
    let host = Text::from_slice(alloc, b"10.0.0.2")?;
    let name = Text::from_slice(alloc, b"b9f9f0ee1c3dbd2b0a40bc7a5e6c9bd0c0ad1a54")?;
    Ok(NodeServer {
        node: NodeId::of(1),
        host,
        port: 7001,
        name,
        keys: None,
        used_memory: None,
        max_memory: None,
    })
}

fn servers(alloc: Global) -> Result<Vec<NodeServer>, Memory> {
    let first = untold(alloc)?;
    let second = told(alloc)?;
    Ok(vec![in alloc; first, second]?)
}

const RESUME: &[u8] = b"reshard resume --cluster 127.0.0.1:7000";

fn whole_page(alloc: Global) -> Result<Vec<u8>, Memory> {
    let outline = outline(alloc)?;
    let servers = servers(alloc)?;
    page(alloc, &outline, servers.as_slice(), RESUME)
}

fn empty_page(alloc: Global) -> Result<Vec<u8>, Memory> {
    let outline = empty_outline(alloc);
    page(alloc, &outline, &[], b"resume")
}

#[test]
fn pages(rt: HostRuntime) -> Result<(), Fail> {
    assert!(rt; whole_page(rt.alloc())?.as_slice() == PAGE);
    assert!(rt; empty_page(rt.alloc())?.as_slice() == EMPTY_PAGE);
    Ok(())
}
