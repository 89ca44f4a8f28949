//! Tests of the picture: its text, by hand.
use crate::frames::put_node_hatching;
use crate::words::put_summary;
use crate::{OpenSlot, drawing, now_drawing};
use byte_texts::Memory;
use key_slots::{NodeId, Slot};
use plan_outlines::{CommandCounts, NodeChange, PairChange, PlanOutline, RangeChange};
use std::alloc::Global;
use std::test::Fail;

fn range(first: u16, last: u16, before: u8, after: u8) -> Option<RangeChange> {
    Some(RangeChange {
        first: Slot::new(u64::from(first))?,
        last: Slot::new(u64::from(last))?,
        before: NodeId::new(u64::from(before))?,
        after: NodeId::new(u64::from(after))?,
    })
}

/// From three nodes to four.
const RANGES: &[(u16, u16, u8, u8)] = &[
    (0, 4095, 0, 0),
    (4096, 5460, 0, 3),
    (5461, 9556, 1, 1),
    (9557, 10922, 1, 3),
    (10923, 15018, 2, 2),
    (15019, 16383, 2, 3),
];

const NODES: &[(u8, u32, u32)] = &[
    (0, 5461, 4096),
    (1, 5462, 4096),
    (2, 5461, 4096),
    (3, 0, 4096),
];

const PAIRS: &[(u8, u8, u32)] = &[(1, 3, 1366), (0, 3, 1365), (2, 3, 1365)];

fn ranges(alloc: Global) -> Result<Vec<RangeChange>, Memory> {
    let mut ranges = Vec::new(alloc);
    for &(first, last, before, after) in RANGES {
        if let Some(range) = range(first, last, before, after) {
            ranges.push(range)?;
        }
    }
    Ok(ranges)
}

fn nodes(alloc: Global) -> Result<Vec<NodeChange>, Memory> {
    let mut nodes = Vec::new(alloc);
    for &(node, before, after) in NODES {
        if let Some(node) = NodeId::new(u64::from(node)) {
            nodes.push(NodeChange {
                node,
                before,
                after,
            })?;
        }
    }
    Ok(nodes)
}

fn pair(source: u8, target: u8, slots: u32) -> Option<PairChange> {
    Some(PairChange {
        source: NodeId::new(u64::from(source))?,
        target: NodeId::new(u64::from(target))?,
        slots,
        keys: 0,
    })
}

fn pairs(alloc: Global) -> Result<Vec<PairChange>, Memory> {
    let mut pairs = Vec::new(alloc);
    for &(source, target, slots) in PAIRS {
        if let Some(pair) = pair(source, target, slots) {
            pairs.push(pair)?;
        }
    }
    Ok(pairs)
}

fn outline(alloc: Global) -> Result<PlanOutline, Memory> {
    let counts = CommandCounts {
        importing: 0,
        migrating: 0,
        drain: 0,
        node: 0,
        stable: 0,
    };
    Ok(PlanOutline {
        ranges: ranges(alloc)?,
        nodes: nodes(alloc)?,
        pairs: pairs(alloc)?,
        counts,
        least_batch: 0,
        most_batch: 0,
        moved_again: Vec::new(alloc),
        moved_back: Vec::new(alloc),
        most_open: 0,
        load: None,
    })
}

/// What stands in the picture of that plan.
const PARTS: &[&str] = &[
    "<title id=\"title\">The plan moves 4096 slots between 4 nodes.</title>\n",
    "<desc id=\"desc\">n0: 5461 slots before, 4096 after. n1: 5462 slots before, 4096 after. ",
    "n3: 0 slots before, 4096 after. n1 to n3: 1366 slots. n0 to n3: 1365 slots. ",
    "<rect class=\"band\" y=\"346\" width=\"16384\" height=\"22\"/>\n",
    "<path class=\"ribbon node-0\" d=\"M4096 22H5461V346H4096Z\" data-source=\"n0\" data-target=\"n3\"",
    " data-first=\"4096\" data-last=\"5460\"><title>n0 to n3: slots 4096-5460 (1365)</title></path>\n",
    "<rect class=\"node-0\" x=\"4096\" y=\"0\" width=\"1365\" height=\"22\" data-node=\"n0\" data-first=\"4096\"",
    " data-last=\"5460\" data-when=\"before\"><title>n0: slots 4096-5460 (1365)</title></rect>\n",
    "<rect class=\"node-3\" x=\"4096\" y=\"346\" width=\"1365\" height=\"22\" data-node=\"n3\" data-first=\"4096\"",
    " data-last=\"5460\" data-when=\"after\"><title>n3: slots 4096-5460 (1365)</title></rect>\n",
    "<text class=\"count\" x=\"352\" y=\"272\">1365</text>\n",
    "<tspan x=\"110\">n1 &#8594; n3&#160; 1366 slots</tspan>\n",
];

#[test]
fn a_plan_is_drawn(rt: HostRuntime) -> Result<(), Fail> {
    let text = drawing(rt.alloc(), &outline(rt.alloc())?)?;
    let text = String::from_utf8(text)?;
    for part in PARTS {
        assert!(rt; text.contains(*part), "{part}");
    }
    Ok(())
}

/// What stands in the picture of one open slot.
const OPEN_PARTS: &[&str] = &[
    "<text class=\"head\" x=\"90\" y=\"36\">The cluster has 4 nodes. Slots that stand open: 1.</text>\n",
    "<desc id=\"desc\">n0: 5461 slots. n1: 5462 slots. n2: 5461 slots. n3: 0 slots. slot 24: from n0 to n1. </desc>\n",
    " data-last=\"5460\" data-when=\"now\"><title>n0: slots 4096-5460 (1365)</title></rect>\n",
    "<path class=\"open\" d=\"M24 0v22\" data-slot=\"24\" data-source=\"n0\" data-target=\"n1\">",
    "<title>slot 24: from n0 to n1</title></path>\n",
    "<tspan x=\"90\" dy=\"22\">A plan to resume would finish these slots:</tspan>\n",
    "<tspan x=\"110\">slot 24: from n0 to n1</tspan>\n",
];

#[test]
fn an_open_slot_is_drawn(rt: HostRuntime) -> Result<(), Fail> {
    let ranges = ranges(rt.alloc())?;
    let nodes = nodes(rt.alloc())?;
    let open = OpenSlot {
        slot: Slot::of(24),
        source: NodeId::of(0),
        target: NodeId::of(1),
    };
    let text = now_drawing(rt.alloc(), ranges.as_slice(), nodes.as_slice(), &[open])?;
    let text = String::from_utf8(text)?;
    for part in OPEN_PARTS {
        assert!(rt; text.contains(*part), "{part}");
    }
    Ok(())
}

/// A plan that moves nothing, and the ninth node's colour.
#[test]
fn short_texts_are_drawn(rt: HostRuntime) -> Result<(), Fail> {
    let mut text = Vec::new(rt.alloc());
    put_summary(&mut text, 0, 4)?;
    put_node_hatching(&mut text, 7)?;
    put_node_hatching(&mut text, 9)?;
    assert!(rt; text.as_slice() == SHORT_TEXTS);
    Ok(())
}

const SHORT_TEXTS: &[u8] = b"The plan changes no owner.\
<pattern id=\"hatch-9\" width=\"7\" height=\"7\" patternUnits=\"userSpaceOnUse\" \
patternTransform=\"scale(18.2 1) rotate(37)\"><rect class=\"node-1\" \
width=\"7\" height=\"7\"/><path class=\"stripe\" d=\"M0 3H7\"/></pattern>\n";
