//! What the picture of what is there tells in words.
ghost use Rattle.std.specs.Prelude.{◌≡◌, ◌++◌, ◌≤◌, OnOk, ◌+◌, ◌*◌, length};
ghost use Rattle.std.specs.List.{flat_map};
ghost use Rattle.plan_drawings.specs.Now.{advice, now_description, now_form, now_heading, now_naming, now_summary};
ghost use Rattle.plan_drawings.specs.Now.{open_count, open_line, open_list, open_summary, open_text, rows_form};
ghost use Rattle.plan_drawings.specs.Now.{told_now, told_open};

use crate::filling::{put, put_filled};
use crate::frames::put_heading_opening;
use crate::open_slots::OpenSlot;
use byte_texts::Memory;
use plan_outlines::NodeChange;

/// How many slots stand open.
pub(crate) fn open_count(open_slots: &[OpenSlot]) -> u32
    ensures value { result ≡ open_count open_slots.now }
    ensures few { result ≤ 16384 }
{
    open_slots.len().min(16_384) as u32
}

/// Puts how many nodes there are, and how many slots stand open.
fn put_now_summary(out: &mut Vec<u8>, rows: u32, count: u32) -> Result<(), Memory>
    ensures text { OnOk result (out.new.items ≡ out.old.items ++ now_summary rows count) }
    ensures few { OnOk result (length out.new.items ≤ length out.old.items + 70) }
{
    put_filled(out, rows_form(rows), &[rows])?;
    put_open_summary(out, count)
}

fn rows_form(rows: u32) -> &'static [u8]
    ensures form { result.now ≡ rows_form rows }
    ensures few { length result.now ≤ 25 }
{
    if rows == 1 {
        b"The cluster has % node. "
    } else {
        b"The cluster has % nodes. "
    }
}

/// Puts how many slots stand open.
fn put_open_summary(out: &mut Vec<u8>, count: u32) -> Result<(), Memory>
    ensures text { OnOk result (out.new.items ≡ out.old.items ++ open_summary count) }
    ensures few { OnOk result (length out.new.items ≤ length out.old.items + 35) }
{
    if count == 0 {
        put(out, b"No slot stands open.")
    } else {
        put_filled(out, b"Slots that stand open: %.", &[count])
    }
}

/// Puts the picture's name, and what it shows.
pub(crate) fn put_now_naming(
    out: &mut Vec<u8>,
    rows: u32,
    count: u32,
    nodes: &[NodeChange],
    open_slots: &[OpenSlot],
) -> Result<(), Memory>
    ensures text { OnOk result (out.new.items ≡ out.old.items ++ now_naming rows count nodes.now open_slots.now) }
    ensures few { OnOk result (length out.new.items
        ≤ length out.old.items + (130 + (40 * length nodes.now + 60 * length open_slots.now))) }
{
    put(out, b"<title id=\"title\">")?;
    put_now_summary(out, rows, count)?;
    put(out, b"</title>\n<desc id=\"desc\">")?;
    put_now_description(out, nodes, open_slots)?;
    put(out, b"</desc>\n")
}

/// Puts the paper, and the words above the bands.
pub(crate) fn put_now_heading(
    out: &mut Vec<u8>,
    height: u32,
    rows: u32,
    count: u32,
) -> Result<(), Memory>
    ensures text { OnOk result (out.new.items ≡ out.old.items ++ now_heading height rows count) }
    ensures few { OnOk result (length out.new.items ≤ length out.old.items + 190) }
{
    put_heading_opening(out, height)?;
    put_now_summary(out, rows, count)?;
    put(out, b"</text>\n")
}

/// Puts what a screen reader reads out.
fn put_now_description(
    out: &mut Vec<u8>,
    nodes: &[NodeChange],
    open_slots: &[OpenSlot],
) -> Result<(), Memory>
    ensures text { OnOk result (out.new.items ≡ out.old.items ++ now_description nodes.now open_slots.now) }
    ensures few { OnOk result (length out.new.items
        ≤ length out.old.items + (40 * length nodes.now + 60 * length open_slots.now)) }
{
    put_told_nodes(out, nodes)?;
    put_told_slots(out, open_slots)
}

fn put_told_nodes(out: &mut Vec<u8>, nodes: &[NodeChange]) -> Result<(), Memory>
    ensures text { OnOk result (out.new.items ≡ out.old.items ++ flat_map told_now nodes.now) }
    ensures few { OnOk result (length out.new.items ≤ length out.old.items + 40 * length nodes.now) }
{
    for node in nodes {
        put_told_node(out, node)?;
    }
    Ok(())
}

fn put_told_node(out: &mut Vec<u8>, node: &NodeChange) -> Result<(), Memory>
    ensures text { OnOk result (out.new.items ≡ out.old.items ++ told_now node.now) }
    ensures few { OnOk result (length out.new.items ≤ length out.old.items + 40) }
{
    let number = u32::from(node.node.get());
    put_filled(out, now_form(node.before), &[number, node.before])
}

fn now_form(slots: u32) -> &'static [u8]
    ensures form { result.now ≡ now_form slots }
    ensures few { length result.now ≤ 13 }
{
    if slots == 1 {
        b"n%: % slot. "
    } else {
        b"n%: % slots. "
    }
}

fn put_told_slots(out: &mut Vec<u8>, open_slots: &[OpenSlot]) -> Result<(), Memory>
    ensures text { OnOk result (out.new.items ≡ out.old.items ++ flat_map told_open open_slots.now) }
    ensures few { OnOk result (length out.new.items ≤ length out.old.items + 60 * length open_slots.now) }
{
    for open_slot in open_slots {
        put_told_slot(out, open_slot)?;
    }
    Ok(())
}

fn put_told_slot(out: &mut Vec<u8>, open_slot: &OpenSlot) -> Result<(), Memory>
    ensures text { OnOk result (out.new.items ≡ out.old.items ++ told_open open_slot.now) }
    ensures few { OnOk result (length out.new.items ≤ length out.old.items + 60) }
{
    let slot = u32::from(open_slot.slot.get());
    let source = u32::from(open_slot.source.get());
    let target = u32::from(open_slot.target.get());
    put_filled(out, b"slot %: from n% to n%. ", &[slot, source, target])
}

/// Puts the open slots by name, below bands of this height.
pub(crate) fn put_open_list(
    out: &mut Vec<u8>,
    height: u32,
    count: u32,
    open_slots: &[OpenSlot],
) -> Result<(), Memory>
    requires { height ≤ 14430 }
    ensures text { OnOk result (out.new.items ≡ out.old.items ++ open_list height count open_slots.now) }
    ensures few { OnOk result (length out.new.items ≤ length out.old.items + (130 + 150 * length open_slots.now)) }
{
    put_filled(out, b"<text class=\"legend\" y=\"%\">\n", &[height + 122])?;
    put_advice(out, count)?;
    put_open_lines(out, open_slots)?;
    put(out, b"</text>\n")
}

/// Puts what is to be done about open slots.
fn put_advice(out: &mut Vec<u8>, count: u32) -> Result<(), Memory>
    ensures text { OnOk result (out.new.items ≡ out.old.items ++ advice count) }
    ensures few { OnOk result (length out.new.items ≤ length out.old.items + 80) }
{
    if count == 0 {
        return Ok(());
    }
    put(
        out,
        b"<tspan x=\"90\" dy=\"22\">A plan to resume would finish these slots:</tspan>\n",
    )
}

fn put_open_lines(out: &mut Vec<u8>, open_slots: &[OpenSlot]) -> Result<(), Memory>
    ensures text { OnOk result (out.new.items ≡ out.old.items ++ flat_map open_line open_slots.now) }
    ensures few { OnOk result (length out.new.items ≤ length out.old.items + 150 * length open_slots.now) }
{
    for open_slot in open_slots {
        put_open_line(out, open_slot)?;
    }
    Ok(())
}

fn put_open_line(out: &mut Vec<u8>, open_slot: &OpenSlot) -> Result<(), Memory>
    ensures text { OnOk result (out.new.items ≡ out.old.items ++ open_line open_slot.now) }
    ensures few { OnOk result (length out.new.items ≤ length out.old.items + 150) }
{
    let slot = u32::from(open_slot.slot.get());
    let source = u32::from(open_slot.source.get());
    let target = u32::from(open_slot.target.get());
    put_open_text(out, slot, source, target)
}

/// Puts the open slot by name, after a square in the colour of the node from which it goes.
fn put_open_text(out: &mut Vec<u8>, slot: u32, source: u32, target: u32) -> Result<(), Memory>
    ensures text { OnOk result (out.new.items ≡ out.old.items ++ open_text slot source target) }
    ensures few { OnOk result (length out.new.items ≤ length out.old.items + 150) }
{
    put_filled(
        out,
        b"<tspan class=\"node-%\" x=\"90\" dy=\"22\">&#9632;</tspan>",
        &[source],
    )?;
    put_filled(
        out,
        b"<tspan x=\"110\">slot %: from n% to n%</tspan>\n",
        &[slot, source, target],
    )
}
