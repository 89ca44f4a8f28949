ghost use Rattle.std.specs.Prelude.{◌≡◌, ◌++◌, ◌≤◌, IfOk, OnOk, length};
ghost use Rattle.std.specs.List.{flat_map};
ghost use Rattle.byte_texts.specs.declared.text.TheConstants.{MAX_BYTES};
ghost use Rattle.key_slots.specs.Ranges.{owner_ranges};
ghost use Rattle.cluster_reports.specs.NodeLines.{address_words, bus_of, flags_of, line_marks, mark_word, marks_text};
ghost use Rattle.cluster_reports.specs.NodeLines.{node_line, nodes_text, range_word, role_words, slot_mark, word_of};

use crate::putting::{put, put_id, put_number, put_port};
use byte_texts::{Memory, Text};
use key_slots::{NodeId, SLOTS, Slot, SlotRange};
use slot_marks::SlotTable;
use std::alloc::Global;

/// CLUSTER NODES as the node of this table answers: a line for each node, from n0 on, with its ranges of slots, and in
/// the node's own line its marks too. The ports stand from `base_port` on, in the nodes' order.
pub fn nodes_text(alloc: Global, base_port: u16, table: &SlotTable) -> Result<Text, Memory>
    requires { base_port ≤ 65528 }
    ensures { IfOk result (λ t. t ≡ nodes_text base_port table.now) }
{
    let mut out = Vec::new(alloc);
    put_lines(&mut out, base_port, table)?;
    Ok(Text::from_vec(out))
}

fn put_lines(out: &mut Vec<u8>, base_port: u16, table: &SlotTable) -> Result<(), Memory>
    requires { base_port ≤ 65528 }
    ensures text { OnOk result (out.new.items ≡ out.old.items ++ nodes_text base_port table.now) }
    ensures short { OnOk result (length (nodes_text base_port table.now) ≤ MAX_BYTES) }
{
    let ranges = table.owner_ranges()?;
    for number in 0..table.nodes() {
        put_line(out, base_port, table, ranges.as_slice(), NodeId::of(number))?;
    }
    Ok(())
}

fn put_line(
    out: &mut Vec<u8>,
    base_port: u16,
    table: &SlotTable,
    ranges: &[SlotRange],
    node: NodeId,
) -> Result<(), Memory>
    requires port { base_port ≤ 65528 }
    requires ranges { ranges.now ≡ owner_ranges table.now.owners }
    ensures { OnOk result (out.new.items ≡ out.old.items ++ node_line base_port table.now node) }
{
    put_address(out, u32::from(base_port) + u32::from(node.get()), node)?;
    put_role(out, table.me(), node)?;
    put_ranges(out, ranges, node)?;
    put_line_marks(out, table, node)?;
    put(out, b"\n")
}

fn put_address(out: &mut Vec<u8>, port: u32, node: NodeId) -> Result<(), Memory>
    ensures { OnOk result (out.new.items ≡ out.old.items ++ address_words port node) }
{
    put_id(out, node)?;
    put(out, b" 127.0.0.1:")?;
    put_port(out, port)?;
    put(out, b"@")?;
    put_port(out, bus_of(port))
}

/// Puts the node's flags, that it has no master, no ping is on its way, its epoch, and that it is linked.
fn put_role(out: &mut Vec<u8>, me: NodeId, node: NodeId) -> Result<(), Memory>
    ensures { OnOk result (out.new.items ≡ out.old.items ++ role_words me node) }
{
    put(out, flags_of(me, node))?;
    put(out, b" - 0 0 ")?;
    put_number(out, u16::from(node.get()) + 1)?;
    put(out, b" connected")
}

/// The port of the cluster bus, which a server has 10000 above its own, or 0 where there is none so high.
fn bus_of(port: u32) -> u32
    ensures { result ≡ bus_of port }
{
    if port <= 55_535 { port + 10_000 } else { 0 }
}

fn flags_of(me: NodeId, node: NodeId) -> &'static [u8]
    ensures { result.now ≡ flags_of me node }
{
    if node == me {
        b" myself,master"
    } else {
        b" master"
    }
}

/// Puts the node's ranges of slots.
fn put_ranges(out: &mut Vec<u8>, ranges: &[SlotRange], node: NodeId) -> Result<(), Memory>
    ensures { OnOk result (out.new.items ≡ out.old.items ++ flat_map (word_of node) ranges.now) }
{
    for range in ranges {
        put_range_of(out, *range, node)?;
    }
    Ok(())
}

/// Puts the range if it is the node's.
fn put_range_of(out: &mut Vec<u8>, range: SlotRange, node: NodeId) -> Result<(), Memory>
    ensures { OnOk result (out.new.items ≡ out.old.items ++ word_of node range) }
{
    if range.owner == node {
        put_range(out, range)
    } else {
        Ok(())
    }
}

fn put_range(out: &mut Vec<u8>, range: SlotRange) -> Result<(), Memory>
    ensures { OnOk result (out.new.items ≡ out.old.items ++ range_word range) }
{
    put(out, b" ")?;
    put_number(out, range.first.get())?;
    if range.first == range.last {
        return Ok(());
    }
    put(out, b"-")?;
    put_number(out, range.last.get())
}

/// Puts the marks of the table in the line of its own node alone.
fn put_line_marks(out: &mut Vec<u8>, table: &SlotTable, node: NodeId) -> Result<(), Memory>
    ensures { OnOk result (out.new.items ≡ out.old.items ++ line_marks table.now node) }
{
    if node == table.me() {
        put_marks(out, table)
    } else {
        Ok(())
    }
}

fn put_marks(out: &mut Vec<u8>, table: &SlotTable) -> Result<(), Memory>
    ensures { OnOk result (out.new.items ≡ out.old.items ++ marks_text table.now) }
{
    for number in 0..SLOTS as u16 {
        put_slot_mark(out, table, Slot::of(number))?;
    }
    Ok(())
}

/// Puts the mark of the slot, if it has any: that it goes elsewhere, before that it comes from elsewhere.
fn put_slot_mark(out: &mut Vec<u8>, table: &SlotTable, slot: Slot) -> Result<(), Memory>
    ensures { OnOk result (out.new.items ≡ out.old.items ++ slot_mark table.now slot) }
{
    if let Some(target) = table.migrating(slot) {
        return put_mark(out, slot, b"->-", target);
    }
    if let Some(source) = table.importing(slot) {
        return put_mark(out, slot, b"-<-", source);
    }
    Ok(())
}

fn put_mark(out: &mut Vec<u8>, slot: Slot, arrow: &[u8], node: NodeId) -> Result<(), Memory>
    ensures { OnOk result (out.new.items ≡ out.old.items ++ mark_word slot arrow.now node) }
{
    put(out, b" [")?;
    put_number(out, slot.get())?;
    put(out, arrow)?;
    put_id(out, node)?;
    put(out, b"]")
}
