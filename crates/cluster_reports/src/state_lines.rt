ghost use Rattle.std.specs.Prelude.{◌≡◌, ◌++◌, ◌≤◌, ◌==◌, IfOk, OnOk, length, if◌then◌else◌};
ghost use Rattle.std.specs.List.{list_any};
ghost use Rattle.byte_texts.specs.declared.text.TheConstants.{MAX_BYTES};
ghost use Rattle.cluster_reports.specs.StateLines.{count_lines, epoch_lines, first_lines, last_lines, line};
ghost use Rattle.cluster_reports.specs.StateLines.{owners_below, state_text};

use crate::putting::{put, put_number};
use byte_texts::{Memory, Text};
use key_slots::{NodeId, Slot};
use slot_marks::SlotTable;
use std::alloc::Global;

/// CLUSTER INFO as the node of this table answers. No packet of a cluster bus is counted, since there is no bus.
pub fn state_text(alloc: Global, table: &SlotTable) -> Result<Text, Memory>
    ensures { IfOk result (λ t. t ≡ state_text table.now) }
{
    let mut out = Vec::new(alloc);
    put_lines(&mut out, table)?;
    Ok(Text::from_vec(out))
}

#[tactic(auto, unfolding(crate::specs::StateLines::state_text))]
fn put_lines(out: &mut Vec<u8>, table: &SlotTable) -> Result<(), Memory>
    ensures text { OnOk result (out.new.items ≡ out.old.items ++ state_text table.now) }
    ensures short { OnOk result (length (state_text table.now) ≤ MAX_BYTES) }
{
    put_first(out)?;
    put_counts(out, table.nodes(), owners_of(table))?;
    put_epochs(out, table.nodes(), table.me())?;
    put_last(out)
}

#[tactic(auto, unfolding(crate::specs::StateLines::count_lines))]
fn put_counts(out: &mut Vec<u8>, nodes: u8, size: u8) -> Result<(), Memory>
    ensures { OnOk result (out.new.items ≡ out.old.items ++ count_lines nodes size) }
{
    put_line(out, b"cluster_known_nodes:", u16::from(nodes))?;
    put_line(out, b"cluster_size:", u16::from(size))
}

#[tactic(auto, unfolding(crate::specs::StateLines::epoch_lines))]
fn put_epochs(out: &mut Vec<u8>, nodes: u8, me: NodeId) -> Result<(), Memory>
    ensures { OnOk result (out.new.items ≡ out.old.items ++ epoch_lines nodes me) }
{
    put_line(out, b"cluster_current_epoch:", u16::from(nodes))?;
    put_line(out, b"cluster_my_epoch:", u16::from(me.get()) + 1)
}

/// Puts that all slots are owned and served.
#[tactic(auto, unfolding(crate::specs::StateLines::first_lines))]
fn put_first(out: &mut Vec<u8>) -> Result<(), Memory>
    ensures { OnOk result (out.new.items ≡ out.old.items ++ first_lines) }
{
    put(
        out,
        b"cluster_state:ok\r\ncluster_slots_assigned:16384\r\ncluster_slots_ok:16384\r\n\
          cluster_slots_pfail:0\r\ncluster_slots_fail:0\r\n",
    )
}

#[tactic(auto, unfolding(crate::specs::StateLines::last_lines))]
fn put_last(out: &mut Vec<u8>) -> Result<(), Memory>
    ensures { OnOk result (out.new.items ≡ out.old.items ++ last_lines) }
{
    put(
        out,
        b"cluster_stats_messages_sent:0\r\ncluster_stats_messages_received:0\r\n\
          total_cluster_links_buffer_limit_exceeded:0\r\n",
    )
}

/// Puts the name, and the number after it.
#[tactic(auto, unfolding(crate::specs::StateLines::line))]
fn put_line(out: &mut Vec<u8>, name: &[u8], number: u16) -> Result<(), Memory>
    ensures { OnOk result (out.new.items ≡ out.old.items ++ line name.now number) }
{
    put(out, name)?;
    put_number(out, number)?;
    put(out, b"\r\n")
}

/// How many nodes own a slot.
fn owners_of(table: &SlotTable) -> u8
    ensures value { result ≡ owners_below table.now.owners table.now.nodes }
    ensures most { result ≤ table.now.nodes }
{
    let mut count = 0u8;
    for number in 0..table.nodes() {
        count += one_if(owns(table.ranges(), NodeId::of(number)));
    }
    count
}

/// Whether one of the ranges is the node's.
fn owns(starts: &[(Slot, NodeId)], node: NodeId) -> bool
    ensures { result ≡ list_any (λ s. s.1 == node) starts.now }
{
    starts.iter().any(|start| start.1 == node)
}

/// 1 or 0.
fn one_if(test: bool) -> u8
    ensures value { result ≡ (if test then 1 else 0) }
    ensures most { result ≤ 1 }
{
    if test { 1 } else { 0 }
}
