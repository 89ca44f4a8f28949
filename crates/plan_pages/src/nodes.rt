//! What each node has before the plan and after it.
ghost use Rattle.std.specs.Prelude.{◌≡◌, ◌≤◌, ◌+◌, ◌*◌, ◌++◌, OnOk, length};
ghost use Rattle.std.specs.List.{flat_map};
ghost use Rattle.plan_pages.specs.Nodes.{is_emptied, loses_line, loses_words, node_row, nodes_heading};
ghost use Rattle.plan_pages.specs.Nodes.{nodes_section, percent_column, share_column};

use crate::putting::{put, put_left_node, put_node, put_number, put_right};
use byte_texts::Memory;
use key_slots::SLOTS;
use plan_outlines::NodeChange;

/// Puts a line for each node, and then what those have to expect that lose their last slot.
pub(crate) fn put_nodes(out: &mut Vec<u8>, nodes: &[NodeChange]) -> Result<(), Memory>
    ensures text { OnOk result (out.new.items ≡ out.old.items ++ nodes_section nodes.now) }
    ensures few { OnOk result (length out.new.items ≤ length out.old.items + (60 + 360 * length nodes.now)) }
{
    put_heading(out)?;
    put_rows(out, nodes)?;
    put_losses(out, nodes)
}

#[tactic(auto, unfolding(crate::specs::Nodes::nodes_heading))]
fn put_heading(out: &mut Vec<u8>) -> Result<(), Memory>
    ensures text { OnOk result (out.new.items ≡ out.old.items ++ nodes_heading) }
    ensures few { OnOk result (length out.new.items ≤ length out.old.items + 60) }
{
    put(
        out,
        b"\nnodes                     before               after\n",
    )
}

fn put_rows(out: &mut Vec<u8>, nodes: &[NodeChange]) -> Result<(), Memory>
    ensures text { OnOk result (out.new.items ≡ out.old.items ++ flat_map node_row nodes.now) }
    ensures few { OnOk result (length out.new.items ≤ length out.old.items + 240 * length nodes.now) }
{
    for change in nodes {
        put_row(out, change)?;
    }
    Ok(())
}

#[tactic(auto, unfolding(crate::specs::Nodes::node_row))]
fn put_row(out: &mut Vec<u8>, change: &NodeChange) -> Result<(), Memory>
    ensures text { OnOk result (out.new.items ≡ out.old.items ++ node_row change.now) }
    ensures few { OnOk result (length out.new.items ≤ length out.old.items + 240) }
{
    put(out, b"  ")?;
    put_left_node(out, change.node, 8)?;
    put_right(out, u64::from(change.before), 12)?;
    put_share(out, change.before)?;
    put_right(out, u64::from(change.after), 10)?;
    put_share(out, change.after)?;
    put(out, b"\n")
}

/// Puts which share of all slots these are, rounded down.
fn put_share(out: &mut Vec<u8>, slots: u32) -> Result<(), Memory>
    ensures text { OnOk result (out.new.items ≡ out.old.items ++ share_column slots) }
    ensures few { OnOk result (length out.new.items ≤ length out.old.items + 70) }
{
    put_percent(out, u64::from(slots) * 10_000 / SLOTS as u64)
}

/// Puts so many hundredths of a per cent.
#[tactic(auto, unfolding(crate::specs::Nodes::percent_column))]
fn put_percent(out: &mut Vec<u8>, hundredths: u64) -> Result<(), Memory>
    ensures text { OnOk result (out.new.items ≡ out.old.items ++ percent_column hundredths) }
    ensures few { OnOk result (length out.new.items ≤ length out.old.items + 70) }
{
    put_right(out, hundredths / 100, 5)?;
    put(out, b".")?;
    put_number(out, hundredths / 10 % 10)?;
    put_number(out, hundredths % 10)?;
    put(out, b" %")
}

fn put_losses(out: &mut Vec<u8>, nodes: &[NodeChange]) -> Result<(), Memory>
    ensures text { OnOk result (out.new.items ≡ out.old.items ++ flat_map loses_line nodes.now) }
    ensures few { OnOk result (length out.new.items ≤ length out.old.items + 120 * length nodes.now) }
{
    for change in nodes {
        put_loss(out, change)?;
    }
    Ok(())
}

#[tactic(auto, unfolding(crate::specs::Nodes::loses_line))]
fn put_loss(out: &mut Vec<u8>, change: &NodeChange) -> Result<(), Memory>
    ensures text { OnOk result (out.new.items ≡ out.old.items ++ loses_line change.now) }
    ensures few { OnOk result (length out.new.items ≤ length out.old.items + 120) }
{
    if !is_emptied(change) {
        return Ok(());
    }
    put_node(out, change.node)?;
    put_loses(out)
}

/// Whether the node has slots before the plan, and none after it.
fn is_emptied(change: &NodeChange) -> bool
    ensures { result ≡ is_emptied change.now }
{
    change.before > 0 && change.after == 0
}

#[tactic(auto, unfolding(crate::specs::Nodes::loses_words))]
fn put_loses(out: &mut Vec<u8>) -> Result<(), Memory>
    ensures text { OnOk result (out.new.items ≡ out.old.items ++ loses_words) }
    ensures few { OnOk result (length out.new.items ≤ length out.old.items + 99) }
{
    put(
        out,
        b" loses its last slot: its replicas may follow another master, and it may\nbecome a replica.\n",
    )
}
