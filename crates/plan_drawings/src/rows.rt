//! The nodes' rows: empty bands, and what stands beside them.
ghost use Rattle.std.specs.Prelude.{◌≡◌, ◌++◌, ◌≤◌, ◌+◌, ◌*◌, OnOk, codes, length};
ghost use Rattle.std.specs.List.{flat_map};
ghost use Rattle.plan_drawings.specs.Rows.{band, half_word, lower_name, lower_names, name, name_at};
ghost use Rattle.plan_drawings.specs.Rows.{upper_name, upper_names};

use crate::filling::{put, put_filled};
use byte_texts::Memory;
use plan_outlines::NodeChange;

/// Puts an empty band for each node, in the half whose upper edge is this one.
pub(crate) fn put_empty_bands(
    out: &mut Vec<u8>,
    top: u32,
    nodes: &[NodeChange],
) -> Result<(), Memory>
    requires { top ≤ 7290 }
    ensures text { OnOk result (out.new.items ≡ out.old.items ++ flat_map (band top) nodes.now) }
    ensures few { OnOk result (length out.new.items ≤ length out.old.items + 70 * length nodes.now) }
{
    for node in nodes {
        put_band(out, top, node)?;
    }
    Ok(())
}

fn put_band(out: &mut Vec<u8>, top: u32, node: &NodeChange) -> Result<(), Memory>
    requires { top ≤ 7290 }
    ensures text { OnOk result (out.new.items ≡ out.old.items ++ band top node.now) }
    ensures few { OnOk result (length out.new.items ≤ length out.old.items + 70) }
{
    let y = top + 28 * u32::from(node.node.get());
    put_filled(
        out,
        b"<rect class=\"band\" y=\"%\" width=\"16384\" height=\"22\"/>\n",
        &[y],
    )
}

/// Puts what stands beside the rows before the plan.
pub(crate) fn put_upper_names(out: &mut Vec<u8>, nodes: &[NodeChange]) -> Result<(), Memory>
    ensures text { OnOk result (out.new.items ≡ out.old.items ++ upper_names nodes.now) }
    ensures few { OnOk result (length out.new.items ≤ length out.old.items + (70 + 140 * length nodes.now)) }
{
    put_half_word(out, 76, b"before")?;
    put_each_upper_name(out, nodes)
}

pub(crate) fn put_each_upper_name(out: &mut Vec<u8>, nodes: &[NodeChange]) -> Result<(), Memory>
    ensures text { OnOk result (out.new.items ≡ out.old.items ++ flat_map upper_name nodes.now) }
    ensures few { OnOk result (length out.new.items ≤ length out.old.items + 140 * length nodes.now) }
{
    for node in nodes {
        put_name(out, 0, node.node.get(), node.before)?;
    }
    Ok(())
}

/// Puts what stands beside the rows after the plan.
pub(crate) fn put_lower_names(
    out: &mut Vec<u8>,
    rows: u32,
    nodes: &[NodeChange],
) -> Result<(), Memory>
    requires { rows ≤ 255 }
    ensures text { OnOk result (out.new.items ≡ out.old.items ++ lower_names rows nodes.now) }
    ensures few { OnOk result (length out.new.items ≤ length out.old.items + (70 + 140 * length nodes.now)) }
{
    put_half_word(out, 28 * rows + 226, b"after")?;
    put_each_lower_name(out, rows, nodes)
}

fn put_each_lower_name(out: &mut Vec<u8>, rows: u32, nodes: &[NodeChange]) -> Result<(), Memory>
    requires { rows ≤ 255 }
    ensures text { OnOk result (out.new.items ≡ out.old.items ++ flat_map (lower_name rows) nodes.now) }
    ensures few { OnOk result (length out.new.items ≤ length out.old.items + 140 * length nodes.now) }
{
    for node in nodes {
        put_name(out, 28 * rows + 150, node.node.get(), node.after)?;
    }
    Ok(())
}

/// Puts a node's name and its slots, beside its band in the half whose upper edge is this one.
fn put_name(out: &mut Vec<u8>, top: u32, node: u8, slots: u32) -> Result<(), Memory>
    requires { top ≤ 7290 }
    ensures text { OnOk result (out.new.items ≡ out.old.items ++ name top node slots) }
    ensures few { OnOk result (length out.new.items ≤ length out.old.items + 140) }
{
    let number = u32::from(node);
    put_name_at(out, top + 28 * number + 99, number, slots)
}

fn put_name_at(out: &mut Vec<u8>, y: u32, node: u32, slots: u32) -> Result<(), Memory>
    ensures text { OnOk result (out.new.items ≡ out.old.items ++ name_at y node slots) }
    ensures few { OnOk result (length out.new.items ≤ length out.old.items + 140) }
{
    put_filled(
        out,
        b"<text y=\"%\"><tspan class=\"node\" x=\"14\">n%</tspan>&#160; ",
        &[y, node],
    )?;
    put_filled(
        out,
        b"<tspan class=\"slots\" x=\"80\">%</tspan></text>\n",
        &[slots],
    )
}

/// Puts the word beside a half, above its first row.
pub(crate) fn put_half_word(out: &mut Vec<u8>, y: u32, word: &[u8]) -> Result<(), Memory>
    ensures text { OnOk result (out.new.items ≡ out.old.items ++ half_word y word.now) }
    ensures few { OnOk result (length out.new.items ≤ length out.old.items + (60 + length word.now)) }
{
    put_filled(out, b"<text class=\"half\" x=\"80\" y=\"%\">", &[y])?;
    put(out, word)?;
    put(out, b"</text>\n")
}
