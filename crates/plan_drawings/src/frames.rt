//! What stands around the bands: the picture itself, its colours, its heading and the scale of slots.
ghost use Rattle.std.specs.Prelude.{◌≡◌, ◌++◌, ◌≤◌, OnOk, ◌+◌, ◌*◌, length};
ghost use Rattle.std.specs.List.{flat_map};
ghost use Rattle.plan_drawings.specs.Frames.{bands_opening, colours, hatching, node_hatching, node_rule, opening};
ghost use Rattle.plan_drawings.specs.Frames.{hatching_of, heading, heading_opening, rule_of, scale};

use crate::filling::{put, put_filled};
use crate::styles::STYLE;
use crate::words::put_summary;
use byte_texts::Memory;
use plan_outlines::NodeChange;

/// Begins the picture.
pub(crate) fn put_opening(out: &mut Vec<u8>, height: u32) -> Result<(), Memory>
    ensures text { OnOk result (out.new.items ≡ out.old.items ++ opening height) }
    ensures few { OnOk result (length out.new.items ≤ length out.old.items + 160) }
{
    put(
        out,
        b"<svg xmlns=\"http://www.w3.org/2000/svg\" role=\"img\" aria-labelledby=\"title desc\"",
    )?;
    put_filled(
        out,
        b" viewBox=\"0 0 1020 %\" width=\"1020\" height=\"%\">\n",
        &[height, height],
    )
}

/// Puts the style sheet, and the hatchings that it names.
pub(crate) fn put_colours(out: &mut Vec<u8>, nodes: &[NodeChange]) -> Result<(), Memory>
    ensures text { OnOk result (out.new.items ≡ out.old.items ++ colours nodes.now) }
    ensures few { OnOk result (length out.new.items ≤ length out.old.items + (2200 + 320 * length nodes.now)) }
{
    put(out, b"<style>\n")?;
    put(out, STYLE)?;
    put_rules(out, nodes)?;
    put(out, b"</style>\n")?;
    put_hatchings(out, nodes)
}

fn put_rules(out: &mut Vec<u8>, nodes: &[NodeChange]) -> Result<(), Memory>
    ensures text { OnOk result (out.new.items ≡ out.old.items ++ flat_map rule_of nodes.now) }
    ensures few { OnOk result (length out.new.items ≤ length out.old.items + 60 * length nodes.now) }
{
    for node in nodes {
        put_rule(out, node.node.get())?;
    }
    Ok(())
}

/// Puts the rule of a node that is hatched.
fn put_rule(out: &mut Vec<u8>, node: u8) -> Result<(), Memory>
    ensures text { OnOk result (out.new.items ≡ out.old.items ++ node_rule node) }
    ensures few { OnOk result (length out.new.items ≤ length out.old.items + 60) }
{
    if node < 8 {
        return Ok(());
    }
    let number = u32::from(node);
    put_filled(out, b".node-%{fill:url(#hatch-%)}\n", &[number, number])
}

fn put_hatchings(out: &mut Vec<u8>, nodes: &[NodeChange]) -> Result<(), Memory>
    ensures text { OnOk result (out.new.items ≡ out.old.items ++ flat_map hatching_of nodes.now) }
    ensures few { OnOk result (length out.new.items ≤ length out.old.items + 260 * length nodes.now) }
{
    for node in nodes {
        put_node_hatching(out, node.node.get())?;
    }
    Ok(())
}

pub(crate) fn put_node_hatching(out: &mut Vec<u8>, node: u8) -> Result<(), Memory>
    ensures text { OnOk result (out.new.items ≡ out.old.items ++ node_hatching node) }
    ensures few { OnOk result (length out.new.items ≤ length out.old.items + 260) }
{
    if node < 8 {
        Ok(())
    } else {
        put_hatching(out, u32::from(node))
    }
}

/// Puts the node's colour with a stripe, at an angle that no other node of its colour has.
fn put_hatching(out: &mut Vec<u8>, number: u32) -> Result<(), Memory>
    requires { number ≤ 255 }
    ensures text { OnOk result (out.new.items ≡ out.old.items ++ hatching number) }
    ensures few { OnOk result (length out.new.items ≤ length out.old.items + 260) }
{
    put_filled(
        out,
        b"<pattern id=\"hatch-%\" width=\"7\" height=\"7\" patternUnits=\"userSpaceOnUse\"",
        &[number],
    )?;
    put_filled(
        out,
        b" patternTransform=\"scale(18.2 1) rotate(%)\"><rect class=\"node-%\"",
        &[37 * (number / 8), number % 8],
    )?;
    put(
        out,
        b" width=\"7\" height=\"7\"/><path class=\"stripe\" d=\"M0 3H7\"/></pattern>\n",
    )
}

/// Puts the paper, and begins the words above the bands.
pub(crate) fn put_heading_opening(out: &mut Vec<u8>, height: u32) -> Result<(), Memory>
    ensures text { OnOk result (out.new.items ≡ out.old.items ++ heading_opening height) }
    ensures few { OnOk result (length out.new.items ≤ length out.old.items + 110) }
{
    put_filled(
        out,
        b"<rect class=\"paper\" width=\"1020\" height=\"%\"/>\n",
        &[height],
    )?;
    put(out, b"<text class=\"head\" x=\"90\" y=\"36\">")
}

/// Puts the paper, and the words above the bands.
pub(crate) fn put_heading(
    out: &mut Vec<u8>,
    height: u32,
    moved: u32,
    rows: u32,
) -> Result<(), Memory>
    ensures text { OnOk result (out.new.items ≡ out.old.items ++ heading height moved rows) }
    ensures few { OnOk result (length out.new.items ≤ length out.old.items + 180) }
{
    put_heading_opening(out, height)?;
    put_summary(out, moved, rows)?;
    put(out, b"</text>\n")
}

/// Begins the bands' picture.
pub(crate) fn put_bands_opening(out: &mut Vec<u8>, height: u32) -> Result<(), Memory>
    ensures text { OnOk result (out.new.items ≡ out.old.items ++ bands_opening height) }
    ensures few { OnOk result (length out.new.items ≤ length out.old.items + 220) }
{
    put_filled(
        out,
        b"<svg x=\"90\" y=\"84\" width=\"900\" height=\"%\" viewBox=\"0 0 16384 %\"",
        &[height, height],
    )?;
    put(out, b" preserveAspectRatio=\"none\">\n")?;
    put_filled(
        out,
        b"<path class=\"grid\" d=\"M4096 0V%M8192 0V%M12288 0V%\"/>\n",
        &[height, height, height],
    )
}

/// Puts the scale of slots below bands of this height.
pub(crate) fn put_scale(out: &mut Vec<u8>, height: u32) -> Result<(), Memory>
    requires { height ≤ 14430 }
    ensures text { OnOk result (out.new.items ≡ out.old.items ++ scale height) }
    ensures few { OnOk result (length out.new.items ≤ length out.old.items + 300) }
{
    put_filled(
        out,
        b"<g class=\"scale\" transform=\"translate(90 %)\">\n",
        &[height + 84],
    )?;
    put(
        out,
        b"<path d=\"M0 0v5M225 0v5M450 0v5M675 0v5M900 0v5\"/><text y=\"19\">0</text>",
    )?;
    put(
        out,
        b"<text x=\"225\" y=\"19\">4096</text><text x=\"450\" y=\"19\">8192</text>",
    )?;
    put(
        out,
        b"<text x=\"675\" y=\"19\">12288</text><text x=\"900\" y=\"19\">16383</text>\n</g>\n",
    )
}
