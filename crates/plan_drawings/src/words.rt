//! What the picture tells in words.
ghost use Rattle.std.specs.Prelude.{◌≡◌, ◌++◌, OnOk, ◌≤◌, ◌+◌, ◌*◌, length};
ghost use Rattle.std.specs.List.{flat_map};
ghost use Rattle.plan_drawings.specs.Words.{description, naming, node_form, pair_form, summary, summary_form};
ghost use Rattle.plan_drawings.specs.Words.{told_node, told_pair};

use crate::filling::{put, put_filled};
use byte_texts::Memory;
use plan_outlines::{NodeChange, PairChange};

/// Puts how many slots move between how many nodes.
pub(crate) fn put_summary(out: &mut Vec<u8>, moved: u32, rows: u32) -> Result<(), Memory>
    ensures text { OnOk result (out.new.items ≡ out.old.items ++ summary moved rows) }
    ensures few { OnOk result (length out.new.items ≤ length out.old.items + 60) }
{
    if moved == 0 {
        put(out, b"The plan changes no owner.")
    } else {
        put_filled(out, summary_form(moved), &[moved, rows])
    }
}

fn summary_form(moved: u32) -> &'static [u8]
    ensures form { result.now ≡ summary_form moved }
    ensures few { length result.now ≤ 39 }
{
    if moved == 1 {
        b"The plan moves % slot between % nodes."
    } else {
        b"The plan moves % slots between % nodes."
    }
}

/// Puts the picture's name, and what it shows.
pub(crate) fn put_naming(
    out: &mut Vec<u8>,
    moved: u32,
    rows: u32,
    nodes: &[NodeChange],
    pairs: &[PairChange],
) -> Result<(), Memory>
    ensures text { OnOk result (out.new.items ≡ out.old.items ++ naming moved rows nodes.now pairs.now) }
    ensures few { OnOk result (length out.new.items
        ≤ length out.old.items + (120 + (70 * length nodes.now + 50 * length pairs.now))) }
{
    put(out, b"<title id=\"title\">")?;
    put_summary(out, moved, rows)?;
    put(out, b"</title>\n<desc id=\"desc\">")?;
    put_description(out, nodes, pairs)?;
    put(out, b"</desc>\n")
}

/// Puts what a screen reader reads out.
fn put_description(
    out: &mut Vec<u8>,
    nodes: &[NodeChange],
    pairs: &[PairChange],
) -> Result<(), Memory>
    ensures text { OnOk result (out.new.items ≡ out.old.items ++ description nodes.now pairs.now) }
    ensures few { OnOk result (length out.new.items
        ≤ length out.old.items + (70 * length nodes.now + 50 * length pairs.now)) }
{
    put_told_nodes(out, nodes)?;
    put_told_pairs(out, pairs)
}

fn put_told_nodes(out: &mut Vec<u8>, nodes: &[NodeChange]) -> Result<(), Memory>
    ensures text { OnOk result (out.new.items ≡ out.old.items ++ flat_map told_node nodes.now) }
    ensures few { OnOk result (length out.new.items ≤ length out.old.items + 70 * length nodes.now) }
{
    for node in nodes {
        put_told_node(out, node)?;
    }
    Ok(())
}

fn put_told_node(out: &mut Vec<u8>, node: &NodeChange) -> Result<(), Memory>
    ensures text { OnOk result (out.new.items ≡ out.old.items ++ told_node node.now) }
    ensures few { OnOk result (length out.new.items ≤ length out.old.items + 70) }
{
    let number = u32::from(node.node.get());
    put_filled(
        out,
        node_form(node.before),
        &[number, node.before, node.after],
    )
}

fn node_form(before: u32) -> &'static [u8]
    ensures form { result.now ≡ node_form before }
    ensures few { length result.now ≤ 30 }
{
    if before == 1 {
        b"n%: % slot before, % after. "
    } else {
        b"n%: % slots before, % after. "
    }
}

fn put_told_pairs(out: &mut Vec<u8>, pairs: &[PairChange]) -> Result<(), Memory>
    ensures text { OnOk result (out.new.items ≡ out.old.items ++ flat_map told_pair pairs.now) }
    ensures few { OnOk result (length out.new.items ≤ length out.old.items + 50 * length pairs.now) }
{
    for pair in pairs {
        put_told_pair(out, pair)?;
    }
    Ok(())
}

fn put_told_pair(out: &mut Vec<u8>, pair: &PairChange) -> Result<(), Memory>
    ensures text { OnOk result (out.new.items ≡ out.old.items ++ told_pair pair.now) }
    ensures few { OnOk result (length out.new.items ≤ length out.old.items + 50) }
{
    let source = u32::from(pair.source.get());
    let target = u32::from(pair.target.get());
    put_filled(out, pair_form(pair.slots), &[source, target, pair.slots])
}

fn pair_form(slots: u32) -> &'static [u8]
    ensures form { result.now ≡ pair_form slots }
    ensures few { length result.now ≤ 20 }
{
    if slots == 1 {
        b"n% to n%: % slot. "
    } else {
        b"n% to n%: % slots. "
    }
}
