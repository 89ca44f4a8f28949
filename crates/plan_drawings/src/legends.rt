//! The pairs of nodes between which slots move, below the picture.
ghost use Rattle.std.specs.Prelude.{◌≡◌, ◌++◌, ◌≤◌, OnOk, ◌+◌, ◌*◌, length};
ghost use Rattle.std.specs.List.{flat_map};
ghost use Rattle.plan_drawings.specs.Legends.{legend, line_form, pair_line, pair_text};

use crate::filling::{put, put_filled};
use byte_texts::Memory;
use plan_outlines::PairChange;

/// Puts a line for each pair, below this many rows in both halves.
pub(crate) fn put_legend(out: &mut Vec<u8>, rows: u32, pairs: &[PairChange]) -> Result<(), Memory>
    requires { rows ≤ 255 }
    ensures text { OnOk result (out.new.items ≡ out.old.items ++ legend rows pairs.now) }
    ensures few { OnOk result (length out.new.items ≤ length out.old.items + (50 + 150 * length pairs.now)) }
{
    put_filled(
        out,
        b"<text class=\"legend\" y=\"%\">\n",
        &[56 * rows + 280],
    )?;
    put_pair_lines(out, pairs)?;
    put(out, b"</text>\n")
}

fn put_pair_lines(out: &mut Vec<u8>, pairs: &[PairChange]) -> Result<(), Memory>
    ensures text { OnOk result (out.new.items ≡ out.old.items ++ flat_map pair_line pairs.now) }
    ensures few { OnOk result (length out.new.items ≤ length out.old.items + 150 * length pairs.now) }
{
    for pair in pairs {
        put_pair_line(out, pair)?;
    }
    Ok(())
}

fn put_pair_line(out: &mut Vec<u8>, pair: &PairChange) -> Result<(), Memory>
    ensures text { OnOk result (out.new.items ≡ out.old.items ++ pair_line pair.now) }
    ensures few { OnOk result (length out.new.items ≤ length out.old.items + 150) }
{
    let source = u32::from(pair.source.get());
    let target = u32::from(pair.target.get());
    put_pair(out, source, target, pair.slots)
}

/// Puts the pair's line, after a square in the colour of the source.
fn put_pair(out: &mut Vec<u8>, source: u32, target: u32, slots: u32) -> Result<(), Memory>
    ensures text { OnOk result (out.new.items ≡ out.old.items ++ pair_text source target slots) }
    ensures few { OnOk result (length out.new.items ≤ length out.old.items + 150) }
{
    put_filled(
        out,
        b"<tspan class=\"node-%\" x=\"90\" dy=\"22\">&#9632;</tspan>",
        &[source],
    )?;
    put_filled(out, line_form(slots), &[source, target, slots])
}

fn line_form(slots: u32) -> &'static [u8]
    ensures form { result.now ≡ line_form slots }
    ensures few { length result.now ≤ 52 }
{
    if slots == 1 {
        b"<tspan x=\"110\">n% &#8594; n%&#160; % slot</tspan>\n"
    } else {
        b"<tspan x=\"110\">n% &#8594; n%&#160; % slots</tspan>\n"
    }
}
