//! The picture of a plan.
ghost use Rattle.std.specs.Prelude.{◌≡◌, ◌++◌, ◌≤◌, IfOk, OnOk, codes, ◌+◌, ◌*◌, length};
ghost use Rattle.plan_drawings.specs.Drawings.{bands, drawing_text, drawn, empty_bands, front, labels, parts};
ghost use Rattle.plan_drawings.specs.Drawings.{ranges_text};

use crate::bars::{put_lower_bars, put_upper_bars};
use crate::filling::put;
use crate::frames::{put_bands_opening, put_colours, put_heading, put_opening, put_scale};
use crate::layouts::{bands_height, line_count, moved, row_count, whole_height};
use crate::legends::put_legend;
use crate::ribbons::{put_ribbon_counts, put_ribbons};
use crate::rows::{put_empty_bands, put_lower_names, put_upper_names};
use crate::words::{put_naming, put_summary};
use byte_texts::Memory;
use plan_outlines::{NodeChange, PairChange, PlanOutline, RangeChange};
use std::alloc::Global;

/// The picture of the plan, as an SVG: the slots from left to right, a band for each node before the plan in the upper
/// half, and one after it in the lower half. It is ASCII. Its height counts 255 nodes and 65,025 pairs at most: all
/// that there can be.
pub fn drawing(alloc: Global, outline: &PlanOutline) -> Result<Vec<u8>, Memory>
    ensures text { IfOk result (λ t. t.items ≡ drawing_text outline.now) }
    ensures few { IfOk result (λ t. length t.items ≤ 3400 + (990 * length outline.now.ranges.items
        + (810 * length outline.now.nodes.items + 200 * length outline.now.pairs.items))) }
{
    let mut out = Vec::new(alloc);
    put_drawing(
        &mut out,
        outline.ranges.as_slice(),
        outline.nodes.as_slice(),
        outline.pairs.as_slice(),
    )?;
    Ok(out)
}

fn put_drawing(
    out: &mut Vec<u8>,
    ranges: &[RangeChange],
    nodes: &[NodeChange],
    pairs: &[PairChange],
) -> Result<(), Memory>
    ensures text { OnOk result (out.new.items ≡ out.old.items ++ drawn ranges.now nodes.now pairs.now) }
    ensures few { OnOk result (length out.new.items
        ≤ length out.old.items + (3400 + (990 * length ranges.now
        + (810 * length nodes.now + 200 * length pairs.now)))) }
{
    let rows = row_count(nodes);
    let height = whole_height(rows, line_count(pairs));
    put_parts(out, rows, height, moved(ranges), ranges, nodes, pairs)
}

fn put_parts(
    out: &mut Vec<u8>,
    rows: u32,
    height: u32,
    moved: u32,
    ranges: &[RangeChange],
    nodes: &[NodeChange],
    pairs: &[PairChange],
) -> Result<(), Memory>
    requires { rows ≤ 255 }
    ensures text { OnOk result (out.new.items
        ≡ out.old.items ++ parts rows height moved ranges.now nodes.now pairs.now) }
    ensures few { OnOk result (length out.new.items
        ≤ length out.old.items + (3400 + (990 * length ranges.now
        + (810 * length nodes.now + 200 * length pairs.now)))) }
{
    put_front(out, rows, height, moved, nodes, pairs)?;
    put_bands(out, rows, ranges, nodes)?;
    put_labels(out, rows, ranges, nodes)?;
    put_legend(out, rows, pairs)?;
    put(out, b"</svg>\n")
}

/// Puts all that stands before the bands.
fn put_front(
    out: &mut Vec<u8>,
    rows: u32,
    height: u32,
    moved: u32,
    nodes: &[NodeChange],
    pairs: &[PairChange],
) -> Result<(), Memory>
    ensures text { OnOk result (out.new.items ≡ out.old.items ++ front rows height moved nodes.now pairs.now) }
    ensures few { OnOk result (length out.new.items
        ≤ length out.old.items + (2660 + (390 * length nodes.now + 50 * length pairs.now))) }
{
    put_opening(out, height)?;
    put_naming(out, moved, rows, nodes, pairs)?;
    put_colours(out, nodes)?;
    put_heading(out, height, moved, rows)
}

/// Puts the bands, with the ribbons under the bars.
fn put_bands(
    out: &mut Vec<u8>,
    rows: u32,
    ranges: &[RangeChange],
    nodes: &[NodeChange],
) -> Result<(), Memory>
    requires { rows ≤ 255 }
    ensures text { OnOk result (out.new.items ≡ out.old.items ++ bands rows ranges.now nodes.now) }
    ensures few { OnOk result (length out.new.items
        ≤ length out.old.items + (230 + (140 * length nodes.now + 910 * length ranges.now))) }
{
    put_bands_opening(out, bands_height(rows))?;
    put_both_bands(out, rows, nodes)?;
    put_ranges(out, rows, ranges)?;
    put(out, b"</svg>\n")
}

fn put_both_bands(out: &mut Vec<u8>, rows: u32, nodes: &[NodeChange]) -> Result<(), Memory>
    requires { rows ≤ 255 }
    ensures text { OnOk result (out.new.items ≡ out.old.items ++ empty_bands rows nodes.now) }
    ensures few { OnOk result (length out.new.items ≤ length out.old.items + 140 * length nodes.now) }
{
    put_empty_bands(out, 0, nodes)?;
    put_empty_bands(out, 28 * rows + 150, nodes)
}

fn put_ranges(out: &mut Vec<u8>, rows: u32, ranges: &[RangeChange]) -> Result<(), Memory>
    requires { rows ≤ 255 }
    ensures text { OnOk result (out.new.items ≡ out.old.items ++ ranges_text rows ranges.now) }
    ensures few { OnOk result (length out.new.items ≤ length out.old.items + 910 * length ranges.now) }
{
    put_ribbons(out, rows, ranges)?;
    put_upper_bars(out, ranges)?;
    put_lower_bars(out, rows, ranges)
}

/// Puts what stands beside the bands and on the ribbons.
fn put_labels(
    out: &mut Vec<u8>,
    rows: u32,
    ranges: &[RangeChange],
    nodes: &[NodeChange],
) -> Result<(), Memory>
    requires { rows ≤ 255 }
    ensures text { OnOk result (out.new.items ≡ out.old.items ++ labels rows ranges.now nodes.now) }
    ensures few { OnOk result (length out.new.items
        ≤ length out.old.items + (440 + (280 * length nodes.now + 80 * length ranges.now))) }
{
    put_upper_names(out, nodes)?;
    put_lower_names(out, rows, nodes)?;
    put_ribbon_counts(out, rows, ranges)?;
    put_scale(out, bands_height(rows))
}
