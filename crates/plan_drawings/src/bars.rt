//! The bars: each range in the band of its owner.
ghost use Rattle.std.specs.Prelude.{◌≡◌, ◌++◌, ◌≤◌, ◌+◌, ◌*◌, OnOk, codes, length, map, sum};
ghost use Rattle.std.specs.List.{flat_map};
ghost use Rattle.plan_drawings.specs.Bars.{bar_of, bar_text, bar_width, bars_after, bars_before, lower_bar, upper_bar};
ghost use Rattle.plan_drawings.specs.Layouts.{slots_in};
ghost use Rattle.plan_drawings.specs.Tiling.{BarsShowOwners};

use crate::filling::{put, put_filled};
use crate::layouts::slots_in;
use byte_texts::Memory;
use key_slots::NodeId;
use plan_outlines::RangeChange;

/// Adjacent slots in a node's row, which are drawn as one rectangle.
#[derive(Clone, Copy)]
pub struct Bar {
    pub first: u32,
    pub last: u32,
    /// How many slots these are: the width of the rectangle.
    pub width: u32,
    /// The node whose row it is.
    pub row: u32,
    /// Its upper edge.
    pub y: u32,
}

/// The bars draw as many slots as the ranges have, and each range is one bar, before and after the plan alike.
pub fn bars_are_ranges(_rows: u32, _ranges: &[RangeChange])
    ensures slots_before { sum (map bar_width (bars_before _ranges.now)) ≡ sum (map slots_in _ranges.now) }
    ensures slots_after { sum (map bar_width (bars_after _rows _ranges.now)) ≡ sum (map slots_in _ranges.now) }
    ensures each_before { length (bars_before _ranges.now) ≡ length _ranges.now }
    ensures each_after { length (bars_after _rows _ranges.now) ≡ length _ranges.now }
    ensures drawn_before { flat_map upper_bar _ranges.now
        ≡ flat_map (bar_text (codes "before")) (bars_before _ranges.now) }
    ensures drawn_after { flat_map (lower_bar _rows) _ranges.now
        ≡ flat_map (bar_text (codes "after")) (bars_after _rows _ranges.now) }
{}

/// The bars of a plan's ranges follow one another from slot 0 to the last and are 16,384 wide in all, and each stands
/// in the row of the node that owns all its slots, before and after the plan alike.
pub fn bars_show_owners()
    ensures { BarsShowOwners }
{}

/// The range, in a node's row of the half whose upper edge is this one.
pub(crate) fn bar_of(range: &RangeChange, top: u32, node: NodeId) -> Bar
    requires { top ≤ 7290 }
    ensures { result ≡ bar_of range.now top node }
{
    Bar {
        first: u32::from(range.first.get()),
        last: u32::from(range.last.get()),
        width: slots_in(range),
        row: u32::from(node.get()),
        y: top + 28 * u32::from(node.get()),
    }
}

/// Puts each range's bar before the plan.
pub(crate) fn put_upper_bars(out: &mut Vec<u8>, ranges: &[RangeChange]) -> Result<(), Memory>
    ensures text { OnOk result (out.new.items ≡ out.old.items ++ flat_map upper_bar ranges.now) }
    ensures few { OnOk result (length out.new.items ≤ length out.old.items + 290 * length ranges.now) }
{
    for range in ranges {
        put_upper_bar(out, range)?;
    }
    Ok(())
}

fn put_upper_bar(out: &mut Vec<u8>, range: &RangeChange) -> Result<(), Memory>
    ensures text { OnOk result (out.new.items ≡ out.old.items ++ upper_bar range.now) }
    ensures few { OnOk result (length out.new.items ≤ length out.old.items + 290) }
{
    put_bar(out, b"before", &bar_of(range, 0, range.before))
}

/// Puts each range's bar after the plan.
pub(crate) fn put_lower_bars(
    out: &mut Vec<u8>,
    rows: u32,
    ranges: &[RangeChange],
) -> Result<(), Memory>
    requires { rows ≤ 255 }
    ensures text { OnOk result (out.new.items ≡ out.old.items ++ flat_map (lower_bar rows) ranges.now) }
    ensures few { OnOk result (length out.new.items ≤ length out.old.items + 290 * length ranges.now) }
{
    for range in ranges {
        put_lower_bar(out, rows, range)?;
    }
    Ok(())
}

fn put_lower_bar(out: &mut Vec<u8>, rows: u32, range: &RangeChange) -> Result<(), Memory>
    requires { rows ≤ 255 }
    ensures text { OnOk result (out.new.items ≡ out.old.items ++ lower_bar rows range.now) }
    ensures few { OnOk result (length out.new.items ≤ length out.old.items + 290) }
{
    put_bar(out, b"after", &bar_of(range, 28 * rows + 150, range.after))
}

/// Puts the bar, of the half with this name.
pub(crate) fn put_bar(out: &mut Vec<u8>, half: &[u8], bar: &Bar) -> Result<(), Memory>
    ensures text { OnOk result (out.new.items ≡ out.old.items ++ bar_text half.now bar.now) }
    ensures few { OnOk result (length out.new.items ≤ length out.old.items + (270 + length half.now)) }
{
    put_filled(
        out,
        b"<rect class=\"node-%\" x=\"%\" y=\"%\" width=\"%\" height=\"22\"",
        &[bar.row, bar.first, bar.y, bar.width],
    )?;
    put_filled(
        out,
        b" data-node=\"n%\" data-first=\"%\" data-last=\"%\" data-when=\"",
        &[bar.row, bar.first, bar.last],
    )?;
    put(out, half)?;
    put_filled(
        out,
        b"\"><title>n%: slots %-% (%)</title></rect>\n",
        &[bar.row, bar.first, bar.last, bar.width],
    )
}
