//! The ribbons: from each range that gets another owner before the plan to the same range after it.
ghost use Rattle.std.specs.Prelude.{◌≡◌, ◌++◌, ◌≤◌, ◌+◌, OnOk, ◌*◌, length};
ghost use Rattle.std.specs.List.{flat_map};
ghost use Rattle.plan_drawings.specs.Bars.{count_text, ribbon, ribbon_count, ribbon_of, ribbon_text};

use crate::filling::put_filled;
use crate::layouts::{lower_y, middle_x, slots_in, upper_y};
use byte_texts::Memory;
use plan_outlines::RangeChange;

/// Adjacent slots that get another owner, which are drawn as one ribbon.
#[derive(Clone, Copy)]
pub struct Ribbon {
    pub source: u32,
    pub target: u32,
    pub first: u32,
    pub last: u32,
    /// The slot after the last: the right edge.
    pub end: u32,
    /// How many slots these are.
    pub slots: u32,
    /// The lower edge of the bar before the plan, where the ribbon begins.
    pub upper: u32,
    /// The upper edge of the bar after the plan, where it ends.
    pub lower: u32,
}

/// Puts the ribbons.
pub(crate) fn put_ribbons(
    out: &mut Vec<u8>,
    rows: u32,
    ranges: &[RangeChange],
) -> Result<(), Memory>
    requires { rows ≤ 255 }
    ensures text { OnOk result (out.new.items ≡ out.old.items ++ flat_map (ribbon rows) ranges.now) }
    ensures few { OnOk result (length out.new.items ≤ length out.old.items + 330 * length ranges.now) }
{
    for range in ranges {
        put_ribbon(out, rows, range)?;
    }
    Ok(())
}

/// Puts the range's ribbon, if it gets another owner.
fn put_ribbon(out: &mut Vec<u8>, rows: u32, range: &RangeChange) -> Result<(), Memory>
    requires { rows ≤ 255 }
    ensures text { OnOk result (out.new.items ≡ out.old.items ++ ribbon rows range.now) }
    ensures few { OnOk result (length out.new.items ≤ length out.old.items + 330) }
{
    if range.before.get() == range.after.get() {
        Ok(())
    } else {
        put_ribbon_text(out, &ribbon_of(rows, range))
    }
}

/// From the range's bar before the plan to the one after it.
fn ribbon_of(rows: u32, range: &RangeChange) -> Ribbon
    requires { rows ≤ 255 }
    ensures { result ≡ ribbon_of rows range.now }
{
    Ribbon {
        source: u32::from(range.before.get()),
        target: u32::from(range.after.get()),
        first: u32::from(range.first.get()),
        last: u32::from(range.last.get()),
        end: u32::from(range.last.get()) + 1,
        slots: slots_in(range),
        upper: upper_y(range.before.get()) + 22,
        lower: lower_y(rows, range.after.get()),
    }
}

fn put_ribbon_text(out: &mut Vec<u8>, ribbon: &Ribbon) -> Result<(), Memory>
    ensures text { OnOk result (out.new.items ≡ out.old.items ++ ribbon_text ribbon.now) }
    ensures few { OnOk result (length out.new.items ≤ length out.old.items + 330) }
{
    put_filled(
        out,
        b"<path class=\"ribbon node-%\" d=\"M% %H%V%H%Z\"",
        &[
            ribbon.source,
            ribbon.first,
            ribbon.upper,
            ribbon.end,
            ribbon.lower,
            ribbon.first,
        ],
    )?;
    put_filled(
        out,
        b" data-source=\"n%\" data-target=\"n%\" data-first=\"%\" data-last=\"%\">",
        &[ribbon.source, ribbon.target, ribbon.first, ribbon.last],
    )?;
    put_filled(
        out,
        b"<title>n% to n%: slots %-% (%)</title></path>\n",
        &[
            ribbon.source,
            ribbon.target,
            ribbon.first,
            ribbon.last,
            ribbon.slots,
        ],
    )
}

/// Puts the ribbons' numbers of slots.
pub(crate) fn put_ribbon_counts(
    out: &mut Vec<u8>,
    rows: u32,
    ranges: &[RangeChange],
) -> Result<(), Memory>
    requires { rows ≤ 255 }
    ensures text { OnOk result (out.new.items ≡ out.old.items ++ flat_map (ribbon_count rows) ranges.now) }
    ensures few { OnOk result (length out.new.items ≤ length out.old.items + 80 * length ranges.now) }
{
    for range in ranges {
        put_ribbon_count(out, rows, range)?;
    }
    Ok(())
}

fn put_ribbon_count(out: &mut Vec<u8>, rows: u32, range: &RangeChange) -> Result<(), Memory>
    requires { rows ≤ 255 }
    ensures text { OnOk result (out.new.items ≡ out.old.items ++ ribbon_count rows range.now) }
    ensures few { OnOk result (length out.new.items ≤ length out.old.items + 80) }
{
    if range.before.get() == range.after.get() {
        Ok(())
    } else {
        put_count(out, rows, range)
    }
}

/// Puts the number of slots in the middle between the halves, if the ribbon is as wide as the number.
fn put_count(out: &mut Vec<u8>, rows: u32, range: &RangeChange) -> Result<(), Memory>
    requires { rows ≤ 255 }
    ensures text { OnOk result (out.new.items ≡ out.old.items ++ count_text rows range.now) }
    ensures few { OnOk result (length out.new.items ≤ length out.old.items + 80) }
{
    let slots = slots_in(range);
    if slots < 400 {
        return Ok(());
    }
    put_filled(
        out,
        b"<text class=\"count\" x=\"%\" y=\"%\">%</text>\n",
        &[middle_x(range), 28 * rows + 160, slots],
    )
}
