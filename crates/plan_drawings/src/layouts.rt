//! Where things stand in the picture.
ghost use Rattle.std.specs.Prelude.{◌≡◌, ◌≤◌, ◌+◌, ◌*◌};
ghost use Rattle.plan_drawings.specs.Layouts.{bands_height, line_count, lower_y, middle_x, moved, moved_in, row_count};
ghost use Rattle.plan_drawings.specs.Layouts.{slots_in, upper_y, whole_height};

use plan_outlines::{NodeChange, PairChange, RangeChange};

/// How many rows each half has.
pub(crate) fn row_count(nodes: &[NodeChange]) -> u32
    ensures value { result ≡ row_count nodes.now }
    ensures few { result ≤ 255 }
{
    nodes.len().min(255) as u32
}

/// How many lines the legend has.
pub(crate) fn line_count(pairs: &[PairChange]) -> u32
    ensures value { result ≡ line_count pairs.now }
    ensures few { result ≤ 65025 }
{
    pairs.len().min(65_025) as u32
}

/// The upper edge of a row before the plan.
pub(crate) fn upper_y(row: u8) -> u32
    ensures value { result ≡ upper_y row }
    ensures few { result ≤ 7140 }
{
    28 * u32::from(row)
}

/// The upper edge of a row after the plan.
pub(crate) fn lower_y(rows: u32, row: u8) -> u32
    requires { rows ≤ 255 }
    ensures value { result ≡ lower_y rows row }
    ensures few { result ≤ 14430 }
{
    28 * rows + 150 + 28 * u32::from(row)
}

/// How high all bands are.
pub(crate) fn bands_height(rows: u32) -> u32
    requires { rows ≤ 255 }
    ensures value { result ≡ bands_height rows }
    ensures few { result ≤ 14430 }
{
    56 * rows + 150
}

/// How high the whole picture is.
pub(crate) fn whole_height(rows: u32, lines: u32) -> u32
    requires rows { rows ≤ 255 }
    requires lines { lines ≤ 65025 }
    ensures { result ≡ whole_height rows lines }
{
    56 * rows + 22 * lines + 310
}

/// How many slots the range has.
pub(crate) fn slots_in(range: &RangeChange) -> u32
    ensures value { result ≡ slots_in range.now }
    ensures few { result ≤ 16384 }
{
    (u32::from(range.last.get()) + 1).saturating_sub(u32::from(range.first.get()))
}

/// How many of them get another owner.
fn moved_in(range: &RangeChange) -> u32
    ensures value { result ≡ moved_in range.now }
    ensures few { result ≤ 16384 }
{
    if range.before.get() == range.after.get() {
        0
    } else {
        slots_in(range)
    }
}

/// How many slots get another owner.
pub(crate) fn moved(ranges: &[RangeChange]) -> u32
    ensures { result ≡ moved ranges.now }
{
    let mut total = 0u32;
    for range in ranges {
        total = (total + moved_in(range)).min(16_384);
    }
    total
}

/// The middle of the range, in the whole picture.
pub(crate) fn middle_x(range: &RangeChange) -> u32
    ensures { result ≡ middle_x range.now }
{
    90 + 900 * (u32::from(range.first.get()) + u32::from(range.last.get()) + 1) / 32_768
}
