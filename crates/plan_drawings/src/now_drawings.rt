//! The picture of what is there, without a plan.
ghost use Rattle.std.specs.Prelude.{◌≡◌, ◌++◌, ◌≤◌, IfOk, OnOk, codes, ◌+◌, ◌*◌, length};
ghost use Rattle.std.specs.List.{flat_map};
ghost use Rattle.plan_drawings.specs.Now.{mark_text, now_bands, now_bar, now_front, now_labels, now_text, open_mark};
ghost use Rattle.plan_drawings.specs.Now.{now_parts};

use crate::bars::{bar_of, put_bar};
use crate::filling::{put, put_filled};
use crate::frames::{put_bands_opening, put_colours, put_opening, put_scale};
use crate::layouts::row_count;
use crate::now_words::{open_count, put_now_heading, put_now_naming, put_open_list};
use crate::open_slots::OpenSlot;
use crate::rows::{put_each_upper_name, put_empty_bands, put_half_word};
use byte_texts::Memory;
use plan_outlines::{NodeChange, RangeChange};
use std::alloc::Global;

/// The picture of what is there, as an SVG like that of a plan: a band for each node with the ranges whose `before` it
/// is, the slots that stand open over the bands of the nodes from which they go, and a list of these by name. It is
/// ASCII. Its height counts 255 nodes and 16,384 open slots at most, which is all that there can be.
pub fn now_drawing(
    alloc: Global,
    ranges: &[RangeChange],
    nodes: &[NodeChange],
    open_slots: &[OpenSlot],
) -> Result<Vec<u8>, Memory>
    ensures text { IfOk result (λ t. t.items ≡ now_text ranges.now nodes.now open_slots.now) }
    ensures few { IfOk result (λ t. length t.items ≤ 3420 + (280 * length ranges.now
        + (570 * length nodes.now + 430 * length open_slots.now))) }
{
    let mut out = Vec::new(alloc);
    put_now(&mut out, ranges, nodes, open_slots)?;
    Ok(out)
}

fn put_now(
    out: &mut Vec<u8>,
    ranges: &[RangeChange],
    nodes: &[NodeChange],
    open_slots: &[OpenSlot],
) -> Result<(), Memory>
    ensures text { OnOk result (out.new.items ≡ out.old.items ++ now_text ranges.now nodes.now open_slots.now) }
    ensures few { OnOk result (length out.new.items
        ≤ length out.old.items + (3420 + (280 * length ranges.now
        + (570 * length nodes.now + 430 * length open_slots.now)))) }
{
    put_now_parts(
        out,
        row_count(nodes),
        open_count(open_slots),
        ranges,
        nodes,
        open_slots,
    )
}

fn put_now_parts(
    out: &mut Vec<u8>,
    rows: u32,
    count: u32,
    ranges: &[RangeChange],
    nodes: &[NodeChange],
    open_slots: &[OpenSlot],
) -> Result<(), Memory>
    requires rows { rows ≤ 255 }
    requires count { count ≤ 16384 }
    ensures text { OnOk result (out.new.items
        ≡ out.old.items ++ now_parts rows count ranges.now nodes.now open_slots.now) }
    ensures few { OnOk result (length out.new.items
        ≤ length out.old.items + (3420 + (280 * length ranges.now
        + (570 * length nodes.now + 430 * length open_slots.now)))) }
{
    put_now_front(
        out,
        rows,
        28 * rows + 22 * count + 186,
        count,
        nodes,
        open_slots,
    )?;
    put_now_bands(out, rows, ranges, nodes, open_slots)?;
    put_now_labels(out, rows, nodes)?;
    put_open_list(out, 28 * rows, count, open_slots)?;
    put(out, b"</svg>\n")
}

/// Puts all that stands before the bands.
fn put_now_front(
    out: &mut Vec<u8>,
    rows: u32,
    height: u32,
    count: u32,
    nodes: &[NodeChange],
    open_slots: &[OpenSlot],
) -> Result<(), Memory>
    ensures text { OnOk result (out.new.items ≡ out.old.items ++ now_front rows height count nodes.now open_slots.now) }
    ensures few { OnOk result (length out.new.items
        ≤ length out.old.items + (2680 + (360 * length nodes.now + 60 * length open_slots.now))) }
{
    put_opening(out, height)?;
    put_now_naming(out, rows, count, nodes, open_slots)?;
    put_colours(out, nodes)?;
    put_now_heading(out, height, rows, count)
}

/// Puts the bands, and the open slots over them.
fn put_now_bands(
    out: &mut Vec<u8>,
    rows: u32,
    ranges: &[RangeChange],
    nodes: &[NodeChange],
    open_slots: &[OpenSlot],
) -> Result<(), Memory>
    requires { rows ≤ 255 }
    ensures text { OnOk result (out.new.items ≡ out.old.items ++ now_bands rows ranges.now nodes.now open_slots.now) }
    ensures few { OnOk result (length out.new.items
        ≤ length out.old.items + (230 + (70 * length nodes.now
        + (280 * length ranges.now + 220 * length open_slots.now)))) }
{
    put_bands_opening(out, 28 * rows)?;
    put_empty_bands(out, 0, nodes)?;
    put_now_bars(out, ranges)?;
    put_open_marks(out, open_slots)?;
    put(out, b"</svg>\n")
}

fn put_now_bars(out: &mut Vec<u8>, ranges: &[RangeChange]) -> Result<(), Memory>
    ensures text { OnOk result (out.new.items ≡ out.old.items ++ flat_map now_bar ranges.now) }
    ensures few { OnOk result (length out.new.items ≤ length out.old.items + 280 * length ranges.now) }
{
    for range in ranges {
        put_now_bar(out, range)?;
    }
    Ok(())
}

fn put_now_bar(out: &mut Vec<u8>, range: &RangeChange) -> Result<(), Memory>
    ensures text { OnOk result (out.new.items ≡ out.old.items ++ now_bar range.now) }
    ensures few { OnOk result (length out.new.items ≤ length out.old.items + 280) }
{
    put_bar(out, b"now", &bar_of(range, 0, range.before))
}

fn put_open_marks(out: &mut Vec<u8>, open_slots: &[OpenSlot]) -> Result<(), Memory>
    ensures text { OnOk result (out.new.items ≡ out.old.items ++ flat_map open_mark open_slots.now) }
    ensures few { OnOk result (length out.new.items ≤ length out.old.items + 220 * length open_slots.now) }
{
    for open_slot in open_slots {
        put_open_mark(out, open_slot)?;
    }
    Ok(())
}

fn put_open_mark(out: &mut Vec<u8>, open_slot: &OpenSlot) -> Result<(), Memory>
    ensures text { OnOk result (out.new.items ≡ out.old.items ++ open_mark open_slot.now) }
    ensures few { OnOk result (length out.new.items ≤ length out.old.items + 220) }
{
    let slot = u32::from(open_slot.slot.get());
    let source = u32::from(open_slot.source.get());
    let target = u32::from(open_slot.target.get());
    put_mark(out, slot, source, target)
}

/// Puts the open slot as a hatched mark, on the band of the node from which it goes.
fn put_mark(out: &mut Vec<u8>, slot: u32, source: u32, target: u32) -> Result<(), Memory>
    requires { source ≤ 255 }
    ensures text { OnOk result (out.new.items ≡ out.old.items ++ mark_text slot source target) }
    ensures few { OnOk result (length out.new.items ≤ length out.old.items + 220) }
{
    put_filled(
        out,
        b"<path class=\"open\" d=\"M% %v22\" data-slot=\"%\" data-source=\"n%\" data-target=\"n%\">",
        &[slot, 28 * source, slot, source, target],
    )?;
    put_filled(
        out,
        b"<title>slot %: from n% to n%</title></path>\n",
        &[slot, source, target],
    )
}

/// Puts what stands beside the bands.
fn put_now_labels(out: &mut Vec<u8>, rows: u32, nodes: &[NodeChange]) -> Result<(), Memory>
    requires { rows ≤ 255 }
    ensures text { OnOk result (out.new.items ≡ out.old.items ++ now_labels rows nodes.now) }
    ensures few { OnOk result (length out.new.items ≤ length out.old.items + (370 + 140 * length nodes.now)) }
{
    put_half_word(out, 76, b"now")?;
    put_each_upper_name(out, nodes)?;
    put_scale(out, 28 * rows)
}
