//! Ranges and runs of slots, as JSON.
ghost use Rattle.std.specs.Prelude.{◌≡◌, ◌≤◌, ◌+◌, ◌*◌, ◌++◌, map, IfOk, OnOk, length};
ghost use Rattle.std.specs.List.{flat_map};
ghost use Rattle.serde_json.specs.Data.{no_members};
ghost use Rattle.serde_json.specs.View.{view, members_view};
ghost use Rattle.plan_json.specs.Sizes.{items_size, size};
ghost use Rattle.plan_json.specs.Values.{move_items, run_data, with_move, with_run};

use crate::members::{Members, push_object, put_count, put_node_name};
use byte_texts::Memory;
use plan_outlines::{RangeChange, SlotRun};
use serde_json::Value;
use std::alloc::Global;

/// An object for each range whose owner changes.
pub(crate) fn move_values(alloc: Global, ranges: &[RangeChange]) -> Result<Vec<Value>, Memory>
    ensures told { IfOk result (λ vs. map view vs.items ≡ flat_map move_items ranges.now) }
    ensures few { IfOk result (λ vs. items_size (map view vs.items) ≤ 1 + 240 * length ranges.now) }
{
    let mut values = Vec::new(alloc);
    for range in ranges {
        push_move(alloc, &mut values, range)?;
    }
    Ok(values)
}

/// Puts the object of the range at the end, if its owner changes.
fn push_move(alloc: Global, values: &mut Vec<Value>, range: &RangeChange) -> Result<(), Memory>
    ensures told { OnOk result (map view values.new.items
        ≡ map view values.old.items ++ move_items range.now) }
    ensures few { OnOk result (items_size (map view values.new.items)
        ≤ items_size (map view values.old.items) + 240) }
{
    if !range.moves() {
        return Ok(());
    }
    push_object(values, move_members(alloc, range)?)
}

fn move_members(alloc: Global, range: &RangeChange) -> Result<Members, Memory>
    ensures told { IfOk result (λ ms. members_view ms.entries ≡ with_move range.now no_members) }
    ensures few { IfOk result (λ ms. size (members_view ms.entries) ≤ 235) }
{
    let mut members = Members::new(alloc);
    put_move(&mut members, alloc, range)?;
    Ok(members)
}

#[tactic(auto, unfolding(crate::specs::Values::with_move))]
fn put_move(members: &mut Members, alloc: Global, range: &RangeChange) -> Result<(), Memory>
    ensures told { OnOk result (members_view members.new.entries
        ≡ with_move range.now (members_view members.old.entries)) }
    ensures few { OnOk result (size (members_view members.new.entries)
        ≤ size (members_view members.old.entries) + 234) }
{
    put_count(members, alloc, "first", u64::from(range.first.get()))?;
    put_count(members, alloc, "last", u64::from(range.last.get()))?;
    put_node_name(members, alloc, "source", range.before)?;
    put_node_name(members, alloc, "target", range.after)
}

/// An object for each run.
pub(crate) fn run_values(alloc: Global, runs: &[SlotRun]) -> Result<Vec<Value>, Memory>
    ensures told { IfOk result (λ vs. map view vs.items ≡ map run_data runs.now) }
    ensures few { IfOk result (λ vs. items_size (map view vs.items) ≤ 1 + 110 * length runs.now) }
{
    let mut values = Vec::new(alloc);
    for run in runs {
        push_object(&mut values, run_members(alloc, run)?)?;
    }
    Ok(values)
}

fn run_members(alloc: Global, run: &SlotRun) -> Result<Members, Memory>
    ensures told { IfOk result (λ ms. members_view ms.entries ≡ with_run run.now no_members) }
    ensures few { IfOk result (λ ms. size (members_view ms.entries) ≤ 103) }
{
    let mut members = Members::new(alloc);
    put_run(&mut members, alloc, run)?;
    Ok(members)
}

#[tactic(auto, unfolding(crate::specs::Values::with_run))]
fn put_run(members: &mut Members, alloc: Global, run: &SlotRun) -> Result<(), Memory>
    ensures told { OnOk result (members_view members.new.entries
        ≡ with_run run.now (members_view members.old.entries)) }
    ensures few { OnOk result (size (members_view members.new.entries)
        ≤ size (members_view members.old.entries) + 102) }
{
    put_count(members, alloc, "first", u64::from(run.first.get()))?;
    put_count(members, alloc, "last", u64::from(run.last.get()))
}
