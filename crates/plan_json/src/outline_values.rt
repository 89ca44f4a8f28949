//! The whole of a plan, as JSON.
ghost use Rattle.std.specs.Prelude.{◌≡◌, ◌≤◌, ◌+◌, ◌*◌, IfOk, OnOk, length};
ghost use Rattle.serde_json.specs.Data.{no_members};
ghost use Rattle.serde_json.specs.View.{members_view};
ghost use Rattle.plan_json.specs.Sizes.{longest, size, text_size};
ghost use Rattle.plan_json.specs.Values.{with_commands, with_counts, with_load, with_moves, with_outline, with_runs};
ghost use Rattle.plan_json.specs.Values.{with_stop, with_verdict};

use crate::members::{Members, put_count, put_figure, put_list, put_object, put_str, put_text};
use crate::node_values::node_values;
use crate::pair_values::pair_values;
use crate::slot_values::{move_values, run_values};
use byte_texts::Memory;
use plan_outlines::{CommandCounts, KeyLoad, NodeServer, PlanOutline};
use std::alloc::Global;

/// The members of the object that tells what a plan comes to.
pub(crate) fn outline_members(
    alloc: Global,
    outline: &PlanOutline,
    servers: &[NodeServer],
    commands: u32,
    resume: &[u8],
) -> Result<Members, Memory>
    ensures told { IfOk result (λ ms. members_view ms.entries
        ≡ with_outline outline.now servers.now commands resume.now no_members) }
    ensures few { IfOk result (λ ms. size (members_view ms.entries) ≤ 1251 + (240 * length outline.now.pairs.items
        + (length outline.now.nodes.items * (680 + longest servers.now) + (240 * length outline.now.ranges.items
        + (110 * (length outline.now.moved_again.items + length outline.now.moved_back.items)
        + text_size resume.now))))) }
{
    let mut members = Members::new(alloc);
    put_outline(&mut members, alloc, outline, servers, commands, resume)?;
    Ok(members)
}

#[tactic(auto, unfolding(crate::specs::Values::with_outline))]
fn put_outline(
    members: &mut Members,
    alloc: Global,
    outline: &PlanOutline,
    servers: &[NodeServer],
    commands: u32,
    resume: &[u8],
) -> Result<(), Memory>
    ensures told { OnOk result (members_view members.new.entries
        ≡ with_outline outline.now servers.now commands resume.now (members_view members.old.entries)) }
    ensures few { OnOk result (size (members_view members.new.entries)
        ≤ size (members_view members.old.entries) + (1250 + (240 * length outline.now.pairs.items
        + (length outline.now.nodes.items * (680 + longest servers.now) + (240 * length outline.now.ranges.items
        + (110 * (length outline.now.moved_again.items + length outline.now.moved_back.items)
        + text_size resume.now)))))) }
{
    put_verdict(members, alloc, commands)?;
    put_moves(members, alloc, outline, servers)?;
    put_commands(members, alloc, outline)?;
    put_load(members, alloc, outline.load)?;
    put_runs(members, alloc, outline)?;
    put_stop(members, alloc, outline.most_open, resume)
}

#[tactic(auto, unfolding(crate::specs::Values::with_verdict))]
fn put_verdict(members: &mut Members, alloc: Global, commands: u32) -> Result<(), Memory>
    ensures told { OnOk result (members_view members.new.entries
        ≡ with_verdict commands (members_view members.old.entries)) }
    ensures few { OnOk result (size (members_view members.new.entries)
        ≤ size (members_view members.old.entries) + 170) }
{
    put_str(members, alloc, "verdict", "verified")?;
    put_count(members, alloc, "commands", u64::from(commands))
}

/// Puts the pairs of nodes, the nodes with their servers, and the ranges whose owner changes.
#[tactic(auto, unfolding(crate::specs::Values::with_moves))]
fn put_moves(
    members: &mut Members,
    alloc: Global,
    outline: &PlanOutline,
    servers: &[NodeServer],
) -> Result<(), Memory>
    ensures told { OnOk result (members_view members.new.entries
        ≡ with_moves outline.now servers.now (members_view members.old.entries)) }
    ensures few { OnOk result (size (members_view members.new.entries)
        ≤ size (members_view members.old.entries) + (110 + (240 * length outline.now.pairs.items
        + (length outline.now.nodes.items * (680 + longest servers.now) + 240 * length outline.now.ranges.items)))) }
{
    let has_keys = outline.load.is_some();
    let pairs = pair_values(alloc, outline.pairs.as_slice(), has_keys)?;
    put_list(members, alloc, "pairs", pairs)?;
    let nodes = node_values(alloc, outline.nodes.as_slice(), servers)?;
    put_list(members, alloc, "nodes", nodes)?;
    let moves = move_values(alloc, outline.ranges.as_slice())?;
    put_list(members, alloc, "moves", moves)
}

/// Puts how many commands there are, and how many keys a batch has.
#[tactic(auto, unfolding(crate::specs::Values::with_commands))]
fn put_commands(members: &mut Members, alloc: Global, outline: &PlanOutline) -> Result<(), Memory>
    ensures told { OnOk result (members_view members.new.entries
        ≡ with_commands outline.now (members_view members.old.entries)) }
    ensures few { OnOk result (size (members_view members.new.entries)
        ≤ size (members_view members.old.entries) + 540) }
{
    let counts = count_members(alloc, &outline.counts)?;
    put_object(members, alloc, "counts", counts)?;
    put_count(
        members,
        alloc,
        "least_batch",
        u64::from(outline.least_batch),
    )?;
    put_count(members, alloc, "most_batch", u64::from(outline.most_batch))
}

fn count_members(alloc: Global, counts: &CommandCounts) -> Result<Members, Memory>
    ensures told { IfOk result (λ ms. members_view ms.entries ≡ with_counts counts.now no_members) }
    ensures few { IfOk result (λ ms. size (members_view ms.entries) ≤ 319) }
{
    let mut members = Members::new(alloc);
    put_counts(&mut members, alloc, counts)?;
    Ok(members)
}

#[tactic(auto, unfolding(crate::specs::Values::with_counts))]
fn put_counts(members: &mut Members, alloc: Global, counts: &CommandCounts) -> Result<(), Memory>
    ensures told { OnOk result (members_view members.new.entries
        ≡ with_counts counts.now (members_view members.old.entries)) }
    ensures few { OnOk result (size (members_view members.new.entries)
        ≤ size (members_view members.old.entries) + 318) }
{
    put_count(members, alloc, "importing", u64::from(counts.importing))?;
    put_count(members, alloc, "migrating", u64::from(counts.migrating))?;
    put_count(members, alloc, "drain", u64::from(counts.drain))?;
    put_count(members, alloc, "node", u64::from(counts.node))?;
    put_count(members, alloc, "stable", u64::from(counts.stable))
}

/// Puts what is known of keys.
#[tactic(auto, unfolding(crate::specs::Values::with_load))]
fn put_load(members: &mut Members, alloc: Global, load: Option<KeyLoad>) -> Result<(), Memory>
    ensures told { OnOk result (members_view members.new.entries
        ≡ with_load load (members_view members.old.entries)) }
    ensures few { OnOk result (size (members_view members.new.entries)
        ≤ size (members_view members.old.entries) + 170) }
{
    put_figure(members, alloc, "keys_moved", load.map(|load| load.keys))?;
    put_figure(members, alloc, "most_calls", load.map(|load| load.calls))
}

/// Puts the slots that move more than once, and those that come back.
#[tactic(auto, unfolding(crate::specs::Values::with_runs))]
fn put_runs(members: &mut Members, alloc: Global, outline: &PlanOutline) -> Result<(), Memory>
    ensures told { OnOk result (members_view members.new.entries
        ≡ with_runs outline.now (members_view members.old.entries)) }
    ensures few { OnOk result (size (members_view members.new.entries)
        ≤ size (members_view members.old.entries)
        + (140 + 110 * (length outline.now.moved_again.items + length outline.now.moved_back.items))) }
{
    let again = run_values(alloc, outline.moved_again.as_slice())?;
    put_list(members, alloc, "moved_again", again)?;
    let back = run_values(alloc, outline.moved_back.as_slice())?;
    put_list(members, alloc, "moved_back", back)
}

/// Puts how many slots stand open, and the command line that continues.
#[tactic(auto, unfolding(crate::specs::Values::with_stop))]
fn put_stop(
    members: &mut Members,
    alloc: Global,
    most_open: u32,
    resume: &[u8],
) -> Result<(), Memory>
    ensures told { OnOk result (members_view members.new.entries
        ≡ with_stop most_open resume.now (members_view members.old.entries)) }
    ensures few { OnOk result (size (members_view members.new.entries)
        ≤ size (members_view members.old.entries) + (120 + text_size resume.now)) }
{
    put_count(members, alloc, "most_open", u64::from(most_open))?;
    put_text(members, alloc, "resume", resume)
}
