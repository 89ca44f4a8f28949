//! What a plan comes to.
ghost use Rattle.std.specs.Prelude.{◌≡◌, ◌<◌, ◌^◌, ℕ, IfOk, IfSome, List, [], Option, length};
ghost use Rattle.std.specs.Prelude.{option_map, unwrap_or};
ghost use Rattle.std.specs.List.{All};
ghost use Rattle.cluster_admin.specs.Phases.{closed_by};
ghost use Rattle.plan_language.specs.Lines.{plan_commands};
ghost use Rattle.plan_semantics.specs.Plans.{Legal};
ghost use Rattle.plan_changes.specs.Finals.{owners_after};
ghost use Rattle.plan_changes.specs.Outlines.{IsOutline, load_by};

use crate::batches::{least_batch, most_batch};
use crate::counts::command_counts;
use crate::drains::{moved_again, moved_back};
use crate::expanding::expand;
use crate::finals::{final_owners, owners_before};
use crate::load::PlanLoad;
use crate::opening::most_open;
use byte_texts::Memory;
use key_slots::{NodeId, OwnerTable};
use plan_language::{Plan, PlanCommand};
use plan_outlines::{KeyLoad, PlanOutline, node_changes, pair_changes, range_changes};
use std::alloc::Global;

/// What the plan comes to, where it starts from these owners. `keys` has the number of keys of each slot, from slot 0
/// on, where that is known; else the pairs have none, and there is no load.
pub fn outline(
    plan: &Plan,
    owners: &OwnerTable,
    keys: Option<&[u32]>,
) -> Result<PlanOutline, Memory>
    requires legal { Legal plan.now.version (plan_commands owners.now.nodes plan.now.lines)
        (closed_by owners.now.owners) owners.now.nodes }
    requires keys { IfSome keys (λ k. length k.now ≡ 16384) }
    ensures { IfOk result
        (λ o. IsOutline owners.now.nodes (plan_commands owners.now.nodes plan.now.lines) owners.now.owners
        (option_map (λ k. k.now) keys.entry) o) }
{
    let nodes = owners.nodes();
    let load = key_load(plan, nodes, keys)?;
    let commands = expand(plan, nodes)?;
    let before = owners_before(plan.allocator(), owners)?;
    let after = final_owners(plan.allocator(), commands.as_slice(), before.as_slice())?;
    outline_of(
        plan.allocator(),
        nodes,
        commands.as_slice(),
        before.as_slice(),
        after.as_slice(),
        known_keys(keys),
        load,
    )
}

/// What these commands come to, where these are the owners before and after, and the keys of each slot.
fn outline_of(
    alloc: Global,
    nodes: u8,
    commands: &[PlanCommand],
    before: &[NodeId],
    after: &[NodeId],
    keys: &[u32],
    load: Option<KeyLoad>,
) -> Result<PlanOutline, Memory>
    requires few { length commands.now < 2 ^ 32 }
    requires before { length before.now ≡ 16384 }
    requires after { length after.now ≡ 16384 }
    requires named_before { All (λ n. n < nodes) before.now }
    requires named_after { All (λ n. n < nodes) after.now }
    requires are_final { after.now ≡ owners_after commands.now before.now }
    ensures { IfOk result
        (λ o. (version : ℕ) (known : Option (List ℕ)) → Legal version commands.now (closed_by before.now) nodes
        → keys.now ≡ unwrap_or known [] → load ≡ load_by known commands.now
        → IsOutline nodes commands.now before.now known o) }
{
    let most_open = most_open(alloc, commands, nodes)?;
    let ranges = range_changes(alloc, before, after)?;
    let each = node_changes(alloc, nodes, before, after)?;
    let pairs = pair_changes(alloc, nodes, before, after, keys)?;
    let moved_again = moved_again(alloc, commands)?;
    let moved_back = moved_back(alloc, commands, before, after)?;
    Ok(PlanOutline {
        ranges,
        nodes: each,
        pairs,
        counts: command_counts(commands),
        least_batch: least_batch(commands),
        most_batch: most_batch(commands),
        moved_again,
        moved_back,
        most_open,
        load,
    })
}

/// The keys where they are known, and else none.
fn known_keys(keys: Option<&[u32]>) -> &[u32]
    ensures { result.now ≡ unwrap_or (option_map (λ k. k.now) keys.entry) [] }
{
    match keys {
        None => &[],
        Some(keys) => keys,
    }
}

/// What the plan moves, where the keys are known.
fn key_load(plan: &Plan, nodes: u8, keys: Option<&[u32]>) -> Result<Option<KeyLoad>, Memory>
    requires { IfSome keys (λ k. length k.now ≡ 16384) }
    ensures { IfOk result
        (λ load. load ≡ load_by (option_map (λ k. k.now) keys.entry) (plan_commands nodes plan.now.lines)) }
{
    let Some(keys) = keys else {
        return Ok(None);
    };
    let load = PlanLoad::of(plan.try_copy()?, nodes, keys);
    Ok(Some(KeyLoad {
        keys: load.keys,
        calls: load.commands,
    }))
}
