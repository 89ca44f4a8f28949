ghost use Rattle.std.specs.Prelude.{◌≡◌, ◌<◌, IfOk};
ghost use Rattle.std.specs.List.{All};

use byte_texts::Memory;
use key_slots::{NodeId, OwnerTable, Slot};
use plan_language::Plan;
use reshard_planner::{PlannerFault, rebalance, reshard};
use std::alloc::Global;

/// What a planner is asked, of eight nodes.
#[derive(Clone, Copy)]
pub enum Goal {
    /// The node that owns all slots hands them over to another.
    ReshardAll,
    /// Seven nodes hand the slots over that they own in turn: each slot is a range of its own.
    ReshardInTurn,
    /// The node that owns all slots parts them among the seven others.
    RebalanceAll,
    /// Seven nodes lose all weight, and the slots that they own in turn.
    RebalanceInTurn,
}

const NODES: u8 = 8;

const BATCH: u16 = 10;

/// The goal that a job's name stands for.
pub fn read_goal(name: &str) -> Option<Goal> {
    match name {
        "reshard-all" => Some(Goal::ReshardAll),
        "reshard-in-turn" => Some(Goal::ReshardInTurn),
        "rebalance-all" => Some(Goal::RebalanceAll),
        "rebalance-in-turn" => Some(Goal::RebalanceInTurn),
        _ => None,
    }
}

/// Plans for the goal so many times, and returns how many commands the plan stands for.
pub fn plan_often(alloc: Global, goal: Goal, times: usize) -> anyhow::Result<u64> {
    let mut commands = 0;
    let owners = owners_of(alloc, goal)?;
    for _ in 0..times {
        let plan = plan_for(alloc, goal, &owners)?;
        commands = u64::from(plan.expanded_len(NODES));
    }
    Ok(commands)
}

fn owners_of(alloc: Global, goal: Goal) -> Result<OwnerTable, Memory>
    ensures nodes { IfOk result (λ t. t.nodes ≡ 8) }
{
    let mut owners = OwnerTable::even(alloc, NODES, 1)?;
    match goal {
        Goal::ReshardAll | Goal::RebalanceAll => {}
        Goal::ReshardInTurn | Goal::RebalanceInTurn => own_in_turn(&mut owners),
    }
    Ok(owners)
}

fn own_in_turn(owners: &mut OwnerTable)
    ensures nodes { owners.new.nodes ≡ owners.old.nodes }
{
    for slot in 0..16_384u16 {
        let node = NodeId::of((slot % 8) as u8);
        if node.get() < owners.nodes() {
            owners.set(Slot::of(slot), node);
        }
    }
}

fn plan_for(alloc: Global, goal: Goal, owners: &OwnerTable) -> Result<Plan, PlannerFault>
    requires nodes { owners.now.nodes ≡ 8 }
{
    let (n0, n1, n2, n3) = (NodeId::of(0), NodeId::of(1), NodeId::of(2), NodeId::of(3));
    let (n4, n5, n6, n7) = (NodeId::of(4), NodeId::of(5), NodeId::of(6), NodeId::of(7));
    match goal {
        Goal::ReshardAll => reshard(alloc, owners, &[n0], n1, 16_384, BATCH),
        Goal::ReshardInTurn => {
            let sources = [n1, n2, n3, n4, n5, n6, n7];
            reshard(alloc, owners, &sources, n0, 14_336, BATCH)
        }
        Goal::RebalanceAll => {
            rebalance(alloc, owners, &[0, 1, 1, 1, 1, 1, 1, 1], 0, true, BATCH)
        }
        Goal::RebalanceInTurn => {
            rebalance(alloc, owners, &[1, 0, 0, 0, 0, 0, 0, 0], 0, true, BATCH)
        }
    }
}
