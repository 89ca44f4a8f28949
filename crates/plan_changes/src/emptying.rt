//! Nodes that a plan empties.
ghost use Rattle.std.specs.Prelude.{◌≡◌};
ghost use Rattle.plan_language.specs.Lines.{plan_commands};
ghost use Rattle.plan_changes.specs.Emptying.{empties, is_emptied, left_after};

use key_slots::NodeId;
use plan_language::{Plan, PlanCommand, PlanCommands};

/// Whether the node, which has so many slots before the plan, has none at some time of it, in a cluster of so many
/// nodes. Takes no memory.
pub fn is_emptied(plan: Plan, nodes: u8, node: NodeId, slots: u32) -> bool
    ensures { result ≡ is_emptied node (plan_commands nodes plan.lines) slots }
{
    let mut commands = PlanCommands::of(plan, nodes);
    let mut left = slots;
    while let Some(command) = commands.next() {
        if empties(&command, node, left) {
            return true;
        }
        left = left_after(&command, node, left);
    }
    false
}

/// Whether the command takes the last of the node's slots, which are so many.
fn empties(command: &PlanCommand, node: NodeId, slots: u32) -> bool
    ensures { result ≡ empties node command.now slots }
{
    match *command {
        PlanCommand::Drain { source, .. } => source == node && slots == 1,
        _ => false,
    }
}

/// How many slots the node has after the command.
fn left_after(command: &PlanCommand, node: NodeId, slots: u32) -> u32
    ensures { result ≡ left_after node command.now slots }
{
    match *command {
        PlanCommand::Drain { source, target, .. } => {
            if source == node {
                slots.saturating_sub(1)
            } else if target == node {
                slots.saturating_add(1)
            } else {
                slots
            }
        }
        _ => slots,
    }
}
