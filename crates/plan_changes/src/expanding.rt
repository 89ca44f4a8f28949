//! The commands of a plan, as a list.
ghost use Rattle.std.specs.Prelude.{◌≡◌, ◌<◌, ◌^◌, IfOk, length};
ghost use Rattle.plan_language.specs.Lines.{plan_commands};

use byte_texts::Memory;
use plan_language::{Plan, PlanCommand, PlanCommands};

/// The commands that the plan stands for, in a cluster of so many nodes.
pub fn expand(plan: &Plan, nodes: u8) -> Result<Vec<PlanCommand>, Memory>
    ensures commands { IfOk result (λ v. v.items ≡ plan_commands nodes plan.now.lines) }
    ensures few { IfOk result (λ v. length v.items < 2 ^ 32) }
{
    let length = plan.expanded_len(nodes);
    let mut commands = Vec::with_capacity(plan.allocator(), length as usize)?;
    let mut left = PlanCommands::of(plan.try_copy()?, nodes);
    while let Some(command) = left.next() {
        commands.extend_from_slice(&[command])?;
    }
    Ok(commands)
}
