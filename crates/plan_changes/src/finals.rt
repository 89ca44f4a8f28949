//! The owners before a plan, and after it.
ghost use Rattle.std.specs.Prelude.{◌≡◌, ◌<◌, IfOk, ℕ, length};
ghost use Rattle.std.specs.List.{All};
ghost use Rattle.cluster_admin.specs.Phases.{closed_by};
ghost use Rattle.plan_semantics.specs.Plans.{IsFinal};
ghost use Rattle.plan_changes.specs.Finals.{TellsNodes, owners_after, told};

use byte_texts::Memory;
use key_slots::{NodeId, OwnerTable, Slot};
use plan_language::PlanCommand;
use std::alloc::Global;

/// The owner of each slot, from slot 0 on.
pub fn owners_before(alloc: Global, owners: &OwnerTable) -> Result<Vec<NodeId>, Memory>
    requires { length owners.now.owners ≡ 16384 }
    ensures { IfOk result (λ v. v.items ≡ owners.now.owners) }
{
    let mut before = Vec::with_capacity(alloc, 16_384)?;
    for number in 0..16_384 {
        before.push(owners.owner(Slot::of(number)))?;
    }
    Ok(before)
}

/// The owner of each slot after these commands, from slot 0 on, where these are the owners before: the one that was
/// told last.
pub fn final_owners(
    alloc: Global,
    commands: &[PlanCommand],
    before: &[NodeId],
) -> Result<Vec<NodeId>, Memory>
    requires { length before.now ≡ 16384 }
    ensures value { IfOk result (λ v. v.items ≡ owners_after commands.now before.now) }
    ensures are_final { IfOk result (λ v. IsFinal commands.now (closed_by before.now) v.items) }
    ensures width { IfOk result (λ v. length v.items ≡ 16384) }
    ensures named { IfOk result
        (λ v. (n : ℕ) → TellsNodes n commands.now → All (λ m. m < n) before.now → All (λ m. m < n) v.items) }
{
    let mut owners = Vec::from_slice(alloc, before)?;
    for command in commands {
        tell(&mut owners, command);
    }
    Ok(owners)
}

/// Puts the owner that the command tells into the table.
fn tell(owners: &mut Vec<NodeId>, command: &PlanCommand)
    requires { length owners.old.items ≡ 16384 }
    ensures { owners.new.items ≡ told owners.old.items command.now }
{
    if let PlanCommand::SetNode { slot, owner, .. } = *command {
        owners[usize::from(slot.get())] = owner;
    }
}
