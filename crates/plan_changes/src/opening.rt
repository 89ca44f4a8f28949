//! How many slots stand open at the same time.
ghost use Rattle.std.specs.Prelude.{◌≡◌, ℕ, IfOk, List, cond, length, max};
ghost use Rattle.cluster_admin.specs.Phases.{closed_by};
ghost use Rattle.plan_semantics.specs.Plans.{Legal, slot_named};
ghost use Rattle.plan_changes.specs.Opening.{IsMostCounted, IsMostOpen, left_after, lefts_after, open_in};

use crate::zeros::wide_zeros;
use byte_texts::Memory;
use key_slots::{SLOTS, Slot};
use plan_language::PlanCommand;
use std::alloc::Global;

/// How many slots stand open at the same time, at most, where these commands run in a cluster of so many nodes. A slot
/// opens with its importing command, and closes with the last command of its move, or where it is set stable.
pub fn most_open(alloc: Global, commands: &[PlanCommand], nodes: u8) -> Result<u32, Memory>
    ensures counted { IfOk result (λ most. IsMostCounted nodes commands.now most) }
    ensures by_phases { IfOk result
        (λ most. (version : ℕ) (owners : List ℕ) → Legal version commands.now (closed_by owners) nodes
        → IsMostOpen nodes commands.now owners most) }
{
    let mut lefts = wide_zeros(alloc, SLOTS)?;
    let mut opened = 0;
    let mut most = 0;
    for command in commands {
        opened = play(&mut lefts, opened, command, nodes);
        most = greater(most, opened);
    }
    Ok(most)
}

/// The greater of the two.
fn greater(most: u32, opened: u32) -> u32
    ensures { result ≡ max most opened }
{
    most.max(opened)
}

/// How many slots stand open after the command, where so many stood open before it.
fn play(lefts: &mut Vec<u16>, opened: u32, command: &PlanCommand, nodes: u8) -> u32
    requires width { length lefts.old.items ≡ 16384 }
    requires open_before { opened ≡ open_in lefts.old.items }
    ensures lefts { lefts.new.items ≡ lefts_after nodes lefts.old.items command.now }
    ensures open_after { result ≡ open_in lefts.new.items }
{
    let place = usize::from(slot_of(command).get());
    let before = lefts[place];
    let after = left_after(nodes, before, command);
    lefts[place] = after;
    (opened - one_if(before != 0)) + one_if(after != 0)
}

/// One, if it is so, and else none.
fn one_if(is_so: bool) -> u32
    ensures { result ≡ cond is_so 1 0 }
{
    if is_so { 1 } else { 0 }
}

/// How many commands of its slot's leg are left after the command, where so many were left before it.
fn left_after(nodes: u8, left: u16, command: &PlanCommand) -> u16
    ensures { result ≡ left_after nodes left command.now }
{
    let nodes = u16::from(nodes);
    match *command {
        PlanCommand::Importing { .. } => nodes + 2,
        PlanCommand::Stable { .. } => 0,
        _ => left.saturating_sub(1),
    }
}

/// The slot that the command names.
fn slot_of(command: &PlanCommand) -> Slot
    ensures { result ≡ slot_named command.now }
{
    match *command {
        PlanCommand::Importing { slot, .. } => slot,
        PlanCommand::Migrating { slot, .. } => slot,
        PlanCommand::Drain { slot, .. } => slot,
        PlanCommand::SetNode { slot, .. } => slot,
        PlanCommand::Stable { slot, .. } => slot,
    }
}
