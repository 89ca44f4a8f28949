//! Moves of a member from one set to another.
ghost use Rattle.std.specs.Prelude.{◌≡◌, [], ◌∷◌, IfOk, OnErr, option_map};
ghost use Rattle.store_commands.specs.SetActs.{goes_over};
ghost use Rattle.store_commands.specs.Effects.{IsChange};
ghost use Rattle.client_commands.specs.declared.command.Command.TheVariants as command;
ghost use Rattle.store_commands.specs.Memory.{HasWork, MayTakeMemory, Writes};

use crate::change::Change;
use crate::commit::one_text;
use crate::effect::Effect;
use crate::entries::Entries;
use crate::perform::replies::collection_refusal;
use byte_texts::{Text, TextList};
use client_commands::KeyPair;
use resp2_wire::Reply;
use std::alloc::{AllocError, Global};
use typed_values::{MemberSet, Value, ValueFault};

/// Moves the member from the set at the first key to the set at the second.
pub(crate) fn smove<E: Entries>(
    alloc: Global,
    entries: &E,
    keys: &KeyPair,
    member: &Text,
) -> Result<Change, AllocError>
    ensures change { IfOk result (λ c. IsChange (E.entries entries.now) (command.SMove keys.now member.now) c) }
    ensures work { IfOk result (λ c. HasWork c.1 → Writes (command.SMove keys.now member.now)) }
    ensures memory { OnErr result (MayTakeMemory (E.entries entries.now) (command.SMove keys.now member.now)) }
{
    let (from, to) = keys.both();
    let members = one_text(alloc, member.try_copy(alloc)?)?;
    let empty = MemberSet::new(alloc);
    let goes = goes_over(
        &members,
        member,
        entries.get(from.get()),
        entries.get(to.get()),
        &empty,
    );
    let is_moved = match goes {
        Ok(is_moved) => is_moved,
        Err(fault) => {
            let reply = collection_refusal(alloc, fault)?;
            return Ok(Change::new(alloc, reply, Effect::Nothing));
        }
    };
    if !is_moved {
        return Ok(Change::new(alloc, Reply::truth(false), Effect::Nothing));
    }
    if from.get() == to.get() {
        return Ok(Change::new(alloc, Reply::truth(true), Effect::Nothing));
    }
    let effect = Effect::MoveMember(keys.try_copy(alloc)?, member.try_copy(alloc)?);
    Ok(Change::new(alloc, Reply::truth(true), effect))
}

/// Whether the member goes from the one value to the other, or why it cannot. A missing second set is the empty one.
fn goes_over(
    members: &TextList,
    member: &Text,
    from: Option<&Value>,
    to: Option<&Value>,
    empty: &MemberSet,
) -> Result<bool, ValueFault>
    requires list { members.now ≡ member.now ∷ [] }
    requires none { empty.now ≡ [] }
    ensures { result ≡ goes_over member.now (option_map (λ v. v.now) from.entry) (option_map (λ v. v.now) to.entry) }
{
    let Some(from) = from else {
        return Ok(false);
    };
    let from = from.as_set()?;
    let to = match to {
        Some(to) => to.as_set()?,
        None => empty,
    };
    if !from.contains(member.get()) {
        return Ok(false);
    }
    to.count_new(members)?;
    Ok(true)
}
