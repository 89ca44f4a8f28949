//! Commands on the sets at one key or two.
ghost use Rattle.std.specs.Prelude.{◌≡◌, [], ◌∷◌, IfOk, OnErr, option_map};
ghost use Rattle.std.specs.FinMap.{get};
ghost use Rattle.store_commands.specs.Apply.{put_all};
ghost use Rattle.store_commands.specs.SetActs.{act_set, set_reply};
ghost use Rattle.store_commands.specs.Store.{Store};
ghost use Rattle.store_commands.specs.Effects.{with_effect};
ghost use Rattle.store_commands.specs.Memory.{HasWork, IsMade, WritesSet};

use crate::effect::Effect;
use crate::perform::replies::{count, count_or_refusal, wrong_kind};
use byte_texts::Text;
use client_commands::SetCommand;
use resp2_wire::Reply;
use std::alloc::{AllocError, Global};
use typed_values::{Edit, MemberSet, SetEdit, Value};

/// What the command answers.
pub(crate) fn reply(
    alloc: Global,
    found: Option<&Value>,
    command: &SetCommand,
) -> Result<Reply, AllocError>
    ensures reply { IfOk result (λ r. r ≡ (act_set command.now (option_map (λ v. v.now) found.entry)).0) }
    ensures memory { OnErr result (IsMade (act_set command.now (option_map (λ v. v.now) found.entry)).0) }
{
    match found {
        None => reply_of(alloc, &MemberSet::new(alloc), command),
        Some(Value::Set(members)) => reply_of(alloc, members.get(), command),
        Some(_) => wrong_kind(alloc),
    }
}

fn reply_of(alloc: Global, members: &MemberSet, command: &SetCommand) -> Result<Reply, AllocError>
    ensures reply { IfOk result (λ r. r ≡ set_reply command.now members.now) }
    ensures memory { OnErr result (IsMade (set_reply command.now members.now)) }
{
    let length = members.len();
    match command {
        SetCommand::SAdd(texts) => count_or_refusal(alloc, members.count_new(texts)),
        SetCommand::SRem(texts) => Ok(count(members.count_present(texts))),
        SetCommand::SIsMember(member) => Ok(Reply::truth(members.contains(member.get()))),
        SetCommand::SCard => Ok(count(length)),
        SetCommand::SMembers => Reply::bulk_array(alloc, members.all(alloc)?),
    }
}

/// What the command is to do, whatever stands at the key.
#[tactic(auto, unfolding(crate::specs::Apply::put_all))]
pub(crate) fn effect(alloc: Global, key: &Text, command: &SetCommand) -> Result<Effect, AllocError>
    ensures effect { IfOk result
        (λ w. (s : Store) → with_effect w s ≡ put_all s (key.now ∷ []) (act_set command.now (get s key.now)).1) }
    ensures work { IfOk result (λ w. HasWork w → WritesSet command.now) }
    ensures memory { OnErr result (WritesSet command.now) }
{
    let edit = match command {
        SetCommand::SAdd(texts) => SetEdit::AddMembers(texts.try_copy(alloc)?),
        SetCommand::SRem(texts) => SetEdit::RemoveMembers(texts.try_copy(alloc)?),
        SetCommand::SIsMember(_) | SetCommand::SCard | SetCommand::SMembers => {
            return Ok(Effect::Nothing);
        }
    };
    Ok(Effect::Edit(key.try_copy(alloc)?, Edit::Set(edit)))
}
