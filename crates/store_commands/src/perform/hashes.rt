//! Commands on the hash at a key.
ghost use Rattle.std.specs.Prelude.{◌≡◌, ◌≤◌, [], ◌∷◌, length, IfOk, IfSome, OnErr, Some, option_map};
ghost use Rattle.std.specs.FinMap.{get};
ghost use Rattle.store_commands.specs.Apply.{put_all};
ghost use Rattle.store_commands.specs.HashActs.{act_hash, hash_reply, hash_left};
ghost use Rattle.store_commands.specs.Replies.{bulk};
ghost use Rattle.store_commands.specs.Store.{Store};
ghost use Rattle.store_commands.specs.Effects.{with_effect};
ghost use Rattle.store_commands.specs.Memory.{HasWork, IsMade, WritesHash};

use crate::effect::Effect;
use crate::perform::replies::{count, count_or_refusal, wrong_kind};
use byte_texts::Text;
use client_commands::HashCommand;
use resp2_wire::Reply;
use std::alloc::{AllocError, Global};
use typed_values::{Edit, FieldMap, HashEdit, Value};

/// What the command answers.
pub(crate) fn reply(
    alloc: Global,
    found: Option<&Value>,
    command: &HashCommand,
) -> Result<Reply, AllocError>
    ensures reply { IfOk result (λ r. r ≡ (act_hash command.now (option_map (λ v. v.now) found.entry)).0) }
    ensures memory { OnErr result (IsMade (act_hash command.now (option_map (λ v. v.now) found.entry)).0) }
{
    match found {
        None => reply_of(alloc, &FieldMap::new(alloc), command),
        Some(Value::Hash(fields)) => reply_of(alloc, fields.get(), command),
        Some(_) => wrong_kind(alloc),
    }
}

fn reply_of(alloc: Global, fields: &FieldMap, command: &HashCommand) -> Result<Reply, AllocError>
    ensures reply { IfOk result (λ r. r ≡ hash_reply command.now fields.now) }
    ensures memory { OnErr result (IsMade (hash_reply command.now fields.now)) }
{
    let length = fields.len();
    match command {
        HashCommand::HSet(pairs) => count_or_refusal(alloc, fields.count_new(pairs)),
        HashCommand::HGet(field) => value(alloc, fields.get(field.get())),
        HashCommand::HDel(names) => Ok(count(fields.count_present(names))),
        HashCommand::HLen => Ok(count(length)),
        HashCommand::HExists(field) => Ok(Reply::truth(fields.contains(field.get()))),
        HashCommand::HGetAll => Reply::bulk_array(alloc, fields.all(alloc)?),
    }
}

/// A copy of the field's value, or that there is none.
#[tactic(auto, using(crate::proofs::Memory::anyhow))]
fn value(alloc: Global, found: Option<&[u8]>) -> Result<Reply, AllocError>
    requires { IfSome found (λ v. length v.now ≤ 1048576) }
    ensures reply { IfOk result (λ r. r ≡ bulk (option_map (λ v. v.now) found.entry)) }
    ensures memory { OnErr result (IsMade (bulk (option_map (λ v. v.now) found.entry))) }
{
    match found {
        Some(_) => Reply::bulk_or_null(alloc, found),
        None => Ok(Reply::Null),
    }
}

/// What the command is to do, whatever stands at the key.
#[tactic(auto, unfolding(crate::specs::Apply::put_all))]
pub(crate) fn effect(alloc: Global, key: &Text, command: &HashCommand) -> Result<Effect, AllocError>
    ensures effect { IfOk result
        (λ w. (s : Store) → with_effect w s ≡ put_all s (key.now ∷ []) (act_hash command.now (get s key.now)).1) }
    ensures work { IfOk result (λ w. HasWork w → WritesHash command.now) }
    ensures memory { OnErr result (WritesHash command.now) }
{
    let edit = match command {
        HashCommand::HSet(pairs) => HashEdit::SetFields(pairs.try_copy(alloc)?),
        HashCommand::HDel(names) => HashEdit::DeleteFields(names.try_copy(alloc)?),
        HashCommand::HGet(_) | HashCommand::HLen | HashCommand::HExists(_) | HashCommand::HGetAll =>
            {
                return Ok(Effect::Nothing);
            }
    };
    Ok(Effect::Edit(key.try_copy(alloc)?, Edit::Hash(edit)))
}
