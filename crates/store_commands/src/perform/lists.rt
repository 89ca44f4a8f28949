//! Commands on the list at a key.
ghost use Rattle.std.specs.Prelude.{◌≡◌, [], ◌∷◌, length, IfOk, OnErr, option_map};
ghost use Rattle.std.specs.FinMap.{get};
ghost use Rattle.typed_values.specs.Elements.{pushed_front, pushed_back, front, back};
ghost use Rattle.typed_values.specs.Numbers.{number};
ghost use Rattle.store_commands.specs.Apply.{put_all};
ghost use Rattle.store_commands.specs.Found.{list_at};
ghost use Rattle.store_commands.specs.ListActs.{act_list, range_reply};
ghost use Rattle.store_commands.specs.Replies.{collection_reply, length_of, bulk, count};
ghost use Rattle.store_commands.specs.Store.{Store};
ghost use Rattle.store_commands.specs.Effects.{with_effect};
ghost use Rattle.store_commands.specs.Memory.{HasWork, IsMade, WritesList};

use crate::effect::Effect;
use crate::perform::replies::{count, count_or_refusal, element, not_integer, wrong_kind};
use byte_texts::{Text, TextList};
use client_commands::ListCommand;
use resp2_wire::Reply;
use std::alloc::{AllocError, Global};
use typed_values::{Edit, Items, ListEdit, Value, read_number};

/// What the command answers.
pub(crate) fn reply(
    alloc: Global,
    found: Option<&Value>,
    command: &ListCommand,
) -> Result<Reply, AllocError>
    ensures reply { IfOk result (λ r. r ≡ (act_list command.now (option_map (λ v. v.now) found.entry)).0) }
    ensures memory { OnErr result (IsMade (act_list command.now (option_map (λ v. v.now) found.entry)).0) }
{
    match command {
        ListCommand::LPush(elements) | ListCommand::RPush(elements) => {
            pushed_length(alloc, found, elements)
        }
        ListCommand::LPop => first(alloc, found),
        ListCommand::RPop => last(alloc, found),
        ListCommand::LLen => length(alloc, found),
        ListCommand::LRange(start, stop) => range(alloc, found, start, stop),
    }
}

fn pushed_length(
    alloc: Global,
    found: Option<&Value>,
    elements: &TextList,
) -> Result<Reply, AllocError>
    ensures front { IfOk result
        (λ r. r
        ≡ collection_reply (λ l. length_of (pushed_front l elements.now))
        (list_at (option_map (λ v. v.now) found.entry))) }
    ensures back { IfOk result
        (λ r. r
        ≡ collection_reply (λ l. length_of (pushed_back l elements.now))
        (list_at (option_map (λ v. v.now) found.entry))) }
    ensures front_memory { OnErr result (IsMade
        (collection_reply (λ l. length_of (pushed_front l elements.now))
        (list_at (option_map (λ v. v.now) found.entry)))) }
    ensures back_memory { OnErr result (IsMade
        (collection_reply (λ l. length_of (pushed_back l elements.now))
        (list_at (option_map (λ v. v.now) found.entry)))) }
{
    match found {
        None => count_or_refusal(alloc, Items::new(alloc).pushed_len(elements)),
        Some(Value::List(items)) => count_or_refusal(alloc, items.get().pushed_len(elements)),
        Some(_) => wrong_kind(alloc),
    }
}

fn first(alloc: Global, found: Option<&Value>) -> Result<Reply, AllocError>
    ensures reply { IfOk result
        (λ r. r ≡ collection_reply (λ l. bulk (front l)) (list_at (option_map (λ v. v.now) found.entry))) }
    ensures memory { OnErr result
        (IsMade (collection_reply (λ l. bulk (front l)) (list_at (option_map (λ v. v.now) found.entry)))) }
{
    match found {
        None => Ok(Reply::Null),
        Some(Value::List(items)) => element(alloc, items.get().front()),
        Some(_) => wrong_kind(alloc),
    }
}

fn last(alloc: Global, found: Option<&Value>) -> Result<Reply, AllocError>
    ensures reply { IfOk result
        (λ r. r ≡ collection_reply (λ l. bulk (back l)) (list_at (option_map (λ v. v.now) found.entry))) }
    ensures memory { OnErr result
        (IsMade (collection_reply (λ l. bulk (back l)) (list_at (option_map (λ v. v.now) found.entry)))) }
{
    match found {
        None => Ok(Reply::Null),
        Some(Value::List(items)) => element(alloc, items.get().back()),
        Some(_) => wrong_kind(alloc),
    }
}

fn length(alloc: Global, found: Option<&Value>) -> Result<Reply, AllocError>
    ensures reply { IfOk result
        (λ r. r ≡ collection_reply (λ l. count (length l)) (list_at (option_map (λ v. v.now) found.entry))) }
    ensures memory { OnErr result
        (IsMade (collection_reply (λ l. count (length l)) (list_at (option_map (λ v. v.now) found.entry)))) }
{
    match found {
        None => Ok(count(0)),
        Some(Value::List(items)) => Ok(count(items.get().len())),
        Some(_) => wrong_kind(alloc),
    }
}

/// The indices are read before the list is looked at.
fn range(
    alloc: Global,
    found: Option<&Value>,
    start: &Text,
    stop: &Text,
) -> Result<Reply, AllocError>
    ensures reply { IfOk result
        (λ r. r ≡ range_reply (number start.now) (number stop.now) (option_map (λ v. v.now) found.entry)) }
    ensures memory { OnErr result
        (IsMade (range_reply (number start.now) (number stop.now) (option_map (λ v. v.now) found.entry))) }
{
    let Some(start) = read_number(start.get()) else {
        return not_integer(alloc);
    };
    let Some(stop) = read_number(stop.get()) else {
        return not_integer(alloc);
    };
    match found {
        None => Reply::bulk_array(alloc, Items::new(alloc).range(alloc, start, stop)?),
        Some(Value::List(items)) => {
            Reply::bulk_array(alloc, items.get().range(alloc, start, stop)?)
        },
        Some(_) => wrong_kind(alloc),
    }
}

/// What the command is to do, whatever stands at the key.
#[tactic(auto, unfolding(crate::specs::Apply::put_all))]
pub(crate) fn effect(alloc: Global, key: &Text, command: &ListCommand) -> Result<Effect, AllocError>
    ensures effect { IfOk result
        (λ w. (s : Store) → with_effect w s ≡ put_all s (key.now ∷ []) (act_list command.now (get s key.now)).1) }
    ensures work { IfOk result (λ w. HasWork w → WritesList command.now) }
    ensures memory { OnErr result (WritesList command.now) }
{
    let edit = match command {
        ListCommand::LPush(elements) => ListEdit::PushFront(elements.try_copy(alloc)?),
        ListCommand::RPush(elements) => ListEdit::PushBack(elements.try_copy(alloc)?),
        ListCommand::LPop => ListEdit::PopFront,
        ListCommand::RPop => ListEdit::PopBack,
        ListCommand::LLen | ListCommand::LRange(_, _) => return Ok(Effect::Nothing),
    };
    Ok(Effect::Edit(key.try_copy(alloc)?, Edit::List(edit)))
}
