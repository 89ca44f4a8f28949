//! Commands on the texts at one key or several.
ghost use Rattle.std.specs.Prelude.{◌≡◌, ℤ, [], ◌∷◌, IfOk, OnErr, map, option_map, is_none};
ghost use Rattle.std.specs.FinMap.{get};
ghost use Rattle.store_commands.specs.Act.{text_if_one};
ghost use Rattle.store_commands.specs.Apply.{put_all, look_up};
ghost use Rattle.store_commands.specs.Store.{Store};
ghost use Rattle.store_commands.specs.TextActs.{act_text, text_or_null, increment_result, integer, checked_neg};
ghost use Rattle.store_commands.specs.Effects.{with_effect, IsChange};
ghost use Rattle.client_commands.specs.declared.command.Command.TheVariants as command;
ghost use Rattle.store_commands.specs.Memory.{HasWork, IsMade, MayTakeMemory, Writes, WritesText};

use crate::change::Change;
use crate::effect::Effect;
use crate::entries::Entries;
use crate::perform::replies::{count, ok, text_refusal, wrong_kind};
use byte_texts::Text;
use client_commands::{Arguments, Assignments, TextCommand};
use resp2_wire::{Reply, ReplyList};
use std::alloc::{AllocError, Global};
use typed_values::{Edit, TextEdit, Value, ValueFault, appended_len, read_number, sum_of};

/// What the command answers.
pub(crate) fn reply(
    alloc: Global,
    found: Option<&Value>,
    command: &TextCommand,
) -> Result<Reply, AllocError>
    ensures reply { IfOk result (λ r. r ≡ (act_text command.now (option_map (λ v. v.now) found.entry)).0) }
    ensures memory { OnErr result (IsMade (act_text command.now (option_map (λ v. v.now) found.entry)).0) }
{
    match command {
        TextCommand::Get => text_or_null(alloc, found),
        TextCommand::Set(_) => ok(alloc),
        TextCommand::SetNx(_) => Ok(count(usize::from(found.is_none()))),
        TextCommand::Append(more) => appended_length(alloc, found, more),
        TextCommand::StrLen => length(alloc, found),
        TextCommand::Incr => sum(alloc, found, Ok(1)),
        TextCommand::Decr => sum(alloc, found, Ok(-1)),
        TextCommand::IncrBy(number) => sum(alloc, found, integer(number)),
        TextCommand::DecrBy(number) => sum(alloc, found, checked_neg(integer(number))),
    }
}

fn text_or_null(alloc: Global, found: Option<&Value>) -> Result<Reply, AllocError>
    ensures reply { IfOk result (λ r. r ≡ text_or_null (option_map (λ v. v.now) found.entry)) }
    ensures memory { OnErr result (IsMade (text_or_null (option_map (λ v. v.now) found.entry))) }
{
    match found {
        None => Ok(Reply::Null),
        Some(Value::Text(text)) => Ok(Reply::Bulk(text.try_copy(alloc)?)),
        Some(_) => wrong_kind(alloc),
    }
}

fn appended_length(alloc: Global, found: Option<&Value>, more: &Text) -> Result<Reply, AllocError>
    ensures reply { IfOk result
        (λ r. r ≡ (act_text (TextCommand.Append more.now) (option_map (λ v. v.now) found.entry)).0) }
    ensures memory { OnErr result
        (IsMade (act_text (TextCommand.Append more.now) (option_map (λ v. v.now) found.entry)).0) }
{
    let length = match found {
        None => Ok(more.get().len()),
        Some(Value::Text(text)) => appended_len(text.get(), more.get()),
        Some(_) => Err(ValueFault::WrongType),
    };
    match length {
        Ok(length) => Ok(count(length)),
        Err(fault) => text_refusal(alloc, fault),
    }
}

fn length(alloc: Global, found: Option<&Value>) -> Result<Reply, AllocError>
    ensures reply { IfOk result (λ r. r ≡ (act_text TextCommand.StrLen (option_map (λ v. v.now) found.entry)).0) }
    ensures memory { OnErr result (IsMade (act_text TextCommand.StrLen (option_map (λ v. v.now) found.entry)).0) }
{
    match found {
        None => Ok(count(0)),
        Some(Value::Text(text)) => Ok(count(text.get().len())),
        Some(_) => wrong_kind(alloc),
    }
}

/// What an increment answers. That it is none is reported before the key is looked at.
fn sum(
    alloc: Global,
    found: Option<&Value>,
    increment: Result<i64, ValueFault>,
) -> Result<Reply, AllocError>
    ensures reply { IfOk result (λ r. r ≡ (increment_result increment (option_map (λ v. v.now) found.entry)).0) }
    ensures memory { OnErr result (IsMade (increment_result increment (option_map (λ v. v.now) found.entry)).0) }
{
    let increment = match increment {
        Ok(increment) => increment,
        Err(fault) => return text_refusal(alloc, fault),
    };
    let sum = match found {
        None => sum_of(b"0", increment),
        Some(Value::Text(text)) => sum_of(text.get(), increment),
        Some(_) => Err(ValueFault::WrongType),
    };
    match sum {
        Ok(sum) => Ok(Reply::Number(sum)),
        Err(fault) => text_refusal(alloc, fault),
    }
}

/// The number of an argument.
fn integer(number: &Text) -> Result<i64, ValueFault>
    ensures { result ≡ integer number.now }
{
    match read_number(number.get()) {
        Some(number) => Ok(number),
        None => Err(ValueFault::NotInteger),
    }
}

/// What is to be added for it by `DECRBY`.
fn checked_neg(number: Result<i64, ValueFault>) -> Result<i64, ValueFault>
    ensures { result ≡ checked_neg number }
{
    match number?.checked_neg() {
        Some(number) => Ok(number),
        None => Err(ValueFault::Overflow),
    }
}

/// What the command is to do, whatever stands at the key but for whether it is missing.
#[tactic(auto, unfolding(crate::specs::Apply::put_all))]
pub(crate) fn effect(
    alloc: Global,
    is_missing: bool,
    key: &Text,
    command: &TextCommand,
) -> Result<Effect, AllocError>
    ensures effect { IfOk result
        (λ w. (s : Store) → is_missing ≡ is_none (get s key.now)
        → with_effect w s ≡ put_all s (key.now ∷ []) (act_text command.now (get s key.now)).1) }
    ensures work { IfOk result (λ w. HasWork w → WritesText command.now) }
    ensures memory { OnErr result (WritesText command.now) }
{
    match command {
        TextCommand::Get | TextCommand::StrLen => Ok(Effect::Nothing),
        TextCommand::Set(text) => put(alloc, key, text),
        TextCommand::SetNx(text) => {
            if is_missing {
                put(alloc, key, text)
            } else {
                Ok(Effect::Nothing)
            }
        }
        TextCommand::Append(more) => {
            let edit = TextEdit::Append(more.try_copy(alloc)?);
            Ok(Effect::Edit(key.try_copy(alloc)?, Edit::Text(edit)))
        }
        TextCommand::Incr => increase(alloc, key, Ok(1)),
        TextCommand::Decr => increase(alloc, key, Ok(-1)),
        TextCommand::IncrBy(number) => increase(alloc, key, integer(number)),
        TextCommand::DecrBy(number) => increase(alloc, key, checked_neg(integer(number))),
    }
}

/// SET asks nothing of what stands at its key, so nothing is looked up.
#[tactic(auto, unfolding(
// what a command answers and leaves
crate::specs::Apply::answer, crate::specs::Apply::apply, crate::specs::Apply::look_up, crate::specs::Apply::put_all,
// what it does with what it finds at its keys
crate::specs::Act::act, client_commands::specs::Commands::keys))]
pub(crate) fn set(alloc: Global, key: &Text, text: &Text) -> Result<Change, AllocError>
    ensures change { IfOk result (λ c. (s : Store) → IsChange s (command.OnText key.now (TextCommand.Set text.now)) c) }
    ensures work { IfOk result (λ c. HasWork c.1 → Writes (command.OnText key.now (TextCommand.Set text.now))) }
    ensures memory { (s : Store) → OnErr result (MayTakeMemory s (command.OnText key.now (TextCommand.Set text.now))) }
{
    let reply = ok(alloc)?;
    let effect = put(alloc, key, text)?;
    Ok(Change::new(alloc, reply, effect))
}

fn put(alloc: Global, key: &Text, text: &Text) -> Result<Effect, AllocError>
    ensures { IfOk result (λ w. w ≡ Effect.Put key.now (Value.Text text.now)) }
{
    let value = Value::Text(text.try_copy(alloc)?);
    Ok(Effect::Put(key.try_copy(alloc)?, value))
}

#[tactic(auto, unfolding(crate::specs::Apply::put_all))]
fn increase(
    alloc: Global,
    key: &Text,
    increment: Result<i64, ValueFault>,
) -> Result<Effect, AllocError>
    ensures { IfOk result
        (λ w. (s : Store) → with_effect w s ≡ put_all s (key.now ∷ []) (increment_result increment (get s key.now)).1) }
{
    match increment {
        Ok(increment) => {
            let edit = TextEdit::Increase(increment);
            Ok(Effect::Edit(key.try_copy(alloc)?, Edit::Text(edit)))
        }
        Err(_) => Ok(Effect::Nothing),
    }
}

/// Each key's text, or null for a key that is missing or holds no text.
#[tactic(auto, unfolding(
// what a command answers and leaves
crate::specs::Apply::answer, crate::specs::Apply::apply, crate::specs::Apply::put_all,
// what it does with what it finds at its keys
crate::specs::Act::act, client_commands::specs::Commands::keys))]
pub(crate) fn mget<E: Entries>(
    alloc: Global,
    entries: &E,
    keys: &Arguments,
) -> Result<Change, AllocError>
    ensures change { IfOk result (λ c. IsChange (E.entries entries.now) (command.MGet keys.now) c) }
    ensures work { IfOk result (λ c. HasWork c.1 → Writes (command.MGet keys.now)) }
    ensures memory { OnErr result (MayTakeMemory (E.entries entries.now) (command.MGet keys.now)) }
{
    let replies = ReplyList::from_vec(texts_of(alloc, entries, keys.get())?);
    Ok(Change::new(alloc, Reply::Array(replies), Effect::Nothing))
}

fn texts_of<E: Entries>(alloc: Global, entries: &E, keys: &[Text]) -> Result<Vec<Reply>, AllocError>
    ensures { IfOk result (λ replies. replies.items ≡ map text_if_one (look_up (E.entries entries.now) keys.now)) }
{
    let mut replies = Vec::with_capacity(alloc, keys.len())?;
    for key in keys {
        replies.push(text_if_one(alloc, entries, key)?)?;
    }
    Ok(replies)
}

fn text_if_one<E: Entries>(alloc: Global, entries: &E, key: &Text) -> Result<Reply, AllocError>
    ensures reply { IfOk result (λ r. r ≡ text_if_one (get (E.entries entries.now) key.now)) }
    ensures memory { OnErr result (IsMade (text_if_one (get (E.entries entries.now) key.now))) }
{
    match entries.get(key.get()) {
        Some(Value::Text(text)) => Ok(Reply::Bulk(text.try_copy(alloc)?)),
        _ => Ok(Reply::Null),
    }
}

#[tactic(auto, unfolding(
// what a command answers and leaves
crate::specs::Apply::answer, crate::specs::Apply::apply,
// what it does with what it finds at its keys
crate::specs::Act::act, client_commands::specs::Commands::keys))]
pub(crate) fn mset<E: Entries>(
    alloc: Global,
    entries: &E,
    assignments: &Assignments,
) -> Result<Change, AllocError>
    ensures change { IfOk result (λ c. IsChange (E.entries entries.now) (command.MSet assignments.now) c) }
    ensures work { IfOk result (λ c. HasWork c.1 → Writes (command.MSet assignments.now)) }
    ensures memory { OnErr result (MayTakeMemory (E.entries entries.now) (command.MSet assignments.now)) }
{
    let reply = ok(alloc)?;
    Ok(Change::new(alloc, reply, Effect::Assign(assignments.try_copy(alloc)?)))
}
