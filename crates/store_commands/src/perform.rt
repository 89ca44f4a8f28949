//! What commands answer, and what they are to do.
ghost use Rattle.std.specs.Prelude.{◌≡◌, OnErr, IfOk};
ghost use Rattle.store_commands.specs.Apply.{answer, apply};
ghost use Rattle.store_commands.specs.Effects.{IsChange};
ghost use Rattle.client_commands.specs.declared.command.Command.TheVariants as command;
ghost use Rattle.store_commands.specs.Memory.{HasWork, MayTakeMemory, Writes};

mod hashes;
mod keys;
mod lists;
mod moving;
mod replies;
mod sets;
mod texts;

use crate::change::Change;
use crate::effect::Effect;
use crate::entries::Entries;
use crate::perform::replies::is_error;
use byte_texts::Text;
use client_commands::{Command, HashCommand, ListCommand, SetCommand, TextCommand};
use resp2_wire::Reply;
use std::alloc::{AllocError, Global};

/// StoreExact: the command's reply, and what it is still to do to these entries, which stay as they are.
pub fn prepare<E: Entries>(
    alloc: Global,
    entries: &E,
    command: &Command,
) -> Result<Change, AllocError>
    ensures change { IfOk result (λ c. IsChange (E.entries entries.now) command.now c) }
    ensures work { IfOk result (λ c. HasWork c.1 → Writes command.now) }
    ensures memory { OnErr result (MayTakeMemory (E.entries entries.now) command.now) }
{
    match command {
        Command::OnText(key, command) => on_text(alloc, entries, key, command),
        Command::OnHash(key, command) => on_hash(alloc, entries, key, command),
        Command::OnList(key, command) => on_list(alloc, entries, key, command),
        Command::OnSet(key, command) => on_set(alloc, entries, key, command),
        Command::TypeOf(key) => keys::type_of(alloc, entries, key),
        Command::Del(keys) => keys::del(alloc, entries, keys),
        Command::Exists(keys) => keys::exists(alloc, entries, keys),
        Command::Rename(keys) => keys::rename(alloc, entries, keys),
        Command::MGet(keys) => texts::mget(alloc, entries, keys),
        Command::MSet(assignments) => texts::mset(alloc, entries, assignments),
        Command::SMove(keys, member) => moving::smove(alloc, entries, keys, member),
    }
}

/// StoreExact: does the command, or nothing.
pub fn apply<E: Entries>(
    alloc: Global,
    entries: &mut E,
    command: &Command,
) -> Result<Reply, AllocError>
    ensures reply { IfOk result (λ r. r ≡ answer (E.entries entries.old) command.now) }
    ensures ok { IfOk result (λ _. E.entries entries.new ≡ apply (E.entries entries.old) command.now) }
    ensures err { OnErr result (E.entries entries.new ≡ E.entries entries.old) }
    ensures memory { OnErr result (MayTakeMemory (E.entries entries.old) command.now) }
{
    let change = prepare(alloc, entries, command)?;
    change.commit(entries)
}

#[tactic(auto, unfolding(
// what a command answers and leaves
crate::specs::Apply::answer, crate::specs::Apply::apply, crate::specs::Apply::look_up,
// what it does with what it finds at its keys
crate::specs::Act::act, client_commands::specs::Commands::keys))]
fn on_text<E: Entries>(
    alloc: Global,
    entries: &E,
    key: &Text,
    operation: &TextCommand,
) -> Result<Change, AllocError>
    ensures change { IfOk result (λ c. IsChange (E.entries entries.now) (command.OnText key.now operation.now) c) }
    ensures work { IfOk result (λ c. HasWork c.1 → Writes (command.OnText key.now operation.now)) }
    ensures memory { OnErr result (MayTakeMemory (E.entries entries.now) (command.OnText key.now operation.now)) }
{
    if let TextCommand::Set(text) = operation {
        return texts::set(alloc, key, text);
    }
    let found = entries.get(key.get());
    let reply = texts::reply(alloc, found, operation)?;
    if is_error(&reply) {
        return Ok(Change::new(alloc, reply, Effect::Nothing));
    }
    let effect = texts::effect(alloc, found.is_none(), key, operation)?;
    Ok(Change::new(alloc, reply, effect))
}

#[tactic(auto, unfolding(
// what a command answers and leaves
crate::specs::Apply::answer, crate::specs::Apply::apply, crate::specs::Apply::look_up,
// what it does with what it finds at its keys
crate::specs::Act::act, client_commands::specs::Commands::keys))]
fn on_hash<E: Entries>(
    alloc: Global,
    entries: &E,
    key: &Text,
    operation: &HashCommand,
) -> Result<Change, AllocError>
    ensures change { IfOk result (λ c. IsChange (E.entries entries.now) (command.OnHash key.now operation.now) c) }
    ensures work { IfOk result (λ c. HasWork c.1 → Writes (command.OnHash key.now operation.now)) }
    ensures memory { OnErr result (MayTakeMemory (E.entries entries.now) (command.OnHash key.now operation.now)) }
{
    let found = entries.get(key.get());
    let reply = hashes::reply(alloc, found, operation)?;
    if is_error(&reply) {
        return Ok(Change::new(alloc, reply, Effect::Nothing));
    }
    let effect = hashes::effect(alloc, key, operation)?;
    Ok(Change::new(alloc, reply, effect))
}

#[tactic(auto, unfolding(
// what a command answers and leaves
crate::specs::Apply::answer, crate::specs::Apply::apply, crate::specs::Apply::look_up,
// what it does with what it finds at its keys
crate::specs::Act::act, client_commands::specs::Commands::keys))]
fn on_list<E: Entries>(
    alloc: Global,
    entries: &E,
    key: &Text,
    operation: &ListCommand,
) -> Result<Change, AllocError>
    ensures change { IfOk result (λ c. IsChange (E.entries entries.now) (command.OnList key.now operation.now) c) }
    ensures work { IfOk result (λ c. HasWork c.1 → Writes (command.OnList key.now operation.now)) }
    ensures memory { OnErr result (MayTakeMemory (E.entries entries.now) (command.OnList key.now operation.now)) }
{
    let found = entries.get(key.get());
    let reply = lists::reply(alloc, found, operation)?;
    if is_error(&reply) {
        return Ok(Change::new(alloc, reply, Effect::Nothing));
    }
    let effect = lists::effect(alloc, key, operation)?;
    Ok(Change::new(alloc, reply, effect))
}

#[tactic(auto, unfolding(
// what a command answers and leaves
crate::specs::Apply::answer, crate::specs::Apply::apply, crate::specs::Apply::look_up,
// what it does with what it finds at its keys
crate::specs::Act::act, client_commands::specs::Commands::keys))]
fn on_set<E: Entries>(
    alloc: Global,
    entries: &E,
    key: &Text,
    operation: &SetCommand,
) -> Result<Change, AllocError>
    ensures change { IfOk result (λ c. IsChange (E.entries entries.now) (command.OnSet key.now operation.now) c) }
    ensures work { IfOk result (λ c. HasWork c.1 → Writes (command.OnSet key.now operation.now)) }
    ensures memory { OnErr result (MayTakeMemory (E.entries entries.now) (command.OnSet key.now operation.now)) }
{
    let found = entries.get(key.get());
    let reply = sets::reply(alloc, found, operation)?;
    if is_error(&reply) {
        return Ok(Change::new(alloc, reply, Effect::Nothing));
    }
    let effect = sets::effect(alloc, key, operation)?;
    Ok(Change::new(alloc, reply, effect))
}
