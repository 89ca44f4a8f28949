//! Commands on keys, whatever the kinds of their values.
ghost use Rattle.std.specs.Prelude.{◌≡◌, ◌≤◌, IfOk, OnErr, OnOk, length, if◌then◌else◌, is_some, option_map};
ghost use Rattle.std.specs.FinMap.{get};
ghost use Rattle.typed_values.specs.Members.{members_of, with_member};
ghost use Rattle.store_commands.specs.Act.{each_once, present, kind_at, rename_result};
ghost use Rattle.store_commands.specs.Apply.{look_up};
ghost use Rattle.store_commands.specs.Effects.{IsChange};
ghost use Rattle.client_commands.specs.declared.command.Command.TheVariants as command;
ghost use Rattle.resp2_wire.specs.declared.reply.Reply.TheVariants as reply;
ghost use Rattle.store_commands.specs.Memory.{HasWork, IsMade, MayTakeMemory, Writes};

use crate::change::Change;
use crate::effect::Effect;
use crate::entries::Entries;
use crate::perform::replies::{count, no_such_key, ok};
use byte_texts::Text;
use client_commands::{Arguments, KeyPair};
use indexmap::IndexSet;
use resp2_wire::Reply;
use std::alloc::{AllocError, Global};
use typed_values::Value;

#[tactic(auto, unfolding(
// what a command answers and leaves
crate::specs::Apply::answer, crate::specs::Apply::apply, crate::specs::Apply::look_up, crate::specs::Apply::put_all,
// what it does with what it finds at its keys
crate::specs::Act::act, client_commands::specs::Commands::keys))]
pub(crate) fn type_of<E: Entries>(
    alloc: Global,
    entries: &E,
    key: &Text,
) -> Result<Change, AllocError>
    ensures change { IfOk result (λ c. IsChange (E.entries entries.now) (command.TypeOf key.now) c) }
    ensures work { IfOk result (λ c. HasWork c.1 → Writes (command.TypeOf key.now)) }
    ensures memory { OnErr result (MayTakeMemory (E.entries entries.now) (command.TypeOf key.now)) }
{
    let reply = kind(alloc, entries.get(key.get()))?;
    Ok(Change::new(alloc, reply, Effect::Nothing))
}

fn kind(alloc: Global, found: Option<&Value>) -> Result<Reply, AllocError>
    ensures reply { IfOk result (λ r. r ≡ reply.Simple (kind_at (option_map (λ v. v.now) found.entry))) }
    ensures memory { OnErr result (IsMade (reply.Simple (kind_at (option_map (λ v. v.now) found.entry)))) }
{
    let word = match found {
        None => "none",
        Some(value) => value.kind(),
    };
    Reply::simple(alloc, word.as_bytes())
}

pub(crate) fn del<E: Entries>(
    alloc: Global,
    entries: &E,
    keys: &Arguments,
) -> Result<Change, AllocError>
    ensures change { IfOk result (λ c. IsChange (E.entries entries.now) (command.Del keys.now) c) }
    ensures work { IfOk result (λ c. HasWork c.1 → Writes (command.Del keys.now)) }
    ensures memory { OnErr result (MayTakeMemory (E.entries entries.now) (command.Del keys.now)) }
{
    let removed = count_different(alloc, entries, keys)?;
    Ok(Change::new(alloc, count(removed), Effect::Remove(keys.try_copy(alloc)?)))
}

/// How many different ones of the keys are there.
fn count_different<E: Entries>(
    alloc: Global,
    entries: &E,
    keys: &Arguments,
) -> Result<usize, AllocError>
    ensures count { IfOk result
        (λ n. n ≡ length (each_once (present keys.now (look_up (E.entries entries.now) keys.now)))) }
    ensures limit { IfOk result (λ n. n ≤ 1024) }
{
    let mut seen = IndexSet::new(alloc);
    for key in keys.get() {
        if is_there(entries, key) {
            add(alloc, &mut seen, key)?;
        }
    }
    Ok(seen.len())
}

fn is_there<E: Entries>(entries: &E, key: &Text) -> bool
    ensures { result ≡ is_some (get (E.entries entries.now) key.now) }
{
    entries.get(key.get()).is_some()
}

fn add(alloc: Global, seen: &mut IndexSet<Vec<u8>>, key: &Text) -> Result<(), AllocError>
    ensures { OnOk result (members_of seen.new.keys ≡ with_member (members_of seen.old.keys) key.now) }
{
    let copy = Vec::from_slice(alloc, key.get())?;
    let _is_new = seen.insert(copy)?;
    Ok(())
}

pub(crate) fn exists<E: Entries>(
    alloc: Global,
    entries: &E,
    keys: &Arguments,
) -> Result<Change, AllocError>
    ensures change { IfOk result (λ c. IsChange (E.entries entries.now) (command.Exists keys.now) c) }
    ensures work { IfOk result (λ c. HasWork c.1 → Writes (command.Exists keys.now)) }
    ensures memory { OnErr result (MayTakeMemory (E.entries entries.now) (command.Exists keys.now)) }
{
    Ok(Change::new(alloc, count(count_there(entries, keys)), Effect::Nothing))
}

/// How many of the keys are there, where one that is named twice counts twice.
fn count_there<E: Entries>(entries: &E, keys: &Arguments) -> usize
    ensures count { result ≡ length (present keys.now (look_up (E.entries entries.now) keys.now)) }
    ensures limit { result ≤ 1024 }
{
    let mut there = 0;
    for key in keys.get() {
        there += one_if(is_there(entries, key));
    }
    there
}

fn one_if(holds: bool) -> usize
    ensures number { result ≡ (if holds then 1 else 0) }
    ensures limit { result ≤ 1 }
{
    usize::from(holds)
}

pub(crate) fn rename<E: Entries>(
    alloc: Global,
    entries: &E,
    keys: &KeyPair,
) -> Result<Change, AllocError>
    ensures change { IfOk result (λ c. IsChange (E.entries entries.now) (command.Rename keys.now) c) }
    ensures work { IfOk result (λ c. HasWork c.1 → Writes (command.Rename keys.now)) }
    ensures memory { OnErr result (MayTakeMemory (E.entries entries.now) (command.Rename keys.now)) }
{
    let (from, _) = keys.both();
    let reply = rename_reply(alloc, entries.get(from.get()))?;
    Ok(Change::new(alloc, reply, Effect::Move(keys.try_copy(alloc)?)))
}

fn rename_reply(alloc: Global, found: Option<&Value>) -> Result<Reply, AllocError>
    ensures reply { IfOk result (λ r. r ≡ (rename_result (option_map (λ v. v.now) found.entry)).0) }
    ensures memory { OnErr result (IsMade (rename_result (option_map (λ v. v.now) found.entry)).0) }
{
    match found {
        Some(_) => ok(alloc),
        None => no_such_key(alloc),
    }
}
