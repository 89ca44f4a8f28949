//! How works are done to entries.
ghost use Rattle.std.specs.Prelude.{◌≡◌, OnOk, OnErr};
ghost use Rattle.store_commands.specs.Effects.{with_effect, without};
ghost use Rattle.store_commands.specs.Memory.{HasWork};

mod assigning;
mod edits;
mod moves;

use crate::commit::assigning::assign;
use crate::commit::edits::edit_at;
pub(crate) use crate::commit::moves::one_text;
use crate::commit::moves::{move_member, move_value};
use crate::effect::Effect;
use crate::entries::Entries;
use client_commands::Arguments;
use std::alloc::{AllocError, Global};

/// Does the work, or nothing.
#[tactic(auto, using(crate::proofs::Memory::anyhow))]
pub(crate) fn take_effect<E: Entries>(
    alloc: Global,
    entries: &mut E,
    effect: Effect,
) -> Result<(), AllocError>
    ensures ok { OnOk result (E.entries entries.new ≡ with_effect effect (E.entries entries.old)) }
    ensures err { OnErr result (E.entries entries.new ≡ E.entries entries.old) }
    ensures memory { OnErr result (HasWork effect) }
{
    match effect {
        Effect::Nothing => Ok(()),
        Effect::Put(key, value) => entries.put(key, value),
        Effect::Edit(key, edit) => edit_at(alloc, entries, key, edit),
        Effect::Assign(assignments) => assign(alloc, entries, &assignments),
        Effect::Remove(keys) => {
            remove_each(entries, &keys);
            Ok(())
        }
        Effect::Move(keys) => move_value(alloc, entries, &keys),
        Effect::MoveMember(keys, member) => move_member(alloc, entries, &keys, member),
    }
}

/// Takes the keys out, which takes no memory.
fn remove_each<E: Entries>(entries: &mut E, keys: &Arguments)
    ensures { E.entries entries.new ≡ without (E.entries entries.old) keys.now }
{
    for key in keys.get() {
        drop(entries.remove(key.get()));
    }
}
