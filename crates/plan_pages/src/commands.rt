//! How many commands the plan has, and how many calls they take.
ghost use Rattle.std.specs.Prelude.{◌≡◌, ◌≤◌, ◌+◌, ◌++◌, OnOk, length};
ghost use Rattle.plan_pages.specs.Commands.{batches_part, batches_text, batches_word, calls_line};
ghost use Rattle.plan_pages.specs.Commands.{commands_heading, commands_of};
ghost use Rattle.plan_pages.specs.Commands.{commands_section, count_line, drains_line, importing_word, known_word};
ghost use Rattle.plan_pages.specs.Commands.{migrating_word, most_part, node_word, stable_word, unknown_word};

use crate::putting::{key_word, put, put_number, put_right};
use byte_texts::Memory;
use plan_outlines::{CommandCounts, KeyLoad, PlanOutline};

/// Puts how many commands of each kind there are, and how many calls they take.
#[tactic(auto, unfolding(crate::specs::Commands::commands_section))]
pub(crate) fn put_commands(out: &mut Vec<u8>, outline: &PlanOutline) -> Result<(), Memory>
    ensures text { OnOk result (out.new.items ≡ out.old.items ++ commands_section outline.now) }
    ensures few { OnOk result (length out.new.items ≤ length out.old.items + 440) }
{
    put(out, commands_heading())?;
    put_count(out, u64::from(outline.counts.importing), importing_word())?;
    put_count(out, u64::from(outline.counts.migrating), migrating_word())?;
    put_drains(
        out,
        outline.counts.drain,
        outline.least_batch,
        outline.most_batch,
    )?;
    put_count(out, u64::from(outline.counts.node), node_word())?;
    put_count(out, u64::from(outline.counts.stable), stable_word())?;
    put_calls(out, &outline.counts, outline.load)
}

#[tactic(auto, unfolding(crate::specs::Commands::commands_heading))]
fn commands_heading() -> &'static [u8]
    ensures word { result.now ≡ commands_heading }
    ensures few { length result.now ≤ 10 }
{
    b"\ncommands\n"
}

#[tactic(auto, unfolding(crate::specs::Commands::importing_word))]
fn importing_word() -> &'static [u8]
    ensures word { result.now ≡ importing_word }
    ensures few { length result.now ≤ 20 }
{
    b" SETSLOT IMPORTING\n"
}

#[tactic(auto, unfolding(crate::specs::Commands::migrating_word))]
fn migrating_word() -> &'static [u8]
    ensures word { result.now ≡ migrating_word }
    ensures few { length result.now ≤ 20 }
{
    b" SETSLOT MIGRATING\n"
}

#[tactic(auto, unfolding(crate::specs::Commands::node_word))]
fn node_word() -> &'static [u8]
    ensures word { result.now ≡ node_word }
    ensures few { length result.now ≤ 20 }
{
    b" SETSLOT NODE\n"
}

#[tactic(auto, unfolding(crate::specs::Commands::stable_word))]
fn stable_word() -> &'static [u8]
    ensures word { result.now ≡ stable_word }
    ensures few { length result.now ≤ 20 }
{
    b" SETSLOT STABLE\n"
}

#[tactic(auto, unfolding(crate::specs::Commands::known_word))]
fn known_word() -> &'static [u8]
    ensures word { result.now ≡ known_word }
    ensures few { length result.now ≤ 90 }
{
    b" calls at most, if no slot holds more keys than now\n          when its move begins\n"
}

#[tactic(auto, unfolding(crate::specs::Commands::unknown_word))]
fn unknown_word() -> &'static [u8]
    ensures word { result.now ≡ unknown_word }
    ensures few { length result.now ≤ 90 }
{
    b" calls at most where slots hold no keys;\n          each batch of keys takes two more\n"
}

/// Puts the number, and the word after it.
#[tactic(auto, unfolding(crate::specs::Commands::count_line))]
fn put_count(out: &mut Vec<u8>, count: u64, word: &[u8]) -> Result<(), Memory>
    ensures text { OnOk result (out.new.items ≡ out.old.items ++ count_line count word.now) }
    ensures few { OnOk result (length out.new.items ≤ length out.old.items + (29 + length word.now)) }
{
    put_right(out, count, 9)?;
    put(out, word)
}

#[tactic(auto, unfolding(crate::specs::Commands::drains_line))]
fn put_drains(out: &mut Vec<u8>, drains: u32, least: u16, most: u16) -> Result<(), Memory>
    ensures text { OnOk result (out.new.items ≡ out.old.items ++ drains_line drains least most) }
    ensures few { OnOk result (length out.new.items ≤ length out.old.items + 110) }
{
    put_right(out, u64::from(drains), 9)?;
    put(out, b" drains")?;
    put_batches(out, drains, least, most)?;
    put(out, b"\n")
}

/// Puts how many keys a batch has, if there are batches.
fn put_batches(out: &mut Vec<u8>, drains: u32, least: u16, most: u16) -> Result<(), Memory>
    ensures text { OnOk result (out.new.items ≡ out.old.items ++ batches_part drains least most) }
    ensures few { OnOk result (length out.new.items ≤ length out.old.items + 70) }
{
    if drains == 0 {
        Ok(())
    } else {
        put_batch(out, least, most)
    }
}

#[tactic(auto, unfolding(crate::specs::Commands::batches_text))]
fn put_batch(out: &mut Vec<u8>, least: u16, most: u16) -> Result<(), Memory>
    ensures text { OnOk result (out.new.items ≡ out.old.items ++ batches_text least most) }
    ensures few { OnOk result (length out.new.items ≤ length out.old.items + 70) }
{
    put(out, batches_word())?;
    put_number(out, u64::from(least))?;
    put_most(out, least, most)?;
    put(out, key_word(u64::from(most)))
}

#[tactic(auto, unfolding(crate::specs::Commands::batches_word))]
fn batches_word() -> &'static [u8]
    ensures word { result.now ≡ batches_word }
    ensures few { length result.now ≤ 16 }
{
    b", in batches of "
}

fn put_most(out: &mut Vec<u8>, least: u16, most: u16) -> Result<(), Memory>
    ensures text { OnOk result (out.new.items ≡ out.old.items ++ most_part least most) }
    ensures few { OnOk result (length out.new.items ≤ length out.old.items + 24) }
{
    if least == most {
        return Ok(());
    }
    put(out, b" to ")?;
    put_number(out, u64::from(most))
}

/// Puts how many calls the plan takes. Where no keys are known, that is a call for each command.
fn put_calls(out: &mut Vec<u8>, counts: &CommandCounts, load: Option<KeyLoad>) -> Result<(), Memory>
    ensures text { OnOk result (out.new.items ≡ out.old.items ++ calls_line counts.now load) }
    ensures few { OnOk result (length out.new.items ≤ length out.old.items + 119) }
{
    match load {
        None => put_count(out, commands_of(counts), unknown_word()),
        Some(load) => put_count(out, load.calls, known_word()),
    }
}

fn commands_of(counts: &CommandCounts) -> u64
    ensures { result ≡ commands_of counts.now }
{
    u64::from(counts.importing)
        + u64::from(counts.migrating)
        + u64::from(counts.drain)
        + u64::from(counts.node)
        + u64::from(counts.stable)
}
