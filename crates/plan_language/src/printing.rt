ghost use Rattle.std.specs.Prelude.{◌≡◌, ◌++◌, IfOk, None, Ok, OnOk};
ghost use Rattle.plan_language.specs.Lines.{IsListed};
ghost use Rattle.plan_language.specs.Texts.{any_plan_of_text, head_text, plan_of_text, plan_text, text_version};

use crate::line::Line;
use crate::line_words::{
    AT, BY, DRAIN, FROM, IMPORTING, MIGRATING, MOVE, NODE, SETSLOT, STABLE_AT, TO,
};
use crate::plan::Plan;
use crate::plan_command::PlanCommand;
use crate::putting::{put_line, put_names, put_number};
use byte_texts::Memory;
use key_slots::Slot;
use std::alloc::Global;
use std::fmt;

/// The slots of a `move` line, from the first to the last.
#[derive(Clone, Copy)]
struct SlotRange {
    first: Slot,
    last: Slot,
}

/// One slot, or the first and the last with `-` between them.
impl fmt::Display for SlotRange {
    ghost use Rattle.std.specs.Prelude.{Some};
    ghost use Rattle.plan_language.specs.Texts.{slots_text};

    ghost output = { λ r. Some (slots_text r.first r.last) };

    fn fmt<W: fmt::Write>(&self, f: &mut fmt::Formatter<W>) -> fmt::Result {
        let SlotRange { first, last } = *self;
        if first == last {
            write!(f, "{first}")
        } else {
            write!(f, "{first}-{last}")
        }
    }
}

/// The line that stands for the command.
impl fmt::Display for PlanCommand {
    ghost use Rattle.std.specs.Prelude.{Some};
    ghost use Rattle.plan_language.specs.Texts.{command_text};

    ghost output = { λ c. Some (command_text c) };

    fn fmt<W: fmt::Write>(&self, f: &mut fmt::Formatter<W>) -> fmt::Result {
        match *self {
            Self::Importing { slot, source, at } => {
                write!(f, "{SETSLOT}{slot}{IMPORTING}{source}{AT}{at}")
            }
            Self::Migrating { slot, target, at } => {
                write!(f, "{SETSLOT}{slot}{MIGRATING}{target}{AT}{at}")
            }
            Self::Drain {
                slot,
                source,
                target,
                batch,
            } => write!(f, "{DRAIN}{slot}{AT}{source}{TO}{target}{BY}{batch}"),
            Self::SetNode { slot, owner, at } => write!(f, "{SETSLOT}{slot}{NODE}{owner}{AT}{at}"),
            Self::Stable { slot, at } => write!(f, "{SETSLOT}{slot}{STABLE_AT}{at}"),
        }
    }
}

/// The line without its line feed.
impl fmt::Display for Line {
    ghost use Rattle.std.specs.Prelude.{Some};
    ghost use Rattle.plan_language.specs.Texts.{line_text};

    ghost output = { λ l. Some (line_text l) };

    fn fmt<W: fmt::Write>(&self, f: &mut fmt::Formatter<W>) -> fmt::Result {
        match *self {
            Self::Command(command) => write!(f, "{command}"),
            Self::Move {
                first,
                last,
                source,
                target,
                batch,
            } => {
                let slots = SlotRange { first, last };
                write!(f, "{MOVE}{slots}{FROM}{source}{TO}{target}{BY}{batch}")
            }
        }
    }
}

/// PlanTextExact: writes a plan, as [`parse`](crate::parse) and [`parse_any`](crate::parse_any) read it back.
pub fn print(alloc: Global, plan: &Plan) -> Result<Vec<u8>, Memory>
    ensures text { IfOk result (λ text. text.items ≡ plan_text plan.now) }
    ensures read_back { plan.now.names ≡ None → IfOk result (λ text. plan_of_text text.items ≡ Ok plan.now) }
    ensures any_read_back { IsListed plan.now → IfOk result (λ text. any_plan_of_text text.items ≡ Ok plan.now) }
{
    let mut text = Vec::new(alloc);
    put_head(&mut text, plan)?;
    for line in plan.lines() {
        put_line(&mut text, line)?;
    }
    text.extend_from_slice(b"end\n")?;
    Ok(text)
}

/// Puts what stands before the plan's first line.
fn put_head(text: &mut Vec<u8>, plan: &Plan) -> Result<(), Memory>
    ensures { OnOk result (text.new.items ≡ text.old.items ++ head_text plan.now) }
{
    put_number(text, "reshard-plan ", u16::from(text_version(plan)))?;
    text.extend_from_slice(b"\n")?;
    match plan.names() {
        None => Ok(()),
        Some(names) => put_names(text, names.get()),
    }
}

/// The version that the plan's header tells.
fn text_version(plan: &Plan) -> u8
    ensures { result ≡ text_version plan.now.version plan.now.names }
{
    let version = plan.version();
    match plan.names() {
        None => version,
        Some(_) if version == 3 => 5,
        Some(_) => 4,
    }
}
