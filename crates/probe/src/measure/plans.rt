use byte_texts::Memory;
use key_slots::OwnerTable;
use plan_language::{Plan, parse, print};
use plan_runner::verify;
use std::alloc::Global;

/// What is done with a plan.
#[derive(Clone, Copy)]
pub enum PlanWork {
    Read,
    Print,
    /// A verified plan is not given back, so each time a copy is verified.
    Verify,
    Copy,
}

/// How a plan is written that moves so many of the first slots from the first of eight nodes to the second, or that has
/// so many moves.
#[derive(Clone, Copy)]
pub enum PlanForm {
    /// Eleven lines for each slot, of one command each.
    Commands,
    /// One line.
    Move,
    /// In version 2: 64 slots go round the nodes, one move of each after the other, by eleven lines a move.
    Rounds,
}

/// The plan's nodes, of which the first owns all slots.
const NODES: u8 = 8;

/// How many slots go round the nodes.
const ROUND: usize = 64;

/// The work and the form that a job's name stands for.
pub fn read_work(name: &str) -> Option<(PlanWork, PlanForm)> {
    match name {
        "read-commands" => Some((PlanWork::Read, PlanForm::Commands)),
        "print-commands" => Some((PlanWork::Print, PlanForm::Commands)),
        "verify-commands" => Some((PlanWork::Verify, PlanForm::Commands)),
        "copy-commands" => Some((PlanWork::Copy, PlanForm::Commands)),
        "read-move" => Some((PlanWork::Read, PlanForm::Move)),
        "print-move" => Some((PlanWork::Print, PlanForm::Move)),
        "verify-move" => Some((PlanWork::Verify, PlanForm::Move)),
        "copy-move" => Some((PlanWork::Copy, PlanForm::Move)),
        "read-rounds" => Some((PlanWork::Read, PlanForm::Rounds)),
        "print-rounds" => Some((PlanWork::Print, PlanForm::Rounds)),
        "verify-rounds" => Some((PlanWork::Verify, PlanForm::Rounds)),
        "copy-rounds" => Some((PlanWork::Copy, PlanForm::Rounds)),
        _ => None,
    }
}

/// Does the work so many times on the plan of so many slots, and returns how many commands the plan stands for.
pub fn work(
    alloc: Global,
    work: PlanWork,
    form: PlanForm,
    slots: usize,
    times: usize,
) -> anyhow::Result<u64> {
    let text = text_of(alloc, form, slots)?;
    let plan = parse(alloc, text.as_bytes())?;
    for _ in 0..times {
        match work {
            PlanWork::Read => drop(parse(alloc, text.as_bytes())?),
            PlanWork::Print => drop(print(alloc, &plan)?),
            PlanWork::Verify => verify_copy(alloc, &plan)?,
            PlanWork::Copy => drop(plan.try_copy()?),
        }
    }
    Ok(u64::from(plan.expanded_len(NODES)))
}

fn verify_copy(alloc: Global, plan: &Plan) -> anyhow::Result<()> {
    let owners = OwnerTable::even(alloc, NODES, 1)?;
    match verify(plan.try_copy()?, &owners) {
        Ok(verified) => {
            drop(verified);
            Ok(())
        }
        Err((plan, fault)) => {
            drop(plan);
            Err(fault.into())
        }
    }
}

fn text_of(alloc: Global, form: PlanForm, slots: usize) -> Result<String, Memory> {
    let mut text = String::new(alloc);
    match form {
        PlanForm::Commands => {
            text.push_str("reshard-plan 1\n")?;
            for slot in 0..slots {
                push_commands(&mut text, slot, 0)?;
            }
        }
        PlanForm::Move => {
            let last = slots.saturating_sub(1);
            writeln!(text, "reshard-plan 1\nmove 0-{last} from n0 to n1 by 10")?;
        }
        PlanForm::Rounds => {
            text.push_str("reshard-plan 2\n")?;
            for number in 0..slots {
                push_commands(&mut text, number % ROUND, number / ROUND % 8)?;
            }
        }
    }
    text.push_str("end\n")?;
    Ok(text)
}

/// The commands that move the slot from this node to the next one.
fn push_commands(text: &mut String, slot: usize, source: usize) -> Result<(), Memory> {
    let target = source.wrapping_add(1) % 8;
    writeln!(text, "setslot {slot} importing n{source} at n{target}")?;
    writeln!(text, "setslot {slot} migrating n{target} at n{source}")?;
    writeln!(text, "drain {slot} at n{source} to n{target} by 10")?;
    writeln!(text, "setslot {slot} node n{target} at n{target}")?;
    writeln!(text, "setslot {slot} node n{target} at n{source}")?;
    for node in 0..8 {
        if node != source && node != target {
            writeln!(text, "setslot {slot} node n{target} at n{node}")?;
        }
    }
    Ok(())
}
