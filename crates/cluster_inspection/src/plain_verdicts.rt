//! The command that verifies a plan without asking servers.
ghost use Rattle.std.specs.Prelude.{◌≡◌, ℕ, List, IfErr, IfOk};
ghost use Rattle.byte_streams.specs.Inputs.{IsWholeInput};
ghost use Rattle.cluster_inspection.specs.Refusals.{IsRefusal};
ghost use Rattle.cluster_inspection.specs.VerifyingFrom.{IsAnswerFrom, VerifiesPlainly};
ghost use Rattle.command_words.specs.Starts.{IsStart};
ghost use Rattle.transcripts.specs.PlanVerdicts.{SaysOfPlan};

use crate::endings::report;
use crate::owners::owners_at_start;
use crate::plan_reading::{names_listed, plan_from};
use crate::refusal::{Refusal, report_refusal};
use crate::system::System;
use byte_streams::{ByteIn, ByteOut};
use command_words::Start;
use key_slots::OwnerTable;
use plan_runner::Plan;
use std::alloc::{AllocError, Global};
use std::fs::{File, Files};
use std::net::{Net, TcpListener, TcpStream};
use std::time::Clock;
use transcripts::{Transcript, verify_and_report};

/// Verifies the plan that the reader gives where it starts, and writes the line that says how many commands the plan
/// stands for, or why it is refused. Keys are not counted. The plan is read first, so where it is none that is told,
/// whatever it would start from. The status is 0 where the plan is accepted, and 1 where it is refused, there is
/// nothing to start from, memory ran out, or a read or write failed.
pub fn verify_plainly<
    H: Net<Listener = TcpListener, Stream = TcpStream> + Clock + Files<File = File> + AllocGlobal,
    R: ByteIn,
    W: ByteOut,
>(system: &System<'_, H>, start: &Start, reader: &mut R, writer: &mut W) -> u8
    requires { IsStart start.now }
    ensures { VerifiesPlainly start.now
        (record { gave = R.gave; ends = R.ends; failures = R.failures; before = reader.old; after = reader.new })
        (record { took = W.took; failures = W.failures; before = writer.old; after = writer.new }) result }
{
    match answer_from(system, start, reader) {
        Ok(answer) => report(&answer, writer),
        Err(refusal) => report_refusal(refusal, writer),
    }
}

/// What there is to say of the plan that the reader gives.
fn answer_from<
    H: Net<Listener = TcpListener, Stream = TcpStream> + Clock + Files<File = File> + AllocGlobal,
    R: ByteIn,
>(system: &System<'_, H>, start: &Start, reader: &mut R) -> Result<Transcript, Refusal>
    requires { IsStart start.now }
    ensures refusal { IfErr result IsRefusal }
    ensures says { IfOk result (λ t. (input : List ℕ) × IsWholeInput R.gave R.ends reader.old reader.new input
        × IsAnswerFrom start.now input t.status t.printed.items) }
{
    let plan = plan_from(system.alloc, start, reader)?;
    let (owners, _book) = owners_at_start(system, start, names_listed(&plan))?;
    Ok(verdict_on(system.alloc, plan, &owners)?)
}

/// What there is to say of the plan, by these owners.
fn verdict_on(alloc: Global, plan: Plan, owners: &OwnerTable) -> Result<Transcript, AllocError>
    ensures { IfOk result (λ t. SaysOfPlan owners.now plan t.status t.printed.items) }
{
    let mut answer = Transcript::new(alloc);
    let verified = verify_and_report(plan, owners, &mut answer)?;
    drop(verified);
    Ok(answer)
}
