//! What is left of a plan: it closes open slots, and continues with the moves of lines.
ghost use Rattle.std.specs.Prelude.{◌≡◌, ◌++◌, IfErr, IfOk, IfSome, MatchOption, length, vec_len};
ghost use Rattle.cluster_runs.specs.Preparing.{IsPreparedRest, TellsCommands, moves_of, notes_text};
ghost use Rattle.cluster_inspection.specs.Refusals.{IsRefusal};
ghost use Rattle.cluster_inspection.specs.Starts.{IsNumberedBy, names_listed};
ghost use Rattle.cluster_runs.specs.Resuming.{IsNamedRest, IsNothingLeft, moved_again_text};
ghost use Rattle.cluster_admin.specs.Surveys.{IsOpenSurvey};
ghost use Rattle.plan_language.specs.Texts.{plan_text};
ghost use Rattle.plan_runner.specs.Verifying.{IsVerified};
ghost use Rattle.cluster_survey.specs.Found.{IsFound};
ghost use Rattle.server_phases.specs.Opened.{IsOpened};
ghost use Rattle.cluster_inspection.specs.Naming.{named};

use crate::attempt::Attempt;
use crate::prepared::Prepared;
use crate::preparing::{moves_of, notes_of, phases_of};
use cluster_admin::Survey;
use cluster_inspection::{NamingFault, Refusal, named_plan, refused};
use cluster_survey::FoundCluster;
use plan_language::print;
use plan_runner::{Plan, VerifyFault, verify_open};
use server_commands::ServerBook;
use server_phases::{ResumeFault, resumed_plan};
use server_runs::Counts;
use std::alloc::Global;
use transcripts::Transcript;

/// What is said of lines that may move a slot more than once.
const MOVED_AGAIN: &[u8] =
    b"only a plan of version 1, which moves each slot once, can be continued";

/// What is said of such lines of a plan that lists names.
const MOVED_AGAIN_BY_NAMES: &[u8] =
    b"only a plan of version 4, which moves each slot once, can be continued";

/// Makes ready what closes the open slots of these servers and moves what is left of these lines, unless there is
/// nothing to do. Beside it stand the text that says how many commands that are, and its plan. Nothing is sent yet, and
/// its slots are to be settled before it runs. Lines that move a slot more than once are not continued, since what is
/// left of them can't be told.
pub(crate) fn rest_of<I: Drop, O: Drop>(
    alloc: Global,
    servers: FoundCluster<I, O>,
    lines: &Plan,
    attempt: &Attempt,
) -> Result<Option<(Prepared<I, O>, Transcript, Plan)>, Refusal>
    requires found { IsFound servers.book servers.surveyed.survey servers.surveyed.epochs.items
        (vec_len servers.links) }
    requires numbered { IsNumberedBy (names_listed lines.now) servers.book }
    ensures left { IfOk result (λ o. MatchOption o (IsNothingLeft attempt.now.batch lines.now)
        (λ p. IsPreparedRest attempt.now.batch lines.now p.0 × TellsCommands p.0 p.1.printed.items)) }
    ensures servers { IfOk result (λ o. IfSome o (λ p. p.0.servers ≡ servers)) }
    ensures plan { IfOk result (λ o. IfSome o (λ p. p.2 ≡ p.0.plan.plan)) }
    ensures refusal { IfErr result IsRefusal }
{
    if lines.version() != 1 {
        return Err(refused(alloc, moved_again(lines))?);
    }
    let survey = phases_of(alloc, &servers.surveyed.survey)?;
    let plan = plan_of(alloc, &servers.book, &survey, lines, attempt)?;
    if plan.lines().is_empty() {
        return Ok(None);
    }
    Ok(Some(verified_over(alloc, servers, survey, plan)?))
}

/// What is said of these lines, which may move a slot more than once.
fn moved_again(lines: &Plan) -> &'static [u8]
    ensures { result.now ≡ moved_again_text lines.now.names }
{
    match lines.names() {
        None => MOVED_AGAIN,
        Some(_) => MOVED_AGAIN_BY_NAMES,
    }
}

/// The plan that closes the open slots and moves what is left of the lines, with the names of its nodes where it lists
/// nodes.
fn plan_of(
    alloc: Global,
    book: &ServerBook,
    survey: &Survey,
    lines: &Plan,
    attempt: &Attempt,
) -> Result<Plan, Refusal>
    ensures plan { IfOk result (IsNamedRest book.now survey.now attempt.now.batch lines.now.lines) }
    ensures refusal { IfErr result IsRefusal }
{
    match resumed_plan(alloc, survey, attempt.batch, lines.lines()) {
        Ok(plan) => named(alloc, plan, book),
        Err(ResumeFault::Memory) => Err(Refusal::Memory),
        Err(fault) => {
            let reason = format!(in alloc; "{fault}")?;
            Err(refused(alloc, reason.as_bytes())?)
        }
    }
}

/// The plan with the names of the nodes that it mentions, where it lists nodes.
fn named(alloc: Global, plan: Plan, book: &ServerBook) -> Result<Plan, Refusal>
    ensures named { IfOk result (λ p. p ≡ named book.now plan) }
    ensures refusal { IfErr result IsRefusal }
{
    match named_plan(plan, book) {
        Ok(plan) => Ok(plan),
        Err(NamingFault::Memory) => Err(Refusal::Memory),
        Err(fault) => {
            let reason = format!(in alloc; "{fault}")?;
            Err(refused(alloc, reason.as_bytes())?)
        }
    }
}

/// Verifies the plan over the survey, and makes it ready. Beside it stands the plan once more.
fn verified_over<I: Drop, O: Drop>(
    alloc: Global,
    servers: FoundCluster<I, O>,
    survey: Survey,
    plan: Plan,
) -> Result<(Prepared<I, O>, Transcript, Plan), Refusal>
    requires opened { IsOpened servers.surveyed.survey survey }
    requires phases { IsOpenSurvey survey }
    requires nodes { length survey.rows ≡ length servers.book }
    ensures legal { IfOk result (λ _. IsVerified plan survey) }
    ensures runs { IfOk result (λ p. p.0.plan ≡ record { plan = plan; survey = survey }) }
    ensures survey { IfOk result (λ p. p.0.survey ≡ survey) }
    ensures servers { IfOk result (λ p. p.0.servers ≡ servers) }
    ensures plan { IfOk result (λ p. p.2 ≡ p.0.plan.plan) }
    ensures moves { IfOk result (λ p. p.0.moves ≡ moves_of (length survey.rows) plan) }
    ensures shown { IfOk result (λ p. p.0.notes.items
        ≡ notes_text servers.left_out.items servers.book servers.surveyed.survey plan ++ plan_text plan) }
    ensures told { IfOk result (λ p. TellsCommands p.0 p.1.printed.items) }
    ensures refusal { IfErr result IsRefusal }
{
    let notes = notes_with_plan(alloc, &servers, &plan)?;
    let nodes = survey.nodes();
    let moves = moves_of(plan.try_copy()?, nodes);
    let copy = plan.try_copy()?;
    let commands = plan.expanded_len(nodes);
    match verify_open(plan, &survey) {
        Ok(plan) => {
            let mut count = Transcript::new(alloc);
            count.report_verified(commands)?;
            let prepared = Prepared {
                servers,
                survey,
                plan,
                moves,
                counts: Counts::new(),
                notes,
                log: None,
            };
            Ok((prepared, count, copy))
        }
        Err((plan, fault)) => {
            drop(plan);
            Err(not_legal(alloc, fault)?)
        }
    }
}

/// What is said of a plan that is not legal.
fn not_legal(alloc: Global, fault: VerifyFault) -> Result<Refusal, Refusal>
    ensures legal { IfOk result IsRefusal }
    ensures refusal { IfErr result IsRefusal }
{
    let mut answer = Transcript::new(alloc);
    answer.report_not_legal(fault)?;
    Ok(Refusal::Answer(answer))
}

/// What is shown on standard error before the plan runs: the nodes, and the plan itself.
fn notes_with_plan<I: Drop, O: Drop>(
    alloc: Global,
    servers: &FoundCluster<I, O>,
    plan: &Plan,
) -> Result<Vec<u8>, Refusal>
    ensures notes { IfOk result (λ n. n.items
        ≡ notes_text servers.now.left_out.items servers.now.book servers.now.surveyed.survey plan.now
        ++ plan_text plan.now) }
    ensures refusal { IfErr result IsRefusal }
{
    let mut notes = notes_of(alloc, servers, plan)?;
    let text = print(alloc, plan)?;
    notes.extend_from_slice(text.as_slice())?;
    Ok(notes)
}
