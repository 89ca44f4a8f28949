//! The command that closes open slots of a cluster of servers, and continues with a plan.
ghost use Rattle.std.specs.Prelude.{◌≡◌, ◌≤◌, IfErr, IfOk, IfSome, MatchOption};
ghost use Rattle.cluster_inspection.specs.Refusals.{IsRefusal};
ghost use Rattle.cluster_inspection.specs.Returning.{AreAway, dead_ids};
ghost use Rattle.cluster_inspection.specs.Starts.{names_listed};
ghost use Rattle.cluster_runs.specs.Resuming.{AreLinesOf, GoesOn, IsNothingLeft, IsOpenCount, Resumes};
ghost use Rattle.command_words.specs.Resuming.{IsResume};
ghost use Rattle.server_shards.specs.Returning.{asks_of};

use crate::advice::Rest;
use crate::apply::run;
use crate::attempt::Attempt;
use crate::log_files::{Before, open_log};
use crate::looking::look_further;
use crate::prepared::Prepared;
use crate::preparing::{SPARE, plan_in_file};
use crate::rests::rest_of;
use crate::settled_rests::settled;
use crate::stop_files::check_stop_file;
use byte_streams::{ByteIn, ByteOut};
use cluster_inspection::{
    Refusal, System, check_returning, find_cluster, names_listed, plan_of, refused, report_refusal,
    show,
};
use command_words::ResumeWords;
use plan_runner::Plan;
use server_links::{ServerInput, ServerOutput};
use std::fs::{self, File, Files};
use std::net::{Net, TcpListener, TcpStream};
use std::time::Clock;
use transcripts::Transcript;

/// What is said where there is nothing to do.
const CLEAN: &[u8] = b"clean, nothing to resume\n";

/// Surveys the cluster, settles its open slots, and runs the plan that closes them, after which the moves of the plan
/// in the file that the words name follow whose slots are still at their source. Where all went well and no file is
/// named, keys are looked for that nobody finds.
///
/// It prints what [`apply_plan`](crate::apply_plan) prints, with its status; or that there is nothing to do, with the
/// status 0; and then what [`tell_stranded`](cluster_inspection::tell_stranded) prints, with its status.
pub fn resume_plan<
    H: Net<Listener = TcpListener, Stream = TcpStream> + Clock + Files<File = File> + AllocGlobal,
    W: ByteOut,
    E: ByteOut,
>(system: &System<'_, H>, words: &ResumeWords, writer: &mut W, errors: &mut E) -> u8
    requires { IsResume words.now }
    ensures status { result ≤ 3 }
    ensures resumes { Resumes words.now
        (record { took = W.took; failures = W.failures; before = writer.old; after = writer.new }) result }
{
    let status = go_on(system, words, writer, errors);
    look_further(system, words, status, writer)
}

/// Closes open slots and continues with the plan, as far as there is something to do.
fn go_on<
    H: Net<Listener = TcpListener, Stream = TcpStream> + Clock + Files<File = File> + AllocGlobal,
    W: ByteOut,
    E: ByteOut,
>(system: &System<'_, H>, words: &ResumeWords, writer: &mut W, errors: &mut E) -> u8
    requires { IsResume words.now }
    ensures { GoesOn words.now
        (record { took = W.took; failures = W.failures; before = writer.old; after = writer.new }) result }
{
    let lines = match lines_of(system, &words.run.plan) {
        Ok(lines) => lines,
        Err(refusal) => return report_refusal(refusal, writer),
    };
    let attempt = Attempt::new(words.run.timeout, words.batch);
    match prepared_rest(system, words, &lines, &attempt, errors) {
        Ok(Some((prepared, count))) => {
            let rest = Rest::of_file(&words.run.plan);
            run(
                system, &words.run, prepared, &count, &lines, attempt, rest, writer, errors,
            )
        }
        Ok(None) => show(writer, CLEAN),
        Err(refusal) => report_refusal(refusal, writer),
    }
}

/// The plan in the file with this path, or one without a line.
fn lines_of<H: Files<File = File> + AllocGlobal>(
    system: &System<'_, H>,
    path: &Option<String>,
) -> Result<Plan, Refusal>
    ensures lines { IfOk result (AreLinesOf path.now) }
    ensures refusal { IfErr result IsRefusal }
{
    let Some(path) = path else {
        return Ok(Plan::empty(system.alloc));
    };
    plan_in_file(system, path.as_str())
}

/// What closes the open slots, and moves what is left of the lines.
fn prepared_rest<
    'a,
    H: Net<Listener = TcpListener, Stream = TcpStream> + Clock + Files<File = File> + AllocGlobal,
    E: ByteOut,
>(
    system: &System<'a, H>,
    words: &ResumeWords,
    lines: &Plan,
    attempt: &Attempt,
    errors: &mut E,
) -> Result<
    Option<
        (
            Prepared<ServerInput<'a, H>, ServerOutput<'a, H>>,
            Transcript,
        ),
    >,
    Refusal,
>
    requires { IsResume words.now }
    ensures left { IfOk result (λ o. MatchOption o (IsNothingLeft attempt.now.batch lines.now)
        (λ p. IsOpenCount attempt.now.batch lines.now p.1.printed.items)) }
    ensures away { IfOk result (λ o. IfSome o (λ p. AreAway (asks_of (record {
      gave = ⟦<ServerInput<'a, H> as ByteIn>⟧.gave;
      took = ⟦<ServerOutput<'a, H> as ByteOut>⟧.took;
    })) (dead_ids words.now.run.dead_for_good) (names_listed lines.now) p.0.servers.left_out.items
        p.0.plan.plan.lines)) }
    ensures refusal { IfErr result IsRefusal }
{
    let waiting = u64::from(words.run.timeout) + SPARE;
    let servers = find_cluster(system, &words.run.cluster, names_listed(lines), waiting)?;
    let Some((prepared, count, plan)) = rest_of(system.alloc, servers, lines, attempt)? else {
        return Ok(None);
    };
    check_returning(system, &words.run, &prepared.servers, lines, &plan)?;
    check_stop_file(system, &words.run)?;
    let log = open_log(system, &words.run, Before::Kept)?;
    let prepared = settled(system, prepared, lines, attempt, log, errors)?;
    Ok(Some((prepared, count)))
}
