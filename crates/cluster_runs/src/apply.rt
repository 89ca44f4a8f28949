//! The command that carries a plan out at a cluster of servers.
ghost use Rattle.std.specs.Prelude.{◌≡◌};
ghost use Rattle.cluster_runs.specs.Applying.{Applies, Runs};
ghost use Rattle.command_words.specs.Clusters.{IsAddressed, IsApply};

use crate::advice::{Rest, tell_rest};
use crate::attempt::Attempt;
use crate::batches::batch_of;
use crate::prepared::Prepared;
use crate::preparing::prepare;
use crate::runs::carry_out;
use byte_streams::{ByteIn, ByteOut, write_whole};
use cluster_inspection::{System, names_listed, out_of_memory, report, report_refusal};
use command_words::ApplyWords;
use plan_runner::Plan;
use server_links::{ServerInput, ServerOutput};
use std::alloc::AllocError;
use std::fs::{File, Files};
use std::net::{Net, TcpListener, TcpStream};
use std::time::Clock;
use transcripts::Transcript;

/// Reads the plan, surveys the cluster, which has to be clean, verifies the plan, and runs it there.
///
/// It prints how many commands the plan stands for, and then how it ended. The status is 0 where it is done, 3 where it
/// was paused, and 1 otherwise. On `errors` stand the nodes' names, and how far the plan is, once a second; and where
/// it is not done, what is open, and the command that continues.
pub fn apply_plan<
    H: Net<Listener = TcpListener, Stream = TcpStream> + Clock + Files<File = File> + AllocGlobal,
    R: ByteIn,
    W: ByteOut,
    E: ByteOut,
>(system: &System<'_, H>, words: &ApplyWords, reader: &mut R, writer: &mut W, errors: &mut E) -> u8
    requires { IsApply words.now }
    ensures { Applies words.now.plan
        (record { gave = R.gave; ends = R.ends; failures = R.failures; before = reader.old; after = reader.new })
        (record { took = W.took; failures = W.failures; before = writer.old; after = writer.new }) result }
{
    match prepare(system, words, reader) {
        Ok((prepared, count, plan)) => {
            let attempt = Attempt::new(words.timeout, batch_of(&plan));
            let rest = Rest::of_plan(plan.version(), &words.plan);
            run(
                system, words, prepared, &count, &plan, attempt, rest, writer, errors,
            )
        }
        Err(refusal) => report_refusal(refusal, writer),
    }
}

/// Says how many commands there are, runs the plan, and says how it ended.
pub(crate) fn run<
    'a,
    H: Net<Listener = TcpListener, Stream = TcpStream> + Clock + Files<File = File> + AllocGlobal,
    W: ByteOut,
    E: ByteOut,
>(
    system: &System<'a, H>,
    words: &ApplyWords,
    prepared: Prepared<ServerInput<'a, H>, ServerOutput<'a, H>>,
    count: &Transcript,
    lines: &Plan,
    attempt: Attempt,
    rest: Rest<'_>,
    writer: &mut W,
    errors: &mut E,
) -> u8
    requires { IsAddressed words.now.cluster }
    ensures { Runs count.now.printed.items
        (record { took = W.took; failures = W.failures; before = writer.old; after = writer.new }) result }
{
    if write_whole(writer, count.printed.as_slice()).is_err() {
        return 1;
    }
    match carry_out(system, words, prepared, lines, attempt, errors) {
        Ok(end) => {
            let status = report(&end, writer);
            tell_rest(system, words, rest, names_listed(lines), end.status, errors);
            status
        }
        Err(AllocError) => out_of_memory(writer),
    }
}
