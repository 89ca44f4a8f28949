//! A plan that runs at servers, and continues after a command that took longer than it may.
ghost use Rattle.std.specs.Prelude.{◌≡◌, IfOk};
ghost use Rattle.cluster_runs.specs.Operators.{clock_tells, clock_waits, stop_file_asks};
ghost use Rattle.cluster_runs.specs.Runs.{IsEndBehind, IsLastEnd, IsNext};
ghost use Rattle.cluster_runs.specs.declared.patience.Patience as patience;
ghost use Rattle.command_words.specs.Clusters.{IsAddressed};

use crate::attempt::Attempt;
use crate::one_run::{FileRan, Ran, run_once};
use crate::prepared::Prepared;
use crate::settled_rests::prepare_again;
use byte_streams::{ByteIn, ByteOut, StandardOut, write_whole};
use cluster_inspection::{Refusal, System};
use command_words::ApplyWords;
use plan_runner::Plan;
use server_links::{ServerInput, ServerOutput};
use std::alloc::AllocError;
use std::fs::{File, Files};
use std::net::{Net, TcpListener, TcpStream};
use std::time::Clock;
use transcripts::Transcript;

/// How often a plan continues at most, whatever an [`Attempt`] allows.
const MAX_ATTEMPTS: u16 = 400;

/// What follows a run.
#[derive(Drop)]
pub(crate) enum Next {
    /// Nothing: it ended so.
    Over(Transcript),
    Again(FileRan),
}

/// Runs the plan, and continues with these lines as long as MIGRATEs take longer than they may, each time with fewer
/// keys and more time for one, or replicas are too slow to do a command. What there is to say is how the last run
/// ended.
pub(crate) fn carry_out<
    'a,
    H: Net<Listener = TcpListener, Stream = TcpStream> + Clock + Files<File = File> + AllocGlobal,
    E: ByteOut,
>(
    system: &System<'a, H>,
    words: &ApplyWords,
    prepared: Prepared<ServerInput<'a, H>, ServerOutput<'a, H>>,
    lines: &Plan,
    attempt: Attempt,
    errors: &mut E,
) -> Result<Transcript, AllocError>
    requires { IsAddressed words.now.cluster }
    ensures { IfOk result (IsLastEnd (patience.Patience H)
        (record {
          gave = ⟦<ServerInput<'a, H> as ByteIn>⟧.gave;
          took = ⟦<ServerOutput<'a, H> as ByteOut>⟧.took;
          tells = clock_tells {H = H} {E = E};
          waits = clock_waits {H = H} {E = E};
          asks = stop_file_asks {H = H} {E = E};
          log_took = ⟦<StandardOut<File> as ByteOut>⟧.took;
        })
        words.now attempt prepared.entry lines.now) }
{
    let ran = run_once(system, words, &attempt, prepared, errors)?;
    let mut attempt = attempt;
    let end = carry_on(
        system,
        words,
        ran,
        lines,
        &mut attempt,
        errors,
        MAX_ATTEMPTS,
    )?;
    Ok(end)
}

/// Continues after this run as long as that is to be done, so often at most.
fn carry_on<
    'a,
    H: Net<Listener = TcpListener, Stream = TcpStream> + Clock + Files<File = File> + AllocGlobal,
    E: ByteOut,
>(
    system: &System<'a, H>,
    words: &ApplyWords,
    ran: FileRan,
    lines: &Plan,
    attempt: &mut Attempt,
    errors: &mut E,
    left: u16,
) -> Result<Transcript, AllocError>
    requires { IsAddressed words.now.cluster }
    ensures { IfOk result (IsEndBehind (patience.Patience H)
        (record {
          gave = ⟦<ServerInput<'a, H> as ByteIn>⟧.gave;
          took = ⟦<ServerOutput<'a, H> as ByteOut>⟧.took;
          tells = clock_tells {H = H} {E = E};
          waits = clock_waits {H = H} {E = E};
          asks = stop_file_asks {H = H} {E = E};
          log_took = ⟦<StandardOut<File> as ByteOut>⟧.took;
        })
        words.now lines.now ran) }
{
    if left == 0 {
        return Ok(ran.end);
    }
    let next = go_on(system, words, ran, lines, attempt, errors)?;
    match next {
        Next::Over(end) => Ok(end),
        Next::Again(again) => {
            let end = carry_on(system, words, again, lines, attempt, errors, left - 1)?;
            Ok(end)
        }
    }
}

/// Runs what is left of the plan where it stopped at a command that took longer than it may, if the slot can be
/// settled.
#[tactic(auto, using(crate::proofs::Attempts::unchanged, crate::proofs::Ended::next_again))]
fn go_on<
    'a,
    H: Net<Listener = TcpListener, Stream = TcpStream> + Clock + Files<File = File> + AllocGlobal,
    E: ByteOut,
>(
    system: &System<'a, H>,
    words: &ApplyWords,
    ran: FileRan,
    lines: &Plan,
    attempt: &mut Attempt,
    errors: &mut E,
) -> Result<Next, AllocError>
    requires { IsAddressed words.now.cluster }
    ensures { IfOk result (λ next. IsNext (patience.Patience H)
        (record {
          gave = ⟦<ServerInput<'a, H> as ByteIn>⟧.gave;
          took = ⟦<ServerOutput<'a, H> as ByteOut>⟧.took;
          tells = clock_tells {H = H} {E = E};
          waits = clock_waits {H = H} {E = E};
          asks = stop_file_asks {H = H} {E = E};
          log_took = ⟦<StandardOut<File> as ByteOut>⟧.took;
        })
        words.now lines.now ran attempt.old next attempt.new) }
{
    let Ran {
        end,
        trouble,
        handed_over,
        commands,
        log,
    } = ran;
    if !attempt.continues(&trouble, commands, handed_over) {
        return Ok(Next::Over(end));
    }
    let _told = write_whole(errors, end.printed.as_slice());
    match prepare_again(system, words, lines, attempt, log, errors) {
        Ok(prepared) => Ok(Next::Again(run_once(system, words, attempt, prepared, errors)?)),
        Err(Refusal::Memory) => Err(AllocError),
        Err(Refusal::Unread) => Ok(Next::Over(end)),
        Err(Refusal::Answer(answer)) => {
            let _why = write_whole(errors, answer.printed.as_slice());
            Ok(Next::Over(end))
        }
    }
}
