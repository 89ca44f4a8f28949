//! A verified plan that is carried out at servers.
ghost use Rattle.std.specs.Prelude.{◌≡◌, OnOk};
ghost use Rattle.server_runs.specs.Outcomes.{end_status, end_text, run_status, run_text, stop_number, stop_status};
ghost use Rattle.server_runs.specs.Outcomes.{stop_text};
ghost use Rattle.server_runs.specs.Applied.{IsApplied};
ghost use Rattle.transcripts.specs.OutcomeTexts.{Prints};

use crate::run_end::RunEnd;
use crate::speaks::Speaks;
use cluster_admin::AdminPort;
use plan_runner::{Finish, StopCause, VerifiedPlan, Watcher};
use server_commands::shown;
use std::alloc::AllocError;
use transcripts::{Transcript, stop_reason};

/// Arms the plan and runs it to its end, or until it stops or its watcher gives it up, and says which.
///
/// The status is 0 where it is done, 3 where it was given up, which only happens before a command that opens a slot,
/// and 1 otherwise. Where it stopped, what the server said is told as it came, but for the arguments of a command that
/// it does not know. The commands are counted from those on that were answered before this run, as those of a run that
/// it continues with. Out of memory is an error of its own, by which the plan may have run.
pub fn apply<S: Drop, P: AdminPort<Seat = S> + Speaks, W: Watcher>(
    plan: VerifiedPlan,
    port: &mut P,
    seat: S,
    watcher: &mut W,
    before: u64,
    transcript: &mut Transcript,
) -> Result<(), AllocError>
    requires { P.fits port.old seat }
    ensures { OnOk result (IsApplied
        (record {
          moves = P.AdminPort.moves;
          fails = P.AdminPort.fails;
          matches = P.AdminPort.matches_gives;
          said = P.Speaks.said;
          calls = P.AdminPort.calls;
          sees = W.sees;
          hears = W.hears;
          misses = W.misses;
        })
        (record { plan = plan.plan; survey = plan.survey; seat = seat; before = before })
        (port.old, watcher.old) (port.new, watcher.new) transcript.old transcript.new) }
{
    let armed = match plan.arm(port, seat) {
        Ok(armed) => armed,
        Err((plan, seat, fault)) => {
            drop(plan);
            drop(seat);
            return transcript.report_not_armed(fault);
        }
    };
    let finish = armed.start(u64::MAX).run_watched(port, watcher);
    report(finish, port, before, transcript)
}

/// Says how the plan ended.
fn report<S: Drop, P: Speaks>(
    finish: Finish<S>,
    port: &P,
    before: u64,
    transcript: &mut Transcript,
) -> Result<(), AllocError>
    ensures { OnOk result (Prints transcript.old transcript.new (end_text (P.said port.now) before finish)
        (end_status finish)) }
{
    match finish {
        Finish::Done(done) => {
            let commands = done.cost_so_far();
            drop(done.into_seat());
            report_end(RunEnd::Done(commands), port, before, transcript)
        }
        Finish::Stopped(stopped) => {
            let commands = stopped.cost_so_far();
            let (seat, cause) = stopped.into_parts();
            drop(seat);
            report_end(RunEnd::Stopped(cause, commands), port, before, transcript)
        }
    }
}

/// Says that the plan is done, or why it is not.
pub(crate) fn report_end<P: Speaks>(
    end: RunEnd,
    port: &P,
    before: u64,
    transcript: &mut Transcript,
) -> Result<(), AllocError>
    ensures { OnOk result (Prints transcript.old transcript.new (run_text (P.said port.now) before end)
        (run_status end)) }
{
    match end {
        RunEnd::Done(commands) => {
            transcript.status = 0;
            transcript.report_done(before.saturating_add(commands))
        }
        RunEnd::Stopped(cause, commands) => {
            report_stop(before.saturating_add(commands), cause, port, transcript)
        }
    }
}

/// Says that the plan was paused, or why it stopped.
fn report_stop<P: Speaks>(
    commands: u64,
    cause: StopCause,
    port: &P,
    transcript: &mut Transcript,
) -> Result<(), AllocError>
    ensures { OnOk result
        (Prints transcript.old transcript.new (stop_text (P.said port.now) commands cause) (stop_status cause)) }
{
    if let StopCause::Abandoned = cause {
        return transcript.report_paused(commands);
    }
    let number = stop_number(commands, cause);
    match port.said() {
        Some(text) => transcript.report_stopped_by(number, shown(text.get())),
        None => transcript.report_stopped_by(number, stop_reason(cause).as_bytes()),
    }
}

/// The number of the command at which the plan stopped.
fn stop_number(commands: u64, cause: StopCause) -> u64
    ensures { result ≡ stop_number commands cause }
{
    match cause {
        StopCause::Memory | StopCause::Lost => commands.saturating_add(1),
        _ => commands,
    }
}
