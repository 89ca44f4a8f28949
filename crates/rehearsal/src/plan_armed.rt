ghost use Rattle.std.specs.Prelude.{◌≡◌, length, Ok, Err, IfOk, MatchResult};
ghost use Rattle.plan_runner.specs.Advancing.{last_seat};
ghost use Rattle.script_lines.specs.Lines.{IsLine};
ghost use Rattle.script_lines.specs.declared.fault.Halt.TheVariants.{Memory};
ghost use Rattle.rehearsal.specs.ArmedPlans.{IsUnderway, KeepsPlans};
ghost use Rattle.rehearsal.specs.PlanArmed.{DoesBeside, Ended, IsAbandoned, PlaysArmed, Ran, Reports, Stepped};
ghost use Rattle.rehearsal.specs.PlanArmed.{armed_form, armed_line};
ghost use Rattle.cluster_world.specs.Recorded.{IsRecord};
ghost use Rattle.rehearsal.specs.Stages.{Halts, IsArmedIn, IsSeatFree, IsStage};
ghost use Rattle.rehearsal.specs.declared.stage.Stage.TheVariants.{PlanArmed};

use crate::last_call::print_last_call;
use crate::seat_free::{answer_call, report_honesty};
use crate::stage::Stage;
use cluster_world::{NodeCount, RecordedWorld, WorldSeat};
use plan_language::is_header;
use plan_machine::plans_run_over_worlds_take_their_cost;
use plan_runner::{Finish, RunningPlan, StopCause, Taken};
use script_lines::{Halt, Line, ScriptFault};
use std::alloc::{AllocError, Global};
use transcripts::Transcript;

/// A line while a plan is armed.
pub fn play_armed(
    alloc: Global,
    recorded: RecordedWorld,
    plan: RunningPlan<WorldSeat>,
    transcript: &mut Transcript,
    line: &[u8],
) -> Result<Stage, Halt>
    requires record { IsRecord recorded }
    requires armed { IsArmedIn recorded plan }
    requires underway { IsUnderway recorded plan.progress }
    ensures plays { PlaysArmed recorded plan line.now transcript.old transcript.new result }
    ensures kept { IfOk result IsStage }
{
    let mut recorded = recorded;
    match play_beside(alloc, &mut recorded, transcript, line) {
        Ok(Beside::Played) => Ok(Stage::PlanArmed(recorded, plan)),
        Ok(Beside::Step) => step(recorded, plan, transcript),
        Ok(Beside::Run) => run(recorded, plan, transcript),
        Ok(Beside::Abandon) => abandon(recorded, plan, transcript),
        Err(halt) => {
            give_up(plan);
            Err(halt)
        }
    }
}

/// What a line is beside an armed plan.
#[derive(Clone, Copy)]
enum Beside {
    /// A line that leaves the plan as it is, which was played.
    Played,
    /// The plan is to take one step.
    Step,
    /// The plan is to run.
    Run,
    /// The plan is to be given up.
    Abandon,
}

fn play_beside(
    alloc: Global,
    recorded: &mut RecordedWorld,
    transcript: &mut Transcript,
    line: &[u8],
) -> Result<Beside, Halt>
    requires { IsRecord recorded.old }
    ensures plays { MatchResult result
        (DoesBeside (armed_form (length recorded.old.world.nodes) line.now) recorded.old transcript.old transcript.new
        recorded.new)
        (Halts (armed_form (length recorded.old.world.nodes) line.now) transcript.old transcript.new) }
    ensures record { IfOk result (λ _. IsRecord recorded.new) }
    ensures plans { IfOk result (λ _. KeepsPlans recorded.old recorded.new) }
    ensures count { length recorded.new.world.nodes ≡ length recorded.old.world.nodes }
{
    if is_header(line) {
        return Err(Halt::Fault(ScriptFault::Seat));
    }
    let line = Line::read(alloc, recorded.nodes(), line)?;
    do_beside(alloc, recorded, transcript, line)
}

fn do_beside(
    alloc: Global,
    recorded: &mut RecordedWorld,
    transcript: &mut Transcript,
    line: Line,
) -> Result<Beside, Halt>
    requires line { IsLine (length recorded.old.world.nodes) line }
    requires record { IsRecord recorded.old }
    ensures does { MatchResult result
        (DoesBeside (armed_line line) recorded.old transcript.old transcript.new recorded.new)
        (Halts (armed_line line) transcript.old transcript.new) }
    ensures record { IfOk result (λ _. IsRecord recorded.new) }
    ensures plans { IfOk result (λ _. KeepsPlans recorded.old recorded.new) }
    ensures count { length recorded.new.world.nodes ≡ length recorded.old.world.nodes }
{
    match line {
        Line::Call {
            node,
            asking,
            request,
        } => {
            answer_call(alloc, recorded, transcript, node, asking, request)?;
            Ok(Beside::Played)
        }
        Line::Admin { .. } | Line::Resume { .. } => Err(Halt::Fault(ScriptFault::Seat)),
        Line::Step => Ok(Beside::Step),
        Line::Run => Ok(Beside::Run),
        Line::Abandon => Ok(Beside::Abandon),
        Line::Honest => {
            report_honesty(alloc, recorded, transcript)?;
            Ok(Beside::Played)
        }
    }
}

/// Gives the plan up where it is, which frees the seat: what it did stays.
fn abandon(
    recorded: RecordedWorld,
    plan: RunningPlan<WorldSeat>,
    transcript: &mut Transcript,
) -> Result<Stage, Halt>
    requires { IsRecord recorded }
    ensures abandoned { MatchResult result (IsSeatFree (IsAbandoned recorded plan transcript.old transcript.new))
        (λ h. h ≡ Memory) }
    ensures kept { IfOk result IsStage }
{
    let stopped = plan.abandon();
    let commands = stopped.cost_so_far();
    let (seat, _) = stopped.into_parts();
    transcript.report_abandoned(commands)?;
    Ok(Stage::SeatFree(recorded, seat))
}

/// Runs the plan to its end, which frees the seat.
fn run(
    recorded: RecordedWorld,
    plan: RunningPlan<WorldSeat>,
    transcript: &mut Transcript,
) -> Result<Stage, Halt>
    requires record { IsRecord recorded }
    requires armed { IsArmedIn recorded plan }
    ensures ran { MatchResult result (IsSeatFree (Ran recorded plan transcript.old transcript.new)) (λ h. h ≡ Memory) }
    ensures kept { IfOk result IsStage }
{
    plans_run_over_worlds_take_their_cost();
    let mut recorded = recorded;
    let finish = plan.run(&mut recorded);
    let seat = report_finish(finish, transcript)?;
    Ok(Stage::SeatFree(recorded, seat))
}

/// Sends the plan's next command and prints it with its reply, and how the plan ended, if it did. A plan that is at its
/// end from the start is run.
fn step(
    recorded: RecordedWorld,
    plan: RunningPlan<WorldSeat>,
    transcript: &mut Transcript,
) -> Result<Stage, Halt>
    requires record { IsRecord recorded }
    requires armed { IsArmedIn recorded plan }
    requires underway { IsUnderway recorded plan.progress }
    ensures stepped { MatchResult result (Stepped recorded plan transcript.old transcript.new) (λ h. h ≡ Memory) }
    ensures kept { IfOk result IsStage }
{
    if plan.next().is_none() {
        return run(recorded, plan, transcript);
    }
    let mut recorded = recorded;
    match plan.advance(&mut recorded) {
        Taken::Running(plan) => {
            let printed = print_last_call(transcript, recorded.events());
            go_on(recorded, plan, printed)
        }
        Taken::Done(done) => end_step(recorded, Finish::Done(done), transcript),
        Taken::Stopped(stopped) => end_step(recorded, Finish::Stopped(stopped), transcript),
    }
}

/// The plan continues, where its step was printed.
fn go_on(
    recorded: RecordedWorld,
    plan: RunningPlan<WorldSeat>,
    printed: Result<(), AllocError>,
) -> Result<Stage, Halt>
    ensures { MatchResult printed (λ _. result ≡ Ok (PlanArmed recorded plan)) (λ _. result ≡ Err Memory) }
{
    match printed {
        Ok(()) => Ok(Stage::PlanArmed(recorded, plan)),
        Err(AllocError) => {
            give_up(plan);
            Err(Halt::Memory)
        }
    }
}

/// Prints the plan's last step and how it ended, which frees the seat.
fn end_step(
    recorded: RecordedWorld,
    finish: Finish<WorldSeat>,
    transcript: &mut Transcript,
) -> Result<Stage, Halt>
    requires { IsRecord recorded }
    ensures ended { MatchResult result (Ended recorded finish transcript.old transcript.new) (λ h. h ≡ Memory) }
    ensures kept { IfOk result IsStage }
{
    match print_last_call(transcript, recorded.events()) {
        Ok(()) => {
            let seat = report_finish(finish, transcript)?;
            Ok(Stage::SeatFree(recorded, seat))
        }
        Err(AllocError) => {
            drop(seat_of(finish));
            Err(Halt::Memory)
        }
    }
}

fn seat_of(finish: Finish<WorldSeat>) -> WorldSeat
    ensures { result ≡ last_seat finish }
{
    match finish {
        Finish::Done(done) => done.into_seat(),
        Finish::Stopped(stopped) => stopped.into_parts().0,
    }
}

/// Reports how a plan ended, and gives its seat back; out of memory ends the rehearsal.
fn report_finish(finish: Finish<WorldSeat>, transcript: &mut Transcript) -> Result<WorldSeat, Halt>
    ensures { MatchResult result (λ seat. (seat ≡ last_seat finish) × Reports finish transcript.old transcript.new)
        (λ h. h ≡ Memory) }
{
    match finish {
        Finish::Done(done) => {
            let commands = done.cost_so_far();
            let seat = done.into_seat();
            transcript.report_done(commands)?;
            Ok(seat)
        }
        Finish::Stopped(stopped) => {
            let commands = stopped.cost_so_far();
            let (seat, cause) = stopped.into_parts();
            if let StopCause::Memory = cause {
                return Err(Halt::Memory);
            }
            transcript.report_stopped(commands, cause)?;
            Ok(seat)
        }
    }
}

/// Gives the plan up, and reports after how many commands.
pub fn give_up(plan: RunningPlan<WorldSeat>) -> u64
    ensures { result ≡ plan.progress.spent }
{
    let stopped = plan.abandon();
    let commands = stopped.cost_so_far();
    let (seat, _) = stopped.into_parts();
    drop(seat);
    commands
}
