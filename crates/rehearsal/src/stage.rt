ghost use Rattle.std.specs.Prelude.{◌≡◌, Ok, Err, IfOk, MatchResult};
ghost use Rattle.script_lines.specs.declared.fault.Halt.TheVariants.{Memory};
ghost use Rattle.rehearsal.specs.Playing.{Plays, Opens, Finishes, ReportsLeft, given_up};
ghost use Rattle.rehearsal.specs.Stages.{IsStage};

use crate::opening::open;
use crate::plan_armed::{give_up, play_armed};
use crate::plan_reading::{read_on, read_plan};
use crate::seat_free::play_free;
use cluster_world::{RecordedWorld, WorldSeat};
use plan_runner::RunningPlan;
use script_lines::Halt;
use std::alloc::Global;
use transcripts::Transcript;

/// How far a rehearsal is. The administrator's seat is always in one place.
pub enum Stage {
    /// No line was played.
    NoClusterYet,
    /// The seat is free for a command or a plan.
    SeatFree(RecordedWorld, WorldSeat),
    /// The lines of a plan are read: its text so far.
    ReadingPlan(RecordedWorld, WorldSeat, Vec<u8>),
    /// The plan that has the seat waits for its next step, or to be run.
    PlanArmed(RecordedWorld, RunningPlan<WorldSeat>),
}

impl Stage {
    /// Plays one line, without its end.
    pub fn play(self, alloc: Global, transcript: &mut Transcript, line: &[u8]) -> Result<Self, Halt>
        requires { IsStage self }
        ensures plays { Plays self line.now transcript.old transcript.new result }
        ensures kept { IfOk result IsStage }
    {
        match self {
            Self::NoClusterYet => play_first(alloc, line),
            Self::SeatFree(recorded, seat) => play_free(alloc, recorded, seat, transcript, line),
            Self::ReadingPlan(recorded, seat, text) => read_on(
                alloc, recorded, seat, text, transcript, line,
            ),
            Self::PlanArmed(recorded, plan) => play_armed(alloc, recorded, plan, transcript, line),
        }
    }

    /// Ends the rehearsal where its script ends: a plan whose end did not come is refused, and an armed one given up.
    pub fn finish(self, alloc: Global, transcript: &mut Transcript) -> Result<(), Halt>
        requires { IsStage self }
        ensures { Finishes self transcript.old transcript.new result }
    {
        match self {
            Self::NoClusterYet | Self::SeatFree(_, _) => Ok(()),
            Self::ReadingPlan(recorded, seat, text) => {
                let stage = read_plan(alloc, recorded, seat, &text, transcript)?;
                report_left(stage.leave(), transcript)
            }
            Self::PlanArmed(_, plan) => report_left(Some(give_up(plan)), transcript),
        }
    }

    /// The stage, where what was done beside it went well; it is left otherwise.
    pub fn beside(self, done: Result<(), Halt>) -> Result<Self, Halt>
        ensures { MatchResult done (λ _. result ≡ Ok self) (λ h. result ≡ Err h) }
    {
        match done {
            Ok(()) => Ok(self),
            Err(halt) => {
                self.leave();
                Err(halt)
            }
        }
    }

    /// Ends the rehearsal at once, and reports after how many commands an armed plan was given up.
    pub fn leave(self) -> Option<u64>
        ensures { result ≡ given_up self }
    {
        match self {
            Self::NoClusterYet | Self::SeatFree(_, _) | Self::ReadingPlan(_, _, _) => None,
            Self::PlanArmed(_, plan) => Some(give_up(plan)),
        }
    }
}

/// The first line opens the cluster.
fn play_first(alloc: Global, line: &[u8]) -> Result<Stage, Halt>
    ensures plays { Opens line.now result }
    ensures kept { IfOk result IsStage }
{
    let (recorded, seat) = open(alloc, line)?;
    Ok(Stage::SeatFree(recorded, seat))
}

/// Reports after how many commands an armed plan was given up, if one was.
fn report_left(left: Option<u64>, transcript: &mut Transcript) -> Result<(), Halt>
    ensures { MatchResult result (λ _. ReportsLeft left transcript.old transcript.new) (λ h. h ≡ Memory) }
{
    if let Some(commands) = left {
        transcript.report_unfinished(commands)?;
    }
    Ok(())
}
