ghost use Rattle.std.specs.Prelude.{◌≡◌, length, IfOk, MatchResult};
ghost use Rattle.cluster_world.specs.Recorded.{IsRecord};
ghost use Rattle.cluster_admin.specs.Surveys.{IsOpenSurvey};
ghost use Rattle.plan_language.specs.Texts.{plan_of_text};
ghost use Rattle.plan_runner.specs.Verifying.{IsVerified, commands_of};
ghost use Rattle.script_lines.specs.declared.fault.Halt.TheVariants.{Memory};
ghost use Rattle.rehearsal.specs.ArmedPlans.{IsUnderway};
ghost use Rattle.rehearsal.specs.PlanReading.{Arms, ReadsOn, ReadsPlan, ends_plan, table_survey, with_line};
ghost use Rattle.rehearsal.specs.Stages.{IsPlanArmed, IsArmedIn, IsStage};
ghost use Rattle.transcripts.specs.OutcomeTexts.{Prints, verified_text};

use crate::plan_armed::give_up;
use crate::stage::Stage;
use cluster_world::{RecordedWorld, Survey, WorldSeat};
use plan_language::ends_plan;
use plan_runner::{Plan, RunningPlan, VerifiedPlan, parse, verify_open};
use script_lines::Halt;
use std::alloc::{AllocError, Global};
use transcripts::Transcript;

/// The text with one more line.
pub fn with_line(text: Vec<u8>, line: &[u8]) -> Result<Vec<u8>, AllocError>
    ensures { IfOk result (λ t. t.items ≡ with_line text.items line.now) }
{
    let mut text = text;
    text.extend_from_slice(line)?;
    text.push(b'\n')?;
    Ok(text)
}

/// One line more of a plan; the last one lets it be verified and armed.
pub fn read_on(
    alloc: Global,
    recorded: RecordedWorld,
    seat: WorldSeat,
    text: Vec<u8>,
    transcript: &mut Transcript,
    line: &[u8],
) -> Result<Stage, Halt>
    requires { IsRecord recorded }
    ensures plays { ReadsOn (ends_plan line.now) (record { port = recorded; calls = seat })
        (with_line text.items line.now) transcript.old transcript.new result }
    ensures kept { IfOk result IsStage }
{
    let text = with_line(text, line)?;
    if ends_plan(line) {
        read_plan(alloc, recorded, seat, &text, transcript)
    } else {
        Ok(Stage::ReadingPlan(recorded, seat, text))
    }
}

/// Parses, verifies and arms a plan, or reports why not.
pub fn read_plan(
    alloc: Global,
    recorded: RecordedWorld,
    seat: WorldSeat,
    text: &[u8],
    transcript: &mut Transcript,
) -> Result<Stage, Halt>
    requires { IsRecord recorded }
    ensures plays { MatchResult result (ReadsPlan (plan_of_text text.now) recorded seat transcript.old transcript.new)
        (λ h. h ≡ Memory) }
    ensures kept { IfOk result IsStage }
{
    match parse(alloc, text) {
        Ok(plan) => read_legal(alloc, recorded, seat, plan, transcript),
        Err(fault) => {
            transcript.report_no_plan(fault)?;
            Ok(Stage::SeatFree(recorded, seat))
        }
    }
}

/// Verifies the plan by the first node's table, and arms it where all nodes have that and no mark.
fn read_legal(
    alloc: Global,
    recorded: RecordedWorld,
    seat: WorldSeat,
    plan: Plan,
    transcript: &mut Transcript,
) -> Result<Stage, Halt>
    requires { IsRecord recorded }
    ensures arms { MatchResult result (Arms plan (table_survey recorded)
        (record { port = recorded; calls = seat }) transcript.old transcript.new)
        (λ h. h ≡ Memory) }
    ensures kept { IfOk result IsStage }
{
    let owners = recorded.first_owners();
    let _nodes = owners.nodes();
    let survey = Survey::closed(alloc, owners)?;
    verify_and_arm(recorded, seat, plan, &survey, transcript)
}

/// Verifies the plan for the survey, and arms it.
pub fn verify_and_arm(
    recorded: RecordedWorld,
    seat: WorldSeat,
    plan: Plan,
    survey: &Survey,
    transcript: &mut Transcript,
) -> Result<Stage, Halt>
    requires record { IsRecord recorded }
    requires phases { IsOpenSurvey survey.now }
    ensures arms { MatchResult result (Arms plan survey.now (record { port = recorded; calls = seat })
        transcript.old transcript.new)
        (λ h. h ≡ Memory) }
    ensures kept { IfOk result IsStage }
{
    let commands = plan.expanded_len(survey.nodes());
    match verify_open(plan, survey) {
        Ok(verified) => arm(recorded, seat, verified, transcript, commands),
        Err((plan, fault)) => {
            drop(plan);
            transcript.report_not_legal(fault)?;
            Ok(Stage::SeatFree(recorded, seat))
        }
    }
}

/// Arms a verified plan of so many commands, unless the tables or marks are others by now.
fn arm(
    recorded: RecordedWorld,
    seat: WorldSeat,
    plan: VerifiedPlan,
    transcript: &mut Transcript,
    commands: u32,
) -> Result<Stage, Halt>
    requires record { IsRecord recorded }
    requires phases { IsOpenSurvey plan.survey }
    requires legal { IsVerified plan.plan plan.survey }
    requires count { commands ≡ length (commands_of plan.plan plan.survey) }
    ensures arms { MatchResult result (Arms plan.plan plan.survey
        (record { port = recorded; calls = seat }) transcript.old transcript.new)
        (λ h. h ≡ Memory) }
    ensures kept { IfOk result IsStage }
{
    match plan.arm(&recorded, seat) {
        Ok(armed) => report_armed(recorded, armed.start(u64::MAX), transcript, commands),
        Err((verified, seat, fault)) => {
            drop(verified);
            transcript.report_not_armed(fault)?;
            Ok(Stage::SeatFree(recorded, seat))
        }
    }
}

fn report_armed(
    recorded: RecordedWorld,
    plan: RunningPlan<WorldSeat>,
    transcript: &mut Transcript,
    commands: u32,
) -> Result<Stage, Halt>
    requires record { IsRecord recorded }
    requires armed { IsArmedIn recorded plan }
    requires underway { IsUnderway recorded plan.progress }
    ensures reported { MatchResult result
        (IsPlanArmed
        (λ r p. (r ≡ recorded) × (p ≡ plan)
        × Prints transcript.old transcript.new (verified_text commands) transcript.old.status)) (λ h. h ≡ Memory) }
    ensures kept { IfOk result IsStage }
{
    match transcript.report_verified(commands) {
        Ok(()) => Ok(Stage::PlanArmed(recorded, plan)),
        Err(AllocError) => {
            give_up(plan);
            Err(Halt::Memory)
        }
    }
}
