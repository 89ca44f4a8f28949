ghost use Rattle.std.specs.Prelude.{◌≡◌, ◌<◌, length, IfOk, MatchResult};
ghost use Rattle.cluster_admin.specs.Commands.{IsCommand};
ghost use Rattle.script_lines.specs.Faults.{after};
ghost use Rattle.script_lines.specs.Forms.{line_form};
ghost use Rattle.script_lines.specs.Lines.{IsLine};
ghost use Rattle.script_lines.specs.declared.fault.Halt.TheVariants.{Memory};
ghost use Rattle.rehearsal.specs.Answering.{put_at};
ghost use Rattle.rehearsal.specs.SeatFree.{Administered, Answered, DoesForm, DoesFree, PlaysFree, ReportsHonesty};
ghost use Rattle.rehearsal.specs.SeatFree.{free_line};
ghost use Rattle.rehearsal.specs.PlanReading.{is_header};
ghost use Rattle.cluster_world.specs.Recorded.{IsRecord};
ghost use Rattle.rehearsal.specs.Stages.{Halts, IsStage};

use crate::answering::reply_to;
use crate::plan_reading::with_line;
use crate::resuming::resume;
use crate::stage::Stage;
use cluster_node::AdminCommand;
use cluster_world::{AdminPort, NodeCount, RecordedWorld, WorldSeat};
use key_slots::NodeId;
use plan_language::is_header;
use resp2_wire::Request;
use script_lines::{Halt, Line, ScriptFault};
use std::alloc::Global;
use transcripts::Transcript;

/// A line where the seat is free: one that begins a plan, or another.
pub fn play_free(
    alloc: Global,
    recorded: RecordedWorld,
    seat: WorldSeat,
    transcript: &mut Transcript,
    line: &[u8],
) -> Result<Stage, Halt>
    requires { IsRecord recorded }
    ensures plays { PlaysFree (is_header line.now) (record { port = recorded; calls = seat }) line.now
        transcript.old transcript.new result }
    ensures kept { IfOk result IsStage }
{
    if is_header(line) {
        let text = with_line(Vec::new(alloc), line)?;
        return Ok(Stage::ReadingPlan(recorded, seat, text));
    }
    play_line(alloc, recorded, seat, transcript, line)
}

/// A line that begins no plan.
fn play_line(
    alloc: Global,
    recorded: RecordedWorld,
    seat: WorldSeat,
    transcript: &mut Transcript,
    line: &[u8],
) -> Result<Stage, Halt>
    requires { IsRecord recorded }
    ensures does { MatchResult result
        (DoesForm (line_form (length recorded.world.nodes) line.now) recorded seat transcript.old transcript.new)
        (Halts (after (line_form (length recorded.world.nodes) line.now) free_line) transcript.old transcript.new) }
    ensures kept { IfOk result IsStage }
{
    let line = Line::read(alloc, recorded.nodes(), line)?;
    do_free(alloc, recorded, seat, transcript, line)
}

fn do_free(
    alloc: Global,
    recorded: RecordedWorld,
    seat: WorldSeat,
    transcript: &mut Transcript,
    line: Line,
) -> Result<Stage, Halt>
    requires line { IsLine (length recorded.world.nodes) line }
    requires record { IsRecord recorded }
    ensures does { MatchResult result (DoesFree line recorded seat transcript.old transcript.new)
        (Halts (free_line line) transcript.old transcript.new) }
    ensures kept { IfOk result IsStage }
{
    let (mut recorded, mut seat) = (recorded, seat);
    match line {
        Line::Call {
            node,
            asking,
            request,
        } => {
            answer_call(alloc, &mut recorded, transcript, node, asking, request)?;
            Ok(Stage::SeatFree(recorded, seat))
        }
        Line::Admin { node, command } => {
            administer(&mut recorded, &mut seat, transcript, node, command)?;
            Ok(Stage::SeatFree(recorded, seat))
        }
        Line::Honest => {
            report_honesty(alloc, &recorded, transcript)?;
            Ok(Stage::SeatFree(recorded, seat))
        }
        Line::Resume { batch } => resume(alloc, recorded, seat, transcript, batch),
        Line::Step | Line::Run | Line::Abandon => Err(Halt::Fault(ScriptFault::Seat)),
    }
}

/// Prints the node's reply to a request, with ASKING or without, and puts the call on the trail.
pub fn answer_call(
    alloc: Global,
    recorded: &mut RecordedWorld,
    transcript: &mut Transcript,
    node: NodeId,
    asking: bool,
    request: Request,
) -> Result<(), Halt>
    requires there { node < length recorded.old.world.nodes }
    requires record { IsRecord recorded.old }
    ensures answered { MatchResult result
        (λ _. Answered (put_at recorded.old node recorded.new) asking request transcript.old transcript.new)
        (λ h. h ≡ Memory) }
    ensures record { IfOk result (λ _. IsRecord recorded.new) }
    ensures count { length recorded.new.world.nodes ≡ length recorded.old.world.nodes }
{
    let reply = reply_to(alloc, recorded, node, asking, request)?;
    transcript.reply(&reply)?;
    recorded.put(reply);
    Ok(())
}

/// Prints the reply to an administrator's command, which is an event of the trail.
fn administer(
    recorded: &mut RecordedWorld,
    seat: &mut WorldSeat,
    transcript: &mut Transcript,
    node: NodeId,
    command: AdminCommand,
) -> Result<(), Halt>
    requires there { node < length recorded.old.world.nodes }
    requires command { IsCommand command }
    requires record { IsRecord recorded.old }
    ensures done { MatchResult result
        (λ _. Administered (record { port = recorded.old; calls = seat.old }) node command
        transcript.old transcript.new (record { port = recorded.new; calls = seat.new }))
        (λ h. h ≡ Memory) }
    ensures record { IfOk result (λ _. IsRecord recorded.new) }
{
    // A world fails by out of memory alone.
    let Ok(reply) = recorded.admin(seat, node, command) else {
        return Err(Halt::Memory);
    };
    transcript.admin_reply(&reply)?;
    Ok(())
}

/// Prints the first event that is not honest, or that all are.
pub fn report_honesty(
    alloc: Global,
    recorded: &RecordedWorld,
    transcript: &mut Transcript,
) -> Result<(), Halt>
    requires { IsRecord recorded.now }
    ensures { MatchResult result (λ _. ReportsHonesty recorded.now transcript.old transcript.new) (λ h. h ≡ Memory) }
{
    let found = recorded.first_dishonest(alloc)?;
    transcript.honesty(found)?;
    Ok(())
}
