ghost use Rattle.std.specs.Prelude.{◌≡◌, ◌≤◌, IfOk, MatchResult};
ghost use Rattle.cluster_world.specs.Recorded.{IsRecord};
ghost use Rattle.script_lines.specs.declared.fault.Halt.TheVariants.{Memory};
ghost use Rattle.rehearsal.specs.Resuming.{TakesUp};
ghost use Rattle.rehearsal.specs.Stages.{IsStage};

use crate::plan_reading::verify_and_arm;
use crate::stage::Stage;
use cluster_world::{AdminPort, RecordedWorld, WorldSeat};
use script_lines::Halt;
use std::alloc::Global;
use transcripts::Transcript;

/// Surveys the cluster, and arms the plan that closes what stands open, or reports why there is none.
pub fn resume(
    alloc: Global,
    recorded: RecordedWorld,
    seat: WorldSeat,
    transcript: &mut Transcript,
    batch: u16,
) -> Result<Stage, Halt>
    requires record { IsRecord recorded }
    requires some_keys { 1 ≤ batch }
    requires most_keys { batch ≤ 1000 }
    ensures takes { MatchResult result (TakesUp batch recorded seat transcript.old transcript.new) (λ h. h ≡ Memory) }
    ensures kept { IfOk result IsStage }
{
    let mut seat = seat;
    // A world fails by out of memory alone.
    let Ok(survey) = recorded.survey(&mut seat) else {
        return Err(Halt::Memory);
    };
    match reshard_planner::resume(alloc, &survey, batch) {
        Ok(plan) => verify_and_arm(recorded, seat, plan, &survey, transcript),
        Err(fault) => {
            transcript.report_not_resumed(fault)?;
            Ok(Stage::SeatFree(recorded, seat))
        }
    }
}
