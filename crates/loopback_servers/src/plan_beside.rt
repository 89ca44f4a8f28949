//! The plan that runs while clients work.
ghost use Rattle.std.specs.Prelude.{◌≡◌, ◌≤◌, IfOk};
ghost use Rattle.loopback_servers.specs.Announcing.{Announces, MayWrite, end_status, end_text};
ghost use Rattle.loopback_servers.specs.Carrying.{EndsBy};

use crate::announcing::announce;
use crate::unserved::Unserved;
use byte_streams::ByteOut;
use live_cluster::{AdminSeat, ClusterBrand, LiveCluster, LivePort};
use plan_runner::{ArmFault, Finish, StopCause, VerifiedPlan};
use std::alloc::{AllocError, Global};
use std::sync::Wait;
use transcripts::Transcript;

/// How a plan ended that ran beside clients.
#[derive(Drop)]
pub enum PlanEnd {
    Done(u64),
    Stopped(u64, StopCause),
    NotArmed(ArmFault),
}

/// Runs the plan through the administrator's seat, which comes back with the plan's calls at the end of its list.
pub(crate) fn run_beside<B: ClusterBrand, R: Wait>(
    rt: &R,
    cluster: &LiveCluster<B>,
    plan: VerifiedPlan,
    seat: AdminSeat<B>,
) -> (AdminSeat<B>, PlanEnd)
    ensures { EndsBy plan seat result.0 result.1 }
{
    let mut port = LivePort { cluster, rt };
    match plan.arm(&port, seat) {
        Ok(armed) => match armed.start(u64::MAX).run(&mut port) {
            Finish::Done(done) => {
                let spent = done.cost_so_far();
                (done.into_seat(), PlanEnd::Done(spent))
            }
            Finish::Stopped(stopped) => {
                let spent = stopped.cost_so_far();
                let (seat, cause) = stopped.into_parts();
                (seat, PlanEnd::Stopped(spent, cause))
            }
        },
        Err((_, seat, fault)) => (seat, PlanEnd::NotArmed(fault)),
    }
}

/// Announces how the plan ended, and gives the status of that. Out of memory is an error of its own.
pub(crate) fn announce_end<W: ByteOut>(
    alloc: Global,
    end: PlanEnd,
    writer: &mut W,
) -> Result<u8, Unserved>
    ensures few { IfOk result (λ s. s ≤ 1) }
    ensures status { IfOk result (λ s. s ≡ end_status end) }
    ensures announced { IfOk result (λ _. Announces W.took W.failures (end_text end) writer.old writer.new) }
    ensures wrote { MayWrite W.took W.failures (end_text end) writer.old writer.new }
{
    let transcript = end_transcript(alloc, end)?;
    announce(writer, transcript.printed.as_slice())?;
    Ok(transcript.status)
}

/// The line of a plan's end, with the status of that: 0 only where the plan is done.
fn end_transcript(alloc: Global, end: PlanEnd) -> Result<Transcript, AllocError>
    ensures few { IfOk result (λ t. t.status ≤ 1) }
    ensures status { IfOk result (λ t. t.status ≡ end_status end) }
    ensures text { IfOk result (λ t. t.printed.items ≡ end_text end) }
{
    let mut transcript = Transcript::new(alloc);
    match end {
        PlanEnd::Done(spent) => transcript.report_done(spent)?,
        PlanEnd::Stopped(_, StopCause::Memory) => return Err(AllocError),
        PlanEnd::Stopped(spent, cause) => transcript.report_stopped(spent, cause)?,
        PlanEnd::NotArmed(fault) => transcript.report_not_armed(fault)?,
    }
    Ok(transcript)
}
