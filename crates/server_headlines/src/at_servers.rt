//! A verified plan that is carried out at servers, and what holds then.
ghost use Rattle.std.specs.Prelude.{OnOk};
ghost use Rattle.server_headlines.specs.ServersRuns.{RanOrNot};

use byte_streams::{ByteIn, ByteOut};
use plan_runner::{VerifiedPlan, Watcher};
use redis_servers::{Pause, ServersPort, ServersSeat};
use server_runs::apply;
use std::alloc::AllocError;
use transcripts::Transcript;

/// Carries a verified plan out at servers, as [`apply`] does. Whatever they answer, its calls are a beginning of what
/// the plan stands for; and the headline holds of them, where servers answer as the definitions let them and clients
/// are honest.
pub fn apply_at_servers<I: ByteIn + Drop, O: ByteOut + Drop, P: Pause + Drop, W: Watcher>(
    plan: VerifiedPlan,
    port: &mut ServersPort<I, O, P>,
    seat: ServersSeat,
    watcher: &mut W,
    before: u64,
    transcript: &mut Transcript,
) -> Result<(), AllocError>
    ensures { OnOk result (RanOrNot (record { gave = I.gave; took = O.took }) (λ p. p.said)
        (record { plan = plan.plan; survey = plan.survey; seat = seat; before = before })
        (port.old, watcher.old) (port.new, watcher.new) transcript.old transcript.new) }
{
    apply(plan, port, seat, watcher, before, transcript)
}
