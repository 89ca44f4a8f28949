//! A verified plan that is carried out at servers.
ghost use Rattle.std.specs.Prelude.{OnOk};
ghost use Rattle.server_runs.specs.ServersInOneGo.{RanInOneGoOrNot};

use crate::applying::{apply, report_end};
use crate::in_one_go::run_in_one_go;
use byte_streams::{ByteIn, ByteOut};
use plan_runner::{VerifiedPlan, Watcher};
use redis_servers::{Pause, ServersPort, ServersSeat};
use std::alloc::{AllocError, Global};
use transcripts::Transcript;

/// Carries a verified plan out at servers, as [`apply`](crate::apply) does, but tells the other nodes of a slot in one
/// go. The memory is for the list of these nodes; where there is none, they are told one by one.
pub fn apply_in_one_go<I: ByteIn + Drop, O: ByteOut + Drop, P: Pause + Drop, W: Watcher>(
    alloc: Global,
    plan: VerifiedPlan,
    port: &mut ServersPort<I, O, P>,
    seat: ServersSeat,
    watcher: &mut W,
    before: u64,
    transcript: &mut Transcript,
) -> Result<(), AllocError>
    ensures { OnOk result (RanInOneGoOrNot (record { gave = I.gave; took = O.took })
        (record { sees = W.sees; hears = W.hears; misses = W.misses }) (λ p. p.said)
        (record { plan = plan.plan; survey = plan.survey; seat = seat; before = before })
        (port.old, watcher.old) (port.new, watcher.new) transcript.old transcript.new) }
{
    let armed = match plan.arm(port, seat) {
        Ok(armed) => armed,
        Err((plan, seat, fault)) => {
            drop(plan);
            drop(seat);
            return transcript.report_not_armed(fault);
        }
    };
    let end = run_in_one_go(alloc, armed.start(u64::MAX), port, watcher);
    report_end(end, port, before, transcript)
}
