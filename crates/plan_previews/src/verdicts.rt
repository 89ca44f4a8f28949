//! What `verify` says of a plan.
ghost use Rattle.std.specs.Prelude.{IfErr, IfOk};
ghost use Rattle.plan_previews.specs.Previews.{IsVerdict, TellsFault};

use cluster_inspection::Refusal;
use key_slots::OwnerTable;
use plan_runner::Plan;
use transcripts::{Transcript, verify_and_report};

/// The line that says how many commands the plan stands for; or why it is not legal from these owners.
pub fn verdict_of(plan: &Plan, owners: &OwnerTable) -> Result<Transcript, Refusal>
    ensures verdict { IfOk result (IsVerdict owners.now plan.now) }
    ensures fault { IfErr result (TellsFault owners.now plan.now) }
{
    let mut verdict = Transcript::new(plan.allocator());
    let copy = plan.try_copy()?;
    let found = verify_and_report(copy, owners, &mut verdict)?;
    match found {
        Some(verified) => {
            drop(verified);
            Ok(verdict)
        }
        None => Err(Refusal::Answer(verdict)),
    }
}
