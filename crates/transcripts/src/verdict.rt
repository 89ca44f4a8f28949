//! What is said of a plan that is verified.
ghost use Rattle.std.specs.Prelude.{◌≡◌, [], IfOk, MatchOption};
ghost use Rattle.cluster_admin.specs.Surveys.{closed_survey};
ghost use Rattle.transcripts.specs.PlanVerdicts.{SaysCount, SaysFault};

use crate::transcript::Transcript;
use key_slots::OwnerTable;
use plan_runner::{Plan, VerifiedPlan, verify};
use std::alloc::AllocError;

/// Verifies the plan, and says how many commands it stands for, or why it is not legal. Out of memory is an error of
/// its own, and leaves what was printed open.
pub fn verify_and_report(
    plan: Plan,
    owners: &OwnerTable,
    transcript: &mut Transcript,
) -> Result<Option<VerifiedPlan>, AllocError>
    requires fresh { transcript.old.printed.items ≡ [] }
    requires status { transcript.old.status ≡ 0 }
    ensures says { IfOk result (λ v. MatchOption v
        (SaysFault owners.now plan transcript.new.status transcript.new.printed.items)
        (λ p. (p ≡ record { plan = plan; survey = closed_survey owners.now.nodes owners.now.owners })
        × SaysCount owners.now plan transcript.new.status transcript.new.printed.items)) }
{
    let commands = plan.expanded_len(owners.nodes());
    match verify(plan, owners) {
        Ok(verified) => {
            transcript.report_verified(commands)?;
            Ok(Some(verified))
        }
        Err((plan, fault)) => {
            drop(plan);
            transcript.report_not_legal(fault)?;
            Ok(None)
        }
    }
}
