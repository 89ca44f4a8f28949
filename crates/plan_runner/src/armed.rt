ghost use Rattle.std.specs.Prelude.{◌≡◌, ◌<◌, None, true, false, MatchResult};
ghost use Rattle.plan_runner.specs.ProgressView.{at_start};
ghost use Rattle.plan_runner.specs.Verifying.{commands_of};
ghost use Rattle.plan_semantics.specs.Surveyed.{node_count};
ghost use Rattle.plan_runner.specs.declared.armed.ArmFault.TheVariants.{TableChanged};

use crate::running::RunningPlan;
use crate::verifier::VerifiedPlan;
use cluster_admin::AdminPort;
use thiserror::Error;

/// Why a plan was not armed.
#[derive(Clone, Copy, Debug, PartialEq, Eq, Error)]
pub enum ArmFault {
    /// Some node's table or marks are not those of the survey for which the plan was verified.
    TableChanged = 1,
}

/// A verified plan with the seat that it will run by. It has to be started: the seat is never lost.
pub struct ArmedPlan<S> {
    plan: VerifiedPlan,
    seat: S,
}

impl VerifiedPlan {
    /// Gives the plan its seat, if the port's tables and marks are those of the survey for which the plan was verified.
    /// Takes no memory.
    pub fn arm<P: AdminPort>(
        self,
        port: &P,
        mut seat: P::Seat,
    ) -> Result<ArmedPlan<P::Seat>, (VerifiedPlan, P::Seat, ArmFault)>
        requires { P.fits port.now seat }
        ensures { MatchResult result
            (λ a. P.matches_gives port.now (P.calls seat) self.survey true
            × (P.NodeCount.count port.now ≡ node_count self.survey) × (a ≡ record { plan = self; seat = seat }))
            (λ e. P.matches_gives port.now (P.calls seat) self.survey false × (e ≡ (self, seat, TableChanged))) }
    {
        if port.matches(&mut seat, &self.survey) {
            Ok(ArmedPlan { plan: self, seat })
        } else {
            Err((self, seat, ArmFault::TableChanged))
        }
    }
}

impl<S> ArmedPlan<S> {
    /// Starts the plan, which stops where so many replies are taken before its end. Takes no memory. At least one reply
    /// may be taken.
    pub fn start(self, most: u64) -> RunningPlan<S>
        requires { 0 < most }
        ensures progress { result.progress
            ≡ at_start (node_count self.plan.survey) (commands_of self.plan.plan self.plan.survey) most }
        ensures seat { result.seat ≡ self.seat }
    {
        let ArmedPlan { plan, seat } = self;
        let progress = plan.into_progress(most);
        RunningPlan { progress, seat }
    }
}
