ghost use Rattle.std.specs.Prelude.{◌≡◌, ◌<◌, ◌≤◌, IfOk, IfErr, MatchResult, is_some};
ghost use Rattle.cluster_admin.specs.Surveys.{IsOpenSurvey, closed_survey};
ghost use Rattle.plan_runner.specs.ProgressView.{at_start};
ghost use Rattle.plan_runner.specs.Verifying.{IsRefusedOver, IsVerified, TellsRetargets, commands_of};
ghost use Rattle.plan_semantics.specs.Surveyed.{node_count};

use crate::node_set::{FEW, MANY};
use crate::plan_check::PlanCheck;
use crate::progress::Progress;
use crate::rules::Rules;
use crate::verify_fault::VerifyFault;
use cluster_admin::Survey;
use key_slots::OwnerTable;
use plan_language::{Plan, PlanCommands};
use std::marker::Model;

/// A plan that is legal for a survey.
pub struct VerifiedPlan {
    pub(crate) plan: Plan,
    pub(crate) survey: Survey,
    retargets: bool,
}

/// Written out, so that a proof sees one call where such a value is dropped.
impl Drop for VerifiedPlan {
    fn drop(self) {
        let Self {
            plan,
            survey,
            retargets: _,
        } = self;
        drop(plan);
        drop(survey);
    }
}

impl Model for VerifiedPlan {
    ghost use Rattle.plan_runner.specs.Verifying.{Verified, verified_code, IsVerified, TellsRetargets};

    ghost Value = { Verified };

    ghost coded = { verified_code };

    ghost view = { λ v. record { plan = v.plan; survey = v.survey } };

    ghost invariant = { λ v. IsVerified v.plan v.survey × TellsRetargets v.plan v.survey v.retargets };
}

impl VerifiedPlan {
    /// Whether some slot goes twice to one node: a client that was told to ask there by the one move may then meet the
    /// other. Counts as targets those of moves and tries, and that of a slot which was on its way. Takes no memory.
    pub fn retargets(&self) -> bool
        ensures { TellsRetargets self.now.plan self.now.survey result }
    {
        self.retargets
    }

    /// Whether the plan's text lists its nodes with their names, as those of versions 4 and 5 do.
    pub fn has_names(&self) -> bool
        ensures { result ≡ is_some self.now.plan.names }
    {
        self.plan.names().is_some()
    }

    /// The plan before its first command.
    pub(crate) fn into_progress(self, most: u64) -> Progress
        requires { 0 < most }
        ensures { result ≡ at_start (node_count self.survey) (commands_of self.plan self.survey) most }
    {
        let Self {
            plan,
            survey,
            retargets: _,
        } = self;
        let nodes = survey.nodes();
        drop(survey);
        Progress::start(PlanCommands::of(plan, nodes), most)
    }
}

/// VerifierExact: accepts the plan if it is legal for the cluster as surveyed. Otherwise gives it back with its first
/// command at fault, or the lowest slot that it leaves open. The states of the slots take memory before the plan is
/// looked at; the survey is copied for a legal plan alone.
pub fn verify_open(plan: Plan, survey: &Survey) -> Result<VerifiedPlan, (Plan, VerifyFault)>
    requires { IsOpenSurvey survey.now }
    ensures accepted { IfOk result (λ v. v ≡ record { plan = plan; survey = survey.now }) }
    ensures legal { IfOk result (λ v. IsVerified plan survey.now) }
    ensures back { IfErr result (λ e. e.0 ≡ plan) }
    ensures refused { IfErr result (λ e. IsRefusedOver plan survey.now e.1) }
{
    match check(&plan, survey) {
        Ok(retargets) => keep(plan, survey, retargets),
        Err(fault) => Err((plan, fault)),
    }
}

/// A plan that is legal for the survey, with a copy of that.
fn keep(plan: Plan, survey: &Survey, retargets: bool) -> Result<VerifiedPlan, (Plan, VerifyFault)>
    requires legal { IsVerified plan survey.now }
    requires targets { TellsRetargets plan survey.now retargets }
    ensures accepted { IfOk result (λ v. v ≡ record { plan = plan; survey = survey.now }) }
    ensures back { IfErr result (λ e. e.0 ≡ plan) }
    ensures refused { IfErr result (λ e. IsRefusedOver plan survey.now e.1) }
{
    match survey.try_copy() {
        Ok(survey) => Ok(VerifiedPlan {
            plan,
            survey,
            retargets,
        }),
        Err(_) => Err((plan, VerifyFault::Memory)),
    }
}

/// VerifierExact: the same of a cluster whose nodes all have this table, and no mark. The survey of such a cluster is
/// made first.
pub fn verify(plan: Plan, owners: &OwnerTable) -> Result<VerifiedPlan, (Plan, VerifyFault)>
    ensures accepted { IfOk result
        (λ v. v ≡ record { plan = plan; survey = closed_survey owners.now.nodes owners.now.owners }) }
    ensures legal { IfOk result (λ v. IsVerified plan (closed_survey owners.now.nodes owners.now.owners)) }
    ensures back { IfErr result (λ e. e.0 ≡ plan) }
    ensures refused { IfErr result
        (λ e. IsRefusedOver plan (closed_survey owners.now.nodes owners.now.owners) e.1) }
{
    let _nodes = owners.nodes();
    match Survey::closed(plan.allocator(), owners) {
        Ok(survey) => accept(plan, survey),
        Err(_) => Err((plan, VerifyFault::Memory)),
    }
}

/// Accepts the plan if it is legal for the survey, which it keeps.
fn accept(plan: Plan, survey: Survey) -> Result<VerifiedPlan, (Plan, VerifyFault)>
    requires { IsOpenSurvey survey }
    ensures accepted { IfOk result (λ v. v ≡ record { plan = plan; survey = survey }) }
    ensures legal { IfOk result (λ v. IsVerified plan survey) }
    ensures back { IfErr result (λ e. e.0 ≡ plan) }
    ensures refused { IfErr result (λ e. IsRefusedOver plan survey e.1) }
{
    match check(&plan, &survey) {
        Ok(retargets) => Ok(VerifiedPlan {
            plan,
            survey,
            retargets,
        }),
        Err(fault) => Err((plan, fault)),
    }
}

/// Whether some slot of the plan has one target twice, if the plan is legal for the survey, and otherwise why it is
/// not.
fn check(plan: &Plan, survey: &Survey) -> Result<bool, VerifyFault>
    requires { IsOpenSurvey survey.now }
    ensures { MatchResult result
        (λ retargets. IsVerified plan.now survey.now × TellsRetargets plan.now survey.now retargets)
        (IsRefusedOver plan.now survey.now) }
{
    if usize::from(survey.nodes()) <= FEW {
        check_within::<FEW>(plan, survey)
    } else {
        check_within::<MANY>(plan, survey)
    }
}

/// Verifies the plan with sets of nodes of this width, which is that of the cluster at least.
#[tactic(auto, using(crate::proofs::Counts::few_are_fewer))]
fn check_within<const N: usize>(plan: &Plan, survey: &Survey) -> Result<bool, VerifyFault>
    requires seen { IsOpenSurvey survey.now }
    requires nodes { node_count survey.now ≤ N }
    requires most { N ≤ 255 }
    ensures { MatchResult result
        (λ retargets. IsVerified plan.now survey.now × TellsRetargets plan.now survey.now retargets)
        (IsRefusedOver plan.now survey.now) }
{
    let rules = Rules {
        version: plan.version(),
        nodes: survey.nodes(),
    };
    let Ok(mut check) = PlanCheck::<N>::new(plan.allocator(), survey) else {
        return Err(VerifyFault::Memory);
    };
    check.take_all(plan.lines(), rules)?;
    match check.left_open() {
        Some(place) => Err(VerifyFault::LeftOpen(place)),
        None => Ok(check.retargets()),
    }
}
