//! Three plans, one after the other: one that is stopped, the one that resumes it, and one after these. The headline of
//! the closed cluster is the contract of the day.
ghost use Rattle.std.specs.Prelude.{◌≡◌, IfSome};
ghost use Rattle.cluster_admin.specs.Telling.{survey_after};
ghost use Rattle.cluster_admin.specs.Surveys.{IsOpenSurvey};
ghost use Rattle.cluster_world.specs.Worlds.{survey_of};
ghost use Rattle.live_tests.specs.Sittings.{HoldsOfThree, Sat};
ghost use Rattle.plan_language.specs.PlanView.{PlanView};
ghost use Rattle.plan_runner.specs.Verifying.{IsVerified};
ghost use Rattle.shared_trail.specs.Setups.{IsOpened};

use crate::clusters::{call_at, open_cluster};
use crate::commands::set_b;
use crate::headlines::close_with_headline;
use crate::plans::{leave, start, take_turns};
use crate::stores::{is_one_store, store_of};
use cluster_world::Survey;
use key_slots::OwnerTable;
use live_cluster::{AdminSeat, ClosedTrail, ClusterBrand, ClusterSetup, LiveCluster, Open};
use plan_runner::{Plan, VerifiedPlan, parse, verify_open};
use reshard_planner::resume;
use std::alloc::Global;
use std::marker::Brand;
use std::sync::Wait;
use std::test::Fail;

/// The plan that is stopped after some of its eight commands.
const FIRST: &[u8] = b"reshard-plan 1\nmove 3300 from n0 to n1 by 10\nend\n";

/// The plan after it.
const LAST: &[u8] =
    b"reshard-plan 2\nmove 100 from n0 to n2 by 10\nmove 100 from n2 to n1 by 10\nend\n";

/// More turns than a plan has commands.
const ALL: u64 = 100;

/// The plan takes so many turns, and is given up if it runs then.
fn sit<B: ClusterBrand, R: Wait>(
    rt: &R,
    cluster: &LiveCluster<B>,
    plan: VerifiedPlan,
    admin: AdminSeat<B>,
    turns: u64,
) -> AdminSeat<B>
    requires is_open { IsOpenSurvey plan.survey }
    requires verified { IsVerified plan.plan plan.survey }
    ensures { Sat plan.survey plan.plan admin result }
{
    match start(rt, cluster, plan, admin, 1_000_000) {
        Ok(plan) => {
            let (admin, _left) = leave(take_turns(rt, cluster, plan, turns));
            admin
        }
        Err(admin) => admin,
    }
}

/// The plan, if it can be run where the survey was made.
fn verified_for(plan: Plan, survey: &Survey) -> Option<VerifiedPlan>
    ensures is { IfSome result (λ v. v ≡ record { plan = plan; survey = survey.now }) }
    ensures is_open { IfSome result (λ v. IsOpenSurvey survey.now) }
    ensures verified { IfSome result (λ v. IsVerified plan survey.now) }
{
    if !survey.is_open() {
        return None;
    }
    verify_open(plan, survey).ok()
}

/// The plan is verified for the cluster as it is, and takes so many turns.
fn take_up<B: ClusterBrand, R: Wait>(
    rt: &R,
    cluster: &LiveCluster<B>,
    mut admin: AdminSeat<B>,
    plan: Plan,
    turns: u64,
) -> Option<AdminSeat<B>>
    ensures { IfSome result (λ s. Sat (survey_after (survey_of B.setup.opening) admin) plan admin s) }
{
    let survey = cluster.survey(rt, &mut admin).ok()?;
    let plan = verified_for(plan, &survey)?;
    Some(sit(rt, cluster, plan, admin, turns))
}

/// What stands open is closed.
fn take_up_rests<B: ClusterBrand, R: Wait>(
    rt: &R,
    alloc: Global,
    cluster: &LiveCluster<B>,
    mut admin: AdminSeat<B>,
) -> Option<AdminSeat<B>>
    ensures { IfSome result
        (λ s. (rests : PlanView) × Sat (survey_after (survey_of B.setup.opening) admin) rests admin s) }
{
    let survey = cluster.survey(rt, &mut admin).ok()?;
    let rests = resume(alloc, &survey, 2).ok()?;
    take_up(rt, cluster, admin, rests, ALL)
}

/// The first plan takes so many turns, then the plan of what it left open runs, and then the last one. A client calls
/// before each.
fn pass_day<B: ClusterBrand, R: Wait>(
    rt: &R,
    alloc: Global,
    setup: ClusterSetup,
    first: Plan,
    last: Plan,
    turns: u64,
) -> Option<ClosedTrail>
    requires setup { setup ≡ B.setup }
    requires opened { IsOpened setup.opening setup.owners }
    ensures { IfSome result (λ c. HoldsOfThree first last c.trail) }
{
    let cluster = open_cluster::<B>(alloc, setup)?;
    let client = cluster.client_seat(rt).ok()?;
    let admin = cluster.admin_seat(rt).ok()?;
    let client = call_at(rt, &cluster, client, (0, false), set_b(alloc), &Open);
    let admin = take_up(rt, &cluster, admin, first, turns)?;
    let client = call_at(rt, &cluster, client, (1, false), set_b(alloc), &Open);
    let admin = take_up_rests(rt, alloc, &cluster, admin)?;
    let admin = take_up(rt, &cluster, admin, last, ALL)?;
    let seats = vec![in alloc; client].ok()?;
    close_with_headline(alloc, cluster, seats, admin)
}

/// Passes a day at three nodes, as [`pass_day`] does, with these texts of the plans.
fn pass<R: Wait>(rt: &R, alloc: Global, turns: u64) -> Option<ClosedTrail>
    ensures { IfSome result
        (λ c. (first : PlanView) × (last : PlanView) × HoldsOfThree first last c.trail) }
{
    let first = parse(alloc, FIRST).ok()?;
    let last = parse(alloc, LAST).ok()?;
    let owners = OwnerTable::even(alloc, 3, 3).ok()?;
    let setup = ClusterSetup::new(alloc, owners, 7000).ok()?;
    pass_day::<Brand, R>(rt, alloc, setup, first, last, turns)
}

/// Whether the replies are those of one store, which the nodes hold.
fn is_kept(alloc: Global, closed: &mut ClosedTrail) -> Option<bool> {
    let mut store = store_of(alloc, &closed.trail)?;
    is_one_store(alloc, &mut closed.nodes, &mut store)
}

/// The first plan is stopped after each of its commands.
#[test]
fn three_plans_have_the_headline(rt: HostRuntime) -> Result<(), Fail> {
    let alloc = rt.alloc();
    for turns in 0..9 {
        let Some(mut closed) = pass(&rt, alloc, turns) else {
            return Err(Fail::from("a plan was refused"));
        };
        assert!(rt; matches!(is_kept(alloc, &mut closed), Some(true)));
    }
    Ok(())
}
