//! Of several open slots those are closed first whose target was told.
ghost use Rattle.std.specs.Prelude.{◌≡◌, ◌+◌, ◌++◌, ◌≤◌, [], IfOk, OnOk};
ghost use Rattle.std.specs.List.{AllByRecursion};
ghost use Rattle.plan_language.specs.Limits.{limits_of};
ghost use Rattle.plan_language.specs.Lines.{FitsVersion, IsLine, IsWithin, count};
ghost use Rattle.server_phases.specs.ToldFirst.{is_of_kind, is_told, of_kind, told_first};

use byte_texts::Memory;
use cluster_admin::Survey;
use plan_language::{Line, Plan, PlanCommand};

/// The plan of these rests with those slots first whose target tells that the slot is its own. Until the source of such
/// a slot is told, it may claim the slot with a config epoch of its own, which another slot that it takes over would
/// raise (the page of Redis Cluster's specification, "Hash slots configuration propagation"). Beside that the lines keep
/// their order.
pub(crate) fn told_first(rests: &Plan, survey: &Survey) -> Result<Plan, Memory>
    requires version { rests.now.version ≡ 3 }
    ensures { IfOk result (λ plan. plan ≡ record rests.now { lines = told_first survey.now rests.now.lines }) }
{
    let mut plan = without_lines(rests)?;
    put_kind(&mut plan, survey, rests.lines(), true)?;
    put_kind(&mut plan, survey, rests.lines(), false)?;
    Ok(plan)
}

/// A plan by the same rules, with the same names, and no line.
fn without_lines(plan: &Plan) -> Result<Plan, Memory>
    requires version { plan.now.version ≡ 3 }
    ensures { IfOk result (λ bare. bare ≡ record plan.now { lines = [] }) }
{
    match plan.names() {
        None => Ok(Plan::of_version(plan.allocator(), 3)),
        Some(names) => Ok(Plan::of_names(3, names.try_copy()?)),
    }
}

/// Puts those of the lines at the end that are of slots whose target was told, or those that are not.
fn put_kind(plan: &mut Plan, survey: &Survey, lines: &[Line], told: bool) -> Result<(), Memory>
    requires well_formed { AllByRecursion IsLine lines.now }
    requires within { AllByRecursion (IsWithin (limits_of plan.old.names)) lines.now }
    requires fit { AllByRecursion (FitsVersion plan.old.version) lines.now }
    requires room { count (limits_of plan.old.names) plan.old.lines
        + count (limits_of plan.old.names) (of_kind survey.now told lines.now)
        ≤ (limits_of plan.old.names).commands }
    ensures { OnOk result (plan.new ≡ record plan.old { lines = plan.old.lines ++ of_kind survey.now told lines.now }) }
{
    for line in lines {
        if is_of_kind(survey, line, told) {
            plan.push(*line)?;
        }
    }
    Ok(())
}

/// Whether the line is of a slot whose target was told, or whether it is not.
fn is_of_kind(survey: &Survey, line: &Line, told: bool) -> bool
    ensures { result ≡ is_of_kind survey.now told line.now }
{
    if told {
        is_told(survey, line)
    } else {
        !is_told(survey, line)
    }
}

/// Whether the line tells a node of the owner of a slot, and that owner tells it already.
fn is_told(survey: &Survey, line: &Line) -> bool
    ensures { result ≡ is_told survey.now line.now }
{
    match *line {
        Line::Command(PlanCommand::SetNode { slot, owner, .. }) => {
            owner.get() < survey.nodes() && survey.owner(owner, slot) == owner
        }
        _ => false,
    }
}
