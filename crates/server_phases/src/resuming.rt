//! The plan that closes all open slots, and moves what earlier lines have not moved yet.
ghost use Rattle.std.specs.Prelude.{◌≡◌, ◌≤◌, ◌<◌, ◌+◌, ◌-◌, ◌⊎◌, ℕ, MatchResult, OnOk};
ghost use Rattle.std.specs.Bool.{OnFalse, OnTrue};
ghost use Rattle.std.specs.List.{AllByRecursion};
ghost use Rattle.cluster_admin.specs.Phases.{Phases};
ghost use Rattle.cluster_admin.specs.Surveys.{Survey as SurveyView, phase_seen};
ghost use Rattle.plan_language.specs.Lines.{IsLine};
ghost use Rattle.plan_semantics.specs.Surveyed.{Shows};
ghost use Rattle.reshard_planner.specs.Resuming.{width};
ghost use Rattle.server_phases.specs.Resumed.{AddsMoves, AreNoRests, AreRests, AreStill, HasBeyond, HasCommand};
ghost use Rattle.server_phases.specs.Resumed.{IsBeyond, IsCommand, IsLineFault, IsNotResumed, IsResumed, IsUnmoved};
ghost use Rattle.server_phases.specs.Resumed.{plan_count, run, stays_at, still, still_left, still_of};

use crate::resume_fault::ResumeFault;
use crate::told_first::told_first;
use cluster_admin::{Phase, Survey};
use key_slots::{NodeId, Slot};
use plan_language::{Line, Plan};
use reshard_planner::{PlannerFault, resume};
use std::alloc::Global;

/// Where slots go, and how many keys at a time.
#[derive(Clone, Copy)]
struct Ends {
    source: NodeId,
    target: NodeId,
    batch: u16,
}

/// The plan by the rules of version 3 that closes every slot which stands open, by the commands of [`resume`] with this
/// batch of 1 to 1,000 keys, slots whose target was told first, and then moves each slot of these lines, with the
/// line's own batch, that all nodes say is still at the line's source and that has no mark. Slots that are open, or
/// elsewhere by now, are left out of the moves (the page of CLUSTER SETSLOT, "Redis Cluster live resharding
/// explained"). Of more than eight nodes the plan lists no names yet: the caller puts them in. Whoever runs the plan verifies it first: lines that move one slot twice make it
/// illegal.
///
/// Strange comes before the other faults. The lines are then taken in their order: at the first that is no move NoMove
/// is reported, at the first with a node that no plan for the cluster can have Beyond, and at the first with which the
/// plan counts as more commands than it may TooLong. Out of memory may stand for any.
pub fn resumed_plan(
    alloc: Global,
    survey: &Survey,
    batch: u16,
    moves: &[Line],
) -> Result<Plan, ResumeFault>
    requires some_keys { 1 ≤ batch }
    requires most_keys { batch ≤ 1000 }
    requires lines { AllByRecursion IsLine moves.now }
    ensures { MatchResult result (IsResumed survey.now batch moves.now) (IsNotResumed survey.now batch moves.now) }
{
    let mut plan = rests(alloc, survey, batch)?;
    put_lines(&mut plan, survey, moves)?;
    Ok(plan)
}

/// The plan of the rests, those first whose target was told.
fn rests(alloc: Global, survey: &Survey, batch: u16) -> Result<Plan, ResumeFault>
    requires some_keys { 1 ≤ batch }
    requires most_keys { batch ≤ 1000 }
    ensures { MatchResult result (AreRests survey.now batch) (AreNoRests survey.now) }
{
    match resume(alloc, survey, batch) {
        Ok(plan) => Ok(told_first(&plan, survey)?),
        Err(PlannerFault::StrangeMarks(_)) => Err(ResumeFault::Strange),
        Err(_) => Err(ResumeFault::Memory),
    }
}

/// Puts the moves that are left of the lines at the end.
fn put_lines(plan: &mut Plan, survey: &Survey, moves: &[Line]) -> Result<(), ResumeFault>
    requires version { plan.old.version ≡ 3 }
    requires lines { AllByRecursion IsLine moves.now }
    ensures { MatchResult result
        (λ _. (n : ℕ) (phases : Phases) → Shows survey.now phases
        → AddsMoves n plan.old plan.new (still_left phases moves.now))
        (λ e. (phases : Phases) → Shows survey.now phases
        → IsLineFault plan.old (still_left phases moves.now) (HasCommand moves.now)
        (HasBeyond (width plan.old) moves.now) e) }
{
    let mut total = count_of(plan);
    for line in moves {
        put_line(plan, &mut total, survey, line)?;
    }
    Ok(())
}

/// How many commands the plan counts as.
fn count_of(plan: &Plan) -> u32
    ensures value { result ≡ plan_count plan.now.names plan.now.lines }
    ensures most { result ≤ 4227072 }
{
    let limits = plan.limits();
    let mut total = 0;
    for line in plan.lines() {
        total += line.count(limits);
    }
    total
}

/// Puts the moves that are left of the line at the end of a plan that counts so many commands.
fn put_line(
    plan: &mut Plan,
    total: &mut u32,
    survey: &Survey,
    line: &Line,
) -> Result<(), ResumeFault>
    requires version { plan.old.version ≡ 3 }
    requires total { total.old ≡ plan_count plan.old.names plan.old.lines }
    requires few { total.old ≤ 4227072 }
    requires well_formed { IsLine line.now }
    ensures adds { MatchResult result
        (λ _. (n : ℕ) (phases : Phases) → Shows survey.now phases
        → AddsMoves n plan.old plan.new (still_of phases line.now))
        (λ e. (phases : Phases) → Shows survey.now phases
        → IsLineFault plan.old (still_of phases line.now) (IsCommand line.now) (IsBeyond (width plan.old) line.now) e) }
    ensures total { OnOk result (total.new ≡ plan_count plan.new.names plan.new.lines) }
    ensures few { OnOk result (total.new ≤ 4227072) }
    ensures version { OnOk result (plan.new.version ≡ 3) }
    ensures names { OnOk result (plan.new.names ≡ plan.old.names) }
{
    match *line {
        Line::Command(_) => Err(ResumeFault::NoMove),
        Line::Move {
            first,
            last,
            source,
            target,
            batch,
        } => {
            let ends = Ends {
                source,
                target,
                batch,
            };
            if is_beyond(plan, &ends) {
                return Err(ResumeFault::Beyond);
            }
            put_runs(plan, total, survey, first, last, &ends)
        }
    }
}

/// Whether one of the ends is a node that the plan can't have.
fn is_beyond(plan: &Plan, ends: &Ends) -> bool
    ensures far { OnTrue result ((width plan.now ≤ ends.now.source) ⊎ (width plan.now ≤ ends.now.target)) }
    ensures source { OnFalse result (ends.now.source < width plan.now) }
    ensures target { OnFalse result (ends.now.target < width plan.now) }
{
    let nodes = plan.limits().nodes;
    if nodes <= ends.source.get() {
        return true;
    }
    nodes <= ends.target.get()
}

/// Puts the moves of those slots that are still at the source, run by run.
fn put_runs(
    plan: &mut Plan,
    total: &mut u32,
    survey: &Survey,
    first: Slot,
    last: Slot,
    ends: &Ends,
) -> Result<(), ResumeFault>
    requires version { plan.old.version ≡ 3 }
    requires total { total.old ≡ plan_count plan.old.names plan.old.lines }
    requires few { total.old ≤ 4227072 }
    requires ordered { first ≤ last }
    requires source { ends.now.source < width plan.old }
    requires target { ends.now.target < width plan.old }
    requires some_keys { 1 ≤ ends.now.batch }
    requires most_keys { ends.now.batch ≤ 1000 }
    ensures adds { MatchResult result
        (λ _. (n : ℕ) (phases : Phases) → Shows survey.now phases → AddsMoves n plan.old plan.new
        (still phases first (last + 1 - first) ends.now.source ends.now.target ends.now.batch))
        (λ e. (phases : Phases) → Shows survey.now phases → IsUnmoved plan.old
        (still phases first (last + 1 - first) ends.now.source ends.now.target ends.now.batch) e) }
    ensures total { OnOk result (total.new ≡ plan_count plan.new.names plan.new.lines) }
    ensures few { OnOk result (total.new ≤ 4227072) }
    ensures version { OnOk result (plan.new.version ≡ 3) }
    ensures names { OnOk result (plan.new.names ≡ plan.old.names) }
{
    let mut next = first.get();
    while next <= last.get() {
        next = put_next(plan, total, survey, Slot::of(next), last, ends)?;
    }
    Ok(())
}

/// Puts the moves of the slots from this one on that are still at the source, up to the first that is not, which may be
/// this one. Gives the number of the slot from which to continue.
fn put_next(
    plan: &mut Plan,
    total: &mut u32,
    survey: &Survey,
    slot: Slot,
    last: Slot,
    ends: &Ends,
) -> Result<u16, ResumeFault>
    requires version { plan.old.version ≡ 3 }
    requires total { total.old ≡ plan_count plan.old.names plan.old.lines }
    requires few { total.old ≤ 4227072 }
    requires ordered { slot ≤ last }
    requires source { ends.now.source < width plan.old }
    requires target { ends.now.target < width plan.old }
    requires some_keys { 1 ≤ ends.now.batch }
    requires most_keys { ends.now.batch ≤ 1000 }
    ensures adds { MatchResult result
        (λ next. (slot < next) × (next ≤ last + 1) × ((n : ℕ) (phases : Phases) → Shows survey.now phases
        → AddsMoves n plan.old plan.new
        (still phases slot (next - slot) ends.now.source ends.now.target ends.now.batch)))
        (λ e. (phases : Phases) → Shows survey.now phases → IsUnmoved plan.old
        (still phases slot (last + 1 - slot) ends.now.source ends.now.target ends.now.batch) e) }
    ensures total { OnOk result (total.new ≡ plan_count plan.new.names plan.new.lines) }
    ensures few { OnOk result (total.new ≤ 4227072) }
    ensures version { OnOk result (plan.new.version ≡ 3) }
    ensures names { OnOk result (plan.new.names ≡ plan.old.names) }
{
    if !is_at(survey, slot, ends.source) {
        return Ok(slot.get() + 1);
    }
    let end = end_of_run(survey, slot, last, ends.source);
    put_run(plan, total, slot, end, ends)?;
    Ok(end.get() + 1)
}

/// Whether the slot is closed at the node, or will be once its target has taken its mark back.
fn is_at(survey: &Survey, slot: Slot, node: NodeId) -> bool
    ensures { (phases : Phases) → Shows survey.now phases → result ≡ stays_at (phases slot) node }
{
    match survey.phase_of(slot) {
        Some(phase) => stays_at(&phase, node),
        None => false,
    }
}

/// Whether a slot of this phase is closed at the node, or will be once its target has taken its mark back.
fn stays_at(phase: &Phase, node: NodeId) -> bool
    ensures { (v : SurveyView) (s : ℕ) → result ≡ stays_at (phase_seen v s phase.now) node }
{
    match *phase {
        Phase::Closed(owner) => owner == node,
        Phase::Importing { source, .. } => source == node,
        _ => false,
    }
}

/// The last of the slots up to this last one that follow on each other and are still at the source, as this first one
/// is.
fn end_of_run(survey: &Survey, first: Slot, last: Slot, source: NodeId) -> Slot
    requires ordered { first ≤ last }
    requires still { AreStill survey.now source first first }
    ensures least { first ≤ result }
    ensures most { result ≤ last }
    ensures still { AreStill survey.now source first result }
{
    let mut end = first;
    for number in first.get() + 1..last.get() + 1 {
        let slot = Slot::of(number);
        if !is_at(survey, slot, source) {
            return end;
        }
        end = slot;
    }
    end
}

/// Puts the move of these slots, unless the plan gets too long.
fn put_run(
    plan: &mut Plan,
    total: &mut u32,
    first: Slot,
    last: Slot,
    ends: &Ends,
) -> Result<(), ResumeFault>
    requires total { total.old ≡ plan_count plan.old.names plan.old.lines }
    requires few { total.old ≤ 4227072 }
    requires version { plan.old.version ≡ 3 }
    requires ordered { first ≤ last }
    requires source { ends.now.source < width plan.old }
    requires target { ends.now.target < width plan.old }
    requires some_keys { 1 ≤ ends.now.batch }
    requires most_keys { ends.now.batch ≤ 1000 }
    ensures adds { MatchResult result
        (λ _. (n : ℕ) → AddsMoves n plan.old plan.new
        (run first (last + 1 - first) ends.now.source ends.now.target ends.now.batch))
        (IsUnmoved plan.old (run first (last + 1 - first) ends.now.source ends.now.target ends.now.batch)) }
    ensures total { OnOk result (total.new ≡ plan_count plan.new.names plan.new.lines) }
    ensures few { OnOk result (total.new ≤ 4227072) }
    ensures version { OnOk result (plan.new.version ≡ 3) }
    ensures names { OnOk result (plan.new.names ≡ plan.old.names) }
{
    let limits = plan.limits();
    let line = Line::Move {
        first,
        last,
        source: ends.source,
        target: ends.target,
        batch: ends.batch,
    };
    let count = *total + line.count(limits);
    if count > limits.commands {
        return Err(ResumeFault::TooLong(limits.commands));
    }
    plan.push(line)?;
    *total = count;
    Ok(())
}
