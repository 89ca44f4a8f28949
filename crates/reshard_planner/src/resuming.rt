ghost use Rattle.std.specs.Prelude.{not, ◌&&◌, ◌==◌, ◌≡◌, ◌+◌, ◌<◌, ◌≤◌, ℕ, [], ◌∷◌, OnOk, IfOk, MatchOption};
ghost use Rattle.cluster_admin.specs.Phases.{IsPhase, Phase as SlotPhase, Phases};
ghost use Rattle.cluster_admin.specs.Surveys.{HasPhaseIn, IsOpenSurvey, nodes_saying, phase_seen};
ghost use Rattle.plan_language.specs.Lines.{others, plan_commands};
ghost use Rattle.plan_language.specs.declared.plan_command.PlanCommand.TheVariants as planned;
ghost use Rattle.plan_semantics.specs.Plans.{Legal, tell};
ghost use Rattle.plan_semantics.specs.Surveyed.{Shows, node_count};
ghost use Rattle.reshard_planner.specs.Resuming.{Adds, IsLowestStrange, Resumes, ascending, rest_of, resumed, room};
ghost use Rattle.reshard_planner.specs.Resuming.{told_if, width};

use crate::blank_plan::blank_plan;
use crate::planner_fault::PlannerFault;
use byte_texts::Memory;
use cluster_admin::{Phase, Survey};
use key_slots::{NodeId, SLOTS, Slot};
use plan_language::{Line, Plan, PlanCommand};
use std::alloc::Global;

/// A plan by the rules of version 3 that closes every slot which stands open: a target that only imports takes its mark
/// back, and any other move continues to its end. Slots, and the nodes that are still to be told, are ascending. A
/// batch is 1 to 1,000 keys. Of more than eight nodes the plan lists no names yet: the caller puts them in. Looks at
/// each slot of each node a few times.
pub fn resume(alloc: Global, survey: &Survey, batch: u16) -> Result<Plan, PlannerFault>
    requires some_keys { 1 ≤ batch }
    requires most_keys { batch ≤ 1000 }
    ensures exact { Resumes survey.now batch result }
    ensures phases { IfOk result (λ _. IsOpenSurvey survey.now) }
    ensures legal { IfOk result (λ plan. (phases : Phases) → Shows survey.now phases
        → Legal plan.version (plan_commands (node_count survey.now) plan.lines) phases (node_count survey.now)) }
{
    match strange_slot(survey) {
        Some(slot) => Err(PlannerFault::StrangeMarks(slot)),
        None => Ok(plan_of_rests(alloc, survey, batch)?),
    }
}

/// The lowest slot without a phase.
fn strange_slot(survey: &Survey) -> Option<Slot>
    ensures { MatchOption result (IsOpenSurvey survey.now) (IsLowestStrange survey.now) }
{
    let _nodes = survey.nodes();
    for number in 0..SLOTS as u16 {
        let slot = Slot::of(number);
        match survey.phase_of(slot) {
            Some(_phase) => {}
            None => return Some(slot),
        }
    }
    None
}

/// The plan that closes each slot.
fn plan_of_rests(alloc: Global, survey: &Survey, batch: u16) -> Result<Plan, Memory>
    requires phases { IsOpenSurvey survey.now }
    requires some_keys { 1 ≤ batch }
    requires most_keys { batch ≤ 1000 }
    ensures exact { IfOk result (λ plan. (phases : Phases) → Shows survey.now phases
        → plan ≡ resumed (node_count survey.now) batch phases) }
    ensures legal { IfOk result (λ plan. (phases : Phases) → Shows survey.now phases
        → Legal plan.version (plan_commands (node_count survey.now) plan.lines) phases (node_count survey.now)) }
{
    let mut plan = blank_plan(alloc, 3, survey.nodes());
    for number in 0..SLOTS as u16 {
        close(&mut plan, survey, Slot::of(number), batch)?;
    }
    Ok(plan)
}

/// Puts the commands that close the slot at the end.
fn close(plan: &mut Plan, survey: &Survey, slot: Slot, batch: u16) -> Result<(), Memory>
    requires phase { (p : SlotPhase) × HasPhaseIn survey.now slot p }
    requires version { plan.old.version ≡ 3 }
    requires wide { node_count survey.now ≤ width plan.old }
    requires room { node_count survey.now + 3 ≤ room plan.old }
    requires some_keys { 1 ≤ batch }
    requires most_keys { batch ≤ 1000 }
    ensures { OnOk result ((p : SlotPhase) → HasPhaseIn survey.now slot p
        → Adds plan.old plan.new (rest_of (node_count survey.now) slot batch p)) }
{
    match survey.phase_of(slot) {
        Some(phase) => close_from(plan, survey, slot, &phase, batch),
        None => unreachable!(),
    }
}

/// Puts the commands that close the slot, which is in this phase, at the end.
#[tactic(auto, using(crate::proofs::Rests::ends_below))]
fn close_from(
    plan: &mut Plan,
    survey: &Survey,
    slot: Slot,
    phase: &Phase,
    batch: u16,
) -> Result<(), Memory>
    requires version { plan.old.version ≡ 3 }
    requires fine { IsPhase (node_count survey.now) (phase_seen survey.now slot phase.now) }
    requires wide { node_count survey.now ≤ width plan.old }
    requires room { node_count survey.now + 3 ≤ room plan.old }
    requires some_keys { 1 ≤ batch }
    requires most_keys { batch ≤ 1000 }
    ensures { OnOk result (Adds plan.old plan.new
        (rest_of (node_count survey.now) slot batch (phase_seen survey.now slot phase.now))) }
{
    let nodes = survey.nodes();
    match *phase {
        Phase::Closed(_) => Ok(()),
        Phase::Importing { target, .. } => take_back(plan, slot, target),
        Phase::Migrating { source, target } => drain(plan, nodes, slot, source, target, batch),
        Phase::TargetTold { source, target } => tell_source(plan, nodes, slot, source, target),
        Phase::SourceTold { source, target } => tell_left(plan, survey, slot, source, target),
    }
}

/// The target takes its mark back.
fn take_back(plan: &mut Plan, slot: Slot, target: NodeId) -> Result<(), Memory>
    requires version { plan.old.version ≡ 3 }
    requires at { target < width plan.old }
    requires room { 1 ≤ room plan.old }
    ensures { OnOk result (Adds plan.old plan.new (planned.Stable slot target ∷ [])) }
{
    plan.push(Line::Command(PlanCommand::Stable { slot, at: target }))
}

/// The keys go to the target, and then all nodes are told.
fn drain(
    plan: &mut Plan,
    nodes: u8,
    slot: Slot,
    source: NodeId,
    target: NodeId,
    batch: u16,
) -> Result<(), Memory>
    requires wide { nodes ≤ width plan.old }
    requires source { source < width plan.old }
    requires target { target < width plan.old }
    requires room { nodes + 3 ≤ room plan.old }
    requires some_keys { 1 ≤ batch }
    requires most_keys { batch ≤ 1000 }
    ensures { OnOk result (Adds plan.old plan.new (planned.Drain slot source target batch
        ∷ planned.SetNode slot target target ∷ planned.SetNode slot target source
        ∷ tell slot target (others nodes source target))) }
{
    push_drain(plan, slot, source, target, batch)?;
    tell_target(plan, nodes, slot, source, target)
}

/// The keys go to the target.
fn push_drain(
    plan: &mut Plan,
    slot: Slot,
    source: NodeId,
    target: NodeId,
    batch: u16,
) -> Result<(), Memory>
    requires source { source < width plan.old }
    requires target { target < width plan.old }
    requires room { 1 ≤ room plan.old }
    requires some_keys { 1 ≤ batch }
    requires most_keys { batch ≤ 1000 }
    ensures adds { OnOk result (Adds plan.old plan.new (planned.Drain slot source target batch ∷ [])) }
    ensures width { OnOk result (width plan.new ≡ width plan.old) }
    ensures room { OnOk result (room plan.new + 1 ≡ room plan.old) }
{
    plan.push(Line::Command(PlanCommand::Drain {
        slot,
        source,
        target,
        batch,
    }))
}

/// The target is told, and then the source and the others.
fn tell_target(
    plan: &mut Plan,
    nodes: u8,
    slot: Slot,
    source: NodeId,
    target: NodeId,
) -> Result<(), Memory>
    requires wide { nodes ≤ width plan.old }
    requires source { source < width plan.old }
    requires target { target < width plan.old }
    requires room { nodes + 2 ≤ room plan.old }
    ensures { OnOk result (Adds plan.old plan.new (planned.SetNode slot target target
        ∷ planned.SetNode slot target source ∷ tell slot target (others nodes source target))) }
{
    push_node(plan, slot, target, target)?;
    tell_source(plan, nodes, slot, source, target)
}

/// The source is told, and then the others, ascending.
fn tell_source(
    plan: &mut Plan,
    nodes: u8,
    slot: Slot,
    source: NodeId,
    target: NodeId,
) -> Result<(), Memory>
    requires wide { nodes ≤ width plan.old }
    requires source { source < width plan.old }
    requires target { target < width plan.old }
    requires room { nodes + 1 ≤ room plan.old }
    ensures { OnOk result (Adds plan.old plan.new
        (planned.SetNode slot target source ∷ tell slot target (others nodes source target))) }
{
    push_node(plan, slot, target, source)?;
    tell_others(plan, nodes, slot, source, target)
}

/// The nodes that are neither the source nor the target are told, ascending.
fn tell_others(
    plan: &mut Plan,
    nodes: u8,
    slot: Slot,
    source: NodeId,
    target: NodeId,
) -> Result<(), Memory>
    requires wide { nodes ≤ width plan.old }
    requires target { target < width plan.old }
    requires room { nodes ≤ room plan.old }
    ensures { OnOk result (Adds plan.old plan.new (tell slot target (others nodes source target))) }
{
    for number in 0..nodes {
        let node = NodeId::of(number);
        tell_if(is_other(node, source, target), plan, slot, target, node)?;
    }
    Ok(())
}

/// The nodes that still say the source are told, ascending.
fn tell_left(
    plan: &mut Plan,
    survey: &Survey,
    slot: Slot,
    source: NodeId,
    target: NodeId,
) -> Result<(), Memory>
    requires wide { node_count survey.now ≤ width plan.old }
    requires target { target < width plan.old }
    requires room { node_count survey.now ≤ room plan.old }
    ensures { OnOk result (Adds plan.old plan.new
        (tell slot target (ascending (node_count survey.now) (nodes_saying survey.now slot source)))) }
{
    for number in 0..survey.nodes() {
        let node = NodeId::of(number);
        tell_if(survey.owner(node, slot) == source, plan, slot, target, node)?;
    }
    Ok(())
}

/// Whether the node is neither of the two.
fn is_other(node: NodeId, source: NodeId, target: NodeId) -> bool
    ensures { result ≡ (not (node == source) && not (node == target)) }
{
    node != source && node != target
}

/// The node is told the slot's owner, where it is to be told.
fn tell_if(
    tells: bool,
    plan: &mut Plan,
    slot: Slot,
    owner: NodeId,
    at: NodeId,
) -> Result<(), Memory>
    requires owner { owner < width plan.old }
    requires at { at < width plan.old }
    requires room { 1 ≤ room plan.old }
    ensures adds { OnOk result (Adds plan.old plan.new (told_if tells slot owner at)) }
    ensures width { OnOk result (width plan.new ≡ width plan.old) }
    ensures room { OnOk result (room plan.old ≤ room plan.new + 1) }
{
    if tells {
        push_node(plan, slot, owner, at)
    } else {
        Ok(())
    }
}

/// The node is told the slot's owner.
fn push_node(plan: &mut Plan, slot: Slot, owner: NodeId, at: NodeId) -> Result<(), Memory>
    requires owner { owner < width plan.old }
    requires at { at < width plan.old }
    requires room { 1 ≤ room plan.old }
    ensures adds { OnOk result (Adds plan.old plan.new (planned.SetNode slot owner at ∷ [])) }
    ensures width { OnOk result (width plan.new ≡ width plan.old) }
    ensures room { OnOk result (room plan.new + 1 ≡ room plan.old) }
{
    plan.push(Line::Command(PlanCommand::SetNode { slot, owner, at }))
}
