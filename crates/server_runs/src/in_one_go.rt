//! A plan of which the other nodes of a slot are told in one go.
ghost use Rattle.std.specs.Prelude.{◌≡◌, ◌<◌, length, map, Option, Some};
ghost use Rattle.plan_runner.specs.Advancing.{plan_of};
ghost use Rattle.plan_runner.specs.ProgressView.{Progress};
ghost use Rattle.server_runs.specs.InOneGo.{HearsEach, HearsOne, RunsInOneGo, Takes, end_after, first_undone};
ghost use Rattle.server_runs.specs.InOneGo.{order_of, told_call};
ghost use Rattle.server_runs.specs.Steps.{Advances, AreAhead, IsBehind, ShowsEach};
ghost use Rattle.server_runs.specs.declared.slot_owner.SlotOwner.{SlotOwner};

use crate::ahead::{next_owner_told, node_ahead, take_told};
use crate::answers::{cause_of, end_after};
use crate::run_end::RunEnd;
use crate::slot_owner::SlotOwner;
use crate::steps::{Step, let_go};
use byte_streams::{ByteIn, ByteOut};
use cluster_admin::{AdminReply, NodeCount};
use key_slots::NodeId;
use plan_runner::{RunningPlan, StopCause, Taken, Watcher};
use redis_servers::{Given, Pause, ServersPort, ServersSeat};
use std::alloc::Global;

/// Runs the plan to its end, or until it stops or its watcher gives it up, and says which. Once a node other than the
/// target was told of a slot's owner, all nodes that the plan tells next of that owner are told in one go.
pub(crate) fn run_in_one_go<I: ByteIn + Drop, O: ByteOut + Drop, P: Pause + Drop, W: Watcher>(
    alloc: Global,
    plan: RunningPlan<ServersSeat>,
    port: &mut ServersPort<I, O, P>,
    watcher: &mut W,
) -> RunEnd
    requires { length port.old.setup.book ≡ plan.progress.nodes }
    ensures { RunsInOneGo (record { gave = I.gave; took = O.took })
        (record { sees = W.sees; hears = W.hears; misses = W.misses }) (port.old, watcher.old)
        (port.new, watcher.new) plan.progress result }
{
    let mut plan = plan;
    let mut told = None;
    loop {
        match advance(alloc, plan, &told, port, watcher) {
            Step::On(next, last) => {
                // More replies were taken, and their number has 64 bits: so the loop comes to its end.
                let _spent = next.cost_so_far();
                plan = next;
                told = last;
            }
            Step::Over(end) => return end,
        }
    }
}

/// Sends the next command, or all by which other nodes are told of this owner, of which one was told before.
fn advance<I: ByteIn + Drop, O: ByteOut + Drop, P: Pause + Drop, W: Watcher>(
    alloc: Global,
    plan: RunningPlan<ServersSeat>,
    told: &Option<SlotOwner>,
    port: &mut ServersPort<I, O, P>,
    watcher: &mut W,
) -> Step
    requires { length port.old.setup.book ≡ plan.progress.nodes }
    ensures advances { Advances (record { gave = I.gave; took = O.took })
        (record { sees = W.sees; hears = W.hears; misses = W.misses }) told.now (port.old, watcher.old)
        plan.progress (port.new, watcher.new) result }
    ensures setup { port.new.setup ≡ port.old.setup }
{
    match told {
        Some(owned) if owned.owner.get() < port.nodes() => {
            advance_behind(alloc, plan, owned, port, watcher)
        }
        _ => advance_alone(plan, port, watcher),
    }
}

/// Sends the next command.
fn advance_alone<I: ByteIn + Drop, O: ByteOut + Drop, P: Pause + Drop, W: Watcher>(
    plan: RunningPlan<ServersSeat>,
    port: &mut ServersPort<I, O, P>,
    watcher: &mut W,
) -> Step
    requires { length port.old.setup.book ≡ plan.progress.nodes }
    ensures advances { (told : Option SlotOwner) → Advances (record { gave = I.gave; took = O.took })
        (record { sees = W.sees; hears = W.hears; misses = W.misses }) told (port.old, watcher.old)
        plan.progress (port.new, watcher.new) result }
    ensures setup { port.new.setup ≡ port.old.setup }
{
    let told = next_owner_told(&plan);
    Step::of(plan.advance_watched(port, watcher), told)
}

/// Sends the next command, or all by which other nodes are told of the owner, of which one was told before.
fn advance_behind<I: ByteIn + Drop, O: ByteOut + Drop, P: Pause + Drop, W: Watcher>(
    alloc: Global,
    plan: RunningPlan<ServersSeat>,
    owned: &SlotOwner,
    port: &mut ServersPort<I, O, P>,
    watcher: &mut W,
) -> Step
    requires nodes { length port.old.setup.book ≡ plan.progress.nodes }
    requires owner { owned.now.owner < length port.old.setup.book }
    ensures advances { Advances (record { gave = I.gave; took = O.took })
        (record { sees = W.sees; hears = W.hears; misses = W.misses }) (Some owned.now) (port.old, watcher.old)
        plan.progress (port.new, watcher.new) result }
    ensures setup { port.new.setup ≡ port.old.setup }
{
    let nodes = port.nodes();
    let Some(node) = node_ahead(&plan, owned, nodes, &[]) else {
        return advance_alone(plan, port, watcher);
    };
    let Ok(mut told) = Vec::from_slice(alloc, &[node]) else {
        return advance_alone(plan, port, watcher);
    };
    let spent = plan.cost_so_far();
    let ahead = take_told(plan.take(AdminReply::Ok), owned, nodes, nodes, &mut told);
    tell_others(ahead, owned, told.as_slice(), spent, port, watcher)
}

/// Tells these nodes in one go, after so many replies. The plan is as if all had answered OK.
fn tell_others<I: ByteIn + Drop, O: ByteOut + Drop, P: Pause + Drop, W: Watcher>(
    ahead: Taken<ServersSeat>,
    owned: &SlotOwner,
    nodes: &[NodeId],
    spent: u64,
    port: &mut ServersPort<I, O, P>,
    watcher: &mut W,
) -> Step
    requires some { 0 < length nodes.now }
    requires nodes { AreAhead (length port.old.setup.book) owned.now nodes.now }
    requires owner { owned.now.owner < length port.old.setup.book }
    ensures advances { (p : Progress) → p.spent ≡ spent
        → Takes p (map (told_call owned.now) nodes.now) (plan_of ahead)
        → Advances (record { gave = I.gave; took = O.took })
        (record { sees = W.sees; hears = W.hears; misses = W.misses }) (Some owned.now) (port.old, watcher.old) p
        (port.new, watcher.new) result }
    ensures setup { port.new.setup ≡ port.old.setup }
{
    if !show_each(owned, nodes, watcher) {
        let_go(ahead);
        return Step::Over(RunEnd::Stopped(StopCause::Abandoned, spent));
    }
    match port.tell_in_one_go(owned.slot, owned.owner, nodes) {
        Ok(answers) => {
            let given = answers.as_slice();
            hear_each(given, watcher);
            step_behind(ahead, owned, spent, given)
        }
        Err(fault) => {
            watcher.lost(fault);
            let_go(ahead);
            Step::Over(RunEnd::Stopped(cause_of(fault), spent))
        }
    }
}

/// What the answers make of a plan that is as if all were OK, after so many replies.
fn step_behind(ahead: Taken<ServersSeat>, owned: &SlotOwner, spent: u64, answers: &[Given]) -> Step
    ensures { IsBehind (end_after spent (first_undone answers.now) answers.now) owned.now (plan_of ahead) result }
{
    match end_after(spent, answers) {
        Some(end) => {
            let_go(ahead);
            Step::Over(end)
        }
        None => Step::of(ahead, Some(owned.same())),
    }
}

/// Shows each command that tells a node; whether all are to be sent.
fn show_each<W: Watcher>(owned: &SlotOwner, nodes: &[NodeId], watcher: &mut W) -> bool
    ensures { ShowsEach (record { sees = W.sees; hears = W.hears; misses = W.misses }) watcher.old
        (map order_of (map (told_call owned.now) nodes.now)) result watcher.new }
{
    let Some((node, rest)) = nodes.split_first() else {
        return true;
    };
    if !watcher.before(&owned.order_at(*node)) {
        return false;
    }
    show_each(owned, rest, watcher)
}

/// Tells the watcher each answer.
fn hear_each<W: Watcher>(answers: &[Given], watcher: &mut W)
    ensures { HearsEach (record { sees = W.sees; hears = W.hears; misses = W.misses }) watcher.old answers.now
        watcher.new }
{
    if let Some((answer, rest)) = answers.split_first() {
        hear(answer, watcher);
        hear_each(rest, watcher);
    }
}

fn hear<W: Watcher>(answer: &Given, watcher: &mut W)
    ensures { HearsOne (record { sees = W.sees; hears = W.hears; misses = W.misses }) watcher.old answer.now
        watcher.new }
{
    match answer {
        Ok(reply) => watcher.answered(reply),
        Err(fault) => watcher.lost(*fault),
    }
}
