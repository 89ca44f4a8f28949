//! What is said of a plan that takes all slots of a node.
ghost use Rattle.std.specs.Prelude.{◌≡◌, ◌++◌, ◌<◌, IfOk, OnOk, length};
ghost use Rattle.cluster_runs.specs.Emptied.{emptied_line, emptied_lines};
ghost use Rattle.plan_language.specs.Lines.{plan_commands};

use byte_texts::Memory;
use cluster_views::ServerSurvey;
use key_slots::NodeId;
use plan_changes::is_emptied;
use plan_runner::Plan;
use std::alloc::Global;
use survey_texts::{put, put_node, slots_of};

/// A line for each node that has slots and is to lose the last of them: servers make such a node a replica of the one
/// that got it, unless their option cluster-allow-replica-migration says no.
pub(crate) fn emptied_lines(
    alloc: Global,
    plan: &Plan,
    survey: &ServerSurvey,
) -> Result<Vec<u8>, Memory>
    ensures { IfOk result (λ t. t.items
        ≡ emptied_lines survey.now (plan_commands (length survey.now.rows) plan.now.lines)) }
{
    let mut out = Vec::new(alloc);
    for number in 0..survey.nodes() {
        put_line(&mut out, plan, survey, NodeId::of(number))?;
    }
    Ok(out)
}

/// Puts the line of the node, if it is emptied.
fn put_line(
    out: &mut Vec<u8>,
    plan: &Plan,
    survey: &ServerSurvey,
    node: NodeId,
) -> Result<(), Memory>
    requires { node < length survey.now.rows }
    ensures { OnOk result (out.new.items ≡ out.old.items
        ++ emptied_line survey.now (plan_commands (length survey.now.rows) plan.now.lines) node) }
{
    if !is_emptied(
        plan.try_copy()?,
        survey.nodes(),
        node,
        slots_of(survey, node),
    ) {
        return Ok(());
    }
    put_node(out, node)?;
    put(
        out,
        b" gives all of its slots away, and may become a replica\n",
    )
}
