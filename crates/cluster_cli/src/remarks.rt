//! What is remarked of a plan on standard error.
ghost use Rattle.std.specs.Prelude.{◌≡◌, ◌⊎◌, ℕ, IfOk, Err};
ghost use Rattle.cluster_cli.specs.Remarks.{drain_remark, has_empty, outcome_of, rebalance_remark, reshard_remark};
ghost use Rattle.reshard_planner.specs.Answers.{Answer, Gives};
ghost use Rattle.reshard_planner.specs.declared.planner_fault.PlannerFault.TheVariants.{Memory};

use crate::slot_counts::owned_by;
use key_slots::{NodeId, OwnerTable};
use plan_language::Plan;
use reshard_planner::PlannerFault;
use std::alloc::{AllocError, Global};

/// Whether a plan that is asked for moves slots.
#[derive(Clone, Copy, Debug, PartialEq, Eq)]
pub(crate) enum Outcome {
    /// It moves some.
    Moves,
    /// It has no line.
    Nothing,
    /// There is none, since more slots are asked for than there are.
    TooMany,
    /// There is none for another reason.
    Refused,
}

/// What becomes of the plan that was asked for.
pub(crate) fn outcome_of(planned: &Result<Plan, PlannerFault>) -> Outcome
    ensures { (nodes : ℕ) (wanted : Answer) → Gives nodes planned.now wanted
        → (planned.now ≡ Err Memory) ⊎ (result ≡ outcome_of wanted) }
{
    match planned {
        Ok(plan) if plan.lines().is_empty() => Outcome::Nothing,
        Ok(_) => Outcome::Moves,
        Err(PlannerFault::TooMany) => Outcome::TooMany,
        Err(_) => Outcome::Refused,
    }
}

/// What is remarked of so many slots that go to a node: that there is nothing to move, or how many the sources own.
pub(crate) fn reshard_remark(
    alloc: Global,
    outcome: Outcome,
    owners: &OwnerTable,
    sources: &[NodeId],
) -> Result<Vec<u8>, AllocError>
    ensures { IfOk result (λ t. t.items ≡ reshard_remark outcome sources.now owners.now.owners) }
{
    match outcome {
        Outcome::Nothing => Vec::from_slice(alloc, b"nothing to move: --slots is 0\n"),
        Outcome::TooMany => {
            let count = owned_by(owners, sources);
            let text = format!(in alloc; "slots of the nodes of --from: {count}\n")?;
            Ok(text.into_bytes())
        }
        Outcome::Moves => Ok(Vec::new(alloc)),
        Outcome::Refused => Ok(Vec::new(alloc)),
    }
}

/// What is remarked of nodes that are drained: that there is nothing to move.
pub(crate) fn drain_remark(alloc: Global, outcome: Outcome) -> Result<Vec<u8>, AllocError>
    ensures { IfOk result (λ t. t.items ≡ drain_remark outcome) }
{
    let text: &[u8] = match outcome {
        Outcome::Nothing => b"nothing to move: the nodes of --from own no slots\n",
        _ => b"",
    };
    Vec::from_slice(alloc, text)
}

/// What is remarked of shares by weight: that there is nothing to move, and how nodes without slots take part.
pub(crate) fn rebalance_remark(
    alloc: Global,
    outcome: Outcome,
    use_empty: bool,
    owners: &OwnerTable,
) -> Result<Vec<u8>, AllocError>
    ensures { IfOk result (λ t. t.items ≡ rebalance_remark outcome use_empty owners.now) }
{
    if !matches!(outcome, Outcome::Nothing) {
        return Ok(Vec::new(alloc));
    }
    if !use_empty && has_empty(owners) {
        Vec::from_slice(
            alloc,
            b"nothing to move: each node that has slots has its share; give --use-empty for the others\n",
        )
    } else {
        Vec::from_slice(
            alloc,
            b"nothing to move: each node has its share, or is within --threshold of it\n",
        )
    }
}

/// Whether one of the nodes owns no slot.
fn has_empty(owners: &OwnerTable) -> bool
    ensures { result ≡ has_empty owners.now.nodes owners.now.owners }
{
    let mut found = false;
    for number in 0..owners.nodes() {
        let count = owned_by(owners, &[NodeId::of(number)]);
        found = found || count == 0;
    }
    found
}
