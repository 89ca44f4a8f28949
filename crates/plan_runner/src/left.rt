ghost use Rattle.std.specs.Prelude.{◌≡◌, ◌∷◌, List};
ghost use Rattle.plan_runner.specs.PlanStates.{after};
ghost use Rattle.plan_runner.specs.Lefts.{left_of, KeepsListing};
ghost use Rattle.plan_runner.specs.Sound.{HasBatch};
ghost use Rattle.plan_language.specs.declared.plan_command.PlanCommand.{PlanCommand};

use crate::listed_keys::is_listing;
use cluster_admin::{AdminReply, KeyList};
use plan_language::PlanCommand;

/// How a plan continues after a reply.
#[derive(Drop)]
pub(crate) enum Left {
    /// By the command after the current one.
    Next,
    /// By the current one, with these keys listed.
    Again(Option<KeyList>),
    /// Not at all.
    Strange,
}

/// How a plan continues after a reply that is no refusal.
#[tactic(auto, using(crate::proofs::Movable::listing_moves))]
pub(crate) fn left_after(current: &PlanCommand, is_open: bool, reply: AdminReply) -> Left
    requires { HasBatch current.now }
    ensures rest { (rest : List PlanCommand)
        → after (current.now ∷ rest) is_open reply ≡ left_of result current.now rest }
    ensures listed { KeepsListing result current.now }
{
    match *current {
        PlanCommand::Drain {
            slot,
            source: _,
            target: _,
            batch,
        } => match reply {
            AdminReply::Keys(keys) if !is_open => {
                if keys.len() == 0 {
                    Left::Next
                } else if is_listing(keys.get(), slot, batch) {
                    Left::Again(Some(keys))
                } else {
                    Left::Strange
                }
            }
            AdminReply::Ok | AdminReply::NoKey if is_open => Left::Again(None),
            _ => Left::Strange,
        },
        _ => match reply {
            AdminReply::Ok => Left::Next,
            _ => Left::Strange,
        },
    }
}
