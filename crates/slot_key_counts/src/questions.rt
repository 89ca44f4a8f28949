//! Which slots are asked for, and at which nodes.
ghost use Rattle.std.specs.Prelude.{◌≡◌, ◌==◌, ◌<◌, ◌≤◌, ◌++◌, [], ◌∷◌, None, Some, cond, IfOk, OnOk, length};
ghost use Rattle.slot_key_counts.specs.Rounds.{batch};

use key_slots::{NodeId, SLOTS, Slot};
use std::alloc::{AllocError, Global};

/// At which nodes a slot is asked for.
#[derive(Clone, Copy)]
pub enum AskedNodes {
    /// At its owner.
    Owner,
    /// At all nodes but its owner.
    Others,
}

impl AskedNodes {
    ghost use Rattle.slot_key_counts.specs.Questions.{asks_at};

    /// Whether a slot of the owner is asked for at the node.
    fn asks_at(self, node: NodeId, owner: NodeId) -> bool
        ensures { result ≡ asks_at self node owner }
    {
        match self {
            Self::Owner => owner == node,
            Self::Others => owner != node,
        }
    }
}

/// Which slots are asked for, and at which nodes.
#[derive(Drop)]
pub struct SlotQuestions {
    whom: AskedNodes,
    /// The owner of each slot that is asked for, from slot 0 on.
    owners: Vec<Option<NodeId>>,
    ghost whole: { length owners.items ≡ 16384 },
}

impl SlotQuestions {
    ghost use Rattle.slot_key_counts.specs.Questions.{asked_owner, asks_for, no_owner, wants, with_owner};

    /// No slot is asked for yet.
    #[tactic(auto, using(crate::proofs::Placed::blank_owners))]
    pub fn new(alloc: Global, whom: AskedNodes) -> Result<Self, AllocError>
        ensures whom { IfOk result (λ q. q.whom ≡ whom) }
        ensures none { IfOk result (λ q. asked_owner q ≡ no_owner) }
    {
        let owners = vec![in alloc; None; SLOTS]?;
        Ok(Self { whom, owners })
    }

    /// The slot is asked for; this is its owner.
    pub fn ask(&mut self, slot: Slot, owner: NodeId)
        ensures whom { self.new.whom ≡ self.old.whom }
        ensures asked { asked_owner self.new ≡ with_owner (asked_owner self.old) slot owner }
    {
        self.owners[usize::from(slot.get())] = Some(owner);
    }

    /// The owner of the slot, if it is asked for.
    pub fn owner(&self, slot: Slot) -> Option<NodeId>
        ensures { result ≡ asked_owner self.now slot }
    {
        self.owners[usize::from(slot.get())]
    }

    /// Whether the node is asked for the slot.
    fn wants(&self, node: NodeId, slot: Slot) -> bool
        ensures { result ≡ wants self.now node slot }
    {
        match self.owner(slot) {
            Some(owner) => self.whom.asks_at(node, owner),
            None => false,
        }
    }

    /// The slots for which the node is asked in the round: of every 64th slot from the round's number on.
    #[tactic(auto, using(crate::proofs::Placed::batch_none, crate::proofs::Placed::batch_more))]
    pub(crate) fn batch(
        &self,
        alloc: Global,
        node: NodeId,
        round: u16,
    ) -> Result<Vec<Slot>, AllocError>
        requires { round < 64 }
        ensures { IfOk result (λ v. v.items ≡ batch (wants self.now node) round 256) }
    {
        let mut slots = Vec::new(alloc);
        for place in 0..256u16 {
            let slot = Slot::of(round + 64 * place);
            put_if(&mut slots, self.wants(node, slot), slot)?;
        }
        Ok(slots)
    }
}

/// Puts the slot, if it is asked for.
fn put_if(slots: &mut Vec<Slot>, is_asked: bool, slot: Slot) -> Result<(), AllocError>
    ensures { OnOk result (slots.new.items ≡ slots.old.items ++ cond is_asked (slot ∷ []) []) }
{
    if is_asked {
        slots.push(slot)?;
    }
    Ok(())
}
