ghost use Rattle.std.specs.Prelude.{ℕ, MatchResult};
ghost use Rattle.cluster_views.specs.declared.fault.SurveyFault.{SurveyFault as FaultSeen};

use cluster_views::SurveyFault;
use key_slots::{NodeId, Slot};

/// Who counts the keys of slots at nodes.
pub trait KeyCounts {
    /// So many keys were counted of the slot at the node, which led from one state to the other.
    ghost counts: { Self → (node slot keys : ℕ) → Self → Type 0 };

    /// No keys were counted of the slot at the node, by this fault, which led from one state to the other.
    ghost fails: { Self → (node slot : ℕ) → FaultSeen → Self → Type 0 };

    /// How many keys of the slot the node holds, whoever owns the slot (the page of CLUSTER COUNTKEYSINSLOT).
    fn keys(&mut self, node: NodeId, slot: Slot) -> Result<u32, SurveyFault>
        ensures { MatchResult result (λ k. counts self.old node slot k self.new)
            (λ e. fails self.old node slot e self.new) };
}
