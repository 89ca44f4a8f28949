ghost use Rattle.std.specs.Prelude.{◌≡◌, ◌↔◌, IsTrue, length};
ghost use Rattle.cluster_admin.specs.Telling.{survey_after};
ghost use Rattle.cluster_world.specs.Worlds.{survey_of};

use crate::cluster::LiveCluster;
use cluster_node::{AdminCommand, AdminReply};
use cluster_world::{AdminPort, NodeCount, PortFault, Survey};
use key_slots::{NodeId, OwnerTable};
use shared_trail::{AdminSeat, ClusterBrand};
use std::sync::Wait;

/// A running cluster, as its administrator calls it.
#[derive(Drop)]
pub struct LivePort<'a, B: ClusterBrand, R: Wait> {
    pub cluster: &'a LiveCluster<B>,
    pub rt: &'a R,
}

impl<'a, B: ClusterBrand, R: Wait> NodeCount for LivePort<'a, B, R> {
    ghost count = { λ _. length B.setup.opening.nodes };

    fn nodes(&self) -> u8 {
        self.cluster.nodes()
    }
}

/// Its seat is told by its type, and out of memory is the only fault. What a call does is said of the trail, when the
/// cluster is closed. What is clean when it is looked at an administrator may change at once; a survey has the
/// administrator's seat, and so tells what its calls have made of owners and marks, as does whether a survey matches.
impl<'a, B: ClusterBrand, R: Wait> AdminPort for LivePort<'a, B, R> {
    type Seat = AdminSeat<B>;

    ghost use Rattle.cluster_admin.specs.declared.port_fault.PortFault.TheVariants.{Memory};

    ghost calls = { λ s. s };

    ghost fits = { λ _ _. Unit {0} };

    ghost moves = { λ _ _ _. Unit {0} };

    ghost fails = { λ _ _ _ f _. f ≡ Memory };

    ghost clean_gives = { λ _ _ _. Unit {0} };

    ghost survey_gives = { λ _ calls v. v ≡ survey_after (survey_of B.setup.opening) calls };

    ghost survey_fails = { λ _ f. f ≡ Memory };

    ghost matches_gives = { λ _ calls v same.
        IsTrue same ↔ (survey_after (survey_of B.setup.opening) calls ≡ v) };

    fn admin(
        &mut self,
        seat: &mut AdminSeat<B>,
        node: NodeId,
        command: AdminCommand,
    ) -> Result<AdminReply, PortFault> {
        Ok(self.cluster.admin(self.rt, seat, node, command)?)
    }

    fn is_clean(&self, owners: &OwnerTable) -> bool {
        self.cluster.is_clean(self.rt, owners)
    }

    fn survey(&self, seat: &mut AdminSeat<B>) -> Result<Survey, PortFault> {
        Ok(self.cluster.survey(self.rt, seat)?)
    }

    fn matches(&self, seat: &mut AdminSeat<B>, survey: &Survey) -> bool {
        self.cluster.matches(self.rt, seat, survey)
    }
}
