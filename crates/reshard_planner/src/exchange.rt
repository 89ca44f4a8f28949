ghost use Rattle.std.specs.Prelude.{◌≡◌, ◌≤◌, IfOk, slice_index};
ghost use Rattle.reshard_planner.specs.Sums.{sum_below};
ghost use Rattle.reshard_planner.specs.Answers.{first_version};
ghost use Rattle.reshard_planner.specs.Exchanges.{exchanged};

use crate::giving::transfers;
use crate::grouping::plan_of;
use crate::held::PerNode;
use byte_texts::Memory;
use key_slots::OwnerTable;
use plan_language::Plan;
use std::alloc::Global;

/// How many slots each node gives, and how many it takes.
#[derive(Clone, Copy)]
pub(crate) struct Exchange {
    pub(crate) gives: PerNode,
    pub(crate) takes: PerNode,
}

impl Exchange {
    /// The plan by which the nodes give and take so, at most so many keys at a time.
    pub(crate) fn plan(
        &self,
        alloc: Global,
        owners: &OwnerTable,
        batch: u16,
    ) -> Result<Plan, Memory>
        requires few { sum_below (λ node. slice_index self.now.gives node) owners.now.nodes ≤ 16384 }
        requires some { 1 ≤ batch }
        requires most { batch ≤ 1000 }
        ensures { IfOk result (λ plan. plan ≡ first_version owners.now.nodes
            (exchanged owners.now self.now.gives self.now.takes batch)) }
    {
        let nodes = owners.nodes();
        let transfers = transfers(alloc, owners, &self.gives, &self.takes)?;
        plan_of(alloc, nodes, transfers.as_slice(), batch)
    }
}
