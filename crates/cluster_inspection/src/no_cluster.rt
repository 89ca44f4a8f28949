//! Why there is no cluster to work at.
ghost use Rattle.std.specs.Prelude.{IfOk};
ghost use Rattle.cluster_inspection.specs.Starts.{IsUnfound, IsUnsurveyed};

use std::alloc::{AllocError, Global};
use transcripts::Transcript;

/// Why there is no cluster that is surveyed and, where that is asked for, clean.
#[derive(Drop)]
pub enum NoCluster {
    Memory,
    /// What is said of that, with the status 1.
    Answer(Transcript),
}

impl From<AllocError> for NoCluster {
    ghost use Rattle.std.specs.Prelude.{◌≡◌};
    ghost use Rattle.cluster_inspection.specs.declared.no_cluster.NoCluster.TheVariants.{Memory};

    ghost from_gives = { λ _ e. e ≡ Memory };

    fn from(_error: AllocError) -> Self {
        Self::Memory
    }
}

/// What is said of a cluster that could not be surveyed for this reason.
pub(crate) fn unsurveyed(alloc: Global, reason: &[u8]) -> Result<NoCluster, AllocError>
    ensures unfound { IfOk result IsUnfound }
    ensures told { IfOk result (IsUnsurveyed reason.now) }
{
    let mut answer = Transcript::new(alloc);
    answer.report_unsurveyed(reason)?;
    Ok(NoCluster::Answer(answer))
}

/// What is said of a cluster whose slots are open.
pub fn open_slots(alloc: Global) -> Result<NoCluster, AllocError>
    ensures { IfOk result IsUnfound }
{
    let mut answer = Transcript::new(alloc);
    answer.report_open()?;
    Ok(NoCluster::Answer(answer))
}
