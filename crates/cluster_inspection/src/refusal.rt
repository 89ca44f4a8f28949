//! Why a command that asks servers can't continue.
ghost use Rattle.std.specs.Prelude.{IfOk};
ghost use Rattle.cluster_inspection.specs.Refusals.{IsRefusal, IsRefused, TellsRefusal};

use crate::endings::{out_of_memory, report};
use crate::no_cluster::NoCluster;
use byte_streams::{ByteOut, Unread};
use std::alloc::{AllocError, Global};
use transcripts::Transcript;

/// Why there is nothing to run.
#[derive(Drop)]
pub enum Refusal {
    Memory,
    /// The plan could not be read.
    Unread,
    /// What is said of that, with the status 1.
    Answer(Transcript),
}

impl From<AllocError> for Refusal {
    ghost use Rattle.std.specs.Prelude.{◌≡◌};
    ghost use Rattle.cluster_inspection.specs.declared.refusal.Refusal.TheVariants.{Memory};

    ghost from_gives = { λ _ e. e ≡ Memory };

    fn from(_error: AllocError) -> Self {
        Self::Memory
    }
}

impl From<Unread> for Refusal {
    ghost use Rattle.cluster_inspection.specs.Refusals.{IsUnreadOf};

    ghost from_gives = { IsUnreadOf };

    fn from(unread: Unread) -> Self {
        match unread {
            Unread::Memory => Self::Memory,
            Unread::Failed => Self::Unread,
        }
    }
}

impl From<NoCluster> for Refusal {
    ghost use Rattle.cluster_inspection.specs.Refusals.{IsNoClusterOf};

    ghost from_gives = { IsNoClusterOf };

    fn from(none: NoCluster) -> Self {
        match none {
            NoCluster::Memory => Self::Memory,
            NoCluster::Answer(answer) => Self::Answer(answer),
        }
    }
}

/// What is said where something is refused for this reason, with the status 1.
pub fn refused(alloc: Global, reason: &[u8]) -> Result<Refusal, AllocError>
    ensures refused { IfOk result (IsRefused reason.now) }
    ensures refusal { IfOk result IsRefusal }
{
    let mut text = Vec::from_slice(alloc, b"refused: ")?;
    text.extend_from_slice(reason)?;
    text.push(b'\n')?;
    let mut answer = Transcript::new(alloc);
    answer.printed = text;
    answer.status = 1;
    Ok(Refusal::Answer(answer))
}

/// Says why nothing runs, and gives the status of that. Of a plan that could not be read nothing is said here.
pub fn report_refusal<W: ByteOut>(refusal: Refusal, writer: &mut W) -> u8
    requires { IsRefusal refusal }
    ensures { TellsRefusal
        (record { took = W.took; failures = W.failures; before = writer.old; after = writer.new }) result }
{
    match refusal {
        Refusal::Memory => out_of_memory(writer),
        Refusal::Unread => 1,
        Refusal::Answer(answer) => report(&answer, writer),
    }
}
