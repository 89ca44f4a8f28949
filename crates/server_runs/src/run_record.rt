//! What was sent and answered of a plan so far.
ghost use Rattle.std.specs.Prelude.{◌≡◌, ◌↔◌, ℕ, List, IfOk, IsTrue};
ghost use Rattle.server_runs.specs.RunLogs.{HasBrokenLog, IsTimed, Logs};
ghost use Rattle.server_runs.specs.declared.kind.Kind.TheVariants.{Other};

use crate::counts::Counts;
use crate::kind::Kind;
use crate::run_log::RunLog;
use byte_streams::ByteOut;
use std::alloc::AllocError;
use transcripts::Transcript;

/// The log, if one is kept, the counts, and the kind of the command that was sent last.
#[derive(Drop)]
pub struct RunRecord<L: Drop> {
    pub log: Option<RunLog<L>>,
    /// How many nodes the cluster has.
    pub nodes: u8,
    pub counts: Counts,
    pub kind: Kind,
}

impl<L: ByteOut + Drop> RunRecord<L> {
    /// Nothing was sent, and so much was done before.
    pub(crate) fn new(log: Option<RunLog<L>>, nodes: u8, counts: Counts) -> Self
        ensures { result ≡ record { log = log; nodes = nodes; counts = counts; kind = Other } }
    {
        Self {
            log,
            nodes,
            counts,
            kind: Kind::Other,
        }
    }

    /// Writes the line, where there is a log and there was memory for the line.
    pub(crate) fn log_line(&mut self, line: Result<Transcript, AllocError>)
        ensures log { (text : List ℕ) → IfOk line (λ t. IsTimed text t.printed.items)
            → Logs L.took text self.old.log self.new.log }
        ensures nodes { self.new.nodes ≡ self.old.nodes }
        ensures counts { self.new.counts ≡ self.old.counts }
        ensures kind { self.new.kind ≡ self.old.kind }
    {
        if let Some(log) = &mut self.log {
            match line {
                Ok(line) => log.write(line.printed.as_slice()),
                Err(AllocError) => log.give_up(),
            }
        }
    }

    /// Whether there is a log that could not be written.
    pub(crate) fn has_broken_log(&self) -> bool
        ensures { IsTrue result ↔ HasBrokenLog self.now.log }
    {
        match &self.log {
            Some(log) => log.is_broken(),
            None => false,
        }
    }
}
