//! Why a run stopped, where the plan may continue by itself.
ghost use Rattle.std.specs.Prelude.{◌≡◌};
ghost use Rattle.cluster_runs.specs.Troubles.{trouble_in};

/// How a server's words begin where a MIGRATE took longer than it may.
const LATE: &[u8] = b"IOERR";

/// How the words begin where a node's replicas were too slow to do a command.
const SLOW: &[u8] = b"replicas of ";

/// What a run met.
#[derive(Clone, Copy)]
pub(crate) enum Trouble {
    /// A MIGRATE took longer than it may.
    Late,
    /// A node's replicas were too slow to do a command, so that the node did not do it (Valkey).
    Slow,
    /// None of these.
    Other,
}

/// What a run met that ended with these words.
pub(crate) fn trouble_in(text: &[u8]) -> Trouble
    ensures { result ≡ trouble_in text.now }
{
    if text.starts_with(LATE) {
        Trouble::Late
    } else if text.starts_with(SLOW) {
        Trouble::Slow
    } else {
        Trouble::Other
    }
}
