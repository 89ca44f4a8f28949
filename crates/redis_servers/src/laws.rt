//! What calls of the port amount to over a whole run.
ghost use Rattle.redis_servers.specs.InOneGo.{TellingsAreRuns};
ghost use Rattle.redis_servers.specs.Runs.{RunsWriteSpellings};

use crate::pause::Pause;
use byte_streams::{ByteIn, ByteOut};

/// Over a run of calls each server was written the spellings of the calls to it, in their order, and nothing else but
/// CLUSTER NODES and ROLE; and no call but the last one was refused.
pub fn runs_write_their_spellings<I: ByteIn + Drop, O: ByteOut + Drop, P: Pause + Drop>()
    ensures { RunsWriteSpellings (record { gave = I.gave; took = O.took }) P }
{}

/// A telling in one go that all nodes have done is a run of the single calls, one after the other.
pub fn tellings_that_are_done_are_runs<I: ByteIn + Drop, O: ByteOut + Drop, P: Pause + Drop>()
    ensures { TellingsAreRuns (record { gave = I.gave; took = O.took }) P }
{}
