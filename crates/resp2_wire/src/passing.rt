//! Requests that are passed over: nothing of them is kept, so that a fault is found without memory.
ghost use Rattle.std.specs.Prelude.{◌≡◌};
ghost use Rattle.byte_texts.specs.Outcomes.{RefusedUnlessMemory};
ghost use Rattle.resp2_wire.specs.Faults.{is_memory};
ghost use Rattle.resp2_wire.specs.Progress.{Stops, fault_of, stop_of};
ghost use Rattle.resp2_wire.specs.Reading.{request_at, words_at};
ghost use Rattle.resp2_wire.specs.Stream.{requested};
ghost use Rattle.resp2_wire.specs.declared.fault.Stop.TheVariants.{Fault};

use crate::fault::{Stop, WireFault};
use crate::reading::{count_at, word_at};

/// Passes over so many words.
fn pass_words(count: usize, bytes: &[u8]) -> Result<(), Stop>
    ensures { stop_of result ≡ stop_of (words_at count bytes.now) }
{
    let mut rest = bytes;
    for _ in 0..count {
        let (_, after) = word_at(rest)?;
        rest = after;
    }
    Ok(())
}

/// Passes over the request at the beginning.
#[tactic(auto, unfolding(crate::specs::Reading::request_at))]
fn pass_request(bytes: &[u8]) -> Result<(), Stop>
    ensures { stop_of result ≡ stop_of (request_at bytes.now) }
{
    let (count, rest) = count_at(bytes)?;
    pass_words(count, rest)
}

/// The fault that stands in the request at the beginning.
fn fault_at(bytes: &[u8]) -> Option<WireFault>
    ensures { result ≡ fault_of (stop_of (request_at bytes.now)) }
{
    match pass_request(bytes) {
        Ok(()) => None,
        Err(Stop::Unfinished) => None,
        Err(Stop::Fault(fault)) => Some(fault),
    }
}

/// What is told where reading the request met this fault: where memory ran out at one of its words, a fault of the
/// stream may stand after that.
pub fn fault_told(bytes: &[u8], met: WireFault) -> WireFault
    requires { Stops (Fault met) bytes.now }
    ensures { RefusedUnlessMemory is_memory (requested (request_at bytes.now)) result }
{
    match met {
        WireFault::Memory => match fault_at(bytes) {
            Some(fault) => fault,
            None => WireFault::Memory,
        },
        _ => met,
    }
}
