ghost use Rattle.std.specs.Prelude.{◌≡◌, ◌≢◌, ℕ, ◌+◌, ◌≤◌, length, take, min, Ok, Err, IfErr, OnOk, OnErr};
ghost use Rattle.node_session.specs.SessionBytes.{answer_text, fault_line};
ghost use Rattle.node_session.specs.Talk.{most};
ghost use Rattle.node_session.specs.Ends.{WritesPrefix, OneEnd, Refused};
ghost use Rattle.node_session.specs.declared.session_end.SessionEnd.TheVariants.{WriteFailed};

use crate::session_end::SessionEnd;
use byte_streams::{ByteOut, Failed, write_counted};
use cluster_world::PortFault;
use resp2_wire::{Reply, WireFault, encode};
use std::alloc::Global;

const OUT_OF_MEMORY: &[u8] = b"-OOM out of memory\r\n";

const UNREACHABLE: &[u8] = b"-ERR the node cannot be reached\r\n";

/// Writes a text whole, and counts the bytes that went out.
fn put<W: ByteOut>(writer: &mut W, written: &mut u64, text: &[u8]) -> Result<(), SessionEnd>
    ensures wrote { WritesPrefix (record {
      took = W.took;
      failures = W.failures;
      before = writer.old;
      after = writer.new;
    }) written.old written.new
        (λ out. OneEnd result out text.now) }
    ensures only { IfErr result (λ end. end ≡ WriteFailed) }
    ensures failed { OnErr result (W.failures writer.new ≢ W.failures writer.old) }
    ensures kept { OnOk result (W.failures writer.new ≡ W.failures writer.old) }
{
    let _before = *written;
    let (count, done) = write_counted(writer, text);
    *written = written.saturating_add(count as u64);
    match done {
        Ok(()) => Ok(()),
        Err(Failed) => Err(SessionEnd::WriteFailed),
    }
}

/// Writes the answer to one request.
#[tactic(auto, unfolding(crate::specs::SessionBytes::answer_text))]
pub fn put_answer<W: ByteOut>(
    alloc: Global,
    writer: &mut W,
    sent: &mut u64,
    answer: &Result<Reply, PortFault>,
) -> Result<(), SessionEnd>
    ensures wrote { WritesPrefix (record {
      took = W.took;
      failures = W.failures;
      before = writer.old;
      after = writer.new;
    }) sent.old sent.new
        (λ out. OneEnd result out (answer_text answer.now)) }
    ensures failed { result ≡ Err WriteFailed → W.failures writer.new ≢ W.failures writer.old }
    ensures kept { OnOk result (W.failures writer.new ≡ W.failures writer.old) }
{
    match answer {
        Ok(reply) => put_reply(alloc, writer, sent, reply),
        Err(PortFault::Memory) => put(writer, sent, OUT_OF_MEMORY),
        Err(PortFault::Io) => put(writer, sent, UNREACHABLE),
        Err(PortFault::Wire) => put(writer, sent, UNREACHABLE),
    }
}

/// Writes a reply, or, where it is beyond the limits of the wire, that none came.
#[tactic(auto, unfolding(crate::specs::SessionBytes::answer_text))]
fn put_reply<W: ByteOut>(
    alloc: Global,
    writer: &mut W,
    sent: &mut u64,
    reply: &Reply,
) -> Result<(), SessionEnd>
    ensures wrote { WritesPrefix (record {
      took = W.took;
      failures = W.failures;
      before = writer.old;
      after = writer.new;
    }) sent.old sent.new
        (λ out. OneEnd result out (answer_text (Ok reply.now))) }
    ensures failed { result ≡ Err WriteFailed → W.failures writer.new ≢ W.failures writer.old }
    ensures kept { OnOk result (W.failures writer.new ≡ W.failures writer.old) }
{
    let _before = *sent;
    if !reply.is_within_limits() {
        return put(writer, sent, UNREACHABLE);
    }
    match encode(alloc, reply) {
        Ok(bytes) => put(writer, sent, bytes.as_slice()),
        Err(_) => Err(SessionEnd::Memory),
    }
}

/// Writes the line of a fault of the stream, and reports how the session ends. Out of memory has no line.
pub fn put_fault<W: ByteOut>(writer: &mut W, sent: &mut u64, fault: WireFault) -> SessionEnd
    ensures wrote { WritesPrefix (record {
      took = W.took;
      failures = W.failures;
      before = writer.old;
      after = writer.new;
    }) sent.old sent.new (Refused fault result) }
    ensures failed { result ≡ WriteFailed → W.failures writer.new ≢ W.failures writer.old }
{
    let _before = *sent;
    match fault {
        WireFault::Memory => SessionEnd::Memory,
        _ => match put(writer, sent, fault_line(fault)) {
            Ok(()) => SessionEnd::Protocol(fault),
            Err(end) => end,
        },
    }
}

/// The line of a fault, which is a constant, so that it takes no memory to tell a fault.
fn fault_line(fault: WireFault) -> &'static [u8]
    ensures { result.now ≡ fault_line fault }
{
    match fault {
        WireFault::NotArray => b"-ERR Protocol error: 1 NotArray\r\n",
        WireFault::BadCount => b"-ERR Protocol error: 2 BadCount\r\n",
        WireFault::NotBulk => b"-ERR Protocol error: 3 NotBulk\r\n",
        WireFault::BadLength => b"-ERR Protocol error: 4 BadLength\r\n",
        WireFault::TooLarge => b"-ERR Protocol error: 5 TooLarge\r\n",
        WireFault::MissingCrLf => b"-ERR Protocol error: 6 MissingCrLf\r\n",
        WireFault::Memory => b"-ERR Protocol error: 7 Memory\r\n",
        WireFault::BadMark => b"-ERR Protocol error: 8 BadMark\r\n",
    }
}
