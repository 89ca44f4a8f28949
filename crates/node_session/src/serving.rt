ghost use Rattle.std.specs.Prelude.{◌≡◌, ◌≢◌, ℕ, ◌<◌, List, ◌∷◌, [], ◌++◌, length, map, false, ◌⊎◌, Err, OnOk};
ghost use Rattle.resp2_wire.specs.Stream.{Words, Gave};
ghost use Rattle.node_session.specs.Conversations.{Conversation};
ghost use Rattle.node_session.specs.Requests.{is_asking};
ghost use Rattle.node_session.specs.Talk.{Exchange, request_of, asks, Talk};
ghost use Rattle.node_session.specs.Ends.{AllEnd, AllLeave, Served, EndOfInput, AnswersBeforeReading, IsInterrupted};
ghost use Rattle.node_session.specs.Ends.{LeavesSo};
ghost use Rattle.node_session.specs.declared.session_end.SessionEnd.TheVariants.{Closed, Cut, ReadFailed, WriteFailed};
ghost use Rattle.node_session.specs.declared.session_end.SessionEnd.TheVariants.{Quit};

use crate::one_request::answer_one;
use crate::questions::{NoQuestions, Questions};
use crate::session_end::SessionEnd;
use crate::writing::put_fault;
use byte_streams::{ByteIn, ByteOut, MAX_READS};
use cluster_world::NodePort;
use key_slots::NodeId;
use resp2_wire::{Decoder, Request};
use std::alloc::Global;

/// How many bytes are read at once, as many as a redis-server reads: this is the one buffer between the reader and the
/// decoder's.
const PIECE: usize = 16_384;

/// SessionExact: serves a session with the node to its end, and reports how many bytes of replies went out, 2^64 - 1
/// where there are more.
///
/// Each reply is written in full before the next request is sent, and all requests that are whole are answered before
/// more is read. Out of memory, or a node that can't be reached, is reported as the reply to its request, and the
/// session continues. A fault of the stream is told by its line, whatever memory there is. The reads of a session are
/// 2^63 - 1 at most; the next one counts as one that failed.
pub fn serve_session<R: ByteIn, W: ByteOut, P: NodePort>(
    alloc: Global,
    reader: &mut R,
    writer: &mut W,
    port: &mut P,
    node: NodeId,
) -> (SessionEnd, u64)
    requires { node < P.NodeCount.count port.old }
    ensures exact { (reads : ℕ) × (input : List ℕ) × (xs : List Exchange) × (out : List ℕ)
        × R.gave reader.old reads input reader.new
        × Talk (record { sends = P.sends; node = node; before = port.old; after = port.new })
        (record { took = W.took; failures = W.failures; before = writer.old; after = writer.new })
        (record { asking = false; exchanges = xs; out = out; sent_before = 0; sent = result.1 })
        × Served input xs out result.0
        × (result.0 ≡ ReadFailed → (R.failures reader.new ≢ R.failures reader.old) ⊎ (reads ≡ 9223372036854775807))
        × (IsInterrupted result.0 → AnswersBeforeReading
        (record { gave = R.gave; ends = R.ends; failures = R.failures; before = reader.old; after = reader.new })
        reads input xs out) }
    ensures ended { (result.0 ≡ Closed) ⊎ (result.0 ≡ Cut) → R.ends reader.new ≢ R.ends reader.old }
    ensures write_failed { result.0 ≡ WriteFailed → W.failures writer.new ≢ W.failures writer.old }
    ensures stays { result.0 ≢ Quit }
    ensures count { P.NodeCount.count port.new ≡ P.NodeCount.count port.old }
{
    serve_with_questions(alloc, reader, writer, port, &mut NoQuestions, node)
}

/// Serves a client to the end of its session, and tells of its questions. A session ends after a QUIT that is one: what
/// came after it is not answered, and nothing more is read.
pub fn serve_with_questions<R: ByteIn, W: ByteOut, P: NodePort, Q: Questions>(
    alloc: Global,
    reader: &mut R,
    writer: &mut W,
    port: &mut P,
    questions: &mut Q,
    node: NodeId,
) -> (SessionEnd, u64)
    requires { node < P.NodeCount.count port.old }
    ensures exact { (reads : ℕ) × (input : List ℕ) × (xs : List Exchange) × (out : List ℕ)
        × R.gave reader.old reads input reader.new
        × Conversation (record { sends = P.sends; node = node; before = port.old; after = port.new })
        (record { hears = Q.hears; tells = Q.tells; before = questions.old; after = questions.new })
        (record { took = W.took; failures = W.failures; before = writer.old; after = writer.new })
        (record { asking = false; exchanges = xs; out = out; sent_before = 0; sent = result.1 })
        × Served input xs out result.0
        × LeavesSo result.0 xs
        × (result.0 ≡ ReadFailed → (R.failures reader.new ≢ R.failures reader.old) ⊎ (reads ≡ 9223372036854775807))
        × (IsInterrupted result.0 → AnswersBeforeReading
        (record { gave = R.gave; ends = R.ends; failures = R.failures; before = reader.old; after = reader.new })
        reads input xs out) }
    ensures ended { (result.0 ≡ Closed) ⊎ (result.0 ≡ Cut) → R.ends reader.new ≢ R.ends reader.old }
    ensures write_failed { result.0 ≡ WriteFailed → W.failures writer.new ≢ W.failures writer.old }
    ensures count { P.NodeCount.count port.new ≡ P.NodeCount.count port.old }
{
    let mut decoder = Decoder::new(alloc);
    let mut sent = 0;
    let mut asking = false;
    let mut piece = [0u8; PIECE];
    for _ in 0..MAX_READS {
        match reader.read(&mut piece) {
            Ok(count) => {
                if count == 0 {
                    return (end_of_input(&decoder), sent);
                }
                match decoder.feed(&piece[..count]) {
                    Ok(()) => {}
                    Err(_) => return (SessionEnd::Memory, sent),
                }
                match answer_all(
                    alloc,
                    &mut decoder,
                    writer,
                    &mut sent,
                    port,
                    questions,
                    node,
                    &mut asking,
                ) {
                    Ok(()) => {}
                    Err(end) => return (end, sent),
                }
            }
            Err(_) => return (SessionEnd::ReadFailed, sent),
        }
    }
    (SessionEnd::ReadFailed, sent)
}

/// Answers each request that is whole, one after the other.
fn answer_all<W: ByteOut, P: NodePort, Q: Questions>(
    alloc: Global,
    decoder: &mut Decoder,
    writer: &mut W,
    sent: &mut u64,
    port: &mut P,
    questions: &mut Q,
    node: NodeId,
    asking: &mut bool,
) -> Result<(), SessionEnd>
    requires { node < P.NodeCount.count port.old }
    ensures talk { (xs : List Exchange) × (out : List ℕ)
        × Conversation (record { sends = P.sends; node = node; before = port.old; after = port.new })
        (record { hears = Q.hears; tells = Q.tells; before = questions.old; after = questions.new })
        (record { took = W.took; failures = W.failures; before = writer.old; after = writer.new })
        (record { asking = asking.old; exchanges = xs; out = out; sent_before = sent.old; sent = sent.new })
        × ((stream : List ℕ) (given : List Words) → Gave stream given decoder.old
        → Gave stream (given ++ map request_of xs) decoder.new)
        × OnOk result (asking.new ≡ asks asking.old xs)
        × AllEnd result decoder.new out xs
        × AllLeave result xs }
    ensures failed { result ≡ Err WriteFailed → W.failures writer.new ≢ W.failures writer.old }
    ensures kept { OnOk result (W.failures writer.new ≡ W.failures writer.old) }
    ensures count { P.NodeCount.count port.new ≡ P.NodeCount.count port.old }
{
    let _before = *sent;
    loop {
        match decoder.next() {
            Ok(None) => return Ok(()),
            Ok(Some(request)) => {
                let before = *asking;
                *asking = is_asking(&request);
                answer_one(alloc, writer, sent, port, questions, node, before, request)?;
            }
            Err(fault) => return Err(put_fault(writer, sent, fault)),
        }
    }
}

/// Whether the request is a right ASKING.
fn is_asking(request: &Request) -> bool
    ensures { result ≡ is_asking request.now }
{
    match request.get() {
        [word] => word.get().eq_ignore_ascii_case(b"asking"),
        _ => false,
    }
}

fn end_of_input(decoder: &Decoder) -> SessionEnd
    ensures { EndOfInput result decoder.now }
{
    if decoder.is_empty() {
        SessionEnd::Closed
    } else {
        SessionEnd::Cut
    }
}
