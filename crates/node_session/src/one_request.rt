//! One request, and what goes out for it.
ghost use Rattle.std.specs.Prelude.{◌≡◌, ◌≢◌, ℕ, ◌<◌, List, ◌∷◌, [], length, true, false};
ghost use Rattle.std.specs.Prelude.{Err, IfErr, OnOk};
ghost use Rattle.node_session.specs.Conversations.{Conversation};
ghost use Rattle.node_session.specs.Requests.{is_quit};
ghost use Rattle.node_session.specs.Talk.{Exchange, Told, request_of};
ghost use Rattle.node_session.specs.Ends.{OneSaid, WritesPrefix};
ghost use Rattle.node_session.specs.declared.session_end.SessionEnd.TheVariants.{WriteFailed, Quit};

use crate::answering::answer;
use crate::questions::Questions;
use crate::session_end::SessionEnd;
use crate::writing::put_answer;
use byte_streams::ByteOut;
use cluster_world::{NodePort, PortFault};
use key_slots::NodeId;
use resp2_wire::{Reply, Request};
use std::alloc::Global;

/// Answers one request: a question is told of, and any other goes to the port or has the session's own reply.
pub fn answer_one<W: ByteOut, P: NodePort, Q: Questions>(
    alloc: Global,
    writer: &mut W,
    sent: &mut u64,
    port: &mut P,
    questions: &mut Q,
    node: NodeId,
    asking: bool,
    request: Request,
) -> Result<(), SessionEnd>
    requires there { node < P.NodeCount.count port.old }
    requires some { 0 < length request }
    ensures talk { (x : Exchange) × (out : List ℕ) × (request_of x ≡ request)
        × Conversation (record { sends = P.sends; node = node; before = port.old; after = port.new })
        (record { hears = Q.hears; tells = Q.tells; before = questions.old; after = questions.new })
        (record { took = W.took; failures = W.failures; before = writer.old; after = writer.new })
        (record { asking = asking; exchanges = x ∷ []; out = out; sent_before = sent.old; sent = sent.new })
        × OneSaid result out x }
    ensures failed { result ≡ Err WriteFailed → W.failures writer.new ≢ W.failures writer.old }
    ensures kept { OnOk result (W.failures writer.new ≡ W.failures writer.old) }
    ensures count { P.NodeCount.count port.new ≡ P.NodeCount.count port.old }
{
    match questions.tell(&request) {
        Some(reply) => put_told(alloc, writer, sent, &request, &reply),
        None => {
            let reply = answer(alloc, port, node, asking, request);
            put_answer(alloc, writer, sent, &reply)
        }
    }
}

/// Writes what was told of a question. After a QUIT whose reply went out the session ends.
fn put_told<W: ByteOut>(
    alloc: Global,
    writer: &mut W,
    sent: &mut u64,
    request: &Request,
    answer: &Result<Reply, PortFault>,
) -> Result<(), SessionEnd>
    ensures wrote { WritesPrefix (record {
      took = W.took;
      failures = W.failures;
      before = writer.old;
      after = writer.new;
    }) sent.old sent.new
        (λ out. OneSaid result out (Told request.now answer.now)) }
    ensures failed { result ≡ Err WriteFailed → W.failures writer.new ≢ W.failures writer.old }
    ensures kept { OnOk result (W.failures writer.new ≡ W.failures writer.old) }
{
    match put_answer(alloc, writer, sent, answer) {
        Ok(()) => end_after(request),
        Err(end) => Err(end),
    }
}

/// How a session continues after a question whose reply went out.
fn end_after(request: &Request) -> Result<(), SessionEnd>
    ensures goes_on { OnOk result (is_quit request.now ≡ false) }
    ensures quits { IfErr result (λ end. (end ≡ Quit) × (is_quit request.now ≡ true)) }
{
    if is_quit(request) {
        Err(SessionEnd::Quit)
    } else {
        Ok(())
    }
}

/// Whether the request is QUIT, whatever stands after the word.
fn is_quit(request: &Request) -> bool
    ensures { result ≡ is_quit request.now }
{
    match request.get() {
        [word, ..] => word.get().eq_ignore_ascii_case(b"quit"),
        [] => false,
    }
}
