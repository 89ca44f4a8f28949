//! What questions are answered.
ghost use Rattle.std.specs.Prelude.{◌≡◌, ◌≤◌, true, IfOk, MatchResult};
ghost use Rattle.client_questions.specs.Questions.{arguments, caller_after, is_question, name_of, plain_reply};
ghost use Rattle.client_questions.specs.Questions.{renamed, reply_by_node, reply_of, reply_own};

use crate::caller::Caller;
use crate::client::client;
use crate::cluster::{asked_of_node, cluster, node_reply};
use crate::command::command;
use crate::config::config;
use crate::connection::{alone, auth, echo, select};
use crate::hello::hello;
use crate::info::info;
use crate::kind::{Kind, PlainKind, kind_of};
use crate::refusals::ok;
use byte_texts::{Memory, Text};
use cluster_node::Node;
use resp2_wire::Reply;
use std::alloc::Global;

/// Whether the request is a question: one that is answered without a call.
pub fn is_question(request: &[Text]) -> bool
    ensures { result ≡ is_question request.now }
{
    kind_of(request).is_some()
}

/// What a question is answered that reads nothing of the node, and what it makes of the connection; none where the node
/// has to be read.
#[tactic(auto, unfolding(crate::specs::Questions::reply_own, crate::specs::Questions::caller_after))]
pub fn answer_own(
    alloc: Global,
    caller: &mut Caller,
    request: &[Text],
) -> Result<Option<Reply>, Memory>
    requires { is_question request.now ≡ true }
    ensures { MatchResult result
        (λ o. (o ≡ reply_own caller.old request.now) × (caller.new ≡ caller_after caller.old request.now))
        (λ e. caller.new ≡ caller.old) }
{
    let Some(kind) = kind_of(request) else {
        unreachable!()
    };
    answer_kind(alloc, caller, kind, arguments(request))
}

/// The words after the first.
fn arguments(request: &[Text]) -> &[Text]
    ensures { result.now ≡ arguments request.now }
{
    match request {
        [] => &[],
        [_, further @ ..] => further,
    }
}

/// The answer to a question of this kind with these further words.
fn answer_kind(
    alloc: Global,
    caller: &mut Caller,
    kind: Kind,
    further: &[Text],
) -> Result<Option<Reply>, Memory>
    ensures { MatchResult result
        (λ o. (o ≡ reply_of caller.old kind further.now)
        × (caller.new ≡ renamed caller.old (name_of caller.old.name kind further.now)))
        (λ e. caller.new ≡ caller.old) }
{
    match kind {
        Kind::Hello => Ok(Some(hello(alloc, caller, further)?)),
        Kind::Client => Ok(Some(client(alloc, caller, further)?)),
        Kind::Cluster => cluster(alloc, further),
        Kind::Quit => Ok(Some(ok(alloc)?)),
        Kind::Plain(kind) => Ok(Some(plain(alloc, kind, further)?)),
    }
}

/// What is answered whoever asks.
fn plain(alloc: Global, kind: PlainKind, further: &[Text]) -> Result<Reply, Memory>
    ensures { IfOk result (λ r. r ≡ plain_reply kind further.now) }
{
    match kind {
        PlainKind::Info => info(alloc, further),
        PlainKind::Command => command(alloc, further),
        PlainKind::Config => config(alloc, further),
        PlainKind::Select => select(alloc, further),
        PlainKind::Echo => echo(alloc, further),
        PlainKind::ReadOnly => alone(alloc, b"readonly", further),
        PlainKind::ReadWrite => alone(alloc, b"readwrite", further),
        PlainKind::Auth => auth(alloc, further),
    }
}

/// What a question about the node is answered. Nothing of the node changes; where nothing is asked of it, the reply is
/// none. The port of the first node is `base_port`.
#[tactic(auto, unfolding(crate::specs::Questions::reply_by_node))]
pub fn answer_by_node(
    alloc: Global,
    base_port: u16,
    node: &Node,
    request: &[Text],
) -> Result<Reply, Memory>
    requires { base_port ≤ 65528 }
    ensures { IfOk result (λ r. r ≡ reply_by_node base_port node.now request.now) }
{
    match asked_of_node(arguments(request)) {
        Some(question) => node_reply(alloc, base_port, node, question),
        None => Ok(Reply::Null),
    }
}
