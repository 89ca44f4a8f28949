//! A server is asked for its replicas.
ghost use Rattle.std.specs.Prelude.{◌≡◌, ◌⊎◌, ◌<◌, IfOk, MatchOption, MatchResult, None, Some, vec_len};
ghost use Rattle.cluster_views.specs.declared.fault.SurveyFault.TheVariants as fault;
ghost use Rattle.resp2_wire.specs.View.{tree, trees};
ghost use Rattle.server_replicas.specs.Asking.{AsksReplicas, IsListing, IsUnlisted, listing_fault, line_of, lines_of};
ghost use Rattle.server_replicas.specs.Asking.{lines_told, replicas_request, replicas_words};

use byte_streams::{ByteIn, ByteOut};
use byte_texts::{Memory, Text, TextList};
use cluster_views::SurveyFault;
use key_slots::NodeId;
use listed_nodes::{NodeLine, line_in};
use resp2_wire::{Reply, encode_request};
use server_commands::words::{put, put_text};
use server_links::{Link, ReplyLimit, ask_at};
use std::alloc::Global;

/// The replicas of the node with this ID, as it lists them itself (CLUSTER REPLICAS). A server that gives no answer,
/// refuses or answers something else is at fault.
#[tactic(auto, unfolding(crate::specs::Asking::AsksReplicas))]
pub fn replicas_at<I: ByteIn + Drop, O: ByteOut + Drop>(
    alloc: Global,
    links: &mut Vec<Link<I, O>>,
    node: NodeId,
    id: &Text,
) -> Result<Vec<NodeLine>, SurveyFault>
    requires { node < vec_len links.old }
    ensures listed { MatchResult result
        (λ v. IsListing (AsksReplicas (record { gave = I.gave; took = O.took }) id.now) node links.old.items v.items
        links.new.items)
        (λ e. IsUnlisted (AsksReplicas (record { gave = I.gave; took = O.took }) id.now) node links.old.items e
        links.new.items) }
    ensures kept { vec_len links.new ≡ vec_len links.old }
{
    let request = replicas_request(alloc, id)?;
    match ask_at(alloc, links, node, request.as_slice(), ReplyLimit::list()) {
        Ok(reply) => lines_told(alloc, &reply, node),
        Err(_) => Err(SurveyFault::NoAnswer(node)),
    }
}

/// The bytes of `CLUSTER REPLICAS id`.
fn replicas_request(alloc: Global, id: &Text) -> Result<Vec<u8>, Memory>
    ensures { IfOk result (λ v. v.items ≡ replicas_request id.now) }
{
    let words = replicas_words(alloc, id)?;
    encode_request(alloc, words.get())
}

/// `CLUSTER REPLICAS id`
fn replicas_words(alloc: Global, id: &Text) -> Result<TextList, Memory>
    ensures { IfOk result (λ l. l ≡ replicas_words id.now) }
{
    let mut words = TextList::new(alloc);
    put(&mut words, alloc, b"CLUSTER")?;
    put(&mut words, alloc, b"REPLICAS")?;
    put_text(&mut words, alloc, id)?;
    Ok(words)
}

/// The lines that the node's reply has.
fn lines_told(alloc: Global, reply: &Reply, node: NodeId) -> Result<Vec<NodeLine>, SurveyFault>
    ensures { MatchResult result (λ v. lines_told reply.now ≡ Some v.items)
        (λ e. (e ≡ fault.Memory) ⊎ ((lines_told reply.now ≡ None) × (e ≡ listing_fault node reply.now))) }
{
    match reply {
        Reply::Array(texts) => match lines_of(alloc, texts.get())? {
            Some(lines) => Ok(lines),
            None => Err(SurveyFault::Strange(node)),
        },
        Reply::Error(text) => Err(SurveyFault::of_error(node, text.get())),
        _ => Err(SurveyFault::Strange(node)),
    }
}

/// The lines that these texts are.
fn lines_of(alloc: Global, texts: &[Reply]) -> Result<Option<Vec<NodeLine>>, Memory>
    ensures { IfOk result (λ o. MatchOption o (lines_of (trees texts.now) ≡ None)
        (λ v. lines_of (trees texts.now) ≡ Some v.items)) }
{
    let mut lines = Vec::new(alloc);
    let mut left = texts;
    while let [text, others @ ..] = left {
        match line_of(alloc, text)? {
            Some(line) => lines.push(line)?,
            None => return Ok(None),
        }
        left = others;
    }
    Ok(Some(lines))
}

/// The line that the text is.
fn line_of(alloc: Global, text: &Reply) -> Result<Option<NodeLine>, Memory>
    ensures { IfOk result (λ o. o ≡ line_of (tree text.now)) }
{
    match text {
        Reply::Bulk(line) => line_in(alloc, line.get()),
        _ => Ok(None),
    }
}
