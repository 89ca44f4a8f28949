//! What is said where a server gives no reply that is of use.
ghost use Rattle.std.specs.Prelude.{◌≡◌, ◌≤◌, ◌++◌, None, IfOk, MatchResult, OnOk, codes, length, take};
ghost use Rattle.byte_texts.specs.declared.text.TheConstants.{MAX_BYTES};
ghost use Rattle.redis_servers.specs.Saying.{Keeps, KeepsText, SaysWhy, error_text, lost_text, or_lost};
ghost use Rattle.redis_servers.specs.Saying.{node_word, silence_text, strange_text, useless_text};

use byte_texts::{MAX_BYTES, Memory, Text, begins};
use key_slots::NodeId;
use resp2_wire::Reply;
use server_commands::{Credentials, told};
use server_links::LinkFault;
use std::alloc::Global;

/// The text of a reply that is an error, as it is told, if there is memory for it.
pub(crate) fn text_kept(alloc: Global, login: &Option<Credentials>, reply: &Reply) -> Option<Text>
    ensures { KeepsText login.now reply.now result }
{
    match reply {
        Reply::Error(text) => kept(told(alloc, login, text.get())),
        _ => None,
    }
}

/// What is said of a reply that is of no use: the text of an error, or that it is something strange.
pub(crate) fn useless_words(
    alloc: Global,
    login: &Option<Credentials>,
    node: NodeId,
    reply: &Reply,
) -> Option<Text>
    ensures { Keeps (useless_text login.now node reply.now) result }
{
    match reply {
        Reply::Error(text) => kept(error_words(alloc, login, node, text.get())),
        _ => kept(strange_words(alloc, node)),
    }
}

/// What is said of an error. That replicas are too slow does not say whose (Valkey).
fn error_words(
    alloc: Global,
    login: &Option<Credentials>,
    node: NodeId,
    text: &[u8],
) -> Result<Vec<u8>, Memory>
    ensures { IfOk result (λ v. v.items ≡ error_text login.now node text.now) }
{
    let words = told(alloc, login, text)?;
    if begins(text, b"NOREPLICAS ") {
        replica_words(alloc, node, words.as_slice())
    } else {
        Ok(words)
    }
}

/// `replicas of n1: `, and these words.
fn replica_words(alloc: Global, node: NodeId, words: &[u8]) -> Result<Vec<u8>, Memory>
    ensures { IfOk result
        (λ v. v.items ≡ codes "replicas of " ++ (node_word node ++ (codes ": " ++ words.now))) }
{
    let name = node_words(alloc, node)?;
    let mut line = Vec::new(alloc);
    put(&mut line, b"replicas of ")?;
    put(&mut line, name.as_slice())?;
    put(&mut line, b": ")?;
    put(&mut line, words)?;
    Ok(line)
}

fn put(line: &mut Vec<u8>, words: &[u8]) -> Result<(), Memory>
    ensures { OnOk result (line.new.items ≡ line.old.items ++ words.now) }
{
    line.extend_from_slice(words)
}

/// What is said of a connection that is gone.
pub(crate) fn silence(alloc: Global, node: NodeId, fault: Option<LinkFault>) -> Option<Text>
    ensures { SaysWhy node fault result }
{
    match fault {
        Some(fault) => kept(silence_words(alloc, node, fault)),
        None => None,
    }
}

/// The words, if there was memory for them, as many bytes as a text may have.
fn kept(words: Result<Vec<u8>, Memory>) -> Option<Text>
    ensures { MatchResult words (λ v. Keeps v.items result) (λ _. result ≡ None) }
{
    match words {
        Ok(words) => Some(text_of(words)),
        Err(_) => None,
    }
}

fn text_of(mut words: Vec<u8>) -> Text
    ensures { result ≡ take MAX_BYTES words.items }
{
    words.truncate(MAX_BYTES);
    Text::from_vec(words)
}

/// What is said where there was no memory for what a server answered, or for words on that. It is made before a command
/// is sent.
pub(crate) fn lost_words(alloc: Global) -> Result<Text, Memory>
    ensures { IfOk result (λ t. t ≡ lost_text) }
{
    Text::from_slice(
        alloc,
        b"out of memory for the answer: whether the command was done is not known",
    )
}

/// What is said, or else that memory was lost.
pub(crate) fn or_lost(said: Option<Text>, lost: Text) -> Text
    requires { lost ≡ lost_text }
    ensures { result ≡ or_lost said }
{
    match said {
        Some(words) => words,
        None => lost,
    }
}

/// `n1 answered something strange`
fn strange_words(alloc: Global, node: NodeId) -> Result<Vec<u8>, Memory>
    ensures { IfOk result (λ v. v.items ≡ strange_text node) }
{
    let mut words = node_words(alloc, node)?;
    words.extend_from_slice(b" answered something strange")?;
    Ok(words)
}

/// For example `n1 answered something that is no reply`.
fn silence_words(alloc: Global, node: NodeId, fault: LinkFault) -> Result<Vec<u8>, Memory>
    ensures { IfOk result (λ v. v.items ≡ silence_text node fault) }
{
    let mut words = node_words(alloc, node)?;
    words.push(b' ')?;
    words.extend_from_slice(fault.text().as_bytes())?;
    Ok(words)
}

/// `n1`, or as many as three digits after the letter.
#[tactic(auto, using(crate::proofs::Useless::node_word_is_short))]
pub(crate) fn node_words(alloc: Global, node: NodeId) -> Result<Vec<u8>, Memory>
    ensures word { IfOk result (λ v. v.items ≡ node_word node) }
    ensures short { IfOk result (λ v. length v.items ≤ 4) }
{
    Ok(format!(in alloc; "{node}")?.into_bytes())
}
