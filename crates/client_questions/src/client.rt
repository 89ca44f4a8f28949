//! CLIENT SETNAME, CLIENT GETNAME and CLIENT ID.
ghost use Rattle.std.specs.Prelude.{◌≡◌, ◌∷◌, [], IfOk, MatchResult};
ghost use Rattle.std.specs.List.{list_all};
ghost use Rattle.client_questions.specs.Client.{bad_name, client_reply, get_name_reply, id_reply, is_name, is_visible};
ghost use Rattle.client_questions.specs.Client.{name_after, name_after_client, name_reply, set_name_reply, told_id};
ghost use Rattle.client_questions.specs.Client.{told_reply};

use crate::caller::Caller;
use crate::refusals::{ok, unknown_subcommand, wrong_count};
use byte_texts::{Memory, Text};
use resp2_wire::Reply;
use std::alloc::Global;

/// The reply to CLIENT with these further words, which may give the connection a name.
#[tactic(auto, unfolding(crate::specs::Client::client_reply, crate::specs::Client::name_after_client))]
pub(crate) fn client(alloc: Global, caller: &mut Caller, words: &[Text]) -> Result<Reply, Memory>
    ensures { MatchResult result
        (λ r. (r ≡ client_reply caller.old words.now)
        × (caller.new ≡ record { id = caller.old.id; name = name_after_client caller.old.name words.now }))
        (λ e. caller.new ≡ caller.old) }
{
    let Some((word, further)) = words.split_first() else {
        return wrong_count(alloc, b"client");
    };
    if word.get().eq_ignore_ascii_case(b"setname") {
        return set_name(alloc, caller, further);
    }
    told(alloc, caller, word.get(), further)
}

fn set_name(alloc: Global, caller: &mut Caller, words: &[Text]) -> Result<Reply, Memory>
    ensures { MatchResult result
        (λ r. (r ≡ set_name_reply words.now)
        × (caller.new ≡ record { id = caller.old.id; name = name_after caller.old.name words.now }))
        (λ e. caller.new ≡ caller.old) }
{
    match words {
        [name] => take_name(alloc, caller, name),
        _ => wrong_count(alloc, b"client|setname"),
    }
}

fn take_name(alloc: Global, caller: &mut Caller, name: &Text) -> Result<Reply, Memory>
    ensures { MatchResult result
        (λ r. (r ≡ set_name_reply (name.now ∷ []))
        × (caller.new ≡ record { id = caller.old.id; name = name_after caller.old.name (name.now ∷ []) }))
        (λ e. caller.new ≡ caller.old) }
{
    if !is_name(name.get()) {
        return bad_name(alloc);
    }
    let reply = ok(alloc)?;
    caller.name = name.try_copy(alloc)?;
    Ok(reply)
}

/// What is asked of the connection without a change.
fn told(alloc: Global, caller: &Caller, word: &[u8], further: &[Text]) -> Result<Reply, Memory>
    ensures { IfOk result (λ r. r ≡ told_reply caller.now word.now further.now) }
{
    if word.eq_ignore_ascii_case(b"getname") {
        return name_told(alloc, &caller.name, further);
    }
    if word.eq_ignore_ascii_case(b"id") {
        return id_told(alloc, caller.id, further);
    }
    unknown_subcommand(alloc, b"CLIENT", word)
}

fn name_told(alloc: Global, name: &Text, further: &[Text]) -> Result<Reply, Memory>
    ensures { IfOk result (λ r. r ≡ get_name_reply name.now further.now) }
{
    match further {
        [] => name_or_null(alloc, name),
        _ => wrong_count(alloc, b"client|getname"),
    }
}

fn name_or_null(alloc: Global, name: &Text) -> Result<Reply, Memory>
    ensures { IfOk result (λ r. r ≡ name_reply name.now) }
{
    match name.get() {
        [] => Ok(Reply::Null),
        text => Reply::bulk(alloc, text),
    }
}

fn id_told(alloc: Global, id: u64, further: &[Text]) -> Result<Reply, Memory>
    ensures { IfOk result (λ r. r ≡ id_reply id further.now) }
{
    match further {
        [] => Ok(told_id(id)),
        _ => wrong_count(alloc, b"client|id"),
    }
}

/// The connection's number; what is above all numbers of replies is told as the highest of these.
pub(crate) fn told_id(id: u64) -> Reply
    ensures { result ≡ told_id id }
{
    let id = id.min(9_223_372_036_854_775_807);
    Reply::Number(id as i64)
}

/// Whether the text may be a connection's name.
pub(crate) fn is_name(text: &[u8]) -> bool
    ensures { result ≡ is_name text.now }
{
    text.iter().all(|byte| is_visible(*byte))
}

fn is_visible(byte: u8) -> bool
    ensures { result ≡ is_visible byte }
{
    byte >= b'!' && byte <= b'~'
}

pub(crate) fn bad_name(alloc: Global) -> Result<Reply, Memory>
    ensures { IfOk result (λ r. r ≡ bad_name) }
{
    Reply::error(
        alloc,
        b"ERR Client names cannot contain spaces, newlines or special characters.",
    )
}
