ghost use Rattle.std.specs.Prelude.{◌≡◌, ◌<◌, ◌≤◌, ◌∷◌, length, map, IfOk, OnErr};
ghost use Rattle.std.specs.Char.{to_ascii_lowercase};
ghost use Rattle.node_session.specs.Requests.{words_ask, Stored, cluster_asked, slots_asked, is_administrators};
ghost use Rattle.node_session.specs.Requests.{administrators};
ghost use Rattle.node_session.specs.Requests as words;
ghost use Rattle.node_session.specs.Memory.{MayRunOut, TakesMemory};
ghost use Rattle.node_session.specs.Wants.{Asks, shown};

use crate::replies::{asking, key_slot, ping, wrong_count};
use crate::want::Want;
use byte_texts::{Memory, Text};
use resp2_wire::{Reply, Request};
use std::alloc::{AllocError, Global};
use store_commands::{Command, CommandFault};

/// What the request wants, which is not empty. A command takes its words over.
#[tactic(auto, unfolding(crate::specs::Requests::words_ask))]
pub fn want_of(alloc: Global, request: Request) -> Result<Want, Memory>
    requires { 0 < length request }
    ensures asks { IfOk result (λ w. Asks request w) }
    ensures memory { OnErr result (MayRunOut request) }
{
    let Some((word, further)) = request.get().split_first() else {
        unreachable!()
    };
    let word = word.get();
    if word.eq_ignore_ascii_case(b"asking") {
        return Ok(Want::Here(asking(alloc, further)?));
    }
    if word.eq_ignore_ascii_case(b"ping") {
        return Ok(Want::Here(ping(alloc, further)?));
    }
    if word.eq_ignore_ascii_case(b"cluster") {
        return Ok(match cluster(alloc, further)? {
            Some(reply) => Want::Here(reply),
            None => Want::Slots,
        });
    }
    if word.eq_ignore_ascii_case(b"migrate") {
        return Ok(Want::Here(administrators(alloc)?));
    }
    store_want(alloc, request)
}

/// The reply to CLUSTER with these words, or none where the node is to answer with its slots.
#[tactic(auto, unfolding(crate::specs::Requests::cluster_asked))]
fn cluster(alloc: Global, words: &[Text]) -> Result<Option<Reply>, Memory>
    ensures asks { IfOk result (λ r. shown r ≡ cluster_asked words.now) }
    ensures memory { OnErr result (TakesMemory (cluster_asked words.now)) }
{
    let Some((word, further)) = words.split_first() else {
        return Ok(Some(Reply::error(alloc, b"ERR unknown command")?));
    };
    let word = word.get();
    if word.eq_ignore_ascii_case(b"keyslot") {
        return Ok(Some(key_slot(alloc, further)?));
    }
    if word.eq_ignore_ascii_case(b"slots") {
        return slots(alloc, further);
    }
    if is_administrators(word) {
        return Ok(Some(administrators(alloc)?));
    }
    Ok(Some(Reply::error(alloc, b"ERR unknown command")?))
}

/// The reply to CLUSTER SLOTS with these further words, or none where there are none.
fn slots(alloc: Global, further: &[Text]) -> Result<Option<Reply>, Memory>
    ensures asks { IfOk result (λ r. shown r ≡ slots_asked further.now) }
    ensures memory { OnErr result (TakesMemory (slots_asked further.now)) }
{
    if further.is_empty() {
        return Ok(None);
    }
    Ok(Some(wrong_count(alloc, b"cluster|slots")?))
}

fn is_administrators(word: &[u8]) -> bool
    ensures { result ≡ is_administrators word.now }
{
    word.eq_ignore_ascii_case(b"setslot")
        || word.eq_ignore_ascii_case(b"getkeysinslot")
        || word.eq_ignore_ascii_case(b"countkeysinslot")
}

fn administrators(alloc: Global) -> Result<Reply, Memory>
    ensures { IfOk result (λ r. r ≡ administrators) }
{
    Reply::error(
        alloc,
        b"ERR this command belongs to the administrator's seat",
    )
}

/// The command that the request is, or the reply to what is none.
#[tactic(auto, using(crate::proofs::Words::stored_takes))]
fn store_want(alloc: Global, request: Request) -> Result<Want, Memory>
    requires some { 0 < length request }
    requires stored { words_ask request ≡ Stored }
    ensures asks { IfOk result (λ w. Asks request w) }
    ensures memory { OnErr result (MayRunOut request) }
{
    let mut words = request.into_vec();
    let name = words.remove(0);
    named_want(alloc, &name, words)
}

/// The command of this name with these arguments, or the reply to what is none.
#[tactic(auto, using(crate::proofs::Words::short_name))]
fn named_want(alloc: Global, name: &Text, arguments: Vec<Text>) -> Result<Want, Memory>
    requires limit { length arguments.items ≤ 1024 }
    requires stored { words_ask (name.now ∷ arguments.items) ≡ Stored }
    ensures { IfOk result (λ w. Asks (name.now ∷ arguments.items) w) }
{
    match Command::named(alloc, name.get(), arguments) {
        Ok(command) => Ok(Want::Stored(command)),
        Err(CommandFault::ArgumentCount) => Ok(Want::Here(wrong_arguments(alloc, name.get())?)),
        Err(CommandFault::Unknown) => Ok(Want::Here(Reply::error(alloc, b"ERR unknown command")?)),
        Err(CommandFault::Memory) => Err(AllocError),
    }
}

/// The reply to a command of this name with a wrong count of arguments.
fn wrong_arguments(alloc: Global, name: &[u8]) -> Result<Reply, Memory>
    requires { length (map to_ascii_lowercase name.now) ≤ 1024 }
    ensures { IfOk result (λ r. r ≡ words.wrong_count (map to_ascii_lowercase name.now)) }
{
    let name = name.to_ascii_lowercase(alloc)?;
    wrong_count(alloc, &name)
}
