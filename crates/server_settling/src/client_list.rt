//! What a server answers to CLIENT LIST (the page of CLIENT LIST): a line for each connection.
ghost use Rattle.std.specs.Prelude.{◌≡◌, ◌++◌, IfOk, OnOk, option_map};
ghost use Rattle.byte_texts.specs.Parts.{parts};
ghost use Rattle.server_settling.specs.Clients.{are_pairs, client_in, client_of, clients_of_text, comes_from};
ghost use Rattle.server_settling.specs.Clients.{is_late, is_pair, is_plain_line, is_value, late_ids, late_of};
ghost use Rattle.server_settling.specs.Clients.{may_restore, seen_as, value_of};

use crate::client_ids::ClientIds;
use byte_texts::{Memory, Parts, is, split_once, wide_number};
use std::alloc::Global;

/// A connection, as a line shows it.
#[derive(Clone, Copy)]
struct Client<'a> {
    id: u64,
    address: &'a [u8],
    command: &'a [u8],
    is_plain: bool,
}

/// The numbers of the connections from this host that may still bring keys, if the text is a list of connections.
#[tactic(auto, using(crate::proofs::Reading::lines_read))]
pub(crate) fn late_ids_in(
    alloc: Global,
    text: &[u8],
    host: &[u8],
) -> Result<Option<ClientIds>, Memory>
    ensures { IfOk result (λ o. o ≡ option_map (late_ids host.now) (clients_of_text text.now)) }
{
    let mut lines = Parts::of(text, b'\n');
    let mut found = Vec::new(alloc);
    while let Some(line) = lines.next() {
        if lines.is_empty() {
            return if line.is_empty() {
                Ok(Some(ClientIds::from_vec(found)))
            } else {
                Ok(None)
            };
        }
        match client_in(line) {
            Some(client) => note_late(&mut found, client, host)?,
            None => return Ok(None),
        }
    }
    Ok(None)
}

/// Puts the connection's number at the end if it is such a connection.
fn note_late(ids: &mut Vec<u64>, client: Client, host: &[u8]) -> Result<(), Memory>
    ensures { OnOk result (ids.new.items ≡ ids.old.items ++ late_of host.now (seen_as client.entry)) }
{
    if is_late(client, host) {
        ids.push(client.id)?;
    }
    Ok(())
}

/// Whether keys of a MIGRATE of this host may still come over the connection.
fn is_late(client: Client, host: &[u8]) -> bool
    ensures { result ≡ is_late host.now (seen_as client.entry) }
{
    if !client.is_plain {
        return false;
    }
    if comes_from(client.address, host) {
        may_restore(client.command)
    } else {
        false
    }
}

fn comes_from(address: &[u8], host: &[u8]) -> bool
    ensures { result ≡ comes_from host.now address.now }
{
    match split_once(address, b':') {
        Some((before, _port)) => is(before, host),
        None => false,
    }
}

/// Whether the connection's last command is one that a MIGRATE sends, or none.
fn may_restore(command: &[u8]) -> bool
    ensures { result ≡ may_restore command.now }
{
    if is(command, b"restore-asking") {
        true
    } else if is(command, b"restore") {
        true
    } else if is(command, b"select") {
        true
    } else if is(command, b"auth") {
        true
    } else {
        is(command, b"NULL")
    }
}

/// The connection that the line shows, if it is such a line.
fn client_in(line: &[u8]) -> Option<Client<'_>>
    ensures { option_map seen_as result ≡ client_in (parts 32 line.now) }
{
    if are_pairs(line) {
        client_of(line)
    } else {
        None
    }
}

fn client_of(line: &[u8]) -> Option<Client<'_>>
    ensures { option_map seen_as result ≡ client_of (parts 32 line.now) }
{
    let id = value_of(line, b"id=")?;
    let id = wide_number(id)?;
    let address = value_of(line, b"addr=")?;
    let command = value_of(line, b"cmd=")?;
    let is_plain = is_plain_line(line);
    Some(Client {
        id,
        address,
        command,
        is_plain,
    })
}

/// Whether the connection has no name, and does not speak RESP3: a MIGRATE's has neither.
fn is_plain_line(line: &[u8]) -> bool
    ensures { result ≡ is_plain_line (parts 32 line.now) }
{
    if is_value(line, b"resp=", b"3") {
        return false;
    }
    match value_of(line, b"name=") {
        Some(name) => name.is_empty(),
        None => true,
    }
}

/// Whether the first word with this start has this value.
fn is_value(line: &[u8], start: &[u8], value: &[u8]) -> bool
    ensures { result ≡ is_value start.now value.now (parts 32 line.now) }
{
    match value_of(line, start) {
        Some(found) => is(found, value),
        None => false,
    }
}

/// Whether each word has a `=`.
fn are_pairs(line: &[u8]) -> bool
    ensures { result ≡ are_pairs (parts 32 line.now) }
{
    let mut words = Parts::of(line, b' ');
    while let Some(word) = words.next() {
        if !is_pair(word) {
            return false;
        }
    }
    true
}

fn is_pair(word: &[u8]) -> bool
    ensures { result ≡ is_pair word.now }
{
    split_once(word, b'=').is_some()
}

/// What stands after this start in the first word that has it.
fn value_of<'a>(line: &'a [u8], start: &[u8]) -> Option<&'a [u8]>
    ensures { option_map (λ v. v.now) result ≡ value_of start.now (parts 32 line.entry.now) }
{
    let mut words = Parts::of(line, b' ');
    while let Some(word) = words.next() {
        if let Some(value) = word.strip_prefix(start) {
            return Some(value);
        }
    }
    None
}
