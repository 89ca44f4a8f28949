//! The words of requests.
ghost use Rattle.std.specs.Prelude.{◌≡◌, IfOk};
ghost use Rattle.server_settling.specs.Words.{clients_words, importing_words, kill_words, replace_words};

use byte_texts::{Memory, Text, TextList};
use itoa::Buffer;
use key_slots::Slot;
use server_commands::words::{put, put_login, put_number, put_text, put_texts};
use server_commands::{Credentials, Server};
use std::alloc::Global;

/// `CLUSTER SETSLOT slot IMPORTING id`, with the source's.
pub(crate) fn importing_words(
    alloc: Global,
    slot: Slot,
    source: &Server,
) -> Result<TextList, Memory>
    ensures { IfOk result (λ l. l ≡ importing_words slot source.now) }
{
    let mut words = TextList::new(alloc);
    put(&mut words, alloc, b"CLUSTER")?;
    put(&mut words, alloc, b"SETSLOT")?;
    put_number(&mut words, alloc, u32::from(slot.get()))?;
    put(&mut words, alloc, b"IMPORTING")?;
    put_text(&mut words, alloc, &source.name)?;
    Ok(words)
}

/// `CLIENT LIST TYPE normal`, which leaves out replicas and subscribers: a MIGRATE's connection is neither.
pub(crate) fn clients_words(alloc: Global) -> Result<TextList, Memory>
    ensures { IfOk result (λ l. l ≡ clients_words) }
{
    let mut words = TextList::new(alloc);
    put(&mut words, alloc, b"CLIENT")?;
    put(&mut words, alloc, b"LIST")?;
    put(&mut words, alloc, b"TYPE")?;
    put(&mut words, alloc, b"normal")?;
    Ok(words)
}

/// `CLIENT KILL ID number`
pub(crate) fn kill_words(alloc: Global, id: u64) -> Result<TextList, Memory>
    ensures { IfOk result (λ l. l ≡ kill_words id) }
{
    let mut words = TextList::new(alloc);
    put(&mut words, alloc, b"CLIENT")?;
    put(&mut words, alloc, b"KILL")?;
    put(&mut words, alloc, b"ID")?;
    let mut buffer = Buffer::new();
    put(&mut words, alloc, buffer.format(id).as_bytes())?;
    Ok(words)
}

/// `MIGRATE host port "" 0 timeout REPLACE [AUTH password | AUTH2 user password] KEYS key ..`
pub(crate) fn replace_words(
    alloc: Global,
    target: &Server,
    timeout: u32,
    credentials: &Option<Credentials>,
    keys: &[Text],
) -> Result<TextList, Memory>
    ensures { IfOk result (λ l. l ≡ replace_words target.now timeout credentials.now keys.now) }
{
    let mut words = TextList::new(alloc);
    put(&mut words, alloc, b"MIGRATE")?;
    put_text(&mut words, alloc, &target.host)?;
    put_number(&mut words, alloc, u32::from(target.port))?;
    put(&mut words, alloc, b"")?;
    put(&mut words, alloc, b"0")?;
    put_number(&mut words, alloc, timeout)?;
    put(&mut words, alloc, b"REPLACE")?;
    put_login(&mut words, alloc, credentials)?;
    put(&mut words, alloc, b"KEYS")?;
    put_texts(&mut words, alloc, keys)?;
    Ok(words)
}
