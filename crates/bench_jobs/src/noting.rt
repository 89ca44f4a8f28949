//! What a job's digest notes of a session, of a trail, of administrators' replies and of refusals.
use crate::digest::Digest;
use byte_texts::{Memory, Text};
use cluster_admin::{AdminCommand, AdminReply};
use cluster_world::{Event, Trail};
use node_session::SessionEnd;
use std::alloc::{AllocError, Global};
use std::fmt::Display;
use store_commands::{Command, TextCommand};

/// How a session ended, and what it wrote.
pub fn note_session(digest: &mut Digest, end: &SessionEnd, sent: u64, written: &[u8]) {
    let end = match end {
        SessionEnd::Closed => 1,
        SessionEnd::Cut => 2,
        SessionEnd::Protocol(_) => 3,
        SessionEnd::ReadFailed => 4,
        SessionEnd::WriteFailed => 5,
        SessionEnd::Memory => 6,
        SessionEnd::Quit => 7,
    };
    digest.number(end);
    digest.number(sent);
    digest.bytes(written);
}

/// Each event of the trail, with its reply.
pub fn note_trail(alloc: Global, digest: &mut Digest, trail: &Trail) -> Result<(), Memory> {
    digest.number(trail.events().len() as u64);
    for event in trail.events() {
        note_event(alloc, digest, event)?;
    }
    Ok(())
}

/// Notes threads' trail, on which their events stand in an order that is another one each time.
pub fn note_threads_trail(alloc: Global, digest: &mut Digest, trail: &Trail) -> Result<(), Memory> {
    digest.number(trail.events().len() as u64);
    let mut sum = 0u64;
    for event in trail.events() {
        let mut of_event = Digest::new();
        note_event(alloc, &mut of_event, event)?;
        sum = sum.wrapping_add(of_event.get());
    }
    digest.number(sum);
    Ok(())
}

fn note_event(alloc: Global, digest: &mut Digest, event: &Event) -> Result<(), Memory> {
    match event {
        Event::Client {
            seat,
            node,
            asking,
            command,
            reply,
        } => {
            note_place(digest, 1 + u64::from(*asking), *seat, node.get());
            note_command(alloc, digest, command)?;
            digest.reply(reply);
        }
        Event::Look { seat, node, reply } => {
            note_place(digest, 3, *seat, node.get());
            digest.reply(reply);
        }
        Event::Admin {
            node,
            command,
            reply,
        } => {
            note_place(digest, 4, 0, node.get());
            note_admin_command(digest, command);
            note_admin_reply(digest, reply);
        }
    }
    Ok(())
}

fn note_place(digest: &mut Digest, kind: u64, seat: u8, node: u8) {
    digest.number(kind);
    digest.number(u64::from(seat) * 256 + u64::from(node));
}

/// The usual commands are noted as they stand, since their words would take memory.
fn note_command(alloc: Global, digest: &mut Digest, command: &Command) -> Result<(), Memory> {
    match command {
        Command::OnText(key, TextCommand::Get) => digest.kind_of(1, key.get()),
        Command::OnText(key, TextCommand::Set(value)) => {
            digest.kind_of(2, key.get());
            digest.bytes(value.get());
        }
        _ => {
            digest.number(3);
            note_texts(digest, command.words(alloc)?.get());
        }
    }
    Ok(())
}

fn note_texts(digest: &mut Digest, texts: &[Text]) {
    digest.number(texts.len() as u64);
    for text in texts {
        digest.bytes(text.get());
    }
}

fn note_admin_command(digest: &mut Digest, command: &AdminCommand) {
    let (kind, first, second) = match command {
        AdminCommand::Importing(slot, node) => (1, slot.get(), u16::from(node.get())),
        AdminCommand::Migrating(slot, node) => (2, slot.get(), u16::from(node.get())),
        AdminCommand::SetNode(slot, node) => (3, slot.get(), u16::from(node.get())),
        AdminCommand::Stable(slot) => (4, slot.get(), 0),
        AdminCommand::KeysIn(slot, count) => (5, slot.get(), *count),
        AdminCommand::Migrate(_, node) => (6, 0, u16::from(node.get())),
    };
    digest.number(kind);
    digest.number(u64::from(first));
    digest.number(u64::from(second));
    if let AdminCommand::Migrate(keys, _) = command {
        note_texts(digest, keys.get());
    }
}

/// An administrator's reply: its kind, and the keys that are listed, or why it was refused.
pub fn note_admin_reply(digest: &mut Digest, reply: &AdminReply) {
    match reply {
        AdminReply::Ok => digest.number(1),
        AdminReply::NoKey => digest.number(2),
        AdminReply::Keys(keys) => {
            digest.number(3);
            note_texts(digest, keys.get());
        }
        AdminReply::Refused(fault) => {
            digest.number(4);
            digest.number(*fault as u64);
        }
    }
}

/// Why something was refused, in the words in which a user is told.
pub fn note_refusal<E: Display>(
    alloc: Global,
    digest: &mut Digest,
    refusal: &E,
) -> Result<(), AllocError> {
    digest.kind_of(9, format!(in alloc; "{refusal}")?.as_bytes());
    Ok(())
}
