use crate::entries::{entries, push_texts};
use crate::sessions::{importing_session, session};
use migrate_frames::read_frame;
use resp2_wire::{Decoder, decode_reply, encode};
use std::alloc::Global;

/// What reads the bytes.
#[derive(Clone, Copy)]
pub enum Reader {
    /// `frame`: a transfer frame.
    Frame,
    /// `requests`: requests, up to the first that is not whole.
    Requests,
    /// `reply`: one reply at the front.
    Reply,
    /// `session`: a session at a cluster of one node.
    Session,
    /// `importing`: a session at node 1 of three, which imports the slot 3300 from node 0.
    Importing,
}

impl Reader {
    /// The reader that the words of a command line name.
    pub fn read(words: &[String]) -> Option<Self> {
        let [name] = words else { return None };
        match name.as_str() {
            "frame" => Some(Self::Frame),
            "requests" => Some(Self::Requests),
            "reply" => Some(Self::Reply),
            "session" => Some(Self::Session),
            "importing" => Some(Self::Importing),
            _ => None,
        }
    }

    /// What it answers, in one line.
    pub fn answer(self, alloc: Global, bytes: &[u8]) -> anyhow::Result<String> {
        match self {
            Self::Frame => frame(alloc, bytes),
            Self::Requests => requests(alloc, bytes),
            Self::Reply => reply(alloc, bytes),
            Self::Session => session(alloc, bytes),
            Self::Importing => importing_session(alloc, bytes),
        }
    }
}

/// The entries of the frame, or its fault.
fn frame(alloc: Global, bytes: &[u8]) -> anyhow::Result<String> {
    match read_frame(alloc, bytes) {
        Ok(batch) => entries(alloc, batch.as_slice()),
        Err(fault) => Ok(format!(in alloc; "{fault}")?),
    }
}

/// The words of each whole request in hexadecimal, and then the fault, if there is one.
fn requests(alloc: Global, bytes: &[u8]) -> anyhow::Result<String> {
    let mut decoder = Decoder::new(alloc);
    decoder.feed(bytes)?;
    let mut printed = String::new(alloc);
    for _ in 0..u64::MAX {
        match decoder.next() {
            Ok(Some(request)) => {
                push_texts(alloc, &mut printed, request.get())?;
                printed.push(' ')?;
            }
            Ok(None) => return Ok(printed),
            Err(fault) => {
                printed.push_str(format!(in alloc; "{fault}")?.as_str())?;
                return Ok(printed);
            }
        }
    }
    Ok(printed)
}

/// How many bytes the reply takes, with its spelling in hexadecimal, `unfinished`, or its fault.
fn reply(alloc: Global, bytes: &[u8]) -> anyhow::Result<String> {
    Ok(match decode_reply(alloc, bytes) {
        Ok(Some((reply, taken))) => {
            let spelled = hex::encode(alloc, encode(alloc, &reply)?.as_slice())?;
            format!(in alloc; "{taken} bytes {spelled}")?
        }
        Ok(None) => format!(in alloc; "unfinished")?,
        Err(fault) => format!(in alloc; "{fault}")?,
    })
}
