ghost use Rattle.resp2_wire.specs.View.{tree};
ghost use Rattle.resp2_wire.specs.Limits.{Within};

use anyhow::anyhow;
use resp2_wire::{Reply, decode_reply, encode};
use std::alloc::Global;

/// A kind of reply that is encoded.
#[derive(Clone, Copy)]
pub enum ReplyKind {
    Status,
    Number,
    /// A bulk string of 100 bytes.
    Text,
    /// Ten bulk strings of 10 bytes.
    Array,
}

/// What is written goes after what was written before, up to about so many bytes.
const ROOM: usize = 65_536;

impl ReplyKind {
    /// The kind of a job with this name.
    pub fn read(job: &str) -> Option<Self> {
        match job {
            "encode-status" => Some(Self::Status),
            "encode-number" => Some(Self::Number),
            "encode-text" => Some(Self::Text),
            "encode-array" => Some(Self::Array),
            _ => None,
        }
    }

    /// A reply of the kind, as it is spelt.
    fn spelling(self) -> &'static [u8] {
        match self {
            Self::Status => b"+OK\r\n",
            Self::Number => b":1234567\r\n",
            Self::Text => b"$100\r\n\
                01234567890123456789012345678901234567890123456789\
                01234567890123456789012345678901234567890123456789\r\n",
            Self::Array => b"*10\r\n\
                $10\r\n0123456789\r\n$10\r\n0123456789\r\n\
                $10\r\n0123456789\r\n$10\r\n0123456789\r\n\
                $10\r\n0123456789\r\n$10\r\n0123456789\r\n\
                $10\r\n0123456789\r\n$10\r\n0123456789\r\n\
                $10\r\n0123456789\r\n$10\r\n0123456789\r\n",
        }
    }
}

/// Encodes a reply of the kind so many times, and returns how many bytes were written.
pub fn encode_often(alloc: Global, kind: ReplyKind, count: usize) -> anyhow::Result<u64> {
    let Some((reply, _)) = decode_reply(alloc, kind.spelling())? else {
        return Err(anyhow!("the reply's spelling ends too early"));
    };
    encode_reply(alloc, &reply, count)
}

fn encode_reply(alloc: Global, reply: &Reply, count: usize) -> anyhow::Result<u64>
    requires { Within 8 (tree reply.now) }
{
    let mut out = Vec::new(alloc);
    let mut written = 0u64;
    for _ in 0..count {
        if out.len() > ROOM {
            out.clear();
        }
        let bytes = encode(alloc, reply)?;
        out.extend_from_slice(bytes.as_slice())?;
        written = written.saturating_add(bytes.len() as u64);
    }
    Ok(written)
}
