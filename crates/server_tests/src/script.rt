//! A reader that gives what it was told to.
ghost use Rattle.std.specs.Prelude.{◌≡◌};

use byte_streams::{ByteIn, Failed};
use redis_servers::Pause;

/// Replies, one after the other.
pub type Replies = &'static [&'static [u8]];

/// Gives one reply after the other, each in pieces of so many bytes at most, so that nothing of a reply is read before
/// the one before it was.
#[derive(Drop)]
pub struct Script {
    replies: Replies,
    left: &'static [u8],
    size: usize,
    ends: u64,
}

impl Script {
    pub fn new(replies: Replies, size: usize) -> Self {
        Self {
            replies,
            left: b"",
            size,
            ends: 0,
        }
    }
}

impl ByteIn for Script {
    ghost gave = { λ x n bytes y. Unit {0} };

    ghost ends = { λ x. x.ends };

    ghost failures = { λ x. 0 };

    fn read(&mut self, buffer: &mut [u8]) -> Result<usize, Failed> {
        if self.left.is_empty() {
            self.take_reply();
        }
        let count = self.left.len().min(self.size).min(buffer.len());
        if count == 0 {
            self.ends = self.ends.wrapping_add(1);
            return Ok(0);
        }
        let (piece, rest) = self.left.split_at(count);
        buffer[..count].copy_from_slice(piece);
        self.left = rest;
        Ok(count)
    }

    ghost gave_none = { λ x. tt };

    ghost gave_then = { λ x y z m n a b h k. tt };
}

impl Script {
    fn take_reply(&mut self)
        ensures { self.new.ends ≡ self.old.ends }
    {
        if let [first, rest @ ..] = self.replies {
            self.left = first;
            self.replies = rest;
        }
    }
}

/// A clock whose time is over after so many pauses.
#[derive(Drop)]
pub struct Turns {
    pub turns: u8,
    pub left: u8,
}

impl Pause for Turns {
    fn begin(&mut self) {
        self.left = self.turns;
    }

    fn pause(&mut self) -> bool {
        self.left = self.left.saturating_sub(1);
        self.left > 0
    }
}
