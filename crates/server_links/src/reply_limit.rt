ghost use Rattle.std.specs.Prelude.{◌≡◌};
ghost use Rattle.server_links.specs.Limits.{any_limit, line_limit, list_limit, texts_limit};

use byte_texts::MAX_BYTES;
use std::marker::Model;

/// The most bytes of an error, a number or a simple text with its mark and its line's end, and far more than Redis's
/// own are.
const LINE: usize = 65_536;

/// The most bytes of a bulk string's two line ends, its mark and its length.
const AROUND_TEXT: usize = 12;

/// The most bytes of a list of connections: some 190,000 of them.
const LIST: usize = 67_108_864;

/// How many bytes the reply to a request may have, by what was asked. Contracts see it as that number.
#[derive(Clone, Copy)]
pub struct ReplyLimit {
    bytes: usize,
}

impl Model for ReplyLimit {
    ghost use Rattle.std.specs.Prelude.{ℕ};

    ghost Value = { ℕ };

    ghost view = { λ l. l.bytes };

    ghost inverse = { λ n. record { bytes = n } };
}

impl ReplyLimit {
    /// For a request that is answered by a line, as `+OK`, a number or an error.
    pub fn line() -> Self
        ensures { result ≡ line_limit }
    {
        Self { bytes: LINE }
    }

    /// For a request that is answered by a bulk string.
    pub fn text() -> Self
        ensures { result ≡ texts_limit 1 }
    {
        Self::texts(1)
    }

    /// For a request that is answered by an array of at most so many bulk strings.
    pub fn texts(count: u32) -> Self
        ensures { result ≡ texts_limit count }
    {
        Self {
            bytes: LINE + count as usize * (MAX_BYTES + AROUND_TEXT),
        }
    }

    /// For a request that is answered by a list of connections, which may be longer than an argument.
    pub fn list() -> Self
        ensures { result ≡ list_limit }
    {
        Self { bytes: LIST }
    }

    /// For a request that may be answered by any reply.
    pub fn any() -> Self
        ensures { result ≡ any_limit }
    {
        Self { bytes: usize::MAX }
    }

    /// The number of bytes.
    pub fn get(self) -> usize
        ensures { result ≡ self }
    {
        self.bytes
    }
}
