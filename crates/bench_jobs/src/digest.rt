//! A digest of all that a job gives, over words of eight bytes: each number with its sign, each text with its length,
//! and of what has kinds, as replies do, the kind before what is in it.
use resp2_wire::Reply;

#[derive(Drop)]
pub struct Digest {
    value: u64,
}

impl Digest {
    pub fn new() -> Self {
        Self {
            value: 0xcbf2_9ce4_8422_2325,
        }
    }

    pub fn number(&mut self, number: u64) {
        let mixed = (self.value ^ number).wrapping_mul(0x9e37_79b9_7f4a_7c15);
        self.value = mixed ^ (mixed >> 32);
    }

    pub fn bytes(&mut self, bytes: &[u8]) {
        self.number(bytes.len() as u64);
        let mut left = bytes;
        while let [a, b, c, d, e, f, g, h, rest @ ..] = left {
            self.number(u64::from_le_bytes([*a, *b, *c, *d, *e, *f, *g, *h]));
            left = rest;
        }
        for byte in left {
            self.number(u64::from(*byte));
        }
    }

    /// A reply: its kind, and what is in it.
    #[cycle(replies)]
    pub fn reply(&mut self, reply: &Reply) {
        match reply {
            Reply::Simple(text) => self.kind_of(1, text.get()),
            Reply::Error(text) => self.kind_of(2, text.get()),
            Reply::Number(number) => {
                self.number(3);
                self.number(u64::from(*number < 0));
                self.number(number.unsigned_abs());
            }
            Reply::Bulk(text) => self.kind_of(4, text.get()),
            Reply::Null => self.number(5),
            Reply::NullArray => self.number(6),
            Reply::Array(list) => {
                self.number(7);
                self.replies(list.get());
            }
        }
    }

    /// So many replies, one after the other.
    #[cycle(replies)]
    fn replies(&mut self, replies: &[Reply]) {
        self.number(replies.len() as u64);
        for reply in replies {
            self.reply(reply);
        }
    }

    /// A text of a kind.
    pub fn kind_of(&mut self, kind: u64, bytes: &[u8]) {
        self.number(kind);
        self.bytes(bytes);
    }

    pub fn get(&self) -> u64 {
        self.value
    }
}
