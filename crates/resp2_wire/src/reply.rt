ghost use Rattle.std.specs.Prelude.{◌≡◌, ℕ, List, length, IfOk};

use byte_texts::Text;
use std::alloc::{AllocError, Global};
use std::marker::Model;

/// What a request is answered.
#[cycle(reply)]
pub enum Reply {
    /// A line of text, as `+OK`. To be encoded it has no CR, no LF and at most 1,024 bytes.
    Simple(Text),
    /// A line that reports an error, as `-ERR no such key`, without its mark. Its limits are those of `Simple`.
    Error(Text),
    Number(i64),
    /// Any bytes.
    Bulk(Text),
    /// No value, spelt as a bulk string of length -1.
    Null,
    /// No array, spelt as an array of length -1.
    NullArray,
    /// To be encoded it has at most 2,097,152 replies, and arrays stand in one another at most 8 deep.
    Array(ReplyList),
}

/// Written out, so that a proof sees one call where such a value is dropped.
impl Drop for Reply {
    #[cycle(reply)]
    fn drop(self) {
        match self {
            Self::Simple(text) | Self::Error(text) | Self::Bulk(text) => drop(text),
            Self::Number(_) | Self::Null | Self::NullArray => {}
            Self::Array(replies) => drop(replies),
        }
    }
}

/// The replies of an array.
#[cycle(reply)]
pub struct ReplyList {
    replies: Vec<Reply>,
}

/// Written out, so that a proof sees one call where such a value is dropped.
impl Drop for ReplyList {
    #[cycle(reply)]
    fn drop(self) {
        let Self { replies } = self;
        drop(replies);
    }
}

impl Model for ReplyList {
    ghost use Rattle.std.specs.Prelude.{List};
    ghost use Rattle.resp2_wire.specs.Tree.{Trees, trees_code, counts};

    ghost Value = { Trees };

    ghost coded = { trees_code };

    ghost use Rattle.resp2_wire.specs.View.{trees};

    ghost view = { λ l. trees l.replies.items };

    ghost size = { counts };

    ghost use Rattle.resp2_wire.specs.Falls.{most_le-counts};

    ghost size_decreases = { λ a h. most_le-counts a.replies.items };
}

impl ReplyList {
    ghost use Rattle.resp2_wire.specs.View.{trees};

    /// The list of these replies, which are not copied.
    pub fn from_vec(replies: Vec<Reply>) -> Self
        ensures { result ≡ trees replies.items }
    {
        Self { replies }
    }

    /// The replies, which are not copied.
    pub fn into_vec(self) -> Vec<Reply>
        ensures { trees result.items ≡ self }
    {
        let Self { replies } = self;
        replies
    }

    /// The replies.
    pub fn get(&self) -> &[Reply]
        ensures { trees result.now ≡ self.now }
    {
        self.replies.as_slice()
    }

    /// An equal list of its own.
    #[cycle(copy)]
    pub fn try_copy(&self, alloc: Global) -> Result<Self, AllocError>
        ensures { IfOk result (λ l. l ≡ self.now) }
    {
        let mut copies = Vec::with_capacity(alloc, self.replies.len())?;
        for reply in &self.replies {
            copies.push(reply.try_copy(alloc)?)?;
        }
        Ok(Self { replies: copies })
    }
}

impl Reply {
    /// An equal reply of its own.
    #[cycle(copy)]
    pub fn try_copy(&self, alloc: Global) -> Result<Self, AllocError>
        ensures { IfOk result (λ r. r ≡ self.now) }
    {
        match self {
            Self::Simple(text) => Ok(Self::Simple(text.try_copy(alloc)?)),
            Self::Error(text) => Ok(Self::Error(text.try_copy(alloc)?)),
            Self::Number(number) => Ok(Self::Number(*number)),
            Self::Bulk(text) => Ok(Self::Bulk(text.try_copy(alloc)?)),
            Self::Null => Ok(Self::Null),
            Self::NullArray => Ok(Self::NullArray),
            Self::Array(replies) => Ok(Self::Array(replies.try_copy(alloc)?)),
        }
    }
}
