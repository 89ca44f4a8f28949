//! Replies of the usual kinds.
ghost use Rattle.std.specs.Prelude.{◌≡◌, ◌≤◌, length, pos, IfOk, IfSome, option_map};
ghost use Rattle.resp2_wire.specs.View.{trees};
ghost use Rattle.resp2_wire.specs.Constructors.{count, truth, bulk_or_null, bulk_array};
ghost use Rattle.resp2_wire.specs.declared.reply.Reply.TheVariants as reply;

use crate::reply::{Reply, ReplyList};
use byte_texts::{MAX_BYTES, Text, TextList};
use std::alloc::{AllocError, Global};

impl Reply {
    /// A line of text, as `+OK`.
    pub fn simple(alloc: Global, text: &[u8]) -> Result<Self, AllocError>
        requires { length text.now ≤ MAX_BYTES }
        ensures { IfOk result (λ r. r ≡ reply.Simple text.now) }
    {
        Ok(Self::Simple(Text::from_slice(alloc, text)?))
    }

    /// A line that reports an error, as `-ERR no such key`; the text has no mark.
    pub fn error(alloc: Global, text: &[u8]) -> Result<Self, AllocError>
        requires { length text.now ≤ MAX_BYTES }
        ensures { IfOk result (λ r. r ≡ reply.Error text.now) }
    {
        Ok(Self::Error(Text::from_slice(alloc, text)?))
    }

    /// The bytes as a bulk string.
    pub fn bulk(alloc: Global, text: &[u8]) -> Result<Self, AllocError>
        requires { length text.now ≤ MAX_BYTES }
        ensures { IfOk result (λ r. r ≡ reply.Bulk text.now) }
    {
        Ok(Self::Bulk(Text::from_slice(alloc, text)?))
    }

    /// The bytes as a bulk string, or `Null` where there are none.
    pub fn bulk_or_null(alloc: Global, text: Option<&[u8]>) -> Result<Self, AllocError>
        requires { IfSome text (λ t. length t.now ≤ MAX_BYTES) }
        ensures { IfOk result (λ r. r ≡ bulk_or_null (option_map (λ t. t.now) text.entry)) }
    {
        match text {
            Some(text) => Self::bulk(alloc, text),
            None => Ok(Self::Null),
        }
    }

    /// How many there are.
    pub fn count(number: u32) -> Self
        ensures { result ≡ count number }
    {
        Self::Number(i64::from(number))
    }

    /// 1 for yes and 0 for no.
    pub fn truth(holds: bool) -> Self
        ensures { result ≡ truth holds }
    {
        Self::count(u32::from(holds))
    }

    /// The array of the replies, which are not copied.
    pub fn array(replies: Vec<Reply>) -> Self
        ensures { result ≡ reply.Array (trees replies.items) }
    {
        Self::Array(ReplyList::from_vec(replies))
    }

    /// The array of the texts as bulk strings; the texts are not copied.
    pub fn bulk_array(alloc: Global, texts: TextList) -> Result<Self, AllocError>
        ensures { IfOk result (λ r. r ≡ bulk_array texts) }
    {
        let mut replies = Vec::with_capacity(alloc, texts.len())?;
        for text in texts.into_vec() {
            replies.push(Self::Bulk(text))?;
        }
        Ok(Self::array(replies))
    }
}
