//! Lists of more texts than an array has otherwise: they are read one by one, as they come.
ghost use Rattle.std.specs.Prelude.{◌≡◌, ◌≤◌, [], ◌∷◌, ◌++◌, ◌+◌, decimal, length, IfNone, IfOk};
ghost use Rattle.std.specs.Prelude.{IfSome, OnOk};
ghost use Rattle.server_links.specs.Limits.{Holds};
ghost use Rattle.server_links.specs.Looking.{IsLooked};
ghost use Rattle.server_links.specs.LongLists.{FindsBegun, GivesBegun, GivesList, GivesTexts, IsBegunWithin};
ghost use Rattle.server_links.specs.LongLists.{IsListWithin, list_width};
ghost use Rattle.server_links.specs.Replies.{ReadsReply};
ghost use Rattle.server_links.specs.Sources.{source};
ghost use Rattle.resp2_wire.specs.Encoding.{line};
ghost use Rattle.resp2_wire.specs.Tree.{bulk};
ghost use Rattle.resp2_wire.specs.View.{tree};

use crate::array_header::array_begun;
use crate::incoming::Incoming;
use crate::link_fault::LinkFault;
use crate::list_reply::ListReply;
use crate::looked::Looked;
use crate::reply_limit::ReplyLimit;
use byte_streams::{ByteIn, MAX_READS};
use byte_texts::{Text, TextList};
use resp2_wire::{MAX_REPLIES, Reply};
use std::alloc::Global;

/// How the reply to a request for a list begins.
pub(crate) enum Begun {
    /// A whole reply, an array among them that has no more replies than arrays have.
    Whole(Reply),
    /// The line of an array of so many, which are more.
    Texts(u32),
}

/// The least number of texts of a list that has more of them than an array has otherwise.
const LEAST_LONG: u32 = MAX_REPLIES as u32 + 1;

/// The most bytes that stand around a text: its mark, its length and two line ends.
const AROUND_TEXT: usize = 12;

impl<I: ByteIn + Drop> Incoming<I> {
    /// The reply to a request for a list, which may have more texts than an array has otherwise. Nothing may come after
    /// it, and it may not be longer than the limit. An array of so many that has anything but bulk strings is no reply.
    pub fn list_answer(&mut self, alloc: Global, limit: ReplyLimit) -> Result<ListReply, LinkFault>
        ensures read { IfOk result (λ x.
            GivesList I.gave (source self.old) x (record { reader = self.new.reader; unread = [] })) }
        ensures within { IfOk result (IsListWithin limit) }
        ensures held { Holds limit self.old.unread.items self.new.unread.items }
    {
        let reply = self.list(alloc, limit)?;
        if !self.unread.is_empty() {
            return Err(LinkFault::NoReply);
        }
        Ok(reply)
    }

    /// Reads one reply to a request for a list.
    fn list(&mut self, alloc: Global, limit: ReplyLimit) -> Result<ListReply, LinkFault>
        ensures read { IfOk result (λ x. GivesList I.gave (source self.old) x (source self.new)) }
        ensures within { IfOk result (IsListWithin limit) }
        ensures held { Holds limit self.old.unread.items self.new.unread.items }
    {
        match self.list_begun(alloc, limit)? {
            Begun::Whole(reply) => Ok(ListReply::Other(reply)),
            Begun::Texts(count) => {
                let texts = self.texts(alloc, limit, count)?;
                Ok(ListReply::Texts(TextList::from_vec(texts)))
            }
        }
    }

    /// Reads up to the end of the first reply, or of the line of a long list.
    fn list_begun(&mut self, alloc: Global, limit: ReplyLimit) -> Result<Begun, LinkFault>
        ensures read { IfOk result (λ b. GivesBegun I.gave (source self.old) b (source self.new)) }
        ensures within { IfOk result (IsBegunWithin limit) }
        ensures held { Holds limit self.old.unread.items self.new.unread.items }
    {
        let mut looked = Looked::nothing();
        for _ in 0..MAX_READS {
            if let Some(begun) = self.begun_read(alloc, limit, &mut looked)? {
                return Ok(begun);
            }
            self.read_more()?;
        }
        Err(LinkFault::Silent)
    }

    /// How the reply begins, if enough of it has come.
    fn begun_read(
        &mut self,
        alloc: Global,
        limit: ReplyLimit,
        looked: &mut Looked,
    ) -> Result<Option<Begun>, LinkFault>
        requires { IsLooked self.old.unread.items looked.old.place looked.old.left }
        ensures reader { self.new.reader ≡ self.old.reader }
        ensures read { IfOk result (λ found. IfSome found (λ b.
            FindsBegun self.old.unread.items b self.new.unread.items)) }
        ensures kept { IfOk result (λ found. IfNone found (self.new.unread.items ≡ self.old.unread.items)) }
        ensures looked { IsLooked self.old.unread.items looked.new.place looked.new.left }
        ensures within { IfOk result (λ found. IfSome found (IsBegunWithin limit)) }
        ensures few { IfOk result (λ found. IfNone found (length self.old.unread.items ≤ limit)) }
        ensures held { length self.new.unread.items ≤ length self.old.unread.items }
    {
        match self.reply_read(alloc, limit, looked) {
            Ok(Some(reply)) => Ok(Some(Begun::Whole(reply))),
            Ok(None) => Ok(None),
            Err(LinkFault::TooLong) => match self.line_read() {
                Ok(count) => Ok(Some(Begun::Texts(count))),
                Err(fault) => Err(fault),
            },
            Err(fault) => Err(fault),
        }
    }

    /// Passes over the line of a long list, and gives how many texts it announces.
    fn line_read(&mut self) -> Result<u32, LinkFault>
        ensures reader { self.new.reader ≡ self.old.reader }
        ensures read { IfOk result (λ n. self.old.unread.items ≡ line 42 (decimal n) ++ self.new.unread.items) }
        ensures held { length self.new.unread.items ≤ length self.old.unread.items }
    {
        let width = self.unread.len();
        match array_begun(self.unread.as_slice(), LEAST_LONG, u32::MAX) {
            Some((count, after)) => {
                let left = after.len();
                self.unread.advance(width - left);
                Ok(count)
            }
            None => Err(LinkFault::TooLong),
        }
    }

    /// Reads so many bulk strings.
    fn texts(
        &mut self,
        alloc: Global,
        limit: ReplyLimit,
        count: u32,
    ) -> Result<Vec<Text>, LinkFault>
        ensures read { IfOk result (λ v. GivesTexts I.gave (source self.old) v.items (source self.new)) }
        ensures count { IfOk result (λ v. length v.items ≡ count) }
        ensures within { IfOk result (λ v. list_width v.items ≤ limit) }
        ensures held { Holds limit self.old.unread.items self.new.unread.items }
    {
        let mut texts = Vec::new(alloc);
        let mut left = limit.get();
        for _ in 0..count {
            let text = self.list_text(alloc, limit)?;
            left = left_after(left, &text)?;
            put(&mut texts, text)?;
        }
        Ok(texts)
    }

    /// Reads one text of a long list.
    fn list_text(&mut self, alloc: Global, limit: ReplyLimit) -> Result<Text, LinkFault>
        ensures read { IfOk result (λ t. ReadsReply I.gave (source self.old) (bulk t) (source self.new)) }
        ensures held { Holds limit self.old.unread.items self.new.unread.items }
    {
        let reply = self.reply(alloc, limit)?;
        text_of(alloc, &reply)
    }
}

/// Puts the text at the end.
fn put(texts: &mut Vec<Text>, text: Text) -> Result<(), LinkFault>
    ensures { OnOk result (texts.new.items ≡ texts.old.items ++ text ∷ []) }
{
    match texts.push(text) {
        Ok(()) => Ok(()),
        Err(_) => Err(LinkFault::NoMemory),
    }
}

/// A copy of the text that the reply is.
fn text_of(alloc: Global, reply: &Reply) -> Result<Text, LinkFault>
    ensures { IfOk result (λ t. tree reply.now ≡ bulk t) }
{
    match reply {
        Reply::Bulk(text) => match text.try_copy(alloc) {
            Ok(copy) => Ok(copy),
            Err(_) => Err(LinkFault::NoMemory),
        },
        _ => Err(LinkFault::NoReply),
    }
}

/// How many of so many bytes are left after the text and what stands around it.
fn left_after(left: usize, text: &Text) -> Result<usize, LinkFault>
    ensures { IfOk result (λ rest. rest + (length text.now + 12) ≡ left) }
{
    match left.checked_sub(text.get().len() + AROUND_TEXT) {
        Some(rest) => Ok(rest),
        None => Err(LinkFault::TooLong),
    }
}
