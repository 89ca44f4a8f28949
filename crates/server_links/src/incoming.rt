//! What comes from a node: replies, read one after the other.
ghost use Rattle.std.specs.Prelude.{◌≡◌, ◌≢◌, ℕ, ◌+◌, ◌<◌, ◌≤◌, List, [], ◌++◌, length, vec_len, Ok, IfErr, IfOk};
ghost use Rattle.std.specs.Prelude.{IfNone, IfSome, IsTrue, OnErr, OnOk};
ghost use Rattle.server_links.specs.Limits.{Holds, IsWithin};
ghost use Rattle.server_links.specs.LongTexts.{FindsText, GivesText, IsTextWithin};
ghost use Rattle.server_links.specs.Looking.{IsLooked};
ghost use Rattle.server_links.specs.Replies.{IsAnswered, IsUnfinished, ReadsReply, first_reply, ok_tree};
ghost use Rattle.server_links.specs.declared.link_fault.LinkFault.TheVariants.{Silent};
ghost use Rattle.resp2_wire.specs.Encoding.{encoding};
ghost use Rattle.resp2_wire.specs.Tree.{bulk};
ghost use Rattle.resp2_wire.specs.View.{tree};

mod lists;

use crate::link_fault::LinkFault;
use crate::long_text::bulk_text;
use crate::looked::Looked;
use crate::reply_limit::ReplyLimit;
use crate::text_reply::TextReply;
use byte_streams::{ByteIn, Failed, MAX_READS, read_buffer};
use bytes::BytesMut;
use resp2_wire::{Reply, WireFault, decode_reply};
use std::alloc::{AllocError, Global};

/// A reader, with what it gave and is not read yet.
#[derive(Drop)]
pub struct Incoming<I: Drop> {
    reader: I,
    buffer: Vec<u8>,
    unread: BytesMut,
    ghost whole: { vec_len buffer ≡ 65536 },
}

impl<I: ByteIn + Drop> Incoming<I> {
    ghost use Rattle.server_links.specs.Sources.{source};

    /// Nothing has come yet.
    pub fn new(alloc: Global, reader: I) -> Result<Self, AllocError>
        ensures reader { IfOk result (λ i. i.reader ≡ reader) }
        ensures blank { IfOk result (λ i. i.unread.items ≡ []) }
    {
        let buffer = read_buffer(alloc)?;
        Ok(Self {
            reader,
            buffer,
            unread: BytesMut::new(alloc),
        })
    }

    /// Where the replies come from.
    pub fn reader(&self) -> &I
        ensures { result.now ≡ self.now.reader }
    {
        &self.reader
    }

    /// The reply to a request, after that to its ASKING, if it had one, which has to be `+OK`. Nothing may come after
    /// it, and neither may be longer than the limit.
    pub fn answer(
        &mut self,
        alloc: Global,
        asking: bool,
        limit: ReplyLimit,
    ) -> Result<Reply, LinkFault>
        ensures read { IfOk result (λ r.
            IsAnswered I.gave asking (source self.old) (tree r) self.new.reader) }
        ensures within { IfOk result (IsWithin limit) }
        ensures held { Holds limit self.old.unread.items self.new.unread.items }
    {
        if asking {
            self.settle_asking(alloc, limit)?;
        }
        let reply = self.reply(alloc, limit)?;
        if self.unread.is_empty() {
            Ok(reply)
        } else {
            Err(LinkFault::NoReply)
        }
    }

    /// The reply to a request for a text, which may be longer than an argument. Nothing may come after it, and it may
    /// not be longer than the limit.
    pub fn text_answer(&mut self, alloc: Global, limit: ReplyLimit) -> Result<TextReply, LinkFault>
        ensures read { IfOk result (λ x.
            GivesText I.gave (source self.old) x (record { reader = self.new.reader; unread = [] })) }
        ensures within { IfOk result (IsTextWithin limit) }
        ensures held { Holds limit self.old.unread.items self.new.unread.items }
    {
        let reply = self.text(alloc, limit)?;
        if !self.unread.is_empty() {
            return Err(LinkFault::NoReply);
        }
        Ok(reply)
    }

    /// Reads the answer to ASKING.
    fn settle_asking(&mut self, alloc: Global, limit: ReplyLimit) -> Result<(), LinkFault>
        ensures read { OnOk result (ReadsReply I.gave (source self.old) ok_tree (source self.new)) }
        ensures held { Holds limit self.old.unread.items self.new.unread.items }
    {
        let reply = self.reply(alloc, limit)?;
        if is_ok(&reply) {
            Ok(())
        } else {
            Err(LinkFault::NoReply)
        }
    }

    /// Reads one reply, and no further once it is whole: what has come after it is left to be read.
    pub fn reply(&mut self, alloc: Global, limit: ReplyLimit) -> Result<Reply, LinkFault>
        ensures read { IfOk result (λ r. ReadsReply I.gave (source self.old) (tree r) (source self.new)) }
        ensures within { IfOk result (IsWithin limit) }
        ensures held { Holds limit self.old.unread.items self.new.unread.items }
        ensures silent { IfErr result (λ e. e ≡ Silent → IsUnfinished self.new.unread.items) }
    {
        let mut looked = Looked::nothing();
        for _ in 0..MAX_READS {
            if let Some(reply) = self.reply_read(alloc, limit, &mut looked)? {
                return Ok(reply);
            }
            self.read_more()?;
        }
        match self.reply_read(alloc, limit, &mut looked)? {
            Some(reply) => Ok(reply),
            None => Err(LinkFault::Silent),
        }
    }

    /// Reads one reply to a request for a text.
    fn text(&mut self, alloc: Global, limit: ReplyLimit) -> Result<TextReply, LinkFault>
        ensures read { IfOk result (λ x. GivesText I.gave (source self.old) x (source self.new)) }
        ensures within { IfOk result (IsTextWithin limit) }
        ensures held { Holds limit self.old.unread.items self.new.unread.items }
    {
        let mut looked = Looked::nothing();
        for _ in 0..MAX_READS {
            if let Some(reply) = self.text_read(alloc, limit, &mut looked)? {
                return Ok(reply);
            }
            self.read_more()?;
        }
        Err(LinkFault::Silent)
    }

    /// The reply that has come, if it is whole, as a text if it is one that is longer than an argument.
    fn text_read(
        &mut self,
        alloc: Global,
        limit: ReplyLimit,
        looked: &mut Looked,
    ) -> Result<Option<TextReply>, LinkFault>
        requires { IsLooked self.old.unread.items looked.old.place looked.old.left }
        ensures reader { self.new.reader ≡ self.old.reader }
        ensures read { IfOk result (λ found. IfSome found (λ x.
            FindsText self.old.unread.items x self.new.unread.items)) }
        ensures kept { IfOk result (λ found. IfNone found (self.new.unread.items ≡ self.old.unread.items)) }
        ensures looked { IsLooked self.old.unread.items looked.new.place looked.new.left }
        ensures within { IfOk result (λ found. IfSome found (IsTextWithin limit)) }
        ensures few { IfOk result (λ found. length self.old.unread.items ≤ limit) }
        ensures held { length self.new.unread.items ≤ length self.old.unread.items }
    {
        match self.reply_read(alloc, limit, looked) {
            Ok(Some(reply)) => Ok(Some(TextReply::Other(reply))),
            Ok(None) => Ok(None),
            Err(LinkFault::TooLong) => self.long_text_read(alloc, limit),
            Err(fault) => Err(fault),
        }
    }

    /// The text of the bulk string that has come, if it is whole.
    fn long_text_read(
        &mut self,
        alloc: Global,
        limit: ReplyLimit,
    ) -> Result<Option<TextReply>, LinkFault>
        ensures reader { self.new.reader ≡ self.old.reader }
        ensures read { IfOk result (λ found. IfSome found (λ x.
            FindsText self.old.unread.items x self.new.unread.items)) }
        ensures kept { IfOk result (λ found. IfNone found (self.new.unread.items ≡ self.old.unread.items)) }
        ensures within { IfOk result (λ found. IfSome found (IsTextWithin limit)) }
        ensures few { IfOk result (λ found. length self.old.unread.items ≤ limit) }
        ensures held { length self.new.unread.items ≤ length self.old.unread.items }
    {
        let is_within = self.unread.len() <= limit.get();
        if !is_within || !self.unread.as_slice().starts_with(b"$") {
            return Err(LinkFault::TooLong);
        }
        match copied_text(alloc, self.unread.as_slice()) {
            Ok(Some(text)) => {
                self.unread.advance(self.unread.len());
                Ok(Some(TextReply::Text(text)))
            }
            Ok(None) => Ok(None),
            Err(AllocError) => Err(LinkFault::NoMemory),
        }
    }

    /// The reply that has come, if it is whole: nothing is waited for once it is. A long one that comes in pieces is
    /// looked through as they come, and is not read from its start with each of them. Whatever has come beyond the
    /// limit is let go with the connection, and no memory is taken for what was only announced.
    #[tactic(auto, using(crate::proofs::Taking::taken_within))]
    fn reply_read(
        &mut self,
        alloc: Global,
        limit: ReplyLimit,
        looked: &mut Looked,
    ) -> Result<Option<Reply>, LinkFault>
        requires { IsLooked self.old.unread.items looked.old.place looked.old.left }
        ensures reader { self.new.reader ≡ self.old.reader }
        ensures read { IfOk result (λ found. IfSome found (λ r.
            first_reply self.old.unread.items ≡ Ok (tree r, self.new.unread.items))) }
        ensures kept { IfOk result (λ found. IfNone found (self.new.unread.items ≡ self.old.unread.items)) }
        ensures within { IfOk result (λ found. IfSome found (IsWithin limit)) }
        ensures few { IfOk result (λ found. length self.old.unread.items ≤ limit) }
        ensures held { length self.new.unread.items ≤ length self.old.unread.items }
        ensures refused { OnErr result (self.new.unread.items ≡ self.old.unread.items) }
        ensures looked { IsLooked self.old.unread.items looked.new.place looked.new.left }
        ensures unfinished { IfOk result (λ found. IfNone found (IsUnfinished self.old.unread.items)) }
        ensures silent { IfErr result (λ e. e ≢ Silent) }
    {
        if self.unread.len() > limit.get() {
            return Err(LinkFault::TooLong);
        }
        if !looked.look_on(alloc, self.unread.as_slice()) {
            return Ok(None);
        }
        match decode_reply(alloc, self.unread.as_slice()) {
            Ok(Some((reply, count))) => {
                self.unread.advance(count);
                Ok(Some(reply))
            }
            Ok(None) => Ok(None),
            Err(WireFault::Memory) => Err(LinkFault::NoMemory),
            Err(WireFault::TooLarge) => Err(LinkFault::TooLong),
            Err(_) => Err(LinkFault::NoReply),
        }
    }

    /// Reads once. The end of the connection is a failure too.
    fn read_more(&mut self) -> Result<(), LinkFault>
        ensures read { OnOk result ((piece : List ℕ) × I.gave self.old.reader 1 piece self.new.reader
            × (self.new.unread.items ≡ self.old.unread.items ++ piece)) }
        ensures held { length self.new.unread.items ≤ length self.old.unread.items + 65536 }
        ensures silent { IfErr result (λ e. e ≡ Silent → self.new.unread.items ≡ self.old.unread.items) }
    {
        match self.reader.read(self.buffer.as_mut_slice()) {
            Ok(0) | Err(Failed) => Err(LinkFault::Silent),
            Ok(count) => match self.unread.extend_from_slice(&self.buffer[..count]) {
                Ok(()) => Ok(()),
                Err(_) => Err(LinkFault::NoMemory),
            },
        }
    }
}

/// A copy of the text, if the bytes are a bulk string.
fn copied_text(alloc: Global, bytes: &[u8]) -> Result<Option<Vec<u8>>, AllocError>
    ensures { IfOk result (λ o. IfSome o (λ v. bytes.now ≡ encoding (bulk v.items))) }
{
    match bulk_text(bytes) {
        Some(text) => Ok(Some(Vec::from_slice(alloc, text)?)),
        None => Ok(None),
    }
}

fn is_ok(reply: &Reply) -> bool
    ensures { IsTrue result → tree reply.now ≡ ok_tree }
{
    match reply {
        Reply::Simple(text) => text.get() == b"OK".as_slice(),
        _ => false,
    }
}
