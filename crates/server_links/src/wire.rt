//! One connection: what is asked over it, and what is answered.
ghost use Rattle.std.specs.Prelude.{◌≡◌, [], false, IfOk, OnErr, OnOk};
ghost use Rattle.resp2_wire.specs.View.{tree};
ghost use Rattle.server_links.specs.Exchanges.{Asks, AsksList, AsksText, AsksWithin, IsBegun};
ghost use Rattle.server_links.specs.Limits.{Holds, IsWithin};
ghost use Rattle.server_links.specs.Replies.{IsAnswered, ReadsReply};
ghost use Rattle.server_links.specs.Sources.{source};

use crate::incoming::Incoming;
use crate::link_fault::LinkFault;
use crate::list_reply::ListReply;
use crate::reply_limit::ReplyLimit;
use crate::text_reply::TextReply;
use byte_streams::{ByteIn, ByteOut, write_whole};
use cluster_admin::PortFault;
use resp2_wire::Reply;
use std::alloc::{AllocError, Global};

/// A connection to a node.
#[derive(Drop)]
pub struct Wire<I: Drop, O: Drop> {
    incoming: Incoming<I>,
    writer: O,
}

impl<I: ByteIn + Drop, O: ByteOut + Drop> Wire<I, O> {
    /// Nothing has come yet.
    pub fn new(alloc: Global, reader: I, writer: O) -> Result<Self, AllocError>
        ensures writer { IfOk result (λ w. w.writer ≡ writer) }
        ensures reader { IfOk result (λ w. w.incoming.reader ≡ reader) }
        ensures blank { IfOk result (λ w. w.incoming.unread.items ≡ []) }
    {
        let incoming = Incoming::new(alloc, reader)?;
        Ok(Self { incoming, writer })
    }

    /// Where the replies come from.
    pub fn reader(&self) -> &I
        ensures { result.now ≡ self.now.incoming.reader }
    {
        self.incoming.reader()
    }

    /// Where the requests go.
    pub fn writer(&self) -> &O
        ensures { result.now ≡ self.now.writer }
    {
        &self.writer
    }

    /// Writes the request, and reads the reply to it, of any length, after that to its ASKING, if it has one.
    pub fn ask(&mut self, alloc: Global, asking: bool, request: &[u8]) -> Result<Reply, PortFault>
        ensures { Asks (record { gave = I.gave; took = O.took }) asking request.now self.old result self.new }
    {
        match self.ask_within(alloc, asking, request, ReplyLimit::any()) {
            Ok(reply) => Ok(reply),
            Err(fault) => Err(fault.port_fault()),
        }
    }

    /// Writes the request and reads a reply that may be no longer than the limit; answers why there is none.
    pub fn ask_within(
        &mut self,
        alloc: Global,
        asking: bool,
        request: &[u8],
        limit: ReplyLimit,
    ) -> Result<Reply, LinkFault>
        ensures asked { AsksWithin (record { gave = I.gave; took = O.took }) asking
            (record { request = request.now; limit = limit }) self.old result self.new }
        ensures held { Holds limit self.old.incoming.unread.items self.new.incoming.unread.items }
    {
        write(&mut self.writer, request)?;
        self.incoming.answer(alloc, asking, limit)
    }

    /// Writes the request, and reads nothing yet.
    pub fn send(&mut self, request: &[u8]) -> Result<(), LinkFault>
        ensures whole { OnOk result (O.took self.old.writer request.now self.new.writer) }
        ensures begun { OnErr result (IsBegun O.took request.now self.old.writer self.new.writer) }
        ensures incoming { self.new.incoming ≡ self.old.incoming }
    {
        write(&mut self.writer, request)
    }

    /// Reads the reply to a request that was sent.
    pub fn receive(&mut self, alloc: Global, limit: ReplyLimit) -> Result<Reply, LinkFault>
        ensures read { IfOk result (λ r.
            IsAnswered I.gave false (source self.old.incoming) (tree r) self.new.incoming.reader) }
        ensures within { IfOk result (IsWithin limit) }
        ensures held { Holds limit self.old.incoming.unread.items self.new.incoming.unread.items }
        ensures writer { self.new.writer ≡ self.old.writer }
    {
        self.incoming.answer(alloc, false, limit)
    }

    /// Reads the reply to the first of several requests that were sent, and leaves what has come after it.
    pub fn receive_next(&mut self, alloc: Global, limit: ReplyLimit) -> Result<Reply, LinkFault>
        ensures read { IfOk result (λ r.
            ReadsReply I.gave (source self.old.incoming) (tree r) (source self.new.incoming)) }
        ensures within { IfOk result (IsWithin limit) }
        ensures held { Holds limit self.old.incoming.unread.items self.new.incoming.unread.items }
        ensures writer { self.new.writer ≡ self.old.writer }
    {
        self.incoming.reply(alloc, limit)
    }

    /// Writes a request for a text, which may be longer than an argument, and reads the reply.
    pub fn ask_text(
        &mut self,
        alloc: Global,
        request: &[u8],
        limit: ReplyLimit,
    ) -> Result<TextReply, LinkFault>
        ensures asked { AsksText (record { gave = I.gave; took = O.took })
            (record { request = request.now; limit = limit }) self.old result self.new }
        ensures held { Holds limit self.old.incoming.unread.items self.new.incoming.unread.items }
    {
        write(&mut self.writer, request)?;
        self.incoming.text_answer(alloc, limit)
    }

    /// Writes a request for a list, which may have more texts than an array has otherwise, and reads the reply.
    pub fn ask_list(
        &mut self,
        alloc: Global,
        request: &[u8],
        limit: ReplyLimit,
    ) -> Result<ListReply, LinkFault>
        ensures asked { AsksList (record { gave = I.gave; took = O.took })
            (record { request = request.now; limit = limit }) self.old result self.new }
        ensures held { Holds limit self.old.incoming.unread.items self.new.incoming.unread.items }
    {
        write(&mut self.writer, request)?;
        self.incoming.list_answer(alloc, limit)
    }
}

/// Writes the request.
fn write<O: ByteOut>(writer: &mut O, request: &[u8]) -> Result<(), LinkFault>
    ensures whole { OnOk result (O.took writer.old request.now writer.new) }
    ensures begun { OnErr result (IsBegun O.took request.now writer.old writer.new) }
{
    match write_whole(writer, request) {
        Ok(()) => Ok(()),
        Err(_) => Err(LinkFault::Silent),
    }
}
