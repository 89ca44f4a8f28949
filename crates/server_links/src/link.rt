ghost use Rattle.std.specs.Prelude.{◌≡◌, [], None, Some, IfOk};
ghost use Rattle.server_links.specs.Faults.{port_fault};
ghost use Rattle.server_links.specs.Limits.{Holds, IsWithin};
ghost use Rattle.server_links.specs.Links.{Exchanges, ExchangesList, ExchangesText, Receives, Sends};
ghost use Rattle.server_links.specs.LongLists.{IsListWithin};
ghost use Rattle.server_links.specs.LongTexts.{IsTextWithin};
ghost use Rattle.server_links.specs.Series.{ReceivesNext};

use crate::link_fault::LinkFault;
use crate::list_reply::ListReply;
use crate::reply_limit::ReplyLimit;
use crate::text_reply::TextReply;
use crate::wire::Wire;
use byte_streams::{ByteIn, ByteOut};
use cluster_admin::PortFault;
use resp2_wire::Reply;
use std::alloc::{AllocError, Global};

/// A connection to a server, which is gone for good after its first fault: what comes over it later would be no answer
/// to a later request.
#[derive(Drop)]
pub struct Link<I: Drop, O: Drop> {
    wire: Wire<I, O>,
    fault: Option<LinkFault>,
}

impl<I: ByteIn + Drop, O: ByteOut + Drop> Link<I, O> {
    /// Nothing was sent yet, and nothing has come.
    pub fn new(alloc: Global, reader: I, writer: O) -> Result<Self, AllocError>
        ensures writer { IfOk result (λ l. l.wire.writer ≡ writer) }
        ensures reader { IfOk result (λ l. l.wire.incoming.reader ≡ reader) }
        ensures blank { IfOk result (λ l. l.wire.incoming.unread.items ≡ []) }
        ensures there { IfOk result (λ l. l.fault ≡ None) }
    {
        let wire = Wire::new(alloc, reader, writer)?;
        Ok(Self { wire, fault: None })
    }

    /// Where the replies come from.
    pub fn reader(&self) -> &I
        ensures { result.now ≡ self.now.wire.incoming.reader }
    {
        self.wire.reader()
    }

    /// Where the requests go.
    pub fn writer(&self) -> &O
        ensures { result.now ≡ self.now.wire.writer }
    {
        self.wire.writer()
    }

    /// Why the connection is gone, if it is.
    pub fn fault(&self) -> Option<LinkFault>
        ensures { result ≡ self.now.fault }
    {
        self.fault
    }

    /// Writes the request, and reads its reply, which may be no longer than the limit, and after which nothing may
    /// stand. A connection that is gone answers Wire. Io says that the writer or the reader failed, or came to its end
    /// or to the time that it may wait.
    pub fn ask(
        &mut self,
        alloc: Global,
        request: &[u8],
        limit: ReplyLimit,
    ) -> Result<Reply, PortFault>
        ensures exchanged { Exchanges (record { gave = I.gave; took = O.took }) request.now self.old result self.new }
        ensures within { IfOk result (IsWithin limit) }
        ensures held { Holds limit self.old.wire.incoming.unread.items self.new.wire.incoming.unread.items }
    {
        match self.send(request) {
            Ok(()) => self.receive(alloc, limit),
            Err(fault) => Err(fault),
        }
    }

    /// Writes the request, and leaves its reply to be read. With `receive` right after it that is what `ask` does:
    /// between them other connections may be written to. A connection that is gone answers Wire.
    pub fn send(&mut self, request: &[u8]) -> Result<(), PortFault>
        ensures sent { Sends (record { gave = I.gave; took = O.took }) request.now self.old result self.new }
        ensures incoming { self.new.wire.incoming ≡ self.old.wire.incoming }
    {
        if self.fault.is_some() {
            return Err(PortFault::Wire);
        }
        match self.wire.send(request) {
            Ok(()) => Ok(()),
            Err(fault) => Err(self.break_by(fault)),
        }
    }

    /// Reads the reply to the request that was sent, which may be no longer than the limit, and after which nothing may
    /// stand. A connection that is gone answers Wire.
    pub fn receive(&mut self, alloc: Global, limit: ReplyLimit) -> Result<Reply, PortFault>
        ensures received { Receives (record { gave = I.gave; took = O.took }) self.old result self.new }
        ensures within { IfOk result (IsWithin limit) }
        ensures held { Holds limit self.old.wire.incoming.unread.items self.new.wire.incoming.unread.items }
    {
        if self.fault.is_some() {
            return Err(PortFault::Wire);
        }
        match self.wire.receive(alloc, limit) {
            Ok(reply) => Ok(reply),
            Err(fault) => Err(self.break_by(fault)),
        }
    }

    /// Reads the next reply where several requests were sent before the first reply is read. What has come after it is
    /// left to be read; the last of them is read by `receive`, after which nothing may stand. A connection that is gone
    /// answers Wire.
    pub fn receive_next(&mut self, alloc: Global, limit: ReplyLimit) -> Result<Reply, PortFault>
        ensures received { ReceivesNext (record { gave = I.gave; took = O.took }) self.old result self.new }
        ensures within { IfOk result (IsWithin limit) }
        ensures held { Holds limit self.old.wire.incoming.unread.items self.new.wire.incoming.unread.items }
    {
        if self.fault.is_some() {
            return Err(PortFault::Wire);
        }
        match self.wire.receive_next(alloc, limit) {
            Ok(reply) => Ok(reply),
            Err(fault) => Err(self.break_by(fault)),
        }
    }

    /// Works like `ask` for a request for a text, which may be longer than an argument.
    pub fn ask_text(
        &mut self,
        alloc: Global,
        request: &[u8],
        limit: ReplyLimit,
    ) -> Result<TextReply, PortFault>
        ensures exchanged { ExchangesText (record { gave = I.gave; took = O.took }) request.now self.old result
            self.new }
        ensures within { IfOk result (IsTextWithin limit) }
        ensures held { Holds limit self.old.wire.incoming.unread.items self.new.wire.incoming.unread.items }
    {
        if self.fault.is_some() {
            return Err(PortFault::Wire);
        }
        match self.wire.ask_text(alloc, request, limit) {
            Ok(reply) => Ok(reply),
            Err(fault) => Err(self.break_by(fault)),
        }
    }

    /// Works like `ask` for a request for a list, which may have more texts than an array has otherwise.
    pub fn ask_list(
        &mut self,
        alloc: Global,
        request: &[u8],
        limit: ReplyLimit,
    ) -> Result<ListReply, PortFault>
        ensures exchanged { ExchangesList (record { gave = I.gave; took = O.took }) request.now self.old result
            self.new }
        ensures within { IfOk result (IsListWithin limit) }
        ensures held { Holds limit self.old.wire.incoming.unread.items self.new.wire.incoming.unread.items }
    {
        if self.fault.is_some() {
            return Err(PortFault::Wire);
        }
        match self.wire.ask_list(alloc, request, limit) {
            Ok(reply) => Ok(reply),
            Err(fault) => Err(self.break_by(fault)),
        }
    }

    /// The connection is gone from here on.
    fn break_by(&mut self, fault: LinkFault) -> PortFault
        ensures fault { self.new.fault ≡ Some fault }
        ensures wire { self.new.wire ≡ self.old.wire }
        ensures told { result ≡ port_fault fault }
    {
        self.fault = Some(fault);
        fault.port_fault()
    }
}
