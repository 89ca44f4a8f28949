//! What stands between the port and one node.
ghost use Rattle.std.specs.Prelude.{◌≡◌, ◌≢◌, IfErr, IfOk};
ghost use Rattle.server_links.specs.Exchanges.{Asks};
ghost use Rattle.node_sockets.specs.Lines.{Calls, Has, IsNotThere};

use crate::dialing::Dial;
use byte_streams::{ByteIn, ByteOut, Failed};
use cluster_admin::PortFault;
use resp2_wire::Reply;
use server_links::Wire;
use std::alloc::Global;
use std::mem;

/// The connection to a node.
#[derive(Drop)]
pub(crate) enum Line<C: Drop> {
    /// It is opened at the first send.
    Unopened,
    Open(C),
    /// It is gone by a fault, and is not opened again.
    Gone,
}

impl<I: ByteIn + Drop, O: ByteOut + Drop> Line<Wire<I, O>> {
    /// Sends the request to the node at this port, and reads the reply. The connection is gone after a fault, unless
    /// there was no memory for the connection itself.
    pub(crate) fn ask<D: Dial<Input = I, Output = O>>(
        &mut self,
        dialer: &D,
        alloc: Global,
        port: u16,
        asking: bool,
        request: &[u8],
    ) -> Result<Reply, PortFault>
        ensures { Calls (λ w. D.opens dialer.now port w.writer)
            (Asks (record { gave = I.gave; took = O.took }) asking request.now) self.old result self.new }
    {
        let mut wire = self.take_open(dialer, alloc, port)?;
        match wire.ask(alloc, asking, request) {
            Ok(reply) => {
                *self = Line::Open(wire);
                Ok(reply)
            }
            Err(fault) => Err(fault),
        }
    }

    /// Takes the connection out, which is opened first, if it was not open yet. The line is gone until it is put back.
    fn take_open<D: Dial<Input = I, Output = O>>(
        &mut self,
        dialer: &D,
        alloc: Global,
        port: u16,
    ) -> Result<Wire<I, O>, PortFault>
        ensures has { IfOk result (λ w. Has (λ v. D.opens dialer.now port v.writer) self.old w
            × (self.new ≡ Line.Gone)) }
        ensures none { IfErr result (λ e. IsNotThere self.old e self.new) }
    {
        match mem::replace(self, Line::Gone) {
            Line::Unopened => self.open(dialer, alloc, port),
            Line::Open(wire) => Ok(wire),
            Line::Gone => Err(PortFault::Wire),
        }
    }

    /// Opens the connection, and takes it out. Without memory for it the line stays unopened.
    fn open<D: Dial<Input = I, Output = O>>(
        &mut self,
        dialer: &D,
        alloc: Global,
        port: u16,
    ) -> Result<Wire<I, O>, PortFault>
        requires { self.old ≡ Line.Gone }
        ensures opened { IfOk result (λ w. D.opens dialer.now port w.writer × (self.new ≡ Line.Gone)) }
        ensures none { IfErr result (λ e. IsNotThere Line.Unopened e self.new) }
    {
        let Ok((reader, writer)) = dialer.dial(port) else {
            return Err(PortFault::Io);
        };
        match Wire::new(alloc, reader, writer) {
            Ok(wire) => Ok(wire),
            Err(_) => {
                *self = Line::Unopened;
                Err(PortFault::Memory)
            }
        }
    }
}
