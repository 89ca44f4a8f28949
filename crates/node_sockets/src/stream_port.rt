//! A port over connections to nodes.
ghost use Rattle.std.specs.Prelude.{◌≡◌, ◌≢◌, ◌<◌, ◌≤◌, ◌++◌, Err, IfOk, length, vec_len};
ghost use Rattle.cluster_admin.specs.declared.port_fault.PortFault.TheVariants.{Io};
ghost use Rattle.server_links.specs.Exchanges.{Asks};
ghost use Rattle.node_sockets.specs.Lines.{CallsNode};
ghost use Rattle.node_sockets.specs.Requests.{asking_text, request_text};

use crate::dialing::Dial;
use crate::line::Line;
use byte_texts::Memory;
use cluster_admin::{NodeCount, PortFault};
use cluster_world::NodePort;
use key_slots::NodeId;
use resp2_wire::{Reply, encode_request};
use server_links::Wire;
use std::alloc::{AllocError, Global};
use store_commands::Command;

/// What goes before a command that is sent with ASKING.
const ASKING: &[u8] = b"*1\r\n$6\r\nASKING\r\n";

/// The request of CLUSTER SLOTS.
const LOOK: &[u8] = b"*2\r\n$7\r\nCLUSTER\r\n$5\r\nSLOTS\r\n";

/// A cluster's nodes, as clients call them over connections: one for each node, which is opened at its first send.
///
/// A connection that is gone by a fault is never opened again, and a later call to its node answers Wire. ASKING and
/// its command go out in one piece. Contracts see what each call writes to the connection of its node and to no other,
/// and that its reply is what is read there.
#[derive(Drop)]
pub struct StreamPort<D: Dial + Drop> {
    dialer: D,
    alloc: Global,
    base_port: u16,
    lines: Vec<Line<Wire<D::Input, D::Output>>>,
    failures: u64,
    ghost some: { 1 ≤ vec_len lines },
    ghost few: { vec_len lines ≤ 8 },
    ghost low: { base_port ≤ 65528 },
}

impl<D: Dial + Drop> StreamPort<D> {
    /// A port to so many nodes, each of which has the port that is higher than `base_port` by its number. Nothing is
    /// opened yet. There are 1 to 8 nodes, and the first port is at most 65,528.
    pub fn over(dialer: D, alloc: Global, nodes: u8, base_port: u16) -> Result<Self, Memory>
        requires some { 1 ≤ nodes }
        requires few { nodes ≤ 8 }
        requires port { base_port ≤ 65528 }
        ensures { IfOk result (λ p. vec_len p.lines ≡ nodes) }
    {
        let lines = lines_of(alloc, nodes)?;
        Ok(Self {
            dialer,
            alloc,
            base_port,
            lines,
            failures: 0,
        })
    }

    /// Sends the request to the node, and counts a failure of its connection.
    fn ask(&mut self, node: NodeId, asking: bool, request: &[u8]) -> Result<Reply, PortFault>
        requires { node < vec_len self.old.lines }
        ensures asked { CallsNode (record {
          opens = λ port w. D.opens self.old.dialer port w.writer;
          asks = Asks (record { gave = D.Input.gave; took = D.Output.took });
          base_port = self.old.base_port;
          before = self.old.lines.items;
          after = self.new.lines.items;
        }) asking request.now node result }
        ensures failed { result ≡ Err Io → self.new.failures ≢ self.old.failures }
        ensures count { vec_len self.new.lines ≡ vec_len self.old.lines }
        ensures dialer { self.new.dialer ≡ self.old.dialer }
        ensures port { self.new.base_port ≡ self.old.base_port }
    {
        let answer = self.call_line(node, asking, request);
        if matches!(answer, Err(PortFault::Io)) {
            self.failures = self.failures.wrapping_add(1);
        }
        answer
    }

    /// Sends the request over the line of the node.
    fn call_line(&mut self, node: NodeId, asking: bool, request: &[u8]) -> Result<Reply, PortFault>
        requires { node < vec_len self.old.lines }
        ensures asked { CallsNode (record {
          opens = λ port w. D.opens self.old.dialer port w.writer;
          asks = Asks (record { gave = D.Input.gave; took = D.Output.took });
          base_port = self.old.base_port;
          before = self.old.lines.items;
          after = self.new.lines.items;
        }) asking request.now node result }
        ensures count { vec_len self.new.lines ≡ vec_len self.old.lines }
        ensures dialer { self.new.dialer ≡ self.old.dialer }
        ensures port { self.new.base_port ≡ self.old.base_port }
        ensures failures { self.new.failures ≡ self.old.failures }
    {
        let port = self.base_port + u16::from(node.get());
        let line = &mut self.lines[usize::from(node.get())];
        line.ask(&self.dialer, self.alloc, port, asking, request)
    }
}

impl<D: Dial + Drop> NodeCount for StreamPort<D> {
    ghost count = { λ p. vec_len p.lines };

    fn nodes(&self) -> u8 {
        self.lines.len() as u8
    }
}

impl<D: Dial + Drop> NodePort for StreamPort<D> {
    ghost use Rattle.std.specs.Prelude.{◌≡◌};
    ghost use Rattle.node_sockets.specs.Lines.{IsSent};

    ghost sends = { λ p s q. IsSent (record {
      opens = λ port w. D.opens p.dialer port w.writer;
      asks = Asks (record { gave = D.Input.gave; took = D.Output.took });
      base_port = p.base_port;
      before = p.lines.items;
      after = q.lines.items;
    }) s × (q.dialer ≡ p.dialer) × (q.base_port ≡ p.base_port) };

    ghost failures = { λ p. p.failures };

    fn send(&mut self, node: NodeId, asking: bool, command: &Command) -> Result<Reply, PortFault> {
        let request = request_of(self.alloc, asking, command)?;
        self.ask(node, asking, request.as_slice())
    }

    fn look(&mut self, node: NodeId) -> Result<Reply, PortFault> {
        self.ask(node, false, LOOK)
    }
}

/// So many connections that are not open.
fn lines_of<C: Drop>(alloc: Global, nodes: u8) -> Result<Vec<Line<C>>, AllocError>
    ensures { IfOk result (λ v. vec_len v ≡ nodes) }
{
    let mut lines = Vec::new(alloc);
    for count in 0..nodes {
        lines.push(Line::Unopened)?;
    }
    Ok(lines)
}

/// The bytes of the command, after ASKING or without.
fn request_of(alloc: Global, asking: bool, command: &Command) -> Result<Vec<u8>, AllocError>
    ensures { IfOk result (λ v. v.items ≡ request_text asking command.now) }
{
    let words = command.words(alloc)?;
    let request = encode_request(alloc, words.get())?;
    if asking {
        after_asking(alloc, request.as_slice())
    } else {
        Ok(request)
    }
}

fn after_asking(alloc: Global, request: &[u8]) -> Result<Vec<u8>, AllocError>
    ensures { IfOk result (λ v. v.items ≡ asking_text ++ request.now) }
{
    let mut both = Vec::from_slice(alloc, ASKING)?;
    both.extend_from_slice(request)?;
    Ok(both)
}
