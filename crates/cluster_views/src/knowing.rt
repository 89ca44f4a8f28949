//! What a server says of itself and of the other masters.
ghost use Rattle.std.specs.Prelude.{◌≡◌, ◌<◌, ◌&&◌, IfOk, IfSome, List, None, Some, if◌then◌else◌, is_none, length};
ghost use Rattle.std.specs.Option.{option_copied};
ghost use Rattle.byte_texts.specs.Words.{is};
ghost use Rattle.listed_nodes.specs.declared.node_line.NodeLine.{NodeLine as Line};
ghost use Rattle.cluster_views.specs.Naming.{AreToldIn};
ghost use Rattle.cluster_views.specs.Numbers.{first_given, numbers_to};
ghost use Rattle.cluster_views.specs.Views.{has_address, known_fault, line_about, master_fault, number_of, own_fault};
ghost use Rattle.cluster_views.specs.Views.{own_line, unaware_fault};
ghost use Rattle.cluster_views.specs.declared.fault.SurveyFault.TheVariants.{Unaware};

use crate::fault::SurveyFault;
use crate::gone::is_gone;
use crate::named_book::NamedBook;
use crate::told_epochs::{epoch_told, epochs_in};
use byte_texts::{Memory, is};
use key_slots::NodeId;
use listed_nodes::NodeLine;
use server_commands::Server;
use std::alloc::Global;

/// The place of the first server with this ID.
pub fn place_of_name(servers: &[Server], name: &[u8]) -> Option<usize>
    ensures value { result ≡ number_of servers.now name.now }
    ensures within { IfSome result (λ m. m < length servers.now) }
{
    servers
        .iter()
        .position(|server| is(server.name.get(), name))
}

/// The first line of the server that answers.
pub(crate) fn own_line(lines: &[NodeLine]) -> Option<&NodeLine>
    ensures { option_copied result ≡ own_line lines.now }
{
    for line in lines {
        if line.is_myself {
            return Some(line);
        }
    }
    None
}

fn has_address(server: &Server, line: &NodeLine) -> bool
    ensures { result ≡ has_address server.now line.now }
{
    is(server.host.get(), line.host.get()) && server.port == line.port
}

/// What is wrong with the line of the server that answers.
pub(crate) fn own_fault(node: NodeId, server: &Server, lines: &[NodeLine]) -> Option<SurveyFault>
    ensures { result ≡ own_fault node server.now (own_line lines.now) }
{
    match own_line(lines) {
        None => Some(SurveyFault::Nameless(node)),
        Some(line) => self_fault(node, server, line),
    }
}

fn self_fault(node: NodeId, server: &Server, line: &NodeLine) -> Option<SurveyFault>
    ensures { result ≡ own_fault node server.now (Some line.now) }
{
    if !is(server.name.get(), line.name.get()) {
        return Some(SurveyFault::OtherNode(node));
    }
    if !line.is_master {
        return Some(SurveyFault::Replica(node));
    }
    if !has_address(server, line) {
        return Some(SurveyFault::OtherAddress(node));
    }
    None
}

/// What is wrong with a line, if it is a master's.
fn master_fault(book: &NamedBook, node: NodeId, line: &NodeLine) -> Option<SurveyFault>
    ensures { result ≡ master_fault book.now node line.now }
{
    if !line.is_master {
        return None;
    }
    known_fault(node, line, book.number_of(line.name.get()))
}

/// What is wrong with the line of a master that is the node of this number, if it is one. One that is gone is passed
/// over if it is none.
fn known_fault(at: NodeId, line: &NodeLine, master: Option<NodeId>) -> Option<SurveyFault>
    ensures { result ≡ known_fault at line.now master }
{
    match master {
        None if is_gone(line) => None,
        None => Some(SurveyFault::UnknownMaster(at)),
        Some(node) if line.is_failing => Some(SurveyFault::Failing { at, node }),
        Some(node) if !line.is_linked => Some(SurveyFault::Unlinked { at, node }),
        Some(_) => None,
    }
}

/// What is wrong with the first such line of a master.
pub(crate) fn masters_fault(
    book: &NamedBook,
    node: NodeId,
    lines: &[NodeLine],
) -> Option<SurveyFault>
    ensures { result ≡ first_given (master_fault book.now node) lines.now }
{
    for line in lines {
        let fault = master_fault(book, node, line);
        if fault.is_some() {
            return fault;
        }
    }
    None
}

/// The first line of the server as a master.
pub(crate) fn line_about<'a>(server: &Server, lines: &'a [NodeLine]) -> Option<&'a NodeLine>
    ensures { option_copied result ≡ line_about server.now lines.entry.now }
{
    for line in lines {
        if is_about(server, line) {
            return Some(line);
        }
    }
    None
}

fn is_about(server: &Server, line: &NodeLine) -> bool
    ensures { result ≡ (line.now.is_master && is line.now.name server.now.name) }
{
    line.is_master && is(server.name.get(), line.name.get())
}

/// The first of the servers that this one does not know as a master.
pub(crate) fn unaware_fault(
    alloc: Global,
    book: &NamedBook,
    at: NodeId,
    lines: &[NodeLine],
) -> Result<Option<SurveyFault>, Memory>
    ensures { IfOk result
        (λ o. o ≡ first_given (unaware_fault book.now at lines.now) (numbers_to (length book.now))) }
{
    let row = epochs_in(alloc, book, lines)?;
    Ok(first_unaware(book, at, row.as_slice()))
}

/// The first of the servers of which nothing is told.
fn first_unaware(book: &NamedBook, at: NodeId, row: &[Option<u64>]) -> Option<SurveyFault>
    requires { length row.now ≡ length book.now }
    ensures { (ls : List Line) → AreToldIn book.now ls row.now
        → result ≡ first_given (unaware_fault book.now at ls) (numbers_to (length book.now)) }
{
    for number in 0..book.nodes() {
        let node = NodeId::of(number);
        let fault = unaware_of(at, node, epoch_told(book, row, node));
        if fault.is_some() {
            return fault;
        }
    }
    None
}

/// What is wrong where nothing is told of the node.
fn unaware_of(at: NodeId, node: NodeId, epoch: Option<u64>) -> Option<SurveyFault>
    ensures { result ≡ (if is_none epoch then Some (Unaware at node) else None) }
{
    if epoch.is_none() {
        Some(SurveyFault::Unaware { at, node })
    } else {
        None
    }
}
