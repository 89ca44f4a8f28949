//! The targets of a plan, and the failed masters that may take their slots.
ghost use Rattle.std.specs.Prelude.{◌≡◌, ◌<◌, ◌⊎◌, ◌++◌, IfErr, IfOk, MatchOption, OnOk, false, length, true, vec_len};
ghost use Rattle.byte_texts.specs.Parts.{parts};
ghost use Rattle.server_commands.specs.Servers.{server_at};
ghost use Rattle.server_links.specs.Asking.{AsksAt};
ghost use Rattle.server_shards.specs.Returning.{MayTakeBack, asks_of};
ghost use Rattle.server_shards.specs.Targets.{IsOf, IsOfNode, IsUndecided, IsUnknown, IsUnknownOfNode};
ghost use Rattle.server_shards.specs.Targets.{NoneReturns, NoneReturnsTo, Returns, StaysAway};
ghost use Rattle.server_shards.specs.Targets.{address_text, advice_text, is_named, is_own, is_told};
ghost use Rattle.server_shards.specs.Targets.{is_told_by, text_of, warning_text};

use crate::returning::may_take_back;
use byte_streams::{ByteIn, ByteOut};
use byte_texts::{Memory, Parts, is};
use cluster_views::SurveyFault;
use key_slots::NodeId;
use plan_language::{Line, PlanCommand};
use server_commands::{Server, ServerBook};
use server_links::Link;
use std::alloc::Global;
use survey_texts::{put, put_node, put_number};

/// What is said of the first target of these lines whose slots a failed master may take: that it is to start first, or
/// never to start as it was. `left_out` are the failed masters, and `dead` names those that never return: IDs with
/// commas between them. A target is a node that the lines tell that a slot is its own. A server that gives no answer is
/// at fault.
pub fn returning_text<I: ByteIn + Drop, O: ByteOut + Drop>(
    alloc: Global,
    links: &mut Vec<Link<I, O>>,
    book: &ServerBook,
    left_out: &[Server],
    dead: &[u8],
    lines: &[Line],
) -> Result<Option<Vec<u8>>, SurveyFault>
    requires { vec_len links.old ≡ length book.now }
    ensures said { IfOk result (λ o. MatchOption o
        (NoneReturns (asks_of (record { gave = I.gave; took = O.took })) book.now dead.now left_out.now lines.now)
        (λ t. Returns (asks_of (record { gave = I.gave; took = O.took })) book.now dead.now left_out.now lines.now
        t.items)) }
    ensures undecided { IfErr result
        (IsUndecided (asks_of (record { gave = I.gave; took = O.took })) book.now dead.now left_out.now lines.now) }
    ensures kept { vec_len links.new ≡ vec_len links.old }
{
    for number in 0..book.nodes() {
        let node = NodeId::of(number);
        match text_for(alloc, links, book, left_out, dead, lines, node)? {
            Some(text) => return Ok(Some(text)),
            None => {}
        }
    }
    Ok(None)
}

/// What is said of the node, if it is a target of the lines.
fn text_for<I: ByteIn + Drop, O: ByteOut + Drop>(
    alloc: Global,
    links: &mut Vec<Link<I, O>>,
    book: &ServerBook,
    left_out: &[Server],
    dead: &[u8],
    lines: &[Line],
    node: NodeId,
) -> Result<Option<Vec<u8>>, SurveyFault>
    requires links { vec_len links.old ≡ length book.now }
    requires node { node < length book.now }
    ensures said { IfOk result (λ o. MatchOption o
        ((is_told node lines.now ≡ false) ⊎ NoneReturnsTo (asks_of (record { gave = I.gave; took = O.took })) book.now
        dead.now node left_out.now)
        (λ t. (is_told node lines.now ≡ true) × IsOfNode (asks_of (record { gave = I.gave; took = O.took })) book.now
        dead.now node left_out.now t.items)) }
    ensures unknown { IfErr result (λ e. (is_told node lines.now ≡ true)
        × IsUnknownOfNode (asks_of (record { gave = I.gave; took = O.took })) book.now dead.now node left_out.now e) }
    ensures kept { vec_len links.new ≡ vec_len links.old }
{
    if !is_told(lines, node) {
        return Ok(None);
    }
    match text_at(alloc, links, book, left_out, dead, node)? {
        Some(text) => Ok(Some(text)),
        None => Ok(None),
    }
}

/// Whether one of the lines tells the node that a slot is its own.
fn is_told(lines: &[Line], node: NodeId) -> bool
    ensures { result ≡ is_told node lines.now }
{
    let mut left = lines;
    while let [line, others @ ..] = left {
        if is_told_by(line, node) {
            return true;
        }
        left = others;
    }
    false
}

/// Whether the line tells the node that a slot is its own.
fn is_told_by(line: &Line, node: NodeId) -> bool
    ensures { result ≡ is_told_by node line.now }
{
    match *line {
        Line::Move { target, .. } => target == node,
        Line::Command(command) => is_own(command, node),
    }
}

/// Whether the command tells the node that a slot is its own.
fn is_own(command: PlanCommand, node: NodeId) -> bool
    ensures { result ≡ is_own node command }
{
    match command {
        PlanCommand::SetNode { owner, at, .. } => owner == node && at == node,
        _ => false,
    }
}

/// What is said of the first of the failed masters that may take the node's slots.
fn text_at<I: ByteIn + Drop, O: ByteOut + Drop>(
    alloc: Global,
    links: &mut Vec<Link<I, O>>,
    book: &ServerBook,
    left_out: &[Server],
    dead: &[u8],
    node: NodeId,
) -> Result<Option<Vec<u8>>, SurveyFault>
    requires links { vec_len links.old ≡ length book.now }
    requires node { node < length book.now }
    ensures said { IfOk result (λ o. MatchOption o
        (NoneReturnsTo (asks_of (record { gave = I.gave; took = O.took })) book.now dead.now node left_out.now)
        (λ t. IsOfNode (asks_of (record { gave = I.gave; took = O.took })) book.now dead.now node left_out.now
        t.items)) }
    ensures unknown { IfErr result
        (IsUnknownOfNode (asks_of (record { gave = I.gave; took = O.took })) book.now dead.now node left_out.now) }
    ensures kept { vec_len links.new ≡ vec_len links.old }
{
    for place in 0..count_of(left_out) {
        let old = master_at(left_out, place);
        match text_of(alloc, links, book, old, dead, node)? {
            Some(text) => return Ok(Some(text)),
            None => {}
        }
    }
    Ok(None)
}

/// How many failed masters there are.
fn count_of(left_out: &[Server]) -> usize
    ensures { result ≡ length left_out.now }
{
    left_out.len()
}

/// The failed master at this place.
fn master_at(left_out: &[Server], place: usize) -> &Server
    requires { place < length left_out.now }
    ensures { result.now ≡ server_at left_out.now place }
{
    &left_out[place]
}

/// What is said of the failed master, if it may take the node's slots and is not named as dead.
fn text_of<I: ByteIn + Drop, O: ByteOut + Drop>(
    alloc: Global,
    links: &mut Vec<Link<I, O>>,
    book: &ServerBook,
    old: &Server,
    dead: &[u8],
    node: NodeId,
) -> Result<Option<Vec<u8>>, SurveyFault>
    requires links { vec_len links.old ≡ length book.now }
    requires node { node < length book.now }
    ensures said { IfOk result (λ o. MatchOption o
        (StaysAway (asks_of (record { gave = I.gave; took = O.took })) book.now dead.now node old.now)
        (λ t. IsOf (asks_of (record { gave = I.gave; took = O.took })) book.now dead.now node old.now t.items)) }
    ensures unknown { IfErr result
        (IsUnknown (asks_of (record { gave = I.gave; took = O.took })) book.now dead.now node old.now) }
    ensures kept { vec_len links.new ≡ vec_len links.old }
{
    if is_named(dead, old.name.get()) {
        return Ok(None);
    }
    if returns_to(alloc, links, book, old, node)? {
        Ok(Some(text(alloc, old, node)?))
    } else {
        Ok(None)
    }
}

/// Whether the failed master may take the slots of the node, which is asked over its own connection.
fn returns_to<I: ByteIn + Drop, O: ByteOut + Drop>(
    alloc: Global,
    links: &mut Vec<Link<I, O>>,
    book: &ServerBook,
    old: &Server,
    node: NodeId,
) -> Result<bool, SurveyFault>
    requires links { vec_len links.old ≡ length book.now }
    requires node { node < length book.now }
    ensures checked { AsksAt (MayTakeBack (asks_of (record { gave = I.gave; took = O.took })) node
        (server_at book.now node).name old.now.name) links.old.items node result links.new.items }
    ensures kept { vec_len links.new ≡ vec_len links.old }
{
    let own = book.server(node).name.get();
    let gone = old.name.get();
    let link = &mut links[usize::from(node.get())];
    may_take_back(alloc, link, node, own, gone)
}

/// Whether the ID is one of those with commas between them.
fn is_named(ids: &[u8], id: &[u8]) -> bool
    ensures { result ≡ is_named id.now (parts 44 ids.now) }
{
    let mut parts = Parts::of(ids, b',');
    while let Some(part) = parts.next() {
        if is(part, id) {
            return true;
        }
    }
    false
}

/// What is said of a failed master that may take the node's slots.
fn text(alloc: Global, old: &Server, node: NodeId) -> Result<Vec<u8>, Memory>
    ensures { IfOk result (λ t. t.items ≡ text_of node old.now) }
{
    let mut text = Vec::new(alloc);
    put_address(&mut text, old)?;
    put_warning(&mut text, node)?;
    put_advice(&mut text, old)?;
    Ok(text)
}

/// Puts the address of the failed master.
fn put_address(out: &mut Vec<u8>, old: &Server) -> Result<(), Memory>
    ensures { OnOk result (out.new.items ≡ out.old.items ++ address_text old.now) }
{
    put(out, old.host.get())?;
    put(out, b":")?;
    put_number(out, u32::from(old.port))
}

/// Puts what it may do to the node, and what prevents that.
fn put_warning(out: &mut Vec<u8>, node: NodeId) -> Result<(), Memory>
    ensures { OnOk result (out.new.items ≡ out.old.items ++ warning_text node) }
{
    put(out, b" failed, and takes the slots of ")?;
    put_node(out, node)?;
    put(
        out,
        b" if it returns as it was: start it first (it becomes a replica), or remove its nodes.conf, ",
    )
}

/// Puts how to continue without it.
fn put_advice(out: &mut Vec<u8>, old: &Server) -> Result<(), Memory>
    ensures { OnOk result (out.new.items ≡ out.old.items ++ advice_text old.now) }
{
    put(out, b"then continue, with --dead-for-good ")?;
    put(out, old.name.get())?;
    put(out, b" if it never returns")
}
