//! What is printed of each master of a survey.
ghost use Rattle.std.specs.Prelude.{◌≡◌, ◌<◌, ◌++◌, ℕ, List, IfOk, OnOk, length, vec_len};
ghost use Rattle.survey_details.specs.Asking.{telling_of};
ghost use Rattle.survey_details.specs.Masters.{AreMasterTexts, IsKeysText, IsMasterText, IsReplicasText, slots_text};

use crate::details::Details;
use byte_streams::{ByteIn, ByteOut};
use byte_texts::Memory;
use cluster_views::{ServerSurvey, SurveyFault};
use key_slots::NodeId;
use server_commands::ServerBook;
use server_infos::figures_at;
use server_links::Link;
use server_replicas::replicas_at;
use std::alloc::{AllocError, Global};
use survey_texts::{
    put_keys_line, put_node_line, put_replica_lines, put_slots_line, put_untold_replicas,
};

/// The lines of each master, n0's first: its own; its slots and its number of keys, where these are wanted; and its
/// replicas. Each is asked over its own connection, for its keys by INFO and not by DBSIZE, which tells the same number
/// and would be one more right of the ACL user. One that refuses to tell its keys or its replicas is said not to tell
/// them. One that gives no answer when it is asked for its keys is at fault.
pub fn master_lines<I: ByteIn + Drop, O: ByteOut + Drop>(
    alloc: Global,
    links: &mut Vec<Link<I, O>>,
    book: &ServerBook,
    survey: &ServerSurvey,
    details: Details,
) -> Result<Vec<u8>, SurveyFault>
    requires links { vec_len links.old ≡ length book.now }
    requires rows { length survey.now.rows ≡ length book.now }
    ensures told { IfOk result (λ t. AreMasterTexts (telling_of (record { gave = I.gave; took = O.took }) book.now)
        details book.now survey.now (length book.now) t.items) }
    ensures kept { vec_len links.new ≡ vec_len links.old }
{
    let mut out = Vec::new(alloc);
    for number in 0..book.nodes() {
        let node = NodeId::of(number);
        put_master(&mut out, alloc, links, book, survey, details, node)?;
    }
    Ok(out)
}

/// Puts the lines of the master.
fn put_master<I: ByteIn + Drop, O: ByteOut + Drop>(
    out: &mut Vec<u8>,
    alloc: Global,
    links: &mut Vec<Link<I, O>>,
    book: &ServerBook,
    survey: &ServerSurvey,
    details: Details,
    node: NodeId,
) -> Result<(), SurveyFault>
    requires links { vec_len links.old ≡ length book.now }
    requires rows { length survey.now.rows ≡ length book.now }
    requires node { node < length book.now }
    ensures told { OnOk result ((t : List ℕ) × (out.new.items ≡ out.old.items ++ t) × IsMasterText
        (telling_of (record { gave = I.gave; took = O.took }) book.now) details book.now survey.now node t) }
    ensures kept { vec_len links.new ≡ vec_len links.old }
{
    put_node_line(out, book, survey, node)?;
    put_slots(out, survey, node, details.slots)?;
    put_keys(out, alloc, links, book, node, details.keys)?;
    put_replicas(out, alloc, links, book, node)?;
    Ok(())
}

/// Puts the line of the master's slots, if it is wanted.
fn put_slots(
    out: &mut Vec<u8>,
    survey: &ServerSurvey,
    node: NodeId,
    wanted: bool,
) -> Result<(), Memory>
    requires { node < length survey.now.rows }
    ensures { OnOk result (out.new.items ≡ out.old.items ++ slots_text wanted survey.now node) }
{
    if wanted {
        put_slots_line(out, survey, node)
    } else {
        Ok(())
    }
}

/// Asks the master for its number of keys, and puts it, if it is wanted.
fn put_keys<I: ByteIn + Drop, O: ByteOut + Drop>(
    out: &mut Vec<u8>,
    alloc: Global,
    links: &mut Vec<Link<I, O>>,
    book: &ServerBook,
    node: NodeId,
    wanted: bool,
) -> Result<(), SurveyFault>
    requires links { vec_len links.old ≡ length book.now }
    requires node { node < length book.now }
    ensures told { OnOk result ((t : List ℕ) × (out.new.items ≡ out.old.items ++ t) × IsKeysText
        (telling_of (record { gave = I.gave; took = O.took }) book.now) wanted node t) }
    ensures kept { vec_len links.new ≡ vec_len links.old }
{
    if !wanted {
        return Ok(());
    }
    let figures = figures_at(alloc, links, node)?;
    put_keys_line(out, figures.keys)?;
    Ok(())
}

/// Asks the master for its replicas, and puts a line for each, or that it does not tell them.
fn put_replicas<I: ByteIn + Drop, O: ByteOut + Drop>(
    out: &mut Vec<u8>,
    alloc: Global,
    links: &mut Vec<Link<I, O>>,
    book: &ServerBook,
    node: NodeId,
) -> Result<(), Memory>
    requires links { vec_len links.old ≡ length book.now }
    requires node { node < length book.now }
    ensures told { OnOk result ((t : List ℕ) × (out.new.items ≡ out.old.items ++ t) × IsReplicasText
        (telling_of (record { gave = I.gave; took = O.took }) book.now) node t) }
    ensures kept { vec_len links.new ≡ vec_len links.old }
{
    match replicas_at(alloc, links, node, &book.server(node).name) {
        Ok(replicas) => put_replica_lines(out, replicas.as_slice()),
        Err(SurveyFault::Memory) => Err(AllocError),
        Err(_) => put_untold_replicas(out),
    }
}
