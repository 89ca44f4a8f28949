//! Rounds of requests for the keys of slots, which go to all nodes at once.
ghost use Rattle.std.specs.Prelude.{◌≡◌, ◌<◌, ◌≤◌, Err, MatchResult, Ok, length, vec_len};
ghost use Rattle.slot_key_counts.specs.Rounds.{AreAsked, AreNotAsked, IsRound, batch, talk};
ghost use Rattle.slot_key_counts.specs.Questions.{wants};
ghost use Rattle.slot_key_counts.specs.Tables.{told_in};

use crate::batches::{hear_batch, send_batch};
use crate::key_table::KeyTable;
use crate::questions::SlotQuestions;
use byte_streams::{ByteIn, ByteOut};
use cluster_views::SurveyFault;
use key_slots::NodeId;
use server_links::Link;
use std::alloc::{AllocError, Global};

/// How many rounds there are. In each, every 64th slot is asked for, from the round's number on: 256 in all, so at most
/// 256 requests are on their way to a server, and all servers work at the same time, whatever ranges they own.
const ROUNDS: u16 = 64;

/// Asks all nodes for the keys of the slots that are asked for there (CLUSTER COUNTKEYSINSLOT), in 64 rounds. In each
/// the requests go to all nodes before the first reply is read. The first server that gives no number, or no answer, is
/// at fault; after a fault replies may still be on their way, so no connection is to be used again.
pub fn ask_all<I: ByteIn + Drop, O: ByteOut + Drop>(
    alloc: Global,
    links: &mut Vec<Link<I, O>>,
    nodes: u8,
    questions: &SlotQuestions,
) -> Result<KeyTable, SurveyFault>
    requires { vec_len links.old ≡ nodes }
    ensures asked { MatchResult result
        (λ t. AreAsked (talk (record { gave = I.gave; took = O.took })) (wants questions.now) nodes links.old.items
        (told_in t) links.new.items)
        (λ e. AreNotAsked (talk (record { gave = I.gave; took = O.took })) (wants questions.now) nodes links.old.items
        e links.new.items) }
    ensures count { vec_len links.new ≡ vec_len links.old }
{
    let mut table = KeyTable::new(alloc, usize::from(nodes))?;
    for round in 0..ROUNDS {
        match ask_round(alloc, links, questions, round, nodes, &mut table) {
            Ok(()) => {}
            Err(fault) => return Err(fault),
        }
    }
    Ok(table)
}

/// Sends the requests of the round to so many nodes, from the last one on, and then reads their replies.
fn ask_round<I: ByteIn + Drop, O: ByteOut + Drop>(
    alloc: Global,
    links: &mut Vec<Link<I, O>>,
    questions: &SlotQuestions,
    round: u16,
    nodes: u8,
    table: &mut KeyTable,
) -> Result<(), SurveyFault>
    requires round { round < 64 }
    requires nodes { nodes ≤ vec_len links.old }
    requires table { table.old.nodes ≡ vec_len links.old }
    ensures asked { MatchResult result
        (λ _. IsRound (talk (record { gave = I.gave; took = O.took })) (λ n. batch (wants questions.now n) round 256)
        nodes (told_in table.old) links.old.items (Ok (told_in table.new)) links.new.items)
        (λ e. IsRound (talk (record { gave = I.gave; took = O.took })) (λ n. batch (wants questions.now n) round 256)
        nodes (told_in table.old) links.old.items (Err e) links.new.items) }
    ensures table { table.new.nodes ≡ table.old.nodes }
    ensures count { vec_len links.new ≡ vec_len links.old }
{
    if nodes == 0 {
        return Ok(());
    }
    let node = NodeId::of(nodes - 1);
    let slots = match questions.batch(alloc, node, round) {
        Ok(slots) => slots,
        Err(AllocError) => return Err(SurveyFault::Memory),
    };
    match send_batch(alloc, links, node, slots.as_slice()) {
        Ok(()) => {}
        Err(fault) => return Err(fault),
    }
    match ask_round(alloc, links, questions, round, nodes - 1, table) {
        Ok(()) => {}
        Err(fault) => return Err(fault),
    }
    match hear_batch(alloc, links, node, slots.as_slice(), table) {
        Ok(()) => Ok(()),
        Err(fault) => Err(fault),
    }
}
