//! The keys of slots, asked for in rounds.
ghost use Rattle.std.specs.Prelude.{◌<◌};

use crate::script::Replies;
use crate::servers::links;
use cluster_views::SurveyFault;
use key_slots::{NodeId, Slot};
use slot_key_counts::{AskedNodes, KeyTable, SlotQuestions, ask_all};
use std::alloc::Global;
use std::test::Fail;

/// The slots of one round, 0 and 64, and one of the next: n0 owns slot 0, and n1 the others.
const OWNERS: &[(u16, u8)] = &[(0, 0), (64, 1), (1, 1)];

/// What n0 to n2 tell that answer so, if they are asked for those slots.
fn told(
    alloc: Global,
    whom: AskedNodes,
    first: Replies,
    second: Replies,
    third: Replies,
) -> Result<KeyTable, SurveyFault> {
    let mut questions = SlotQuestions::new(alloc, whom)?;
    for &(slot, owner) in OWNERS {
        questions.ask(Slot::of(slot), NodeId::of(owner));
    }
    let mut links = links(alloc, first, second, third)?;
    ask_all(alloc, &mut links, 3, &questions)
}

/// What the node told of the slot.
fn keys(table: &KeyTable, node: u8, slot: u16) -> Option<u32>
    requires node { node < 255 }
    requires slot { slot < 16384 }
{
    table.keys(NodeId::of(node), Slot::of(slot))
}

#[test]
fn owners_tell_their_keys(rt: HostRuntime) -> Result<(), Fail> {
    let alloc = rt.alloc();
    let table = told(
        alloc,
        AskedNodes::Owner,
        &[b":7\r\n"],
        &[b":5\r\n", b":3\r\n"],
        &[],
    )?;
    assert!(rt; keys(&table, 0, 0) == Some(7));
    assert!(rt; keys(&table, 1, 64) == Some(5));
    assert!(rt; keys(&table, 1, 1) == Some(3));
    assert!(rt; keys(&table, 0, 1).is_none());
    Ok(())
}

#[test]
fn others_tell_their_keys(rt: HostRuntime) -> Result<(), Fail> {
    let alloc = rt.alloc();
    let first: Replies = &[b":1\r\n", b":2\r\n"];
    let third: Replies = &[b":10\r\n:1", b"1\r\n", b":12\r\n"];
    let table = told(alloc, AskedNodes::Others, first, &[b":0\r\n"], third)?;
    assert!(rt; keys(&table, 0, 64) == Some(1));
    assert!(rt; keys(&table, 0, 1) == Some(2));
    assert!(rt; keys(&table, 1, 0) == Some(0));
    assert!(rt; keys(&table, 2, 0) == Some(10));
    assert!(rt; keys(&table, 2, 64) == Some(11));
    assert!(rt; keys(&table, 2, 1) == Some(12));
    Ok(())
}

#[test]
fn a_reply_too_many_is_a_fault(rt: HostRuntime) -> Result<(), Fail> {
    let alloc = rt.alloc();
    let second: Replies = &[b":5\r\n:3\r\n"];
    let fault = told(alloc, AskedNodes::Owner, &[b":7\r\n"], second, &[]);
    assert!(rt; fault.is_err());
    Ok(())
}
