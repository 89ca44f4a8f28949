//! How many slots a command moves.
ghost use Rattle.std.specs.Prelude.{◌≡◌, ◌≤◌, cond, max};
ghost use Rattle.cluster_cli.specs.SlotCounts.{owned_by, slots_asked};
ghost use Rattle.command_words.specs.SlotCounts.{IsSlotCount};

use crate::drained_nodes::is_one;
use command_words::SlotCount;
use key_slots::{NodeId, OwnerTable, SLOTS, Slot};

/// So many as the words say, or all that the nodes own; but 1 where they own none, which the planner refuses as more
/// than they hold.
pub(crate) fn slots_asked(count: SlotCount, owners: &OwnerTable, nodes: &[NodeId]) -> u16
    requires { IsSlotCount count }
    ensures count { result ≡ slots_asked count nodes.now owners.now.owners }
    ensures few { result ≤ 16384 }
{
    match count {
        SlotCount::Exactly(number) => number,
        SlotCount::AllOwned => at_least_one(owned_by(owners, nodes)),
    }
}

fn at_least_one(number: u16) -> u16
    ensures { result ≡ max 1 number }
{
    if number == 0 { 1 } else { number }
}

/// How many slots have one of the nodes as their owner.
pub(crate) fn owned_by(owners: &OwnerTable, nodes: &[NodeId]) -> u16
    ensures owned { result ≡ owned_by nodes.now owners.now.owners }
    ensures few { result ≤ 16384 }
{
    let _nodes = owners.nodes();
    let mut count = 0;
    for number in 0..SLOTS as u16 {
        count += one_if(is_one(nodes, owners.owner(Slot::of(number))));
    }
    count
}

fn one_if(test: bool) -> u16
    ensures value { result ≡ cond test 1 0 }
    ensures most { result ≤ 1 }
{
    if test { 1 } else { 0 }
}
