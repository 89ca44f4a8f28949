ghost use Rattle.std.specs.Prelude.{◌≡◌, ◌<◌, ◌≤◌, IfOk, length, map, pos};
ghost use Rattle.slot_keyspace.specs.Listing.{keys_of};
ghost use Rattle.cluster_node.specs.Nodes.{look_reply, table_of};
ghost use Rattle.cluster_node.specs.Redirections.{id_of, range_tree};
ghost use Rattle.cluster_node.specs.Entries.{owner_tree};
ghost use Rattle.resp2_wire.specs.Tree.{array, none, more};
ghost use Rattle.resp2_wire.specs.View.{tree};
ghost use Rattle.resp2_wire.specs.declared.reply.Reply.TheVariants as reply;

use crate::node::Node;
use byte_texts::{Text, hex_digit};
use key_slots::{NodeId, OwnerTable, Slot, SlotRange};
use resp2_wire::{Reply, ReplyList};
use slot_marks::SlotTable;
use std::alloc::{AllocError, Global};

impl Node {
    /// The owners of all slots, as this node sees them.
    pub fn owners(&self) -> &OwnerTable
        ensures { result.now ≡ record { nodes = self.now.nodes; owners = self.now.node.owners } }
    {
        self.table.owners()
    }

    /// The owners and the marks of all slots, as this node has them.
    pub fn table(&self) -> &SlotTable
        ensures { result.now ≡ table_of self.now.me self.now.nodes self.now.node }
    {
        &self.table
    }

    /// How many keys of the slot the node holds. Takes no memory.
    pub fn count_in(&self, slot: Slot) -> usize
        ensures { result ≡ length (keys_of self.now.node.held slot) }
    {
        self.held.count_in(slot)
    }

    /// NodeExact: CLUSTER SLOTS: the longest ranges of slots with one owner in this node's table, ascending, each with
    /// its owner's address and id.
    #[tactic(auto, unfolding(crate::specs::Redirections::slots_reply))]
    pub fn look(&self) -> Result<Reply, AllocError>
        ensures { IfOk result (λ r. r ≡ look_reply self.now.base_port self.now.node) }
    {
        let ranges = self.table.owner_ranges()?;
        let entries = entries_of(self.alloc, self.base_port, ranges.as_slice())?;
        Ok(Reply::Array(ReplyList::from_vec(entries)))
    }
}

fn entries_of(alloc: Global, base_port: u16, ranges: &[SlotRange]) -> Result<Vec<Reply>, AllocError>
    requires { base_port ≤ 65528 }
    ensures { IfOk result (λ v. map tree v.items ≡ map (range_tree base_port) ranges.now) }
{
    let mut entries = Vec::with_capacity(alloc, ranges.len())?;
    for range in ranges {
        entries.push(entry_of(alloc, base_port, *range)?)?;
    }
    Ok(entries)
}

/// The first slot, the last one, and the owner.
fn entry_of(alloc: Global, base_port: u16, range: SlotRange) -> Result<Reply, AllocError>
    requires { base_port ≤ 65528 }
    ensures { IfOk result (λ r. tree r ≡ range_tree base_port range) }
{
    let owner = owner_of(alloc, base_port, range.owner)?;
    three(
        alloc,
        number(u32::from(range.first.get())),
        number(u32::from(range.last.get())),
        owner,
    )
}

/// The address and the id of a node.
fn owner_of(alloc: Global, base_port: u16, node: NodeId) -> Result<Reply, AllocError>
    requires { base_port ≤ 65528 }
    ensures { IfOk result (λ r. tree r ≡ owner_tree base_port node) }
{
    let ip = Text::from_slice(alloc, b"127.0.0.1")?;
    let port = number(u32::from(base_port) + u32::from(node.get()));
    let id = id_text(alloc, node)?;
    three(alloc, Reply::Bulk(ip), port, Reply::Bulk(id))
}

/// The node's number as 40 hexadecimal digits.
pub fn id_text(alloc: Global, node: NodeId) -> Result<Text, AllocError>
    ensures { IfOk result (λ t. t ≡ id_of node) }
{
    let mut digits = [b'0'; 40];
    digits[38] = hex_digit(node.get() / 16);
    digits[39] = hex_digit(node.get() % 16);
    Text::from_slice(alloc, &digits)
}

fn number(value: u32) -> Reply
    ensures { result ≡ reply.Number (pos value) }
{
    Reply::Number(i64::from(value))
}

fn three(alloc: Global, first: Reply, second: Reply, third: Reply) -> Result<Reply, AllocError>
    ensures { IfOk result (λ r. tree r ≡ array (more (tree first) (more (tree second) (more (tree third) none)))) }
{
    let mut replies = Vec::with_capacity(alloc, 3)?;
    replies.push(first)?;
    replies.push(second)?;
    replies.push(third)?;
    Ok(Reply::Array(ReplyList::from_vec(replies)))
}
