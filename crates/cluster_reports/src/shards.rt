ghost use Rattle.std.specs.Prelude.{◌≡◌, [], ◌∷◌, ◌++◌, ◌≤◌, IfOk, OnOk, map, length, pos};
ghost use Rattle.std.specs.List.{flat_map};
ghost use Rattle.byte_texts.specs.declared.text.TheConstants.{MAX_BYTES};
ghost use Rattle.resp2_wire.specs.Tree.{array, bulk, number, trees_of};
ghost use Rattle.resp2_wire.specs.View.{tree};
ghost use Rattle.cluster_reports.specs.Numbered.{below};
ghost use Rattle.cluster_reports.specs.Shards.{address_facts, bounds_of, fact, node_tree, role_facts, shard_list};
ghost use Rattle.cluster_reports.specs.Shards.{shard_tree, shards_reply};

use byte_texts::{Memory, Text};
use cluster_node::id_text;
use key_slots::{NodeId, Slot, SlotRange};
use resp2_wire::{Reply, ReplyList};
use slot_marks::SlotTable;
use std::alloc::Global;

/// CLUSTER SHARDS as the node of this table answers: an entry for each node, from n0 on, with the bounds of its ranges
/// of slots. A map is an array of names and values in turn, as RESP2 spells it.
pub fn shards_reply(alloc: Global, base_port: u16, table: &SlotTable) -> Result<Reply, Memory>
    requires { base_port ≤ 65528 }
    ensures { IfOk result (λ r. r ≡ shards_reply base_port table.now) }
{
    let shards = shards_of(alloc, base_port, table)?;
    Ok(Reply::Array(ReplyList::from_vec(shards)))
}

fn shards_of(alloc: Global, base_port: u16, table: &SlotTable) -> Result<Vec<Reply>, Memory>
    requires { base_port ≤ 65528 }
    ensures { IfOk result (λ v. map tree v.items ≡ below (shard_list base_port table.now.owners) table.now.nodes) }
{
    let ranges = table.owner_ranges()?;
    let mut shards = Vec::new(alloc);
    for number in 0..table.nodes() {
        let shard = shard_of(alloc, base_port, ranges.as_slice(), NodeId::of(number))?;
        shards.push(shard)?;
    }
    Ok(shards)
}

/// The node's ranges, and the node: it is the only one of its shard.
fn shard_of(
    alloc: Global,
    base_port: u16,
    ranges: &[SlotRange],
    node: NodeId,
) -> Result<Reply, Memory>
    requires { base_port ≤ 65528 }
    ensures { IfOk result (λ r. tree r ≡ shard_tree base_port ranges.now node) }
{
    let bounds = bounds_of(alloc, ranges, node)?;
    let nodes = nodes_of(alloc, u32::from(base_port) + u32::from(node.get()), node)?;
    let mut facts = Vec::new(alloc);
    put_fact(&mut facts, b"slots", bounds)?;
    put_fact(&mut facts, b"nodes", nodes)?;
    Ok(list(facts))
}

/// The first slot and the last one of each range of the node.
fn bounds_of(alloc: Global, ranges: &[SlotRange], node: NodeId) -> Result<Reply, Memory>
    ensures { IfOk result (λ r. tree r ≡ array (trees_of (flat_map (bounds_of node) ranges.now))) }
{
    let mut bounds = Vec::new(alloc);
    for range in ranges {
        put_bounds_of(&mut bounds, *range, node)?;
    }
    Ok(list(bounds))
}

/// Puts the bounds of the range if it is the node's.
fn put_bounds_of(out: &mut Vec<Reply>, range: SlotRange, node: NodeId) -> Result<(), Memory>
    ensures { OnOk result (map tree out.new.items ≡ map tree out.old.items ++ bounds_of node range) }
{
    if range.owner == node {
        put_slot(out, range.first)?;
        put_slot(out, range.last)
    } else {
        Ok(())
    }
}

fn nodes_of(alloc: Global, port: u32, node: NodeId) -> Result<Reply, Memory>
    ensures { IfOk result (λ r. tree r ≡ array (trees_of (node_tree port node ∷ []))) }
{
    let node = node_of(alloc, port, node)?;
    let mut nodes = Vec::new(alloc);
    nodes.push(node)?;
    Ok(list(nodes))
}

/// What is told of a node.
fn node_of(alloc: Global, port: u32, node: NodeId) -> Result<Reply, Memory>
    ensures { IfOk result (λ r. tree r ≡ node_tree port node) }
{
    let mut facts = Vec::new(alloc);
    put_address(&mut facts, port, node)?;
    put_role(&mut facts)?;
    Ok(list(facts))
}

fn put_address(out: &mut Vec<Reply>, port: u32, node: NodeId) -> Result<(), Memory>
    ensures { OnOk result (map tree out.new.items ≡ map tree out.old.items ++ address_facts port node) }
{
    let id = id_text(*out.allocator(), node)?;
    put_fact(out, b"id", Reply::Bulk(id))?;
    put_number(out, b"port", port)?;
    put_bulk(out, b"ip", b"127.0.0.1")?;
    put_bulk(out, b"endpoint", b"127.0.0.1")
}

fn put_role(out: &mut Vec<Reply>) -> Result<(), Memory>
    ensures { OnOk result (map tree out.new.items ≡ map tree out.old.items ++ role_facts) }
{
    put_bulk(out, b"role", b"master")?;
    put_number(out, b"replication-offset", 0)?;
    put_bulk(out, b"health", b"online")
}

fn put_bulk(out: &mut Vec<Reply>, name: &[u8], text: &[u8]) -> Result<(), Memory>
    requires name { length name.now ≤ MAX_BYTES }
    requires text { length text.now ≤ MAX_BYTES }
    ensures { OnOk result (map tree out.new.items ≡ map tree out.old.items ++ fact name.now (bulk text.now)) }
{
    let text = Text::from_slice(*out.allocator(), text)?;
    put_fact(out, name, Reply::Bulk(text))
}

fn put_number(out: &mut Vec<Reply>, name: &[u8], value: u32) -> Result<(), Memory>
    requires { length name.now ≤ MAX_BYTES }
    ensures { OnOk result (map tree out.new.items ≡ map tree out.old.items ++ fact name.now (number (pos value))) }
{
    put_fact(out, name, counted(value))
}

/// Puts the name, and the value.
#[tactic(auto, using(crate::proofs::Trees::map_appended), unfolding(crate::specs::Shards::fact))]
fn put_fact(out: &mut Vec<Reply>, name: &[u8], value: Reply) -> Result<(), Memory>
    requires { length name.now ≤ MAX_BYTES }
    ensures { OnOk result (map tree out.new.items ≡ map tree out.old.items ++ fact name.now (tree value)) }
{
    let name = Text::from_slice(*out.allocator(), name)?;
    out.push(Reply::Bulk(name))?;
    out.push(value)?;
    Ok(())
}

fn put_slot(out: &mut Vec<Reply>, slot: Slot) -> Result<(), Memory>
    ensures { OnOk result (map tree out.new.items ≡ map tree out.old.items ++ number (pos slot) ∷ []) }
{
    out.push(counted(u32::from(slot.get())))?;
    Ok(())
}

fn counted(value: u32) -> Reply
    ensures { tree result ≡ number (pos value) }
{
    Reply::Number(i64::from(value))
}

#[tactic(auto, using(crate::proofs::Trees::trees_mapped))]
fn list(replies: Vec<Reply>) -> Reply
    ensures { tree result ≡ array (trees_of (map tree replies.items)) }
{
    Reply::Array(ReplyList::from_vec(replies))
}
