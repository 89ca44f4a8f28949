//! What each node has before the plan and after it, and what its server tells, as JSON.
ghost use Rattle.std.specs.Prelude.{◌≡◌, ◌≤◌, ◌+◌, ◌*◌, map, option_map, IfOk, OnOk, length};
ghost use Rattle.serde_json.specs.Data.{no_members};
ghost use Rattle.serde_json.specs.View.{view, members_view};
ghost use Rattle.plan_json.specs.Sizes.{items_size, longest, names_size, size};
ghost use Rattle.plan_json.specs.Values.{is_emptied, node_change_data, server_of, with_address, with_change};
ghost use Rattle.plan_json.specs.Values.{with_figures, with_node, with_server};

use crate::members::{
    Members, push_object, put_count, put_figure, put_flag, put_node_name, put_text,
};
use byte_texts::Memory;
use key_slots::NodeId;
use plan_outlines::{NodeChange, NodeServer};
use serde_json::Value;
use std::alloc::Global;

/// An object for each node, with what its server tells where there is one.
pub(crate) fn node_values(
    alloc: Global,
    nodes: &[NodeChange],
    servers: &[NodeServer],
) -> Result<Vec<Value>, Memory>
    ensures told { IfOk result (λ vs. map view vs.items ≡ map (node_change_data servers.now) nodes.now) }
    ensures few { IfOk result (λ vs. items_size (map view vs.items)
        ≤ 1 + length nodes.now * (680 + longest servers.now)) }
{
    let mut values = Vec::new(alloc);
    for change in nodes {
        push_object(&mut values, node_members(alloc, change, servers)?)?;
    }
    Ok(values)
}

fn node_members(
    alloc: Global,
    change: &NodeChange,
    servers: &[NodeServer],
) -> Result<Members, Memory>
    ensures told { IfOk result (λ ms. members_view ms.entries ≡ with_node servers.now change.now no_members) }
    ensures few { IfOk result (λ ms. size (members_view ms.entries) ≤ 672 + longest servers.now) }
{
    let mut members = Members::new(alloc);
    put_node(&mut members, alloc, change, servers)?;
    Ok(members)
}

#[tactic(auto, unfolding(crate::specs::Values::with_node))]
fn put_node(
    members: &mut Members,
    alloc: Global,
    change: &NodeChange,
    servers: &[NodeServer],
) -> Result<(), Memory>
    ensures told { OnOk result (members_view members.new.entries
        ≡ with_node servers.now change.now (members_view members.old.entries)) }
    ensures few { OnOk result (size (members_view members.new.entries)
        ≤ size (members_view members.old.entries) + (671 + longest servers.now)) }
{
    put_change(members, alloc, change)?;
    match server_of(servers, change.node) {
        None => Ok(()),
        Some(server) => put_server(members, alloc, server),
    }
}

/// What the node's server tells, if there is one.
fn server_of(servers: &[NodeServer], node: NodeId) -> Option<&NodeServer>
    ensures { option_map (λ s. s.now) result ≡ server_of servers.now node }
{
    servers.iter().find(|server| server.node == node)
}

#[tactic(auto, unfolding(crate::specs::Values::with_change))]
fn put_change(members: &mut Members, alloc: Global, change: &NodeChange) -> Result<(), Memory>
    ensures told { OnOk result (members_view members.new.entries
        ≡ with_change change.now (members_view members.old.entries)) }
    ensures few { OnOk result (size (members_view members.new.entries)
        ≤ size (members_view members.old.entries) + 363) }
{
    put_node_name(members, alloc, "node", change.node)?;
    put_count(members, alloc, "slots_before", u64::from(change.before))?;
    put_count(members, alloc, "slots_after", u64::from(change.after))?;
    put_flag(members, alloc, "loses_its_last_slot", is_emptied(change))
}

/// Whether the node has slots before the plan, and none after it.
fn is_emptied(change: &NodeChange) -> bool
    ensures { result ≡ is_emptied change.now }
{
    change.before > 0 && change.after == 0
}

fn put_server(members: &mut Members, alloc: Global, server: &NodeServer) -> Result<(), Memory>
    ensures told { OnOk result (members_view members.new.entries
        ≡ with_figures server.now (with_address server.now (members_view members.old.entries))) }
    ensures few { OnOk result (size (members_view members.new.entries)
        ≤ size (members_view members.old.entries) + (308 + names_size server.now)) }
{
    put_address(members, alloc, server)?;
    put_figures(members, alloc, server)
}

#[tactic(auto, unfolding(crate::specs::Values::with_address))]
fn put_address(members: &mut Members, alloc: Global, server: &NodeServer) -> Result<(), Memory>
    ensures told { OnOk result (members_view members.new.entries
        ≡ with_address server.now (members_view members.old.entries)) }
    ensures few { OnOk result (size (members_view members.new.entries)
        ≤ size (members_view members.old.entries) + (92 + names_size server.now)) }
{
    put_text(members, alloc, "host", server.host.get())?;
    put_count(members, alloc, "port", u64::from(server.port))?;
    put_text(members, alloc, "id", server.name.get())
}

#[tactic(auto, unfolding(crate::specs::Values::with_figures))]
fn put_figures(members: &mut Members, alloc: Global, server: &NodeServer) -> Result<(), Memory>
    ensures told { OnOk result (members_view members.new.entries
        ≡ with_figures server.now (members_view members.old.entries)) }
    ensures few { OnOk result (size (members_view members.new.entries)
        ≤ size (members_view members.old.entries) + 216) }
{
    put_figure(members, alloc, "keys", server.keys)?;
    put_figure(members, alloc, "used_memory", server.used_memory)?;
    put_figure(members, alloc, "maxmemory", server.max_memory)
}
