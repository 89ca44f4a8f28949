//! What each server tells of itself.
ghost use Rattle.std.specs.Prelude.{◌≡◌, ◌≤◌, ◌+◌, ◌*◌, ◌++◌, OnOk, length};
ghost use Rattle.std.specs.List.{flat_map};
ghost use Rattle.plan_pages.specs.Servers.{address_line, figures_line, id_line, keys_told, limit_told, memory_told};
ghost use Rattle.plan_pages.specs.Servers.{names, names_of, server_lines, servers_heading, servers_section};

use crate::putting::{key_word, put, put_node, put_number};
use crate::sizes::put_sizes;
use byte_texts::Memory;
use plan_outlines::NodeServer;

/// Puts the lines of each server, or nothing where there are none.
pub(crate) fn put_servers(out: &mut Vec<u8>, servers: &[NodeServer]) -> Result<(), Memory>
    ensures text { OnOk result (out.new.items ≡ out.old.items ++ servers_section servers.now) }
    ensures few { OnOk result (length out.new.items
        ≤ length out.old.items + (10 + (240 * length servers.now + length (names servers.now)))) }
{
    if servers.is_empty() {
        return Ok(());
    }
    put_heading(out)?;
    put_each(out, servers)
}

#[tactic(auto, unfolding(crate::specs::Servers::servers_heading))]
fn put_heading(out: &mut Vec<u8>) -> Result<(), Memory>
    ensures text { OnOk result (out.new.items ≡ out.old.items ++ servers_heading) }
    ensures few { OnOk result (length out.new.items ≤ length out.old.items + 10) }
{
    put(out, b"\nservers\n")
}

fn put_each(out: &mut Vec<u8>, servers: &[NodeServer]) -> Result<(), Memory>
    ensures text { OnOk result (out.new.items ≡ out.old.items ++ flat_map server_lines servers.now) }
    ensures few { OnOk result (length out.new.items
        ≤ length out.old.items + (240 * length servers.now + length (names servers.now))) }
{
    for server in servers {
        put_server(out, server)?;
    }
    Ok(())
}

fn put_server(out: &mut Vec<u8>, server: &NodeServer) -> Result<(), Memory>
    ensures text { OnOk result (out.new.items ≡ out.old.items ++ server_lines server.now) }
    ensures few { OnOk result (length out.new.items ≤ length out.old.items + (240 + length (names_of server.now))) }
{
    put_address(out, server)?;
    put_id(out, server)?;
    put_figures(out, server)?;
    put_sizes(out, server)
}

#[tactic(auto, unfolding(crate::specs::Servers::address_line))]
fn put_address(out: &mut Vec<u8>, server: &NodeServer) -> Result<(), Memory>
    ensures text { OnOk result (out.new.items ≡ out.old.items ++ address_line server.now) }
    ensures few { OnOk result (length out.new.items ≤ length out.old.items + (50 + length server.now.host)) }
{
    put(out, b"  ")?;
    put_node(out, server.node)?;
    put(out, b" ")?;
    put(out, server.host.get())?;
    put(out, b":")?;
    put_number(out, u64::from(server.port))?;
    put(out, b"\n")
}

#[tactic(auto, unfolding(crate::specs::Servers::id_line))]
fn put_id(out: &mut Vec<u8>, server: &NodeServer) -> Result<(), Memory>
    ensures text { OnOk result (out.new.items ≡ out.old.items ++ id_line server.now) }
    ensures few { OnOk result (length out.new.items ≤ length out.old.items + (10 + length server.now.name)) }
{
    put(out, b"     id ")?;
    put(out, server.name.get())?;
    put(out, b"\n")
}

#[tactic(auto, unfolding(crate::specs::Servers::figures_line))]
fn put_figures(out: &mut Vec<u8>, server: &NodeServer) -> Result<(), Memory>
    ensures text { OnOk result (out.new.items ≡ out.old.items ++ figures_line server.now) }
    ensures few { OnOk result (length out.new.items ≤ length out.old.items + 100) }
{
    put(out, b"     ")?;
    put_keys(out, server.keys)?;
    put(out, b", ")?;
    put_memory(out, server.used_memory)?;
    put_limit(out, server.max_memory)?;
    put(out, b"\n")
}

#[tactic(auto, unfolding(crate::specs::Servers::keys_told))]
fn put_keys(out: &mut Vec<u8>, keys: Option<u64>) -> Result<(), Memory>
    ensures text { OnOk result (out.new.items ≡ out.old.items ++ keys_told keys) }
    ensures few { OnOk result (length out.new.items ≤ length out.old.items + 25) }
{
    let Some(keys) = keys else {
        return put(out, b"keys unknown");
    };
    put_number(out, keys)?;
    put(out, key_word(keys))
}

#[tactic(auto, unfolding(crate::specs::Servers::memory_told))]
fn put_memory(out: &mut Vec<u8>, used: Option<u64>) -> Result<(), Memory>
    ensures text { OnOk result (out.new.items ≡ out.old.items ++ memory_told used) }
    ensures few { OnOk result (length out.new.items ≤ length out.old.items + 31) }
{
    let Some(used) = used else {
        return put(out, b"bytes used unknown");
    };
    put_number(out, used)?;
    put(out, b" bytes used")
}

#[tactic(auto, unfolding(crate::specs::Servers::limit_told))]
fn put_limit(out: &mut Vec<u8>, limit: Option<u64>) -> Result<(), Memory>
    ensures text { OnOk result (out.new.items ≡ out.old.items ++ limit_told limit) }
    ensures few { OnOk result (length out.new.items ≤ length out.old.items + 32) }
{
    match limit {
        None => put(out, b", limit unknown"),
        Some(0) => put(out, b" without a limit"),
        Some(limit) => {
            put(out, b" of at most ")?;
            put_number(out, limit)
        }
    }
}
