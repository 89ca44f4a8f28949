//! What is said of a node that is to be forgotten.
ghost use Rattle.std.specs.Prelude.{◌≡◌, ◌==◌, ◌++◌, OnOk, cond, codes, option_map};
ghost use Rattle.node_forgetting.specs.Texts.{address_text, follower_text, forgotten_line, outcome_line, share_text};
ghost use Rattle.node_forgetting.specs.Texts.{by_hand_text, part_text, untold_line};

use byte_texts::{Memory, Text};
use key_slots::NodeId;
use listed_nodes::NodeLine;
use server_commands::Server;
use survey_texts::{put, put_node, put_number};

/// Puts `127.0.0.1:7007 is a replica of n3; let it follow another master first (CLUSTER REPLICATE)`.
pub(crate) fn put_follower(
    out: &mut Vec<u8>,
    node: NodeId,
    replica: &NodeLine,
) -> Result<(), Memory>
    ensures { OnOk result (out.new.items ≡ out.old.items ++ follower_text node replica.now) }
{
    put_address(out, &replica.host, replica.port)?;
    put(out, b" is a replica of ")?;
    put_node(out, node)?;
    put(
        out,
        b"; let it follow another master first (CLUSTER REPLICATE)",
    )
}

/// Puts a line for a server that is not told, and nothing for one that is.
pub(crate) fn put_outcome(
    out: &mut Vec<u8>,
    id: &Text,
    server: &Server,
    reason: &Option<Vec<u8>>,
) -> Result<(), Memory>
    ensures { OnOk result (out.new.items
        ≡ out.old.items ++ outcome_line id.now server.now (option_map (λ v. v.items) reason.now)) }
{
    match reason {
        Some(reason) => put_untold(out, id, server, reason.as_slice()),
        None => put(out, b""),
    }
}

/// Puts `127.0.0.1:7005 is not told, as REASON; send it CLUSTER FORGET ID within a minute`.
fn put_untold(out: &mut Vec<u8>, id: &Text, server: &Server, reason: &[u8]) -> Result<(), Memory>
    ensures { OnOk result (out.new.items ≡ out.old.items ++ untold_line id.now server.now reason.now) }
{
    put_address(out, &server.host, server.port)?;
    put(out, b" is not told, as ")?;
    put(out, reason)?;
    put_by_hand(out, id)
}

/// Puts `; send it CLUSTER FORGET ID within a minute`.
fn put_by_hand(out: &mut Vec<u8>, id: &Text) -> Result<(), Memory>
    ensures { OnOk result (out.new.items ≡ out.old.items ++ by_hand_text id.now) }
{
    put(out, b"; send it CLUSTER FORGET ")?;
    put(out, id.get())?;
    put(out, b" within a minute\n")
}

/// Puts `n3 127.0.0.1:7003 is forgotten at 5 nodes`.
pub(crate) fn put_forgotten(
    out: &mut Vec<u8>,
    node: NodeId,
    server: &Server,
    told: u32,
    count: u32,
) -> Result<(), Memory>
    ensures { OnOk result (out.new.items ≡ out.old.items ++ forgotten_line node server.now told count) }
{
    put_node(out, node)?;
    put(out, b" ")?;
    put_address(out, &server.host, server.port)?;
    put(out, b" is forgotten at ")?;
    put_share(out, told, count)
}

/// Puts `5 nodes`, `1 node` or `4 of 5 nodes`.
fn put_share(out: &mut Vec<u8>, told: u32, count: u32) -> Result<(), Memory>
    ensures { OnOk result (out.new.items ≡ out.old.items ++ share_text told count) }
{
    put_part(out, told, count)?;
    put_number(out, count)?;
    put(out, node_word(count))
}

/// Puts `4 of `, where not all are told.
fn put_part(out: &mut Vec<u8>, told: u32, count: u32) -> Result<(), Memory>
    ensures { OnOk result (out.new.items ≡ out.old.items ++ part_text told count) }
{
    if told == count {
        return put(out, b"");
    }
    put_number(out, told)?;
    put(out, b" of ")
}

fn node_word(count: u32) -> &'static [u8]
    ensures { result.now ≡ cond (count == 1) (codes " node\n") (codes " nodes\n") }
{
    if count == 1 { b" node\n" } else { b" nodes\n" }
}

/// Puts `127.0.0.1:7003`.
fn put_address(out: &mut Vec<u8>, host: &Text, port: u16) -> Result<(), Memory>
    ensures { OnOk result (out.new.items ≡ out.old.items ++ address_text host.now port) }
{
    put(out, host.get())?;
    put(out, b":")?;
    put_number(out, u32::from(port))
}
