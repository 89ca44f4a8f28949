//! The nodes of shards in an answer to CLUSTER SHARDS: each shard is an array of names and values, of which one is the
//! array of its nodes, and each of these is an array of names and values, of which one is its ID.
ghost use Rattle.std.specs.Prelude.{◌≡◌};
ghost use Rattle.resp2_wire.specs.View.{tree, trees};
ghost use Rattle.server_shards.specs.Shards.{any_of, has_node, is_text, is_with, lists_node, names_node};

use byte_texts::is;
use resp2_wire::Reply;

/// Whether one of these shards has both nodes.
pub(crate) fn are_in_one(shards: &[Reply], one: &[u8], other: &[u8]) -> bool
    ensures { result ≡ any_of (is_with one.now other.now) (trees shards.now) }
{
    let mut left = shards;
    while let [shard, others @ ..] = left {
        if has_node(shard, one) && has_node(shard, other) {
            return true;
        }
        left = others;
    }
    false
}

/// Whether the shard has the node with this ID.
fn has_node(shard: &Reply, id: &[u8]) -> bool
    ensures { result ≡ has_node id.now (tree shard.now) }
{
    match shard {
        Reply::Array(values) => is_in_values(values.get(), id),
        _ => false,
    }
}

/// Whether one of the shard's values is an array with the node.
fn is_in_values(values: &[Reply], id: &[u8]) -> bool
    ensures { result ≡ any_of (lists_node id.now) (trees values.now) }
{
    let mut left = values;
    while let [value, others @ ..] = left {
        if lists_node(value, id) {
            return true;
        }
        left = others;
    }
    false
}

/// Whether this is an array of nodes with this one.
fn lists_node(value: &Reply, id: &[u8]) -> bool
    ensures { result ≡ lists_node id.now (tree value.now) }
{
    match value {
        Reply::Array(nodes) => is_in_nodes(nodes.get(), id),
        _ => false,
    }
}

/// Whether one of the nodes has this ID.
fn is_in_nodes(nodes: &[Reply], id: &[u8]) -> bool
    ensures { result ≡ any_of (names_node id.now) (trees nodes.now) }
{
    let mut left = nodes;
    while let [node, others @ ..] = left {
        if names_node(node, id) {
            return true;
        }
        left = others;
    }
    false
}

/// Whether the node has this ID.
fn names_node(node: &Reply, id: &[u8]) -> bool
    ensures { result ≡ names_node id.now (tree node.now) }
{
    match node {
        Reply::Array(values) => is_in_texts(values.get(), id),
        _ => false,
    }
}

/// Whether one of the node's values is this text.
fn is_in_texts(values: &[Reply], id: &[u8]) -> bool
    ensures { result ≡ any_of (is_text id.now) (trees values.now) }
{
    let mut left = values;
    while let [value, others @ ..] = left {
        if is_text(value, id) {
            return true;
        }
        left = others;
    }
    false
}

/// Whether the reply is this text.
fn is_text(value: &Reply, id: &[u8]) -> bool
    ensures { result ≡ is_text id.now (tree value.now) }
{
    match value {
        Reply::Bulk(text) => is(text.get(), id),
        _ => false,
    }
}
