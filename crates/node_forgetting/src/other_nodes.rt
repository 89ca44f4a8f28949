//! The nodes that are to forget another one.
ghost use Rattle.std.specs.Prelude.{◌≡◌, IfOk};
ghost use Rattle.cluster_survey.specs.Masters.{server_of};
ghost use Rattle.node_forgetting.specs.Others.{is_other, others};

use byte_texts::{Memory, Text, is};
use listed_nodes::NodeLine;
use server_commands::Server;
use std::alloc::Global;

/// All nodes in the lines, masters and replicas, but the one with this ID.
#[tactic(auto, using(crate::proofs::Listed::are_others))]
pub(crate) fn others(alloc: Global, lines: &[NodeLine], id: &Text) -> Result<Vec<Server>, Memory>
    ensures { IfOk result (λ v. v.items ≡ others id.now lines.now) }
{
    let mut servers = Vec::new(alloc);
    for line in lines {
        if is_other(line, id) {
            servers.push(server_of(alloc, line)?)?;
        }
    }
    Ok(servers)
}

/// Whether the line is not that of the node with this ID.
fn is_other(line: &NodeLine, id: &Text) -> bool
    ensures { result ≡ is_other id.now line.now }
{
    !is(line.name.get(), id.get())
}

/// The server of the line.
fn server_of(alloc: Global, line: &NodeLine) -> Result<Server, Memory>
    ensures { IfOk result (λ s. s ≡ server_of line.now) }
{
    Ok(Server {
        name: line.name.try_copy(alloc)?,
        host: line.host.try_copy(alloc)?,
        port: line.port,
    })
}
