//! All other nodes are told to forget a node.
ghost use Rattle.std.specs.Prelude.{◌≡◌, ◌≤◌, ◌<◌, [], IfOk, Some, length, option_map, slice_get};
ghost use Rattle.node_forgetting.specs.Telling.{AreTold, asking_of, told_by};

use crate::answering::put_outcome;
use crate::countdown::Countdown;
use crate::leaving::Leaving;
use crate::telling::tell;
use byte_texts::Memory;
use cluster_survey::Reach;
use server_commands::{Credentials, Server};
use std::alloc::Global;

/// Tells the servers one after the other, each once, to forget the node that leaves, and adds a line for each that is
/// not told. The answer is how many were told.
pub(crate) fn tell_all<D: Reach, T: Countdown>(
    out: &mut Vec<u8>,
    alloc: Global,
    reach: &mut D,
    countdown: &mut T,
    credentials: &Option<Credentials>,
    leaving: &Leaving,
    servers: &[Server],
) -> Result<usize, Memory>
    requires { out.old.items ≡ [] }
    ensures told { IfOk result (λ n. AreTold
        (asking_of D.reaches D.refuses (record { gave = D.Input.gave; took = D.Output.took }) credentials.now T.over)
        credentials.now leaving.now.server.now.name servers.now (length servers.now) n out.new.items) }
    ensures few { IfOk result (λ n. n ≤ length servers.now) }
{
    let id = &leaving.server.name;
    let mut told = 0;
    for place in 0..servers.len() {
        let server = server_at(servers, place);
        let reason = tell(alloc, reach, countdown, credentials, id, server)?;
        put_outcome(out, id, server, &reason)?;
        told += told_by(&reason);
    }
    Ok(told)
}

/// The server at this place.
fn server_at(servers: &[Server], place: usize) -> &Server
    requires { place < length servers.now }
    ensures { slice_get servers.now place ≡ Some result.now }
{
    &servers[place]
}

/// 1 where there is no reason for which a server is not told.
fn told_by(reason: &Option<Vec<u8>>) -> usize
    ensures value { result ≡ told_by (option_map (λ v. v.items) reason.now) }
    ensures most { result ≤ 1 }
{
    match reason {
        Some(_) => 0,
        None => 1,
    }
}
