ghost use Rattle.std.specs.Prelude.{◌≡◌, ◌≤◌, IfOk, MatchOption, MatchResult, vec_len};
ghost use Rattle.cluster_survey.specs.Masters.{AreMastersOf, HasPlace, IsAdded, IsAscending, IsGap, IsMastersFault};
ghost use Rattle.cluster_survey.specs.Masters.{IsNotAdded, left_out, place, server_of};

use crate::ipv4::place_of;
use byte_texts::Memory;
use cluster_views::{SurveyFault, is_gone, is_present};
use key_slots::MAX_NODES;
use listed_nodes::NodeLine;
use server_commands::{Server, ServerBook};
use std::alloc::Global;

/// The servers of which a survey is: all masters that a server lists, with slots or without, n0 first, in ascending
/// order of address: the four numbers of IPv4, then the port. A master that failed and has no slot is left out: where a
/// failover has filled its place, the others go on listing it until it returns or is forgotten.
///
/// They are 1 to 255. Where several faults apply, the one at the first line is reported.
pub fn masters_of(alloc: Global, lines: &[NodeLine]) -> Result<ServerBook, SurveyFault>
    ensures { MatchResult result (AreMastersOf lines.now) (IsMastersFault lines.now) }
{
    let servers = servers_in(alloc, lines)?;
    Ok(ServerBook::of(servers))
}

/// These servers, which are no book yet.
pub(crate) fn servers_in(alloc: Global, lines: &[NodeLine]) -> Result<Vec<Server>, SurveyFault>
    ensures masters { MatchResult result (λ v. AreMastersOf lines.now v.items) (IsMastersFault lines.now) }
    ensures least { IfOk result (λ v. 1 ≤ vec_len v) }
    ensures most { IfOk result (λ v. vec_len v ≤ 255) }
{
    let mut servers = Vec::new(alloc);
    for (index, line) in lines.iter().enumerate() {
        if is_present(line) {
            add_master(alloc, &mut servers, line, index + 1)?;
        }
    }
    if servers.as_slice().is_empty() {
        return Err(SurveyFault::NoMasters);
    }
    Ok(servers)
}

/// The masters that are left out, in the order of the lines.
#[tactic(auto, using(crate::proofs::LeftOut::are_left_out))]
pub(crate) fn left_out_in(alloc: Global, lines: &[NodeLine]) -> Result<Vec<Server>, Memory>
    ensures { IfOk result (λ v. v.items ≡ left_out lines.now) }
{
    let mut servers = Vec::new(alloc);
    for line in lines {
        if is_gone(line) {
            servers.push(server_of(alloc, line)?)?;
        }
    }
    Ok(servers)
}

/// Puts the master at its place among these. It stands in the line with this number.
fn add_master(
    alloc: Global,
    servers: &mut Vec<Server>,
    line: &NodeLine,
    number: usize,
) -> Result<(), SurveyFault>
    requires { IsAscending servers.old.items }
    ensures { MatchResult result (λ _. IsAdded servers.old.items (server_of line.now) servers.new.items)
        (IsNotAdded servers.old.items (server_of line.now) number) }
{
    if servers.len() >= usize::from(MAX_NODES) {
        return Err(SurveyFault::TooManyMasters);
    }
    let server = server_of(alloc, line)?;
    let Some(place) = place_of(&server) else {
        return Err(SurveyFault::NoAddress(number));
    };
    let Some(at) = gap_at(servers.as_slice(), place) else {
        return Err(SurveyFault::SameAddress(number));
    };
    match servers.insert(at, server) {
        Ok(()) => Ok(()),
        Err(_) => Err(SurveyFault::Memory),
    }
}

/// The server of the line.
fn server_of(alloc: Global, line: &NodeLine) -> Result<Server, Memory>
    ensures { IfOk result (λ s. s ≡ server_of line.now) }
{
    Ok(Server {
        name: line.name.try_copy(alloc)?,
        host: line.host.try_copy(alloc)?,
        port: line.port,
    })
}

/// Where a server of this place stands among others, if none of them has its place.
fn gap_at(servers: &[Server], number: u64) -> Option<usize>
    requires { IsAscending servers.now }
    ensures { MatchOption result (HasPlace servers.now number) (IsGap servers.now number) }
{
    for (index, server) in servers.iter().enumerate() {
        let other = place(server);
        if other == number {
            return None;
        }
        if other > number {
            return Some(index);
        }
    }
    Some(servers.len())
}

/// The place of the server, or 0 where it has none.
fn place(server: &Server) -> u64
    ensures { result ≡ place server.now }
{
    match place_of(server) {
        Some(number) => number,
        None => 0,
    }
}
