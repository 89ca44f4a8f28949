//! What the first of some servers that answers lists.
ghost use Rattle.std.specs.Prelude.{◌≡◌, ◌≤◌, MatchOption, MatchResult, length};
ghost use Rattle.cluster_survey.specs.Listing.{FirstFails, FirstLists, IsUnlisted, Lists, NoneLists, told_at};

use crate::asking::view_of;
use crate::cluster_fault::ClusterFault;
use crate::opening::link_to;
use crate::reach::Reach;
use cluster_views::SurveyFault;
use key_slots::NodeId;
use listed_nodes::NodeLines;
use server_commands::Credentials;
use std::alloc::Global;
use std::net::SocketAddrV4;

/// What the first server that answers lists. Where none does, what was wrong with the first of them is told.
pub(crate) fn first_view<D: Reach>(
    alloc: Global,
    reach: &mut D,
    addresses: &[SocketAddrV4],
    credentials: &Option<Credentials>,
) -> Result<NodeLines, ClusterFault>
    requires { 1 ≤ length addresses.now }
    ensures { MatchResult result
        (FirstLists D.reaches D.refuses (record { gave = D.Input.gave; took = D.Output.took })
        credentials.now addresses.now)
        (FirstFails D.reaches D.refuses (record { gave = D.Input.gave; took = D.Output.took })
        credentials.now addresses.now) }
{
    let [first, others @ ..] = addresses else {
        unreachable!()
    };
    match view_at(alloc, reach, *first, credentials) {
        Ok(lines) => Ok(lines),
        Err(fault) => match next_view(alloc, reach, others, credentials) {
            Some(lines) => Ok(lines),
            None => Err(fault),
        },
    }
}

/// What the first server that answers lists, if one does.
fn next_view<D: Reach>(
    alloc: Global,
    reach: &mut D,
    addresses: &[SocketAddrV4],
    credentials: &Option<Credentials>,
) -> Option<NodeLines>
    ensures { MatchOption result
        (NoneLists D.reaches D.refuses (record { gave = D.Input.gave; took = D.Output.took })
        credentials.now addresses.now)
        (FirstLists D.reaches D.refuses (record { gave = D.Input.gave; took = D.Output.took })
        credentials.now addresses.now) }
{
    let mut rest = addresses;
    while let [address, others @ ..] = rest {
        if let Ok(lines) = view_at(alloc, reach, *address, credentials) {
            return Some(lines);
        }
        rest = others;
    }
    None
}

/// What the server at the address lists, over a new connection to it.
pub fn view_at<D: Reach>(
    alloc: Global,
    reach: &mut D,
    address: SocketAddrV4,
    credentials: &Option<Credentials>,
) -> Result<NodeLines, ClusterFault>
    ensures { MatchResult result
        (Lists D.reaches D.refuses (record { gave = D.Input.gave; took = D.Output.took })
        credentials.now address)
        (IsUnlisted D.reaches D.refuses (record { gave = D.Input.gave; took = D.Output.took })
        credentials.now address) }
{
    let mut link = link_to(alloc, reach, address, credentials)?;
    match view_of(alloc, &mut link, NodeId::of(0)) {
        Ok(lines) => Ok(lines),
        Err(fault) => Err(told_at(address, fault)),
    }
}

/// The fault of a view, as it is told of a server that has no number yet.
fn told_at(address: SocketAddrV4, fault: SurveyFault) -> ClusterFault
    ensures { result ≡ told_at address fault }
{
    match fault {
        SurveyFault::NoAnswer(_) => ClusterFault::NoAnswer(address),
        SurveyFault::Strange(_) => ClusterFault::Strange(address),
        SurveyFault::Named { error, .. } => ClusterFault::Named { address, error },
        other => ClusterFault::Survey(other),
    }
}
