//! Connections to all servers of a cluster.
ghost use Rattle.std.specs.Prelude.{IsSome, MatchResult, length};
ghost use Rattle.cluster_survey.specs.Addresses.{place_of};
ghost use Rattle.cluster_survey.specs.Linking.{AreLinked, AreUnlinked, IsAddressOf};
ghost use Rattle.cluster_survey.specs.Masters.{AreAddressed};

use crate::cluster_fault::ClusterFault;
use crate::ipv4::ipv4_in;
use crate::opening::link_to;
use crate::reach::Reach;
use cluster_views::SurveyFault;
use key_slots::NodeId;
use server_commands::{Credentials, Server, ServerBook};
use server_links::Link;
use std::alloc::Global;
use std::net::{Ipv4Addr, SocketAddrV4};

/// A connection to each server of the book, in order.
pub(crate) fn links_to<D: Reach>(
    alloc: Global,
    reach: &mut D,
    book: &ServerBook,
    credentials: &Option<Credentials>,
) -> Result<Vec<Link<D::Input, D::Output>>, ClusterFault>
    requires { AreAddressed book.now }
    ensures { MatchResult result
        (λ v. AreLinked D.reaches D.refuses (record { gave = D.Input.gave; took = D.Output.took })
        credentials.now book.now (length book.now) v.items)
        (AreUnlinked D.reaches D.refuses (record { gave = D.Input.gave; took = D.Output.took })
        credentials.now book.now) }
{
    let mut links = Vec::new(alloc);
    for number in 0..book.nodes() {
        let address = address_of(book.server(NodeId::of(number)));
        let link = link_to(alloc, reach, address, credentials)?;
        if links.push(link).is_err() {
            return Err(ClusterFault::Survey(SurveyFault::Memory));
        }
    }
    Ok(links)
}

/// Where the server serves clients. Its host is an address of IPv4.
fn address_of(server: &Server) -> SocketAddrV4
    requires { IsSome (place_of server.now) }
    ensures { IsAddressOf server.now result }
{
    let Some(bits) = ipv4_in(server.host.get()) else {
        unreachable!()
    };
    SocketAddrV4::new(Ipv4Addr::from_bits(bits), server.port)
}
