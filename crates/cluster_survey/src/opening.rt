//! New connections to servers.
ghost use Rattle.std.specs.Prelude.{◌≡◌, MatchResult, Ok, true};
ghost use Rattle.cluster_survey.specs.Opening.{IsOpenTo, IsShut, IsUnopened, unreached_at};
ghost use Rattle.server_commands.specs.Spelling.{auth_request};
ghost use Rattle.server_links.specs.Links.{LogsIn};
ghost use Rattle.server_links.specs.declared.unreached.Unreached.{Unreached};

use crate::cluster_fault::ClusterFault;
use crate::reach::Reach;
use byte_streams::{ByteIn, ByteOut};
use cluster_admin::PortFault;
use cluster_views::SurveyFault;
use server_commands::Credentials;
use server_links::{Link, Unreached, authenticate};
use std::alloc::Global;
use std::net::SocketAddrV4;

/// A new connection to the address, on which the credentials were shown, where there are some.
pub fn link_to<D: Reach>(
    alloc: Global,
    reach: &mut D,
    address: SocketAddrV4,
    credentials: &Option<Credentials>,
) -> Result<Link<D::Input, D::Output>, ClusterFault>
    ensures { MatchResult result
        (IsOpenTo D.reaches D.refuses (record { gave = D.Input.gave; took = D.Output.took })
        credentials.now address)
        (IsUnopened D.reaches D.refuses (record { gave = D.Input.gave; took = D.Output.took })
        credentials.now address) }
{
    let ends = ends_at(reach, address)?;
    let mut link = Link::new(alloc, ends.0, ends.1)?;
    if let Some(credentials) = credentials {
        show(alloc, &mut link, address, credentials)?;
    }
    Ok(link)
}

/// Both ends of a new connection to the address, or why there is none.
fn ends_at<D: Reach>(
    reach: &mut D,
    address: SocketAddrV4,
) -> Result<(D::Input, D::Output), ClusterFault>
    ensures { MatchResult result (λ ends. D.reaches address ends.0 ends.1)
        (λ e. (u : Unreached) × (e ≡ unreached_at address u) × D.refuses address u) }
{
    match reach.reach(address) {
        Ok(ends) => Ok(ends),
        Err(cause) => Err(unreached_at(address, cause)),
    }
}

/// What is told of an address that can't be reached.
fn unreached_at(address: SocketAddrV4, cause: Unreached) -> ClusterFault
    ensures { result ≡ unreached_at address cause }
{
    match cause {
        Unreached::Silent => ClusterFault::NoConnection(address),
        Unreached::NoDescriptor => ClusterFault::NoDescriptor(address),
    }
}

/// Shows the credentials to the server at the address.
fn show<I: ByteIn + Drop, O: ByteOut + Drop>(
    alloc: Global,
    link: &mut Link<I, O>,
    address: SocketAddrV4,
    credentials: &Credentials,
) -> Result<(), ClusterFault>
    ensures { MatchResult result
        (λ _. LogsIn (record { gave = I.gave; took = O.took }) (auth_request credentials.now) link.old (Ok true)
        link.new)
        (λ e. IsShut (record { gave = I.gave; took = O.took }) credentials.now address link.old e link.new) }
{
    match authenticate(alloc, link, credentials) {
        Ok(true) => Ok(()),
        Ok(false) => Err(ClusterFault::NotLetIn(address)),
        Err(PortFault::Memory) => Err(ClusterFault::Survey(SurveyFault::Memory)),
        Err(_) => Err(ClusterFault::NoAnswer(address)),
    }
}
