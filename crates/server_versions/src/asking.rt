//! How servers are asked for their versions.
ghost use Rattle.std.specs.Prelude.{◌≡◌, ◌<◌, ◌++◌, ◌∷◌, [], IfErr, IfOk, OnErr, OnOk, length, vec_len};
ghost use Rattle.server_links.specs.Asking.{AsksAt};
ghost use Rattle.server_versions.specs.Asking.{AreToldBy, AreUntold, AsksVersion, IsTold, IsVersionOf};

use crate::versions::{ServerVersion, version_in};
use byte_streams::{ByteIn, ByteOut};
use byte_texts::Memory;
use cluster_views::SurveyFault;
use key_slots::NodeId;
use resp2_wire::Reply;
use server_links::{Link, ReplyLimit};
use std::alloc::Global;

/// The request of INFO for the section of the server itself.
const INFO_SERVER: &[u8] = b"*2\r\n$4\r\nINFO\r\n$6\r\nserver\r\n";

/// The versions of so many servers, n0's first, as each tells its own. A server that gives no answer is at fault.
pub fn versions_of<I: ByteIn + Drop, O: ByteOut + Drop>(
    alloc: Global,
    links: &mut Vec<Link<I, O>>,
    nodes: u8,
) -> Result<Vec<ServerVersion>, SurveyFault>
    requires { vec_len links.old ≡ nodes }
    ensures told { IfOk result
        (λ v. AreToldBy (AsksVersion (record { gave = I.gave; took = O.took })) nodes v.items) }
    ensures untold { IfErr result (AreUntold (AsksVersion (record { gave = I.gave; took = O.took })) nodes) }
    ensures kept { vec_len links.new ≡ vec_len links.old }
{
    let mut versions = Vec::new(alloc);
    for number in 0..nodes {
        let version = version_at(alloc, links, NodeId::of(number))?;
        put(&mut versions, version)?;
    }
    Ok(versions)
}

/// Puts the version at the end.
fn put(versions: &mut Vec<ServerVersion>, version: ServerVersion) -> Result<(), Memory>
    ensures ok { OnOk result (versions.new.items ≡ versions.old.items ++ version ∷ []) }
    ensures err { OnErr result (versions.new.items ≡ versions.old.items) }
{
    versions.push(version)?;
    Ok(())
}

/// What the server of this number tells, over its own connection.
fn version_at<I: ByteIn + Drop, O: ByteOut + Drop>(
    alloc: Global,
    links: &mut Vec<Link<I, O>>,
    node: NodeId,
) -> Result<ServerVersion, SurveyFault>
    requires { node < vec_len links.old }
    ensures told { AsksAt (IsTold (AsksVersion (record { gave = I.gave; took = O.took })) node) links.old.items node
        result links.new.items }
    ensures kept { vec_len links.new ≡ vec_len links.old }
{
    let link = &mut links[usize::from(node.get())];
    version_of(alloc, link, node)
}

/// The version that the server tells (INFO). One that refuses tells none; one that gives no answer is at fault.
#[tactic(auto, unfolding(crate::specs::Asking::AsksVersion))]
pub fn version_of<I: ByteIn + Drop, O: ByteOut + Drop>(
    alloc: Global,
    link: &mut Link<I, O>,
    node: NodeId,
) -> Result<ServerVersion, SurveyFault>
    ensures { IsTold (AsksVersion (record { gave = I.gave; took = O.took })) node link.old result link.new }
{
    match link.ask(alloc, INFO_SERVER, ReplyLimit::text()) {
        Ok(reply) => version_told(alloc, &reply),
        Err(_) => Err(SurveyFault::NoAnswer(node)),
    }
}

/// The version that the reply tells.
fn version_told(alloc: Global, reply: &Reply) -> Result<ServerVersion, SurveyFault>
    ensures { IsVersionOf reply.now result }
{
    match reply {
        Reply::Bulk(text) => Ok(version_in(alloc, text.get())?),
        _ => Ok(ServerVersion::Untold),
    }
}
