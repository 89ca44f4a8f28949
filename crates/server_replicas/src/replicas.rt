//! What replicas lack of the marks of their masters.
ghost use Rattle.std.specs.Prelude.{◌≡◌, ◌<◌, ◌↔◌, ◌++◌, ℕ, List, IfOk, IsTrue, MatchOption, None, OnOk, Some};
ghost use Rattle.std.specs.Prelude.{length, slice_get, vec_len};
ghost use Rattle.cluster_survey.specs.Addresses.{ipv4_in};
ghost use Rattle.server_replicas.specs.Replicas.{AreNodeTexts, AreReplicaTexts, IsAt, IsNodeText, IsReplicaText};
ghost use Rattle.server_replicas.specs.Replicas.{IsValkey, asking_of};

use crate::asking::replicas_at;
use crate::marks::has_marks;
use crate::telling::{put_lacks, put_silent, put_untold};
use byte_texts::Memory;
use cluster_survey::{ClusterFault, Reach, ipv4_in, view_at};
use cluster_views::{ServerSurvey, SurveyFault};
use key_slots::NodeId;
use listed_nodes::NodeLine;
use server_commands::{Credentials, ServerBook};
use server_links::Link;
use server_versions::ServerVersion;
use std::alloc::{AllocError, Global};
use std::net::{Ipv4Addr, SocketAddrV4};

/// A line for each mark that a replica of a node of Valkey lacks, as `127.0.0.1:7005, a replica of n1, has no mark of
/// slot 24`; or, where it can't be asked, `127.0.0.1:7005, a replica of n1, does not tell its marks`. Only the replicas
/// of nodes that have a mark are asked, each over a new connection. At Redis replicas have no marks. Where a node does
/// not tell its replicas, that is said.
pub fn replica_lines<D: Reach>(
    alloc: Global,
    reach: &mut D,
    credentials: &Option<Credentials>,
    links: &mut Vec<Link<D::Input, D::Output>>,
    book: &ServerBook,
    survey: &ServerSurvey,
    versions: &[ServerVersion],
) -> Result<Vec<u8>, Memory>
    requires links { vec_len links.old ≡ length book.now }
    requires rows { length survey.now.rows ≡ length book.now }
    requires versions { length versions.now ≡ length book.now }
    ensures told { IfOk result (λ t. AreNodeTexts
        (asking_of D.reaches D.refuses (record { gave = D.Input.gave; took = D.Output.took }) credentials.now)
        book.now survey.now versions.now (length book.now) t.items) }
    ensures kept { vec_len links.new ≡ vec_len links.old }
{
    let mut out = Vec::new(alloc);
    for number in 0..book.nodes() {
        let node = NodeId::of(number);
        let version = version_at(versions, node);
        put_node(
            &mut out,
            alloc,
            reach,
            credentials,
            links,
            book,
            survey,
            version,
            node,
        )?;
    }
    Ok(out)
}

/// The version of the node.
fn version_at(versions: &[ServerVersion], node: NodeId) -> &ServerVersion
    requires { node < length versions.now }
    ensures { slice_get versions.now node ≡ Some result.now }
{
    &versions[usize::from(node.get())]
}

/// Puts what the replicas of the node lack, if it is one of Valkey with marks.
fn put_node<D: Reach>(
    out: &mut Vec<u8>,
    alloc: Global,
    reach: &mut D,
    credentials: &Option<Credentials>,
    links: &mut Vec<Link<D::Input, D::Output>>,
    book: &ServerBook,
    survey: &ServerSurvey,
    version: &ServerVersion,
    node: NodeId,
) -> Result<(), Memory>
    requires links { vec_len links.old ≡ length book.now }
    requires rows { length survey.now.rows ≡ length book.now }
    requires node { node < length book.now }
    ensures told { OnOk result ((t : List ℕ) × (out.new.items ≡ out.old.items ++ t) × IsNodeText
        (asking_of D.reaches D.refuses (record { gave = D.Input.gave; took = D.Output.took }) credentials.now)
        book.now survey.now node version.now t) }
    ensures kept { vec_len links.new ≡ vec_len links.old }
{
    if !is_valkey(version) {
        return Ok(());
    }
    if !has_marks(survey, node) {
        return Ok(());
    }
    match replicas_at(alloc, links, node, &book.server(node).name) {
        Ok(replicas) => {
            put_replicas(
                out,
                alloc,
                reach,
                credentials,
                survey,
                node,
                replicas.as_slice(),
            )
        }
        Err(SurveyFault::Memory) => Err(AllocError),
        Err(_) => put_untold(out, node),
    }
}

/// Whether the version is one of Valkey.
fn is_valkey(version: &ServerVersion) -> bool
    ensures { IsTrue result ↔ IsValkey version.now }
{
    match version {
        ServerVersion::Valkey(_) => true,
        _ => false,
    }
}

/// Puts what each of these replicas lacks of the node's marks.
fn put_replicas<D: Reach>(
    out: &mut Vec<u8>,
    alloc: Global,
    reach: &mut D,
    credentials: &Option<Credentials>,
    survey: &ServerSurvey,
    node: NodeId,
    replicas: &[NodeLine],
) -> Result<(), Memory>
    requires { node < length survey.now.rows }
    ensures { OnOk result ((t : List ℕ) × (out.new.items ≡ out.old.items ++ t) × AreReplicaTexts
        (asking_of D.reaches D.refuses (record { gave = D.Input.gave; took = D.Output.took }) credentials.now)
        survey.now node replicas.now (length replicas.now) t) }
{
    for place in 0..replicas.len() {
        let replica = replica_at(replicas, place);
        put_replica(out, alloc, reach, credentials, survey, node, replica)?;
    }
    Ok(())
}

/// The replica at this place.
fn replica_at(replicas: &[NodeLine], place: usize) -> &NodeLine
    requires { place < length replicas.now }
    ensures { slice_get replicas.now place ≡ Some result.now }
{
    &replicas[place]
}

/// Asks the replica for its marks, and puts what it lacks of the node's; or that it tells none.
fn put_replica<D: Reach>(
    out: &mut Vec<u8>,
    alloc: Global,
    reach: &mut D,
    credentials: &Option<Credentials>,
    survey: &ServerSurvey,
    node: NodeId,
    replica: &NodeLine,
) -> Result<(), Memory>
    requires { node < length survey.now.rows }
    ensures { OnOk result ((t : List ℕ) × (out.new.items ≡ out.old.items ++ t) × IsReplicaText
        (asking_of D.reaches D.refuses (record { gave = D.Input.gave; took = D.Output.took }) credentials.now)
        survey.now node replica.now t) }
{
    let Some(address) = address_of(replica) else {
        return put_silent(out, node, replica);
    };
    match view_at(alloc, reach, address, credentials) {
        Ok(told) => put_lacks(out, survey, node, replica, told.get()),
        Err(ClusterFault::Survey(SurveyFault::Memory)) => Err(AllocError),
        Err(_) => put_silent(out, node, replica),
    }
}

/// Where the replica serves clients, if it has an address of IPv4.
fn address_of(replica: &NodeLine) -> Option<SocketAddrV4>
    ensures { MatchOption result (ipv4_in replica.now.host ≡ None) (IsAt replica.now) }
{
    let bits = ipv4_in(replica.host.get())?;
    Some(SocketAddrV4::new(Ipv4Addr::from_bits(bits), replica.port))
}
