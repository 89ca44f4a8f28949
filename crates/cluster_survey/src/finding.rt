//! All masters of a cluster, by some of its nodes.
ghost use Rattle.std.specs.Prelude.{◌≡◌, ◌≤◌, [], IfOk, MatchResult, length, vec_len};
ghost use Rattle.cluster_survey.specs.Arranging.{AreNamed};
ghost use Rattle.cluster_survey.specs.Found.{AreReached, AreUnreached, IsFound, IsFoundBeside, IsFoundBy, IsFoundIn};
ghost use Rattle.cluster_survey.specs.Found.{IsUnfoundBy, IsUnfoundIn};
ghost use Rattle.cluster_survey.specs.Masters.{AreAddressed, IsAscending};
ghost use Rattle.node_names.specs.Names.{AreNames};

use crate::agreeing::agreed;
use crate::arranging::book_of;
use crate::cluster_fault::ClusterFault;
use crate::linking::links_to;
use crate::listing::first_view;
use crate::masters::left_out_in;
use crate::reach::Reach;
use cluster_views::Surveyed;
use key_slots::NodeId;
use listed_nodes::NodeLine;
use node_names::NodeName;
use server_commands::{Credentials, Server, ServerBook};
use server_links::Link;
use std::alloc::Global;
use std::net::SocketAddrV4;

/// A connection to each master of a cluster, n0 first, and what all of them say of it.
#[derive(Drop)]
pub struct FoundCluster<I: Drop, O: Drop> {
    pub book: ServerBook,
    pub links: Vec<Link<I, O>>,
    pub surveyed: Surveyed,
    /// The masters that failed and have no slot, in the order in which the cluster was listed. They are none of the
    /// book's, and nobody asked them.
    pub left_out: Vec<Server>,
    ghost linked: { vec_len links ≡ length book },
    ghost told: { length surveyed.survey.rows ≡ length book },
}

/// Finds the masters of a cluster by the first of the addresses whose server answers, connects to each, and asks all of
/// them; and asks again, for 2 seconds, while what stands against a survey may pass by itself, as that two nodes do not
/// agree. Where no server answers, what was wrong with the first of them is told. Each connection begins with AUTH
/// where there are credentials.
///
/// The masters are numbered in ascending order of address, but for the names: the master that has a node's name is that
/// node, and changes places with the one that had its number. What is wrong with the first name for which there is no
/// such master is told before any master is reached. A master that failed and has no slot gets no number, and is given
/// beside.
pub fn find<D: Reach>(
    alloc: Global,
    reach: &mut D,
    addresses: &[SocketAddrV4],
    names: &[(NodeId, NodeName)],
    credentials: &Option<Credentials>,
) -> Result<FoundCluster<D::Input, D::Output>, ClusterFault>
    requires { 1 ≤ length addresses.now }
    ensures found { MatchResult result
        (λ f. IsFoundBy D.reaches D.refuses (record { gave = D.Input.gave; took = D.Output.took })
        credentials.now addresses.now names.now f.book f.links.items f.surveyed.survey f.surveyed.epochs.items
        f.left_out.items)
        (IsUnfoundBy D.reaches D.refuses (record { gave = D.Input.gave; took = D.Output.took })
        credentials.now D.over addresses.now names.now) }
    ensures whole { IfOk result (λ f. IsFound f.book f.surveyed.survey f.surveyed.epochs.items (vec_len f.links)) }
    ensures left { IfOk result (λ f. IsFoundBeside f.left_out.items f.book f.surveyed.survey f.surveyed.epochs.items
        (vec_len f.links)) }
    ensures named { IfOk result (λ f. AreNames names.now → AreNamed names.now f.book) }
    ensures ascending { IfOk result (λ f. names.now ≡ [] → IsAscending f.book) }
{
    let lines = first_view(alloc, reach, addresses, credentials)?;
    found_in(alloc, reach, lines.get(), names, credentials)
}

/// The cluster whose nodes these are.
fn found_in<D: Reach>(
    alloc: Global,
    reach: &mut D,
    lines: &[NodeLine],
    names: &[(NodeId, NodeName)],
    credentials: &Option<Credentials>,
) -> Result<FoundCluster<D::Input, D::Output>, ClusterFault>
    ensures found { MatchResult result
        (λ f. IsFoundIn D.reaches D.refuses (record { gave = D.Input.gave; took = D.Output.took })
        credentials.now lines.now names.now f.book f.links.items f.surveyed.survey f.surveyed.epochs.items
        f.left_out.items)
        (IsUnfoundIn D.reaches D.refuses (record { gave = D.Input.gave; took = D.Output.took })
        credentials.now D.over lines.now names.now) }
{
    let book = book_of(alloc, lines, names)?;
    let left_out = left_out_in(alloc, lines)?;
    reached(alloc, reach, book, left_out, credentials)
}

/// The cluster of these masters, beside which those were left out.
fn reached<D: Reach>(
    alloc: Global,
    reach: &mut D,
    book: ServerBook,
    left_out: Vec<Server>,
    credentials: &Option<Credentials>,
) -> Result<FoundCluster<D::Input, D::Output>, ClusterFault>
    requires { AreAddressed book }
    ensures found { MatchResult result
        (λ f. (f.book ≡ book) × (f.left_out.items ≡ left_out.items)
        × AreReached D.reaches D.refuses (record { gave = D.Input.gave; took = D.Output.took })
        credentials.now book f.links.items f.surveyed.survey f.surveyed.epochs.items)
        (AreUnreached D.reaches D.refuses (record { gave = D.Input.gave; took = D.Output.took })
        credentials.now D.over book) }
{
    let mut links = links_to(alloc, reach, &book, credentials)?;
    match agreed(alloc, reach, &mut links, &book) {
        Ok(surveyed) => Ok(FoundCluster {
            book,
            links,
            surveyed,
            left_out,
        }),
        Err(fault) => Err(ClusterFault::Survey(fault)),
    }
}
