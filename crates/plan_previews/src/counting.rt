//! What servers tell of the keys that a plan moves, and of themselves.
ghost use Rattle.std.specs.Prelude.{◌≡◌, IfErr, IfOk, length, vec_len};
ghost use Rattle.plan_previews.specs.Counted.{AreCounts, IsUncounted};

use byte_streams::{ByteIn, ByteOut};
use cluster_inspection::{Refusal, unfound};
use cluster_survey::{ClusterFault, FoundCluster};
use cluster_views::{ServerSurvey, SurveyFault};
use plan_changes::PlanLoad;
use plan_outlines::NodeServer;
use plan_runner::Plan;
use server_commands::ServerBook;
use server_infos::servers_of;
use server_links::Link;
use slot_key_counts::key_counts;
use std::alloc::Global;

/// What servers tell of the keys that a plan moves, and of themselves.
#[derive(Drop)]
pub struct Counts {
    /// The keys of each slot that the plan moves, from slot 0 on; 0 for the others.
    pub keys: Vec<u32>,
    /// What the plan moves by these.
    pub load: PlanLoad,
    /// What each server tells.
    pub servers: Vec<NodeServer>,
}

/// What these servers tell. Each slot that the plan moves is asked for once.
pub fn counts_of<I: ByteIn + Drop, O: ByteOut + Drop>(
    alloc: Global,
    servers: FoundCluster<I, O>,
    plan: &Plan,
) -> Result<Counts, Refusal>
    ensures counts { IfOk result (AreCounts servers.book plan.now) }
    ensures uncounted { IfErr result IsUncounted }
{
    let FoundCluster {
        book,
        mut links,
        surveyed,
        left_out: _,
    } = servers;
    match counted(alloc, &mut links, &book, &surveyed.survey, plan) {
        Ok(counts) => Ok(counts),
        Err(fault) => Err(Refusal::from(unfound(alloc, ClusterFault::Survey(fault))?)),
    }
}

/// What the servers of this book tell over these connections.
fn counted<I: ByteIn + Drop, O: ByteOut + Drop>(
    alloc: Global,
    links: &mut Vec<Link<I, O>>,
    book: &ServerBook,
    survey: &ServerSurvey,
    plan: &Plan,
) -> Result<Counts, SurveyFault>
    requires survey { vec_len links.old ≡ length survey.now.rows }
    requires book { vec_len links.old ≡ length book.now }
    ensures counts { IfOk result (AreCounts book.now plan.now) }
{
    let counted = plan.try_copy()?;
    let loaded = plan.try_copy()?;
    let nodes = book.nodes();
    let keys = key_counts(alloc, links, survey, counted)?;
    let servers = servers_of(alloc, links, book)?;
    let load = PlanLoad::of(loaded, nodes, keys.as_slice());
    Ok(Counts {
        keys,
        load,
        servers,
    })
}
