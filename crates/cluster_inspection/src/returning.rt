//! A plan is refused where a failed master may take the slots of one of its targets.
ghost use Rattle.std.specs.Prelude.{◌≡◌, IfErr, IfOk, MatchOption, None, OnOk};
ghost use Rattle.cluster_inspection.specs.Refusals.{IsRefusal, Says};
ghost use Rattle.cluster_inspection.specs.Returning.{AreAway, IsHeldBack, IsWithheld, dead_ids};
ghost use Rattle.cluster_inspection.specs.Starts.{names_listed};
ghost use Rattle.cluster_survey.specs.ClusterFaults.{text_of};
ghost use Rattle.cluster_survey.specs.declared.cluster_fault.ClusterFault.TheVariants as cluster;
ghost use Rattle.command_words.specs.Clusters.{IsAddressed};
ghost use Rattle.server_shards.specs.Returning.{asks_of};
ghost use Rattle.server_shards.specs.Targets.{NoneReturns};
ghost use Rattle.transcripts.specs.OutcomeTexts.{refused_text};
ghost use Rattle.transcripts.specs.RunTexts.{unsurveyed_text};

use crate::finding::{ASKING, find_cluster, unfound};
use crate::plan_reading::names_listed;
use crate::refusal::{Refusal, refused};
use crate::system::System;
use byte_streams::{ByteIn, ByteOut};
use cluster_survey::{ClusterFault, FoundCluster};
use cluster_views::SurveyFault;
use command_words::ApplyWords;
use plan_language::{Line, Plan};
use server_links::{ServerInput, ServerOutput};
use server_shards::returning_text;
use std::alloc::{AllocError, Global};
use std::fs::{File, Files};
use std::net::{Net, TcpListener, TcpStream};
use std::time::Clock;

/// Refuses lines of which a target is in one shard with a failed master that may take its slots when it returns as it
/// was, unless the words name that one as dead for good ([`returning_text`]). Where failed masters were left out as the
/// servers were found, they are found once more, by the names of the given lines, and the targets of the plan that is
/// to run are asked.
pub fn check_returning<
    'a,
    H: Net<Listener = TcpListener, Stream = TcpStream> + Clock + Files<File = File> + AllocGlobal,
    I: Drop,
    O: Drop,
>(
    system: &System<'a, H>,
    words: &ApplyWords,
    servers: &FoundCluster<I, O>,
    given: &Plan,
    plan: &Plan,
) -> Result<(), Refusal>
    requires { IsAddressed words.now.cluster }
    ensures away { OnOk result (AreAway (asks_of (record {
      gave = ⟦<ServerInput<'a, H> as ByteIn>⟧.gave;
      took = ⟦<ServerOutput<'a, H> as ByteOut>⟧.took;
    })) (dead_ids words.now.dead_for_good) (names_listed given.now) servers.now.left_out.items plan.now.lines) }
    ensures withheld { IfErr result (IsWithheld (asks_of (record {
      gave = ⟦<ServerInput<'a, H> as ByteIn>⟧.gave;
      took = ⟦<ServerOutput<'a, H> as ByteOut>⟧.took;
    })) (dead_ids words.now.dead_for_good) (names_listed given.now) servers.now.left_out.items plan.now.lines) }
    ensures refusal { IfErr result IsRefusal }
{
    if servers.left_out.as_slice().is_empty() {
        return Ok(());
    }
    let again = find_cluster(system, &words.cluster, names_listed(given), ASKING)?;
    let dead = dead_ids(&words.dead_for_good);
    check_targets(system.alloc, again, dead, plan.lines())
}

/// The IDs of the masters that never return, with commas between them.
fn dead_ids(given: &Option<String>) -> &[u8]
    ensures { result.now ≡ dead_ids given.now }
{
    match given {
        Some(ids) => ids.as_bytes(),
        None => b"",
    }
}

/// Refuses where a target of the lines, at these servers, lists a failed master that may return.
fn check_targets<I: ByteIn + Drop, O: ByteOut + Drop>(
    alloc: Global,
    servers: FoundCluster<I, O>,
    dead: &[u8],
    lines: &[Line],
) -> Result<(), Refusal>
    ensures away { OnOk result (NoneReturns (asks_of (record { gave = I.gave; took = O.took })) servers.book dead.now
        servers.left_out.items lines.now) }
    ensures held { IfErr result (IsHeldBack (asks_of (record { gave = I.gave; took = O.took })) servers.book dead.now
        servers.left_out.items lines.now) }
    ensures refusal { IfErr result IsRefusal }
{
    let FoundCluster {
        book,
        mut links,
        surveyed: _,
        left_out,
    } = servers;
    match returning_text(alloc, &mut links, &book, left_out.as_slice(), dead, lines) {
        Ok(text) => refused_with(alloc, text),
        Err(fault) => Err(unasked(alloc, fault)?),
    }
}

/// Refuses with this text, if there is one.
fn refused_with(alloc: Global, text: Option<Vec<u8>>) -> Result<(), Refusal>
    ensures silent { OnOk result (text ≡ None) }
    ensures told { IfErr result (λ r. MatchOption text ⊥ (λ t. Says (refused_text t.items) r)) }
    ensures refusal { IfErr result IsRefusal }
{
    match text {
        Some(text) => Err(refused(alloc, text.as_slice())?),
        None => Ok(()),
    }
}

/// What is said where a target does not answer.
fn unasked(alloc: Global, fault: SurveyFault) -> Result<Refusal, AllocError>
    ensures told { IfOk result (Says (unsurveyed_text (text_of (cluster.Survey fault)))) }
    ensures refusal { IfOk result IsRefusal }
{
    Ok(Refusal::from(unfound(alloc, ClusterFault::Survey(fault))?))
}
