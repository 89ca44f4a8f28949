//! The command that verifies a plan at a cluster of servers.
ghost use Rattle.std.specs.Prelude.{◌≡◌, ℕ, List, IfErr, IfOk, length, vec_len};
ghost use Rattle.byte_streams.specs.Inputs.{IsWholeInput};
ghost use Rattle.cluster_inspection.specs.Refusals.{IsRefusal};
ghost use Rattle.cluster_inspection.specs.Starts.{IsClean, IsNumberedBy, names_listed};
ghost use Rattle.cluster_inspection.specs.VerifyingAt.{IsAnswerAt, SaysOfPlanAt, VerifiesAt};
ghost use Rattle.command_words.specs.Clusters.{IsAddressed};
ghost use Rattle.plan_language.specs.Lines.{plan_commands};
ghost use Rattle.plan_changes.specs.Loads.{load_of};
ghost use Rattle.cluster_survey.specs.Found.{IsFound};

use crate::endings::report;
use crate::finding::{ASKING, find_cluster, unfound};
use crate::no_cluster::open_slots;
use crate::plan_reading::{names_listed, plan_in};
use crate::refusal::{Refusal, report_refusal};
use crate::system::System;
use byte_streams::{ByteIn, ByteOut};
use cluster_survey::{ClusterFault, FoundCluster};
use command_words::ClusterWords;
use key_slots::NodeId;
use plan_changes::PlanLoad;
use plan_runner::Plan;
use slot_key_counts::key_counts;
use std::alloc::Global;
use std::fs::{File, Files};
use std::net::{Net, TcpListener, TcpStream};
use std::time::Clock;
use transcripts::{Transcript, verify_and_report};

/// Verifies the plan that the reader gives at the cluster of servers, which has to be clean, and writes the line that
/// says how many commands the plan stands for, and one that says what it will move; or why it is refused. The plan is
/// read first, so where it is none that is told, whatever the servers say. The status is 0 where the plan is accepted,
/// and 1 where it is refused, there is no survey, memory ran out, or a read or write failed.
pub fn verify_at<
    H: Net<Listener = TcpListener, Stream = TcpStream> + Clock + Files<File = File> + AllocGlobal,
    R: ByteIn,
    W: ByteOut,
>(system: &System<'_, H>, words: &ClusterWords, reader: &mut R, writer: &mut W) -> u8
    requires { IsAddressed words.now }
    ensures { VerifiesAt
        (record { gave = R.gave; ends = R.ends; failures = R.failures; before = reader.old; after = reader.new })
        (record { took = W.took; failures = W.failures; before = writer.old; after = writer.new }) result }
{
    match answer_at(system, words, reader) {
        Ok(answer) => report(&answer, writer),
        Err(refusal) => report_refusal(refusal, writer),
    }
}

/// What there is to say of the plan that the reader gives, by what the servers say.
fn answer_at<
    H: Net<Listener = TcpListener, Stream = TcpStream> + Clock + Files<File = File> + AllocGlobal,
    R: ByteIn,
>(system: &System<'_, H>, words: &ClusterWords, reader: &mut R) -> Result<Transcript, Refusal>
    requires { IsAddressed words.now }
    ensures refusal { IfErr result IsRefusal }
    ensures says { IfOk result (λ t. (input : List ℕ) × IsWholeInput R.gave R.ends reader.old reader.new input
        × IsAnswerAt input t.status t.printed.items) }
{
    let plan = plan_in(system.alloc, reader)?;
    let servers = find_cluster(system, words, names_listed(&plan), ASKING)?;
    if !servers.surveyed.survey.is_clean() {
        return Err(Refusal::from(open_slots(system.alloc)?));
    }
    answer_of(system.alloc, servers, plan)
}

/// What there is to say of the plan, by what the servers say.
fn answer_of<I: ByteIn + Drop, O: ByteOut + Drop>(
    alloc: Global,
    servers: FoundCluster<I, O>,
    plan: Plan,
) -> Result<Transcript, Refusal>
    requires found { IsFound servers.book servers.surveyed.survey servers.surveyed.epochs.items
        (vec_len servers.links) }
    requires numbered { IsNumberedBy (names_listed plan) servers.book }
    requires clean { IsClean servers.surveyed.survey }
    ensures refusal { IfErr result IsRefusal }
    ensures says { IfOk result (λ t. SaysOfPlanAt plan t.status t.printed.items) }
{
    let owners = servers.surveyed.survey.owners(NodeId::of(0)).try_copy()?;
    let copy = plan.try_copy()?;
    let mut answer = Transcript::new(alloc);
    if let Some(verified) = verify_and_report(plan, &owners, &mut answer)? {
        drop(verified);
        let load = load_of(alloc, servers, copy)?;
        answer.report_load(load.moves, load.keys, load.commands)?;
    }
    Ok(answer)
}

/// What the plan will move at these servers.
fn load_of<I: ByteIn + Drop, O: ByteOut + Drop>(
    alloc: Global,
    servers: FoundCluster<I, O>,
    plan: Plan,
) -> Result<PlanLoad, Refusal>
    ensures load { IfOk result (λ l. (keys : List ℕ)
        × (l ≡ load_of keys (plan_commands (length servers.book) plan.lines))) }
    ensures refusal { IfErr result IsRefusal }
{
    let FoundCluster {
        book,
        mut links,
        surveyed,
        left_out: _,
    } = servers;
    let nodes = book.nodes();
    let again = plan.try_copy()?;
    match key_counts(alloc, &mut links, &surveyed.survey, plan) {
        Ok(keys) => Ok(PlanLoad::of(again, nodes, keys.as_slice())),
        Err(fault) => Err(Refusal::from(unfound(alloc, ClusterFault::Survey(fault))?)),
    }
}
