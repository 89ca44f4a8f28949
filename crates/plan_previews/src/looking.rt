//! What a plan comes to, where it starts from an even split, at a cluster of servers or from its survey.
ghost use Rattle.std.specs.Prelude.{IfErr, IfOk, vec_len};
ghost use Rattle.cluster_inspection.specs.Starts.{IsClean, IsNumberedBy, names_listed};
ghost use Rattle.cluster_survey.specs.Found.{IsFound};
ghost use Rattle.command_words.specs.Clusters.{IsAddressed};
ghost use Rattle.command_words.specs.Starts.{IsStart};
ghost use Rattle.command_words.specs.declared.usage.Start.TheVariants.{Cluster};
ghost use Rattle.plan_previews.specs.Previews.{IsCountedIn, IsPlainIn, IsPreviewAt, IsShownIn, IsUnshown, TellsFaultAt};

use crate::counting::counts_of;
use crate::preview::Preview;
use crate::verdicts::verdict_of;
use byte_streams::{ByteIn, ByteOut};
use cluster_inspection::{
    ASKING, Refusal, System, find_cluster, names_listed, open_slots, owners_at_start, plan_from,
    plan_in,
};
use cluster_survey::FoundCluster;
use command_words::{ClusterWords, Start};
use key_slots::NodeId;
use plan_changes::outline;
use plan_runner::Plan;
use std::alloc::Global;
use std::fs::{File, Files};
use std::net::{Net, TcpListener, TcpStream};
use std::time::Clock;

/// What the plan that the reader gives comes to; at a cluster of servers with its keys and what each server tells.
pub fn preview_from<
    H: Net<Listener = TcpListener, Stream = TcpStream> + Clock + Files<File = File> + AllocGlobal,
    R: ByteIn,
>(system: &System<'_, H>, start: &Start, reader: &mut R) -> Result<Preview, Refusal>
    requires { IsStart start.now }
    ensures shown { IfOk result (IsShownIn start.now
        (record { gave = R.gave; ends = R.ends; failures = R.failures; before = reader.old; after = reader.new })) }
    ensures unshown { IfErr result (IsUnshown start.now
        (record { gave = R.gave; ends = R.ends; failures = R.failures; before = reader.old; after = reader.new })) }
{
    match start {
        Start::Even(_) | Start::Survey(_) => plain_preview(system, start, reader),
        Start::Cluster(words) => counted_preview(system, words, reader),
    }
}

/// What the plan that the reader gives comes to, where keys are not counted. The plan is read first, so where it is
/// none that is told, whatever the servers say.
pub fn plain_preview<
    H: Net<Listener = TcpListener, Stream = TcpStream> + Clock + Files<File = File> + AllocGlobal,
    R: ByteIn,
>(system: &System<'_, H>, start: &Start, reader: &mut R) -> Result<Preview, Refusal>
    requires { IsStart start.now }
    ensures shown { IfOk result (IsPlainIn start.now
        (record { gave = R.gave; ends = R.ends; failures = R.failures; before = reader.old; after = reader.new })) }
    ensures unshown { IfErr result (IsUnshown start.now
        (record { gave = R.gave; ends = R.ends; failures = R.failures; before = reader.old; after = reader.new })) }
{
    let plan = plan_from(system.alloc, start, reader)?;
    let (owners, _book) = owners_at_start(system, start, names_listed(&plan))?;
    let verdict = verdict_of(&plan, &owners)?;
    let outline = outline(&plan, &owners, None)?;
    Ok(Preview {
        verdict,
        commands: plan.expanded_len(owners.nodes()),
        version: plan.version(),
        outline,
        servers: Vec::new(system.alloc),
    })
}

/// What the plan that the reader gives comes to at the cluster of servers, which has to be clean. The nodes are
/// numbered by the names of the plan.
fn counted_preview<
    H: Net<Listener = TcpListener, Stream = TcpStream> + Clock + Files<File = File> + AllocGlobal,
    R: ByteIn,
>(system: &System<'_, H>, words: &ClusterWords, reader: &mut R) -> Result<Preview, Refusal>
    requires { IsAddressed words.now }
    ensures shown { IfOk result (IsCountedIn
        (record { gave = R.gave; ends = R.ends; failures = R.failures; before = reader.old; after = reader.new })) }
    ensures unshown { IfErr result (IsUnshown (Cluster words.now)
        (record { gave = R.gave; ends = R.ends; failures = R.failures; before = reader.old; after = reader.new })) }
{
    let plan = plan_in(system.alloc, reader)?;
    let servers = find_cluster(system, words, names_listed(&plan), ASKING)?;
    if !servers.surveyed.survey.is_clean() {
        return Err(Refusal::from(open_slots(system.alloc)?));
    }
    preview_at(system.alloc, servers, plan)
}

/// What the plan comes to at these servers. Each slot that it moves is asked for its keys once, and each server for its
/// figures.
fn preview_at<I: ByteIn + Drop, O: ByteOut + Drop>(
    alloc: Global,
    servers: FoundCluster<I, O>,
    plan: Plan,
) -> Result<Preview, Refusal>
    requires found { IsFound servers.book servers.surveyed.survey servers.surveyed.epochs.items
        (vec_len servers.links) }
    requires numbered { IsNumberedBy (names_listed plan) servers.book }
    requires clean { IsClean servers.surveyed.survey }
    ensures shown { IfOk result (IsPreviewAt plan) }
    ensures unshown { IfErr result (TellsFaultAt plan) }
{
    let owners = servers.surveyed.survey.owners(NodeId::of(0)).try_copy()?;
    let mut verdict = verdict_of(&plan, &owners)?;
    let counts = counts_of(alloc, servers, &plan)?;
    let load = counts.load;
    verdict.report_load(load.moves, load.keys, load.commands)?;
    let outline = outline(&plan, &owners, Some(counts.keys.as_slice()))?;
    Ok(Preview {
        verdict,
        commands: plan.expanded_len(owners.nodes()),
        version: plan.version(),
        outline,
        servers: counts.servers,
    })
}
