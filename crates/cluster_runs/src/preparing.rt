//! A plan is made ready to run at a clean cluster of servers.
ghost use Rattle.std.specs.Prelude.{◌≡◌, ℕ, List, IfErr, IfOk, Ok, vec_len};
ghost use Rattle.cluster_runs.specs.Applying.{IsPlanInput};
ghost use Rattle.cluster_runs.specs.Preparing.{IsPreparedAtClean, SaysCommands, moves_of, notes_text};
ghost use Rattle.cluster_inspection.specs.Refusals.{IsRefusal};
ghost use Rattle.cluster_inspection.specs.Returning.{AreAway, dead_ids};
ghost use Rattle.cluster_inspection.specs.Starts.{IsClean, IsExpectedBy, IsNumberedBy, names_listed};
ghost use Rattle.command_words.specs.Clusters.{IsApply};
ghost use Rattle.plan_language.specs.Texts.{any_plan_of_text};
ghost use Rattle.cluster_survey.specs.Found.{IsFound};
ghost use Rattle.server_phases.specs.Opened.{IsOpened};
ghost use Rattle.server_shards.specs.Returning.{asks_of};

use crate::emptied::emptied_lines;
use crate::log_files::{before_apply, open_log};
use crate::prepared::Prepared;
use crate::stop_files::check_stop_file;
use byte_streams::{ByteIn, ByteOut};
use cluster_admin::Survey;
use cluster_inspection::{
    Refusal, System, check_returning, find_cluster, names_listed, open_slots, plan_in, plan_of,
    refused,
};
use cluster_survey::FoundCluster;
use cluster_views::ServerSurvey;
use command_words::ApplyWords;
use key_slots::NodeId;
use plan_changes::PlanLoad;
use plan_runner::Plan;
use server_links::{ServerInput, ServerOutput};
use server_phases::{PhaseFault, open_survey};
use server_runs::Counts;
use std::alloc::Global;
use std::fs::{self, File, Files};
use std::net::{Net, TcpListener, TcpStream};
use std::time::Clock;
use survey_texts::{node_lines, put_left_out};
use transcripts::{Transcript, verify_and_report};

/// How many milliseconds longer than a MIGRATE may take an answer is waited for, so that the answer of a slow server is
/// not lost.
pub(crate) const SPARE: u64 = 10_000;

/// Reads the plan, from standard input or from the file that the words name, finds the cluster by its names, which has
/// to be clean, verifies the plan by what the servers say now, and opens the log. Beside what is ready stand the text
/// that says how many commands the plan stands for, and the plan once more, for a run that continues with it.
pub(crate) fn prepare<
    'a,
    H: Net<Listener = TcpListener, Stream = TcpStream> + Clock + Files<File = File> + AllocGlobal,
    R: ByteIn,
>(
    system: &System<'a, H>,
    words: &ApplyWords,
    reader: &mut R,
) -> Result<
    (
        Prepared<ServerInput<'a, H>, ServerOutput<'a, H>>,
        Transcript,
        Plan,
    ),
    Refusal,
>
    requires { IsApply words.now }
    ensures read { IfOk result (λ r. (input : List ℕ)
        × IsPlanInput words.now.plan
        (record { gave = R.gave; ends = R.ends; failures = R.failures; before = reader.old; after = reader.new }) input
        × (any_plan_of_text input ≡ Ok r.2)) }
    ensures prepared { IfOk result (λ r. IsPreparedAtClean r.2 r.0) }
    ensures expected { IfOk result (λ r. IsExpectedBy words.now.cluster.expect r.0.servers.book) }
    ensures says { IfOk result (λ r. SaysCommands r.2 r.0.servers.surveyed.survey r.1.printed.items) }
    ensures away { IfOk result (λ r. AreAway (asks_of (record {
      gave = ⟦<ServerInput<'a, H> as ByteIn>⟧.gave;
      took = ⟦<ServerOutput<'a, H> as ByteOut>⟧.took;
    })) (dead_ids words.now.dead_for_good) (names_listed r.2) r.0.servers.left_out.items r.2.lines) }
    ensures refusal { IfErr result IsRefusal }
{
    let plan = plan_given(system, &words.plan, reader)?;
    let waiting = u64::from(words.timeout) + SPARE;
    let servers = find_cluster(system, &words.cluster, names_listed(&plan), waiting)?;
    if !servers.surveyed.survey.is_clean() {
        return Err(Refusal::from(open_slots(system.alloc)?));
    }
    let copy = plan.try_copy()?;
    let (prepared, count) = verified(system.alloc, servers, plan)?;
    check_returning(system, words, &prepared.servers, &copy, &copy)?;
    check_stop_file(system, words)?;
    let log = open_log(system, words, before_apply(words))?;
    Ok((prepared.with_log(log), count, copy))
}

/// The plan in the file with this path, or else on standard input, which is read to its end then.
fn plan_given<H: Files<File = File> + AllocGlobal, R: ByteIn>(
    system: &System<'_, H>,
    path: &Option<String>,
    reader: &mut R,
) -> Result<Plan, Refusal>
    ensures read { IfOk result (λ plan. (input : List ℕ)
        × IsPlanInput path.now
        (record { gave = R.gave; ends = R.ends; failures = R.failures; before = reader.old; after = reader.new }) input
        × (any_plan_of_text input ≡ Ok plan)) }
    ensures refusal { IfErr result IsRefusal }
{
    match path {
        Some(path) => plan_in_file(system, path.as_str()),
        None => plan_in(system.alloc, reader),
    }
}

/// The plan in the file with this path.
pub(crate) fn plan_in_file<H: Files<File = File> + AllocGlobal>(
    system: &System<'_, H>,
    path: &str,
) -> Result<Plan, Refusal>
    ensures plan { IfOk result (λ plan. (text : List ℕ) × (any_plan_of_text text ≡ Ok plan)) }
    ensures refusal { IfErr result IsRefusal }
{
    match fs::read(system.rt, path) {
        Ok(text) => plan_of(system.alloc, text.as_slice()),
        Err(error) => {
            let reason = format!(in system.alloc; "{path} could not be read: {error}")?;
            Err(refused(system.alloc, reason.as_bytes())?)
        }
    }
}

/// Verifies the plan by what the servers say.
fn verified<I: Drop, O: Drop>(
    alloc: Global,
    servers: FoundCluster<I, O>,
    plan: Plan,
) -> Result<(Prepared<I, O>, Transcript), Refusal>
    requires found { IsFound servers.book servers.surveyed.survey servers.surveyed.epochs.items
        (vec_len servers.links) }
    requires numbered { IsNumberedBy (names_listed plan) servers.book }
    requires clean { IsClean servers.surveyed.survey }
    ensures prepared { IfOk result (λ r. IsPreparedAtClean plan r.0) }
    ensures servers { IfOk result (λ r. r.0.servers ≡ servers) }
    ensures says { IfOk result (λ r. SaysCommands plan servers.surveyed.survey r.1.printed.items) }
    ensures shown { IfOk result (λ r. r.0.notes.items
        ≡ notes_text servers.left_out.items servers.book servers.surveyed.survey plan) }
    ensures refusal { IfErr result IsRefusal }
{
    let owners = servers.surveyed.survey.owners(NodeId::of(0)).try_copy()?;
    let survey = phases_of(alloc, &servers.surveyed.survey)?;
    let notes = notes_of(alloc, &servers, &plan)?;
    let moves = moves_of(plan.try_copy()?, owners.nodes());
    let mut count = Transcript::new(alloc);
    match verify_and_report(plan, &owners, &mut count)? {
        Some(plan) => {
            let prepared = Prepared {
                servers,
                survey,
                plan,
                moves,
                counts: Counts::new(),
                notes,
                log: None,
            };
            Ok((prepared, count))
        }
        None => Err(Refusal::Answer(count)),
    }
}

/// The survey of the model, or what keeps a slot from being in a phase.
pub(crate) fn phases_of(alloc: Global, survey: &ServerSurvey) -> Result<Survey, Refusal>
    ensures survey { IfOk result (IsOpened survey.now) }
    ensures refusal { IfErr result IsRefusal }
{
    match open_survey(alloc, survey) {
        Ok(survey) => Ok(survey),
        Err(PhaseFault::Memory) => Err(Refusal::Memory),
        Err(fault) => {
            let reason = format!(in alloc; "{fault}")?;
            Err(refused(alloc, reason.as_bytes())?)
        }
    }
}

/// How often a slot moves by the plan, in a cluster of so many nodes.
pub(crate) fn moves_of(plan: Plan, nodes: u8) -> u64
    ensures { result ≡ moves_of nodes plan }
{
    PlanLoad::of(plan, nodes, &[0; 16384]).moves
}

/// What is shown on standard error before the plan runs: the nodes, the masters that are left out, and which nodes are
/// emptied.
pub(crate) fn notes_of<I: Drop, O: Drop>(
    alloc: Global,
    servers: &FoundCluster<I, O>,
    plan: &Plan,
) -> Result<Vec<u8>, Refusal>
    ensures notes { IfOk result (λ n. n.items
        ≡ notes_text servers.now.left_out.items servers.now.book servers.now.surveyed.survey plan.now) }
    ensures refusal { IfErr result IsRefusal }
{
    let survey = &servers.surveyed.survey;
    let mut notes = node_lines(alloc, &servers.book, survey)?;
    put_left_out(&mut notes, servers.left_out.as_slice())?;
    let emptied = emptied_lines(alloc, plan, survey)?;
    notes.extend_from_slice(emptied.as_slice())?;
    Ok(notes)
}
