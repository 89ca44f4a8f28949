//! The commands that print plans.
ghost use Rattle.std.specs.Prelude.{◌≡◌, ◌≢◌, ◌≤◌, ◌⊎◌, ℕ, Err, IfOk, string_bytes};
ghost use Rattle.command_words.specs.CommandLine.{IsDraining, IsRebalance, IsReshard};
ghost use Rattle.cluster_cli.specs.Planning.{IsDrainAnswer, IsRebalanceAnswer, IsReshardAnswer, NamesNoDrain};
ghost use Rattle.cluster_cli.specs.Planning.{NamesNoNodes, NamesNoWeights, Plans, SaysPlan, SaysPlanned, SaysUnnamed};
ghost use Rattle.cluster_cli.specs.Said.{IsSaid};
ghost use Rattle.cluster_inspection.specs.Faults.{naming_fault_text};
ghost use Rattle.cluster_inspection.specs.Naming.{named};
ghost use Rattle.plan_language.specs.Texts.{plan_text};
ghost use Rattle.reshard_planner.specs.Answers.{Answer, Gives};
ghost use Rattle.reshard_planner.specs.Faults.{planner_fault_text};
ghost use Rattle.reshard_planner.specs.declared.planner_fault.PlannerFault.TheVariants.{Memory};
ghost use Rattle.transcripts.specs.OutcomeTexts.{refused_text};

use crate::drained_nodes::drain_named;
use crate::misnaming::{misnamed_drain, misnamed_nodes, misnamed_weights};
use crate::misuse::misuse;
use crate::named_nodes::nodes_named;
use crate::remarks::{drain_remark, outcome_of, rebalance_remark, reshard_remark};
use crate::said::{Said, say};
use crate::slot_counts::slots_asked;
use crate::weights::weights_asked;
use byte_streams::ByteOut;
use cluster_inspection::{
    NamingFault, NoCluster, System, named_plan, out_of_memory, owners_at_start,
};
use command_words::{DrainWords, RebalanceWords, ReshardWords};
use plan_language::{Plan, print};
use reshard_planner::{PlannerFault, drain, rebalance, reshard};
use server_commands::ServerBook;
use std::alloc::{AllocError, Global};
use std::fs::{File, Files};
use std::net::{Net, TcpListener, TcpStream};
use std::time::Clock;
use transcripts::Transcript;

/// Prints the plan that moves so many slots to a node, or all that the sources own, or why there is none. The status is
/// 0 with a plan; 1 without, where servers can't be surveyed, memory ran out or a write failed; and 2 where the words
/// name no nodes of the cluster, which is reported on `errors`. There it is also remarked that there is nothing to move,
/// and how many slots the sources own, where that is not enough.
pub fn plan_reshard<
    H: Net<Listener = TcpListener, Stream = TcpStream> + Clock + Files<File = File> + AllocGlobal,
    W: ByteOut,
    E: ByteOut,
>(system: &System<'_, H>, words: &ReshardWords, writer: &mut W, errors: &mut E) -> u8
    requires { IsReshard words.now }
    ensures { Plans (IsReshardAnswer words.now) (NamesNoNodes words.now)
        (record { took = W.took; failures = W.failures; before = writer.old; after = writer.new })
        (record { took = E.took; failures = E.failures; before = errors.old; after = errors.new }) result }
{
    match reshard_answer(system, words) {
        Ok(Said::Answer(answer, remark)) => say(&answer, remark.as_slice(), writer, errors),
        Ok(Said::Misnamed(report)) => misuse(errors, report.as_slice()),
        Err(AllocError) => out_of_memory(writer),
    }
}

/// Prints the plan that gives each node its share, or why there is none, as [`plan_reshard`] does; the status is 2
/// where the words give no such weights.
pub fn plan_rebalance<
    H: Net<Listener = TcpListener, Stream = TcpStream> + Clock + Files<File = File> + AllocGlobal,
    W: ByteOut,
    E: ByteOut,
>(system: &System<'_, H>, words: &RebalanceWords, writer: &mut W, errors: &mut E) -> u8
    requires { IsRebalance words.now }
    ensures { Plans (IsRebalanceAnswer words.now) (NamesNoWeights words.now)
        (record { took = W.took; failures = W.failures; before = writer.old; after = writer.new })
        (record { took = E.took; failures = E.failures; before = errors.old; after = errors.new }) result }
{
    match rebalance_answer(system, words) {
        Ok(Said::Answer(answer, remark)) => say(&answer, remark.as_slice(), writer, errors),
        Ok(Said::Misnamed(report)) => misuse(errors, report.as_slice()),
        Err(AllocError) => out_of_memory(writer),
    }
}

/// Prints the plan that moves all slots of some nodes to others, or why there is none, as [`plan_reshard`] does; the
/// status is 2 where the words name no nodes of the cluster.
pub fn plan_drain<
    H: Net<Listener = TcpListener, Stream = TcpStream> + Clock + Files<File = File> + AllocGlobal,
    W: ByteOut,
    E: ByteOut,
>(system: &System<'_, H>, words: &DrainWords, writer: &mut W, errors: &mut E) -> u8
    requires { IsDraining words.now }
    ensures { Plans (IsDrainAnswer words.now) (NamesNoDrain words.now)
        (record { took = W.took; failures = W.failures; before = writer.old; after = writer.new })
        (record { took = E.took; failures = E.failures; before = errors.old; after = errors.new }) result }
{
    match drain_answer(system, words) {
        Ok(Said::Answer(answer, remark)) => say(&answer, remark.as_slice(), writer, errors),
        Ok(Said::Misnamed(report)) => misuse(errors, report.as_slice()),
        Err(AllocError) => out_of_memory(writer),
    }
}

/// What there is to say, unless the words name no nodes of the cluster.
fn reshard_answer<
    H: Net<Listener = TcpListener, Stream = TcpStream> + Clock + Files<File = File> + AllocGlobal,
>(system: &System<'_, H>, words: &ReshardWords) -> Result<Said, AllocError>
    requires { IsReshard words.now }
    ensures { IfOk result (IsSaid (IsReshardAnswer words.now) (NamesNoNodes words.now)) }
{
    let (owners, book) = match owners_at_start(system, &words.start, &[]) {
        Ok(found) => found,
        Err(NoCluster::Memory) => return Err(AllocError),
        Err(NoCluster::Answer(answer)) => return Ok(Said::Answer(answer, Vec::new(system.alloc))),
    };
    let nodes = owners.nodes();
    let Some((sources, target)) = nodes_named(words, system.alloc, nodes)? else {
        return Ok(Said::Misnamed(misnamed_nodes(system.alloc, words, nodes)?));
    };
    let sources = sources.as_slice();
    let count = slots_asked(words.slots, &owners, sources);
    let planned = reshard(system.alloc, &owners, sources, target, count, words.batch);
    let outcome = outcome_of(&planned);
    let answer = transcript_of(system.alloc, &book, planned)?;
    let remark = reshard_remark(system.alloc, outcome, &owners, sources)?;
    Ok(Said::Answer(answer, remark))
}

/// What there is to say, unless the words do not give a weight for each node.
fn rebalance_answer<
    H: Net<Listener = TcpListener, Stream = TcpStream> + Clock + Files<File = File> + AllocGlobal,
>(system: &System<'_, H>, words: &RebalanceWords) -> Result<Said, AllocError>
    requires { IsRebalance words.now }
    ensures { IfOk result (IsSaid (IsRebalanceAnswer words.now) (NamesNoWeights words.now)) }
{
    let (owners, book) = match owners_at_start(system, &words.start, &[]) {
        Ok(found) => found,
        Err(NoCluster::Memory) => return Err(AllocError),
        Err(NoCluster::Answer(answer)) => return Ok(Said::Answer(answer, Vec::new(system.alloc))),
    };
    let nodes = owners.nodes();
    let Some(weights) = weights_asked(words, system.alloc, nodes)? else {
        return Ok(Said::Misnamed(misnamed_weights(system.alloc, words, nodes)?));
    };
    let planned = rebalance(
        system.alloc,
        &owners,
        weights.as_slice(),
        words.threshold,
        words.use_empty,
        words.batch,
    );
    let outcome = outcome_of(&planned);
    let answer = transcript_of(system.alloc, &book, planned)?;
    let remark = rebalance_remark(system.alloc, outcome, words.use_empty, &owners)?;
    Ok(Said::Answer(answer, remark))
}

/// What there is to say, unless the words name no nodes of the cluster.
fn drain_answer<
    H: Net<Listener = TcpListener, Stream = TcpStream> + Clock + Files<File = File> + AllocGlobal,
>(system: &System<'_, H>, words: &DrainWords) -> Result<Said, AllocError>
    requires { IsDraining words.now }
    ensures { IfOk result (IsSaid (IsDrainAnswer words.now) (NamesNoDrain words.now)) }
{
    let (owners, book) = match owners_at_start(system, &words.start, &[]) {
        Ok(found) => found,
        Err(NoCluster::Memory) => return Err(AllocError),
        Err(NoCluster::Answer(answer)) => return Ok(Said::Answer(answer, Vec::new(system.alloc))),
    };
    let nodes = owners.nodes();
    let Some((sources, targets)) = drain_named(words, system.alloc, nodes)? else {
        return Ok(Said::Misnamed(misnamed_drain(system.alloc, words, nodes)?));
    };
    let planned = drain(
        system.alloc,
        &owners,
        sources.as_slice(),
        targets.as_slice(),
        words.batch,
    );
    let outcome = outcome_of(&planned);
    let answer = transcript_of(system.alloc, &book, planned)?;
    Ok(Said::Answer(answer, drain_remark(system.alloc, outcome)?))
}

/// The plan's text, or why there is no plan. Out of memory is an error of its own.
fn transcript_of(
    alloc: Global,
    book: &Option<ServerBook>,
    planned: Result<Plan, PlannerFault>,
) -> Result<Transcript, AllocError>
    ensures status { IfOk result (λ t. t.status ≤ 1) }
    ensures says { IfOk result (λ t. (nodes : ℕ) (wanted : Answer) → Gives nodes planned wanted
        → SaysPlanned nodes book.now wanted t.status t.printed.items) }
    ensures there { IfOk result (λ _. planned ≢ Err Memory) }
{
    match planned {
        Ok(plan) => transcript_of_plan(alloc, book, plan),
        Err(PlannerFault::Memory) => Err(AllocError),
        Err(fault) => transcript_of_fault(alloc, fault),
    }
}

/// The text of the plan, at a cluster of servers with the names of the nodes that it mentions, where it lists nodes.
fn transcript_of_plan(
    alloc: Global,
    book: &Option<ServerBook>,
    plan: Plan,
) -> Result<Transcript, AllocError>
    ensures status { IfOk result (λ t. t.status ≤ 1) }
    ensures says { IfOk result (λ t. SaysPlan book.now plan t.status t.printed.items) }
{
    match book {
        None => transcript_of_text(alloc, &plan),
        Some(book) => transcript_by_book(alloc, book, plan),
    }
}

fn transcript_by_book(
    alloc: Global,
    book: &ServerBook,
    plan: Plan,
) -> Result<Transcript, AllocError>
    ensures status { IfOk result (λ t. t.status ≤ 1) }
    ensures says { IfOk result (λ t. ((t.status ≡ 0) × (t.printed.items ≡ plan_text (named book.now plan)))
        ⊎ SaysUnnamed book.now plan t.status t.printed.items) }
{
    match named_plan(plan, book) {
        Ok(plan) => transcript_of_text(alloc, &plan),
        Err(NamingFault::Memory) => Err(AllocError),
        Err(fault) => transcript_of_name(alloc, fault),
    }
}

fn transcript_of_text(alloc: Global, plan: &Plan) -> Result<Transcript, AllocError>
    ensures status { IfOk result (λ t. t.status ≡ 0) }
    ensures text { IfOk result (λ t. t.printed.items ≡ plan_text plan.now) }
{
    let mut transcript = Transcript::new(alloc);
    transcript.printed = print(alloc, plan)?;
    Ok(transcript)
}

fn transcript_of_name(alloc: Global, fault: NamingFault) -> Result<Transcript, AllocError>
    ensures status { IfOk result (λ t. t.status ≡ 1) }
    ensures text { IfOk result (λ t. t.printed.items ≡ refused_text (naming_fault_text fault)) }
{
    let text = format!(in alloc; "refused: {fault}\n")?;
    Ok(refusing(alloc, text))
}

fn transcript_of_fault(alloc: Global, fault: PlannerFault) -> Result<Transcript, AllocError>
    ensures status { IfOk result (λ t. t.status ≡ 1) }
    ensures text { IfOk result (λ t. t.printed.items ≡ refused_text (planner_fault_text fault)) }
{
    let text = format!(in alloc; "refused: {fault}\n")?;
    Ok(refusing(alloc, text))
}

/// A refusal in these words.
fn refusing(alloc: Global, text: String) -> Transcript
    ensures status { result.status ≡ 1 }
    ensures text { result.printed.items ≡ string_bytes text }
{
    let mut transcript = Transcript::new(alloc);
    transcript.printed = text.into_bytes();
    transcript.status = 1;
    transcript
}
