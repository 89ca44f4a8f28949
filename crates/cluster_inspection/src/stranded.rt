//! Keys of a cluster of servers that lie at a node which does not own their slot.
ghost use Rattle.std.specs.Prelude.{◌≡◌, ◌<◌, ◌≤◌, ◌↔◌, ℕ, [], IfOk, length, vec_len};
ghost use Rattle.cluster_inspection.specs.Answers.{Tells};
ghost use Rattle.cluster_inspection.specs.Stranded.{HasLines, HasStrandedLines, SaysStranded, TellsKeys};
ghost use Rattle.cluster_inspection.specs.Stranded.{closed_owner, with_some};
ghost use Rattle.command_words.specs.Clusters.{IsAddressed};
ghost use Rattle.cluster_survey.specs.Found.{IsFound};
ghost use Rattle.slot_key_counts.specs.Questions.{asked_owner};
ghost use Rattle.slot_key_counts.specs.Tables.{told_in};
ghost use Rattle.slot_key_counts.specs.declared.questions.AskedNodes.TheVariants.{Others};
ghost use Rattle.server_phases.specs.ServerPhases.{ServerPhases, ShowsPhases};

use crate::endings::{out_of_memory, report};
use crate::finding::{ASKING, find_cluster};
use crate::no_cluster::NoCluster;
use crate::survey::uncounted;
use crate::system::System;
use crate::table_counts::TableCounts;
use byte_streams::{ByteIn, ByteOut};
use cluster_survey::FoundCluster;
use cluster_views::{ServerSurvey, SurveyFault};
use command_words::ClusterWords;
use key_slots::{SLOTS, Slot};
use server_links::{Link, ServerInput, ServerOutput};
use server_phases::{ServerPhase, phase_at, put_stranded_lines};
use slot_key_counts::{AskedNodes, KeyTable, SlotQuestions, ask_all};
use std::alloc::{AllocError, Global};
use std::fs::{File, Files};
use std::net::{Net, TcpListener, TcpStream};
use std::time::Clock;
use transcripts::Transcript;

/// Surveys the cluster, and prints the lines of [`put_stranded_lines`]. The status is 0 where there is none, and 1
/// where there are some, there is no survey, a node does not tell its keys, memory ran out or a write failed. Each node
/// is asked for each closed slot that it does not own, one after the other.
pub fn tell_stranded<
    'a,
    H: Net<Listener = TcpListener, Stream = TcpStream> + Clock + Files<File = File> + AllocGlobal,
    W: ByteOut,
>(system: &System<'a, H>, words: &ClusterWords, writer: &mut W) -> u8
    requires { IsAddressed words.now }
    ensures { Tells (SaysStranded (TellsKeys (record {
      gave = ⟦<ServerInput<'a, H> as ByteIn>⟧.gave;
      took = ⟦<ServerOutput<'a, H> as ByteOut>⟧.took;
    }))) (record { took = W.took; failures = W.failures; before = writer.old; after = writer.new }) result }
{
    match stranded_answer(system, words) {
        Ok(answer) => report(&answer, writer),
        Err(AllocError) => out_of_memory(writer),
    }
}

/// What there is to say.
fn stranded_answer<
    'a,
    H: Net<Listener = TcpListener, Stream = TcpStream> + Clock + Files<File = File> + AllocGlobal,
>(system: &System<'a, H>, words: &ClusterWords) -> Result<Transcript, AllocError>
    requires { IsAddressed words.now }
    ensures status { IfOk result (λ t. t.status ≤ 1) }
    ensures says { IfOk result (λ t. SaysStranded (TellsKeys (record {
      gave = ⟦<ServerInput<'a, H> as ByteIn>⟧.gave;
      took = ⟦<ServerOutput<'a, H> as ByteOut>⟧.took;
    })) t.status t.printed.items) }
{
    let servers = match find_cluster(system, words, &[], ASKING) {
        Ok(servers) => servers,
        Err(NoCluster::Memory) => return Err(AllocError),
        Err(NoCluster::Answer(answer)) => return Ok(answer),
    };
    lines_of(system.alloc, servers)
}

/// The lines, or why keys could not be counted.
fn lines_of<I: ByteIn + Drop, O: ByteOut + Drop>(
    alloc: Global,
    servers: FoundCluster<I, O>,
) -> Result<Transcript, AllocError>
    requires { IsFound servers.book servers.surveyed.survey servers.surveyed.epochs.items (vec_len servers.links) }
    ensures status { IfOk result (λ t. t.status ≤ 1) }
    ensures says { IfOk result (λ t. SaysStranded (TellsKeys (record { gave = I.gave; took = O.took })) t.status
        t.printed.items) }
{
    let FoundCluster {
        book: _,
        mut links,
        surveyed,
        left_out: _,
    } = servers;
    match told_lines(alloc, &mut links, &surveyed.survey) {
        Ok(lines) => Ok(with_lines(alloc, lines)),
        Err(SurveyFault::Memory) => Err(AllocError),
        Err(fault) => uncounted(alloc, fault),
    }
}

/// The lines of what the nodes tell.
fn told_lines<I: ByteIn + Drop, O: ByteOut + Drop>(
    alloc: Global,
    links: &mut Vec<Link<I, O>>,
    survey: &ServerSurvey,
) -> Result<Vec<u8>, SurveyFault>
    requires { vec_len links.old ≡ length survey.now.rows }
    ensures lines { IfOk result (λ v.
        HasStrandedLines (TellsKeys (record { gave = I.gave; took = O.took })) survey.now v.items) }
{
    let questions = closed_questions(alloc, survey)?;
    match ask_all(alloc, links, survey.nodes(), &questions) {
        Ok(table) => lines_in(alloc, survey, table),
        Err(fault) => Err(fault),
    }
}

/// The lines of what stands in the table.
fn lines_in(alloc: Global, survey: &ServerSurvey, table: KeyTable) -> Result<Vec<u8>, SurveyFault>
    ensures lines { IfOk result (λ v. HasLines (told_in table) survey.now v.items) }
{
    let mut lines = Vec::new(alloc);
    let mut counts = TableCounts::new(table);
    match put_stranded_lines(&mut lines, survey, &mut counts) {
        Ok(()) => Ok(lines),
        Err(fault) => Err(fault),
    }
}

/// Of each closed slot all nodes but its owner are asked.
fn closed_questions(alloc: Global, survey: &ServerSurvey) -> Result<SlotQuestions, AllocError>
    ensures whom { IfOk result (λ q. q.whom ≡ Others) }
    ensures asked { IfOk result (λ q. (phases : ServerPhases) → ShowsPhases survey.now phases
        → (s : ℕ) → s < 16384 → asked_owner q s ≡ closed_owner (phases s)) }
{
    let mut questions = SlotQuestions::new(alloc, AskedNodes::Others)?;
    for number in 0..SLOTS as u16 {
        let slot = Slot::of(number);
        ask_closed(&mut questions, slot, &phase_at(survey, slot));
    }
    Ok(questions)
}

/// Asks for the slot, if it is closed.
fn ask_closed(questions: &mut SlotQuestions, slot: Slot, phase: &ServerPhase)
    ensures whom { questions.new.whom ≡ questions.old.whom }
    ensures asked { asked_owner questions.new ≡ with_some (asked_owner questions.old) slot (closed_owner phase.now) }
{
    match *phase {
        ServerPhase::Closed(owner) => questions.ask(slot, owner),
        _ => {}
    }
}

/// The answer that has these lines.
fn with_lines(alloc: Global, lines: Vec<u8>) -> Transcript
    ensures text { result.printed.items ≡ lines.items }
    ensures status { result.status ≤ 1 }
    ensures none { (result.status ≡ 0) ↔ (lines.items ≡ []) }
{
    let mut answer = Transcript::new(alloc);
    answer.status = if lines.as_slice().is_empty() { 0 } else { 1 };
    answer.printed = lines;
    answer
}
