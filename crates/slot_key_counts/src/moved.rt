//! How many keys the slots have that a plan moves.
ghost use Rattle.std.specs.Prelude.{◌≡◌, ◌<◌, ℕ, IfOk, MatchResult, length, slice_index_or, vec_len};
ghost use Rattle.cluster_admin.specs.Surveys.{owner_at};
ghost use Rattle.plan_language.specs.Lines.{plan_commands};
ghost use Rattle.slot_key_counts.specs.Moved.{AreCounted, IsUncounted, keys_at_owner, keys_told, with_all_moved};
ghost use Rattle.slot_key_counts.specs.Moved.{with_moved};
ghost use Rattle.slot_key_counts.specs.Questions.{asked_owner, no_owner, with_owner};
ghost use Rattle.slot_key_counts.specs.Rounds.{talk};
ghost use Rattle.slot_key_counts.specs.Tables.{told_in};
ghost use Rattle.slot_key_counts.specs.declared.questions.AskedNodes.TheVariants.{Owner};

use crate::key_table::KeyTable;
use crate::questions::{AskedNodes, SlotQuestions};
use crate::rounds::ask_all;
use byte_streams::{ByteIn, ByteOut};
use cluster_views::{ServerSurvey, SurveyFault};
use key_slots::{NodeId, SLOTS, Slot};
use plan_language::{Plan, PlanCommand, PlanCommands};
use server_links::Link;
use std::alloc::{AllocError, Global};

/// The keys of each slot that the plan moves, at the slot's owner (CLUSTER COUNTKEYSINSLOT), from slot 0 on; 0 for the
/// other slots. Each slot is asked for once, all servers at once, as [`ask_all`] does. A server whose answer is no
/// number is at fault.
pub fn key_counts<I: ByteIn + Drop, O: ByteOut + Drop>(
    alloc: Global,
    links: &mut Vec<Link<I, O>>,
    survey: &ServerSurvey,
    plan: Plan,
) -> Result<Vec<u32>, SurveyFault>
    requires { vec_len links.old ≡ length survey.now.rows }
    ensures counted { MatchResult result
        (λ v. AreCounted (talk (record { gave = I.gave; took = O.took })) (owner_at survey.now 0)
        (plan_commands (length survey.now.rows) plan.lines) (length survey.now.rows) links.old.items v.items
        links.new.items)
        (λ e. IsUncounted (talk (record { gave = I.gave; took = O.took })) (owner_at survey.now 0)
        (plan_commands (length survey.now.rows) plan.lines) (length survey.now.rows) links.old.items e
        links.new.items) }
    ensures all { IfOk result (λ v. vec_len v ≡ 16384) }
    ensures kept { vec_len links.new ≡ vec_len links.old }
{
    let mut counts = vec![in alloc; 0u32; SLOTS]?;
    let questions = moved_questions(alloc, survey, plan)?;
    match ask_all(alloc, links, survey.nodes(), &questions) {
        Ok(table) => {
            fill(&mut counts, &questions, &table);
            Ok(counts)
        }
        Err(fault) => Err(fault),
    }
}

/// The questions for the slots that the plan moves.
fn moved_questions(
    alloc: Global,
    survey: &ServerSurvey,
    plan: Plan,
) -> Result<SlotQuestions, AllocError>
    ensures whom { IfOk result (λ q. q.whom ≡ Owner) }
    ensures asked { IfOk result (λ q. asked_owner q ≡ with_all_moved (owner_at survey.now 0)
        (plan_commands (length survey.now.rows) plan.lines) no_owner) }
{
    let mut questions = SlotQuestions::new(alloc, AskedNodes::Owner)?;
    let mut commands = PlanCommands::of(plan, survey.nodes());
    while let Some(command) = commands.next() {
        ask_moved(&mut questions, survey, &command);
    }
    Ok(questions)
}

/// Asks for the slot that the command moves, if it moves one.
fn ask_moved(questions: &mut SlotQuestions, survey: &ServerSurvey, command: &PlanCommand)
    ensures whom { questions.new.whom ≡ questions.old.whom }
    ensures asked { asked_owner questions.new
        ≡ with_moved (owner_at survey.now 0) command.now (asked_owner questions.old) }
{
    match *command {
        PlanCommand::Drain { slot, .. } => ask_owner(questions, survey, slot),
        _ => {}
    }
}

/// Asks for the slot at its owner.
fn ask_owner(questions: &mut SlotQuestions, survey: &ServerSurvey, slot: Slot)
    ensures whom { questions.new.whom ≡ questions.old.whom }
    ensures asked { asked_owner questions.new
        ≡ with_owner (asked_owner questions.old) slot (owner_at survey.now 0 slot) }
{
    let _nodes = survey.nodes();
    questions.ask(slot, survey.owner(NodeId::of(0), slot));
}

/// Fills the counts of all slots with what their owners told.
fn fill(counts: &mut Vec<u32>, questions: &SlotQuestions, table: &KeyTable)
    requires { length counts.old.items ≡ 16384 }
    ensures count { length counts.new.items ≡ 16384 }
    ensures filled { (s : ℕ) → s < 16384 → slice_index_or counts.new.items s 0
        ≡ keys_at_owner (told_in table.now) s (asked_owner questions.now s) }
{
    for number in 0..SLOTS as u16 {
        counts[usize::from(number)] = keys_of(questions, table, Slot::of(number));
    }
}

/// What the owner of the slot told, if it was asked.
fn keys_of(questions: &SlotQuestions, table: &KeyTable, slot: Slot) -> u32
    ensures { result ≡ keys_at_owner (told_in table.now) slot (asked_owner questions.now slot) }
{
    match questions.owner(slot) {
        Some(owner) => told_keys(table.keys(owner, slot)),
        None => 0,
    }
}

/// No keys where none were told.
fn told_keys(keys: Option<u32>) -> u32
    ensures { result ≡ keys_told keys }
{
    keys.unwrap_or(0)
}
