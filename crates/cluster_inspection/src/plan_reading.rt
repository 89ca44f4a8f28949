//! Plans that are read from standard input or a file.
ghost use Rattle.std.specs.Prelude.{◌≡◌, ℕ, List, IfErr, IfOk, MatchResult, Ok};
ghost use Rattle.byte_streams.specs.Inputs.{IsWholeInput};
ghost use Rattle.cluster_inspection.specs.Refusals.{IsNoPlan, IsNoPlanIn, IsRefusal, plan_from};
ghost use Rattle.cluster_inspection.specs.Starts.{names_listed};
ghost use Rattle.node_names.specs.Names.{AreNames};
ghost use Rattle.plan_language.specs.Texts.{GivesPlan, Parsed, any_plan_of_text};

use crate::refusal::Refusal;
use byte_streams::{ByteIn, read_whole};
use command_words::Start;
use key_slots::NodeId;
use node_names::NodeName;
use plan_language::parse_any;
use plan_runner::{ParseFault, Plan, parse};
use std::alloc::Global;
use transcripts::Transcript;

/// The plan for a cluster of servers that the reader gives, or what is said of a text that is none.
pub fn plan_in<R: ByteIn>(alloc: Global, reader: &mut R) -> Result<Plan, Refusal>
    ensures plan { IfOk result (λ plan. (input : List ℕ)
        × IsWholeInput R.gave R.ends reader.old reader.new input × (any_plan_of_text input ≡ Ok plan)) }
    ensures refusal { IfErr result IsRefusal }
    ensures none { IfErr result (IsNoPlanIn any_plan_of_text
        (record { gave = R.gave; ends = R.ends; failures = R.failures; before = reader.old; after = reader.new })) }
{
    let text = read_whole(alloc, reader)?;
    plan_of(alloc, text.as_slice())
}

/// The plan from this start that the reader gives, or what is said of a text that is none. Only for a cluster of
/// servers, or its survey, it may list nodes.
pub fn plan_from<R: ByteIn>(alloc: Global, start: &Start, reader: &mut R) -> Result<Plan, Refusal>
    ensures plan { IfOk result (λ plan. (input : List ℕ)
        × IsWholeInput R.gave R.ends reader.old reader.new input × (plan_from start.now input ≡ Ok plan)) }
    ensures refusal { IfErr result IsRefusal }
    ensures none { IfErr result (IsNoPlanIn (plan_from start.now)
        (record { gave = R.gave; ends = R.ends; failures = R.failures; before = reader.old; after = reader.new })) }
{
    let text = read_whole(alloc, reader)?;
    plan_of_start(alloc, start, text.as_slice())
}

/// The plan from this start that the text is.
fn plan_of_start(alloc: Global, start: &Start, text: &[u8]) -> Result<Plan, Refusal>
    ensures plan { IfOk result (λ plan. plan_from start.now text.now ≡ Ok plan) }
    ensures refusal { IfErr result IsRefusal }
    ensures none { IfErr result (IsNoPlan (plan_from start.now text.now)) }
{
    match start {
        Start::Even(_) => plan_or_refusal(alloc, parse(alloc, text)),
        Start::Cluster(_) | Start::Survey(_) => plan_of(alloc, text),
    }
}

/// The plan for a cluster of servers that the text is.
pub fn plan_of(alloc: Global, text: &[u8]) -> Result<Plan, Refusal>
    ensures plan { IfOk result (λ plan. any_plan_of_text text.now ≡ Ok plan) }
    ensures refusal { IfErr result IsRefusal }
    ensures none { IfErr result (IsNoPlan (any_plan_of_text text.now)) }
{
    plan_or_refusal(alloc, parse_any(alloc, text))
}

/// The plan, or what is said of the fault of its text.
fn plan_or_refusal(alloc: Global, read: Result<Plan, ParseFault>) -> Result<Plan, Refusal>
    ensures plan { (parsed : Parsed) → GivesPlan read parsed
        → MatchResult result (λ plan. parsed ≡ Ok plan) (IsNoPlan parsed) }
    ensures refusal { IfErr result IsRefusal }
{
    match read {
        Ok(plan) => Ok(plan),
        Err(fault) => {
            let mut answer = Transcript::new(alloc);
            answer.report_no_plan(fault)?;
            Err(Refusal::Answer(answer))
        }
    }
}

/// The nodes that the plan's text lists with their names, none where it is of a version without them.
pub fn names_listed(plan: &Plan) -> &[(NodeId, NodeName)]
    ensures value { result.now ≡ names_listed plan.now }
    ensures are { AreNames result.now }
{
    match plan.names() {
        None => &[],
        Some(names) => names.get(),
    }
}
