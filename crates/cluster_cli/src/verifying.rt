ghost use Rattle.std.specs.Prelude.{◌≡◌, ◌≢◌, ◌≤◌, ◌⊎◌, ℕ, List, [], IfErr, IfOk, OnOk};
ghost use Rattle.plan_language.specs.Texts.{plan_of_text};
ghost use Rattle.command_words.specs.Options.{IsCluster};
ghost use Rattle.command_words.specs.Starts.{IsStart};
ghost use Rattle.byte_streams.specs.Inputs.{IsWholeInput};
ghost use Rattle.cluster_cli.specs.Running.{VerifiesFrom};
ghost use Rattle.cluster_cli.specs.Verifying.{IsAnswer, IsAnswered, IsNotVerified, Says};
ghost use Rattle.transcripts.specs.PlanVerdicts.{SaysOfPlan};
ghost use Rattle.byte_streams.specs.declared.reading.Unread.TheVariants as unread;

use byte_streams::{ByteIn, ByteOut, Unread, read_whole};
use cluster_inspection::{System, out_of_memory, report, verify_at, verify_plainly};
use command_words::{Sizes, Start};
use key_slots::OwnerTable;
use plan_runner::{Plan, parse};
use std::alloc::{AllocError, Global};
use std::fs::{File, Files};
use std::net::{Net, TcpListener, TcpStream};
use std::time::Clock;
use transcripts::{Transcript, verify_and_report};

/// Verifies the plan that the reader gives, by an even split, at a cluster of servers or by its survey.
pub fn verify_from<
    H: Net<Listener = TcpListener, Stream = TcpStream> + Clock + Files<File = File> + AllocGlobal,
    R: ByteIn,
    W: ByteOut,
>(system: &System<'_, H>, start: &Start, reader: &mut R, writer: &mut W) -> u8
    requires { IsStart start.now }
    ensures { VerifiesFrom
        (record { gave = R.gave; ends = R.ends; failures = R.failures; before = reader.old; after = reader.new })
        (record { took = W.took; failures = W.failures; before = writer.old; after = writer.new }) result start.now }
{
    match start {
        Start::Even(sizes) => verify_plan(system.alloc, *sizes, reader, writer),
        Start::Cluster(words) => verify_at(system, words, reader, writer),
        Start::Survey(_) => verify_plainly(system, start, reader, writer),
    }
}

/// Verifies the plan that the reader gives by the even split of these sizes, and writes the line that says how many
/// commands the plan stands for, or why it is refused. The status is 0 where the plan is accepted, and 1 where it is
/// refused, memory ran out, or a read or write failed.
pub fn verify_plan<R: ByteIn, W: ByteOut>(
    alloc: Global,
    sizes: Sizes,
    reader: &mut R,
    writer: &mut W,
) -> u8
    requires { IsCluster sizes }
    ensures status { result ≤ 1 }
    ensures verified { result ≡ 0 → IsAnswered
        (record { gave = R.gave; ends = R.ends; failures = R.failures; before = reader.old; after = reader.new })
        (record { took = W.took; failures = W.failures; before = writer.old; after = writer.new })
        sizes 0 }
    ensures refused { result ≡ 1 → IsNotVerified
        (record { gave = R.gave; ends = R.ends; failures = R.failures; before = reader.old; after = reader.new })
        (record { took = W.took; failures = W.failures; before = writer.old; after = writer.new })
        sizes }
    ensures read { result ≡ 0 → R.failures reader.new ≡ R.failures reader.old }
    ensures unfailed { result ≡ 0 → W.failures writer.new ≡ W.failures writer.old }
{
    match answer(alloc, sizes, reader) {
        Ok(answer) => report(&answer, writer),
        Err(Unread::Memory) => out_of_memory(writer),
        Err(Unread::Failed) => 1,
    }
}

/// What there is to say of the plan that the reader gives.
fn answer<R: ByteIn>(alloc: Global, sizes: Sizes, reader: &mut R) -> Result<Transcript, Unread>
    requires { IsCluster sizes }
    ensures answer { IfOk result (λ t. t.status ≤ 1) }
    ensures says { IfOk result (λ t. (input : List ℕ) × IsWholeInput R.gave R.ends reader.old reader.new input
        × IsAnswer sizes input t.status t.printed.items) }
    ensures kept { IfOk result (λ _. R.failures reader.new ≡ R.failures reader.old) }
    ensures begun { IfErr result (λ _. (n : ℕ) × (input : List ℕ) × R.gave reader.old n input reader.new) }
    ensures failed { IfErr result (λ e. e ≡ unread.Failed → (R.failures reader.new ≢ R.failures reader.old)
        ⊎ ((input : List ℕ) × R.gave reader.old 9223372036854775807 input reader.new)) }
{
    let text = read_whole(alloc, reader)?;
    Ok(answer_to(alloc, sizes, text.as_slice())?)
}

/// What there is to say of a plan's text, by the even split of these sizes.
fn answer_to(alloc: Global, sizes: Sizes, text: &[u8]) -> Result<Transcript, AllocError>
    requires { IsCluster sizes }
    ensures status { IfOk result (λ t. t.status ≤ 1) }
    ensures says { IfOk result (λ t. IsAnswer sizes text.now t.status t.printed.items) }
{
    let owners = OwnerTable::even(alloc, sizes.nodes, sizes.owning)?;
    answer_by(alloc, &owners, text)
}

/// What there is to say of a plan's text, by this owner table.
fn answer_by(alloc: Global, owners: &OwnerTable, text: &[u8]) -> Result<Transcript, AllocError>
    ensures status { IfOk result (λ t. t.status ≤ 1) }
    ensures says { IfOk result (λ t. Says owners.now (plan_of_text text.now) t.status t.printed.items) }
{
    let mut transcript = Transcript::new(alloc);
    match parse(alloc, text) {
        Ok(plan) => answer_plan(plan, owners, &mut transcript)?,
        Err(fault) => transcript.report_no_plan(fault)?,
    }
    Ok(transcript)
}

/// Says how many commands the plan stands for, or why it is not legal.
fn answer_plan(
    plan: Plan,
    owners: &OwnerTable,
    transcript: &mut Transcript,
) -> Result<(), AllocError>
    requires fresh { transcript.old.printed.items ≡ [] }
    requires status { transcript.old.status ≡ 0 }
    ensures status { OnOk result (transcript.new.status ≤ 1) }
    ensures says { IfOk result (λ _. SaysOfPlan owners.now plan transcript.new.status transcript.new.printed.items) }
{
    let verified = verify_and_report(plan, owners, transcript)?;
    drop(verified);
    Ok(())
}
