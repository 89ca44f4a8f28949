//! The command that serves a cluster.
ghost use Rattle.std.specs.Prelude.{◌≡◌, ◌≢◌, ◌≤◌, ◌⊎◌, ℕ, List, IfErr, IfOk, codes, false};
ghost use Rattle.byte_streams.specs.Inputs.{IsWholeInput};
ghost use Rattle.byte_streams.specs.declared.reading.Unread.TheVariants as unread;
ghost use Rattle.cluster_cli.specs.Serving.{IsServedTo, IsUnserved, options_given};
ghost use Rattle.command_words.specs.CommandLine.{IsServe};
ghost use Rattle.plan_language.specs.Faults.{parse_fault_text};
ghost use Rattle.plan_language.specs.Texts.{GivesPlan, plan_of_text};
ghost use Rattle.plan_language.specs.declared.parse_fault.ParseCause.TheVariants as cause;
ghost use Rattle.transcripts.specs.OutcomeTexts.{refused_text};
ghost use Rattle.transcripts.specs.Writing.{Writes};

use byte_streams::{ByteIn, ByteOut, Unread, read_whole};
use cluster_inspection::{out_of_memory, report};
use command_words::ServeWords;
use loopback_servers::{ServeOptions, serve_and_explain};
use plan_runner::{ParseFault, Plan, parse};
use std::alloc::{AllocError, Global};
use std::net::{Net, TcpListener, TcpStream};
use std::sync::Wait;
use std::thread::Threads;
use transcripts::Transcript;

/// Serves a cluster as the words say, with the plan that the reader gives, where they ask for one. The status is 1
/// where the plan is none, or as [`serve_and_explain`] says.
pub fn serve_words<
    H: Net<Listener = TcpListener, Stream = TcpStream> + Threads + Wait + Sync,
    R: ByteIn,
    W: ByteOut,
    E: ByteOut,
>(rt: &H, alloc: Global, words: &ServeWords, reader: &mut R, writer: &mut W, errors: &mut E) -> u8
    requires { IsServe words.now }
    ensures status { result ≤ 1 }
    ensures served { result ≡ 0 → IsServedTo
        (record { gave = R.gave; ends = R.ends; failures = R.failures; before = reader.old; after = reader.new })
        (record { took = W.took; failures = W.failures; before = writer.old; after = writer.new })
        words.now }
    ensures read { result ≡ 0 → R.failures reader.new ≡ R.failures reader.old }
    ensures unfailed { result ≡ 0 → W.failures writer.new ≡ W.failures writer.old }
    ensures unread { words.now.plan ≡ false → reader.new ≡ reader.old }
    ensures silent { result ≡ 0 → errors.new ≡ errors.old }
    ensures unserved { result ≡ 1 → IsUnserved
        (record { gave = R.gave; ends = R.ends; failures = R.failures; before = reader.old; after = reader.new })
        (record { took = W.took; failures = W.failures; before = writer.old; after = writer.new })
        words.now }
{
    let options = options_of(words);
    if !words.plan {
        return serve_and_explain(rt, alloc, &options, None, writer, errors);
    }
    match plan_in(alloc, reader) {
        Ok(Ok(plan)) => serve_and_explain(rt, alloc, &options, Some(plan), writer, errors),
        Ok(Err(fault)) => refuse(alloc, fault, writer),
        Err(Unread::Memory) => out_of_memory(writer),
        Err(Unread::Failed) => 1,
    }
}

/// The plan that the reader gives, or why it gives none.
fn plan_in<R: ByteIn>(alloc: Global, reader: &mut R) -> Result<Result<Plan, ParseFault>, Unread>
    ensures kept { IfOk result (λ _. R.failures reader.new ≡ R.failures reader.old) }
    ensures given { IfOk result (λ given. (input : List ℕ) × IsWholeInput R.gave R.ends reader.old reader.new input
        × GivesPlan given (plan_of_text input)) }
    ensures begun { IfErr result (λ _. (n : ℕ) × (input : List ℕ) × R.gave reader.old n input reader.new) }
    ensures failed { IfErr result (λ e. e ≡ unread.Failed → (R.failures reader.new ≢ R.failures reader.old)
        ⊎ ((input : List ℕ) × R.gave reader.old 9223372036854775807 input reader.new)) }
{
    let text = read_whole(alloc, reader)?;
    Ok(parse(alloc, text.as_slice()))
}

/// Says why a text is no plan, and gives the status of that. Where memory ran out, now or while the text was read, that
/// is reported.
fn refuse<W: ByteOut>(alloc: Global, fault: ParseFault, writer: &mut W) -> u8
    ensures status { result ≡ 1 }
    ensures reported { ((fault.cause ≢ cause.Memory)
        × Writes W.took W.failures (refused_text (parse_fault_text fault)) writer.old writer.new)
        ⊎ Writes W.took W.failures (codes "out of memory\n") writer.old writer.new }
{
    match refusal(alloc, fault) {
        Ok(answer) => report(&answer, writer),
        Err(AllocError) => out_of_memory(writer),
    }
}

fn refusal(alloc: Global, fault: ParseFault) -> Result<Transcript, AllocError>
    ensures cause { IfOk result (λ _. fault.cause ≢ cause.Memory) }
    ensures text { IfOk result (λ t. t.printed.items ≡ refused_text (parse_fault_text fault)) }
    ensures status { IfOk result (λ t. t.status ≡ 1) }
{
    let mut transcript = Transcript::new(alloc);
    transcript.report_no_plan(fault)?;
    Ok(transcript)
}

fn options_of(words: &ServeWords) -> ServeOptions
    ensures { result ≡ options_given words.now }
{
    ServeOptions {
        nodes: words.sizes.nodes,
        even: words.sizes.owning,
        base_port: words.base_port,
        workers: words.workers,
        connections: words.connections,
        answers_clients: words.answers_clients,
    }
}
