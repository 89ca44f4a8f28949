ghost use Rattle.std.specs.Prelude.{◌≡◌, ◌≤◌, ◌↔◌, ◌⊎◌, IfErr, IsTrue, codes};
ghost use Rattle.command_words.specs.CommandLine.{texts};
ghost use Rattle.cluster_cli.specs.Running.{AsksServers, Does, Ends, IsDone, IsInRange, MayAskServers, Shows};
ghost use Rattle.cluster_cli.specs.Running.{StartsAtServers, fault_line};
ghost use Rattle.transcripts.specs.Writing.{Writes};

use crate::forgetting::forget_node;
use crate::misuse::misuse;
use crate::planning::{plan_drain, plan_rebalance, plan_reshard};
use crate::service::serve_words;
use crate::verifying::verify_from;
use byte_streams::{ByteIn, ByteOut};
use cluster_inspection::{
    CredentialFault, System, credentials_given, out_of_memory, show, survey_cluster,
};
use cluster_runs::{apply_plan, resume_plan};
use command_words::{Start, Usage, parse};
use plan_previews::{draw_now, draw_plan, explain_plan};
use rehearsal::rehearse;
use server_commands::Credentials;
use std::alloc::{AllocError, Global};
use std::env::Env;
use std::fs::{File, Files};
use std::net::{Net, TcpListener, TcpStream};
use std::sync::Wait;
use std::thread::Threads;
use std::time::Clock;

/// The whole program on its words, without its name. Its status is 0 where all went well, 1 where something was
/// refused, failed or ran out of memory, and 2 for wrong usage, which is reported on `errors`; so are a port at which
/// servers can't listen, and a password or a user in the environment that can't be shown to servers, where a command
/// asks those. It is 3 where a plan was paused. The reader is read for a rehearsal, for a plan that is verified,
/// explained or drawn, and for the plan that servers run, and else not at all.
pub fn run_words<
    H: Net<Listener = TcpListener, Stream = TcpStream>
        + Threads
        + Wait
        + Sync
        + Clock
        + Files<File = File>
        + Env
        + AllocGlobal,
    R: ByteIn,
    W: ByteOut,
    E: ByteOut,
>(rt: &H, alloc: Global, words: &[String], reader: &mut R, writer: &mut W, errors: &mut E) -> u8
    ensures status { result ≤ 3 }
    ensures done { IsDone (texts words.now)
        (record { gave = R.gave; ends = R.ends; failures = R.failures; before = reader.old; after = reader.new })
        (record { took = W.took; failures = W.failures; before = writer.old; after = writer.new })
        (record { took = E.took; failures = E.failures; before = errors.old; after = errors.new }) result }
{
    match parse(alloc, words) {
        Ok(usage) => run_usage(rt, alloc, &usage, reader, writer, errors),
        Err(AllocError) => out_of_memory(writer),
    }
}

/// Does what the words ask for, and gives the status.
fn run_usage<
    H: Net<Listener = TcpListener, Stream = TcpStream>
        + Threads
        + Wait
        + Sync
        + Clock
        + Files<File = File>
        + Env
        + AllocGlobal,
    R: ByteIn,
    W: ByteOut,
    E: ByteOut,
>(rt: &H, alloc: Global, usage: &Usage, reader: &mut R, writer: &mut W, errors: &mut E) -> u8
    requires { IsInRange usage.now }
    ensures status { result ≤ 3 }
    ensures ends { Ends
        (record { gave = R.gave; ends = R.ends; failures = R.failures; before = reader.old; after = reader.new })
        (record { took = W.took; failures = W.failures; before = writer.old; after = writer.new })
        (record { took = E.took; failures = E.failures; before = errors.old; after = errors.new }) result usage.now }
{
    match usage {
        Usage::Rehearse => rehearse(alloc, reader, writer),
        Usage::Serve(words) => serve_words(rt, alloc, words, reader, writer, errors),
        Usage::Help(text) => show(writer, text.as_bytes()),
        Usage::Wrong(text) => misuse(errors, text.as_bytes()),
        Usage::Verify(_)
        | Usage::Reshard(_)
        | Usage::Rebalance(_)
        | Usage::Survey(_)
        | Usage::Apply(_)
        | Usage::Resume(_)
        | Usage::Explain(_)
        | Usage::Drain(_)
        | Usage::Forget(_)
        | Usage::Draw(_)
        | Usage::DrawNow(_) => run_by_servers(rt, alloc, usage, reader, writer, errors),
    }
}

/// Does what the words ask for, where that may be asked of servers.
fn run_by_servers<
    H: Net<Listener = TcpListener, Stream = TcpStream>
        + Clock
        + Files<File = File>
        + Env
        + AllocGlobal,
    R: ByteIn,
    W: ByteOut,
    E: ByteOut,
>(rt: &H, alloc: Global, usage: &Usage, reader: &mut R, writer: &mut W, errors: &mut E) -> u8
    requires range { IsInRange usage.now }
    requires servers { MayAskServers usage.now }
    ensures status { result ≤ 3 }
    ensures ends { Ends
        (record { gave = R.gave; ends = R.ends; failures = R.failures; before = reader.old; after = reader.new })
        (record { took = W.took; failures = W.failures; before = writer.old; after = writer.new })
        (record { took = E.took; failures = E.failures; before = errors.old; after = errors.new }) result usage.now }
{
    match credentials_for(rt, alloc, usage) {
        Ok(credentials) => {
            let system = System {
                rt,
                alloc,
                credentials: &credentials,
            };
            run_at(&system, usage, reader, writer, errors)
        }
        Err(CredentialFault::Memory) => out_of_memory(writer),
        Err(fault) => refuse(alloc, fault, writer, errors),
    }
}

/// Does what the words ask for, with what the connections show.
fn run_at<
    H: Net<Listener = TcpListener, Stream = TcpStream> + Clock + Files<File = File> + AllocGlobal,
    R: ByteIn,
    W: ByteOut,
    E: ByteOut,
>(system: &System<'_, H>, usage: &Usage, reader: &mut R, writer: &mut W, errors: &mut E) -> u8
    requires range { IsInRange usage.now }
    requires servers { MayAskServers usage.now }
    ensures status { result ≤ 3 }
    ensures does { Does
        (record { gave = R.gave; ends = R.ends; failures = R.failures; before = reader.old; after = reader.new })
        (record { took = W.took; failures = W.failures; before = writer.old; after = writer.new })
        (record { took = E.took; failures = E.failures; before = errors.old; after = errors.new }) result usage.now }
{
    match usage {
        Usage::Verify(start) => verify_from(system, start, reader, writer),
        Usage::Reshard(words) => plan_reshard(system, words, writer, errors),
        Usage::Rebalance(words) => plan_rebalance(system, words, writer, errors),
        Usage::Survey(words) => survey_cluster(system, words, writer, errors),
        Usage::Apply(words) => apply_plan(system, words, reader, writer, errors),
        Usage::Resume(words) => resume_plan(system, words, writer, errors),
        Usage::Explain(words) => explain_plan(system, words, reader, writer),
        Usage::Drain(words) => plan_drain(system, words, writer, errors),
        Usage::Forget(words) => forget_node(system, words, writer, errors),
        Usage::Draw(start) => draw_plan(system, start, reader, writer, errors),
        Usage::DrawNow(words) => draw_now(system, words, writer, errors),
        Usage::Rehearse | Usage::Serve(_) | Usage::Help(_) | Usage::Wrong(_) => 1,
    }
}

/// What the connections of this command show, if it makes any.
fn credentials_for<H: Env + Files<File = File> + AllocGlobal>(
    rt: &H,
    alloc: Global,
    usage: &Usage,
) -> Result<Option<Credentials>, CredentialFault>
    ensures { IfErr result (λ _. AsksServers usage.now) }
{
    if asks_servers(usage) {
        credentials_given(rt, alloc)
    } else {
        Ok(None)
    }
}

/// Whether the command asks servers.
fn asks_servers(usage: &Usage) -> bool
    ensures { IsTrue result ↔ AsksServers usage.now }
{
    match usage {
        Usage::Survey(_)
        | Usage::Apply(_)
        | Usage::Resume(_)
        | Usage::Forget(_)
        | Usage::DrawNow(_) => true,
        Usage::Verify(start) => is_cluster(start),
        Usage::Draw(start) => is_cluster(start),
        Usage::Explain(words) => is_cluster(&words.start),
        Usage::Reshard(words) => is_cluster(&words.start),
        Usage::Rebalance(words) => is_cluster(&words.start),
        Usage::Drain(words) => is_cluster(&words.start),
        _ => false,
    }
}

fn is_cluster(start: &Start) -> bool
    ensures { IsTrue result ↔ StartsAtServers start.now }
{
    matches!(start, Start::Cluster(_))
}

/// Says what is wrong with the environment, and gives the status of wrong usage; or that memory ran out.
fn refuse<W: ByteOut, E: ByteOut>(
    alloc: Global,
    fault: CredentialFault,
    writer: &mut W,
    errors: &mut E,
) -> u8
    ensures { (Shows (record { took = E.took; failures = E.failures; before = errors.old; after = errors.new })
        (fault_line fault) 2 result × (writer.new ≡ writer.old))
        ⊎ ((result ≡ 1) × (errors.new ≡ errors.old)
        × Writes W.took W.failures (codes "out of memory\n") writer.old writer.new) }
{
    match format!(in alloc; "error: {fault}\n") {
        Ok(text) => misuse(errors, text.as_bytes()),
        Err(AllocError) => out_of_memory(writer),
    }
}
