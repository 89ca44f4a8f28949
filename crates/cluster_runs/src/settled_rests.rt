//! What is left of a plan once the open slots are settled.
ghost use Rattle.std.specs.Prelude.{◌≡◌, IfErr, IfOk, length, vec_len};
ghost use Rattle.cluster_runs.specs.Preparing.{IsPreparedRest};
ghost use Rattle.cluster_inspection.specs.Refusals.{IsRefusal};
ghost use Rattle.cluster_inspection.specs.Returning.{AreAway, dead_ids};
ghost use Rattle.cluster_inspection.specs.Starts.{names_listed};
ghost use Rattle.cluster_runs.specs.Settling.{IsSettledFrom, IsSettledRest};
ghost use Rattle.cluster_runs.specs.Targets.{AreTargetsEmpty};
ghost use Rattle.command_words.specs.Clusters.{IsAddressed};
ghost use Rattle.server_settling.specs.Asking.{Sends};
ghost use Rattle.server_shards.specs.Returning.{asks_of};
ghost use Rattle.server_settling.specs.Opened.{Writes};

use crate::attempt::Attempt;
use crate::log_files::Log;
use crate::operator::time_of_day;
use crate::prepared::Prepared;
use crate::preparing::SPARE;
use crate::rests::rest_of;
use crate::settling::settle_open;
use crate::targets::check_targets;
use byte_streams::{ByteIn, ByteOut, MemoryOut, write_whole};
use byte_texts::Parts;
use cluster_inspection::{
    Refusal, System, check_returning, copy_of, find_cluster, names_listed, refused,
};
use cluster_survey::FoundCluster;
use command_words::ApplyWords;
use plan_runner::Plan;
use server_links::{ServerInput, ServerOutput};
use server_runs::Counts;
use server_settling::SettleSetup;
use std::alloc::AllocError;
use std::fs::{File, Files};
use std::net::{Net, TcpListener, TcpStream};
use std::time::Clock;

/// Finds the cluster anew by the names of the plan, and makes ready what is left of these lines with its open slots
/// settled, for a run of this kind whose log continues.
pub(crate) fn prepare_again<
    'a,
    H: Net<Listener = TcpListener, Stream = TcpStream> + Clock + Files<File = File> + AllocGlobal,
    E: ByteOut,
>(
    system: &System<'a, H>,
    words: &ApplyWords,
    lines: &Plan,
    attempt: &Attempt,
    log: Option<Log>,
    errors: &mut E,
) -> Result<Prepared<ServerInput<'a, H>, ServerOutput<'a, H>>, Refusal>
    requires { IsAddressed words.now.cluster }
    ensures prepared { IfOk result (IsPreparedRest attempt.now.batch lines.now) }
    ensures settled { IfOk result (IsSettledRest (record {
      gave = ⟦<ServerInput<'a, H> as ByteIn>⟧.gave;
      took = ⟦<ServerOutput<'a, H> as ByteOut>⟧.took;
    }) (Writes ⟦<MemoryOut as ByteOut>⟧.took ⟦<MemoryOut as ByteOut>⟧.failures) attempt.now) }
    ensures targets { IfOk result (λ p. AreTargetsEmpty (Sends (record {
      gave = ⟦<ServerInput<'a, H> as ByteIn>⟧.gave;
      took = ⟦<ServerOutput<'a, H> as ByteOut>⟧.took;
    })) p.servers.surveyed.survey lines.now.lines) }
    ensures away { IfOk result (λ p. AreAway (asks_of (record {
      gave = ⟦<ServerInput<'a, H> as ByteIn>⟧.gave;
      took = ⟦<ServerOutput<'a, H> as ByteOut>⟧.took;
    })) (dead_ids words.now.dead_for_good) (names_listed lines.now) p.servers.left_out.items p.plan.plan.lines) }
    ensures refusal { IfErr result IsRefusal }
{
    let waiting = u64::from(attempt.timeout) + SPARE;
    let servers = find_cluster(system, &words.cluster, names_listed(lines), waiting)?;
    match rest_of(system.alloc, servers, lines, attempt)? {
        Some((prepared, _count, plan)) => {
            check_returning(system, words, &prepared.servers, lines, &plan)?;
            settled(system, prepared, lines, attempt, log, errors)
        }
        None => Err(refused(system.alloc, b"there is nothing to continue")?),
    }
}

/// Settles the open slots of a cluster before what is left of a plan runs there. What was found of each stands on
/// `errors` and in the log.
pub(crate) fn settled<H: Clock, I: ByteIn + Drop, O: ByteOut + Drop, E: ByteOut>(
    system: &System<'_, H>,
    prepared: Prepared<I, O>,
    lines: &Plan,
    attempt: &Attempt,
    log: Option<Log>,
    errors: &mut E,
) -> Result<Prepared<I, O>, Refusal>
    requires { IsPreparedRest attempt.now.batch lines.now prepared }
    ensures prepared { IfOk result (IsPreparedRest attempt.now.batch lines.now) }
    ensures settled { IfOk result (λ p. IsSettledFrom (record { gave = I.gave; took = O.took })
        (Writes ⟦<MemoryOut as ByteOut>⟧.took ⟦<MemoryOut as ByteOut>⟧.failures) attempt.now (record {
          book = prepared.servers.book;
          survey = prepared.servers.surveyed.survey;
          links = prepared.servers.links.items;
        }) p.counts) }
    ensures servers { IfOk result (λ p. (p.servers.book ≡ prepared.servers.book)
        × (p.servers.surveyed ≡ prepared.servers.surveyed)) }
    ensures left { IfOk result (λ p. p.servers.left_out ≡ prepared.servers.left_out) }
    ensures same { IfOk result (λ p. (p.plan ≡ prepared.plan) × (p.survey ≡ prepared.survey)) }
    ensures targets { IfOk result
        (λ p. AreTargetsEmpty (Sends (record { gave = I.gave; took = O.took })) p.servers.surveyed.survey
        lines.now.lines) }
    ensures refusal { IfErr result IsRefusal }
{
    let Prepared {
        servers,
        survey,
        plan,
        moves,
        counts: _,
        notes,
        log: _,
    } = prepared;
    let mut told = MemoryOut::new(system.alloc, usize::MAX);
    let settling = settle(system, servers, lines, attempt, &mut told);
    let _shown = write_whole(errors, told.bytes.as_slice());
    let log = with_lines(system, log, told.bytes.as_slice());
    let (servers, counts) = settling?;
    Ok(Prepared {
        servers,
        survey,
        plan,
        moves,
        counts,
        notes,
        log,
    })
}

/// The log with these lines at its end, each with the time before it.
fn with_lines<H: Clock>(system: &System<'_, H>, log: Option<Log>, text: &[u8]) -> Option<Log> {
    let mut log = log?;
    let mut lines = Parts::of(text, b'\n');
    while let Some(line) = lines.next_whole() {
        match timed(system, line) {
            Ok(line) => log.write(line.as_slice()),
            Err(AllocError) => log.give_up(),
        }
    }
    Some(log)
}

/// The line with the time before it, and its end.
fn timed<H: Clock>(system: &System<'_, H>, line: &[u8]) -> Result<Vec<u8>, AllocError> {
    let mut timed = time_of_day(system.rt, system.alloc)?;
    timed.push(b' ')?;
    timed.extend_from_slice(line)?;
    timed.push(b'\n')?;
    Ok(timed)
}

/// The servers once each open slot is settled, and what is open.
fn settle<H: Clock, I: ByteIn + Drop, O: ByteOut + Drop, E: ByteOut>(
    system: &System<'_, H>,
    servers: FoundCluster<I, O>,
    lines: &Plan,
    attempt: &Attempt,
    told: &mut E,
) -> Result<(FoundCluster<I, O>, Counts), Refusal>
    ensures settled { IfOk result (λ p. IsSettledFrom (record { gave = I.gave; took = O.took })
        (Writes E.took E.failures) attempt.now
        (record { book = servers.book; survey = servers.surveyed.survey; links = servers.links.items }) p.1) }
    ensures survey { IfOk result (λ p. p.0.surveyed ≡ servers.surveyed) }
    ensures book { IfOk result (λ p. p.0.book ≡ servers.book) }
    ensures left { IfOk result (λ p. p.0.left_out ≡ servers.left_out) }
    ensures targets { IfOk result
        (λ p. AreTargetsEmpty (Sends (record { gave = I.gave; took = O.took })) p.0.surveyed.survey
        lines.now.lines) }
    ensures refusal { IfErr result IsRefusal }
{
    let FoundCluster {
        book,
        mut links,
        surveyed,
        left_out,
    } = servers;
    let setup = SettleSetup {
        book,
        timeout: attempt.timeout,
        credentials: copy_of(system.alloc, system.credentials)?,
        batch: attempt.batch,
    };
    let survey = &surveyed.survey;
    let counts = settle_open(system.rt, system.alloc, &mut links, survey, &setup, told)?;
    check_targets(
        system.alloc,
        &mut links,
        survey,
        system.credentials,
        lines.lines(),
    )?;
    let SettleSetup { book, .. } = setup;
    let servers = FoundCluster {
        book,
        links,
        surveyed,
        left_out,
    };
    Ok((servers, counts))
}
