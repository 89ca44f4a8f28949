//! One run of a plan at servers.
ghost use Rattle.std.specs.Prelude.{◌≡◌, IfOk, OnOk, false, length};
ghost use Rattle.cluster_runs.specs.Ends.{ended_unlogged_text, stopped_unlogged_text};
ghost use Rattle.cluster_runs.specs.Operators.{clock_tells, clock_waits, stop_file_asks};
ghost use Rattle.cluster_runs.specs.Runs.{IsCarriedOut, IsPaceOf, IsRun, IsRunOf, IsTold};
ghost use Rattle.cluster_runs.specs.Troubles.{trouble_of};
ghost use Rattle.cluster_runs.specs.declared.patience.Patience as patience;

use crate::attempt::Attempt;
use crate::operator::Operator;
use crate::patience::Patience;
use crate::prepared::Prepared;
use crate::trouble::{Trouble, trouble_in};
use byte_streams::{ByteIn, ByteOut, StandardOut, write_whole};
use cluster_admin::Survey;
use cluster_inspection::{System, copy_of};
use cluster_survey::FoundCluster;
use command_words::ApplyWords;
use plan_runner::VerifiedPlan;
use redis_servers::{Pause, ServersPort, ServersSeat};
use server_runs::{Pace, RunContext, RunLog, Watch, apply, apply_in_one_go};
use std::alloc::{AllocError, Global};
use std::fs::{File, Files};
use std::time::Clock;
use transcripts::Transcript;

/// The status of a plan that was given up before a slot.
const PAUSED: u8 = 3;

/// What a run of a plan left.
#[derive(Drop)]
pub(crate) struct Ran<L: Drop> {
    pub(crate) end: Transcript,
    /// What it met at last.
    pub(crate) trouble: Trouble,
    /// How many slots it handed over.
    pub(crate) handed_over: u64,
    /// How many commands were answered, with those of the runs before.
    pub(crate) commands: u64,
    pub(crate) log: Option<RunLog<L>>,
}

/// A run whose log is a file.
pub(crate) type FileRan = Ran<StandardOut<File>>;

/// Runs the plan with what it was made ready with.
pub(crate) fn run_once<
    H: Clock + Files<File = File>,
    I: ByteIn + Drop,
    O: ByteOut + Drop,
    E: ByteOut,
>(
    system: &System<'_, H>,
    words: &ApplyWords,
    attempt: &Attempt,
    prepared: Prepared<I, O>,
    errors: &mut E,
) -> Result<FileRan, AllocError>
    ensures { IfOk result (IsRunOf (patience.Patience H)
        (record {
          gave = I.gave;
          took = O.took;
          tells = clock_tells {H = H} {E = E};
          waits = clock_waits {H = H} {E = E};
          asks = stop_file_asks {H = H} {E = E};
          log_took = ⟦<StandardOut<File> as ByteOut>⟧.took;
        })
        words.now attempt.now prepared) }
{
    let Prepared {
        servers,
        survey,
        plan,
        moves,
        counts,
        notes,
        log,
    } = prepared;
    let _shown = write_whole(errors, notes.as_slice());
    let nodes = survey.nodes();
    let port = port_of(
        system,
        servers,
        attempt.timeout,
        survey,
        words.wait_for_news,
    )?;
    let operator = Operator::new(system.rt, &words.stop_file, errors);
    let watch = Watch::new(
        system.alloc,
        operator,
        log,
        pace_of(words),
        nodes,
        moves,
        counts,
    );
    let ran = run_at(system.alloc, plan, port, watch, attempt.commands)?;
    Ok(ran)
}

/// Runs the plan at the port, watched, after so many commands, and tells how it ended.
fn run_at<
    I: ByteIn + Drop,
    O: ByteOut + Drop,
    P: Pause + Drop,
    S: RunContext + Drop,
    L: ByteOut + Drop,
>(
    alloc: Global,
    plan: VerifiedPlan,
    port: ServersPort<I, O, P>,
    watch: Watch<S, L>,
    before: u64,
) -> Result<Ran<L>, AllocError>
    ensures { IfOk result (IsRun
        (record {
          gave = I.gave;
          took = O.took;
          tells = S.tells;
          waits = S.waits;
          asks = S.asks;
          log_took = L.took;
        })
        before plan port watch) }
{
    let mut port = port;
    let mut watch = watch;
    let mut end = Transcript::new(alloc);
    let seat = ServersSeat::new(alloc)?;
    carry_out_plan(alloc, plan, &mut port, seat, &mut watch, before, &mut end)?;
    watch.show_end();
    watch.tell_unheard(port.unheard());
    watch.log_end(end.printed.as_slice());
    let commands = before.saturating_add(watch.commands());
    let is_broken = watch.has_broken_log();
    let end = told(alloc, is_broken, end, commands)?;
    Ok(Ran {
        end,
        trouble: trouble_of(&port),
        handed_over: watch.handed_over(),
        commands,
        log: watch.into_log(),
    })
}

/// Carries the plan out at the port, watched, after so many commands. Of a plan that lists its nodes the others of a
/// slot are told in one go.
fn carry_out_plan<
    I: ByteIn + Drop,
    O: ByteOut + Drop,
    P: Pause + Drop,
    S: RunContext + Drop,
    L: ByteOut + Drop,
>(
    alloc: Global,
    plan: VerifiedPlan,
    port: &mut ServersPort<I, O, P>,
    seat: ServersSeat,
    watch: &mut Watch<S, L>,
    before: u64,
    end: &mut Transcript,
) -> Result<(), AllocError>
    ensures { OnOk result (IsCarriedOut
        (record {
          gave = I.gave;
          took = O.took;
          tells = S.tells;
          waits = S.waits;
          asks = S.asks;
          log_took = L.took;
        })
        (record { plan = plan.plan; survey = plan.survey; seat = seat; before = before })
        (port.old, watch.old) (port.new, watch.new) end.old end.new) }
{
    if plan.has_names() {
        apply_in_one_go(alloc, plan, port, seat, watch, before, end)
    } else {
        apply(plan, port, seat, watch, before, end)
    }
}

/// What is said of a run that ended so. Where its log could not be written that is told: that it stopped for that, or
/// that the log is cut.
fn told(
    alloc: Global,
    is_broken: bool,
    end: Transcript,
    commands: u64,
) -> Result<Transcript, AllocError>
    ensures { IfOk result (IsTold is_broken commands end) }
{
    if !is_broken {
        return Ok(end);
    }
    let mut told = Transcript::new(alloc);
    told.status = 1;
    told.printed = if end.status == PAUSED {
        stopped_unlogged(alloc, commands)?
    } else {
        ended_unlogged(alloc, end.printed.as_slice())?
    };
    Ok(told)
}

fn stopped_unlogged(alloc: Global, commands: u64) -> Result<Vec<u8>, AllocError>
    ensures { IfOk result (λ t. t.items ≡ stopped_unlogged_text commands) }
{
    let text = format!(in alloc;
        "stopped after {commands} commands, no slot is open: the log could not be written\n"
    )?;
    Ok(text.into_bytes())
}

fn ended_unlogged(alloc: Global, end: &[u8]) -> Result<Vec<u8>, AllocError>
    ensures { IfOk result (λ t. t.items ≡ ended_unlogged_text end.now) }
{
    let mut text = Vec::from_slice(alloc, end)?;
    text.extend_from_slice(b"the log could not be written to its end\n")?;
    Ok(text)
}

/// A port to the servers, of which this is the survey, whose MIGRATEs take so many milliseconds at most, and which
/// waits for news or not.
fn port_of<'a, H: Clock, I: ByteIn + Drop, O: ByteOut + Drop>(
    system: &System<'a, H>,
    servers: FoundCluster<I, O>,
    timeout: u32,
    survey: Survey,
    waits_for_news: bool,
) -> Result<ServersPort<I, O, Patience<'a, H>>, AllocError>
    requires { length survey.rows ≡ length servers.book }
    ensures links { IfOk result (λ p. p.links ≡ servers.links) }
    ensures setup { IfOk result (λ p. (p.setup.book ≡ servers.book) × (p.setup.timeout ≡ timeout)
        × (p.setup.survey ≡ survey) × (p.setup.waits_for_news ≡ waits_for_news)) }
    ensures open { IfOk result (λ p. p.has_stopped ≡ false) }
{
    let FoundCluster { book, links, .. } = servers;
    let credentials = copy_of(system.alloc, system.credentials)?;
    ServersPort::new(
        system.alloc,
        links,
        book,
        timeout,
        credentials,
        survey,
        waits_for_news,
        Patience::new(system.rt),
    )
}

/// What the port says that it met.
fn trouble_of<I: ByteIn + Drop, O: ByteOut + Drop, P: Pause + Drop>(
    port: &ServersPort<I, O, P>,
) -> Trouble
    ensures { result ≡ trouble_of port.now.said }
{
    match port.said() {
        Some(text) => trouble_in(text.get()),
        None => Trouble::Other,
    }
}

/// How many keys may move a second, if there is a limit.
fn pace_of(words: &ApplyWords) -> Option<Pace>
    ensures { IsPaceOf words.now.keys_per_second result }
{
    match words.keys_per_second {
        Some(keys) if keys > 0 => Some(Pace::new(u64::from(keys))),
        _ => None,
    }
}
