//! Who watches a plan that runs at servers.
ghost use Rattle.std.specs.Prelude.{◌≡◌, ◌↔◌, [], IfOk, IsTrue};
ghost use Rattle.server_runs.specs.RunLogs.{HasBrokenLog, IsTimed, Logs};
ghost use Rattle.server_runs.specs.Keeping.{IsAside, Keeps};
ghost use Rattle.server_runs.specs.Unheard.{LogsUnheard, TellsUnheard, unheard_text};
ghost use Rattle.server_runs.specs.Watches.{lost_text};
ghost use Rattle.transcripts.specs.RunTexts.{log_command_text, log_fault_text, log_reply_text, progress_text};
ghost use Rattle.server_runs.specs.Surrounded.{Decides, KeepsPace, MayPause, Paces, PassesTime, ShowsAt, ShowsLast};
ghost use Rattle.server_runs.specs.Surrounded.{ShowsNow, WaitsFor, progress_at};
ghost use Rattle.server_runs.specs.declared.kind.Kind.TheVariants.{Other};

use crate::counts::Counts;
use crate::kind::Kind;
use crate::pace::Pace;
use crate::run_context::RunContext;
use crate::run_log::RunLog;
use crate::run_record::RunRecord;
use byte_streams::ByteOut;
use cluster_admin::{AdminReply, PortFault};
use plan_runner::{Order, Watcher};
use std::alloc::{AllocError, Global};
use transcripts::{RunProgress, Transcript};

/// How many milliseconds lie between two lines that show how far the plan is.
const SHOWN_EVERY: u64 = 1000;

/// Writes the log, shows the progress, keeps the pace, and gives the plan up where no slot is open and a pause is asked
/// for or the log can't be written. A screen that fails does not stop the plan.
#[derive(Drop)]
pub struct Watch<S: Drop, L: Drop> {
    alloc: Global,
    run_context: S,
    pace: Option<Pace>,
    moves: u64,
    run: RunRecord<L>,
    shown: u64,
}

impl<S: RunContext + Drop, L: ByteOut + Drop> Watch<S, L> {
    /// A watch over a plan of so many moves, in a cluster of so many nodes. The counts say which slots are open before
    /// the plan.
    pub fn new(
        alloc: Global,
        run_context: S,
        log: Option<RunLog<L>>,
        pace: Option<Pace>,
        nodes: u8,
        moves: u64,
        counts: Counts,
    ) -> Self
        ensures run { result.run ≡ record { log = log; nodes = nodes; counts = counts; kind = Other } }
        ensures run_context { result.run_context ≡ run_context }
        ensures pace { result.pace ≡ pace }
        ensures moves { result.moves ≡ moves }
    {
        Self {
            alloc,
            run_context,
            pace,
            moves,
            run: RunRecord::new(log, nodes, counts),
            shown: 0,
        }
    }

    /// How many commands were answered.
    pub fn commands(&self) -> u64
        ensures { result ≡ self.now.run.counts.commands }
    {
        self.run.counts.commands
    }

    /// How many slots were handed over.
    pub fn handed_over(&self) -> u64
        ensures { result ≡ self.now.run.counts.handed_over }
    {
        self.run.counts.handed_over
    }

    /// The log, if there is one, for a plan that continues.
    pub fn into_log(self) -> Option<RunLog<L>>
        ensures { result ≡ self.run.log }
    {
        self.run.log
    }

    /// Whether a line of the log could not be written, so that it is cut there.
    pub fn has_broken_log(&self) -> bool
        ensures { IsTrue result ↔ HasBrokenLog self.now.run.log }
    {
        self.run.has_broken_log()
    }

    /// Shows how far the plan is, once more at its end, and ends the line of that.
    pub fn show_end(&mut self)
        ensures shown { ShowsLast S.tells S.shows S.closes self.old self.new }
        ensures kept { IsAside self.old self.new }
    {
        self.show_now();
        self.run_context.close();
    }

    /// Tells the operator and the log of how many slots masters were notified before all of them had heard of the new
    /// owner, if there are any. Where there is no memory for the line, the log is given up.
    pub fn tell_unheard(&mut self, slots: u64)
        ensures log { LogsUnheard L.took slots self.old.run.log self.new.run.log }
        ensures note { TellsUnheard S.notes slots self.old.run_context self.new.run_context }
        ensures kept { Keeps self.old self.new }
    {
        if slots == 0 {
            return;
        }
        match unheard_line(self.alloc, slots) {
            Ok(line) => {
                self.run_context.note(line.as_slice());
                self.log_end(line.as_slice());
            }
            Err(AllocError) => self.run.log_line(Err(AllocError)),
        }
    }

    fn show_now(&mut self)
        ensures shown { ShowsNow S.tells S.shows self.old self.new }
        ensures kept { IsAside self.old self.new }
    {
        let millis = self.run_context.millis();
        self.show(millis);
    }

    /// Whether the plan is to be given up before the command that was seen last. The operator is asked only where that
    /// can be.
    fn is_to_pause(&mut self) -> bool
        ensures decides { Decides S.asks self.old result self.new }
        ensures kept { IsAside self.old self.new }
    {
        if !self.may_pause() {
            return false;
        }
        self.run_context.is_pause_asked()
    }

    /// Whether the command that was seen last opens a slot, and no slot is open.
    fn may_pause(&self) -> bool
        ensures { IsTrue result ↔ MayPause self.now.run }
    {
        match self.run.kind {
            Kind::Opens => self.run.counts.are_closed(self.run.nodes),
            _ => false,
        }
    }

    /// Whether the plan is to be given up before the command that was seen last, as its log can't be written. What was
    /// begun is ended first, so that no slot stays open.
    fn is_unlogged(&self) -> bool
        ensures { IsTrue result ↔ (MayPause self.now.run × HasBrokenLog self.now.run.log) }
    {
        self.may_pause() && self.run.has_broken_log()
    }

    /// A line of the log, with the time at its start.
    fn line(&mut self) -> Result<Transcript, AllocError>
        ensures time { IfOk result (λ t. IsTimed [] t.printed.items) }
        ensures kept { IsAside self.old self.new }
    {
        let time = self.run_context.time(self.alloc)?;
        let mut line = Transcript::new(self.alloc);
        line.log_time(time.as_slice())?;
        Ok(line)
    }

    fn command_line(&mut self, order: &Order) -> Result<Transcript, AllocError>
        ensures line { IfOk result
            (λ t. IsTimed (log_command_text order.now.node order.now.command) t.printed.items) }
        ensures kept { IsAside self.old self.new }
    {
        let mut line = self.line()?;
        line.log_command(order.node, &order.command)?;
        Ok(line)
    }

    fn reply_line(&mut self, reply: &AdminReply) -> Result<Transcript, AllocError>
        ensures line { IfOk result (λ t. IsTimed (log_reply_text reply.now) t.printed.items) }
        ensures kept { IsAside self.old self.new }
    {
        let mut line = self.line()?;
        line.log_reply(reply)?;
        Ok(line)
    }

    /// What came may be an error or another reply by which the plan can't continue. What it was stands in the log's
    /// last line.
    fn fault_line(&mut self, fault: PortFault) -> Result<Transcript, AllocError>
        ensures line { IfOk result (λ t. IsTimed (lost_text fault) t.printed.items) }
        ensures kept { IsAside self.old self.new }
    {
        match fault {
            PortFault::Wire => self.end_line(b"no good answer\n"),
            PortFault::Memory | PortFault::Io => self.silence_line(fault),
        }
    }

    fn silence_line(&mut self, fault: PortFault) -> Result<Transcript, AllocError>
        ensures line { IfOk result (λ t. IsTimed (log_fault_text fault) t.printed.items) }
        ensures kept { IsAside self.old self.new }
    {
        let mut line = self.line()?;
        line.log_fault(fault)?;
        Ok(line)
    }

    fn end_line(&mut self, text: &[u8]) -> Result<Transcript, AllocError>
        ensures line { IfOk result (λ t. IsTimed text.now t.printed.items) }
        ensures kept { IsAside self.old self.new }
    {
        let mut line = self.line()?;
        line.printed.extend_from_slice(text)?;
        Ok(line)
    }

    /// Writes how the plan ended to the log, if there is one: a text with its line end.
    pub fn log_end(&mut self, text: &[u8])
        ensures log { Logs L.took text.now self.old.run.log self.new.run.log }
        ensures kept { Keeps self.old self.new }
    {
        if self.run.log.is_some() {
            let line = self.end_line(text);
            self.run.log_line(line);
        }
    }

    /// Writes the command to the log, if there is one.
    fn log_command(&mut self, order: &Order)
        ensures log { Logs L.took (log_command_text order.now.node order.now.command) self.old.run.log
            self.new.run.log }
        ensures kept { Keeps self.old self.new }
    {
        if self.run.log.is_some() {
            let line = self.command_line(order);
            self.run.log_line(line);
        }
    }

    /// Writes the reply to the log, if there is one.
    fn log_reply(&mut self, reply: &AdminReply)
        ensures log { Logs L.took (log_reply_text reply.now) self.old.run.log self.new.run.log }
        ensures kept { Keeps self.old self.new }
    {
        if self.run.log.is_some() {
            let line = self.reply_line(reply);
            self.run.log_line(line);
        }
    }

    /// Lets time pass where more keys were moved than the pace allows, and shows how far the plan is.
    fn pass_time(&mut self)
        ensures paced { PassesTime S.tells S.waits self.old }
        ensures kept { IsAside self.old self.new }
    {
        self.keep_pace();
        self.show_each_second();
    }

    /// Waits where more keys were moved than the pace allows by now.
    fn keep_pace(&mut self)
        ensures paced { PassesTime S.tells S.waits self.old }
        ensures kept { IsAside self.old self.new }
    {
        match self.pace {
            Some(pace) => self.keep(pace),
            None => {}
        }
    }

    /// Waits where keys were moved, and more than this pace allows by now.
    fn keep(&mut self, pace: Pace)
        ensures paced { Paces S.tells S.waits self.old.run.kind self.old.run.counts.keys pace }
        ensures kept { IsAside self.old self.new }
    {
        match self.run.kind {
            Kind::Moves(_) => self.wait_for(pace),
            _ => {}
        }
    }

    /// Waits until so many keys are due as were moved.
    fn wait_for(&mut self, pace: Pace)
        ensures paced { KeepsPace S.tells S.waits self.old.run.counts.keys pace }
        ensures kept { IsAside self.old self.new }
    {
        let millis = self.run_context.millis();
        self.wait(pace.early(self.run.counts.keys, millis));
    }

    /// Waits so many milliseconds, if any.
    fn wait(&mut self, millis: u64)
        ensures waited { WaitsFor S.waits millis self.old.run_context self.new.run_context }
        ensures kept { IsAside self.old self.new }
    {
        if millis == 0 {
            return;
        }
        self.run_context.wait(millis);
    }

    /// Shows how far the plan is, where that was not done for a second.
    fn show_each_second(&mut self)
        ensures { IsAside self.old self.new }
    {
        let millis = self.run_context.millis();
        if millis.saturating_sub(self.shown) >= SHOWN_EVERY {
            self.shown = millis;
            self.show(millis);
        }
    }

    /// Shows how far the plan is after so many milliseconds.
    fn show(&mut self, millis: u64)
        ensures shown { ShowsAt S.shows millis self.old self.new }
        ensures kept { IsAside self.old self.new }
    {
        match self.progress_line(millis) {
            Ok(line) => self.run_context.show(line.printed.as_slice()),
            Err(AllocError) => {}
        }
    }

    fn progress_line(&self, millis: u64) -> Result<Transcript, AllocError>
        ensures { IfOk result
            (λ t. t.printed.items ≡ progress_text (progress_at millis self.now.moves self.now.run.counts)) }
    {
        let progress = self.progress(millis);
        let mut line = Transcript::new(self.alloc);
        line.progress(&progress)?;
        Ok(line)
    }

    /// How far the plan is after so many milliseconds.
    fn progress(&self, millis: u64) -> RunProgress
        ensures { result ≡ progress_at millis self.now.moves self.now.run.counts }
    {
        let counts = self.run.counts;
        RunProgress {
            slots: counts.handed_over,
            all_slots: self.moves,
            keys: counts.keys,
            commands: counts.commands,
            millis,
        }
    }
}

/// `3 slots: masters were notified of the new owner before all of them had heard of it`.
fn unheard_line(alloc: Global, slots: u64) -> Result<Vec<u8>, AllocError>
    ensures { IfOk result (λ t. t.items ≡ unheard_text slots) }
{
    let line = format!(in alloc;
        "{slots} slots: masters were notified of the new owner before all of them had heard of it\n"
    )?;
    Ok(line.into_bytes())
}

impl<S: RunContext + Drop, L: ByteOut + Drop> Watcher for Watch<S, L> {
    ghost use Rattle.server_runs.specs.Watches.{Hears, Misses, Sees};

    ghost sees = { λ w order go v.
        Sees (record { asks = S.asks; tells = S.tells; waits = S.waits; took = L.took }) w order go v };

    ghost hears = { λ w reply v.
        Hears (record { asks = S.asks; tells = S.tells; waits = S.waits; took = L.took }) w reply v };

    ghost misses = { λ w fault v. Misses L.took w fault v };

    fn before(&mut self, order: &Order) -> bool {
        self.run.kind = Kind::of(order);
        if self.is_to_pause() {
            return false;
        }
        self.log_command(order);
        !self.is_unlogged()
    }

    fn answered(&mut self, reply: &AdminReply) {
        self.log_reply(reply);
        self.run.counts = self.run.counts.counted(self.run.kind, reply);
        self.pass_time();
    }

    fn lost(&mut self, fault: PortFault) {
        if self.run.log.is_some() {
            let line = self.fault_line(fault);
            self.run.log_line(line);
        }
    }
}
