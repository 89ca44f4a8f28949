//! What is printed, shown and logged of a plan that runs at servers.
ghost use Rattle.std.specs.Prelude.{◌≡◌, ◌*◌, ◌/◌, OnOk, decimal};
ghost use Rattle.transcripts.specs.OutcomeTexts.{Prints};
ghost use Rattle.transcripts.specs.RunTexts.{left_text, load_text, log_command_text, log_fault_text, log_reply_text};
ghost use Rattle.transcripts.specs.RunTexts.{log_words, open_text, paused_text, progress_text, rate, seconds_text};
ghost use Rattle.transcripts.specs.RunTexts.{stop_reason, stopped_by_text, time_text, unsurveyed_text};

use crate::transcript::{Transcript, error_text};
use cluster_admin::{AdminCommand, AdminReply, PortFault};
use itoa::Buffer;
use key_slots::NodeId;
use plan_runner::StopCause;
use std::alloc::AllocError;

/// How far a plan is that runs at servers.
#[derive(Clone, Copy)]
pub struct RunProgress {
    /// The slots that were handed over.
    pub slots: u64,
    /// The slots that the plan hands over.
    pub all_slots: u64,
    /// The keys that were moved.
    pub keys: u64,
    /// The commands that were answered.
    pub commands: u64,
    /// How long the plan has run.
    pub millis: u64,
}

impl Transcript {
    /// The time at the start of a log's line.
    pub fn log_time(&mut self, time: &[u8]) -> Result<(), AllocError>
        ensures { OnOk result (Prints self.old self.new (time_text time.now) self.old.status) }
    {
        self.text(time)?;
        self.text(b" ")
    }

    /// A command that is about to be sent, in the words of a script's line; keys as their number.
    pub fn log_command(&mut self, node: NodeId, command: &AdminCommand) -> Result<(), AllocError>
        ensures { OnOk result (Prints self.old self.new (log_command_text node command.now) self.old.status) }
    {
        self.log_words(command)?;
        self.text(b" at ")?;
        self.node(node)?;
        self.target_words(command)?;
        self.line(b"")
    }

    fn log_words(&mut self, command: &AdminCommand) -> Result<(), AllocError>
        ensures { OnOk result (Prints self.old self.new (log_words command.now) self.old.status) }
    {
        match command {
            AdminCommand::Migrate(keys, _) => {
                self.text(b"migrate ")?;
                self.number(keys.len() as u64)?;
                self.text(b" keys")
            }
            _ => self.command_words(command),
        }
    }

    /// The reply to the command before; keys as their number.
    pub fn log_reply(&mut self, reply: &AdminReply) -> Result<(), AllocError>
        ensures { OnOk result (Prints self.old self.new (log_reply_text reply.now) self.old.status) }
    {
        match reply {
            AdminReply::Ok => self.line(b"OK"),
            AdminReply::NoKey => self.line(b"NOKEY"),
            AdminReply::Keys(keys) => {
                self.number(keys.len() as u64)?;
                self.line(b" keys")
            }
            AdminReply::Refused(fault) => self.line(error_text(*fault).as_bytes()),
        }
    }

    /// That there is no reply to the command before.
    pub fn log_fault(&mut self, fault: PortFault) -> Result<(), AllocError>
        ensures { OnOk result (Prints self.old self.new (log_fault_text fault) self.old.status) }
    {
        match fault {
            PortFault::Memory => self.line(b"out of memory"),
            PortFault::Io | PortFault::Wire => self.line(b"no reply"),
        }
    }

    /// There is no survey of the servers.
    pub fn report_unsurveyed(&mut self, reason: &[u8]) -> Result<(), AllocError>
        ensures { OnOk result (Prints self.old self.new (unsurveyed_text reason.now) 1) }
    {
        self.text(b"survey refused: ")?;
        self.failing_line(reason)
    }

    /// Slots of the servers are open, so no plan is armed there.
    pub fn report_open(&mut self) -> Result<(), AllocError>
        ensures { OnOk result (Prints self.old self.new open_text 1) }
    {
        self.failing_line(b"not clean: slots are open")
    }

    /// What a plan will move.
    pub fn report_load(&mut self, moves: u64, keys: u64, commands: u64) -> Result<(), AllocError>
        ensures { OnOk result (Prints self.old self.new (load_text moves keys commands) self.old.status) }
    {
        self.text(b"moves ")?;
        self.number(moves)?;
        self.text(b" slots with ")?;
        self.number(keys)?;
        self.text(b" keys by at most ")?;
        self.number(commands)?;
        self.line(b" commands")
    }

    /// A plan stopped by what a server said, or as there is no reply.
    pub fn report_stopped_by(&mut self, commands: u64, reason: &[u8]) -> Result<(), AllocError>
        ensures { OnOk result (Prints self.old self.new (stopped_by_text commands reason.now) 1) }
    {
        self.text(b"stopped at command ")?;
        self.number(commands)?;
        self.text(b": ")?;
        self.failing_line(reason)
    }

    /// A plan was given up before the first command of a slot. The status of that is 3.
    pub fn report_paused(&mut self, commands: u64) -> Result<(), AllocError>
        ensures { OnOk result (Prints self.old self.new (paused_text commands) 3) }
    {
        self.text(b"paused after ")?;
        self.number(commands)?;
        self.status = 3;
        self.line(b" commands, no slot is open")
    }

    /// How far a plan is, without an end of the line.
    pub fn progress(&mut self, progress: &RunProgress) -> Result<(), AllocError>
        ensures { OnOk result (Prints self.old self.new (progress_text progress.now) self.old.status) }
    {
        self.number(progress.slots)?;
        self.text(b" of ")?;
        self.number(progress.all_slots)?;
        self.text(b" slots, ")?;
        self.number(progress.keys)?;
        self.text(b" keys, ")?;
        self.number(progress.commands)?;
        self.text(b" commands, ")?;
        self.seconds(progress.millis)?;
        self.text(b" s, ")?;
        self.rate(progress.keys, progress.millis)?;
        self.text(b" keys/s")?;
        self.left(progress.slots, progress.all_slots, progress.millis)
    }

    /// Seconds with their tenths.
    fn seconds(&mut self, millis: u64) -> Result<(), AllocError>
        ensures { OnOk result (Prints self.old self.new (seconds_text millis) self.old.status) }
    {
        self.number(millis / 1000)?;
        self.text(b".")?;
        self.number(millis % 1000 / 100)
    }

    fn rate(&mut self, count: u64, millis: u64) -> Result<(), AllocError>
        ensures { OnOk result (Prints self.old self.new (decimal (rate count millis)) self.old.status) }
    {
        if millis == 0 {
            return self.number(0);
        }
        self.wide_number(u128::from(count) * 1000 / u128::from(millis))
    }

    /// The seconds that are left, as far as the slots so far tell.
    fn left(&mut self, slots: u64, all_slots: u64, millis: u64) -> Result<(), AllocError>
        ensures { OnOk result (Prints self.old self.new (left_text slots all_slots millis) self.old.status) }
    {
        if slots == 0 {
            return Ok(());
        }
        let left = u128::from(all_slots.saturating_sub(slots));
        self.text(b", ")?;
        self.wide_number(left * u128::from(millis) / u128::from(slots) / 1000)?;
        self.text(b" s left")
    }

    fn wide_number(&mut self, number: u128) -> Result<(), AllocError>
        ensures { OnOk result (Prints self.old self.new (decimal number) self.old.status) }
    {
        self.text(Buffer::new().format(number).as_bytes())
    }
}

/// Why a plan stopped at servers of which none said why.
pub fn stop_reason(cause: StopCause) -> &'static str
    ensures { result.now ≡ stop_reason cause }
{
    match cause {
        StopCause::Refused(_, fault) => error_text(fault),
        StopCause::Memory => "out of memory",
        StopCause::StrangeReply => "a reply that is none to the command",
        StopCause::Abandoned => "the plan was given up",
        StopCause::Limit => "more commands than are counted",
        StopCause::Lost => "no reply came back",
    }
}
