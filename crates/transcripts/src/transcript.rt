ghost use Rattle.std.specs.Prelude.{◌≡◌, ◌≢◌, [], decimal, IfOk, OnOk};
ghost use Rattle.plan_language.specs.Faults.{parse_fault_text};
ghost use Rattle.plan_runner.specs.Faults.{verify_fault_text, arm_fault_text};
ghost use Rattle.plan_language.specs.declared.parse_fault.ParseCause.TheVariants as cause;
ghost use Rattle.plan_runner.specs.declared.verify_fault.VerifyFault.TheVariants as illegal;
ghost use Rattle.reshard_planner.specs.Faults.{planner_fault_text};
ghost use Rattle.reshard_planner.specs.declared.planner_fault.PlannerFault.TheVariants as unplanned;
ghost use Rattle.transcripts.specs.Printing.{shown};
ghost use Rattle.transcripts.specs.OutcomeTexts.{Prints, abandoned_text, admin_text, closed, done_text, fault_text};
ghost use Rattle.transcripts.specs.OutcomeTexts.{key_lines, keys_text};
ghost use Rattle.transcripts.specs.OutcomeTexts.{honesty_text, refused_text, stop_text, stopped_text};
ghost use Rattle.transcripts.specs.OutcomeTexts.{unfinished_text, verified_text};
ghost use Rattle.resp2_wire.specs.View.{tree};

use crate::printing::{print_bulk, print_reply};
use byte_texts::Text;
use cluster_admin::{AdminFault, AdminReply, KeyList};
use itoa::Buffer;
use plan_runner::{ArmFault, ParseCause, ParseFault, StopCause, VerifyFault};
use reshard_planner::PlannerFault;
use resp2_wire::Reply;
use std::alloc::{AllocError, Global};

/// What a rehearsal prints, as far as it is not written yet, and its status.
#[derive(Drop)]
pub struct Transcript {
    alloc: Global,
    pub printed: Vec<u8>,
    /// 0, or 1 once a plan was refused, stopped or left unfinished; 3 where it was paused.
    pub status: u8,
}

impl Transcript {
    /// Nothing is printed.
    pub fn new(alloc: Global) -> Self
        ensures printed { result.printed.items ≡ [] }
        ensures status { result.status ≡ 0 }
    {
        Self {
            alloc,
            printed: Vec::new(alloc),
            status: 0,
        }
    }

    /// Takes back what was printed.
    pub fn clear(&mut self)
        ensures printed { self.new.printed.items ≡ [] }
        ensures status { self.new.status ≡ self.old.status }
    {
        self.printed.clear();
    }

    /// A client's reply.
    pub fn reply(&mut self, reply: &Reply) -> Result<(), AllocError>
        ensures { OnOk result (Prints self.old self.new (shown 0 (tree reply.now)) self.old.status) }
    {
        print_reply(&mut self.printed, 0, reply)
    }

    /// The reply to an administrator's command.
    pub fn admin_reply(&mut self, reply: &AdminReply) -> Result<(), AllocError>
        ensures { OnOk result (Prints self.old self.new (admin_text reply.now) self.old.status) }
    {
        match reply {
            AdminReply::Ok => self.line(b"+OK"),
            AdminReply::NoKey => self.line(b"+NOKEY"),
            AdminReply::Keys(keys) => self.keys(keys),
            AdminReply::Refused(fault) => {
                self.text(b"-")?;
                self.line(error_text(*fault).as_bytes())
            }
        }
    }

    fn keys(&mut self, keys: &KeyList) -> Result<(), AllocError>
        ensures { OnOk result (Prints self.old self.new (keys_text keys.now) self.old.status) }
    {
        self.text(b"*")?;
        self.number(keys.len() as u64)?;
        self.line(b"")?;
        self.key_lines(keys.get())
    }

    fn key_lines(&mut self, keys: &[Text]) -> Result<(), AllocError>
        ensures { OnOk result (Prints self.old self.new (key_lines keys.now) self.old.status) }
    {
        for key in keys {
            print_bulk(&mut self.printed, 2, key.get())?;
        }
        Ok(())
    }

    /// A plan was accepted and armed.
    pub fn report_verified(&mut self, commands: u32) -> Result<(), AllocError>
        ensures { OnOk result (Prints self.old self.new (verified_text commands) self.old.status) }
    {
        self.text(b"verified ")?;
        self.number(u64::from(commands))?;
        self.line(b" commands")
    }

    /// A text is no plan. Where memory ran out while it was read, that is answered and nothing is printed.
    pub fn report_no_plan(&mut self, fault: ParseFault) -> Result<(), AllocError>
        ensures { IfOk result (λ _. (fault.cause ≢ cause.Memory)
            × Prints self.old self.new (refused_text (parse_fault_text fault)) 1) }
    {
        if fault.cause == ParseCause::Memory {
            return Err(AllocError);
        }
        let text = format!(in self.alloc; "refused: {fault}")?;
        self.failing_line(text.as_bytes())
    }

    /// A plan is not legal. Where memory ran out while it was verified, that is answered and nothing is printed.
    pub fn report_not_legal(&mut self, fault: VerifyFault) -> Result<(), AllocError>
        ensures { IfOk result (λ _. (fault ≢ illegal.Memory)
            × Prints self.old self.new (refused_text (verify_fault_text fault)) 1) }
    {
        if fault == VerifyFault::Memory {
            return Err(AllocError);
        }
        let text = format!(in self.alloc; "refused: {fault}")?;
        self.failing_line(text.as_bytes())
    }

    /// There is no plan that closes what stands open. Where memory ran out while one was sought, that is answered and
    /// nothing is printed.
    pub fn report_not_resumed(&mut self, fault: PlannerFault) -> Result<(), AllocError>
        ensures { IfOk result (λ _. (fault ≢ unplanned.Memory)
            × Prints self.old self.new (refused_text (planner_fault_text fault)) 1) }
    {
        if fault == PlannerFault::Memory {
            return Err(AllocError);
        }
        let text = format!(in self.alloc; "refused: {fault}")?;
        self.failing_line(text.as_bytes())
    }

    /// A plan was not armed.
    pub fn report_not_armed(&mut self, fault: ArmFault) -> Result<(), AllocError>
        ensures { OnOk result (Prints self.old self.new (refused_text (arm_fault_text fault)) 1) }
    {
        let text = format!(in self.alloc; "refused: {fault}")?;
        self.failing_line(text.as_bytes())
    }

    /// A plan came to its end.
    pub fn report_done(&mut self, commands: u64) -> Result<(), AllocError>
        ensures { OnOk result (Prints self.old self.new (done_text commands) self.old.status) }
    {
        self.text(b"done ")?;
        self.number(commands)?;
        self.line(b" commands")
    }

    /// A plan stopped, and not as memory ran out.
    pub fn report_stopped(&mut self, commands: u64, cause: StopCause) -> Result<(), AllocError>
        ensures { OnOk result (Prints self.old self.new (stopped_text commands cause) 1) }
    {
        self.text(b"stopped at command ")?;
        self.number(commands)?;
        self.text(b": ")?;
        self.failing_line(cause_text(cause).as_bytes())
    }

    /// A plan was given up where it was.
    pub fn report_abandoned(&mut self, commands: u64) -> Result<(), AllocError>
        ensures { OnOk result (Prints self.old self.new (abandoned_text commands) self.old.status) }
    {
        self.text(b"abandoned after ")?;
        self.number(commands)?;
        self.line(b" commands")
    }

    /// The number, counted from 1, of the first event that is not honest, if there is one.
    pub fn honesty(&mut self, found: Option<u64>) -> Result<(), AllocError>
        ensures { OnOk result (Prints self.old self.new (honesty_text found) self.old.status) }
    {
        match found {
            None => self.line(b"honest"),
            Some(number) => {
                self.text(b"dishonest event ")?;
                self.number(number)?;
                self.line(b"")
            }
        }
    }

    /// The script ended while a plan was armed.
    pub fn report_unfinished(&mut self, commands: u64) -> Result<(), AllocError>
        ensures { OnOk result (Prints self.old self.new (unfinished_text commands) 1) }
    {
        self.text(b"unfinished after ")?;
        self.number(commands)?;
        self.failing_line(b" commands")
    }

    /// The end of a line that reports a failure.
    pub(crate) fn failing_line(&mut self, text: &[u8]) -> Result<(), AllocError>
        ensures { OnOk result (Prints self.old self.new (closed text.now) 1) }
    {
        self.status = 1;
        self.line(text)
    }

    pub(crate) fn number(&mut self, number: u64) -> Result<(), AllocError>
        ensures { OnOk result (Prints self.old self.new (decimal number) self.old.status) }
    {
        self.text(Buffer::new().format(number).as_bytes())
    }

    pub(crate) fn text(&mut self, text: &[u8]) -> Result<(), AllocError>
        ensures { OnOk result (Prints self.old self.new text.now self.old.status) }
    {
        self.printed.extend_from_slice(text)?;
        Ok(())
    }

    pub(crate) fn line(&mut self, text: &[u8]) -> Result<(), AllocError>
        ensures { OnOk result (Prints self.old self.new (closed text.now) self.old.status) }
    {
        self.text(text)?;
        self.printed.push(b'\n')?;
        Ok(())
    }
}

/// The text of an administrator's refusal, without the `-` of an error.
pub(crate) fn error_text(fault: AdminFault) -> &'static str
    ensures { result.now ≡ fault_text fault }
{
    match fault {
        AdminFault::NotOwner => "ERR the node does not own the slot",
        AdminFault::AlreadyOwner => "ERR the node already owns the slot",
        AdminFault::UnknownNode => "ERR unknown node",
        AdminFault::KeysRemain => "ERR the node still holds keys of the slot",
        AdminFault::SameNode => "ERR the node itself is named",
        AdminFault::Busy => {
            "ERR Target instance replied with error: BUSYKEY Target key name already exists."
        }
        AdminFault::NotImporting => {
            "ERR Target instance replied with error: ERR the slot is not importing"
        }
    }
}

/// Why a plan stopped: the text of the refusal, or the cause with its number.
fn cause_text(cause: StopCause) -> &'static str
    ensures { result.now ≡ stop_text cause }
{
    match cause {
        StopCause::Refused(_, fault) => error_text(fault),
        StopCause::Memory => "2 Memory",
        StopCause::StrangeReply => "3 StrangeReply",
        StopCause::Abandoned => "4 Abandoned",
        StopCause::Limit => "5 Limit",
        StopCause::Lost => "6 Lost",
    }
}
