ghost use Rattle.std.specs.Prelude.{◌≡◌, ◌+◌, ◌≤◌, true, Err, IfOk, MatchOption, MatchResult, None, Some};
ghost use Rattle.plan_language.specs.declared.parse_fault.ParseCause.TheVariants.{Memory};
ghost use Rattle.plan_language.specs.Limits.{limits_of};
ghost use Rattle.plan_language.specs.Lines.{are_listed, line_count, FitsVersion, IsLine, IsVersion, IsWithin};
ghost use Rattle.plan_language.specs.Texts.{as_plan, parts, plan_of_text, with_line};
ghost use Rattle.plan_language.specs.LinesLeft.{read_on, read_past, ReadsLine, fault_of};

use crate::limits::Limits;
use crate::line::Line;
use crate::line_reading::line_in;
use crate::parse_fault::{ParseCause, ParseFault};
use crate::words::{ends_plan, version_in};
use byte_texts::Parts;
use key_slots::NodeId;
use node_names::NodeName;
use std::marker::Model;

/// The lines of a plan's text that are not read yet, from its first command on.
#[derive(Drop)]
pub(crate) struct PlanLines<'a> {
    version: u8,
    limits: Limits,
    names: Option<&'a [(NodeId, NodeName)]>,
    lines: Parts<'a>,
    number: u32,
    count: u32,
}

impl<'a> Model for PlanLines<'a> {
    ghost use Rattle.std.specs.Prelude.{◌≡◌, option_map};
    ghost use Rattle.plan_language.specs.Limits.{limits_of};
    ghost use Rattle.plan_language.specs.LinesLeft.{LinesLeft, AreLinesLeft};

    ghost Value = { LinesLeft };

    ghost view = { λ l. record {
      version = l.version;
      names = option_map (λ names. names.now) l.names;
      number = l.number;
      before = l.count;
      lines = l.lines;
    } };

    ghost invariant = { λ l. AreLinesLeft l.version l.number l.count
        × (l.limits ≡ limits_of (option_map (λ names. names.now) l.names)) };
}

impl<'a> PlanLines<'a> {
    /// The lines after the header, which lists no nodes.
    #[tactic(auto, using(crate::proofs::Reading::no_header, crate::proofs::Reading::header))]
    pub(crate) fn of(text: &'a [u8]) -> Result<Self, ParseFault>
        ensures { MatchResult result
            (λ l. (plan_of_text text.entry.now ≡ as_plan l.version None (read_on l)) × (l.names ≡ None)
            × (l.before ≡ 0))
            (λ f. plan_of_text text.entry.now ≡ Err f) }
    {
        let mut lines = Parts::of(text, b'\n');
        let Some(header) = lines.next_whole() else {
            return Err(fault(ParseCause::NoEnd, 1));
        };
        let Some(version) = version_in(header) else {
            return Err(fault(ParseCause::Header, 1));
        };
        Ok(Self {
            version,
            limits: Limits::few(),
            names: None,
            lines,
            number: 2,
            count: 0,
        })
    }

    /// The lines from this text on, after those of these nodes.
    pub(crate) fn after(
        version: u8,
        names: &'a [(NodeId, NodeName)],
        text: &'a [u8],
        number: u32,
    ) -> Self
        requires version { IsVersion version }
        requires some { 2 ≤ number }
        requires most { number ≤ 257 }
        ensures { result ≡ record {
          version = version;
          names = Some names.entry.now;
          number = number;
          before = 0;
          lines = parts 10 text.entry.now;
        } }
    {
        Self {
            version,
            limits: Limits::many(),
            names: Some(names),
            lines: Parts::of(text, b'\n'),
            number,
            count: 0,
        }
    }

    /// The version that the header told.
    pub(crate) fn version(&self) -> u8
        ensures value { result ≡ self.now.version }
        ensures within { IsVersion result }
    {
        self.version
    }

    /// Reads the next line, of which there is none at the end.
    #[tactic(auto, using(crate::proofs::Reading::no_line, crate::proofs::Reading::one_line))]
    pub(crate) fn next(&mut self) -> Result<Option<Line>, ParseFault>
        ensures { ReadsLine self.old result self.new }
    {
        let Some(text) = self.lines.next_whole() else {
            return Err(fault(ParseCause::NoEnd, self.number));
        };
        if ends_plan(text) {
            return if self.lines.is_nothing() {
                Ok(None)
            } else {
                Err(fault(ParseCause::Verb, self.number + 1))
            };
        }
        Ok(Some(self.take_in(text)?))
    }

    /// Whether the nodes that the line mentions are listed, where there are names.
    fn lists(&self, line: &Line) -> bool
        ensures { result ≡ are_listed self.now.names line.now }
    {
        match self.names {
            None => true,
            Some(names) => line.is_listed(names),
        }
    }

    /// Reads this text as a line, counts its commands, and goes on to the next.
    fn take_in(&mut self, text: &[u8]) -> Result<Line, ParseFault>
        ensures read { MatchResult result (λ line. read_past self.old text.now ≡ with_line line (read_on self.new))
            (λ f. read_past self.old text.now ≡ Err f) }
        ensures line { IfOk result (λ line. IsLine line × IsWithin (limits_of self.old.names) line
            × FitsVersion self.old.version line × (are_listed self.old.names line ≡ true)
            × (self.new.before ≡ self.old.before + line_count (limits_of self.old.names) line)
            × (self.new.before ≤ (limits_of self.old.names).commands)) }
        ensures lines { self.new.lines ≡ self.old.lines }
        ensures version { self.new.version ≡ self.old.version }
        ensures names { self.new.names ≡ self.old.names }
    {
        let line = match line_in(self.limits, self.version, text) {
            Ok(line) => line,
            Err(cause) => return Err(fault(cause, self.number)),
        };
        if !self.lists(&line) {
            return Err(fault(ParseCause::Unlisted, self.number));
        }
        let count = self.count + line.count(self.limits);
        if count > self.limits.commands {
            return Err(fault(ParseCause::TooLong, self.number));
        }
        self.number += 1;
        self.count = count;
        Ok(line)
    }

    /// Why no plan is made where a line has no room: the fault of the lines that are left, or else out of memory at the
    /// line that was read last.
    #[tactic(auto, using(crate::proofs::Reading::fault_with))]
    pub(crate) fn out_of_memory(mut self) -> ParseFault
        ensures { MatchOption (fault_of (read_on self.entry)) (result.cause ≡ Memory) (λ f. result ≡ f) }
    {
        let line = self.number - 1;
        loop {
            match self.next() {
                Ok(Some(_)) => {}
                Ok(None) => return fault(ParseCause::Memory, line),
                Err(fault) => return fault,
            }
        }
    }
}

/// This cause, at this line.
pub(crate) fn fault(cause: ParseCause, line: u32) -> ParseFault
    ensures { result ≡ record { cause = cause; line = line } }
{
    ParseFault { cause, line }
}
