ghost use Rattle.std.specs.Prelude.{◌≡◌, ◌≢◌, ◌⊎◌, ℕ, List, ◌+◌, ◌-◌, ◌^◌, ◌<◌, ◌≤◌, min, [], ◌∷◌, ◌++◌, length};
ghost use Rattle.std.specs.Prelude.{IfOk, IfErr, IfSome, OnOk, OnErr, MatchOption, MatchResult};
ghost use Rattle.rehearsal.specs.Halting.{EndHalts, IsEndHalted, IsLineHalted, HaltsAt, HaltsBy, HaltsIn, HasFailed};
ghost use Rattle.rehearsal.specs.Halting.{HasWrittenLines, IsRehearsedBadly, IsStopped, ReportsHalt};
ghost use Rattle.rehearsal.specs.HaltTexts.{IsWrittenAtHalt, IsFaultText};
ghost use Rattle.rehearsal.specs.Playing.{Plays};
ghost use Rattle.rehearsal.specs.Scripts.{CanEnd, Flushes, GoesOn, IsEnded, IsFresh, IsLastPlayed, IsLinePlayed};
ghost use Rattle.rehearsal.specs.Scripts.{IsNextLine, IsOneLine, IsRehearsed};
ghost use Rattle.rehearsal.specs.Writing.{IsCut};
ghost use Rattle.rehearsal.specs.Stages.{IsStage};
ghost use Rattle.script_lines.specs.declared.fault.Halt.TheVariants as halts;

use crate::stage::Stage;
use byte_streams::{ByteIn, ByteOut, Failed, MAX_READS, read_buffer, write_whole};
use byte_texts::split_once;
use script_lines::{Halt, ScriptFault};
use std::alloc::{AllocError, Global};
use std::fmt;
use transcripts::Transcript;

/// How many printed bytes may wait before they are written. All are written before each read.
const WAITING_BYTES: usize = 65_536;

const OUT_OF_MEMORY: &[u8] = b"out of memory\n";

/// Plays the script that the reader gives, line by line, and writes what it prints. The status is 0 where the script
/// was played to its end, and 1 where a line was no line of a script, a plan was refused, stopped or left unfinished,
/// memory ran out, or a read or write failed.
pub fn rehearse<R: ByteIn, W: ByteOut>(alloc: Global, reader: &mut R, writer: &mut W) -> u8
    ensures status { result ≤ 1 }
    ensures whole { result ≡ 0 → IsRehearsed
        (record { gave = R.gave; ends = R.ends; failures = R.failures; before = reader.old; after = reader.new })
        (record { took = W.took; failures = W.failures; before = writer.old; after = writer.new })
        0 }
    ensures partly { result ≡ 1 → IsRehearsedBadly
        (record { gave = R.gave; ends = R.ends; failures = R.failures; before = reader.old; after = reader.new })
        (record { took = W.took; failures = W.failures; before = writer.old; after = writer.new })
        ⊎ ReportsHalt
        (record { gave = R.gave; ends = R.ends; failures = R.failures; before = reader.old; after = reader.new })
        (record { took = W.took; failures = W.failures; before = writer.old; after = writer.new }) }
    ensures unread { R.failures reader.new ≢ R.failures reader.old
        → (result ≡ 1) × HasWrittenLines
        (record { gave = R.gave; ends = R.ends; failures = R.failures; before = reader.old; after = reader.new })
        (record { took = W.took; failures = W.failures; before = writer.old; after = writer.new }) }
    ensures read { result ≡ 0 → R.failures reader.new ≡ R.failures reader.old }
    ensures unfailed { result ≡ 0 → W.failures writer.new ≡ W.failures writer.old }
{
    let mut rehearsal = Rehearsal {
        alloc,
        transcript: Transcript::new(alloc),
        waiting: Vec::new(alloc),
        pending: Vec::new(alloc),
        line: 1,
    };
    match rehearsal.play(reader, writer) {
        Ok(()) => u8::from(rehearsal.transcript.status != 0),
        Err(halt) => {
            let _written = rehearsal.report(halt, writer);
            1
        }
    }
}

/// A script as far as it was read: what its next line prints, what the lines before it printed and waits to be written,
/// the prefix of that line, and its number.
#[derive(Drop)]
struct Rehearsal {
    alloc: Global,
    transcript: Transcript,
    waiting: Vec<u8>,
    pending: Vec<u8>,
    line: u64,
}

impl Rehearsal {
    fn play<R: ByteIn, W: ByteOut>(&mut self, reader: &mut R, writer: &mut W) -> Result<(), Halt>
        requires { IsFresh self.old }
        ensures whole { OnOk result
            (IsRehearsed
            (record { gave = R.gave; ends = R.ends; failures = R.failures; before = reader.old; after = reader.new })
            (record { took = W.took; failures = W.failures; before = writer.old; after = writer.new })
            self.new.transcript.status) }
        ensures halted { IfErr result (HaltsBy
            (record { gave = R.gave; ends = R.ends; failures = R.failures; before = reader.old; after = reader.new })
            (record { took = W.took; failures = W.failures; before = writer.old; after = writer.new })
            self.new) }
        ensures failed { IfErr result
            (λ h. h ≡ halts.Failed
            → HasFailed
            (record { gave = R.gave; ends = R.ends; failures = R.failures; before = reader.old; after = reader.new })
            (record { took = W.took; failures = W.failures; before = writer.old; after = writer.new })) }
        ensures unread { IfErr result (λ h. R.failures reader.new ≢ R.failures reader.old
            → (h ≡ halts.Failed) × HasWrittenLines
            (record { gave = R.gave; ends = R.ends; failures = R.failures; before = reader.old; after = reader.new })
            (record { took = W.took; failures = W.failures; before = writer.old; after = writer.new })) }
        ensures read { OnOk result (R.failures reader.new ≡ R.failures reader.old) }
        ensures unfailed { OnOk result (W.failures writer.new ≡ W.failures writer.old) }
    {
        let mut buffer = read_buffer(self.alloc)?;
        let mut stage = Stage::NoClusterYet;
        for _ in 0..MAX_READS {
            match reader.read(buffer.as_mut_slice()) {
                Ok(0) => return self.finish(stage, writer),
                Ok(count) => stage = self.feed(stage, &buffer.as_slice()[..count], writer)?,
                Err(Failed) => {
                    stage.leave();
                    return Err(Halt::Failed);
                }
            }
        }
        stage.leave();
        Err(Halt::Failed)
    }

    /// Plays each line that ends in these bytes, and writes what they print.
    fn feed<W: ByteOut>(
        &mut self,
        stage: Stage,
        bytes: &[u8],
        writer: &mut W,
    ) -> Result<Stage, Halt>
        requires { IsStage stage }
        ensures halted { HaltsIn
            (record { took = W.took; failures = W.failures; before = writer.old; after = writer.new })
            (record { before = self.old; after = self.new }) stage bytes.now result }
        ensures failed { IfErr result (λ h. h ≡ halts.Failed → W.failures writer.new ≢ W.failures writer.old) }
        ensures goes { GoesOn
            (record { took = W.took; failures = W.failures; before = writer.old; after = writer.new })
            (record { before = self.old; after = self.new }) stage bytes.now result }
        ensures kept { IfOk result IsStage }
        ensures written { OnOk result (self.new.waiting.items ≡ []) }
        ensures unfailed { OnOk result (W.failures writer.new ≡ W.failures writer.old) }
    {
        let mut stage = stage;
        let mut rest = bytes;
        while let Some((line, tail)) = first_line(rest) {
            stage = self.step(stage, line, writer)?;
            rest = tail;
        }
        let kept = self.keep(rest, writer);
        stage.beside(kept)
    }

    /// Plays the line of which this is the end, and writes what was printed if much waits.
    fn step<W: ByteOut>(&mut self, stage: Stage, end: &[u8], writer: &mut W) -> Result<Stage, Halt>
        requires stage { IsStage stage }
        requires line { IsOneLine end.now }
        ensures halted { HaltsAt
            (record { took = W.took; failures = W.failures; before = writer.old; after = writer.new })
            (record { before = self.old; after = self.new }) stage end.now result }
        ensures failed { IfErr result (λ h. h ≡ halts.Failed → W.failures writer.new ≢ W.failures writer.old) }
        ensures goes { GoesOn
            (record { took = W.took; failures = W.failures; before = writer.old; after = writer.new })
            (record { before = self.old; after = self.new }) stage (end.now ++ 10 ∷ []) result }
        ensures kept { IfOk result IsStage }
        ensures unfailed { OnOk result (W.failures writer.new ≡ W.failures writer.old) }
    {
        let played = self.end_line(stage, end)?;
        if self.waiting.len() < WAITING_BYTES {
            return Ok(played);
        }
        let written = self.write(writer);
        played.beside(written)
    }

    /// Keeps the prefix of a line, and writes what was printed.
    fn keep<W: ByteOut>(&mut self, prefix: &[u8], writer: &mut W) -> Result<(), Halt>
        ensures stopped { IfErr result (IsStopped
            (record { took = W.took; failures = W.failures; before = writer.old; after = writer.new })
            (record { before = self.old; after = self.new })) }
        ensures flushed { OnOk result (Flushes
            (record { took = W.took; failures = W.failures; before = writer.old; after = writer.new })
            (record { before = self.old; after = self.new })) }
        ensures pending { OnOk result (self.new.pending.items ≡ self.old.pending.items ++ prefix.now) }
        ensures unfailed { OnOk result (W.failures writer.new ≡ W.failures writer.old) }
    {
        self.complete(prefix)?;
        self.write(writer)
    }

    /// Plays the line of which this is the end. What it prints waits after what the lines before it printed, or is
    /// dropped whole where it halts.
    fn end_line(&mut self, stage: Stage, end: &[u8]) -> Result<Stage, Halt>
        requires { IsStage stage }
        ensures ends { MatchResult result (IsLinePlayed stage (self.old.pending.items ++ end.now) self.old self.new)
            (IsLineHalted stage (self.old.pending.items ++ end.now) self.old self.new) }
        ensures kept { IfOk result IsStage }
    {
        self.transcript.clear();
        let played = self.play_whole(stage, end)?;
        let turned = self.next_line();
        played.beside(turned)
    }

    /// Plays the line that is kept up to this end.
    fn play_whole(&mut self, stage: Stage, end: &[u8]) -> Result<Stage, Halt>
        requires { IsStage stage }
        ensures plays { Plays stage (self.old.pending.items ++ end.now) self.old.transcript self.new.transcript result }
        ensures waiting { self.new.waiting ≡ self.old.waiting }
        ensures line { self.new.line ≡ self.old.line }
        ensures kept { IfOk result IsStage }
    {
        if self.pending.is_empty() {
            return stage.play(self.alloc, &mut self.transcript, end);
        }
        match self.complete(end) {
            Ok(()) => stage.play(self.alloc, &mut self.transcript, self.pending.as_slice()),
            Err(AllocError) => {
                stage.leave();
                Err(Halt::Memory)
            }
        }
    }

    /// What the line printed waits to be written, and the next line begins.
    fn next_line(&mut self) -> Result<(), Halt>
        ensures turns { MatchResult result
            (λ _. (self.new.waiting.items ≡ self.old.waiting.items ++ self.old.transcript.printed.items)
            × IsNextLine self.old self.new)
            (λ h. (h ≡ halts.Memory) × (self.new.waiting.items ≡ self.old.waiting.items)
            × (self.new.line ≡ self.old.line)) }
        ensures transcript { self.new.transcript ≡ self.old.transcript }
    {
        self.keep_printed()?;
        self.pending.clear();
        self.line = self.line.saturating_add(1);
        Ok(())
    }

    /// What was printed last waits to be written.
    fn keep_printed(&mut self) -> Result<(), Halt>
        ensures keeps { MatchResult result
            (λ _. self.new.waiting.items ≡ self.old.waiting.items ++ self.old.transcript.printed.items)
            (λ h. (h ≡ halts.Memory) × (self.new.waiting.items ≡ self.old.waiting.items)) }
        ensures transcript { self.new.transcript ≡ self.old.transcript }
        ensures pending { self.new.pending ≡ self.old.pending }
        ensures line { self.new.line ≡ self.old.line }
    {
        self.waiting
            .extend_from_slice(self.transcript.printed.as_slice())?;
        Ok(())
    }

    fn complete(&mut self, end: &[u8]) -> Result<(), AllocError>
        ensures pending { OnOk result (self.new.pending.items ≡ self.old.pending.items ++ end.now) }
        ensures transcript { self.new.transcript ≡ self.old.transcript }
        ensures waiting { self.new.waiting ≡ self.old.waiting }
        ensures line { self.new.line ≡ self.old.line }
    {
        self.pending.extend_from_slice(end)?;
        Ok(())
    }

    /// Plays a last line that no line feed ends, and ends the rehearsal.
    fn finish<W: ByteOut>(&mut self, stage: Stage, writer: &mut W) -> Result<(), Halt>
        requires { IsStage stage }
        ensures halted { EndHalts
            (record { took = W.took; failures = W.failures; before = writer.old; after = writer.new })
            (record { before = self.old; after = self.new }) stage result }
        ensures failed { IfErr result (λ h. h ≡ halts.Failed → W.failures writer.new ≢ W.failures writer.old) }
        ensures end { CanEnd
            (record { took = W.took; failures = W.failures; before = writer.old; after = writer.new })
            (record { before = self.old; after = self.new }) stage result }
        ensures unfailed { OnOk result (W.failures writer.new ≡ W.failures writer.old) }
    {
        let last = self.end_last(stage)?;
        self.end(last)?;
        self.write(writer)
    }

    /// Plays the last line, if no line feed ends it.
    fn end_last(&mut self, stage: Stage) -> Result<Stage, Halt>
        requires { IsStage stage }
        ensures ends { MatchResult result (IsLastPlayed stage self.old.pending.items self.old self.new)
            (IsLineHalted stage self.old.pending.items self.old self.new) }
        ensures kept { IfOk result IsStage }
    {
        if self.pending.as_slice().is_empty() {
            return Ok(stage);
        }
        self.end_line(stage, b"")
    }

    /// Ends the rehearsal at this stage. What the end prints waits to be written, or is dropped whole where it halts.
    fn end(&mut self, last: Stage) -> Result<(), Halt>
        requires { IsStage last }
        ensures { MatchResult result (λ _. IsEnded last self.old self.new) (IsEndHalted last self.old self.new) }
    {
        self.transcript.clear();
        last.finish(self.alloc, &mut self.transcript)?;
        self.keep_printed()
    }

    /// Writes what was printed.
    fn write<W: ByteOut>(&mut self, writer: &mut W) -> Result<(), Halt>
        ensures flushed { OnOk result (Flushes
            (record { took = W.took; failures = W.failures; before = writer.old; after = writer.new })
            (record { before = self.old; after = self.new })) }
        ensures cut { IfErr result (IsCut
            (record { took = W.took; failures = W.failures; before = writer.old; after = writer.new })
            self.old.waiting.items) }
        ensures pending { self.new.pending ≡ self.old.pending }
        ensures line { self.new.line ≡ self.old.line }
        ensures unfailed { OnOk result (W.failures writer.new ≡ W.failures writer.old) }
    {
        put(writer, self.waiting.as_slice())?;
        self.waiting.clear();
        Ok(())
    }

    /// Writes what was printed before the halt, and the halt's own line.
    fn report<W: ByteOut>(&mut self, halt: Halt, writer: &mut W) -> Result<(), Halt>
        ensures { (text : List ℕ) × IsWrittenAtHalt self.old.waiting.items self.old.line halt text
            × MatchResult result (λ _. W.took writer.old text writer.new)
            (IsCut (record { took = W.took; failures = W.failures; before = writer.old; after = writer.new }) text) }
    {
        match halt {
            Halt::Fault(fault) => {
                self.write(writer)?;
                self.report_fault(fault, writer)
            }
            Halt::Memory => {
                self.write(writer)?;
                put(writer, OUT_OF_MEMORY)
            }
            Halt::Failed => Ok(()),
        }
    }

    fn report_fault<W: ByteOut>(&self, fault: ScriptFault, writer: &mut W) -> Result<(), Halt>
        ensures { (text : List ℕ) × IsFaultText self.now.line fault text
            × MatchResult result (λ _. W.took writer.old text writer.new)
            (IsCut (record { took = W.took; failures = W.failures; before = writer.old; after = writer.new }) text) }
    {
        let line = self.line;
        match (FaultyLine { line, fault }).to_string(self.alloc) {
            Ok(text) => put(writer, text.as_bytes()),
            Err(AllocError) => put(writer, OUT_OF_MEMORY),
        }
    }
}

/// A fault with the number of its line, as it is reported: `script line 3: 2 Verb`, and a line feed.
#[derive(Clone, Copy)]
struct FaultyLine {
    line: u64,
    fault: ScriptFault,
}

impl fmt::Display for FaultyLine {
    ghost use Rattle.std.specs.Prelude.{Some};
    ghost use Rattle.script_lines.specs.declared.fault.Halt.TheVariants.{Fault};
    ghost use Rattle.rehearsal.specs.Scripts.{halt_text};

    ghost output = { λ f. Some (halt_text f.line (Fault f.fault)) };

    fn fmt<W: fmt::Write>(&self, f: &mut fmt::Formatter<W>) -> fmt::Result {
        let Self { line, fault } = self;
        write!(f, "script line {line}: {fault}\n")
    }
}

/// Writes the whole text.
fn put<W: ByteOut>(writer: &mut W, text: &[u8]) -> Result<(), Halt>
    ensures wrote { MatchResult result (λ _. W.took writer.old text.now writer.new)
        (IsCut (record { took = W.took; failures = W.failures; before = writer.old; after = writer.new }) text.now) }
    ensures unfailed { OnOk result (W.failures writer.new ≡ W.failures writer.old) }
{
    match write_whole(writer, text) {
        Ok(()) => Ok(()),
        Err(Failed) => Err(Halt::Failed),
    }
}

/// The line before the first line feed, and what stands after that.
fn first_line(text: &[u8]) -> Option<(&[u8], &[u8])>
    ensures line { MatchOption result (IsOneLine text.now)
        (λ p. IsOneLine p.0.now × (text.now ≡ p.0.now ++ 10 ∷ p.1.now)) }
    ensures shorter { IfSome result (λ p. length p.1.now < length text.now) }
{
    split_once(text, b'\n')
}
