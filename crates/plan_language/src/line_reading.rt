ghost use Rattle.std.specs.Prelude.{◌≡◌, ◌<◌, ◌≤◌, cond, false, IfOk, IfSome};
ghost use Rattle.plan_language.specs.declared.parse_fault.ParseCause.TheVariants.{Verb};
ghost use Rattle.plan_language.specs.Lines.{FitsEach, FitsVersion, IsLine, IsWithin};
ghost use Rattle.plan_language.specs.Texts.{are_words, parts, slots_in, route_in};
ghost use Rattle.plan_language.specs.Texts.{setslot_line, set_line, stable_line, drain_line, move_line};
ghost use Rattle.plan_language.specs.Texts.{row_in, line_in};

use crate::limits::Limits;
use crate::line::Line;
use crate::parse_fault::ParseCause;
use crate::plan_command::PlanCommand;
use crate::setting::Setting;
use crate::usual_lines::{before, usual_line};
use crate::words::{batch_in, is_text, seven, three, two};
use byte_texts::Parts;
use key_slots::{NodeId, Slot};

/// The line that a line of text is in a plan with these limits and the rules of this version.
pub(crate) fn line_in(limits: Limits, version: u8, text: &[u8]) -> Result<Line, ParseCause>
    requires { 8 ≤ limits.nodes }
    ensures value { result ≡ line_in limits version (parts 32 text.now) }
    ensures line { IfOk result IsLine }
    ensures within { IfOk result (IsWithin limits) }
    ensures fits { IfOk result (FitsVersion version) }
{
    match usual_line(text) {
        Some(line) => Ok(line),
        None => any_line_in(limits, version, text),
    }
}

/// A line of any form, word by word. No line has an empty word, so only a text that is none is looked through for one,
/// which counts before any other fault; a last one is seen at once. It stands apart, so that what comes before it stays
/// short.
#[inline(never)]
fn any_line_in(limits: Limits, version: u8, text: &[u8]) -> Result<Line, ParseCause>
    requires { 8 ≤ limits.nodes }
    ensures value { result ≡ line_in limits version (parts 32 text.now) }
    ensures line { IfOk result IsLine }
    ensures within { IfOk result (IsWithin limits) }
    ensures fits { IfOk result (FitsVersion version) }
{
    if let Some(_before_end) = before(text, b" ") {
        return Err(ParseCause::Verb);
    }
    match row_in(limits, version, Parts::of(text, b' ')) {
        Ok(line) => Ok(line),
        Err(cause) => Err(refusal(text, cause)),
    }
}

/// Why the text is no line, where its words are at fault so: an empty one decides.
fn refusal(text: &[u8], cause: ParseCause) -> ParseCause
    ensures { result ≡ cond (are_words (parts 32 text.now)) cause Verb }
{
    if Parts::of(text, b' ').are_words() {
        cause
    } else {
        ParseCause::Verb
    }
}

/// The line that these words are.
fn row_in(limits: Limits, version: u8, mut words: Parts) -> Result<Line, ParseCause>
    requires { 8 ≤ limits.nodes }
    ensures value { result ≡ row_in limits version words.entry }
    ensures line { IfOk result IsLine }
    ensures within { IfOk result (IsWithin limits) }
    ensures fits { IfOk result (FitsVersion version) }
{
    let Some(verb) = words.next() else {
        return Err(ParseCause::Verb);
    };
    if is_text(verb, b"setslot") {
        setslot_line(limits, version, words)
    } else if is_text(verb, b"drain") {
        drain_line(limits, words)
    } else if is_text(verb, b"move") {
        move_line(limits, words)
    } else {
        Err(ParseCause::Verb)
    }
}

/// A `setslot` line, from its second word on. A slot is set stable in version 3 alone.
fn setslot_line(limits: Limits, version: u8, mut words: Parts) -> Result<Line, ParseCause>
    requires { 8 ≤ limits.nodes }
    ensures value { result ≡ setslot_line limits version words.entry }
    ensures line { IfOk result IsLine }
    ensures within { IfOk result (IsWithin limits) }
    ensures fits { IfOk result (FitsVersion version) }
{
    let Some(slot) = words.next() else {
        return Err(ParseCause::Verb);
    };
    let Some(how) = words.next() else {
        return Err(ParseCause::Verb);
    };
    if is_text(how, b"stable") && version == 3 {
        stable_line(limits, slot, words)
    } else {
        set_line(limits, slot, how, words)
    }
}

/// `setslot SLOT stable at NODE`, from its fourth word on.
fn stable_line(limits: Limits, slot: &[u8], words: Parts) -> Result<Line, ParseCause>
    requires { 8 ≤ limits.nodes }
    ensures value { result ≡ stable_line limits slot.now words.entry }
    ensures line { IfOk result IsLine }
    ensures within { IfOk result (IsWithin limits) }
    ensures fits { IfOk result (FitsVersion 3) }
{
    let (at, place) = two(words).ok_or(ParseCause::Verb)?;
    if !is_text(at, b"at") {
        return Err(ParseCause::Verb);
    }
    let slot = Slot::parse(slot).ok_or(ParseCause::Slot)?;
    let at = NodeId::parse_among(limits.nodes, place).ok_or(ParseCause::Node)?;
    Ok(Line::Command(PlanCommand::Stable { slot, at }))
}

/// `setslot SLOT HOW NODE at NODE`, from its fourth word on.
fn set_line(limits: Limits, slot: &[u8], how: &[u8], words: Parts) -> Result<Line, ParseCause>
    requires { 8 ≤ limits.nodes }
    ensures value { result ≡ set_line limits slot.now how.now words.entry }
    ensures line { IfOk result IsLine }
    ensures within { IfOk result (IsWithin limits) }
    ensures fits { IfOk result FitsEach }
{
    let (node, at, place) = three(words).ok_or(ParseCause::Verb)?;
    let setting = Setting::parse(how).ok_or(ParseCause::Verb)?;
    if !is_text(at, b"at") {
        return Err(ParseCause::Verb);
    }
    let slot = Slot::parse(slot).ok_or(ParseCause::Slot)?;
    let node = NodeId::parse_among(limits.nodes, node).ok_or(ParseCause::Node)?;
    let place = NodeId::parse_among(limits.nodes, place).ok_or(ParseCause::Node)?;
    Ok(Line::Command(setting.command(slot, node, place)))
}

/// Two nodes, and a batch.
fn route_in(
    limits: Limits,
    source: &[u8],
    target: &[u8],
    batch: &[u8],
) -> Result<(NodeId, NodeId, u16), ParseCause>
    requires { 8 ≤ limits.nodes }
    ensures value { result ≡ route_in limits source.now target.now batch.now }
    ensures nodes { IfOk result (λ r. (r.0 < limits.nodes) × (r.1 < limits.nodes)) }
    ensures batch { IfOk result (λ r. (1 ≤ r.2) × (r.2 ≤ 1000)) }
{
    let source = NodeId::parse_among(limits.nodes, source).ok_or(ParseCause::Node)?;
    let target = NodeId::parse_among(limits.nodes, target).ok_or(ParseCause::Node)?;
    let batch = batch_in(batch).ok_or(ParseCause::Count)?;
    Ok((source, target, batch))
}

/// `drain SLOT at NODE to NODE by BATCH`, from its second word on.
fn drain_line(limits: Limits, words: Parts) -> Result<Line, ParseCause>
    requires { 8 ≤ limits.nodes }
    ensures value { result ≡ drain_line limits words.entry }
    ensures line { IfOk result IsLine }
    ensures within { IfOk result (IsWithin limits) }
    ensures fits { IfOk result FitsEach }
{
    let (slot, at, (source, to, target, by, batch)) = seven(words).ok_or(ParseCause::Verb)?;
    if !is_text(at, b"at") || !is_text(to, b"to") || !is_text(by, b"by") {
        return Err(ParseCause::Verb);
    }
    let slot = Slot::parse(slot).ok_or(ParseCause::Slot)?;
    let (source, target, batch) = route_in(limits, source, target, batch)?;
    Ok(Line::Command(PlanCommand::Drain {
        slot,
        source,
        target,
        batch,
    }))
}

/// One slot, or two with `-` between them, and whether they are two.
fn slots_in(word: &[u8]) -> Option<(Slot, Slot, bool)>
    ensures value { result ≡ slots_in (parts 45 word.now) }
    ensures one { IfSome result (λ r. r.2 ≡ false → r.0 ≡ r.1) }
{
    let mut slots = Parts::of(word, b'-');
    let first = Slot::parse(slots.next()?)?;
    match slots.next() {
        None => Some((first, first, false)),
        Some(last) => {
            let last = Slot::parse(last)?;
            if slots.is_empty() {
                Some((first, last, true))
            } else {
                None
            }
        }
    }
}

/// `move SLOTS from NODE to NODE by BATCH`, from its second word on.
fn move_line(limits: Limits, words: Parts) -> Result<Line, ParseCause>
    requires { 8 ≤ limits.nodes }
    ensures value { result ≡ move_line limits words.entry }
    ensures line { IfOk result IsLine }
    ensures within { IfOk result (IsWithin limits) }
    ensures fits { IfOk result FitsEach }
{
    let (slots, from, (source, to, target, by, batch)) = seven(words).ok_or(ParseCause::Verb)?;
    if !is_text(from, b"from") || !is_text(to, b"to") || !is_text(by, b"by") {
        return Err(ParseCause::Verb);
    }
    let (first, last, is_range) = slots_in(slots).ok_or(ParseCause::Slot)?;
    let (source, target, batch) = route_in(limits, source, target, batch)?;
    if is_range && first >= last {
        return Err(ParseCause::Range);
    }
    Ok(Line::Move {
        first,
        last,
        source,
        target,
        batch,
    })
}
