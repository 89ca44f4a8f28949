//! The settings of slots, which are most lines of a plan that is written out command by command. Each is read from its
//! end in one pass, by functions that are compiled into it, where the words that they seek are known.
ghost use Rattle.std.specs.Prelude.{◌≡◌, ◌<◌, ◌+◌, [], ◌∷◌, ◌++◌, IfSome};
ghost use Rattle.std.specs.Fmt.{decimal};
ghost use Rattle.plan_language.specs.Limits.{few};
ghost use Rattle.plan_language.specs.Lines.{FitsEach, IsLine, IsWithin};
ghost use Rattle.plan_language.specs.Settings.{setting_text};
ghost use Rattle.plan_language.specs.Texts.{line_text};

use crate::line::Line;
use crate::setting::Setting;
use crate::words::is_text;
use key_slots::{NodeId, Slot};

/// The line that the text is, where it sets a slot importing, migrating or to a node, all of `n0` to `n7`. What stands
/// after the slot has few lengths, so the text is read from its end, and the slot is what is left. Of another text
/// nothing is told: it may be a line.
pub(crate) fn usual_line(text: &[u8]) -> Option<Line>
    ensures text { IfSome result (λ line. text.now ≡ line_text line) }
    ensures line { IfSome result IsLine }
    ensures within { IfSome result (IsWithin few) }
    ensures fits { IfSome result FitsEach }
{
    let (with_node, at) = before_node(text, b" at n")?;
    let (with_setting, node) = before_node(with_node, b" n")?;
    let (with_slot, setting) = before_setting(with_setting)?;
    let digits = after(with_slot, b"setslot ")?;
    let slot = slot_of(digits)?;
    let command = setting.command(slot, NodeId::of(node), NodeId::of(at));
    Some(Line::Command(command))
}

/// What stands before these bytes and the number of a node, where those end the text, and that number.
#[inline(always)]
fn before_node<'a>(text: &'a [u8], name: &[u8]) -> Option<(&'a [u8], u8)>
    ensures { IfSome result (λ p. (p.1 < 8) × (text.now ≡ p.0.now ++ (name.now ++ decimal p.1))) }
{
    let (digit, rest) = text.split_last()?;
    let node = node_number(*digit)?;
    let front = before(rest, name)?;
    Some((front, node))
}

/// The number of a node that the digit is.
#[inline(always)]
fn node_number(digit: u8) -> Option<u8>
    ensures { IfSome result (λ n. (n < 8) × (decimal n ≡ digit ∷ [])) }
{
    match digit {
        b'0'..=b'7' => Some(digit - b'0'),
        _ => None,
    }
}

/// What stands before a space and the word of a setting, where those end the text, and that setting.
#[inline(always)]
fn before_setting(text: &[u8]) -> Option<(&[u8], Setting)>
    ensures { IfSome result (λ p. text.now ≡ p.0.now ++ (32 ∷ setting_text p.1)) }
{
    if let Some(front) = before(text, b" node") {
        return Some((front, Setting::Node));
    }
    if let Some(front) = before(text, b" importing") {
        return Some((front, Setting::Importing));
    }
    let front = before(text, b" migrating")?;
    Some((front, Setting::Migrating))
}

/// What stands before this end of the text, if it ends so.
#[inline(always)]
pub(crate) fn before<'a>(text: &'a [u8], end: &[u8]) -> Option<&'a [u8]>
    ensures { IfSome result (λ front. text.now ≡ front.now ++ end.now) }
{
    if text.len() < end.len() {
        return None;
    }
    let (front, back) = text.split_at(text.len() - end.len());
    if is_text(back, end) {
        Some(front)
    } else {
        None
    }
}

/// What stands after this beginning of the text, if it begins so.
#[inline(always)]
fn after<'a>(text: &'a [u8], beginning: &[u8]) -> Option<&'a [u8]>
    ensures { IfSome result (λ rest. text.now ≡ beginning.now ++ rest.now) }
{
    if text.len() < beginning.len() {
        return None;
    }
    let (front, rest) = text.split_at(beginning.len());
    if is_text(front, beginning) {
        Some(rest)
    } else {
        None
    }
}

/// The slot that these digits write. Nothing is told where the first is 0, or where they are more than five.
#[inline(always)]
fn slot_of(digits: &[u8]) -> Option<Slot>
    ensures { IfSome result (λ s. digits.now ≡ decimal s) }
{
    let (first, rest) = digits.split_first()?;
    if *first == b'0' {
        return None;
    }
    if rest.len() > 4 {
        return None;
    }
    let mut number = digit_of(*first)?;
    for digit in rest {
        number = number * 10 + digit_of(*digit)?;
    }
    Slot::new(number)
}

/// The number that the byte is the digit of.
#[inline(always)]
fn digit_of(byte: u8) -> Option<u64>
    ensures { IfSome result (λ d. (d < 10) × (byte ≡ 48 + d)) }
{
    if byte.is_ascii_digit() {
        Some(u64::from(byte - b'0'))
    } else {
        None
    }
}
