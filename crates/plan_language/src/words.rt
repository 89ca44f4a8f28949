ghost use Rattle.std.specs.Prelude.{◌≡◌, ◌≢◌, ◌≤◌, ◌∷◌, [], IfSome, MatchOption, length};
ghost use Rattle.byte_texts.specs.Decimals.{number_in};
ghost use Rattle.plan_language.specs.Lines.{IsVersion};
ghost use Rattle.plan_language.specs.Texts.{ends_plan, is_header, is_text, listing_version_in, version_in};

use byte_texts::{Parts, number_in};

/// Five words.
pub(crate) type FiveWords<'a> = (&'a [u8], &'a [u8], &'a [u8], &'a [u8], &'a [u8]);

/// The version that the line tells, if it is the header of a plan that lists no nodes: `reshard-plan 1`,
/// `reshard-plan 2` or `reshard-plan 3`.
pub(crate) fn version_in(line: &[u8]) -> Option<u8>
    ensures value { result ≡ version_in line.now }
    ensures within { IfSome result IsVersion }
{
    if is_text(line, b"reshard-plan 1") {
        Some(1)
    } else if is_text(line, b"reshard-plan 2") {
        Some(2)
    } else if is_text(line, b"reshard-plan 3") {
        Some(3)
    } else {
        None
    }
}

/// The version of the rules, if the line is the header of a plan that lists nodes: `reshard-plan 4` has the rules of
/// version 1, and `reshard-plan 5` those of version 3.
pub(crate) fn listing_version_in(line: &[u8]) -> Option<u8>
    ensures value { result ≡ listing_version_in line.now }
    ensures within { IfSome result IsVersion }
    ensures rules { IfSome result (λ v. v ≢ 2) }
{
    if is_text(line, b"reshard-plan 4") {
        Some(1)
    } else if is_text(line, b"reshard-plan 5") {
        Some(3)
    } else {
        None
    }
}

/// Whether the line is the header of a plan that lists no nodes.
pub fn is_header(line: &[u8]) -> bool
    ensures { result ≡ is_header line.now }
{
    version_in(line).is_some()
}

/// Whether the line is the last one of a plan.
pub fn ends_plan(line: &[u8]) -> bool
    ensures { result ≡ ends_plan line.now }
{
    is_text(line, b"end")
}

/// Whether the word is this one. Where the text is written out at the call, each of its bytes is one comparison there.
#[inline(always)]
pub(crate) fn is_text(word: &[u8], text: &[u8]) -> bool
    ensures { result ≡ is_text text.now word.now }
{
    if word.len() != text.len() {
        return false;
    }
    for place in 0..text.len() {
        if word[place] != text[place] {
            return false;
        }
    }
    true
}

/// The words, if they are two.
pub(crate) fn two<'a>(words: Parts<'a>) -> Option<(&'a [u8], &'a [u8])>
    ensures { MatchOption result (length words.entry ≢ 2) (λ p. words.entry ≡ p.0.now ∷ (p.1.now ∷ [])) }
{
    let mut words = words;
    let two = (words.next()?, words.next()?);
    if words.is_empty() { Some(two) } else { None }
}

/// The words, if they are three.
pub(crate) fn three<'a>(words: Parts<'a>) -> Option<(&'a [u8], &'a [u8], &'a [u8])>
    ensures { MatchOption result (length words.entry ≢ 3)
        (λ p. words.entry ≡ p.0.now ∷ (p.1.now ∷ (p.2.now ∷ []))) }
{
    let mut words = words;
    let three = (words.next()?, words.next()?, words.next()?);
    if words.is_empty() { Some(three) } else { None }
}

/// The words, if they are five.
fn five<'a>(words: Parts<'a>) -> Option<FiveWords<'a>>
    ensures { MatchOption result (length words.entry ≢ 5)
        (λ p. words.entry ≡ p.0.now ∷ (p.1.now ∷ (p.2.now ∷ (p.3.now ∷ (p.4.now ∷ []))))) }
{
    let mut words = words;
    let five = (
        words.next()?,
        words.next()?,
        words.next()?,
        words.next()?,
        words.next()?,
    );
    if words.is_empty() { Some(five) } else { None }
}

/// The words, if they are seven.
pub(crate) fn seven<'a>(words: Parts<'a>) -> Option<(&'a [u8], &'a [u8], FiveWords<'a>)>
    ensures { MatchOption result (length words.entry ≢ 7)
        (λ p. words.entry ≡ p.0.now ∷ (p.1.now
        ∷ (p.2.0.now ∷ (p.2.1.now ∷ (p.2.2.now ∷ (p.2.3.now ∷ (p.2.4.now ∷ []))))))) }
{
    let mut words = words;
    Some((words.next()?, words.next()?, five(words)?))
}

/// The batch that the word names: 1 to 1,000.
pub fn batch_in(word: &[u8]) -> Option<u16>
    ensures value { result ≡ number_in 1 1000 word.now }
    ensures within { IfSome result (λ b. (1 ≤ b) × (b ≤ 1000)) }
{
    match number_in(word, 1, 1_000) {
        Some(number) => Some(number as u16),
        None => None,
    }
}
