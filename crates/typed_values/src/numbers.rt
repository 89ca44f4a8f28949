//! Numbers of 64 bits, signed, and the texts that spell them.
ghost use Rattle.std.specs.Prelude.{◌≡◌, ◌≢◌, ℤ, FitsSigned, IfOk, IfSome, IfNone};
ghost use Rattle.std.specs.Int.{w64};
ghost use Rattle.std.specs.Fmt.{signed_decimal};
ghost use Rattle.typed_values.specs.Numbers.{number, signed};

use byte_texts::{MAX_NUMERAL, Memory, Numeral, Text, numeral_of};
use itoa::Buffer;
use std::alloc::Global;

/// The most that a number of 64 bits is below 0.
const MAX_BELOW: u128 = 9_223_372_036_854_775_808;

/// The number of 64 bits that the text spells: `0`, or digits that do not begin with a zero, which a `-` may precede.
#[tactic(auto, using(crate::proofs::Spellings::number_some))]
pub fn read_number(text: &[u8]) -> Option<i64>
    ensures value { result ≡ number text.now }
    ensures spelt { IfSome result (λ z. text.now ≡ signed_decimal z) }
    ensures none { IfNone result ((z : ℤ) → FitsSigned w64 z → text.now ≢ signed_decimal z) }
{
    number_in(text)
}

/// The number that the text spells, by the definition alone.
#[tactic(auto, unfolding(crate::specs::Numbers::number), using(crate::proofs::Spellings::long_text))]
fn number_in(text: &[u8]) -> Option<i64>
    ensures { result ≡ number text.now }
{
    if text.len() > MAX_NUMERAL {
        return None;
    }
    signed(numeral_of(text)?)
}

/// The number of 64 bits that this is, if it is one.
fn signed(numeral: Numeral) -> Option<i64>
    ensures { result ≡ signed numeral }
{
    if numeral.negative {
        if numeral.size > MAX_BELOW {
            return None;
        }
        let above = numeral.size.saturating_sub(1) as i64;
        return Some(-1 - above);
    }
    if numeral.size >= MAX_BELOW {
        return None;
    }
    Some(numeral.size as i64)
}

/// The text that spells the number.
pub fn write_number(alloc: Global, number: i64) -> Result<Text, Memory>
    ensures { IfOk result (λ text. text ≡ signed_decimal number) }
{
    let mut buffer = Buffer::new();
    Text::from_slice(alloc, buffer.format(number).as_bytes())
}
