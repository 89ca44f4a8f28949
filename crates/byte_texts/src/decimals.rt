//! Decimal numbers, as the wire, values, plans and scripts write them.
ghost use Rattle.std.specs.Prelude.{◌≡◌, ◌<◌, ◌≤◌, length, IfSome};
ghost use Rattle.byte_texts.specs.Decimals.{digits_from, number_in, number_of, numeral_of, positive_of, wide_number};
ghost use Rattle.byte_texts.specs.Decimals.{with_sign};

/// The most bytes of a number that is read whole: a sign and 20 digits, as many as a number of 64 bits has at most.
pub const MAX_NUMERAL: usize = 21;

/// So many digits after a first one make a number of 64 bits.
const FEW_DIGITS: usize = 18;

/// A number, as its sign and its size.
#[derive(Clone, Copy)]
pub struct Numeral {
    pub negative: bool,
    pub size: u128,
}

/// The number that begins with `first` and goes on with these digits: in 64 bits, where a step is cheap, if they fit.
fn digits_from(first: u8, text: &[u8]) -> Option<u128>
    requires small { first < 10 }
    requires short { length text.now ≤ 20 }
    ensures { result ≡ digits_from first text.now }
{
    if text.len() > FEW_DIGITS {
        many_digits_from(u128::from(first), text)
    } else {
        few_digits_from(u64::from(first), text)
    }
}

fn few_digits_from(first: u64, text: &[u8]) -> Option<u128>
    requires small { first < 10 }
    requires short { length text.now ≤ 18 }
    ensures { result ≡ digits_from first text.now }
{
    let mut number = first;
    for digit in text {
        if !digit.is_ascii_digit() {
            return None;
        }
        number = number * 10 + u64::from(*digit - b'0');
    }
    Some(u128::from(number))
}

fn many_digits_from(first: u128, text: &[u8]) -> Option<u128>
    requires small { first < 10 }
    requires short { length text.now ≤ 20 }
    ensures { result ≡ digits_from first text.now }
{
    let mut number = first;
    for digit in text {
        if !digit.is_ascii_digit() {
            return None;
        }
        number = number * 10 + u128::from(*digit - b'0');
    }
    Some(number)
}

/// The number that the text writes, if that is above 0.
fn positive_of(text: &[u8]) -> Option<u128>
    requires { length text.now ≤ 21 }
    ensures { result ≡ positive_of text.now }
{
    match text {
        [first @ b'1'..=b'9', rest @ ..] => digits_from(*first - b'0', rest),
        _ => None,
    }
}

/// The number that the text writes: `0`, or a digit 1 to 9 followed by digits.
#[tactic(auto, unfolding(crate::specs::Decimals::number_of))]
pub fn number_of(text: &[u8]) -> Option<u128>
    requires { length text.now ≤ 21 }
    ensures { result ≡ number_of text.now }
{
    match text {
        [digit @ b'0'..=b'9'] => Some(u128::from(*digit - b'0')),
        _ => positive_of(text),
    }
}

/// The number with a sign that the text writes: a number, or `-` and a number that is not 0.
#[tactic(auto, unfolding(crate::specs::Decimals::numeral_of))]
pub fn numeral_of(text: &[u8]) -> Option<Numeral>
    requires { length text.now ≤ 21 }
    ensures { result ≡ numeral_of text.now }
{
    let (first, rest) = text.split_first()?;
    if *first == b'-' {
        signed(true, positive_of(rest))
    } else {
        signed(false, number_of(text))
    }
}

/// A number of this size, with this sign.
fn signed(negative: bool, size: Option<u128>) -> Option<Numeral>
    ensures { result ≡ with_sign negative size }
{
    let size = size?;
    Some(Numeral { negative, size })
}

/// The number that the word writes, where it is one from `least` to `most`; a word may be of any length.
#[tactic(auto, using(crate::proofs::Numerals::long_word))]
pub fn number_in(word: &[u8], least: u32, most: u32) -> Option<u32>
    ensures value { result ≡ number_in least most word.now }
    ensures within { IfSome result (λ n. (least ≤ n) × (n ≤ most)) }
{
    if word.len() > MAX_NUMERAL {
        return None;
    }
    let number = number_of(word)?;
    if u128::from(least) <= number && number <= u128::from(most) {
        Some(number as u32)
    } else {
        None
    }
}

/// The number of 64 bits that the word writes; a word may be of any length.
#[tactic(auto, using(crate::proofs::Numerals::wide_word))]
pub fn wide_number(word: &[u8]) -> Option<u64>
    ensures { result ≡ wide_number word.now }
{
    if word.len() > MAX_NUMERAL {
        return None;
    }
    let number = number_of(word)?;
    if number <= u128::from(u64::MAX) {
        Some(number as u64)
    } else {
        None
    }
}
