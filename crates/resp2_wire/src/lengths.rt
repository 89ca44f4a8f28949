//! How many bytes replies and requests are spelt with, so that room for them is taken at once. Of many words or replies
//! only the first are counted: to go through all of them once more would cost more than room that grows.
ghost use Rattle.std.specs.Prelude.{◌≡◌, ◌≤◌, ◌<◌, ◌+◌, length, decimal, take};
ghost use Rattle.std.specs.Fmt.{signed_decimal};
ghost use Rattle.resp2_wire.specs.Encoding.{encoding, line};
ghost use Rattle.resp2_wire.specs.Held.{first_length, held, own_length, own_lengths};
ghost use Rattle.resp2_wire.specs.RequestLaws.{bulks};
ghost use Rattle.resp2_wire.specs.Tree.{array, bulk};
ghost use Rattle.resp2_wire.specs.View.{tree, trees};

use crate::reply::Reply;
use byte_texts::{MAX_BYTES, Text};

/// So many replies or words are counted.
const COUNTED: usize = 16;

/// The first of them that are counted.
fn counted<T>(items: &[T]) -> &[T]
    ensures { result.now ≡ take COUNTED items.now }
{
    if items.len() > COUNTED {
        &items[..COUNTED]
    } else {
        items
    }
}

/// How many digits the number has, which are eight at most.
#[tactic(auto, using(crate::proofs::Measured::few_digits))]
fn few_digits_in(number: u64) -> usize
    requires { number < 100000000 }
    ensures { result ≡ length (decimal number) }
{
    match number {
        0..=9 => 1,
        10..=99 => 2,
        100..=999 => 3,
        1_000..=9_999 => 4,
        10_000..=99_999 => 5,
        100_000..=999_999 => 6,
        1_000_000..=9_999_999 => 7,
        _ => 8,
    }
}

/// How many digits the number has. Of a long number eight go in a step.
fn digits_in(number: u64) -> usize
    ensures value { result ≡ length (decimal number) }
    ensures limit { result ≤ 20 }
{
    let mut rest = number;
    let mut digits = 0;
    while rest > 99_999_999 {
        rest /= 100_000_000;
        digits += 8;
    }
    digits + few_digits_in(rest)
}

/// The length of a line of this number, with its mark and its end.
fn count_length(count: usize) -> usize
    ensures value { result ≡ length (line 42 (decimal count)) }
    ensures limit { result ≤ 23 }
{
    digits_in(count as u64) + 3
}

/// The length of a bulk string: its line, the text and its end.
fn bulk_length(text: &[u8]) -> usize
    requires { length text.now ≤ MAX_BYTES }
    ensures value { result ≡ length (encoding (bulk text.now)) }
    ensures limit { result ≤ length text.now + 25 }
{
    count_length(text.len()) + text.len() + 2
}

/// The length of the line of a number.
fn number_length(number: i64) -> usize
    ensures value { result ≡ length (line 58 (signed_decimal number)) }
    ensures limit { result ≤ 24 }
{
    let length = count_length(number.unsigned_abs() as usize);
    if number < 0 { length + 1 } else { length }
}

/// The length of the reply's bytes, or of an array's line with those of its first replies, of which arrays count by
/// their lines alone; `usize::MAX` where that is larger.
pub fn first_length(reply: &Reply) -> usize
    ensures { result ≡ held (first_length (tree reply.now)) }
{
    match reply {
        Reply::Array(list) => {
            let replies = list.get();
            own_lengths(counted(replies)).saturating_add(count_length(replies.len()))
        }
        _ => own_length(reply),
    }
}

/// The length of the reply's bytes, or of an array's line.
fn own_length(reply: &Reply) -> usize
    ensures value { result ≡ own_length (tree reply.now) }
    ensures limit { result ≤ MAX_BYTES + 25 }
{
    match reply {
        Reply::Simple(text) => text.get().len() + 3,
        Reply::Error(text) => text.get().len() + 3,
        Reply::Number(number) => number_length(*number),
        Reply::Bulk(text) => bulk_length(text.get()),
        Reply::Null => 5,
        Reply::NullArray => 5,
        Reply::Array(list) => count_length(list.get().len()),
    }
}

/// The sum of these lengths, or `usize::MAX` where that is larger.
fn own_lengths(replies: &[Reply]) -> usize
    ensures { result ≡ held (own_lengths (trees replies.now)) }
{
    let mut total = 0usize;
    for reply in replies {
        total = total.saturating_add(own_length(reply));
    }
    total
}

/// The length of the bytes of the request of the first of these words, or `usize::MAX` where that is larger.
pub fn first_request_length(words: &[Text]) -> usize
    ensures { result ≡ held (length (encoding (array (bulks (take COUNTED words.now))))) }
{
    request_length(counted(words))
}

/// The length of the bytes of the request of these words, or `usize::MAX` where that is larger.
fn request_length(words: &[Text]) -> usize
    ensures { result ≡ held (length (encoding (array (bulks words.now)))) }
{
    let mut total = count_length(words.len());
    for word in words {
        total = total.saturating_add(bulk_length(word.get()));
    }
    total
}
