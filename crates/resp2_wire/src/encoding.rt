ghost use Rattle.std.specs.Prelude.{◌≡◌, ◌++◌, ◌∷◌, [], ℕ, List, length, IfOk, OnOk, Ok, decimal};
ghost use Rattle.std.specs.Fmt.{signed_decimal};
ghost use Rattle.resp2_wire.specs.View.{tree, trees};
ghost use Rattle.resp2_wire.specs.Encoding.{encoding, spellings, line};
ghost use Rattle.resp2_wire.specs.Limits.{Within, Typed, AllTyped};
ghost use Rattle.resp2_wire.specs.Replies.{reply_at};
ghost use Rattle.resp2_wire.specs.RequestLaws.{bulks};
ghost use Rattle.resp2_wire.specs.Tree.{array};
ghost use Rattle.resp2_wire.specs.declared.limits.TheConstants.{MAX_DEPTH};

use crate::lengths::{first_length, first_request_length};
use crate::reply::Reply;
use byte_texts::Text;
use itoa::{Buffer, write_digits};
use std::alloc::{AllocError, Global};

fn push_line(out: &mut Vec<u8>, mark: u8, text: &[u8]) -> Result<(), AllocError>
    ensures { OnOk result (out.new.items ≡ out.old.items ++ line mark text.now) }
{
    out.push(mark)?;
    out.extend_from_slice(text)?;
    out.extend_from_slice(b"\r\n")
}

/// A line of this number. One of few digits, as nearly all are, is put together in one step.
fn push_count(out: &mut Vec<u8>, mark: u8, count: usize) -> Result<(), AllocError>
    ensures { OnOk result (out.new.items ≡ out.old.items ++ line mark (decimal count)) }
{
    if count < 10 {
        let last = b'0' + count as u8;
        return out.extend_from_slice(&[mark, last, b'\r', b'\n']);
    }
    if count < 100 {
        let first = b'0' + (count / 10) as u8;
        let last = b'0' + (count % 10) as u8;
        return out.extend_from_slice(&[mark, first, last, b'\r', b'\n']);
    }
    push_large_count(out, mark, count)
}

/// A line of this number, which is put together before it is pushed.
fn push_large_count(out: &mut Vec<u8>, mark: u8, count: usize) -> Result<(), AllocError>
    ensures { OnOk result (out.new.items ≡ out.old.items ++ line mark (decimal count)) }
{
    // A mark, as many digits as 64 bits have at most, and the line's end.
    let mut spelt = *b"                     \r\n";
    let digits = write_digits(count as u64, &mut spelt, 21);
    spelt[digits - 1] = mark;
    out.extend_from_slice(&spelt[digits - 1..])
}

fn push_bulk(out: &mut Vec<u8>, text: &[u8]) -> Result<(), AllocError>
    ensures { OnOk result (out.new.items
        ≡ out.old.items ++ line 36 (decimal (length text.now)) ++ text.now ++ 13 ∷ 10 ∷ []) }
{
    push_count(out, b'$', text.len())?;
    out.extend_from_slice(text)?;
    out.extend_from_slice(b"\r\n")
}

fn push_number(out: &mut Vec<u8>, number: i64) -> Result<(), AllocError>
    ensures { OnOk result (out.new.items ≡ out.old.items ++ line 58 (signed_decimal number)) }
{
    if number < 0 {
        let mut buffer = Buffer::new();
        return push_line(out, b':', buffer.format(number).as_bytes());
    }
    push_count(out, b':', number.unsigned_abs() as usize)
}

#[cycle(encoding)]
fn push_all(out: &mut Vec<u8>, replies: &[Reply]) -> Result<(), AllocError>
    ensures encoding { OnOk result (out.new.items ≡ out.old.items ++ spellings (trees replies.now)) }
    ensures typed { OnOk result (AllTyped (trees replies.now)) }
{
    for reply in replies {
        push_reply(out, reply)?;
    }
    Ok(())
}

#[cycle(encoding)]
fn push_reply(out: &mut Vec<u8>, reply: &Reply) -> Result<(), AllocError>
    ensures encoding { OnOk result (out.new.items ≡ out.old.items ++ encoding (tree reply.now)) }
    ensures typed { OnOk result (Typed (tree reply.now)) }
{
    match reply {
        Reply::Simple(text) => push_line(out, b'+', text.get()),
        Reply::Error(text) => push_line(out, b'-', text.get()),
        Reply::Number(number) => push_number(out, *number),
        Reply::Bulk(text) => push_bulk(out, text.get()),
        Reply::Null => out.extend_from_slice(b"$-1\r\n"),
        Reply::NullArray => out.extend_from_slice(b"*-1\r\n"),
        Reply::Array(list) => {
            let replies = list.get();
            push_count(out, b'*', replies.len())?;
            push_all(out, replies)
        }
    }
}

/// WireExact: the bytes of a reply, which has to be within the limits: a simple text or an error has no CR, no LF and
/// at most 1,024 bytes, an array has at most 2,097,152 replies, and arrays are nested at most 8 deep.
pub fn encode(alloc: Global, reply: &Reply) -> Result<Vec<u8>, AllocError>
    requires { Within MAX_DEPTH (tree reply.now) }
    ensures encoding { IfOk result (λ v. v.items ≡ encoding (tree reply.now)) }
    // Whatever follows, the reply is read again and the rest is left.
    ensures whole { IfOk result
        (λ v. (rest : List ℕ) → reply_at MAX_DEPTH (v.items ++ rest) ≡ Ok (tree reply.now, rest)) }
{
    let mut out = Vec::with_capacity(alloc, first_length(reply))?;
    push_reply(&mut out, reply)?;
    Ok(out)
}

/// The bytes of the request of these words, in the one spelling that a request has: the array of its words. Within the
/// limits of requests they are read as it again, whatever follows, which is
/// [`request_decoding_inverts_encoding`](crate::request_decoding_inverts_encoding).
#[tactic(auto, using(crate::proofs::Bulks::as_many))]
pub fn encode_request(alloc: Global, words: &[Text]) -> Result<Vec<u8>, AllocError>
    ensures { IfOk result (λ v. v.items ≡ encoding (array (bulks words.now))) }
{
    let mut out = Vec::with_capacity(alloc, first_request_length(words))?;
    push_count(&mut out, b'*', words.len())?;
    push_words(&mut out, words)?;
    Ok(out)
}

fn push_words(out: &mut Vec<u8>, words: &[Text]) -> Result<(), AllocError>
    ensures { OnOk result (out.new.items ≡ out.old.items ++ spellings (bulks words.now)) }
{
    let mut rest = words;
    while let [word, others @ ..] = rest {
        push_bulk(out, word.get())?;
        rest = others;
    }
    Ok(())
}
