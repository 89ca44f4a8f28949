//! Bulk strings that are longer than an argument may be.
ghost use Rattle.std.specs.Prelude.{◌≡◌, ◌∷◌, ◌++◌, [], IfSome, decimal, length};
ghost use Rattle.resp2_wire.specs.Encoding.{encoding};
ghost use Rattle.resp2_wire.specs.Tree.{bulk};

use byte_texts::split_once;
use itoa::Buffer;

/// The text of the bulk string, if the bytes are a whole one.
#[tactic(auto, using(crate::proofs::Spelling::front_is, crate::proofs::Spelling::whole_bulk))]
pub(crate) fn bulk_text(bytes: &[u8]) -> Option<&[u8]>
    ensures { IfSome result (λ t. bytes.now ≡ encoding (bulk t.now)) }
{
    let rest = bytes.strip_prefix(b"$")?;
    let (digits, _) = split_once(rest, b'\r')?;
    text_after(rest, digits)
}

/// What follows its length and the end of that line, if it is so long and a line ends with it.
fn text_after<'a>(rest: &'a [u8], digits: &[u8]) -> Option<&'a [u8]>
    ensures { IfSome result (λ t.
        rest.entry.now ≡ decimal (length t.now) ++ (13 ∷ 10 ∷ [] ++ (t.now ++ 13 ∷ 10 ∷ []))) }
{
    let text = rest
        .strip_prefix(digits)?
        .strip_prefix(b"\r\n")?
        .strip_suffix(b"\r\n")?;
    if Buffer::new().format(text.len()).as_bytes() == digits {
        Some(text)
    } else {
        None
    }
}
