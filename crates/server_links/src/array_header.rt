//! The line with which an array begins.
ghost use Rattle.std.specs.Prelude.{◌≡◌, ◌∷◌, ◌++◌, ◌≤◌, [], IfSome, decimal};
ghost use Rattle.resp2_wire.specs.Encoding.{line};

use byte_texts::{number_in, split_once};
use itoa::Buffer;

/// How many replies stand in the array that begins here, if there are from `least` to `most`, and the bytes from the
/// first of them on.
#[tactic(auto, using(crate::proofs::Spelling::front_is, crate::proofs::Spelling::whole_header))]
pub(crate) fn array_begun(bytes: &[u8], least: u32, most: u32) -> Option<(u32, &[u8])>
    ensures begins { IfSome result (λ x. bytes.now ≡ line 42 (decimal x.0) ++ x.1.now) }
    ensures few { IfSome result (λ x. x.0 ≤ most) }
{
    let rest = bytes.strip_prefix(b"*")?;
    let (digits, _) = split_once(rest, b'\r')?;
    replies_after(rest, digits, least, most)
}

/// How many these digits say, and what follows them and the end of that line.
fn replies_after<'a>(
    rest: &'a [u8],
    digits: &[u8],
    least: u32,
    most: u32,
) -> Option<(u32, &'a [u8])>
    ensures begins { IfSome result (λ x. rest.entry.now ≡ decimal x.0 ++ (13 ∷ 10 ∷ [] ++ x.1.now)) }
    ensures few { IfSome result (λ x. x.0 ≤ most) }
{
    let count = number_in(digits, least, most)?;
    let after = rest.strip_prefix(digits)?.strip_prefix(b"\r\n")?;
    if Buffer::new().format(count).as_bytes() == digits {
        Some((count, after))
    } else {
        None
    }
}
