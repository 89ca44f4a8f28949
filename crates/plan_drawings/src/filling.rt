//! Texts with places for numbers, put at the end of others.
ghost use Rattle.std.specs.Prelude.{◌≡◌, ◌++◌, ℕ, List, ◌∷◌, IfOk, OnOk, decimal, ◌≤◌, ◌+◌, ◌*◌, length};
ghost use Rattle.plan_drawings.specs.Filling.{filled};

use byte_texts::Memory;
use itoa::Buffer;

/// Puts the template at the end, where each `%` gives way to the next of the numbers.
pub(crate) fn put_filled(out: &mut Vec<u8>, template: &[u8], numbers: &[u32]) -> Result<(), Memory>
    ensures text { OnOk result (out.new.items ≡ out.old.items ++ filled template.now numbers.now) }
    ensures few { OnOk result (length out.new.items
        ≤ length out.old.items + (length template.now + 10 * length numbers.now)) }
{
    let mut rest = template;
    let mut left = numbers;
    while let [byte, others @ ..] = rest {
        left = put_byte(out, *byte, left)?;
        rest = others;
    }
    Ok(())
}

/// Puts the byte, or in place of a `%` the first of the numbers, and gives the numbers that are left.
fn put_byte<'a>(out: &mut Vec<u8>, byte: u8, numbers: &'a [u32]) -> Result<&'a [u32], Memory>
    ensures text { IfOk result (λ rest. (t : List ℕ) → out.new.items ++ filled t rest.now
        ≡ out.old.items ++ filled (byte ∷ t) numbers.entry.now) }
    ensures few { IfOk result (λ rest. length out.new.items + 10 * length rest.now
        ≤ length out.old.items + (1 + 10 * length numbers.entry.now)) }
{
    if byte != b'%' {
        out.push(byte)?;
        return Ok(numbers);
    }
    let [first, others @ ..] = numbers else {
        out.push(byte)?;
        return Ok(numbers);
    };
    put_number(out, *first)?;
    Ok(others)
}

/// Puts the number, in digits.
fn put_number(out: &mut Vec<u8>, number: u32) -> Result<(), Memory>
    ensures text { OnOk result (out.new.items ≡ out.old.items ++ decimal number) }
    ensures few { OnOk result (length out.new.items ≤ length out.old.items + 10) }
{
    let mut buffer = Buffer::new();
    out.extend_from_slice(buffer.format(number).as_bytes())
}

/// Puts the text at the end.
pub(crate) fn put(out: &mut Vec<u8>, text: &[u8]) -> Result<(), Memory>
    ensures text { OnOk result (out.new.items ≡ out.old.items ++ text.now) }
    ensures few { OnOk result (length out.new.items ≤ length out.old.items + length text.now) }
{
    out.extend_from_slice(text)
}
