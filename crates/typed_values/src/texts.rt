//! Operations on a text, and on a counter, which is a text that spells a number.
ghost use Rattle.std.specs.Prelude.{◌≡◌, ◌≤◌, ◌+◌, ℤ, length, Ok, Err, OnOk, OnErr, IfOk, IfErr};
ghost use Rattle.std.specs.Fmt.{signed_decimal};
ghost use Rattle.byte_texts.specs.Outcomes.{RefusedUnlessMemory};
ghost use Rattle.typed_values.specs.Faults.{map_ok, is_memory};
ghost use Rattle.typed_values.specs.Texts.{append_result, increase_result};

use crate::fault::ValueFault;
use crate::limit::grown;
use crate::numbers::{read_number, write_number};
use byte_texts::Text;
use std::alloc::Global;

/// How long the text will be once `more` is appended.
pub fn appended_len(text: &[u8], more: &[u8]) -> Result<usize, ValueFault>
    requires { length text.now ≤ 1048576 }
    ensures { result ≡ map_ok length (append_result text.now more.now) }
{
    grown(text.len(), more.len())
}

/// Puts `more` at the end of the text, and returns how long it is then.
pub fn append(text: &mut Text, more: &Text) -> Result<usize, ValueFault>
    ensures ok { OnOk result (append_result text.old more.now ≡ Ok text.new) }
    ensures reply { IfOk result (λ n. n ≡ length text.new) }
    ensures err { OnErr result (text.new ≡ text.old) }
    ensures fault { IfErr result (RefusedUnlessMemory is_memory (append_result text.old more.now)) }
{
    let length = appended_len(text.get(), more.get())?;
    text.append(more.get())?;
    Ok(length)
}

/// The number that the text spells and `more` together.
pub fn sum_of(text: &[u8], more: i64) -> Result<i64, ValueFault>
    ensures { result ≡ increase_result text.now more }
{
    let Some(number) = read_number(text) else {
        return Err(ValueFault::NotInteger);
    };
    match number.checked_add(more) {
        Some(sum) => Ok(sum),
        None => Err(ValueFault::Overflow),
    }
}

/// Adds to the number that the text spells, and returns the sum.
pub fn increase(alloc: Global, text: &mut Text, more: i64) -> Result<i64, ValueFault>
    ensures ok { OnOk result (map_ok signed_decimal (increase_result text.old more) ≡ Ok text.new) }
    ensures reply { IfOk result (λ z. increase_result text.old more ≡ Ok z) }
    ensures err { OnErr result (text.new ≡ text.old) }
    ensures fault { IfErr result (RefusedUnlessMemory is_memory (increase_result text.old more)) }
{
    let sum = sum_of(text.get(), more)?;
    *text = write_number(alloc, sum)?;
    Ok(sum)
}
