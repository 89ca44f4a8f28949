ghost use Rattle.std.specs.Prelude.{◌≡◌, ◌≤◌, ◌+◌};
ghost use Rattle.typed_values.specs.Faults.{within};

use crate::fault::ValueFault;

/// The most bytes of a text, and the most fields, elements or members of a collection.
pub const LIMIT: usize = 1_048_576;

// The length that a value of this length has with `more` in addition, if a value may have it.
pub(crate) fn grown(length: usize, more: usize) -> Result<usize, ValueFault>
    requires { length ≤ 1048576 }
    ensures { result ≡ within (length + more) (length + more) }
{
    if more > LIMIT - length {
        return Err(ValueFault::TooLong);
    }
    Ok(length + more)
}
