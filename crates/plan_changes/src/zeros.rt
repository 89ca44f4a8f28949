//! Tables of zeros.
ghost use Rattle.std.specs.Prelude.{◌≡◌, IfOk, replicate};

use byte_texts::Memory;
use std::alloc::Global;

/// So many zeros.
pub fn zeros(alloc: Global, count: usize) -> Result<Vec<u8>, Memory>
    ensures { IfOk result (λ v. v.items ≡ replicate count 0) }
{
    let zeros = vec![in alloc; 0u8; count]?;
    Ok(zeros)
}

/// So many zeros of two bytes.
pub fn wide_zeros(alloc: Global, count: usize) -> Result<Vec<u16>, Memory>
    ensures { IfOk result (λ v. v.items ≡ replicate count 0) }
{
    let zeros = vec![in alloc; 0u16; count]?;
    Ok(zeros)
}
