//! How words are put after one another.
use itoa::Buffer;
use std::alloc::AllocError;

/// Puts the number's decimals at the end.
pub fn put_number(out: &mut Vec<u8>, number: u64) -> Result<(), AllocError> {
    let mut buffer = Buffer::new();
    out.extend_from_slice(buffer.format(number).as_bytes())
}

/// Puts a text, a number and another text at the end.
pub fn put(out: &mut Vec<u8>, before: &[u8], number: u64, after: &[u8]) -> Result<(), AllocError> {
    out.extend_from_slice(before)?;
    put_number(out, number)?;
    out.extend_from_slice(after)
}
