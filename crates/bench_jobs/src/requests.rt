//! Requests as clients send them.
use crate::words::{put, put_number};
use std::alloc::AllocError;

/// Begins a request of so many words.
pub fn begin(out: &mut Vec<u8>, words: u64) -> Result<(), AllocError> {
    put(out, b"*", words, b"\r\n")
}

/// Puts the next word.
pub fn word(out: &mut Vec<u8>, word: &[u8]) -> Result<(), AllocError> {
    put(out, b"$", word.len() as u64, b"\r\n")?;
    out.extend_from_slice(word)?;
    out.extend_from_slice(b"\r\n")
}

/// Puts a word of a text and a number of eight digits.
pub fn numbered(out: &mut Vec<u8>, text: &[u8], number: u64) -> Result<(), AllocError> {
    put(out, b"$", (text.len() as u64).saturating_add(8), b"\r\n")?;
    out.extend_from_slice(text)?;
    put_number(out, 10_000_000 + number % 90_000_000)?;
    out.extend_from_slice(b"\r\n")
}
