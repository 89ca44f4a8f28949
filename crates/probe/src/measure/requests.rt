use resp2_wire::{Decoder, WireFault};
use std::alloc::{AllocError, Global};

/// A SET of 138 bytes: a key of 16 and a value of 95.
const REQUEST: &[u8] = b"*3\r\n$3\r\nSET\r\n$16\r\nkey:000000000000\r\n$95\r\n\
    0123456789012345678901234567890123456789012345678901234567890123456789\
    0123456789012345678901234\r\n";

/// So many requests, one after the other.
pub fn stream_of(alloc: Global, count: usize) -> Result<Vec<u8>, AllocError> {
    let mut stream = Vec::with_capacity(alloc, count.saturating_mul(REQUEST.len()))?;
    for _ in 0..count {
        stream.extend_from_slice(REQUEST)?;
    }
    Ok(stream)
}

/// Feeds the stream in pieces of so many bytes, or at once where that is 0, takes each request as soon as it is whole,
/// and returns how many there were.
pub fn decode(alloc: Global, stream: &[u8], piece: usize) -> anyhow::Result<u64> {
    let size = if piece == 0 {
        stream.len().max(1)
    } else {
        piece
    };
    let mut decoder = Decoder::new(alloc);
    let mut taken = 0u64;
    for part in stream.chunks(size) {
        decoder.feed(part)?;
        taken = taken.saturating_add(take_all(&mut decoder)?);
    }
    Ok(taken)
}

/// Takes the requests that are whole, and returns how many.
fn take_all(decoder: &mut Decoder) -> Result<u64, WireFault> {
    for taken in 0..u64::MAX {
        if decoder.next()?.is_none() {
            return Ok(taken);
        }
    }
    Ok(u64::MAX)
}

/// Decodes a request of one word of so many bytes so many times.
pub fn decode_bulks(
    alloc: Global,
    length: usize,
    piece: usize,
    times: usize,
) -> anyhow::Result<u64> {
    let request = bulk_of(alloc, length)?;
    let mut taken = 0u64;
    for _ in 0..times {
        taken = taken.saturating_add(decode(alloc, request.as_slice(), piece)?);
    }
    Ok(taken)
}

fn bulk_of(alloc: Global, length: usize) -> Result<Vec<u8>, AllocError> {
    let header = format!(in alloc; "*1\r\n${length}\r\n")?;
    let mut request = Vec::from_slice(alloc, header.as_bytes())?;
    request.resize(request.len().saturating_add(length), b'x')?;
    request.extend_from_slice(b"\r\n")?;
    Ok(request)
}
