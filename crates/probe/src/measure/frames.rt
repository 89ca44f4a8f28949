use migrate_frames::{borrow_entries, read_frame, write_frame};
use std::alloc::{AllocError, Global};

/// What is done to a frame.
#[derive(Clone, Copy)]
pub enum Way {
    Read,
    /// It is read once, and what was read is written.
    Write,
}

/// What a frame holds.
#[derive(Clone, Copy)]
pub enum Batch {
    /// So many keys, each with a text of so many bytes.
    Texts(u16, usize),
    /// One key with a hash of so many fields.
    Hash(u32),
}

/// The kinds of values in a frame.
const TEXT: u8 = 0;

const HASH: u8 = 1;

/// Reads or writes the frame so many times, and returns how many bytes that were.
pub fn pass(alloc: Global, way: Way, batch: Batch, times: usize) -> anyhow::Result<u64> {
    let frame = match batch {
        Batch::Texts(count, length) => texts_frame(alloc, count, length)?,
        Batch::Hash(count) => hash_frame(alloc, count)?,
    };
    match way {
        Way::Read => read_often(alloc, frame.as_slice(), times),
        Way::Write => write_often(alloc, frame.as_slice(), times),
    }
}

fn read_often(alloc: Global, frame: &[u8], times: usize) -> anyhow::Result<u64> {
    let mut passed = 0u64;
    for _ in 0..times {
        let batch = read_frame(alloc, frame)?;
        drop(batch);
        passed = passed.saturating_add(frame.len() as u64);
    }
    Ok(passed)
}

fn write_often(alloc: Global, frame: &[u8], times: usize) -> anyhow::Result<u64> {
    let batch = read_frame(alloc, frame)?;
    let entries = borrow_entries(alloc, batch.as_slice())?;
    let mut passed = 0u64;
    for _ in 0..times {
        let written = write_frame(alloc, entries.as_slice())?;
        passed = passed.saturating_add(written.len() as u64);
    }
    Ok(passed)
}

fn texts_frame(alloc: Global, count: u16, length: usize) -> Result<Vec<u8>, AllocError> {
    let text = vec![in alloc; b'x'; length]?;
    let mut frame = Vec::from_slice(alloc, &count.to_be_bytes())?;
    for number in 0..u32::from(count) {
        push_piece(&mut frame, &number.to_be_bytes())?;
        frame.push(TEXT)?;
        push_piece(&mut frame, text.as_slice())?;
    }
    Ok(frame)
}

fn hash_frame(alloc: Global, count: u32) -> Result<Vec<u8>, AllocError> {
    let mut frame = Vec::from_slice(alloc, &1u16.to_be_bytes())?;
    push_piece(&mut frame, b"hash")?;
    frame.push(HASH)?;
    frame.extend_from_slice(&count.to_be_bytes())?;
    for number in 0..count {
        push_piece(&mut frame, &number.to_be_bytes())?;
        push_piece(&mut frame, b"0123456789")?;
    }
    Ok(frame)
}

/// A length of 32 bits and the bytes, which are far fewer.
fn push_piece(frame: &mut Vec<u8>, bytes: &[u8]) -> Result<(), AllocError> {
    let length = u32::try_from(bytes.len()).unwrap_or(u32::MAX);
    frame.extend_from_slice(&length.to_be_bytes())?;
    frame.extend_from_slice(bytes)
}
