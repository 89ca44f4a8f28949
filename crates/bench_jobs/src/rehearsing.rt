//! A script that is played.
use crate::digest::Digest;
use byte_streams::{MemoryIn, MemoryOut};
use rehearsal::rehearse;
use std::alloc::Global;

/// Plays the script, and gives the digest of its status and of all that it prints.
pub fn played(alloc: Global, script: &[u8]) -> u64 {
    let mut reader = MemoryIn::new(script, false);
    let mut writer = MemoryOut::new(alloc, usize::MAX);
    let status = rehearse(alloc, &mut reader, &mut writer);
    let mut digest = Digest::new();
    digest.number(u64::from(status));
    digest.bytes(writer.bytes.as_slice());
    digest.get()
}
