//! Where bytes come from and where they go: readers and writers that count their failures.
#![tactic(auto)]

mod input;
mod memory;
mod output;
mod reading;
mod standard;

pub use input::{ByteIn, Failed};
pub use memory::{MemoryIn, MemoryOut};
pub use output::{ByteOut, write_counted, write_whole};
pub use reading::{MAX_READS, Unread, read_buffer, read_whole};
pub use standard::{StandardIn, StandardOut};
