ghost use Rattle.std.specs.Prelude.{◌≡◌, ◌≢◌, ◌+◌, ◌<◌, ◌≤◌, min, true, [], length, take, vec_capacity, vec_len, IfOk};
ghost use Rattle.std.specs.Prelude.{OnOk, OnErr};
ghost use Rattle.byte_streams.specs.Memory.{GaveMemory, TookMemory, HasNoRoom};

use crate::input::{ByteIn, Failed};
use crate::output::ByteOut;
use std::alloc::Global;

/// Gives the bytes of a slice, and then reports the end, or fails at each further read.
#[derive(Drop)]
pub struct MemoryIn<'a> {
    pub left: &'a [u8],
    pub fails: bool,
    pub ends: u64,
    pub failures: u64,
}

impl<'a> MemoryIn<'a> {
    /// A reader of these bytes, after which it fails or reports the end.
    pub fn new(left: &'a [u8], fails: bool) -> Self
        ensures { result ≡ record { left = left.entry; fails = fails; ends = 0; failures = 0 } }
    {
        Self {
            left,
            fails,
            ends: 0,
            failures: 0,
        }
    }
}

impl ByteIn for MemoryIn<'_> {
    ghost use Rattle.byte_streams.specs.Memory.{gave_memory_none, gave_memory_then};

    ghost gave = { λ x n bytes y. GaveMemory x.left.now bytes y.left.now };

    ghost ends = { λ x. x.ends };

    ghost failures = { λ x. x.failures };

    /// Reads as many bytes as are left and have room; tells the end, or a failure, only where none is left.
    fn read(&mut self, buffer: &mut [u8]) -> Result<usize, Failed>
        requires { 0 < length buffer.old }
        ensures fits { IfOk result (λ n. n ≤ length buffer.new) }
        ensures gave { IfOk result (λ n. GaveMemory self.old.left.now (take n buffer.new) self.new.left.now) }
        ensures end { IfOk result (λ n. n ≡ 0 → self.new.ends ≢ self.old.ends) }
        ensures goes_on { IfOk result (λ n. 0 < n → self.new.ends ≡ self.old.ends) }
        ensures ok { OnOk result (self.new.failures ≡ self.old.failures) }
        ensures failed { OnErr result
            ((self.new.failures ≢ self.old.failures) × GaveMemory self.old.left.now [] self.new.left.now) }
        ensures count { IfOk result (λ n. n ≡ min (length self.old.left.now) (length buffer.old)) }
        ensures last { OnErr result ((self.old.left.now ≡ []) × (self.old.fails ≡ true)) }
        ensures same { self.new.fails ≡ self.old.fails }
    {
        if self.left.is_empty() {
            if self.fails {
                self.failures = self.failures.wrapping_add(1);
                return Err(Failed);
            }
            self.ends = self.ends.wrapping_add(1);
            return Ok(0);
        }
        let count = self.left.len().min(buffer.len());
        let (prefix, rest) = self.left.split_at(count);
        buffer[..count].copy_from_slice(prefix);
        self.left = rest;
        Ok(count)
    }

    ghost gave_none = { λ x. gave_memory_none x.left.now };

    ghost gave_then = { λ x y z m n a b h k. gave_memory_then x.left.now y.left.now z.left.now a b h k };
}

/// Takes so many bytes into memory, and then fails.
#[derive(Drop)]
pub struct MemoryOut {
    pub bytes: Vec<u8>,
    pub room: usize,
    pub failures: u64,
}

impl MemoryOut {
    /// An empty writer with room for so many bytes.
    pub fn new(alloc: Global, room: usize) -> Self
        ensures bytes { result.bytes.items ≡ [] }
        ensures room { result.room ≡ room }
        ensures failures { result.failures ≡ 0 }
    {
        Self {
            bytes: Vec::new(alloc),
            room,
            failures: 0,
        }
    }
}

impl ByteOut for MemoryOut {
    ghost use Rattle.byte_streams.specs.Memory.{took_memory_none, took_memory_then};

    ghost took = { λ x bytes y. TookMemory x.bytes.items bytes y.bytes.items };

    ghost failures = { λ x. x.failures };

    /// Writes as many bytes as have room. Fails only where there is none, or where memory for them ran out.
    fn write(&mut self, bytes: &[u8]) -> Result<usize, Failed>
        requires { 0 < length bytes.now }
        ensures fits { IfOk result (λ n. (0 < n) × (n ≤ length bytes.now)) }
        ensures took { IfOk result (λ n. TookMemory self.old.bytes.items (take n bytes.now) self.new.bytes.items) }
        ensures kept { OnOk result (self.new.failures ≡ self.old.failures) }
        ensures failed { OnErr result
            ((self.new.failures ≢ self.old.failures) × TookMemory self.old.bytes.items [] self.new.bytes.items) }
        ensures count { IfOk result
            (λ n. (n ≡ min self.old.room (length bytes.now)) × (self.new.room + n ≡ self.old.room)) }
        ensures full { OnErr result
            (HasNoRoom self.old.room (vec_capacity self.old.bytes) (vec_len self.old.bytes) (length bytes.now)) }
        ensures room { OnErr result (self.new.room ≡ self.old.room) }
    {
        let count = self.room.min(bytes.len());
        if count == 0 {
            self.failures = self.failures.wrapping_add(1);
            return Err(Failed);
        }
        let (prefix, _) = bytes.split_at(count);
        match self.bytes.extend_from_slice(prefix) {
            Ok(()) => {
                self.room -= count;
                Ok(count)
            }
            Err(_) => {
                self.failures = self.failures.wrapping_add(1);
                Err(Failed)
            }
        }
    }

    ghost took_none = { λ x. took_memory_none x.bytes.items };

    ghost took_then = { λ x y z a b h k. took_memory_then x.bytes.items y.bytes.items z.bytes.items a b h k };
}
