//! Text that values are cut out of.
use crate::random::Random;
use std::alloc::{AllocError, Global};

const LENGTH: usize = 4_096;

/// The most bytes of one value.
pub const MOST: usize = 1_000;

#[derive(Drop)]
pub struct Filler {
    letters: Vec<u8>,
}

impl Filler {
    pub fn new(alloc: Global, random: &mut Random) -> Result<Self, AllocError> {
        let mut letters = Vec::with_capacity(alloc, LENGTH)?;
        for _ in 0..LENGTH {
            letters.push(b'a' + (random.next() % 26) as u8)?;
        }
        Ok(Self { letters })
    }

    /// A value of so many bytes, at most 1,000.
    pub fn value(&self, random: &mut Random, length: usize) -> &[u8] {
        let letters = self.letters.as_slice();
        let count = length.min(letters.len());
        let room = letters.len() - count;
        let first = if room == 0 {
            0
        } else {
            (random.next() as usize) % room
        };
        &letters[first..first + count]
    }

    /// A value as caches hold them: 10 to 1,000 bytes, most of them short.
    pub fn usual(&self, random: &mut Random) -> &[u8] {
        let length = 10 + (random.skewed() / 16) as usize;
        self.value(random, length.min(MOST))
    }
}
