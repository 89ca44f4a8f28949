//! Numbers that look random, the same for each seed (SplitMix64, by Steele, Lea and Flood).
ghost use Rattle.std.specs.Prelude.{◌<◌};

/// The low bits that a skewed number is drawn from: each width is as likely as any other.
const WIDTHS: [u64; 16] = [
    1, 3, 7, 15, 31, 63, 127, 255, 511, 1_023, 2_047, 4_095, 8_191, 16_383, 16_383, 16_383,
];

#[derive(Drop)]
pub struct Random {
    state: u64,
}

impl Random {
    pub fn new(seed: u64) -> Self {
        Self { state: seed }
    }

    pub fn next(&mut self) -> u64 {
        self.state = self.state.wrapping_add(0x9e37_79b9_7f4a_7c15);
        let once = (self.state ^ (self.state >> 30)).wrapping_mul(0xbf58_476d_1ce4_e5b9);
        let twice = (once ^ (once >> 27)).wrapping_mul(0x94d0_49bb_1331_11eb);
        twice ^ (twice >> 31)
    }

    /// A number below the count, which is not 0.
    pub fn below(&mut self, count: u64) -> u64
        requires { 0 < count }
        ensures { result < count }
    {
        self.next() % count
    }

    /// A number below 16,384; small ones come far more often, as the keys of a cache do (Zipf).
    pub fn skewed(&mut self) -> u64
        ensures { result < 16384 }
    {
        let width = WIDTHS[self.below(16) as usize];
        self.next() % (width + 1) % 16_384
    }
}
