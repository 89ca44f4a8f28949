//! How fast keys may be moved.
ghost use Rattle.std.specs.Prelude.{◌≡◌, ◌<◌, ◌-◌, ◌*◌, ◌/◌, min};
ghost use Rattle.server_runs.specs.Paces.{early};

/// How many keys may be moved in a second, on the whole of a run: one at least.
#[derive(Clone, Copy)]
pub struct Pace {
    keys_per_second: u64,
    ghost some: { 0 < keys_per_second },
}

impl Pace {
    /// So many keys in a second.
    pub fn new(keys_per_second: u64) -> Self
        requires { 0 < keys_per_second }
        ensures { result.keys_per_second ≡ keys_per_second }
    {
        Self { keys_per_second }
    }

    /// How many milliseconds too early it is for so many keys.
    pub(crate) fn early(self, keys: u64, millis: u64) -> u64
        ensures { result ≡ early self.keys_per_second keys millis }
    {
        let due = u128::from(keys) * 1000 / u128::from(self.keys_per_second);
        let early = due.saturating_sub(u128::from(millis));
        early.min(u128::from(u64::MAX)) as u64
    }
}
