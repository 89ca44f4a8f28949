//! How much the commands of a run of a plan may take.
ghost use Rattle.std.specs.Prelude.{◌≡◌, ◌≤◌};

use crate::trouble::Trouble;

/// The longest time that a MIGRATE may take, in milliseconds.
const MAX_TIMEOUT: u32 = 600_000;

/// How many milliseconds a node waits for its replicas to do a command (Valkey).
const REPLICAS: u64 = 2000;

/// How much the commands of a run may take, and what was done before the run.
#[derive(Clone, Copy)]
pub(crate) struct Attempt {
    /// Milliseconds for which a node waits for another one in the middle of a MIGRATE.
    pub(crate) timeout: u32,
    /// How many keys of an open slot one has at most.
    pub(crate) batch: u16,
    /// How many commands were answered before.
    pub(crate) commands: u64,
    /// Milliseconds that replicas may be too slow in all until a run hands a slot over.
    patience: u32,
    /// How many of these are over.
    waited: u32,
    ghost least: { 1 ≤ batch },
    ghost most: { batch ≤ 1000 },
}

impl Attempt {
    ghost use Rattle.cluster_runs.specs.Attempts.{Continues, Eases, Waits, waited_by};

    /// The first run.
    pub(crate) fn new(timeout: u32, batch: u16) -> Self
        requires least { 1 ≤ batch }
        requires most { batch ≤ 1000 }
        ensures timeout { result.timeout ≡ timeout }
        ensures batch { result.batch ≡ batch }
        ensures commands { result.commands ≡ 0 }
        ensures patience { result.patience ≡ timeout }
        ensures waited { result.waited ≡ 0 }
    {
        Self {
            timeout,
            batch,
            commands: 0,
            patience: timeout,
            waited: 0,
        }
    }

    /// Whether the plan continues after a run that met this, with so many commands answered by then, and so many slots
    /// handed over in that run.
    pub(crate) fn continues(&mut self, trouble: &Trouble, commands: u64, handed_over: u64) -> bool
        ensures { Continues trouble.now commands handed_over self.old result self.new }
    {
        match trouble {
            Trouble::Late => self.eases(commands),
            Trouble::Slow => self.waits(commands, handed_over),
            Trouble::Other => false,
        }
    }

    /// Takes half as many keys at a time, and twice the time for them, after so many commands; or says that one key has
    /// all the time already that there may be.
    fn eases(&mut self, commands: u64) -> bool
        ensures { Eases commands self.old result self.new }
    {
        if self.batch == 1 && self.timeout >= MAX_TIMEOUT {
            return false;
        }
        self.batch = if self.batch > 1 { self.batch / 2 } else { 1 };
        self.timeout = self.timeout.saturating_mul(2).min(MAX_TIMEOUT);
        self.commands = commands;
        true
    }

    /// Counts the time for which replicas were too slow, after so many commands; or says that they had all of it.
    fn waits(&mut self, commands: u64, handed_over: u64) -> bool
        ensures { Waits commands handed_over self.old result self.new }
    {
        let waited = self.waited_by(handed_over);
        if waited > u64::from(self.patience) {
            return false;
        }
        self.waited = waited as u32;
        self.commands = commands;
        true
    }

    /// How long replicas were too slow by now, after a run that handed so many slots over.
    fn waited_by(&self, handed_over: u64) -> u64
        ensures { result ≡ waited_by handed_over self.now }
    {
        if handed_over == 0 {
            u64::from(self.waited) + REPLICAS
        } else {
            REPLICAS
        }
    }
}
