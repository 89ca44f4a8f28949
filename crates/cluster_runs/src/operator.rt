//! The operator of a plan that runs: the clock, the stop file, and the screen.
use byte_streams::{ByteOut, write_whole};
use jiff::Timestamp;
use server_runs::RunContext;
use std::alloc::{AllocError, Global};
use std::fs::{self, File, Files};
use std::io::IsTerminal;
use std::thread;
use std::time::{Clock, Duration, Instant, SystemTime};

/// What stands around a plan that runs at servers. The screen is what standard error is; once it fails, nothing more is
/// shown.
#[derive(Drop)]
pub(crate) struct Operator<'a, H, E> {
    rt: &'a H,
    began: Option<Instant>,
    stop_file: &'a Option<String>,
    errors: &'a mut E,
    is_screen: bool,
    /// Whether the line of the progress, which is rewritten on a screen, has no end yet.
    is_open: bool,
    is_blind: bool,
}

impl<'a, H: Clock + Files<File = File>, E: ByteOut> Operator<'a, H, E> {
    /// The plan begins now.
    pub(crate) fn new(rt: &'a H, stop_file: &'a Option<String>, errors: &'a mut E) -> Self {
        Self {
            rt,
            began: Instant::now(rt).ok(),
            stop_file,
            errors,
            is_screen: is_screen(rt),
            is_open: false,
            is_blind: false,
        }
    }
}

/// Whether standard error is a terminal.
fn is_screen<H: Files<File = File>>(rt: &H) -> bool {
    match File::open(rt, "/dev/stderr") {
        Ok(file) => file.is_terminal(),
        Err(_) => false,
    }
}

impl<'a, H: Clock + Files<File = File>, E: ByteOut> RunContext for Operator<'a, H, E> {
    ghost use Rattle.std.specs.Prelude.{◌≡◌, false, true};
    ghost use Rattle.cluster_runs.specs.Operators.{clock_tells, clock_waits, stop_file_asks};

    ghost tells = { clock_tells };

    ghost waits = { clock_waits };

    ghost asks = { stop_file_asks };

    ghost shows = { λ s text t. s.is_blind ≡ true → t ≡ s };

    ghost notes = { λ s line t. s.is_blind ≡ true → t ≡ s };

    ghost closes = { λ s t. t.is_open ≡ false };

    fn millis(&mut self) -> u64 {
        let Some(began) = self.began else {
            return 0;
        };
        match began.elapsed(self.rt) {
            Ok(passed) => u64::try_from(passed.as_millis()).unwrap_or(u64::MAX),
            Err(_) => 0,
        }
    }

    fn time(&mut self, alloc: Global) -> Result<Vec<u8>, AllocError> {
        time_of_day(self.rt, alloc)
    }

    fn wait(&mut self, millis: u64) {
        thread::sleep(self.rt, Duration::from_millis(millis));
    }

    fn is_pause_asked(&mut self) -> bool {
        match self.stop_file {
            Some(path) => matches!(fs::exists(self.rt, path.as_str()), Ok(true)),
            None => false,
        }
    }

    fn show(&mut self, progress: &[u8]) {
        if self.is_blind {
            return;
        }
        let end: &[u8] = if self.is_screen { b"   \r" } else { b"\n" };
        self.is_open = self.is_screen;
        if write_whole(self.errors, progress).is_err() || write_whole(self.errors, end).is_err() {
            self.is_blind = true;
        }
    }

    fn note(&mut self, line: &[u8]) {
        if !self.is_blind && write_whole(self.errors, line).is_err() {
            self.is_blind = true;
        }
    }

    fn close(&mut self) {
        if self.is_open && !self.is_blind && write_whole(self.errors, b"\n").is_err() {
            self.is_blind = true;
        }
        self.is_open = false;
    }
}

/// The time of day in UTC by RFC 3339, to the millisecond, or `-` where there is no clock.
pub(crate) fn time_of_day<H: Clock>(rt: &H, alloc: Global) -> Result<Vec<u8>, AllocError> {
    let passed = match SystemTime::now(rt) {
        Ok(now) => now
            .duration_since(SystemTime::UNIX_EPOCH)
            .unwrap_or(Duration::ZERO),
        Err(_) => Duration::ZERO,
    };
    let millis = i64::try_from(passed.as_millis()).unwrap_or(0);
    match Timestamp::from_millisecond(millis) {
        Ok(time) => Ok(format!(in alloc; "{time:.3}")?.into_bytes()),
        Err(_) => Vec::from_slice(alloc, b"-"),
    }
}
