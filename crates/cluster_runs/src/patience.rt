//! Waits of limited time, by the clock.
use cluster_inspection::AGREEING;
use redis_servers::Pause;
use std::thread;
use std::time::{Clock, Duration, Instant};

/// How many milliseconds lie between two looks at the config epoch of a server.
const BETWEEN_LOOKS: u64 = 1;

/// Waits by the clock until a server has heard of something.
#[derive(Drop)]
pub(crate) struct Patience<'a, H> {
    rt: &'a H,
    began: Option<Instant>,
}

impl<'a, H: Clock> Patience<'a, H> {
    pub(crate) fn new(rt: &'a H) -> Self {
        Self { rt, began: None }
    }
}

impl<'a, H: Clock> Pause for Patience<'a, H> {
    fn begin(&mut self) {
        self.began = Instant::now(self.rt).ok();
    }

    fn pause(&mut self) -> bool {
        thread::sleep(self.rt, Duration::from_millis(BETWEEN_LOOKS));
        match (self.began, Instant::now(self.rt)) {
            (Some(began), Ok(now)) => now.saturating_duration_since(began)
                < Duration::from_millis(AGREEING),
            _ => false,
        }
    }
}
