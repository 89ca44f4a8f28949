use plan_runner::StopCause;

/// How a run ended, after so many answers.
#[derive(Clone, Copy)]
pub enum RunEnd {
    Done(u64),
    Stopped(StopCause, u64),
}
