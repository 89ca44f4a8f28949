/// A clock for a wait of limited time.
pub trait Pause {
    /// The time begins now.
    fn begin(&mut self);

    /// Waits some milliseconds. Whether the time is not over yet.
    fn pause(&mut self) -> bool;
}
