//! What stands around a plan that runs.
ghost use Rattle.std.specs.Prelude.{ℕ, Bool, List};

use std::alloc::{AllocError, Global};

/// The clock, and who waits for the plan.
pub trait RunContext {
    /// The clock said that so many milliseconds have passed, which led from one state to the other.
    ghost tells: { Self → (millis : ℕ) → Self → Type 0 };

    /// So many milliseconds were let pass.
    ghost waits: { Self → (millis : ℕ) → Self → Type 0 };

    /// The operator was asked whether the plan is to be paused, and this was the answer.
    ghost asks: { Self → Bool → Self → Type 0 };

    /// The operator was shown this text.
    ghost shows: { Self → (text : List ℕ) → Self → Type 0 };

    /// The operator was told this line.
    ghost notes: { Self → (line : List ℕ) → Self → Type 0 };

    /// The operator's next text begins a line of its own.
    ghost closes: { Self → Self → Type 0 };

    /// How many milliseconds have passed since the plan began.
    fn millis(&mut self) -> u64
        ensures { tells self.old result self.new };

    /// The time of day, as a log's line begins with it.
    fn time(&mut self, alloc: Global) -> Result<Vec<u8>, AllocError>;

    /// Lets so many milliseconds pass.
    fn wait(&mut self, millis: u64)
        ensures { waits self.old millis self.new };

    /// Whether the operator asks that the plan be paused.
    fn is_pause_asked(&mut self) -> bool
        ensures { asks self.old result self.new };

    /// Shows the operator how far the plan is. Where that fails, the plan continues.
    fn show(&mut self, progress: &[u8])
        ensures { shows self.old progress.now self.new };

    /// Tells the operator a line, with its line end. Where that fails, the plan continues.
    fn note(&mut self, line: &[u8])
        ensures { notes self.old line.now self.new };

    /// Ends the line of what was shown last, where that stands on one that is rewritten.
    fn close(&mut self)
        ensures { closes self.old self.new };
}
