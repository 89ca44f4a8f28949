//! A legal plan, and what it comes to.
use plan_outlines::{NodeServer, PlanOutline};
use transcripts::Transcript;

/// A legal plan, and what it comes to.
#[derive(Drop)]
pub struct Preview {
    /// What `verify` says of the plan.
    pub verdict: Transcript,
    /// How many commands it stands for.
    pub commands: u32,
    /// The version of its rules: 1, 2 or 3.
    pub version: u8,
    pub outline: PlanOutline,
    /// What each server of the cluster tells of itself; none where it was not asked.
    pub servers: Vec<NodeServer>,
}
