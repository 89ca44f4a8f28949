//! The batches of a plan.
ghost use Rattle.std.specs.Prelude.{◌≡◌, ◌≤◌};
ghost use Rattle.cluster_runs.specs.Batches.{batch_of, most_keys};
ghost use Rattle.plan_language.specs.Lines.{IsLine};
ghost use Rattle.std.specs.List.{AllByRecursion};

use plan_runner::{Line, Plan, PlanCommand};

/// The most keys that a batch of these lines has, 1 at least.
pub(crate) fn batch_of(lines: &Plan) -> u16
    ensures keys { result ≡ most_keys 1 lines.now.lines }
    ensures least { 1 ≤ result }
    ensures most { result ≤ 1000 }
{
    most_keys(lines.lines())
}

/// The most keys that a batch of these lines has, 1 at least.
fn most_keys(lines: &[Line]) -> u16
    requires { AllByRecursion IsLine lines.now }
    ensures keys { result ≡ most_keys 1 lines.now }
    ensures least { 1 ≤ result }
    ensures most { result ≤ 1000 }
{
    let mut most = 1;
    let mut left = lines;
    while let [line, others @ ..] = left {
        most = most.max(keys_of(line));
        left = others;
    }
    most
}

/// How many keys a batch of the line has at most, which is none where it moves none.
fn keys_of(line: &Line) -> u16
    ensures { result ≡ batch_of line.now }
{
    match line {
        Line::Move { batch, .. } => *batch,
        Line::Command(PlanCommand::Drain { batch, .. }) => *batch,
        Line::Command(_) => 0,
    }
}
