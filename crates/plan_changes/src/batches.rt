//! How many keys the batches have.
ghost use Rattle.std.specs.Prelude.{◌≡◌, ℕ};
ghost use Rattle.plan_language.specs.declared.plan_command.PlanCommand.TheVariants.{Drain};
ghost use Rattle.plan_changes.specs.Batches.{least_batch, least_with, most_batch, most_with};

use plan_language::PlanCommand;

/// The least batch of the drains, and 0 where nothing is drained.
pub fn least_batch(commands: &[PlanCommand]) -> u16
    ensures { result ≡ least_batch commands.now }
{
    let mut least = None;
    for command in commands {
        least = least_with(least, command);
    }
    least.unwrap_or(0)
}

/// The greatest batch of the drains, and 0 where nothing is drained.
pub fn most_batch(commands: &[PlanCommand]) -> u16
    ensures { result ≡ most_batch commands.now }
{
    let mut most = 0;
    for command in commands {
        most = most_with(most, command);
    }
    most
}

/// The least batch with one command more.
fn least_with(least: Option<u16>, command: &PlanCommand) -> Option<u16>
    ensures { result ≡ least_with least command.now }
{
    match *command {
        PlanCommand::Drain { batch, .. } => Some(lesser(least, batch)),
        _ => least,
    }
}

/// The lesser of the two, where there are two.
fn lesser(least: Option<u16>, batch: u16) -> u16
    ensures { (s : ℕ) (m : ℕ) (t : ℕ) → Some result ≡ least_with least (Drain s m t batch) }
{
    match least {
        None => batch,
        Some(least) => least.min(batch),
    }
}

/// The greatest batch with one command more.
fn most_with(most: u16, command: &PlanCommand) -> u16
    ensures { result ≡ most_with most command.now }
{
    match *command {
        PlanCommand::Drain { batch, .. } => most.max(batch),
        _ => most,
    }
}
