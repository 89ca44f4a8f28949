//! How many commands of each kind there are.
ghost use Rattle.std.specs.Prelude.{◌≡◌, ◌<◌, ◌^◌, length};
ghost use Rattle.plan_changes.specs.Counts.{HasRoom, counted, counts_of};

use plan_language::PlanCommand;
use plan_outlines::CommandCounts;

/// How many of the commands are of each kind.
pub fn command_counts(commands: &[PlanCommand]) -> CommandCounts
    requires { length commands.now < 2 ^ 32 }
    ensures { result ≡ counts_of commands.now }
{
    let mut counts = CommandCounts {
        importing: 0,
        migrating: 0,
        drain: 0,
        node: 0,
        stable: 0,
    };
    for command in commands {
        counts = counted(counts, command);
    }
    counts
}

/// The counts with one command more.
fn counted(counts: CommandCounts, command: &PlanCommand) -> CommandCounts
    requires { HasRoom counts }
    ensures { result ≡ counted counts command.now }
{
    match *command {
        PlanCommand::Importing { .. } => CommandCounts {
            importing: counts.importing + 1,
            ..counts
        },
        PlanCommand::Migrating { .. } => CommandCounts {
            migrating: counts.migrating + 1,
            ..counts
        },
        PlanCommand::Drain { .. } => CommandCounts {
            drain: counts.drain + 1,
            ..counts
        },
        PlanCommand::SetNode { .. } => CommandCounts {
            node: counts.node + 1,
            ..counts
        },
        PlanCommand::Stable { .. } => CommandCounts {
            stable: counts.stable + 1,
            ..counts
        },
    }
}
