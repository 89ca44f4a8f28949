//! What a plan will move.
ghost use Rattle.std.specs.Prelude.{◌≡◌, ◌+◌, length};
ghost use Rattle.plan_language.specs.Lines.{plan_commands};
ghost use Rattle.plan_semantics.specs.Costs.{rounds};
ghost use Rattle.plan_changes.specs.Loads.{keys_at, load_of, most};
ghost use Rattle.plan_changes.specs.LoadSteps.{with_command};

use plan_language::{Plan, PlanCommand, PlanCommands};

/// What a plan will move, as far as is known before it begins: clients may add keys meanwhile, or take some away. Where
/// a number would be above 2^64 - 1, it is that.
#[derive(Clone, Copy)]
pub struct PlanLoad {
    /// How often a slot moves.
    pub moves: u64,
    /// The keys of the slots, for each move.
    pub keys: u64,
    /// The commands.
    pub commands: u64,
}

impl PlanLoad {
    /// What the plan will move in a cluster of so many nodes, where these are the numbers of keys of the slots, from
    /// slot 0 on. Takes no memory.
    pub fn of(plan: Plan, nodes: u8, keys: &[u32]) -> Self
        requires { length keys.now ≡ 16384 }
        ensures { result ≡ load_of keys.now (plan_commands nodes plan.lines) }
    {
        let mut commands = PlanCommands::of(plan, nodes);
        let mut load = Self {
            moves: 0,
            keys: 0,
            commands: 0,
        };
        while let Some(command) = commands.next() {
            load = load.with(&command, keys);
        }
        load
    }

    /// The load of one command more.
    fn with(self, command: &PlanCommand, keys: &[u32]) -> Self
        requires { length keys.now ≡ 16384 }
        ensures { result ≡ with_command keys.now command.now self }
    {
        match *command {
            PlanCommand::Drain { slot, batch, .. } => {
                let count = keys[usize::from(slot.get())];
                Self {
                    moves: self.moves.saturating_add(1),
                    keys: self.keys.saturating_add(u64::from(count)),
                    commands: self.commands.saturating_add(2 * rounds(batch, count) + 1),
                }
            }
            _ => Self {
                commands: self.commands.saturating_add(1),
                ..self
            },
        }
    }
}

/// How many batches hold so many keys.
fn rounds(batch: u16, keys: u32) -> u64
    ensures { result ≡ rounds batch keys }
{
    if batch == 0 {
        return 0;
    }
    (u64::from(keys) + (u64::from(batch) - 1)) / u64::from(batch)
}
