ghost use Rattle.std.specs.Prelude.{◌≡◌};
ghost use Rattle.plan_language.specs.Limits.{few, many};

/// How many nodes and commands a plan has at most.
#[derive(Clone, Copy)]
pub struct Limits {
    /// The nodes are those with a number below this.
    pub nodes: u8,
    /// A line counts as one command, but a move as three and one for each node, at each slot.
    pub commands: u32,
}

impl Limits {
    /// The limits of versions 1 to 3.
    pub fn few() -> Self
        ensures { result ≡ few }
    {
        Self {
            nodes: 8,
            commands: 200_000,
        }
    }

    /// The limits of versions 4 and 5, which have room for a move of each slot.
    pub fn many() -> Self
        ensures { result ≡ many }
    {
        Self {
            nodes: 255,
            commands: 4_227_072,
        }
    }
}
