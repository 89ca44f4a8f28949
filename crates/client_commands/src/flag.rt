ghost use Rattle.std.specs.Prelude.{◌≡◌, ◌≤◌, length};
ghost use Rattle.client_commands.specs.Flags.{flag_text};

/// What a command does, and when it may be sent.
#[derive(Clone, Copy)]
pub enum Flag {
    /// It may change a key.
    Write,
    /// It changes no key.
    ReadOnly,
    /// It may take memory.
    DenyOom,
    /// It takes constant or logarithmic time.
    Fast,
    /// No script may send it.
    NoScript,
    /// It is served while the server reads its keys from disk.
    Loading,
    /// It is served by a replica that lost its master.
    Stale,
    /// It is served before the connection has said who it is.
    NoAuth,
    /// It is served while a script runs.
    AllowBusy,
}

impl Flag {
    /// The flag's name in the reply to COMMAND.
    pub fn text(self) -> &'static [u8]
        ensures value { result.now ≡ flag_text self }
        ensures short { length result.now ≤ 1000 }
    {
        match self {
            Self::Write => b"write",
            Self::ReadOnly => b"readonly",
            Self::DenyOom => b"denyoom",
            Self::Fast => b"fast",
            Self::NoScript => b"noscript",
            Self::Loading => b"loading",
            Self::Stale => b"stale",
            Self::NoAuth => b"no_auth",
            Self::AllowBusy => b"allow_busy",
        }
    }
}
