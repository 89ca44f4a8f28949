use std::marker::Model;

/// Numbers that a server gave to connections.
#[derive(Drop)]
pub(crate) struct ClientIds {
    ids: Vec<u64>,
}

impl Model for ClientIds {
    ghost use Rattle.std.specs.Prelude.{List, ℕ};

    ghost Value = { List ℕ };

    ghost view = { λ c. c.ids.items };
}

impl ClientIds {
    ghost use Rattle.std.specs.Prelude.{◌≡◌};

    /// These numbers.
    pub(crate) fn from_vec(ids: Vec<u64>) -> Self
        ensures { result ≡ ids.items }
    {
        Self { ids }
    }

    /// The numbers.
    pub(crate) fn get(&self) -> &[u64]
        ensures { result.now ≡ self.now }
    {
        self.ids.as_slice()
    }
}
