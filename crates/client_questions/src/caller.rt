ghost use Rattle.std.specs.Prelude.{◌≡◌, []};

use byte_texts::Text;
use std::alloc::Global;

/// The connection of a client, as its questions have it: its number, and its name, which is empty until the client has
/// given one.
#[derive(Drop)]
pub struct Caller {
    pub id: u64,
    pub name: Text,
}

impl Caller {
    /// The connection of this number, with no name. Takes no memory.
    pub fn new(alloc: Global, id: u64) -> Self
        ensures { result ≡ record { id = id; name = [] } }
    {
        Self {
            id,
            name: Text::empty(alloc),
        }
    }
}
