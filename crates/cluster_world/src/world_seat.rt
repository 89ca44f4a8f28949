ghost use Rattle.std.specs.Prelude.{◌≡◌, [], ◌∷◌, ◌++◌, OnErr, OnOk};

use byte_texts::Memory;
use cluster_admin::AdminCall;
use std::alloc::Global;
use std::marker::Model;

/// The administrator's seat of a world: its calls with their replies, in order.
pub struct WorldSeat {
    pub(crate) calls: Vec<AdminCall>,
}

/// Written out, so that a proof sees one call where such a value is dropped.
impl Drop for WorldSeat {
    fn drop(self) {
        let Self { calls } = self;
        drop(calls);
    }
}

impl Model for WorldSeat {
    ghost use Rattle.std.specs.Prelude.{List};
    ghost use Rattle.cluster_admin.specs.declared.call.AdminCall.{AdminCall};

    ghost Value = { List AdminCall };

    ghost view = { λ s. s.calls.items };
}

impl WorldSeat {
    /// The seat before its first call. Takes no memory.
    pub fn new(alloc: Global) -> Self
        ensures { result ≡ [] }
    {
        Self {
            calls: Vec::new(alloc),
        }
    }

    /// Takes memory for one call more.
    pub fn reserve(&mut self) -> Result<(), Memory>
        ensures { self.new ≡ self.old }
    {
        self.calls.reserve(1)
    }

    /// Puts a call that was answered at the end, or leaves the list as it is.
    pub fn push(&mut self, call: AdminCall) -> Result<(), Memory>
        ensures ok { OnOk result (self.new ≡ self.old ++ call ∷ []) }
        ensures err { OnErr result (self.new ≡ self.old) }
    {
        self.calls.push(call)?;
        Ok(())
    }

    /// The calls that were answered, with their replies, in the order made.
    pub fn calls(&self) -> &[AdminCall]
        ensures { result.now ≡ self.now }
    {
        self.calls.as_slice()
    }
}
