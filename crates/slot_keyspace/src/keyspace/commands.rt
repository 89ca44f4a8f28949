//! Commands at the keys of one slot.
ghost use Rattle.std.specs.Prelude.{◌≡◌, IfOk, OnOk, OnErr};
ghost use Rattle.client_commands.specs.Commands.{keys};
ghost use Rattle.client_commands.specs.declared.command.Command.{Command};
ghost use Rattle.store_commands.specs.Apply.{answer, apply};
ghost use Rattle.store_commands.specs.Memory.{HasWork, MayTakeMemory, Writes};
ghost use Rattle.slot_keyspace.specs.OneSlot.{AreInSlot, IsPreparedIn};

use crate::keyspace::Keyspace;
use key_slots::Slot;
use resp2_wire::Reply;
use std::alloc::AllocError;
use store_commands::{Change, Command, prepare};

impl Keyspace {
    /// What a command whose keys have this slot is answered, and what it is still to do; nothing changes.
    pub fn prepare(&self, slot: Slot, command: &Command) -> Result<Change, AllocError>
        requires { AreInSlot slot (keys command.now) }
        ensures prepared { IfOk result (λ change. IsPreparedIn self.now slot command.now change) }
        ensures reply { IfOk result (λ change. change.0 ≡ answer self.now command.now) }
        ensures work { IfOk result (λ change. HasWork change.1 → Writes command.now) }
        ensures memory { OnErr result (MayTakeMemory self.now command.now) }
    {
        prepare(self.alloc, &self.slots[usize::from(slot.get())], command)
    }

    /// Does what was prepared for a command at these entries, and hands out its reply. Where memory runs out nothing
    /// is changed.
    pub fn commit(&mut self, slot: Slot, change: Change) -> Result<Reply, AllocError>
        requires { (c : Command) × IsPreparedIn self.old slot c change }
        ensures reply { IfOk result (λ reply. reply ≡ change.0) }
        ensures ok { OnOk result ((c : Command) → IsPreparedIn self.old slot c change → self.new ≡ apply self.old c) }
        ensures err { OnErr result (self.new ≡ self.old) }
        ensures memory { OnErr result (HasWork change.1) }
    {
        let place = usize::from(slot.get());
        change.commit(&mut self.slots[place])
    }
}
