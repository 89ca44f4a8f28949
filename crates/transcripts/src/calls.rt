ghost use Rattle.std.specs.Prelude.{◌≡◌, ◌++◌, ◌∷◌, OnOk};
ghost use Rattle.transcripts.specs.CallTexts.{call_text, command_text, command_words, key_word, key_words};
ghost use Rattle.transcripts.specs.CallTexts.{listing_text, node_text, setting_text, stable_text, target_words};
ghost use Rattle.transcripts.specs.OutcomeTexts.{Prints};

use crate::printing::print_bytes;
use crate::transcript::Transcript;
use byte_texts::Text;
use cluster_admin::{AdminCommand, AdminReply};
use key_slots::{NodeId, Slot};
use std::alloc::AllocError;

impl Transcript {
    /// The administrator's call: the command in the words of a script's line, and its reply.
    pub fn call(
        &mut self,
        node: NodeId,
        command: &AdminCommand,
        reply: &AdminReply,
    ) -> Result<(), AllocError>
        ensures { OnOk result (Prints self.old self.new
            (call_text (record { node = node; command = command.now; reply = reply.now })) self.old.status) }
    {
        self.command(node, command)?;
        self.admin_reply(reply)
    }

    fn command(&mut self, node: NodeId, command: &AdminCommand) -> Result<(), AllocError>
        ensures { OnOk result (Prints self.old self.new (command_text node command.now) self.old.status) }
    {
        self.command_words(command)?;
        self.text(b" at ")?;
        self.node(node)?;
        self.target_words(command)?;
        self.line(b"")
    }

    pub(crate) fn command_words(&mut self, command: &AdminCommand) -> Result<(), AllocError>
        ensures { OnOk result (Prints self.old self.new (command_words command.now) self.old.status) }
    {
        match command {
            AdminCommand::Importing(slot, source) => self.setting(*slot, b" importing ", *source),
            AdminCommand::Migrating(slot, target) => self.setting(*slot, b" migrating ", *target),
            AdminCommand::SetNode(slot, owner) => self.setting(*slot, b" node ", *owner),
            AdminCommand::Stable(slot) => self.stable(*slot),
            AdminCommand::KeysIn(slot, count) => self.listing(*slot, *count),
            AdminCommand::Migrate(keys, _) => {
                self.text(b"migrate")?;
                self.key_words(keys.get())
            }
        }
    }

    fn setting(&mut self, slot: Slot, kind: &[u8], other: NodeId) -> Result<(), AllocError>
        ensures { OnOk result (Prints self.old self.new (setting_text slot kind.now other) self.old.status) }
    {
        self.text(b"setslot ")?;
        self.number(u64::from(slot.get()))?;
        self.text(kind)?;
        self.node(other)
    }

    fn stable(&mut self, slot: Slot) -> Result<(), AllocError>
        ensures { OnOk result (Prints self.old self.new (stable_text slot) self.old.status) }
    {
        self.text(b"setslot ")?;
        self.number(u64::from(slot.get()))?;
        self.text(b" stable")
    }

    fn listing(&mut self, slot: Slot, count: u16) -> Result<(), AllocError>
        ensures { OnOk result (Prints self.old self.new (listing_text slot count) self.old.status) }
    {
        self.text(b"getkeysinslot ")?;
        self.number(u64::from(slot.get()))?;
        self.text(b" ")?;
        self.number(u64::from(count))
    }

    fn key_words(&mut self, keys: &[Text]) -> Result<(), AllocError>
        ensures { OnOk result (Prints self.old self.new (key_words keys.now) self.old.status) }
    {
        for key in keys {
            self.key_word(key.get())?;
        }
        Ok(())
    }

    fn key_word(&mut self, key: &[u8]) -> Result<(), AllocError>
        ensures { OnOk result (Prints self.old self.new (32 ∷ key_word key.now) self.old.status) }
    {
        if key.is_empty() {
            return self.text(b" \"\"");
        }
        self.text(b" ")?;
        print_bytes(&mut self.printed, key)
    }

    /// What stands after the node of a MIGRATE.
    pub(crate) fn target_words(&mut self, command: &AdminCommand) -> Result<(), AllocError>
        ensures { OnOk result (Prints self.old self.new (target_words command.now) self.old.status) }
    {
        match command {
            AdminCommand::Migrate(_, target) => {
                self.text(b" to ")?;
                self.node(*target)
            }
            _ => Ok(()),
        }
    }

    pub(crate) fn node(&mut self, node: NodeId) -> Result<(), AllocError>
        ensures { OnOk result (Prints self.old self.new (node_text node) self.old.status) }
    {
        self.text(b"n")?;
        self.number(u64::from(node.get()))
    }
}
