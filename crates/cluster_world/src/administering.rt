ghost use Rattle.std.specs.Prelude.{◌≡◌, ◌<◌, nat_lt, length, option_map, IfOk, OnOk, OnErr};
ghost use Rattle.cluster_admin.specs.Commands.{IsCommand, AreMovable};
ghost use Rattle.cluster_node.specs.Administration.{IsSetting};
ghost use Rattle.cluster_node.specs.Admitting.{AdmitsBy, admit_fault, frame_entries};
ghost use Rattle.cluster_node.specs.Exporting.{IsExport};
ghost use Rattle.slot_keyspace.specs.Batches.{batch_of, with_entries};
ghost use Rattle.store_commands.specs.Effects.{without};
ghost use Rattle.cluster_world.specs.Worlds.{node_at, change_node};
ghost use Rattle.cluster_world.specs.Commanding.{TakesMemory, admin_reply, admin_after};
ghost use Rattle.cluster_admin.specs.declared.admin.AdminCommand.TheVariants.{Migrate};

use crate::world::World;
use byte_texts::{Memory, Text};
use cluster_node::{AdminCommand, AdminFault, AdminReply, AdmitFault, refused_by_target};
use key_slots::{NodeId, Slot, slot_of};

impl World {
    /// The administrator's command at the node. A refusal, and out of memory, leave the world as it is. Out of memory
    /// comes only in the place of a listing, and of what the target of a MIGRATE says of the frame.
    pub fn command(&mut self, node: NodeId, command: &AdminCommand) -> Result<AdminReply, Memory>
        requires there { node < length self.old.nodes }
        requires command { IsCommand command.now }
        ensures reply { IfOk result (λ r. r ≡ admin_reply self.old node command.now) }
        ensures ok { OnOk result (self.new ≡ admin_after self.old node command.now) }
        ensures err { OnErr result (self.new ≡ self.old) }
        ensures memory { OnErr result (TakesMemory self.old node command.now) }
    {
        match command {
            AdminCommand::Migrate(keys, target) => self.migrate(node, keys.get(), *target),
            setting => self.set(node, setting),
        }
    }

    /// SETSLOT or GETKEYSINSLOT at the node. A refusal, and out of memory, leave the world as it is.
    fn set(&mut self, node: NodeId, setting: &AdminCommand) -> Result<AdminReply, Memory>
        requires there { node < length self.old.nodes }
        requires setting { IsSetting setting.now }
        ensures reply { IfOk result (λ r. r ≡ admin_reply self.old node setting.now) }
        ensures ok { OnOk result (self.new ≡ admin_after self.old node setting.now) }
        ensures err { OnErr result (self.new ≡ self.old) }
        ensures memory { OnErr result (TakesMemory self.old node setting.now) }
    {
        self.nodes[usize::from(node.get())].admin(setting)
    }

    fn export_from(&self, node: NodeId, keys: &[Text]) -> Result<Option<Vec<u8>>, Memory>
        requires there { node < length self.now.nodes }
        requires movable { AreMovable keys.now }
        ensures frame { IfOk result
            (λ f. IsExport (batch_of (node_at self.now node).held keys.now) (option_map (λ v. v.items) f)) }
        ensures memory { OnErr result (0 < length (batch_of (node_at self.now node).held keys.now)) }
    {
        self.nodes[usize::from(node.get())].export(keys)
    }

    fn admit_at(&mut self, node: NodeId, slot: Slot, frame: &[u8]) -> Result<(), AdmitFault>
        requires { node < length self.old.nodes }
        ensures fault { AdmitsBy (admit_fault (node_at self.old node) slot frame.now) result }
        ensures ok { OnOk result
            (self.new ≡ change_node self.old node (record (node_at self.old node) {
              held = with_entries (node_at self.old node).held (frame_entries frame.now);
            })) }
        ensures err { OnErr result (self.new ≡ self.old) }
    {
        self.nodes[usize::from(node.get())].admit(slot, frame)
    }

    fn forget_at(&mut self, node: NodeId, keys: &[Text])
        requires { node < length self.old.nodes }
        ensures { self.new
            ≡ change_node self.old node
            (record (node_at self.old node) { held = without (node_at self.old node).held keys.now }) }
    {
        self.nodes[usize::from(node.get())].forget(keys);
    }

    /// MIGRATE at the source: all of the keys that it holds move to the target in one frame, or none. No frame is made
    /// before the refusals that need none. A refusal, and out of memory, leave the world as it is.
    pub fn migrate(
        &mut self,
        source: NodeId,
        keys: &[Text],
        target: NodeId,
    ) -> Result<AdminReply, Memory>
        requires there { source < length self.old.nodes }
        requires movable { AreMovable keys.now }
        ensures reply { IfOk result (λ r. r ≡ admin_reply self.old source (Migrate keys.now target)) }
        ensures ok { OnOk result (self.new ≡ admin_after self.old source (Migrate keys.now target)) }
        ensures err { OnErr result (self.new ≡ self.old) }
        ensures memory { OnErr result (TakesMemory self.old source (Migrate keys.now target)) }
    {
        if !self.has(target) {
            return Ok(AdminReply::Refused(AdminFault::UnknownNode));
        }
        if target.get() == source.get() {
            return Ok(AdminReply::Refused(AdminFault::SameNode));
        }
        let Some(frame) = self.export_from(source, keys)? else {
            return Ok(AdminReply::NoKey);
        };
        match self.admit_at(target, slot_of(keys[0].get()), frame.as_slice()) {
            Ok(()) => {
                self.forget_at(source, keys);
                Ok(AdminReply::Ok)
            }
            Err(fault) => refused_by_target(fault),
        }
    }

    fn has(&self, node: NodeId) -> bool
        ensures { result ≡ nat_lt node (length self.now.nodes) }
    {
        node.get() < self.nodes()
    }
}
