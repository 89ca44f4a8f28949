ghost use Rattle.std.specs.Prelude.{◌≡◌, ◌≢◌, ◌<◌, cond, is_some, length, option_map, IfOk, OnErr, OnOk, IsTrue, ◌↔◌};
ghost use Rattle.std.specs.FinMap as finite;
ghost use Rattle.slot_keyspace.specs.Batches.{batch_of, with_entries};
ghost use Rattle.store_commands.specs.Effects.{without};
ghost use Rattle.cluster_node.specs.Administration.{node_if_accepted, reply_if_accepted, IsSetting, reply_or, reply_to};
ghost use Rattle.cluster_node.specs.Administration.{setting_fault};
ghost use Rattle.cluster_admin.specs.Commands.{AreMovable, IsListing};
ghost use Rattle.cluster_node.specs.Admitting.{AdmitsBy, admit_fault, are_of_slot, frame_entries, holds_any, told_as};
ghost use Rattle.cluster_node.specs.Exporting.{IsExport};

use crate::admitting::AdmitFault;
use crate::node::Node;
use byte_texts::Text;
use cluster_admin::{AdminCommand, AdminFault, AdminReply};
use key_slots::{OwnerTable, Slot, slot_of};
use migrate_frames::{read_frame, write_frame};
use slot_marks::SlotFault;
use std::alloc::AllocError;
use store_commands::Entries;
use typed_values::Value;

impl Node {
    /// NodeExact: the administrator's SETSLOT or GETKEYSINSLOT. A refusal, and out of memory, leave the node as it is.
    #[tactic(auto, unfolding(
    // the first refusal, and the answer where there is none
    crate::specs::Administration::setting_fault, crate::specs::Administration::reply_if_accepted,
    // the node after it
    crate::specs::Administration::node_if_accepted))]
    pub fn admin(&mut self, command: &AdminCommand) -> Result<AdminReply, AllocError>
        requires { IsSetting command.now }
        ensures reply { IfOk result
            (λ r. r
            ≡ reply_or (setting_fault self.old.me self.old.nodes self.old.node command.now)
            (reply_if_accepted self.old.node command.now)) }
        ensures ok { OnOk result
            (self.new
            ≡ record self.old {
              node = cond
                  (is_some (setting_fault self.old.me self.old.nodes self.old.node command.now)) self.old.node
                  (node_if_accepted self.old.me self.old.node command.now);
            }) }
        ensures err { OnErr result (self.new ≡ self.old) }
        // A refusal is told without memory, and so is what is done: only a listing takes some.
        ensures memory { OnErr result
            (IsListing
            (reply_or (setting_fault self.old.me self.old.nodes self.old.node command.now)
            (reply_if_accepted self.old.node command.now))) }
    {
        match command {
            AdminCommand::Importing(slot, source) => {
                Ok(reply_to(self.table.set_importing(*slot, *source)))
            }
            AdminCommand::Migrating(slot, target) => {
                Ok(reply_to(self.table.set_migrating(*slot, *target)))
            }
            AdminCommand::SetNode(slot, owner) => {
                let keys_held = self.held.count_in(*slot);
                Ok(reply_to(self.table.set_node(*slot, *owner, keys_held)))
            }
            AdminCommand::Stable(slot) => {
                self.table.set_stable(*slot);
                Ok(AdminReply::Ok)
            }
            AdminCommand::KeysIn(slot, count) => {
                let keys = self.held.keys_in(*slot, usize::from(*count))?;
                Ok(AdminReply::Keys(keys))
            }
            AdminCommand::Migrate(_, _) => unreachable!(),
        }
    }

    /// NodeExact: the frame of those of the keys that the node holds, in their order, and None where it holds none of
    /// them, which takes no memory. Their values are written from where they stand.
    pub fn export(&self, keys: &[Text]) -> Result<Option<Vec<u8>>, AllocError>
        requires { AreMovable keys.now }
        ensures frame { IfOk result
            (λ f. IsExport (batch_of self.now.node.held keys.now) (option_map (λ v. v.items) f)) }
        ensures memory { OnErr result (0 < length (batch_of self.now.node.held keys.now)) }
    {
        let batch = self.held.entries_at(keys)?;
        if batch.is_empty() {
            return Ok(None);
        }
        Ok(Some(write_frame(self.alloc, batch.as_slice())?))
    }

    /// NodeExact: takes the keys of a frame over, which are all of the slot, or leaves the node as it is.
    pub fn admit(&mut self, slot: Slot, frame: &[u8]) -> Result<(), AdmitFault>
        ensures fault { AdmitsBy (admit_fault self.old.node slot frame.now) result }
        ensures ok { OnOk result
            (self.new
            ≡ record self.old {
              node = record self.old.node {
                held = with_entries self.old.node.held
                    (frame_entries frame.now);
              };
            }) }
        ensures err { OnErr result (self.new ≡ self.old) }
    {
        if self.table.importing(slot).is_none() {
            return Err(AdmitFault::NotImporting);
        }
        let batch = read_frame(self.alloc, frame)?;
        if !are_of_slot(slot, batch.as_slice()) {
            return Err(AdmitFault::BadFrame);
        }
        if self.holds_any(batch.as_slice()) {
            return Err(AdmitFault::Busy);
        }
        self.held.put_all(batch)?;
        Ok(())
    }

    fn holds_any(&self, batch: &[(Text, Value)]) -> bool
        ensures { result ≡ holds_any self.now.node batch.now }
    {
        batch.iter().any(|entry| self.holds(&entry.0))
    }

    /// NodeExact: takes the listed keys out. Takes no memory.
    pub fn forget(&mut self, keys: &[Text])
        ensures { self.new
            ≡ record self.old { node = record self.old.node { held = without self.old.node.held keys.now } } }
    {
        self.held.remove_all(keys);
    }

    /// Whether the node has this table's owners, and no mark. Takes no memory.
    pub fn is_clean(&self, owners: &OwnerTable) -> bool
        ensures { IsTrue result
            ↔ ((self.now.nodes ≡ owners.now.nodes) × (self.now.node.owners ≡ owners.now.owners)
            × (self.now.node.migrating ≡ finite.empty) × (self.now.node.importing ≡ finite.empty)) }
    {
        self.table.has_owners(owners) && self.table.is_unmarked()
    }
}

fn are_of_slot(slot: Slot, batch: &[(Text, Value)]) -> bool
    ensures { result ≡ are_of_slot slot batch.now }
{
    batch
        .iter()
        .all(|entry| slot_of(entry.0.get()).get() == slot.get())
}

/// A table's answer as the administrator gets it.
fn reply_to(done: Result<(), SlotFault>) -> AdminReply
    ensures { result ≡ reply_to done }
{
    match done {
        Ok(()) => AdminReply::Ok,
        Err(fault) => AdminReply::Refused(AdminFault::from(fault)),
    }
}

/// What the administrator is answered where the target of a MIGRATE did not take the frame, which its source made, so
/// that it is not bad.
pub fn refused_by_target(fault: AdmitFault) -> Result<AdminReply, AllocError>
    requires { fault ≢ AdmitFault.BadFrame }
    ensures reply { IfOk result (λ r. r ≡ AdminReply.Refused (told_as fault)) }
    ensures told { OnOk result (fault ≢ AdmitFault.Memory) }
    ensures memory { OnErr result (fault ≡ AdmitFault.Memory) }
{
    match fault {
        AdmitFault::NotImporting => Ok(AdminReply::Refused(AdminFault::NotImporting)),
        AdmitFault::Busy => Ok(AdminReply::Refused(AdminFault::Busy)),
        AdmitFault::Memory => Err(AllocError),
        AdmitFault::BadFrame => unreachable!(),
    }
}
