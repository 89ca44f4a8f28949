ghost use Rattle.std.specs.Prelude.{◌≡◌, ◌<◌, ◌≤◌, ◌↔◌, IfOk, IsTrue, length, slice_index, MatchResult, None, Some};
ghost use Rattle.std.specs.Prelude.{OnOk, OnErr};
ghost use Rattle.std.specs.List.{All};
ghost use Rattle.std.specs.FinMap as finite;
ghost use Rattle.key_slots.specs.Ranges.{owner_ranges, starts_of};
ghost use Rattle.slot_marks.specs.Rows.{AreOfSlots};
ghost use Rattle.slot_marks.specs.Setting.{importing_fault, migrating_fault, node_fault, with_importing};
ghost use Rattle.slot_marks.specs.Setting.{with_migrating, with_owner, without_marks};

use crate::fault::SlotFault;
use crate::mark_row::MarkRow;
use byte_texts::Memory;
use key_slots::{NodeId, OwnerTable, Slot, SlotRange};
use std::alloc::Global;
use std::marker::Model;

/// What a node keeps of the slots: their owners, which of its own slots go to another node (migrating), and which
/// slots come to it from another (importing).
pub struct SlotTable {
    me: NodeId,
    owners: OwnerTable,
    migrating: MarkRow,
    importing: MarkRow,
}

/// Written out, so that a proof sees one call where such a value is dropped.
impl Drop for SlotTable {
    fn drop(self) {
        let Self {
            me: _,
            owners,
            migrating,
            importing,
        } = self;
        drop(owners);
        drop(migrating);
        drop(importing);
    }
}

impl Model for SlotTable {
    ghost use Rattle.std.specs.Prelude.{◌<◌};
    ghost use Rattle.slot_marks.specs.Tables.{Table, table_code};

    ghost Value = { Table };

    ghost coded = { table_code };

    ghost view = { λ t. record {
      me = t.me;
      nodes = t.owners.nodes;
      owners = t.owners.owners;
      migrating = t.migrating;
      importing = t.importing;
    } };

    ghost invariant = { λ t. t.me < t.owners.nodes };
}

impl SlotTable {
    /// The table of the node `me`, without marks. All the memory that the table ever needs is taken here.
    pub fn new(alloc: Global, me: NodeId, owners: OwnerTable) -> Result<Self, Memory>
        requires { me < owners.nodes }
        ensures { IfOk result
            (λ t. t
            ≡ record {
              me = me;
              nodes = owners.nodes;
              owners = owners.owners;
              migrating = finite.empty;
              importing = finite.empty;
            }) }
    {
        let migrating = MarkRow::new(alloc)?;
        let importing = MarkRow::new(alloc)?;
        Ok(Self {
            me,
            owners,
            migrating,
            importing,
        })
    }

    /// The node whose table this is.
    pub fn me(&self) -> NodeId
        ensures value { result ≡ self.now.me }
        ensures named { self.now.me < self.now.nodes }
    {
        self.me
    }

    /// How many nodes the cluster has.
    pub fn nodes(&self) -> u8
        ensures value { result ≡ self.now.nodes }
        ensures some { 1 ≤ self.now.nodes }
        ensures most { self.now.nodes ≤ 255 }
        ensures width { length self.now.owners ≡ 16384 }
        ensures named { All (λ n. n < self.now.nodes) self.now.owners }
    {
        self.owners.nodes()
    }

    /// The owners of all slots, as this node sees them.
    pub fn owners(&self) -> &OwnerTable
        ensures { result.now ≡ record { nodes = self.now.nodes; owners = self.now.owners } }
    {
        &self.owners
    }

    /// The slot's owner, as this node sees it.
    pub fn owner(&self, slot: Slot) -> NodeId
        ensures value { result ≡ slice_index self.now.owners slot }
        ensures named { result < self.now.nodes }
    {
        self.owners.owner(slot)
    }

    /// The node to which the slot goes.
    pub fn migrating(&self, slot: Slot) -> Option<NodeId>
        ensures { result ≡ finite.get self.now.migrating slot }
    {
        self.migrating.get(slot)
    }

    /// The node from which the slot comes.
    pub fn importing(&self, slot: Slot) -> Option<NodeId>
        ensures { result ≡ finite.get self.now.importing slot }
    {
        self.importing.get(slot)
    }

    /// The first slot and the owner of each longest range of slots with one owner, ascending. Takes no memory.
    pub fn ranges(&self) -> &[(Slot, NodeId)]
        ensures { result.now ≡ starts_of self.now.owners }
    {
        self.owners.starts()
    }

    /// The longest ranges of slots with one owner, ascending.
    pub fn owner_ranges(&self) -> Result<Vec<SlotRange>, Memory>
        ensures { IfOk result (λ ranges. ranges.items ≡ owner_ranges self.now.owners) }
    {
        self.owners.ranges()
    }

    /// Whether the owners, and how many nodes there are, are the other table's. Takes no memory.
    pub fn has_owners(&self, owners: &OwnerTable) -> bool
        ensures { IsTrue result ↔ ((self.now.nodes ≡ owners.now.nodes) × (self.now.owners ≡ owners.now.owners)) }
    {
        self.owners.same(owners)
    }

    /// An equal table of its own.
    pub fn try_copy(&self) -> Result<Self, Memory>
        ensures same { IfOk result (λ t. t ≡ self.now) }
        ensures migrating { OnOk result (AreOfSlots self.now.migrating) }
        ensures importing { OnOk result (AreOfSlots self.now.importing) }
    {
        let owners = self.owners.try_copy()?;
        let migrating = self.migrating.try_copy()?;
        let importing = self.importing.try_copy()?;
        Ok(Self {
            me: self.me,
            owners,
            migrating,
            importing,
        })
    }

    /// Whether the other table is the same node's, with the same owners and marks. Takes no memory.
    pub fn same(&self, other: &Self) -> bool
        ensures { IsTrue result ↔ (self.now ≡ other.now) }
    {
        self.me == other.me
            && self.owners.same(&other.owners)
            && self.migrating.same(&other.migrating)
            && self.importing.same(&other.importing)
    }

    /// Whether no slot has a mark. Takes no memory.
    pub fn is_unmarked(&self) -> bool
        ensures { IsTrue result ↔ ((self.now.migrating ≡ finite.empty) × (self.now.importing ≡ finite.empty)) }
    {
        self.migrating.is_empty() && self.importing.is_empty()
    }

    /// CLUSTER SETSLOT IMPORTING: marks the slot as one that comes from `source`, or says why not. Takes no memory.
    pub fn set_importing(&mut self, slot: Slot, source: NodeId) -> Result<(), SlotFault>
        ensures fault { MatchResult result (λ _. importing_fault self.old slot source ≡ None)
            (λ e. importing_fault self.old slot source ≡ Some e) }
        ensures ok { OnOk result (self.new ≡ with_importing self.old slot source) }
        ensures err { OnErr result (self.new ≡ self.old) }
    {
        if self.owner(slot) == self.me {
            return Err(SlotFault::AlreadyOwner);
        }
        if source.get() >= self.nodes() {
            return Err(SlotFault::UnknownNode);
        }
        if source == self.me {
            return Err(SlotFault::SameNode);
        }
        self.importing.set(slot, source);
        Ok(())
    }

    /// CLUSTER SETSLOT MIGRATING: marks the slot as one that goes to `target`, or says why not. Takes no memory.
    pub fn set_migrating(&mut self, slot: Slot, target: NodeId) -> Result<(), SlotFault>
        ensures fault { MatchResult result (λ _. migrating_fault self.old slot target ≡ None)
            (λ e. migrating_fault self.old slot target ≡ Some e) }
        ensures ok { OnOk result (self.new ≡ with_migrating self.old slot target) }
        ensures err { OnErr result (self.new ≡ self.old) }
    {
        if self.owner(slot) != self.me {
            return Err(SlotFault::NotOwner);
        }
        if target.get() >= self.nodes() {
            return Err(SlotFault::UnknownNode);
        }
        if target == self.me {
            return Err(SlotFault::SameNode);
        }
        self.migrating.set(slot, target);
        Ok(())
    }

    /// CLUSTER SETSLOT NODE: makes `owner` the slot's owner, or says why not. The node holds `held` keys of the slot.
    /// Takes no memory.
    pub fn set_node(&mut self, slot: Slot, owner: NodeId, held: usize) -> Result<(), SlotFault>
        ensures fault { MatchResult result (λ _. node_fault self.old slot owner held ≡ None)
            (λ e. node_fault self.old slot owner held ≡ Some e) }
        ensures ok { OnOk result (self.new ≡ with_owner self.old slot owner) }
        ensures err { OnErr result (self.new ≡ self.old) }
    {
        if owner.get() >= self.nodes() {
            return Err(SlotFault::UnknownNode);
        }
        if self.owner(slot) == self.me && owner != self.me && held > 0 {
            return Err(SlotFault::KeysRemain);
        }
        self.owners.set(slot, owner);
        if owner == self.me {
            self.importing.clear(slot);
        } else {
            self.migrating.clear(slot);
        }
        Ok(())
    }

    /// CLUSTER SETSLOT STABLE: takes both marks of the slot away, if it has any. It is never refused, and takes no
    /// memory.
    pub fn set_stable(&mut self, slot: Slot)
        ensures { self.new ≡ without_marks self.old slot }
    {
        self.migrating.clear(slot);
        self.importing.clear(slot);
    }
}
