ghost use Rattle.std.specs.Prelude.{◌≡◌, ◌<◌, ◌≤◌, Bool, true, cond, List, map, length, IfOk, OnErr, OnOk, IsTrue, ◌↔◌};
ghost use Rattle.std.specs.Prelude.{is_some};
ghost use Rattle.std.specs.List.{All};
ghost use Rattle.std.specs.FinMap as finite;
ghost use Rattle.key_slots.specs.Owners.{Owners};
ghost use Rattle.slot_keyspace.specs.Batches.{batch_of, with_entries};
ghost use Rattle.store_commands.specs.Store.{HasDistinctKeys};
ghost use Rattle.store_commands.specs.Apply.{answer, apply};
ghost use Rattle.store_commands.specs.Effects.{without};
ghost use Rattle.client_commands.specs.Commands.{keys};
ghost use Rattle.slot_marks.specs.Tables.{Table};
ghost use Rattle.slot_marks.specs.Verdicts.{first_slot};
ghost use Rattle.cluster_node.specs.Nodes.{Node, client_reply, client_node, look_reply, is_present, node_verdict};
ghost use Rattle.cluster_node.specs.Nodes.{table_of, is_marked};
ghost use Rattle.cluster_node.specs.NodeView.{NodeView};
ghost use Rattle.cluster_node.specs.Administration.{reply_if_accepted, node_if_accepted};
ghost use Rattle.cluster_node.specs.Administration.{setting_fault, reply_or, reply_to, IsSetting};

use crate::redirecting::redirection_reply;
use byte_texts::Text;
use cluster_admin::{AdminCommand, AdminFault, AdminReply};
use key_slots::{NodeId, OwnerTable, Slot};
use resp2_wire::Reply;
use slot_keyspace::Keyspace;
use slot_marks::{SlotFault, SlotTable, Verdict, judge_at};
use std::alloc::{AllocError, Global};
use std::marker::Model;
use store_commands::{Command, Entries, apply};
use typed_values::Value;

/// A node of the cluster: the keys that it holds with their values, and its table of slots.
pub struct Node {
    pub(crate) alloc: Global,
    pub(crate) base_port: u16,
    pub(crate) held: Keyspace,
    pub(crate) table: SlotTable,
}

/// Written out, so that a proof sees one call where such a value is dropped.
impl Drop for Node {
    fn drop(self) {
        let Self {
            alloc: _,
            base_port: _,
            held,
            table,
        } = self;
        drop(held);
        drop(table);
    }
}

impl Model for Node {
    ghost use Rattle.cluster_node.specs.NodeView.{NodeView, IsKept, node_view_code};

    ghost Value = { NodeView };

    ghost coded = { node_view_code };

    ghost view = { λ n. record {
      me = n.table.me;
      nodes = n.table.nodes;
      base_port = n.base_port;
      node = record {
        held = n.held;
        owners = n.table.owners;
        migrating = n.table.migrating;
        importing = n.table.importing;
      };
    } };

    ghost invariant = { λ n. IsKept n.base_port n.held };
}

impl Node {
    /// The node of this number, which holds nothing, with this table and no mark. The first node's port is `base_port`,
    /// at most 65,528, and each other's is higher by its number.
    pub fn open(
        alloc: Global,
        me: NodeId,
        owners: OwnerTable,
        base_port: u16,
    ) -> Result<Self, AllocError>
        requires me { me < owners.nodes }
        requires port { base_port ≤ 65528 }
        ensures { IfOk result (λ n. n ≡ record {
          me = me;
          nodes = owners.nodes;
          base_port = base_port;
          node = record {
            held = finite.empty;
            owners = owners.owners;
            migrating = finite.empty;
            importing = finite.empty;
          };
        }) }
    {
        let table = SlotTable::new(alloc, me, owners)?;
        Ok(Self {
            alloc,
            base_port,
            held: Keyspace::new(alloc)?,
            table,
        })
    }

    /// The verdict on keys of which the first has this slot. Where it has no mark, the verdict does not ask which keys
    /// are there: they are not looked up, and no memory is taken.
    pub(crate) fn verdict(
        &self,
        slot: Slot,
        asking: bool,
        keys: &[Text],
    ) -> Result<Verdict, AllocError>
        requires some { 0 < length keys.now }
        requires slot { slot ≡ first_slot keys.now }
        ensures verdict { IfOk result (λ v. v ≡ node_verdict self.now.me self.now.node asking keys.now) }
        ensures memory { OnErr result (is_marked self.now.node slot ≡ true) }
    {
        if !self.is_marked(slot) {
            return Ok(judge_at(&self.table, slot, asking, keys, &[]));
        }
        let mut present = Vec::with_capacity(self.alloc, keys.len())?;
        for key in keys {
            present.push(self.holds(key))?;
        }
        Ok(judge_at(&self.table, slot, asking, keys, &present))
    }

    fn is_marked(&self, slot: Slot) -> bool
        ensures { result ≡ is_marked self.now.node slot }
    {
        self.table.migrating(slot).is_some() || self.table.importing(slot).is_some()
    }

    pub(crate) fn holds(&self, key: &Text) -> bool
        ensures { result ≡ is_present self.now.node key.now }
    {
        self.held.get(key.get()).is_some()
    }
}
