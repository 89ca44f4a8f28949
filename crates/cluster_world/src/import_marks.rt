ghost use Rattle.std.specs.Prelude.{◌≡◌, ◌<◌, [], length, IfOk, None, Some, slice_set, slice_index_or, ℕ};
ghost use Rattle.cluster_world.specs.Earning.{imports};
ghost use Rattle.cluster_world.specs.Imported.{dated, since_in};
ghost use Rattle.cluster_world.specs.Steps.{action_of, node_of};
ghost use Rattle.cluster_world.specs.declared.event.Event.TheVariants as event;
ghost use Rattle.cluster_admin.specs.declared.admin.AdminReply.TheVariants as reply;

use crate::event::Event;
use crate::import_row::ImportRow;
use byte_texts::Memory;
use cluster_node::{AdminCommand, AdminReply};
use key_slots::{NodeId, Slot};
use std::alloc::Global;
use std::marker::Model;

/// For each node, the slots that are on their way to it, each with the place in the trail of the SETSLOT IMPORTING
/// since which it is.
pub struct ImportMarks {
    rows: Vec<ImportRow>,
}

/// Written out, so that a proof sees one call where such a value is dropped.
impl Drop for ImportMarks {
    fn drop(self) {
        let Self { rows } = self;
        drop(rows);
    }
}

impl Model for ImportMarks {
    ghost use Rattle.std.specs.Prelude.{List};
    ghost use Rattle.std.specs.Coded.{coded_list};
    ghost use Rattle.cluster_world.specs.Imported.{Places, places_code};

    ghost Value = { List Places };

    ghost coded = { coded_list places_code };

    ghost view = { λ m. m.rows.items };
}

impl ImportMarks {
    /// No marks at so many nodes.
    pub fn new(alloc: Global, nodes: u8) -> Result<Self, Memory>
        ensures none { IfOk result (λ m. (n s : ℕ) → since_in m n s ≡ None) }
        ensures nodes { IfOk result (λ m. length m ≡ nodes) }
    {
        let mut rows = Vec::with_capacity(alloc, usize::from(nodes))?;
        for number in 0..nodes {
            rows.push(ImportRow::new(alloc)?)?;
        }
        Ok(Self { rows })
    }

    /// The place since which the slot is on its way to the node, if it is.
    pub fn since(&self, node: NodeId, slot: Slot) -> Option<usize>
        requires { node < length self.now }
        ensures { result ≡ since_in self.now node slot }
    {
        self.rows[usize::from(node.get())].since(slot)
    }

    fn begin(&mut self, node: NodeId, slot: Slot, place: usize)
        requires { node < length self.old }
        ensures row { self.new
            ≡ slice_set self.old node (slice_set (slice_index_or self.old node []) slot (Some place)) }
        ensures inside { slot < length (slice_index_or self.old node []) }
    {
        self.rows[usize::from(node.get())].begin(slot, place);
    }

    fn end(&mut self, node: NodeId, slot: Slot)
        requires { node < length self.old }
        ensures row { self.new ≡ slice_set self.old node (slice_set (slice_index_or self.old node []) slot None) }
        ensures inside { slot < length (slice_index_or self.old node []) }
    {
        self.rows[usize::from(node.get())].end(slot);
    }

    /// The marks after the event at this place.
    pub fn note(&mut self, place: usize, seen: &Event)
        requires { node_of (action_of seen.now) < length self.old }
        ensures marks { (n s : ℕ) → since_in self.new n s ≡ imports (since_in self.old) (dated place seen.now) n s }
        ensures nodes { length self.new ≡ length self.old }
    {
        if let Event::Admin {
            node,
            command,
            reply: AdminReply::Ok,
        } = seen
        {
            self.note_command(place, *node, command);
        }
    }

    /// The marks after an accepted command.
    fn note_command(&mut self, place: usize, node: NodeId, command: &AdminCommand)
        requires { node < length self.old }
        ensures marks { (n s : ℕ)
            → since_in self.new n s
            ≡ imports (since_in self.old) (dated place (event.Admin node command.now reply.Ok)) n s }
        ensures nodes { length self.new ≡ length self.old }
    {
        match command {
            AdminCommand::Importing(slot, _) => self.begin(node, *slot, place),
            AdminCommand::SetNode(slot, owner) if *owner == node => self.end(node, *slot),
            AdminCommand::Stable(slot) => self.end(node, *slot),
            _ => {}
        }
    }
}
