//! The administrator's seat: the list of his calls, which only contracts see.
ghost use Rattle.std.specs.Prelude.{◌≡◌, ◌<◌, [], ◌∷◌, ◌++◌, IfOk};

use atomic_table::{Play, Seat, Table, TableRule};
use byte_texts::Memory;
use cluster_admin::{AdminCall, AdminCommand, AdminReply};
use key_slots::NodeId;
use std::alloc::Global;
use std::collections::LinkedList;
use std::marker::Model;

/// What holds of the calls of a seat: any may be made.
pub struct AnyCalls;

impl TableRule<AdminCall, LinkedList<AdminCall>, bool> for AnyCalls {
    ghost use Rattle.std.specs.Prelude.{[]};
    ghost use Rattle.redis_servers.specs.Seats.{Anything};

    ghost holds = { Anything };

    ghost first = { λ _. [] };
}

/// A call more.
struct Adds;

impl Play<AdminCall, LinkedList<AdminCall>> for Adds {
    ghost use Rattle.redis_servers.specs.Seats.{AddStep};

    ghost then = { AddStep };
}

/// The administrator's seat at servers. Contracts see it as the calls that were answered, with their replies, in the
/// order made; it keeps none of them, so that a plan of any length takes no memory here.
pub struct ServersSeat {
    table: Table<AdminCall, LinkedList<AdminCall>, bool, AnyCalls, Global>,
    pass: Seat<AdminCall, LinkedList<AdminCall>>,
}

/// Written out, so that a proof sees one call where such a value is dropped.
impl Drop for ServersSeat {
    fn drop(self) {
        let Self { table, pass } = self;
        drop(table);
        drop(pass);
    }
}

impl Model for ServersSeat {
    ghost use Rattle.std.specs.Prelude.{List, ◌≡◌, ◌<◌, []};
    ghost use Rattle.cluster_admin.specs.declared.call.AdminCall.{AdminCall};

    ghost Value = { List AdminCall };

    ghost view = { λ s. s.pass.me.0 };

    ghost invariant = { λ s. (s.pass.table_id ≡ s.table.shared.table_id)
        × (0 < s.table.shared.table_id.words) × (s.pass.me.1 ≡ []) };
}

impl ServersSeat {
    /// The seat before its first call.
    pub fn new(alloc: Global) -> Result<Self, Memory>
        ensures { IfOk result (λ s. s ≡ []) }
    {
        let (table, pass) = Table::of_words(alloc, &[0], &false)?;
        Ok(Self { table, pass })
    }

    /// Puts the call at the end, and gives its reply back.
    pub(crate) fn keep(
        &mut self,
        node: NodeId,
        command: AdminCommand,
        reply: AdminReply,
    ) -> AdminReply
        ensures calls { self.new ≡ self.old ++ record { node = node; command = command; reply = reply } ∷ [] }
        ensures reply { result ≡ reply }
    {
        let call = AdminCall {
            node,
            command,
            reply,
        };
        self.add(&call);
        let AdminCall {
            node: _,
            command,
            reply,
        } = call;
        drop(command);
        reply
    }

    fn add(&mut self, call: &AdminCall)
        ensures { self.new ≡ self.old ++ call.now ∷ [] }
    {
        add_to(&self.table, &mut self.pass, call);
    }
}

fn add_to(
    table: &Table<AdminCall, LinkedList<AdminCall>, bool, AnyCalls, Global>,
    pass: &mut Seat<AdminCall, LinkedList<AdminCall>>,
    call: &AdminCall,
)
    requires same { pass.old.table_id ≡ table.now.shared.table_id }
    requires word { 0 < table.now.shared.table_id.words }
    ensures same { pass.new.table_id ≡ pass.old.table_id }
    ensures calls { pass.new.me.0 ≡ pass.old.me.0 ++ call.now ∷ [] }
    ensures slots { pass.new.me.1 ≡ pass.old.me.1 }
{
    table
        .shared
        .compare_exchange_with::<Adds>(pass, 0, 0, 0, call);
}
