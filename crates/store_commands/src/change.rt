ghost use Rattle.std.specs.Prelude.{◌≡◌, OnOk, OnErr, IfOk};
ghost use Rattle.store_commands.specs.Effects.{with_effect};
ghost use Rattle.store_commands.specs.Memory.{HasWork};

use crate::commit::take_effect;
use crate::effect::Effect;
use crate::entries::Entries;
use resp2_wire::Reply;
use std::alloc::{AllocError, Global};
use std::marker::Model;

/// A command's reply, with what it is still to do. Nothing is done before the change is committed.
pub struct Change {
    alloc: Global,
    reply: Reply,
    effect: Effect,
}

/// Written out, so that a proof sees one call where such a value is dropped.
impl Drop for Change {
    fn drop(self) {
        let Self {
            alloc: _,
            reply,
            effect,
        } = self;
        drop(reply);
        drop(effect);
    }
}

impl Model for Change {
    ghost use Rattle.std.specs.Coded.{coded×};
    ghost use Rattle.store_commands.specs.contracts.effect.Effect as work_type;
    ghost use Rattle.resp2_wire.specs.contracts.reply.Reply as reply_type;
    ghost use Rattle.resp2_wire.specs.declared.reply.Reply.{Reply};
    ghost use Rattle.store_commands.specs.declared.effect.Effect.{Effect};

    ghost Value = { Reply × Effect };

    ghost coded = { coded× reply_type.the_row.coded work_type.the_row.coded };

    ghost view = { λ c. (c.reply, c.effect) };
}

impl Change {
    pub(crate) fn new(alloc: Global, reply: Reply, effect: Effect) -> Self
        ensures { result ≡ (reply, effect) }
    {
        Self {
            alloc,
            reply,
            effect,
        }
    }

    /// The reply that `commit` will hand out.
    pub fn reply(&self) -> &Reply
        ensures { result.now ≡ self.now.0 }
    {
        &self.reply
    }

    /// StoreExact: does the work, all or nothing, and hands out the reply.
    pub fn commit<E: Entries>(self, entries: &mut E) -> Result<Reply, AllocError>
        ensures reply { IfOk result (λ r. r ≡ self.0) }
        ensures ok { OnOk result (E.entries entries.new ≡ with_effect self.1 (E.entries entries.old)) }
        ensures err { OnErr result (E.entries entries.new ≡ E.entries entries.old) }
        ensures memory { OnErr result (HasWork self.1) }
    {
        let Change {
            alloc,
            reply,
            effect,
        } = self;
        take_effect(alloc, entries, effect)?;
        Ok(reply)
    }
}
