//! What is said of replicas.
ghost use Rattle.std.specs.Prelude.{◌≡◌, ◌<◌, ◌++◌, OnOk, length};
ghost use Rattle.std.specs.List.{flat_map};
ghost use Rattle.cluster_views.specs.Numbers.{numbers_to};
ghost use Rattle.server_replicas.specs.Telling.{lack_line, lack_text, lacks_text, replica_words, silent_line};
ghost use Rattle.server_replicas.specs.Telling.{untold_line};

use crate::marks::{has_mark, shows_mark};
use byte_texts::Memory;
use cluster_views::ServerSurvey;
use key_slots::{NodeId, SLOTS, Slot};
use listed_nodes::NodeLine;
use survey_texts::{put, put_node, put_number};

/// Puts a line for each mark of the node that its replica does not tell in these lines.
pub(crate) fn put_lacks(
    out: &mut Vec<u8>,
    survey: &ServerSurvey,
    node: NodeId,
    replica: &NodeLine,
    told: &[NodeLine],
) -> Result<(), Memory>
    requires { node < length survey.now.rows }
    ensures { OnOk result (out.new.items ≡ out.old.items ++ lacks_text survey.now node replica.now told.now) }
{
    for number in 0..SLOTS as u16 {
        put_lack(out, survey, node, replica, told, Slot::of(number))?;
    }
    Ok(())
}

/// Puts that the replica lacks the node's mark of the slot, if it does.
fn put_lack(
    out: &mut Vec<u8>,
    survey: &ServerSurvey,
    node: NodeId,
    replica: &NodeLine,
    told: &[NodeLine],
    slot: Slot,
) -> Result<(), Memory>
    requires { node < length survey.now.rows }
    ensures { OnOk result
        (out.new.items ≡ out.old.items ++ lack_text survey.now node replica.now told.now slot) }
{
    if has_mark(survey, node, slot) && !shows_mark(told, slot) {
        put_lack_line(out, node, replica, slot)
    } else {
        Ok(())
    }
}

/// Puts `127.0.0.1:7005, a replica of n1, has no mark of slot 24`.
fn put_lack_line(
    out: &mut Vec<u8>,
    node: NodeId,
    replica: &NodeLine,
    slot: Slot,
) -> Result<(), Memory>
    ensures { OnOk result (out.new.items ≡ out.old.items ++ lack_line node replica.now slot) }
{
    put_replica(out, node, replica)?;
    put(out, b", has no mark of slot ")?;
    put_number(out, u32::from(slot.get()))?;
    put(out, b"\n")
}

/// Puts `127.0.0.1:7005, a replica of n1, does not tell its marks`.
pub(crate) fn put_silent(out: &mut Vec<u8>, node: NodeId, replica: &NodeLine) -> Result<(), Memory>
    ensures { OnOk result (out.new.items ≡ out.old.items ++ silent_line node replica.now) }
{
    put_replica(out, node, replica)?;
    put(out, b", does not tell its marks\n")
}

/// Puts `n1 does not tell its replicas`.
pub(crate) fn put_untold(out: &mut Vec<u8>, node: NodeId) -> Result<(), Memory>
    ensures { OnOk result (out.new.items ≡ out.old.items ++ untold_line node) }
{
    put_node(out, node)?;
    put(out, b" does not tell its replicas\n")
}

/// Puts `127.0.0.1:7005, a replica of n1`.
fn put_replica(out: &mut Vec<u8>, node: NodeId, replica: &NodeLine) -> Result<(), Memory>
    ensures { OnOk result (out.new.items ≡ out.old.items ++ replica_words node replica.now) }
{
    put(out, replica.host.get())?;
    put(out, b":")?;
    put_number(out, u32::from(replica.port))?;
    put(out, b", a replica of ")?;
    put_node(out, node)
}
