//! The commands that close a slot, as they are printed.
ghost use Rattle.std.specs.Prelude.{◌≡◌, ◌≤◌, ◌++◌, ◌&&◌, ◌==◌, not, [], ◌∷◌, cond, codes, decimal, OnOk};
ghost use Rattle.plan_language.specs.Lines.{others};
ghost use Rattle.plan_language.specs.Texts.{command_text};
ghost use Rattle.plan_language.specs.declared.plan_command.PlanCommand.TheVariants as planned;
ghost use Rattle.plan_semantics.specs.Plans.{tell};
ghost use Rattle.server_phases.specs.Texts.{closing, joined_text, more_text, rest_text};

use crate::server_phase::ServerPhase;
use byte_texts::Memory;
use key_slots::{NodeId, Slot};
use plan_language::PlanCommand;
use survey_texts::{put, put_number};

/// How many keys a MIGRATE of a rest moves at most, as long as nobody asks for another number.
pub const REST_BATCH: u16 = 10;

/// Puts the line of the commands that close the slot, which is in this phase, if there are any.
pub(crate) fn put_rest(
    out: &mut Vec<u8>,
    nodes: u8,
    slot: Slot,
    phase: &ServerPhase,
) -> Result<(), Memory>
    requires { nodes ≤ 255 }
    ensures { OnOk result (out.new.items ≡ out.old.items ++ rest_text slot (closing nodes slot phase.now)) }
{
    match *phase {
        ServerPhase::Importing { target, .. } => put_taking_back(out, slot, target),
        ServerPhase::Migrating { source, target } => put_drain(out, nodes, slot, source, target),
        ServerPhase::Told { source, target } => put_telling(out, nodes, slot, source, target),
        _ => Ok(()),
    }
}

/// Puts the line's beginning.
fn put_head(out: &mut Vec<u8>, slot: Slot) -> Result<(), Memory>
    ensures { OnOk result (out.new.items ≡ out.old.items ++ (codes "rest of slot " ++ (decimal slot ++ codes ": "))) }
{
    put(out, b"rest of slot ")?;
    put_number(out, u32::from(slot.get()))?;
    put(out, b": ")
}

/// The target takes its mark back.
fn put_taking_back(out: &mut Vec<u8>, slot: Slot, target: NodeId) -> Result<(), Memory>
    ensures { OnOk result (out.new.items ≡ out.old.items ++ rest_text slot (planned.Stable slot target ∷ [])) }
{
    put_head(out, slot)?;
    put_command(out, &PlanCommand::Stable { slot, at: target })?;
    put(out, b"\n")
}

/// The keys go to the target, and then all nodes are told.
fn put_drain(
    out: &mut Vec<u8>,
    nodes: u8,
    slot: Slot,
    source: NodeId,
    target: NodeId,
) -> Result<(), Memory>
    requires { nodes ≤ 255 }
    ensures { OnOk result (out.new.items ≡ out.old.items ++ rest_text slot (planned.Drain slot source target 10
        ∷ planned.SetNode slot target target ∷ planned.SetNode slot target source
        ∷ tell slot target (others nodes source target))) }
{
    put_head(out, slot)?;
    put_moving(out, slot, source, target)?;
    put_others(out, nodes, slot, source, target)?;
    put(out, b"\n")
}

/// The first three commands of these.
fn put_moving(out: &mut Vec<u8>, slot: Slot, source: NodeId, target: NodeId) -> Result<(), Memory>
    ensures { OnOk result (out.new.items ≡ out.old.items ++ joined_text (planned.Drain slot source target 10
        ∷ planned.SetNode slot target target ∷ planned.SetNode slot target source ∷ [])) }
{
    let batch = REST_BATCH;
    put_command(
        out,
        &PlanCommand::Drain {
            slot,
            source,
            target,
            batch,
        },
    )?;
    put_node_told(out, slot, target, target)?;
    put_node_told(out, slot, target, source)
}

/// The source is told, and then the others.
fn put_telling(
    out: &mut Vec<u8>,
    nodes: u8,
    slot: Slot,
    source: NodeId,
    target: NodeId,
) -> Result<(), Memory>
    requires { nodes ≤ 255 }
    ensures { OnOk result (out.new.items ≡ out.old.items ++ rest_text slot (planned.SetNode slot target source
        ∷ tell slot target (others nodes source target))) }
{
    put_head(out, slot)?;
    let (owner, at) = (target, source);
    put_command(out, &PlanCommand::SetNode { slot, owner, at })?;
    put_others(out, nodes, slot, source, target)?;
    put(out, b"\n")
}

/// The nodes that are neither the source nor the target are told, ascending.
fn put_others(
    out: &mut Vec<u8>,
    nodes: u8,
    slot: Slot,
    source: NodeId,
    target: NodeId,
) -> Result<(), Memory>
    requires { nodes ≤ 255 }
    ensures { OnOk result (out.new.items ≡ out.old.items ++ more_text (tell slot target (others nodes source target))) }
{
    for number in 0..nodes {
        let node = NodeId::of(number);
        put_told_if(is_other(node, source, target), out, slot, target, node)?;
    }
    Ok(())
}

/// Whether the node is neither of the two.
fn is_other(node: NodeId, source: NodeId, target: NodeId) -> bool
    ensures { result ≡ (not (node == source) && not (node == target)) }
{
    node != source && node != target
}

/// The node is told the slot's owner, where it is to be told.
fn put_told_if(
    tells: bool,
    out: &mut Vec<u8>,
    slot: Slot,
    owner: NodeId,
    at: NodeId,
) -> Result<(), Memory>
    ensures { OnOk result
        (out.new.items ≡ out.old.items ++ more_text (cond tells (planned.SetNode slot owner at ∷ []) [])) }
{
    if tells {
        put_node_told(out, slot, owner, at)
    } else {
        Ok(())
    }
}

/// The node is told the slot's owner, after other commands.
fn put_node_told(out: &mut Vec<u8>, slot: Slot, owner: NodeId, at: NodeId) -> Result<(), Memory>
    ensures { OnOk result (out.new.items ≡ out.old.items ++ more_text (planned.SetNode slot owner at ∷ [])) }
{
    put(out, b" / ")?;
    put_command(out, &PlanCommand::SetNode { slot, owner, at })
}

/// Puts the command as plans have it.
fn put_command(out: &mut Vec<u8>, command: &PlanCommand) -> Result<(), Memory>
    ensures { OnOk result (out.new.items ≡ out.old.items ++ command_text command.now) }
{
    let mut text = String::new(*out.allocator());
    write!(text, "{command}")?;
    put(out, text.as_bytes())
}
