//! How a line of a script is read.
ghost use Rattle.std.specs.Prelude.{◌≡◌, ◌<◌, IfErr, IfOk, map};
ghost use Rattle.byte_texts.specs.Outcomes.{IsAnswered};
ghost use Rattle.script_lines.specs.Faults.{Gives};
ghost use Rattle.script_lines.specs.Forms.{alone, call_form, getkeysinslot_form, line_form, listing_command};
ghost use Rattle.script_lines.specs.Forms.{resume_form, setslot_form, setting_command, setting_form, slot_and_node};
ghost use Rattle.script_lines.specs.Forms.{stable_command, stable_form, stands_stable_at, verb_form, words_form};
ghost use Rattle.cluster_admin.specs.Commands.{IsCommand};
ghost use Rattle.script_lines.specs.Lines.{IsLine};
ghost use Rattle.script_lines.specs.Words.{words};
ghost use Rattle.script_lines.specs.declared.fault.Halt.TheVariants.{Memory};

use crate::fault::{Halt, ScriptFault};
use crate::line::Line;
use crate::migration::migrate;
use crate::named::{count_named, node_named, request_named, slot_named};
use crate::setting::{Setting, setting_words};
use crate::verb::Verb;
use crate::words::{is_verb, split_words};
use cluster_admin::AdminCommand;
use key_slots::{NodeId, Slot};
use std::alloc::Global;

impl Line {
    /// The line of these bytes, in a cluster of so many nodes. Of several faults the form's comes first, and then the
    /// leftmost.
    #[tactic(auto, using(crate::proofs::Halting::handed_on))]
    pub fn read(alloc: Global, nodes: u8, line: &[u8]) -> Result<Self, Halt>
        ensures value { Gives (line_form nodes line.now) result }
        ensures well_formed { IfOk result (IsLine nodes) }
        ensures memory { IfErr result (λ h. h ≡ Memory → IsAnswered (words line.now)) }
    {
        let words = split_words(alloc, line)?;
        read_words(alloc, nodes, words.as_slice())
    }
}

fn read_words(alloc: Global, nodes: u8, words: &[&[u8]]) -> Result<Line, Halt>
    ensures value { Gives (words_form nodes (map (λ w. w.now) words.now)) result }
    ensures well_formed { IfOk result (IsLine nodes) }
{
    let Some((word, rest)) = words.split_first() else {
        return Err(Halt::Fault(ScriptFault::Verb));
    };
    match Verb::read(alloc, word)? {
        Some(verb) => read_form(alloc, nodes, verb, rest),
        None => Err(Halt::Fault(ScriptFault::Verb)),
    }
}

/// What stands after a verb.
fn read_form(alloc: Global, nodes: u8, verb: Verb, words: &[&[u8]]) -> Result<Line, Halt>
    ensures value { Gives (verb_form nodes verb (map (λ w. w.now) words.now)) result }
    ensures well_formed { IfOk result (IsLine nodes) }
{
    match verb {
        Verb::At => call(alloc, nodes, words, false),
        Verb::Asking => call(alloc, nodes, words, true),
        Verb::SetSlot => setslot(alloc, nodes, words),
        Verb::GetKeysInSlot => getkeysinslot(alloc, nodes, words),
        Verb::Migrate => migrate(alloc, nodes, words),
        Verb::Step => alone(words, Line::Step),
        Verb::Run => alone(words, Line::Run),
        Verb::Honest => alone(words, Line::Honest),
        Verb::Abandon => alone(words, Line::Abandon),
        Verb::Resume => resume(alloc, nodes, words),
    }
}

/// A line of one word, after which nothing stands.
fn alone(words: &[&[u8]], line: Line) -> Result<Line, Halt>
    ensures value { Gives (alone line (map (λ w. w.now) words.now)) result }
    ensures line { IfOk result (λ l. l ≡ line) }
{
    if words.is_empty() {
        Ok(line)
    } else {
        Err(Halt::Fault(ScriptFault::Verb))
    }
}

/// The words after `resume`: `by B`.
fn resume(alloc: Global, nodes: u8, words: &[&[u8]]) -> Result<Line, Halt>
    ensures value { Gives (resume_form (map (λ w. w.now) words.now)) result }
    ensures well_formed { IfOk result (IsLine nodes) }
{
    let [by, batch] = words else {
        return Err(Halt::Fault(ScriptFault::Verb));
    };
    if !is_verb(alloc, by, b"by")? {
        return Err(Halt::Fault(ScriptFault::Verb));
    }
    let batch = count_named(alloc, batch)?;
    Ok(Line::Resume { batch })
}

/// The words after `at` or `asking`: a node and a request.
#[tactic(auto, using(crate::proofs::Halting::handed_on))]
fn call(alloc: Global, nodes: u8, words: &[&[u8]], asking: bool) -> Result<Line, Halt>
    ensures value { Gives (call_form nodes asking (map (λ w. w.now) words.now)) result }
    ensures well_formed { IfOk result (IsLine nodes) }
{
    let [node, words @ ..] = words else {
        return Err(Halt::Fault(ScriptFault::Verb));
    };
    if words.is_empty() {
        return Err(Halt::Fault(ScriptFault::Verb));
    }
    let node = node_named(alloc, node, nodes)?;
    let request = request_named(alloc, words)?;
    Ok(Line::Call {
        node,
        asking,
        request,
    })
}

/// The words after `setslot`: four where it takes marks away, five where it sets a mark or an owner.
fn setslot(alloc: Global, nodes: u8, words: &[&[u8]]) -> Result<Line, Halt>
    ensures value { Gives (setslot_form nodes (map (λ w. w.now) words.now)) result }
    ensures well_formed { IfOk result (IsLine nodes) }
{
    if words.len() == 4 {
        stable(alloc, nodes, words)
    } else {
        setting(alloc, nodes, words)
    }
}

/// `SLOT stable at nI`.
fn stable(alloc: Global, nodes: u8, words: &[&[u8]]) -> Result<Line, Halt>
    ensures value { Gives (stable_form nodes (map (λ w. w.now) words.now)) result }
    ensures well_formed { IfOk result (IsLine nodes) }
{
    let [slot, kind, at, node] = words else {
        return Err(Halt::Fault(ScriptFault::Verb));
    };
    let command = stable_command(alloc, slot, kind, at)?;
    let node = node_named(alloc, node, nodes)?;
    Ok(Line::Admin { node, command })
}

/// `SLOT importing nS at nI`, `SLOT migrating nT at nI` or `SLOT node nO at nI`.
fn setting(alloc: Global, nodes: u8, words: &[&[u8]]) -> Result<Line, Halt>
    ensures value { Gives (setting_form nodes (map (λ w. w.now) words.now)) result }
    ensures well_formed { IfOk result (IsLine nodes) }
{
    let [slot, kind, other, at, node] = words else {
        return Err(Halt::Fault(ScriptFault::Verb));
    };
    let command = setting_command(alloc, slot, kind, other, at)?;
    let node = node_named(alloc, node, nodes)?;
    Ok(Line::Admin { node, command })
}

/// The command of a `setslot` line that takes both marks away. The fixed words are looked at first.
fn stable_command(alloc: Global, slot: &[u8], kind: &[u8], at: &[u8]) -> Result<AdminCommand, Halt>
    ensures value { Gives (stable_command slot.now kind.now at.now) result }
    ensures well_formed { IfOk result IsCommand }
{
    if !stands_stable_at(alloc, kind, at)? {
        return Err(Halt::Fault(ScriptFault::Verb));
    }
    let slot = slot_named(alloc, slot)?;
    Ok(AdminCommand::Stable(slot))
}

fn stands_stable_at(alloc: Global, kind: &[u8], at: &[u8]) -> Result<bool, Halt>
    ensures { Gives (Ok (stands_stable_at kind.now at.now)) result }
{
    if is_verb(alloc, kind, b"stable")? {
        is_verb(alloc, at, b"at")
    } else {
        Ok(false)
    }
}

/// The command of a `setslot` line without the node that it goes to. The fixed words are looked at first.
fn setting_command(
    alloc: Global,
    slot: &[u8],
    kind: &[u8],
    other: &[u8],
    at: &[u8],
) -> Result<AdminCommand, Halt>
    ensures value { Gives (setting_command slot.now kind.now other.now at.now) result }
    ensures well_formed { IfOk result IsCommand }
{
    let setting = setting_words(alloc, kind, at)?;
    let (slot, other) = slot_and_node(alloc, slot, other)?;
    Ok(match setting {
        Setting::Importing => AdminCommand::Importing(slot, other),
        Setting::Migrating => AdminCommand::Migrating(slot, other),
        Setting::Node => AdminCommand::SetNode(slot, other),
    })
}

/// The source, target or owner may be any of eight nodes: that the cluster has it not is the node's own refusal.
fn slot_and_node(alloc: Global, slot: &[u8], other: &[u8]) -> Result<(Slot, NodeId), Halt>
    ensures { Gives (slot_and_node slot.now other.now) result }
{
    let slot = slot_named(alloc, slot)?;
    let other = node_named(alloc, other, 8)?;
    Ok((slot, other))
}

/// The words after `getkeysinslot`: `SLOT COUNT at nI`.
fn getkeysinslot(alloc: Global, nodes: u8, words: &[&[u8]]) -> Result<Line, Halt>
    ensures value { Gives (getkeysinslot_form nodes (map (λ w. w.now) words.now)) result }
    ensures well_formed { IfOk result (IsLine nodes) }
{
    let [slot, count, at, node] = words else {
        return Err(Halt::Fault(ScriptFault::Verb));
    };
    if !is_verb(alloc, at, b"at")? {
        return Err(Halt::Fault(ScriptFault::Verb));
    }
    let command = listing_command(alloc, slot, count)?;
    let node = node_named(alloc, node, nodes)?;
    Ok(Line::Admin { node, command })
}

fn listing_command(alloc: Global, slot: &[u8], count: &[u8]) -> Result<AdminCommand, Halt>
    ensures value { Gives (listing_command slot.now count.now) result }
    ensures well_formed { IfOk result IsCommand }
{
    let slot = slot_named(alloc, slot)?;
    let count = count_named(alloc, count)?;
    Ok(AdminCommand::KeysIn(slot, count))
}
