//! What is said where servers do not show what they have to.
ghost use Rattle.std.specs.Prelude.{◌≡◌, ◌≤◌, ◌++◌, IfOk, length, map, reverse};
ghost use Rattle.redis_servers.specs.Saying.{node_word};
ghost use Rattle.redis_servers.specs.Unmet.{late_text, no_owner_text, unmet_text};

use crate::duty::Duty;
use crate::hearers::Hearer;
use crate::hearing::unheard_words;
use crate::words::node_words;
use byte_texts::{Memory, Text};
use key_slots::NodeId;
use std::alloc::Global;

const NO_NEWS: &[u8] =
    b" has not heard of the other masters' slots and config epochs after 2 seconds";

const REPLICA: &[u8] =
    b" is no master any more: its shard failed over before the slot was given away";

const DISOWNED: &[u8] = b" does not own the slot that it took over: its shard failed over";

const LOST_WRITES: &[u8] =
    b" is no master any more: writes of the slot that its shard acknowledged since may be lost";

const NO_OWNER: &[u8] = b" has not heard of the slot's owner after 2 seconds";

/// What is said of each of the duties, the last one first. It is made before anything is sent, so that a run that ends
/// says why also where memory has run out.
pub(crate) fn unmet_texts(alloc: Global, duties: &[Duty]) -> Result<Vec<Text>, Memory>
    ensures { IfOk result (λ v. reverse v.items ≡ map unmet_text duties.now) }
{
    let [duty, others @ ..] = duties else {
        return Ok(Vec::new(alloc));
    };
    let mut texts = unmet_texts(alloc, others)?;
    texts.push(unmet_text(alloc, *duty)?)?;
    Ok(texts)
}

fn unmet_text(alloc: Global, duty: Duty) -> Result<Text, Memory>
    ensures { IfOk result (λ t. t ≡ unmet_text duty) }
{
    match duty {
        Duty::KnowsEpoch(source, target) => unheard_words(alloc, source, target),
        Duty::HasNews(target) => text_about(alloc, target, NO_NEWS),
        Duty::IsMaster(source) => text_about(alloc, source, REPLICA),
        Duty::OwnsSlot(target, _) => text_about(alloc, target, DISOWNED),
        Duty::IsStillMaster(source, _) => text_about(alloc, source, LOST_WRITES),
        Duty::ShowsOwner(node, _, _) => no_owner_text(alloc, node),
    }
}

/// What is said of each of the servers that has not heard of a slot's new owner in time, the last one first.
pub(crate) fn late_texts(alloc: Global, hearers: &[Hearer]) -> Result<Vec<Text>, Memory>
    ensures { IfOk result (λ v. reverse v.items ≡ map late_text hearers.now) }
{
    let [hearer, others @ ..] = hearers else {
        return Ok(Vec::new(alloc));
    };
    let mut texts = late_texts(alloc, others)?;
    texts.push(no_owner_text(alloc, hearer.node)?)?;
    Ok(texts)
}

fn no_owner_text(alloc: Global, node: NodeId) -> Result<Text, Memory>
    ensures { IfOk result (λ t. t ≡ no_owner_text node) }
{
    text_about(alloc, node, NO_OWNER)
}

/// The node's name, and these words.
fn text_about(alloc: Global, node: NodeId, words: &[u8]) -> Result<Text, Memory>
    requires { length words.now ≤ 100 }
    ensures { IfOk result (λ t. t ≡ node_word node ++ words.now) }
{
    let mut text = node_words(alloc, node)?;
    text.extend_from_slice(words)?;
    Ok(Text::from_vec(text))
}
