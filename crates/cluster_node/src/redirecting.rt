ghost use Rattle.std.specs.Prelude.{◌≡◌, ◌≢◌, ◌+◌, ◌<◌, ◌≤◌, List, [], ◌∷◌, ◌++◌, IfOk, codes, map, length};
ghost use Rattle.std.specs.Fmt.{decimal};
ghost use Rattle.std.specs.String.{string_bytes};
ghost use Rattle.cluster_node.specs.Redirections.{redirection, slots_reply, range_tree, address, id_of, place};
ghost use Rattle.cluster_node.specs.Redirections.{redirect_to};
ghost use Rattle.cluster_node.specs.Nodes.{is_serve};
ghost use Rattle.resp2_wire.specs.View.{trees, tree};
ghost use Rattle.resp2_wire.specs.declared.reply.Reply.TheVariants as reply;

use byte_texts::Text;
use key_slots::{NodeId, Slot, SlotRange};
use resp2_wire::{Reply, ReplyList};
use slot_marks::Verdict;
use std::alloc::{AllocError, Global};

/// The reply to a command of this slot by the verdict on it, where that is not to serve.
#[tactic(auto, unfolding(crate::specs::Redirections::redirection))]
pub fn redirection_reply(
    alloc: Global,
    base_port: u16,
    slot: Slot,
    verdict: Verdict,
) -> Result<Reply, AllocError>
    requires port { base_port ≤ 65528 }
    ensures { IfOk result (λ r. r ≡ redirection base_port slot verdict) }
{
    match verdict {
        Verdict::Serve => Ok(Reply::Error(Text::empty(alloc))),
        Verdict::Moved(owner) => redirect_to(alloc, b"MOVED", base_port, slot, owner),
        Verdict::Ask(target) => redirect_to(alloc, b"ASK", base_port, slot, target),
        Verdict::TryAgain => error(
            alloc,
            b"TRYAGAIN Multiple keys request during rehashing of slot",
        ),
        Verdict::CrossSlot => error(
            alloc,
            b"CROSSSLOT Keys in request don't hash to the same slot",
        ),
    }
}

fn error(alloc: Global, text: &[u8]) -> Result<Reply, AllocError>
    requires { length text.now ≤ 1024 }
    ensures { IfOk result (λ r. r ≡ reply.Error text.now) }
{
    Ok(Reply::Error(Text::from_slice(alloc, text)?))
}

fn redirect_to(
    alloc: Global,
    word: &[u8],
    base_port: u16,
    slot: Slot,
    node: NodeId,
) -> Result<Reply, AllocError>
    requires word { length word.now ≤ 1024 }
    requires port { base_port ≤ 65528 }
    ensures { IfOk result (λ r. r ≡ redirect_to word.now base_port slot node) }
{
    Ok(Reply::Error(redirection_text(alloc, word, base_port, slot, node)?))
}

/// The text of the error that sends a client with a command of this slot to the node for that one command. The first
/// node's port is at most 65,528.
pub fn ask_text(alloc: Global, base_port: u16, slot: Slot, node: NodeId) -> Result<Text, AllocError>
    requires { base_port ≤ 65528 }
    ensures { IfOk result (λ t. t ≡ codes "ASK" ++ place base_port slot node) }
{
    redirection_text(alloc, b"ASK", base_port, slot, node)
}

/// The word, the slot and the node's address, separated by spaces.
fn redirection_text(
    alloc: Global,
    word: &[u8],
    base_port: u16,
    slot: Slot,
    node: NodeId,
) -> Result<Text, AllocError>
    requires word { length word.now ≤ 1024 }
    requires port { base_port ≤ 65528 }
    ensures { IfOk result (λ t. t ≡ word.now ++ place base_port slot node) }
{
    let place = place_text(alloc, base_port, slot, node)?;
    let mut text = Text::from_slice(alloc, word)?;
    text.append(place.as_bytes())?;
    Ok(text)
}

/// The slot and the node's address, each after a space.
fn place_text(alloc: Global, base_port: u16, slot: Slot, node: NodeId) -> Result<String, AllocError>
    requires { base_port ≤ 65528 }
    ensures value { IfOk result (λ t. string_bytes t ≡ place base_port slot node) }
    ensures short { length (place base_port slot node) ≤ 1024 }
{
    let number = slot.get();
    let port = u32::from(base_port) + u32::from(node.get());
    format!(in alloc; " {number} 127.0.0.1:{port}")
}
