//! What a reply tells of its command, read without taking memory.
ghost use Rattle.std.specs.Prelude.{◌≡◌, ◌≢◌, ℕ, ◌+◌, ◌<◌, ◌≤◌, ◌++◌, ◌∷◌, MatchOption, IfSome, position, nat_eq};
ghost use Rattle.std.specs.Prelude.{length};
ghost use Rattle.std.specs.Fmt.{decimal};
ghost use Rattle.resp2_wire.specs.declared.reply.Reply.TheVariants.{Error};
ghost use Rattle.cluster_node.specs.Redirections.{address};
ghost use Rattle.redirect_client.specs.Redirects.{Means};

use crate::meaning::{Meaning, Redirect};
use byte_texts::number_in;
use key_slots::{NodeId, Slot};
use resp2_wire::Reply;

/// The one text of TRYAGAIN.
const TRY_AGAIN: &[u8] = b"TRYAGAIN Multiple keys request during rehashing of slot";

/// What the reply to a command of the slot tells, in a cluster of so many nodes, the first of which has this port.
pub(crate) fn meaning_of(reply: &Reply, base_port: u16, nodes: u8, slot: Slot) -> Meaning
    requires port { base_port ≤ 65528 }
    requires some { 1 ≤ nodes }
    requires most { nodes ≤ 255 }
    ensures { Means base_port nodes slot reply.now result }
{
    match reply {
        Reply::Error(text) => meaning_of_error(text.get(), base_port, nodes, slot),
        _ => Meaning::Answer,
    }
}

/// What the text of an error tells.
fn meaning_of_error(text: &[u8], base_port: u16, nodes: u8, slot: Slot) -> Meaning
    requires port { base_port ≤ 65528 }
    requires some { 1 ≤ nodes }
    requires most { nodes ≤ 255 }
    ensures { Means base_port nodes slot (Error text.now) result }
{
    if let Some(place) = text.strip_prefix(b"MOVED ") {
        return match node_at(place, base_port, nodes, slot) {
            Some(owner) => Meaning::Redirected(Redirect::Moved(owner)),
            None => Meaning::Bad,
        };
    }
    if let Some(place) = text.strip_prefix(b"ASK ") {
        return match node_at(place, base_port, nodes, slot) {
            Some(target) => Meaning::Redirected(Redirect::Ask(target)),
            None => Meaning::Bad,
        };
    }
    if text == TRY_AGAIN {
        Meaning::Redirected(Redirect::TryAgain)
    } else {
        Meaning::Answer
    }
}

/// The node that the text names, where it is this slot, a blank and the node's address.
fn node_at(place: &[u8], base_port: u16, nodes: u8, slot: Slot) -> Option<NodeId>
    requires port { base_port ≤ 65528 }
    requires some { 1 ≤ nodes }
    requires most { nodes ≤ 255 }
    ensures { MatchOption result
        ((n : ℕ) → n < nodes → place.now ≢ decimal slot ++ 32 ∷ address base_port n)
        (λ n. (n < nodes) × (place.now ≡ decimal slot ++ 32 ∷ address base_port n)) }
{
    let number = slot.get();
    let at = first_blank(place)?;
    let named = Slot::parse(&place[..at])?;
    if named.get() != number {
        return None;
    }
    node_of_address(&place[at + 1..], base_port, nodes)
}

fn first_blank(text: &[u8]) -> Option<usize>
    ensures place { result ≡ position (λ b. nat_eq b 32) text.now }
    ensures within { IfSome result (λ i. i < length text.now) }
{
    text.iter().position(|byte| *byte == b' ')
}

/// The node that has this address.
fn node_of_address(text: &[u8], base_port: u16, nodes: u8) -> Option<NodeId>
    requires port { base_port ≤ 65528 }
    requires some { 1 ≤ nodes }
    requires most { nodes ≤ 255 }
    ensures { MatchOption result ((n : ℕ) → n < nodes → text.now ≢ address base_port n)
        (λ n. (n < nodes) × (text.now ≡ address base_port n)) }
{
    let first = u32::from(base_port);
    let port = number_in(
        text.strip_prefix(b"127.0.0.1:")?,
        first,
        first + u32::from(nodes) - 1,
    )?;
    Some(NodeId::of((port - first) as u8))
}
