ghost use Rattle.std.specs.Prelude.{◌≡◌, ◌∷◌, IfOk, option_map};
ghost use Rattle.listed_nodes.specs.Addresses.{address_in, endpoint_in, endpoint_of, split_last};

use byte_texts::{Memory, Text, number_in, split_once};
use std::alloc::Global;

/// The most bytes of a host.
pub const MAX_HOST: usize = 64;

/// What stands before the last such byte, and what stands after it.
#[tactic(auto, using(crate::proofs::Cutting::cut_at_last))]
fn split_last(text: &[u8], byte: u8) -> Option<(&[u8], &[u8])>
    ensures { option_map (λ p. (p.0.now, p.1.now)) result ≡ split_last byte text.now }
{
    let mut at = text.len();
    while at > 0 {
        at -= 1;
        if text[at] == byte {
            return Some((&text[..at], &text[at + 1..]));
        }
    }
    None
}

/// The host and the port that these texts are.
fn endpoint_of(alloc: Global, host: &[u8], port: &[u8]) -> Result<Option<(Text, u16)>, Memory>
    ensures { IfOk result (λ o. o ≡ endpoint_of host.now port.now) }
{
    if host.len() > MAX_HOST {
        return Ok(None);
    }
    let Some(port) = number_in(port, 0, 65_535) else {
        return Ok(None);
    };
    Ok(Some((Text::from_slice(alloc, host)?, port as u16)))
}

/// The host and the port, between which the last `:` stands.
fn endpoint_in(alloc: Global, text: &[u8]) -> Result<Option<(Text, u16)>, Memory>
    ensures { IfOk result (λ o. o ≡ endpoint_in text.now) }
{
    match split_last(text, b':') {
        Some((host, port)) => endpoint_of(alloc, host, port),
        None => Ok(None),
    }
}

/// The host and the port of an address.
pub(crate) fn address_in(alloc: Global, word: &[u8]) -> Result<Option<(Text, u16)>, Memory>
    ensures { IfOk result (λ o. o ≡ address_in word.now) }
{
    match split_once(word, b'@') {
        Some((endpoint, _bus)) => endpoint_in(alloc, endpoint),
        None => Ok(None),
    }
}
