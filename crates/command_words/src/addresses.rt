//! Addresses of servers in words, with commas between them.
ghost use Rattle.std.specs.Prelude.{◌≡◌, ◌≤◌, List, IfOk, IfSome, MatchOption, length, map};
ghost use Rattle.std.specs.List.{All};
ghost use Rattle.std.specs.Net.Socket.{v4_port};
ghost use Rattle.std.specs.declared.net.socket_addr.SocketAddrV4.{SocketAddrV4};
ghost use Rattle.command_words.specs.Addresses.{AreAddresses, AreWritten, IsAddress};

use byte_texts::part_list;
use std::alloc::{AllocError, Global};
use std::net::SocketAddrV4;

/// How many addresses the words may give.
const MAX_ADDRESSES: usize = 8;

/// The addresses that the text writes with commas between them, where these are one to eight.
pub(crate) fn addresses_in(
    alloc: Global,
    text: &[u8],
) -> Result<Option<Vec<SocketAddrV4>>, AllocError>
    ensures written { IfOk result (λ o. MatchOption o
        ((addresses : List SocketAddrV4) → AreAddresses text.now addresses → ⊥)
        (λ v. AreAddresses text.now v.items)) }
    ensures some { IfOk result (λ o. IfSome o (λ v. 1 ≤ length v.items)) }
    ensures few { IfOk result (λ o. IfSome o (λ v. length v.items ≤ 8)) }
    ensures ports { IfOk result (λ o. IfSome o (λ v. All (λ address. 1 ≤ v4_port address) v.items)) }
{
    let parts = part_list(alloc, text, b',')?;
    let words = parts.as_slice();
    if words.len() > MAX_ADDRESSES {
        return Ok(None);
    }
    each_address(alloc, words)
}

/// The addresses that the words write, where each writes one.
fn each_address(alloc: Global, words: &[&[u8]]) -> Result<Option<Vec<SocketAddrV4>>, AllocError>
    ensures written { IfOk result (λ o. MatchOption o
        ((addresses : List SocketAddrV4) → AreWritten (map (λ w. w.now) words.now) addresses → ⊥)
        (λ v. AreWritten (map (λ w. w.now) words.now) v.items)) }
{
    let mut found = Vec::new(alloc);
    for word in words {
        let Some(address) = address_in(word) else {
            return Ok(None);
        };
        found.push(address)?;
    }
    Ok(Some(found))
}

/// The address that the word writes.
fn address_in(word: &[u8]) -> Option<SocketAddrV4>
    ensures { MatchOption result ((address : SocketAddrV4) → IsAddress word.now address → ⊥) (IsAddress word.now) }
{
    let Ok(address) = SocketAddrV4::parse_ascii(word) else {
        return None;
    };
    if address.port() == 0 {
        None
    } else {
        Some(address)
    }
}
