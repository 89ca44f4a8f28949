ghost use Rattle.std.specs.Prelude.{◌≡◌, ◌+◌, ◌*◌, ◌<◌, ◌^◌, ◌∷◌, [], IfSome};
ghost use Rattle.cluster_survey.specs.Addresses.{ipv4_in, ipv4_of, part_in, place_of};

use byte_texts::{Parts, number_in};
use server_commands::Server;

/// A number from 0 to 255.
fn part_in(word: &[u8]) -> Option<u32>
    ensures value { result ≡ part_in word.now }
    ensures within { IfSome result (λ n. n < 256) }
{
    number_in(word, 0, 255)
}

/// The 32 bits of the address `A.B.C.D`.
pub fn ipv4_in(text: &[u8]) -> Option<u32>
    ensures value { result ≡ ipv4_in text.now }
    ensures within { IfSome result (λ n. n < 2 ^ 32) }
{
    let mut parts = Parts::of(text, b'.');
    let first = parts.next()?;
    let second = parts.next()?;
    let third = parts.next()?;
    let fourth = parts.next()?;
    if parts.is_empty() {
        joined(first, second, third, fourth)
    } else {
        None
    }
}

/// The 32 bits of these four numbers.
fn joined(first: &[u8], second: &[u8], third: &[u8], fourth: &[u8]) -> Option<u32>
    ensures value { result ≡ ipv4_of (first.now ∷ (second.now ∷ (third.now ∷ (fourth.now ∷ [])))) }
    ensures within { IfSome result (λ n. n < 2 ^ 32) }
{
    let first = part_in(first)?;
    let second = part_in(second)?;
    let third = part_in(third)?;
    let fourth = part_in(fourth)?;
    Some(((first * 256 + second) * 256 + third) * 256 + fourth)
}

/// The place of the server among others, by its address and then its port, if it has an address of IPv4.
pub(crate) fn place_of(server: &Server) -> Option<u64>
    ensures { result ≡ place_of server.now }
{
    let address = ipv4_in(server.host.get())?;
    Some(place_at(address, server.port))
}

fn place_at(address: u32, port: u16) -> u64
    ensures { result ≡ address * 65536 + port }
{
    u64::from(address) * 65_536 + u64::from(port)
}
