ghost use Rattle.std.specs.Prelude.{◌≡◌, ◌↔◌, IsTrue, ◌<◌, ◌≤◌, ℕ, List, [], ◌∷◌, ◌++◌, IfOk, length, drop, OnOk};
ghost use Rattle.std.specs.Prelude.{OnErr, IfSome, IfNone};
ghost use Rattle.std.specs.Bool.{OnTrue};
ghost use Rattle.resp2_wire.specs.Reading.{request_at};
ghost use Rattle.resp2_wire.specs.Stream.{Words, Skips, Next, NoEmptyFirst, Gave};

use crate::fault::{Stop, WireFault};
use crate::passing::fault_told;
use crate::progress::Progress;
use crate::reading::{after_byte, count_at, first_digit_of};
use crate::request::Request;
use bytes::BytesMut;
use std::alloc::Global;
use std::marker::Model;
use std::mem;

/// Requests out of a stream that comes in pieces.
///
/// Contracts see the bytes that were fed and not given yet; these never begin with an empty request, since those are
/// passed over. A request lies in memory at most twice until it is given: as its bytes, and as the words read so far.
/// No byte of a word is looked at twice, so the time is linear in the bytes however they are cut.
#[derive(Drop)]
pub struct Decoder {
    alloc: Global,
    buffer: BytesMut,
    progress: Progress,
}

impl Model for Decoder {
    ghost use Rattle.std.specs.Prelude.{ℕ, List};
    ghost use Rattle.resp2_wire.specs.Progress.{Follows};

    ghost Value = { List ℕ };

    ghost view = { λ d. d.buffer.items };

    ghost invariant = { λ d. Follows d.progress d.buffer.items };
}

/// Whether the first digit alone shows that no empty request stands at the beginning.
fn begins_counted(bytes: &[u8]) -> bool
    ensures { OnTrue result (NoEmptyFirst bytes.now) }
{
    match after_byte(bytes, b'*', WireFault::NotArray) {
        Ok(rest) => first_digit_of(rest).is_some(),
        Err(_) => false,
    }
}

/// How long the empty request is that stands at the beginning.
fn empty_length(bytes: &[u8]) -> Option<usize>
    ensures some { IfSome result
        (λ n. (0 < n) × (n ≤ length bytes.now) × (request_at bytes.now ≡ Ok ([], drop n bytes.now))) }
    ensures none { IfNone result (NoEmptyFirst bytes.now) }
{
    if begins_counted(bytes) {
        return None;
    }
    match count_at(bytes) {
        Ok((count, rest)) => {
            if count != 0 {
                return None;
            }
            Some(bytes.len() - rest.len())
        }
        Err(_) => None,
    }
}

/// Takes the empty requests off the beginning.
fn skip_empty(buffer: &mut BytesMut)
    ensures skips { Skips buffer.old.items buffer.new.items }
    ensures first { NoEmptyFirst buffer.new.items }
{
    while let Some(length) = empty_length(buffer.as_slice()) {
        buffer.advance(length);
    }
}

impl Decoder {
    /// A decoder at the beginning of a stream, which takes no memory yet.
    pub fn new(alloc: Global) -> Decoder
        ensures { result ≡ [] }
    {
        Decoder {
            alloc,
            buffer: BytesMut::new(alloc),
            progress: Progress {
                count: 0,
                words: Vec::new(alloc),
                at: 0,
            },
        }
    }

    /// Whether nothing is fed that was not given.
    pub fn is_empty(&self) -> bool
        ensures { IsTrue result ↔ (self.now ≡ []) }
    {
        self.buffer.is_empty()
    }

    /// WireExact: takes the next piece of the stream, of any length. It reports no fault but `Memory`, which changes
    /// nothing.
    pub fn feed(&mut self, piece: &[u8]) -> Result<(), WireFault>
        ensures ok { OnOk result (Skips (self.old ++ piece.now) self.new) }
        // The stream is longer by the piece.
        ensures fed { OnOk result ((stream : List ℕ) (given : List Words) →
            Gave stream given self.old → Gave (stream ++ piece.now) given self.new) }
        ensures err { OnErr result (self.new ≡ self.old) }
        // What is not taken stands after the rest.
        ensures refused { (stream : List ℕ) (given : List Words) →
            Gave stream given self.old → Gave (stream ++ piece.now) given (self.old ++ piece.now) }
        ensures memory { OnErr result (result ≡ Err WireFault.Memory) }
    {
        self.buffer.extend_from_slice(piece)?;
        if self.progress.count > 0 {
            return Ok(());
        }
        skip_empty(&mut self.buffer);
        Ok(())
    }

    /// WireExact: the next request that is not empty: 1 to 1,024 words. `None` means that the stream has to go on.
    ///
    /// A fault of the stream stays at its beginning, so it is reported ever after. `Memory` changes nothing, and the
    /// call may be made again; it comes in the place of no fault.
    pub fn next(&mut self) -> Result<Option<Request>, WireFault>
        ensures next { Next self.old result self.new }
        ensures less { IfOk result (λ found. IfSome found (λ r. length self.new < length self.old)) }
        // One request more is given.
        ensures given { IfOk result (λ found. IfSome found (λ r. (stream : List ℕ) (given : List Words) →
            Gave stream given self.old → Gave stream (given ++ r ∷ []) self.new)) }
    {
        match self.progress.read_on(self.alloc, self.buffer.as_slice()) {
            Ok(()) => {
                let words = mem::replace(&mut self.progress.words, Vec::new(self.alloc));
                self.buffer.advance(self.progress.at);
                self.progress.at = 0;
                self.progress.count = 0;
                skip_empty(&mut self.buffer);
                Ok(Some(Request::from_vec(words)))
            }
            Err(Stop::Unfinished) => Ok(None),
            Err(Stop::Fault(fault)) => Err(fault_told(self.buffer.as_slice(), fault)),
        }
    }
}
