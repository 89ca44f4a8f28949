//! Why a plan can't continue with the slots that are open.
ghost use Rattle.std.specs.Prelude.{◌≡◌, ◌++◌, IfOk, OnOk};
ghost use Rattle.server_settling.specs.Faults.{text_of as fault_text};
ghost use Rattle.server_settling.specs.OpenStops.{said_text, stop_text, stranded_text, text_of};
ghost use Rattle.server_settling.specs.OpenStops.{uncounted, unsettled, unsettled_text, words_text};

use crate::fault::SettleFault;
use crate::stop::SettleStop;
use crate::stranded::Stranded;
use byte_texts::{Memory, Text};
use key_slots::Slot;
use server_commands::{Credentials, told};
use std::alloc::Global;
use std::fmt::Write;
use survey_texts::{put, put_number};

/// Why a plan can't continue with the slots that are open. What was settled until then stays so.
#[derive(Drop)]
pub enum OpenStop {
    /// Out of memory.
    Memory,
    /// The slot can't be settled.
    Unsettled { slot: Slot, stop: SettleStop },
    /// A target holds keys that nobody finds there.
    Stranded(Stranded),
    /// A target does not tell how many keys it holds.
    Uncounted(SettleStop),
}

impl OpenStop {
    /// What is said of it, with a server's own words as [`told`] tells them where connections show these credentials.
    pub fn text(&self, alloc: Global, login: &Option<Credentials>) -> Result<Vec<u8>, Memory>
        ensures { IfOk result (λ v. v.items ≡ text_of login.now self.now) }
    {
        let mut out = Vec::new(alloc);
        match self {
            OpenStop::Memory => put(&mut out, b"out of memory")?,
            OpenStop::Unsettled { slot, stop } => put_unsettled(&mut out, login, *slot, stop)?,
            OpenStop::Stranded(stranded) => put_stranded(&mut out, stranded)?,
            OpenStop::Uncounted(stop) => put_stop(&mut out, login, stop)?,
        }
        Ok(out)
    }
}

/// Why the slot can't be settled.
pub(crate) fn unsettled(slot: Slot, stop: SettleStop) -> OpenStop
    ensures { result ≡ unsettled slot stop }
{
    match stop.fault {
        SettleFault::Memory => OpenStop::Memory,
        _ => OpenStop::Unsettled { slot, stop },
    }
}

/// Why keys could not be counted.
pub(crate) fn uncounted(stop: SettleStop) -> OpenStop
    ensures { result ≡ uncounted stop }
{
    match stop.fault {
        SettleFault::Memory => OpenStop::Memory,
        _ => OpenStop::Uncounted(stop),
    }
}

/// Puts what is said of a slot that can't be settled.
fn put_unsettled(
    out: &mut Vec<u8>,
    login: &Option<Credentials>,
    slot: Slot,
    stop: &SettleStop,
) -> Result<(), Memory>
    ensures { OnOk result (out.new.items ≡ out.old.items ++ unsettled_text login.now slot stop.now) }
{
    put(out, b"slot ")?;
    put_number(out, u32::from(slot.get()))?;
    put(out, b" can't be settled: ")?;
    put_stop(out, login, stop)
}

/// Puts what is said of keys that nobody finds.
fn put_stranded(out: &mut Vec<u8>, stranded: &Stranded) -> Result<(), Memory>
    ensures { OnOk result (out.new.items ≡ out.old.items ++ stranded_text stranded.now) }
{
    let mut text = String::new(*out.allocator());
    write!(text, "{stranded}")?;
    put(out, text.as_bytes())
}

/// Puts the fault, and then the server's own words, where there are some.
fn put_stop(out: &mut Vec<u8>, login: &Option<Credentials>, stop: &SettleStop) -> Result<(), Memory>
    ensures { OnOk result (out.new.items ≡ out.old.items ++ stop_text login.now stop.now) }
{
    put_fault(out, stop.fault)?;
    put_said(out, login, &stop.said)
}

fn put_fault(out: &mut Vec<u8>, fault: SettleFault) -> Result<(), Memory>
    ensures { OnOk result (out.new.items ≡ out.old.items ++ fault_text fault) }
{
    let mut text = String::new(*out.allocator());
    write!(text, "{fault}")?;
    put(out, text.as_bytes())
}

fn put_said(
    out: &mut Vec<u8>,
    login: &Option<Credentials>,
    said: &Option<Text>,
) -> Result<(), Memory>
    ensures { OnOk result (out.new.items ≡ out.old.items ++ said_text login.now said.now) }
{
    match said {
        Some(text) => put_words(out, login, text.get()),
        None => Ok(()),
    }
}

fn put_words(out: &mut Vec<u8>, login: &Option<Credentials>, words: &[u8]) -> Result<(), Memory>
    ensures { OnOk result (out.new.items ≡ out.old.items ++ words_text login.now words.now) }
{
    put(out, b": ")?;
    let told = told(*out.allocator(), login, words)?;
    put(out, told.as_slice())
}
