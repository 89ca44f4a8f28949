//! How much memory a server uses, in KB, MB or GB.
ghost use Rattle.std.specs.Prelude.{◌≡◌, ◌≤◌, ◌+◌, ◌++◌, OnOk, length};
ghost use Rattle.plan_pages.specs.Sizes.{limit_size, size_text, sizes_line, used_line};

use crate::putting::{put, put_number};
use byte_texts::Memory;
use plan_outlines::NodeServer;

const KB: u64 = 1024;

const MB: u64 = 1024 * KB;

const GB: u64 = 1024 * MB;

/// Puts the line of the server's memory, if it tells how much it uses.
pub(crate) fn put_sizes(out: &mut Vec<u8>, server: &NodeServer) -> Result<(), Memory>
    ensures text { OnOk result (out.new.items ≡ out.old.items ++ sizes_line server.now) }
    ensures few { OnOk result (length out.new.items ≤ length out.old.items + 80) }
{
    match server.used_memory {
        Some(used) => put_used(out, used, server.max_memory),
        None => Ok(()),
    }
}

#[tactic(auto, unfolding(crate::specs::Sizes::used_line))]
fn put_used(out: &mut Vec<u8>, used: u64, limit: Option<u64>) -> Result<(), Memory>
    ensures text { OnOk result (out.new.items ≡ out.old.items ++ used_line used limit) }
    ensures few { OnOk result (length out.new.items ≤ length out.old.items + 80) }
{
    put(out, b"     ")?;
    put_size(out, used)?;
    put(out, b" used")?;
    put_limit_size(out, limit)?;
    put(out, b"\n")
}

#[tactic(auto, unfolding(crate::specs::Sizes::limit_size))]
fn put_limit_size(out: &mut Vec<u8>, limit: Option<u64>) -> Result<(), Memory>
    ensures text { OnOk result (out.new.items ≡ out.old.items ++ limit_size limit) }
    ensures few { OnOk result (length out.new.items ≤ length out.old.items + 36) }
{
    match limit {
        None => Ok(()),
        Some(0) => Ok(()),
        Some(limit) => {
            put(out, b" of at most ")?;
            put_size(out, limit)
        }
    }
}

/// Puts so many bytes in the largest unit of which there are ten at least, or else in KB.
#[tactic(auto, unfolding(crate::specs::Sizes::size_text))]
fn put_size(out: &mut Vec<u8>, bytes: u64) -> Result<(), Memory>
    ensures text { OnOk result (out.new.items ≡ out.old.items ++ size_text bytes) }
    ensures few { OnOk result (length out.new.items ≤ length out.old.items + 24) }
{
    if bytes < 10 * MB {
        put_number(out, bytes / KB)?;
        put(out, b" KB")
    } else if bytes < 10 * GB {
        put_number(out, bytes / MB)?;
        put(out, b" MB")
    } else {
        put_number(out, bytes / GB)?;
        put(out, b" GB")
    }
}
