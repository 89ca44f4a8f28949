//! What is printed of a master below its line: its number of keys, and its replicas.
ghost use Rattle.std.specs.Prelude.{◌≡◌, ◌++◌, OnOk};
ghost use Rattle.survey_texts.specs.Details.{keys_line, replica_line, replica_lines, untold_replicas};

use crate::putting::{put, put_long_number, put_number};
use byte_texts::Memory;
use listed_nodes::NodeLine;

/// Puts how many keys a master has: `  keys 1234`; or `  keys unknown`, if it does not tell that.
pub fn put_keys_line(out: &mut Vec<u8>, keys: Option<u64>) -> Result<(), Memory>
    ensures { OnOk result (out.new.items ≡ out.old.items ++ keys_line keys) }
{
    put(out, b"  keys ")?;
    match keys {
        Some(keys) => put_long_number(out, keys)?,
        None => put(out, b"unknown")?,
    }
    put(out, b"\n")
}

/// Puts a line for each of a master's replicas: `  127.0.0.1:7003 ID replica`.
pub fn put_replica_lines(out: &mut Vec<u8>, replicas: &[NodeLine]) -> Result<(), Memory>
    ensures { OnOk result (out.new.items ≡ out.old.items ++ replica_lines replicas.now) }
{
    for replica in replicas {
        put_replica_line(out, replica)?;
    }
    Ok(())
}

fn put_replica_line(out: &mut Vec<u8>, replica: &NodeLine) -> Result<(), Memory>
    ensures { OnOk result (out.new.items ≡ out.old.items ++ replica_line replica.now) }
{
    put(out, b"  ")?;
    put(out, replica.host.get())?;
    put(out, b":")?;
    put_number(out, u32::from(replica.port))?;
    put(out, b" ")?;
    put(out, replica.name.get())?;
    put(out, b" replica\n")
}

/// Puts `  replicas unknown`, of a master that does not tell its replicas.
pub fn put_untold_replicas(out: &mut Vec<u8>) -> Result<(), Memory>
    ensures { OnOk result (out.new.items ≡ out.old.items ++ untold_replicas) }
{
    put(out, b"  replicas unknown\n")
}
