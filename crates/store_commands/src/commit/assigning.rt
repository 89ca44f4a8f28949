//! Texts that are put at several keys together.
ghost use Rattle.std.specs.Prelude.{◌≡◌, Some, length, OnOk, OnErr, IfOk};
ghost use Rattle.typed_values.specs.declared.value.Value.TheVariants as value;
ghost use Rattle.store_commands.specs.Act.{texts_put};
ghost use Rattle.store_commands.specs.Apply.{put_all};
ghost use Rattle.store_commands.specs.Writes.{last_writes};

use crate::entries::Entries;
use byte_texts::Text;
use client_commands::Assignments;
use std::alloc::{AllocError, Global};
use typed_values::{NamesSeen, Value};

/// Puts each text at its key. Of a key that is named twice the last text stands.
pub(crate) fn assign<E: Entries>(
    alloc: Global,
    entries: &mut E,
    assignments: &Assignments,
) -> Result<(), AllocError>
    ensures ok { OnOk result
        (E.entries entries.new ≡ put_all (E.entries entries.old) assignments.now.0 (texts_put assignments.now.1)) }
    ensures err { OnErr result (E.entries entries.new ≡ E.entries entries.old) }
{
    let writes = writes_of(alloc, assignments.keys(), assignments.values())?;
    entries.write_all(writes)
}

/// The writes of the texts at their keys, each key written once, with its last text.
fn writes_of(
    alloc: Global,
    keys: &[Text],
    values: &[Text],
) -> Result<Vec<(Text, Option<Value>)>, AllocError>
    requires { length keys.now ≡ length values.now }
    ensures { IfOk result (λ writes. writes.items ≡ last_writes keys.now values.now) }
{
    let mut writes = Vec::with_capacity(alloc, keys.len())?;
    let mut seen = NamesSeen::new(alloc);
    // From the last key to the first, so that of a key that is named twice the last text is met first.
    for place in (0..keys.len()).rev() {
        let key = &keys[place];
        if !seen.note(key.get())? {
            writes.push(write_of(alloc, key, &values[place])?)?;
        }
    }
    writes.reverse();
    Ok(writes)
}

fn write_of(alloc: Global, key: &Text, text: &Text) -> Result<(Text, Option<Value>), AllocError>
    ensures { IfOk result (λ write. write ≡ (key.now, Some (value.Text text.now))) }
{
    let value = Value::Text(text.try_copy(alloc)?);
    Ok((key.try_copy(alloc)?, Some(value)))
}
