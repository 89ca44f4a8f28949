//! Words as a shell reads them.
ghost use Rattle.std.specs.Prelude.{◌≡◌, ◌∷◌, ◌++◌, [], OnOk};
ghost use Rattle.cluster_runs.specs.ShellWords.{quoted, quoted_byte};

use byte_texts::Memory;

/// Puts the word at the end, in single quotes, so that a shell takes each of its bytes as it is (POSIX, "Quoting").
pub(crate) fn put_quoted(out: &mut Vec<u8>, word: &[u8]) -> Result<(), Memory>
    ensures { OnOk result (out.new.items ≡ out.old.items ++ 39 ∷ (quoted word.now ++ 39 ∷ [])) }
{
    out.push(b'\'')?;
    put_bytes(out, word)?;
    out.push(b'\'')?;
    Ok(())
}

fn put_bytes(out: &mut Vec<u8>, word: &[u8]) -> Result<(), Memory>
    ensures { OnOk result (out.new.items ≡ out.old.items ++ quoted word.now) }
{
    let mut rest = word;
    while let [byte, others @ ..] = rest {
        put_byte(out, *byte)?;
        rest = others;
    }
    Ok(())
}

/// A quote ends the quoted text, stands after a backslash, and begins it anew.
fn put_byte(out: &mut Vec<u8>, byte: u8) -> Result<(), Memory>
    ensures { OnOk result (out.new.items ≡ out.old.items ++ quoted_byte byte) }
{
    if byte == b'\'' {
        out.extend_from_slice(b"'\\''")?;
    } else {
        out.push(byte)?;
    }
    Ok(())
}
