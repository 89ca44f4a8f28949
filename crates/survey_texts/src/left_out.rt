//! Masters that a survey leaves out.
ghost use Rattle.std.specs.Prelude.{◌≡◌, ◌++◌, OnOk};
ghost use Rattle.survey_texts.specs.Texts.{left_out_line, left_out_lines};

use crate::putting::{put, put_server};
use byte_texts::Memory;
use server_commands::Server;

/// Puts a line for each of these servers: `left out 127.0.0.1:7002 ID: it failed and has no slots`.
pub fn put_left_out(out: &mut Vec<u8>, servers: &[Server]) -> Result<(), Memory>
    ensures { OnOk result (out.new.items ≡ out.old.items ++ left_out_lines servers.now) }
{
    for server in servers {
        put_line(out, server)?;
    }
    Ok(())
}

fn put_line(out: &mut Vec<u8>, server: &Server) -> Result<(), Memory>
    ensures { OnOk result (out.new.items ≡ out.old.items ++ left_out_line server.now) }
{
    put(out, b"left out ")?;
    put_server(out, server)?;
    put(out, b": it failed and has no slots\n")
}
