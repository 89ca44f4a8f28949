//! Lines of scripts.
ghost use Rattle.std.specs.Prelude.{IfOk};
ghost use Rattle.script_lines.specs.Lines.{IsLine};

use script_lines::{Halt, Line};
use std::alloc::Global;

/// The line of these bytes, in a cluster of two nodes.
pub fn line_of_two(alloc: Global, line: &[u8]) -> Result<Line, Halt>
    ensures { IfOk result (IsLine 2) }
{
    Line::read(alloc, 2, line)
}
