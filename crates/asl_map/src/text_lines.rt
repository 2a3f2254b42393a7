//! The lines of a text.
ghost use Rattle.std.specs.Prelude.{◌≡◌, ◌+◌, ◌^◌, ◌<◌, IfOk};
ghost use Rattle.asl_map.specs.Lines.{line_after, lines_from};

use std::alloc::{AllocError, Global};

/// The line of each byte of a text, and of its end, from 1.
pub fn line_table(alloc: Global, source: &[u8]) -> Result<Vec<usize>, AllocError>
    ensures { IfOk result (λ lines. lines.items ≡ lines_from 1 source.now) }
{
    let mut lines = Vec::new(alloc);
    let mut line = 1;
    for byte in source {
        lines.push(line)?;
        line = line_after(line, *byte);
    }
    lines.push(line)?;
    Ok(lines)
}

/// The line after a byte of a line.
fn line_after(line: usize, byte: u8) -> usize
    requires { line + 1 < 2 ^ 64 }
    ensures { result ≡ line_after line byte }
{
    if byte == b'\n' { line + 1 } else { line }
}
