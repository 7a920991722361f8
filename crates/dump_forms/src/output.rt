//! Standard output, and messages on standard error.

use dump_lines::{Field, LineText, Style, text_of};
use std::io::{self, Write};

/// Prints a line.
pub fn print_line<W: Write>(
    rt: &HostRuntime,
    out: &mut W,
    style: Style,
    line: &[Field],
) -> io::Result<()> {
    let text = text_of(rt.alloc(), style, line)?;
    out.write_all(text.as_bytes())
}

/// Prints a line that was built field by field.
pub fn finish<W: Write>(rt: &HostRuntime, out: &mut W, line: LineText) -> io::Result<()> {
    let text = line.finish(rt.alloc())?;
    out.write_all(text.as_bytes())
}

/// Prints what is wrong with a file, and returns status 1.
pub fn complain(rt: &HostRuntime, name: &str, what: &str) -> io::Result<u8> {
    eprint!(rt; "tier_dump: {name}: {what}\n")?;
    Ok(1)
}
