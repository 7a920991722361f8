//! A line, shown with a caret under one of its columns.

ghost use Rattle.std.specs.Prelude.{◌≡◌, ◌≤◌, ◌+◌, ◌++◌, length, map, replicate, OnOk, string_bytes};
ghost use Rattle.script_help.specs.Shown.{shown_byte, line_shown, IsWindow, ShowsLine};

use std::alloc::AllocError;

/// What stands before a shown line.
const INDENT: &str = "    ";

/// The most bytes of a line that are shown.
const SHOWN: usize = 72;

/// How many bytes stand before the caret at most.
const BEFORE: usize = 48;

/// The byte that is shown for one of a line.
fn shown_byte(byte: u8) -> u8
    ensures value { result ≡ shown_byte byte }
    ensures ascii { result ≤ 126 }
{
    match byte {
        b'\t' => b' ',
        32..=126 => byte,
        _ => b'?',
    }
}

/// The part of a line that is shown, and where the caret stands in it.
fn window(text: &[u8], column: usize) -> (&[u8], usize)
    ensures { IsWindow text.now column result.0.now result.1 }
{
    let from = column.saturating_sub(BEFORE).min(text.len());
    let (_, rest) = text.split_at(from);
    let (part, _) = rest.split_at(rest.len().min(SHOWN));
    (part, column - from)
}

/// Writes a line's bytes as they are shown.
fn write_bytes(out: &mut String, bytes: &[u8]) -> Result<(), AllocError>
    ensures { OnOk result (string_bytes out.new ≡ string_bytes out.old ++ map shown_byte bytes.now) }
{
    for byte in bytes {
        out.push(shown_byte(*byte) as char)?;
    }
    Ok(())
}

/// Writes so many spaces.
fn write_spaces(out: &mut String, count: usize) -> Result<(), AllocError>
    ensures { OnOk result (string_bytes out.new ≡ string_bytes out.old ++ replicate count 32) }
{
    for _ in 0..count {
        out.push(' ')?;
    }
    Ok(())
}

/// Writes a line, and a caret under one of its columns.
pub fn write_shown(out: &mut String, text: &[u8], column: usize) -> Result<(), AllocError>
    ensures { OnOk result (ShowsLine text.now column (string_bytes out.old) (string_bytes out.new)) }
{
    let (part, at) = window(text, column);
    out.push_str(INDENT)?;
    write_bytes(out, part)?;
    out.push_str("\n    ")?;
    write_spaces(out, at)?;
    out.push_str("^\n")
}
