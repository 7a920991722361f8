//! Splitting a script into lines, and the text of each.

ghost use Rattle.std.specs.Prelude.{◌≡◌, ◌<◌, ◌≤◌, length, take, drop, IsTrue};
ghost use Rattle.std.specs.List.{list_all};
ghost use Rattle.script_lang.specs.Lines.{text_of, ends_with, is_text_byte, text_in};
ghost use Rattle.script_lang.specs.Reading.{line_len, text_shown};

use crate::refusal::Why;

/// Returns the length of the first line in bytes, including its line feed.
fn first_len(bytes: &[u8]) -> usize
    ensures value { result ≡ line_len bytes.now }
    ensures within { result ≤ length bytes.now }
    ensures some { 0 < length bytes.now → 0 < result }
{
    for (i, byte) in bytes.iter().enumerate() {
        if *byte == b'\n' {
            return i + 1;
        }
    }
    bytes.len()
}

/// Returns the first line and the rest of the script.
pub fn cut_line(bytes: &[u8]) -> (&[u8], &[u8])
    ensures line { result.0.now ≡ take (line_len bytes.now) bytes.now }
    ensures rest { result.1.now ≡ drop (line_len bytes.now) bytes.now }
    ensures shorter { 0 < length bytes.now → length result.1.now < length bytes.now }
{
    bytes.split_at(first_len(bytes))
}

fn ends_with(line: &[u8], end: &[u8]) -> bool
    ensures value { result ≡ ends_with line.now end.now }
    ensures long { IsTrue result → length end.now ≤ length line.now }
{
    end.len() <= line.len() && line.split_at(line.len() - end.len()).1 == end
}

/// Returns a line without its LF or CR LF.
#[tactic(auto, unfolding(crate::specs::Lines::text_of))]
fn before_end(line: &[u8]) -> &[u8]
    ensures { result.now ≡ text_of line.now }
{
    if ends_with(line, b"\r\n".as_slice()) {
        return line.split_at(line.len() - 2).0;
    }
    if ends_with(line, b"\n".as_slice()) {
        return line.split_at(line.len() - 1).0;
    }
    line
}

fn is_text_byte(byte: u8) -> bool
    ensures { result ≡ is_text_byte byte }
{
    byte == b'\t' || (32 <= byte && byte <= 126)
}

fn is_text(bytes: &[u8]) -> bool
    ensures { result ≡ list_all is_text_byte bytes.now }
{
    bytes.iter().all(|byte| is_text_byte(*byte))
}

/// Returns the text of a line. Fails if a byte is not allowed in a script.
pub fn text(line: &[u8]) -> Result<&[u8], Why>
    ensures { text_shown result ≡ text_in line.now }
{
    let text = before_end(line);
    if is_text(text) {
        Ok(text)
    } else {
        Err(Why::NotText)
    }
}
