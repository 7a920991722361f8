//! The text that keeps a line, both directions. The module Text of specs/ has its grammar.

ghost use Rattle.std.specs.Prelude.{◌≡◌, ◌≤◌, ◌<◌, ◌^◌, ◌++◌, ◌∷◌, [], ◌↔◌, OnOk, IfOk, IsTrue, string_bytes};
ghost use Rattle.epoch_line.specs.Line.{IsLine};
ghost use Rattle.tier_base.specs.Number.{ReadsFront};
ghost use Rattle.epoch_line.specs.Text.{entry_line, entry_text, text_of, ReadsHead, ReadsText};

use crate::entries::may_follow;
use crate::line::Line;
use crate::refusal::TextRefusal;
use std::alloc::{AllocError, Global};
use std::fmt::Write;
use tier_base::{OFFSET_LIMIT, number};

/// Epochs are below 2^31.
const LAST_EPOCH: u64 = (1 << 31) - 1;
/// As many entries as there are epochs.
const MOST_ENTRIES: u64 = 1 << 31;

impl Line {
    /// The text of this line. Fails only if memory runs out.
    pub fn to_text(&self, alloc: Global) -> Result<Vec<u8>, AllocError>
        ensures { IfOk result (λ text. text.items ≡ text_of self.now) }
    {
        let entries = self.entries();
        let count = entries.len();
        let mut text = String::new(alloc);
        write!(text, "0\n{count}\n")?;
        for entry in entries {
            push_entry(&mut text, *entry)?;
        }
        Ok(text.into_bytes())
    }

    /// The line of a text. `TextRefusal` has the causes of a failure.
    pub fn from_text(alloc: Global, bytes: &[u8]) -> Result<Line, TextRefusal>
        ensures { ReadsText bytes.now result }
    {
        let (count, behind) = head(bytes)?;
        let mut line = Line::new(alloc);
        let mut rest = behind;
        for number in 0..count {
            let Some((entry, behind)) = entry_behind(&line, rest) else {
                return Err(TextRefusal::BadText { line: number + 3 });
            };
            match line.add(entry) {
                Ok(()) => {}
                Err(_) => return Err(TextRefusal::NoMemory),
            }
            rest = behind;
        }
        if !rest.is_empty() {
            return Err(TextRefusal::BadText { line: count + 3 });
        }
        Ok(line)
    }
}

/// Writes the line of an entry.
fn push_entry(text: &mut String, entry: (u32, u64)) -> Result<(), AllocError>
    ensures { OnOk result (string_bytes text.new ≡ string_bytes text.old ++ entry_line entry) }
{
    let (epoch, start) = entry;
    write!(text, "{epoch} {start}\n")
}

/// The count of the first two lines, and what follows them.
fn head(bytes: &[u8]) -> Result<(u32, &[u8]), TextRefusal>
    ensures { ReadsHead bytes.now result }
{
    let Some((_, rest)) = number(bytes, 0, b'\n') else {
        return Err(TextRefusal::BadText { line: 1 });
    };
    let Some((count, rest)) = number(rest, MOST_ENTRIES, b'\n') else {
        return Err(TextRefusal::BadText { line: 2 });
    };
    Ok((count as u32, rest))
}

/// The entry at the front, and what follows it.
fn entry(bytes: &[u8]) -> Option<((u32, u64), &[u8])>
    ensures { ReadsFront (λ e. (e.0 < 2 ^ 31) × (e.1 ≤ 2 ^ 62)) entry_text bytes.now result }
{
    let Some((epoch, rest)) = number(bytes, LAST_EPOCH, b' ') else {
        return None;
    };
    let Some((start, rest)) = number(rest, OFFSET_LIMIT, b'\n') else {
        return None;
    };
    Some(((epoch as u32, start), rest))
}

/// The entry at the front, where it may follow on this line.
fn entry_behind<'a>(line: &Line, bytes: &'a [u8]) -> Option<((u32, u64), &'a [u8])>
    ensures { ReadsFront (λ e. IsLine (line.now ++ e ∷ [])) entry_text bytes.now result }
{
    let Some((entry, rest)) = entry(bytes) else {
        return None;
    };
    if may_follow(line.entries(), entry) {
        Some((entry, rest))
    } else {
        None
    }
}
