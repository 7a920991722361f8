//! The text of an explanation.

ghost use Rattle.std.specs.Prelude.{ℕ, ◌≢◌, ◌<◌, List, IfOk, string_bytes};
ghost use Rattle.script_lang.specs.declared.refusal.Why.{Why};
ghost use Rattle.script_help.specs.Places.{IsPartOf, IsWordStart};
ghost use Rattle.script_help.specs.Shown.{Explains, IsEnded};

use crate::causes::{cause, section};
use crate::line::{heads, line_at};
use crate::place::{TextPlace, counts_of, find_place};
use crate::shown::write_shown;
use crate::wanted::{Wanted, ask};
use crate::words::COMMANDS;
use script_lang::Why;
use std::alloc::{AllocError, Global};
use std::fmt::Write;

/// What would be right, one thing after another.
fn things(alloc: Global, wanted: &Wanted) -> Result<Vec<String>, AllocError> {
    let mut things = Vec::new(alloc);
    for word in wanted.words.as_slice() {
        things.push(String::from_str(alloc, word)?)?;
    }
    if let Some(numbers) = &wanted.numbers {
        let (low, high) = (numbers.low.as_str(), numbers.high.as_str());
        things.push(if low == high {
            format!(in alloc; "the number {low}")?
        } else {
            format!(in alloc; "a number from {low} to {high}")?
        })?;
    }
    if wanted.is_record {
        things.push(String::from_str(alloc, "a record such as 1000,:key,:value")?)?;
    }
    if wanted.is_hex {
        things.push(String::from_str(alloc, "hexadecimal digits, two a byte")?)?;
    }
    if wanted.may_end {
        things.push(String::from_str(alloc, "the end of the line")?)?;
    }
    Ok(things)
}

/// Whether there are several words, and each is a command.
fn are_commands(words: &[&'static str]) -> bool {
    1 < words.len() && words.iter().all(|word| COMMANDS.contains(word))
}

/// What precedes the first thing.
fn lead(wanted: &Wanted) -> &'static str {
    if are_commands(wanted.words.as_slice()) {
        "expected a command, one of "
    } else {
        "expected "
    }
}

/// What precedes the i-th of so many things, where there are things before it.
fn between(i: usize, count: usize) -> &'static str
    requires { i < count }
{
    if i + 1 == count { " or " } else { ", " }
}

/// Writes what would be right, if anything is known.
fn write_wanted(alloc: Global, out: &mut String, wanted: &Wanted) -> Result<(), AllocError> {
    let things = things(alloc, wanted)?;
    for (i, thing) in things.as_slice().iter().enumerate() {
        let before = if i == 0 {
            lead(wanted)
        } else {
            between(i, things.len())
        };
        out.push_str(before)?;
        out.push_str(thing.as_str())?;
    }
    if !things.is_empty() {
        out.push('\n')?;
    }
    Ok(())
}

/// What would be right at the place of a cause. Of a cause that isn't one of the line's words nothing is asked.
fn wanted_at(
    alloc: Global,
    counts: &[u8],
    place: &TextPlace,
    why: Why,
) -> Result<Wanted, AllocError> {
    if !matches!(why, Why::Word | Why::Number | Why::Field | Why::Hex) {
        return Ok(Wanted::nothing(alloc));
    }
    let mut script = Vec::from_slice(alloc, counts)?;
    script.extend_from_slice(place.head)?;
    let mut wanted = ask(alloc, script.as_slice())?;
    if place.head.is_empty() {
        // An empty line is valid, but nobody needs to know that.
        wanted.may_end = false;
    }
    Ok(wanted)
}

/// The cause, what would be right, and where to read of it, a line each.
fn told(alloc: Global, cause: &str, wanted: &Wanted, section: &str) -> Result<String, AllocError>
    ensures { IfOk result (λ text. IsEnded (string_bytes text)) }
{
    let mut text = String::from_str(alloc, cause)?;
    text.push('\n')?;
    write_wanted(alloc, &mut text, wanted)?;
    write!(text, "see docs/SCRIPT.md, \"{section}\"")?;
    text.push('\n')?;
    Ok(text)
}

/// A line with a caret under a column, and a text after them.
fn joined(alloc: Global, text: &[u8], column: usize, told: &str) -> Result<String, AllocError>
    requires { IsEnded told.now }
    ensures { (script : List ℕ) (why : Why) → IsPartOf text.now script
        → (why ≢ Why.NotText → IsWordStart text.now column)
        → IfOk result (λ out. Explains script why (string_bytes out)) }
{
    let mut out = String::new(alloc);
    write_shown(&mut out, text, column)?;
    out.push_str(told)?;
    Ok(out)
}

/// Explains why the line of this number is the first of a script that is invalid: the line, a caret under the word that
/// is wrong, the cause, what would be right there, and where to read of it.
pub fn explanation(alloc: Global, script: &[u8], line: u32, why: Why) -> Result<String, AllocError>
    ensures { IfOk result (λ out. Explains script.now why (string_bytes out)) }
{
    let (before, text) = line_at(script, line);
    let counts = counts_of(alloc, before)?;
    let place = find_place(alloc, counts.as_slice(), text, why)?;
    let wanted = wanted_at(alloc, counts.as_slice(), &place, why)?;
    let heads = heads(alloc, place.head)?;
    let cause = cause(why, place.is_there, wanted.is_end());
    let section = section(why, text, heads.as_slice());
    let told = told(alloc, cause, &wanted, section)?;
    joined(alloc, text, place.column, told.as_str())
}
