//! Asking the parser whether a line can continue with a word.

ghost use Rattle.std.specs.Prelude.{◌≡◌, ◌++◌, true, IfOk, IfSome};
ghost use Rattle.script_help.specs.Asked.{is_later_cause, HasWords, CanBeCompleted, then_word};

use crate::words::TAILS;
use script_lang::{ScriptRefusal, Why, parse};
use std::alloc::{AllocError, Global};

/// Whether a cause is none of a line's bytes or words.
fn is_later_cause(why: Why) -> bool
    ensures { result ≡ is_later_cause why }
{
    !matches!(
        why,
        Why::NotText | Why::Word | Why::Number | Why::Field | Why::Hex
    )
}

/// What the reader says of the words of a script's lines.
#[derive(Clone, Copy, PartialEq, Eq)]
enum Answer {
    /// They are valid.
    Read,
    /// A word is unknown, missing, or one too many: a further one may be what is missing.
    Word,
    /// A word or a byte that is there is invalid, or none was asked for, of 2^31 bytes and more.
    Never,
}

/// Asks the reader for the words of a script's lines.
fn ask_reader(alloc: Global, script: &[u8]) -> Result<Answer, AllocError>
    ensures { IfOk result (λ answer. answer ≡ Answer.Read → HasWords script.now) }
{
    if script.len() >= 1 << 31 {
        return Ok(Answer::Never);
    }
    match parse(alloc, script) {
        Ok(_) => Ok(Answer::Read),
        Err(ScriptRefusal::Bad { why, .. }) if is_later_cause(why) => Ok(Answer::Read),
        Err(ScriptRefusal::Bad { why: Why::Word, .. }) => Ok(Answer::Word),
        Err(ScriptRefusal::Bad { .. }) => Ok(Answer::Never),
        Err(ScriptRefusal::NoMemory) => Err(AllocError),
    }
}

/// Whether the words of a script's lines are valid. Of 2^31 bytes and more that isn't reported.
pub fn has_words(alloc: Global, script: &[u8]) -> Result<bool, AllocError>
    ensures { IfOk result (λ yes. yes ≡ true → HasWords script.now) }
{
    match ask_reader(alloc, script)? {
        Answer::Read => Ok(true),
        _ => Ok(false),
    }
}

/// A text with another one after it.
pub fn with_text(alloc: Global, head: &[u8], text: &str) -> Result<Vec<u8>, AllocError>
    ensures { IfOk result (λ all. all.items ≡ head.now ++ text.now) }
{
    let mut all = Vec::from_slice(alloc, head)?;
    all.extend_from_slice(text.as_bytes())?;
    Ok(all)
}

/// A text with a word after it.
pub fn with_word(alloc: Global, head: &[u8], word: &str) -> Result<Vec<u8>, AllocError>
    ensures { IfOk result (λ all. all.items ≡ then_word head.now word.now) }
{
    let mut all = with_text(alloc, head, " ")?;
    all.extend_from_slice(word.as_bytes())?;
    Ok(all)
}

/// One of the tails by which the last line of a script continues to one that is valid, if there is one.
pub fn find_tail(alloc: Global, head: &[u8]) -> Result<Option<&'static str>, AllocError>
    ensures { IfOk result (λ found. IfSome found (λ tail. HasWords (head.now ++ tail.now))) }
{
    for tail in &TAILS {
        let script = with_text(alloc, head, tail)?;
        match ask_reader(alloc, script.as_slice())? {
            Answer::Read => return Ok(Some(*tail)),
            // The head itself is invalid, so no tail gives it one.
            Answer::Never if tail.is_empty() => return Ok(None),
            _ => {}
        }
    }
    Ok(None)
}

/// Whether the last line of a script can continue to one that is valid.
pub fn goes_on(alloc: Global, head: &[u8]) -> Result<bool, AllocError>
    ensures { IfOk result (λ yes. yes ≡ true → CanBeCompleted head.now) }
{
    match find_tail(alloc, head)? {
        Some(_) => Ok(true),
        None => Ok(false),
    }
}

/// Whether the last line of a script can continue by a word.
pub fn goes_on_with(alloc: Global, head: &[u8], word: &str) -> Result<bool, AllocError>
    ensures { IfOk result (λ yes. yes ≡ true → CanBeCompleted (then_word head.now word.now)) }
{
    let script = with_word(alloc, head, word)?;
    goes_on(alloc, script.as_slice())
}
