//! What would be right at a place of a line.

ghost use Rattle.std.specs.Prelude.{ℕ, List, All, IfOk};
ghost use Rattle.script_help.specs.Asked.{CanBeCompleted, then_word};
ghost use Rattle.script_help.specs.Wanted.{LeadsOn};

use crate::asking::{goes_on_with, has_words};
use crate::numbers::{Numbers, numbers_at};
use crate::words::{COMMANDS, LINES, OPTIONS, OTHERS};
use std::alloc::{AllocError, Global};

/// The most bytes before a place of which it is asked what would be right there.
const ASKED: usize = 4096;

/// What would be right at a place. Where all is empty, nothing is known.
#[derive(Drop)]
pub struct Wanted {
    pub words: Vec<&'static str>,
    pub numbers: Option<Numbers>,
    pub is_record: bool,
    pub is_hex: bool,
    /// The line may end there.
    pub may_end: bool,
}

impl Wanted {
    ghost use Rattle.script_help.specs.Wanted.{LeadsOn};

    /// Nothing is known.
    pub fn nothing(alloc: Global) -> Wanted
        ensures { (head : List ℕ) → LeadsOn head result }
    {
        Wanted {
            words: Vec::new(alloc),
            numbers: None,
            is_record: false,
            is_hex: false,
            may_end: false,
        }
    }

    /// The line may only end there.
    pub fn is_end(&self) -> bool {
        self.may_end
            && self.words.is_empty()
            && self.numbers.is_none()
            && !self.is_record
            && !self.is_hex
    }
}

/// The words, and those of a table by which a line can continue.
fn with_words(
    alloc: Global,
    words: Vec<&'static str>,
    head: &[u8],
    table: &[&'static str],
) -> Result<Vec<&'static str>, AllocError>
    requires { All (λ word. CanBeCompleted (then_word head.now word.now)) words.items }
    ensures { IfOk result (λ words. All (λ word. CanBeCompleted (then_word head.now word.now)) words.items) }
{
    let mut words = words;
    for word in table {
        if goes_on_with(alloc, head, word)? {
            words.push(*word)?;
        }
    }
    Ok(words)
}

/// Whether a script's bytes so far end with a whole line.
fn ends_line(head: &[u8]) -> bool {
    match head {
        [.., last] => *last == b'\n',
        [] => true,
    }
}

/// The words by which a line can continue. Some are worth asking for only where it begins, the others only after that.
fn words_at(alloc: Global, head: &[u8]) -> Result<Vec<&'static str>, AllocError>
    ensures { IfOk result (λ words. All (λ word. CanBeCompleted (then_word head.now word.now)) words.items) }
{
    let words = Vec::new(alloc);
    if ends_line(head) {
        let words = with_words(alloc, words, head, &OPTIONS)?;
        return with_words(alloc, words, head, &LINES);
    }
    let words = with_words(alloc, words, head, &COMMANDS)?;
    with_words(alloc, words, head, &OTHERS)
}

/// What would be right after a script's bytes so far, whose last line isn't ended: only what leads to a valid line.
pub fn ask(alloc: Global, head: &[u8]) -> Result<Wanted, AllocError>
    ensures { IfOk result (LeadsOn head.now) }
{
    if head.len() > ASKED {
        return Ok(Wanted::nothing(alloc));
    }
    let words = words_at(alloc, head)?;
    let numbers = numbers_at(alloc, head)?;
    let is_record = goes_on_with(alloc, head, "0,-,-")?;
    let is_hex = numbers.is_none() && goes_on_with(alloc, head, "00")?;
    let may_end = has_words(alloc, head)?;
    Ok(Wanted {
        words,
        numbers,
        is_record,
        is_hex,
        may_end,
    })
}
