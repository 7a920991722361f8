//! The words that a command was answered with, in the order of their bytes.

ghost use Rattle.std.specs.Prelude.{◌≡◌, ◌≤◌, length, IfOk, IfSome, OnOk};
ghost use Rattle.load_gen.specs.Summary.{stands_before, with_word, words_of as words_in, count_of};
ghost use Rattle.run_summary.specs.Words.{with_at};

use crate::given::Given;
use std::alloc::{AllocError, Global};
use std::marker::Model;

/// A word.
#[derive(Debug, Drop)]
pub struct Word {
    pub text: &'static str,
}

impl Model for Word {
    ghost use Rattle.std.specs.Prelude.{List, ℕ};

    ghost Value = { List ℕ };

    ghost view = { λ word. word.text.now };
}

/// Whether a word precedes another.
fn is_before(word: &[u8], other: &[u8]) -> bool
    ensures { result ≡ stands_before word.now other.now }
{
    for (i, byte) in other.iter().enumerate() {
        if i >= word.len() {
            return true;
        }
        if word[i] != *byte {
            return word[i] < *byte;
        }
    }
    false
}

/// The place of a word among words in order, where it isn't there yet.
fn place(words: &[Word], word: &str) -> Option<usize>
    ensures within { IfSome result (λ i. i ≤ length words.now) }
    ensures is { with_word word.now words.now ≡ with_at words.now word.now result }
{
    for (i, other) in words.iter().enumerate() {
        if word == other.text {
            return None;
        }
        if is_before(word.as_bytes(), other.text.as_bytes()) {
            return Some(i);
        }
    }
    Some(words.len())
}

/// Puts a word at its place among words in order, where it isn't there yet.
fn put(words: &mut Vec<Word>, word: Word) -> Result<(), AllocError>
    ensures { OnOk result (words.new.items ≡ with_word word words.old.items) }
{
    if let Some(i) = place(words.as_slice(), word.text) {
        words.insert(i, word)?;
    }
    Ok(())
}

/// The words that a command was answered with.
pub fn words_of(alloc: Global, answers: &[Given], command: &str) -> Result<Vec<Word>, AllocError>
    ensures { IfOk result (λ words. words.items ≡ words_in command.now answers.now) }
{
    let mut words = Vec::new(alloc);
    let mut at = answers.len();
    while at > 0 {
        at -= 1;
        let given = &answers[at];
        if given.command == command {
            put(&mut words, Word { text: given.word })?;
        }
    }
    Ok(words)
}

/// Counts how often a command was answered with a word.
pub fn count(answers: &[Given], command: &str, word: &str) -> usize
    ensures { result ≡ count_of command.now word.now answers.now }
{
    let mut count = 0;
    for given in answers {
        if given.command == command && given.word == word {
            count += 1;
        }
    }
    count
}
