//! The words of a line, separated by single spaces.

ghost use Rattle.std.specs.Prelude.{◌≡◌, ◌≤◌, ◌==◌, ℕ, length, bytes_eq};
ghost use Rattle.std.specs.List.{slice_split};
ghost use Rattle.trace_text.specs.Steps.{front_len, words_left, with_left, is_done, words_behind};

use std::marker::Model;

/// The words that are left of a line.
#[derive(Drop)]
pub struct Words<'a> {
    rest: Option<&'a [u8]>,
}

impl<'a> Model for Words<'a> {
    ghost use Rattle.std.specs.Prelude.{List, ℕ};
    ghost use Rattle.trace_text.specs.Steps.{words_left};

    ghost Value = { List (List ℕ) };

    ghost view = { λ words. words_left words.rest };
}

impl<'a> Words<'a> {
    /// Returns all words of a line.
    pub fn of(line: &'a [u8]) -> Words<'a>
        ensures { result ≡ slice_split (λ b. b == 32) line.now }
    {
        Words { rest: Some(line) }
    }

    /// Takes the next word.
    pub fn first(&mut self) -> Option<&'a [u8]>
        ensures { self.old ≡ with_left result self.new }
    {
        let Some(text) = self.rest else {
            return None;
        };
        let (word, rest) = text.split_at(front_len(text, b' '));
        self.rest = behind(rest);
        Some(word)
    }

    /// Returns whether no word is left.
    pub fn is_done(&self) -> bool
        ensures { result ≡ is_done self.now }
    {
        match self.rest {
            None => true,
            Some(_) => false,
        }
    }
}

/// Returns whether a word is this one.
pub fn is(word: &[u8], text: &str) -> bool
    ensures { result ≡ bytes_eq word.now text.now }
{
    word == text.as_bytes()
}

/// Returns the number of bytes before the first byte `end`, or of all bytes if there is none.
pub fn front_len(text: &[u8], end: u8) -> usize
    ensures value { result ≡ front_len (λ b. b == end) text.now }
    ensures within { result ≤ length text.now }
{
    for (i, byte) in text.iter().enumerate() {
        if *byte == end {
            return i;
        }
    }
    text.len()
}

/// Returns what follows the first byte, a space, or `None` at the end of the line.
fn behind(text: &[u8]) -> Option<&[u8]>
    ensures { words_left result ≡ words_behind text.now }
{
    match text {
        [_, rest @ ..] => Some(rest),
        [] => None,
    }
}
