//! The words of a line, separated by blanks.

ghost use Rattle.std.specs.Prelude.{◌≡◌, ◌-◌, ◌^◌, ◌≤◌, ◌<◌, length, bytes_eq, IfOk};
ghost use Rattle.script_lang.specs.Words.{is_blank, words_of, first_of, end_of, number_first, only_number, only_signed};
ghost use Rattle.script_lang.specs.Reading.{front_len, word_with_rest, with_rest};

use crate::numbers::{number, signed};
use crate::refusal::Why;
use std::marker::Model;

/// Returns whether a word is this one.
pub fn is(word: &[u8], text: &str) -> bool
    ensures { result ≡ bytes_eq word.now text.now }
{
    word == text.as_bytes()
}

fn is_blank(byte: u8) -> bool
    ensures { result ≡ is_blank byte }
{
    byte == b' ' || byte == b'\t'
}

/// Drops the blanks at the front.
fn skip_blanks(bytes: &[u8]) -> &[u8]
    ensures same { words_of result.now ≡ words_of bytes.now }
    ensures word { 0 < length result.now → 0 < front_len is_blank result.now }
{
    for (i, byte) in bytes.iter().enumerate() {
        if !is_blank(*byte) {
            return bytes.split_at(i).1;
        }
    }
    bytes.split_at(bytes.len()).1
}

/// Returns the length of the first word in bytes.
fn word_len(bytes: &[u8]) -> usize
    ensures value { result ≡ front_len is_blank bytes.now }
    ensures within { result ≤ length bytes.now }
{
    for (i, byte) in bytes.iter().enumerate() {
        if is_blank(*byte) {
            return i;
        }
    }
    bytes.len()
}

/// The words of a line that are left, which contracts see as a list.
#[derive(Drop)]
pub struct Words<'a> {
    rest: &'a [u8],
}

impl<'a> Model for Words<'a> {
    ghost use Rattle.std.specs.Prelude.{List, ℕ};
    ghost use Rattle.script_lang.specs.Words.{words_of};

    ghost Value = { List (List ℕ) };

    ghost view = { λ w. words_of w.rest.now };
}

impl<'a> Words<'a> {
    /// Returns all words of a line.
    pub fn of(text: &'a [u8]) -> Words<'a>
        ensures { result ≡ words_of text.now }
    {
        Words { rest: text }
    }

    /// Takes the next word.
    pub fn first(&mut self, why: Why) -> Result<&'a [u8], Why>
        ensures { word_with_rest result self.new ≡ first_of self.old why }
    {
        let rest = skip_blanks(self.rest);
        if rest.is_empty() {
            return Err(why);
        }
        let (word, rest) = rest.split_at(word_len(rest));
        self.rest = rest;
        Ok(word)
    }

    /// Takes the next word, a number.
    #[tactic(auto, unfolding(crate::specs::Words::number_first))]
    pub fn number(&mut self, low: u64, high: u64) -> Result<u64, Why>
        requires { high < 2 ^ 64 - 1 }
        ensures value { with_rest result self.new ≡ number_first low high self.old }
        ensures within { IfOk result (λ n. (low ≤ n) × (n ≤ high)) }
    {
        number(self.first(Why::Word)?, low, high, Why::Number)
    }

    /// Returns whether no word is left.
    pub fn end(&self, why: Why) -> Result<(), Why>
        ensures { result ≡ end_of self.now why }
    {
        let rest = skip_blanks(self.rest);
        if rest.is_empty() { Ok(()) } else { Err(why) }
    }

    /// Reads the only word, a number.
    #[tactic(auto, unfolding(crate::specs::Words::only_number))]
    pub fn only_number(self, low: u64, high: u64) -> Result<u64, Why>
        requires { high < 2 ^ 64 - 1 }
        ensures value { result ≡ only_number low high self.entry }
        ensures within { IfOk result (λ n. (low ≤ n) × (n ≤ high)) }
    {
        let mut words = self;
        let number = words.number(low, high)?;
        words.end(Why::Word)?;
        Ok(number)
    }

    /// Reads the only word, a number that may be as low as `-below`.
    #[tactic(auto, unfolding(crate::specs::Words::only_signed))]
    pub fn only_signed(self, below: u64, high: u64) -> Result<i64, Why>
        requires { high < 2 ^ 63 }
        ensures { result ≡ only_signed below high self.entry }
    {
        let mut words = self;
        let number = signed(words.first(Why::Word)?, below, high, Why::Number)?;
        words.end(Why::Word)?;
        Ok(number)
    }
}
