//! The parts of a word between separators, one after another.

ghost use Rattle.std.specs.Prelude.{◌≡◌, ℕ, ◌≤◌, ◌==◌, length};
ghost use Rattle.script_lang.specs.Words.{parts_of, first_of, end_of};
ghost use Rattle.script_lang.specs.Reading.{front_len, word_with_rest, behind, parts_left};

use crate::refusal::Why;
use std::marker::Model;

/// Returns the length of the first part in bytes.
fn part_len(bytes: &[u8], separator: u8) -> usize
    ensures value { result ≡ front_len (λ b. b == separator) bytes.now }
    ensures within { result ≤ length bytes.now }
{
    for (i, byte) in bytes.iter().enumerate() {
        if *byte == separator {
            return i;
        }
    }
    bytes.len()
}

/// Returns what follows the separator at the front, or `None` at the end of the text.
#[tactic(auto, unfolding(crate::specs::Words::parts_of))]
fn behind(bytes: &[u8]) -> Option<&[u8]>
    ensures { (separator : ℕ) → parts_left separator result ≡ behind (λ b. b == separator) bytes.now }
{
    match bytes {
        [_, rest @ ..] => Some(rest),
        [] => None,
    }
}

/// The parts of a word that are left, which contracts see as a list.
#[derive(Drop)]
pub struct Fields<'a> {
    rest: Option<&'a [u8]>,
    separator: u8,
}

impl<'a> Model for Fields<'a> {
    ghost use Rattle.std.specs.Prelude.{List, ℕ};
    ghost use Rattle.script_lang.specs.Reading.{parts_left};

    ghost Value = { List (List ℕ) };

    ghost view = { λ f. parts_left f.separator f.rest };
}

impl<'a> Fields<'a> {
    /// Returns all parts of a word.
    pub fn of(word: &'a [u8], separator: u8) -> Fields<'a>
        ensures { result ≡ parts_of separator word.now }
    {
        Fields {
            rest: Some(word),
            separator,
        }
    }

    /// Takes the next part.
    pub fn first(&mut self, why: Why) -> Result<&'a [u8], Why>
        ensures { word_with_rest result self.new ≡ first_of self.old why }
    {
        let Some(bytes) = self.rest else {
            return Err(why);
        };
        let (part, rest) = bytes.split_at(part_len(bytes, self.separator));
        self.rest = behind(rest);
        Ok(part)
    }

    /// Returns whether no part is left.
    pub fn end(&self, why: Why) -> Result<(), Why>
        ensures { result ≡ end_of self.now why }
    {
        match self.rest {
            None => Ok(()),
            Some(_) => Err(why),
        }
    }
}
