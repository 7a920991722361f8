//! The text of a trace while it is written: words, numbers and bytes are appended.

ghost use Rattle.std.specs.Prelude.{◌≡◌, [], ◌∷◌, ◌++◌, OnOk, IfOk, replicate, decimal};
ghost use Rattle.hex.specs.Hex.{encode_lower};
ghost use Rattle.trace_text.specs.Names.{padded};
ghost use Rattle.trace_text.specs.Trace.{spaced};

use crate::digits::push_hex;
use std::alloc::{AllocError, Global};
use std::fmt::Write;
use std::marker::Model;

/// A text that grows at its end. After a call that was out of memory, part of what it writes may be there.
#[derive(Drop)]
pub struct Page {
    text: Vec<u8>,
    /// The digits of the last number, kept so that a number needs no allocation of its own.
    number: String,
}

impl Model for Page {
    ghost use Rattle.std.specs.Prelude.{List, ℕ};

    ghost Value = { List ℕ };

    ghost view = { λ page. page.text.items };
}

impl Page {
    /// Returns an empty text with room for this many bytes.
    pub fn with_room(alloc: Global, room: usize) -> Result<Page, AllocError>
        ensures { IfOk result (λ page. page ≡ []) }
    {
        Ok(Page {
            text: Vec::with_capacity(alloc, room)?,
            number: String::new(alloc),
        })
    }

    /// Writes a word.
    pub fn word(&mut self, word: &str) -> Result<(), AllocError>
        ensures { OnOk result (self.new ≡ self.old ++ word.now) }
    {
        self.text.extend_from_slice(word.as_bytes())
    }

    /// Writes a space and a word.
    pub fn then_word(&mut self, word: &str) -> Result<(), AllocError>
        ensures { OnOk result (self.new ≡ self.old ++ spaced (word.now ∷ [])) }
    {
        self.word(" ")?;
        self.word(word)
    }

    /// Writes a number in decimal digits.
    pub fn number(&mut self, n: u64) -> Result<(), AllocError>
        ensures { OnOk result (self.new ≡ self.old ++ decimal n) }
    {
        self.number.clear();
        write!(self.number, "{n}")?;
        self.text.extend_from_slice(self.number.as_bytes())
    }

    /// Writes a space and a number.
    pub fn then_number(&mut self, n: u64) -> Result<(), AllocError>
        ensures { OnOk result (self.new ≡ self.old ++ spaced (decimal n ∷ [])) }
    {
        self.word(" ")?;
        self.number(n)
    }

    /// Writes two numbers, each after a space.
    pub fn then_numbers(&mut self, a: u64, b: u64) -> Result<(), AllocError>
        ensures { OnOk result (self.new ≡ self.old ++ spaced (decimal a ∷ decimal b ∷ [])) }
    {
        self.then_number(a)?;
        self.then_number(b)
    }

    /// Writes a number in 20 digits.
    #[tactic(auto, unfolding(crate::specs::Names::padded))]
    pub fn padded_number(&mut self, n: u64) -> Result<(), AllocError>
        ensures { OnOk result (self.new ≡ self.old ++ padded n) }
    {
        self.number.clear();
        write!(self.number, "{n}")?;
        let zeros = 20usize.saturating_sub(self.number.len());
        push_zeros(&mut self.text, zeros)?;
        self.text.extend_from_slice(self.number.as_bytes())
    }

    /// Writes a space, and bytes, each as two digits.
    pub fn then_hex(&mut self, bytes: &[u8]) -> Result<(), AllocError>
        ensures { OnOk result (self.new ≡ self.old ++ spaced (encode_lower bytes.now ∷ [])) }
    {
        self.word(" ")?;
        push_hex(&mut self.text, bytes)
    }

    /// Returns the text. It does not allocate.
    pub fn into_text(self) -> Vec<u8>
        ensures { result.items ≡ self }
    {
        self.text
    }
}

/// Appends this many zeros.
fn push_zeros(text: &mut Vec<u8>, zeros: usize) -> Result<(), AllocError>
    ensures { OnOk result (text.new.items ≡ text.old.items ++ replicate zeros 48) }
{
    for _ in 0..zeros {
        text.push(b'0')?;
    }
    Ok(())
}
