//! Reading decimal numbers.

ghost use Rattle.std.specs.Prelude.{◌≡◌, ◌-◌, ◌<◌, ◌≤◌, ◌^◌, min, IfOk};
ghost use Rattle.std.specs.List.{list_all};
ghost use Rattle.script_lang.specs.Words.{is_digit, is_number, value_of, number_in, signed_in};

use crate::refusal::Why;
use crate::words::is;

/// Returns whether a byte is a decimal digit.
pub fn is_digit(byte: u8) -> bool
    ensures { result ≡ is_digit byte }
{
    48 <= byte && byte <= 57
}

fn all_digits(word: &[u8]) -> bool
    ensures { result ≡ list_all is_digit word.now }
{
    word.iter().all(|byte| is_digit(*byte))
}

/// Returns whether a word is one or more decimal digits.
#[tactic(auto, unfolding(crate::specs::Words::is_number))]
fn is_number(word: &[u8]) -> bool
    ensures { result ≡ is_number word.now }
{
    !word.is_empty() && all_digits(word)
}

/// Returns the number that the digits spell, or the greatest `u64` if it overflows.
fn value_of(digits: &[u8]) -> u64
    ensures { result ≡ min (value_of 0 digits.now) (2 ^ 64 - 1) }
{
    let mut number: u64 = 0;
    for digit in digits {
        number = number
            .saturating_mul(10)
            .saturating_add((*digit).saturating_sub(48) as u64);
    }
    number
}

/// Reads a number from `low` to `high`.
#[tactic(auto, unfolding(crate::specs::Words::number_in))]
pub fn number(word: &[u8], low: u64, high: u64, why: Why) -> Result<u64, Why>
    requires { high < 2 ^ 64 - 1 }
    ensures value { result ≡ number_in low high word.now why }
    ensures within { IfOk result (λ n. (low ≤ n) × (n ≤ high)) }
{
    if !is_number(word) {
        return Err(why);
    }
    let number = value_of(word);
    if number < low || number > high {
        return Err(why);
    }
    Ok(number)
}

/// Reads a number from 0 to `high`, or a negative one from `-below` to -1.
#[tactic(auto, unfolding(crate::specs::Words::signed_in))]
pub fn signed(word: &[u8], below: u64, high: u64, why: Why) -> Result<i64, Why>
    requires { high < 2 ^ 63 }
    ensures { result ≡ signed_in below high word.now why }
{
    if below >= 1 && is(word, "-1") {
        return Ok(-1);
    }
    if below >= 2 && is(word, "-2") {
        return Ok(-2);
    }
    Ok(number(word, 0, high, why)? as i64)
}
