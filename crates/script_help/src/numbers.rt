//! The numbers with which a line can continue. The greatest is found by halving.

ghost use Rattle.std.specs.Prelude.{◌≡◌, ◌++◌, ◌<◌, ◌^◌, true, IfOk, IfSome, decimal, string_bytes};
ghost use Rattle.script_help.specs.Asked.{HasWords, CanBeCompleted, then_word};

use crate::asking::{find_tail, has_words, with_text, with_word};
use std::alloc::{AllocError, Global};

/// Two numbers by which a line can continue, and by which it can where one lies between.
#[derive(Drop)]
pub struct Numbers {
    pub low: String,
    pub high: String,
}

/// The numbers below 1 with which a range may begin.
static LEAST: [&str; 3] = ["-2", "-1", "0"];

/// A number past all ranges.
const BEYOND: u64 = 1 << 63;

/// The decimal digits of a number.
fn spelled(alloc: Global, number: u64) -> Result<String, AllocError>
    ensures { IfOk result (λ word. string_bytes word ≡ decimal number) }
{
    format!(in alloc; "{number}")
}

/// Whether a line continues by a word and this tail.
fn goes_by(alloc: Global, head: &[u8], word: &str, tail: &str) -> Result<bool, AllocError>
    ensures { IfOk result (λ yes. yes ≡ true → HasWords (then_word head.now word.now ++ tail.now)) }
{
    let script = with_word(alloc, head, word)?;
    let script = with_text(alloc, script.as_slice(), tail)?;
    has_words(alloc, script.as_slice())
}

/// The least number by which the line continues, where this is one.
fn least(alloc: Global, head: &[u8], tail: &str, some: u64) -> Result<String, AllocError>
    requires { HasWords (then_word head.now (decimal some) ++ tail.now) }
    ensures { IfOk result (λ low. HasWords (then_word head.now (string_bytes low) ++ tail.now)) }
{
    for word in &LEAST {
        if goes_by(alloc, head, word, tail)? {
            return String::from_str(alloc, word);
        }
    }
    spelled(alloc, some)
}

/// The greatest number by which the line continues, where this is one.
fn greatest(alloc: Global, head: &[u8], tail: &str, some: u64) -> Result<String, AllocError>
    requires within { some < 2 ^ 63 }
    requires goes { HasWords (then_word head.now (decimal some) ++ tail.now) }
    ensures { IfOk result (λ high. HasWords (then_word head.now (string_bytes high) ++ tail.now)) }
{
    let mut good = some;
    let mut bad = BEYOND;
    while bad - good > 1 {
        let middle = good + (bad - good) / 2;
        let word = spelled(alloc, middle)?;
        if goes_by(alloc, head, word.as_str(), tail)? {
            good = middle;
        } else {
            bad = middle;
        }
    }
    spelled(alloc, good)
}

/// The numbers by which a line can continue where this is one, if it is.
fn numbers_round(alloc: Global, head: &[u8], some: u64) -> Result<Option<Numbers>, AllocError>
    requires { some < 2 ^ 63 }
    ensures low { IfOk result (λ found. IfSome found (λ n. CanBeCompleted (then_word head.now (string_bytes n.low)))) }
    ensures high { IfOk result
        (λ found. IfSome found (λ n. CanBeCompleted (then_word head.now (string_bytes n.high)))) }
{
    let word = spelled(alloc, some)?;
    let script = with_word(alloc, head, word.as_str())?;
    let Some(tail) = find_tail(alloc, script.as_slice())? else {
        return Ok(None);
    };
    let low = least(alloc, head, tail, some)?;
    let high = greatest(alloc, head, tail, some)?;
    Ok(Some(Numbers { low, high }))
}

/// The numbers by which a line can continue, if there are some. Each range has one of those that are asked for first.
pub fn numbers_at(alloc: Global, head: &[u8]) -> Result<Option<Numbers>, AllocError>
    ensures low { IfOk result (λ found. IfSome found (λ n. CanBeCompleted (then_word head.now (string_bytes n.low)))) }
    ensures high { IfOk result
        (λ found. IfSome found (λ n. CanBeCompleted (then_word head.now (string_bytes n.high)))) }
{
    if let Some(numbers) = numbers_round(alloc, head, 1)? {
        return Ok(Some(numbers));
    }
    if let Some(numbers) = numbers_round(alloc, head, 0)? {
        return Ok(Some(numbers));
    }
    numbers_round(alloc, head, 100)
}
