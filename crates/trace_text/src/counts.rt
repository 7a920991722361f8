//! Reading the numbers of a line. A number has one valid spelling: decimal, without a leading zero.

ghost use Rattle.std.specs.Prelude.{◌≡◌, ◌≤◌, ◌<◌, ◌-◌, ◌^◌, IfSome};
ghost use Rattle.std.specs.Str.{all_ascii_digits};
ghost use Rattle.tier_base.specs.Number.{is_shortest, value_of};
ghost use Rattle.trace_text.specs.Fields.{up_to, number_in, count_in};

/// Returns whether all bytes are decimal digits.
pub fn all_digits(word: &[u8]) -> bool
    ensures { result ≡ all_ascii_digits word.now }
{
    for byte in word {
        if !byte.is_ascii_digit() {
            return false;
        }
    }
    true
}

/// Returns whether the digits have no leading zero; a single `0` is valid.
fn is_shortest(digits: &[u8]) -> bool
    ensures { result ≡ is_shortest digits.now }
{
    match digits {
        [] => false,
        [_] => true,
        [first, ..] => *first != b'0',
    }
}

/// Returns the number that the digits spell, or `None` if it overflows a `u64`.
pub fn value(digits: &[u8]) -> Option<u64>
    ensures { result ≡ up_to (2 ^ 64 - 1) (value_of 0 digits.now) }
{
    let mut number: u64 = 0;
    for digit in digits {
        let Some(tens) = number.checked_mul(10) else {
            return None;
        };
        let Some(next) = tens.checked_add((*digit).saturating_sub(b'0') as u64) else {
            return None;
        };
        number = next;
    }
    Some(number)
}

/// Reads a number of at most `high`.
#[tactic(auto, unfolding(crate::specs::Fields::number_in))]
pub fn number(word: &[u8], high: u64) -> Option<u64>
    ensures value { result ≡ number_in high word.now }
    ensures within { IfSome result (λ n. n ≤ high) }
{
    if !all_digits(word) {
        return None;
    }
    if !is_shortest(word) {
        return None;
    }
    let Some(number) = value(word) else {
        return None;
    };
    if number <= high { Some(number) } else { None }
}

/// Reads a number of 64 bits.
pub fn count(word: &[u8]) -> Option<u64>
    ensures { result ≡ count_in word.now }
{
    number(word, u64::MAX)
}
