//! Decimal numbers at the front of a text, in their one spelling: no sign and no leading zero.

ghost use Rattle.std.specs.Prelude.{◌≡◌, ◌-◌, ◌<◌, ◌≤◌, ◌^◌, min, length, false};
ghost use Rattle.std.specs.Char.{is_ascii_digit};
ghost use Rattle.tier_base.specs.Number.{digits_len, is_shortest, value_of, ReadsFront, number_text};

/// How many digits are at the front.
fn count_digits(bytes: &[u8]) -> usize
    ensures value { result ≡ digits_len bytes.now }
    ensures within { result ≤ length bytes.now }
{
    for (i, byte) in bytes.iter().enumerate() {
        if !byte.is_ascii_digit() {
            return i;
        }
    }
    bytes.len()
}

/// Whether these digits are the spelling of a number.
fn is_shortest(digits: &[u8]) -> bool
    ensures { result ≡ is_shortest digits.now }
{
    match digits {
        [] => false,
        [_] => true,
        [first, ..] => *first != b'0',
    }
}

/// The number of these digits, or the greatest of the type.
fn value(digits: &[u8]) -> u64
    ensures { result ≡ min (value_of 0 digits.now) (2 ^ 64 - 1) }
{
    let mut number: u64 = 0;
    for digit in digits {
        number = number
            .saturating_mul(10)
            .saturating_add((*digit).saturating_sub(b'0') as u64);
    }
    number
}

/// The number at the front, up to the byte that ends it, and what follows.
pub fn number(bytes: &[u8], high: u64, end: u8) -> Option<(u64, &[u8])>
    requires high { high < 2 ^ 64 - 1 }
    requires end { is_ascii_digit end ≡ false }
    ensures { ReadsFront (λ n. n ≤ high) (number_text end) bytes.now result }
{
    let (digits, rest) = bytes.split_at(count_digits(bytes));
    let Some((first, behind)) = rest.split_first() else {
        return None;
    };
    if *first != end {
        return None;
    }
    if !is_shortest(digits) {
        return None;
    }
    let number = value(digits);
    if number > high {
        return None;
    }
    Some((number, behind))
}
