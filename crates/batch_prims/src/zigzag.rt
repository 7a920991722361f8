//! Signed numbers as unsigned ones: 0, -1, 1, -2 and so on become 0, 1, 2, 3.

ghost use Rattle.std.specs.Prelude.{◌≡◌};
ghost use Rattle.batch_prims.specs.Varint.{from_zigzag, to_zigzag};

/// The number of 32 bits that represents this one.
#[tactic(auto, unfolding(crate::specs::Varint::from_zigzag))]
pub(crate) fn decoded_32(number: u32) -> i32
    ensures { result ≡ from_zigzag number }
{
    if number % 2 == 0 {
        (number / 2) as i32
    } else {
        -((number / 2) as i32) - 1
    }
}

/// The number of 64 bits that represents this one.
#[tactic(auto, unfolding(crate::specs::Varint::from_zigzag))]
pub(crate) fn decoded_64(number: u64) -> i64
    ensures { result ≡ from_zigzag number }
{
    if number % 2 == 0 {
        (number / 2) as i64
    } else {
        -((number / 2) as i64) - 1
    }
}

/// What represents the number.
pub(crate) fn encoded(value: i64) -> u64
    ensures { result ≡ to_zigzag value }
{
    if value >= 0 {
        2 * value as u64
    } else {
        2 * (-(value + 1)) as u64 + 1
    }
}
