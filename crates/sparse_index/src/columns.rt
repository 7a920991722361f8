//! Columns that grow together, and numbers in their bytes.

ghost use Rattle.std.specs.Prelude.{◌≡◌, [], ◌∷◌, ◌++◌, OnOk, OnErr, length};
ghost use Rattle.std.specs.Int.{w32, w64, to_be_bytes, cast_unsigned};

use std::alloc::AllocError;

/// Adds an item to each of two columns, or to neither.
pub fn push_both<A: Drop, B: Drop>(
    first: &mut Vec<A>,
    second: &mut Vec<B>,
    a: A,
    b: B,
) -> Result<(), AllocError>
    ensures first { OnOk result (first.new.items ≡ first.old.items ++ a ∷ []) }
    ensures second { OnOk result (second.new.items ≡ second.old.items ++ b ∷ []) }
    ensures first_kept { OnErr result (first.new.items ≡ first.old.items) }
    ensures second_kept { OnErr result (second.new.items ≡ second.old.items) }
{
    first.reserve(1)?;
    second.reserve(1)?;
    let _ = first.push(a);
    let _ = second.push(b);
    Ok(())
}

/// The number of four bytes, big endian.
pub fn read_u32(bytes: &[u8]) -> u32
    requires { length bytes.now ≡ 4 }
    ensures { to_be_bytes w32 result ≡ bytes.now }
{
    u32::from_be_bytes([bytes[0], bytes[1], bytes[2], bytes[3]])
}

/// The signed number of eight bytes, big endian.
pub fn read_i64(bytes: &[u8]) -> i64
    requires { length bytes.now ≡ 8 }
    ensures { to_be_bytes w64 (cast_unsigned w64 result) ≡ bytes.now }
{
    i64::from_be_bytes([
        bytes[0], bytes[1], bytes[2], bytes[3], bytes[4], bytes[5], bytes[6], bytes[7],
    ])
}

/// Writes a number as four bytes, big endian.
pub fn push_u32(bytes: &mut Vec<u8>, number: u32) -> Result<(), AllocError>
    ensures { OnOk result (bytes.new.items ≡ bytes.old.items ++ to_be_bytes w32 number) }
{
    bytes.extend_from_slice(number.to_be_bytes().as_slice())
}

/// Writes a signed number as eight bytes, big endian.
pub fn push_i64(bytes: &mut Vec<u8>, number: i64) -> Result<(), AllocError>
    ensures { OnOk result (bytes.new.items ≡ bytes.old.items ++ to_be_bytes w64 (cast_unsigned w64 number)) }
{
    bytes.extend_from_slice(number.to_be_bytes().as_slice())
}
