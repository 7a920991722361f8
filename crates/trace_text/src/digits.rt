//! Bytes as text, 64 at a time.
//!
//! A vector has 64 bytes. Its higher and its lower halves become digits side by side, and the two vectors of digits are
//! woven into 128 characters. What is left after the last 64 bytes is written a digit at a time.

ghost use Rattle.std.specs.Prelude.{◌≡◌, ◌++◌, ◌/◌, ◌%◌, OnOk, length, map};
ghost use Rattle.hex.specs.Hex.{encode_lower};
ghost use Rattle.trace_text.specs.Letters.{letter};

use std::alloc::AllocError;
use std::simd::prelude::*;

/// How many bytes a vector has.
const LANES: usize = 64;

/// The sixteen digits.
const DIGITS: &[u8; 16] = b"0123456789abcdef";

/// The higher half of each byte.
#[inline(always)]
fn uppers(bytes: u8x64) -> u8x64
    requires { length bytes ≡ LANES }
    ensures { result ≡ map (λ b. b / 16) bytes }
{
    bytes >> u8x64::splat(4)
}

/// The lower half of each byte.
#[inline(always)]
fn lowers(bytes: u8x64) -> u8x64
    requires { length bytes ≡ LANES }
    ensures { result ≡ map (λ b. b % 16) bytes }
{
    bytes & u8x64::splat(15)
}

/// The digit of each number.
#[inline(always)]
fn letters(numbers: u8x64) -> u8x64
    requires { length numbers ≡ LANES }
    ensures { result ≡ map letter numbers }
{
    let above = numbers.simd_gt(u8x64::splat(9));
    numbers + above.select(u8x64::splat(87), u8x64::splat(48))
}

/// The digits of 64 bytes: those of the first half, and those of the second.
#[inline(always)]
fn digits(bytes: &[u8]) -> (u8x64, u8x64)
    requires { length bytes.now ≡ LANES }
    ensures { result.0 ++ result.1 ≡ encode_lower bytes.now }
{
    let bytes = u8x64::from_slice(bytes);
    letters(uppers(bytes)).interleave(letters(lowers(bytes)))
}

/// Appends 64 bytes to a text, each as two digits.
#[inline(always)]
fn push_lanes(text: &mut Vec<u8>, bytes: &[u8]) -> Result<(), AllocError>
    requires { length bytes.now ≡ LANES }
    ensures { OnOk result (text.new.items ≡ text.old.items ++ encode_lower bytes.now) }
{
    let (front, behind) = digits(bytes);
    text.extend_from_slice(front.as_array())?;
    text.extend_from_slice(behind.as_array())
}

/// Appends bytes to a text, each as two digits.
pub fn push_hex(text: &mut Vec<u8>, bytes: &[u8]) -> Result<(), AllocError>
    ensures { OnOk result (text.new.items ≡ text.old.items ++ encode_lower bytes.now) }
{
    let mut rest = bytes;
    while rest.len() >= LANES {
        let (front, behind) = rest.split_at(LANES);
        push_lanes(text, front)?;
        rest = behind;
    }
    push_digits(text, rest)
}

/// Appends bytes to a text, a digit at a time.
#[tactic(auto, unfolding(hex::specs::Hex::encode_with))]
fn push_digits(text: &mut Vec<u8>, bytes: &[u8]) -> Result<(), AllocError>
    ensures { OnOk result (text.new.items ≡ text.old.items ++ encode_lower bytes.now) }
{
    for byte in bytes {
        text.push(DIGITS[(*byte / 16) as usize])?;
        text.push(DIGITS[(*byte % 16) as usize])?;
    }
    Ok(())
}
