//! CRC-32C sixteen bytes a step, by sixteen tables.
//!
//! A step is linear over xor, so each byte's share of the register is looked up by itself, in the table for as many
//! bytes as follow it in the step. The register goes in with the first eight bytes, its own share being theirs. No
//! lookup waits for another one of its step.

ghost use Rattle.std.specs.Prelude.{◌≡◌, ◌≤◌, ℕ, take, length, bit_xor};
ghost use Rattle.batch_prims.specs.Crc.{steps, register, crc32c};

use crate::bytewise::after_all;
use crate::far_tables::{
    AFTER_9, AFTER_10, AFTER_11, AFTER_12, AFTER_13, AFTER_14, AFTER_15, AFTER_16,
};
use crate::near_tables::{AFTER_1, AFTER_2, AFTER_3, AFTER_4, AFTER_5, AFTER_6, AFTER_7, AFTER_8};

/// The share of a step's last eight bytes.
#[inline(always)]
fn near(word: u64) -> u32
    ensures { result ≡ steps 64 word }
{
    AFTER_8[(word % 256) as usize]
        ^ AFTER_7[((word >> 8) % 256) as usize]
        ^ AFTER_6[((word >> 16) % 256) as usize]
        ^ AFTER_5[((word >> 24) % 256) as usize]
        ^ AFTER_4[((word >> 32) % 256) as usize]
        ^ AFTER_3[((word >> 40) % 256) as usize]
        ^ AFTER_2[((word >> 48) % 256) as usize]
        ^ AFTER_1[(word >> 56) as usize]
}

/// The share of the eight bytes before those.
#[inline(always)]
fn far(word: u64) -> u32
    ensures { result ≡ steps 128 word }
{
    AFTER_16[(word % 256) as usize]
        ^ AFTER_15[((word >> 8) % 256) as usize]
        ^ AFTER_14[((word >> 16) % 256) as usize]
        ^ AFTER_13[((word >> 24) % 256) as usize]
        ^ AFTER_12[((word >> 32) % 256) as usize]
        ^ AFTER_11[((word >> 40) % 256) as usize]
        ^ AFTER_10[((word >> 48) % 256) as usize]
        ^ AFTER_9[(word >> 56) as usize]
}

/// The first eight bytes as a word that is taken into a register at once.
#[inline(always)]
fn word_of(bytes: &[u8]) -> u64
    requires { 8 ≤ length bytes.now }
    ensures { (crc : ℕ) → register crc (take 8 bytes.now) ≡ steps 64 (bit_xor crc result) }
{
    u64::from_le_bytes([
        bytes[0], bytes[1], bytes[2], bytes[3], bytes[4], bytes[5], bytes[6], bytes[7],
    ])
}

/// Takes the first sixteen bytes into the register.
#[inline(always)]
fn after_sixteen(crc: u32, bytes: &[u8]) -> u32
    requires { 16 ≤ length bytes.now }
    ensures { result ≡ register crc (take 16 bytes.now) }
{
    let first = word_of(bytes);
    let second = word_of(&bytes[8..]);
    far(crc as u64 ^ first) ^ near(second)
}

/// The checksum of the bytes, sixteen bytes a step by one register.
#[tactic(auto, unfolding(crate::specs::Crc::crc32c))]
pub fn crc32c_sliced(bytes: &[u8]) -> u32
    ensures { result ≡ crc32c bytes.now }
{
    let mut crc = u32::MAX;
    let mut rest = bytes;
    while rest.len() >= 16 {
        crc = after_sixteen(crc, rest);
        rest = &rest[16..];
    }
    after_all(crc, rest) ^ u32::MAX
}
