//! CRC-32C by four registers side by side, sixteen bytes a step.
//!
//! Each register takes one word of four bytes of each block, and moves on by a whole block at once. A body with one
//! register waits for its last lookup before it begins the next step; here four lookups are in progress at any time.
//! They are joined in the last whole block, where each word is moved to the block's end alone.

ghost use Rattle.std.specs.Prelude.{◌≡◌, ◌≤◌, ℕ, take, length, bit_xor};
ghost use Rattle.batch_prims.specs.Crc.{steps, register, crc32c as crc_of};
ghost use Rattle.batch_prims.specs.Braid.{joined, StandFor};

use crate::bytewise::after_all;
use crate::far_tables::{
    AFTER_9, AFTER_10, AFTER_11, AFTER_12, AFTER_13, AFTER_14, AFTER_15, AFTER_16,
};
use crate::near_tables::{AFTER_1, AFTER_2, AFTER_3, AFTER_4, AFTER_5, AFTER_6, AFTER_7, AFTER_8};

/// How many bytes a step takes.
const BLOCK: usize = 16;

/// The registers, in the order of a block's words.
#[derive(Clone, Copy, Debug)]
struct Braid {
    first: u32,
    second: u32,
    third: u32,
    fourth: u32,
}

/// A word moved on by four words.
#[inline(always)]
fn on_by_four(word: u32) -> u32
    ensures { result ≡ steps 128 word }
{
    AFTER_16[(word % 256) as usize]
        ^ AFTER_15[((word >> 8) % 256) as usize]
        ^ AFTER_14[((word >> 16) % 256) as usize]
        ^ AFTER_13[(word >> 24) as usize]
}

/// A word moved on by three words.
#[inline(always)]
fn on_by_three(word: u32) -> u32
    ensures { result ≡ steps 96 word }
{
    AFTER_12[(word % 256) as usize]
        ^ AFTER_11[((word >> 8) % 256) as usize]
        ^ AFTER_10[((word >> 16) % 256) as usize]
        ^ AFTER_9[(word >> 24) as usize]
}

/// A word moved on by two words.
#[inline(always)]
fn on_by_two(word: u32) -> u32
    ensures { result ≡ steps 64 word }
{
    AFTER_8[(word % 256) as usize]
        ^ AFTER_7[((word >> 8) % 256) as usize]
        ^ AFTER_6[((word >> 16) % 256) as usize]
        ^ AFTER_5[(word >> 24) as usize]
}

/// A word moved on by itself.
#[inline(always)]
fn on_by_one(word: u32) -> u32
    ensures { result ≡ steps 32 word }
{
    AFTER_4[(word % 256) as usize]
        ^ AFTER_3[((word >> 8) % 256) as usize]
        ^ AFTER_2[((word >> 16) % 256) as usize]
        ^ AFTER_1[(word >> 24) as usize]
}

/// The first four bytes as a word that is taken into a register at once.
#[inline(always)]
fn word_of(bytes: &[u8]) -> u32
    requires { 4 ≤ length bytes.now }
    ensures { (crc : ℕ) → register crc (take 4 bytes.now) ≡ steps 32 (bit_xor crc result) }
{
    u32::from_le_bytes([bytes[0], bytes[1], bytes[2], bytes[3]])
}

/// Takes the words of a block into the registers, and moves none on.
#[inline(always)]
fn with_words(braid: Braid, block: &[u8]) -> Braid
    requires { 16 ≤ length block.now }
    ensures { (crc : ℕ) → StandFor braid.first braid.second braid.third braid.fourth crc
        → joined result.first result.second result.third result.fourth
        ≡ register crc (take 16 block.now) }
{
    let second = &block[4..];
    let third = &second[4..];
    let fourth = &third[4..];
    Braid {
        first: braid.first ^ word_of(block),
        second: braid.second ^ word_of(second),
        third: braid.third ^ word_of(third),
        fourth: braid.fourth ^ word_of(fourth),
    }
}

/// Takes a block.
#[inline(always)]
fn after_block(braid: Braid, block: &[u8]) -> Braid
    requires { 16 ≤ length block.now }
    ensures { (crc : ℕ) → StandFor braid.first braid.second braid.third braid.fourth crc
        → StandFor result.first result.second result.third result.fourth
        (register crc (take 16 block.now)) }
{
    let words = with_words(braid, block);
    Braid {
        first: on_by_four(words.first),
        second: on_by_four(words.second),
        third: on_by_four(words.third),
        fourth: on_by_four(words.fourth),
    }
}

/// Takes a last block, and joins the registers.
#[inline(always)]
fn join_block(braid: Braid, block: &[u8]) -> u32
    requires { 16 ≤ length block.now }
    ensures { (crc : ℕ) → StandFor braid.first braid.second braid.third braid.fourth crc
        → result ≡ register crc (take 16 block.now) }
{
    let words = with_words(braid, block);
    on_by_four(words.first)
        ^ on_by_three(words.second)
        ^ on_by_two(words.third)
        ^ on_by_one(words.fourth)
}

/// Takes whole blocks into a register that has taken in nothing yet, and what is left behind them.
fn after_blocks(bytes: &[u8]) -> u32
    requires { 16 ≤ length bytes.now }
    ensures { result ≡ register 0xFFFFFFFF bytes.now }
{
    let mut braid = Braid {
        first: u32::MAX,
        second: 0,
        third: 0,
        fourth: 0,
    };
    let mut rest = bytes;
    while rest.len() >= 2 * BLOCK {
        braid = after_block(braid, rest);
        rest = &rest[BLOCK..];
    }
    after_all(join_block(braid, rest), &rest[BLOCK..])
}

/// The checksum of the bytes.
#[tactic(auto, unfolding(crate::specs::Crc::crc32c))]
pub fn crc32c(bytes: &[u8]) -> u32
    ensures { result ≡ crc_of bytes.now }
{
    let crc = if bytes.len() < BLOCK {
        after_all(u32::MAX, bytes)
    } else {
        after_blocks(bytes)
    };
    crc ^ u32::MAX
}
