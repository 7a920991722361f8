//! CRC-32C a byte a step, by one table.
//!
//! The lowest byte of the register and the byte of input choose an entry; the rest of the register moves down.

ghost use Rattle.std.specs.Prelude.{◌≡◌, bit_xor};
ghost use Rattle.batch_prims.specs.Crc.{steps, register, crc32c};

use crate::near_tables::AFTER_1;

/// Takes a byte into the register.
#[inline(always)]
fn after(crc: u32, byte: u8) -> u32
    ensures { result ≡ steps 8 (bit_xor crc byte) }
{
    AFTER_1[((crc ^ byte as u32) % 256) as usize] ^ (crc >> 8)
}

/// Takes bytes into the register.
#[inline(always)]
pub(crate) fn after_all(from: u32, bytes: &[u8]) -> u32
    ensures { result ≡ register from bytes.now }
{
    let mut crc = from;
    for byte in bytes {
        crc = after(crc, *byte);
    }
    crc
}

/// The checksum of the bytes, a byte a step.
#[tactic(auto, unfolding(crate::specs::Crc::crc32c))]
pub fn crc32c_bytewise(bytes: &[u8]) -> u32
    ensures { result ≡ crc32c bytes.now }
{
    after_all(u32::MAX, bytes) ^ u32::MAX
}
