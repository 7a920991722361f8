//! CRC-32C a bit a step, as its definition goes: the reference for the faster bodies.

ghost use Rattle.std.specs.Prelude.{◌≡◌, bit_xor};
ghost use Rattle.batch_prims.specs.Crc.{step as step_of, steps, crc32c};

/// The polynomial 0x1EDC6F41, the bit of its highest power lowest.
const POLYNOMIAL: u32 = 0x82f6_3b78;

/// Moves the register down by a bit.
#[tactic(auto, unfolding(crate::specs::Crc::step))]
fn step(crc: u32) -> u32
    ensures { result ≡ step_of crc }
{
    if crc % 2 == 1 {
        (crc / 2) ^ POLYNOMIAL
    } else {
        crc / 2
    }
}

/// Takes a byte into the register.
fn after(crc: u32, byte: u8) -> u32
    ensures { result ≡ steps 8 (bit_xor crc byte) }
{
    step(step(step(step(step(step(step(step(crc ^ byte as u32))))))))
}

/// The checksum of the bytes, a bit a step.
#[tactic(auto, unfolding(crate::specs::Crc::crc32c))]
pub fn crc32c_bitwise(bytes: &[u8]) -> u32
    ensures { result ≡ crc32c bytes.now }
{
    let mut crc = u32::MAX;
    for byte in bytes {
        crc = after(crc, *byte);
    }
    crc ^ u32::MAX
}
