//! The fields of a registry's file at the front of bytes, each with the bytes after it.

ghost use Rattle.std.specs.Prelude.{◌≡◌, length, IfOk};
ghost use Rattle.std.specs.Int.{w16, w32, w64};
ghost use Rattle.registry_file.specs.Reading.{cut_at, number_at, byte_at, seen};

use crate::refusal::RegFileRefusal;

/// So many bytes.
fn cut(bytes: &[u8], size: usize, at: u32) -> Result<(&[u8], &[u8]), RegFileRefusal>
    ensures exact { seen (λ x. (x.0.now, x.1.now)) result ≡ cut_at size at bytes.now }
    ensures long { IfOk result (λ x. length x.0.now ≡ size) }
{
    if bytes.len() < size {
        return Err(RegFileRefusal::Bad { at });
    }
    Ok(bytes.split_at(size))
}

pub(crate) fn read_u8(bytes: &[u8], at: u32) -> Result<(u8, &[u8]), RegFileRefusal>
    ensures { seen (λ x. (x.0, x.1.now)) result ≡ byte_at at bytes.now }
{
    let [byte, rest @ ..] = bytes else {
        return Err(RegFileRefusal::Bad { at });
    };
    Ok((*byte, rest))
}

#[tactic(auto, unfolding(crate::specs::Reading::number_at))]
pub(crate) fn read_u16(bytes: &[u8], at: u32) -> Result<(u16, &[u8]), RegFileRefusal>
    ensures { seen (λ x. (x.0, x.1.now)) result ≡ number_at w16 at bytes.now }
{
    let (field, rest) = cut(bytes, 2, at)?;
    Ok((u16::from_be_bytes([field[0], field[1]]), rest))
}

#[tactic(auto, unfolding(crate::specs::Reading::number_at))]
pub(crate) fn read_u32(bytes: &[u8], at: u32) -> Result<(u32, &[u8]), RegFileRefusal>
    ensures { seen (λ x. (x.0, x.1.now)) result ≡ number_at w32 at bytes.now }
{
    let (field, rest) = cut(bytes, 4, at)?;
    let number = u32::from_be_bytes([field[0], field[1], field[2], field[3]]);
    Ok((number, rest))
}

#[tactic(auto, unfolding(crate::specs::Reading::number_at))]
pub(crate) fn read_u64(bytes: &[u8], at: u32) -> Result<(u64, &[u8]), RegFileRefusal>
    ensures { seen (λ x. (x.0, x.1.now)) result ≡ number_at w64 at bytes.now }
{
    let (field, rest) = cut(bytes, 8, at)?;
    let number = u64::from_be_bytes([
        field[0], field[1], field[2], field[3], field[4], field[5], field[6], field[7],
    ]);
    Ok((number, rest))
}
