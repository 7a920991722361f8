//! The fields of a metadata event at the front of bytes, each with the bytes after it.

ghost use Rattle.std.specs.Prelude.{◌≡◌, length, IfOk};
ghost use Rattle.std.specs.Int.{w16, w32, w64};
ghost use Rattle.segment_meta.specs.Reading.{cut_at, number_at, ts_at, byte_at, seen};

use crate::refusal::NoteRefusal;
use tier_base::SegmentId;
use uuid::Uuid;

/// So many bytes.
pub(crate) fn cut(bytes: &[u8], size: usize) -> Result<(&[u8], &[u8]), NoteRefusal>
    ensures exact { seen (λ x. (x.0.now, x.1.now)) result ≡ cut_at size bytes.now }
    ensures long { IfOk result (λ x. length x.0.now ≡ size) }
{
    if bytes.len() < size {
        return Err(NoteRefusal::Short);
    }
    Ok(bytes.split_at(size))
}

pub(crate) fn read_u8(bytes: &[u8]) -> Result<(u8, &[u8]), NoteRefusal>
    ensures { seen (λ x. (x.0, x.1.now)) result ≡ byte_at bytes.now }
{
    let [byte, rest @ ..] = bytes else {
        return Err(NoteRefusal::Short);
    };
    Ok((*byte, rest))
}

#[tactic(auto, unfolding(crate::specs::Reading::number_at))]
pub(crate) fn read_u16(bytes: &[u8]) -> Result<(u16, &[u8]), NoteRefusal>
    ensures { seen (λ x. (x.0, x.1.now)) result ≡ number_at w16 bytes.now }
{
    let (field, rest) = cut(bytes, 2)?;
    Ok((u16::from_be_bytes([field[0], field[1]]), rest))
}

#[tactic(auto, unfolding(crate::specs::Reading::number_at))]
pub(crate) fn read_u32(bytes: &[u8]) -> Result<(u32, &[u8]), NoteRefusal>
    ensures { seen (λ x. (x.0, x.1.now)) result ≡ number_at w32 bytes.now }
{
    let (field, rest) = cut(bytes, 4)?;
    let number = u32::from_be_bytes([field[0], field[1], field[2], field[3]]);
    Ok((number, rest))
}

#[tactic(auto, unfolding(crate::specs::Reading::number_at))]
pub(crate) fn read_u64(bytes: &[u8]) -> Result<(u64, &[u8]), NoteRefusal>
    ensures { seen (λ x. (x.0, x.1.now)) result ≡ number_at w64 bytes.now }
{
    let (field, rest) = cut(bytes, 8)?;
    let number = u64::from_be_bytes([
        field[0], field[1], field[2], field[3], field[4], field[5], field[6], field[7],
    ]);
    Ok((number, rest))
}

/// A timestamp.
#[tactic(auto, unfolding(crate::specs::Reading::ts_at))]
pub(crate) fn read_ts(bytes: &[u8]) -> Result<(i64, &[u8]), NoteRefusal>
    ensures { seen (λ x. (x.0, x.1.now)) result ≡ ts_at bytes.now }
{
    let (number, rest) = read_u64(bytes)?;
    Ok((number.cast_signed(), rest))
}

/// The id of sixteen bytes.
pub(crate) fn id_of(field: &[u8]) -> SegmentId
    requires { length field.now ≡ 16 }
    ensures { result ≡ record { 0 = field.now } }
{
    match Uuid::from_slice(field) {
        Ok(id) => SegmentId(id),
        Err(_) => unreachable!(),
    }
}
