//! The fields of a manifest at the front of bytes, each with the bytes after it.

ghost use Rattle.std.specs.Prelude.{◌≡◌, length, IfOk};
ghost use Rattle.std.specs.Int.{w32, w64};
ghost use Rattle.log_manifest.specs.Reading.{bad, cut_at, number_at, seen};

use crate::refusal::ManifestRefusal;

/// The last place that a refusal can report.
const LAST_PLACE: u64 = (1 << 32) - 1;

/// The refusal of a field at this place.
pub(crate) fn bad(at: u64) -> ManifestRefusal
    ensures { result ≡ bad at }
{
    ManifestRefusal::Bad {
        at: at.min(LAST_PLACE) as u32,
    }
}

/// So many bytes.
fn cut(bytes: &[u8], size: usize, at: u64) -> Result<(&[u8], &[u8]), ManifestRefusal>
    ensures exact { seen (λ x. (x.0.now, x.1.now)) result ≡ cut_at size at bytes.now }
    ensures long { IfOk result (λ x. length x.0.now ≡ size) }
{
    if bytes.len() < size {
        return Err(bad(at));
    }
    Ok(bytes.split_at(size))
}

#[tactic(auto, unfolding(crate::specs::Reading::number_at))]
pub(crate) fn read_u32(bytes: &[u8], at: u64) -> Result<(u32, &[u8]), ManifestRefusal>
    ensures { seen (λ x. (x.0, x.1.now)) result ≡ number_at w32 at bytes.now }
{
    let (field, rest) = cut(bytes, 4, at)?;
    let number = u32::from_be_bytes([field[0], field[1], field[2], field[3]]);
    Ok((number, rest))
}

#[tactic(auto, unfolding(crate::specs::Reading::number_at))]
pub(crate) fn read_u64(bytes: &[u8], at: u64) -> Result<(u64, &[u8]), ManifestRefusal>
    ensures { seen (λ x. (x.0, x.1.now)) result ≡ number_at w64 at bytes.now }
{
    let (field, rest) = cut(bytes, 8, at)?;
    let number = u64::from_be_bytes([
        field[0], field[1], field[2], field[3], field[4], field[5], field[6], field[7],
    ]);
    Ok((number, rest))
}
