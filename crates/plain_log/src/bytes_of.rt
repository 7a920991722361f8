//! The fields of a batch's bytes that a log reads.

ghost use Rattle.std.specs.Prelude.{◌≡◌, ◌≤◌, ◌+◌, length, slice_index};
ghost use Rattle.std.specs.Int.{w32, w64};
ghost use Rattle.log_terms.specs.Batch.{field_at, base_of, last_offset_delta_of, max_ts_of};

/// A byte, or 0 past the end.
fn byte(bytes: &[u8], at: usize) -> u8
    ensures { result ≡ slice_index bytes.now at }
{
    if at < bytes.len() { bytes[at] } else { 0 }
}

/// Eight bytes from here on as a number, big endian.
#[tactic(auto, unfolding(log_terms::specs::Batch::field_at))]
fn u64_from(bytes: &[u8], at: usize) -> u64
    requires { at ≤ 35 }
    ensures { result ≡ field_at w64 at bytes.now }
{
    u64::from_be_bytes([
        byte(bytes, at),
        byte(bytes, at + 1),
        byte(bytes, at + 2),
        byte(bytes, at + 3),
        byte(bytes, at + 4),
        byte(bytes, at + 5),
        byte(bytes, at + 6),
        byte(bytes, at + 7),
    ])
}

/// Four bytes from here on as a number, big endian.
#[tactic(auto, unfolding(log_terms::specs::Batch::field_at))]
fn u32_from(bytes: &[u8], at: usize) -> u32
    requires { at ≤ 35 }
    ensures { result ≡ field_at w32 at bytes.now }
{
    u32::from_be_bytes([
        byte(bytes, at),
        byte(bytes, at + 1),
        byte(bytes, at + 2),
        byte(bytes, at + 3),
    ])
}

/// The offset of a batch's first record.
#[tactic(auto, unfolding(log_terms::specs::Batch::base_of))]
pub fn base_offset(batch: &[u8]) -> u64
    ensures { result ≡ base_of batch.now }
{
    u64_from(batch, 0)
}

/// The offset of its last record less that of the first.
#[tactic(auto, unfolding(log_terms::specs::Batch::last_offset_delta_of))]
pub fn last_delta(batch: &[u8]) -> u32
    ensures { result ≡ last_offset_delta_of batch.now }
{
    u32_from(batch, 23)
}

/// The greatest timestamp of its records.
#[tactic(auto, unfolding(log_terms::specs::Batch::max_ts_of))]
pub fn max_ts(batch: &[u8]) -> i64
    ensures { result ≡ max_ts_of batch.now }
{
    u64_from(batch, 35).cast_signed()
}
