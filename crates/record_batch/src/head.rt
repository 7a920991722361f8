//! The head of a batch: the fields before its records, at the positions that the module `Head` of the definitions
//! gives.

ghost use Rattle.std.specs.Prelude.{◌≡◌, ◌+◌, ◌≤◌, length};
ghost use Rattle.std.specs.Int.{w16, w32, w64};
ghost use Rattle.log_terms.specs.Batch.{field_at};
ghost use Rattle.record_batch.specs.Head.{signed_at, head_of};

/// The bytes of a head.
pub(crate) const HEAD_SIZE: usize = 61;

/// All fields before the records.
#[derive(Clone, Copy, Debug, PartialEq, Eq)]
pub struct Head {
    pub base_offset: i64,
    pub batch_length: i32,
    pub leader_epoch: i32,
    pub magic: i8,
    pub crc: u32,
    pub attributes: i16,
    pub last_offset_delta: i32,
    pub base_ts: i64,
    pub max_ts: i64,
    pub producer_id: i64,
    pub producer_epoch: i16,
    pub base_sequence: i32,
    pub records_count: i32,
}

#[tactic(auto, unfolding(log_terms::specs::Batch::field_at))]
pub(crate) fn u16_at(bytes: &[u8], at: usize) -> u16
    requires { at + 2 ≤ length bytes.now }
    ensures { result ≡ field_at w16 at bytes.now }
{
    let (_, rest) = bytes.split_at(at);
    let (field, _) = rest.split_at(2);
    u16::from_be_bytes([field[0], field[1]])
}

#[tactic(auto, unfolding(log_terms::specs::Batch::field_at))]
pub(crate) fn u32_at(bytes: &[u8], at: usize) -> u32
    requires { at + 4 ≤ length bytes.now }
    ensures { result ≡ field_at w32 at bytes.now }
{
    let (_, rest) = bytes.split_at(at);
    let (field, _) = rest.split_at(4);
    u32::from_be_bytes([field[0], field[1], field[2], field[3]])
}

#[tactic(auto, unfolding(log_terms::specs::Batch::field_at))]
fn u64_at(bytes: &[u8], at: usize) -> u64
    requires { at + 8 ≤ length bytes.now }
    ensures { result ≡ field_at w64 at bytes.now }
{
    let (_, rest) = bytes.split_at(at);
    let (field, _) = rest.split_at(8);
    u64::from_be_bytes([
        field[0], field[1], field[2], field[3], field[4], field[5], field[6], field[7],
    ])
}

fn i16_at(bytes: &[u8], at: usize) -> i16
    requires { at + 2 ≤ length bytes.now }
    ensures { result ≡ signed_at w16 at bytes.now }
{
    u16_at(bytes, at).cast_signed()
}

fn i32_at(bytes: &[u8], at: usize) -> i32
    requires { at + 4 ≤ length bytes.now }
    ensures { result ≡ signed_at w32 at bytes.now }
{
    u32_at(bytes, at).cast_signed()
}

fn i64_at(bytes: &[u8], at: usize) -> i64
    requires { at + 8 ≤ length bytes.now }
    ensures { result ≡ signed_at w64 at bytes.now }
{
    u64_at(bytes, at).cast_signed()
}

/// The fields of a head, where there are bytes enough.
#[tactic(auto, unfolding(crate::specs::Head::head_of))]
pub(crate) fn fields_of(bytes: &[u8]) -> Head
    requires { 61 ≤ length bytes.now }
    ensures { result ≡ head_of bytes.now }
{
    Head {
        base_offset: i64_at(bytes, 0),
        batch_length: i32_at(bytes, 8),
        leader_epoch: i32_at(bytes, 12),
        magic: bytes[16].cast_signed(),
        crc: u32_at(bytes, 17),
        attributes: i16_at(bytes, 21),
        last_offset_delta: i32_at(bytes, 23),
        base_ts: i64_at(bytes, 27),
        max_ts: i64_at(bytes, 35),
        producer_id: i64_at(bytes, 43),
        producer_epoch: i16_at(bytes, 51),
        base_sequence: i32_at(bytes, 53),
        records_count: i32_at(bytes, 57),
    }
}
