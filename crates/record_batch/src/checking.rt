//! Whether bytes are a batch: the tests in their order, which the module `Check` of the definitions lists.

ghost use Rattle.std.specs.Prelude.{◌≡◌, ◌≤◌, length, IfNone, IsOk, OnOk};
ghost use Rattle.std.specs.Int.{w32};
ghost use Rattle.log_terms.specs.Batch.{field_at};
ghost use Rattle.record_batch.specs.Check.{head_refusal, sum_refusal, flag_refusal};
ghost use Rattle.record_batch.specs.Check.{count_refusal, of_head, checked, head_in, headed};

use crate::head::{HEAD_SIZE, Head, fields_of, u16_at, u32_at};
use crate::refusal::{BatchRefusal, HeadRefusal};
use crate::walking::fault;
use batch_prims::crc32c;

/// The batch_length of a head alone: 61 - 12.
const LEAST_LENGTH: u32 = 49;
/// The batch_length of the largest batch: 1,048,576 - 12.
const MOST_LENGTH: u32 = 1_048_564;
/// The most records of a batch, whose count is a signed number: 2^31 - 1.
const MOST_RECORDS: u32 = 2_147_483_647;

/// Tests 1 to 3.
#[tactic(auto, unfolding(crate::specs::Check::head_refusal))]
fn refuses_head(bytes: &[u8]) -> Option<HeadRefusal>
    ensures exact { result ≡ head_refusal bytes.now }
    ensures long { IfNone result (61 ≤ length bytes.now) }
    ensures small { IfNone result (field_at w32 8 bytes.now ≤ 1048564) }
{
    if bytes.len() < HEAD_SIZE {
        return Some(HeadRefusal::Short);
    }
    if bytes[16] != 2 {
        return Some(HeadRefusal::BadMagic);
    }
    let length = u32_at(bytes, 8);
    if length < LEAST_LENGTH {
        return Some(HeadRefusal::BadLength);
    }
    if length > MOST_LENGTH {
        return Some(HeadRefusal::BadLength);
    }
    None
}

/// Tests 4 and 5.
#[tactic(auto, unfolding(crate::specs::Check::sum_refusal))]
fn refuses_sum(bytes: &[u8]) -> Option<BatchRefusal>
    requires long { 61 ≤ length bytes.now }
    requires small { field_at w32 8 bytes.now ≤ 1048564 }
    ensures exact { result ≡ sum_refusal bytes.now }
    ensures small { IfNone result (length bytes.now ≤ 1048576) }
{
    let size = 12 + u32_at(bytes, 8) as usize;
    if bytes.len() < size {
        return Some(BatchRefusal::Short);
    }
    if size < bytes.len() {
        return Some(BatchRefusal::BadLength);
    }
    let kept = u32_at(bytes, 17);
    let (_, covered) = bytes.split_at(21);
    let computed = crc32c(covered);
    if kept != computed {
        return Some(BatchRefusal::BadCrc { kept, computed });
    }
    None
}

/// Tests 6 to 8.
#[tactic(auto, unfolding(crate::specs::Check::flag_refusal))]
fn refuses_flags(flags: u16) -> Option<BatchRefusal>
    ensures { result ≡ flag_refusal flags }
{
    if flags % 8 != 0 {
        return Some(BatchRefusal::Compressed);
    }
    if flags / 16 % 2 == 1 {
        return Some(BatchRefusal::Transactional);
    }
    if flags / 32 % 2 == 1 {
        return Some(BatchRefusal::Control);
    }
    None
}

/// Tests 9 and 10.
#[tactic(auto, unfolding(crate::specs::Check::count_refusal))]
fn refuses_count(count: u32, last: u32) -> Option<BatchRefusal>
    ensures { result ≡ count_refusal count last }
{
    if count == 0 {
        return Some(BatchRefusal::BadRecords { at: 57 });
    }
    if count > MOST_RECORDS {
        return Some(BatchRefusal::BadRecords { at: 57 });
    }
    if last != count - 1 {
        return Some(BatchRefusal::BadRecords { at: 23 });
    }
    None
}

/// A cause that is reported of a head, reported of a batch.
fn of_batch(why: HeadRefusal) -> BatchRefusal
    ensures { result ≡ of_head why }
{
    match why {
        HeadRefusal::Short => BatchRefusal::Short,
        HeadRefusal::BadMagic => BatchRefusal::BadMagic,
        HeadRefusal::BadLength => BatchRefusal::BadLength,
    }
}

/// Returns the head that the bytes begin with. What follows it is not looked at. `HeadRefusal` has the causes of a
/// failure.
#[tactic(auto, unfolding(crate::specs::Check::headed))]
pub fn read_head(bytes: &[u8]) -> Result<Head, HeadRefusal>
    ensures { result ≡ headed bytes.now }
{
    if let Some(why) = refuses_head(bytes) {
        return Err(why);
    }
    Ok(fields_of(bytes))
}

/// The tests in their order.
#[tactic(auto, unfolding(crate::specs::Check::checked))]
fn tested(bytes: &[u8]) -> Result<Head, BatchRefusal>
    ensures { result ≡ head_in (checked bytes.now) }
{
    if let Some(why) = refuses_head(bytes) {
        return Err(of_batch(why));
    }
    if let Some(why) = refuses_sum(bytes) {
        return Err(why);
    }
    if let Some(why) = refuses_flags(u16_at(bytes, 21)) {
        return Err(why);
    }
    let count = u32_at(bytes, 57);
    if let Some(why) = refuses_count(count, u32_at(bytes, 23)) {
        return Err(why);
    }
    let (_, records) = bytes.split_at(HEAD_SIZE);
    if let Some(left) = fault(count, records) {
        let at = (bytes.len() - left) as u32;
        return Err(BatchRefusal::BadRecords { at });
    }
    Ok(fields_of(bytes))
}

/// Returns the head of the batch that the bytes are, or the first test that fails.
#[tactic(auto, using(crate::proofs::Passing::head_in_ok))]
pub fn check(bytes: &[u8]) -> Result<Head, BatchRefusal>
    ensures exact { result ≡ head_in (checked bytes.now) }
    ensures batch { OnOk result (IsOk (checked bytes.now)) }
{
    tested(bytes)
}
