//! How many bytes a batch would have, reckoned before any memory is taken.
//!
//! Each size is none as soon as it is larger than a batch may be. So no sum overflows, and records that are too many
//! or too long are refused after as much work as the largest batch takes.

ghost use Rattle.std.specs.Prelude.{◌≡◌, ◌+◌, ◌^◌, ◌<◌, ◌≤◌, length, pos, IfSome};
ghost use Rattle.batch_prims.specs.Varint.{to_zigzag, groups_of, varint_bytes, varlong_bytes};
ghost use Rattle.record_batch.specs.Record.{blob_bytes, optional_bytes, header_bytes, headers_bytes};
ghost use Rattle.record_batch.specs.Record.{header_list_bytes, body_bytes, record_bytes, records_bytes};
ghost use Rattle.record_batch.specs.Build.{delta_of, deltas_from, built};
ghost use Rattle.record_batch.specs.Size.{IsSize};

use crate::head::HEAD_SIZE;
use crate::rec::{Header, Rec};
use crate::times::first_ts;
use tier_base::Blob;

/// The most bytes of a batch: 2^20.
const MAX_BATCH: usize = 1_048_576;

/// The size, where a batch may have it.
fn allowed(size: usize) -> Option<usize>
    ensures { IsSize result size }
{
    if size > MAX_BATCH { None } else { Some(size) }
}

/// How many groups of seven bits a number takes, at most so many.
fn groups_size(number: u64, most: usize) -> usize
    ensures exact { result ≡ length (groups_of most number) }
    ensures few { result ≤ most }
    ensures some { 0 < most → 0 < result }
{
    if most == 0 {
        return 0;
    }
    if number < 128 {
        return 1;
    }
    1 + groups_size(number / 128, most - 1)
}

/// A signed number's place in 0, -1, 1, -2 and so on.
fn zigzag(value: i64) -> u64
    ensures { result ≡ to_zigzag value }
{
    if value >= 0 {
        2 * value as u64
    } else {
        2 * (-(value + 1)) as u64 + 1
    }
}

#[tactic(auto, unfolding(batch_prims::specs::Varint::varint_bytes, batch_prims::specs::Varint::shortest))]
fn varint_size(number: u32) -> usize
    requires { number < 2 ^ 31 }
    ensures exact { result ≡ length (varint_bytes (pos number)) }
    ensures few { result ≤ 10 }
    ensures some { 0 < result }
{
    groups_size(2 * number as u64, 10)
}

#[tactic(auto, unfolding(batch_prims::specs::Varint::varlong_bytes, batch_prims::specs::Varint::shortest))]
fn varlong_size(value: i64) -> usize
    ensures exact { result ≡ length (varlong_bytes value) }
    ensures few { result ≤ 10 }
{
    groups_size(zigzag(value), 10)
}

#[tactic(auto, unfolding(crate::specs::Record::blob_bytes))]
fn blob_size(blob: &Blob) -> Option<usize>
    ensures { IsSize result (length (blob_bytes blob.now)) }
{
    let len = blob.len();
    if len > MAX_BATCH {
        return None;
    }
    allowed(varint_size(len as u32) + len)
}

#[tactic(auto, unfolding(crate::specs::Record::optional_bytes, batch_prims::specs::Varint::varint_bytes, batch_prims::specs::Varint::shortest))]
fn optional_size(value: &Option<Blob>) -> Option<usize>
    ensures { IsSize result (length (optional_bytes value.now)) }
{
    match value {
        None => Some(1),
        Some(blob) => blob_size(blob),
    }
}

#[tactic(auto, unfolding(crate::specs::Record::header_bytes))]
fn header_size(header: &Header) -> Option<usize>
    ensures { IsSize result (length (header_bytes header.now)) }
{
    let key = blob_size(&header.key)?;
    let value = optional_size(&header.value)?;
    allowed(key + value)
}

fn headers_size(headers: &[Header]) -> Option<usize>
    ensures { IsSize result (length (headers_bytes headers.now)) }
{
    let mut size = 0;
    for header in headers {
        size = allowed(size + header_size(header)?)?;
    }
    Some(size)
}

#[tactic(auto, unfolding(crate::specs::Record::header_list_bytes))]
fn header_list_size(headers: &[Header]) -> Option<usize>
    ensures { IsSize result (length (header_list_bytes headers.now)) }
{
    let size = headers_size(headers)?;
    allowed(varint_size(headers.len() as u32) + size)
}

#[tactic(auto, unfolding(crate::specs::Record::body_bytes))]
pub(crate) fn body_size(rec: &Rec, base_ts: i64, number: u32) -> Option<usize>
    requires { number < 2 ^ 31 }
    ensures { IsSize result (length (body_bytes (delta_of base_ts number rec.now))) }
{
    let numbers = 1 + varlong_size(rec.ts.wrapping_sub(base_ts)) + varint_size(number);
    let key = optional_size(&rec.key)?;
    let value = optional_size(&rec.value)?;
    let headers = header_list_size(rec.headers.as_slice())?;
    allowed(numbers + key + value + headers)
}

#[tactic(auto, unfolding(crate::specs::Record::record_bytes, crate::specs::Record::blob_bytes))]
fn record_size(rec: &Rec, base_ts: i64, number: u32) -> Option<usize>
    requires { number < 2 ^ 31 }
    ensures exact { IsSize result (length (record_bytes (delta_of base_ts number rec.now))) }
    ensures some { IfSome result (λ size. 0 < size) }
{
    let body = body_size(rec, base_ts, number)?;
    allowed(varint_size(body as u32) + body)
}

fn records_size(recs: &[Rec], base_ts: i64) -> Option<usize>
    ensures { IsSize result (length (records_bytes (deltas_from base_ts 0 recs.now))) }
{
    let mut size = 0;
    for (number, rec) in recs.iter().enumerate() {
        size = allowed(size + record_size(rec, base_ts, number as u32)?)?;
    }
    Some(size)
}

/// Reckons the size of the batch of these records in bytes, or none where it is larger than a batch may be.
#[tactic(auto, using(crate::proofs::Counts::length_built), unfolding(crate::specs::Build::all_bytes))]
pub fn built_size(recs: &[Rec]) -> Option<usize>
    ensures { IsSize result (length (built recs.now)) }
{
    let records = records_size(recs, first_ts(recs))?;
    allowed(HEAD_SIZE + records)
}
