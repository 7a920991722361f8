//! The records of a batch that was checked, copied out of its bytes.

ghost use Rattle.std.specs.Prelude.{◌≡◌, length, IfOk, IsSome, IsOk, Ok, Some};
ghost use Rattle.std.specs.Option.{option_map};
ghost use Rattle.record_batch.specs.Record.{header_at, header_shown, headers_at, header_list_at};
ghost use Rattle.record_batch.specs.Record.{headers_shown, with_headers, body_at, record_at};
ghost use Rattle.record_batch.specs.Check.{ts_in, rec_in, rec_shown, records_from, checked};
ghost use Rattle.record_batch.specs.Head.{head_of};
ghost use Rattle.record_batch.specs.Walk.{front_of};
ghost use Rattle.record_batch.specs.Read.{GivesView, rec_behind, all_read};

use crate::head::{HEAD_SIZE, Head, fields_of, u32_at};
use crate::parts::{Front, blob, body_front, header, varint};
use crate::rec::{Header, HeaderList, Rec};
use std::alloc::{AllocError, Global};
use tier_base::{Blob, Items};

/// Why nothing was read.
#[derive(Debug, Drop)]
pub(crate) enum ReadStop {
    /// The bytes are invalid.
    NoReading,
    /// There was no memory for what they hold.
    NoMemory,
}

impl From<AllocError> for ReadStop {
    ghost use Rattle.record_batch.specs.declared.reading.ReadStop.TheVariants.{NoMemory};

    ghost from_gives = { λ _ why. why ≡ NoMemory };

    fn from(_error: AllocError) -> ReadStop {
        ReadStop::NoMemory
    }
}

fn copied(alloc: Global, bytes: Option<&[u8]>) -> Result<Option<Blob>, AllocError>
    ensures { IfOk result (λ blob. blob ≡ option_map (λ x. x.now) bytes.entry) }
{
    match bytes {
        None => Ok(None),
        Some(bytes) => Ok(Some(Blob::from_slice(alloc, bytes)?)),
    }
}

fn header_of(alloc: Global, bytes: &[u8]) -> Result<(Header, &[u8]), ReadStop>
    ensures { GivesView (λ x. header_shown x.0.key x.0.value x.1.now) result (header_at bytes.now) }
{
    let Some(((key, value), rest)) = header(bytes) else {
        return Err(ReadStop::NoReading);
    };
    let key = Blob::from_slice(alloc, key)?;
    let value = copied(alloc, value)?;
    Ok((Header { key, value }, rest))
}

/// So many headers. The count says nothing of the memory: a list grows with the headers that are there.
fn headers_of(alloc: Global, count: u32, bytes: &[u8]) -> Result<(HeaderList, &[u8]), ReadStop>
    ensures { GivesView (λ x. headers_shown x.0 x.1.now) result (headers_at count bytes.now) }
{
    let mut headers = Items::new(alloc);
    let mut rest = bytes;
    for _ in 0..count {
        let (header, after) = header_of(alloc, rest)?;
        headers.push(header)?;
        rest = after;
    }
    Ok((headers, rest))
}

#[tactic(auto, unfolding(crate::specs::Record::header_list_at))]
fn header_list_of(alloc: Global, bytes: &[u8]) -> Result<(HeaderList, &[u8]), ReadStop>
    ensures { GivesView (λ x. headers_shown x.0 x.1.now) result (header_list_at bytes.now) }
{
    let Some((count, rest)) = varint(bytes) else {
        return Err(ReadStop::NoReading);
    };
    if count < 0 {
        return Err(ReadStop::NoReading);
    }
    headers_of(alloc, count as u32, rest)
}

/// The timestamp that a record of this delta has.
fn ts_of(head: Head, delta: i64) -> i64
    ensures { result ≡ ts_in head delta }
{
    if head.attributes.cast_unsigned() / 8 % 2 == 1 {
        head.max_ts
    } else {
        head.base_ts.wrapping_add(delta)
    }
}

/// A record of a batch with this head.
fn owned(alloc: Global, head: Head, front: Front, headers: HeaderList) -> Result<Rec, AllocError>
    ensures { IfOk result (λ rec. rec ≡ rec_in head
        (with_headers (front_of front.entry.ts_delta front.entry.offset_delta
        (option_map (λ y. y.now) front.entry.key) (option_map (λ y. y.now) front.entry.value)) headers)) }
{
    let key = copied(alloc, front.key)?;
    let value = copied(alloc, front.value)?;
    Ok(Rec {
        ts: ts_of(head, front.ts_delta),
        key,
        value,
        headers,
    })
}

/// What a record's length counts.
#[tactic(auto, unfolding(crate::specs::Record::body_at))]
fn body_of(alloc: Global, head: Head, body: &[u8]) -> Result<Rec, ReadStop>
    ensures { GivesView (λ rec. rec) result (option_map (rec_in head) (body_at body.now)) }
{
    let Some((front, rest)) = body_front(body) else {
        return Err(ReadStop::NoReading);
    };
    let (headers, rest) = header_list_of(alloc, rest)?;
    if !rest.is_empty() {
        return Err(ReadStop::NoReading);
    }
    let rec = owned(alloc, head, front, headers)?;
    Ok(rec)
}

#[tactic(auto, unfolding(crate::specs::Record::record_at))]
fn record_of(alloc: Global, head: Head, bytes: &[u8]) -> Result<(Rec, &[u8]), ReadStop>
    ensures { GivesView (λ x. rec_behind x.0 x.1.now) result (option_map (rec_shown head) (record_at bytes.now)) }
{
    let Some((body, rest)) = blob(bytes) else {
        return Err(ReadStop::NoReading);
    };
    let rec = body_of(alloc, head, body)?;
    Ok((rec, rest))
}

/// So many records, where that is what the bytes are.
fn records_of(alloc: Global, head: Head, count: u32, bytes: &[u8]) -> Result<Vec<Rec>, AllocError>
    requires { IsSome (all_read head (records_from count 0 bytes.now)) }
    ensures { IfOk result (λ recs. all_read head (records_from count 0 bytes.now) ≡ Some recs.items) }
{
    let mut recs = Vec::new(alloc);
    let mut rest = bytes;
    for _ in 0..count {
        let (rec, after) = match record_of(alloc, head, rest) {
            Ok(read) => read,
            Err(ReadStop::NoMemory) => return Err(AllocError),
            Err(ReadStop::NoReading) => unreachable!(),
        };
        recs.push(rec)?;
        rest = after;
    }
    Ok(recs)
}

/// Reads the records of a batch that `check` accepts. Fails only if memory runs out.
pub fn records(alloc: Global, batch: &[u8]) -> Result<Vec<Rec>, AllocError>
    requires { IsOk (checked batch.now) }
    ensures { IfOk result (λ recs. checked batch.now ≡ Ok (record { head = head_of batch.now; recs = recs.items })) }
{
    let head = fields_of(batch);
    let count = u32_at(batch, 57);
    let (_, bytes) = batch.split_at(HEAD_SIZE);
    let recs = records_of(alloc, head, count, bytes)?;
    Ok(recs)
}
