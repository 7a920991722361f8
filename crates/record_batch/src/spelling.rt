//! The spelling of records: each part is appended to the batch's bytes, as the grammar of records writes it.
//!
//! Whoever calls has reckoned the sizes, so each length fits its varint, and the vector has the room.

ghost use Rattle.std.specs.Prelude.{◌≡◌, ◌^◌, ◌<◌, ◌≤◌, ◌++◌, length, pos, OnOk};
ghost use Rattle.batch_prims.specs.Varint.{varint_bytes};
ghost use Rattle.record_batch.specs.Record.{blob_bytes, optional_bytes, header_bytes, headers_bytes};
ghost use Rattle.record_batch.specs.Record.{header_list_bytes, body_bytes, record_bytes, records_bytes};
ghost use Rattle.record_batch.specs.Build.{delta_of, deltas_from};

use crate::rec::{Header, Rec};
use crate::sizes::body_size;
use batch_prims::{write_varint, write_varlong};
use std::alloc::AllocError;
use tier_base::Blob;

/// A length, or a count.
fn push_count(out: &mut Vec<u8>, count: usize) -> Result<(), AllocError>
    requires { count ≤ 1048576 }
    ensures { OnOk result (out.new.items ≡ out.old.items ++ varint_bytes (pos count)) }
{
    write_varint(out, count as i32)
}

#[tactic(auto, unfolding(crate::specs::Record::blob_bytes))]
fn push_blob(out: &mut Vec<u8>, blob: &Blob) -> Result<(), AllocError>
    requires { length (blob_bytes blob.now) ≤ 1048576 }
    ensures { OnOk result (out.new.items ≡ out.old.items ++ blob_bytes blob.now) }
{
    let bytes = blob.as_slice();
    push_count(out, bytes.len())?;
    out.extend_from_slice(bytes)
}

#[tactic(auto, unfolding(crate::specs::Record::optional_bytes))]
fn push_optional(out: &mut Vec<u8>, value: &Option<Blob>) -> Result<(), AllocError>
    requires { length (optional_bytes value.now) ≤ 1048576 }
    ensures { OnOk result (out.new.items ≡ out.old.items ++ optional_bytes value.now) }
{
    match value {
        None => write_varint(out, -1),
        Some(blob) => push_blob(out, blob),
    }
}

#[tactic(auto, unfolding(crate::specs::Record::header_bytes))]
fn push_header(out: &mut Vec<u8>, header: &Header) -> Result<(), AllocError>
    requires { length (header_bytes header.now) ≤ 1048576 }
    ensures { OnOk result (out.new.items ≡ out.old.items ++ header_bytes header.now) }
{
    push_blob(out, &header.key)?;
    push_optional(out, &header.value)
}

fn push_headers(out: &mut Vec<u8>, headers: &[Header]) -> Result<(), AllocError>
    requires { length (headers_bytes headers.now) ≤ 1048576 }
    ensures { OnOk result (out.new.items ≡ out.old.items ++ headers_bytes headers.now) }
{
    for header in headers {
        push_header(out, header)?;
    }
    Ok(())
}

#[tactic(auto, unfolding(crate::specs::Record::header_list_bytes))]
fn push_header_list(out: &mut Vec<u8>, headers: &[Header]) -> Result<(), AllocError>
    requires few { length headers.now ≤ 1048576 }
    requires size { length (header_list_bytes headers.now) ≤ 1048576 }
    ensures { OnOk result (out.new.items ≡ out.old.items ++ header_list_bytes headers.now) }
{
    push_count(out, headers.len())?;
    push_headers(out, headers)
}

#[tactic(auto, unfolding(crate::specs::Record::body_bytes))]
fn push_body(out: &mut Vec<u8>, rec: &Rec, base_ts: i64, number: u32) -> Result<(), AllocError>
    requires few { number < 2 ^ 31 }
    requires size { length (body_bytes (delta_of base_ts number rec.now)) ≤ 1048576 }
    ensures { OnOk result (out.new.items ≡ out.old.items ++ body_bytes (delta_of base_ts number rec.now)) }
{
    out.push(0)?;
    write_varlong(out, rec.ts.wrapping_sub(base_ts))?;
    write_varint(out, number as i32)?;
    push_optional(out, &rec.key)?;
    push_optional(out, &rec.value)?;
    push_header_list(out, rec.headers.as_slice())
}

#[tactic(auto, unfolding(crate::specs::Record::record_bytes, crate::specs::Record::blob_bytes))]
fn push_record(out: &mut Vec<u8>, rec: &Rec, base_ts: i64, number: u32) -> Result<(), AllocError>
    requires few { number < 2 ^ 31 }
    requires size { length (record_bytes (delta_of base_ts number rec.now)) ≤ 1048576 }
    ensures { OnOk result (out.new.items ≡ out.old.items ++ record_bytes (delta_of base_ts number rec.now)) }
{
    let Some(size) = body_size(rec, base_ts, number) else {
        unreachable!()
    };
    push_count(out, size)?;
    push_body(out, rec, base_ts, number)
}

pub(crate) fn push_records(out: &mut Vec<u8>, recs: &[Rec], base_ts: i64) -> Result<(), AllocError>
    requires few { length recs.now ≤ 1048576 }
    requires size { length (records_bytes (deltas_from base_ts 0 recs.now)) ≤ 1048576 }
    ensures { OnOk result (out.new.items ≡ out.old.items ++ records_bytes (deltas_from base_ts 0 recs.now)) }
{
    for (number, rec) in recs.iter().enumerate() {
        push_record(out, rec, base_ts, number as u32)?;
    }
    Ok(())
}
