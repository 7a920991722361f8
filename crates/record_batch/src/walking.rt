//! A walk over records that only tests whether they are valid and which offset delta each has.

ghost use Rattle.std.specs.Prelude.{◌≡◌, ◌≤◌, length, IfSome};
ghost use Rattle.std.specs.Option.{option_map};
ghost use Rattle.record_batch.specs.Record.{headers_at, header_list_at, body_at, record_at};
ghost use Rattle.record_batch.specs.Check.{is_number, records_from};
ghost use Rattle.record_batch.specs.Walk.{Skips, numbered, fault_in};

use crate::parts::{blob, body_front, header, varint};

/// What follows so many headers.
fn past_headers(count: u32, bytes: &[u8]) -> Option<&[u8]>
    ensures { Skips (option_map (λ x. x.now) result) (headers_at count bytes.now) }
{
    let mut rest = bytes;
    for _ in 0..count {
        let Some((_, after)) = header(rest) else {
            return None;
        };
        rest = after;
    }
    Some(rest)
}

/// What follows a count, and so many headers.
#[tactic(auto, unfolding(crate::specs::Record::header_list_at))]
fn past_header_list(bytes: &[u8]) -> Option<&[u8]>
    ensures { Skips (option_map (λ x. x.now) result) (header_list_at bytes.now) }
{
    let Some((count, rest)) = varint(bytes) else {
        return None;
    };
    if count < 0 {
        return None;
    }
    past_headers(count as u32, rest)
}

/// The offset delta in a record's body.
#[tactic(auto, unfolding(crate::specs::Record::body_at))]
fn number_in(body: &[u8]) -> Option<i32>
    ensures { result ≡ option_map (λ r. r.offset_delta) (body_at body.now) }
{
    let Some((front, rest)) = body_front(body) else {
        return None;
    };
    let Some(rest) = past_header_list(rest) else {
        return None;
    };
    if rest.is_empty() {
        Some(front.offset_delta)
    } else {
        None
    }
}

/// A record's offset delta, and what follows the record.
#[tactic(auto, unfolding(crate::specs::Record::record_at))]
fn record_number(bytes: &[u8]) -> Option<(i32, &[u8])>
    ensures within { IfSome result (λ x. length x.1.now ≤ length bytes.now) }
    ensures exact { option_map (λ x. (x.0, x.1.now)) result ≡ option_map numbered (record_at bytes.now) }
{
    let Some((body, rest)) = blob(bytes) else {
        return None;
    };
    let Some(number) = number_in(body) else {
        return None;
    };
    Some((number, rest))
}

fn has_number(delta: i32, number: u32) -> bool
    ensures { result ≡ is_number delta number }
{
    delta >= 0 && delta as u32 == number
}

/// How many bytes are left at the first fault in so many records.
pub(crate) fn fault(count: u32, bytes: &[u8]) -> Option<usize>
    ensures exact { result ≡ fault_in (records_from count 0 bytes.now) }
    ensures within { IfSome result (λ left. left ≤ length bytes.now) }
{
    let mut rest = bytes;
    for number in 0..count {
        let Some((delta, after)) = record_number(rest) else {
            return Some(rest.len());
        };
        if !has_number(delta, number) {
            return Some(rest.len());
        }
        rest = after;
    }
    if rest.is_empty() {
        None
    } else {
        Some(rest.len())
    }
}
