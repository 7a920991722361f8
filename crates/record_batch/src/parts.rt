//! The parts of a record, each a slice of its bytes and the bytes after it.
//!
//! Nothing is copied, so whether bytes are records is found out without memory.

ghost use Rattle.std.specs.Prelude.{◌≡◌, ◌≤◌, length, IfSome};
ghost use Rattle.std.specs.Option.{option_map};
ghost use Rattle.batch_prims.specs.Varint.{varint_at, varlong_at};
ghost use Rattle.record_batch.specs.Record.{ok_of, cut_at, blob_at, optional_at, header_at, header_shown, front_at};
ghost use Rattle.record_batch.specs.Walk.{front_of, front_behind};

use batch_prims::{read_varint, read_varlong};

/// The varint at the front.
pub(crate) fn varint(bytes: &[u8]) -> Option<(i32, &[u8])>
    ensures within { IfSome result (λ x. length x.1.now ≤ length bytes.now) }
    ensures exact { option_map (λ x. (x.0, x.1.now)) result ≡ ok_of (varint_at bytes.now) }
{
    match read_varint(bytes) {
        Ok((number, used)) => {
            let (_, rest) = bytes.split_at(used);
            Some((number, rest))
        }
        Err(_) => None,
    }
}

/// The varlong at the front.
pub(crate) fn varlong(bytes: &[u8]) -> Option<(i64, &[u8])>
    ensures within { IfSome result (λ x. length x.1.now ≤ length bytes.now) }
    ensures exact { option_map (λ x. (x.0, x.1.now)) result ≡ ok_of (varlong_at bytes.now) }
{
    match read_varlong(bytes) {
        Ok((number, used)) => {
            let (_, rest) = bytes.split_at(used);
            Some((number, rest))
        }
        Err(_) => None,
    }
}

/// So many bytes.
fn cut(len: i32, bytes: &[u8]) -> Option<(&[u8], &[u8])>
    ensures within { IfSome result (λ x. length x.1.now ≤ length bytes.now) }
    ensures exact { option_map (λ x. (x.0.now, x.1.now)) result ≡ cut_at len bytes.now }
{
    if len < 0 {
        return None;
    }
    let len = len as usize;
    if bytes.len() < len {
        return None;
    }
    Some(bytes.split_at(len))
}

/// A length, and so many bytes.
#[tactic(auto, unfolding(crate::specs::Record::blob_at))]
pub(crate) fn blob(bytes: &[u8]) -> Option<(&[u8], &[u8])>
    ensures within { IfSome result (λ x. length x.1.now ≤ length bytes.now) }
    ensures exact { option_map (λ x. (x.0.now, x.1.now)) result ≡ blob_at bytes.now }
{
    let Some((len, rest)) = varint(bytes) else {
        return None;
    };
    cut(len, rest)
}

/// A length, and so many bytes, or none.
#[tactic(auto, unfolding(crate::specs::Record::optional_at))]
pub(crate) fn optional(bytes: &[u8]) -> Option<(Option<&[u8]>, &[u8])>
    ensures { option_map (λ x. (option_map (λ y. y.now) x.0, x.1.now)) result ≡ optional_at bytes.now }
{
    let Some((len, rest)) = varint(bytes) else {
        return None;
    };
    if len < 0 {
        return Some((None, rest));
    }
    let len = len as usize;
    if rest.len() < len {
        return None;
    }
    let (front, rest) = rest.split_at(len);
    Some((Some(front), rest))
}

/// A header's key and value.
#[tactic(auto, unfolding(crate::specs::Record::header_at))]
pub(crate) fn header(bytes: &[u8]) -> Option<((&[u8], Option<&[u8]>), &[u8])>
    ensures { option_map (λ x. header_shown x.0.0.now (option_map (λ y. y.now) x.0.1) x.1.now) result
        ≡ header_at bytes.now }
{
    let Some((key, rest)) = blob(bytes) else {
        return None;
    };
    let Some((value, rest)) = optional(rest) else {
        return None;
    };
    Some(((key, value), rest))
}

/// What precedes a record's headers.
#[derive(Clone, Copy)]
pub(crate) struct Front<'a> {
    pub ts_delta: i64,
    pub offset_delta: i32,
    pub key: Option<&'a [u8]>,
    pub value: Option<&'a [u8]>,
}

/// The front of what a record's length counts.
#[tactic(auto, unfolding(crate::specs::Record::front_at))]
pub(crate) fn body_front(body: &[u8]) -> Option<(Front, &[u8])>
    ensures { option_map (λ x. front_behind (front_of x.0.ts_delta x.0.offset_delta
        (option_map (λ y. y.now) x.0.key) (option_map (λ y. y.now) x.0.value)) x.1.now) result ≡ front_at body.now }
{
    let [_, rest @ ..] = body else {
        return None;
    };
    let Some((ts_delta, rest)) = varlong(rest) else {
        return None;
    };
    let Some((offset_delta, rest)) = varint(rest) else {
        return None;
    };
    let Some((key, rest)) = optional(rest) else {
        return None;
    };
    let Some((value, rest)) = optional(rest) else {
        return None;
    };
    let front = Front {
        ts_delta,
        offset_delta,
        key,
        value,
    };
    Some((front, rest))
}
