//! What is at a position of a segment's bytes. The module Walk of specs/ has the cases.

ghost use Rattle.std.specs.Prelude.{◌≡◌, ◌≤◌, length, drop};
ghost use Rattle.record_batch.specs.Check.{head_in, checked};
ghost use Rattle.segment_file.specs.Walk.{size_in, tested_at, found_at};

use record_batch::{Head, HeadRefusal, check, read_head};

/// What is at a place.
#[derive(Clone, Copy, Debug, PartialEq, Eq)]
pub enum Found {
    /// A batch, whole and checked.
    Batch(Head),
    /// Nothing: the bytes end there.
    End,
    /// The front of a batch that is cut short.
    Cut { at: usize },
    /// Bytes that are no batch.
    Bad { at: usize },
}

/// The bytes of the batch that a head gives.
pub(crate) fn size_in(head: &Head) -> usize
    ensures { result ≡ size_in head.now }
{
    12 + head.batch_length.cast_unsigned() as usize
}

/// What the tests of a batch say of bytes at a place.
fn tested(batch: &[u8], at: usize) -> Found
    ensures { result ≡ tested_at at (head_in (checked batch.now)) }
{
    match check(batch) {
        Ok(head) => Found::Batch(head),
        Err(_) => Found::Bad { at },
    }
}

/// What bytes begin with, which are at a place.
#[tactic(auto, unfolding(crate::specs::Walk::found_at))]
fn at_front(bytes: &[u8], at: usize) -> Found
    ensures { result ≡ found_at at bytes.now }
{
    if bytes.len() == 0 {
        return Found::End;
    }
    let head = match read_head(bytes) {
        Ok(head) => head,
        Err(HeadRefusal::Short) => return Found::Cut { at },
        Err(HeadRefusal::BadMagic | HeadRefusal::BadLength) => return Found::Bad { at },
    };
    let size = size_in(&head);
    if bytes.len() < size {
        return Found::Cut { at };
    }
    let (batch, _) = bytes.split_at(size);
    tested(batch, at)
}

/// Returns what is at a place.
pub fn walk(bytes: &[u8], at: usize) -> Found
    requires { at ≤ length bytes.now }
    ensures { result ≡ found_at at (drop at bytes.now) }
{
    let (_, rest) = bytes.split_at(at);
    at_front(rest, at)
}
