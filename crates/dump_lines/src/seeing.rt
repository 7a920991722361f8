//! What a dump finds at a position of a log segment. `specs/Seen.antt` has the cases.

ghost use Rattle.std.specs.Prelude.{◌≡◌};
ghost use Rattle.record_batch.specs.Check.{head_in, checked, of_head as batch_cause};
ghost use Rattle.segment_file.specs.Walk.{size_in as size_of};
ghost use Rattle.dump_lines.specs.Seen.{is_kind as is_of_kind, judged_at, broken_at, seen_at};
ghost use Rattle.dump_lines.specs.Seen.{IsBatchWithin, HasPosition, HasHead, IsChecked, IsCheckedFront};

use record_batch::{BatchRefusal, Head, HeadRefusal, check, read_head};

/// A batch that is shown.
#[derive(Clone, Copy, Debug, PartialEq, Eq)]
pub struct Shown {
    /// Where the batch begins in the file.
    pub position: u64,
    pub head: Head,
    /// Why the log would refuse the batch, though its checksum is right: it is compressed, part of a transaction, or a
    /// control batch.
    pub refused: Option<BatchRefusal>,
}

/// A position at which there is no valid batch.
#[derive(Clone, Copy, Debug, PartialEq, Eq)]
pub struct Broken {
    pub position: u64,
    /// The head, if the file has all bytes of its batch.
    pub head: Option<Head>,
    /// The first test that fails.
    pub why: BatchRefusal,
}

/// What ends a dump.
#[derive(Clone, Copy, Debug, PartialEq, Eq)]
pub enum Ending {
    /// The file ends after the last batch.
    End { position: u64 },
    /// Bytes follow that aren't a valid batch.
    NoBatch(Broken),
}

/// What is found at a position.
#[derive(Clone, Copy, Debug, PartialEq, Eq)]
pub enum Seen {
    Batch(Shown),
    Ends(Ending),
}

/// Returns the size in bytes of the batch with this head.
pub fn size_in(head: &Head) -> usize
    ensures { result ≡ size_of head.now }
{
    12 + head.batch_length.cast_unsigned() as usize
}

/// Whether the log refuses the batch only because it is compressed, transactional or a control batch.
fn is_kind(why: BatchRefusal) -> bool
    ensures { result ≡ is_of_kind why }
{
    matches!(
        why,
        BatchRefusal::Compressed | BatchRefusal::Transactional | BatchRefusal::Control
    )
}

/// A cause for which a head is invalid, as a batch's.
fn of_head(why: HeadRefusal) -> BatchRefusal
    ensures { result ≡ batch_cause why }
{
    match why {
        HeadRefusal::Short => BatchRefusal::Short,
        HeadRefusal::BadMagic => BatchRefusal::BadMagic,
        HeadRefusal::BadLength => BatchRefusal::BadLength,
    }
}

/// A position at which there is no valid batch.
fn no_batch(position: u64, head: Option<Head>, why: BatchRefusal) -> Seen
    ensures exact { result ≡ broken_at position head why }
    ensures place { HasPosition position result }
{
    Seen::Ends(Ending::NoBatch(Broken {
        position,
        head,
        why,
    }))
}

/// Tests the bytes of the batch with this head.
fn judged(batch: &[u8], position: u64, head: Head) -> Seen
    ensures exact { result ≡ judged_at position head (head_in (checked batch.now)) }
    ensures head { HasHead head result }
    ensures whole { IsChecked batch.now result }
    ensures place { HasPosition position result }
{
    match check(batch) {
        Ok(_) => Seen::Batch(Shown {
            position,
            head,
            refused: None,
        }),
        Err(why) => {
            if is_kind(why) {
                Seen::Batch(Shown {
                    position,
                    head,
                    refused: Some(why),
                })
            } else {
                no_batch(position, Some(head), why)
            }
        }
    }
}

/// Returns what the bytes at a position begin with.
#[tactic(auto, unfolding(crate::specs::Seen::seen_at))]
pub fn look(bytes: &[u8], position: u64) -> Seen
    ensures exact { result ≡ seen_at position bytes.now }
    ensures within { IsBatchWithin bytes.now result }
    ensures whole { IsCheckedFront bytes.now result }
    ensures place { HasPosition position result }
{
    if bytes.is_empty() {
        return Seen::Ends(Ending::End { position });
    }
    let head = match read_head(bytes) {
        Ok(head) => head,
        Err(why) => return no_batch(position, None, of_head(why)),
    };
    let size = size_in(&head);
    if bytes.len() < size {
        return no_batch(position, None, BatchRefusal::Short);
    }
    let (batch, _) = bytes.split_at(size);
    judged(batch, position, head)
}
