//! Whether the leader epochs give the epochs of batches that were read. A batch's checksum doesn't cover its epoch.
//!
//! An epoch spans many batches, so the line is asked once for all of those that begin where one epoch reaches. The
//! batches were checked, so that their heads alone are read.

ghost use Rattle.std.specs.Prelude.{◌≡◌, ◌↔◌, Some, None, IfSome, IsTrue};
ghost use Rattle.std.specs.Int.{w32, w64, cast_unsigned};
ghost use Rattle.log_terms.specs.Line.{epoch_at};
ghost use Rattle.segment_file.specs.Walk.{size_in};
ghost use Rattle.log_steps.specs.Fronts.{Each};
ghost use Rattle.local_log.specs.Epochs.{IsOfLine, StraysAt, IsRow, HasEpoch};

use crate::run::head_at;
use epoch_line::Line;
use record_batch::Head;

/// What the leader epochs give from one offset up to another: an epoch, or none.
#[derive(Clone, Copy)]
pub(crate) struct Stretch {
    epoch: Option<u32>,
    from: u64,
    end: u64,
}

/// Where the first batch is whose epoch the line doesn't give.
pub(crate) fn first_stray(bytes: &[u8], line: &Line) -> Option<usize>
    requires { IsRow bytes.now }
    ensures some { IfSome result (λ at. (are : IsRow bytes.now) → StraysAt line.now are.batches at) }
    ensures none { result ≡ None → (are : IsRow bytes.now) → Each (IsOfLine line.now) are.batches }
{
    let mut at = 0;
    let mut stretch = Stretch {
        epoch: None,
        from: 0,
        end: 0,
    };
    while at < bytes.len() {
        let head = head_at(bytes, at);
        stretch = stretch_at(line, stretch, &head);
        if !gives(stretch, &head) {
            return Some(at);
        }
        at += size_in(&head);
    }
    None
}

/// The bytes of the batch that a head gives.
fn size_in(head: &Head) -> usize
    ensures { result ≡ size_in head.now }
{
    12 + head.batch_length.cast_unsigned() as usize
}

/// Whether a stretch gives the epoch that a head gives.
fn gives(stretch: Stretch, head: &Head) -> bool
    ensures { IsTrue result ↔ stretch.epoch ≡ Some (cast_unsigned w32 head.now.leader_epoch) }
{
    stretch.epoch == Some(head.leader_epoch.cast_unsigned())
}

/// The stretch that a head's base offset lies in, which often is the last one.
fn stretch_at(line: &Line, last: Stretch, head: &Head) -> Stretch
    requires { HasEpoch line.now last }
    ensures gives { HasEpoch line.now result }
    ensures here { result.epoch ≡ epoch_at line.now (cast_unsigned w64 head.now.base_offset) }
{
    let offset = head.base_offset.cast_unsigned();
    if last.from <= offset && offset < last.end {
        last
    } else {
        stretch_from(line, offset)
    }
}

/// The stretch from an offset on.
fn stretch_from(line: &Line, offset: u64) -> Stretch
    ensures gives { HasEpoch line.now result }
    ensures here { result.epoch ≡ epoch_at line.now offset }
{
    // Called for its clause `line`, by which the proof knows that the entries rise.
    let _entries = line.entries();
    let epoch = line.epoch_at(offset);
    let end = match epoch {
        Some(epoch) => line.end_of(epoch, u64::MAX).unwrap_or(offset),
        None => offset,
    };
    Stretch {
        epoch,
        from: offset,
        end,
    }
}
