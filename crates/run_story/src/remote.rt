//! What a run leaves in the remote tier, and where leader epochs start in the logs.

use crate::log_state::LogState;
use plain_log::Answer;
use std::alloc::{AllocError, Global};
use tier_base::SegmentId;

/// A remote log segment. Its times are places of entries in the partition's journal.
#[derive(Clone, Copy, Debug, PartialEq, Eq)]
pub struct RemoteSegment {
    pub id: SegmentId,
    pub first_offset: u64,
    pub last_offset: u64,
    /// The entry at which its copy began.
    pub copy_started: usize,
    /// The entry at which the copy was done.
    pub copy_finished: usize,
    /// The entry at which it was deleted.
    pub deleted: Option<usize>,
}

/// In the log of the leader of epoch `log`, the batches of `epoch` start at this offset.
#[derive(Clone, Copy, Debug, PartialEq, Eq)]
pub struct EpochStart {
    pub log: u64,
    pub epoch: u64,
    pub start: u64,
}

/// Records where leader epochs start in the log of a new leader: as in its log so far, and its own epoch at the end.
pub fn note_lead(
    alloc: Global,
    epochs: &mut Vec<EpochStart>,
    log: LogState,
    answer: &Answer,
) -> Result<(), AllocError> {
    let Answer::Leads(epoch) = answer else {
        return Ok(());
    };
    let mut starts = Vec::new(alloc);
    for start in epochs.as_slice() {
        if start.log == log.epoch && start.start < log.end {
            starts.push(EpochStart {
                log: *epoch,
                ..*start
            })?;
        }
    }
    starts.push(EpochStart {
        log: *epoch,
        epoch: *epoch,
        start: log.end,
    })?;
    epochs.extend_from_slice(starts.as_slice())?;
    Ok(())
}

/// Records a segment that was copied or deleted at an entry. `begun` is the entry at which its command began.
pub fn note_remote(
    remote: &mut Vec<RemoteSegment>,
    answer: &Answer,
    begun: usize,
    place: usize,
) -> Result<(), AllocError> {
    match answer {
        Answer::CopiedSegment(id, first_offset, last_offset) => {
            remote.push(RemoteSegment {
                id: *id,
                first_offset: *first_offset,
                last_offset: *last_offset,
                copy_started: begun,
                copy_finished: place,
                deleted: None,
            })?;
            Ok(())
        }
        Answer::Deleted(id) => {
            delete(remote, *id, place);
            Ok(())
        }
        _ => Ok(()),
    }
}

/// Records that a segment was deleted.
fn delete(remote: &mut Vec<RemoteSegment>, id: SegmentId, place: usize) {
    for segment in remote.as_mut_slice() {
        if segment.id == id {
            segment.deleted = Some(place);
        }
    }
}

/// Keeps the segments that are there, for a run that begins with them.
pub fn restart(remote: &mut Vec<RemoteSegment>) {
    remote.retain(|segment: &RemoteSegment| segment.deleted.is_none());
    for segment in remote.as_mut_slice() {
        segment.copy_started = 0;
        segment.copy_finished = 0;
    }
}
