//! What commands return.

use bytes::Bytes;
use record_batch::BatchRefusal;
use tier_base::{FileName, ObjectKey, SegmentId, State, Stop};

/// What was found damaged.
#[derive(Clone, Copy, Debug, PartialEq, Eq)]
pub enum Place {
    /// An object of the remote store.
    Key(ObjectKey),
    /// A file of the broker.
    File(FileName),
    /// The remote log metadata.
    Meta,
}

/// Where fetched bytes come from.
#[derive(Clone, Copy, Debug, PartialEq, Eq)]
pub enum Tier {
    /// The local segment with this base offset.
    Local(u64),
    /// The remote segment with this id.
    Remote(SegmentId),
}

/// The answer to a command. Which commands give which, and when, is the row of the command in `specs/Rows.antt`.
#[derive(Debug, Drop)]
pub enum Answer {
    /// Done.
    Ok,
    /// Done; the number is what the command came to: the log end offset (flush), the high watermark (ack), the base of
    /// the new segment (roll), the new leader epoch (elect, unclean), the new log start offset (raise).
    OkAt(u64),
    /// Appended: the batch's base offset, its last offset and its leader epoch.
    OkSpan(u64, u64, u64),
    /// The broker isn't up.
    Down,
    /// The broker doesn't lead, or not in the epoch that it led when the command began.
    NotLeader,
    /// The bytes are no batch, for this cause.
    Refused(BatchRefusal),
    /// The log would end above offset 2^62.
    LastOffset,
    /// A segment would have to roll, and the log has as many as it may.
    TooManySegments,
    /// The broker's disk failed.
    DiskFault,
    /// The broker's disk failed, where the log was to end or to begin at this offset.
    DiskFaultAt(u64),
    /// The open segment is empty, so there is nothing to close.
    EmptySegment,
    /// No leader epoch follows the greatest.
    LastEpoch,
    /// The broker isn't one of the replicas in sync.
    NotInSync,
    /// The broker isn't up, and the registry wants it to be.
    DownBroker,
    /// The broker's flushed end, the first, is below the log start offset, the second.
    BehindStart(u64, u64),
    /// The broker has learned of this epoch already.
    Known,
    /// The broker follows the leader of this epoch.
    Follows(u64),
    /// The broker is to lead this epoch and did before, so the epoch must be raised by an election.
    NeedsElection(u64),
    /// The broker leads this epoch.
    Leads(u64),
    /// The broker follows nobody.
    NotFollower,
    /// The registry has this leader epoch, and the broker's is lower.
    StaleEpoch(u64),
    /// The leader isn't up, or doesn't lead yet.
    NoLeader,
    /// The log was cut to this end.
    Cut(u64),
    /// The broker has stopped since the command began.
    Stopped,
    /// The log has another end by now: this one.
    Passed(u64),
    /// The log start offset, this one, has passed the offset that was wanted.
    BelowStart(u64),
    /// The remote log metadata failed.
    MetaFault,
    /// The remote store failed.
    StoreFault,
    /// What was read there is invalid from this place on.
    Damaged(Place, u64),
    /// The log was restarted at this offset, what is below it being in the remote tier or below the log start offset.
    Rebuilt(u64),
    /// The broker neither leads nor has joined the leader that it follows.
    NotJoined,
    /// There is nothing to do: the follower is as far as the leader, or nothing is left to copy.
    Level,
    /// The leader's local log begins at this offset, above the follower's end.
    Moved(u64),
    /// The follower's log ends here after the copy.
    Copied(u64),
    /// A segment was copied under this id: its first and its last offset.
    CopiedSegment(SegmentId, u64, u64),
    /// The leader can't leave the replicas in sync.
    IsLeader,
    /// The broker acknowledged up to the first of these, below the high watermark, the second.
    Behind(u64, u64),
    /// The broker has stopped or has another role since the command began.
    LostLead,
    /// The segment came to this state while it was copied.
    Overtaken(State),
    /// Nothing is due.
    Kept,
    /// The local segment from the first to the second of these offsets was dropped.
    Dropped(u64, u64),
    /// The log start offset was raised to this one.
    Raised(u64),
    /// The remote segment of this id was deleted.
    Deleted(SegmentId),
    /// The log start offset, this one, isn't below what was asked.
    NotAbove(u64),
    /// The high watermark, this one, is below what was asked.
    AboveMark(u64),
    /// The broker is up already.
    IsUp,
    /// The log can't be opened again: its count of openings is at its end.
    LastIncarnation,
    /// The broker is up, and its log ends here.
    Up(u64),
    /// The offset is below the first of these, the log start offset, or above the second, the log end offset.
    OutOfRange(u64, u64),
    /// The offset isn't below the high watermark that the broker knows.
    Empty,
    /// Batches of the leader's log, one after another.
    Run {
        tier: Tier,
        size: u64,
        stop: Stop,
        bytes: Bytes,
    },
    /// Copying is turned off.
    CopyOff,
    /// The offset that was asked for.
    Offset(u64),
    /// There is no such offset.
    NoOffset,
}
