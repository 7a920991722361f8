//! Why the registry refuses.

use thiserror::Error;

/// Why a call was refused. The first cause in the order of the call's tests is reported. None of them changes the
/// registry.
#[derive(Clone, Copy, Debug, PartialEq, Eq, Error)]
pub enum RegRefusal {
    /// No leader epoch follows the greatest.
    #[error("the leader epoch is the greatest")]
    LastEpoch,
    /// The broker isn't one of the replicas in sync, so what is committed may be missing there.
    #[error("the broker is not in sync")]
    NotInSync,
    /// The broker isn't up.
    #[error("the broker is down")]
    DownBroker,
    /// What the broker would still have ends below the log start offset.
    #[error("the stable end {end} is below the log start offset {start}")]
    BehindStart { end: u64, start: u64 },
    /// The caller's epoch is below the current one, so another broker may lead by now.
    #[error("stale epoch: the current one is {current}")]
    StaleEpoch { current: u32 },
    /// The leader can't leave the replicas in sync.
    #[error("the broker leads")]
    IsLeader,
    /// The broker hasn't acknowledged all that is committed in this epoch.
    #[error("acknowledged up to {ack}, below the high watermark {mark}")]
    Behind { ack: u64, mark: u64 },
    /// The wanted start is at or below the log start offset.
    #[error("the log start offset is {start} already")]
    NotAbove { start: u64 },
    /// The wanted start is above the high watermark, so what isn't committed would go.
    #[error("the high watermark is {mark}")]
    AboveMark { mark: u64 },
}
