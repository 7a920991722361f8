//! Why a call of a local log failed.

ghost use Rattle.std.specs.Prelude.{◌≡◌};

use std::alloc::AllocError;
use thiserror::Error;
use tier_base::{FileName, Trouble};

/// Why a log wasn't created. A crash leaves the disk as it was before, or with the new log.
#[derive(Clone, Copy, Debug, PartialEq, Eq, Drop, Error)]
pub enum CreateRefusal {
    /// A call of the disk failed.
    #[error("the disk failed")]
    DiskFault,
    /// Out of memory.
    #[error("out of memory")]
    NoMemory,
}

/// Why a log wasn't opened. What could be opened from the disk before still can.
#[derive(Clone, Copy, Debug, PartialEq, Eq, Drop, Error)]
pub enum OpenRefusal {
    /// A call of the disk failed.
    #[error("the disk failed")]
    DiskFault,
    /// What the disk returned of this file is invalid at this position, in bytes.
    #[error("{file:?} is damaged at {at}")]
    Damaged { file: FileName, at: u64 },
    /// The manifest's incarnation is 4,294,967,295, and there is no next one.
    #[error("the last incarnation")]
    LastIncarnation,
    /// Out of memory.
    #[error("out of memory")]
    NoMemory,
}

/// Why batches weren't appended. Of the first two causes, the first that holds is returned, before the disk is asked.
/// A `DiskFault` breaks the log, which can only be closed then; any other refusal leaves it as it was.
#[derive(Clone, Copy, Debug, PartialEq, Eq, Drop, Error)]
pub enum AppendRefusal {
    /// The first batch's last offset would be 2^62 or more.
    #[error("the offsets are at their end")]
    LastOffset,
    /// A roll is due, and there are 4,096 segments already.
    #[error("there are 4096 segments already")]
    TooManySegments,
    /// A call of the disk failed.
    #[error("the disk failed")]
    DiskFault,
    /// Out of memory.
    #[error("out of memory")]
    NoMemory,
}

/// Why the open segment wasn't closed. Of the first two causes, the first that holds is returned, before the disk is
/// asked. A `DiskFault` breaks the log, which can only be closed then; any other refusal leaves it as it was.
#[derive(Clone, Copy, Debug, PartialEq, Eq, Drop, Error)]
pub enum RollRefusal {
    /// The open segment has no batch.
    #[error("the open segment is empty")]
    EmptySegment,
    /// There are 4,096 segments already.
    #[error("there are 4096 segments already")]
    TooManySegments,
    /// A call of the disk failed.
    #[error("the disk failed")]
    DiskFault,
    /// Out of memory.
    #[error("out of memory")]
    NoMemory,
}

/// Why nothing was read. The log is as it was. A high watermark at which no batch ends is refused before the disk is
/// asked; damage in what the disk returned is found last.
#[derive(Clone, Copy, Debug, PartialEq, Eq, Drop, Error)]
pub enum ReadRefusal {
    /// What the disk returned of this file is invalid at this position, or the batch there has another leader epoch
    /// than the log has at its offset. Or no batch ends at the high watermark, and the batch that contains it begins
    /// at this position.
    #[error("{file:?} is damaged at {at}")]
    Damaged { file: FileName, at: u64 },
    /// A call of the disk failed.
    #[error("the disk failed")]
    DiskFault,
    /// Out of memory.
    #[error("out of memory")]
    NoMemory,
}

impl From<AllocError> for CreateRefusal {
    ghost use Rattle.local_log.specs.declared.refusal.CreateRefusal.TheVariants.{NoMemory};

    ghost from_gives = { λ _ why. why ≡ NoMemory };

    fn from(_error: AllocError) -> CreateRefusal {
        CreateRefusal::NoMemory
    }
}

impl From<AllocError> for OpenRefusal {
    ghost use Rattle.local_log.specs.declared.refusal.OpenRefusal.TheVariants.{NoMemory};

    ghost from_gives = { λ _ why. why ≡ NoMemory };

    fn from(_error: AllocError) -> OpenRefusal {
        OpenRefusal::NoMemory
    }
}

impl From<Trouble> for OpenRefusal {
    ghost use Rattle.local_log.specs.Refusing.{refusal_of};

    ghost from_gives = { λ trouble why. why ≡ refusal_of trouble };

    fn from(trouble: Trouble) -> OpenRefusal {
        match trouble {
            Trouble::Failed => OpenRefusal::DiskFault,
            Trouble::NoMemory => OpenRefusal::NoMemory,
        }
    }
}

impl From<Trouble> for AppendRefusal {
    ghost use Rattle.local_log.specs.Refusing.{append_refusal};

    ghost from_gives = { λ trouble why. why ≡ append_refusal trouble };

    fn from(trouble: Trouble) -> AppendRefusal {
        match trouble {
            Trouble::Failed => AppendRefusal::DiskFault,
            Trouble::NoMemory => AppendRefusal::NoMemory,
        }
    }
}

impl From<AllocError> for RollRefusal {
    ghost use Rattle.local_log.specs.declared.refusal.RollRefusal.TheVariants.{NoMemory};

    ghost from_gives = { λ _ why. why ≡ NoMemory };

    fn from(_error: AllocError) -> RollRefusal {
        RollRefusal::NoMemory
    }
}

impl From<AllocError> for ReadRefusal {
    ghost use Rattle.local_log.specs.declared.refusal.ReadRefusal.TheVariants.{NoMemory};

    ghost from_gives = { λ _ why. why ≡ NoMemory };

    fn from(_error: AllocError) -> ReadRefusal {
        ReadRefusal::NoMemory
    }
}

impl From<Trouble> for ReadRefusal {
    ghost use Rattle.local_log.specs.Refusing.{read_refusal};

    ghost from_gives = { λ trouble why. why ≡ read_refusal trouble };

    fn from(trouble: Trouble) -> ReadRefusal {
        match trouble {
            Trouble::Failed => ReadRefusal::DiskFault,
            Trouble::NoMemory => ReadRefusal::NoMemory,
        }
    }
}
