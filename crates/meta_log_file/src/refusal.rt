//! Why a disk gives no metadata log.

ghost use Rattle.std.specs.Prelude.{◌≡◌};

use std::alloc::AllocError;
use thiserror::Error;
use tier_base::Trouble;

/// Why a metadata log wasn't opened. The disk can be opened again as far as it could before.
#[derive(Clone, Copy, Debug, PartialEq, Eq, Drop, Error)]
pub enum NotesRefusal {
    /// A call of the disk failed.
    #[error("the disk of the metadata log failed")]
    Failed,
    /// What is up to the gate is invalid from this place of `notes` on, or the gate has none, and then this is 0.
    #[error("the metadata log is damaged at {at}")]
    Damaged { at: u64 },
    /// There was no memory.
    #[error("no memory for the metadata log")]
    NoMemory,
}

impl From<AllocError> for NotesRefusal {
    ghost use Rattle.meta_log_file.specs.declared.refusal.NotesRefusal.TheVariants.{NoMemory};

    ghost from_gives = { λ _ why. why ≡ NoMemory };

    fn from(_error: AllocError) -> NotesRefusal {
        NotesRefusal::NoMemory
    }
}

impl From<Trouble> for NotesRefusal {
    ghost use Rattle.meta_log_file.specs.Refusing.{refusal_of};

    ghost from_gives = { λ trouble why. why ≡ refusal_of trouble };

    fn from(trouble: Trouble) -> NotesRefusal {
        match trouble {
            Trouble::Failed => NotesRefusal::Failed,
            Trouble::NoMemory => NotesRefusal::NoMemory,
        }
    }
}
