//! Why bytes are not a metadata event.

ghost use Rattle.std.specs.Prelude.{◌≡◌};

use std::alloc::AllocError;
use thiserror::Error;

/// Why bytes are not a metadata event: the first fault from the left.
#[derive(Clone, Copy, Debug, PartialEq, Eq, Drop, Error)]
pub enum NoteRefusal {
    /// The bytes end before the event does.
    #[error("the note is cut short")]
    Short,
    /// The version is neither 0 nor 1.
    #[error("the note has an unknown version")]
    BadVersion,
    /// An event of this kind can't have this state.
    #[error("the note has a state that can't stand there")]
    BadState,
    /// The field at this position breaks a rule, or the event ends before it.
    #[error("the note can't go on so at {at}")]
    Bad { at: u32 },
    /// Out of memory.
    #[error("no memory for the note")]
    NoMemory,
}

impl From<AllocError> for NoteRefusal {
    ghost use Rattle.segment_meta.specs.declared.refusal.NoteRefusal.TheVariants.{NoMemory};

    ghost from_gives = { λ _ why. why ≡ NoMemory };

    fn from(_error: AllocError) -> NoteRefusal {
        NoteRefusal::NoMemory
    }
}
