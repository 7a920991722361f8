//! Why nothing was read of a remote segment.

ghost use Rattle.std.specs.Prelude.{◌≡◌};
ghost use Rattle.tier_fetch.specs.Turns.{refused};

use plain_log::{Answer, Place, Turn};
use std::alloc::AllocError;
use thiserror::Error;

/// Why nothing was read of a remote segment. The store is asked once at most; damage in what it returned is found last.
#[derive(Clone, Copy, Debug, PartialEq, Eq, Drop, Error)]
pub enum RemoteRefusal {
    /// The object lacks what is read, or is invalid from this position on. Or the metadata events that the broker has
    /// seen, so many, don't say where the segment is.
    #[error("{place:?} is damaged at {at}")]
    Damaged { place: Place, at: u64 },
    /// A call of the store failed.
    #[error("the store failed")]
    StoreFault,
    /// Out of memory.
    #[error("out of memory")]
    NoMemory,
}

impl RemoteRefusal {
    /// The turn of a task that was to read the segment. Fails only if memory ran out.
    pub fn turn<N>(self) -> Result<Turn<N>, AllocError>
        ensures { result ≡ refused self }
    {
        match self {
            RemoteRefusal::Damaged { place, at } => Ok(Turn::Ends(Answer::Damaged(place, at))),
            RemoteRefusal::StoreFault => Ok(Turn::Ends(Answer::StoreFault)),
            RemoteRefusal::NoMemory => Err(AllocError),
        }
    }
}

impl From<AllocError> for RemoteRefusal {
    ghost use Rattle.tier_fetch.specs.declared.refusal.RemoteRefusal.TheVariants.{NoMemory};

    ghost from_gives = { λ _ why. why ≡ NoMemory };

    fn from(_error: AllocError) -> RemoteRefusal {
        RemoteRefusal::NoMemory
    }
}
