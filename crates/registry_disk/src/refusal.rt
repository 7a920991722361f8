//! Why a disk's registry couldn't be read.

ghost use Rattle.std.specs.Prelude.{◌≡◌};

use registry_file::RegFileRefusal;
use thiserror::Error;
use tier_base::Trouble;

/// Why a disk's registry couldn't be read. The disk holds what it held.
#[derive(Clone, Copy, Debug, PartialEq, Eq, Drop, Error)]
pub enum FindRefusal {
    /// The disk's read failed.
    #[error("the registry's disk failed")]
    Fault,
    /// The file isn't a registry's: its first fault is at this byte.
    #[error("the registry's file is invalid at byte {at}")]
    Bad { at: u32 },
    /// Out of memory.
    #[error("out of memory")]
    NoMemory,
}

impl From<Trouble> for FindRefusal {
    ghost use Rattle.registry_disk.specs.Keeping.{refusal_of};

    ghost from_gives = { λ why e. e ≡ refusal_of why };

    fn from(why: Trouble) -> FindRefusal {
        match why {
            Trouble::Failed => FindRefusal::Fault,
            Trouble::NoMemory => FindRefusal::NoMemory,
        }
    }
}
