//! Why a partition wasn't opened, or can't continue.

ghost use Rattle.std.specs.Prelude.{◌≡◌};

use registry_disk::FindRefusal;
use thiserror::Error;

/// Why a partition wasn't opened, or can't continue. What the registry's file says is reported before the other devices
/// are asked.
#[derive(Clone, Copy, Debug, PartialEq, Eq, Drop, Error)]
pub enum ColdRefusal {
    /// A call of the registry's disk failed.
    #[error("the registry's disk failed")]
    RegistryFault,
    /// A call of a broker's disk or of the metadata log failed. No device is armed.
    #[error("a device failed")]
    DeviceFault,
    /// The registry's file is invalid: its first fault is at this byte.
    #[error("the registry's file is invalid at byte {at}")]
    BadRegistry { at: u32 },
    /// The registry was kept for another count of brokers.
    #[error("the partition has {kept} brokers, not {asked}")]
    Brokers { kept: u16, asked: u16 },
    /// Out of memory.
    #[error("out of memory")]
    NoMemory,
}

impl From<FindRefusal> for ColdRefusal {
    ghost use Rattle.cold_start.specs.Opening.{refusal_of_find};

    ghost from_gives = { λ why e. e ≡ refusal_of_find why };

    fn from(why: FindRefusal) -> ColdRefusal {
        match why {
            FindRefusal::Fault => ColdRefusal::RegistryFault,
            FindRefusal::Bad { at } => ColdRefusal::BadRegistry { at },
            FindRefusal::NoMemory => ColdRefusal::NoMemory,
        }
    }
}
