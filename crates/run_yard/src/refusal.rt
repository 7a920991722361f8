//! Why a script could not be run over an environment.

ghost use Rattle.std.specs.Prelude.{◌≡◌};
ghost use Rattle.run_yard.specs.Refusals.{of_trouble, of_cold};

use cold_start::ColdRefusal;
use tier_base::{PartitionId, Trouble};

/// Why a script could not be run over an environment. Each device that was provided is back.
#[derive(Clone, Copy, Debug, PartialEq, Eq)]
pub enum YardRefusal {
    /// A call of the environment failed, or one of the disk of a partition's registry; or one of another device of a
    /// partition, before its first command.
    Fault,
    /// The registry of this partition, the first such, was kept for another count of brokers than the script has.
    Mismatch {
        partition: PartitionId,
        kept: u16,
        asked: u16,
    },
    /// The file of this partition's registry, the first such, is invalid: its first fault is at this byte.
    BadRegistry {
        partition: PartitionId,
        at: u32,
    },
    /// Out of memory.
    NoMemory,
}

impl From<Trouble> for YardRefusal {
    fn from(trouble: Trouble) -> YardRefusal
        ensures { result ≡ of_trouble trouble }
    {
        match trouble {
            Trouble::Failed => YardRefusal::Fault,
            Trouble::NoMemory => YardRefusal::NoMemory,
        }
    }
}

/// The refusal of a script one of whose partitions was refused so.
pub(crate) fn refused(partition: PartitionId, why: ColdRefusal) -> YardRefusal
    ensures { result ≡ of_cold partition why }
{
    match why {
        ColdRefusal::RegistryFault | ColdRefusal::DeviceFault => YardRefusal::Fault,
        ColdRefusal::BadRegistry { at } => YardRefusal::BadRegistry { partition, at },
        ColdRefusal::Brokers { kept, asked } => YardRefusal::Mismatch {
            partition,
            kept,
            asked,
        },
        ColdRefusal::NoMemory => YardRefusal::NoMemory,
    }
}
