//! Why a world wasn't made.

use thiserror::Error;

/// Why a world wasn't made. The brokers' disks are back, and their plans aren't in force.
#[derive(Clone, Copy, Debug, PartialEq, Eq, Drop, Error)]
pub enum WorldRefusal {
    /// A call of a broker's disk failed.
    #[error("a broker's disk failed")]
    DiskFault,
    /// There was no memory.
    #[error("out of memory")]
    NoMemory,
}
