//! Why a sweep was refused.

use thiserror::Error;

/// Why a sweep was refused. What it did until then stays done, and a further sweep ends it.
#[derive(Clone, Copy, Debug, PartialEq, Eq, Drop, Error)]
pub enum SweepRefusal {
    /// A call of the store failed.
    #[error("the store failed")]
    StoreFault,
    /// A call of the metadata log failed.
    #[error("the metadata log failed")]
    MetaFault,
    /// There was no memory.
    #[error("no memory for the sweep")]
    NoMemory,
}
