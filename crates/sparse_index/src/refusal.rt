//! Why the bytes of an index are refused.

use thiserror::Error;

/// Why bytes are no index. The first cause in this order is reported.
#[derive(Clone, Copy, Debug, PartialEq, Eq, Drop, Error)]
pub enum IndexRefusal {
    /// The length is no multiple of an entry's.
    #[error("the index doesn't end with a whole entry")]
    BadLength,
    /// The first entry, counted from 0, that isn't above the one before or holds a negative number.
    #[error("entry {at} of the index doesn't rise")]
    NotRising { at: u32 },
    /// There was no memory for the entries.
    #[error("no memory for the index")]
    NoMemory,
}
