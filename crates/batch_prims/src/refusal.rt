//! Why bytes aren't a valid varint.

use thiserror::Error;

/// Why no number is at the front of the bytes. At most one of the two holds.
#[derive(Clone, Copy, Debug, PartialEq, Eq, Error)]
pub enum VarRefusal {
    /// Each byte says that another follows, and the bytes end before that.
    #[error("the bytes end inside a number")]
    Short,
    /// As many bytes as a number may have each say that another follows.
    #[error("a number has too many bytes")]
    TooLong,
}
