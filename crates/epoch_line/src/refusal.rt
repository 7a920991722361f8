//! Why a text is refused.

use thiserror::Error;

/// Why a text is no line. Nothing is read from it then.
#[derive(Clone, Copy, Debug, PartialEq, Eq, Drop, Error)]
pub enum TextRefusal {
    /// The first line, counted from 1, that can't be there. A missing line counts.
    #[error("line {line} of the epoch text can't stand there")]
    BadText { line: u32 },
    /// There was no memory for the entries.
    #[error("no memory for the epoch text")]
    NoMemory,
}
