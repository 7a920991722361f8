//! Why a text is not a trace.

ghost use Rattle.std.specs.Prelude.{◌≡◌};
ghost use Rattle.trace_text.specs.declared.refusal.TraceRefusal.{TraceRefusal};

use std::alloc::AllocError;
use thiserror::Error;

/// Why bytes are not a trace. Of several invalid lines the first is reported.
#[derive(Clone, Copy, Debug, PartialEq, Eq, Error)]
pub enum TraceRefusal {
    /// The line with this number, counted from 1, is invalid, or its partition is below that of the line
    /// before. The number stays at 4,294,967,295 for all later lines.
    #[error("line {line} is no line of a trace")]
    Bad { line: u32 },
    /// Out of memory.
    #[error("no memory")]
    NoMemory,
}

impl From<AllocError> for TraceRefusal {
    ghost from_gives = { λ e refusal. refusal ≡ TraceRefusal.NoMemory };

    fn from(_: AllocError) -> TraceRefusal {
        TraceRefusal::NoMemory
    }
}
