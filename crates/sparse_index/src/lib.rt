//! The sparse indexes of a log segment: where to begin a search for an offset or for a timestamp.
//!
//! An index has entries for some of the batches. A lookup takes the last entry at or below its target. The entries
//! are stored as columns, so that a lookup halves one column down to a block and then counts inside it, several
//! entries at once.
#![tactic(auto)]

mod columns;
mod halving;
mod offset_index;
mod refusal;
mod time_index;

pub use offset_index::OffsetIndex;
pub use refusal::IndexRefusal;
pub use time_index::TimeIndex;
