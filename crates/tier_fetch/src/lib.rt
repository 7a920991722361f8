//! A leader's fetch of an offset below its local log, from the remote tier, turn by turn.
//!
//! Such a fetch takes three turns after its first one, so that stops, elections and other commands may come between any
//! two of them. First the broker's view is refreshed, and the remote segment that has the offset is chosen. Then the
//! segment's offset index is taken from the broker's cache, or read. Then the part of its log that the index selects is
//! read, and the run is cut out of it.
//!
//! `find_span` and `read_run` are what the last two turns read. A lookup by timestamp reads the same.
//!
//! Before each turn the caller tests that the broker hasn't stopped since the fetch began and still leads in that
//! epoch, that the offset is in the log's range, and that it is below the broker's high watermark. The turns don't test
//! this again.
#![tactic(auto)]

mod reading;
mod refusal;
mod spanning;
mod turn;
mod turns;

pub use reading::{RemoteRun, find_span, read_run, spot_in};
pub use refusal::RemoteRefusal;
pub use spanning::span_of;
pub use turn::{FetchRequest, FetchStep, Span};
pub use turns::fetch_turn;
