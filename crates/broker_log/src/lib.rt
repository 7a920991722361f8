//! A broker's log: open while the broker is up, and only its disk while the broker is down.
//!
//! Its contracts hide segments, manifests and crash states. They speak of the log as it is seen: its batches, its
//! leader epochs, its flushed end, and what is left after a stop. A disk fault closes the log, because the write may
//! have been done or not; opening it again finds what was flushed, or what the write was to make. The log is seen whole
//! even if its first segments were dropped or it was restarted empty: what is below its local start is elsewhere.
#![tactic(auto)]

mod broker;
mod place;

pub use broker::BrokerLog;
pub use local_log::{AppendRefusal, CreateRefusal, OpenRefusal, ReadRefusal, RollRefusal, RunOut};
