//! A partition's local log on a broker's disk: append, flush, roll, read, truncate, trim, and recovery from a crash.
//!
//! The log is a list of segments, each a file of record batches, and a manifest with the flushed length of each
//! segment and the leader epochs. A batch is durable after the next `flush`, which syncs the open segment and
//! replaces the manifest; a roll syncs the segment that it closes. Memory keeps where each batch ends, so an append
//! costs only its own bytes and a truncation reads nothing.
//!
//! Cut the power at any point inside any call: `open_at` then finds the flushed log from before the call, or the one
//! that the call was to make. It reads the manifest, writes it again, cuts the files to the listed lengths, checks
//! the batches, and writes the manifest under the next incarnation.
//!
//! A disk fault in a write breaks the log (`is_broken`). Every call that reads or changes the log requires one that
//! isn't broken; close a broken log and open it again.
#![tactic(auto)]

mod admitting;
mod cuts;
mod dropping;
mod epochs;
mod laws;
mod listing;
mod log;
mod opening;
mod parsing;
mod piece;
mod reading;
mod refusal;
mod restarting;
mod run;
mod seeking;
mod trimming;

pub use laws::an_image_opens_in_one_way;
pub use log::LocalLog;
pub use reading::RunOut;
pub use refusal::{AppendRefusal, CreateRefusal, OpenRefusal, ReadRefusal, RollRefusal};
