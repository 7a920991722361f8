//! The steps of a local log on its disk, without the log in memory. Each is a few disk calls, and its contract says
//! what the files are then and what a crash at any point of it may leave.
//!
//! The definitions say what the files of a log mean. `Opens` says which log files open as: the manifest limits the
//! length of each segment's file, and these prefixes are read as batches. `Reopens` says what a disk must satisfy so
//! that opening it again is safe. `publish` replaces the manifest, and `rewrite` is the first part of an opening.
#![tactic(auto)]

mod publishing;
mod rewriting;

pub use publishing::publish;
pub use rewriting::rewrite;
