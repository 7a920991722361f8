//! Laws of rebuilds from the remote tier: the leader epochs that a follower reads there are those of the log that it
//! joined.
//!
//! `rebuild_task` says what the turn of a rebuild that reads the tier does, depending on what the store returns, and
//! `tier_safe` what may change in the tier. Here are the laws between the two. They hold of a turn at which the log
//! start offset is below the offset where the follower's local log is to start: the caller tests that before.
#![tactic(auto)]

mod laws;

pub use laws::{a_rebuild_finds_all, a_rebuild_reads_its_path, a_rebuild_refreshes};
