//! The part of a follower's rebuild that reads the remote tier: it gets the leader epochs with which the local log
//! restarts.
//!
//! If a follower's log ends below its leader's local log it can't follow any more, because the next batches aren't on
//! the leader's disk. Its local log then restarts, empty, where the leader's local log starts. Its batches below that
//! are in the remote tier, and so are the leader epochs up to there: beside each remote segment's log are the epochs up
//! to its last offset. The turn here reads them.
//!
//! Before this turn the broker's view has been refreshed; after it the local log restarts with the epochs. Stops,
//! elections and other commands may come between any two of these turns, so the caller tests before each that none of
//! these prevents it and that the log start offset is still below the wanted offset. The turn doesn't test this again.
#![tactic(auto)]

mod turn;
mod turns;

pub use turn::{RebuildRequest, RebuildStep};
pub use turns::rebuild_turn;
