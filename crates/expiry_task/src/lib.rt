//! Retention and deletion in the remote tier: a leader raises the log start offset and deletes the remote segments
//! below it.
//!
//! Each device call of an expiry is a turn of its own. A *delete started* event goes to the metadata log before the
//! first object is deleted, so that no broker reads a segment whose deletion has begun, and a *delete finished* event
//! after the last one.
#![tactic(auto)]

mod laws;
mod rule;
mod turn;
mod turns;

pub use laws::{a_log_start_rises_up_to_the_known_mark, only_what_is_copied_goes};
pub use rule::{Uncopied, end_behind, end_from, find_uncopied, raised_to, rest_behind};
pub use turn::{DeletionStep, ExpiredSegment};
pub use turns::expiry_turn;
