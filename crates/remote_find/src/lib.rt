//! Which remote segment has an offset of a log: decided by the leader epochs of the log that is read.
//!
//! Brokers that led in turn may have copied different batches under the same offset. So a remote segment counts at an
//! offset only if its leader epochs give the epoch that the reading log has there, and only as far as this epoch goes
//! in both.
#![tactic(auto)]

mod laws;
mod piece;
mod pieces;
mod reaching;

pub use laws::{
    a_chain_is_the_longest, a_piece_lies_in_one_copy_and_epoch, what_is_covered_has_pieces,
};
pub use piece::Piece;
pub use pieces::{chain, find};
pub use reaching::covered_to;
