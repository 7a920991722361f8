//! Counts the items of a slice that are below a bound, several at a time.
//!
//! A search that has halved down to a block counts inside it: in an ascending slice the count is the position. The
//! slice need not be ascending, and may have any length.
#![tactic(auto)]

mod lanes;
mod plain;

pub use lanes::{count_le_u32, count_lt_i64};
