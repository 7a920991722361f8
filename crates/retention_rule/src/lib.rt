//! Retention: which closed segments are due, by age and by size.
//!
//! The local log asks whether its oldest segment is due, the remote log how many segments its start passes. Both use
//! the same rule, oldest first. Sizes in bytes and ages in milliseconds are computed in 128 bits, so that nothing
//! overflows.
#![tactic(auto)]

mod due;
mod laws;

pub use due::{local_due, start_due};
pub use laws::{
    larger_limits_keep_more, what_goes_is_due, what_is_due_stays_due, what_stays_is_not_due,
};
