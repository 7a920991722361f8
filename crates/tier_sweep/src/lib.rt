//! The sweep of a remote tier at rest: it deletes what unfinished copies and deletions left.
//!
//! A tier is at rest if no command is in progress and nobody else writes to it. Brokers that stopped may have left
//! copies and deletions in progress there, with any of their objects. An expiry deletes those once the log start offset
//! is past them; an object whose id has no entry is deleted by a sweep alone. The module Rest of specs/ says what holds
//! of a tier at rest, Sweeping what a sweep appends, deletes and counts, and Parts what each part of it does to its
//! device.
#![tactic(auto)]

mod laws;
mod refusal;
mod sweeping;
mod taking;
mod telling;

pub use laws::{
    a_further_sweep_ends_it, a_sweep_ends_what_is_under_way, a_sweep_keeps_finished_copies,
    a_sweep_under_way_keeps_finished_copies, a_sweep_under_way_keeps_names, what_is_swept_rests,
};
pub use refusal::SweepRefusal;
pub use sweeping::sweep;
