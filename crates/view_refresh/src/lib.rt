//! Refreshes a broker's view of the remote metadata: adds the metadata events that it hasn't read yet.
//!
//! A task refreshes its broker's view in a turn of its own, and then looks up in it. specs/Refreshing.antt says what
//! a refresh makes of a view.
#![tactic(auto)]

mod laws;
mod refreshing;

pub use laws::a_refreshed_view_is_the_fold;
pub use refreshing::refresh;
