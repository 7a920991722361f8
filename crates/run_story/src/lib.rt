//! The story of a run: what each partition's brokers and its remote tier held after each entry of a trace.
//!
//! `Tracked` has a partition between two entries: the plain log, which carries out each entry and refuses the first
//! that is no step, and what the plain log doesn't say of the brokers' logs and of the remote tier, which the answers
//! say. `tell` goes over a journal and makes a `Moment` of each entry, once and in order. A later run begins as a
//! power cut leaves the one before it.
#![tactic(auto)]

mod change;
mod commands;
mod log_state;
mod marks;
mod moment;
mod remote;
mod run;
mod telling;
mod text;
mod tracked;

pub use log_state::LogState;
pub use marks::Mark;
pub use moment::Moment;
pub use remote::{EpochStart, RemoteSegment};
pub use run::{Story, StoryRefusal, tell_run};
pub use telling::{TellRefusal, tell};
pub use tracked::Tracked;
