//! Laws of runs over one environment, such as a directory, one after another.
//!
//! A run begins in each state of the plain log that the environment's devices of its partition represent, and leaves
//! devices that represent what a power cut of everything leaves of the state that it reached. So the runs over a
//! directory are one run of the plain log, with a cold start between each two of them. A run that is refused on its way
//! leaves devices that represent the state before it, or what such a power cut leaves of a state to which its commands
//! lead.
#![tactic(auto)]

mod laws;

pub use laws::{refusals_continue, runs_continue};
