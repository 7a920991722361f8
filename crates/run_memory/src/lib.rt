//! Runs a partition of a script over devices in memory: a disk for each broker, a store and a metadata log, whose
//! calls fail if the script's `fault` lines name them.
//!
//! `run_partition` runs it by the script's schedule. `specs/Run.antt` says what a run is: its journal is a run of the
//! plain log in which each command is answered once and in order, and it is the journal of a world that the schedule
//! reaches. Of each device as many calls failed as the lines name of those that were made, and as many faults are
//! reported as the device counted. A fault is reported of a device only if a call of it was made that a line names.
#![tactic(auto)]

mod devices;
mod partition;
mod plans;

pub use partition::{fresh_world, run_partition};
