//! Tests of the program's call: scripts and their traces, what the documents show, statuses, faults of the source and
//! the sink, runs by threads and over an environment, audits and sweeps of a directory, and laws that are generic over
//! the devices.
//!
//! They are in a crate of their own because a crate is proved again where its tests are built.
#![tactic(auto)]

#[cfg(test)]
mod broker_tests;
#[cfg(test)]
mod fault_tests;
#[cfg(test)]
mod law_tests;
#[cfg(test)]
mod ready_tests;
#[cfg(test)]
mod remote_tests;
#[cfg(test)]
mod resumed_tests;
#[cfg(test)]
mod round_tests;
#[cfg(test)]
mod script_cases;
#[cfg(test)]
mod shown;
#[cfg(test)]
mod shown_runs;
#[cfg(test)]
mod shown_tests;
#[cfg(test)]
mod tests;
#[cfg(test)]
mod thread_tests;
#[cfg(test)]
mod yard_tests;
