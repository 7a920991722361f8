//! Tests of scripts and traces, of explanations of refused lines, of the executable model, and of summaries.
//!
//! They are in a crate of their own because a crate is proved again where its tests are built.
#![tactic(auto)]

#[cfg(test)]
mod explanations;
#[cfg(test)]
mod forms;
#[cfg(test)]
mod machines;
#[cfg(test)]
mod refusals;
#[cfg(test)]
mod scripts;
#[cfg(test)]
mod summaries;
#[cfg(test)]
mod traces;
