//! Tests of partitions that continue over the devices that a run, or a power cut, left.
//!
//! They are in a crate of their own because a crate is proved again where its tests are built.
#![tactic(auto)]

#[cfg(test)]
mod kept;
#[cfg(test)]
mod laws;
#[cfg(test)]
mod runs;
