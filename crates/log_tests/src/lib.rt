//! Tests of batches, of segments, and of the local log.
//!
//! They are in a crate of their own because a crate is proved again where its tests are built.
#![tactic(auto)]

#[cfg(test)]
mod batches;
#[cfg(test)]
mod brokers;
#[cfg(test)]
mod bundles;
#[cfg(test)]
mod checks;
#[cfg(test)]
mod damage;
#[cfg(test)]
mod files;
#[cfg(test)]
mod logs;
#[cfg(test)]
mod segments;
#[cfg(test)]
mod trial;
#[cfg(test)]
mod vectors;
