//! Tests of the primitives: words, checksums, streams, plans of faults, indexes, leader epochs, retention, the
//! registry, metadata events, manifests, lists that share their batches, and loads.
//!
//! They are in a crate of their own because a crate is proved again where its tests are built.
#![tactic(auto)]

#[cfg(test)]
mod caches;
#[cfg(test)]
mod indexes;
#[cfg(test)]
mod keys;
#[cfg(test)]
mod lanes;
#[cfg(test)]
mod lines;
#[cfg(test)]
mod loads;
#[cfg(test)]
mod manifests;
#[cfg(test)]
mod notes;
#[cfg(test)]
mod plain;
#[cfg(test)]
mod plans;
#[cfg(test)]
mod prims;
#[cfg(test)]
mod registries;
#[cfg(test)]
mod retention;
#[cfg(test)]
mod shared_logs;
#[cfg(test)]
mod streams;
