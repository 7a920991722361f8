//! Tests of the remote tier: views, lookups, the turns of its tasks, and the laws that are generic over its devices.
//!
//! They are in a crate of their own because a crate is proved again where its tests are built.
#![tactic(auto)]

#[cfg(test)]
mod audits;
#[cfg(test)]
mod copies;
#[cfg(test)]
mod expiries;
#[cfg(test)]
mod fetches;
#[cfg(test)]
mod finds;
#[cfg(test)]
mod given;
#[cfg(test)]
mod laws;
#[cfg(test)]
mod rebuilds;
#[cfg(test)]
mod refreshes;
#[cfg(test)]
mod rounds;
#[cfg(test)]
mod sweeps;
#[cfg(test)]
mod views;
