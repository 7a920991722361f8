//! Tests of the devices: disks, stores, metadata logs, and the environments that provide them.
//!
//! They are in a crate of their own because a crate is proved again where its tests are built.
#![tactic(auto)]

#[cfg(test)]
mod counts;
#[cfg(test)]
mod damaged_logs;
#[cfg(test)]
mod disk_calls;
#[cfg(test)]
mod disk_logs;
#[cfg(test)]
mod disks;
#[cfg(test)]
mod ends;
#[cfg(test)]
mod folder_disks;
#[cfg(test)]
mod folder_yards;
#[cfg(test)]
mod log_calls;
#[cfg(test)]
mod memory_logs;
#[cfg(test)]
mod memory_yards;
#[cfg(test)]
mod stores;
#[cfg(test)]
mod tallies;
#[cfg(test)]
mod yard_calls;
