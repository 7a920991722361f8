//! The environment of a run as a trait: it provides the disks, stores and metadata logs of partitions, and takes them
//! back.
//!
//! Runs over a directory and runs in tests are written against `Yard`. The devices in an environment, and the names in
//! it, may be observable. What can always be observed are its faults, the last name that it returned for what isn't its
//! own, and the counts with which devices came back. So whoever runs over one can say why the run failed, and that each
//! device was returned.
#![tactic(auto)]

mod came;
mod counts;
mod laws;
mod partition_set;
mod read_registry;
mod yard;

pub use came::Came;
pub use counts::YardCounts;
pub use laws::{nameless_has_no_tier, registry_is_absent, tierless_is_empty};
pub use partition_set::PartitionSet;
pub use read_registry::ReadRegistry;
pub use yard::Yard;
