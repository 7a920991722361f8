//! A parsed script, as it is run.

use crate::fault::Fault;
use plain_log::{ActorList, Config, Pace};
use tier_base::{Items, PartitionId};

/// The part of a script that one partition runs.
#[derive(Debug, Drop)]
pub struct PartScript {
    pub partition: PartitionId,
    /// The commands of each actor of this partition, in ascending order of actors.
    pub lists: Items<ActorList>,
    /// In which order the actors are stepped, until all their commands are answered.
    pub schedule: Items<Pace>,
    /// The device calls that are to fail. If a call has several faults, the first one counts.
    pub faults: Items<Fault>,
}

/// A parsed script: its options, and a part for each partition, in ascending order.
#[derive(Debug, Drop)]
pub struct Script {
    pub config: Config,
    pub parts: Items<PartScript>,
}
