//! The partitions that an environment has found, each once and in rising order, in whatever order they were found.

ghost use Rattle.std.specs.Prelude.{◌≡◌, ◌⊎◌, ◌↔◌, [], OnOk, OnErr, IfOk};
ghost use Rattle.tier_base.specs.Told.{In};
ghost use Rattle.device_yard.specs.YardContent.{Rise};

use std::alloc::{AllocError, Global};
use std::collections::BTreeSet;
use std::marker::Model;
use tier_base::{Items, PartitionId};

/// Partitions in rising order.
#[derive(Drop)]
pub struct PartitionSet {
    alloc: Global,
    found: BTreeSet<PartitionId>,
}

impl Model for PartitionSet {
    ghost use Rattle.std.specs.Prelude.{List};
    ghost use Rattle.std.specs.BTreeSet.{keys};
    ghost use Rattle.tier_base.specs.declared.names.PartitionId.{PartitionId};

    ghost Value = { List PartitionId };

    ghost view = { λ s. keys s.found };
}

impl PartitionSet {
    /// Has no partition yet, and takes no memory.
    pub fn new(alloc: Global) -> PartitionSet
        ensures { result ≡ [] }
    {
        PartitionSet {
            alloc,
            found: BTreeSet::new(alloc),
        }
    }

    /// Adds a partition, unless it is there.
    pub fn insert(&mut self, partition: PartitionId) -> Result<(), AllocError>
        ensures ok { OnOk result ((p : _) → In p self.new ↔ (In p self.old ⊎ (p ≡ partition))) }
        ensures err { OnErr result (self.new ≡ self.old) }
    {
        self.found.insert(partition)?;
        Ok(())
    }

    /// Makes the list of them. Fails only if memory runs out.
    pub fn to_row(&self) -> Result<Items<PartitionId>, AllocError>
        ensures are { IfOk result (λ row. row ≡ self.now) }
        ensures rise { IfOk result Rise }
    {
        let mut row = Items::new(self.alloc);
        for partition in &self.found {
            row.push(*partition)?;
        }
        Ok(row)
    }
}
