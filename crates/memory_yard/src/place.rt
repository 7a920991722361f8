//! Which device it is: a disk by its partition and broker, a store and a metadata log by their partition.

ghost use Rattle.std.specs.Prelude.{◌≡◌, Bool};
ghost use Rattle.std.proofs.Common.{Decides};
ghost use Rattle.tier_base.specs.declared.names.PartitionId.{PartitionId};
ghost use Rattle.memory_yard.specs.Place.{same_partition, same_disk};
ghost use Rattle.memory_yard.specs.Places.{partitions_decide, disks_decide};

use tier_base::{BrokerId, PartitionId};

/// A device's place.
pub trait DevicePlace: Copy {
    /// Whether two places are one.
    ghost same: { Self → Self → Bool };

    /// The place's partition.
    ghost partition_of: { Self → PartitionId };

    /// Returns whether it is the other place.
    fn is(self, other: Self) -> bool
        ensures { result ≡ same self other };

    /// Returns the partition.
    fn partition(self) -> PartitionId
        ensures { result ≡ partition_of self };

    /// Two places that are one are equal.
    ghost decides: { (a b : Self) → Decides (same a b) (a ≡ b) };
}

/// The place of a broker's disk.
#[derive(Clone, Copy, Debug)]
pub struct DiskPlace {
    pub partition: PartitionId,
    pub broker: BrokerId,
}

impl DevicePlace for DiskPlace {
    ghost same = { same_disk };

    ghost partition_of = { λ place. place.partition };

    fn is(self, other: DiskPlace) -> bool {
        self.partition.0 == other.partition.0 && self.broker.0 == other.broker.0
    }

    fn partition(self) -> PartitionId {
        self.partition
    }

    ghost decides = { disks_decide };
}

impl DevicePlace for PartitionId {
    ghost same = { same_partition };

    ghost partition_of = { λ place. place };

    fn is(self, other: PartitionId) -> bool {
        self.0 == other.0
    }

    fn partition(self) -> PartitionId {
        self
    }

    ghost decides = { partitions_decide };
}
