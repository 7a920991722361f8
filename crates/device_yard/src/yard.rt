//! What the calls of an environment provide and take back.
//!
//! A device is provided unarmed and without faults, and is observable exactly if its environment is. It comes back by
//! one of the four `keep` calls, which can't be refused: the call that provided the device reserved the room.

ghost use Rattle.std.specs.Prelude.{◌≡◌, ◌≤◌, Option, Some, None, IfOk, OnOk, OnErr, IsTrue};
ghost use Rattle.tier_base.specs.Device.{fate_of, IsFreshDevice};
ghost use Rattle.device_yard.specs.declared.came.Came.{Came};
ghost use Rattle.device_yard.specs.Control.{Control, NamesFirst, AsksYard, Hands, TakesBack, TakesRegistry};
ghost use Rattle.device_yard.specs.Plan.{Plan, CountsCall, CountsOpening};
ghost use Rattle.device_yard.specs.YardContent.{YardContent, Same, DiskIs, StoreIs, LogIs, RegistryIs};
ghost use Rattle.device_yard.specs.YardContent.{IsOut, HoldsDisk, IsNameInYard, IsFirstName, AreUsed};
ghost use Rattle.device_yard.specs.YardContent.{Rise, HandsDisk, HandsStore, HandsLog};

use disk_model::Disk;
use meta_log::MetaLog;
use object_store::Store;
use tier_base::{Blob, BrokerId, Items, PartitionId, Trouble};

/// Where the devices of partitions come from, and where they come back to. A call that answers `Failed` has provided
/// nothing and leaves what is held as it was.
pub trait Yard {
    type D: Disk;

    type S: Store;

    type M: MetaLog;

    /// The devices that came back, and the names.
    ghost held: { Self → YardContent Self.D Self.S Self.M };

    /// The faults, the last first name, how devices came back, and how many are out.
    ghost control: { Self → Control };

    /// The calls that are to fail, where they are observable.
    ghost plan: { Self → Option Plan };

    /// Gives the first of the names in the order of their bytes, if there is one.
    fn first_name(&mut self) -> Result<Option<Blob>, Trouble>
        ensures control { NamesFirst result (control self.old) (control self.new) }
        ensures plan { CountsCall (fate_of result) (plan self.old) (plan self.new) }
        ensures held { Same Self.D.content Self.S.content Self.M.content
            (held self.old) (held self.new) }
        ensures first { IsTrue (held self.old).is_observable → IfOk result
            (IsFirstName (IsNameInYard Self.D.content Self.S.content Self.M.content (held self.old))) };

    /// Names the partitions in use, in rising order.
    fn partitions(&mut self) -> Result<Items<PartitionId>, Trouble>
        ensures control { AsksYard (fate_of result) (control self.old) (control self.new) }
        ensures plan { CountsCall (fate_of result) (plan self.old) (plan self.new) }
        ensures held { Same Self.D.content Self.S.content Self.M.content
            (held self.old) (held self.new) }
        ensures rise { IfOk result Rise }
        ensures used { IsTrue (held self.old).is_observable → IfOk result
            (AreUsed Self.D.content Self.S.content Self.M.content (held self.old)) };

    /// Provides a broker's disk.
    fn disk(&mut self, partition: PartitionId, broker: BrokerId) -> Result<Self::D, Trouble>
        ensures control { Hands (fate_of result) (control self.old) (control self.new) }
        ensures plan { CountsCall (fate_of result) (plan self.old) (plan self.new) }
        ensures is_observable { (held self.new).is_observable ≡ (held self.old).is_observable }
        ensures fresh { IfOk result (λ disk. IsFreshDevice (Self.D.control disk)) }
        ensures told { IfOk result (λ disk. (Self.D.content disk).is_observable ≡ (held self.old).is_observable) }
        ensures content { IsTrue (held self.old).is_observable → IfOk result (λ disk.
            HandsDisk Self.D.content ((held self.old).disks partition broker) (Self.D.content disk)) }
        ensures out { IsTrue (held self.old).is_observable → OnOk result
            (DiskIs partition broker None (held self.old) (held self.new)) }
        ensures err { IsTrue (held self.old).is_observable → OnErr result
            (Same Self.D.content Self.S.content Self.M.content (held self.old) (held self.new)) };

    /// Provides a partition's store.
    fn store(&mut self, partition: PartitionId) -> Result<Self::S, Trouble>
        ensures control { Hands (fate_of result) (control self.old) (control self.new) }
        ensures plan { CountsCall (fate_of result) (plan self.old) (plan self.new) }
        ensures is_observable { (held self.new).is_observable ≡ (held self.old).is_observable }
        ensures fresh { IfOk result (λ store. IsFreshDevice (Self.S.control store)) }
        ensures told { IfOk result (λ store. (Self.S.content store).is_observable ≡ (held self.old).is_observable) }
        ensures content { IsTrue (held self.old).is_observable → IfOk result (λ store.
            HandsStore Self.S.content ((held self.old).stores partition) (Self.S.content store)) }
        ensures out { IsTrue (held self.old).is_observable → OnOk result
            (StoreIs partition None (held self.old) (held self.new)) }
        ensures err { IsTrue (held self.old).is_observable → OnErr result
            (Same Self.D.content Self.S.content Self.M.content (held self.old) (held self.new)) };

    /// Provides a partition's metadata log.
    fn meta(&mut self, partition: PartitionId) -> Result<Self::M, Trouble>
        ensures control { Hands (fate_of result) (control self.old) (control self.new) }
        ensures plan { CountsOpening (fate_of result) (plan self.old) (plan self.new) }
        ensures is_observable { (held self.new).is_observable ≡ (held self.old).is_observable }
        ensures fresh { IfOk result (λ log. IsFreshDevice (Self.M.control log)) }
        ensures told { IfOk result (λ log. (Self.M.content log).is_observable ≡ (held self.old).is_observable) }
        ensures content { IsTrue (held self.old).is_observable → IfOk result (λ log.
            HandsLog Self.M.content ((held self.old).logs partition) (Self.M.content log)) }
        ensures out { IsTrue (held self.old).is_observable → OnOk result
            (LogIs partition None (held self.old) (held self.new)) }
        ensures err { IsTrue (held self.old).is_observable → OnErr result
            (Same Self.D.content Self.S.content Self.M.content (held self.old) (held self.new)) };

    /// Provides the disk that keeps a partition's registry.
    fn registry(&mut self, partition: PartitionId) -> Result<Self::D, Trouble>
        ensures control { Hands (fate_of result) (control self.old) (control self.new) }
        ensures plan { CountsCall (fate_of result) (plan self.old) (plan self.new) }
        ensures is_observable { (held self.new).is_observable ≡ (held self.old).is_observable }
        ensures fresh { IfOk result (λ disk. IsFreshDevice (Self.D.control disk)) }
        ensures told { IfOk result (λ disk. (Self.D.content disk).is_observable ≡ (held self.old).is_observable) }
        ensures content { IsTrue (held self.old).is_observable → IfOk result (λ disk.
            HandsDisk Self.D.content ((held self.old).registries partition) (Self.D.content disk)) }
        ensures out { IsTrue (held self.old).is_observable → OnOk result
            (RegistryIs partition IsOut (held self.old) (held self.new)) }
        ensures err { IsTrue (held self.old).is_observable → OnErr result
            (Same Self.D.content Self.S.content Self.M.content (held self.old) (held self.new)) };

    /// Takes a broker's disk back.
    fn keep_disk(&mut self, partition: PartitionId, broker: BrokerId, disk: Self::D)
        requires { 1 ≤ (control self.old).out }
        ensures control { TakesBack (record {
          faults = (Self.D.control disk).faults;
          armed = (Self.D.control disk).armed;
        }) (control self.old) (control self.new) }
        ensures plan { plan self.new ≡ plan self.old }
        ensures is_observable { (held self.new).is_observable ≡ (held self.old).is_observable }
        ensures held { IsTrue (held self.old).is_observable
            → DiskIs partition broker (Some disk) (held self.old) (held self.new) };

    /// Takes a partition's store back.
    fn keep_store(&mut self, partition: PartitionId, store: Self::S)
        requires { 1 ≤ (control self.old).out }
        ensures control { TakesBack (record {
          faults = (Self.S.control store).faults;
          armed = (Self.S.control store).armed;
        }) (control self.old) (control self.new) }
        ensures plan { plan self.new ≡ plan self.old }
        ensures is_observable { (held self.new).is_observable ≡ (held self.old).is_observable }
        ensures held { IsTrue (held self.old).is_observable
            → StoreIs partition (Some store) (held self.old) (held self.new) };

    /// Takes a partition's metadata log back.
    fn keep_meta(&mut self, partition: PartitionId, meta: Self::M)
        requires { 1 ≤ (control self.old).out }
        ensures control { TakesBack (record {
          faults = (Self.M.control meta).faults;
          armed = (Self.M.control meta).armed;
        }) (control self.old) (control self.new) }
        ensures plan { plan self.new ≡ plan self.old }
        ensures is_observable { (held self.new).is_observable ≡ (held self.old).is_observable }
        ensures held { IsTrue (held self.old).is_observable
            → LogIs partition (Some meta) (held self.old) (held self.new) };

    /// Takes the disk back that keeps a partition's registry, and records the bytes that it last returned.
    fn keep_registry(&mut self, partition: PartitionId, disk: Self::D)
        requires { 1 ≤ (control self.old).out }
        ensures control { TakesRegistry (record {
          faults = (Self.D.control disk).faults;
          armed = (Self.D.control disk).armed;
        }) (record { partition = partition; last_read = (Self.D.control disk).last_read })
            (control self.old) (control self.new) }
        ensures plan { plan self.new ≡ plan self.old }
        ensures is_observable { (held self.new).is_observable ≡ (held self.old).is_observable }
        ensures held { IsTrue (held self.old).is_observable
            → RegistryIs partition (HoldsDisk Self.D.content disk) (held self.old) (held self.new) };
}
