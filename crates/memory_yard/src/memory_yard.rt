//! An environment in memory, some of whose calls are to fail.

ghost use Rattle.std.specs.Prelude.{◌≡◌, ◌≤◌, ◌↔◌, Some, None, IfSome, true, false};
ghost use Rattle.std.specs.Prelude.{IfOk, OnOk, OnErr, IsTrue, Contains};
ghost use Rattle.std.specs.Option.{option_copied};
ghost use Rattle.tier_base.specs.Device.{Fault, fate_of, IsFreshDevice};
ghost use Rattle.tier_base.specs.Told.{In};
ghost use Rattle.device_yard.specs.Control as control;
ghost use Rattle.device_yard.specs.Plan.{Plan, CountsCall, next_of};
ghost use Rattle.device_yard.specs.YardContent.{IsFirstName, IsNameInYard, AreUsed, Rise, Same, DiskIs};
ghost use Rattle.device_yard.specs.YardContent.{RegistryIs, IsOut, HandsDisk, HandsStore, HandsLog};
ghost use Rattle.disk_model.specs.MemoryFiles.{fuse_of};
ghost use Rattle.memory_yard.specs.Calls.{plan_of};
ghost use Rattle.memory_yard.specs.First.{IsFirstWith};
ghost use Rattle.memory_yard.specs.Yard.{held_by, IsEmptyYard, CrashesYard, HasRoom};
ghost use Rattle.memory_yard.specs.Names.{SameYardContent, IsFirstOf, AreUsedOf, HaveTiers, HaveRegistries, AreBare};

use crate::call_plan::CallPlan;
use crate::device::RegistryDisk;
use crate::first::{least_of, offer_partitions, without};
use crate::handing::{disk_of, hand_disk, hand_log, hand_store};
use crate::log_place::LogPlace;
use crate::memory_notes::MemoryNotes;
use crate::place::DiskPlace;
use crate::shelf::Shelf;
use device_yard::{Came, PartitionSet, ReadRegistry, Yard, YardCounts};
use disk_model::{Disk, MemoryDisk};
use meta_log_file::DiskLog;
use object_store::MemoryStore;
use std::alloc::{AllocError, Global};
use tier_base::{Blob, BrokerId, Items, PartitionId, Trouble};

/// An environment whose devices are in memory. A device that came back is provided with what it held, and an empty one
/// where none did; the devices' own calls can't fail, but by a fuse. Beside the names of its partitions it has those of
/// strangers.
#[derive(Drop)]
pub struct MemoryYard {
    alloc: Global,
    strays: Vec<Blob>,
    plan: CallPlan,
    counts: YardCounts,
    disks: Shelf<DiskPlace, MemoryDisk>,
    stores: Shelf<PartitionId, MemoryStore>,
    logs: Shelf<PartitionId, LogPlace>,
    registries: Shelf<PartitionId, RegistryDisk>,
    ghost disks_fit: { counts.out ≤ disks.room },
    ghost stores_fit: { counts.out ≤ stores.room },
    ghost logs_fit: { counts.out ≤ logs.room },
    ghost registries_fit: { counts.out ≤ registries.room },
}

impl MemoryYard {
    /// Makes an environment without devices, in which the strays' names exist, and takes no memory. Of the calls
    /// `first_name`, `partitions`, `disk`, `store`, `meta` and `registry`, counted together from 1, those fail whose
    /// number the plan names.
    pub fn new(alloc: Global, strays: Vec<Blob>, plan: Vec<u32>) -> MemoryYard
        ensures fresh { control.IsFreshYard (⟦<MemoryYard as Yard>⟧.control result) }
        ensures named { (⟦<MemoryYard as Yard>⟧.control result).named ≡ None }
        ensures plan { ⟦<MemoryYard as Yard>⟧.plan result
            ≡ Some (record { calls = 0; failing = plan.items; alone = true }) }
        ensures held { IsEmptyYard strays.items (⟦<MemoryYard as Yard>⟧.held result) }
        ensures fuse { result.plan.fuse ≡ None }
    {
        MemoryYard {
            alloc,
            strays,
            plan: CallPlan::new(plan),
            counts: YardCounts::new(alloc),
            disks: Shelf::new(alloc),
            stores: Shelf::new(alloc),
            logs: Shelf::new(alloc),
            registries: Shelf::new(alloc),
        }
    }

    /// Counts the faults of the environment.
    pub fn faults(&self) -> u64
        ensures { result ≡ (⟦<MemoryYard as Yard>⟧.control self.now).faults }
    {
        self.counts.faults()
    }

    /// Lends how the devices came back.
    pub fn returned(&self) -> &[Came]
        ensures { result.now ≡ (⟦<MemoryYard as Yard>⟧.control self.now).returned }
    {
        self.counts.returned()
    }

    /// Lends what the registries' disks last returned, in the order in which they came back.
    pub fn registries(&self) -> &[ReadRegistry]
        ensures { result.now ≡ (⟦<MemoryYard as Yard>⟧.control self.now).registries }
    {
        self.counts.registries()
    }

    /// From now on each disk that is provided lets so many calls pass, and then fails every call.
    pub fn fuse(&mut self, calls: u64)
        ensures held { ⟦<MemoryYard as Yard>⟧.held self.new ≡ ⟦<MemoryYard as Yard>⟧.held self.old }
        ensures control { ⟦<MemoryYard as Yard>⟧.control self.new ≡ ⟦<MemoryYard as Yard>⟧.control self.old }
        ensures plan { ⟦<MemoryYard as Yard>⟧.plan self.new ≡ Some (record (plan_of self.old.plan) { alone = false }) }
        ensures fuse { self.new.plan.fuse ≡ Some calls }
    {
        self.plan.set_fuse(Some(calls));
    }

    /// Crashes each disk that came back, those of metadata logs too, and ends the fuses. Stores lose nothing.
    pub fn crash(&mut self)
        ensures held { CrashesYard (⟦<MemoryYard as Yard>⟧.held self.old) (⟦<MemoryYard as Yard>⟧.held self.new) }
        ensures control { ⟦<MemoryYard as Yard>⟧.control self.new ≡ ⟦<MemoryYard as Yard>⟧.control self.old }
        ensures plan { ⟦<MemoryYard as Yard>⟧.plan self.new ≡ Some (record (plan_of self.old.plan) { alone = true }) }
        ensures fuse { self.new.plan.fuse ≡ None }
    {
        self.plan.set_fuse(None);
        self.disks.crash(self.alloc);
        self.stores.crash(self.alloc);
        self.logs.crash(self.alloc);
        self.registries.crash(self.alloc);
    }

    /// Lends a disk that came back.
    pub fn held_disk(&self, partition: PartitionId, broker: BrokerId) -> Option<&MemoryDisk>
        ensures { option_copied result
            ≡ (⟦<MemoryYard as Yard>⟧.held self.now).disks partition broker }
    {
        self.disks.get(DiskPlace { partition, broker })
    }

    /// Lends a store that came back.
    pub fn held_store(&self, partition: PartitionId) -> Option<&MemoryStore>
        ensures { option_copied result
            ≡ (⟦<MemoryYard as Yard>⟧.held self.now).stores partition }
    {
        self.stores.get(partition)
    }

    /// Lends a metadata log that came back, unless its disk alone is here.
    pub fn held_log(&self, partition: PartitionId) -> Option<&DiskLog<MemoryDisk>>
        ensures { IfSome (option_copied result) (λ log.
            (⟦<MemoryYard as Yard>⟧.held self.now).logs partition ≡ Some log) }
    {
        match self.logs.get(partition) {
            Some(kept) => kept.log(),
            None => None,
        }
    }

    /// Lends the disk of a registry that came back.
    pub fn held_registry(&self, partition: PartitionId) -> Option<&MemoryDisk>
        ensures { option_copied result
            ≡ (⟦<MemoryYard as Yard>⟧.held self.now).registries partition }
    {
        match self.registries.get(partition) {
            Some(registry) => Some(&registry.disk),
            None => None,
        }
    }

    /// Makes room for one more device to come back.
    fn make_room(&mut self) -> Result<(), AllocError>
        ensures disks { self.new.disks.slots ≡ self.old.disks.slots }
        ensures stores { self.new.stores.slots ≡ self.old.stores.slots }
        ensures logs { self.new.logs.slots ≡ self.old.logs.slots }
        ensures registries { self.new.registries.slots ≡ self.old.registries.slots }
        ensures room { OnOk result (HasRoom self.new.counts.out self.new.disks.room self.new.stores.room
            self.new.logs.room self.new.registries.room) }
        ensures strays { self.new.strays ≡ self.old.strays }
        ensures counts { self.new.counts ≡ self.old.counts }
        ensures plan { self.new.plan ≡ self.old.plan }
    {
        let count = self.counts.out() + 1;
        self.disks.reserve(count)?;
        self.stores.reserve(count)?;
        self.logs.reserve(count)?;
        self.registries.reserve(count)
    }

    /// Counts a call that provides a device, where it continues.
    fn hand_out(&mut self) -> Result<(), Trouble>
        ensures control { control.Hands (fate_of result) self.old.counts self.new.counts }
        ensures plan { CountsCall (fate_of result) (Some (plan_of self.old.plan)) (Some (plan_of self.new.plan)) }
        ensures fuse { self.new.plan.fuse ≡ self.old.plan.fuse }
        ensures disks { self.new.disks.slots ≡ self.old.disks.slots }
        ensures stores { self.new.stores.slots ≡ self.old.stores.slots }
        ensures logs { self.new.logs.slots ≡ self.old.logs.slots }
        ensures registries { self.new.registries.slots ≡ self.old.registries.slots }
        ensures strays { self.new.strays ≡ self.old.strays }
    {
        let snapshot = self.begin();
        self.counts.hand(snapshot)
    }

    /// Counts a call, and makes room for one more device to come back.
    fn begin(&mut self) -> Result<(), Trouble>
        ensures fails { (fate_of result ≡ Fault) ↔ Contains self.old.plan.failing (next_of (plan_of self.old.plan)) }
        ensures plan { self.new.plan ≡ record self.old.plan { calls = next_of (plan_of self.old.plan) } }
        ensures disks { self.new.disks.slots ≡ self.old.disks.slots }
        ensures stores { self.new.stores.slots ≡ self.old.stores.slots }
        ensures logs { self.new.logs.slots ≡ self.old.logs.slots }
        ensures registries { self.new.registries.slots ≡ self.old.registries.slots }
        ensures room { OnOk result (HasRoom self.new.counts.out self.new.disks.room self.new.stores.room
            self.new.logs.room self.new.registries.room) }
        ensures strays { self.new.strays ≡ self.old.strays }
        ensures counts { self.new.counts ≡ self.old.counts }
    {
        self.plan.count()?;
        self.make_room()?;
        Ok(())
    }

    /// Counts a call that finds the first name.
    fn find_first(&mut self) -> Result<Option<Blob>, Trouble>
        ensures fails { (fate_of result ≡ Fault) ↔ Contains self.old.plan.failing (next_of (plan_of self.old.plan)) }
        ensures plan { self.new.plan ≡ record self.old.plan { calls = next_of (plan_of self.old.plan) } }
        ensures counts { self.new.counts ≡ self.old.counts }
        ensures held { SameYardContent (⟦<MemoryYard as Yard>⟧.held self.old) (⟦<MemoryYard as Yard>⟧.held self.new) }
        ensures first { IfOk result (IsFirstOf (⟦<MemoryYard as Yard>⟧.held self.old)) }
    {
        self.plan.count()?;
        let first = self.least()?;
        Ok(first)
    }

    /// Counts a call that finds the partitions in use.
    fn find_partitions(&mut self) -> Result<Items<PartitionId>, Trouble>
        ensures fails { (fate_of result ≡ Fault) ↔ Contains self.old.plan.failing (next_of (plan_of self.old.plan)) }
        ensures plan { self.new.plan ≡ record self.old.plan { calls = next_of (plan_of self.old.plan) } }
        ensures counts { self.new.counts ≡ self.old.counts }
        ensures held { SameYardContent (⟦<MemoryYard as Yard>⟧.held self.old) (⟦<MemoryYard as Yard>⟧.held self.new) }
        ensures rise { IfOk result Rise }
        ensures used { IfOk result (AreUsedOf (⟦<MemoryYard as Yard>⟧.held self.old)) }
    {
        self.plan.count()?;
        let used = self.used()?;
        Ok(used)
    }

    /// The first of the names.
    fn least(&mut self) -> Result<Option<Blob>, AllocError>
        ensures plan { self.new.plan ≡ self.old.plan }
        ensures counts { self.new.counts ≡ self.old.counts }
        ensures held { SameYardContent (⟦<MemoryYard as Yard>⟧.held self.old) (⟦<MemoryYard as Yard>⟧.held self.new) }
        ensures first { IfOk result (IsFirstOf (⟦<MemoryYard as Yard>⟧.held self.old)) }
    {
        let mut first = least_of(self.alloc, self.strays.as_slice())?;
        let bare = self.bare()?;
        offer_partitions(self.alloc, &mut first, bare.as_slice())?;
        Ok(first)
    }

    /// The partitions that have an object or a metadata event, and no registry.
    fn bare(&mut self) -> Result<Items<PartitionId>, AllocError>
        ensures plan { self.new.plan ≡ self.old.plan }
        ensures counts { self.new.counts ≡ self.old.counts }
        ensures held { SameYardContent (⟦<MemoryYard as Yard>⟧.held self.old) (⟦<MemoryYard as Yard>⟧.held self.new) }
        ensures bare { IfOk result (AreBare (⟦<MemoryYard as Yard>⟧.held self.old)) }
    {
        let tiers = self.tiers()?;
        let kept = self.kept()?;
        without(self.alloc, tiers.as_slice(), kept.as_slice())
    }

    /// The partitions that have an object or a metadata event.
    fn tiers(&mut self) -> Result<Items<PartitionId>, AllocError>
        ensures plan { self.new.plan ≡ self.old.plan }
        ensures counts { self.new.counts ≡ self.old.counts }
        ensures held { SameYardContent (⟦<MemoryYard as Yard>⟧.held self.old) (⟦<MemoryYard as Yard>⟧.held self.new) }
        ensures registries { self.new.registries.slots ≡ self.old.registries.slots }
        ensures tiers { IfOk result (HaveTiers (⟦<MemoryYard as Yard>⟧.held self.old)) }
    {
        let mut found = PartitionSet::new(self.alloc);
        self.stores.find(self.alloc, &mut found)?;
        self.logs.find(self.alloc, &mut found)?;
        found.to_row()
    }

    /// The partitions that have a registry's file.
    fn kept(&mut self) -> Result<Items<PartitionId>, AllocError>
        ensures plan { self.new.plan ≡ self.old.plan }
        ensures counts { self.new.counts ≡ self.old.counts }
        ensures held { SameYardContent (⟦<MemoryYard as Yard>⟧.held self.old) (⟦<MemoryYard as Yard>⟧.held self.new) }
        ensures disks { self.new.disks.slots ≡ self.old.disks.slots }
        ensures stores { self.new.stores.slots ≡ self.old.stores.slots }
        ensures logs { self.new.logs.slots ≡ self.old.logs.slots }
        ensures strays { self.new.strays ≡ self.old.strays }
        ensures kept { IfOk result (HaveRegistries (⟦<MemoryYard as Yard>⟧.held self.old)) }
    {
        let mut found = PartitionSet::new(self.alloc);
        self.registries.find(self.alloc, &mut found)?;
        found.to_row()
    }

    /// The partitions in use.
    fn used(&mut self) -> Result<Items<PartitionId>, AllocError>
        ensures plan { self.new.plan ≡ self.old.plan }
        ensures counts { self.new.counts ≡ self.old.counts }
        ensures held { SameYardContent (⟦<MemoryYard as Yard>⟧.held self.old) (⟦<MemoryYard as Yard>⟧.held self.new) }
        ensures rise { IfOk result Rise }
        ensures used { IfOk result (AreUsedOf (⟦<MemoryYard as Yard>⟧.held self.old)) }
    {
        let mut found = PartitionSet::new(self.alloc);
        self.disks.find(self.alloc, &mut found)?;
        self.stores.find(self.alloc, &mut found)?;
        self.logs.find(self.alloc, &mut found)?;
        found.to_row()
    }
}

impl Yard for MemoryYard {
    type D = MemoryDisk;

    type S = MemoryStore;

    type M = MemoryNotes;

    ghost held = { λ y. held_by y.strays.items y.disks.slots y.stores.slots y.logs.slots y.registries.slots };

    ghost control = { λ y. y.counts };

    ghost plan = { λ y. Some (plan_of y.plan) };

    fn first_name(&mut self) -> Result<Option<Blob>, Trouble> {
        let found = self.find_first();
        self.counts.name(found)
    }

    fn partitions(&mut self) -> Result<Items<PartitionId>, Trouble> {
        let found = self.find_partitions();
        self.counts.ask(found)
    }

    fn disk(&mut self, partition: PartitionId, broker: BrokerId) -> Result<MemoryDisk, Trouble>
        ensures control { control.Hands (fate_of result)
            (⟦<MemoryYard as Yard>⟧.control self.old) (⟦<MemoryYard as Yard>⟧.control self.new) }
        ensures plan { CountsCall (fate_of result)
            (⟦<MemoryYard as Yard>⟧.plan self.old) (⟦<MemoryYard as Yard>⟧.plan self.new) }
        ensures is_observable { (⟦<MemoryYard as Yard>⟧.held self.new).is_observable
            ≡ (⟦<MemoryYard as Yard>⟧.held self.old).is_observable }
        ensures fresh { IfOk result (λ disk. IsFreshDevice (⟦<MemoryDisk as Disk>⟧.control disk)) }
        ensures told { IfOk result (λ disk. (⟦<MemoryDisk as Disk>⟧.content disk).is_observable
            ≡ (⟦<MemoryYard as Yard>⟧.held self.old).is_observable) }
        ensures content { IsTrue (⟦<MemoryYard as Yard>⟧.held self.old).is_observable → IfOk result (λ disk.
            HandsDisk ⟦<MemoryDisk as Disk>⟧.content ((⟦<MemoryYard as Yard>⟧.held self.old).disks partition broker)
            (⟦<MemoryDisk as Disk>⟧.content disk)) }
        ensures out { IsTrue (⟦<MemoryYard as Yard>⟧.held self.old).is_observable → OnOk result
            (DiskIs partition broker None (⟦<MemoryYard as Yard>⟧.held self.old)
            (⟦<MemoryYard as Yard>⟧.held self.new)) }
        ensures err { IsTrue (⟦<MemoryYard as Yard>⟧.held self.old).is_observable → OnErr result
            (SameYardContent (⟦<MemoryYard as Yard>⟧.held self.old) (⟦<MemoryYard as Yard>⟧.held self.new)) }

        // It lets as many calls pass as the environment's fuse says, and then fails every call.
        ensures fuse { IfOk result (λ disk. fuse_of disk ≡ self.old.plan.fuse) }
        ensures stays { self.new.plan.fuse ≡ self.old.plan.fuse }
    {
        self.hand_out()?;
        let place = DiskPlace { partition, broker };
        let held = self.disks.take(place);
        Ok(hand_disk(self.alloc, held, self.plan.fuse()))
    }

    fn store(&mut self, partition: PartitionId) -> Result<MemoryStore, Trouble> {
        self.hand_out()?;
        Ok(hand_store(self.alloc, &mut self.stores, partition))
    }

    fn meta(&mut self, partition: PartitionId) -> Result<MemoryNotes, Trouble> {
        self.hand_out()?;
        let fuse = self.plan.fuse();
        match hand_log(self.alloc, &mut self.logs, partition, fuse) {
            Ok(log) => Ok(MemoryNotes { log }),
            Err(why) => {
                self.counts.withdraw(why);
                Err(why)
            }
        }
    }

    fn registry(&mut self, partition: PartitionId) -> Result<MemoryDisk, Trouble>
        ensures control { control.Hands (fate_of result)
            (⟦<MemoryYard as Yard>⟧.control self.old) (⟦<MemoryYard as Yard>⟧.control self.new) }
        ensures plan { CountsCall (fate_of result)
            (⟦<MemoryYard as Yard>⟧.plan self.old) (⟦<MemoryYard as Yard>⟧.plan self.new) }
        ensures is_observable { (⟦<MemoryYard as Yard>⟧.held self.new).is_observable
            ≡ (⟦<MemoryYard as Yard>⟧.held self.old).is_observable }
        ensures fresh { IfOk result (λ disk. IsFreshDevice (⟦<MemoryDisk as Disk>⟧.control disk)) }
        ensures told { IfOk result (λ disk. (⟦<MemoryDisk as Disk>⟧.content disk).is_observable
            ≡ (⟦<MemoryYard as Yard>⟧.held self.old).is_observable) }
        ensures content { IsTrue (⟦<MemoryYard as Yard>⟧.held self.old).is_observable → IfOk result (λ disk.
            HandsDisk ⟦<MemoryDisk as Disk>⟧.content ((⟦<MemoryYard as Yard>⟧.held self.old).registries partition)
            (⟦<MemoryDisk as Disk>⟧.content disk)) }
        ensures out { IsTrue (⟦<MemoryYard as Yard>⟧.held self.old).is_observable → OnOk result
            (RegistryIs partition IsOut (⟦<MemoryYard as Yard>⟧.held self.old) (⟦<MemoryYard as Yard>⟧.held self.new)) }
        ensures err { IsTrue (⟦<MemoryYard as Yard>⟧.held self.old).is_observable → OnErr result
            (SameYardContent (⟦<MemoryYard as Yard>⟧.held self.old) (⟦<MemoryYard as Yard>⟧.held self.new)) }

        // So does that of a registry.
        ensures fuse { IfOk result (λ disk. fuse_of disk ≡ self.old.plan.fuse) }
        ensures stays { self.new.plan.fuse ≡ self.old.plan.fuse }
    {
        self.hand_out()?;
        let held = disk_of(self.registries.take(partition));
        Ok(hand_disk(self.alloc, held, self.plan.fuse()))
    }

    fn keep_disk(&mut self, partition: PartitionId, broker: BrokerId, disk: MemoryDisk) {
        let came = Came {
            faults: disk.faults(),
            armed: disk.is_armed(),
        };
        self.disks.put(DiskPlace { partition, broker }, disk);
        self.counts.take_back(came);
    }

    fn keep_store(&mut self, partition: PartitionId, store: MemoryStore) {
        let came = Came {
            faults: store.faults(),
            armed: store.is_armed(),
        };
        self.stores.put(partition, store);
        self.counts.take_back(came);
    }

    fn keep_meta(&mut self, partition: PartitionId, meta: MemoryNotes) {
        let log = meta.log;
        let came = Came {
            faults: log.faults(),
            armed: log.is_armed(),
        };
        self.logs.put(partition, LogPlace::of_log(log));
        self.counts.take_back(came);
    }

    fn keep_registry(&mut self, partition: PartitionId, disk: MemoryDisk) {
        let came = Came {
            faults: disk.faults(),
            armed: disk.is_armed(),
        };
        let mut disk = disk;
        let last_read = disk.take_last_read();
        self.registries.put(partition, RegistryDisk { disk });
        self.counts.take_registry(
            came,
            ReadRegistry {
                partition,
                last_read,
            },
        );
    }
}
