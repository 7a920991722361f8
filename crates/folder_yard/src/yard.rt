//! An environment over a directory of the operating system.
//!
//! The folder `pP/bB` is the disk of broker B of partition P, `pP/store` has the partition's objects, `pP/meta` is the
//! disk of its metadata log, and `pP/reg` the one with its registry. The numbers are decimal.
//!
//! While the environment is in use it holds the directory's lock, so that a second program over the same directory gets
//! a fault. If the file system has no such locks, nothing guards against that.

ghost use Rattle.std.specs.Prelude.{◌≡◌, None, IfOk};
ghost use Rattle.tier_base.specs.Device.{IsFreshDevice};
ghost use Rattle.device_yard.specs.Control as control;
ghost use Rattle.device_yard.specs.YardContent.{Rise};
ghost use Rattle.folder_yard.specs.Yard.{nothing_held};

use crate::first_name::first_name;
use crate::folder_disk::{FolderDisk, told};
use crate::folder_store::FolderStore;
use crate::making::make_folder;
use crate::partitions::partitions;
use device_yard::{Came, ReadRegistry, Yard, YardCounts};
use disk_model::Disk;
use meta_log_file::{DiskLog, NotesRefusal};
use std::alloc::{AllocError, Global};
use std::fs::{File, TryLockError};
use std::io::{self, ErrorKind};
use std::rt::Files;
use tier_base::{Blob, BrokerId, Items, PartitionId, Trouble};

/// An environment whose devices are in a folder. It isn't observable, and drops a device that comes back: what it held
/// is in the folder.
#[derive(Drop)]
pub struct FolderYard<R: Files<File = File> + AllocGlobal + Clone + Drop> {
    rt: R,
    dir: String,
    counts: YardCounts,
    lock: Option<File>,
}

impl<R: Files<File = File> + AllocGlobal + Clone + Drop> FolderYard<R> {
    /// Makes an environment over a folder, and touches no file. The folder is made with the first device. Fails only if
    /// memory runs out.
    pub fn new(rt: R, dir: &str) -> Result<FolderYard<R>, AllocError>
        ensures fresh { IfOk result (λ yard. control.IsFreshYard (⟦<FolderYard<R> as Yard>⟧.control yard)) }
        ensures named { IfOk result (λ yard. (⟦<FolderYard<R> as Yard>⟧.control yard).named ≡ None) }
    {
        let dir = if dir.is_empty() { "." } else { dir };
        let alloc = rt.alloc();
        let dir = String::from_str(alloc, dir)?;
        Ok(FolderYard {
            rt,
            dir,
            counts: YardCounts::new(alloc),
            lock: None,
        })
    }

    /// Counts the faults of the environment.
    pub fn faults(&self) -> u64
        ensures { result ≡ (⟦<FolderYard<R> as Yard>⟧.control self.now).faults }
    {
        self.counts.faults()
    }

    /// Lends how the devices came back.
    pub fn returned(&self) -> &[Came]
        ensures { result.now ≡ (⟦<FolderYard<R> as Yard>⟧.control self.now).returned }
    {
        self.counts.returned()
    }

    /// Lends what the registries' disks last returned, in the order in which they came back.
    pub fn registries(&self) -> &[ReadRegistry]
        ensures { result.now ≡ (⟦<FolderYard<R> as Yard>⟧.control self.now).registries }
    {
        self.counts.registries()
    }

    /// Locks the folder, unless this environment has its lock. An absent folder has none. Where another environment
    /// holds it, that is a failure; where the file system knows no locks, it continues without.
    fn hold(&mut self) -> io::Result<()>
        ensures { self.new.counts ≡ self.old.counts }
    {
        if self.lock.is_some() {
            return Ok(());
        }
        let folder = match File::open(&self.rt, self.dir.as_str()) {
            Ok(folder) => folder,
            Err(error) if error.kind() == ErrorKind::NotFound => return Ok(()),
            Err(error) => return Err(error),
        };
        if let Err(TryLockError::WouldBlock) = folder.try_lock() {
            return Err(io::Error::from(ErrorKind::WouldBlock));
        }
        self.lock = Some(folder);
        Ok(())
    }

    /// Makes the folder where it is absent, and locks it.
    fn enter(&mut self) -> io::Result<()>
        ensures { self.new.counts ≡ self.old.counts }
    {
        make_folder(&self.rt, self.dir.as_str())?;
        self.hold()
    }

    /// The first of the names.
    fn find_first(&mut self) -> io::Result<Option<Blob>>
        ensures { self.new.counts ≡ self.old.counts }
    {
        self.hold()?;
        first_name(&self.rt, self.dir.as_str())
    }

    /// The partitions in use.
    fn find_partitions(&mut self) -> io::Result<Items<PartitionId>>
        ensures rise { IfOk result Rise }
        ensures counts { self.new.counts ≡ self.old.counts }
    {
        self.hold()?;
        partitions(&self.rt, self.dir.as_str())
    }

    /// Opens a disk under the folder.
    fn open_disk(&self, path: &str) -> Result<FolderDisk<R>, Trouble>
        ensures { IfOk result (λ disk. IsFreshDevice (⟦<FolderDisk<R> as Disk>⟧.control disk)) }
    {
        FolderDisk::open(self.rt.clone()?, path)
    }
}

/// The path of a broker's disk.
fn disk_path(
    alloc: Global,
    dir: &str,
    partition: PartitionId,
    broker: BrokerId,
) -> Result<String, AllocError> {
    let partition = partition.0;
    let broker = broker.0;
    let mut path = String::new(alloc);
    write!(path, "{dir}/p{partition}/b{broker}")?;
    Ok(path)
}

/// The path of a partition's objects, of its metadata log, or of its registry.
fn part_path(
    alloc: Global,
    dir: &str,
    partition: PartitionId,
    part: &str,
) -> Result<String, AllocError> {
    let partition = partition.0;
    let mut path = String::new(alloc);
    write!(path, "{dir}/p{partition}/{part}")?;
    Ok(path)
}

/// Opens the metadata log of a disk. Invalid events are a fault.
fn open_log<R: Files + AllocGlobal + Clone + Drop>(
    alloc: Global,
    disk: FolderDisk<R>,
) -> Result<DiskLog<FolderDisk<R>>, Trouble>
    ensures { IfOk result (λ log. IsFreshDevice (⟦<DiskLog<FolderDisk<R>> as meta_log::MetaLog>⟧.control log)) }
{
    match DiskLog::open(alloc, disk) {
        Ok(log) => Ok(log),
        Err((_, refusal)) => Err(trouble_of(refusal)),
    }
}

/// What an environment says of a metadata log that wasn't opened.
fn trouble_of(refusal: NotesRefusal) -> Trouble {
    match refusal {
        NotesRefusal::NoMemory => Trouble::NoMemory,
        _ => Trouble::Failed,
    }
}

impl<R: Files<File = File> + AllocGlobal + Clone + Drop> FolderYard<R> {
    /// Opens a broker's disk.
    fn make_disk(
        &mut self,
        partition: PartitionId,
        broker: BrokerId,
    ) -> Result<FolderDisk<R>, Trouble>
        ensures fresh { IfOk result (λ disk. IsFreshDevice (⟦<FolderDisk<R> as Disk>⟧.control disk)) }
        ensures counts { self.new.counts ≡ self.old.counts }
    {
        told(self.enter())?;
        let path = disk_path(self.rt.alloc(), self.dir.as_str(), partition, broker)?;
        self.open_disk(path.as_str())
    }

    /// Opens a partition's store.
    fn make_store(&mut self, partition: PartitionId) -> Result<FolderStore<R>, Trouble>
        ensures fresh { IfOk result (λ store. IsFreshDevice (⟦<FolderStore<R> as object_store::Store>⟧.control store)) }
        ensures counts { self.new.counts ≡ self.old.counts }
    {
        told(self.enter())?;
        let path = part_path(self.rt.alloc(), self.dir.as_str(), partition, "store")?;
        FolderStore::open(self.rt.clone()?, path.as_str(), partition)
    }

    /// Opens a partition's metadata log.
    fn make_log(&mut self, partition: PartitionId) -> Result<DiskLog<FolderDisk<R>>, Trouble>
        ensures fresh { IfOk result
            (λ log. IsFreshDevice (⟦<DiskLog<FolderDisk<R>> as meta_log::MetaLog>⟧.control log)) }
        ensures counts { self.new.counts ≡ self.old.counts }
    {
        told(self.enter())?;
        let path = part_path(self.rt.alloc(), self.dir.as_str(), partition, "meta")?;
        let disk = self.open_disk(path.as_str())?;
        open_log(self.rt.alloc(), disk)
    }

    /// Opens the disk that keeps a partition's registry.
    fn make_registry(&mut self, partition: PartitionId) -> Result<FolderDisk<R>, Trouble>
        ensures fresh { IfOk result (λ disk. IsFreshDevice (⟦<FolderDisk<R> as Disk>⟧.control disk)) }
        ensures counts { self.new.counts ≡ self.old.counts }
    {
        told(self.enter())?;
        let path = part_path(self.rt.alloc(), self.dir.as_str(), partition, "reg")?;
        self.open_disk(path.as_str())
    }
}

impl<R: Files<File = File> + AllocGlobal + Clone + Drop> Yard for FolderYard<R> {
    type D = FolderDisk<R>;

    type S = FolderStore<R>;

    type M = DiskLog<FolderDisk<R>>;

    ghost held = { λ y. nothing_held };

    ghost control = { λ y. y.counts };

    ghost plan = { λ y. None };

    fn first_name(&mut self) -> Result<Option<Blob>, Trouble> {
        let found = told(self.find_first());
        self.counts.name(found)
    }

    fn partitions(&mut self) -> Result<Items<PartitionId>, Trouble> {
        let found = told(self.find_partitions());
        self.counts.ask(found)
    }

    fn disk(&mut self, partition: PartitionId, broker: BrokerId) -> Result<FolderDisk<R>, Trouble> {
        let made = self.make_disk(partition, broker);
        self.counts.hand(made)
    }

    fn store(&mut self, partition: PartitionId) -> Result<FolderStore<R>, Trouble> {
        let made = self.make_store(partition);
        self.counts.hand(made)
    }

    fn meta(&mut self, partition: PartitionId) -> Result<DiskLog<FolderDisk<R>>, Trouble> {
        let made = self.make_log(partition);
        self.counts.hand(made)
    }

    fn registry(&mut self, partition: PartitionId) -> Result<FolderDisk<R>, Trouble> {
        let made = self.make_registry(partition);
        self.counts.hand(made)
    }

    fn keep_disk(&mut self, partition: PartitionId, broker: BrokerId, disk: FolderDisk<R>) {
        let _ = (partition, broker);
        let came = Came {
            faults: disk.faults(),
            armed: disk.is_armed(),
        };
        self.counts.take_back(came);
    }

    fn keep_store(&mut self, partition: PartitionId, store: FolderStore<R>) {
        let _ = partition;
        let came = Came {
            faults: store.faults(),
            armed: store.is_armed(),
        };
        self.counts.take_back(came);
    }

    fn keep_meta(&mut self, partition: PartitionId, meta: DiskLog<FolderDisk<R>>) {
        let _ = partition;
        let came = Came {
            faults: meta.faults(),
            armed: meta.is_armed(),
        };
        self.counts.take_back(came);
    }

    fn keep_registry(&mut self, partition: PartitionId, disk: FolderDisk<R>) {
        let came = Came {
            faults: disk.faults(),
            armed: disk.is_armed(),
        };
        let mut disk = disk;
        let last_read = disk.take_last_read();
        self.counts.take_registry(
            came,
            ReadRegistry {
                partition,
                last_read,
            },
        );
    }
}
