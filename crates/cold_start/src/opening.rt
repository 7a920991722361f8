//! Opening a partition over devices that an earlier run may have left.
//!
//! The registry's file is read first. If there is none, no command was ever answered, so the partition starts fresh:
//! what is on the brokers' disks is removed, and the registry is written last. If there is one, it is first replaced by
//! what was read, so that no power cut brings back an older one; then the world starts with what it says.
//!
//! Before that the metadata log is read past the greatest number of events that a log can have. If that read succeeds,
//! the events that it finds are the only ones that a power cut can leave.

ghost use Rattle.std.specs.Prelude.{◌≡◌, ◌⊎◌, ◌≤◌, ◌^◌, ℕ, false, Ok, Some, None};
ghost use Rattle.std.specs.Prelude.{IsTrue, IsErrOf, OnOk, IfOk, IfErr, length};
ghost use Rattle.tier_base.specs.Counts.{Rose};
ghost use Rattle.tier_base.specs.Device.{Lasts};
ghost use Rattle.tier_base.specs.declared.fault.Trouble.TheVariants.{Failed};
ghost use Rattle.tier_base.specs.declared.plain.FileName.{FileName as Name};
ghost use Rattle.tier_base.specs.declared.plain.FileName.TheVariants.{Registry as RegistryName};
ghost use Rattle.meta_log.specs.Content.{Keeps as KeepsNotes, LeavesTold};
ghost use Rattle.registry.specs.View.{IsView};
ghost use Rattle.registry_file.specs.Reading.{view_in};
ghost use Rattle.plain_log.specs.Fresh.{fresh as fresh_plain};
ghost use Rattle.plain_log.specs.Orders.{AreListsFor, IsConfig};
ghost use Rattle.plain_log.specs.declared.state.State.{State};
ghost use Rattle.partition_commands.specs.Fresh.{AreFreshDisks, DisksTell, OneFailed};
ghost use Rattle.partition_world.specs.Fresh.{IsNewWorld};
ghost use Rattle.partition_world.specs.Left.{IsCentralLeft};
ghost use Rattle.cold_state.specs.Cold.{cold_of};
ghost use Rattle.cold_start.specs.Opening.{IsGone, AreUnarmed, AllLast, Starts, BeginsFromRegistry};
ghost use Rattle.cold_start.specs.Opening.{IsPartitionOpened, OpeningHasCause, DevicesComeBack, GivesBack};
ghost use Rattle.cold_start.specs.Opening.{refusal_of_world, refusal_of_device};
ghost use Rattle.cold_start.specs.Stands.{StandsFor, IsBlank, LeavesCold};

use crate::cold::{Cold, registry_refusal};
use crate::laws::file_laws;
use crate::refusal::ColdRefusal;
use disk_model::Disk;
use meta_log::MetaLog;
use object_store::Store;
use partition_world::{Devices, World, WorldRefusal};
use plain_log::{ActorList, Config, Registry};
use registry::RegView;
use registry_disk::{find_registry, keep_registry};
use std::alloc::Global;
use tier_base::{FileName, Items, PartitionId, Trouble};

/// No log has as many metadata events: each takes 33 bytes at least of a file whose length is below 2^63.
const NOTES_BOUND: u64 = 1 << 59;

fn device_refusal(why: Trouble) -> ColdRefusal
    ensures { result ≡ refusal_of_device why }
{
    match why {
        Trouble::Failed => ColdRefusal::DeviceFault,
        Trouble::NoMemory => ColdRefusal::NoMemory,
    }
}

fn world_refusal(why: WorldRefusal) -> ColdRefusal
    ensures { result ≡ refusal_of_world why }
{
    match why {
        WorldRefusal::DiskFault => ColdRefusal::DeviceFault,
        WorldRefusal::NoMemory => ColdRefusal::NoMemory,
    }
}

/// Removes a file.
fn remove_one<D: Disk>(disk: &mut D, name: FileName) -> Result<(), Trouble>
    ensures removed { OnOk result (IsTrue (D.content disk.old).is_observable
        → IsGone name (D.content disk.old).files (D.content disk.new).files) }
    ensures is_observable { (D.content disk.new).is_observable ≡ (D.content disk.old).is_observable }
    ensures control { Lasts (D.control disk.old) (D.control disk.new) }
    ensures fault { IsErrOf result Failed → Rose (D.control disk.old).faults (D.control disk.new).faults }
{
    disk.reserve(1)?;
    disk.remove(name)?;
    Ok(())
}

/// Removes a disk's files.
fn clear<D: Disk>(disk: &mut D) -> Result<(), Trouble>
    ensures cleared { OnOk result (IsTrue (D.content disk.old).is_observable → (n : Name)
        → (D.content disk.new).files n ≡ None) }
    ensures is_observable { (D.content disk.new).is_observable ≡ (D.content disk.old).is_observable }
    ensures control { Lasts (D.control disk.old) (D.control disk.new) }
    ensures fault { IsErrOf result Failed → Rose (D.control disk.old).faults (D.control disk.new).faults }
{
    let names = disk.list()?;
    for name in names.as_slice() {
        match remove_one(disk, *name) {
            Ok(()) => {}
            Err(why) => return Err(why),
        }
    }
    Ok(())
}

/// Removes the files of all disks.
fn clear_all<D: Disk>(disks: &mut Vec<D>) -> Result<(), Trouble>
    requires { AreUnarmed D.control disks.old.items }
    ensures cleared { OnOk result (AreFreshDisks D.content D.control disks.new.items) }
    ensures tell { DisksTell D.content disks.old.items → DisksTell D.content disks.new.items }
    ensures control { AllLast D.control disks.old.items disks.new.items }
    ensures count { length disks.new.items ≡ length disks.old.items }
    ensures fault { IsErrOf result Failed → OneFailed D.control disks.old.items disks.new.items }
{
    for at in 0..disks.len() {
        match clear(&mut disks[at]) {
            Ok(()) => {}
            Err(why) => return Err(why),
        }
    }
    Ok(())
}

/// Makes sure that the metadata events which a metadata log reads are the only ones that a power cut leaves, and that
/// they can be counted.
fn settle_notes<M: MetaLog>(meta: &mut M) -> Result<(), Trouble>
    ensures settled { OnOk result (IsTrue (M.content meta.old).is_observable → LeavesTold (M.content meta.new)) }
    ensures few { OnOk result (IsTrue (M.content meta.old).is_observable → length (M.content meta.new).notes ≤ 2 ^ 59) }
    ensures content { KeepsNotes (M.content meta.old) (M.content meta.new) }
    ensures control { Lasts (M.control meta.old) (M.control meta.new) }
    ensures fault { IsErrOf result Failed → Rose (M.control meta.old).faults (M.control meta.new).faults }
{
    let more = meta.read(NOTES_BOUND)?;
    if !more.is_empty() {
        return Err(Trouble::NoMemory);
    }
    Ok(())
}

impl<D: Disk, S: Store, M: MetaLog> Cold<D, S, M> {
    /// Opens a partition over its devices and the disk of its registry. From then on the planned calls of the
    /// brokers' disks, the store and the metadata log fail. A refusal gives the devices back.
    pub fn open(
        alloc: Global,
        partition: PartitionId,
        config: Config,
        lists: Items<ActorList>,
        devices: Devices<D, S, M>,
        reg: D,
    ) -> Result<Cold<D, S, M>, (Devices<D, S, M>, D, ColdRefusal)>
        requires brokers { IsConfig config }
        requires fit { AreListsFor config lists }
        requires count { length devices.disks.items ≡ config.brokers }
        requires disks { AreUnarmed D.control devices.disks.items }
        requires registry { (D.control reg).armed ≡ false }
        ensures opened { IfOk result (IsPartitionOpened D.Disk S.Store M.MetaLog partition config lists
            devices.disks.items devices.store devices.meta reg) }
        ensures going { IfOk result (λ t. t.ended ≡ false) }
        ensures is_observable { IfOk result (λ t. (D.content t.reg).is_observable ≡ (D.content reg).is_observable) }
        ensures new { IfOk result (λ t. IsNewWorld lists t.world) }

        // For each plain state that the devices represent its journal is a run from there on, and so it is from the
        // beginning where they hold nothing.
        ensures central { IfOk result (λ t. (p : State)
            → StandsFor D.Disk S.Store M.MetaLog partition devices.disks.items
            devices.store devices.meta reg p → IsCentralLeft D.Disk S.Store M.MetaLog p t.world) }
        ensures blank { IfOk result (λ t. DisksTell D.content devices.disks.items
            → IsBlank D.Disk S.Store M.MetaLog devices.store devices.meta reg
            → IsCentralLeft D.Disk S.Store M.MetaLog (fresh_plain config) t.world) }
        ensures cold { IfOk result (λ t. IsTrue (D.content t.reg).is_observable → (opening : State)
            → LeavesCold D.Disk S.Store M.MetaLog opening t.world t.reg) }

        // A refusal has its cause, and leaves devices that represent what they represented.
        ensures cause { IfErr result (λ e. OpeningHasCause D.Disk M.MetaLog config devices.disks.items devices.meta reg
            e.0.disks.items e.0.meta e.1 e.2) }
        ensures back { IfErr result
            (λ e. DevicesComeBack D.Disk M.MetaLog devices.disks.items devices.store devices.meta reg
            e.0.disks.items e.0.store e.0.meta e.1 e.2) }
        ensures stand { IfErr result (λ e. (p : State)
            → StandsFor D.Disk S.Store M.MetaLog partition devices.disks.items
            devices.store devices.meta reg p → StandsFor D.Disk S.Store M.MetaLog partition e.0.disks.items e.0.store
            e.0.meta e.1 p) }
        ensures begun { IfErr result (λ e. DisksTell D.content devices.disks.items
            → IsBlank D.Disk S.Store M.MetaLog devices.store devices.meta reg
            → IsBlank D.Disk S.Store M.MetaLog e.0.store e.0.meta e.1
            ⊎ StandsFor D.Disk S.Store M.MetaLog partition e.0.disks.items e.0.store e.0.meta e.1
            (cold_of (fresh_plain config))) }
    {
        let mut reg = reg;
        match find_registry(&mut reg) {
            Ok(None) => Self::start(alloc, partition, config, lists, devices, reg),
            Ok(Some(view)) => Self::go_on(alloc, partition, config, lists, devices, reg, view),
            Err(why) => Err((devices, reg, why.into())),
        }
    }

    /// Begins at the beginning: the disk has no registry.
    fn start(
        alloc: Global,
        partition: PartitionId,
        config: Config,
        lists: Items<ActorList>,
        devices: Devices<D, S, M>,
        reg: D,
    ) -> Result<Cold<D, S, M>, (Devices<D, S, M>, D, ColdRefusal)>
        requires brokers { IsConfig config }
        requires fit { AreListsFor config lists }
        requires count { length devices.disks.items ≡ config.brokers }
        requires disks { AreUnarmed D.control devices.disks.items }
        requires registry { (D.control reg).armed ≡ false }
        requires none { IsTrue (D.content reg).is_observable → (D.content reg).files RegistryName ≡ None }
        ensures opened { IfOk result (Starts D.Disk S.Store M.MetaLog partition config lists
            devices.disks.items devices.store devices.meta reg) }
        ensures going { IfOk result (λ t. t.ended ≡ false) }
        ensures is_observable { IfOk result (λ t. (D.content t.reg).is_observable ≡ (D.content reg).is_observable) }
        ensures new { IfOk result (λ t. IsNewWorld lists t.world) }
        ensures blank { IfOk result (λ t. DisksTell D.content devices.disks.items
            → IsBlank D.Disk S.Store M.MetaLog devices.store devices.meta reg
            → IsCentralLeft D.Disk S.Store M.MetaLog (fresh_plain config) t.world) }
        ensures cold { IfOk result (λ t. IsTrue (D.content t.reg).is_observable → (opening : State)
            → LeavesCold D.Disk S.Store M.MetaLog opening t.world t.reg) }
        ensures cause { IfErr result (λ e. OpeningHasCause D.Disk M.MetaLog config devices.disks.items devices.meta reg
            e.0.disks.items e.0.meta e.1 e.2) }
        ensures back { IfErr result
            (λ e. DevicesComeBack D.Disk M.MetaLog devices.disks.items devices.store devices.meta reg
            e.0.disks.items e.0.store e.0.meta e.1 e.2) }
        ensures begun { IfErr result (λ e. DisksTell D.content devices.disks.items
            → IsBlank D.Disk S.Store M.MetaLog devices.store devices.meta reg
            → IsBlank D.Disk S.Store M.MetaLog e.0.store e.0.meta e.1
            ⊎ StandsFor D.Disk S.Store M.MetaLog partition e.0.disks.items e.0.store e.0.meta e.1
            (cold_of (fresh_plain config))) }
    {
        file_laws();
        let Devices {
            mut disks,
            store,
            mut meta,
        } = devices;
        match settle_notes(&mut meta) {
            Ok(()) => {}
            Err(why) => return Err((Devices { disks, store, meta }, reg, device_refusal(why))),
        }
        match clear_all(&mut disks) {
            Ok(()) => {}
            Err(why) => return Err((Devices { disks, store, meta }, reg, device_refusal(why))),
        }
        match World::fresh(
            alloc,
            partition,
            config,
            lists,
            Devices { disks, store, meta },
        ) {
            Ok(world) => Self::begun(alloc, world, reg),
            Err((devices, why)) => Err((devices, reg, world_refusal(why))),
        }
    }

    /// Writes the registry of a world that has just begun.
    fn begun(
        alloc: Global,
        world: World<D, S, M>,
        reg: D,
    ) -> Result<Cold<D, S, M>, (Devices<D, S, M>, D, ColdRefusal)>
        requires registry { (D.control reg).armed ≡ false }
        requires some { 1 ≤ length world.partition_state.registry.replicas }
        requires few { length world.partition_state.registry.replicas ≤ 8 }
        ensures ok { IfOk result (λ t. (t.world ≡ world) × (t.ended ≡ false)) }
        ensures is_observable { IfOk result (λ t. (D.content t.reg).is_observable ≡ (D.content reg).is_observable) }
        ensures cold { IfOk result (λ t. IsTrue (D.content t.reg).is_observable → (opening : State)
            → LeavesCold D.Disk S.Store M.MetaLog opening t.world t.reg) }
        ensures err { IfErr result (λ e. GivesBack D.Disk world reg e.0.disks.items e.0.store e.0.meta e.1 e.2) }
    {
        file_laws();
        let mut reg = reg;
        match keep_registry(alloc, &mut reg, world.registry()) {
            Ok(()) => Ok(Cold {
                world,
                reg,
                ended: false,
            }),
            Err(why) => Err((world.close(), reg, registry_refusal(why))),
        }
    }

    /// Starts again with the registry that the disk has.
    fn go_on(
        alloc: Global,
        partition: PartitionId,
        config: Config,
        lists: Items<ActorList>,
        devices: Devices<D, S, M>,
        reg: D,
        view: RegView,
    ) -> Result<Cold<D, S, M>, (Devices<D, S, M>, D, ColdRefusal)>
        requires brokers { IsConfig config }
        requires fit { AreListsFor config lists }
        requires count { length devices.disks.items ≡ config.brokers }
        requires registry { (D.control reg).armed ≡ false }
        requires rules { IsView view }
        requires read { view_in (D.control reg).last_read ≡ Ok view }
        requires there { IsTrue (D.content reg).is_observable → (D.content reg).files RegistryName
            ≡ Some (D.control reg).last_read }
        ensures opened { IfOk result (BeginsFromRegistry D.Disk S.Store M.MetaLog partition config lists
            devices.disks.items devices.store devices.meta reg) }
        ensures going { IfOk result (λ t. t.ended ≡ false) }
        ensures is_observable { IfOk result (λ t. (D.content t.reg).is_observable ≡ (D.content reg).is_observable) }
        ensures new { IfOk result (λ t. IsNewWorld lists t.world) }
        ensures central { IfOk result (λ t. (p : State)
            → StandsFor D.Disk S.Store M.MetaLog partition devices.disks.items
            devices.store devices.meta reg p → IsCentralLeft D.Disk S.Store M.MetaLog p t.world) }
        ensures cold { IfOk result (λ t. IsTrue (D.content t.reg).is_observable → (opening : State)
            → LeavesCold D.Disk S.Store M.MetaLog opening t.world t.reg) }
        ensures cause { IfErr result (λ e. OpeningHasCause D.Disk M.MetaLog config devices.disks.items devices.meta reg
            e.0.disks.items e.0.meta e.1 e.2) }
        ensures back { IfErr result
            (λ e. DevicesComeBack D.Disk M.MetaLog devices.disks.items devices.store devices.meta reg
            e.0.disks.items e.0.store e.0.meta e.1 e.2) }
        ensures stand { IfErr result (λ e. (p : State)
            → StandsFor D.Disk S.Store M.MetaLog partition devices.disks.items
            devices.store devices.meta reg p → StandsFor D.Disk S.Store M.MetaLog partition e.0.disks.items e.0.store
            e.0.meta e.1 p) }
    {
        if view.brokers != config.brokers {
            let why = ColdRefusal::Brokers {
                kept: view.brokers,
                asked: config.brokers,
            };
            return Err((devices, reg, why));
        }
        file_laws();
        let Devices {
            disks,
            store,
            mut meta,
        } = devices;
        match settle_notes(&mut meta) {
            Ok(()) => {}
            Err(why) => return Err((Devices { disks, store, meta }, reg, device_refusal(why))),
        }
        let devices = Devices { disks, store, meta };
        let Ok(registry) = Registry::of(alloc, &view) else {
            return Err((devices, reg, ColdRefusal::NoMemory));
        };
        let mut reg = reg;
        match keep_registry(alloc, &mut reg, &registry) {
            Ok(()) => {}
            Err(why) => return Err((devices, reg, registry_refusal(why))),
        }
        match World::reopen(alloc, partition, config, lists, devices, registry) {
            Ok(world) => Ok(Cold {
                world,
                reg,
                ended: false,
            }),
            Err((devices, _)) => Err((devices, reg, ColdRefusal::NoMemory)),
        }
    }
}
