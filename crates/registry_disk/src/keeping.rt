//! Reading the registry's file, and putting a new one in its place.

ghost use Rattle.std.specs.Prelude.{◌≡◌, ◌≢◌, ◌≤◌, ◌⊎◌, length, Err, OnOk, IsErrOf};
ghost use Rattle.tier_base.specs.Counts.{Rose, counted};
ghost use Rattle.tier_base.specs.Device.{Lasts};
ghost use Rattle.tier_base.specs.declared.fault.Trouble.TheVariants.{Failed, NoMemory};
ghost use Rattle.disk_model.specs.Content.{Image, Keeps, LeavesOnly};
ghost use Rattle.registry_disk.specs.declared.refusal.FindRefusal.TheVariants.{Fault};
ghost use Rattle.registry_disk.specs.Keeping.{KeepsFile, Finds, Replaces, Refrains};

use crate::refusal::FindRefusal;
use disk_model::Disk;
use registry::{RegView, Registry};
use registry_file::{RegFileRefusal, reg_decode, reg_encode};
use std::alloc::Global;
use tier_base::{FileName, Trouble};

/// Reads the registry that a disk keeps, and `None` where it has no such file. `FindRefusal` has the causes of a
/// failure.
pub fn find_registry<D: Disk>(disk: &mut D) -> Result<Option<RegView>, FindRefusal>
    ensures finds { Finds (D.content disk.old) (D.control disk.old) (D.control disk.new) result }
    ensures content { Keeps (D.content disk.old) (D.content disk.new) }
    ensures control { Lasts (D.control disk.old) (D.control disk.new) }

    // A call of the disk that failed was the only one.
    ensures once { IsErrOf result Fault → (D.control disk.new).faults ≡ counted (D.control disk.old).faults 1 }
    ensures quiet { result ≢ Err Fault → (D.control disk.new).faults ≡ (D.control disk.old).faults }
{
    let Some(bytes) = disk.read(FileName::Registry, 0)? else {
        return Ok(None);
    };
    match reg_decode(bytes.as_slice()) {
        Ok(view) => Ok(Some(view)),
        Err(RegFileRefusal::Bad { at }) => Err(FindRefusal::Bad { at }),
    }
}

/// Puts a registry's file in the place of the one that the disk has. After `Failed` it has the old or the new one,
/// and where there was no memory the old one.
pub fn keep_registry<D: Disk>(
    alloc: Global,
    disk: &mut D,
    registry: &Registry,
) -> Result<(), Trouble>
    requires { length registry.now.replicas ≤ 8 }
    ensures kept { OnOk result (KeepsFile (D.content disk.new) registry.now) }
    ensures content { Replaces registry.now (D.content disk.old) (D.content disk.new) }
    ensures dry { IsErrOf result NoMemory → Refrains (D.content disk.old) (D.content disk.new) }
    // At any moment of the call a power cut leaves what it might have left before, or what it may leave now.
    ensures since { LeavesOnly (D.content disk.old) (D.content disk.new)
        (λ c. Image (D.content disk.old) c ⊎ Image (D.content disk.new) c) }
    ensures control { Lasts (D.control disk.old) (D.control disk.new) }
    ensures last_read { (D.control disk.new).last_read ≡ (D.control disk.old).last_read }
    ensures fault { IsErrOf result Failed → Rose (D.control disk.old).faults (D.control disk.new).faults }

    // A call of the disk that failed was the only one.
    ensures once { IsErrOf result Failed → (D.control disk.new).faults ≡ counted (D.control disk.old).faults 1 }
    ensures quiet { result ≢ Err Failed → (D.control disk.new).faults ≡ (D.control disk.old).faults }
{
    let bytes = reg_encode(alloc, &registry.get())?;
    disk.replace(FileName::Registry, bytes.as_slice())
}
