//! The planned calls of a partition's devices: those that the script's fault lines name, in the order of the lines.

ghost use Rattle.std.specs.Prelude.{◌≡◌, ◌++◌, IfOk, OnOk};
ghost use Rattle.run_memory.specs.Plans.{disk_call, is_disk_of, disk_named, store_named, meta_named};
ghost use Rattle.run_memory.specs.Plans.{planned_call, disk_plan, store_plan, meta_plan};

use disk_model::DiskCall;
use meta_log::MetaCall;
use object_store::StoreCall;
use script_lang::{Fault, FaultCall, FaultDevice};
use std::alloc::{AllocError, Global};
use tier_base::Planned;

/// The call of a disk that has this name.
fn disk_call(call: FaultCall) -> Option<DiskCall>
    ensures { result ≡ disk_call call }
{
    match call {
        FaultCall::Append => Some(DiskCall::Append),
        FaultCall::Sync => Some(DiskCall::Sync),
        FaultCall::Read => Some(DiskCall::Read),
        FaultCall::Cut => Some(DiskCall::Cut),
        FaultCall::Replace => Some(DiskCall::Replace),
        FaultCall::Remove => Some(DiskCall::Remove),
        FaultCall::List => Some(DiskCall::List),
        FaultCall::Put | FaultCall::Get | FaultCall::Delete => None,
    }
}

/// Whether a device is the disk of this broker.
fn is_disk_of(broker: u16, device: FaultDevice) -> bool
    ensures { result ≡ is_disk_of broker device }
{
    match device {
        FaultDevice::Disk(b) => b.0 == broker,
        FaultDevice::Store | FaultDevice::Meta => false,
    }
}

/// The call of this broker's disk that a fault names.
fn disk_named(broker: u16, fault: Fault) -> Option<DiskCall>
    ensures { result ≡ disk_named broker fault.device fault.call }
{
    if is_disk_of(broker, fault.device) {
        disk_call(fault.call)
    } else {
        None
    }
}

/// The call of the store that a fault names.
fn store_named(fault: Fault) -> Option<StoreCall>
    ensures { result ≡ store_named fault.device fault.call }
{
    match (fault.device, fault.call) {
        (FaultDevice::Store, FaultCall::Put) => Some(StoreCall::Put),
        (FaultDevice::Store, FaultCall::Get) => Some(StoreCall::Get),
        (FaultDevice::Store, FaultCall::Delete) => Some(StoreCall::Delete),
        _ => None,
    }
}

/// The call of the metadata log that a fault names.
fn meta_named(fault: Fault) -> Option<MetaCall>
    ensures { result ≡ meta_named fault.device fault.call }
{
    match (fault.device, fault.call) {
        (FaultDevice::Meta, FaultCall::Append) => Some(MetaCall::Append),
        (FaultDevice::Meta, FaultCall::Read) => Some(MetaCall::Read),
        _ => None,
    }
}

/// Puts a fault after a device's plan, where it names a call of it.
fn add_call<K: Copy + Drop>(
    plan: &mut Vec<Planned<K>>,
    fault: Fault,
    call: Option<K>,
) -> Result<(), AllocError>
    ensures { OnOk result (plan.new.items ≡ plan.old.items ++ planned_call fault call) }
{
    let Some(call) = call else {
        return Ok(());
    };
    plan.push(Planned {
        call,
        number: fault.number,
        after: fault.after,
    })?;
    Ok(())
}

/// Plans the calls of a broker's disk.
pub(crate) fn disk_plan(
    alloc: Global,
    broker: u16,
    faults: &[Fault],
) -> Result<Vec<Planned<DiskCall>>, AllocError>
    ensures { IfOk result (λ plan. plan.items ≡ disk_plan broker faults.now) }
{
    let mut plan = Vec::new(alloc);
    for fault in faults {
        add_call(&mut plan, *fault, disk_named(broker, *fault))?;
    }
    Ok(plan)
}

/// Plans the calls of the store.
pub(crate) fn store_plan(
    alloc: Global,
    faults: &[Fault],
) -> Result<Vec<Planned<StoreCall>>, AllocError>
    ensures { IfOk result (λ plan. plan.items ≡ store_plan faults.now) }
{
    let mut plan = Vec::new(alloc);
    for fault in faults {
        add_call(&mut plan, *fault, store_named(*fault))?;
    }
    Ok(plan)
}

/// Plans the calls of the metadata log.
pub(crate) fn meta_plan(
    alloc: Global,
    faults: &[Fault],
) -> Result<Vec<Planned<MetaCall>>, AllocError>
    ensures { IfOk result (λ plan. plan.items ≡ meta_plan faults.now) }
{
    let mut plan = Vec::new(alloc);
    for fault in faults {
        add_call(&mut plan, *fault, meta_named(*fault))?;
    }
    Ok(plan)
}
