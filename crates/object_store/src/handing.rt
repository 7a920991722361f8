//! How a `get` ends, and what it returns.

ghost use Rattle.std.specs.Prelude.{◌≡◌, take, drop, if◌then◌else◌, IfOk};
ghost use Rattle.tier_base.specs.Device.{Ran, fate_of};
ghost use Rattle.tier_base.specs.Faults.{control_of};
ghost use Rattle.tier_base.specs.Told.{bytes_in, last_read_after};
ghost use Rattle.object_store.specs.declared.call.StoreCall.TheVariants.{Get};
ghost use Rattle.object_store.specs.Call.{call_code};

use crate::call::StoreCall;
use bytes::Bytes;
use std::alloc::AllocError;
use tier_base::{FaultPlan, Trouble, give};

/// Ends a `get` or a `get_part` that found this: where it goes well it gives it and returns its bytes.
pub fn end_get(
    faults: &mut FaultPlan<StoreCall>,
    last_read: &mut Bytes,
    object: Option<Bytes>,
) -> Result<Option<Bytes>, Trouble>
    ensures control { Ran Get (fate_of result) (control_of call_code faults.old last_read.old)
        (control_of call_code faults.new last_read.new) }
    ensures last_read { last_read.new ≡ last_read_after result last_read.old }
    ensures given { IfOk result (λ given. given ≡ object) }
{
    let ending = faults.ending(StoreCall::Get);
    let shared = share(&object)?;
    let outcome = faults.note(StoreCall::Get, ending);
    hand(last_read, outcome.is_ok(), shared);
    give(outcome, object)
}

/// Shares at most so many bytes from a place on.
pub fn part(bytes: &Bytes, at: usize, most: usize) -> Result<Bytes, AllocError>
    ensures { IfOk result (λ part. part ≡ take most (drop at bytes.now)) }
{
    let from = at.min(bytes.len());
    let to = from + most.min(bytes.len() - from);
    bytes.slice(from..to)
}

/// Shares the bytes that a `get` found.
fn share(object: &Option<Bytes>) -> Result<Bytes, AllocError>
    ensures { IfOk result (λ shared. shared ≡ bytes_in object.now) }
{
    match object {
        None => Ok(Bytes::new()),
        Some(bytes) => bytes.clone(),
    }
}

/// Records bytes as last read, if the call returns them.
fn hand(last_read: &mut Bytes, given: bool, bytes: Bytes)
    ensures { last_read.new ≡ (if given then bytes else last_read.old) }
{
    if given {
        *last_read = bytes;
    }
}
