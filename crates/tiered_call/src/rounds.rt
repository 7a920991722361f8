//! What `audit` and `sweep` do: over the remote tiers of an environment's partitions, with a line for each.
//!
//! The report is complete before its first byte is written, so nothing is written if a call fails.

ghost use Rattle.std.specs.Prelude.{◌≡◌};
ghost use Rattle.tiered_call.specs.Rounds.{AuditsYard, SweepsYard, refused, status_of};

use crate::status::Status;
use device_yard::Yard;
use std::alloc::Global;
use tier_base::{PartitionId, Sink, write_all};
use yard_audit::{RoundRefusal, audit_all, sweep_all};

/// Audits the remote tier of each partition in an environment, and writes what was found.
pub fn audit<Y: Yard, W: Sink>(alloc: Global, yard: &mut Y, out: &mut W) -> Status
    ensures { AuditsYard Y.D.Disk Y.S.Store Y.M.MetaLog W.Sink (Y.held yard.old) (Y.held yard.new)
        (Y.control yard.old) (Y.control yard.new) out.old out.new result }
{
    let told = match audit_all(alloc, yard) {
        Ok(told) => told,
        Err(refusal) => return refused(refusal),
    };
    match write_all(out, told.text.as_slice()) {
        Ok(()) => status_of(told.unsound),
        Err(_) => Status::WriteFault,
    }
}

/// Sweeps the remote tier of each partition in an environment, and writes how much went.
pub fn sweep<Y: Yard, W: Sink>(alloc: Global, yard: &mut Y, out: &mut W) -> Status
    ensures { SweepsYard Y.D.Disk Y.S.Store Y.M.MetaLog W.Sink (Y.held yard.old) (Y.held yard.new)
        (Y.control yard.old) (Y.control yard.new) out.old out.new result }
{
    let text = match sweep_all(alloc, yard) {
        Ok(text) => text,
        Err(refusal) => return refused(refusal),
    };
    match write_all(out, text.as_slice()) {
        Ok(()) => Status::Ok,
        Err(_) => Status::WriteFault,
    }
}

/// The status of a round that was refused.
fn refused(refusal: RoundRefusal) -> Status
    ensures { result ≡ refused refusal }
{
    match refusal {
        RoundRefusal::Fault => Status::YardFault,
        RoundRefusal::NoMemory => Status::NoMemory,
    }
}

/// The status of an audit that was written.
fn status_of(unsound: Option<PartitionId>) -> Status
    ensures { result ≡ status_of unsound }
{
    match unsound {
        None => Status::Ok,
        Some(partition) => Status::Unsound { partition },
    }
}
