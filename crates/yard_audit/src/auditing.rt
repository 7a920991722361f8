//! The audit of all tiers of an environment.

ghost use Rattle.std.specs.Prelude.{◌≡◌, IfOk, IsErrOf, IsTrue};
ghost use Rattle.tier_base.specs.Counts.{Rose};
ghost use Rattle.yard_audit.specs.declared.refusal.RoundRefusal.TheVariants.{Fault};
ghost use Rattle.yard_audit.specs.Rounds.{IsAudited};
ghost use Rattle.yard_audit.specs.Lines.{unsound_after};
ghost use Rattle.yard_audit.specs.Reports.{TellsAudit};
ghost use Rattle.yard_audit.specs.Tiers.{YardRests, StaysOut};

use crate::handing::{give_back, hand_out, list};
use crate::lines::verdict_line;
use crate::refusal::RoundRefusal;
use device_yard::Yard;
use std::alloc::Global;
use tier_audit::{Verdict, audit};
use tier_base::PartitionId;

/// What an audit of all tiers reports: a line for each, and the first partition whose tier isn't sound, if there is
/// one.
#[derive(Debug, Drop)]
pub struct Audited {
    pub text: Vec<u8>,
    pub unsound: Option<PartitionId>,
}

/// Audits the tier of a partition.
fn audit_one<Y: Yard>(
    alloc: Global,
    yard: &mut Y,
    partition: PartitionId,
) -> Result<Verdict, RoundRefusal>
    ensures right { IsTrue (Y.held yard.old).is_observable → IfOk result (λ verdict.
        IsAudited Y.S.content Y.M.content (Y.held yard.old) (partition, verdict)) }
    ensures rest { IsTrue (Y.held yard.old).is_observable
        → YardRests Y.D.content Y.S.content Y.M.content (Y.held yard.old) (Y.held yard.new) }
    ensures is_observable { (Y.held yard.new).is_observable ≡ (Y.held yard.old).is_observable }
    ensures back { StaysOut (Y.control yard.old) (Y.control yard.new) }
    ensures cause { IsErrOf result Fault → Rose (Y.control yard.old).faults (Y.control yard.new).faults }
{
    let mut tools = hand_out(yard, partition)?;
    let verdict = audit(alloc, &mut tools.store, &mut tools.meta);
    give_back(yard, partition, tools);
    match verdict {
        Ok(verdict) => Ok(verdict),
        Err(refusal) => Err(RoundRefusal::from(refusal)),
    }
}

/// Makes a partition the first whose tier isn't sound, where it is and no earlier one is.
fn note(unsound: &mut Option<PartitionId>, partition: PartitionId, verdict: &Verdict)
    ensures { unsound.new ≡ unsound_after unsound.old partition verdict.now }
{
    if unsound.is_none() {
        *unsound = match verdict {
            Verdict::Sound { .. } => None,
            Verdict::Unsound(_) => Some(partition),
        };
    }
}

/// Audits the tier of each partition in use, in rising order. `RoundRefusal` has the causes of a failure.
pub fn audit_all<Y: Yard>(alloc: Global, yard: &mut Y) -> Result<Audited, RoundRefusal>
    ensures told { IfOk result (TellsAudit Y.D.content Y.S.content Y.M.content (Y.held yard.old)) }
    ensures rest { IsTrue (Y.held yard.old).is_observable
        → YardRests Y.D.content Y.S.content Y.M.content (Y.held yard.old) (Y.held yard.new) }
    ensures is_observable { (Y.held yard.new).is_observable ≡ (Y.held yard.old).is_observable }
    ensures back { StaysOut (Y.control yard.old) (Y.control yard.new) }
    ensures cause { IsErrOf result Fault → Rose (Y.control yard.old).faults (Y.control yard.new).faults }
{
    let partitions = list(yard)?;
    let mut text = Vec::new(alloc);
    let mut unsound = None;
    for partition in partitions.into_vec() {
        let verdict = audit_one(alloc, yard, partition)?;
        note(&mut unsound, partition, &verdict);
        let Ok(line) = verdict_line(alloc, partition, verdict) else {
            return Err(RoundRefusal::NoMemory);
        };
        let Ok(()) = text.extend_from_slice(line.as_slice()) else {
            return Err(RoundRefusal::NoMemory);
        };
    }
    Ok(Audited { text, unsound })
}
