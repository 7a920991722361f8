//! Audits and sweeps of all tiers of an environment in memory. Lines worked by hand.

use crate::sweeps::{LEFT, Left, are_left};
use device_yard::Yard;
use memory_yard::MemoryYard;
use std::alloc::Global;
use tier_base::{Part, PartitionId};
use yard_audit::{RoundRefusal, audit_all, sweep_all};

/// Whether all of it is left in the tier of a partition of an environment.
fn leaves<Y: Yard>(alloc: Global, yard: &mut Y, partition: u16, all: &[Left]) -> bool {
    let partition = PartitionId(partition);
    match (yard.store(partition), yard.meta(partition)) {
        (Ok(mut store), Ok(mut meta)) => {
            let left = are_left(alloc, &mut store, &mut meta, all);
            yard.keep_store(partition, store);
            yard.keep_meta(partition, meta);
            left
        }
        _ => false,
    }
}

/// Whether an audit writes this, and says that this partition is the first that isn't sound.
fn is_audited<Y: Yard>(
    alloc: Global,
    yard: &mut Y,
    wanted: &str,
    unsound: Option<PartitionId>,
) -> bool {
    match audit_all(alloc, yard) {
        Ok(told) => (told.text.as_slice() == wanted.as_bytes()) & (told.unsound == unsound),
        Err(_) => false,
    }
}

/// Whether a sweep writes this.
fn is_swept<Y: Yard>(alloc: Global, yard: &mut Y, wanted: &str) -> bool {
    match sweep_all(alloc, yard) {
        Ok(text) => text.as_slice() == wanted.as_bytes(),
        Err(_) => false,
    }
}

/// What is left in a tier.
#[derive(Clone, Copy)]
enum Tier {
    /// A copy that started, and one of its objects.
    Started,
    /// All that a sweep takes away, beside a finished copy.
    All,
}

/// A step of an environment, with what it should come to.
#[derive(Clone, Copy)]
enum Step {
    /// All of it is left in the tier of a partition.
    Leaves(u16, Tier),
    Audits(&'static str, Option<PartitionId>),
    Sweeps(&'static str),
    /// An audit and a sweep fail, for the environment's partitions.
    Fails,
}

/// Whether a step comes to what it should.
fn goes(alloc: Global, yard: &mut MemoryYard, step: Step) -> bool {
    match step {
        Step::Leaves(partition, Tier::Started) => leaves(alloc, yard, partition, &STARTED),
        Step::Leaves(partition, Tier::All) => leaves(alloc, yard, partition, &LEFT),
        Step::Audits(wanted, unsound) => is_audited(alloc, yard, wanted, unsound),
        Step::Sweeps(wanted) => is_swept(alloc, yard, wanted),
        Step::Fails => {
            let audit = matches!(audit_all(alloc, yard), Err(RoundRefusal::Fault));
            audit & matches!(sweep_all(alloc, yard), Err(RoundRefusal::Fault))
        }
    }
}

/// How many steps go as they should at first, over an environment whose calls of these numbers fail.
fn went(alloc: Global, plan: &[u32], steps: &[Step]) -> Option<usize> {
    let plan = plan.to_vec(alloc).ok()?;
    let mut yard = MemoryYard::new(alloc, Vec::new(alloc), plan);
    for (i, step) in steps.iter().enumerate() {
        if !goes(alloc, &mut yard, *step) {
            return Some(i);
        }
    }
    Some(steps.len())
}

/// A copy started, and one of its objects exists.
static STARTED: [Left; 2] = [Left::Started(1), Left::Stands(1, Part::Log)];

/// Two tiers. What is under the finished copy's keys are no parts of a segment, which an audit reports once nothing is
/// to go.
static ROUNDS: [Step; 9] = [
    Step::Audits("", None),
    Step::Sweeps(""),
    Step::Leaves(2, Tier::Started),
    Step::Audits("2 sound 1 1\n", None),
    Step::Leaves(0, Tier::All),
    Step::Audits(
        "0 unsound NoEntry 0/00000000-0000-0001-0000-000000000003.timeindex\n2 sound 1 1\n",
        Some(PartitionId(0)),
    ),
    Step::Sweeps("0 swept 5\n2 swept 1\n"),
    Step::Sweeps("0 swept 0\n2 swept 0\n"),
    Step::Audits(
        "0 unsound Wrong 0/00000000-0000-0001-0000-000000000000.log 0\n2 sound 1 0\n",
        Some(PartitionId(0)),
    ),
];

#[test]
fn rounds_print_a_line_for_each_partition(rt: HostRuntime) {
    assert_eq!(rt; went(rt.alloc(), &[], &ROUNDS), Some(ROUNDS.len()));
}

#[test]
fn a_failed_call_ends_a_round(rt: HostRuntime) {
    let steps = [Step::Fails, Step::Audits("", None)];
    assert_eq!(rt; went(rt.alloc(), &[1, 2], &steps), Some(2));
}
