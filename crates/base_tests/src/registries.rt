//! Worked rows, by hand: brokers 0 to 2, of which 0 leads.

use registry::{RegRefusal, Registry, Replica};
use std::alloc::Global;
use tier_base::BrokerId;

/// A call of a registry and its answer, or a look at it.
#[derive(Clone, Copy)]
enum Step {
    /// A broker acknowledges an end in an epoch.
    Ack(u16, u32, u64, Result<u64, RegRefusal>),
    Shrink(u16, Result<(), RegRefusal>),
    /// A broker that is up or not.
    Expand(u16, bool, Result<(), RegRefusal>),
    /// A broker that is up or not.
    Elect(u16, bool, Result<u32, RegRefusal>),
    /// A broker that is up or not, and its flushed end.
    Unclean(u16, bool, u64, Result<u32, RegRefusal>),
    /// An epoch and a start.
    Raise(u32, u64, Result<u64, RegRefusal>),
    /// The leader epoch becomes this one.
    Jump(u32),
    /// The leader epoch, the leader and the high watermark.
    Tell(u32, u16, u64),
    /// A broker is in sync or not, and has acknowledged this end.
    Has(u16, bool, u64),
}

fn ack(
    registry: &mut Registry,
    broker: u16,
    epoch: u32,
    end: u64,
) -> Option<Result<u64, RegRefusal>> {
    if broker as usize >= registry.replicas.len() {
        return None;
    }
    Some(registry.ack(BrokerId(broker), epoch, end))
}

fn shrink(registry: &mut Registry, broker: u16) -> Option<Result<(), RegRefusal>> {
    if broker as usize >= registry.replicas.len() {
        return None;
    }
    Some(registry.shrink(BrokerId(broker)))
}

fn expand(registry: &mut Registry, broker: u16, up: bool) -> Option<Result<(), RegRefusal>> {
    if broker as usize >= registry.replicas.len() {
        return None;
    }
    Some(registry.expand(BrokerId(broker), up))
}

fn elect(registry: &mut Registry, broker: u16, up: bool) -> Option<Result<u32, RegRefusal>> {
    if broker as usize >= registry.replicas.len() {
        return None;
    }
    Some(registry.elect(BrokerId(broker), up))
}

fn unclean(
    registry: &mut Registry,
    broker: u16,
    up: bool,
    end: u64,
) -> Option<Result<u32, RegRefusal>> {
    if broker as usize >= registry.replicas.len() {
        return None;
    }
    Some(registry.elect_unclean(BrokerId(broker), up, end))
}

fn replica(registry: &Registry, broker: u16) -> Option<Replica> {
    if broker as usize >= registry.replicas.len() {
        return None;
    }
    Some(*registry.replicas.get(broker as usize))
}

fn tell(registry: &Registry) -> (u32, u16, u64) {
    (registry.epoch, registry.leader.0, registry.mark)
}

/// Makes a call, and returns whether it gets this answer.
fn call(registry: &mut Registry, step: Step) -> bool {
    match step {
        Step::Ack(broker, epoch, end, answer) => {
            ack(registry, broker, epoch, end) == Some(answer)
        }
        Step::Shrink(broker, answer) => shrink(registry, broker) == Some(answer),
        Step::Expand(broker, up, answer) => expand(registry, broker, up) == Some(answer),
        Step::Elect(broker, up, answer) => elect(registry, broker, up) == Some(answer),
        Step::Unclean(broker, up, end, answer) => {
            unclean(registry, broker, up, end) == Some(answer)
        }
        Step::Raise(epoch, start, answer) => registry.raise(epoch, start) == answer,
        Step::Jump(epoch) => {
            registry.epoch = epoch;
            true
        }
        Step::Tell(epoch, leader, mark) => tell(registry) == (epoch, leader, mark),
        Step::Has(broker, in_sync, acked) => {
            replica(registry, broker) == Some(Replica { in_sync, acked })
        }
    }
}

/// Makes calls, and returns how many get this answer at first.
fn run(registry: &mut Registry, calls: &[Step]) -> usize {
    for (i, step) in calls.iter().enumerate() {
        if !call(registry, *step) {
            return i;
        }
    }
    calls.len()
}

/// How many calls of a fresh registry get this answer at first.
fn row(alloc: Global, brokers: u16, calls: &[Step]) -> usize {
    if brokers == 0 || brokers > 8 {
        return 0;
    }
    match Registry::fresh(alloc, brokers) {
        Ok(mut registry) => run(&mut registry, calls),
        Err(_) => 0,
    }
}

/// What happens, the number of brokers, and the calls.
static ROWS: [(&str, u16, &[Step]); 4] = [
    (
        "the mark follows the slowest in sync, and never falls",
        3,
        &[
            Step::Ack(0, 0, 5, Ok(0)),
            Step::Ack(1, 0, 7, Ok(0)),
            Step::Ack(2, 0, 4, Ok(4)),
            Step::Shrink(2, Ok(())),
            Step::Ack(1, 0, 3, Ok(4)),
            Step::Ack(1, 0, 9, Ok(5)),
            Step::Shrink(2, Err(RegRefusal::NotInSync)),
            Step::Shrink(0, Err(RegRefusal::IsLeader)),
            Step::Expand(2, false, Err(RegRefusal::DownBroker)),
            Step::Expand(2, true, Err(RegRefusal::Behind { ack: 4, mark: 5 })),
            Step::Ack(2, 0, 5, Ok(5)),
            Step::Expand(2, true, Ok(())),
            Step::Expand(2, true, Ok(())), // a member stays one
            Step::Tell(0, 0, 5),
        ],
    ),
    (
        "an election resets what is acknowledged",
        3,
        &[
            Step::Ack(0, 0, 9, Ok(0)),
            Step::Ack(1, 0, 8, Ok(0)),
            Step::Ack(2, 0, 7, Ok(7)),
            Step::Shrink(2, Ok(())),
            Step::Elect(2, true, Err(RegRefusal::NotInSync)),
            Step::Elect(1, false, Err(RegRefusal::DownBroker)),
            Step::Elect(1, true, Ok(1)),
            Step::Tell(1, 1, 7),
            Step::Has(0, true, 7),
            Step::Has(1, true, 7),
            Step::Has(2, false, 0),
            Step::Ack(0, 0, 9, Err(RegRefusal::StaleEpoch { current: 1 })),
            Step::Jump(2_147_483_647),
            Step::Elect(0, true, Err(RegRefusal::LastEpoch)),
            Step::Unclean(0, true, 9, Err(RegRefusal::LastEpoch)),
        ],
    ),
    (
        "an unclean election leaves one in sync",
        3,
        &[
            Step::Ack(0, 0, 9, Ok(0)),
            Step::Ack(1, 0, 8, Ok(0)),
            Step::Ack(2, 0, 7, Ok(7)),
            Step::Raise(0, 4, Ok(4)),
            Step::Unclean(2, false, 3, Err(RegRefusal::DownBroker)),
            Step::Unclean(
                2,
                true,
                3,
                Err(RegRefusal::BehindStart { end: 3, start: 4 }),
            ),
            Step::Unclean(2, true, 4, Ok(1)),
            Step::Tell(1, 2, 4),
            Step::Has(0, false, 0),
            Step::Has(1, false, 0),
            Step::Has(2, true, 4),
        ],
    ),
    (
        "a raise stays between start and mark",
        1,
        &[
            Step::Jump(3),
            Step::Ack(0, 3, 4, Ok(4)),
            Step::Raise(2, 1, Err(RegRefusal::StaleEpoch { current: 3 })),
            Step::Raise(3, 0, Err(RegRefusal::NotAbove { start: 0 })),
            Step::Raise(3, 5, Err(RegRefusal::AboveMark { mark: 4 })),
            Step::Raise(3, 4, Ok(4)),
            Step::Raise(3, 4, Err(RegRefusal::NotAbove { start: 4 })),
        ],
    ),
];

#[test]
fn calls_return_as_in_the_cases(rt: HostRuntime) {
    for (name, brokers, calls) in &ROWS {
        assert_eq!(rt; row(rt.alloc(), *brokers, calls), calls.len(), "{name}");
    }
}
