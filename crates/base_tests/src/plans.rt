//! Plans of faults: what fails, done or not, and what is counted. Worked by hand.

use std::alloc::Global;
use tier_base::{CallKind, Ending, Failed, FaultPlan, Planned, Trouble, give};

/// The calls of a device with two.
#[derive(Clone, Copy)]
enum Call {
    Put,
    Get,
}

impl CallKind for Call {
    ghost use Rattle.base_tests.specs.declared.plans.Call.TheVariants.{Put, Get};

    ghost code = { elim [ Put ↦ 0 | Get ↦ 1 ] };

    fn to_code(self) -> usize {
        match self {
            Call::Put => 0,
            Call::Get => 1,
        }
    }
}

/// Makes a call, and returns how it ended.
fn make(faults: &mut FaultPlan<Call>, kind: Call) -> Ending {
    let ending = faults.ending(kind);
    match faults.note(kind, ending) {
        Ok(()) => Ending::Done,
        Err(Failed) => ending,
    }
}

/// A call of the faults, or a look at them.
#[derive(Clone, Copy)]
enum Step {
    Arm,
    Fuse(Option<u64>),
    /// A call of the device, and how it ends.
    Make(Call, Ending),
    /// How many calls of each kind were made since the faults were armed.
    Made(u64, u64),
    /// Whether they are armed, whether there is a fuse, and how many calls failed.
    Tell(bool, bool, u64),
}

fn made(faults: &FaultPlan<Call>) -> (u64, u64) {
    (faults.made(Call::Put), faults.made(Call::Get))
}

fn tell(faults: &FaultPlan<Call>) -> (bool, bool, u64) {
    (faults.is_armed(), faults.is_fused(), faults.faults())
}

/// Takes a step, and returns whether it comes to what it says.
fn take(faults: &mut FaultPlan<Call>, step: Step) -> bool {
    match step {
        Step::Arm => {
            faults.arm();
            true
        }
        Step::Fuse(calls) => {
            faults.set_fuse(calls);
            true
        }
        Step::Make(kind, ending) => make(faults, kind) == ending,
        Step::Made(put, get) => made(faults) == (put, get),
        Step::Tell(armed, fused, failed) => tell(faults) == (armed, fused, failed),
    }
}

/// Takes steps, and returns how many come to what they say at first.
fn run(faults: &mut FaultPlan<Call>, steps: &[Step]) -> usize {
    for (i, step) in steps.iter().enumerate() {
        if !take(faults, *step) {
            return i;
        }
    }
    steps.len()
}

/// How many calls are planned, and how many steps come to what they say at first.
fn row(alloc: Global, plan: &[Planned<Call>], steps: &[Step]) -> (usize, usize) {
    match Vec::from_slice(alloc, plan) {
        Ok(plan) => {
            let mut faults = FaultPlan::new(plan);
            (faults.plan().len(), run(&mut faults, steps))
        }
        Err(_) => (0, 0),
    }
}

/// A plan of three calls, the third of which is never looked at.
static THREE: [Planned<Call>; 3] = [
    Planned {
        call: Call::Put,
        number: 2,
        after: true,
    },
    Planned {
        call: Call::Get,
        number: 1,
        after: false,
    },
    Planned {
        call: Call::Put,
        number: 2,
        after: false,
    },
];

/// Planned calls fail once armed.
static ARMED: [Step; 14] = [
    Step::Make(Call::Get, Ending::Done),
    Step::Made(0, 0),
    Step::Tell(false, false, 0),
    Step::Arm,
    Step::Arm,
    Step::Tell(true, false, 0),
    Step::Make(Call::Put, Ending::Done),
    Step::Make(Call::Get, Ending::Undone),
    Step::Make(Call::Put, Ending::DoneAndFailed),
    Step::Make(Call::Get, Ending::Done),
    Step::Make(Call::Put, Ending::Done),
    Step::Arm,
    Step::Made(3, 2),
    Step::Tell(true, false, 2),
];

/// A plan whose numbers rise for each kind, the kinds mixed.
static RISING: [Planned<Call>; 5] = [
    Planned {
        call: Call::Get,
        number: 1,
        after: false,
    },
    Planned {
        call: Call::Put,
        number: 2,
        after: true,
    },
    Planned {
        call: Call::Get,
        number: 2,
        after: false,
    },
    Planned {
        call: Call::Put,
        number: 5,
        after: false,
    },
    Planned {
        call: Call::Get,
        number: 9,
        after: true,
    },
];

/// The same plan turned around.
static FALLING: [Planned<Call>; 5] = [
    Planned {
        call: Call::Get,
        number: 9,
        after: true,
    },
    Planned {
        call: Call::Put,
        number: 5,
        after: false,
    },
    Planned {
        call: Call::Get,
        number: 2,
        after: false,
    },
    Planned {
        call: Call::Put,
        number: 2,
        after: true,
    },
    Planned {
        call: Call::Get,
        number: 1,
        after: false,
    },
];

/// The calls of both.
static MIXED: [Step; 24] = [
    Step::Arm,
    Step::Make(Call::Put, Ending::Done),
    Step::Make(Call::Get, Ending::Undone),
    Step::Make(Call::Put, Ending::DoneAndFailed),
    Step::Make(Call::Get, Ending::Undone),
    Step::Make(Call::Put, Ending::Done),
    Step::Make(Call::Get, Ending::Done),
    Step::Make(Call::Put, Ending::Done),
    Step::Make(Call::Get, Ending::Done),
    Step::Make(Call::Put, Ending::Undone),
    Step::Make(Call::Get, Ending::Done),
    Step::Make(Call::Put, Ending::Done),
    Step::Make(Call::Get, Ending::Done),
    Step::Make(Call::Put, Ending::Done),
    Step::Make(Call::Get, Ending::Done),
    Step::Make(Call::Put, Ending::Done),
    Step::Make(Call::Get, Ending::Done),
    Step::Make(Call::Put, Ending::Done),
    Step::Make(Call::Get, Ending::DoneAndFailed),
    Step::Make(Call::Put, Ending::Done),
    Step::Make(Call::Get, Ending::Done),
    Step::Make(Call::Put, Ending::Done),
    Step::Make(Call::Get, Ending::Done),
    Step::Tell(true, false, 5),
];

/// A fuse fails every call from a number on.
static FUSED: [Step; 9] = [
    Step::Tell(false, false, 0),
    Step::Fuse(Some(1)),
    Step::Tell(false, true, 0),
    Step::Make(Call::Put, Ending::Done),
    Step::Make(Call::Get, Ending::Undone),
    Step::Make(Call::Put, Ending::Undone),
    Step::Fuse(None),
    Step::Make(Call::Put, Ending::Done),
    Step::Tell(false, false, 2),
];

#[test]
fn planned_calls_fail_once_armed(rt: HostRuntime) {
    assert!(rt; row(rt.alloc(), &THREE, &ARMED) == (THREE.len(), ARMED.len()));
}

#[test]
fn planned_calls_fail_in_a_rising_plan(rt: HostRuntime) {
    assert!(rt; row(rt.alloc(), &RISING, &MIXED) == (RISING.len(), MIXED.len()));
}

#[test]
fn planned_calls_fail_in_a_falling_plan(rt: HostRuntime) {
    assert!(rt; row(rt.alloc(), &FALLING, &MIXED) == (FALLING.len(), MIXED.len()));
}

#[test]
fn a_fuse_fails_every_call_from_a_number_on(rt: HostRuntime) {
    assert!(rt; row(rt.alloc(), &[], &FUSED) == (0, FUSED.len()));
}

#[test]
fn a_call_that_failed_gives_no_value(rt: HostRuntime) {
    let given = (give(Ok(()), 7u32), give(Err(Failed), 7u32));
    assert!(rt; given == (Ok(7), Err(Trouble::Failed)));
}

#[test]
fn a_call_that_was_done_may_have_failed(rt: HostRuntime) {
    let ending = Ending::DoneAndFailed;
    assert!(rt; (ending.is_done(), ending.is_ok()) == (true, false));
}
