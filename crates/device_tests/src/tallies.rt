//! A tally under test: what it counts and what it passes over.

use device_tally::Tally;
use tier_base::{CallKind, Failed, Trouble};

/// The calls of a device with one kind.
#[derive(Clone, Copy)]
struct Call;

impl CallKind for Call {
    ghost code = { λ call. 0 };

    fn to_code(self) -> usize {
        0
    }
}

/// How many faults there are after calls that ended so.
fn faults_after(outcomes: &[Result<(), Trouble>]) -> u64 {
    let mut tally = Tally::new();
    tally.arm();
    for outcome in outcomes {
        let _ = tally.note_any(Call, *outcome);
    }
    let _ = tally.note(Call, Ok(()));
    let _ = tally.note(Call, Err(Failed));
    tally.faults()
}

#[test]
fn failures_alone_are_counted(rt: HostRuntime) {
    let outcomes = [
        Ok(()),
        Err(Trouble::Failed),
        Err(Trouble::NoMemory),
        Err(Trouble::Failed),
    ];
    assert_eq!(rt; faults_after(&outcomes), 3);
    assert!(rt; !Tally::<Call>::new().is_armed());
}
