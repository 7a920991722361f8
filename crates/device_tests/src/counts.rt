//! The counts of an environment under test. Worked by hand.

use device_yard::{Came, YardCounts};
use std::alloc::Global;
use tier_base::{Blob, Trouble};

/// A device that is provided and comes back so.
fn goes(counts: &mut YardCounts, came: Came) -> bool {
    match counts.hand(Ok(1u8)) {
        Ok(_) => {
            counts.take_back(came);
            true
        }
        Err(_) => false,
    }
}

/// How many faults an environment has after these devices came back, and one call of each kind failed.
fn faults_after(alloc: Global, devices: &[Came]) -> Option<(u64, usize)> {
    let mut counts = YardCounts::new(alloc);
    for came in devices {
        if !goes(&mut counts, *came) {
            return None;
        }
    }
    let _ = counts.hand::<u8>(Err(Trouble::Failed));
    let _ = counts.hand::<u8>(Err(Trouble::NoMemory));
    let _ = counts.name(Err(Trouble::Failed));
    Some((counts.faults(), counts.returned().len()))
}

const fn came(faults: u64, armed: bool) -> Came {
    Came { faults, armed }
}

#[test]
fn an_unarmed_device_with_faults_is_the_yards(rt: HostRuntime) {
    let devices = [came(0, false), came(3, true), came(3, false), came(0, true)];
    assert_eq!(rt; faults_after(rt.alloc(), &devices), Some((3, 4)));
}

/// Whether a name is answered as it was found.
fn is_answered(alloc: Global, name: &[u8]) -> bool {
    let mut counts = YardCounts::new(alloc);
    let Ok(found) = Blob::from_slice(alloc, name) else {
        return false;
    };
    match counts.name(Ok(Some(found))) {
        Ok(Some(answer)) => answer.as_slice() == name,
        _ => false,
    }
}

#[test]
fn a_name_is_returned_as_it_was_found(rt: HostRuntime) {
    assert!(rt; is_answered(rt.alloc(), b"p0"));
}
