//! Audits and sweeps of what a run leaves in a folder, whose files are then put there, taken away and changed.

use crate::tests::{Wanted, called, well};
use std::fs;

/// A leader stops while it copies a segment, with three of the four objects put; the other broker is elected, and
/// copies the segment under an id of its own.
static SCRIPT: &str = "\
    brokers 2\n\
    segment_bytes 200\n\
    0 0 0 append 1000,-,:a\n\
    0 0 0 append 1000,-,:b\n\
    0 0 0 append 1000,-,:c\n\
    1 0 1 follow 1000\n\
    1 0 1 follow 1000\n\
    1 0 1 flush\n\
    1 0 1 ack\n\
    0 0 0 flush\n\
    0 0 0 ack\n\
    later 2 0 0 copy\n\
    turn 2 6\n\
    0 0 0 stop\n\
    1 0 1 elect\n\
    1 0 1 learn\n\
    1 0 1 copy\n";

/// What is done in the folder.
#[derive(Clone, Copy)]
enum Step {
    /// A call of the program with this word and the folder: what it reports, writes, and its number.
    Call(&'static str, &'static str, &'static str, u8),
    /// A file with these bytes is put there.
    Put(&'static str, &'static str),
    /// A file is taken away.
    Remove(&'static str),
}

static STEPS: [Step; 12] = [
    Step::Call("run", "", "0 2 0 = LostLead\n", 0),
    Step::Call("audit", "", "0 sound 2 7\n", 0),
    Step::Call("sweep", "", "0 swept 3\n", 0),
    Step::Call("audit", "", "0 sound 2 4\n", 0),
    Step::Put(
        "broker_rounds/p0/store/00000000-0000-0001-0000-000000000001.log",
        "",
    ),
    Step::Call(
        "audit",
        "tiered: partition 0 unsound\n",
        "0 unsound NoEntry 0/00000000-0000-0001-0000-000000000001.log\n",
        10,
    ),
    Step::Call("sweep", "", "0 swept 1\n", 0),
    Step::Remove("broker_rounds/p0/store/00000001-0000-0001-0000-000000000000.index"),
    Step::Call(
        "audit",
        "tiered: partition 0 unsound\n",
        "0 unsound Missing 0/00000001-0000-0001-0000-000000000000.index\n",
        10,
    ),
    Step::Put(
        "broker_rounds/p0/store/00000001-0000-0001-0000-000000000000.log",
        "x",
    ),
    Step::Call(
        "audit",
        "tiered: partition 0 unsound\n",
        "0 unsound Wrong 0/00000001-0000-0001-0000-000000000000.log 0\n",
        10,
    ),
    Step::Call("sweep", "", "0 swept 0\n", 0),
];

/// Whether a step comes to what it should.
fn is_done(rt: HostRuntime, step: Step) -> bool {
    match step {
        Step::Call(word, told, written, number) => {
            let wanted = Wanted::Shown(told, written.as_bytes());
            let script = (SCRIPT.as_bytes(), [].as_slice());
            called(
                rt,
                &[word, "broker_rounds"],
                script,
                (10_000, 100, &[]),
                wanted,
            ) == well(number)
        }
        Step::Put(path, bytes) => fs::write(&rt, path, bytes.as_bytes()).is_ok(),
        Step::Remove(path) => fs::remove_file(&rt, path).is_ok(),
    }
}

/// The number of the first step that comes to something else.
fn first_wrong_step(rt: HostRuntime) -> Option<usize> {
    let _ = fs::remove_dir_all(&rt, "broker_rounds");
    for (i, step) in STEPS.iter().enumerate() {
        if !is_done(rt, *step) {
            return Some(i);
        }
    }
    None
}

#[test]
fn what_a_run_leaves_is_audited_and_swept(rt: HostRuntime) {
    let wrong = first_wrong_step(rt);
    let _ = fs::remove_dir_all(&rt, "broker_rounds");
    assert!(rt; wrong == None);
}
