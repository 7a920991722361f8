//! Runs in which one call of a device fails: each call of a disk, of the store and of the metadata log that six
//! scripts make, one call a run, once not done and once done.
//!
//! What such a run writes, if it writes, is proved to be a run of the plain log. That it meets its fault and continues
//! to status 0 is tested here, and the executable model checks each trace.

ghost use Rattle.plain_log.specs.Orders.{AreListsFor, IsConfig};

use crate::tests::{made, sink_of, source_of, words_of};
use crate::yard_tests::read as read_script;
use plain_executor::is_complete_run;
use plain_log::Config;
use script_lang::PartScript;
use std::alloc::{AllocError, Global};
use tier_base::{MemorySink, MemorySource};
use trace_text::{PartJournal, read};

/// Whether the only journal is the part's, and a run of the plain log that answers all of its commands.
fn is_only_run(alloc: Global, config: &Config, part: &PartScript, journals: &[PartJournal]) -> bool
    requires config { IsConfig config.now }
    requires fit { AreListsFor config.now part.now.lists }
{
    let [only] = journals else {
        return false;
    };
    let run = is_complete_run(alloc, config, part.lists.as_slice(), only.journal.items());
    only.partition.0 == part.partition.0 && run == Ok(true)
}

/// Whether a trace has the part's journal alone, and it is such a run.
fn is_part_run(alloc: Global, config: Config, part: PartScript, trace: &[u8]) -> bool
    requires config { IsConfig config }
    requires fit { AreListsFor config part.lists }
{
    match read(alloc, trace) {
        Ok(journals) => is_only_run(alloc, &config, &part, journals.as_slice()),
        Err(_) => false,
    }
}

/// Whether a trace is a whole run of the plain log of a script of one partition.
fn is_whole(alloc: Global, script: &str, trace: &[u8]) -> bool {
    let Some(script) = read_script(alloc, script) else {
        return false;
    };
    let mut parts = script.parts;
    match parts.pop() {
        Some(part) => is_part_run(alloc, script.config, part, trace),
        None => false,
    }
}

/// The number of a simulation's status.
fn simulated(rt: HostRuntime, script: &mut MemorySource, out: &mut MemorySink) -> Option<u8> {
    match words_of(rt.alloc(), &["sim"]) {
        Some(words) => made(rt, words.as_slice(), script, out).map(|status| status.number()),
        None => None,
    }
}

/// What a simulation writes, where its status is 0.
fn written(rt: HostRuntime, script: &mut MemorySource, out: &mut MemorySink) -> Option<Vec<u8>> {
    if simulated(rt, script, out) != Some(0) {
        return None;
    }
    out.written().to_vec(rt.alloc()).ok()
}

/// The trace of a script, where the status is 0.
fn traced(rt: HostRuntime, script: &str) -> Option<Vec<u8>> {
    let (source, sink) = (
        source_of(rt.alloc(), script.as_bytes(), &[]),
        sink_of(rt.alloc(), (10_000, 4096, &[])),
    );
    match (source, sink) {
        (Some(mut source), Some(mut sink)) => written(rt, &mut source, &mut sink),
        _ => None,
    }
}

/// A script with the line of a fault after it.
fn with_fault(
    alloc: Global,
    script: &str,
    call: &str,
    number: u32,
    side: &str,
) -> Result<String, AllocError> {
    format!(in alloc; "{script}fault 0 {call} {number} {side}\n")
}

/// What becomes of a run.
#[derive(Clone, Copy, PartialEq, Eq)]
enum Ran {
    /// It gives the trace of the run without a fault.
    Same,
    /// It gives another trace, which is a whole run of the plain log.
    Other,
    /// It gives none, or one that is no such run.
    Wrong,
}

/// What becomes of a script with a fault, where it gives this trace without.
fn judged(rt: HostRuntime, script: &str, plain: &[u8]) -> Ran {
    match traced(rt, script) {
        Some(trace) if trace.as_slice() == plain => Ran::Same,
        Some(trace) if is_whole(rt.alloc(), script, trace.as_slice()) => Ran::Other,
        _ => Ran::Wrong,
    }
}

/// The same, where the call of this number fails.
fn judged_with(
    rt: HostRuntime,
    (script, plain): (&str, &[u8]),
    call: &str,
    number: u32,
    side: &str,
) -> Ran {
    match with_fault(rt.alloc(), script, call, number, side) {
        Ok(script) => judged(rt, script.as_str(), plain),
        Err(AllocError) => Ran::Wrong,
    }
}

/// No run here makes so many calls of a kind.
const MOST: u32 = 40;

/// Lets the calls of a kind fail, one a run, up to the first number that no call has, and counts them. Nothing is
/// reported where a run goes wrong.
fn count_side(rt: HostRuntime, run: (&str, &[u8]), call: &str, side: &str) -> Option<u32> {
    for before in 0..MOST {
        match judged_with(rt, run, call, before + 1, side) {
            Ran::Same => return Some(before),
            Ran::Other => {}
            Ran::Wrong => return None,
        }
    }
    None
}

/// How many calls of a kind a run makes, where as many fail when they aren't done as when they are.
fn count(rt: HostRuntime, run: (&str, &[u8]), call: &str) -> Option<u32> {
    let undone = count_side(rt, run, call, "before");
    let done = count_side(rt, run, call, "after");
    if undone == done { undone } else { None }
}

/// A script, how many kinds of calls its brokers' devices have, and how many calls its run makes, which were counted by
/// hand from the language's page.
struct Case {
    name: &'static str,
    script: &'static str,
    kinds: usize,
    calls: u32,
}

/// The kinds of calls, those of a second broker's disk last.
static KINDS: [&str; 19] = [
    "disk 0 append",
    "disk 0 sync",
    "disk 0 read",
    "disk 0 cut",
    "disk 0 replace",
    "disk 0 remove",
    "disk 0 list",
    "store put",
    "store get",
    "store delete",
    "meta append",
    "meta read",
    "disk 1 append",
    "disk 1 sync",
    "disk 1 read",
    "disk 1 cut",
    "disk 1 replace",
    "disk 1 remove",
    "disk 1 list",
];

/// The numbers of calls are in the order of the kinds, without those that have none.
static CASES: [Case; 6] = [
    Case {
        name: "a copy with its flush and its trim, and what a broker does that a fault has stopped",
        script: "\
            segment_bytes 100\n\
            local_retention_bytes 0\n\
            0 0 0 append 1000,-,:a\n\
            0 0 0 append 1000,-,:b\n\
            0 0 0 flush\n\
            0 0 0 ack\n\
            0 0 0 copy\n\
            0 0 0 trim\n\
            0 0 0 up\n\
            0 0 0 learn\n\
            0 0 0 elect\n\
            0 0 0 learn\n\
            0 0 0 ack\n\
            0 0 0 copy\n\
            0 0 0 trim\n",
        kinds: 12,
        calls: 2 + 3 + 1 + 3 + 1 + 4 + 2 + 5,
    },
    Case {
        name: "fetches of a packed segment after its trim, and its expiry",
        script: "\
            segment_bytes 100\n\
            local_retention_bytes 0\n\
            0 0 - pack 1\n\
            0 0 0 append 1000,-,:a\n\
            0 0 0 append 1000,-,:b\n\
            0 0 0 flush\n\
            0 0 0 ack\n\
            0 0 0 copy\n\
            0 0 0 trim\n\
            0 0 0 fetch 0 1000\n\
            0 0 0 fetch 0 1000\n\
            0 0 0 fetch 1 1000\n\
            0 0 0 raise 1\n\
            0 0 0 expire\n",
        kinds: 12,
        calls: 2 + 2 + 2 + 2 + 1 + 1 + 3 + 1 + 4 + 6,
    },
    Case {
        name: "a follower is elected, and the leader that stopped comes up, joins and follows",
        script: "\
            brokers 2\n\
            0 0 0 append 1000,-,:a\n\
            1 0 1 follow 1000\n\
            1 0 1 flush\n\
            1 0 1 ack\n\
            0 0 0 flush\n\
            0 0 0 ack\n\
            0 0 0 append 1000,-,:z\n\
            0 0 0 stop\n\
            1 0 1 elect\n\
            1 0 1 learn\n\
            1 0 1 append 1000,-,:b\n\
            0 0 0 up\n\
            0 0 0 learn\n\
            0 0 0 join\n\
            0 0 0 follow 1000\n\
            0 0 0 flush\n\
            0 0 0 ack\n\
            1 0 1 flush\n\
            1 0 1 ack\n\
            1 0 1 fetch 1 1000\n",
        kinds: 19,
        calls: 3 + 4 + 3 + 2 + 5 + 1 + 2 + 3 + 2 + 3,
    },
    Case {
        name: "searches by timestamp in the remote tier and in the local log",
        script: "\
            segment_bytes 100\n\
            local_retention_bytes 0\n\
            0 0 0 append 1000,-,:a\n\
            0 0 0 append 3000,-,:b\n\
            0 0 0 flush\n\
            0 0 0 ack\n\
            0 0 0 copy\n\
            0 0 0 trim\n\
            0 0 0 offset at 500\n\
            0 0 0 offset at 1001\n",
        kinds: 12,
        calls: 2 + 2 + 2 + 2 + 1 + 4 + 3 + 2 + 7,
    },
    Case {
        name: "an expiry by the next leader between a copy's turns, after which the copy deletes its objects",
        script: "\
            brokers 2\n\
            segment_bytes 200\n\
            local_retention_bytes 0\n\
            0 0 0 append 1000,-,:a\n\
            0 0 0 append 1000,-,:b\n\
            0 0 0 append 1000,-,:c\n\
            1 0 1 follow 1000\n\
            1 0 1 follow 1000\n\
            1 0 1 flush\n\
            1 0 1 ack\n\
            0 0 0 flush\n\
            0 0 0 ack\n\
            later 2 0 0 copy\n\
            turn 2 4\n\
            1 0 1 elect\n\
            1 0 1 learn\n\
            1 0 1 raise 2\n\
            1 0 1 expire\n",
        kinds: 19,
        calls: 3 + 2 + 3 + 1 + 4 + 8 + 4 + 3 + 2 + 3 + 2,
    },
    Case {
        name: "a join that rebuilds with the leader epochs of a remote segment",
        script: "\
            brokers 2\n\
            segment_bytes 200\n\
            local_retention_bytes 0\n\
            1 0 1 shrink\n\
            0 0 0 append 1000,-,:a\n\
            0 0 0 append 1000,-,:b\n\
            0 0 0 append 1000,-,:c\n\
            0 0 0 flush\n\
            0 0 0 ack\n\
            0 0 0 copy\n\
            0 0 0 trim\n\
            1 0 1 join\n\
            1 0 1 follow 1000\n\
            1 0 1 flush\n\
            1 0 1 ack\n\
            1 0 1 expand\n",
        kinds: 19,
        calls: 3 + 2 + 2 + 2 + 1 + 4 + 1 + 2 + 4 + 1 + 2 + 1 + 3 + 1,
    },
];

/// How many calls of all kinds the run of a case makes, or the first kind of which a run goes wrong.
fn count_all(rt: HostRuntime, case: &Case, plain: &[u8]) -> Result<u32, &'static str> {
    let mut calls = 0u32;
    for kind in KINDS.iter().take(case.kinds) {
        match count(rt, (case.script, plain), kind) {
            Some(more) => calls = calls.wrapping_add(more),
            None => return Err(*kind),
        }
    }
    Ok(calls)
}

/// What a case comes to: the number of calls, or what goes wrong.
fn counted(rt: HostRuntime, case: &Case) -> Result<u32, &'static str> {
    match traced(rt, case.script) {
        Some(plain) if is_whole(rt.alloc(), case.script, plain.as_slice()) => {
            count_all(rt, case, plain.as_slice())
        }
        _ => Err("the run without a fault"),
    }
}

/// The first case that comes to something else, with what goes wrong, or with the number of calls.
fn first_wrong(rt: HostRuntime) -> Option<(&'static str, Result<u32, &'static str>)> {
    for case in &CASES {
        let told = counted(rt, case);
        if told != Ok(case.calls) {
            return Some((case.name, told));
        }
    }
    None
}

#[test]
fn each_call_of_a_device_may_fail_alone(rt: HostRuntime) {
    assert!(rt; first_wrong(rt) == None);
}
