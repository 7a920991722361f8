//! Runs over what a run before left, whole or cut off by a power cut.

use crate::kept::{Kept, run};
use cold_start::ColdRefusal;
use disk_model::Disk;
use std::alloc::Global;
use tier_base::FileName;

/// Whether these words are somewhere in a text.
fn has(text: &[u8], words: &[u8]) -> bool {
    for at in 0..text.len() {
        if text[at..].starts_with(words) {
            return true;
        }
    }
    false
}

/// Whether a text has each of these lines.
fn has_all(text: &[u8], lines: &[&[u8]]) -> bool {
    for line in lines {
        if !has(text, line) {
            return false;
        }
    }
    true
}

/// Three batches that are appended, flushed and acknowledged.
fn committed() -> &'static [u8] {
    b"\
    segment_bytes 200\n\
    0 0 0 append 1000,-,:a\n\
    0 0 0 append 1000,-,:b\n\
    0 0 0 append 1000,-,:c\n\
    0 0 0 flush\n\
    0 0 0 ack\n"
}

/// The leader starts again, leads another epoch, serves what is there and copies it.
fn again() -> &'static [u8] {
    b"\
    segment_bytes 200\n\
    0 0 0 elect\n\
    0 0 0 up\n\
    0 0 0 learn\n\
    0 0 0 elect\n\
    0 0 0 learn\n\
    0 0 0 fetch 0 1000\n\
    0 0 0 copy\n"
}

/// The registry's file.
fn kept_registry(kept: &mut Kept) -> Option<bytes::Bytes> {
    kept.reg.read(FileName::Registry, 0).ok()?
}

#[test]
fn a_run_continues_where_another_ended(rt: HostRuntime) {
    let alloc: Global = rt.alloc();
    let kept = Kept::new(alloc);
    let (mut kept, ran) = run(alloc, committed(), kept, None).expect(&rt, "a script");
    assert!(rt; ran.refusal.is_none(), "the first run");
    let file = kept_registry(&mut kept).expect(&rt, "a registry");
    let wanted = [
        0x54, 0x4c, 0x52, 0x31, // TLR1
        0, 1, // brokers
        0, 0, 0, 0, // epoch
        0, 0, // leader
        0, 0, 0, 0, 0, 0, 0, 3, // high watermark
        0, 0, 0, 0, 0, 0, 0, 0, // log start offset
        1, // in sync
        0, 0, 0, 0, 0, 0, 0, 3, // acknowledged
    ];
    assert!(rt; file.as_slice() == wanted.as_slice(), "the registry's file");
    let (kept, ran) = run(alloc, again(), kept, None).expect(&rt, "a script");
    assert!(rt; ran.refusal.is_none(), "the second run");
    let lines: [&[u8]; 7] = [
        b"0 0 0 = DownBroker\n",
        b"0 0 1 = Up 3\n",
        b"0 0 2 = NeedsElection 0\n",
        b"0 0 3 = Ok 1\n",
        b"0 0 4 = Leads 1\n",
        b"0 0 5 = Run local 0 138 Piece ",
        b"0 0 6 = Copied 00000000-0000-0002-0000-000000000000 0 1\n",
    ];
    assert!(rt;
        has_all(ran.text.as_slice(), lines.as_slice()),
        "the answers"
    );
}

#[test]
fn another_count_of_brokers_is_refused(rt: HostRuntime) {
    let alloc: Global = rt.alloc();
    let kept = Kept::new(alloc);
    let (kept, _) = run(alloc, committed(), kept, None).expect(&rt, "a script");
    let (_, ran) = run(alloc, b"brokers 2\n", kept, None).expect(&rt, "a script");
    assert!(rt;
        ran.refusal == Some(ColdRefusal::Brokers { kept: 1, asked: 2 }),
        "told"
    );
}

/// Copies and drops a segment, and fetches from both tiers.
fn tiered() -> &'static [u8] {
    b"\
    segment_bytes 200\n\
    local_retention_bytes 0\n\
    0 0 0 append 1000,-,:a\n\
    0 0 0 append 1000,-,:b\n\
    0 0 0 append 1000,-,:c\n\
    0 0 0 flush\n\
    0 0 0 ack\n\
    0 0 0 trim\n\
    0 0 0 copy\n\
    0 0 0 trim\n\
    0 0 0 fetch 0 1000\n\
    0 0 0 fetch 1 1000\n"
}

/// The leader starts again and serves what is there.
fn served() -> &'static [u8] {
    b"\
    segment_bytes 200\n\
    0 0 0 up\n\
    0 0 0 learn\n\
    0 0 0 elect\n\
    0 0 0 learn\n\
    0 0 0 fetch 0 1000\n"
}

/// Whether the registry's file says that three batches are committed.
fn has_committed(kept: &mut Kept) -> bool {
    match kept_registry(kept) {
        Some(file) => file.as_slice().get(12..20) == Some([0, 0, 0, 0, 0, 0, 0, 3].as_slice()),
        None => false,
    }
}

#[test]
fn a_power_cut_loses_nothing_committed(rt: HostRuntime) {
    let alloc: Global = rt.alloc();
    for calls in 0..61 {
        let kept = Kept::new(alloc);
        let (mut kept, _) = run(alloc, tiered(), kept, Some(calls)).expect(&rt, "a script");
        kept.crash();
        let committed = has_committed(&mut kept);
        let (_, ran) = run(alloc, served(), kept, None).expect(&rt, "a script");
        assert!(rt; ran.refusal.is_none(), "the run after {calls} calls");
        if committed {
            assert!(rt;
                has(ran.text.as_slice(), b" 138 "),
                "what was committed after {calls} calls"
            );
        }
    }
}
