//! Scripts of several brokers, actors and partitions, and of disks that fail, with their traces.
//!
//! The batches' bytes come from a writer of record batches that was made apart from this repository.

use crate::tests::{Wanted, called, first_wrong, well};
use std::alloc::{AllocError, Global};

/// Scripts and the traces that they give.
static SEVERAL: &str = "\
=== a leader stops, is elected again, and its follower is cut to where their logs meet
brokers 2
0 0 0 append 1000,-,:a
0 0 0 append 1000,-,:b
0 0 0 flush
0 0 0 append 1000,-,:c
1 0 1 follow 1000
0 0 0 stop
0 0 0 up
0 0 0 learn
0 0 0 elect
0 0 0 learn
0 0 0 append 1000,-,:d
1 0 1 learn
1 0 1 join
1 0 1 follow 1000
---
0 0 0 = Ok 0 0 0
0 0 1 = Ok 1 1 0
0 0 2 = Ok 2
0 0 3 = Ok 2 2 0
0 1 0 begin
0 1 0 = Copied 3
0 0 4 = Ok
0 0 5 = Up 2
0 0 6 = NeedsElection 0
0 0 7 = Ok 1
0 0 8 = Leads 1
0 0 9 = Ok 2 2 1
0 1 1 = Follows 1
0 1 2 = Cut 2
0 1 3 begin
0 1 3 = Copied 3
=== a broker stops and comes up
0 0 0 stop
0 0 0 stop
0 0 0 fetch 0 1
0 0 0 up
0 0 0 up
0 0 0 learn
0 0 0 elect
0 0 0 learn
0 0 0 learn
0 0 0 roll
---
0 0 0 = Ok
0 0 1 = Down
0 0 2 = Down
0 0 3 = Up 0
0 0 4 = IsUp
0 0 5 = NeedsElection 0
0 0 6 = Ok 1
0 0 7 = Leads 1
0 0 8 = Known
0 0 9 = EmptySegment
=== replicas in sync, an election, and a leader that doesn't know of it
brokers 2
1 0 1 expand
1 0 1 shrink
1 0 1 shrink
0 0 0 shrink
0 0 0 append 1000,-,:a
0 0 0 flush
0 0 0 ack
1 0 1 follow 1
1 0 1 expand
1 0 1 flush
1 0 1 ack
1 0 1 expand
1 0 1 elect
0 0 0 append 1000,-,:z
0 0 0 ack
0 0 0 learn
0 0 0 append 1000,-,:y
---
0 1 0 = Ok
0 1 1 = Ok
0 1 2 = NotInSync
0 0 0 = IsLeader
0 0 1 = Ok 0 0 0
0 0 2 = Ok 1
0 0 3 = Ok 1
0 1 3 begin
0 1 3 = Copied 1
0 1 4 = Behind 0 1
0 1 5 = Ok 1
0 1 6 = Ok 1
0 1 7 = Ok
0 1 8 = Ok 1
0 0 4 = Ok 1 1 0
0 0 5 = StaleEpoch 1
0 0 6 = Follows 1
0 0 7 = NotLeader
=== a follower stops between two turns
brokers 2
0 0 0 append 1000,-,:a
later 2 0 1 follow 1
turn 2 1
1 0 1 stop
1 0 1 elect
1 0 1 up
---
0 0 0 = Ok 0 0 0
0 2 0 begin
0 1 0 = Ok
0 1 1 = DownBroker
0 1 2 = Up 0
0 2 0 = Stopped
=== a run ends where its leader epoch does
0 0 0 append 1000,-,:a
0 0 0 flush
0 0 0 ack
0 0 0 elect
0 0 0 learn
0 0 0 append 1000,-,:b
0 0 0 flush
0 0 0 ack
0 0 0 fetch 0 1000
0 0 0 fetch 1 1000
---
0 0 0 = Ok 0 0 0
0 0 1 = Ok 1
0 0 2 = Ok 1
0 0 3 = Ok 1
0 0 4 = Leads 1
0 0 5 = Ok 1 1 1
0 0 6 = Ok 2
0 0 7 = Ok 2
0 0 8 = Run local 0 69 Piece \
0000000000000000000000390000000002ebf1884b00000000000000000000000003e800000000000003e8ffffffffffffffffffffffffffff0000\
00010e00000001026100
0 0 9 = Run local 0 69 Mark \
0000000000000001000000390000000102df1620d200000000000000000000000003e800000000000003e8ffffffffffffffffffffffffffff0000\
00010e00000001026200
=== the log start offset is raised by its leader, up to the high watermark
0 0 0 append 1000,-,:a 1000,-,:b 1000,-,:c
0 0 0 append 1000,-,:d
0 0 0 flush
0 0 0 ack
0 0 0 raise 1
0 0 0 fetch 1 85
0 0 0 fetch 0 1000
0 0 0 raise 1
0 0 0 raise 5
0 0 0 stop
0 0 0 raise 2
---
0 0 0 = Ok 0 2 0
0 0 1 = Ok 3 3 0
0 0 2 = Ok 4
0 0 3 = Ok 4
0 0 4 = Ok 1
0 0 5 = Run local 0 85 Limit \
00000000000000000000004900000000024b7d1a5100000000000200000000000003e800000000000003e8ffffffffffffffffffffffffffff0000\
00030e000000010261000e000002010262000e00000401026300
0 0 6 = OutOfRange 1 4
0 0 7 = NotAbove 1
0 0 8 = AboveMark 4
0 0 9 = Ok
0 0 10 = Down
=== an unclean election commits what its broker has stable, and the old leader goes on by itself
brokers 2
0 0 0 append 1000,-,:a
0 0 0 append 1000,-,:b
1 0 1 follow 69
1 0 1 flush
1 0 1 shrink
0 0 0 flush
0 0 0 ack
1 0 1 elect
1 0 1 unclean
1 0 1 learn
1 0 1 append 1000,-,:g
1 0 1 flush
1 0 1 ack
1 0 1 fetch 1 1000
0 0 0 fetch 1 1000
0 0 0 learn
0 0 0 follow 1
0 0 0 join
0 0 0 follow 1000
0 0 0 follow 1000
---
0 0 0 = Ok 0 0 0
0 0 1 = Ok 1 1 0
0 1 0 begin
0 1 0 = Copied 1
0 1 1 = Ok 1
0 1 2 = Ok
0 0 2 = Ok 2
0 0 3 = Ok 2
0 1 3 = NotInSync
0 1 4 = Ok 1
0 1 5 = Leads 1
0 1 6 = Ok 1 1 1
0 1 7 = Ok 2
0 1 8 = Ok 2
0 1 9 = Run local 0 69 Mark \
0000000000000001000000390000000102823ed97900000000000000000000000003e800000000000003e8ffffffffffffffffffffffffffff0000\
00010e00000001026700
0 0 4 = Run local 0 69 Mark \
0000000000000001000000390000000002df1620d200000000000000000000000003e800000000000003e8ffffffffffffffffffffffffffff0000\
00010e00000001026200
0 0 5 = Follows 1
0 0 6 = NotJoined
0 0 7 = Cut 1
0 0 8 begin
0 0 8 = Copied 2
0 0 9 = Level
=== each turn of a follow tests anew
brokers 3
0 0 0 append 1000,-,:a
0 0 0 append 1000,-,:b
later 3 0 1 follow 1
turn 3 1
1 0 1 follow 1
later 4 0 2 follow 1
turn 4 1
turn 3 1
1 0 1 flush
1 0 1 elect
turn 4 1
2 0 2 follow 1
1 0 2 join
1 0 2 learn
1 0 2 join
0 0 - clock 7
---
0 0 0 = Ok 0 0 0
0 0 1 = Ok 1 1 0
0 3 0 begin
0 1 0 begin
0 1 0 = Copied 1
0 4 0 begin
0 3 0 = Passed 1
0 1 1 = Ok 1
0 1 2 = Ok 1
0 4 0 = StaleEpoch 1
0 2 0 = StaleEpoch 1
0 1 3 = StaleEpoch 1
0 1 4 = Follows 1
0 1 5 = NoLeader
0 0 2 = Ok
=== two partitions have brokers, clocks and offsets of their own
brokers 2
partitions 2
0 0 0 append 1000,-,:a
1 1 1 append 1000,-,:b
1 1 0 append 1000,-,:c
2 1 - clock 5
---
0 0 0 = Ok 0 0 0
1 1 0 = NotLeader
1 1 1 = Ok 0 0 0
1 2 0 = Ok
=== a run ends where its log segment does
segment_bytes 200
0 0 0 append 1000,-,:a
0 0 0 append 1000,-,:b
0 0 0 append 1000,-,:c
0 0 0 flush
0 0 0 ack
0 0 0 fetch 0 1000
0 0 0 fetch 0 1
0 0 0 fetch 1 1
0 0 0 fetch 2 1
0 0 0 fetch 3 1000
0 0 0 fetch 4 1000
---
0 0 0 = Ok 0 0 0
0 0 1 = Ok 1 1 0
0 0 2 = Ok 2 2 0
0 0 3 = Ok 3
0 0 4 = Ok 3
0 0 5 = Run local 0 138 Piece \
0000000000000000000000390000000002ebf1884b00000000000000000000000003e800000000000003e8ffffffffffffffffffffffffffff0000\
00010e000000010261000000000000000001000000390000000002df1620d200000000000000000000000003e800000000000003e8ffffffffffff\
ffffffffffffffff000000010e00000001026200
0 0 6 = Run local 0 69 Limit \
0000000000000000000000390000000002ebf1884b00000000000000000000000003e800000000000003e8ffffffffffffffffffffffffffff0000\
00010e00000001026100
0 0 7 = Run local 0 69 Piece \
0000000000000001000000390000000002df1620d200000000000000000000000003e800000000000003e8ffffffffffffffffffffffffffff0000\
00010e00000001026200
0 0 8 = Run local 2 69 Mark \
0000000000000002000000390000000002ccb4b8a500000000000000000000000003e800000000000003e8ffffffffffffffffffffffffffff0000\
00010e00000001026300
0 0 9 = Empty
0 0 10 = OutOfRange 0 3
=== a batch larger than a segment stands alone in one
segment_bytes 100
0 0 0 append 1000,-,:aaaaaaaaaaaaaaaaaaaaaaaaaaaaaaaa
0 0 0 append 1000,-,:bbbbbbbbbbbbbbbbbbbbbbbbbbbbbbbbb
0 0 0 append 1000,-,:c
0 0 0 flush
0 0 0 ack
0 0 0 fetch 0 1000
0 0 0 fetch 1 1000
0 0 0 fetch 2 1000
---
0 0 0 = Ok 0 0 0
0 0 1 = Ok 1 1 0
0 0 2 = Ok 2 2 0
0 0 3 = Ok 3
0 0 4 = Ok 3
0 0 5 = Run local 0 100 Piece \
000000000000000000000058000000000214669c9500000000000000000000000003e800000000000003e8ffffffffffffffffffffffffffff0000\
00014c0000000140616161616161616161616161616161616161616161616161616161616161616100
0 0 6 = Run local 1 101 Piece \
0000000000000001000000590000000002c436542f00000000000000000000000003e800000000000003e8ffffffffffffffffffffffffffff0000\
00014e000000014262626262626262626262626262626262626262626262626262626262626262626200
0 0 7 = Run local 2 69 Mark \
0000000000000002000000390000000002ccb4b8a500000000000000000000000003e800000000000003e8ffffffffffffffffffffffffffff0000\
00010e00000001026300
=== a log comes back in its segments after a stop
index_interval_bytes 0
0 0 0 roll
0 0 0 append 1000,-,:a
0 0 0 roll
0 0 0 append 1000,-,:b
0 0 0 flush
0 0 0 ack
0 0 0 append 1000,-,:c
0 0 0 stop
0 0 0 roll
0 0 0 up
0 0 0 learn
0 0 0 elect
0 0 0 learn
0 0 0 ack
0 0 0 fetch 0 1000
0 0 0 fetch 1 1000
---
0 0 0 = EmptySegment
0 0 1 = Ok 0 0 0
0 0 2 = Ok 1
0 0 3 = Ok 1 1 0
0 0 4 = Ok 2
0 0 5 = Ok 2
0 0 6 = Ok 2 2 0
0 0 7 = Ok
0 0 8 = Down
0 0 9 = Up 2
0 0 10 = NeedsElection 0
0 0 11 = Ok 1
0 0 12 = Leads 1
0 0 13 = Ok 2
0 0 14 = Run local 0 69 Piece \
0000000000000000000000390000000002ebf1884b00000000000000000000000003e800000000000003e8ffffffffffffffffffffffffffff0000\
00010e00000001026100
0 0 15 = Run local 1 69 Mark \
0000000000000001000000390000000002df1620d200000000000000000000000003e800000000000003e8ffffffffffffffffffffffffffff0000\
00010e00000001026200
";

/// Scripts whose disks fail, and the traces that they give.
static FAULTS: &str = "\
=== a failed append that was done is gone
fault 0 disk 0 append 1 after
0 0 0 append 1000,-,:a
0 0 0 up
0 0 0 learn
0 0 0 elect
0 0 0 learn
0 0 0 append 1000,-,:b
0 0 0 flush
---
0 0 0 = DiskFault
0 0 1 = Up 0
0 0 2 = NeedsElection 0
0 0 3 = Ok 1
0 0 4 = Leads 1
0 0 5 = Ok 0 0 1
0 0 6 = Ok 1
=== a failed flush that was done is there
fault 0 disk 0 replace 1 after
0 0 0 append 1000,-,:a
0 0 0 flush
0 0 0 up
---
0 0 0 = Ok 0 0 0
0 0 1 = DiskFault
0 0 2 = Up 1
=== a failed flush that wasn't done
fault 0 disk 0 replace 1 before
0 0 0 append 1000,-,:a
0 0 0 flush
0 0 0 up
---
0 0 0 = Ok 0 0 0
0 0 1 = DiskFault
0 0 2 = Up 0
=== a flush whose sync fails stops the broker
fault 0 disk 0 sync 1 before
0 0 0 append 1000,-,:a
0 0 0 flush
0 0 0 fetch 0 1
0 0 0 up
0 0 0 learn
---
0 0 0 = Ok 0 0 0
0 0 1 = DiskFault
0 0 2 = Down
0 0 3 = Up 0
0 0 4 = NeedsElection 0
=== a roll whose sync fails stops the broker
fault 0 disk 0 sync 2 after
0 0 0 append 1000,-,:a
0 0 0 flush
0 0 0 append 1000,-,:b
0 0 0 roll
0 0 0 up
---
0 0 0 = Ok 0 0 0
0 0 1 = Ok 1
0 0 2 = Ok 1 1 0
0 0 3 = DiskFault
0 0 4 = Up 1
=== a lead that was taken, but not told, needs another election
fault 0 disk 0 replace 1 after
0 0 0 elect
0 0 0 learn
0 0 0 up
0 0 0 learn
---
0 0 0 = Ok 1
0 0 1 = DiskFault
0 0 2 = Up 0
0 0 3 = NeedsElection 1
=== a lead that wasn't taken is taken later
fault 0 disk 0 replace 1 before
0 0 0 elect
0 0 0 learn
0 0 0 up
0 0 0 learn
---
0 0 0 = Ok 1
0 0 1 = DiskFault
0 0 2 = Up 0
0 0 3 = Leads 1
=== a follower's cut that was done, but not told
brokers 2
fault 0 disk 1 replace 1 after
0 0 0 append 1000,-,:a
1 0 1 follow 1000
0 0 0 elect
0 0 0 learn
1 0 1 learn
1 0 1 join
1 0 1 up
1 0 1 learn
1 0 1 join
---
0 0 0 = Ok 0 0 0
0 1 0 begin
0 1 0 = Copied 1
0 0 1 = Ok 1
0 0 2 = Leads 1
0 1 1 = Follows 1
0 1 2 = DiskFault 1
0 1 3 = Up 1
0 1 4 = Follows 1
0 1 5 = Cut 1
=== a follower whose append fails, and one whose leader's read fails
brokers 2
fault 0 disk 1 append 1 before
fault 0 disk 0 read 1 before
0 0 0 append 1000,-,:a
1 0 1 follow 1000
1 0 1 follow 1000
1 0 1 follow 1000
1 0 1 up
1 0 1 learn
1 0 1 join
1 0 1 follow 1000
---
0 0 0 = Ok 0 0 0
0 1 0 = DiskFault
0 1 1 begin
0 1 1 = DiskFault
0 1 2 = Down
0 1 3 = Up 0
0 1 4 = Follows 0
0 1 5 = Cut 0
0 1 6 begin
0 1 6 = Copied 1
=== a fetch whose read fails leaves all as it was
fault 0 disk 0 read 1 after
0 0 0 append 1000,-,:a
0 0 0 flush
0 0 0 ack
0 0 0 fetch 0 1000
0 0 0 fetch 0 1000
---
0 0 0 = Ok 0 0 0
0 0 1 = Ok 1
0 0 2 = Ok 1
0 0 3 = DiskFault
0 0 4 = Run local 0 69 Mark \
0000000000000000000000390000000002ebf1884b00000000000000000000000003e800000000000003e8ffffffffffffffffffffffffffff0000\
00010e00000001026100
=== a broker comes up at the second time; of two lines that name one call the first counts
fault 0 disk 0 list 1 before
fault 0 disk 0 replace 1 before
fault 0 disk 0 replace 1 after
0 0 0 append 1000,-,:a
0 0 0 stop
0 0 0 up
0 0 0 up
0 0 0 up
0 0 0 up
---
0 0 0 = Ok 0 0 0
0 0 1 = Ok
0 0 2 = DiskFault
0 0 3 = DiskFault
0 0 4 = Up 0
0 0 5 = IsUp
";

#[test]
fn scripts_of_several_brokers_give_their_traces(rt: HostRuntime) {
    assert_eq!(rt; first_wrong(rt, SEVERAL), (12, None));
}

#[test]
fn scripts_whose_disks_fail_give_their_traces(rt: HostRuntime) {
    assert_eq!(rt; first_wrong(rt, FAULTS), (11, None));
}

/// Adds the line of an append to a script.
fn append(script: &mut String) -> Result<(), AllocError> {
    script.push_str("0 0 0 append 1000,-,:a\n")
}

/// A script of so many appends, each of more than half of a segment's size.
fn appends(alloc: Global, many: u32) -> Result<String, AllocError> {
    let mut script = String::from_str(alloc, "segment_bytes 100\n")?;
    for _ in 0..many {
        append(&mut script)?;
    }
    Ok(script)
}

/// Adds the line of an answer to a trace. A log has 4,096 segments at most.
fn answer(alloc: Global, trace: &mut String, number: u32) -> Result<(), AllocError> {
    let line = if number < 4096 {
        format!(in alloc; "0 0 {number} = Ok {number} {number} 0\n")?
    } else {
        format!(in alloc; "0 0 {number} = TooManySegments\n")?
    };
    trace.push_str(line.as_str())
}

/// The trace of so many appends.
fn answers(alloc: Global, many: u32) -> Result<String, AllocError> {
    let mut trace = String::new(alloc);
    for number in 0..many {
        answer(alloc, &mut trace, number)?;
    }
    Ok(trace)
}

/// Simulates a script, in pieces of 65,536 bytes.
fn simulated_whole(rt: HostRuntime, script: &str, trace: &str) -> Option<(u8, bool, bool)> {
    let wanted = Wanted::Whole("", trace.as_bytes());
    let input = (script.as_bytes(), [].as_slice());
    called(rt, &["sim"], input, (200_000, 65_536, &[]), wanted)
}

/// Simulates so many appends.
fn counted(rt: HostRuntime, many: u32) -> Option<(u8, bool, bool)> {
    match (appends(rt.alloc(), many), answers(rt.alloc(), many)) {
        (Ok(script), Ok(trace)) => simulated_whole(rt, script.as_str(), trace.as_str()),
        _ => None,
    }
}

#[test]
fn segments_are_counted(rt: HostRuntime) {
    assert!(rt; counted(rt, 4098) == well(0));
}
