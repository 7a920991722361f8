//! Scripts over both tiers, with their traces.
//!
//! The traces come from a simulator that was made apart from this repository, with a writer of record batches of its
//! own.

use crate::shown_tests::shown;
use crate::tests::{Wanted, first_wrong, well};

/// Scripts and the traces that they give.
static TIERS: &str = "\
=== after an unclean election each leader serves its own line, and what was cut is copied anew
brokers 2
segment_bytes 150
local_retention_bytes 0
0 0 0 append 1000,-,:a
0 0 0 append 1000,-,:b
0 0 0 append 1000,-,:c
1 0 1 follow 69
1 0 1 flush
1 0 1 shrink
0 0 0 flush
0 0 0 ack
0 0 0 copy
1 0 1 unclean
1 0 1 learn
1 0 1 roll
1 0 1 append 1000,-,:g
1 0 1 roll
1 0 1 flush
1 0 1 ack
1 0 1 trim
1 0 1 trim
1 0 1 copy
1 0 1 trim
1 0 1 fetch 0 1000
1 0 1 fetch 1 1000
0 0 0 fetch 1 1000
---
0 0 0 = Ok 0 0 0
0 0 1 = Ok 1 1 0
0 0 2 = Ok 2 2 0
0 1 0 begin
0 1 0 = Copied 1
0 1 1 = Ok 1
0 1 2 = Ok
0 0 3 = Ok 3
0 0 4 = Ok 3
0 0 5 begin
0 0 5 = Copied 00000000-0000-0001-0000-000000000000 0 1
0 1 3 = Ok 1
0 1 4 = Leads 1
0 1 5 = Ok 1
0 1 6 = Ok 1 1 1
0 1 7 = Ok 2
0 1 8 = Ok 2
0 1 9 = Ok 2
0 1 10 begin
0 1 10 = Dropped 0 0
0 1 11 begin
0 1 11 = Kept
0 1 12 begin
0 1 12 = Copied 00000001-0000-0001-0000-000000000000 1 1
0 1 13 begin
0 1 13 = Dropped 1 1
0 1 14 begin
0 1 14 = Run remote 00000000-0000-0001-0000-000000000000 69 Piece \
0000000000000000000000390000000002ebf1884b00000000000000000000000003e800000000000003e8ffffffffffffffffffffffffffff0000\
00010e00000001026100
0 1 15 begin
0 1 15 = Run remote 00000001-0000-0001-0000-000000000000 69 Mark \
0000000000000001000000390000000102823ed97900000000000000000000000003e800000000000003e8ffffffffffffffffffffffffffff0000\
00010e00000001026700
0 0 6 = Run local 0 69 Piece \
0000000000000001000000390000000002df1620d200000000000000000000000003e800000000000003e8ffffffffffffffffffffffffffff0000\
00010e00000001026200
=== a batch of 1000 is kept for 10 milliseconds at 1010, and no longer at 1011
retention_ms 10
segment_bytes 100
0 0 0 append 1000,-,:a
0 0 0 append 1000,-,:b
0 0 0 flush
0 0 0 ack
0 0 0 copy
0 0 - clock 1010
0 0 0 expire
0 0 0 trim
0 0 - clock 1011
0 0 0 expire
0 0 0 trim
0 0 0 expire
0 0 0 expire
---
0 0 0 = Ok 0 0 0
0 0 1 = Ok 1 1 0
0 0 2 = Ok 2
0 0 3 = Ok 2
0 0 4 begin
0 0 4 = Copied 00000000-0000-0001-0000-000000000000 0 0
0 0 5 = Ok
0 0 6 begin
0 0 6 = Kept
0 0 7 begin
0 0 7 = Kept
0 0 8 = Ok
0 0 9 begin
0 0 9 = Raised 1
0 0 10 begin
0 0 10 = Dropped 0 0
0 0 11 begin
0 0 11 = Deleted 00000000-0000-0001-0000-000000000000
0 0 12 begin
0 0 12 = Kept
=== where the local size has no limit a segment stays until the log start has left it behind
segment_bytes 100
retention_bytes 69
local_retention_bytes -1
0 0 0 append 1000,-,:a
0 0 0 append 1000,-,:b
0 0 0 flush
0 0 0 ack
0 0 0 trim
0 0 0 copy
0 0 0 trim
0 0 0 fetch 0 1000
0 0 0 expire
0 0 0 trim
---
0 0 0 = Ok 0 0 0
0 0 1 = Ok 1 1 0
0 0 2 = Ok 2
0 0 3 = Ok 2
0 0 4 begin
0 0 4 = Kept
0 0 5 begin
0 0 5 = Copied 00000000-0000-0001-0000-000000000000 0 0
0 0 6 begin
0 0 6 = Kept
0 0 7 = Run local 0 69 Piece \
0000000000000000000000390000000002ebf1884b00000000000000000000000003e800000000000003e8ffffffffffffffffffffffffffff0000\
00010e00000001026100
0 0 8 begin
0 0 8 = Raised 1
0 0 9 begin
0 0 9 = Dropped 0 0
=== where copying is off the log start comes past a copied segment and one that isn't copied at once
segment_bytes 100
retention_bytes 69
0 0 0 append 1000,-,:a
0 0 0 append 1000,-,:b
0 0 0 append 1000,-,:c
0 0 0 flush
0 0 0 ack
0 0 0 expire
0 0 0 copy
0 0 - copying 0
0 0 0 expire
0 0 0 trim
0 0 0 trim
0 0 0 trim
0 0 0 fetch 1 100
0 0 0 fetch 2 100
0 0 0 expire
0 0 - copying 1
0 0 0 roll
0 0 0 copy
---
0 0 0 = Ok 0 0 0
0 0 1 = Ok 1 1 0
0 0 2 = Ok 2 2 0
0 0 3 = Ok 3
0 0 4 = Ok 3
0 0 5 begin
0 0 5 = Kept
0 0 6 begin
0 0 6 = Copied 00000000-0000-0001-0000-000000000000 0 0
0 0 7 = Ok
0 0 8 begin
0 0 8 = Raised 2
0 0 9 begin
0 0 9 = Dropped 0 0
0 0 10 begin
0 0 10 = Dropped 1 1
0 0 11 begin
0 0 11 = Kept
0 0 12 = OutOfRange 2 3
0 0 13 = Run local 2 69 Mark \
0000000000000002000000390000000002ccb4b8a500000000000000000000000003e800000000000003e8ffffffffffffffffffffffffffff0000\
00010e00000001026300
0 0 14 begin
0 0 14 = Deleted 00000000-0000-0001-0000-000000000000
0 0 15 = Ok
0 0 16 = Ok 3
0 0 17 begin
0 0 17 = Copied 00000000-0000-0001-0000-000000000001 2 2
";

/// Lines of a script, each with how often they come: three brokers, and segments of 71 batches.
static LONG: [(u32, &str); 3] = [
    (
        1,
        "\
        brokers 3\n\
        segment_bytes 4900\n\
        retention_bytes 8000\n\
        local_retention_bytes 0\n",
    ),
    (200, "0 0 0 append 1000,-,:a\n"),
    (
        1,
        "\
        1 0 1 follow 20000\n\
        1 0 1 follow 20000\n\
        1 0 1 follow 20000\n\
        1 0 1 flush\n\
        1 0 1 ack\n\
        2 0 2 follow 20000\n\
        2 0 2 follow 20000\n\
        2 0 2 follow 20000\n\
        2 0 2 follow 20000\n\
        2 0 2 flush\n\
        2 0 2 ack\n\
        0 0 0 flush\n\
        0 0 0 ack\n\
        0 0 0 copy\n\
        0 0 0 copy\n\
        0 0 0 copy\n\
        0 0 0 trim\n\
        0 0 0 trim\n\
        0 0 0 trim\n\
        0 0 0 fetch 70 10000\n\
        0 0 0 fetch 71 100\n\
        0 0 0 fetch 199 10000\n\
        0 0 0 expire\n\
        0 0 0 expire\n\
        0 0 0 expire\n\
        0 0 0 fetch 70 1000\n\
        0 0 0 fetch 140 10000\n",
    ),
];

/// The trace after the answers to the appends.
static LONG_END: &str = "\
    0 1 0 begin\n\
    0 1 0 = Copied 71\n\
    0 1 1 begin\n\
    0 1 1 = Copied 142\n\
    0 1 2 begin\n\
    0 1 2 = Copied 200\n\
    0 1 3 = Ok 200\n\
    0 1 4 = Ok 0\n\
    0 2 0 begin\n\
    0 2 0 = Copied 71\n\
    0 2 1 begin\n\
    0 2 1 = Copied 142\n\
    0 2 2 begin\n\
    0 2 2 = Copied 200\n\
    0 2 3 = Level\n\
    0 2 4 = Ok 200\n\
    0 2 5 = Ok 0\n\
    0 0 200 = Ok 200\n\
    0 0 201 = Ok 200\n\
    0 0 202 begin\n\
    0 0 202 = Copied 00000000-0000-0001-0000-000000000000 0 70\n\
    0 0 203 begin\n\
    0 0 203 = Copied 00000000-0000-0001-0000-000000000001 71 141\n\
    0 0 204 begin\n\
    0 0 204 = Level\n\
    0 0 205 begin\n\
    0 0 205 = Dropped 0 70\n\
    0 0 206 begin\n\
    0 0 206 = Dropped 71 141\n\
    0 0 207 begin\n\
    0 0 207 = Kept\n\
    0 0 208 begin\n\
    0 0 208 = Run remote 00000000-0000-0001-0000-000000000000 69 Piece \
    0000000000000046000000390000000002ebf1884b00000000000000000000000003e800000000000003e8fffffffffffffffffffffffffff\
    f000000010e00000001026100\n\
    0 0 209 begin\n\
    0 0 209 = Run remote 00000000-0000-0001-0000-000000000001 69 Limit \
    0000000000000047000000390000000002ebf1884b00000000000000000000000003e800000000000003e8fffffffffffffffffffffffffff\
    f000000010e00000001026100\n\
    0 0 210 = Run local 142 69 Mark \
    00000000000000c7000000390000000002ebf1884b00000000000000000000000003e800000000000003e8fffffffffffffffffffffffffff\
    f000000010e00000001026100\n\
    0 0 211 begin\n\
    0 0 211 = Raised 71\n\
    0 0 212 begin\n\
    0 0 212 = Deleted 00000000-0000-0001-0000-000000000000\n\
    0 0 213 begin\n\
    0 0 213 = Kept\n\
    0 0 214 = OutOfRange 71 200\n\
    0 0 215 begin\n\
    0 0 215 = Run remote 00000000-0000-0001-0000-000000000001 138 Piece \
    000000000000008c000000390000000002ebf1884b00000000000000000000000003e800000000000003e8fffffffffffffffffffffffffff\
    f000000010e00000001026100000000000000008d000000390000000002ebf1884b00000000000000000000000003e800000000000003e8ff\
    ffffffffffffffffffffffffff000000010e00000001026100\n";

#[test]
fn scripts_over_both_tiers_give_their_traces(rt: HostRuntime) {
    assert_eq!(rt; first_wrong(rt, TIERS), (4, None));
}

#[test]
fn the_oldest_of_many_batches_go_by_size(rt: HostRuntime) {
    let wanted = Wanted::Shown("", LONG_END.as_bytes());
    let end = shown(rt, &["sim"], LONG.as_slice(), wanted);
    assert!(rt; end == well(0));
}
