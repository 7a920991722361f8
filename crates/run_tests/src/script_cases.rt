//! Scripts and the traces that they give, as text. `first_wrong` reads it.
//!
//! The batches' bytes come from a writer of record batches that was made apart from this repository.

/// Appends, flushes, acknowledgements and fetches.
pub(crate) static SCRIPTS: &str = "\
=== an empty script
---
=== all three batches
0 0 0 append 1000,-,:a
0 0 0 append 1000,-,:b
0 0 0 append 1000,-,:c
0 0 0 flush
0 0 0 ack
0 0 0 fetch 0 1000
---
0 0 0 = Ok 0 0 0
0 0 1 = Ok 1 1 0
0 0 2 = Ok 2 2 0
0 0 3 = Ok 3
0 0 4 = Ok 3
0 0 5 = Run local 0 207 Mark \
0000000000000000000000390000000002ebf1884b00000000000000000000000003e800000000000003e8ffffffffffffffffffffffffffff0000\
00010e000000010261000000000000000001000000390000000002df1620d200000000000000000000000003e800000000000003e8ffffffffffff\
ffffffffffffffff000000010e000000010262000000000000000002000000390000000002ccb4b8a500000000000000000000000003e800000000\
000003e8ffffffffffffffffffffffffffff000000010e00000001026300
=== limits and ends
0 0 0 append 1000,-,:a
0 0 0 append 1000,-,:b
0 0 0 append 1000,-,:c
0 0 0 flush
0 0 0 ack
0 0 0 fetch 0 1
0 0 0 fetch 0 138
0 0 0 fetch 3 1
0 0 0 fetch 4 1
---
0 0 0 = Ok 0 0 0
0 0 1 = Ok 1 1 0
0 0 2 = Ok 2 2 0
0 0 3 = Ok 3
0 0 4 = Ok 3
0 0 5 = Run local 0 69 Limit \
0000000000000000000000390000000002ebf1884b00000000000000000000000003e800000000000003e8ffffffffffffffffffffffffffff0000\
00010e00000001026100
0 0 6 = Run local 0 138 Limit \
0000000000000000000000390000000002ebf1884b00000000000000000000000003e800000000000003e8ffffffffffffffffffffffffffff0000\
00010e000000010261000000000000000001000000390000000002df1620d200000000000000000000000003e800000000000003e8ffffffffffff\
ffffffffffffffff000000010e00000001026200
0 0 7 = Empty
0 0 8 = OutOfRange 0 3
=== nothing is acknowledged
0 0 0 append 1000,-,:a
0 0 0 append 1000,-,:b
0 0 0 append 1000,-,:c
0 0 0 flush
0 0 0 fetch 0 1000
---
0 0 0 = Ok 0 0 0
0 0 1 = Ok 1 1 0
0 0 2 = Ok 2 2 0
0 0 3 = Ok 3
0 0 4 = Empty
=== an unflushed batch is not acknowledged
0 0 0 append 1000,-,:a
0 0 0 flush
0 0 0 append 1000,-,:b
0 0 0 ack
0 0 0 fetch 0 1000
---
0 0 0 = Ok 0 0 0
0 0 1 = Ok 1
0 0 2 = Ok 1 1 0
0 0 3 = Ok 1
0 0 4 = Run local 0 69 Mark \
0000000000000000000000390000000002ebf1884b00000000000000000000000003e800000000000003e8ffffffffffffffffffffffffffff0000\
00010e00000001026100
=== a great limit of an empty log
0 0 0 fetch 0 268435456
---
0 0 0 = Empty
";

/// Batches from outside and records in full.
pub(crate) static RAW: &str = "\
=== a batch from outside is placed, and else left as it was given
0 0 0 raw \
000000000000006300000039000000050228835a5e00000000000000000000000003e800000000000003e80000000000000007ffffffffffff0000\
00010e00000001026100
0 0 0 flush
0 0 0 ack
0 0 0 fetch 0 1000
---
0 0 0 = Ok 0 0 0
0 0 1 = Ok 1
0 0 2 = Ok 1
0 0 3 = Run local 0 69 Mark \
000000000000000000000039000000000228835a5e00000000000000000000000003e800000000000003e80000000000000007ffffffffffff0000\
00010e00000001026100
=== one bit of the value is wrong
0 0 0 raw \
0000000000000000000000390000000002ebf1884b00000000000000000000000003e800000000000003e8ffffffffffffffffffffffffffff0000\
00010e00000001026000
---
0 0 0 = Refused BadCrc 3958474827 4166193212
=== the checksum is tested before the compression
0 0 0 raw \
0000000000000000000000390000000002ebf1884b00010000000000000000000003e800000000000003e8ffffffffffffffffffffffffffff0000\
00010e00000001026100
---
0 0 0 = Refused BadCrc 3958474827 2767818519
=== compressed records, with the right checksum
0 0 0 raw \
0000000000000000000000390000000002a4f98f1700010000000000000000000003e800000000000003e8ffffffffffffffffffffffffffff0000\
00010e00000001026100
---
0 0 0 = Refused Compressed
=== a control batch of a transaction
0 0 0 raw \
0000000000000000000000390000000002c74f0cb600300000000000000000000003e800000000000003e8ffffffffffffffffffffffffffff0000\
00010e00000001026100
---
0 0 0 = Refused Transactional
=== a control batch
0 0 0 raw \
0000000000000000000000390000000002207ea2b200200000000000000000000003e800000000000003e8ffffffffffffffffffffffffffff0000\
00010e00000001026100
---
0 0 0 = Refused Control
=== the bytes end inside the head
0 0 0 raw \
0000000000000000000000390000000002ebf1884b00000000000000000000000003e800000000000003e8ffffffffffffffffffffffffffff0000\
00
---
0 0 0 = Refused Short
=== an older magic
0 0 0 raw \
0000000000000000000000390000000001ebf1884b00000000000000000000000003e800000000000003e8ffffffffffffffffffffffffffff0000\
00010e00000001026100
---
0 0 0 = Refused BadMagic
=== a length below that of a head
0 0 0 raw \
0000000000000000000000300000000002ebf1884b00000000000000000000000003e800000000000003e8ffffffffffffffffffffffffffff0000\
00010e00000001026100
---
0 0 0 = Refused BadLength
=== a byte after the batch
0 0 0 raw \
0000000000000000000000390000000002ebf1884b00000000000000000000000003e800000000000003e8ffffffffffffffffffffffffffff0000\
00010e0000000102610000
---
0 0 0 = Refused BadLength
=== no records
0 0 0 raw \
00000000000000000000003900000000021fcf5e0300000000000000000000000003e800000000000003e8ffffffffffffffffffffffffffff0000\
00000e00000001026100
---
0 0 0 = Refused BadRecords 57
=== the last offset delta is not the count less 1
0 0 0 raw \
000000000000000000000039000000000279aaa3da00000000000100000000000003e800000000000003e8ffffffffffffffffffffffffffff0000\
00010e00000001026100
---
0 0 0 = Refused BadRecords 23
=== a key, no value, and a header without a value
0 0 0 append 5,:k,-,:h=-
0 0 0 flush
0 0 0 ack
0 0 0 fetch 0 100
---
0 0 0 = Ok 0 0 0
0 0 1 = Ok 1
0 0 2 = Ok 1
0 0 3 = Run local 0 72 Mark \
00000000000000000000003c0000000002bb6f0d3800000000000000000000000000050000000000000005ffffffffffffffffffffffffffff0000\
000114000000026b0102026801
=== the first example of the language's page
# two records, made stable, committed, and read
0 0 0 append 1000,:k,:v 1000,-,:w
0 0 0 flush
0 0 0 ack
0 0 0 fetch 0 1000
---
0 0 0 = Ok 0 1 0
0 0 1 = Ok 2
0 0 2 = Ok 2
0 0 3 = Run local 0 78 Mark \
000000000000000000000042000000000254c6652100000000000100000000000003e800000000000003e8ffffffffffffffffffffffffffff0000\
000210000000026b0276000e00000201027700
=== the example of its answers
0 0 0 append 1000,-,:a
0 0 0 fetch 0 1000
0 0 0 flush
0 0 0 ack
0 0 0 fetch 0 0
0 0 0 fetch 1 1000
0 0 0 fetch 2 1000
0 0 0 raw 0000
---
0 0 0 = Ok 0 0 0
0 0 1 = Empty
0 0 2 = Ok 1
0 0 3 = Ok 1
0 0 4 = Run local 0 69 Mark \
0000000000000000000000390000000002ebf1884b00000000000000000000000003e800000000000003e8ffffffffffffffffffffffffffff0000\
00010e00000001026100
0 0 5 = Empty
0 0 6 = OutOfRange 0 1
0 0 7 = Refused Short
=== the example of batches from outside
# A batch from outside, with base offset 99, leader epoch 5 and producer 7. Its checksum covers neither of the first \
two:
# the broker places the batch at its log's end, in its own epoch, and leaves all else as it was given.
0 0 0 raw \
000000000000006300000039000000050228835a5e00000000000000000000000003e800000000000003e80000000000000007ffffffffffff0000\
00010e00000001026100

# One bit of the value is wrong: refused, with the checksum that the batch has and the one that its bytes give.
0 0 0 raw \
0000000000000000000000390000000002ebf1884b00000000000000000000000003e800000000000003e8ffffffffffffffffffffffffffff0000\
00010e00000001026000

# The bytes end inside the head.
0 0 0 raw 0000

# Two records in one batch, the second with a key, no value, and a header of no value.
0 0 0 append 5,-,:a 6,:k,-,:h=-

0 0 0 flush
0 0 0 ack
0 0 0 fetch 0 1000
---
0 0 0 = Ok 0 0 0
0 0 1 = Refused BadCrc 3958474827 4166193212
0 0 2 = Refused Short
0 0 3 = Ok 1 2 0
0 0 4 = Ok 3
0 0 5 = Ok 3
0 0 6 = Run local 0 149 Mark \
000000000000000000000039000000000228835a5e00000000000000000000000003e800000000000003e80000000000000007ffffffffffff0000\
00010e00000001026100000000000000000100000044000000000267651f9b00000000000100000000000000050000000000000006ffffffffffff\
ffffffffffffffff000000020e0000000102610014000202026b0102026801
=== comments, blanks, tabs and line ends
# a comment\r

 \t
partitions 1
\t00  0\t0 flush \r
0 0 0 ack\
---
0 0 0 = Ok 0
0 0 1 = Ok 0
";

/// The examples of the remote tier.
pub(crate) static REMOTE: &str = "\
=== the example of copies
# A leader copies its closed log segments to the remote tier, the oldest first.
segment_bytes 200

# A segment holds two of these batches. The seventh batch stands in the open segment.
0 0 0 append 1000,-,:a
0 0 0 append 1000,-,:b
0 0 0 append 1000,-,:c
0 0 0 append 1000,-,:d
0 0 0 append 1000,-,:e
0 0 0 append 1000,-,:f
0 0 0 append 1000,-,:g

# What isn't committed isn't copied.
0 0 0 copy
0 0 0 flush
0 0 0 ack

# Each copy takes the first closed segment that isn't copied yet, and tells its id, its first and
# its last offset. The open segment isn't copied.
0 0 0 copy
0 0 0 copy
0 0 0 copy
0 0 0 copy

# A roll closes it.
0 0 0 roll
0 0 0 copy

# An id names the broker, how often its log was opened, and the copies that it began since then.
0 0 0 append 1000,-,:h
0 0 0 roll
0 0 0 flush
0 0 0 ack
0 0 0 stop
0 0 0 up
0 0 0 learn
0 0 0 elect
0 0 0 learn
0 0 0 ack
0 0 0 copy
0 0 0 copy
---
0 0 0 = Ok 0 0 0
0 0 1 = Ok 1 1 0
0 0 2 = Ok 2 2 0
0 0 3 = Ok 3 3 0
0 0 4 = Ok 4 4 0
0 0 5 = Ok 5 5 0
0 0 6 = Ok 6 6 0
0 0 7 begin
0 0 7 = Level
0 0 8 = Ok 7
0 0 9 = Ok 7
0 0 10 begin
0 0 10 = Copied 00000000-0000-0001-0000-000000000000 0 1
0 0 11 begin
0 0 11 = Copied 00000000-0000-0001-0000-000000000001 2 3
0 0 12 begin
0 0 12 = Copied 00000000-0000-0001-0000-000000000002 4 5
0 0 13 begin
0 0 13 = Level
0 0 14 = Ok 7
0 0 15 begin
0 0 15 = Copied 00000000-0000-0001-0000-000000000003 6 6
0 0 16 = Ok 7 7 0
0 0 17 = Ok 8
0 0 18 = Ok 8
0 0 19 = Ok 8
0 0 20 = Ok
0 0 21 = Up 8
0 0 22 = NeedsElection 0
0 0 23 = Ok 1
0 0 24 = Leads 1
0 0 25 = Ok 8
0 0 26 begin
0 0 26 = Copied 00000000-0000-0002-0000-000000000000 7 7
0 0 27 begin
0 0 27 = Level
=== the example of a store and a metadata log that fail
# A store and a metadata log that fail: a copy ends where its call fails, and the next one begins
# anew, under another id.
segment_bytes 200

# A copy appends a note that it starts, puts four objects, appends a note that it is whole, and reads
# the notes at its first and its last turn. A call that fails before isn't done, and one that fails
# after is done, but its broker isn't told so.
fault 0 meta append 1 before
fault 0 store put 2 before
fault 0 store put 6 after
fault 0 meta append 5 before
fault 0 meta append 7 after
fault 0 meta read 6 before
fault 0 meta read 8 before

# Two closed segments, of two batches each, and an open one.
0 0 0 append 1000,-,:a
0 0 0 append 1000,-,:b
0 0 0 append 1000,-,:c
0 0 0 append 1000,-,:d
0 0 0 append 1000,-,:e
0 0 0 flush
0 0 0 ack

# The note that it starts isn't taken.
0 0 0 copy

# The second object isn't put. The first one stands, under an id that is never finished.
0 0 0 copy

# The fourth object is put, which the broker doesn't know.
0 0 0 copy

# All four objects stand, but the note that the copy is whole isn't taken.
0 0 0 copy

# That note is taken, so the segment is copied, which the broker doesn't know.
0 0 0 copy

# The next copy can't read the notes, and doesn't begin. The one after it finds the first segment
# copied, under the fifth id, and copies the second segment. Its last look at the notes fails.
0 0 0 copy
0 0 0 copy

# Both segments are copied. Six copies have begun so far, so the next one has the seventh id.
0 0 0 copy
0 0 0 roll
0 0 0 copy
---
0 0 0 = Ok 0 0 0
0 0 1 = Ok 1 1 0
0 0 2 = Ok 2 2 0
0 0 3 = Ok 3 3 0
0 0 4 = Ok 4 4 0
0 0 5 = Ok 5
0 0 6 = Ok 5
0 0 7 begin
0 0 7 = MetaFault
0 0 8 begin
0 0 8 = StoreFault
0 0 9 begin
0 0 9 = StoreFault
0 0 10 begin
0 0 10 = MetaFault
0 0 11 begin
0 0 11 = MetaFault
0 0 12 = MetaFault
0 0 13 begin
0 0 13 = MetaFault
0 0 14 begin
0 0 14 = Level
0 0 15 = Ok 5
0 0 16 begin
0 0 16 = Copied 00000000-0000-0001-0000-000000000006 4 4
=== the example of a leader that was replaced
# A leader is replaced in the middle of a copy, and the new leader copies the segment again.
brokers 2
segment_bytes 200

# Broker 0 leads, and broker 1 follows. All is stable on both, and committed.
0 0 0 append 1000,-,:a
0 0 0 append 1000,-,:b
0 0 0 append 1000,-,:c
1 0 1 follow 1000
1 0 1 follow 1000
1 0 1 flush
1 0 1 ack
0 0 0 flush
0 0 0 ack

# Broker 0 begins a copy, and has put three of the four objects when it stops.
later 2 0 0 copy
turn 2 6
0 0 0 stop

# Broker 1 is elected, learns that it leads, and copies the segment under an id of its own.
1 0 1 elect
1 0 1 learn
1 0 1 copy

# Broker 0's copy ends at its next turn. Three objects stay, under an id that is never finished.
turn 2 1

# A leader that was replaced and doesn't know it goes on. Broker 1 begins to copy its next segment;
# broker 0 has taken the batches by then, is elected, and copies the segment too.
1 0 1 append 1000,-,:d
1 0 1 append 1000,-,:e
0 0 0 up
0 0 0 learn
0 0 0 join
0 0 0 follow 1000
0 0 0 follow 1000
0 0 0 flush
0 0 0 ack
1 0 1 flush
1 0 1 ack
0 0 0 expand
later 3 0 1 copy
turn 3 5
0 0 0 elect
0 0 0 learn
0 0 0 copy

# Both copies become whole. They hold the same batches.
turn 3 4
---
0 0 0 = Ok 0 0 0
0 0 1 = Ok 1 1 0
0 0 2 = Ok 2 2 0
0 1 0 begin
0 1 0 = Copied 2
0 1 1 begin
0 1 1 = Copied 3
0 1 2 = Ok 3
0 1 3 = Ok 0
0 0 3 = Ok 3
0 0 4 = Ok 3
0 2 0 begin
0 0 5 = Ok
0 1 4 = Ok 1
0 1 5 = Leads 1
0 1 6 begin
0 1 6 = Copied 00000001-0000-0001-0000-000000000000 0 1
0 2 0 = LostLead
0 1 7 = Ok 3 3 1
0 1 8 = Ok 4 4 1
0 0 6 = Up 3
0 0 7 = Follows 1
0 0 8 = Cut 3
0 0 9 begin
0 0 9 = Copied 4
0 0 10 begin
0 0 10 = Copied 5
0 0 11 = Ok 5
0 0 12 = Ok 3
0 1 9 = Ok 5
0 1 10 = Ok 5
0 0 13 = Ok
0 3 0 begin
0 0 14 = Ok 2
0 0 15 = Leads 2
0 0 16 begin
0 0 16 = Copied 00000000-0000-0002-0000-000000000000 2 3
0 3 0 = Copied 00000001-0000-0001-0000-000000000001 2 3
";
