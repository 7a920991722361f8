//! What the documents and the examples show as run, part 3. Made by docs/snippets.py, which also reports a difference.

/// Scripts and their traces.
pub(crate) static RUNS: &str = "# examples/by-time.script
# Offsets are looked up by timestamps, through remote segments and then through the local log.
segment_bytes 200
local_retention_bytes 0

# Two closed segments of two batches each, and an open one, committed. A later offset may have an
# earlier timestamp.
0 0 0 append 1000,-,:a
0 0 0 append 3000,-,:b
0 0 0 append 2000,-,:c
0 0 0 append 4000,-,:d
0 0 0 append 2500,-,:e
0 0 0 flush
0 0 0 ack

# Both closed segments are copied, and the first one is trimmed: the local log starts at 2.
0 0 0 copy
0 0 0 copy
0 0 0 trim

# The answer is the first batch that isn't earlier. These two are no longer in the local log.
0 0 0 offset at 1000
0 0 0 offset at 1001

# Nothing in the first segment is as late as 3001, so it is skipped and none of its objects is read.
# Nothing at all is as late as 4001.
0 0 0 offset at 3001
0 0 0 offset at 4001

# Uncommitted batches don't count. A batch counts as a whole: the record of 6000 has offset 6, and the
# answer is the start of its batch.
0 0 0 append 5000,-,:f 6000,-,:g
0 0 0 offset at 6000
0 0 0 flush
0 0 0 ack
0 0 0 offset at 6000

# No answer is below the log start offset.
0 0 0 raise 1
0 0 0 offset at 0

# A search has chosen the first segment, where offset 1 is late enough. Then the log start offset
# rises to 2, and the search continues there.
later 1 0 0 offset at 1001
turn 1 3
0 0 0 raise 2
turn 1 9

# The log start offset may be inside the batch that is late enough; then it is the answer.
0 0 0 raise 6
0 0 0 offset at 5000
`0 0 0 = Ok 0 0 0
0 0 1 = Ok 1 1 0
0 0 2 = Ok 2 2 0
0 0 3 = Ok 3 3 0
0 0 4 = Ok 4 4 0
0 0 5 = Ok 5
0 0 6 = Ok 5
0 0 7 begin
0 0 7 = Copied 00000000-0000-0001-0000-000000000000 0 1
0 0 8 begin
0 0 8 = Copied 00000000-0000-0001-0000-000000000001 2 3
0 0 9 begin
0 0 9 = Dropped 0 1
0 0 10 begin
0 0 10 = Offset 0
0 0 11 begin
0 0 11 = Offset 1
0 0 12 begin
0 0 12 = Offset 3
0 0 13 begin
0 0 13 = NoOffset
0 0 14 = Ok 5 6 0
0 0 15 begin
0 0 15 = NoOffset
0 0 16 = Ok 7
0 0 17 = Ok 7
0 0 18 begin
0 0 18 = Offset 5
0 0 19 = Ok 1
0 0 20 begin
0 0 20 = Offset 1
0 1 0 begin
0 0 21 = Ok 2
0 1 0 = Offset 2
0 0 22 = Ok 6
0 0 23 begin
0 0 23 = Offset 6
`# examples/copy.script
# A leader copies its closed log segments to the remote tier, the oldest first.
segment_bytes 200

# A segment has two of these batches. The seventh batch is in the open segment.
0 0 0 append 1000,-,:a
0 0 0 append 1000,-,:b
0 0 0 append 1000,-,:c
0 0 0 append 1000,-,:d
0 0 0 append 1000,-,:e
0 0 0 append 1000,-,:f
0 0 0 append 1000,-,:g

# What isn't committed isn't copied.
0 0 0 copy
0 0 0 flush
0 0 0 ack

# Each copy takes the first closed segment that isn't copied yet, and returns its id, its first and
# its last offset. The open segment isn't copied.
0 0 0 copy
0 0 0 copy
0 0 0 copy
0 0 0 copy

# A roll closes it.
0 0 0 roll
0 0 0 copy

# An id has the broker, how often its log was opened, and how many copies it began since then.
0 0 0 append 1000,-,:h
0 0 0 roll
0 0 0 flush
0 0 0 ack
0 0 0 stop
0 0 0 up
0 0 0 learn
0 0 0 elect
0 0 0 learn
0 0 0 ack
0 0 0 copy
0 0 0 copy
`0 0 0 = Ok 0 0 0
0 0 1 = Ok 1 1 0
0 0 2 = Ok 2 2 0
0 0 3 = Ok 3 3 0
0 0 4 = Ok 4 4 0
0 0 5 = Ok 5 5 0
0 0 6 = Ok 6 6 0
0 0 7 begin
0 0 7 = Level
0 0 8 = Ok 7
0 0 9 = Ok 7
0 0 10 begin
0 0 10 = Copied 00000000-0000-0001-0000-000000000000 0 1
0 0 11 begin
0 0 11 = Copied 00000000-0000-0001-0000-000000000001 2 3
0 0 12 begin
0 0 12 = Copied 00000000-0000-0001-0000-000000000002 4 5
0 0 13 begin
0 0 13 = Level
0 0 14 = Ok 7
0 0 15 begin
0 0 15 = Copied 00000000-0000-0001-0000-000000000003 6 6
0 0 16 = Ok 7 7 0
0 0 17 = Ok 8
0 0 18 = Ok 8
0 0 19 = Ok 8
0 0 20 = Ok
0 0 21 = Up 8
0 0 22 = NeedsElection 0
0 0 23 = Ok 1
0 0 24 = Leads 1
0 0 25 = Ok 8
0 0 26 begin
0 0 26 = Copied 00000000-0000-0002-0000-000000000000 7 7
0 0 27 begin
0 0 27 = Level
`# examples/copying-off.script
# Copying is turned off and on: no copy begins while it is off, and uncopied segments expire too.
segment_bytes 200
retention_ms 5000
local_retention_bytes 0

# Three closed segments of two batches each, and an open one, committed. Nothing is in the remote tier.
0 0 0 append 1000,-,:a
0 0 0 append 1000,-,:b
0 0 0 append 2000,-,:c
0 0 0 append 2000,-,:d
0 0 0 append 3000,-,:e
0 0 0 append 3000,-,:f
0 0 0 append 4000,-,:g
0 0 0 flush
0 0 0 ack
0 0 0 offset earliest
0 0 0 offset latest
0 0 0 offset earliest_local
0 0 0 offset latest_tiered

# The first segment is copied and trimmed: the tier has the log up to 1, and the local log starts at 2.
0 0 0 copy
0 0 0 offset latest_tiered
0 0 0 trim
0 0 0 offset earliest
0 0 0 offset earliest_local

# A copy of the second one begins, and then copying is turned off. No other copy begins, and this one
# finishes.
later 1 0 0 copy
turn 1 3
0 0 - copying 0
0 0 0 copy
turn 1 6
0 0 0 offset latest_tiered

# What is in the tier is trimmed as before. The third segment is in no tier, and stays.
0 0 0 trim
0 0 0 trim

# All three are too old. While copying is on, the third one is still to be copied: the log start
# offset rises to it and no further.
0 0 - copying 1
0 0 - clock 8001
0 0 0 expire
0 0 0 expire
0 0 0 expire
0 0 0 expire

# While it is off, the third one won't be copied: the log start offset rises past it, and it is
# trimmed. From there on nothing is in the tier.
0 0 - copying 0
0 0 0 expire
0 0 0 trim
0 0 0 offset earliest
0 0 0 offset earliest_local
0 0 0 offset latest_tiered

# Copying is on again, and the next closed segment is copied.
0 0 - copying 1
0 0 0 append 9000,-,:h
0 0 0 append 9000,-,:i
0 0 0 flush
0 0 0 ack
0 0 0 copy
0 0 0 offset latest_tiered
`0 0 0 = Ok 0 0 0
0 0 1 = Ok 1 1 0
0 0 2 = Ok 2 2 0
0 0 3 = Ok 3 3 0
0 0 4 = Ok 4 4 0
0 0 5 = Ok 5 5 0
0 0 6 = Ok 6 6 0
0 0 7 = Ok 7
0 0 8 = Ok 7
0 0 9 = Offset 0
0 0 10 = Offset 7
0 0 11 = Offset 0
0 0 12 begin
0 0 12 = NoOffset
0 0 13 begin
0 0 13 = Copied 00000000-0000-0001-0000-000000000000 0 1
0 0 14 begin
0 0 14 = Offset 1
0 0 15 begin
0 0 15 = Dropped 0 1
0 0 16 = Offset 0
0 0 17 = Offset 2
0 1 0 begin
0 0 18 = Ok
0 0 19 = CopyOff
0 1 0 = Copied 00000000-0000-0001-0000-000000000001 2 3
0 0 20 begin
0 0 20 = Offset 3
0 0 21 begin
0 0 21 = Dropped 2 3
0 0 22 begin
0 0 22 = Kept
0 0 23 = Ok
0 0 24 = Ok
0 0 25 begin
0 0 25 = Raised 4
0 0 26 begin
0 0 26 = Deleted 00000000-0000-0001-0000-000000000000
0 0 27 begin
0 0 27 = Deleted 00000000-0000-0001-0000-000000000001
0 0 28 begin
0 0 28 = Kept
0 0 29 = Ok
0 0 30 begin
0 0 30 = Raised 6
0 0 31 begin
0 0 31 = Dropped 4 5
0 0 32 = Offset 6
0 0 33 = Offset 6
0 0 34 begin
0 0 34 = NoOffset
0 0 35 = Ok
0 0 36 = Ok 7 7 0
0 0 37 = Ok 8 8 0
0 0 38 = Ok 9
0 0 39 = Ok 9
0 0 40 begin
0 0 40 = Copied 00000000-0000-0001-0000-000000000002 6 7
0 0 41 begin
0 0 41 = Offset 7
`# examples/failover.script
# A leader stops, and the other broker takes over. Broker 0 leads epoch 0 at first, and broker 1
# follows it.
brokers 2
0 0 0 append 1000,-,:a
0 0 0 append 1000,-,:b
0 0 0 flush

# Broker 1 copies both batches, which takes two turns. Once both brokers have acknowledged them they
# are committed.
1 0 1 follow 1000
1 0 1 flush
1 0 1 ack
0 0 0 ack

# A third batch isn't flushed before broker 0 stops.
0 0 0 append 1000,-,:c
0 0 0 fetch 0 1000
0 0 0 stop

# Broker 1 is in sync, so it can be elected. It learns that it leads epoch 1, and appends.
1 0 1 elect
1 0 1 learn
1 0 1 append 1000,-,:d

# Broker 0 starts with its flushed log, learns whom it follows, and truncates its log to where it
# agrees with the leader's.
0 0 0 up
0 0 0 learn
0 0 0 join
0 0 0 follow 1000
0 0 0 flush
0 0 0 ack

# With the leader's own acknowledgement the new batch is committed too. A run ends where its leader
# epoch does.
1 0 1 flush
1 0 1 ack
1 0 1 fetch 0 1000
1 0 1 fetch 2 1000
`0 0 0 = Ok 0 0 0
0 0 1 = Ok 1 1 0
0 0 2 = Ok 2
0 1 0 begin
0 1 0 = Copied 2
0 1 1 = Ok 2
0 1 2 = Ok 0
0 0 3 = Ok 2
0 0 4 = Ok 2 2 0
0 0 5 = Run local 0 138 Mark 0000000000000000000000390000000002ebf1884b00000000000000000000000003e800000000000003e8ffffffffffffffffffffffffffff000000010e000000010261000000000000000001000000390000000002df1620d200000000000000000000000003e800000000000003e8ffffffffffffffffffffffffffff000000010e00000001026200
0 0 6 = Ok
0 1 3 = Ok 1
0 1 4 = Leads 1
0 1 5 = Ok 2 2 1
0 0 7 = Up 2
0 0 8 = Follows 1
0 0 9 = Cut 2
0 0 10 begin
0 0 10 = Copied 3
0 0 11 = Ok 3
0 0 12 = Ok 2
0 1 6 = Ok 3
0 1 7 = Ok 3
0 1 8 = Run local 0 138 Piece 0000000000000000000000390000000002ebf1884b00000000000000000000000003e800000000000003e8ffffffffffffffffffffffffffff000000010e000000010261000000000000000001000000390000000002df1620d200000000000000000000000003e800000000000003e8ffffffffffffffffffffffffffff000000010e00000001026200
0 1 9 = Run local 0 69 Mark 0000000000000002000000390000000102b6d971e000000000000000000000000003e800000000000003e8ffffffffffffffffffffffffffff000000010e00000001026400
`# examples/fallen-behind.script
# A follower was away so long that its leader's local log starts past its own end, and rebuilds.
brokers 3
segment_bytes 200
local_retention_bytes 0

# All three brokers have the first two batches. Then broker 2 stops.
0 0 0 append 1000,-,:a
0 0 0 append 1000,-,:b
1 0 1 follow 1000
2 0 2 follow 1000
1 0 1 flush
1 0 1 ack
2 0 2 flush
2 0 2 ack
0 0 0 flush
0 0 0 ack
2 0 2 stop
0 0 2 shrink

# The other two go on, and broker 1 is elected: its epoch is 1.
0 0 0 append 1000,-,:c
0 0 0 append 1000,-,:d
1 0 1 follow 1000
1 0 1 flush
1 0 1 ack
0 0 0 flush
0 0 0 ack
1 0 1 elect
1 0 1 learn
0 0 0 learn
0 0 0 join
1 0 1 append 1000,-,:e
1 0 1 append 1000,-,:f
1 0 1 append 1000,-,:g
0 0 0 follow 1000
0 0 0 follow 1000
0 0 0 flush
0 0 0 ack
1 0 1 flush
1 0 1 ack

# The leader copies its closed segments to the remote tier, and trims them: its local log starts at 6.
1 0 1 copy
1 0 1 copy
1 0 1 copy
1 0 1 trim
1 0 1 trim
1 0 1 trim

# Broker 2 starts again with the end 2. Up to there its log agrees with the leader's, but the leader's
# local log no longer has what comes next. So it restarts its local log at 6, with the leader epochs
# of the remote segment before, and follows from there.
2 0 2 up
2 0 2 learn
2 0 2 join
2 0 2 follow 1000
2 0 2 flush
2 0 2 ack
0 0 2 expand

# It can lead, and serves from the tier what was never on its disk.
2 0 2 elect
2 0 2 learn
2 0 2 fetch 0 1000
2 0 2 fetch 4 1000
2 0 2 fetch 6 1000
`0 0 0 = Ok 0 0 0
0 0 1 = Ok 1 1 0
0 1 0 begin
0 1 0 = Copied 2
0 2 0 begin
0 2 0 = Copied 2
0 1 1 = Ok 2
0 1 2 = Ok 0
0 2 1 = Ok 2
0 2 2 = Ok 0
0 0 2 = Ok 2
0 0 3 = Ok 2
0 2 3 = Ok
0 0 4 = Ok
0 0 5 = Ok 2 2 0
0 0 6 = Ok 3 3 0
0 1 3 begin
0 1 3 = Copied 4
0 1 4 = Ok 4
0 1 5 = Ok 2
0 0 7 = Ok 4
0 0 8 = Ok 4
0 1 6 = Ok 1
0 1 7 = Leads 1
0 0 9 = Follows 1
0 0 10 = Cut 4
0 1 8 = Ok 4 4 1
0 1 9 = Ok 5 5 1
0 1 10 = Ok 6 6 1
0 0 11 begin
0 0 11 = Copied 6
0 0 12 begin
0 0 12 = Copied 7
0 0 13 = Ok 7
0 0 14 = Ok 4
0 1 11 = Ok 7
0 1 12 = Ok 7
0 1 13 begin
0 1 13 = Copied 00000001-0000-0001-0000-000000000000 0 1
0 1 14 begin
0 1 14 = Copied 00000001-0000-0001-0000-000000000001 2 3
0 1 15 begin
0 1 15 = Copied 00000001-0000-0001-0000-000000000002 4 5
0 1 16 begin
0 1 16 = Dropped 0 1
0 1 17 begin
0 1 17 = Dropped 2 3
0 1 18 begin
0 1 18 = Dropped 4 5
0 2 4 = Up 2
0 2 5 = Follows 1
0 2 6 begin cut 2
0 2 6 = Rebuilt 6
0 2 7 begin
0 2 7 = Copied 7
0 2 8 = Ok 7
0 2 9 = Ok 7
0 0 15 = Ok
0 2 10 = Ok 2
0 2 11 = Leads 2
0 2 12 begin
0 2 12 = Run remote 00000001-0000-0001-0000-000000000000 138 Piece 0000000000000000000000390000000002ebf1884b00000000000000000000000003e800000000000003e8ffffffffffffffffffffffffffff000000010e000000010261000000000000000001000000390000000002df1620d200000000000000000000000003e800000000000003e8ffffffffffffffffffffffffffff000000010e00000001026200
0 2 13 begin
0 2 13 = Run remote 00000001-0000-0001-0000-000000000002 138 Piece 0000000000000004000000390000000102a57be99700000000000000000000000003e800000000000003e8ffffffffffffffffffffffffffff000000010e000000010265000000000000000005000000390000000102919c410e00000000000000000000000003e800000000000003e8ffffffffffffffffffffffffffff000000010e00000001026600
0 2 14 = Run local 6 69 Mark 0000000000000006000000390000000102823ed97900000000000000000000000003e800000000000003e8ffffffffffffffffffffffffffff000000010e00000001026700
`# examples/faults.script
# A disk fails in a write: the broker stops, and nobody knows whether the write was done until it
# starts again.

brokers 2

# The first replace of broker 0's disk is done, and fails all the same. The second append of broker
# 1's disk isn't done.
fault 0 disk 0 replace 1 after
fault 0 disk 1 append 2 before

# Broker 0 leads epoch 0. Its flush syncs the segment and replaces the manifest: that was done, but
# the broker has stopped.
0 0 0 append 1000,-,:a
0 0 0 append 1000,-,:b
0 0 0 flush
0 0 0 flush

# Both batches come back. A broker that stopped no longer leads its epoch, and needs an election.
0 0 0 up
0 0 0 learn
0 0 0 elect
0 0 0 learn

# Broker 1 follows, a batch at a time. The second one doesn't reach its disk.
1 0 1 learn
1 0 1 join
1 0 1 follow 69
1 0 1 flush
1 0 1 follow 69

# It starts with its flushed log, and copies the batch again.
1 0 1 up
1 0 1 learn
1 0 1 join
1 0 1 follow 69
1 0 1 flush
1 0 1 ack

# Everything is flushed on both brokers, and committed.
0 0 0 flush
0 0 0 ack
0 0 0 fetch 0 1000
`0 0 0 = Ok 0 0 0
0 0 1 = Ok 1 1 0
0 0 2 = DiskFault
0 0 3 = Down
0 0 4 = Up 2
0 0 5 = NeedsElection 0
0 0 6 = Ok 1
0 0 7 = Leads 1
0 1 0 = Follows 1
0 1 1 = Cut 0
0 1 2 begin
0 1 2 = Copied 1
0 1 3 = Ok 1
0 1 4 begin
0 1 4 = DiskFault
0 1 5 = Up 1
0 1 6 = Follows 1
0 1 7 = Cut 1
0 1 8 begin
0 1 8 = Copied 2
0 1 9 = Ok 2
0 1 10 = Ok 0
0 0 8 = Ok 2
0 0 9 = Ok 2
0 0 10 = Run local 0 138 Mark 0000000000000000000000390000000002ebf1884b00000000000000000000000003e800000000000003e8ffffffffffffffffffffffffffff000000010e000000010261000000000000000001000000390000000002df1620d200000000000000000000000003e800000000000003e8ffffffffffffffffffffffffffff000000010e00000001026200
`# examples/first.script
# Three records are appended, each as a batch of its own, and read back.
# An append returns base offset, last offset and leader epoch.
0 0 0 append 1000,-,:a
0 0 0 append 1000,-,:b
0 0 0 append 1000,-,:c

# The log is flushed up to its end, and the high watermark rises to it.
0 0 0 flush
0 0 0 ack

# All three batches are returned, 69 bytes each, up to the high watermark.
0 0 0 fetch 0 1000
`0 0 0 = Ok 0 0 0
0 0 1 = Ok 1 1 0
0 0 2 = Ok 2 2 0
0 0 3 = Ok 3
0 0 4 = Ok 3
0 0 5 = Run local 0 207 Mark 0000000000000000000000390000000002ebf1884b00000000000000000000000003e800000000000003e8ffffffffffffffffffffffffffff000000010e000000010261000000000000000001000000390000000002df1620d200000000000000000000000003e800000000000003e8ffffffffffffffffffffffffffff000000010e000000010262000000000000000002000000390000000002ccb4b8a500000000000000000000000003e800000000000003e8ffffffffffffffffffffffffffff000000010e00000001026300
`# examples/from-outside.script
# A batch from outside, with base offset 99, leader epoch 5 and producer 7. Its checksum covers neither of the first two:
# the broker appends the batch at its log's end, in its own epoch, and changes nothing else.
0 0 0 raw 000000000000006300000039000000050228835a5e00000000000000000000000003e800000000000003e80000000000000007ffffffffffff000000010e00000001026100

# One bit of the value is wrong: refused, with the checksum that the batch has and the one that its bytes give.
0 0 0 raw 0000000000000000000000390000000002ebf1884b00000000000000000000000003e800000000000003e8ffffffffffffffffffffffffffff000000010e00000001026000

# The bytes end inside the header.
0 0 0 raw 0000

# Two records in one batch, the second with a key, no value, and a header of no value.
0 0 0 append 5,-,:a 6,:k,-,:h=-

0 0 0 flush
0 0 0 ack
0 0 0 fetch 0 1000
`0 0 0 = Ok 0 0 0
0 0 1 = Refused BadCrc 3958474827 4166193212
0 0 2 = Refused Short
0 0 3 = Ok 1 2 0
0 0 4 = Ok 3
0 0 5 = Ok 3
0 0 6 = Run local 0 149 Mark 000000000000000000000039000000000228835a5e00000000000000000000000003e800000000000003e80000000000000007ffffffffffff000000010e00000001026100000000000000000100000044000000000267651f9b00000000000100000000000000050000000000000006ffffffffffffffffffffffffffff000000020e0000000102610014000202026b0102026801
`";
